//! What is sent, in plain values.
ghost use Rattle.std.specs.Prelude.{IfOk};
ghost use Rattle.monitor_messages.specs.Coding.{IsShort};

use bpf_insn::TextFault;
use monitor_messages::{Decision, Message, Vote};
use std::alloc::Global;
use std::process::Abort;
use table_replica::Op;
use test_words::{Ask, op};

/// The operation, for which there is memory.
pub(crate) fn asked(rt: &impl Abort, alloc: Global, ask: Ask) -> Op {
    op(alloc, ask).expect(rt, "there is memory")
}

/// A message in plain values.
#[derive(Clone, Copy)]
pub(crate) enum Sent {
    Prepare(u64, Ask),
    Vote(u64, Vote),
    Commit(u64),
    Abort(u64),
    Ack(u64),
    Submit(Ask),
    Reply(Decision),
}

pub(crate) fn message(alloc: Global, sent: Sent) -> Result<Message, TextFault>
    ensures { IfOk result IsShort }
{
    Ok(match sent {
        Sent::Prepare(txn, ask) => Message::Prepare {
            txn,
            op: op(alloc, ask)?,
        },
        Sent::Vote(txn, vote) => Message::Vote { txn, vote },
        Sent::Commit(txn) => Message::Commit { txn },
        Sent::Abort(txn) => Message::Abort { txn },
        Sent::Ack(txn) => Message::Ack { txn },
        Sent::Submit(ask) => Message::Submit {
            op: op(alloc, ask)?,
        },
        Sent::Reply(decision) => Message::Reply { decision },
    })
}

/// The message, for which there is memory.
pub(crate) fn said(rt: &impl Abort, alloc: Global, sent: Sent) -> Message
    ensures { IsShort result }
{
    message(alloc, sent).expect(rt, "there is memory")
}
