//! The bytes of messages that bring no operation, which take no memory.

ghost use Rattle.std.specs.Prelude.{◌≡◌, ◌+◌, ◌≤◌, ◌++◌, ◌∷◌, length, IfSome, IsNone};
ghost use Rattle.std.specs.Int.{w64, to_le_bytes};
ghost use Rattle.arrayvec.specs.ArrayVec.{array_vec_len};
ghost use Rattle.monitor_messages.specs.Coding.{fault_number, fault_bytes, made_bytes, veto_bytes, decision_bytes, vote_number, coded, Coded, IsNumbered, IsMade, IsFault, IsVeto, IsDecision, IsMessage};
ghost use Rattle.monitor_messages.specs.Carrying.{BringsOp};

use crate::message::Message;
use arrayvec::ArrayVec;
use filter_table::{Decision, Made, OpFault, Veto, Vote};

/// The bytes of a message that brings no operation are at most so many.
const MOST: usize = 23;

/// The bytes of a message that brings no operation.
pub type ShortBytes = ArrayVec<u8, MOST>;

/// The bytes of a message under this stamp, at most a line of a ring, unless it brings an operation. Takes no memory.
pub fn short_bytes(stamp: u64, message: &Message) -> Option<ShortBytes>
    ensures bytes { IfSome result (λ v. v.items ≡ coded stamp message.now) }
    ensures coded { IfSome result (λ v. IsNumbered message.now → Coded v.items stamp message.now) }
    ensures fits { IfSome result (λ _. IsMessage message.now) }
    ensures length { IfSome result (λ v. (1 ≤ length v.items) × (length v.items ≤ 56)) }
    ensures none { IsNone result → BringsOp message.now }
{
    match message {
        Message::Prepare { .. } | Message::Submit { .. } => None,
        Message::Vote { txn, vote } => {
            let mut out = numbered(2, stamp, *txn);
            out.push(number_of_vote(*vote));
            Some(out)
        }
        Message::Commit { txn } => Some(numbered(3, stamp, *txn)),
        Message::Abort { txn } => Some(numbered(4, stamp, *txn)),
        Message::Ack { txn } => Some(numbered(5, stamp, *txn)),
        Message::Reply { decision } => {
            let mut out = headed(7, stamp);
            put_decision(&mut out, decision);
            Some(out)
        }
    }
}

/// The kind of a message and its stamp.
pub(crate) fn headed(kind: u8, stamp: u64) -> ShortBytes
    ensures bytes { result.items ≡ kind ∷ to_le_bytes w64 stamp }
    ensures length { array_vec_len result ≡ 9 }
{
    let mut out = ArrayVec::new();
    out.push(kind);
    put(&mut out, &stamp.to_le_bytes());
    out
}

/// The kind of a message, its stamp, and the number of what it is about.
pub(crate) fn numbered(kind: u8, stamp: u64, txn: u64) -> ShortBytes
    ensures bytes { result.items ≡ kind ∷ to_le_bytes w64 stamp ++ to_le_bytes w64 txn }
    ensures length { array_vec_len result ≡ 17 }
{
    let mut out = headed(kind, stamp);
    put(&mut out, &txn.to_le_bytes());
    out
}

/// Bytes more, for which there is room.
fn put(out: &mut ShortBytes, bytes: &[u8])
    requires { array_vec_len out.old + length bytes.now ≤ MOST }
    ensures bytes { out.new.items ≡ out.old.items ++ bytes.now }
    ensures length { array_vec_len out.new ≡ array_vec_len out.old + length bytes.now }
{
    let Ok(()) = out.try_extend_from_slice(bytes) else {
        unreachable!()
    };
}

fn put_decision(out: &mut ShortBytes, decision: &Decision)
    requires { array_vec_len out.old ≤ 9 }
    ensures bytes { out.new.items ≡ out.old.items ++ decision_bytes decision.now }
    ensures fits { IsDecision decision.now }
{
    match *decision {
        Decision::Committed { version, made } => {
            out.push(0);
            put(out, &version.to_le_bytes());
            put_made(out, made);
        }
        Decision::Refused { core, why } => {
            out.push(1);
            put(out, &core.to_le_bytes());
            put_veto(out, why);
        }
    }
}

fn put_made(out: &mut ShortBytes, made: Made)
    requires { array_vec_len out.old ≤ 18 }
    ensures bytes { out.new.items ≡ out.old.items ++ made_bytes made }
    ensures fits { IsMade made }
{
    match made {
        Made::Nothing => out.push(0),
        Made::Cap(id) => {
            out.push(1);
            put(out, &id.to_le_bytes());
        }
        Made::Filter(id) => {
            out.push(2);
            put(out, &id.to_le_bytes());
        }
    }
}

fn put_veto(out: &mut ShortBytes, why: Veto)
    requires { array_vec_len out.old ≤ 18 }
    ensures bytes { out.new.items ≡ out.old.items ++ veto_bytes why }
    ensures fits { IsVeto why }
{
    match why {
        Veto::Budget => out.push(0),
        Veto::NoMemory => out.push(1),
        Veto::Rule(fault) => {
            out.push(2);
            put_fault(out, fault);
        }
    }
}

fn put_fault(out: &mut ShortBytes, fault: OpFault)
    requires { array_vec_len out.old ≤ 19 }
    ensures bytes { out.new.items ≡ out.old.items ++ fault_bytes fault }
    ensures fits { IsFault fault }
{
    if let OpFault::BadProgram { rule, pc } = fault {
        out.push(17);
        out.push(rule);
        put(out, &pc.to_le_bytes());
    } else {
        out.push(number_of_fault(fault));
    }
}

fn number_of_fault(fault: OpFault) -> u8
    ensures { fault_number fault ≡ result }
{
    match fault {
        OpFault::NoCap => 1,
        OpFault::NotHolder => 2,
        OpFault::NoRight => 3,
        OpFault::RightsExceed => 4,
        OpFault::EndpointTaken => 5,
        OpFault::CapsFull => 6,
        OpFault::IdsSpent => 7,
        OpFault::NoFilter => 11,
        OpFault::NotOwner => 12,
        OpFault::TableFull => 13,
        OpFault::FilterIdsSpent => 14,
        OpFault::BadProgram { .. } => 17,
        OpFault::VersionsSpent => 18,
        OpFault::DomainFull => 19,
    }
}

/// The number of a vote.
pub(crate) fn number_of_vote(vote: Vote) -> u8
    ensures { result ≡ vote_number vote }
{
    match vote {
        Vote::Yes => 0,
        Vote::Budget => 1,
        Vote::NoMemory => 2,
    }
}
