//! The line of an event.

ghost use Rattle.std.specs.Prelude.{◌≡◌, ◌++◌, IfOk, Ok, OnOk, string_bytes};
ghost use Rattle.sim_lines.specs.Events.{answer_words, decided_words, event_line, event_words, kept_words, left_line, told_words};
ghost use Rattle.sim_lines.specs.Events as spec;

use crate::decision::{push_decision, vote_name};
use filter_table::{Decision, Kept};
use std::alloc::{AllocError, Global};
use std::fmt::Write;
use world_events::{Answer, Event, WorldFault};

/// The line of an event with its answer, or with the fault for which it was not done.
pub fn line_of(
    alloc: Global,
    event: &Event,
    told: &Result<Answer, WorldFault>,
) -> Result<Vec<u8>, AllocError>
    ensures { IfOk result (λ line. line.items ≡ event_line event.now told.now) }
{
    let mut line = String::new(alloc);
    push_event(&mut line, event)?;
    line.push_str(": ")?;
    push_told(&mut line, told)?;
    line.push_str("\n")?;
    Ok(line.into_bytes())
}

/// Adds the line of an event that was done.
pub fn push_done(text: &mut String, event: &Event, answer: &Answer) -> Result<(), AllocError>
    ensures { OnOk result (string_bytes text.new ≡ string_bytes text.old ++ event_line event.now (Ok answer.now)) }
{
    push_event(text, event)?;
    text.push_str(": ")?;
    push_answer(text, answer)?;
    text.push_str("\n")
}

/// Adds the line of a job of this core and of this number that was not received.
pub fn push_left(text: &mut String, core: u16, number: u64) -> Result<(), AllocError>
    ensures { OnOk result (string_bytes text.new ≡ string_bytes text.old ++ left_line core number) }
{
    writeln!(text, "left {core} {number}")
}

/// Prints what the event is.
fn push_event(line: &mut String, event: &Event) -> Result<(), AllocError>
    ensures { OnOk result (string_bytes line.new ≡ string_bytes line.old ++ event_words event.now) }
{
    match event {
        Event::Start { .. } => line.push_str("start"),
        Event::Submit { core, .. } => write!(line, "submit {core}"),
        Event::StartFor { core } => write!(line, "startfor {core}"),
        Event::Take { to, from, .. } => write!(line, "take {to} {from}"),
        Event::Rx { core, number, .. } => write!(line, "rx {core} {number}"),
    }
}

/// Prints the answer, or the fault.
fn push_told(line: &mut String, told: &Result<Answer, WorldFault>) -> Result<(), AllocError>
    ensures { OnOk result (string_bytes line.new ≡ string_bytes line.old ++ told_words told.now) }
{
    match told {
        Ok(answer) => push_answer(line, answer),
        Err(fault) => write!(line, "fault {}", fault_name(*fault)),
    }
}

/// Prints an answer.
fn push_answer(line: &mut String, answer: &Answer) -> Result<(), AllocError>
    ensures { OnOk result (string_bytes line.new ≡ string_bytes line.old ++ answer_words answer.now) }
{
    match answer {
        Answer::Prepared { txn } => write!(line, "prepared {txn}"),
        Answer::Decided(decision) => push_decision(line, *decision),
        Answer::Submitted => line.push_str("sent"),
        Answer::TookPrepare { txn, vote } => write!(line, "prepare {txn} {}", vote_name(*vote)),
        Answer::TookVote { txn, vote, decided } => {
            write!(line, "vote {txn} {}", vote_name(*vote))?;
            push_decided(line, *decided)
        }
        Answer::TookCommit { txn, version } => write!(line, "commit {txn} version {version}"),
        Answer::TookAbort { txn, version } => write!(line, "abort {txn} version {version}"),
        Answer::TookAck { txn } => write!(line, "ack {txn}"),
        Answer::TookSubmit => line.push_str("submit"),
        Answer::TookReply { decision } => {
            line.push_str("reply ")?;
            push_decision(line, *decision)
        }
        Answer::Delivered { version, kept } => {
            write!(line, "version {version}")?;
            push_kept(line, kept.as_slice())
        }
    }
}

/// Prints the decision that a vote brings, if it is the last one.
fn push_decided(line: &mut String, decided: Option<Decision>) -> Result<(), AllocError>
    ensures { OnOk result (string_bytes line.new ≡ string_bytes line.old ++ decided_words decided) }
{
    match decided {
        None => Ok(()),
        Some(decision) => {
            line.push_str(" ")?;
            push_decision(line, decision)
        }
    }
}

/// Prints the endpoints that get a packet.
fn push_kept(line: &mut String, kept: &[Kept]) -> Result<(), AllocError>
    ensures { OnOk result (string_bytes line.new ≡ string_bytes line.old ++ kept_words kept.now) }
{
    if kept.is_empty() {
        return line.push_str(" none");
    }
    for endpoint in kept {
        write!(line, " {}={}", endpoint.endpoint, endpoint.kept)?;
    }
    Ok(())
}

/// The name of a fault.
fn fault_name(fault: WorldFault) -> &'static str
    ensures { result.now ≡ spec.fault_name fault }
{
    match fault {
        WorldFault::NoSuchCore => "NoSuchCore",
        WorldFault::Nothing => "Nothing",
        WorldFault::NotReady => "NotReady",
        WorldFault::NotIdle => "NotIdle",
        WorldFault::Spent => "Spent",
        WorldFault::Outstanding => "Outstanding",
        WorldFault::NoneWaiting => "NoneWaiting",
        WorldFault::NoMemory => "NoMemory",
    }
}
