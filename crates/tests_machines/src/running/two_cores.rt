//! Two cores that answer each other, over lists.

ghost use Rattle.std.specs.Prelude.{◌≤◌, vec_len};

use super::{carry, core_of, creation, has_turned, place};
use crate::facts::{equal, holds};
use core_loop::{Core, ListLinks, Stamped};
use core_machine::{Recorded, RecordedTurn};
use monitor_messages::{Message, Vote, encode};
use rx_queue::{Port, queue};
use std::alloc::{AllocError, Global};
use std::collections::VecDeque;
use std::process::Abort;
use table_replica::{Limits, Op};
use test_words::{ALL, CAP, EventWords, FILTER, is_for_memory, job, program, tells};

/// Requests to create endpoint 7 and to install a filter that accepts every packet.
fn installation(rt: &impl Abort, alloc: Global) -> VecDeque<Op> {
    let mut requests = creation(rt, alloc);
    let install = Op::Install {
        domain: 1,
        cap: 1,
        program: program(alloc, ALL).expect(rt, "there is memory"),
    };
    requests.push_back(install).expect(rt, "there is memory");
    requests
}

/// Core 0 of two, which has both requests.
fn core_0(rt: &impl Abort, alloc: Global, capacity: usize) -> (Recorded<ListLinks>, Port) {
    let (port, intake) = queue(alloc, 4).expect(rt, "there is memory");
    let links = ListLinks::new(alloc, 0, 2, capacity).expect(rt, "there is memory");
    let core = Core::new(
        alloc,
        links,
        Limits::DEFAULT,
        100,
        0,
        2,
        installation(rt, alloc),
        intake,
    );
    let core = core.expect(rt, "there is memory");
    (Recorded::new(alloc, core), port)
}

/// The history has just these stamps and answers.
fn has(rt: &impl Abort, history: &[Stamped], wanted: &[(u64, EventWords)]) {
    equal(rt, history.len(), wanted.len());
    for (event, wanted) in history.iter().zip(wanted) {
        equal(rt, (event.stamp, tells(&event.done.answer)), *wanted);
    }
}

static FIRST: [(u64, EventWords); 6] = [
    (1, EventWords::Prepared(1)),
    (3, EventWords::TookVote(1, Vote::Yes, Some(CAP))),
    (5, EventWords::TookAck(1)),
    (6, EventWords::Prepared(2)),
    (8, EventWords::TookVote(2, Vote::Yes, Some(FILTER))),
    (10, EventWords::TookAck(2)),
];

static OTHER: [(u64, EventWords); 4] = [
    (2, EventWords::TookPrepare(1, Vote::Yes)),
    (4, EventWords::TookCommit(1, 1)),
    (7, EventWords::TookPrepare(2, Vote::Yes)),
    (9, EventWords::TookCommit(2, 2)),
];

/// A turn; one that is refused memory changes nothing, and the next is as the first would have been.
fn sure_turn(rt: &impl Abort, core: &mut Recorded<ListLinks>) {
    let before = place(core);
    if !has_turned(core) {
        equal(rt, before, place(core));
        holds(rt, has_turned(core));
    }
}

/// Turns both cores, one after the other, and carries what they send; one of them may be refused memory once.
fn run(
    rt: &impl Abort,
    alloc: Global,
    first: &mut Recorded<ListLinks>,
    other: &mut Recorded<ListLinks>,
) -> Result<(), AllocError> {
    for _ in 0..20 {
        sure_turn(rt, first);
        carry(alloc, first, other)?;
        sure_turn(rt, other);
        carry(alloc, other, first)?;
    }
    Ok(())
}

/// The number of the job in front.
fn front(core: &mut Recorded<ListLinks>) -> Option<u64> {
    core.look();
    Some(core.core().seen()?.number)
}

/// The two commit, and core 1 receives the job that it can.
fn commit_and_receive(
    rt: &impl Abort,
    alloc: Global,
    first: &mut Recorded<ListLinks>,
    other: &mut Recorded<ListLinks>,
) {
    run(rt, alloc, first, other).expect(rt, "there is memory");
    has(rt, first.events(), &FIRST);
    let (agreed, received) = other.events().split_at(other.events().len().min(4));
    has(rt, agreed, &OTHER);
    has(rt, received, &[(10, EventWords::Delivered(2, 1, 7, 5))]);
    holds(rt, first.core().idle() && other.core().idle());
    equal(rt, front(other), Some(2));
}

/// Core 1 of two, with a job for version 2 and one for version 9.
fn busy_core(rt: &impl Abort, alloc: Global) -> (Recorded<ListLinks>, Port) {
    let (core, mut port) = core_of(rt, alloc, 1, 2, 8);
    for (number, floor) in [(1, 2), (2, 9)] {
        let job = job(alloc, number, floor).expect(rt, "there is memory");
        holds(rt, port.put(job).is_ok());
    }
    (core, port)
}

#[test]
fn two_cores_commit_and_receive(rt: HostRuntime) {
    let (mut first, port) = core_0(&rt, rt.alloc(), 8);
    let (mut other, other_port) = busy_core(&rt, rt.alloc());
    commit_and_receive(&rt, rt.alloc(), &mut first, &mut other);
    drop((first, port, other, other_port));
}

/// Whether core 0 starts its request, is given this as core 1's, and then waits with it.
fn waits_with(core: &mut Recorded<ListLinks>, message: Vec<u8>) -> bool
    requires length { (1 ≤ vec_len message) × (vec_len message ≤ 32832) }
{
    core.turn(true) == RecordedTurn::Did
        && core.events().len() == 1
        && core.give(1, message).is_ok()
        && core.turn(true) == RecordedTurn::Idle
        && core.events().len() == 1
}

/// A link of one message holds the Prepare, so core 0 could not send the Commit that answers the vote.
#[test]
fn a_vote_waits_for_a_full_link(rt: HostRuntime) {
    let vote = Vote::Yes;
    let vote = encode(rt.alloc(), 2, &Message::Vote { txn: 1, vote }).expect(
        &rt,
        "there is memory",
    );
    let (mut first, port) = core_0(&rt, rt.alloc(), 1);
    holds(&rt, waits_with(&mut first, vote));
    drop((first, port));
}

/// Whether the core voted, or decided, that there was no memory.
fn lacked_memory(history: &[Stamped]) -> bool {
    history
        .iter()
        .any(|event| is_for_memory(&event.done.answer))
}

/// Both cores come to be done and agree. They did what they do with ample memory, unless one of them voted, or decided, that there was
/// none.
fn agree(
    rt: &impl Abort,
    alloc: Global,
    first: &mut Recorded<ListLinks>,
    other: &mut Recorded<ListLinks>,
) {
    run(rt, alloc, first, other).expect(rt, "there is memory");
    holds(rt, first.core().idle() && other.core().idle());
    equal(rt, first.core().pending(), 0);
    equal(rt, first.core().version(), other.core().version());
    if !lacked_memory(first.events()) && !lacked_memory(other.events()) {
        has(rt, first.events(), &FIRST);
        has(rt, other.events(), &OTHER);
    }
}

#[test]
fn two_cores_with_a_refused_growth(rt: HostRuntime) {
    let (mut first, port) = core_0(&rt, rt.alloc(), 8);
    let (mut other, other_port) = core_of(&rt, rt.alloc(), 1, 2, 8);
    agree(&rt, rt.alloc(), &mut first, &mut other);
    drop((first, port, other, other_port));
}
