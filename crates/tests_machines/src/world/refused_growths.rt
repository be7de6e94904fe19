//! Runs of two cores where one growth is refused, whichever it is. An event that it meets changes nothing and is done again; a core
//! that has no memory for an operation refuses it, and then the request is begun again.

use super::sights::are_equal;
use super::steps::{Asked, are_told, boot, outcome, settled, settles};
use crate::facts::{equal, holds};
use monitor_messages::Vote;
use std::alloc::Global;
use std::process::Abort;
use test_words::{ARP, Ask, CAP, EventWords, FILTER, REQUEST, TAKEN, no_memory};
use world_core::{Channel, Lines, Messages, WorldFault, WorldOver};

/// The events tell this, one after the other.
fn tell<C: Channel>(
    rt: &impl Abort,
    alloc: Global,
    world: &mut WorldOver<C>,
    events: &[(Asked, EventWords)],
) {
    for (asked, wanted) in events {
        equal(rt, outcome(rt, alloc, world, *asked), Ok(*wanted));
    }
}

/// The event isn't done, for this fault.
fn fails<C: Channel>(
    rt: &impl Abort,
    alloc: Global,
    world: &mut WorldOver<C>,
    asked: Asked,
    fault: WorldFault,
) {
    equal(rt, outcome(rt, alloc, world, asked), Err(fault));
}

#[test]
fn two_phases_with_a_refused_growth(rt: HostRuntime) {
    two_phase::<Messages>(&rt, rt.alloc());
    two_phase::<Lines>(&rt, rt.alloc());
}

/// Core 0 commits the filter by core 1's vote, and receives by it before core 1 does.
fn two_phase<C: Channel>(rt: &impl Abort, alloc: Global) {
    let mut world = boot::<C>(rt, alloc, &[100, 100]);
    if !is_created(rt, alloc, &mut world) {
        holds(rt, is_created(rt, alloc, &mut world));
    }
    let txn = match installs(rt, alloc, &mut world) {
        Some(txn) => txn,
        None => installs(rt, alloc, &mut world).expect(rt, "there is memory"),
    };
    tell(
        rt,
        alloc,
        &mut world,
        &[
            (
                Asked::Take(0, 1),
                EventWords::TookVote(txn, Vote::Yes, Some(FILTER)),
            ),
            (Asked::Rx(1, &REQUEST, 0), EventWords::Delivered(1, 0, 0, 0)),
            (
                Asked::Rx(0, &REQUEST, 0),
                EventWords::Delivered(2, 1, 7, 14),
            ),
            (Asked::Take(1, 0), EventWords::TookCommit(txn, 2)),
            (
                Asked::Rx(1, &REQUEST, 0),
                EventWords::Delivered(2, 1, 7, 14),
            ),
        ],
    );
    let late = Asked::Rx(1, &REQUEST, 3);
    fails(rt, alloc, &mut world, late, WorldFault::NotReady);
    settles(rt, alloc, &mut world, &[(0, 1, EventWords::TookAck(txn))]);
    are_equal(rt, &world);
    drop(world);
}

/// The number under which core 1 is asked.
fn asks<C: Channel>(rt: &impl Abort, alloc: Global, world: &mut WorldOver<C>, ask: Ask) -> u64 {
    match outcome(rt, alloc, world, Asked::Start(ask)) {
        Ok(EventWords::Prepared(txn)) => txn,
        _ => panic!(rt; "core 1 is asked"),
    }
}

/// Settling makes the first capability, or else core 1 had no memory for it, and both cores are as before.
fn is_created<C: Channel>(rt: &impl Abort, alloc: Global, world: &mut WorldOver<C>) -> bool {
    let txn = asks(rt, alloc, world, Ask::Create(1, 7));
    let done = settled(rt, alloc, world);
    are_equal(rt, world);
    let is_committed = world
        .replica(0)
        .is_some_and(|replica| replica.version() == 1);
    let (vote, decision, end) = if is_committed {
        (Vote::Yes, CAP, EventWords::TookCommit(txn, 1))
    } else {
        (Vote::NoMemory, no_memory(1), EventWords::TookAbort(txn, 0))
    };
    are_told(
        rt,
        &done,
        &[
            (1, 0, EventWords::TookPrepare(txn, vote)),
            (0, 1, EventWords::TookVote(txn, vote, Some(decision))),
            (1, 0, end),
            (0, 1, EventWords::TookAck(txn)),
        ],
    );
    is_committed
}

/// The number of the filter's installation, on which core 1 has voted Yes; none where it had no memory for that, and both cores have
/// given it up.
fn installs<C: Channel>(rt: &impl Abort, alloc: Global, world: &mut WorldOver<C>) -> Option<u64> {
    let txn = asks(rt, alloc, world, Ask::Install(1, 1, ARP));
    if votes_yes(rt, alloc, world, txn) {
        return Some(txn);
    }
    settles(
        rt,
        alloc,
        world,
        &[
            (
                0,
                1,
                EventWords::TookVote(txn, Vote::NoMemory, Some(no_memory(1))),
            ),
            (1, 0, EventWords::TookAbort(txn, 1)),
            (0, 1, EventWords::TookAck(txn)),
        ],
    );
    are_equal(rt, world);
    None
}

/// Whether core 1 votes Yes on this number; else it had no memory.
fn votes_yes<C: Channel>(
    rt: &impl Abort,
    alloc: Global,
    world: &mut WorldOver<C>,
    txn: u64,
) -> bool {
    let told = outcome(rt, alloc, world, Asked::Take(1, 0));
    if told == Ok(EventWords::TookPrepare(txn, Vote::Yes)) {
        return true;
    }
    equal(rt, told, Ok(EventWords::TookPrepare(txn, Vote::NoMemory)));
    false
}

#[test]
fn core_0_with_a_refused_growth(rt: HostRuntime) {
    core0::<Messages>(&rt, rt.alloc());
    core0::<Lines>(&rt, rt.alloc());
}

/// Requests enter at core 1. The second is refused as soon as it is started.
fn core0<C: Channel>(rt: &impl Abort, alloc: Global) {
    let mut world = boot::<C>(rt, alloc, &[9, 9]);
    let none = WorldFault::NoneWaiting;
    fails(rt, alloc, &mut world, Asked::StartFor(1), none);
    let txn = match creates_for(rt, alloc, &mut world) {
        Some(txn) => txn,
        None => creates_for(rt, alloc, &mut world).expect(rt, "there is memory"),
    };
    tell(
        rt,
        alloc,
        &mut world,
        &[
            (
                Asked::Take(0, 1),
                EventWords::TookVote(txn, Vote::Yes, Some(CAP)),
            ),
            (Asked::Take(1, 0), EventWords::TookCommit(txn, 1)),
            (Asked::Take(0, 1), EventWords::TookAck(txn)),
            (Asked::Take(1, 0), EventWords::TookReply(CAP)),
            (Asked::Submit(1, 7), EventWords::Submitted),
        ],
    );
    settles(rt, alloc, &mut world, &[(0, 1, EventWords::TookSubmit)]);
    let taken = EventWords::Decided(TAKEN);
    tell(rt, alloc, &mut world, &[(Asked::StartFor(1), taken)]);
    settles(
        rt,
        alloc,
        &mut world,
        &[(1, 0, EventWords::TookReply(TAKEN))],
    );
    are_equal(rt, &world);
    drop(world);
}

/// The number of core 1's request, on which it has voted Yes; none where a core had no memory for that, and core 1 has the reply.
fn creates_for<C: Channel>(
    rt: &impl Abort,
    alloc: Global,
    world: &mut WorldOver<C>,
) -> Option<u64> {
    let submit = Asked::Submit(1, 7);
    tell(rt, alloc, world, &[(submit, EventWords::Submitted)]);
    fails(rt, alloc, world, submit, WorldFault::Outstanding);
    tell(
        rt,
        alloc,
        world,
        &[(Asked::Take(0, 1), EventWords::TookSubmit)],
    );
    holds(rt, world.waiting(1).is_some());
    let begun = outcome(rt, alloc, world, Asked::StartFor(1));
    holds(rt, world.waiting(1).is_none());
    match begun {
        Ok(EventWords::Prepared(txn)) => {
            if votes_yes(rt, alloc, world, txn) {
                return Some(txn);
            }
            given_up(rt, alloc, world, txn);
        }
        _ => {
            equal(rt, begun, Ok(EventWords::Decided(no_memory(0))));
            settles(
                rt,
                alloc,
                world,
                &[(1, 0, EventWords::TookReply(no_memory(0)))],
            );
        }
    }
    are_equal(rt, world);
    None
}

/// Core 1's own vote is why its request is refused.
fn given_up<C: Channel>(rt: &impl Abort, alloc: Global, world: &mut WorldOver<C>, txn: u64) {
    let none = no_memory(1);
    settles(
        rt,
        alloc,
        world,
        &[
            (0, 1, EventWords::TookVote(txn, Vote::NoMemory, Some(none))),
            (1, 0, EventWords::TookAbort(txn, 0)),
            (0, 1, EventWords::TookAck(txn)),
            (1, 0, EventWords::TookReply(none)),
        ],
    );
}
