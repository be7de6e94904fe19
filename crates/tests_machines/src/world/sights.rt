//! What the tests see of a world, to compare it with an earlier one.

use crate::facts::equal;
use monitor_messages::{Decision, Vote};
use std::process::Abort;
use table_replica::Replica;
use world_core::{Answer, Channel, Done, WorldOver};

/// What is seen of a core, in numbers.
#[derive(Clone, Copy, PartialEq, Eq, Debug)]
pub(crate) struct Sight {
    version: u64,
    is_staged: bool,
    caps: usize,
    next_cap: u32,
    filters: usize,
    instructions: u32,
    waits: bool,
}

/// How many filters are listed.
pub(crate) fn listed(replica: &Replica) -> usize {
    let mut count = 0usize;
    for _filter in replica.filters() {
        count = count.wrapping_add(1);
    }
    count
}

fn sight_of<C: Channel>(world: &WorldOver<C>, core: u16) -> Option<Sight> {
    let replica = world.replica(core)?;
    Some(Sight {
        version: replica.version(),
        is_staged: replica.staged(),
        caps: replica.caps().len(),
        next_cap: replica.caps().next(),
        filters: listed(replica),
        instructions: replica.total_instructions(),
        waits: world.waiting(core).is_some(),
    })
}

/// What is seen of cores 0 and 1.
pub(crate) fn sights<C: Channel>(world: &WorldOver<C>) -> (Option<Sight>, Option<Sight>) {
    (sight_of(world, 0), sight_of(world, 1))
}

/// How far cores 0 and 1 are.
#[derive(Clone, Copy, PartialEq, Eq, Debug)]
pub(crate) struct Places {
    core0: Option<(u64, bool)>,
    peer: Option<(u64, bool)>,
    waits: bool,
}

/// The version, and whether an operation is staged.
fn place(replica: Option<&Replica>) -> Option<(u64, bool)> {
    replica.map(|replica| (replica.version(), replica.staged()))
}

pub(crate) fn places_of<C: Channel>(world: &WorldOver<C>) -> Places {
    Places {
        core0: place(world.replica(0)),
        peer: place(world.replica(1)),
        waits: world.waiting(1).is_some(),
    }
}

/// How far cores 0 and 1 are after these events.
pub(crate) fn after(before: Places, done: &[Done]) -> Places {
    let mut places = before;
    for done in done {
        places = after_one(places, &done.answer);
    }
    places
}

fn after_one(before: Places, answer: &Answer) -> Places {
    let mut places = before;
    match answer {
        Answer::TookPrepare { vote, .. } => {
            places.peer = before
                .peer
                .map(|(version, _)| (version, *vote == Vote::Yes));
        }
        Answer::TookVote {
            decided: Some(Decision::Committed { version, .. }),
            ..
        } => places.core0 = Some((*version, false)),
        Answer::TookVote {
            decided: Some(Decision::Refused { .. }),
            ..
        } => places.core0 = before.core0.map(|(version, _)| (version, false)),
        Answer::TookCommit { version, .. } | Answer::TookAbort { version, .. } => {
            places.peer = Some((*version, false));
        }
        Answer::TookSubmit => places.waits = true,
        _ => {}
    }
    places
}

/// Cores 0 and 1 are at one version, with nothing staged and equal tables.
pub(crate) fn are_equal<C: Channel>(rt: &impl Abort, world: &WorldOver<C>) {
    let core0 = world.replica(0).expect(rt, "core 0");
    let peer = world.replica(1).expect(rt, "core 1");
    equal(rt, (core0.staged(), peer.staged()), (false, false));
    equal(rt, peer.version(), core0.version());
    equal(rt, peer.caps().len(), core0.caps().len());
    for (one, other) in peer.caps().list().zip(core0.caps().list()) {
        equal(rt, one.1, other.1);
    }
    equal(rt, peer.caps().next(), core0.caps().next());
    equal(rt, listed(peer), listed(core0));
    for (one, other) in peer.filters().zip(core0.filters()) {
        equal(rt, (one.id, one.owner), (other.id, other.owner));
        equal(rt, (one.cap, one.endpoint), (other.cap, other.endpoint));
        equal(rt, one.program.code(), other.program.code());
    }
}
