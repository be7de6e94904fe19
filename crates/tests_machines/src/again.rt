//! A list of events done again, each with its answer.

ghost use Rattle.std.specs.Prelude.{IsTrue};
ghost use Rattle.world_model.specs.Refusals.{IsShortEvent};

use crate::words::is_short;
use std::alloc::Global;
use world_core::{Messages, WorldOver};
use world_events::{Answer, Done, Event};

fn is_short_event(event: &Event) -> bool
    ensures { IsTrue result → IsShortEvent event.now }
{
    match event {
        Event::Submit { op, .. } => is_short(op),
        _ => true,
    }
}

fn same(first: &Answer, second: &Answer) -> bool {
    match (first, second) {
        (Answer::Prepared { txn }, Answer::Prepared { txn: other }) => txn == other,
        (Answer::Decided(decision), Answer::Decided(other)) => decision == other,
        (Answer::Submitted, Answer::Submitted) => true,
        (
            Answer::TookPrepare { txn, vote },
            Answer::TookPrepare {
                txn: other,
                vote: its,
            },
        ) => txn == other && vote == its,
        (
            Answer::TookVote { txn, vote, decided },
            Answer::TookVote {
                txn: other,
                vote: its,
                decided: also,
            },
        ) => { txn == other && vote == its && decided == also }
        (
            Answer::TookCommit { txn, version },
            Answer::TookCommit {
                txn: other,
                version: its,
            },
        ) => txn == other && version == its,
        (
            Answer::TookAbort { txn, version },
            Answer::TookAbort {
                txn: other,
                version: its,
            },
        ) => txn == other && version == its,
        (Answer::TookAck { txn }, Answer::TookAck { txn: other }) => txn == other,
        (Answer::TookSubmit, Answer::TookSubmit) => true,
        (Answer::TookReply { decision }, Answer::TookReply { decision: other }) => decision
            == other,
        (
            Answer::Delivered { version, kept },
            Answer::Delivered {
                version: its,
                kept: also,
            },
        ) => { version == its && kept.as_slice() == also.as_slice() }
        _ => false,
    }
}

/// Whether the world does this event with this answer.
fn does_again(world: &mut WorldOver<Messages>, done: &Done) -> bool {
    if !is_short_event(&done.event) {
        return false;
    }
    match world.apply(&done.event) {
        Ok(answer) => same(&answer, &done.answer),
        Err(_) => false,
    }
}

/// The place of the first event that the world does not do again with the same answer.
fn first_difference(world: &mut WorldOver<Messages>, list: &[Done]) -> Option<usize> {
    for (place, done) in list.iter().enumerate() {
        if !does_again(world, done) {
            return Some(place);
        }
    }
    None
}

/// Whether a machine of all cores as one value, with these budgets, does the events with the same answers.
pub(crate) fn is_done_again(alloc: Global, budgets: &[u32], list: &[Done]) -> bool {
    match WorldOver::<Messages>::boot(alloc, budgets) {
        Ok(mut world) => first_difference(&mut world, list).is_none(),
        Err(_) => false,
    }
}
