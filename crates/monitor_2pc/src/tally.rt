//! Votes and acknowledgements, core c's at entry c - 1. Those that are missing are counted, so that only the last one looks at
//! the others.

ghost use Rattle.std.specs.Prelude.{◌≡◌, ◌≢◌, ◌<◌, ◌≤◌, ◌↔◌, IsTrue, ℕ, true, false, None, Some, IfOk, OnSome, IfSome, IfNone, length, slice_get, slice_set};
ghost use Rattle.std.specs.List.{list_all};
ghost use Rattle.std.proofs.Common.{replicate};
ghost use Rattle.monitor_2pc.specs.Tallying.{Tallied, SaysOn};

use filter_table::Vote;
use std::alloc::{AllocError, Global};
use std::marker::Model;
use two_phase::{MOST_CORES, Say};

/// What votes come to.
#[derive(Clone, Copy)]
pub(crate) enum Tally {
    /// One is missing.
    Open,
    /// All are Yes.
    AllYes,
    /// This core is the least that voted otherwise, and voted so.
    Against(u16, Vote),
}

/// The votes so far, and how many are missing.
pub(crate) struct VoteList {
    votes: Vec<Option<Vote>>,
    missing: usize,
}

// By hand, so that the proofs of its owners have one call and not a drop of each part.
impl Drop for VoteList {
    fn drop(self) {
        let VoteList {
            votes: _,
            missing: _,
        } = self;
    }
}

impl Model for VoteList {
    ghost use Rattle.std.specs.Prelude.{◌≡◌, ◌<◌, List, Option, length};
    ghost use Rattle.filter_table.specs.declared.decision.Vote.{Vote as GhostVote};
    ghost use Rattle.two_phase.specs.declared.most.TheConstants.{MOST_CORES};
    ghost use Rattle.monitor_2pc.specs.Counting.{votes_missing};

    ghost Value = { List (Option GhostVote) };

    ghost view = { λ list. list.votes.items };

    ghost invariant = { λ list. (length list.votes.items < MOST_CORES) × (list.missing ≡ votes_missing list.votes.items) };
}

impl VoteList {
    /// Of so many cores, all of whose votes are missing.
    pub(crate) fn new(alloc: Global, others: usize) -> Result<VoteList, AllocError>
        requires { others < MOST_CORES }
        ensures { IfOk result (λ list. list ≡ replicate others None) }
    {
        Ok(VoteList {
            votes: vec![in alloc; None; others]?,
            missing: others,
        })
    }

    /// Puts in a vote where there is none yet, and tells what the votes come to then.
    pub(crate) fn cast(&mut self, entry: usize, vote: Vote) -> Option<Tally>
        ensures open { OnSome result (slice_get self.old entry ≡ Some None) }
        ensures cast { OnSome result (self.new ≡ slice_set self.old entry (Some vote)) }
        ensures tallied { IfSome result (Tallied self.new) }
        ensures not_open { IfNone result (slice_get self.old entry ≡ Some None → ⊥) }
        ensures same { IfNone result (self.new ≡ self.old) }
    {
        if entry >= self.votes.len() || self.votes[entry].is_some() {
            return None;
        }
        self.votes[entry] = Some(vote);
        self.missing -= 1;
        if self.missing > 0 {
            return Some(Tally::Open);
        }
        Some(outcome_of(&self.votes))
    }

    /// What core 0 says once this vote is put in where there is none yet.
    pub(crate) fn verdict_with(&self, entry: usize, vote: Vote) -> Option<Say>
        ensures { slice_get self.now entry ≡ Some None → SaysOn (slice_set self.now entry (Some vote)) result }
    {
        if self.missing > 1 {
            return None;
        }
        verdict_of(&self.votes, entry, vote)
    }

    /// Whether the vote at this entry is missing.
    pub(crate) fn is_missing(&self, entry: usize) -> bool
        ensures { IsTrue result ↔ (slice_get self.now entry ≡ Some None) }
    {
        match self.votes.get(entry) {
            Some(vote) => vote.is_none(),
            None => false,
        }
    }

    /// Takes all votes out.
    pub(crate) fn clear(&mut self)
        ensures { self.new ≡ replicate (length self.old) None }
    {
        self.votes.fill(None);
        self.missing = self.votes.len();
    }
}

/// What votes come to, none of which is missing.
fn outcome_of(votes: &[Option<Vote>]) -> Tally
    requires few { length votes.now < MOST_CORES }
    requires full { (i : ℕ) → slice_get votes.now i ≢ Some None }
    ensures { Tallied votes.now result }
{
    for (entry, vote) in votes.iter().enumerate() {
        match *vote {
            Some(Vote::Yes) => {}
            Some(against) => return Tally::Against(entry as u16 + 1, against),
            None => unreachable!(),
        }
    }
    Tally::AllYes
}

/// What core 0 says on these votes, with this one at the entry.
fn verdict_of(votes: &[Option<Vote>], entry: usize, vote: Vote) -> Option<Say>
    ensures { SaysOn (slice_set votes.now entry (Some vote)) result }
{
    let mut verdict = Say::Commit;
    for (place, cast) in votes.iter().enumerate() {
        let cast = if place == entry { Some(vote) } else { *cast };
        match cast {
            None => return None,
            Some(Vote::Yes) => {}
            Some(Vote::Budget | Vote::NoMemory) => verdict = Say::Abort,
        }
    }
    Some(verdict)
}

/// The cores that acknowledged, and how many did not yet.
pub(crate) struct AckList {
    acks: Vec<bool>,
    missing: usize,
}

// By hand, so that the proofs of its owners have one call and not a drop of each part.
impl Drop for AckList {
    fn drop(self) {
        let AckList {
            acks: _,
            missing: _,
        } = self;
    }
}

impl Model for AckList {
    ghost use Rattle.std.specs.Prelude.{◌≡◌, Bool, List};
    ghost use Rattle.monitor_2pc.specs.Counting.{acks_missing};

    ghost Value = { List Bool };

    ghost view = { λ list. list.acks.items };

    ghost invariant = { λ list. list.missing ≡ acks_missing list.acks.items };
}

impl AckList {
    /// Of so many cores, none of which is marked.
    pub(crate) fn new(alloc: Global, others: usize) -> Result<AckList, AllocError>
        ensures { IfOk result (λ list. list ≡ replicate others false) }
    {
        Ok(AckList {
            acks: vec![in alloc; false; others]?,
            missing: others,
        })
    }

    /// Marks the entry where it is not marked, and tells whether all are then.
    pub(crate) fn mark(&mut self, entry: usize) -> Option<bool>
        ensures open { OnSome result (slice_get self.old entry ≡ Some false) }
        ensures marked { OnSome result (self.new ≡ slice_set self.old entry true) }
        ensures all { IfSome result (λ all. all ≡ list_all (λ ack. ack) self.new) }
        ensures not_open { IfNone result (slice_get self.old entry ≡ Some false → ⊥) }
        ensures same { IfNone result (self.new ≡ self.old) }
    {
        if entry >= self.acks.len() || self.acks[entry] {
            return None;
        }
        self.acks[entry] = true;
        self.missing -= 1;
        Some(self.missing == 0)
    }

    /// Whether all others than this entry, which is not marked, are marked.
    pub(crate) fn is_last(&self, entry: usize) -> bool
        ensures { slice_get self.now entry ≡ Some false → result ≡ list_all (λ ack. ack) (slice_set self.now entry true) }
    {
        self.missing == 1
    }

    /// Whether this entry is not marked.
    pub(crate) fn is_missing(&self, entry: usize) -> bool
        ensures { IsTrue result ↔ (slice_get self.now entry ≡ Some false) }
    {
        match self.acks.get(entry) {
            Some(marked) => !*marked,
            None => false,
        }
    }

    /// Takes all marks off.
    pub(crate) fn unmark(&mut self)
        ensures { self.new ≡ replicate (length self.old) false }
    {
        self.acks.fill(false);
        self.missing = self.acks.len();
    }
}
