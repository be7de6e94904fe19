//! The requests that wait at core 0.

ghost use Rattle.std.specs.Prelude.{◌≡◌, ◌<◌, ◌↔◌, ℕ, None, Some, IsTrue, IsFalse, IfOk, IfSome, IfNone, OnSome, length, slice_get, slice_set};
ghost use Rattle.std.proofs.Common.{replicate};
ghost use Rattle.filter_table.specs.declared.operation.Op.{Op as GhostOp};

use filter_table::Op;
use std::alloc::{AllocError, Global};
use std::marker::Model;

/// The request that each other core has waiting, core c's at entry c - 1, and how many wait.
pub(crate) struct WaitingList {
    entries: Vec<Option<Op>>,
    count: usize,
}

// By hand, so that the proofs of its owners have one call and not a drop of each part.
impl Drop for WaitingList {
    fn drop(self) {
        let WaitingList {
            entries: _,
            count: _,
        } = self;
    }
}

impl Model for WaitingList {
    ghost use Rattle.std.specs.Prelude.{◌≡◌, List, Option};
    ghost use Rattle.filter_table.specs.declared.operation.Op.{Op as GhostOp};
    ghost use Rattle.monitor_2pc.specs.Counting.{requests_waiting};

    ghost Value = { List (Option GhostOp) };

    ghost view = { λ list. list.entries.items };

    ghost invariant = { λ list. list.count ≡ requests_waiting list.entries.items };
}

impl WaitingList {
    /// Of so many cores, none of which has a request waiting.
    pub(crate) fn new(alloc: Global, others: usize) -> Result<WaitingList, AllocError>
        ensures { IfOk result (λ list. list ≡ replicate others None) }
    {
        Ok(WaitingList {
            entries: vec![in alloc; None; others]?,
            count: 0,
        })
    }

    /// How many cores it is of.
    pub(crate) fn others(&self) -> usize
        ensures { result ≡ length self.now }
    {
        self.entries.len()
    }

    /// Whether a request waits.
    pub(crate) fn has_some(&self) -> bool
        ensures { IsTrue result ↔ (entry : ℕ) × (op : GhostOp) × (slice_get self.now entry ≡ Some (Some op)) }
    {
        self.count > 0
    }

    /// The request that waits at this entry.
    pub(crate) fn get(&self, entry: usize) -> Option<&Op>
        ensures some { IfSome result (λ op. slice_get self.now entry ≡ Some (Some op.now)) }
        ensures none { IfNone result ((op : GhostOp) → slice_get self.now entry ≡ Some (Some op) → ⊥) }
    {
        self.entries.get(entry)?.as_ref()
    }

    /// Puts a request where none is waiting, and tells whether it did.
    pub(crate) fn keep(&mut self, entry: usize, op: Op) -> bool
        ensures free { IsTrue result → slice_get self.old entry ≡ Some None }
        ensures kept { IsTrue result → self.new ≡ slice_set self.old entry (Some op) }
        ensures not_free { IsFalse result → slice_get self.old entry ≡ Some None → ⊥ }
        ensures same { IsFalse result → self.new ≡ self.old }
    {
        if entry >= self.entries.len() || self.entries[entry].is_some() {
            return false;
        }
        self.entries[entry] = Some(op);
        self.count += 1;
        true
    }

    /// Takes the waiting request out.
    pub(crate) fn take_out(&mut self, entry: usize) -> Option<Op>
        ensures was { IfSome result (λ op. slice_get self.old entry ≡ Some (Some op)) }
        ensures out { OnSome result (self.new ≡ slice_set self.old entry None) }
        ensures none { IfNone result ((op : GhostOp) → slice_get self.old entry ≡ Some (Some op) → ⊥) }
        ensures same { IfNone result (self.new ≡ self.old) }
    {
        if entry >= self.entries.len() {
            return None;
        }
        let op = self.entries[entry].take()?;
        self.count -= 1;
        Some(op)
    }
}
