//! The programs that run and those that rest.
ghost use Rattle.std.specs.Prelude.{◌≡◌, ◌⊎◌, ℕ, [], MatchOption};
ghost use Rattle.installed_filters.specs.Numbering.{Has};

use crate::numbered::{Known, Numbered};
use filter_group::Shared;
use std::alloc::Global;

/// The programs that a packet is run on, and the others. While a change is planned, they have those too that it needs.
pub(crate) struct Lists {
    pub(crate) running: Numbered,
    /// No filter that has one has its capability held.
    pub(crate) resting: Numbered,
}

// By hand, so that the proofs of its owners have one call and not a drop of each part.
impl Drop for Lists {
    // In line, so that the lists are not copied to be dropped.
    #[inline(always)]
    fn drop(self) {
        let Lists {
            running: _,
            resting: _,
        } = self;
    }
}

impl Lists {
    /// No program. Takes no memory.
    pub(crate) fn new(alloc: Global) -> Lists
        ensures running { result.running ≡ record { programs = []; numbers = [] } }
        ensures resting { result.resting ≡ record { programs = []; numbers = [] } }
    {
        Lists {
            running: Numbered::new(alloc),
            resting: Numbered::new(alloc),
        }
    }

    /// Gives back all that they hold: no program is left. Takes no memory.
    pub(crate) fn clear(&mut self, alloc: Global)
        ensures running { self.new.running ≡ record { programs = []; numbers = [] } }
        ensures resting { self.new.resting ≡ record { programs = []; numbers = [] } }
    {
        self.running.clear(alloc);
        self.resting.clear(alloc);
    }

    /// The number of a program, and where it is in the order of those that run.
    pub(crate) fn find(&self, program: &Shared) -> Known
        ensures { MatchOption result.number ((number : ℕ) → (Has self.now.running number program.now ⊎ Has self.now.resting number program.now) → ⊥) (λ number. Has self.now.running number program.now ⊎ Has self.now.resting number program.now) }
    {
        let known = self.running.find(program);
        match known.number {
            Some(_) => known,
            None => Known {
                number: self.resting.find(program).number,
                guess: known.guess,
            },
        }
    }
}
