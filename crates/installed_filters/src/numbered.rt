//! Programs with numbers.
ghost use Rattle.std.specs.Prelude.{◌≡◌, ◌<◌, ◌^◌, ◌↔◌, ℕ, [], length, map, OnOk, OnErr, MatchOption, Some, slice_get};
ghost use Rattle.filter_group.specs.declared.lockstep.Hit.{Hit as AnyHit};
ghost use Rattle.bpf_insn.specs.declared.insn.Insn.{Insn as AnyInsn};
ghost use Rattle.std.specs.Prelude.{List};
ghost use Rattle.installed_filters.specs.Listing.{IsWith, IsWithout};
ghost use Rattle.installed_filters.specs.Numbering.{Has, IsFresh, AreHitsBy, AreDistinct, numbered_hit};

use filter_group::{Guess, Hit, Lists, Programs, Shared};
use std::alloc::{AllocError, Global};
use std::marker::Model;

/// What is known of a program among others.
#[derive(Clone, Copy)]
pub(crate) struct Known {
    /// Its number, if it is one of them.
    pub(crate) number: Option<u32>,
    /// Where it is among them, or would be.
    pub(crate) guess: Guess,
}

/// Different programs, each with a number of its own. Those of one shape run together.
pub(crate) struct Numbered {
    programs: Programs,
    /// Of each place of a program its number.
    numbers: Vec<u32>,
}

// By hand, so that the proofs of its owners have one call and not a drop of each part.
impl Drop for Numbered {
    fn drop(self) {
        let Numbered {
            programs: _,
            numbers: _,
        } = self;
    }
}

impl Model for Numbered {
    ghost use Rattle.installed_filters.specs.Numbering.{Numbering, AreNumbered};

    ghost Value = { Numbering };

    ghost view = { λ a. record { programs = a.programs; numbers = a.numbers.items } };

    ghost invariant = { λ a. AreNumbered (record { programs = a.programs; numbers = a.numbers.items }) };
}

impl Numbered {
    /// No program. Takes no memory.
    pub(crate) fn new(alloc: Global) -> Numbered
        ensures { result ≡ record { programs = []; numbers = [] } }
    {
        Numbered {
            programs: Programs::new(alloc),
            numbers: Vec::new(alloc),
        }
    }

    /// Gives back all that they hold: no program is left. Takes no memory.
    // Not in line, so that the stack has one list of programs at a time.
    #[inline(never)]
    pub(crate) fn clear(&mut self, alloc: Global)
        ensures { self.new ≡ record { programs = []; numbers = [] } }
    {
        *self = Numbered::new(alloc);
    }

    /// The number of a program, and where it is in their order.
    pub(crate) fn find(&self, program: &Shared) -> Known
        ensures { MatchOption result.number ((number : ℕ) → Has self.now number program.now → ⊥) (λ number. Has self.now number program.now) }
    {
        let found = self.programs.find(program);
        let number = match found.place {
            Some(place) => Some(self.numbers[place]),
            None => None,
        };
        Known {
            number,
            guess: found.guess,
        }
    }

    /// Adds a program, with a number of its own. A plan stays if it holds for it too. Without memory the programs stay. What `find`
    /// guessed saves a search.
    #[inline(never)]
    pub(crate) fn add(
        &mut self,
        alloc: Global,
        program: &Shared,
        number: u32,
        guess: Guess,
    ) -> Result<(), AllocError>
        requires { IsFresh self.old number program.now }
        ensures done { OnOk result (IsWith self.old number program.now self.new) }
        ensures undone { OnErr result (self.new ≡ self.old) }
    {
        self.numbers.reserve(1)?;
        self.programs.add(alloc, program, guess)?;
        let _ = self.numbers.push(number);
        Ok(())
    }

    /// Adds a program, with a number of its own, and makes a plan for all. Without memory the programs stay, but may have no plan.
    pub(crate) fn add_planned(
        &mut self,
        alloc: Global,
        program: &Shared,
        number: u32,
        guess: Guess,
    ) -> Result<(), AllocError>
        requires { IsFresh self.old number program.now }
        ensures done { OnOk result (IsWith self.old number program.now self.new) }
        ensures undone { OnErr result ((other : ℕ) (listed : List AnyInsn) → Has self.new other listed ↔ Has self.old other listed) }
    {
        self.add(alloc, program, number, guess)?;
        let planned = self.programs.make_plan(alloc);
        if planned.is_err() {
            self.take_out(program);
        }
        planned
    }

    /// Takes a program out, if it is there. A plan of the others stays. Takes no memory.
    #[inline(never)]
    pub(crate) fn take_out(&mut self, program: &Shared)
        ensures { IsWithout self.old program.now self.new }
    {
        let found = self.programs.find(program);
        if let Some(place) = found.place {
            self.programs.take_out(place, found.guess);
            self.numbers.swap_remove(place);
        }
    }

    /// Runs all programs over a packet. Afterwards `lists.hits` has those that end with a verdict above 0, by their numbers. Takes memory
    /// only where the lists are too short for the packet.
    #[inline(always)]
    pub(crate) fn run(
        &self,
        lists: &mut Lists,
        bytes: &[u8],
        original: u32,
    ) -> Result<(), AllocError>
        ensures { OnOk result (AreHitsBy self.now (record { bytes = bytes.now; original = original }) lists.new.hits.items) }
    {
        let _count = self.programs.len();
        self.programs.run(lists, bytes, original)?;
        give_numbers(&mut lists.hits, &self.numbers);
        Ok(())
    }
}

/// Hits by the numbers of their programs in place of their places. Most packets have one hit or none.
#[inline(always)]
fn give_numbers(hits: &mut [Hit], numbers: &[u32])
    requires { (i : ℕ) (hit : AnyHit) → slice_get hits.old i ≡ Some hit → hit.member < length numbers.now }
    ensures { hits.new ≡ map (numbered_hit numbers.now) hits.old }
{
    match hits {
        [] => {}
        [only] => only.member = numbers[only.member] as usize,
        _ => give_each(hits, numbers),
    }
}

/// The same for any hits.
#[inline(never)]
fn give_each(hits: &mut [Hit], numbers: &[u32])
    requires { (i : ℕ) (hit : AnyHit) → slice_get hits.old i ≡ Some hit → hit.member < length numbers.now }
    ensures { hits.new ≡ map (numbered_hit numbers.now) hits.old }
{
    for place in 0..hits.len() {
        let hit = hits[place];
        hits[place] = Hit {
            member: numbers[hit.member] as usize,
            verdict: hit.verdict,
        };
    }
}
