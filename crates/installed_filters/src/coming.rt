//! The lists of programs as a filter comes whose capability is held.
ghost use Rattle.std.specs.Prelude.{◌≡◌, ◌<◌, ◌↔◌, ℕ, List, MatchOption, OnOk, OnErr};
ghost use Rattle.bpf_insn.specs.declared.insn.Insn.{Insn as AnyInsn};
ghost use Rattle.installed_filters.specs.Slotting.{slot_at};
ghost use Rattle.installed_filters.specs.Books.{Begins, base_slot};
ghost use Rattle.installed_filters.specs.Homes.{AreProgramsApart, held_in, program_in};
ghost use Rattle.installed_filters.specs.Listing.{AreThose, IsWith, Runs};
ghost use Rattle.installed_filters.specs.Numbering.{Has};

use crate::numbered::Numbered;
use crate::slots::Slots;
use filter_group::{Guess, Shared};
use std::alloc::{AllocError, Global};

/// Puts the program of a filter that comes among those that run, unless it runs already. What is guessed of where it would be
/// saves a search. Without memory those stay, but may have no plan.
#[inline(never)]
pub(crate) fn start(
    alloc: Global,
    slots: &Slots,
    running: &mut Numbered,
    number: u32,
    program: &Option<Shared>,
    guess: Guess,
) -> Result<(), AllocError>
    requires begins { Begins slots.now.slots number program.now }
    requires apart { AreProgramsApart slots.now.slots }
    requires runs { AreThose running.old (Runs (slot_at slots.now.slots)) }
    ensures done { OnOk result (IsWith running.old number (program_in (base_slot slots.now.slots number program.now)) running.new) }
    ensures undone { OnErr result ((m : ℕ) (listed : List AnyInsn) → Has running.new m listed ↔ Has running.old m listed) }
{
    match not_running(slots, number, program) {
        Some(program) => running.add_planned(alloc, program, number, guess),
        None => Ok(()),
    }
}

/// Takes the program of a filter that comes out of a list, unless it runs without this filter. Takes no memory.
pub(crate) fn take_new(slots: &Slots, list: &mut Numbered, number: u32, program: &Option<Shared>)
    requires { Begins slots.now.slots number program.now }
    ensures { (m : ℕ) (listed : List AnyInsn) → Has list.new m listed ↔ (Has list.old m listed × (held_in (base_slot slots.now.slots number program.now) ≡ 0 → listed ≡ program_in (base_slot slots.now.slots number program.now) → ⊥)) }
{
    if let Some(program) = not_running(slots, number, program) {
        list.take_out(program);
    }
}

/// The program of a filter that comes, unless it runs already.
fn not_running<'a>(slots: &'a Slots, number: u32, program: &'a Option<Shared>) -> Option<&'a Shared>
    requires { Begins slots.now.slots number program.now }
    ensures { MatchOption result (0 < held_in (base_slot slots.now.slots number program.now)) (λ p. (held_in (base_slot slots.now.slots number program.now) ≡ 0) × (p.now ≡ program_in (base_slot slots.now.slots number program.now))) }
{
    if let Some(program) = program {
        return Some(program);
    }
    match slots.get(number) {
        Some(slot) => {
            if slot.held == 0 {
                Some(&slot.program)
            } else {
                None
            }
        }
        None => unreachable!(),
    }
}
