//! Where the program of a filter that comes is kept.
ghost use Rattle.std.specs.Prelude.{◌≡◌, ◌≤◌, ◌<◌, ℕ, Some, length, IfOk, OnOk};
ghost use Rattle.installed_filters.specs.Slotting.{slot_at};
ghost use Rattle.installed_filters.specs.declared.slots.Slot.{Slot as AnySlot};
ghost use Rattle.installed_filters.specs.Counts.{reach_at};
ghost use Rattle.installed_filters.specs.Homes.{IsHome, AreHoused, HaveGrown};

use crate::lists::Lists;
use crate::reaches::Reaches;
use crate::slots::Slots;
use filter_group::{Guess, Shared};
use std::alloc::AllocError;

/// The number of a program for one filter more.
#[derive(Drop)]
pub(crate) struct Home {
    pub(crate) number: u32,
    /// The program, if no filter has it yet.
    pub(crate) program: Option<Shared>,
    /// Where it is among the programs that run, or would be.
    pub(crate) guess: Guess,
}

/// The number of a program for one filter more. What is kept stays, whatever the result.
// Not in line, so that its room on the stack is free again before the lists are changed.
#[inline(never)]
pub(crate) fn home_of(
    slots: &mut Slots,
    reaches: &mut Reaches,
    lists: &Lists,
    program: Shared,
) -> Result<Home, AllocError>
    requires housed { AreHoused slots.old.slots reaches.old.ends lists.now }
    ensures grown { HaveGrown slots.old.slots slots.new.slots reaches.old.ends reaches.new.ends }
    ensures home { IfOk result (λ home. IsHome slots.new.slots (length reaches.new.ends) program home) }
{
    let known = lists.find(&program);
    match known.number {
        Some(number) => Ok(Home {
            number,
            program: None,
            guess: known.guess,
        }),
        None => new_home(slots, reaches, program, known.guess),
    }
}

/// The home of a program that no filter has.
fn new_home(
    slots: &mut Slots,
    reaches: &mut Reaches,
    program: Shared,
    guess: Guess,
) -> Result<Home, AllocError>
    requires { (m : ℕ) (s : AnySlot) → slot_at slots.old.slots m ≡ Some s → s.program ≡ program → ⊥ }
    ensures grown { HaveGrown slots.old.slots slots.new.slots reaches.old.ends reaches.new.ends }
    ensures home { IfOk result (λ home. IsHome slots.new.slots (length reaches.new.ends) program home) }
{
    let number = slots.fresh()?;
    grow_to(reaches, number)?;
    Ok(Home {
        number,
        program: Some(program),
        guess,
    })
}

/// Adds numbers until there is this one.
fn grow_to(reaches: &mut Reaches, number: u32) -> Result<(), AllocError>
    ensures counts { (m q : ℕ) → reach_at reaches.new.ends m q ≡ reach_at reaches.old.ends m q }
    ensures more { length reaches.old.ends ≤ length reaches.new.ends }
    ensures inside { OnOk result (number < length reaches.new.ends) }
{
    while reaches.len() <= number as usize {
        reaches.grow()?;
    }
    Ok(())
}
