//! The lists of programs as capabilities of filters go.
ghost use Rattle.std.specs.Prelude.{◌≡◌, ◌==◌, ◌+◌, ◌<◌, ◌↔◌, ◌⊎◌, ℕ, List, if◌then◌else◌, IsTrue, IfOk, OnOk, OnErr};
ghost use Rattle.bpf_insn.specs.declared.insn.Insn.{Insn as AnyInsn};
ghost use Rattle.chunked.specs.Maps.{value_at};
ghost use Rattle.installed_filters.specs.Slotting.{slot_at};
ghost use Rattle.installed_filters.specs.Counts.{number_of};
ghost use Rattle.installed_filters.specs.Listing.{AreThose, Rests};
ghost use Rattle.installed_filters.specs.Numbering.{Has};
ghost use Rattle.installed_filters.specs.Homes.{AreProgramsApart, program_in};
ghost use Rattle.installed_filters.specs.Lapsing.{AreCountedHeld, AreOfHeld, AreRestingOr, HoldsMore, IsUnheld, slots_counted, slots_lapsed};

use crate::books::Row;
use crate::numbered::Numbered;
use crate::slots::Slots;
use chunked::Sorted;
use std::alloc::{AllocError, Global};

/// Puts the programs among those that rest that go to rest as these filters lapse. Without memory those stay.
#[inline(never)]
pub(crate) fn rest_all(
    alloc: Global,
    slots: &Slots,
    resting: &mut Numbered,
    lapsing: &[(u64, Row)],
) -> Result<(), AllocError>
    requires apart { AreProgramsApart slots.now.slots }
    requires held { AreCountedHeld slots.now.slots lapsing.now }
    requires rests { AreThose resting.old (Rests (slot_at slots.now.slots)) }
    ensures done { OnOk result (AreThose resting.new (λ m listed. Rests (slot_at slots.now.slots) m listed ⊎ Rests (slots_lapsed slots.now.slots lapsing.now) m listed)) }
    ensures undone { OnErr result (AreThose resting.new (Rests (slot_at slots.now.slots))) }
{
    let rested = rest_each(alloc, slots, resting, lapsing);
    if rested.is_err() {
        wake_all(slots, resting, lapsing);
    }
    rested
}

/// The same, but without memory some are there.
fn rest_each(
    alloc: Global,
    slots: &Slots,
    resting: &mut Numbered,
    lapsing: &[(u64, Row)],
) -> Result<(), AllocError>
    requires apart { AreProgramsApart slots.now.slots }
    requires held { AreCountedHeld slots.now.slots lapsing.now }
    requires rests { AreThose resting.old (Rests (slot_at slots.now.slots)) }
    ensures done { OnOk result (AreThose resting.new (λ m listed. Rests (slot_at slots.now.slots) m listed ⊎ Rests (slots_lapsed slots.now.slots lapsing.now) m listed)) }
    ensures some { OnErr result (AreRestingOr slots.now.slots lapsing.now resting.new) }
{
    let mut counts = Sorted::new(alloc);
    for entry in lapsing {
        one_fewer(alloc, slots, resting, &mut counts, entry.1.number)?;
    }
    Ok(())
}

/// Puts the program of a number among those that rest, if one more filter of it that isn't held any more is the last that is held.
/// Counts how many of each number aren't already.
fn one_fewer(
    alloc: Global,
    slots: &Slots,
    resting: &mut Numbered,
    counts: &mut Sorted<u32>,
    number: u32,
) -> Result<(), AllocError>
    requires apart { AreProgramsApart slots.now.slots }
    requires more { HoldsMore (slot_at slots.now.slots number) (number_of (value_at counts.old.entries number)) }
    requires rests { AreThose resting.old (λ m listed. Rests (slot_at slots.now.slots) m listed ⊎ Rests (slots_counted slots.now.slots counts.old.entries) m listed) }
    ensures counts { OnOk result ((m : ℕ) → number_of (value_at counts.new.entries m) ≡ (if m == number then number_of (value_at counts.old.entries number) + 1 else number_of (value_at counts.old.entries m))) }
    ensures rests { OnOk result (AreThose resting.new (λ m listed. Rests (slot_at slots.now.slots) m listed ⊎ Rests (slots_counted slots.now.slots counts.new.entries) m listed)) }
    ensures undone { OnErr result (resting.new ≡ resting.old) }
{
    let Some(slot) = slots.get(number) else {
        unreachable!()
    };
    if !count_up(counts, number, slot.held)? {
        return Ok(());
    }
    let guess = resting.find(&slot.program).guess;
    resting.add(alloc, &slot.program, number, guess)
}

/// Counts one more of a number, of which there are at most so many. Answers whether these are all.
// Not in line: what it needs of the stack is free again before the deeper calls.
#[inline(never)]
fn count_up(counts: &mut Sorted<u32>, number: u32, most: u32) -> Result<bool, AllocError>
    requires { number_of (value_at counts.old.entries number) < most }
    ensures all { IfOk result (λ all. IsTrue all ↔ (number_of (value_at counts.old.entries number) + 1 ≡ most)) }
    ensures counts { OnOk result ((m : ℕ) → number_of (value_at counts.new.entries m) ≡ (if m == number then number_of (value_at counts.old.entries number) + 1 else number_of (value_at counts.old.entries m))) }
{
    let key = u64::from(number);
    match counts.get(key) {
        Some(count) => {
            let count = *count + 1;
            counts.set(key, count);
            Ok(count == most)
        }
        None => {
            counts.reserve()?;
            counts.insert_reserved(key, 1);
            Ok(most == 1)
        }
    }
}

/// Takes the programs of these filters, which run, out of those that rest. Takes no memory.
#[inline(never)]
pub(crate) fn wake_all(slots: &Slots, resting: &mut Numbered, lapsing: &[(u64, Row)])
    requires apart { AreProgramsApart slots.now.slots }
    requires held { AreOfHeld slots.now.slots lapsing.now }
    requires rests { AreRestingOr slots.now.slots lapsing.now resting.old }
    ensures { AreThose resting.new (Rests (slot_at slots.now.slots)) }
{
    for entry in lapsing {
        match slots.get(entry.1.number) {
            Some(slot) => resting.take_out(&slot.program),
            None => unreachable!(),
        }
    }
}

/// Takes the program of a number out of those that run, if no filter with it has its capability held. Takes no memory.
pub(crate) fn stop_unheld(slots: &Slots, running: &mut Numbered, number: u32)
    ensures { (m : ℕ) (listed : List AnyInsn) → Has running.new m listed ↔ (Has running.old m listed × (IsUnheld (slot_at slots.now.slots number) → listed ≡ program_in (slot_at slots.now.slots number) → ⊥)) }
{
    if let Some(slot) = slots.get(number) {
        if slot.held == 0 {
            running.take_out(&slot.program);
        }
    }
}
