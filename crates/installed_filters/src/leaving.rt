//! The lists of programs as a filter goes.
ghost use Rattle.std.specs.Prelude.{◌≡◌, ◌↔◌, ◌⊎◌, ℕ, List, OnOk, OnErr, IsTrue};
ghost use Rattle.bpf_insn.specs.declared.insn.Insn.{Insn as AnyInsn};
ghost use Rattle.installed_filters.specs.Slotting.{slot_at};
ghost use Rattle.installed_filters.specs.Homes.{program_in};
ghost use Rattle.installed_filters.specs.Leaving.{GoesToRest, IsOneOf, Stops, Vanishes};
ghost use Rattle.installed_filters.specs.Numbering.{Has, IsFresh};
ghost use Rattle.installed_filters.specs.declared.slots.Slot.{Slot as AnySlot};

use crate::books::Row;
use crate::lists::Lists;
use crate::numbered::Numbered;
use crate::slots::{Slot, Slots};
use std::alloc::{AllocError, Global};

/// Puts the program of a filter that goes among those that rest, if it goes to rest then. Without memory those stay.
#[inline(never)]
pub(crate) fn rest(
    alloc: Global,
    slots: &Slots,
    resting: &mut Numbered,
    row: Row,
) -> Result<(), AllocError>
    requires one { IsOneOf (slot_at slots.now.slots row.number) row.held }
    requires fresh { GoesToRest row.held (slot_at slots.now.slots row.number) → IsFresh resting.old row.number (program_in (slot_at slots.now.slots row.number)) }
    ensures done { OnOk result ((m : ℕ) (listed : List AnyInsn) → Has resting.new m listed ↔ (Has resting.old m listed ⊎ (GoesToRest row.held (slot_at slots.now.slots row.number) × (m ≡ row.number) × (listed ≡ program_in (slot_at slots.now.slots row.number))))) }
    ensures undone { OnErr result (resting.new ≡ resting.old) }
{
    let slot = slot_of(slots, row);
    if goes_to_rest(row, slot) {
        let guess = resting.find(&slot.program).guess;
        return resting.add(alloc, &slot.program, row.number, guess);
    }
    Ok(())
}

/// Takes the program of a filter that was to go out of those that rest, if it was to go to rest. Takes no memory.
pub(crate) fn wake(slots: &Slots, resting: &mut Numbered, row: Row)
    requires { IsOneOf (slot_at slots.now.slots row.number) row.held }
    ensures { (m : ℕ) (listed : List AnyInsn) → Has resting.new m listed ↔ (Has resting.old m listed × (GoesToRest row.held (slot_at slots.now.slots row.number) → listed ≡ program_in (slot_at slots.now.slots row.number) → ⊥)) }
{
    let slot = slot_of(slots, row);
    if goes_to_rest(row, slot) {
        resting.take_out(&slot.program);
    }
}

/// Takes the program of a filter that goes out of the list that it leaves. Takes no memory.
pub(crate) fn leave(slots: &Slots, lists: &mut Lists, row: Row)
    requires { IsOneOf (slot_at slots.now.slots row.number) row.held }
    ensures running { (m : ℕ) (listed : List AnyInsn) → Has lists.new.running m listed ↔ (Has lists.old.running m listed × (Stops row.held (slot_at slots.now.slots row.number) → listed ≡ program_in (slot_at slots.now.slots row.number) → ⊥)) }
    ensures resting { (m : ℕ) (listed : List AnyInsn) → Has lists.new.resting m listed ↔ (Has lists.old.resting m listed × (Vanishes row.held (slot_at slots.now.slots row.number) → listed ≡ program_in (slot_at slots.now.slots row.number) → ⊥)) }
{
    let slot = slot_of(slots, row);
    if row.held {
        if slot.held == 1 {
            lists.running.take_out(&slot.program);
        }
    } else if slot.filters == 1 {
        lists.resting.take_out(&slot.program);
    }
}

/// The slot of a filter's program.
fn slot_of(slots: &Slots, row: Row) -> &Slot
    requires { IsOneOf (slot_at slots.now.slots row.number) row.held }
    ensures { slot_at slots.now.slots row.number ≡ Some result.now }
{
    match slots.get(row.number) {
        Some(slot) => slot,
        None => unreachable!(),
    }
}

/// Whether a program goes to rest with a filter that goes.
fn goes_to_rest(row: Row, slot: &Slot) -> bool
    ensures { IsTrue result ↔ GoesToRest row.held (Some slot.now) }
{
    row.held && slot.held == 1 && slot.filters > 1
}
