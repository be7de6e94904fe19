//! Of each number its program, and how many filters have it.
ghost use Rattle.std.specs.Prelude.{◌≡◌, ◌==◌, ◌+◌, ◌<◌, ◌≤◌, ℕ, [], None, Some, true, false, IsTrue, ◌↔◌, if◌then◌else◌, length, count_by, slice_set, is_some, IfSome, IfOk, OnOk};
ghost use Rattle.chunked.specs.Maps.{value_at};
ghost use Rattle.std.specs.Option.{option_copied};
ghost use Rattle.installed_filters.specs.Slotting.{slot_at, is_held, HasOne, HasRoomIn, IsLast, MayGo, new_slot, one, one_more, one_less, one_lapsed};

use chunked::Sorted;
use filter_group::Shared;
use std::alloc::{AllocError, Global};
use std::marker::Model;
use std::mem;

/// How many numbers there may be.
const NUMBERS: u64 = 4_294_967_296;

/// A program that filters have.
pub(crate) struct Slot {
    pub(crate) program: Shared,
    /// How many filters have it.
    pub(crate) filters: u32,
    /// How many of these have their capability held.
    pub(crate) held: u32,
}

// By hand, so that the proofs of its owners have one call and not a drop of each part.
impl Drop for Slot {
    fn drop(self) {
        let Slot {
            program: _,
            filters: _,
            held: _,
        } = self;
    }
}

/// Programs by numbers that stay while a filter has the program.
pub(crate) struct Slots {
    /// By number.
    slots: Vec<Option<Slot>>,
    /// Numbers without a program.
    free: Sorted<()>,
}

// By hand, so that the proofs of its owners have one call and not a drop of each part.
impl Drop for Slots {
    fn drop(self) {
        let Slots { slots: _, free: _ } = self;
    }
}

impl Model for Slots {
    ghost use Rattle.installed_filters.specs.Slotting.{Slotting, AreFree};

    ghost Value = { Slotting };

    ghost view = { λ a. record { slots = a.slots.items; ready = a.free.ready } };

    ghost invariant = { λ a. AreFree a.slots.items a.free.entries };
}

impl Slots {
    /// No program. Takes no memory.
    pub(crate) fn new(alloc: Global) -> Slots
        ensures { result ≡ record { slots = []; ready = false } }
    {
        Slots {
            slots: Vec::new(alloc),
            free: Sorted::new(alloc),
        }
    }

    /// Gives back all that they hold: no program is left. Takes no memory.
    // Not in line, so that what they held is on the stack no longer than this.
    #[inline(never)]
    pub(crate) fn clear(&mut self, alloc: Global)
        ensures { self.new ≡ record { slots = []; ready = false } }
    {
        *self = Slots::new(alloc);
    }

    /// How many numbers there are.
    pub(crate) fn len(&self) -> usize
        ensures { result ≡ length self.now.slots }
    {
        self.slots.len()
    }

    /// The program with a number.
    pub(crate) fn get(&self, number: u32) -> Option<&Slot>
        ensures { option_copied result ≡ slot_at self.now.slots number }
    {
        if number as usize >= self.slots.len() {
            return None;
        }
        self.slots[number as usize].as_ref()
    }

    /// How many programs there are.
    pub(crate) fn count(&self) -> usize
        ensures { result ≡ count_by is_some self.now.slots }
    {
        self.slots.iter().filter(|slot| slot.is_some()).count()
    }

    /// How many programs have filters whose capability is held.
    pub(crate) fn count_held(&self) -> usize
        ensures { result ≡ count_by is_held self.now.slots }
    {
        self.slots.iter().filter(|slot| has_held(slot)).count()
    }

    /// A number without a program, which may be a new one. The programs stay, whatever the result. An error also where all numbers have one.
    pub(crate) fn fresh(&mut self) -> Result<u32, AllocError>
        ensures slots { (m : ℕ) → slot_at self.new.slots m ≡ slot_at self.old.slots m }
        ensures none { IfOk result (λ number. slot_at self.new.slots number ≡ None) }
        ensures inside { IfOk result (λ number. number < length self.new.slots) }
    {
        if let Some(number) = first_of(&self.free) {
            return Ok(number as u32);
        }
        let number = self.slots.len() as u64;
        if number == NUMBERS {
            return Err(AllocError);
        }
        self.slots.push(None)?;
        Ok(number as u32)
    }

    /// Makes room for a program to go. The programs stay, whatever the result.
    pub(crate) fn reserve(&mut self) -> Result<(), AllocError>
        ensures slots { self.new.slots ≡ self.old.slots }
        ensures ready { OnOk result (IsTrue self.new.ready) }
    {
        self.free.reserve()
    }

    /// A number gets a program, which no filter has yet. Takes no memory.
    pub(crate) fn start(&mut self, number: u32, program: Shared)
        requires none { slot_at self.old.slots number ≡ None }
        requires inside { number < length self.old.slots }
        ensures slots { (m : ℕ) → slot_at self.new.slots m ≡ (if m == number then Some (new_slot program) else slot_at self.old.slots m) }
        ensures numbers { length self.new.slots ≡ length self.old.slots }
    {
        self.slots[number as usize] = Some(Slot {
            program,
            filters: 0,
            held: 0,
        });
        self.free.remove(u64::from(number));
    }

    /// One filter more has the program with a number; whether its capability is held. Takes no memory.
    pub(crate) fn add(&mut self, number: u32, held: bool)
        requires inside { number < length self.old.slots }
        requires room { HasRoomIn (slot_at self.old.slots number) }
        ensures slots { (m : ℕ) → slot_at self.new.slots m ≡ (if m == number then one_more held (slot_at self.old.slots number) else slot_at self.old.slots m) }
        ensures numbers { length self.new.slots ≡ length self.old.slots }
        ensures ready { self.new.ready ≡ self.old.ready }
    {
        add_at(&mut self.slots, number as usize, held);
    }

    /// One filter less has the program with a number; whether its capability was held. The last takes the program with it. Takes no memory.
    pub(crate) fn take(&mut self, number: u32, held: bool)
        requires inside { number < length self.old.slots }
        requires one { HasOne held (slot_at self.old.slots number) }
        requires room { MayGo self.old.ready (slot_at self.old.slots number) }
        ensures slots { (m : ℕ) → slot_at self.new.slots m ≡ (if m == number then one_less held (slot_at self.old.slots number) else slot_at self.old.slots m) }
        ensures numbers { length self.new.slots ≡ length self.old.slots }
    {
        if take_at(&mut self.slots, number as usize, held) {
            self.free.insert_reserved(u64::from(number), ());
        }
    }

    /// The capability of a filter with the program isn't held any more. Takes no memory.
    pub(crate) fn lapse(&mut self, number: u32)
        requires inside { number < length self.old.slots }
        requires one { HasOne true (slot_at self.old.slots number) }
        ensures slots { (m : ℕ) → slot_at self.new.slots m ≡ (if m == number then one_lapsed (slot_at self.old.slots number) else slot_at self.old.slots m) }
        ensures numbers { length self.new.slots ≡ length self.old.slots }
        ensures ready { self.new.ready ≡ self.old.ready }
    {
        lapse_at(&mut self.slots, number as usize);
    }
}

/// Whether a program has a filter whose capability is held.
fn has_held(slot: &Option<Slot>) -> bool
    ensures { result ≡ is_held slot.now }
{
    match slot {
        Some(slot) => slot.held > 0,
        None => false,
    }
}

/// A number that has an entry.
fn first_of(numbers: &Sorted<()>) -> Option<u64>
    ensures { IfSome result (λ number. is_some (value_at numbers.now.entries number) ≡ true) }
{
    let entry = numbers.first_from(0)?;
    Some(entry.0)
}

/// One filter more.
fn add_at(slots: &mut [Option<Slot>], number: usize, held: bool)
    requires inside { number < length slots.old }
    requires room { HasRoomIn (slot_at slots.old number) }
    ensures { slots.new ≡ slice_set slots.old number (one_more held (slot_at slots.old number)) }
{
    let slot = mem::replace(&mut slots[number], None);
    slots[number] = with_one(slot, held);
}

/// A slot once one filter more has its program.
fn with_one(slot: Option<Slot>, held: bool) -> Option<Slot>
    requires { HasRoomIn slot }
    ensures { result ≡ one_more held slot }
{
    let mut slot = slot?;
    slot.filters += 1;
    if held {
        slot.held += 1;
    }
    Some(slot)
}

/// One filter less. Answers whether it was the last.
fn take_at(slots: &mut [Option<Slot>], number: usize, held: bool) -> bool
    requires inside { number < length slots.old }
    requires one { HasOne held (slot_at slots.old number) }
    ensures slots { slots.new ≡ slice_set slots.old number (one_less held (slot_at slots.old number)) }
    ensures last { IsTrue result ↔ IsLast (slot_at slots.old number) }
{
    let slot = mem::replace(&mut slots[number], None);
    let last = is_last(&slot);
    slots[number] = without_one(slot, held);
    last
}

/// Whether a program has one filter.
fn is_last(slot: &Option<Slot>) -> bool
    ensures { IsTrue result ↔ IsLast slot.now }
{
    match slot {
        Some(slot) => slot.filters == 1,
        None => false,
    }
}

/// A slot once one filter less has its program.
fn without_one(slot: Option<Slot>, held: bool) -> Option<Slot>
    requires { HasOne held slot }
    ensures { result ≡ one_less held slot }
{
    let mut slot = slot?;
    if slot.filters == 1 {
        return None;
    }
    slot.filters -= 1;
    if held {
        slot.held -= 1;
    }
    Some(slot)
}

fn lapse_at(slots: &mut [Option<Slot>], number: usize)
    requires inside { number < length slots.old }
    requires one { HasOne true (slot_at slots.old number) }
    ensures { slots.new ≡ slice_set slots.old number (one_lapsed (slot_at slots.old number)) }
{
    let slot = mem::replace(&mut slots[number], None);
    slots[number] = lapsed(slot);
}

/// A slot once the capability of one of its filters isn't held any more.
fn lapsed(slot: Option<Slot>) -> Option<Slot>
    requires { HasOne true slot }
    ensures { result ≡ one_lapsed slot }
{
    let mut slot = slot?;
    slot.held -= 1;
    Some(slot)
}
