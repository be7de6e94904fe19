//! What is counted of the filters: of each program its filters, and of each endpoint of it those whose capability is held.
ghost use Rattle.std.specs.Prelude.{◌≡◌, ◌==◌, ◌<◌, ℕ, List, true, false, if◌then◌else◌, length};
ghost use Rattle.installed_filters.specs.Slotting.{slot_at, HasOne, HasRoomIn, one_more, one_less, one_lapsed};
ghost use Rattle.installed_filters.specs.Counts.{HasRoom, number_of, reach_at};
ghost use Rattle.installed_filters.specs.Books.{Adds, AreBooked, Begins, base_slot, lapsed_row, HasReachRoom, IsTaken};
ghost use Rattle.installed_filters.specs.declared.books.Row.{Row as GhostRow};

use crate::reaches::Reaches;
use crate::slots::Slots;
use filter_group::Shared;

/// A filter, which its id is kept beside.
#[derive(Clone, Copy)]
pub(crate) struct Row {
    pub(crate) owner: u16,
    pub(crate) cap: u32,
    pub(crate) endpoint: u16,
    /// Whether its capability is held.
    pub(crate) held: bool,
    /// The number of its program.
    pub(crate) number: u32,
}

/// A filter comes, with a program that none had before, if one is given. Takes no memory.
pub(crate) fn put(slots: &mut Slots, reaches: &mut Reaches, row: Row, program: Option<Shared>)
    requires begins { Begins slots.old.slots row.number program }
    requires room { HasRoomIn (base_slot slots.old.slots row.number program) }
    requires slot { row.number < length slots.old.slots }
    requires number { row.number < length reaches.old.ends }
    requires reach { HasReachRoom reaches.old row }
    ensures booked { (rows after : List (ℕ × GhostRow)) → AreBooked rows slots.old.slots reaches.old.ends → Adds rows row after → AreBooked after slots.new.slots reaches.new.ends }
    ensures slots { (m : ℕ) → slot_at slots.new.slots m ≡ (if m == row.number then one_more row.held (base_slot slots.old.slots row.number program) else slot_at slots.old.slots m) }
{
    begin(slots, row.number, program);
    slots.add(row.number, row.held);
    if row.held {
        reaches.add(row.number, row.endpoint);
    }
}

/// A number gets a program that no filter had before, if one is given.
fn begin(slots: &mut Slots, number: u32, program: Option<Shared>)
    requires begins { Begins slots.old.slots number program }
    requires inside { number < length slots.old.slots }
    ensures own { slot_at slots.new.slots number ≡ base_slot slots.old.slots number program }
    ensures others { (m : ℕ) → (m == number) ≡ false → slot_at slots.new.slots m ≡ slot_at slots.old.slots m }
    ensures numbers { length slots.new.slots ≡ length slots.old.slots }
{
    match program {
        Some(program) => slots.start(number, program),
        None => {}
    }
}

/// A filter gets another program: it goes with one and comes with the other. Takes no memory.
pub(crate) fn swap(
    slots: &mut Slots,
    reaches: &mut Reaches,
    old: Row,
    row: Row,
    program: Option<Shared>,
)
    requires other { old.number ≡ row.number → ⊥ }
    requires old_held { old.held ≡ true }
    requires held { row.held ≡ true }
    requires begins { Begins slots.old.slots row.number program }
    requires room { HasRoomIn (base_slot slots.old.slots row.number program) }
    requires slot { row.number < length slots.old.slots }
    requires number { row.number < length reaches.old.ends }
    requires reach { HasReachRoom reaches.old row }
    requires old_slot { old.number < length slots.old.slots }
    requires old_number { old.number < length reaches.old.ends }
    requires taken { IsTaken slots.old old }
    ensures booked { (rows others after : List (ℕ × GhostRow)) → AreBooked rows slots.old.slots reaches.old.ends → Adds others old rows → Adds others row after → AreBooked after slots.new.slots reaches.new.ends }
    ensures slots { (m : ℕ) → slot_at slots.new.slots m ≡ (if m == row.number then one_more row.held (base_slot slots.old.slots row.number program) else (if m == old.number then one_less old.held (slot_at slots.old.slots old.number) else slot_at slots.old.slots m)) }
{
    // An insert that is ready comes before a removal: a number is freed first, and a reach is added first.
    slots.take(old.number, old.held);
    begin(slots, row.number, program);
    slots.add(row.number, row.held);
    reaches.add(row.number, row.endpoint);
    reaches.take(old.number, old.endpoint);
}

/// A filter goes. Takes no memory.
pub(crate) fn take(slots: &mut Slots, reaches: &mut Reaches, row: Row)
    requires slot { row.number < length slots.old.slots }
    requires number { row.number < length reaches.old.ends }
    requires taken { IsTaken slots.old row }
    ensures booked { (rows after : List (ℕ × GhostRow)) → AreBooked rows slots.old.slots reaches.old.ends → Adds after row rows → AreBooked after slots.new.slots reaches.new.ends }
    ensures slots { (m : ℕ) → slot_at slots.new.slots m ≡ (if m == row.number then one_less row.held (slot_at slots.old.slots row.number) else slot_at slots.old.slots m) }
{
    slots.take(row.number, row.held);
    if row.held {
        reaches.take(row.number, row.endpoint);
    }
}

/// The capability of a filter isn't held any more. Takes no memory.
pub(crate) fn lapse(slots: &mut Slots, reaches: &mut Reaches, row: Row)
    requires held { row.held ≡ true }
    requires slot { row.number < length slots.old.slots }
    requires number { row.number < length reaches.old.ends }
    requires one { HasOne true (slot_at slots.old.slots row.number) }
    ensures booked { (rows others after : List (ℕ × GhostRow)) → AreBooked rows slots.old.slots reaches.old.ends → Adds others row rows → Adds others (lapsed_row row) after → AreBooked after slots.new.slots reaches.new.ends }
    ensures slots { (m : ℕ) → slot_at slots.new.slots m ≡ (if m == row.number then one_lapsed (slot_at slots.old.slots row.number) else slot_at slots.old.slots m) }
{
    slots.lapse(row.number);
    reaches.take(row.number, row.endpoint);
}
