//! Changes of filters that are planned, for which there is room.
ghost use Rattle.std.specs.Prelude.{◌≡◌, ◌==◌, ◌<◌, ◌++◌, ◌∷◌, [], ℕ, None, Some, IsTrue, if◌then◌else◌, map, nat_eq, true, length};
ghost use Rattle.std.specs.List.{Contains};
ghost use Rattle.std.specs.List.Sorted.{IsStrictlyIncreasing};
ghost use Rattle.std.specs.Map.{keys_of, remove_entry, set_value};
ghost use Rattle.chunked.specs.Maps.{value_at};
ghost use Rattle.installed_filters.specs.Slotting.{slot_at, HasOne, HasRoomIn, one_lapsed, one_more, one_less};
ghost use Rattle.installed_filters.specs.Books.{AreBooked, Begins, HasReachRoom, IsTaken, base_slot, lapsed_row};
ghost use Rattle.installed_filters.specs.Homes.{AreProgramsApart};
ghost use Rattle.installed_filters.specs.Installed.{installed, lapsed_by};
ghost use Rattle.installed_filters.specs.Lapsing.{AreHeldRows, slots_lapsed};
ghost use Rattle.installed_filters.specs.Listing.{AreListed, AreListedFor, AreThose, Runs};
ghost use Rattle.installed_filters.specs.Planning.{HasSlots, IsKept, IsPlanned, next_of, slots_next, slots_swapped};
ghost use Rattle.installed_filters.specs.declared.books.Row.{Row as GhostRow};

use crate::books::{Row, lapse, put, swap, take};
use crate::by_id::Rows;
use crate::coming::take_new;
use crate::lapsing::{stop_unheld, wake_all};
use crate::leaving::{leave, wake};
use crate::lists::Lists;
use crate::numbered::Numbered;
use crate::reaches::Reaches;
use crate::slots::Slots;
use filter_group::Shared;

/// What is planned.
#[derive(Drop)]
pub(crate) enum Change {
    /// A filter comes.
    Install {
        id: u32,
        row: Row,
        /// Its program, if no filter has it yet.
        program: Option<Shared>,
    },
    /// A filter goes.
    Remove {
        id: u32,
        row: Row,
    },
    /// A filter gets a program whose number is another.
    Replace {
        id: u32,
        old: Row,
        row: Row,
        /// Its program, if no filter has it yet.
        program: Option<Shared>,
    },
    /// The capability of filters isn't held any more.
    Lapse {
        /// The filters that were held, each with its id.
        lapsing: Vec<(u64, Row)>,
    },
    /// A filter gets the program that it has.
    Stay,
}

/// Does what is planned. Takes no memory.
pub(crate) fn carry_out(
    rows: &mut Rows,
    slots: &mut Slots,
    reaches: &mut Reaches,
    lists: &mut Lists,
    change: Change,
)
    requires kept { IsKept rows.old.entries slots.old.slots reaches.old.ends lists.old (Some change) }
    requires planned { IsPlanned rows.old slots.old reaches.old (Some change) }
    ensures kept { IsKept rows.new.entries slots.new.slots reaches.new.ends lists.new None }
    ensures filters { next_of slots.old.slots rows.old.entries (Some change) ≡ Some (installed slots.new.slots rows.new.entries) }
{
    let _count = rows.len();
    match change {
        Change::Install { id, row, program } => {
            take_new(slots, &mut lists.resting, row.number, &program);
            install(rows, slots, reaches, id, row, program);
        }
        Change::Remove { id, row } => {
            leave(slots, lists, row);
            remove(rows, slots, reaches, id, row);
        }
        Change::Replace {
            id,
            old,
            row,
            program,
        } => {
            take_new(slots, &mut lists.resting, row.number, &program);
            leave(slots, lists, old);
            replace(rows, slots, reaches, id, old, row, program);
        }
        Change::Lapse { lapsing } => {
            lapse_all(rows, slots, reaches, &mut lists.running, &lapsing);
        }
        Change::Stay => {}
    }
}

/// Takes out of the lists what a change put in, if one is planned. Takes no memory.
pub(crate) fn take_back(slots: &Slots, lists: &mut Lists, change: &Option<Change>)
    requires apart { AreProgramsApart slots.now.slots }
    requires slots { HasSlots slots.now.slots change.now }
    requires listed { AreListedFor (slot_at slots.now.slots) (slots_next slots.now.slots change.now) lists.old.running lists.old.resting }
    ensures { AreListed (slot_at slots.now.slots) lists.new.running lists.new.resting }
{
    match change {
        Some(change) => undo(slots, lists, change),
        None => {}
    }
}

/// Takes out of the lists what a change put in. Takes no memory.
fn undo(slots: &Slots, lists: &mut Lists, change: &Change)
    requires apart { AreProgramsApart slots.now.slots }
    requires slots { HasSlots slots.now.slots (Some change.now) }
    requires listed { AreListedFor (slot_at slots.now.slots) (slots_next slots.now.slots (Some change.now)) lists.old.running lists.old.resting }
    ensures { AreListed (slot_at slots.now.slots) lists.new.running lists.new.resting }
{
    match change {
        Change::Install { row, program, .. } => {
            take_new(slots, &mut lists.running, row.number, program);
        }
        Change::Remove { row, .. } => wake(slots, &mut lists.resting, *row),
        Change::Replace {
            old,
            row,
            program,
            ..
        } => {
            take_new(slots, &mut lists.running, row.number, program);
            wake(slots, &mut lists.resting, *old);
        }
        Change::Lapse { lapsing } => wake_all(slots, &mut lists.resting, lapsing),
        Change::Stay => {}
    }
}

/// A filter comes last. Takes no memory.
fn install(
    rows: &mut Rows,
    slots: &mut Slots,
    reaches: &mut Reaches,
    id: u32,
    row: Row,
    program: Option<Shared>,
)
    requires ready { IsTrue rows.old.ready }
    requires last { (e : ℕ × GhostRow) → Contains rows.old.entries e → e.0 < id }
    requires begins { Begins slots.old.slots row.number program }
    requires room { HasRoomIn (base_slot slots.old.slots row.number program) }
    requires slot { row.number < length slots.old.slots }
    requires number { row.number < length reaches.old.ends }
    requires reach { HasReachRoom reaches.old row }
    ensures rows { rows.new.entries ≡ rows.old.entries ++ (id, row) ∷ [] }
    ensures booked { AreBooked rows.old.entries slots.old.slots reaches.old.ends → AreBooked rows.new.entries slots.new.slots reaches.new.ends }
    ensures slots { (m : ℕ) → slot_at slots.new.slots m ≡ (if m == row.number then one_more row.held (base_slot slots.old.slots row.number program) else slot_at slots.old.slots m) }
{
    rows.insert_reserved(u64::from(id), row);
    put(slots, reaches, row, program);
}

/// A filter goes. Takes no memory.
fn remove(rows: &mut Rows, slots: &mut Slots, reaches: &mut Reaches, id: u32, row: Row)
    requires there { value_at rows.old.entries id ≡ Some row }
    requires slot { row.number < length slots.old.slots }
    requires number { row.number < length reaches.old.ends }
    requires taken { IsTaken slots.old row }
    ensures rows { rows.new.entries ≡ remove_entry (nat_eq id) rows.old.entries }
    ensures booked { AreBooked rows.old.entries slots.old.slots reaches.old.ends → AreBooked rows.new.entries slots.new.slots reaches.new.ends }
    ensures slots { (m : ℕ) → slot_at slots.new.slots m ≡ (if m == row.number then one_less row.held (slot_at slots.old.slots row.number) else slot_at slots.old.slots m) }
{
    rows.remove(u64::from(id));
    take(slots, reaches, row);
}

/// A filter gets another program, whose number is another. Takes no memory.
fn replace(
    rows: &mut Rows,
    slots: &mut Slots,
    reaches: &mut Reaches,
    id: u32,
    old: Row,
    row: Row,
    program: Option<Shared>,
)
    requires there { value_at rows.old.entries id ≡ Some old }
    requires cap { old.cap ≡ row.cap }
    requires other { old.number ≡ row.number → ⊥ }
    requires old_held { old.held ≡ true }
    requires held { row.held ≡ true }
    requires begins { Begins slots.old.slots row.number program }
    requires room { HasRoomIn (base_slot slots.old.slots row.number program) }
    requires slot { row.number < length slots.old.slots }
    requires number { row.number < length reaches.old.ends }
    requires reach { HasReachRoom reaches.old row }
    requires old_slot { old.number < length slots.old.slots }
    requires old_number { old.number < length reaches.old.ends }
    requires taken { IsTaken slots.old old }
    ensures rows { rows.new.entries ≡ set_value (nat_eq id) rows.old.entries row }
    ensures booked { AreBooked rows.old.entries slots.old.slots reaches.old.ends → AreBooked rows.new.entries slots.new.slots reaches.new.ends }
    ensures slots { (m : ℕ) → slot_at slots.new.slots m ≡ slots_swapped slots.old.slots old row program m }
{
    rows.set(u64::from(id), row);
    swap(slots, reaches, old, row, program);
}

/// Filters aren't held any more. Takes no memory.
fn lapse_all(
    rows: &mut Rows,
    slots: &mut Slots,
    reaches: &mut Reaches,
    running: &mut Numbered,
    lapsing: &[(u64, Row)],
)
    requires runs { AreThose running.old (Runs (slot_at slots.old.slots)) }
    requires booked { AreBooked rows.old.entries slots.old.slots reaches.old.ends }
    requires held { AreHeldRows rows.old.entries lapsing.now }
    requires order { IsStrictlyIncreasing (keys_of rows.old.entries) }
    ensures booked { AreBooked rows.new.entries slots.new.slots reaches.new.ends }
    ensures filters { installed slots.new.slots rows.new.entries ≡ map (lapsed_by lapsing.now) (installed slots.old.slots rows.old.entries) }
    ensures slots { (m : ℕ) → slot_at slots.new.slots m ≡ slots_lapsed slots.old.slots lapsing.now m }
    ensures runs { AreThose running.new (Runs (slot_at slots.new.slots)) }
{
    for entry in lapsing {
        lapse_one(rows, slots, reaches, entry.0, entry.1);
        stop_unheld(slots, running, entry.1.number);
    }
}

/// A filter isn't held any more. Takes no memory.
fn lapse_one(rows: &mut Rows, slots: &mut Slots, reaches: &mut Reaches, id: u64, row: Row)
    requires there { value_at rows.old.entries id ≡ Some row }
    requires held { row.held ≡ true }
    requires slot { row.number < length slots.old.slots }
    requires number { row.number < length reaches.old.ends }
    requires one { HasOne true (slot_at slots.old.slots row.number) }
    ensures rows { rows.new.entries ≡ set_value (nat_eq id) rows.old.entries (lapsed_row row) }
    ensures booked { AreBooked rows.old.entries slots.old.slots reaches.old.ends → AreBooked rows.new.entries slots.new.slots reaches.new.ends }
    ensures slots { (m : ℕ) → slot_at slots.new.slots m ≡ (if m == row.number then one_lapsed (slot_at slots.old.slots row.number) else slot_at slots.old.slots m) }
{
    rows.set(id, Row { held: false, ..row });
    lapse(slots, reaches, row);
}
