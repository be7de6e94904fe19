//! What is asked of the filters: one by its id, all of them in order, and how many different programs they have.
ghost use Rattle.std.specs.Prelude.{◌≡◌, ◌<◌, Some, is_some, length, filter, nat_le};
ghost use Rattle.std.specs.Iterator.{YieldsFirstBy, item_count};
ghost use Rattle.std.specs.Option.{option_map};
ghost use Rattle.filter_table.specs.Tables.{filter_at};
ghost use Rattle.installed_filters.specs.Lent.{AreDifferent, held_listed, listed, listed_row, shown_filter};
ghost use Rattle.installed_filters.specs.Slotting.{slot_at};
ghost use Rattle.installed_filters.specs.declared.slots.Slot.{Slot as AnySlot};

use crate::books::Row;
use crate::filters::Filters;
use crate::slots::Slots;
use chunked::Items;
use filter_verify::Verified;
use std::marker::Model;

/// A filter that is listed.
#[derive(Clone, Copy)]
pub struct Filter<'a> {
    /// Its number, which no other filter ever has.
    pub id: u32,
    /// The domain that installed it.
    pub owner: u16,
    /// The capability that it was installed under, which may be gone.
    pub cap: u32,
    /// The endpoint that gets what it accepts.
    pub endpoint: u16,
    /// Which packets it accepts, and how much of them.
    pub program: &'a Verified,
}

impl Filters {
    /// Whether a change is planned.
    pub fn is_planned(&self) -> bool
        ensures { result ≡ is_some self.now.next }
    {
        self.change.is_some()
    }

    /// The filter with this id.
    pub fn get(&self, id: u32) -> Option<Filter<'_>>
        ensures { option_map shown_filter result ≡ filter_at (listed self.now.now) id }
    {
        match self.rows.get(u64::from(id)) {
            Some(row) => Some(lent(id, row, &self.slots)),
            None => None,
        }
    }

    /// The filters in order of installation.
    pub fn iter(&self) -> InstalledIter<'_>
        ensures { result ≡ listed self.now.now }
    {
        let _count = self.rows.len();
        InstalledIter {
            rows: self.rows.iter(),
            slots: &self.slots,
        }
    }

    /// The filters from an id on, in order of installation. Those before it are not walked.
    pub fn iter_from(&self, id: u32) -> InstalledIter<'_>
        ensures { result ≡ filter (λ f. nat_le id f.id) (listed self.now.now) }
    {
        let _count = self.rows.len();
        InstalledIter {
            rows: self.rows.iter_from(u64::from(id)),
            slots: &self.slots,
        }
    }

    /// How many different programs the filters have.
    pub fn distinct_programs(&self) -> usize
        ensures { AreDifferent (listed self.now.now) result }
    {
        let _count = self.rows.len();
        self.slots.count()
    }

    /// How many different programs a packet is run on: those of the filters whose capability is held.
    pub fn running_programs(&self) -> usize
        ensures { AreDifferent (held_listed self.now.now) result }
    {
        let _count = self.rows.len();
        self.slots.count_held()
    }
}

/// The filters that are still to come, in order of installation.
#[derive(Drop)]
pub struct InstalledIter<'a> {
    rows: Items<'a, (u64, Row)>,
    slots: &'a Slots,
}

impl<'a> Model for InstalledIter<'a> {
    ghost use Rattle.std.specs.Prelude.{List, map};
    ghost use Rattle.filter_table.specs.Listed.{ListedFilter};
    ghost use Rattle.installed_filters.specs.Lent.{AreLendable, listed_row};

    ghost Value = { List ListedFilter };

    ghost view = { λ a. map (listed_row a.slots.now.slots) a.rows };

    ghost invariant = { λ a. AreLendable a.slots.now.slots a.rows };
}

impl<'a> Iterator for InstalledIter<'a> {
    type Item = Filter<'a>;

    ghost next_gives = { YieldsFirstBy shown_filter (λ rest. rest) };

    ghost remaining = { item_count (λ rest. rest) };

    fn next(&mut self) -> Option<Filter<'a>> {
        match self.rows.next() {
            Some(entry) => Some(lent(entry.0 as u32, &entry.1, self.slots)),
            None => None,
        }
    }
}

/// A filter with the program of its number.
fn lent<'a>(id: u32, row: &Row, slots: &'a Slots) -> Filter<'a>
    requires { (s : AnySlot) × (slot_at slots.now.slots row.now.number ≡ Some s) }
    ensures { shown_filter result ≡ listed_row slots.now.slots (id, row.now) }
{
    let program = match slots.get(row.number) {
        Some(slot) => slot.program.verified(),
        None => unreachable!(),
    };
    Filter {
        id,
        owner: row.owner,
        cap: row.cap,
        endpoint: row.endpoint,
        program,
    }
}
