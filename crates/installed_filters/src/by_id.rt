//! The filters by their ids, and which of them are under which capability.
ghost use Rattle.std.specs.Prelude.{◌≡◌, ◌==◌, ◌&&◌, ◌<◌, ℕ, [], None, Some, true, false, IsTrue, if◌then◌else◌, length, filter, nat_eq, nat_le, IfOk, OnOk};
ghost use Rattle.std.specs.BTreeMap.{insert_entry};
ghost use Rattle.std.specs.List.Sorted.{IsStrictlyIncreasing};
ghost use Rattle.std.specs.Ordering.{nat_cmp};
ghost use Rattle.std.specs.Map.{keys_of, remove_entry, set_value};
ghost use Rattle.std.specs.Option.{option_copied};
ghost use Rattle.chunked.specs.Maps.{value_at};
ghost use Rattle.installed_filters.specs.Lapsing.{lapses};
ghost use Rattle.installed_filters.specs.Under.{is_held, is_under, under_key, AddsHeld, LacksHeld};

use crate::books::Row;
use chunked::{Items, Sorted};
use std::alloc::{AllocError, Global};
use std::marker::Model;

/// How many ids there may be, of filters and of capabilities.
const IDS: u64 = 4_294_967_296;

/// The filters by their ids. Those under a capability are found without a look at the others.
pub(crate) struct Rows {
    rows: Sorted<Row>,
    /// Each filter under its capability, in order of capability. A filter that lapsed stays: what goes once isn't looked for again.
    under: Sorted<()>,
}

// By hand, so that the proofs of its owners have one call and not a drop of each part.
impl Drop for Rows {
    fn drop(self) {
        let Rows { rows: _, under: _ } = self;
    }
}

impl Model for Rows {
    ghost use Rattle.std.specs.Prelude.{◌&&◌};
    ghost use Rattle.chunked.specs.Maps.{SortedMap};
    ghost use Rattle.installed_filters.specs.Under.{AreUnder};
    ghost use Rattle.installed_filters.specs.declared.books.Row.{Row};

    ghost Value = { SortedMap Row };

    ghost view = { λ a. record { entries = a.rows.entries; ready = a.rows.ready && a.under.ready } };

    ghost invariant = { λ a. AreUnder a.rows.entries a.under.entries };
}

impl Rows {
    /// No filter. Takes no memory.
    pub(crate) fn new(alloc: Global) -> Rows
        ensures { result ≡ record { entries = []; ready = false } }
    {
        Rows {
            rows: Sorted::new(alloc),
            under: Sorted::new(alloc),
        }
    }

    /// Gives back all that they hold: no filter is left. Takes no memory.
    // Not in line, so that what they held is on the stack no longer than this.
    #[inline(never)]
    pub(crate) fn clear(&mut self, alloc: Global)
        ensures { self.new ≡ record { entries = []; ready = false } }
    {
        *self = Rows::new(alloc);
    }

    /// How many there are.
    pub(crate) fn len(&self) -> usize
        ensures count { result ≡ length self.now.entries }
        ensures order { IsStrictlyIncreasing (keys_of self.now.entries) }
    {
        self.rows.len()
    }

    /// The filter with an id.
    pub(crate) fn get(&self, id: u64) -> Option<&Row>
        ensures { option_copied result ≡ value_at self.now.entries id }
    {
        self.rows.get(id)
    }

    /// The filters in order.
    pub(crate) fn iter(&self) -> Items<'_, (u64, Row)>
        ensures entries { result ≡ self.now.entries }
        ensures order { IsStrictlyIncreasing (keys_of self.now.entries) }
    {
        self.rows.iter()
    }

    /// The filters from an id on, in order.
    pub(crate) fn iter_from(&self, id: u64) -> Items<'_, (u64, Row)>
        ensures { result ≡ filter (λ e. nat_le id e.0) self.now.entries }
    {
        self.rows.iter_from(id)
    }

    /// Makes room for one filter more. The filters stay, whatever the result.
    pub(crate) fn reserve(&mut self) -> Result<(), AllocError>
        ensures entries { self.new.entries ≡ self.old.entries }
        ensures ready { OnOk result (IsTrue self.new.ready) }
    {
        self.rows.reserve()?;
        self.under.reserve()
    }

    /// Adds a filter with an id that none has, for which room was made. Takes no memory.
    pub(crate) fn insert_reserved(&mut self, id: u64, row: Row)
        requires ready { IsTrue self.old.ready }
        requires absent { value_at self.old.entries id ≡ None }
        requires small { id < 4294967296 }
        ensures entries { self.new ≡ record { entries = insert_entry nat_cmp self.old.entries id row; ready = false } }
    {
        self.rows.insert_reserved(id, row);
        self.under.insert_reserved(key_of(row.cap, id), ());
    }

    /// Replaces a filter by one under the same capability. Takes no memory.
    pub(crate) fn set(&mut self, id: u64, row: Row)
        requires { is_under row.cap (value_at self.old.entries id) ≡ true }
        ensures entries { self.new ≡ record { entries = set_value (nat_eq id) self.old.entries row; ready = self.old.ready } }
    {
        self.rows.set(id, row);
    }

    /// Takes a filter out, if there is one with the id. Takes no memory.
    pub(crate) fn remove(&mut self, id: u64)
        ensures entries { self.new.entries ≡ remove_entry (nat_eq id) self.old.entries }
    {
        match self.rows.remove(id) {
            Some(row) => {
                self.under.remove(key_of(row.cap, id));
            }
            None => {}
        }
    }

    /// The filters that are held and whose capability goes, each with its id, in order.
    // Not in line: what it needs of the stack is free again before the deeper calls.
    #[inline(never)]
    pub(crate) fn lapsing_under(
        &self,
        alloc: Global,
        gone: &Sorted<()>,
    ) -> Result<Vec<(u64, Row)>, AllocError>
        ensures { IfOk result (λ lapsing. lapsing.items ≡ filter (λ e. lapses gone.now.entries e.1) self.now.entries) }
    {
        let _count = self.rows.len();
        let mut lapsing = Sorted::new(alloc);
        for entry in gone.iter() {
            self.add_held(&mut lapsing, entry.0)?;
        }
        listed(alloc, &lapsing)
    }

    /// Adds the held filters under a capability.
    fn add_held(&self, held: &mut Sorted<Row>, cap: u64) -> Result<(), AllocError>
        requires absent { LacksHeld cap self.now.entries held.old.entries }
        ensures { OnOk result (AddsHeld cap self.now.entries held.old.entries held.new.entries) }
    {
        let _count = self.rows.len();
        if cap >= IDS {
            return Ok(());
        }
        for entry in self.under.iter_from(cap * IDS) {
            if entry.0 / IDS != cap {
                return Ok(());
            }
            add_if_held(&self.rows, held, entry.0 % IDS)?;
        }
        Ok(())
    }
}

/// The filters in a list, each with its id.
fn listed(alloc: Global, rows: &Sorted<Row>) -> Result<Vec<(u64, Row)>, AllocError>
    ensures list { IfOk result (λ list. list.items ≡ rows.now.entries) }
    ensures order { IsStrictlyIncreasing (keys_of rows.now.entries) }
{
    let mut list = Vec::with_capacity(alloc, rows.len())?;
    for entry in rows.iter() {
        list.push(*entry)?;
    }
    Ok(list)
}

/// Adds the filter with an id, if it is held.
fn add_if_held(rows: &Sorted<Row>, held: &mut Sorted<Row>, id: u64) -> Result<(), AllocError>
    requires absent { is_held (value_at rows.now.entries id) ≡ true → value_at held.old.entries id ≡ None }
    ensures { OnOk result ((q : ℕ) → value_at held.new.entries q ≡ (if (q == id) && is_held (value_at rows.now.entries id) then value_at rows.now.entries id else value_at held.old.entries q)) }
{
    let row = match rows.get(id) {
        Some(row) => *row,
        None => return Ok(()),
    };
    if row.held {
        held.reserve()?;
        held.insert_reserved(id, row);
    }
    Ok(())
}

/// A filter under its capability, as one number, so that they are in order of capability.
fn key_of(cap: u32, id: u64) -> u64
    requires { id < 4294967296 }
    ensures { result ≡ under_key cap id }
{
    u64::from(cap) * IDS + id
}
