//! The endpoints of one program.
ghost use Rattle.std.specs.Prelude.{◌≡◌, ◌==◌, ◌+◌, ◌-◌, ◌<◌, ◌++◌, if◌then◌else◌, ℕ, List, [], ◌∷◌, is_some, true, IfOk, IfSome, OnOk};
ghost use Rattle.chunked.specs.Maps.{SortedMap, value_at};
ghost use Rattle.installed_filters.specs.Counts.{counted, number_of, counts_in, no_counts, AreSmall, HasRoomFor};
ghost use Rattle.installed_filters.specs.Keeping.{raises_of};

use chunked::Sorted;
use filter_table::Kept;
use std::alloc::{AllocError, Global};
use std::marker::Model;
use std::mem;

/// Endpoints, each with a number above 0.
#[derive(Drop)]
pub(crate) enum Held {
    Nothing,
    /// Most programs have one.
    One { endpoint: u16, count: u32 },
    Many { all: Box<Sorted<u32>> },
}

/// The endpoints of the filters that have one program, and how many filters each has.
pub(crate) struct Endpoints {
    held: Held,
}

// By hand, so that the proofs of its owners have one call and not a drop of each part.
impl Drop for Endpoints {
    fn drop(self) {
        let Endpoints { held: _ } = self;
    }
}

impl Model for Endpoints {
    ghost use Rattle.std.specs.Prelude.{ℕ};
    ghost use Rattle.chunked.specs.Maps.{SortedMap};
    ghost use Rattle.installed_filters.specs.Counts.{counts_in, AreSmall};

    ghost Value = { SortedMap ℕ };

    ghost view = { λ a. counts_in a.held };

    ghost invariant = { λ a. AreSmall (counts_in a.held).entries };
}

impl Endpoints {
    /// No endpoint.
    pub(crate) fn new() -> Endpoints
        ensures { result ≡ no_counts }
    {
        Endpoints {
            held: Held::Nothing,
        }
    }

    /// How many filters an endpoint has.
    pub(crate) fn count(&self, endpoint: u16) -> u32
        ensures { result ≡ number_of (value_at self.now.entries endpoint) }
    {
        match &self.held {
            Held::Nothing => 0,
            Held::One {
                endpoint: one,
                count,
            } => { if *one == endpoint { *count } else { 0 } }
            Held::Many { all } => count_of(all, endpoint),
        }
    }

    /// How many endpoints there are, or 0 where there may be just one.
    pub(crate) fn mapped(&self) -> usize {
        match &self.held {
            Held::Many { all } => all.len(),
            _ => 0,
        }
    }

    /// The endpoint, if there is just one.
    pub(crate) fn only(&self) -> Option<u16>
        ensures { IfSome result (λ endpoint. (count : ℕ) × (self.now.entries ≡ (endpoint, count) ∷ [])) }
    {
        match &self.held {
            Held::One { endpoint, .. } => Some(*endpoint),
            _ => None,
        }
    }

    /// Whether a filter has an endpoint.
    pub(crate) fn has(&self, endpoint: u16) -> bool
        ensures { result ≡ is_some (value_at self.now.entries endpoint) }
    {
        match &self.held {
            Held::Nothing => false,
            Held::One { endpoint: one, .. } => *one == endpoint,
            Held::Many { all } => all.contains(u64::from(endpoint)),
        }
    }

    /// Makes room for one more filter of an endpoint. The counts stay, whatever the result.
    pub(crate) fn reserve(&mut self, alloc: Global, endpoint: u16) -> Result<(), AllocError>
        ensures entries { self.new.entries ≡ self.old.entries }
        ensures room { OnOk result (HasRoomFor self.new endpoint) }
    {
        match &mut self.held {
            Held::Nothing => Ok(()),
            Held::One {
                endpoint: one,
                count,
            } => {
                if *one == endpoint {
                    return Ok(());
                }
                let all = map_of(alloc, *one, *count)?;
                self.held = Held::Many { all };
                Ok(())
            }
            Held::Many { all } => make_room(all, endpoint),
        }
    }

    /// One filter more has an endpoint. Takes no memory.
    pub(crate) fn add(&mut self, endpoint: u16)
        requires room { HasRoomFor self.old endpoint }
        requires fits { number_of (value_at self.old.entries endpoint) < 4294967295 }
        ensures { (q : ℕ) → value_at self.new.entries q ≡ (if q == endpoint then counted (number_of (value_at self.old.entries endpoint) + 1) else value_at self.old.entries q) }
    {
        let held = mem::replace(&mut self.held, Held::Nothing);
        self.held = with_one_more(held, endpoint);
    }

    /// One filter less has an endpoint. Takes no memory.
    pub(crate) fn take(&mut self, endpoint: u16)
        ensures { (q : ℕ) → value_at self.new.entries q ≡ (if q == endpoint then counted (number_of (value_at self.old.entries endpoint) - 1) else value_at self.old.entries q) }
    {
        let held = mem::replace(&mut self.held, Held::Nothing);
        self.held = with_one_less(held, endpoint);
    }

    /// Adds each endpoint with a verdict to the raises of a packet.
    pub(crate) fn raise(&self, raises: &mut Vec<Kept>, verdict: u32) -> Result<(), AllocError>
        ensures { OnOk result (raises.new.items ≡ raises.old.items ++ raises_of self.now.entries verdict) }
    {
        match &self.held {
            Held::Nothing => Ok(()),
            Held::One { endpoint, .. } => {
                raises.push(Kept {
                    endpoint: *endpoint,
                    kept: verdict,
                })?;
                Ok(())
            }
            Held::Many { all } => {
                raise_all(all, raises, verdict)?;
                Ok(())
            }
        }
    }
}

/// A map with one count, and with room for another.
fn map_of(alloc: Global, endpoint: u16, count: u32) -> Result<Box<Sorted<u32>>, AllocError>
    ensures { IfOk result (λ all. all.value ≡ record { entries = (endpoint, count) ∷ []; ready = true }) }
{
    let mut all = Sorted::new(alloc);
    all.reserve()?;
    all.insert_reserved(u64::from(endpoint), count);
    all.reserve()?;
    Ok(Box::new(alloc, all)?)
}

/// Makes room for one more filter of an endpoint.
fn make_room(all: &mut Sorted<u32>, endpoint: u16) -> Result<(), AllocError>
    ensures entries { all.new.entries ≡ all.old.entries }
    ensures room { OnOk result (HasRoomFor all.new endpoint) }
{
    if all.contains(u64::from(endpoint)) {
        return Ok(());
    }
    all.reserve()
}

/// The count of an endpoint; 0 where it has no entry.
fn count_of(all: &Sorted<u32>, endpoint: u16) -> u32
    ensures { result ≡ number_of (value_at all.now.entries endpoint) }
{
    match all.get(u64::from(endpoint)) {
        Some(count) => *count,
        None => 0,
    }
}

/// The counts with one more for an endpoint, for which there is room.
fn with_one_more(held: Held, endpoint: u16) -> Held
    requires small { AreSmall (counts_in held).entries }
    requires room { HasRoomFor (counts_in held) endpoint }
    requires fits { number_of (value_at (counts_in held).entries endpoint) < 4294967295 }
    ensures counts { (q : ℕ) → value_at (counts_in result).entries q ≡ (if q == endpoint then counted (number_of (value_at (counts_in held).entries endpoint) + 1) else value_at (counts_in held).entries q) }
    ensures small { AreSmall (counts_in result).entries }
{
    match held {
        Held::Nothing => Held::One { endpoint, count: 1 },
        Held::One {
            endpoint: one,
            count,
        } => {
            if one == endpoint {
                let count = count + 1;
                Held::One { endpoint, count }
            } else {
                unreachable!()
            }
        }
        Held::Many { mut all } => {
            count_up(&mut all, endpoint);
            Held::Many { all }
        }
    }
}

/// One more for an endpoint.
fn count_up(all: &mut Sorted<u32>, endpoint: u16)
    requires room { HasRoomFor all.old endpoint }
    requires fits { number_of (value_at all.old.entries endpoint) < 4294967295 }
    ensures { (q : ℕ) → value_at all.new.entries q ≡ (if q == endpoint then counted (number_of (value_at all.old.entries endpoint) + 1) else value_at all.old.entries q) }
{
    match all.get(u64::from(endpoint)) {
        Some(count) => {
            let more = *count + 1;
            all.set(u64::from(endpoint), more);
        }
        None => all.insert_reserved(u64::from(endpoint), 1),
    }
}

/// The counts with one less for an endpoint. A count of 0 has no entry.
fn with_one_less(held: Held, endpoint: u16) -> Held
    requires small { AreSmall (counts_in held).entries }
    ensures counts { (q : ℕ) → value_at (counts_in result).entries q ≡ (if q == endpoint then counted (number_of (value_at (counts_in held).entries endpoint) - 1) else value_at (counts_in held).entries q) }
    ensures small { AreSmall (counts_in result).entries }
{
    match held {
        Held::Nothing => Held::Nothing,
        Held::One {
            endpoint: one,
            count,
        } => less_of_one(one, count, endpoint),
        Held::Many { mut all } => {
            count_down(&mut all, endpoint);
            Held::Many { all }
        }
    }
}

/// The count of one endpoint, with one less for an endpoint.
fn less_of_one(one: u16, count: u32, endpoint: u16) -> Held
    ensures counts { (q : ℕ) → value_at (counts_in result).entries q ≡ (if q == endpoint then counted (number_of (value_at ((one, count) ∷ []) endpoint) - 1) else value_at ((one, count) ∷ []) q) }
    ensures small { AreSmall (counts_in result).entries }
{
    if one != endpoint {
        return Held::One {
            endpoint: one,
            count,
        };
    }
    if count > 1 {
        let count = count - 1;
        Held::One { endpoint, count }
    } else {
        Held::Nothing
    }
}

/// One less for an endpoint.
fn count_down(all: &mut Sorted<u32>, endpoint: u16)
    ensures { (q : ℕ) → value_at all.new.entries q ≡ (if q == endpoint then counted (number_of (value_at all.old.entries endpoint) - 1) else value_at all.old.entries q) }
{
    let count = count_of(all, endpoint);
    if count > 1 {
        all.set(u64::from(endpoint), count - 1);
    } else {
        all.remove(u64::from(endpoint));
    }
}

/// Adds each endpoint of a map with a verdict to the raises of a packet.
fn raise_all(all: &Sorted<u32>, raises: &mut Vec<Kept>, verdict: u32) -> Result<(), AllocError>
    requires small { AreSmall all.now.entries }
    ensures { OnOk result (raises.new.items ≡ raises.old.items ++ raises_of all.now.entries verdict) }
{
    for entry in all.iter() {
        raises.push(Kept {
            endpoint: entry.0 as u16,
            kept: verdict,
        })?;
    }
    Ok(())
}
