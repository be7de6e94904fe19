//! Which endpoints get what the programs with which numbers accept.
ghost use Rattle.std.specs.Prelude.{◌≡◌, ◌==◌, ◌&&◌, ◌+◌, ◌-◌, ◌<◌, ◌≤◌, ◌++◌, ℕ, List, [], ◌∷◌, Some, false, if◌then◌else◌, is_some, length, slice_get, take, replicate, IfOk, OnOk, OnErr};
ghost use Rattle.std.specs.List.{All};
ghost use Rattle.chunked.specs.Maps.{SortedMap, value_at};
ghost use Rattle.filter_group.specs.declared.lockstep.Hit.{Hit as AnyHit};
ghost use Rattle.installed_filters.specs.Counts.{counted, number_of, no_counts, reach_at, reach_key, HasRoom, HasRoomFor, AreWithin, AreIndexed, AreReachKeys, ends_at};
ghost use Rattle.installed_filters.specs.Receiving.{kept_by};
ghost use Rattle.installed_filters.specs.Keeping.{raises_by, AreKept, AreApart, GetsBy, GetsNoted, AreNoted};

use crate::endpoints::Endpoints;
use crate::gathering::{FEW_RAISES, gather};
use crate::raising::raise;
use crate::receiving::Receivers;
use chunked::Sorted;
use filter_group::Hit;
use filter_table::Kept;
use std::alloc::{AllocError, Global};
use std::marker::Model;

/// How many numbers there may be.
const NUMBERS: u64 = 4_294_967_296;

/// Where a packet reaches at least one in so many of all numbers and endpoints, all of them are looked at: they are in order, and so
/// are not sorted.
const WHOLE_PART: usize = 8;

/// Of each number of a program the endpoints of the filters that have it, with how many filters each has.
pub(crate) struct Reaches {
    /// By number.
    ends: Vec<Endpoints>,
    /// Each endpoint of a number, in order of endpoint.
    order: Sorted<()>,
}

// By hand, so that the proofs of its owners have one call and not a drop of each part.
impl Drop for Reaches {
    fn drop(self) {
        let Reaches { ends: _, order: _ } = self;
    }
}

impl Model for Reaches {
    ghost use Rattle.installed_filters.specs.Counts.{Reaching, AreIndexed};

    ghost Value = { Reaching };

    ghost view = { λ a. record { ends = a.ends.items; ready = a.order.ready } };

    ghost invariant = { λ a. AreIndexed a.ends.items a.order.entries };
}

impl Reaches {
    /// No number. Takes no memory.
    pub(crate) fn new(alloc: Global) -> Reaches
        ensures { result ≡ record { ends = []; ready = false } }
    {
        Reaches {
            ends: Vec::new(alloc),
            order: Sorted::new(alloc),
        }
    }

    /// Gives back all that they hold: no number is left. Takes no memory.
    // Not in line, so that what they held is on the stack no longer than this.
    #[inline(never)]
    pub(crate) fn clear(&mut self, alloc: Global)
        ensures { self.new ≡ record { ends = []; ready = false } }
    {
        *self = Reaches::new(alloc);
    }

    /// How many numbers there are.
    pub(crate) fn len(&self) -> usize
        ensures { result ≡ length self.now.ends }
    {
        self.ends.len()
    }

    /// Adds a number, the next one, whose program has no endpoint. An error also where there are 2^32 numbers. Without memory nothing
    /// changes.
    pub(crate) fn grow(&mut self) -> Result<(), AllocError>
        ensures ok { OnOk result (self.new.ends ≡ self.old.ends ++ no_counts ∷ []) }
        ensures err { OnErr result (self.new.ends ≡ self.old.ends) }
        ensures ready { self.new.ready ≡ self.old.ready }
    {
        if self.ends.len() as u64 == NUMBERS {
            return Err(AllocError);
        }
        self.ends.push(Endpoints::new())?;
        Ok(())
    }

    /// How many filters with the program have an endpoint.
    pub(crate) fn count(&self, number: u32, endpoint: u16) -> u32
        requires { number < length self.now.ends }
        ensures { result ≡ number_of (reach_at self.now.ends number endpoint) }
    {
        let ends = &self.ends[number as usize];
        ends.count(endpoint)
    }

    /// Makes room for one more filter with the program and of the endpoint. The counts stay, whatever the result.
    pub(crate) fn reserve(
        &mut self,
        alloc: Global,
        number: u32,
        endpoint: u16,
    ) -> Result<(), AllocError>
        requires { number < length self.old.ends }
        ensures counts { (m q : ℕ) → reach_at self.new.ends m q ≡ reach_at self.old.ends m q }
        ensures numbers { length self.new.ends ≡ length self.old.ends }
        ensures room { OnOk result (HasRoom self.new number endpoint) }
    {
        self.order.reserve()?;
        reserve_at(&mut self.ends, alloc, number as usize, endpoint)
    }

    /// One filter more has the program and the endpoint. Takes no memory.
    pub(crate) fn add(&mut self, number: u32, endpoint: u16)
        requires inside { number < length self.old.ends }
        requires room { HasRoom self.old number endpoint }
        requires fits { number_of (reach_at self.old.ends number endpoint) < 4294967295 }
        ensures counts { (m q : ℕ) → reach_at self.new.ends m q ≡ (if (m == number) && (q == endpoint) then counted (number_of (reach_at self.old.ends number endpoint) + 1) else reach_at self.old.ends m q) }
        ensures numbers { length self.new.ends ≡ length self.old.ends }
    {
        let known = has_at(&self.ends, number as usize, endpoint);
        add_at(&mut self.ends, number as usize, endpoint);
        if !known {
            self.order.insert_reserved(key_of(endpoint, number), ());
        }
    }

    /// One filter less has the program and the endpoint. Takes no memory.
    pub(crate) fn take(&mut self, number: u32, endpoint: u16)
        requires { number < length self.old.ends }
        ensures counts { (m q : ℕ) → reach_at self.new.ends m q ≡ (if (m == number) && (q == endpoint) then counted (number_of (reach_at self.old.ends number endpoint) - 1) else reach_at self.old.ends m q) }
        ensures numbers { length self.new.ends ≡ length self.old.ends }
    {
        take_at(&mut self.ends, number as usize, endpoint);
        if !has_at(&self.ends, number as usize, endpoint) {
            self.order.remove(key_of(endpoint, number));
        }
    }

    /// The endpoints that get a packet that these programs pass, in increasing order: each keeps as much as the greatest verdict says, and
    /// at most what was captured. If they are listed, then in place of what `kept` had. Takes memory only where the lists are too short for
    /// the packet.
    #[inline(always)]
    pub(crate) fn receive(
        &self,
        hits: &[Hit],
        captured: usize,
        verdicts: &mut Vec<u32>,
        raises: &mut Vec<Kept>,
        kept: &mut Vec<Kept>,
    ) -> Result<Receivers, AllocError>
        requires inside { AreWithin self.now.ends hits.now }
        requires apart { AreApart hits.now }
        ensures { IfOk result (λ found. AreKept (GetsBy self.now.ends hits.now) captured (kept_by found kept.new.items)) }
    {
        match hits {
            [] => return Ok(Receivers::Nobody),
            [hit] => {
                if let Some(endpoint) = self.ends[hit.member].only() {
                    let kept = (hit.verdict as usize).min(captured) as u32;
                    return Ok(Receivers::One(Kept { endpoint, kept }));
                }
            }
            _ => {}
        }
        self.list_several(hits, captured, verdicts, raises, kept)?;
        Ok(Receivers::Listed)
    }

    /// Lists those of any hits.
    // Not in line, so that a packet with one endpoint or none is not charged for the loops.
    #[inline(never)]
    fn list_several(
        &self,
        hits: &[Hit],
        captured: usize,
        verdicts: &mut Vec<u32>,
        raises: &mut Vec<Kept>,
        kept: &mut Vec<Kept>,
    ) -> Result<(), AllocError>
        requires inside { AreWithin self.now.ends hits.now }
        requires apart { AreApart hits.now }
        ensures { OnOk result (AreKept (GetsBy self.now.ends hits.now) captured kept.new.items) }
    {
        let most = self.ends.len().saturating_add(self.order.len()) / WHOLE_PART;
        let reached = count_reached(&self.ends, hits, most);
        if reached <= FEW_RAISES || reached < most {
            keep_raised(&self.ends, hits, captured, raises, kept)
        } else {
            keep_most(&self.ends, &self.order, hits, captured, verdicts, kept)
        }
    }
}

/// An endpoint of a number, as one number, so that they are in order of endpoint.
fn key_of(endpoint: u16, number: u32) -> u64
    ensures { result ≡ reach_key endpoint number }
{
    u64::from(endpoint) * NUMBERS + u64::from(number)
}

/// Whether an endpoint is one of a number.
fn has_at(ends: &[Endpoints], number: usize, endpoint: u16) -> bool
    requires { number < length ends.now }
    ensures { result ≡ is_some (reach_at ends.now number endpoint) }
{
    let ends = &ends[number];
    ends.has(endpoint)
}

fn reserve_at(
    ends: &mut Vec<Endpoints>,
    alloc: Global,
    number: usize,
    endpoint: u16,
) -> Result<(), AllocError>
    requires { number < length ends.old.items }
    ensures counts { (m q : ℕ) → reach_at ends.new.items m q ≡ reach_at ends.old.items m q }
    ensures numbers { length ends.new.items ≡ length ends.old.items }
    ensures room { OnOk result (HasRoomFor (ends_at ends.new.items number) endpoint) }
{
    let ends = &mut ends[number];
    ends.reserve(alloc, endpoint)
}

fn add_at(ends: &mut Vec<Endpoints>, number: usize, endpoint: u16)
    requires inside { number < length ends.old.items }
    requires room { HasRoomFor (ends_at ends.old.items number) endpoint }
    requires fits { number_of (reach_at ends.old.items number endpoint) < 4294967295 }
    ensures counts { (m q : ℕ) → reach_at ends.new.items m q ≡ (if (m == number) && (q == endpoint) then counted (number_of (reach_at ends.old.items number endpoint) + 1) else reach_at ends.old.items m q) }
    ensures numbers { length ends.new.items ≡ length ends.old.items }
{
    let ends = &mut ends[number];
    ends.add(endpoint);
}

fn take_at(ends: &mut Vec<Endpoints>, number: usize, endpoint: u16)
    requires { number < length ends.old.items }
    ensures counts { (m q : ℕ) → reach_at ends.new.items m q ≡ (if (m == number) && (q == endpoint) then counted (number_of (reach_at ends.old.items number endpoint) - 1) else reach_at ends.old.items m q) }
    ensures numbers { length ends.new.items ≡ length ends.old.items }
{
    let ends = &mut ends[number];
    ends.take(endpoint);
}

/// How many endpoints the programs that a packet passes have, or a number from `most` on where these are as many. A program with several
/// counts for one more.
fn count_reached(ends: &[Endpoints], hits: &[Hit], most: usize) -> usize
    requires { AreWithin ends.now hits.now }
{
    let mut reached = hits.len();
    for hit in hits {
        if reached > FEW_RAISES && reached >= most {
            return reached;
        }
        let ends = &ends[hit.member];
        reached = reached.saturating_add(ends.mapped());
    }
    reached
}

/// The endpoints that get a packet whose programs have not most of the table's: only these are looked at.
// Not inlined, so that most packets take no room for it on the stack.
#[inline(never)]
fn keep_raised(
    ends: &[Endpoints],
    hits: &[Hit],
    captured: usize,
    raises: &mut Vec<Kept>,
    kept: &mut Vec<Kept>,
) -> Result<(), AllocError>
    requires { AreWithin ends.now hits.now }
    ensures { OnOk result (AreKept (GetsBy ends.now hits.now) captured kept.new.items) }
{
    list_raises(ends, hits, raises)?;
    gather(raises, captured, kept)?;
    Ok(())
}

/// Each endpoint that a packet reaches, with the verdict of each program by which it does, in place of what `raises` had.
fn list_raises(ends: &[Endpoints], hits: &[Hit], raises: &mut Vec<Kept>) -> Result<(), AllocError>
    requires { AreWithin ends.now hits.now }
    ensures { OnOk result (raises.new.items ≡ raises_by ends.now hits.now) }
{
    raises.clear();
    for hit in hits {
        let ends = &ends[hit.member];
        ends.raise(raises, hit.verdict)?;
    }
    Ok(())
}

/// The endpoints that get a packet whose programs have most: the verdict of each program is noted, and all endpoints are looked at.
// Not inlined, so that most packets take no room for it on the stack.
#[inline(never)]
fn keep_most(
    ends: &[Endpoints],
    order: &Sorted<()>,
    hits: &[Hit],
    captured: usize,
    verdicts: &mut Vec<u32>,
    kept: &mut Vec<Kept>,
) -> Result<(), AllocError>
    requires indexed { AreIndexed ends.now order.now.entries }
    requires inside { AreWithin ends.now hits.now }
    requires apart { AreApart hits.now }
    ensures { OnOk result (AreKept (GetsBy ends.now hits.now) captured kept.new.items) }
{
    forget(verdicts, ends.len())?;
    note(hits, verdicts);
    let nothing = Kept {
        endpoint: 0,
        kept: 0,
    };
    kept.resize(order.len(), nothing)?;
    let count = keep_noted(order, captured, verdicts, kept);
    kept.truncate(count);
    Ok(())
}

/// The endpoints that get a packet of which the verdict of each program is noted, in front of `kept`. Gives how many they are.
// Into a slice, since where it is stays in a register; a list that grows would be looked up for each endpoint. Not in line, so that the
// loop has the registers for itself.
#[inline(never)]
fn keep_noted(order: &Sorted<()>, captured: usize, verdicts: &[u32], kept: &mut [Kept]) -> usize
    requires keys { AreReachKeys (length verdicts.now) order.now.entries }
    requires room { length order.now.entries ≤ length kept.old }
    ensures { AreKept (GetsNoted order.now.entries verdicts.now) captured (take result kept.new) }
{
    let mut count = 0;
    for entry in order.iter() {
        let verdict = verdicts[(entry.0 % NUMBERS) as usize];
        if verdict > 0 {
            let most = (verdict as usize).min(captured) as u32;
            count = raise(kept, count, (entry.0 / NUMBERS) as u16, most);
        }
    }
    count
}

/// Notes the verdicts of hits.
fn note(hits: &[Hit], verdicts: &mut [u32])
    requires inside { (i : ℕ) (hit : AnyHit) → slice_get hits.now i ≡ Some hit → hit.member < length verdicts.old }
    requires apart { AreApart hits.now }
    ensures { AreNoted hits.now 0 verdicts.old → AreNoted hits.now (length hits.now) verdicts.new }
{
    for hit in hits {
        verdicts[hit.member] = hit.verdict;
    }
}

/// Verdict 0 for so many programs.
fn forget(verdicts: &mut Vec<u32>, count: usize) -> Result<(), AllocError>
    ensures { OnOk result (verdicts.new.items ≡ replicate count 0) }
{
    verdicts.clear();
    verdicts.resize(count, 0)?;
    Ok(())
}
