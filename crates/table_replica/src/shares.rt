//! What each domain has of the filters.
ghost use Rattle.std.specs.Prelude.{◌≡◌, ◌==◌, ◌+◌, ◌<◌, ◌||◌, if◌then◌else◌, ℕ, [], IsSome, IsTrue, OnOk, false, is_some, length, leb};
ghost use Rattle.chunked.specs.Maps.{value_at};
ghost use Rattle.table_replica.specs.Shares.{kept_share, share_in, shares_in, value_with, with_one, HasRoom};

use bpf_insn::Insn;
use chunked::Sorted;
use std::alloc::{AllocError, Global};
use std::marker::Model;

/// How many filters a domain has, and how many instructions these have.
#[derive(Clone, Copy, Drop)]
pub(crate) struct Share {
    pub(crate) filters: u32,
    pub(crate) instructions: u32,
}

/// That of no filter.
const NONE: Share = Share {
    filters: 0,
    instructions: 0,
};

/// A domain, and what it has once an operation is done.
#[derive(Clone, Copy, Drop)]
pub(crate) struct NewShare {
    pub(crate) domain: u16,
    pub(crate) share: Share,
}

impl Share {
    /// With one filter more.
    pub(crate) fn with_one(self, program: &[Insn]) -> Share
        requires filters { self.filters < 4294967295 }
        requires instructions { self.instructions + length program.now < 4294967296 }
        ensures { result ≡ with_one self program.now }
    {
        Share {
            filters: self.filters + 1,
            instructions: self.instructions + program.len() as u32,
        }
    }
}

/// Whether so many instructions and those of a program, so many more, are within a limit together.
pub(crate) fn fit(instructions: u32, more: usize, most: u32) -> bool
    ensures { result ≡ leb (instructions + more) most }
{
    instructions <= most && more <= (most - instructions) as usize
}

/// What the domains have that have a filter. It lies on the heap, as the filters do, and takes no memory where there is none.
pub(crate) struct Shares {
    by_domain: Option<Box<Sorted<Share>>>,
}

// By hand, so that the proofs of its owners have one call and not a drop of each part.
impl Drop for Shares {
    fn drop(self) {
        let Shares { by_domain: _ } = self;
    }
}

impl Model for Shares {
    ghost use Rattle.chunked.specs.Maps.{SortedMap};
    ghost use Rattle.table_replica.specs.declared.shares.Share.{Share};
    ghost use Rattle.table_replica.specs.Shares.{shares_in};

    ghost Value = { SortedMap Share };

    ghost view = { λ a. shares_in a.by_domain };
}

impl Shares {
    /// No domain has a filter.
    pub(crate) fn new() -> Shares
        ensures { result ≡ record { entries = []; ready = false } }
    {
        Shares { by_domain: None }
    }

    /// What a domain has. No filter is looked at.
    pub(crate) fn of(&self, domain: u16) -> Share
        ensures { result ≡ share_in (value_at self.now.entries domain) }
    {
        match &self.by_domain {
            Some(by_domain) => share_at(by_domain, domain),
            None => NONE,
        }
    }

    /// Makes room for what a domain has that had no filter. What they have stays, whatever the result.
    pub(crate) fn reserve(&mut self, alloc: Global, new: Option<NewShare>) -> Result<(), AllocError>
        ensures entries { self.new.entries ≡ self.old.entries }
        ensures room { OnOk result (HasRoom self.new new) }
    {
        let Some(new) = new else {
            return Ok(());
        };
        make_map(alloc, &mut self.by_domain)?;
        match &mut self.by_domain {
            Some(by_domain) => reserve_for(by_domain, new.domain),
            None => unreachable!(),
        }
    }

    /// Puts what a domain has in place of what it had. A domain with no filter has no entry. Takes no memory.
    pub(crate) fn change(&mut self, new: Option<NewShare>)
        requires { HasRoom self.old new }
        ensures { (q : ℕ) → value_at self.new.entries q ≡ value_with new self.old.entries q }
    {
        let Some(new) = new else {
            return;
        };
        match &mut self.by_domain {
            Some(by_domain) => put_share(by_domain, new.domain, new.share),
            None => unreachable!(),
        }
    }
}

/// What a domain has; none where it has no entry.
fn share_at(by_domain: &Sorted<Share>, domain: u16) -> Share
    ensures { result ≡ share_in (value_at by_domain.now.entries domain) }
{
    match by_domain.get(u64::from(domain)) {
        Some(share) => *share,
        None => NONE,
    }
}

/// Puts an empty map there where there is none.
#[inline(never)]
fn make_map(alloc: Global, by_domain: &mut Option<Box<Sorted<Share>>>) -> Result<(), AllocError>
    ensures same { (shares_in by_domain.new).entries ≡ (shares_in by_domain.old).entries }
    ensures there { OnOk result (IsSome by_domain.new) }
{
    if by_domain.is_none() {
        *by_domain = Some(Box::new(alloc, Sorted::new(alloc))?);
    }
    Ok(())
}

/// Makes room for the entry of a domain that has none.
fn reserve_for(by_domain: &mut Sorted<Share>, domain: u16) -> Result<(), AllocError>
    ensures entries { by_domain.new.entries ≡ by_domain.old.entries }
    ensures room { OnOk result (IsTrue (by_domain.new.ready || is_some (value_at by_domain.new.entries domain))) }
{
    if by_domain.contains(u64::from(domain)) {
        return Ok(());
    }
    by_domain.reserve()
}

/// Puts the entry of a domain in place of what it had; there is none for no filter.
fn put_share(by_domain: &mut Sorted<Share>, domain: u16, share: Share)
    requires { IsTrue (by_domain.old.ready || is_some (value_at by_domain.old.entries domain)) }
    ensures { (q : ℕ) → value_at by_domain.new.entries q ≡ (if q == domain then kept_share share else value_at by_domain.old.entries q) }
{
    let key = u64::from(domain);
    if share.filters == 0 {
        by_domain.remove(key);
    } else if by_domain.contains(key) {
        by_domain.set(key, share);
    } else {
        by_domain.insert_reserved(key, share);
    }
}
