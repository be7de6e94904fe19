//! The table of capabilities, changed in place: room is made before, and then a change can't fail.
ghost use Rattle.std.specs.Prelude.{◌≡◌, if◌then◌else◌, ◌+◌, ◌-◌, ◌++◌, ◌∷◌, ◌≤◌, [], ◌<◌, ◌⊎◌, ◌==◌, ◌||◌, ℕ, Some, None, is_none, is_some, false, true, length, filter, nat_le, IsTrue, IsErr, IfSome, IfNone, IfOk, IfErr, OnOk, OnErr, leb};
ghost use Rattle.std.specs.List.{list_any};
ghost use Rattle.std.specs.Option.{option_copied};
ghost use Rattle.std.specs.Result.{result_err};
ghost use Rattle.endpoint_caps.specs.Capabilities.{CapBounds, default_caps, no_caps, cap_at, parent_at, created, minted_from, revoked, dropped, first, holder_tests, right_tests, count_for, room_tests, create_tests, mint_tests, is_under, Refused};
ghost use Rattle.endpoint_caps.specs.Capabilities.{IdsBetween, ParentsHeld, IsRevoked, IsDropped, Under};
ghost use Rattle.endpoint_caps.specs.Holding.{child_key, counted, maker_of, number_of, without, AddsChildren, IsChild, IsFirstKey, IsLeaf, LacksChildren};
ghost use Rattle.endpoint_caps.specs.Keeping.{entries_of};
ghost use Rattle.chunked.specs.Maps.{value_at};

use crate::{Cap, CapFault, CapLimits, Parent, Right, Rights};
use chunked::{Items, Sorted};
use std::alloc::{AllocError, Global};
use std::marker::Model;

/// How many ids there are for each parent.
const IDS: u64 = 4_294_967_296;

/// The capabilities that are held, and the next id. An id is never used again. Where many are held, each call looks at few of
/// them, and a change moves few; a revocation looks at what it removes.
pub struct Caps {
    by_id: Sorted<Cap>,
    /// Each that was minted, under its parent.
    children: Sorted<()>,
    /// The endpoints that have a capability.
    taken: Sorted<()>,
    /// Of each domain that made one of them, how many it made.
    counts: Sorted<u32>,
    next: u32,
}

// By hand, so that the proofs of its owners have one call and not a drop of each part.
impl Drop for Caps {
    fn drop(self) {
        let Caps {
            by_id: _,
            children: _,
            taken: _,
            counts: _,
            next: _,
        } = self;
    }
}

impl Model for Caps {
    ghost use Rattle.std.specs.Prelude.{◌&&◌};
    ghost use Rattle.endpoint_caps.specs.Capabilities.{CapTable};
    ghost use Rattle.endpoint_caps.specs.Holding.{Holding, IsCounted};
    ghost use Rattle.endpoint_caps.specs.Keeping.{caps_of};

    ghost Value = { Holding };

    ghost view = { λ a. record { table = record { held = caps_of a.by_id.entries; next = a.next }; ready = a.by_id.ready && a.children.ready && a.taken.ready && a.counts.ready } };

    ghost invariant = { λ a. IsCounted a.by_id.entries a.children.entries a.taken.entries a.counts.entries a.next };
}

impl Caps {
    /// An empty table, whose first id is 1. `alloc` is what later capabilities are kept in. Takes no memory.
    pub fn new(alloc: Global) -> Caps
        ensures { result ≡ record { table = no_caps; ready = false } }
    {
        Caps::resume(alloc, 1)
    }

    /// An empty table whose next id is `next`. `alloc` is as in `new`.
    pub fn resume(alloc: Global, next: u32) -> Caps
        ensures { result ≡ record { table = record { held = []; next = next }; ready = false } }
    {
        Caps {
            by_id: Sorted::new(alloc),
            children: Sorted::new(alloc),
            taken: Sorted::new(alloc),
            counts: Sorted::new(alloc),
            next,
        }
    }

    /// An equal table, with no room made.
    pub fn copy(&self, alloc: Global) -> Result<Caps, AllocError>
        ensures { IfOk result (λ caps. caps ≡ record { table = self.now.table; ready = false }) }
    {
        let next = self.next;
        Ok(Caps {
            by_id: self.by_id.copy(alloc)?,
            children: self.children.copy(alloc)?,
            taken: self.taken.copy(alloc)?,
            counts: self.counts.copy(alloc)?,
            next,
        })
    }

    /// How many capabilities are held.
    pub fn len(&self) -> usize
        ensures { result ≡ length self.now.table.held }
    {
        self.by_id.len()
    }

    /// The capabilities under their ids, in order, each after the one that it was minted from.
    pub fn list(&self) -> Items<'_, (u64, Cap)>
        ensures caps { result ≡ entries_of self.now.table.held }
        ensures order { IdsBetween 0 self.now.table.held self.now.table.next }
        ensures parents { ParentsHeld self.now.table.held }
    {
        self.by_id.iter()
    }

    /// The capabilities from an id on, under their ids, in order.
    pub fn list_from(&self, id: u32) -> Items<'_, (u64, Cap)>
        ensures { result ≡ entries_of (filter (λ c. nat_le id c.id) self.now.table.held) }
    {
        self.by_id.iter_from(u64::from(id))
    }

    /// The id that the next capability gets.
    pub fn next(&self) -> u32
        ensures { result ≡ self.now.table.next }
    {
        self.next
    }

    /// The capability with this id.
    pub fn get(&self, id: u32) -> Option<&Cap>
        ensures { option_copied result ≡ cap_at self.now.table.held id }
    {
        self.by_id.get(u64::from(id))
    }

    /// Whether the domain holds this capability and has the right by it.
    pub fn may(&self, id: u32, domain: u16, right: Right) -> Result<(), CapFault>
        ensures { result_err result ≡ first (right_tests self.now.table.held domain id right) }
    {
        let cap = self.held_by(domain, id)?;
        if cap.rights.has(right) {
            Ok(())
        } else {
            Err(CapFault::NoRight)
        }
    }

    /// Whether `prepare_create` would be refused, memory aside.
    pub fn check_create(
        &self,
        limits: CapLimits,
        domain: u16,
        endpoint: u16,
    ) -> Result<(), CapFault>
        ensures fault { result_err result ≡ first (create_tests limits self.now.table domain endpoint) }
        ensures err { IfErr result (Refused (create_tests limits self.now.table domain endpoint)) }
        ensures below { OnOk result (self.now.table.next < 4294967295) }
    {
        if self.is_taken(endpoint) {
            return Err(CapFault::EndpointTaken);
        }
        self.room(limits, domain)
    }

    /// Whether `prepare_mint` would be refused, memory aside; the capability that it would mint from.
    pub fn check_mint(
        &self,
        limits: CapLimits,
        domain: u16,
        cap: u32,
        rights: Rights,
    ) -> Result<Cap, CapFault>
        ensures fault { result_err result ≡ first (mint_tests limits self.now.table domain cap rights) }
        ensures err { IfErr result (Refused (mint_tests limits self.now.table domain cap rights)) }
        ensures from { IfOk result (λ from. cap_at self.now.table.held cap ≡ Some from) }
        ensures below { OnOk result (self.now.table.next < 4294967295) }
    {
        let from = self.held_by(domain, cap)?;
        if !from.rights.has(Right::Mint) {
            return Err(CapFault::NoRight);
        }
        if !rights.is_within(from.rights) {
            return Err(CapFault::RightsExceed);
        }
        self.room(limits, domain)?;
        Ok(from)
    }

    /// Whether the domain may revoke and drop the capability.
    pub fn check_holder(&self, domain: u16, cap: u32) -> Result<(), CapFault>
        ensures { result_err result ≡ first (holder_tests self.now.table.held domain cap) }
    {
        self.held_by(domain, cap)?;
        Ok(())
    }

    /// The capability with this id, where the domain holds it.
    fn held_by(&self, domain: u16, id: u32) -> Result<Cap, CapFault>
        ensures fault { result_err result ≡ first (holder_tests self.now.table.held domain id) }
        ensures ok { IfOk result (λ cap. cap_at self.now.table.held id ≡ Some cap) }
    {
        match self.get(id) {
            None => Err(CapFault::NoCap),
            Some(cap) => {
                if cap.holder == domain {
                    Ok(*cap)
                } else {
                    Err(CapFault::NotHolder)
                }
            }
        }
    }

    /// Whether a capability of the endpoint is held.
    fn is_taken(&self, endpoint: u16) -> bool
        ensures { result ≡ list_any (λ c. c.endpoint == endpoint) self.now.table.held }
    {
        self.taken.contains(u64::from(endpoint))
    }

    /// Whether one more capability may be made that counts for the domain.
    fn room(&self, limits: CapLimits, domain: u16) -> Result<(), CapFault>
        ensures fault { result_err result ≡ first (room_tests limits self.now.table domain) }
        ensures below { OnOk result (self.now.table.next < 4294967295) }
    {
        if self.len() >= limits.total() as usize {
            return Err(CapFault::CapsFull);
        }
        if self.is_full_for(domain, limits.share()) {
            return Err(CapFault::DomainFull);
        }
        if self.next() == u32::MAX {
            return Err(CapFault::IdsSpent);
        }
        Ok(())
    }

    /// Whether so many capabilities count for the domain.
    fn is_full_for(&self, domain: u16, share: u32) -> bool
        ensures { result ≡ leb share (count_for self.now.table.held domain) }
    {
        share <= count_of(&self.counts, domain)
    }

    /// Makes a capability of the endpoint with all rights and no parent, held by the domain, and answers its id. The limits are the
    /// default ones.
    pub fn create(&mut self, domain: u16, endpoint: u16) -> Result<u32, CapFault>
        ensures id { IfOk result (λ id. id ≡ self.old.table.next) }
        ensures ok { OnOk result (self.new.table ≡ created self.old.table domain endpoint) }
        ensures allowed { OnOk result (first (create_tests default_caps self.old.table domain endpoint) ≡ None) }
        ensures err { IfErr result (Refused (create_tests default_caps self.old.table domain endpoint)) }
        ensures unchanged { OnErr result (self.new.table ≡ self.old.table) }
    {
        self.create_within(CapLimits::DEFAULT, domain, endpoint)
    }

    /// The same within other limits.
    pub fn create_within(
        &mut self,
        limits: CapLimits,
        domain: u16,
        endpoint: u16,
    ) -> Result<u32, CapFault>
        ensures id { IfOk result (λ id. id ≡ self.old.table.next) }
        ensures ok { OnOk result (self.new.table ≡ created self.old.table domain endpoint) }
        ensures allowed { OnOk result (first (create_tests limits self.old.table domain endpoint) ≡ None) }
        ensures err { IfErr result (Refused (create_tests limits self.old.table domain endpoint)) }
        ensures unchanged { OnErr result (self.new.table ≡ self.old.table) }
    {
        self.prepare_create(limits, domain, endpoint)?;
        Ok(self.perform_create(domain, endpoint))
    }

    /// Makes a capability with the endpoint of `cap`, which the domain holds, and rights within those of it, held by `to`. The
    /// limits are the default ones.
    pub fn mint(&mut self, domain: u16, cap: u32, to: u16, rights: Rights) -> Result<u32, CapFault>
        ensures id { IfOk result (λ id. id ≡ self.old.table.next) }
        ensures ok { OnOk result (self.new.table ≡ minted_from self.old.table cap to rights) }
        ensures allowed { OnOk result (first (mint_tests default_caps self.old.table domain cap rights) ≡ None) }
        ensures err { IfErr result (Refused (mint_tests default_caps self.old.table domain cap rights)) }
        ensures unchanged { OnErr result (self.new.table ≡ self.old.table) }
    {
        self.mint_within(CapLimits::DEFAULT, domain, cap, to, rights)
    }

    /// The same within other limits.
    pub fn mint_within(
        &mut self,
        limits: CapLimits,
        domain: u16,
        cap: u32,
        to: u16,
        rights: Rights,
    ) -> Result<u32, CapFault>
        ensures id { IfOk result (λ id. id ≡ self.old.table.next) }
        ensures ok { OnOk result (self.new.table ≡ minted_from self.old.table cap to rights) }
        ensures allowed { OnOk result (first (mint_tests limits self.old.table domain cap rights) ≡ None) }
        ensures err { IfErr result (Refused (mint_tests limits self.old.table domain cap rights)) }
        ensures unchanged { OnErr result (self.new.table ≡ self.old.table) }
    {
        self.prepare_mint(limits, domain, cap, rights)?;
        Ok(self.perform_mint(domain, cap, to, rights))
    }

    /// Removes all that were minted from a capability, by one mint or more. The domain has to hold it. Takes no memory.
    pub fn revoke(&mut self, domain: u16, cap: u32) -> Result<(), CapFault>
        ensures fault { result_err result ≡ first (holder_tests self.old.table.held domain cap) }
        ensures ok { OnOk result (self.new.table ≡ revoked self.old.table cap) }
        ensures under { OnOk result (IsRevoked self.old.table.held cap self.new.table.held) }
        ensures unchanged { OnErr result (self.new ≡ self.old) }
    {
        self.check_holder(domain, cap)?;
        self.perform_revoke(cap);
        Ok(())
    }

    /// Removes a capability that the domain holds, and all that were minted from it. Takes no memory.
    pub fn drop_cap(&mut self, domain: u16, cap: u32) -> Result<(), CapFault>
        ensures fault { result_err result ≡ first (holder_tests self.old.table.held domain cap) }
        ensures ok { OnOk result (self.new.table ≡ dropped self.old.table cap) }
        ensures under { OnOk result (IsDropped self.old.table.held cap self.new.table.held) }
        ensures unchanged { OnErr result (self.new ≡ self.old) }
    {
        self.check_holder(domain, cap)?;
        self.perform_drop(cap);
        Ok(())
    }

    /// The ids of the capabilities that `perform_revoke` removes. It goes down the children, and looks at what goes alone.
    pub fn revoked_ids(&self, alloc: Global, cap: u32) -> Result<Sorted<()>, AllocError>
        ensures { IfOk result (λ ids. (id : ℕ) → is_some (value_at ids.entries id) ≡ is_under self.now.table.held cap id) }
    {
        let _next = self.next;
        let mut ids = Sorted::new(alloc);
        self.add_children(&mut ids, cap)?;
        // A child has a greater id than its parent, so the ids are their own queue.
        let mut from = 0;
        while let Some(id) = first_key(&ids, from) {
            self.add_children(&mut ids, id as u32)?;
            from = id + 1;
        }
        Ok(ids)
    }

    /// Adds the ids of the capabilities that were minted from one by one mint.
    fn add_children(&self, ids: &mut Sorted<()>, parent: u32) -> Result<(), AllocError>
        requires absent { LacksChildren self.now.table.held parent ids.old.entries }
        ensures { OnOk result (AddsChildren self.now.table.held parent ids.old.entries ids.new.entries) }
    {
        for entry in self.children.iter_from(key_of_child(parent, 0)) {
            if entry.0 / IDS != u64::from(parent) {
                return Ok(());
            }
            ids.reserve()?;
            ids.insert_reserved(entry.0 % IDS, ());
        }
        Ok(())
    }

    /// The ids of the capabilities that `perform_drop` removes.
    pub fn dropped_ids(&self, alloc: Global, cap: u32) -> Result<Sorted<()>, AllocError>
        ensures { IfOk result (λ ids. (id : ℕ) → is_some (value_at ids.entries id) ≡ ((id == cap) || is_under self.now.table.held cap id)) }
    {
        let _next = self.next;
        let mut ids = self.revoked_ids(alloc, cap)?;
        ids.reserve()?;
        ids.insert_reserved(u64::from(cap), ());
        Ok(ids)
    }

    /// Makes room for `perform_create`, where nothing refuses it. The table stays, whatever the result.
    pub fn prepare_create(
        &mut self,
        limits: CapLimits,
        domain: u16,
        endpoint: u16,
    ) -> Result<(), CapFault>
        ensures table { self.new.table ≡ self.old.table }
        ensures ready { OnOk result (IsTrue self.new.ready) }
        ensures allowed { OnOk result (first (create_tests limits self.old.table domain endpoint) ≡ None) }
        ensures err { IfErr result (Refused (create_tests limits self.old.table domain endpoint)) }
    {
        self.check_create(limits, domain, endpoint)?;
        self.make_room()
    }

    /// Makes room for `perform_mint`, where nothing refuses it. The table stays, whatever the result.
    pub fn prepare_mint(
        &mut self,
        limits: CapLimits,
        domain: u16,
        cap: u32,
        rights: Rights,
    ) -> Result<(), CapFault>
        ensures table { self.new.table ≡ self.old.table }
        ensures ready { OnOk result (IsTrue self.new.ready) }
        ensures allowed { OnOk result (first (mint_tests limits self.old.table domain cap rights) ≡ None) }
        ensures err { IfErr result (Refused (mint_tests limits self.old.table domain cap rights)) }
    {
        self.check_mint(limits, domain, cap, rights)?;
        self.make_room()
    }

    /// Gives up the room for one capability. Its memory is kept for a later one.
    pub fn forget(&mut self)
        ensures { self.new ≡ record { table = self.old.table; ready = false } }
    {
        self.by_id.forget();
        self.children.forget();
        self.taken.forget();
        self.counts.forget();
    }

    /// Makes room for one more capability.
    fn make_room(&mut self) -> Result<(), CapFault>
        ensures table { self.new.table ≡ self.old.table }
        ensures ready { OnOk result (IsTrue self.new.ready) }
        ensures err { IfErr result (λ fault. fault ≡ CapFault.NoMemory) }
    {
        match self.reserve() {
            Ok(()) => Ok(()),
            Err(AllocError) => Err(CapFault::NoMemory),
        }
    }

    /// Makes room in each map.
    fn reserve(&mut self) -> Result<(), AllocError>
        ensures table { self.new.table ≡ self.old.table }
        ensures ready { OnOk result (IsTrue self.new.ready) }
    {
        self.by_id.reserve()?;
        self.children.reserve()?;
        self.taken.reserve()?;
        self.counts.reserve()
    }

    /// Makes a capability of the endpoint with all rights and no parent, held by the domain, and answers its id. Takes no memory.
    pub fn perform_create(&mut self, domain: u16, endpoint: u16) -> u32
        requires ready { IsTrue self.old.ready }
        requires allowed { (limits : CapBounds) × (first (create_tests limits self.old.table domain endpoint) ≡ None) }
        ensures id { result ≡ self.old.table.next }
        ensures made { self.new ≡ record { table = created self.old.table domain endpoint; ready = false } }
    {
        let id = self.next;
        let cap = Cap {
            id,
            endpoint,
            holder: domain,
            rights: Rights::Rm,
            parent: Parent::NONE,
        };
        self.by_id.insert_reserved(u64::from(id), cap);
        self.taken.insert_reserved(u64::from(endpoint), ());
        count_up(&mut self.counts, domain);
        self.next = id + 1;
        id
    }

    /// Makes a capability with the endpoint of `cap`, and rights within those of it, held by `to`, and answers its id. Takes no
    /// memory.
    pub fn perform_mint(&mut self, domain: u16, cap: u32, to: u16, rights: Rights) -> u32
        requires ready { IsTrue self.old.ready }
        requires allowed { (limits : CapBounds) × (first (mint_tests limits self.old.table domain cap rights) ≡ None) }
        ensures id { result ≡ self.old.table.next }
        ensures made { self.new ≡ record { table = minted_from self.old.table cap to rights; ready = false } }
    {
        let _next = self.next;
        match self.held_by(domain, cap) {
            Ok(from) => self.add_child(from, to, rights),
            Err(_) => unreachable!(),
        }
    }

    /// Adds a child of a capability under the next id.
    fn add_child(&mut self, from: Cap, holder: u16, rights: Rights) -> u32
        requires ready { IsTrue self.old.ready }
        requires from { cap_at self.old.table.held from.id ≡ Some from }
        requires below { self.old.table.next < 4294967295 }
        ensures id { result ≡ self.old.table.next }
        ensures table { self.new.table ≡ record { held = self.old.table.held ++ record { id = self.old.table.next; endpoint = from.endpoint; holder = holder; rights = rights; parent = Some from.id } ∷ []; next = self.old.table.next + 1 } }
        ensures ready { self.new.ready ≡ false }
    {
        let id = self.next;
        let cap = Cap {
            id,
            endpoint: from.endpoint,
            holder,
            rights,
            parent: Parent::new(Some(from.id)),
        };
        self.by_id.insert_reserved(u64::from(id), cap);
        self.children.insert_reserved(key_of_child(from.id, id), ());
        count_up(&mut self.counts, from.holder);
        self.next = id + 1;
        id
    }

    /// Removes all that were minted from a capability, by one mint or more. Takes no memory, and looks at what goes alone.
    pub fn perform_revoke(&mut self, cap: u32)
        ensures revoked { self.new.table ≡ revoked self.old.table cap }
        ensures under { IsRevoked self.old.table.held cap self.new.table.held }
    {
        let _next = self.next;
        self.remove_under(cap);
    }

    /// Removes a capability and all that were minted from it. Takes no memory, and looks at what goes alone.
    pub fn perform_drop(&mut self, cap: u32)
        ensures dropped { self.new.table ≡ dropped self.old.table cap }
        ensures under { IsDropped self.old.table.held cap self.new.table.held }
    {
        let _next = self.next;
        self.remove_under(cap);
        self.remove_leaf(cap);
    }

    /// Removes all that were minted from a capability, each once nothing minted from it is left: it goes down to one that has no
    /// child, takes it out, and goes on from its parent.
    fn remove_under(&mut self, cap: u32)
        ensures revoked { self.new.table ≡ revoked self.old.table cap }
        ensures leaf { IsLeaf self.new.table.held cap }
    {
        let mut leaf = self.leaf_from(cap);
        while leaf != cap {
            match self.remove_leaf(leaf) {
                Some(parent) => leaf = self.leaf_from(parent),
                None => unreachable!(),
            }
        }
    }

    /// A capability without children, which is the given one or was minted from it.
    fn leaf_from(&self, cap: u32) -> u32
        ensures leaf { IsLeaf self.now.table.held result }
        ensures under { (result ≡ cap) ⊎ Under self.now.table.held cap result }
        ensures parents { ParentsHeld self.now.table.held }
    {
        let mut at = cap;
        while let Some(child) = self.first_child(at) {
            at = child;
        }
        at
    }

    /// The first of the capabilities that were minted from one by one mint.
    fn first_child(&self, parent: u32) -> Option<u32>
        ensures child { IsChild self.now.table parent result }
        ensures parents { ParentsHeld self.now.table.held }
    {
        let key = first_key(&self.children, key_of_child(parent, 0))?;
        if key / IDS == u64::from(parent) {
            Some((key % IDS) as u32)
        } else {
            None
        }
    }

    /// Takes a capability out, if it is held, from which none was minted, and answers its parent. Takes no memory.
    fn remove_leaf(&mut self, id: u32) -> Option<u32>
        requires { IsLeaf self.old.table.held id }
        ensures parent { result ≡ parent_at self.old.table.held id }
        ensures table { self.new.table ≡ without self.old.table id }
    {
        let cap = self.by_id.remove(u64::from(id))?;
        count_down(&mut self.counts, maker_of(&self.by_id, &cap));
        let parent = cap.parent.id();
        match parent {
            Some(parent) => {
                self.children.remove(key_of_child(parent, id));
            }
            None => {
                self.taken.remove(u64::from(cap.endpoint));
            }
        }
        parent
    }
}

/// A child under its parent, as one number, so that the children of one follow each other.
fn key_of_child(parent: u32, id: u32) -> u64
    ensures { result ≡ child_key parent id }
{
    u64::from(parent) * IDS + u64::from(id)
}

/// The first key that isn't below a number.
fn first_key(keys: &Sorted<()>, from: u64) -> Option<u64>
    ensures { IsFirstKey keys.now.entries from result }
{
    if keys.len() == 0 {
        return None;
    }
    let entry = keys.first_from(from)?;
    Some(entry.0)
}

/// The domain that made a capability, among the others under their ids.
fn maker_of(by_id: &Sorted<Cap>, cap: &Cap) -> u16
    ensures { result ≡ maker_of by_id.now.entries cap.now }
{
    match cap.parent.id() {
        None => cap.holder,
        Some(parent) => match by_id.get(u64::from(parent)) {
            Some(parent) => parent.holder,
            None => cap.holder,
        },
    }
}

/// How many capabilities count for a domain.
fn count_of(counts: &Sorted<u32>, domain: u16) -> u32
    ensures { result ≡ number_of (value_at counts.now.entries domain) }
{
    match counts.get(u64::from(domain)) {
        Some(count) => *count,
        None => 0,
    }
}

/// One more counts for the domain. Takes no memory.
fn count_up(counts: &mut Sorted<u32>, domain: u16)
    requires ready { IsTrue counts.old.ready }
    requires fits { number_of (value_at counts.old.entries domain) < 4294967295 }
    ensures { (q : ℕ) → value_at counts.new.entries q ≡ (if q == domain then counted (number_of (value_at counts.old.entries domain) + 1) else value_at counts.old.entries q) }
{
    match counts.get(u64::from(domain)) {
        Some(count) => {
            let more = *count + 1;
            counts.set(u64::from(domain), more);
        }
        None => counts.insert_reserved(u64::from(domain), 1),
    }
}

/// One less counts for the domain. A count of 0 has no entry.
fn count_down(counts: &mut Sorted<u32>, domain: u16)
    ensures { (q : ℕ) → value_at counts.new.entries q ≡ (if q == domain then counted (number_of (value_at counts.old.entries domain) - 1) else value_at counts.old.entries q) }
{
    let count = count_of(counts, domain);
    if count > 1 {
        counts.set(u64::from(domain), count - 1);
    } else {
        counts.remove(u64::from(domain));
    }
}
