//! Maps in the order of their keys, in chunks.

ghost use Rattle.std.specs.Prelude.{◌≡◌, ◌+◌, ◌*◌, ◌<◌, ◌≤◌, ◌↔◌, ◌==◌, if◌then◌else◌, ℕ, [], Some, None, IsTrue, IsSome, IfNone, IfOk, OnSome, OnOk, OnErr, false, is_some, length, filter, find, nat_eq, nat_le};
ghost use Rattle.std.specs.List.Sorted.{IsStrictlyIncreasing};
ghost use Rattle.std.specs.Map.{keys_of, remove_entry, set_value};
ghost use Rattle.std.specs.BTreeMap.{insert_entry};
ghost use Rattle.std.specs.Option.{option_copied};
ghost use Rattle.std.specs.Ordering.{nat_cmp};
ghost use Rattle.chunked.specs.Maps.{value_at};

use crate::chunks::Chunks;
use crate::items::Items;
use crate::keys::{find, follow_insert, follow_removal, place_of};
use std::alloc::{AllocError, Global};
use std::marker::Model;

/// A map from keys to values, in the order of the keys. An insert for which room was made before takes no memory and can't fail, nor does
/// a removal. A search takes some ten steps among the first keys of the chunks where there are 65,536 entries, and then looks at one chunk
/// alone.
pub struct Sorted<V> {
    chunks: Chunks<(u64, V)>,
    /// Of each chunk the first key.
    firsts: Vec<u64>,
    count: usize,
}

// By hand, so that the proofs of its owners have one call and not a drop of each part.
impl<V: Drop> Drop for Sorted<V> {
    fn drop(self) {
        let Sorted {
            chunks: _,
            firsts: _,
            count: _,
        } = self;
    }
}

impl<V> Model for Sorted<V> {
    ghost use Rattle.chunked.specs.Maps.{SortedMap};
    ghost use Rattle.chunked.specs.Chunks.{whole};
    ghost use Rattle.chunked.specs.Entries.{AreFirsts};

    ghost Value = { SortedMap V };

    ghost view = { λ a. record { entries = whole a.chunks.chunks; ready = a.chunks.ready } };

    ghost invariant = { λ a. AreFirsts a.chunks a.firsts a.count };
}

impl<V: Drop> Sorted<V> {
    /// No entry. Takes no memory.
    pub fn new(alloc: Global) -> Sorted<V>
        ensures { result ≡ record { entries = []; ready = false } }
    {
        Sorted {
            chunks: Chunks::new(alloc),
            firsts: Vec::new(alloc),
            count: 0,
        }
    }

    /// An equal map, with no room made.
    pub fn copy(&self, alloc: Global) -> Result<Sorted<V>, AllocError>
    where
        V: Copy,
        ensures { IfOk result (λ map. map ≡ record { entries = self.now.entries; ready = false }) }
    {
        let _count = self.count;
        let mut map = Sorted::new(alloc);
        for entry in self.iter() {
            map.reserve()?;
            map.insert_reserved(entry.0, entry.1);
        }
        Ok(map)
    }

    /// How many entries there are.
    pub fn len(&self) -> usize
        ensures count { result ≡ length self.now.entries }
        ensures order { IsStrictlyIncreasing (keys_of self.now.entries) }
    {
        self.count
    }

    /// Whether there is no entry.
    pub fn is_empty(&self) -> bool
        ensures { IsTrue result ↔ (self.now.entries ≡ []) }
    {
        self.count == 0
    }

    /// How many chunks the entries lie in: few, whatever was put in and taken out.
    pub fn chunk_count(&self) -> usize
        ensures { 32 * result ≤ length self.now.entries + 32 }
    {
        self.chunks.len()
    }

    /// The value at a key.
    pub fn get(&self, key: u64) -> Option<&V>
        ensures { option_copied result ≡ value_at self.now.entries key }
    {
        let spot = find(&self.chunks, &self.firsts, key)?;
        Some(&self.chunks.chunk(spot.chunk)[spot.offset].1)
    }

    /// Whether there is an entry with a key.
    pub fn contains(&self, key: u64) -> bool
        ensures { result ≡ is_some (value_at self.now.entries key) }
    {
        self.get(key).is_some()
    }

    /// Replaces the value at a key. Takes no memory.
    pub fn set(&mut self, key: u64, value: V)
        requires { IsSome (value_at self.old.entries key) }
        ensures entries { self.new ≡ record { entries = set_value (nat_eq key) self.old.entries value; ready = self.old.ready } }
        ensures values { (q : ℕ) → value_at self.new.entries q ≡ (if q == key then Some value else value_at self.old.entries q) }
    {
        if let Some(spot) = find(&self.chunks, &self.firsts, key) {
            self.chunks.set(spot.chunk, spot.offset, (key, value));
        }
    }

    /// Whether one more insert takes no memory.
    pub fn is_ready(&self) -> bool
        ensures { result ≡ self.now.ready }
    {
        self.chunks.is_ready()
    }

    /// Makes room for one insert of any key. The entries stay, whatever the result.
    pub fn reserve(&mut self) -> Result<(), AllocError>
        ensures entries { self.new.entries ≡ self.old.entries }
        ensures ready { OnOk result (IsTrue self.new.ready) }
        ensures err { OnErr result (self.new.ready ≡ false) }
    {
        self.chunks.forget();
        if self.count == usize::MAX {
            return Err(AllocError);
        }
        self.firsts.reserve(1)?;
        self.chunks.reserve()
    }

    /// Gives up the room for one insert. Its memory is kept for a later one.
    pub fn forget(&mut self)
        ensures { self.new ≡ record { entries = self.old.entries; ready = false } }
    {
        self.chunks.forget();
    }

    /// Puts an entry in with a key that has none, for which room was made. Takes no memory.
    pub fn insert_reserved(&mut self, key: u64, value: V)
        requires ready { IsTrue self.old.ready }
        requires absent { value_at self.old.entries key ≡ None }
        ensures entries { self.new ≡ record { entries = insert_entry nat_cmp self.old.entries key value; ready = false } }
        ensures values { (q : ℕ) → value_at self.new.entries q ≡ (if q == key then Some value else value_at self.old.entries q) }
    {
        self.count += 1;
        if self.firsts.is_empty() {
            self.chunks.begin((key, value));
            let _ = self.firsts.push(key);
            return;
        }
        let spot = place_of(&self.chunks, &self.firsts, key);
        let parted = self.chunks.insert(spot.chunk, spot.offset, (key, value));
        follow_insert(&mut self.firsts, &self.chunks, spot.chunk, parted);
    }

    /// Takes the entry with a key out, if there is one, and answers its value. Takes no memory. No room for an insert is kept
    /// then, so one that is ready comes first.
    pub fn remove(&mut self, key: u64) -> Option<V>
        ensures value { result ≡ value_at self.old.entries key }
        ensures entries { self.new.entries ≡ remove_entry (nat_eq key) self.old.entries }
        ensures values { (q : ℕ) → value_at self.new.entries q ≡ (if q == key then None else value_at self.old.entries q) }
        ensures used { OnSome result (self.new.ready ≡ false) }
        ensures unchanged { IfNone result (self.new ≡ self.old) }
    {
        let spot = find(&self.chunks, &self.firsts, key)?;
        let (entry, shape) = self.chunks.remove(spot.chunk, spot.offset);
        self.count -= 1;
        follow_removal(&mut self.firsts, &self.chunks, spot.chunk, shape);
        let (_, value) = entry;
        Some(value)
    }

    /// The entries in order.
    pub fn iter(&self) -> Items<'_, (u64, V)>
        ensures entries { result ≡ self.now.entries }
        ensures order { IsStrictlyIncreasing (keys_of self.now.entries) }
    {
        if self.firsts.is_empty() {
            return self.chunks.no_items();
        }
        self.chunks.items_from(0, 0)
    }

    /// The entries whose key is at least the given one, in order.
    pub fn iter_from(&self, key: u64) -> Items<'_, (u64, V)>
        ensures entries { result ≡ filter (λ e. nat_le key e.0) self.now.entries }
        ensures order { IsStrictlyIncreasing (keys_of self.now.entries) }
    {
        if self.firsts.is_empty() {
            return self.chunks.no_items();
        }
        let spot = place_of(&self.chunks, &self.firsts, key);
        self.chunks.items_from(spot.chunk, spot.offset)
    }

    /// The first entry whose key is at least the given one.
    pub fn first_from(&self, key: u64) -> Option<&(u64, V)>
        ensures { option_copied result ≡ find (λ e. nat_le key e.0) self.now.entries }
    {
        self.iter_from(key).next()
    }
}
