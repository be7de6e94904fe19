//! Lists of any length in tiers.

ghost use Rattle.std.specs.Prelude.{◌≡◌, ◌+◌, ◌<◌, ◌≤◌, ◌++◌, ◌∷◌, ◌^◌, ◌↔◌, [], Some, IfSome, IsSome, IsTrue, OnOk, OnErr, IfOk, Bool, true, false, length, replicate, slice_get, slice_set};
ghost use Rattle.std.specs.List.{insert, remove};

use crate::block::{Block, MOST, copy_items};
use crate::copies::{copy_blocks, repeat, repeat_blocks};
use crate::edits::{insert_at, make_room, remove_at};
use std::alloc::{AllocError, Global};
use std::marker::Model;

/// So many items a list has at most, so that they can be counted.
const MOST_ITEMS: usize = 1 << 62;

/// A list whose items lie in blocks. It works at any length, so that a long list that got short again stays as it is.
pub(crate) struct Tiers<T> {
    alloc: Global,
    /// Full blocks. A list of up to 2,048 items has none.
    blocks: Vec<Block<T>>,
    /// The items after the blocks, up to 2,048, in reverse. All items, and not in reverse, where there are no blocks.
    last: Vec<T>,
    /// Empty memory for the items after the next block.
    spare: Vec<T>,
    count: usize,
    ready: bool,
}

// By hand, so that the proofs of its owners have one call and not a drop of each part.
impl<T: Drop> Drop for Tiers<T> {
    fn drop(self) {
        let Tiers {
            alloc: _,
            blocks: _,
            last: _,
            spare: _,
            count: _,
            ready: _,
        } = self;
    }
}

impl<T> Model for Tiers<T> {
    ghost use Rattle.tiered.specs.Blocks.{all_of, AreKept};
    ghost use Rattle.tiered.specs.Lists.{TieredList};

    ghost Value = { TieredList T };

    ghost view = { λ a. record { items = all_of a.blocks.items a.last.items; ready = a.ready } };

    ghost invariant = { λ a. AreKept a.blocks a.last a.spare a.count a.ready };
}

impl<T: Drop> Tiers<T> {
    /// These items, in the memory that they have. Takes no memory.
    pub(crate) fn new(alloc: Global, items: Vec<T>) -> Tiers<T>
        requires { length items.items ≤ 2048 }
        ensures { result ≡ record { items = items.items; ready = false } }
    {
        let count = items.len();
        Tiers {
            alloc,
            blocks: Vec::new(alloc),
            last: items,
            spare: Vec::new(alloc),
            count,
            ready: false,
        }
    }

    /// Gives a list without items so many times an item.
    // Filled where it lies, so that the stack has no list while its parts are made.
    #[inline(never)]
    pub(crate) fn fill(&mut self, item: T, count: usize) -> Result<(), AllocError>
    where
        T: Copy,
        requires { self.old.items ≡ [] }
        ensures { OnOk result (self.new.items ≡ replicate count item) }
    {
        if count > MOST_ITEMS {
            return Err(AllocError);
        }
        // The last items may fill a block, but aren't one.
        let full = count.saturating_sub(1) / MOST;
        let rest = count - full * MOST;
        let room = if full == 0 { rest } else { MOST };
        let blocks = repeat_blocks(self.alloc, item, full)?;
        let last = repeat(self.alloc, item, rest, room)?;
        self.ready = false;
        self.blocks = blocks;
        self.last = last;
        self.count = count;
        Ok(())
    }

    /// Gives a list the items of another in place of its own.
    // Filled where it lies, as by `fill`.
    #[inline(never)]
    pub(crate) fn copy_from(&mut self, other: &Tiers<T>) -> Result<(), AllocError>
    where
        T: Copy,
        ensures { OnOk result (self.new.items ≡ other.now.items) }
    {
        let blocks = copy_blocks(self.alloc, &other.blocks)?;
        let last = copy_items(self.alloc, &other.last)?;
        self.ready = false;
        self.blocks = blocks;
        self.last = last;
        self.count = other.count;
        Ok(())
    }

    /// How many items there are.
    pub(crate) fn len(&self) -> usize
        ensures count { result ≡ length self.now.items }
        ensures small { result < 2 ^ 63 }
    {
        self.count
    }

    /// The item at a place: without a search, in some ten instructions.
    #[inline]
    pub(crate) fn at(&self, place: usize) -> &T
        requires { place < length self.now.items }
        ensures { slice_get self.now.items place ≡ Some result.now }
    {
        let block = place / MOST;
        if block < self.blocks.len() {
            return self.blocks[block].at(place % MOST);
        }
        if self.blocks.is_empty() {
            return &self.last[place];
        }
        &self.last[self.last.len() - 1 - place % MOST]
    }

    /// All items side by side, if they lie so: up to 2,048 do.
    pub(crate) fn as_slice(&self) -> Option<&[T]>
        ensures same { IfSome result (λ items. items.now ≡ self.now.items) }
        ensures few { length self.now.items ≤ 2048 → IsSome result }
        ensures most { IfSome result (λ items. length items.now ≤ 2048) }
    {
        if self.blocks.is_empty() {
            Some(&self.last)
        } else {
            None
        }
    }

    /// Replaces the item at a place. Takes no memory.
    pub(crate) fn set(&mut self, place: usize, item: T)
        requires { place < length self.old.items }
        ensures { self.new ≡ record { items = slice_set self.old.items place item; ready = self.old.ready } }
    {
        let block = place / MOST;
        if block < self.blocks.len() {
            self.blocks[block].set(place % MOST, item);
        } else if self.blocks.is_empty() {
            self.last[place] = item;
        } else {
            let end = self.last.len();
            self.last[end - 1 - place % MOST] = item;
        }
    }

    /// Makes room for one insert at any place. The items stay, whatever the result. An error also where there are 2^62 items.
    pub(crate) fn reserve(&mut self) -> Result<(), AllocError>
        ensures items { self.new.items ≡ self.old.items }
        ensures ready { OnOk result (IsTrue self.new.ready) }
        ensures err { OnErr result (self.new.ready ≡ false) }
    {
        self.ready = false;
        if self.count >= MOST_ITEMS {
            return Err(AllocError);
        }
        make_room(&mut self.blocks, &mut self.last, &mut self.spare)?;
        self.ready = true;
        Ok(())
    }

    /// Puts an item in at a place, for which room was made. Takes no memory.
    pub(crate) fn insert_reserved(&mut self, place: usize, item: T)
        requires ready { IsTrue self.old.ready }
        requires place { place ≤ length self.old.items }
        ensures { self.new ≡ record { items = insert self.old.items place item; ready = false } }
    {
        self.ready = false;
        insert_at(
            self.alloc,
            &mut self.blocks,
            &mut self.last,
            &mut self.spare,
            place,
            item,
        );
        self.count += 1;
    }

    /// Takes the item at a place out. Takes no memory. No room for an insert is kept, so an insert that is ready comes first.
    pub(crate) fn remove(&mut self, place: usize) -> T
        requires { place < length self.old.items }
        ensures item { slice_get self.old.items place ≡ Some result }
        ensures items { self.new ≡ record { items = remove self.old.items place; ready = false } }
    {
        self.ready = false;
        let item = remove_at(&mut self.blocks, &mut self.last, &mut self.spare, place);
        self.count -= 1;
        item
    }
}
