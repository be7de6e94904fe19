//! Blocks: rings of 2,048 items each.

ghost use Rattle.std.specs.Prelude.{◌≡◌, ◌+◌, ◌<◌, ◌≤◌, ◌++◌, ◌∷◌, [], Some, IfOk, length, slice_get, slice_set, slice_index_or, vec_capacity};
ghost use Rattle.std.specs.List.{insert, remove};

use std::alloc::{AllocError, Global};
use std::marker::Model;
use std::mem;

/// So many items a block has. A power of two, so that a place is found by a shift and a mask.
pub(crate) const MOST: usize = 2048;

/// Takes the item at a place out and puts one in at a later place. Those between move one place down. Takes no memory.
fn move_down<T>(items: &mut [T], out: usize, into: usize, item: T) -> T
    requires order { out ≤ into }
    requires inside { into < length items.old }
    ensures item { result ≡ slice_index_or items.old out result }
    ensures items { items.new ≡ insert (remove items.old out) into item }
{
    let old = mem::replace(&mut items[out], item);
    items[out..into + 1].rotate_left(1);
    old
}

/// Takes the item at a place out and puts one in at an earlier place. Those between move one place up. Takes no memory.
fn move_up<T>(items: &mut [T], out: usize, into: usize, item: T) -> T
    requires order { into ≤ out }
    requires inside { out < length items.old }
    ensures item { result ≡ slice_index_or items.old out result }
    ensures items { items.new ≡ insert (remove items.old out) into item }
{
    let old = mem::replace(&mut items[out], item);
    items[into..out + 1].rotate_right(1);
    old
}

/// Equal items, with memory for so many as a block has.
pub(crate) fn copy_items<T: Copy>(alloc: Global, items: &[T]) -> Result<Vec<T>, AllocError>
    ensures items { IfOk result (λ copies. copies.items ≡ items.now) }
    ensures room { IfOk result (λ copies. 2048 ≤ vec_capacity copies) }
{
    let mut copies = Vec::with_capacity(alloc, MOST)?;
    copies.extend_from_slice(items)?;
    Ok(copies)
}

/// Items in memory for 2,048. They begin at the head and go round the end of the memory once it is full, so that one can be put in at the
/// front while the last one is taken out, and no other moves.
pub(crate) struct Block<T> {
    items: Vec<T>,
    head: usize,
}

// By hand, so that the proofs of its owners have one call and not a drop of each part.
impl<T: Drop> Drop for Block<T> {
    fn drop(self) {
        let Block { items: _, head: _ } = self;
    }
}

impl<T> Model for Block<T> {
    ghost use Rattle.std.specs.Prelude.{List};
    ghost use Rattle.tiered.specs.Blocks.{from_head, IsRing};

    ghost Value = { List T };

    ghost view = { λ b. from_head b.items.items b.head };

    ghost invariant = { λ b. IsRing b.items b.head };
}

impl<T: Drop> Block<T> {
    /// A block of these items.
    pub(crate) fn new(items: Vec<T>) -> Block<T>
        requires most { length items.items ≤ 2048 }
        requires room { 2048 ≤ vec_capacity items }
        ensures { result ≡ items.items }
    {
        Block { items, head: 0 }
    }

    /// An equal block.
    pub(crate) fn copy(&self, alloc: Global) -> Result<Block<T>, AllocError>
    where
        T: Copy,
        ensures { IfOk result (λ block. block ≡ self.now) }
    {
        Ok(Block {
            items: copy_items(alloc, &self.items)?,
            head: self.head,
        })
    }

    /// The items in order, in one piece.
    pub(crate) fn into_items(self) -> Vec<T>
        ensures items { result.items ≡ self }
        ensures room { 2048 ≤ vec_capacity result }
    {
        let Block { mut items, head } = self;
        items.rotate_left(head);
        items
    }

    /// The item at an offset.
    #[inline]
    pub(crate) fn at(&self, offset: usize) -> &T
        requires { offset < length self.now }
        ensures { slice_get self.now offset ≡ Some result.now }
    {
        &self.items[(self.head + offset) % MOST]
    }

    /// Replaces the item at an offset. Takes no memory.
    pub(crate) fn set(&mut self, offset: usize, item: T)
        requires { offset < length self.old }
        ensures { self.new ≡ slice_set self.old offset item }
    {
        let place = (self.head + offset) % MOST;
        self.items[place] = item;
    }

    /// Puts an item in at the front of a full block and takes the last one out. Moves no other. Takes no memory.
    pub(crate) fn push_front(&mut self, item: T) -> T
        requires { length self.old ≡ 2048 }
        ensures { self.new ++ result ∷ [] ≡ item ∷ self.old }
    {
        let last = (self.head + MOST - 1) % MOST;
        self.head = last;
        mem::replace(&mut self.items[last], item)
    }

    /// Puts an item in at the end of a full block and takes the first one out. Moves no other. Takes no memory.
    pub(crate) fn push_back(&mut self, item: T) -> T
        requires { length self.old ≡ 2048 }
        ensures { result ∷ self.new ≡ self.old ++ item ∷ [] }
    {
        let first = self.head;
        self.head = (first + 1) % MOST;
        mem::replace(&mut self.items[first], item)
    }

    /// Puts an item in at an offset of a full block and takes the last one out. Takes no memory.
    pub(crate) fn insert(&mut self, offset: usize, item: T) -> T
        requires full { length self.old ≡ 2048 }
        requires offset { offset < 2048 }
        ensures { self.new ++ result ∷ [] ≡ insert self.old offset item }
    {
        let last = (self.head + MOST - 1) % MOST;
        let above = MOST - 1 - last;
        if offset <= above {
            self.head = last;
            return move_down(&mut self.items, last, last + offset, item);
        }
        move_up(&mut self.items, last, offset - above, item)
    }

    /// Takes the item at an offset of a full block out and puts one in at the end. Takes no memory.
    pub(crate) fn remove(&mut self, offset: usize, item: T) -> T
        requires full { length self.old ≡ 2048 }
        requires offset { offset < 2048 }
        ensures item { slice_get self.old offset ≡ Some result }
        ensures items { self.new ≡ remove self.old offset ++ item ∷ [] }
    {
        let head = self.head;
        let above = MOST - head;
        if offset < above {
            self.head = (head + 1) % MOST;
            return move_up(&mut self.items, head + offset, head, item);
        }
        move_down(&mut self.items, offset - above, head - 1, item)
    }
}
