//! The chunks of a list, and the memory for one item more.

ghost use Rattle.std.specs.Prelude.{◌≡◌, ◌+◌, ◌*◌, ◌<◌, ◌≤◌, ◌∷◌, [], Some, IsTrue, IsOk, OnOk, OnErr, true, false, length, slice_get, slice_set, drop};
ghost use Rattle.std.specs.List.{insert, remove};
ghost use Rattle.chunked.specs.Chunks.{whole, before, chunk_at, IsFilled, IsGrown, IsShrunk};

use crate::edits::{MOST_TOGETHER, insert_into, insert_parted, set_in, take_from};
use crate::items::Items;
use crate::room::make_room;
use crate::settling::{Shape, settle};
use std::alloc::{AllocError, Global};
use std::marker::Model;
use std::mem;

/// Items in chunks. No chunk is empty, none has more than 128 items, and two neighbours have more than 64 together.
pub(crate) struct Chunks<T> {
    alloc: Global,
    chunks: Vec<Vec<T>>,
    /// Empty; the next chunk is made of it.
    spare: Vec<T>,
    /// Whether one more item takes no memory.
    ready: bool,
}

// By hand, so that the proofs of its owners have one call and not a drop of each part.
impl<T: Drop> Drop for Chunks<T> {
    fn drop(self) {
        let Chunks {
            alloc: _,
            chunks: _,
            spare: _,
            ready: _,
        } = self;
    }
}

impl<T> Model for Chunks<T> {
    ghost use Rattle.chunked.specs.Chunking.{Chunking};
    ghost use Rattle.chunked.specs.Chunks.{lists, AreKept};

    ghost Value = { Chunking T };

    ghost view = { λ a. record { chunks = lists a.chunks.items; ready = a.ready } };

    ghost invariant = { λ a. AreKept a.chunks a.spare a.ready };
}

impl<T: Drop> Chunks<T> {
    /// No item. Takes no memory.
    pub(crate) fn new(alloc: Global) -> Chunks<T>
        ensures { result ≡ record { chunks = []; ready = false } }
    {
        Chunks {
            alloc,
            chunks: Vec::new(alloc),
            spare: Vec::new(alloc),
            ready: false,
        }
    }

    /// How many chunks there are.
    pub(crate) fn len(&self) -> usize
        ensures count { result ≡ length self.now.chunks }
        ensures few { 32 * result ≤ length (whole self.now.chunks) + 32 }
    {
        self.chunks.len()
    }

    /// Makes room for one item more at any place. The items stay, whatever the result.
    pub(crate) fn reserve(&mut self) -> Result<(), AllocError>
        ensures chunks { self.new.chunks ≡ self.old.chunks }
        ensures ready { OnOk result (IsTrue self.new.ready) }
        ensures err { OnErr result (self.new.ready ≡ false) }
    {
        self.ready = false;
        make_room(&mut self.chunks, &mut self.spare)?;
        self.ready = true;
        Ok(())
    }

    /// Puts the first item in. Takes no memory.
    pub(crate) fn begin(&mut self, item: T)
        requires ready { IsTrue self.old.ready }
        requires empty { self.old.chunks ≡ [] }
        ensures { self.new ≡ record { chunks = (item ∷ []) ∷ []; ready = false } }
    {
        self.ready = false;
        let mut first = mem::replace(&mut self.spare, Vec::new(self.alloc));
        let _ = first.push(item);
        let _ = self.chunks.push(first);
    }

    /// Puts an item into a chunk, before which so many of its items lie. Answers whether the chunk was parted in two. Takes no memory.
    pub(crate) fn insert(&mut self, chunk: usize, offset: usize, item: T) -> bool
        requires ready { IsTrue self.old.ready }
        requires inside { chunk < length self.old.chunks }
        requires offset { offset ≤ length (chunk_at self.old.chunks chunk) }
        ensures items { whole self.new.chunks ≡ insert (whole self.old.chunks) (before self.old.chunks chunk + offset) item }
        ensures grown { IsGrown self.old.chunks chunk result self.new.chunks }
        ensures used { self.new.ready ≡ false }
    {
        self.ready = false;
        if self.chunks[chunk].len() < MOST_TOGETHER {
            insert_into(&mut self.chunks, chunk, offset, item);
            return false;
        }
        let rest = mem::replace(&mut self.spare, Vec::new(self.alloc));
        insert_parted(&mut self.chunks, rest, chunk, offset, item);
        true
    }

    /// Takes an item out of a chunk, before which so many of its items lie. Takes no memory.
    pub(crate) fn remove(&mut self, chunk: usize, offset: usize) -> (T, Shape)
        requires inside { chunk < length self.old.chunks }
        requires offset { offset < length (chunk_at self.old.chunks chunk) }
        ensures item { slice_get (whole self.old.chunks) (before self.old.chunks chunk + offset) ≡ Some result.0 }
        ensures items { whole self.new.chunks ≡ remove (whole self.old.chunks) (before self.old.chunks chunk + offset) }
        ensures shrunk { IsShrunk self.old.chunks chunk result.1 self.new.chunks }
        ensures ready { self.new.ready ≡ false }
    {
        self.ready = false;
        let item = take_from(&mut self.chunks, chunk, offset);
        let shape = settle(&mut self.chunks, chunk);
        (item, shape)
    }

    /// Whether one more item takes no memory.
    pub(crate) fn is_ready(&self) -> bool
        ensures { result ≡ self.now.ready }
    {
        self.ready
    }

    /// Gives up the room for one more item. Its memory is kept for a later one.
    pub(crate) fn forget(&mut self)
        ensures { self.new ≡ record { chunks = self.old.chunks; ready = false } }
    {
        self.ready = false;
    }

    /// The items of a chunk.
    pub(crate) fn chunk(&self, chunk: usize) -> &[T]
        requires { chunk < length self.now.chunks }
        ensures items { result.now ≡ chunk_at self.now.chunks chunk }
        ensures filled { IsFilled result.now }
    {
        &self.chunks[chunk]
    }

    /// Replaces an item of a chunk. Takes no memory.
    pub(crate) fn set(&mut self, chunk: usize, offset: usize, item: T)
        requires inside { chunk < length self.old.chunks }
        requires offset { offset < length (chunk_at self.old.chunks chunk) }
        ensures { self.new ≡ record { chunks = slice_set self.old.chunks chunk (slice_set (chunk_at self.old.chunks chunk) offset item); ready = self.old.ready } }
    {
        set_in(&mut self.chunks, chunk, offset, item);
    }

    /// The items of a chunk from one on, and those of all later chunks.
    pub(crate) fn items_from(&self, chunk: usize, offset: usize) -> Items<'_, T>
        requires inside { chunk < length self.now.chunks }
        requires offset { offset ≤ length (chunk_at self.now.chunks chunk) }
        ensures { result ≡ drop (before self.now.chunks chunk + offset) (whole self.now.chunks) }
    {
        Items {
            current: &self.chunks[chunk][offset..],
            rest: &self.chunks[chunk + 1..],
        }
    }

    /// No items.
    pub(crate) fn no_items(&self) -> Items<'_, T>
        ensures { result ≡ [] }
    {
        Items {
            current: &[],
            rest: &[],
        }
    }
}
