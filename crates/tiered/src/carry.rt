//! Edits of blocks that stay full: an item that has no place in its block any more is carried to the next one.

ghost use Rattle.std.specs.Prelude.{◌≡◌, ◌+◌, ◌/◌, ◌<◌, ◌++◌, ◌∷◌, [], Some, length, slice_get};
ghost use Rattle.std.specs.List.{insert, remove};
ghost use Rattle.tiered.specs.Blocks.{whole, with_before, AreFull};

use crate::block::{Block, MOST};

/// Puts the item that is carried in front of a block. Its last one is carried on.
fn carry_on<T: Drop>(blocks: &mut [Block<T>], block: usize, carried: T) -> T
    requires inside { block < length blocks.old }
    requires full { AreFull blocks.old }
    ensures items { with_before blocks.new (block + 1) result ≡ with_before blocks.old block carried }
    ensures full { AreFull blocks.new }
{
    blocks[block].push_front(carried)
}

/// Puts the item that is carried at the end of a block. Its first one is carried back.
fn carry_back<T: Drop>(blocks: &mut [Block<T>], block: usize, carried: T) -> T
    requires inside { block < length blocks.old }
    requires full { AreFull blocks.old }
    ensures items { with_before blocks.new block result ≡ with_before blocks.old (block + 1) carried }
    ensures full { AreFull blocks.new }
{
    blocks[block].push_back(carried)
}

/// Puts an item in at a place. The last one of its block is carried on.
fn put_in<T: Drop>(blocks: &mut [Block<T>], place: usize, item: T) -> T
    requires inside { place / 2048 < length blocks.old }
    requires full { AreFull blocks.old }
    ensures items { with_before blocks.new (place / 2048 + 1) result ≡ insert (whole blocks.old) place item }
    ensures full { AreFull blocks.new }
{
    blocks[place / MOST].insert(place % MOST, item)
}

/// Takes the item at a place out, and puts the one that is carried at the end of its block.
fn take_out<T: Drop>(blocks: &mut [Block<T>], place: usize, carried: T) -> T
    requires inside { place / 2048 < length blocks.old }
    requires full { AreFull blocks.old }
    ensures item { slice_get (with_before blocks.old (place / 2048 + 1) carried) place ≡ Some result }
    ensures items { whole blocks.new ≡ remove (with_before blocks.old (place / 2048 + 1) carried) place }
    ensures full { AreFull blocks.new }
{
    blocks[place / MOST].remove(place % MOST, carried)
}

/// Puts an item in at a place and takes the last one of all out. Takes no memory.
pub(crate) fn insert_carrying<T: Drop>(blocks: &mut [Block<T>], place: usize, item: T) -> T
    requires inside { place / 2048 < length blocks.old }
    requires full { AreFull blocks.old }
    ensures items { whole blocks.new ++ result ∷ [] ≡ insert (whole blocks.old) place item }
    ensures full { AreFull blocks.new }
{
    let mut carried = put_in(blocks, place, item);
    for block in place / MOST + 1..blocks.len() {
        carried = carry_on(blocks, block, carried);
    }
    carried
}

/// Takes the item at a place out and puts one in at the end of all. Takes no memory.
pub(crate) fn remove_carrying<T: Drop>(blocks: &mut [Block<T>], place: usize, item: T) -> T
    requires inside { place / 2048 < length blocks.old }
    requires full { AreFull blocks.old }
    ensures item { slice_get (whole blocks.old) place ≡ Some result }
    ensures items { whole blocks.new ≡ remove (whole blocks.old) place ++ item ∷ [] }
    ensures full { AreFull blocks.new }
{
    let mut carried = item;
    let mut block = blocks.len() - 1;
    while place / MOST < block {
        carried = carry_back(blocks, block, carried);
        block -= 1;
    }
    take_out(blocks, place, carried)
}
