//! Edits of blocks and of the items after them. These lie in reverse where there are blocks, so that one is carried in or out at the end of
//! their vector, and no other moves.

ghost use Rattle.std.specs.Prelude.{◌≡◌, ◌+◌, ◌*◌, ◌<◌, ◌≤◌, ◌++◌, [], Some, OnOk, length, slice_get, vec_len, vec_capacity};
ghost use Rattle.std.specs.List.{insert, remove};
ghost use Rattle.tiered.specs.Blocks.{whole, all_of, AreFull, AreTiers, HasRoom};

use crate::block::{Block, MOST};
use crate::carry::{insert_carrying, remove_carrying};
use std::alloc::{AllocError, Global};
use std::mem;

/// Makes room for one item more at any place. The items stay, whatever the result. A short list takes no more memory than a vector would,
/// and a longer one has memory for a block ahead.
pub(crate) fn make_room<T: Drop>(
    blocks: &mut Vec<Block<T>>,
    last: &mut Vec<T>,
    spare: &mut Vec<T>,
) -> Result<(), AllocError>
    requires { spare.old.items ≡ [] }
    ensures blocks { blocks.new.items ≡ blocks.old.items }
    ensures last { last.new.items ≡ last.old.items }
    ensures capacity { vec_capacity last.old ≤ vec_capacity last.new }
    ensures spare { spare.new.items ≡ [] }
    ensures room { OnOk result (HasRoom blocks.new last.new spare.new) }
{
    if blocks.is_empty() && last.len() < MOST {
        return last.reserve(1);
    }
    blocks.reserve(1)?;
    spare.reserve(MOST)
}

/// Makes last items lie as those of a block, or a block's as last ones: where there are blocks, one way is the reverse of the other.
fn turn<T: Drop>(blocks: &[Block<T>], last: &mut Vec<T>)
    ensures closed { whole blocks.now ++ last.new.items ≡ all_of blocks.now last.old.items }
    ensures opened { all_of blocks.now last.new.items ≡ whole blocks.now ++ last.old.items }
    ensures count { length last.new.items ≡ length last.old.items }
    ensures capacity { vec_capacity last.new ≡ vec_capacity last.old }
{
    if !blocks.is_empty() {
        last.reverse();
    }
}

/// Makes a block of the last items, which fill one. The next ones get the spare memory. Takes no memory.
// Not in line, so that an edit that needs none of this has no room on the stack for it.
#[inline(never)]
fn close_last<T: Drop>(
    alloc: Global,
    blocks: &mut Vec<Block<T>>,
    last: &mut Vec<T>,
    spare: &mut Vec<T>,
)
    requires full { AreFull blocks.old.items }
    requires count { length last.old.items ≡ 2048 }
    requires room { vec_len blocks.old < vec_capacity blocks.old }
    requires wide { 2048 ≤ vec_capacity spare.old }
    requires empty { spare.old.items ≡ [] }
    ensures items { whole blocks.new.items ≡ all_of blocks.old.items last.old.items }
    ensures full { AreFull blocks.new.items }
    ensures count { length blocks.new.items ≡ length blocks.old.items + 1 }
    ensures none { last.new.items ≡ [] }
    ensures wide { 2048 ≤ vec_capacity last.new }
    ensures empty { spare.new.items ≡ [] }
{
    turn(blocks, last);
    let next = mem::replace(spare, Vec::new(alloc));
    // There is room, so this can't fail.
    let _ = blocks.push(Block::new(mem::replace(last, next)));
}

/// Takes the last block apart, where no items come after it: its items are the last ones now. The memory that these had is the spare one.
/// Takes no memory.
// Not in line, as `close_last`.
#[inline(never)]
fn open_last<T: Drop>(blocks: &mut Vec<Block<T>>, last: &mut Vec<T>, spare: &mut Vec<T>)
    requires full { AreFull blocks.old.items }
    requires some { 0 < length blocks.old.items }
    requires none { last.old.items ≡ [] }
    ensures items { all_of blocks.new.items last.new.items ≡ whole blocks.old.items }
    ensures tiers { AreTiers blocks.new.items last.new }
    ensures count { length blocks.new.items + 1 ≡ length blocks.old.items }
    ensures filled { length last.new.items ≡ 2048 }
    ensures empty { spare.new.items ≡ [] }
{
    let Some(block) = blocks.pop() else {
        unreachable!()
    };
    *spare = mem::replace(last, block.into_items());
    turn(blocks, last);
}

/// Sees to it that there are blocks, and that the last items don't fill one. Takes no memory.
fn close_full<T: Drop>(
    alloc: Global,
    blocks: &mut Vec<Block<T>>,
    last: &mut Vec<T>,
    spare: &mut Vec<T>,
)
    requires tiers { AreTiers blocks.old.items last.old }
    requires many { 2048 ≤ 2048 * length blocks.old.items + length last.old.items }
    requires room { HasRoom blocks.old last.old spare.old }
    requires empty { spare.old.items ≡ [] }
    ensures items { all_of blocks.new.items last.new.items ≡ all_of blocks.old.items last.old.items }
    ensures tiers { AreTiers blocks.new.items last.new }
    ensures some { 0 < length blocks.new.items }
    ensures short { length last.new.items < 2048 }
    ensures empty { spare.new.items ≡ [] }
{
    if last.len() == MOST {
        close_last(alloc, blocks, last, spare);
    }
}

/// Sees to it that some items come after the blocks. Takes no memory.
fn open_empty<T: Drop>(blocks: &mut Vec<Block<T>>, last: &mut Vec<T>, spare: &mut Vec<T>)
    requires tiers { AreTiers blocks.old.items last.old }
    requires some { 0 < length blocks.old.items }
    requires single { length blocks.old.items ≡ 1 → 0 < length last.old.items }
    requires empty { spare.old.items ≡ [] }
    ensures items { all_of blocks.new.items last.new.items ≡ all_of blocks.old.items last.old.items }
    ensures tiers { AreTiers blocks.new.items last.new }
    ensures some { 0 < length blocks.new.items }
    ensures any { 0 < length last.new.items }
    ensures empty { spare.new.items ≡ [] }
{
    if last.is_empty() {
        open_last(blocks, last, spare);
    }
}

/// Takes a block apart that is the only one and has no items after it. One of several stays, so that a list whose length goes to and fro
/// about that of whole blocks doesn't reverse a block each time. Takes no memory.
fn open_single<T: Drop>(blocks: &mut Vec<Block<T>>, last: &mut Vec<T>, spare: &mut Vec<T>)
    requires tiers { AreTiers blocks.old.items last.old }
    requires empty { spare.old.items ≡ [] }
    ensures items { all_of blocks.new.items last.new.items ≡ all_of blocks.old.items last.old.items }
    ensures tiers { AreTiers blocks.new.items last.new }
    ensures single { length blocks.new.items ≡ 1 → 0 < length last.new.items }
    ensures empty { spare.new.items ≡ [] }
{
    if blocks.len() == 1 && last.is_empty() {
        open_last(blocks, last, spare);
    }
}

/// Puts an item in at a place of a list that has blocks, whose last items don't fill one. Takes no memory.
fn insert_long<T: Drop>(blocks: &mut [Block<T>], last: &mut Vec<T>, place: usize, item: T)
    requires tiers { AreTiers blocks.old last.old }
    requires some { 0 < length blocks.old }
    requires short { length last.old.items < 2048 }
    requires place { place ≤ length (all_of blocks.old last.old.items) }
    ensures items { all_of blocks.new last.new.items ≡ insert (all_of blocks.old last.old.items) place item }
    ensures tiers { AreTiers blocks.new last.new }
    ensures count { length last.new.items ≡ length last.old.items + 1 }
{
    // There is room, so neither can fail.
    if place / MOST < blocks.len() {
        let carried = insert_carrying(blocks, place, item);
        let _ = last.push(carried);
    } else {
        let _ = last.insert(last.len() - place % MOST, item);
    }
}

/// Puts an item in at a place, for which there is room. Takes no memory.
pub(crate) fn insert_at<T: Drop>(
    alloc: Global,
    blocks: &mut Vec<Block<T>>,
    last: &mut Vec<T>,
    spare: &mut Vec<T>,
    place: usize,
    item: T,
)
    requires tiers { AreTiers blocks.old.items last.old }
    requires room { HasRoom blocks.old last.old spare.old }
    requires empty { spare.old.items ≡ [] }
    requires place { place ≤ length (all_of blocks.old.items last.old.items) }
    ensures items { all_of blocks.new.items last.new.items ≡ insert (all_of blocks.old.items last.old.items) place item }
    ensures tiers { AreTiers blocks.new.items last.new }
    ensures any { 0 < length last.new.items }
    ensures empty { spare.new.items ≡ [] }
{
    if blocks.is_empty() && last.len() < MOST {
        // There is room, so this can't fail.
        let _ = last.insert(place, item);
        return;
    }
    close_full(alloc, blocks, last, spare);
    insert_long(blocks, last, place, item);
}

/// Takes the item at a place of a list out that has blocks and items after them. Takes no memory.
fn remove_long<T: Drop>(blocks: &mut [Block<T>], last: &mut Vec<T>, place: usize) -> T
    requires tiers { AreTiers blocks.old last.old }
    requires some { 0 < length blocks.old }
    requires any { 0 < length last.old.items }
    requires place { place < length (all_of blocks.old last.old.items) }
    ensures item { slice_get (all_of blocks.old last.old.items) place ≡ Some result }
    ensures items { all_of blocks.new last.new.items ≡ remove (all_of blocks.old last.old.items) place }
    ensures tiers { AreTiers blocks.new last.new }
{
    if place / MOST < blocks.len() {
        let Some(carried) = last.pop() else {
            unreachable!()
        };
        return remove_carrying(blocks, place, carried);
    }
    last.remove(last.len() - 1 - place % MOST)
}

/// Takes the item at a place out. Takes no memory.
pub(crate) fn remove_at<T: Drop>(
    blocks: &mut Vec<Block<T>>,
    last: &mut Vec<T>,
    spare: &mut Vec<T>,
    place: usize,
) -> T
    requires tiers { AreTiers blocks.old.items last.old }
    requires single { length blocks.old.items ≡ 1 → 0 < length last.old.items }
    requires empty { spare.old.items ≡ [] }
    requires place { place < length (all_of blocks.old.items last.old.items) }
    ensures item { slice_get (all_of blocks.old.items last.old.items) place ≡ Some result }
    ensures items { all_of blocks.new.items last.new.items ≡ remove (all_of blocks.old.items last.old.items) place }
    ensures tiers { AreTiers blocks.new.items last.new }
    ensures single { length blocks.new.items ≡ 1 → 0 < length last.new.items }
    ensures empty { spare.new.items ≡ [] }
{
    if blocks.is_empty() {
        return last.remove(place);
    }
    open_empty(blocks, last, spare);
    let item = remove_long(blocks, last, place);
    open_single(blocks, last, spare);
    item
}
