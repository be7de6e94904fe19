//! Blocks that are made whole.

ghost use Rattle.std.specs.Prelude.{◌≡◌, ◌≤◌, IfOk, replicate, vec_capacity};

use crate::block::{Block, MOST};
use std::alloc::{AllocError, Global};

/// So many times an item, with memory for so many items.
pub(crate) fn repeat<T: Copy>(
    alloc: Global,
    item: T,
    count: usize,
    room: usize,
) -> Result<Vec<T>, AllocError>
    ensures items { IfOk result (λ items. items.items ≡ replicate count item) }
    ensures room { IfOk result (λ items. room ≤ vec_capacity items) }
{
    let mut items = Vec::with_capacity(alloc, room)?;
    for _made in 0..count {
        items.push(item)?;
    }
    Ok(items)
}

/// So many blocks of one item alone.
pub(crate) fn repeat_blocks<T: Copy>(
    alloc: Global,
    item: T,
    count: usize,
) -> Result<Vec<Block<T>>, AllocError>
    ensures { IfOk result (λ blocks. blocks.items ≡ replicate count (replicate 2048 item)) }
{
    let mut blocks = Vec::with_capacity(alloc, count)?;
    for _made in 0..count {
        blocks.push(Block::new(repeat(alloc, item, MOST, MOST)?))?;
    }
    Ok(blocks)
}

/// Equal blocks.
pub(crate) fn copy_blocks<T: Copy>(
    alloc: Global,
    blocks: &[Block<T>],
) -> Result<Vec<Block<T>>, AllocError>
    ensures { IfOk result (λ copies. copies.items ≡ blocks.now) }
{
    let mut copies = Vec::with_capacity(alloc, blocks.len())?;
    for place in 0..blocks.len() {
        copies.push(blocks[place].copy(alloc)?)?;
    }
    Ok(copies)
}
