//! Neighbours with few items are joined.

ghost use Rattle.std.specs.Prelude.{◌≡◌, ◌+◌, ◌<◌, ◌≤◌, ◌↔◌, ℕ, IsTrue, length};
ghost use Rattle.std.specs.List.{All};
ghost use Rattle.chunked.specs.Chunks.{lists, chunk_at, AreWide, IsSettled};

use crate::edits::{HALF, join};

/// What became of a chunk that lost an item.
#[derive(Clone, Copy)]
pub(crate) enum Shape {
    /// It stands where it stood.
    Same,
    /// It had no item left.
    Gone,
    /// The chunk at this place has got the items of the next one. One of both is the chunk.
    Joined(usize),
}

/// Whether a chunk and the next one have at most half a chunk together.
fn are_few<T>(chunks: &[Vec<T>], chunk: usize) -> bool
    requires inside { chunk < length chunks.now }
    requires short { All (λ c. length c ≤ 128) (lists chunks.now) }
    ensures inside { IsTrue result → chunk + 1 < length chunks.now }
    ensures few { chunk + 1 < length chunks.now → IsTrue result ↔ (length (chunk_at (lists chunks.now) chunk) + length (chunk_at (lists chunks.now) (chunk + 1)) ≤ 64) }
{
    chunk + 1 < chunks.len() && chunks[chunk].len() + chunks[chunk + 1].len() <= HALF
}

/// Joins a chunk that may have too few items with a neighbour, or leaves it out where it has none. Takes no memory.
pub(crate) fn settle<T: Drop>(chunks: &mut Vec<Vec<T>>, chunk: usize) -> Shape
    requires inside { chunk < length chunks.old.items }
    requires short { All (λ c. length c ≤ 128) (lists chunks.old.items) }
    requires wide { 1 < length chunks.old.items → AreWide 128 chunks.old.items }
    ensures settled { IsSettled (lists chunks.old.items) chunk result (lists chunks.new.items) }
    ensures wide { (n : ℕ) → AreWide n chunks.old.items → AreWide n chunks.new.items }
{
    if chunks[chunk].is_empty() {
        chunks.remove(chunk);
        return Shape::Gone;
    }
    if are_few(chunks, chunk) {
        join(chunks, chunk);
        return Shape::Joined(chunk);
    }
    if chunk > 0 && are_few(chunks, chunk - 1) {
        join(chunks, chunk - 1);
        return Shape::Joined(chunk - 1);
    }
    Shape::Same
}
