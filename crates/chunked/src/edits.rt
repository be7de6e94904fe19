//! Edits of chunks.

ghost use Rattle.std.specs.Prelude.{◌≡◌, ◌+◌, ◌<◌, ◌≤◌, ◌++◌, ℕ, [], false, length, map, slice_set, slice_get, slice_index_or, Some, suc, vec_len, vec_capacity};
ghost use Rattle.std.specs.List.{insert, remove};
ghost use Rattle.chunked.specs.Chunks.{lists, chunk_at, room_at, AreWide, IsFilled, IsParted};

/// So many items lie in a chunk at most.
pub(crate) const MOST_TOGETHER: usize = 128;

/// So many items stay in a full chunk that is parted. Two neighbours that have no more together are joined.
pub(crate) const HALF: usize = 64;

/// Puts an item into a chunk that has room. Takes no memory.
pub(crate) fn insert_into<T: Drop>(chunks: &mut Vec<Vec<T>>, chunk: usize, offset: usize, item: T)
    requires inside { chunk < length chunks.old.items }
    requires offset { offset ≤ length (chunk_at (lists chunks.old.items) chunk) }
    requires room { length (chunk_at (lists chunks.old.items) chunk) < room_at chunks.old.items chunk }
    ensures lists { lists chunks.new.items ≡ slice_set (lists chunks.old.items) chunk (insert (chunk_at (lists chunks.old.items) chunk) offset item) }
    ensures wide { (n : ℕ) → AreWide n chunks.old.items → AreWide n chunks.new.items }
{
    let _ = chunks[chunk].insert(offset, item);
}

/// Takes an item out of a chunk. Takes no memory.
pub(crate) fn take_from<T: Drop>(chunks: &mut Vec<Vec<T>>, chunk: usize, offset: usize) -> T
    requires inside { chunk < length chunks.old.items }
    requires offset { offset < length (chunk_at (lists chunks.old.items) chunk) }
    ensures item { slice_get (chunk_at (lists chunks.old.items) chunk) offset ≡ Some result }
    ensures lists { lists chunks.new.items ≡ slice_set (lists chunks.old.items) chunk (remove (chunk_at (lists chunks.old.items) chunk) offset) }
    ensures wide { (n : ℕ) → AreWide n chunks.old.items → AreWide n chunks.new.items }
{
    chunks[chunk].remove(offset)
}

/// Replaces an item of a chunk. Takes no memory.
pub(crate) fn set_in<T: Drop>(chunks: &mut Vec<Vec<T>>, chunk: usize, offset: usize, item: T)
    requires inside { chunk < length chunks.old.items }
    requires offset { offset < length (chunk_at (lists chunks.old.items) chunk) }
    ensures lists { lists chunks.new.items ≡ slice_set (lists chunks.old.items) chunk (slice_set (chunk_at (lists chunks.old.items) chunk) offset item) }
    ensures rooms { map (λ c. vec_capacity c) chunks.new.items ≡ map (λ c. vec_capacity c) chunks.old.items }
    ensures len { vec_len chunks.new ≡ vec_len chunks.old }
    ensures room { vec_capacity chunks.new ≡ vec_capacity chunks.old }
{
    chunks[chunk][offset] = item;
}

/// Moves the later half of a full chunk into a vector that is empty and has room. Takes no memory.
fn move_half<T: Drop>(chunk: &mut Vec<T>, rest: &mut Vec<T>)
    requires full { length chunk.old.items ≡ 128 }
    requires empty { rest.old.items ≡ [] }
    requires room { 64 ≤ vec_capacity rest.old }
    ensures both { chunk.new.items ++ rest.new.items ≡ chunk.old.items }
    ensures half { length rest.new.items ≡ 64 }
    ensures room { vec_capacity chunk.old ≤ vec_capacity chunk.new }
    ensures rest_room { vec_capacity rest.old ≤ vec_capacity rest.new }
{
    for _moved in 0..HALF {
        if let Some(item) = chunk.pop() {
            let _ = rest.push(item);
        }
    }
    rest.reverse();
}

/// Parts a full chunk in two with an item more. One that ends the list keeps its items, since what comes at the end of a list is
/// often followed by more. Takes no memory.
fn divide<T: Drop>(chunk: &mut Vec<T>, rest: &mut Vec<T>, offset: usize, item: T, ends: bool)
    requires full { length chunk.old.items ≡ 128 }
    requires offset { offset ≤ 128 }
    requires empty { rest.old.items ≡ [] }
    requires room { 128 ≤ vec_capacity chunk.old }
    requires rest_room { 128 ≤ vec_capacity rest.old }
    ensures items { chunk.new.items ++ rest.new.items ≡ insert chunk.old.items offset item }
    ensures front_filled { IsFilled chunk.new.items }
    ensures back_filled { IsFilled rest.new.items }
    ensures front_half { 64 ≤ length chunk.new.items }
    ensures back_half { ends ≡ false → 64 ≤ length rest.new.items }
    ensures room { vec_capacity chunk.old ≤ vec_capacity chunk.new }
    ensures rest_room { vec_capacity rest.old ≤ vec_capacity rest.new }
{
    if ends && offset == MOST_TOGETHER {
        let _ = rest.push(item);
        return;
    }
    move_half(chunk, rest);
    if offset <= HALF {
        let _ = chunk.insert(offset, item);
    } else {
        let _ = rest.insert(offset - HALF, item);
    }
}

/// Parts a full chunk in two with an item more, the later of which lies in a vector that has room for a whole chunk. Takes no memory.
pub(crate) fn insert_parted<T: Drop>(
    chunks: &mut Vec<Vec<T>>,
    mut rest: Vec<T>,
    chunk: usize,
    offset: usize,
    item: T,
)
    requires inside { chunk < length chunks.old.items }
    requires full { length (chunk_at (lists chunks.old.items) chunk) ≡ 128 }
    requires offset { offset ≤ 128 }
    requires room { 128 ≤ room_at chunks.old.items chunk }
    requires empty { rest.items ≡ [] }
    requires rest_room { 128 ≤ vec_capacity rest }
    requires next { vec_len chunks.old < vec_capacity chunks.old }
    ensures parted { IsParted (lists chunks.old.items) (lists chunks.new.items) chunk offset item }
    ensures wide { AreWide 128 chunks.old.items → AreWide 128 chunks.new.items }
{
    let ends = chunk + 1 == chunks.len();
    divide(&mut chunks[chunk], &mut rest, offset, item, ends);
    let _ = chunks.insert(chunk + 1, rest);
}

/// Joins a chunk and the next one, for which it has room. Takes no memory.
pub(crate) fn join<T: Drop>(chunks: &mut Vec<Vec<T>>, chunk: usize)
    requires inside { chunk + 1 < length chunks.old.items }
    requires room { length (chunk_at (lists chunks.old.items) chunk) + length (chunk_at (lists chunks.old.items) (chunk + 1)) ≤ room_at chunks.old.items chunk }
    ensures lists { lists chunks.new.items ≡ slice_set (remove (lists chunks.old.items) (chunk + 1)) chunk (chunk_at (lists chunks.old.items) chunk ++ chunk_at (lists chunks.old.items) (chunk + 1)) }
    ensures wide { (n : ℕ) → AreWide n chunks.old.items → AreWide n chunks.new.items }
{
    let mut next = chunks.remove(chunk + 1);
    let _ = chunks[chunk].append(&mut next);
}
