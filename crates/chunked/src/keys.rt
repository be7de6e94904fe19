//! Where a key lies in chunks of entries that are in the order of their keys.

ghost use Rattle.std.specs.Prelude.{◌≡◌, ◌+◌, ◌<◌, ◌≤◌, ℕ, List, None, length, map, slice_index, IfSome, IfNone, vec_len, vec_capacity};
ghost use Rattle.chunked.specs.Chunks.{whole, chunk_at, IsGrown, IsShrunk};
ghost use Rattle.chunked.specs.Entries.{first_key, AreRising, IsPlace, IsFound};
ghost use Rattle.chunked.specs.Maps.{value_at};

use crate::chunks::Chunks;
use crate::settling::Shape;

/// A place in a chunk.
#[derive(Clone, Copy)]
pub(crate) struct Spot {
    pub(crate) chunk: usize,
    pub(crate) offset: usize,
}

/// The last chunk whose first key is at most a key, or else the first chunk. Looks at no chunk.
fn chunk_of_key(firsts: &[u64], key: u64) -> usize
    requires { 0 < length firsts.now }
    ensures inside { result < length firsts.now }
    ensures from { 0 < result → slice_index firsts.now result ≤ key }
    ensures to { result + 1 < length firsts.now → key < slice_index firsts.now (result + 1) }
{
    let mut low = 0;
    let mut high = firsts.len();
    while high - low > 1 {
        let middle = low + (high - low) / 2;
        if firsts[middle] <= key {
            low = middle;
        } else {
            high = middle;
        }
    }
    low
}

/// Where a key is, or where it goes. Looks at one chunk alone.
pub(crate) fn place_of<V: Drop>(chunks: &Chunks<(u64, V)>, firsts: &[u64], key: u64) -> Spot
    requires some { 0 < length chunks.now.chunks }
    requires firsts { firsts.now ≡ map first_key chunks.now.chunks }
    requires rising { AreRising (whole chunks.now.chunks) }
    ensures { IsPlace chunks.now.chunks result.chunk result.offset key }
{
    let chunk = chunk_of_key(firsts, key);
    let offset = chunks.chunk(chunk).partition_point(|entry| entry.0 < key);
    Spot { chunk, offset }
}

/// Where a key is.
pub(crate) fn find<V: Drop>(chunks: &Chunks<(u64, V)>, firsts: &[u64], key: u64) -> Option<Spot>
    requires firsts { firsts.now ≡ map first_key chunks.now.chunks }
    requires rising { AreRising (whole chunks.now.chunks) }
    ensures found { IfSome result (λ spot. IsFound chunks.now.chunks spot.chunk spot.offset key) }
    ensures none { IfNone result (value_at (whole chunks.now.chunks) key ≡ None) }
{
    if firsts.is_empty() {
        return None;
    }
    let spot = place_of(chunks, firsts, key);
    let chunk = chunks.chunk(spot.chunk);
    if spot.offset < chunk.len() && chunk[spot.offset].0 == key {
        Some(spot)
    } else {
        None
    }
}

/// The first key of a chunk.
fn first_of<V: Drop>(chunks: &Chunks<(u64, V)>, chunk: usize) -> u64
    requires { chunk < length chunks.now.chunks }
    ensures { result ≡ first_key (chunk_at chunks.now.chunks chunk) }
{
    chunks.chunk(chunk)[0].0
}

/// The first keys once a chunk got an entry, and perhaps was parted. Takes no memory.
pub(crate) fn follow_insert<V: Drop>(
    firsts: &mut Vec<u64>,
    chunks: &Chunks<(u64, V)>,
    chunk: usize,
    parted: bool,
)
    requires grown { (old : List (List (ℕ × V))) × (firsts.old.items ≡ map first_key old) × (chunk < length old) × IsGrown old chunk parted chunks.now.chunks }
    requires room { vec_len firsts.old < vec_capacity firsts.old }
    ensures { firsts.new.items ≡ map first_key chunks.now.chunks }
{
    firsts[chunk] = first_of(chunks, chunk);
    if parted {
        let _ = firsts.insert(chunk + 1, first_of(chunks, chunk + 1));
    }
}

/// The first keys once a chunk lost an entry. Takes no memory.
pub(crate) fn follow_removal<V: Drop>(
    firsts: &mut Vec<u64>,
    chunks: &Chunks<(u64, V)>,
    chunk: usize,
    shape: Shape,
)
    requires { (old : List (List (ℕ × V))) × (firsts.old.items ≡ map first_key old) × (chunk < length old) × IsShrunk old chunk shape chunks.now.chunks }
    ensures { firsts.new.items ≡ map first_key chunks.now.chunks }
{
    match shape {
        Shape::Same => firsts[chunk] = first_of(chunks, chunk),
        Shape::Gone => {
            firsts.remove(chunk);
        }
        Shape::Joined(first) => {
            firsts.remove(first + 1);
            firsts[first] = first_of(chunks, first);
        }
    }
}
