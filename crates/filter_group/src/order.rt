//! The order of programs, by which one is found.

ghost use Rattle.std.specs.Prelude.{◌≡◌, ◌<◌, ◌≤◌, ℕ, IsTrue, IsFalse, Some, length, map, slice_get};
ghost use Rattle.std.specs.List.{remove};
ghost use Rattle.filter_group.specs.Order.{IsOrder, IsRank, place_once_taken, program_cmp};

use crate::placements::Placements;
use crate::search::probe;
use crate::shape::{are_one_shape, are_same, is_alike, shape_order};
use bpf_insn::Insn;
use filter_verify::Verified;
use std::cmp::Ordering;
use tiered::Tiered;

/// So many programs before and after one are looked at for one of its shape.
const NEAREST: usize = 8;

/// So few programs are compared in less time than their parts are asked.
const FEW_PROGRAMS: usize = 64;

/// So few places are looked at in less time than a program is found.
const FEW_PLACES: usize = 512;

/// So many parts of a list of programs that lie side by side are asked where a program comes, and so many of a longer one.
const FEW_PARTS_OF_SHORT: usize = 2;

const FEW_PARTS: usize = 16;

/// How two programs are ordered: by the first instructions that differ in more than programs of one shape do, then by length, then by
/// the first constants that differ.
pub(crate) fn program_order(a: &[Insn], b: &[Insn]) -> Ordering
    ensures { result ≡ program_cmp a.now b.now }
{
    let mut constants = Ordering::Equal;
    for place in 0..a.len().min(b.len()) {
        let one = a[place];
        let other = b[place];
        // Most that are compared are the same: this takes less than their order.
        if !are_same(one, other) {
            if !is_alike(one, other) {
                return shape_order(one, other);
            }
            constants = constants.then(one.k.cmp(&other.k));
        }
    }
    a.len().cmp(&b.len()).then(constants)
}

/// How many parts of a list of programs are worth asking where a program comes, if there are no more.
// Where there are many programs, each lies somewhere else, and to compare one takes longer.
fn parts_to_ask(order: &Tiered<u32>) -> usize {
    if order.len() <= FEW_PROGRAMS {
        0
    } else if order.as_slice().is_some() {
        FEW_PARTS_OF_SHORT
    } else {
        FEW_PARTS
    }
}

/// Where a program is among others, or would be. Where this is wrong, changes take longer.
#[derive(Clone, Copy)]
pub struct Guess {
    /// So many come before it in the order of programs.
    pub(crate) rank: usize,
    /// The number of the part that it is in.
    pub(crate) group: usize,
    /// Which member of that part it is.
    pub(crate) member: usize,
}

impl Guess {
    /// Its rank alone is known.
    pub(crate) fn of_rank(rank: usize) -> Guess
        ensures { result.rank ≡ rank }
    {
        Guess {
            rank,
            group: usize::MAX,
            member: 0,
        }
    }
}

/// How many of the ordered programs come before one, and where it is or would be.
pub(crate) fn seek(placed: &Placements, order: &Tiered<u32>, program: &[Insn]) -> Guess
    requires { IsOrder placed.now order.now.items }
    ensures { IsRank placed.now order.now.items program.now result.rank }
{
    seek_from(
        placed,
        order,
        program,
        placed.guess(program, parts_to_ask(order)),
    )
}

/// The same, by a search that begins at a guess, which mostly is right, or else in the middle.
fn seek_from(
    placed: &Placements,
    order: &Tiered<u32>,
    program: &[Insn],
    guess: Option<Guess>,
) -> Guess
    requires { IsOrder placed.now order.now.items }
    ensures { IsRank placed.now order.now.items program.now result.rank }
{
    match guess {
        Some(guess) => {
            let rank = rank_near(placed, order, program, guess.rank);
            Guess { rank, ..guess }
        }
        None => {
            let middle = order.len() / 2;
            Guess::of_rank(rank_from(placed, order, program, middle, order.len()))
        }
    }
}

/// How many of the ordered programs come before one, by a search that begins at a guess, which mostly is right.
pub(crate) fn rank_near(
    placed: &Placements,
    order: &Tiered<u32>,
    program: &[Insn],
    guess: usize,
) -> usize
    requires { IsOrder placed.now order.now.items }
    ensures { IsRank placed.now order.now.items program.now result }
{
    if is_between(placed, order, program, guess) {
        guess
    } else {
        rank_from(placed, order, program, guess, 1)
    }
}

/// The instructions of the program of a rank.
fn code_at<'a>(placed: &'a Placements, order: &Tiered<u32>, rank: usize) -> &'a [Insn]
    requires order { IsOrder placed.now order.now.items }
    requires within { rank < length order.now.items }
    ensures { (place : ℕ) × (slice_get order.now.items rank ≡ Some place) × (slice_get placed.now place ≡ Some result.now) }
{
    placed.at(*order.at(rank) as usize).verified().code()
}

/// Whether the programs on both sides of a rank show that a program has it.
// Both are fetched before one is compared, so that one wait for memory is not after the other.
fn is_between(placed: &Placements, order: &Tiered<u32>, program: &[Insn], rank: usize) -> bool
    requires { IsOrder placed.now order.now.items }
    ensures { IsTrue result → IsRank placed.now order.now.items program.now rank }
{
    if rank == 0 || rank >= order.len() {
        return false;
    }
    let before = code_at(placed, order, rank - 1);
    let after = code_at(placed, order, rank);
    program_order(before, program).is_lt() && !program_order(after, program).is_lt()
}

/// The same, by a search that begins at a guess. From there it goes on so far, then twice as far each time, until halves are less.
fn rank_from(
    placed: &Placements,
    order: &Tiered<u32>,
    program: &[Insn],
    guess: usize,
    stride: usize,
) -> usize
    requires { IsOrder placed.now order.now.items }
    ensures { IsRank placed.now order.now.items program.now result }
{
    let mut low = 0;
    let mut high = order.len();
    let mut far = stride;
    while low < high {
        let middle = probe(low, high, guess, far);
        far = far.saturating_mul(2);
        if program_order(code_at(placed, order, middle), program).is_lt() {
            low = middle + 1;
        } else {
            high = middle;
        }
    }
    low
}

/// The places of two programs of one's shape that are nearest to it in the order, as far as there are any.
#[derive(Clone, Copy)]
pub(crate) struct Near {
    pub(crate) first: Option<u32>,
    pub(crate) second: Option<u32>,
}

impl Near {
    /// One more, if there is one.
    fn and(self, place: Option<u32>) -> Near {
        if self.first.is_none() {
            Near {
                first: place,
                second: None,
            }
        } else if self.second.is_none() {
            Near {
                first: self.first,
                second: place,
            }
        } else {
            self
        }
    }
}

/// The places of programs of this one's shape, among the nearest to this one's rank. Those of the part that it may join count as such.
// Mostly they are neighbours. Others that ask for another kind of packet may lie between.
// Not in line: what it needs of the stack is free again before the deeper calls.
#[inline(never)]
pub(crate) fn near_to(
    placed: &Placements,
    order: &Tiered<u32>,
    rank: usize,
    program: &Verified,
    group: usize,
) -> Near
    requires { IsOrder placed.now order.now.items }
{
    let mut near = Near {
        first: None,
        second: None,
    };
    for distance in 0..NEAREST {
        if rank > distance {
            near = near.and(alike_at(placed, order, rank - 1 - distance, program, group));
        }
        let after = rank.saturating_add(distance);
        near = near.and(alike_at(placed, order, after, program, group));
        if near.second.is_some() {
            return near;
        }
    }
    near
}

/// The place of the program of this rank, if it is in this part or has this one's shape.
// To see where it runs takes less than to compare the two.
fn alike_at(
    placed: &Placements,
    order: &Tiered<u32>,
    rank: usize,
    program: &Verified,
    group: usize,
) -> Option<u32>
    requires { IsOrder placed.now order.now.items }
{
    if rank >= order.len() {
        return None;
    }
    let place = *order.at(rank);
    if placed.group_at(place) == group
        || are_one_shape(placed.at(place as usize).verified(), program)
    {
        Some(place)
    } else {
        None
    }
}

/// Takes a place out of the order, where it is first looked for by a guess, and gives it to the last, whose program has it then. Tells
/// where that one was.
// Not in line: what it needs of the stack is free again before the deeper calls.
#[inline(never)]
pub(crate) fn take_place(
    placed: &Placements,
    order: &mut Tiered<u32>,
    taken: u32,
    last: u32,
    guess: Guess,
) -> Guess
    requires order { IsOrder placed.now order.old.items }
    requires taken { taken < length placed.now }
    requires last { last < length placed.now }
    ensures { (rank : ℕ) × (slice_get order.old.items rank ≡ Some taken) × (order.new.items ≡ map (place_once_taken taken last) (remove order.old.items rank)) }
{
    let rank = rank_by(placed, order, taken, guess.rank);
    let mut moved = guess;
    if last != taken {
        moved = place_at(placed, order, last);
        order.set(moved.rank, taken);
    }
    order.remove(rank);
    moved
}

/// Whether a place is in the order at a rank.
fn is_at(order: &Tiered<u32>, rank: usize, place: u32) -> bool
    ensures { IsTrue result → slice_get order.now.items rank ≡ Some place }
{
    rank < order.len() && *order.at(rank) == place
}

/// Where a place is in the order: at a guess, which mostly is right, or else where it is found.
fn rank_by(placed: &Placements, order: &Tiered<u32>, place: u32, guess: usize) -> usize
    requires order { IsOrder placed.now order.now.items }
    requires within { place < length placed.now }
    ensures { slice_get order.now.items result ≡ Some place }
{
    if is_at(order, guess, place) {
        guess
    } else {
        place_at(placed, order, place).rank
    }
}

/// Where a place is in the order, and perhaps where its program is.
fn place_at(placed: &Placements, order: &Tiered<u32>, place: u32) -> Guess
    requires order { IsOrder placed.now order.now.items }
    requires within { place < length placed.now }
    ensures { slice_get order.now.items result.rank ≡ Some place }
{
    match order.as_slice() {
        Some(order) if order.len() <= FEW_PLACES => Guess::of_rank(rank_among(order, place)),
        _ => rank_past(placed, order, place),
    }
}

/// Where a place is in the order, found by its program: at a guess, or else past all that are less, and then on to the place.
fn rank_past(placed: &Placements, order: &Tiered<u32>, place: u32) -> Guess
    requires order { IsOrder placed.now order.now.items }
    requires within { place < length placed.now }
    ensures { slice_get order.now.items result.rank ≡ Some place }
{
    let code = placed.at(place as usize).verified().code();
    let guess = placed.guess(code, parts_to_ask(order));
    if let Some(guess) = guess {
        if is_at(order, guess.rank, place) {
            return guess;
        }
    }
    let first = seek_from(placed, order, code, guess);
    for rank in first.rank..order.len() {
        if *order.at(rank) == place {
            return Guess { rank, ..first };
        }
    }
    unreachable!()
}

/// Where a place is among these.
// By halving, and not by its program: to compare programs takes longer than to look at many places at once.
fn rank_among(order: &[u32], place: u32) -> usize
    requires { (rank : ℕ) × (slice_get order.now rank ≡ Some place) }
    ensures { slice_get order.now result ≡ Some place }
{
    let mut first = 0;
    let mut end = order.len();
    while end - first > 1 {
        let middle = first + (end - first) / 2;
        if is_among(order, first, middle, place) {
            end = middle;
        } else {
            first = middle;
        }
    }
    first
}

/// Whether a place is in the order from one rank to another.
// To the end whatever is found: so it takes several places at once.
fn is_among(order: &[u32], first: usize, end: usize, place: u32) -> bool
    requires first { first ≤ end }
    requires end { end ≤ length order.now }
    ensures found { IsTrue result → (rank : ℕ) × (rank < end) × (first ≤ rank) × (slice_get order.now rank ≡ Some place) }
    ensures none { IsFalse result → (rank : ℕ) → first ≤ rank → rank < end → slice_get order.now rank ≡ Some place → ⊥ }
{
    let mut found = false;
    for rank in first..end {
        if order[rank] == place {
            found = true;
        }
    }
    found
}
