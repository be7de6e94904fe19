//! A program's place among the members of a group, by their constants.

ghost use Rattle.std.specs.Prelude.{◌<◌, ◌≤◌, length};

use crate::answers::Slot;
use bpf_insn::Insn;
use tiered::Tiered;

/// Among more constants than this a search begins where a number would be if they rose evenly.
const MANY: usize = 64;

/// So far from there it looks next, about as much as is fetched with one constant.
const NEAR: usize = 8;

/// Members in a row.
#[derive(Clone, Copy)]
struct Span {
    first: usize,
    end: usize,
}

/// Where a search looks next: at its guess, or so far from what it has ruled out towards there, but no farther than half of what is left.
pub(crate) fn probe(low: usize, high: usize, guess: usize, far: usize) -> usize
    requires { low < high }
    ensures low { low ≤ result }
    ensures high { result < high }
{
    let half = low + (high - low) / 2;
    if guess < low {
        half.min(low.saturating_add(far))
    } else if guess < high {
        guess
    } else {
        half.max((high - 1).saturating_sub(far))
    }
}

/// Where a number would be among some constants if they rose evenly.
fn even_place(constants: &Tiered<u32>, k: u32, first: usize, end: usize) -> usize
    requires order { first < end }
    requires end { end ≤ length constants.now.items }
{
    let least = *constants.at(first);
    let most = *constants.at(end - 1);
    if k <= least {
        return first;
    }
    if k >= most {
        return end - 1;
    }
    let share = u64::from(k - least).saturating_mul((end - first) as u64) / u64::from(most - least);
    first.saturating_add(share as usize)
}

/// Before which of some constants that rise a number goes: the first that is at least that.
// Among many the search begins where it would be if they rose evenly, and goes on from there: what it looks at lies closer together then.
fn first_from(constants: &Tiered<u32>, k: u32, first: usize, end: usize) -> usize
    requires order { first ≤ end }
    requires end { end ≤ length constants.now.items }
    ensures first { first ≤ result }
    ensures within { result ≤ end }
{
    let mut low = first;
    let mut high = end;
    let (guess, mut far) = if end - first > MANY {
        (even_place(constants, k, first, end), NEAR)
    } else {
        (end, end)
    };
    while low < high {
        let middle = probe(low, high, guess, far);
        far = far.saturating_mul(2);
        if *constants.at(middle) < k {
            low = middle + 1;
        } else {
            high = middle;
        }
    }
    low
}

/// Past which of some constants that rise a number goes, the first of them that number.
// Mostly no other is: so the next one is looked at first.
fn past_all(constants: &Tiered<u32>, k: u32, first: usize, end: usize) -> usize
    requires first { first < end }
    requires end { end ≤ length constants.now.items }
    ensures first { first ≤ result }
    ensures within { result ≤ end }
{
    let next = first + 1;
    if next == end || *constants.at(next) != k {
        return next;
    }
    if k == u32::MAX {
        return end;
    }
    first_from(constants, k + 1, next, end)
}

/// Those of some members that have a number as their constant, which rise. If there are none, an empty span where one would be.
fn having(constants: &Tiered<u32>, k: u32, among: Span) -> Span
    ensures first { result.first ≤ result.end }
    ensures within { result.end ≤ among.end }
{
    let end = among.end.min(constants.len());
    let first = first_from(constants, k, among.first.min(end), end);
    if first < end && *constants.at(first) == k {
        Span {
            first,
            end: past_all(constants, k, first, end),
        }
    } else {
        Span { first, end: first }
    }
}

/// Past how many members a program goes in the order of constants, of which these are all that differ.
// A column at a time: constants lie side by side, and programs anywhere.
pub(crate) fn rank_among(slots: &[Slot], program: &[Insn], count: usize) -> usize
    ensures { result ≤ count }
{
    let mut among = Span {
        first: 0,
        end: count,
    };
    for n in 0..slots.len() {
        let slot = &slots[n];
        if among.first == among.end || slot.place >= program.len() {
            return among.first;
        }
        among = having(&slot.constants, program[slot.place].k, among);
    }
    among.first
}
