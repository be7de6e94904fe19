//! Whether a plan still holds once a part has other members. To see that takes less than a new plan.

ghost use Rattle.std.specs.Prelude.{◌≡◌, ◌⊎◌, ◌≤◌, List, ℕ, IfSome, IsTrue, Some, length};
ghost use Rattle.bpf_insn.specs.Machine.{Packet};
ghost use Rattle.filter_group.specs.Placed.{Placed};
ghost use Rattle.filter_group.specs.Planning.{GoesOn, GoOn, HasOther, HasStart, IsPlan, StillServes, StillServesSecond};
ghost use Rattle.filter_group.specs.Together.{EndAll};

use crate::part::Part;
use crate::plan::{Branch, Plan, Second};
use crate::start::{Ahead, Start, advanced};

/// The start that a list has of a part, if it has one.
fn start_of(starts: &[Start], group: usize) -> Option<Start>
    ensures { HasStart starts.now group result }
{
    for place in 0..starts.len() {
        if starts[place].part == group {
            return Some(starts[place]);
        }
    }
    None
}

/// Whether two starts are the same, or neither is there.
fn are_same(a: Option<Start>, b: Option<Start>) -> bool
    ensures { IsTrue result → a ≡ b }
{
    match (a, b) {
        (None, None) => true,
        (Some(a), Some(b)) => {
            a.part == b.part && a.pc == b.pc && a.steps == b.steps && a.last == b.last
        }
        _ => false,
    }
}

/// Whether a list has this start of a part, or none.
fn has_start(starts: &[Start], group: usize, start: Option<Start>) -> bool
    ensures { IsTrue result → HasStart starts.now group start }
{
    are_same(start_of(starts, group), start)
}

/// Whether a list has one of two starts of a part, where the first may be none.
fn has_either(starts: &[Start], group: usize, next: Option<Start>, start: Start) -> bool
    ensures { IsTrue result → HasStart starts.now group next ⊎ HasStart starts.now group (Some start) }
{
    has_start(starts, group, next) || has_start(starts, group, Some(start))
}

impl Second {
    /// Whether the list of each case still fits once a part has these members, which go on at a start.
    fn holds_with(&self, part: &Part, group: usize, start: Start) -> bool
        requires few { start.steps ≤ start.pc }
        ensures { IsTrue result → (packet : Packet) (values : List ℕ) → length values ≡ 2 → GoOn part.now packet values start
            → StillServesSecond part.now group packet values self.now }
    {
        let ahead = Ahead::of(part, start.pc);
        let mut left = usize::MAX;
        for case in 0..self.lists.len() {
            let next = advanced(
                part,
                start,
                &ahead,
                self.field,
                &self.constants,
                case,
                2,
                &mut left,
            );
            if !has_either(&self.lists[case], group, next, start) {
                return false;
            }
        }
        true
    }

    /// Whether no list has a start of a part.
    fn is_without(&self, group: usize) -> bool
        ensures { IsTrue result → (part : Placed) (packet : Packet) (values : List ℕ) → EndAll part.members packet 0 (length part.members) 0
            → StillServesSecond part group packet values self.now }
    {
        for case in 0..self.lists.len() {
            if !has_start(&self.lists[case], group, None) {
                return false;
            }
        }
        true
    }
}

impl Branch {
    /// Whether all lists still fit once a part has these members, which go on at a start, or all end with verdict 0.
    fn holds_with(&self, part: &Part, group: usize, start: Option<Start>) -> bool
        requires few { IfSome start (λ s. s.steps ≤ s.pc) }
        ensures { IsTrue result → (packet : Packet) (values : List ℕ) → length values ≡ 2 → GoesOn part.now packet values start
            → StillServes part.now group packet values self.now }
    {
        if !has_start(&self.starts, group, start) {
            return false;
        }
        match &self.second {
            None => true,
            Some(second) => match start {
                None => second.is_without(group),
                Some(start) => second.holds_with(part, group, start),
            },
        }
    }
}

impl Branch {
    /// The same where the members go on at a start, which are known to go on further or to end with verdict 0. The plan may have them at
    /// either.
    fn holds_at(&self, part: &Part, group: usize, start: Start, next: Option<Start>) -> bool
        requires few { start.steps ≤ start.pc }
        requires next { IfSome next (λ s. s.steps ≤ s.pc) }
        ensures { IsTrue result → (packet : Packet) (values : List ℕ) → length values ≡ 2 → GoesOn part.now packet values next → GoOn part.now packet values start
            → StillServes part.now group packet values self.now }
    {
        self.holds_with(part, group, next) || self.holds_with(part, group, Some(start))
    }
}

impl Plan {
    /// Whether it still holds once the part of this number has these members, with the same members in all others.
    pub(crate) fn holds_with(&self, part: &Part, group: usize) -> bool
        ensures { IsTrue result → (before parts : List Placed) → HasOther before parts group part.now → IsPlan before self.now → IsPlan parts self.now }
    {
        if group >= self.count {
            return true;
        }
        let opening = Start::opening(group);
        if !has_start(&self.starts, group, Some(opening)) {
            return false;
        }
        let ahead = Ahead::of(part, 0);
        let mut left = usize::MAX;
        for case in 0..self.branches.len() {
            let next = advanced(
                part,
                opening,
                &ahead,
                self.field,
                &self.constants,
                case,
                1,
                &mut left,
            );
            if !self.branches[case].holds_at(part, group, opening, next) {
                return false;
            }
        }
        true
    }
}
