//! The tests for equality of programs of one shape.

ghost use Rattle.std.specs.Prelude.{◌≡◌, ◌+◌, ◌<◌, ◌≤◌, ℕ, List, IfOk, IsTrue, Some, length, slice_get};
ghost use Rattle.bpf_insn.specs.Program.{FormAt};
ghost use Rattle.filter_group.specs.declared.answers.Slot.{Slot as AnySlot};
ghost use Rattle.filter_group.specs.Answers.{IsRising};
ghost use Rattle.filter_group.specs.Changes.{AllRise};
ghost use Rattle.filter_group.specs.Equalities.{AreEqualitiesOf, AreMarked, AreNarrower, AreWider, IsBetween, IsEqualityOf, IsMarked, IsNarrower, IsWider};

use crate::answers::Slot;
use bpf_insn::{Form, Insn, Test};
use std::alloc::{AllocError, Global};

/// What is known of a test for equality at a place of some programs, which differ at most in its constant.
#[derive(Clone, Copy)]
pub(crate) struct Equality {
    /// Whether there is one.
    pub(crate) is_there: bool,
    pub(crate) jt: u8,
    pub(crate) jf: u8,
    /// Whether a run in which it fails surely ends with verdict 0 by the next instruction.
    pub(crate) is_silent: bool,
    /// No program's constant is less. That of one that is gone may be meant still, where constants don't all rise.
    pub(crate) least: u32,
    /// No program's constant is greater, in the same way.
    pub(crate) most: u32,
}

impl Equality {
    /// Whether the test surely fails in all programs.
    #[inline(always)]
    pub(crate) fn excludes(self, a: u32) -> bool
        ensures { IsTrue result → IsBetween self a → ⊥ }
    {
        a < self.least || self.most < a
    }

    /// The same where a constant more may be.
    fn with(self, k: u32) -> Equality
        ensures { IsWider self k result }
    {
        Equality {
            least: self.least.min(k),
            most: self.most.max(k),
            ..self
        }
    }

    /// The same where constants that all rise are all that may be.
    fn within(self, slot: &Slot) -> Equality
        requires { IsRising slot.now }
        ensures { (marks : List ℕ) (slots : List AnySlot) (pc n : ℕ) → slice_get marks pc ≡ Some (n + 1) → slice_get slots n ≡ Some slot.now → IsNarrower marks slots pc self result }
    {
        let count = slot.constants.len();
        if count == 0 || !slot.all_rise() {
            return self;
        }
        Equality {
            least: *slot.constants.at(0),
            most: *slot.constants.at(count - 1),
            ..self
        }
    }

    /// The same of programs with other marks, of which this is one.
    fn marked(self, code: &[Insn], marks: &[usize], pc: usize) -> Equality
        requires { pc < length code.now }
        ensures { IsMarked self code.now marks.now pc result }
    {
        let is_silent = returns_zero(code, marks, pc + 1 + usize::from(self.jf));
        Equality { is_silent, ..self }
    }
}

/// Nothing is known.
const UNKNOWN: Equality = Equality {
    is_there: false,
    jt: 0,
    jf: 0,
    is_silent: false,
    least: 0,
    most: 0,
};

/// Whether a program returns 0 at a place where its mark is 0.
fn returns_zero(code: &[Insn], marks: &[usize], pc: usize) -> bool
    ensures { IsTrue result → (slice_get marks.now pc ≡ Some 0) × FormAt code.now pc (Form.RetK 0) }
{
    if pc >= code.len() || pc >= marks.len() || marks[pc] > 0 {
        return false;
    }
    match code[pc].form_in_place() {
        Some(Form::RetK { k: 0 }) => true,
        _ => false,
    }
}

/// What is known of a test for equality at a place.
fn equality_at(code: &[Insn], marks: &[usize], pc: usize) -> Equality
    requires { pc < length code.now }
    ensures { IsEqualityOf code.now marks.now pc result }
{
    match code[pc].form_in_place() {
        Some(
            Form::JmpK {
                test: Test::Equal,
                jt,
                jf,
                k,
            },
        ) => Equality {
            is_there: true,
            jt,
            jf,
            is_silent: returns_zero(code, marks, pc + 1 + usize::from(jf)),
            least: k,
            most: k,
        },
        _ => UNKNOWN,
    }
}

/// What is known of tests for equality at each place of a program with these marks.
// Not in line: what it needs of the stack is free again before the deeper calls.
#[inline(never)]
pub(crate) fn equalities_of(
    alloc: Global,
    code: &[Insn],
    marks: &[usize],
) -> Result<Vec<Equality>, AllocError>
    ensures { IfOk result (λ found. AreEqualitiesOf code.now marks.now found.items) }
{
    let mut found = Vec::with_capacity(alloc, code.len())?;
    for pc in 0..code.len() {
        found.push(equality_at(code, marks, pc))?;
    }
    Ok(found)
}

/// The same tests of programs with other marks, of which this is one.
pub(crate) fn marked_anew(
    alloc: Global,
    equalities: &[Equality],
    code: &[Insn],
    marks: &[usize],
) -> Result<Vec<Equality>, AllocError>
    requires { length equalities.now ≤ length code.now }
    ensures { IfOk result (λ found. AreMarked equalities.now found.items code.now marks.now) }
{
    let mut found = Vec::with_capacity(alloc, equalities.len())?;
    for pc in 0..equalities.len() {
        found.push(equalities[pc].marked(code, marks, pc))?;
    }
    Ok(found)
}

/// The same tests, which may have the constants of a program more. Takes no memory.
pub(crate) fn widen(equalities: &mut [Equality], code: &[Insn])
    requires { length equalities.old ≤ length code.now }
    ensures { AreWider equalities.old equalities.new code.now }
{
    for pc in 0..equalities.len() {
        if equalities[pc].is_there {
            equalities[pc] = equalities[pc].with(code[pc].k);
        }
    }
}

/// What is known of a test for equality at a place once members may be gone.
fn narrowed(equality: Equality, marks: &[usize], slots: &[Slot], pc: usize) -> Equality
    requires { AllRise slots.now }
    ensures { IsNarrower marks.now slots.now pc equality result }
{
    if !equality.is_there || pc >= marks.len() || marks[pc] == 0 || marks[pc] > slots.len() {
        return equality;
    }
    equality.within(&slots[marks[pc] - 1])
}

/// The same tests once members are gone, of whose slots these are: where constants all rise, the test is known to have just these. Takes
/// no memory.
pub(crate) fn narrow(equalities: &mut [Equality], marks: &[usize], slots: &[Slot])
    requires { AllRise slots.now }
    ensures { AreNarrower marks.now slots.now equalities.old equalities.new }
{
    for pc in 0..equalities.len() {
        equalities[pc] = narrowed(equalities[pc], marks, slots, pc);
    }
}
