//! What programs of one shape have alike.

ghost use Rattle.std.specs.Prelude.{◌≡◌, ◌+◌, ◌*◌, IsTrue, IsFalse};
ghost use Rattle.std.specs.declared.cmp.Ordering.TheVariants.{Equal};
ghost use Rattle.filter_group.specs.Order.{constant_alike, shape_cmp, shape_constant};
ghost use Rattle.filter_group.specs.Together.{AreOneShape};

use crate::kinds::differ_in_kind;
use bpf_insn::{Form, Insn};
use filter_verify::Verified;
use std::cmp::Ordering;

/// Programs that differ at more places share no group: each place has a column of constants, which takes more memory than two programs do.
pub(crate) const MOST_COLUMNS: usize = 64;

/// The constant of an instruction of this form, as far as programs of one shape have it alike. What a jump compares with may differ,
/// and so may a verdict above 0. So where they stand at one point they load the same, and where one returns 0 all do.
fn alike_in(form: Option<Form>, constant: u32) -> u32
    ensures { result ≡ constant_alike form constant }
{
    match form {
        Some(Form::JmpK { .. }) => 0,
        Some(Form::RetK { k }) => k.min(1),
        _ => constant,
    }
}

/// The constant of an instruction, as far as programs of one shape have it alike.
fn constant_of(insn: Insn) -> u32
    ensures { result ≡ shape_constant insn }
{
    alike_in(insn.form(), insn.k)
}

/// How two instructions are ordered, but for the constants that may differ in programs of one shape.
pub(crate) fn shape_order(a: Insn, b: Insn) -> Ordering
    ensures { result ≡ shape_cmp a b }
{
    a.code.cmp(&b.code).then(
        a.jt.cmp(&b.jt)
            .then(a.jf.cmp(&b.jf).then(constant_of(a).cmp(&constant_of(b)))),
    )
}

/// An instruction as one word.
#[inline(always)]
fn word_of(insn: Insn) -> u64
    ensures { result ≡ insn.code + 65536 * insn.jt + 16777216 * insn.jf + 4294967296 * insn.k }
{
    u64::from(insn.code)
        + 65_536 * u64::from(insn.jt)
        + 16_777_216 * u64::from(insn.jf)
        + 4_294_967_296 * u64::from(insn.k)
}

/// Whether two instructions are the same.
// By one comparison of words: one for each field takes three times as long.
#[inline(always)]
pub(crate) fn are_same(a: Insn, b: Insn) -> bool
    ensures same { IsTrue result → a ≡ b }
    ensures other { IsFalse result → a ≡ b → ⊥ }
{
    word_of(a) == word_of(b)
}

/// Whether two instructions differ at most in what may differ in programs of one shape.
pub(crate) fn is_alike(a: Insn, b: Insn) -> bool
    ensures same { IsTrue result → shape_cmp a b ≡ Equal }
    ensures other { IsFalse result → shape_cmp a b ≡ Equal → ⊥ }
    ensures fields { IsTrue result → (a.code ≡ b.code) × (a.jt ≡ b.jt) × (a.jf ≡ b.jf) }
{
    a.code == b.code && a.jt == b.jt && a.jf == b.jf && constant_of(a) == constant_of(b)
}

/// The same, for what most are that are compared: one instruction.
fn are_same_or_alike(a: Insn, b: Insn) -> bool
    ensures { IsTrue result → (a.code ≡ b.code) × (a.jt ≡ b.jt) × (a.jf ≡ b.jf) }
{
    are_same(a, b) || is_alike(a, b)
}

/// Whether two programs are of one shape: they load the same and end with verdict 0 at the same places, differ at most in what they
/// compare with and in their verdicts, not at too many places, and ask for one kind of packet.
pub(crate) fn are_one_shape(a: &Verified, b: &Verified) -> bool
    ensures { IsTrue result → AreOneShape a.now b.now }
{
    let code = a.code();
    let other = b.code();
    are_alike(code, other) && !differ_in_many(code, other) && !differ_in_kind(code, other)
}

/// Whether two programs differ at more places than a group has columns for.
fn differ_in_many(code: &[Insn], other: &[Insn]) -> bool {
    let count = code.len().min(other.len());
    if count <= MOST_COLUMNS {
        return false;
    }
    let mut left = MOST_COLUMNS;
    for place in 0..count {
        if code[place] != other[place] {
            if left == 0 {
                return true;
            }
            left -= 1;
        }
    }
    false
}

/// Whether the instructions of two programs differ at most in what may differ in programs of one shape.
fn are_alike(code: &[Insn], other: &[Insn]) -> bool
    ensures { IsTrue result → AreOneShape code.now other.now }
{
    if code.len() != other.len() {
        return false;
    }
    for place in 0..code.len() {
        if !are_same_or_alike(code[place], other[place]) {
            return false;
        }
    }
    true
}
