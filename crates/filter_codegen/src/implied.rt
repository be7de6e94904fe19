//! What one fact says of other tests.

ghost use Rattle.std.specs.Prelude.{true, false, ◌≡◌, ℕ, nat_le, None, Some, IfSome, IsTrue};
ghost use Rattle.bpf_insn.specs.declared.form.Test.TheVariants.{Equal};
ghost use Rattle.bpf_insn.specs.Machine.{Packet};
ghost use Rattle.filter_cond.specs.Means.{masked, passes, tested};
ghost use Rattle.filter_codegen.specs.Known.{comes_out};

use crate::graph::{same_check, same_load, same_mask, same_test};
use bpf_insn::Test;
use filter_cond::Check;

/// How a test came out, and the place of the facts before.
#[derive(Clone, Copy, Debug, PartialEq, Eq)]
pub struct Fact {
    pub check: Check,
    pub holds: bool,
    pub before: usize,
}

/// What a test says of a number.
fn passes_value(check: Check, value: u32) -> bool
    ensures { result ≡ passes check value }
{
    let Check {
        load: _,
        mask,
        test,
        value: operand,
    } = check;
    let bits = match mask {
        Some(mask) => value & mask,
        None => value,
    };
    match test {
        Test::Equal => bits == operand,
        Test::Greater => bits > operand,
        Test::GreaterOrEqual => bits >= operand,
        Test::AnyBit => bits & operand != 0,
    }
}

/// The test that comes out as the fact says is that a whole number is this one.
fn is_exact(fact: Fact) -> bool
    ensures { IsTrue result → (fact.holds ≡ true) × (fact.check.mask ≡ None) × (fact.check.test ≡ Equal) }
{
    fact.holds && same_mask(fact.check.mask, None) && same_test(fact.check.test, Test::Equal)
}

/// Whether bits that pass the one test fail the other, since they are compared with two numbers.
fn excludes(a: Check, b: Check) -> bool
    ensures { IsTrue result → (packet : Packet) → tested a packet ≡ Some true → tested b packet ≡ Some false }
{
    same_load(a.load, b.load)
        && same_mask(a.mask, b.mask)
        && same_test(a.test, Test::Equal)
        && same_test(b.test, Test::Equal)
        && a.value != b.value
}

/// The least number of which a test of order is true.
fn least(check: Check) -> Option<u64>
    ensures { IfSome result (λ low. (value : ℕ) → passes check value ≡ nat_le low (masked check.mask value)) }
{
    let value = check.value as u64;
    match check.test {
        Test::Greater => Some(value + 1),
        Test::GreaterOrEqual => Some(value),
        _ => None,
    }
}

/// How a test of the same bits must come out, where they are below this number, or at least it.
fn implied_by_order(check: Check, low: u64, above: bool) -> Option<bool>
    ensures { IfSome result (λ holds. (value : ℕ) → nat_le low (masked check.mask value) ≡ above → passes check value ≡ holds) }
{
    if let Some(other) = least(check) {
        if above && low >= other {
            return Some(true);
        }
        if !above && low <= other {
            return Some(false);
        }
        return None;
    }
    let value = check.value as u64;
    if same_test(check.test, Test::Equal) && above == (value < low) {
        return Some(false);
    }
    None
}

/// How a test of the same number must come out, where a test of order came out so.
fn implied_range(fact: Fact, check: Check) -> Option<bool>
    requires { fact.check.load ≡ check.load }
    ensures { IfSome result (λ holds. (packet : Packet) → comes_out (tested fact.check packet) fact.holds ≡ true → tested check packet ≡ Some holds) }
{
    if !same_mask(fact.check.mask, check.mask) {
        return None;
    }
    let low = least(fact.check)?;
    implied_by_order(check, low, fact.holds)
}

/// How a test must come out where a fact holds, if the fact says it.
pub fn implied(fact: Fact, check: Check) -> Option<bool>
    ensures { IfSome result (λ holds. (packet : Packet) → comes_out (tested fact.check packet) fact.holds ≡ true → tested check packet ≡ Some holds) }
{
    if same_check(fact.check, check) {
        return Some(fact.holds);
    }
    if !same_load(fact.check.load, check.load) {
        return None;
    }
    if is_exact(fact) {
        return Some(passes_value(check, fact.check.value));
    }
    if fact.holds && excludes(fact.check, check) {
        return Some(false);
    }
    implied_range(fact, check)
}
