//! Numbers in decimal digits.

ghost use Rattle.std.specs.Prelude.{◌≡◌, ℕ, ◌^◌, ◌≤◌, min, Some, None, MatchOption, IfOk};
ghost use Rattle.bpf_insn.specs.Texts.{number_of};
ghost use Rattle.mk_script.specs.Words as spec;

use crate::fault::ScriptFaultKind;
use endpoint_caps::MOST_LISTED;

/// More than any number of a script's fields: what greater numbers are read as.
pub(crate) const HUGE: u128 = 18_446_744_073_709_551_616;

/// The number that a word of digits writes, or `HUGE` where that is less.
pub(crate) fn number(word: &[u8]) -> Option<u128>
    ensures { MatchOption result (number_of word.now ≡ None)
        (λ n. (m : ℕ) × (number_of word.now ≡ Some m) × (n ≡ min m 18446744073709551616)) }
{
    if word.is_empty() {
        return None;
    }
    let mut value = 0u128;
    for digit in word {
        if !digit.is_ascii_digit() {
            return None;
        }
        value = (value * 10 + u128::from(*digit - b'0')).min(HUGE);
    }
    Some(value)
}

/// A number below a limit.
fn number_below(limit: u128, word: &[u8]) -> Result<u128, ScriptFaultKind>
    requires { limit ≤ 18446744073709551616 }
    ensures { result ≡ spec.number_below limit word.now }
{
    match number(word) {
        Some(n) if n < limit => Ok(n),
        _ => Err(ScriptFaultKind::BadNumber),
    }
}

/// A number of 16 bits, below a limit.
pub(crate) fn number16_below(limit: u32, word: &[u8]) -> Result<u16, ScriptFaultKind>
    requires { limit ≤ 2 ^ 16 }
    ensures { result ≡ spec.number_below limit word.now }
{
    let n = number_below(u128::from(limit), word)?;
    Ok(n as u16)
}

/// A number of 16 bits.
pub(crate) fn number16(word: &[u8]) -> Result<u16, ScriptFaultKind>
    ensures { result ≡ spec.number_below (2 ^ 16) word.now }
{
    number16_below(1 << 16, word)
}

/// A number of 32 bits.
pub(crate) fn number32(word: &[u8]) -> Result<u32, ScriptFaultKind>
    ensures { result ≡ spec.number_below (2 ^ 32) word.now }
{
    let n = number_below(1 << 32, word)?;
    Ok(n as u32)
}

/// A number of 64 bits.
pub(crate) fn number64(word: &[u8]) -> Result<u64, ScriptFaultKind>
    ensures { result ≡ spec.number_below (2 ^ 64) word.now }
{
    let n = number_below(HUGE, word)?;
    Ok(n as u64)
}

/// How many capabilities or filters there may be at most, from 1.
pub(crate) fn most_listed(word: &[u8]) -> Result<u32, ScriptFaultKind>
    ensures is { result ≡ spec.number_up_to 65536 word.now }
    ensures some { IfOk result (λ n. 1 ≤ n) }
    ensures few { IfOk result (λ n. n ≤ 65536) }
{
    match number(word) {
        Some(n) if 1 <= n && n <= u128::from(MOST_LISTED) => Ok(n as u32),
        _ => Err(ScriptFaultKind::BadNumber),
    }
}
