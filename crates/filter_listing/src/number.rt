//! Numbers.

ghost use Rattle.std.specs.Prelude.{◌≡◌, ◌≤◌, ◌<◌, ◌^◌, ℕ, IfOk, MatchOption, string_bytes};
ghost use Rattle.std.specs.Fmt.{decimal};
ghost use Rattle.filter_listing.specs.Image as image;
ghost use Rattle.filter_listing.specs.Number as spec;

use crate::word::is_word;
use std::alloc::{AllocError, Global};

/// The number that the digits write in a base, where all are digits and it is below 2^32.
fn in_base(digits: &[u8], base: u32) -> Option<u32>
    requires low { 2 ≤ base }
    requires high { base ≤ 16 }
    ensures { result ≡ spec.below_2_32 (spec.in_base base digits.now) }
{
    if digits.is_empty() {
        return None;
    }
    let mut value = 0u32;
    'digits: for byte in digits {
        let digit = char::from(*byte).to_digit(base)?;
        let next = u64::from(value) * u64::from(base) + u64::from(digit);
        if next > u64::from(u32::MAX) {
            return None;
        }
        value = next as u32;
    }
    Some(value)
}

/// The number below 2^32 that a word is in C, decimal or hexadecimal.
#[tactic(auto, unfolding(crate::specs::Number::literal))]
pub(crate) fn literal(word: &[u8]) -> Option<u32>
    ensures { result ≡ spec.literal word.now }
{
    if word.starts_with(b"0x") {
        return in_base(&word[2..], 16);
    }
    if word.len() > 1 && word[0] == b'0' {
        return None;
    }
    in_base(word, 10)
}

/// The number that is printed so in decimal digits.
pub(crate) fn decimal_of(alloc: Global, word: &[u8]) -> Result<Option<u32>, AllocError>
    ensures { IfOk result (λ found. MatchOption found ((n : ℕ) → n < 2 ^ 32 → word.now ≡ decimal n → ⊥) (λ n. word.now ≡ decimal n)) }
{
    let Some(number) = in_base(word, 10) else {
        return Ok(None);
    };
    let printed = format!(in alloc; "{number}")?;
    if !is_word(printed.as_bytes(), word) {
        return Ok(None);
    }
    Ok(Some(number))
}

/// A number in hexadecimal digits.
fn hexadecimal(alloc: Global, number: u32) -> Result<String, AllocError>
    ensures { IfOk result (λ text. string_bytes text ≡ image.hexadecimal number) }
{
    let text = format!(in alloc; "{number:x}")?;
    Ok(text)
}

/// The number that is printed so in hexadecimal digits.
pub(crate) fn hexadecimal_of(alloc: Global, word: &[u8]) -> Result<Option<u32>, AllocError>
    ensures { IfOk result (λ found. MatchOption found ((n : ℕ) → n < 2 ^ 32 → word.now ≡ image.hexadecimal n → ⊥) (λ n. word.now ≡ image.hexadecimal n)) }
{
    let Some(number) = in_base(word, 16) else {
        return Ok(None);
    };
    let printed = hexadecimal(alloc, number)?;
    if !is_word(printed.as_bytes(), word) {
        return Ok(None);
    }
    Ok(Some(number))
}

/// The number whose 32 bits C's `%d` prints so.
pub(crate) fn signed_of(alloc: Global, word: &[u8]) -> Result<Option<u32>, AllocError>
    ensures { IfOk result (λ found. MatchOption found ((n : ℕ) → n < 2 ^ 32 → word.now ≡ image.signed n → ⊥) (λ n. word.now ≡ image.signed n)) }
{
    match word.strip_prefix(b"-") {
        Some(digits) => match decimal_of(alloc, digits)? {
            Some(magnitude) => Ok(below_zero(magnitude)),
            None => Ok(None),
        },
        None => match decimal_of(alloc, word)? {
            Some(magnitude) => Ok(from_zero(magnitude)),
            None => Ok(None),
        },
    }
}

/// The 32 bits of a number below 0.
fn below_zero(magnitude: u32) -> Option<u32>
    ensures { result ≡ spec.below_zero magnitude }
{
    if magnitude == 0 || magnitude > 1 << 31 {
        return None;
    }
    Some(u32::MAX - magnitude + 1)
}

/// The 32 bits of a number that isn't below 0.
fn from_zero(magnitude: u32) -> Option<u32>
    ensures { result ≡ spec.from_zero magnitude }
{
    if magnitude < 1 << 31 {
        Some(magnitude)
    } else {
        None
    }
}
