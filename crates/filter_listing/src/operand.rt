//! The operands of a listing.

ghost use Rattle.std.specs.Prelude.{◌≡◌, ◌<◌, ◌^◌, ◌++◌, ◌∷◌, [], ℕ, List, IfOk, IfSome, MatchOption, codes, false};
ghost use Rattle.filter_listing.specs.Image as spec;
ghost use Rattle.line_words.specs.Words.{texts};

use crate::mnemonic::Operand;
use crate::number::{hexadecimal_of, signed_of};
use crate::word::is_word;
use std::alloc::{AllocError, Global};

/// What stands between two texts that a word begins and ends with.
fn between<'a>(word: &'a [u8], before: &[u8], after: &[u8]) -> Option<&'a [u8]>
    ensures { MatchOption result ((middle : List ℕ) → word.now ≡ before.now ++ middle ++ after.now → ⊥) (λ middle. word.now ≡ before.now ++ middle.now ++ after.now) }
{
    match word.strip_prefix(before) {
        Some(rest) => rest.strip_suffix(after),
        None => None,
    }
}

/// The number that a word prints between two texts, as C's `%d`.
fn signed_between(
    alloc: Global,
    word: &[u8],
    before: &[u8],
    after: &[u8],
) -> Result<Option<u32>, AllocError>
    ensures { IfOk result (λ found. MatchOption found ((k : ℕ) → k < 2 ^ 32 → word.now ≡ before.now ++ spec.signed k ++ after.now → ⊥) (λ k. word.now ≡ before.now ++ spec.signed k ++ after.now)) }
{
    match between(word, before, after) {
        Some(middle) => signed_of(alloc, middle),
        None => Ok(None),
    }
}

/// The number that a word prints after `#0x`.
fn hexadecimal_after(alloc: Global, word: &[u8]) -> Result<Option<u32>, AllocError>
    ensures { IfOk result (λ found. MatchOption found ((k : ℕ) → k < 2 ^ 32 → word.now ≡ codes "#0x" ++ spec.hexadecimal k → ⊥) (λ k. word.now ≡ codes "#0x" ++ spec.hexadecimal k)) }
{
    match word.strip_prefix(b"#0x") {
        Some(digits) => hexadecimal_of(alloc, digits),
        None => Ok(None),
    }
}

/// The distance of a jump from a place to the one that the word prints.
fn distance(alloc: Global, word: &[u8], place: u32) -> Result<Option<u32>, AllocError>
    requires { place < 4096 }
    ensures { IfOk result (λ found. MatchOption found ((k : ℕ) → k < 2 ^ 32 → word.now ∷ [] ≡ spec.operand_words Operand.Target place k → ⊥) (λ k. word.now ∷ [] ≡ spec.operand_words Operand.Target place k)) }
{
    let target = signed_of(alloc, word)?;
    match target {
        Some(target) => Ok(Some(target.wrapping_sub(place + 1))),
        None => Ok(None),
    }
}

/// The number of an operand that is one word.
fn number_in_word(
    alloc: Global,
    operand: Operand,
    place: u32,
    word: &[u8],
) -> Result<Option<u32>, AllocError>
    requires { place < 4096 }
    ensures number { IfOk result (λ found. MatchOption found ((k : ℕ) → k < 2 ^ 32 → word.now ∷ [] ≡ spec.operand_words operand place k → ⊥) (λ k. word.now ∷ [] ≡ spec.operand_words operand place k)) }
    ensures bare { spec.has_number operand ≡ false → IfOk result (λ found. IfSome found (λ k. k ≡ 0)) }
{
    match operand {
        Operand::Nothing | Operand::Indexed => Ok(None),
        Operand::Index => Ok(is_word(word, b"x").then_some(0)),
        Operand::PacketLength => Ok(is_word(word, b"#pktlen").then_some(0)),
        Operand::Number => signed_between(alloc, word, b"#", b""),
        Operand::Hexadecimal => hexadecimal_after(alloc, word),
        Operand::Absolute => signed_between(alloc, word, b"[", b"]"),
        Operand::Memory => signed_between(alloc, word, b"M[", b"]"),
        Operand::HeaderLength => signed_between(alloc, word, b"4*([", b"]&0xf)"),
        Operand::Target => distance(alloc, word, place),
    }
}

/// The number of an operand that is three words.
fn number_in_three(
    alloc: Global,
    operand: Operand,
    first: &[u8],
    second: &[u8],
    word: &[u8],
) -> Result<Option<u32>, AllocError>
    ensures bare { spec.has_number operand ≡ false → IfOk result (λ found. IfSome found (λ k. k ≡ 0)) }
    ensures number { IfOk result (λ found. MatchOption found ((k : ℕ) → (place : ℕ) → k < 2 ^ 32 → first.now ∷ second.now ∷ word.now ∷ [] ≡ spec.operand_words operand place k → ⊥)
        (λ k. (place : ℕ) → first.now ∷ second.now ∷ word.now ∷ [] ≡ spec.operand_words operand place k)) }
{
    if operand != Operand::Indexed {
        return Ok(None);
    }
    if !is_word(first, b"[x") || !is_word(second, b"+") {
        return Ok(None);
    }
    signed_between(alloc, word, b"", b"]")
}

/// The number of an operand of this kind at a place, where the words are one; 0 where it has none.
pub(crate) fn number_of(
    alloc: Global,
    operand: Operand,
    place: u32,
    words: &[&[u8]],
) -> Result<Option<u32>, AllocError>
    requires { place < 4096 }
    ensures number { IfOk result (λ found. MatchOption found ((k : ℕ) → k < 2 ^ 32 → texts words.now ≡ spec.operand_words operand place k → ⊥) (λ k. texts words.now ≡ spec.operand_words operand place k)) }
    ensures bare { spec.has_number operand ≡ false → IfOk result (λ found. IfSome found (λ k. k ≡ 0)) }
{
    match words {
        [] => Ok((operand == Operand::Nothing).then_some(0)),
        [word] => number_in_word(alloc, operand, place, word),
        [first, second, word] => number_in_three(alloc, operand, first, second, word),
        _ => Ok(None),
    }
}
