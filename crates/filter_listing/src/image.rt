//! The lines of `tcpdump -d`.

ghost use Rattle.std.specs.Prelude.{◌≡◌, ◌+◌, ◌≤◌, ◌<◌, ◌^◌, ◌++◌, ◌∷◌, [], ℕ, IfOk, IfSome, MatchOption, IsTrue, true, false, string_bytes};
ghost use Rattle.bpf_insn.specs.declared.insn.Insn.{Insn as AnyInsn};
ghost use Rattle.bpf_insn.specs.Table.{InRange};
ghost use Rattle.bpf_insn.specs.declared.insn.TheConstants.{MAX_INSNS};
ghost use Rattle.std.specs.Fmt.{decimal};
ghost use Rattle.filter_listing.specs.Image as spec;
ghost use Rattle.line_words.specs.Words.{texts};

use crate::mnemonic::{Operand, row};
use crate::number::decimal_of;
use crate::operand::number_of;
use crate::word::is_word;
use bpf_insn::Insn;
use line_words::word_at;
use std::alloc::{AllocError, Global};

/// The highest code that is printed as an instruction.
const LAST_CODE: u16 = 0xb1;

/// The zeros before a place of fewer than three digits.
fn zeros(place: u32) -> &'static str
    ensures { result.now ≡ spec.zeros place }
{
    if place < 10 {
        "00"
    } else if place < 100 {
        "0"
    } else {
        ""
    }
}

/// What is printed before the instruction at a place.
fn label(alloc: Global, place: u32) -> Result<String, AllocError>
    ensures { IfOk result (λ text. string_bytes text ≡ spec.label place) }
{
    let front = zeros(place);
    let text = format!(in alloc; "({front}{place})")?;
    Ok(text)
}

/// How many instructions stand between a place and a target.
fn passed_over(place: u32, target: u32) -> Option<u8>
    requires { place < MAX_INSNS }
    ensures { MatchOption result ((n : ℕ) → n < 2 ^ 8 → target ≡ place + 1 + n → ⊥) (λ n. target ≡ place + 1 + n) }
{
    if target <= place {
        return None;
    }
    let over = target - place - 1;
    if over > 255 {
        return None;
    }
    Some(over as u8)
}

/// How many instructions after the one at a place the word names.
fn branch(alloc: Global, place: u32, word: &[u8]) -> Result<Option<u8>, AllocError>
    requires { place < MAX_INSNS }
    ensures { IfOk result (λ found. MatchOption found ((n : ℕ) → n < 2 ^ 8 → word.now ≡ decimal (place + 1 + n) → ⊥) (λ n. word.now ≡ decimal (place + 1 + n))) }
{
    match decimal_of(alloc, word)? {
        Some(target) => Ok(passed_over(place, target)),
        None => Ok(None),
    }
}

/// How many instructions the two branches at a place pass over.
fn branches(alloc: Global, place: u32, words: &[&[u8]]) -> Result<Option<(u8, u8)>, AllocError>
    requires { place < MAX_INSNS }
    ensures { IfOk result (λ found. MatchOption found ((jt jf : ℕ) → jt < 2 ^ 8 → jf < 2 ^ 8 → texts words.now ≡ spec.two_branches place jt jf → ⊥) (λ both. texts words.now ≡ spec.two_branches place both.0 both.1)) }
{
    if words.len() != 4 {
        return Ok(None);
    }
    if !is_word(word_at(words, 0), b"jt") {
        return Ok(None);
    }
    if !is_word(word_at(words, 2), b"jf") {
        return Ok(None);
    }
    let Some(first) = branch(alloc, place, word_at(words, 1))? else {
        return Ok(None);
    };
    let Some(second) = branch(alloc, place, word_at(words, 3))? else {
        return Ok(None);
    };
    Ok(Some((first, second)))
}

/// The instruction with this code that has no branches, where the words after its mnemonic are its operand.
fn plain(
    alloc: Global,
    code: u16,
    operand: Operand,
    place: u32,
    rest: &[&[u8]],
) -> Result<Option<Insn>, AllocError>
    requires { place < MAX_INSNS }
    ensures { IfOk result (λ found. MatchOption found ((k : ℕ) → k < 2 ^ 32 → texts rest.now ≡ spec.operand_words operand place k → ⊥)
        (λ insn. (insn.code ≡ code) × (texts rest.now ≡ spec.operand_words operand place insn.k)
        × ((insn.jt ≡ 0) × (insn.jf ≡ 0)) × (spec.has_number operand ≡ false → insn.k ≡ 0))) }
{
    match number_of(alloc, operand, place, rest)? {
        Some(k) => Ok(Some(Insn {
            code,
            jt: 0,
            jf: 0,
            k,
        })),
        None => Ok(None),
    }
}

/// The conditional jump with this code, where the words after its mnemonic are its operand and its branches.
fn tested(
    alloc: Global,
    code: u16,
    operand: Operand,
    place: u32,
    rest: &[&[u8]],
) -> Result<Option<Insn>, AllocError>
    requires { place < MAX_INSNS }
    ensures { IfOk result (λ found. MatchOption found ((insn : AnyInsn) → InRange insn → texts rest.now ≡ spec.operand_words operand place insn.k ++ spec.branch_words true place insn → ⊥)
        (λ insn. (insn.code ≡ code) × (texts rest.now ≡ spec.operand_words operand place insn.k ++ spec.branch_words true place insn)
        × (spec.has_number operand ≡ false → insn.k ≡ 0))) }
{
    if rest.len() < 4 {
        return Ok(None);
    }
    let (words, ends) = rest.split_at(rest.len() - 4);
    let Some((jt, jf)) = branches(alloc, place, ends)? else {
        return Ok(None);
    };
    let Some(k) = number_of(alloc, operand, place, words)? else {
        return Ok(None);
    };
    Ok(Some(Insn { code, jt, jf, k }))
}

/// The instruction with this code whose mnemonic and further words these are.
fn with_code(
    alloc: Global,
    code: u16,
    place: u32,
    word: &[u8],
    rest: &[&[u8]],
) -> Result<Option<Insn>, AllocError>
    requires { place < MAX_INSNS }
    ensures bare { IfOk result (λ found. IfSome found spec.IsBare) }
    ensures is { IfOk result (λ found. MatchOption found ((insn : AnyInsn) → insn.code ≡ code → spec.IsBody place (word.now ∷ texts rest.now) insn → ⊥) (spec.IsBody place (word.now ∷ texts rest.now))) }
{
    let Some((mnemonic, operand)) = row(code) else {
        return Ok(None);
    };
    if !is_word(word, mnemonic.word().as_bytes()) {
        return Ok(None);
    }
    if mnemonic.is_test() {
        tested(alloc, code, operand, place, rest)
    } else {
        plain(alloc, code, operand, place, rest)
    }
}

/// The instruction whose mnemonic and further words these are.
fn body(alloc: Global, place: u32, word: &[u8], rest: &[&[u8]]) -> Result<Option<Insn>, AllocError>
    requires { place < MAX_INSNS }
    ensures bare { IfOk result (λ found. IfSome found spec.IsBare) }
    ensures is { IfOk result (λ found. MatchOption found ((insn : AnyInsn) → spec.IsBody place (word.now ∷ texts rest.now) insn → ⊥) (spec.IsBody place (word.now ∷ texts rest.now))) }
{
    for code in 0..LAST_CODE + 1 {
        if let Some(insn) = with_code(alloc, code, place, word, rest)? {
            return Ok(Some(insn));
        }
    }
    Ok(None)
}

/// The instruction at a place whose line has these words.
pub(crate) fn image_insn(
    alloc: Global,
    place: u32,
    words: &[&[u8]],
) -> Result<Option<Insn>, AllocError>
    requires { place < MAX_INSNS }
    ensures bare { IfOk result (λ found. IfSome found spec.IsBare) }
    ensures is { IfOk result (λ found. MatchOption found ((insn : AnyInsn) → spec.IsImage place (texts words.now) insn → ⊥) (spec.IsImage place (texts words.now))) }
{
    let Some((first, more)) = words.split_first() else {
        return Ok(None);
    };
    let Some((word, rest)) = more.split_first() else {
        return Ok(None);
    };
    let label = label(alloc, place)?;
    if !is_word(first, label.as_bytes()) {
        return Ok(None);
    }
    body(alloc, place, word, rest)
}
