//! The lines of `tcpdump -dd`.

ghost use Rattle.std.specs.Prelude.{◌≡◌, ◌⊎◌, length, IsTrue, IfOk, MatchOption, codes, Some};
ghost use Rattle.bpf_insn.specs.Table.{InRange};
ghost use Rattle.bpf_insn.specs.declared.insn.Insn.{Insn as AnyInsn};
ghost use Rattle.filter_listing.specs.Initializer as spec;
ghost use Rattle.filter_listing.specs.Number as number;
ghost use Rattle.line_words.specs.Words.{texts};
ghost use Rattle.line_words.specs.Words as list;

use crate::number::literal;
use crate::word::is_word;
use bpf_insn::Insn;
use line_words::word_at;
use std::alloc::{AllocError, Global};

/// Whether a byte is a brace or a comma.
fn is_mark(byte: u8) -> bool
    ensures { result ≡ spec.is_mark byte }
{
    byte == b'{' || byte == b'}' || byte == b','
}

/// The line with a space on either side of its marks.
pub(crate) fn spaced(alloc: Global, line: &[u8]) -> Result<Vec<u8>, AllocError>
    ensures { IfOk result (λ text. text.items ≡ spec.spaced line.now) }
{
    let mut text = Vec::new(alloc);
    for byte in line {
        if is_mark(*byte) {
            text.push(b' ')?;
            text.push(*byte)?;
            text.push(b' ')?;
        } else {
            text.push(*byte)?;
        }
    }
    Ok(text)
}

/// The instruction of four numbers.
fn fields(code: &[u8], jt: &[u8], jf: &[u8], k: &[u8]) -> Option<Insn>
    ensures { MatchOption result ((insn : AnyInsn) → InRange insn → number.literal code.now ≡ Some insn.code → number.literal jt.now ≡ Some insn.jt → number.literal jf.now ≡ Some insn.jf → number.literal k.now ≡ Some insn.k → ⊥)
        (λ insn. InRange insn × (number.literal code.now ≡ Some insn.code) × (number.literal jt.now ≡ Some insn.jt) × (number.literal jf.now ≡ Some insn.jf) × (number.literal k.now ≡ Some insn.k)) }
{
    let code = literal(code)?;
    let jt = literal(jt)?;
    let jf = literal(jf)?;
    let k = literal(k)?;
    Some(Insn {
        code: u16::try_from(code).ok()?,
        jt: u8::try_from(jt).ok()?,
        jf: u8::try_from(jf).ok()?,
        k,
    })
}

/// Whether the words end after the brace, or after a comma that follows it.
fn is_ended(words: &[&[u8]]) -> bool
    ensures yes { IsTrue result → (length (texts words.now) ≡ 9) ⊎ ((length (texts words.now) ≡ 10) × (list.word_at (texts words.now) 9 ≡ codes ",")) }
    ensures no { (length (texts words.now) ≡ 9) ⊎ ((length (texts words.now) ≡ 10) × (list.word_at (texts words.now) 9 ≡ codes ",")) → IsTrue result }
{
    if words.len() == 9 {
        return true;
    }
    if words.len() != 10 {
        return false;
    }
    is_word(word_at(words, 9), b",")
}

/// Whether the marks of an initializer stand among the words.
fn has_marks(words: &[&[u8]]) -> bool
    ensures yes { IsTrue result → spec.HasMarks (texts words.now) }
    ensures no { spec.HasMarks (texts words.now) → IsTrue result }
{
    if !is_word(word_at(words, 0), b"{") {
        return false;
    }
    if !is_word(word_at(words, 2), b",") {
        return false;
    }
    if !is_word(word_at(words, 4), b",") {
        return false;
    }
    if !is_word(word_at(words, 6), b",") {
        return false;
    }
    if !is_word(word_at(words, 8), b"}") {
        return false;
    }
    is_ended(words)
}

/// The instruction whose tokens these are.
pub(crate) fn initializer_insn(words: &[&[u8]]) -> Option<Insn>
    ensures { MatchOption result ((insn : AnyInsn) → spec.IsInitializer (texts words.now) insn → ⊥) (spec.IsInitializer (texts words.now)) }
{
    if !has_marks(words) {
        return None;
    }
    let code = word_at(words, 1);
    let jt = word_at(words, 3);
    let jf = word_at(words, 5);
    let k = word_at(words, 7);
    fields(code, jt, jf, k)
}
