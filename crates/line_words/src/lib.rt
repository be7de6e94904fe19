//! The words of a line of text, which blanks part.
#![tactic(auto)]

ghost use Rattle.std.specs.Prelude.{◌≡◌, ◌≤◌, ◌==◌, length, IfOk};
ghost use Rattle.std.specs.List.{position_or_len, before_first, after_first};
ghost use Rattle.bpf_insn.specs.Texts.{words_of};
ghost use Rattle.bpf_insn.specs.Texts as spec;
ghost use Rattle.line_words.specs.Words.{texts};
ghost use Rattle.line_words.specs.Words as list;

use std::alloc::{AllocError, Global};

/// Whether the byte is a space, a tab or a carriage return.
pub fn is_blank(byte: u8) -> bool
    ensures { result ≡ spec.is_blank byte }
{
    byte == b' ' || byte == b'\t' || byte == b'\r'
}

/// The words of a line.
pub fn words(alloc: Global, line: &[u8]) -> Result<Vec<&[u8]>, AllocError>
    ensures { IfOk result (λ words. texts words.items ≡ words_of line.now) }
{
    line.split(|b| is_blank(*b))
        .filter(|w| !w.is_empty())
        .collect(alloc)
}

/// The word at a place, or no bytes where there is none.
pub fn word_at<'a>(words: &[&'a [u8]], place: usize) -> &'a [u8]
    ensures { result.now ≡ list.word_at (texts words.now) place }
{
    match words.get(place) {
        Some(word) => word,
        None => &[],
    }
}

/// Where the byte is first, or the length.
pub fn find(byte: u8, bytes: &[u8]) -> usize
    ensures place { result ≡ position_or_len (λ b. b == byte) bytes.now }
    ensures bound { result ≤ length bytes.now }
{
    bytes.iter().take_while(|b| **b != byte).count()
}

/// What is before the first such byte and after it; all and nothing, where there is none.
pub fn cut(byte: u8, bytes: &[u8]) -> (&[u8], &[u8])
    ensures before { result.0.now ≡ before_first (λ b. b == byte) bytes.now }
    ensures after { result.1.now ≡ after_first (λ b. b == byte) bytes.now }
{
    let end = find(byte, bytes);
    let (before, rest) = bytes.split_at(end);
    if rest.is_empty() {
        return (before, rest);
    }
    let (_, after) = bytes.split_at(end + 1);
    (before, after)
}
