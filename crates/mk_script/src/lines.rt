//! The lines of a script, and the statements that they make.

ghost use Rattle.std.specs.Prelude.{◌≡◌, ◌==◌, ◌+◌, ◌<◌, ◌^◌, length, IfOk};
ghost use Rattle.std.specs.List.{before_first, after_first};
ghost use Rattle.bpf_insn.specs.Texts.{words_of};
ghost use Rattle.mk_script.specs.Pieces.{BlockIs, PieceIs};
ghost use Rattle.mk_script.specs.Statements as spec;
ghost use Rattle.line_words.specs.Words.{texts};

use crate::words::{blanks, word_len};
use line_words::{cut, words};
use std::alloc::{AllocError, Global};

/// The first line, and what stands after its LF.
fn split_line(text: &[u8]) -> (&[u8], &[u8])
    ensures line { result.0.now ≡ before_first (λ b. b == 10) text.now }
    ensures rest { result.1.now ≡ after_first (λ b. b == 10) text.now }
{
    cut(b'\n', text)
}

/// Whether a line of these words is skipped.
pub(crate) fn is_skipped(words: &[&[u8]]) -> bool
    ensures { result ≡ spec.is_skipped (texts words.now) }
{
    let Some((word, _)) = words.split_first() else {
        return true;
    };
    let Some((first, _)) = word.split_first() else {
        return false;
    };
    *first == b'#'
}

fn opens_block(words: &[&[u8]]) -> bool
    ensures { result ≡ spec.opens_block (texts words.now) }
{
    let Some((word, _)) = words.split_first() else {
        return false;
    };
    *word == b"asm".as_slice()
}

/// Whether the line is an `end`.
fn is_end(line: &[u8]) -> bool
    ensures { result ≡ spec.is_end (words_of line.now) }
{
    let (_, word) = line.split_at(blanks(line));
    let (word, rest) = word.split_at(word_len(word));
    word == b"end".as_slice() && blanks(rest) == rest.len()
}

/// The lines of an `asm` block to its `end`: their text, how many lines they are with `end`, and what stands after it.
#[derive(Drop)]
struct Block<'a> {
    text: &'a [u8],
    lines: u32,
    rest: &'a [u8],
}

/// The block at the front of a text, where it has an end.
fn block_at(text: &[u8]) -> Option<Block<'_>>
    requires { length text.now < 2 ^ 32 }
    ensures { BlockIs text.now result }
{
    let mut rest = text;
    let mut lines = 0;
    while !rest.is_empty() {
        let (line, after) = split_line(rest);
        lines += 1;
        if is_end(line) {
            return Some(Block {
                text: &text[..text.len() - rest.len()],
                lines,
                rest: after,
            });
        }
        rest = after;
    }
    None
}

/// A line, with what belongs to it: the words, and the block where it is that of `asm` and has one.
#[derive(Drop)]
pub(crate) struct Piece<'a> {
    pub words: Vec<&'a [u8]>,
    pub line: &'a [u8],
    pub block: Option<&'a [u8]>,
    /// How many lines these are.
    pub lines: u32,
    /// What stands after them.
    pub rest: &'a [u8],
}

/// The first piece of a text.
pub(crate) fn first_piece(alloc: Global, text: &[u8]) -> Result<Piece<'_>, AllocError>
    requires some { 0 < length text.now }
    requires short { length text.now < 2 ^ 32 }
    ensures { IfOk result (λ piece. PieceIs text.now piece) }
{
    let (line, rest) = split_line(text);
    let words = words(alloc, line)?;
    if !opens_block(&words) {
        return Ok(Piece {
            words,
            line,
            block: None,
            lines: 1,
            rest,
        });
    }
    match block_at(rest) {
        Some(block) => Ok(Piece {
            words,
            line,
            block: Some(block.text),
            lines: block.lines + 1,
            rest: block.rest,
        }),
        None => Ok(Piece {
            words,
            line,
            block: None,
            lines: 1,
            rest: &[],
        }),
    }
}
