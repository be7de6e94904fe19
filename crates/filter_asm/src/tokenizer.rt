//! A line as its tokens.

ghost use Rattle.std.specs.Prelude.{false, ◌≡◌, ◌==◌, ◌≤◌, ◌<◌, IfOk, MatchOption, length, take, slice_index};
ghost use Rattle.std.specs.List.{AllPass, position_or_len};
ghost use Rattle.bpf_insn.specs.Texts.{is_blank};
ghost use Rattle.filter_asm.specs.Token.{TokenAt, Tokens, begins_name, continues_name, continues, without_comment};
ghost use Rattle.filter_asm.specs.TokenKind.{kind_by};
ghost use Rattle.filter_asm.specs.Texts.{texts};

use crate::token::{Token, TokenKind};
use std::alloc::{AllocError, Global};

fn is_blank(byte: u8) -> bool
    ensures { result ≡ is_blank byte }
{
    byte == b' ' || byte == b'\t' || byte == b'\r'
}

fn begins_name(byte: u8) -> bool
    ensures { result ≡ begins_name byte }
{
    byte.is_ascii_alphabetic() || byte == b'_'
}

fn continues_name(byte: u8) -> bool
    ensures { result ≡ continues_name byte }
{
    byte.is_ascii_alphanumeric() || byte == b'_'
}

fn continues(first: u8, byte: u8) -> bool
    ensures { result ≡ continues first byte }
{
    if begins_name(first) {
        continues_name(byte)
    } else {
        first.is_ascii_digit() && byte.is_ascii_alphanumeric()
    }
}

/// How many blanks stand at the front.
fn blanks(bytes: &[u8]) -> usize
    ensures bound { result ≤ length bytes.now }
    ensures blank { AllPass is_blank (take result bytes.now) }
    ensures stops { result < length bytes.now → is_blank (slice_index bytes.now result) ≡ false }
{
    bytes.iter().take_while(|b| is_blank(**b)).count()
}

/// How many bytes after the first belong to its token.
fn continued(first: u8, more: &[u8]) -> usize
    ensures bound { result ≤ length more.now }
    ensures same { AllPass (continues first) (take result more.now) }
    ensures stops { result < length more.now → continues first (slice_index more.now result) ≡ false }
{
    more.iter().take_while(|b| continues(first, **b)).count()
}

fn kind_of(first: u8) -> TokenKind
    ensures { result ≡ kind_by first }
{
    if begins_name(first) {
        TokenKind::Name
    } else if first.is_ascii_digit() {
        TokenKind::Digits
    } else {
        TokenKind::Mark
    }
}

/// The first token, and the bytes after it.
fn next_token(bytes: &[u8]) -> Option<(Token<'_>, &[u8])>
    ensures { MatchOption result (AllPass is_blank bytes.now) (λ found. TokenAt bytes.now found.0.text.now found.1.now) }
{
    let start = blanks(bytes);
    if start == bytes.len() {
        return None;
    }
    let first = bytes[start];
    let len = 1 + continued(first, &bytes[start + 1..]);
    let (text, rest) = bytes[start..].split_at(len);
    let kind = kind_of(first);
    Some((Token { kind, text }, rest))
}

/// The tokens of a line that has no comment.
pub(crate) fn tokens(alloc: Global, bytes: &[u8]) -> Result<Vec<Token<'_>>, AllocError>
    ensures { IfOk result (λ v. Tokens (texts v.items) bytes.now) }
{
    let mut tokens = Vec::new(alloc);
    let mut rest = bytes;
    while let Some((token, after)) = next_token(rest) {
        tokens.push(token)?;
        rest = after;
    }
    Ok(tokens)
}

/// Where the byte stands first, or the length.
pub(crate) fn find(byte: u8, bytes: &[u8]) -> usize
    ensures place { result ≡ position_or_len (λ b. b == byte) bytes.now }
    ensures bound { result ≤ length bytes.now }
{
    bytes.iter().take_while(|b| **b != byte).count()
}

/// The line without its comment.
pub(crate) fn without_comment(line: &[u8]) -> &[u8]
    ensures { result.now ≡ without_comment line.now }
{
    &line[..find(b';', line)]
}
