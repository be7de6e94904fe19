//! Faults as lines for people.

ghost use Rattle.std.specs.Prelude.{◌≡◌, ◌++◌, map, replicate, IfOk, OnOk};
ghost use Rattle.filter_expr.specs.Messages as spec;

use crate::fault::CompileFault;
use expr_parse::ExprFaultKind;
use expr_words::{Refusal, WordFaultKind};
use std::alloc::{AllocError, Global};

/// What is wrong, and where: a line `column C: WORDS`, the text, and a line with marks below what is meant. A byte of the text that
/// is no printable ASCII is shown as `?`. A fault of the whole program is one line.
pub fn explain(alloc: Global, text: &[u8], fault: CompileFault) -> Result<Vec<u8>, AllocError>
    ensures { IfOk result (λ lines. lines.items ≡ spec.explained text.now fault) }
{
    let words = words(fault);
    match fault.place() {
        Some((column, width)) => marked(alloc, text, column, width, words),
        None => {
            let line = format!(in alloc; "{words}\n")?;
            Ok(line.into_bytes())
        }
    }
}

/// The three lines of a fault with a place.
fn marked(
    alloc: Global,
    text: &[u8],
    column: usize,
    width: usize,
    words: &str,
) -> Result<Vec<u8>, AllocError>
    ensures { IfOk result (λ lines. lines.items ≡ spec.marked text.now column width words.now) }
{
    let head = format!(in alloc; "column {column}: {words}\n    ")?;
    let mut lines = head.into_bytes();
    push_shown(&mut lines, text)?;
    lines.extend_from_slice(b"\n    ")?;
    push_times(&mut lines, b' ', column.saturating_sub(1).min(text.len()))?;
    push_times(&mut lines, b'^', width.min(text.len()).max(1))?;
    lines.extend_from_slice(b"\n")?;
    Ok(lines)
}

/// Appends a byte so many times.
fn push_times(lines: &mut Vec<u8>, byte: u8, count: usize) -> Result<(), AllocError>
    ensures { OnOk result (lines.new.items ≡ lines.old.items ++ replicate count byte) }
{
    for _done in 0..count {
        lines.push(byte)?;
    }
    Ok(())
}

/// Appends a text, with `?` for each byte that is no printable ASCII.
fn push_shown(lines: &mut Vec<u8>, text: &[u8]) -> Result<(), AllocError>
    ensures { OnOk result (lines.new.items ≡ lines.old.items ++ map spec.shown text.now) }
{
    for byte in text {
        lines.push(shown(*byte))?;
    }
    Ok(())
}

fn shown(byte: u8) -> u8
    ensures { result ≡ spec.shown byte }
{
    match byte {
        b' '..=b'~' => byte,
        _ => b'?',
    }
}

/// What is wrong.
fn words(fault: CompileFault) -> &'static str
    ensures { result.now ≡ spec.words fault }
{
    match fault {
        CompileFault::Text(fault) => text_words(fault.kind),
        CompileFault::Layer { column: _ } =>
            "packets have none of this here, by their link type or the tag before it",
        CompileFault::Moved { column: _ } =>
            "this also counts where the tag before it is missing: join both by `and`",
        CompileFault::Zero { column: _ } => "a division by 0 has no value",
        CompileFault::Shift { column: _ } => "a shift by more than 31 bits leaves nothing",
        CompileFault::TooHard { column: _ } =>
            "a comparison of two numbers of the packet is not supported yet",
        CompileFault::TooLong => "the program has more than 4096 instructions",
        CompileFault::NoMemory => "out of memory",
    }
}

/// What is wrong with a text.
fn text_words(kind: ExprFaultKind) -> &'static str
    ensures { result.now ≡ spec.text_words kind }
{
    match kind {
        ExprFaultKind::Word(kind) => word_words(kind),
        ExprFaultKind::Refused(refusal) => refusal_words(refusal),
        ExprFaultKind::Parenthesis => "the other parenthesis or bracket is missing",
        ExprFaultKind::Unexpected =>
            "this cannot come here: join tests by `and` or `or`, and write `host`, `net` or `port` before a value",
        ExprFaultKind::Ends => "a test or a value is missing here",
        ExprFaultKind::Qualifier => "the words before the value do not fit it",
        ExprFaultKind::Address => "no address",
        ExprFaultKind::Name =>
            "a name is no address, since no name service is asked: write the address",
        ExprFaultKind::Mask =>
            "this mask and this address do not fit: a net has no bits beyond its mask",
        ExprFaultKind::Port => "no port that is known by name: write its number",
        ExprFaultKind::Protocol => "no protocol that is known by name: write its number",
        ExprFaultKind::Range => "the number is too large here",
        ExprFaultKind::Size => "a load has 1, 2 or 4 bytes",
        ExprFaultKind::Rank => "`%` and `^` need parentheses beside another operator",
        ExprFaultKind::TooDeep => "more than 200 levels of parentheses, brackets, `not` and signs",
        ExprFaultKind::NoMemory => "out of memory",
    }
}

/// What is wrong with a word.
fn word_words(kind: WordFaultKind) -> &'static str
    ensures { result.now ≡ spec.word_words kind }
{
    match kind {
        WordFaultKind::Character => "no word begins so",
        WordFaultKind::Octal =>
            "a number that begins with 0 is octal, and has no 8 or 9: leave the 0 out",
        WordFaultKind::Large => "a number is at most 4294967295",
        WordFaultKind::Address => "no IPv4 address: each part is a number up to 255",
        WordFaultKind::TooLong => "more than 8192 words",
        WordFaultKind::NoMemory => "out of memory",
    }
}

/// Why a word is refused.
fn refusal_words(refusal: Refusal) -> &'static str
    ensures { result.now ≡ spec.refusal_words refusal }
{
    match refusal {
        Refusal::Loop => "a chain of headers needs a loop, which no filter has",
        Refusal::NameService => "this needs a name service, and none is asked: write addresses",
        Refusal::Direction => "the bytes of a packet do not say its direction",
        Refusal::Interface => "the bytes of a packet do not say its interface",
        Refusal::Geneve => "the headers inside have no fixed place",
        Refusal::Byte => "write ether[N] for a byte",
        Refusal::LinkType => "this is of a link type that has no expressions here",
    }
}
