//! Reading a listing line by line.

ghost use Rattle.std.specs.Prelude.{◌≡◌, ◌≢◌, ◌≤◌, ◌<◌, ◌^◌, ◌⊎◌, ◌+◌, ◌++◌, ◌∷◌, [], ℕ, List, length, vec_len, All, IfOk, IfSome, IfErr, MatchOption, OnOk, ⊤, ◌==◌, position, not};
ghost use Rattle.std.specs.Option.{option_copied};
ghost use Rattle.bpf_insn.specs.declared.insn.Insn.{Insn as AnyInsn};
ghost use Rattle.bpf_insn.specs.declared.insn.TheConstants.{MAX_INSNS};
ghost use Rattle.bpf_insn.specs.Texts.{words_of};
ghost use Rattle.line_words.specs.Words.{texts};
ghost use Rattle.filter_listing.specs.Initializer.{IsInitializer, tokens};
ghost use Rattle.filter_listing.specs.Image.{IsBare};
ghost use Rattle.filter_listing.specs.Lines as spec;
ghost use Rattle.filter_listing.specs.Steps.{Stepped, lines_left, LineRefused};
ghost use Rattle.filter_listing.specs.declared.fault.ListingFaultKind.TheVariants.{NoMemory};

use crate::fault::{ListingFault, ListingFaultKind};
use crate::image::image_insn;
use crate::initializer::{initializer_insn, spaced};
use bpf_insn::{Insn, MAX_INSNS};
use line_words::{is_blank, words};
use std::alloc::{AllocError, Global};

/// What printed a listing.
#[derive(Clone, Copy, Debug, PartialEq, Eq)]
pub(crate) enum Style {
    /// `tcpdump -d`.
    Images,
    /// `tcpdump -dd`.
    Initializers,
}

/// What printed a text, by its first byte that is no gap.
fn style_of(text: &[u8]) -> Style
    ensures { result ≡ spec.style_of text.now }
{
    match first_at(text) {
        Some(place) => style_by(text[place]),
        None => Style::Images,
    }
}

/// Where the first byte stands that is no gap.
fn first_at(text: &[u8]) -> Option<usize>
    ensures is { result ≡ position (λ b. not (spec.is_gap b)) text.now }
    ensures inside { MatchOption result ⊤ (λ place. place < length text.now) }
{
    text.iter().position(|b| !is_gap(*b))
}

/// What printed a text with this byte first.
fn style_by(first: u8) -> Style
    ensures { result ≡ spec.style_by first }
{
    if first == b'{' {
        Style::Initializers
    } else {
        Style::Images
    }
}

/// Whether the byte is a blank or a line feed.
fn is_gap(byte: u8) -> bool
    ensures { result ≡ spec.is_gap byte }
{
    is_blank(byte) || byte == b'\n'
}

/// Where the first line feed stands.
fn line_feed_at(text: &[u8]) -> Option<usize>
    ensures { result ≡ position (λ b. b == 10) text.now }
{
    text.iter().position(|b| *b == b'\n')
}

/// The first line, and what stands after its line feed.
fn first_line(text: &[u8]) -> (&[u8], Option<&[u8]>)
    ensures lines { spec.lines_of text.now ≡ result.0.now ∷ lines_left (option_copied result.1) }
    ensures shorter { MatchOption result.1 ⊤ (λ more. length more.now < length text.now) }
{
    match line_feed_at(text) {
        Some(end) => (&text[..end], Some(&text[end + 1..])),
        None => (text, None),
    }
}

/// The instruction at a place of a line that has these words.
fn insn_of(
    alloc: Global,
    style: Style,
    place: u32,
    line: &[u8],
    words: &[&[u8]],
) -> Result<Option<Insn>, AllocError>
    requires inside { place < MAX_INSNS }
    requires worded { texts words.now ≡ words_of line.now }
    ensures bare { style ≡ Style.Images → IfOk result (λ found. IfSome found IsBare) }
    ensures is { IfOk result (λ found. MatchOption found ((insn : AnyInsn) → spec.IsLine style place line.now insn → ⊥) (spec.IsLine style place line.now)) }
{
    match style {
        Style::Images => image_insn(alloc, place, words),
        Style::Initializers => initializer_of(alloc, line),
    }
}

/// The instruction of a line of `tcpdump -dd`.
fn initializer_of(alloc: Global, line: &[u8]) -> Result<Option<Insn>, AllocError>
    ensures { IfOk result (λ found. MatchOption found ((insn : AnyInsn) → IsInitializer (tokens line.now) insn → ⊥) (IsInitializer (tokens line.now))) }
{
    let text = spaced(alloc, line)?;
    let words = words(alloc, text.as_slice())?;
    Ok(initializer_insn(words.as_slice()))
}

/// Reads one more line.
fn read_line(
    alloc: Global,
    style: Style,
    program: &mut Vec<Insn>,
    line: &[u8],
) -> Result<(), ListingFaultKind>
    requires { vec_len program.old ≤ MAX_INSNS }
    ensures ok { OnOk result (Stepped style line.now program.old.items program.new.items) }
    ensures bare { OnOk result (style ≡ Style.Images → All IsBare program.old.items → All IsBare program.new.items) }
    ensures err { IfErr result (λ kind. (kind ≡ NoMemory) ⊎ LineRefused kind style line.now program.old.items) }
{
    let words = words(alloc, line)?;
    if words.is_empty() {
        return Ok(());
    }
    let place = program.len();
    if place == MAX_INSNS {
        return Err(ListingFaultKind::TooLong);
    }
    match insn_of(alloc, style, place as u32, line, words.as_slice())? {
        Some(insn) => {
            program.push(insn)?;
            Ok(())
        }
        None => Err(ListingFaultKind::BadLine),
    }
}

/// The program of a text that is printed so.
fn read_lines(alloc: Global, style: Style, text: &[u8]) -> Result<Vec<Insn>, ListingFault>
    requires { length text.now < 2 ^ 32 }
    ensures spelled { IfOk result (λ program. spec.SpellsIn style text.now program.items) }
    ensures bare { style ≡ Style.Images → IfOk result (λ program. All IsBare program.items) }
    ensures fault { IfErr result (λ fault. (fault.kind ≡ NoMemory) ⊎ spec.FaultsIn style text.now fault) }
{
    let mut program = Vec::new(alloc);
    let mut left = text;
    let mut number = 0u64;
    loop {
        let (line, more) = first_line(left);
        number += 1;
        if let Err(kind) = read_line(alloc, style, &mut program, line) {
            return Err(ListingFault { line: number, kind });
        }
        match more {
            Some(rest) => left = rest,
            None => return Ok(program),
        }
    }
}

/// The program whose listing is the text: what `tcpdump -d` prints of it, with any blanks between the words, or what
/// `tcpdump -dd` prints, with any blanks between the tokens. A text whose first byte that isn't blank is `{` is of the
/// second kind. Lines without words are skipped.
///
/// Linux's names for ancillary loads, as `[proto]`, are no operands. Whether the instructions make a program that can run
/// isn't looked at.
pub fn read_listing(alloc: Global, text: &[u8]) -> Result<Vec<Insn>, ListingFault>
    requires { length text.now < 2 ^ 32 }
    // What is answered is what the text is a listing of.
    ensures spelled { IfOk result (λ program. spec.Spells text.now program.items) }
    ensures fault { IfErr result (λ fault. (fault.kind ≡ NoMemory) ⊎ spec.Faults text.now fault) }
    // Fields that aren't printed are 0.
    ensures bare { spec.style_of text.now ≡ Style.Images → IfOk result (λ program. All IsBare program.items) }
    // A listing is refused only where memory runs out.
    ensures only { (program : List AnyInsn) → spec.Spells text.now program → IfErr result (λ fault. fault.kind ≡ NoMemory) }
{
    read_lines(alloc, style_of(text), text)
}
