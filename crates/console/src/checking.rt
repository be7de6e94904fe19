//! `check`: reads a filter and prints it.

ghost use Rattle.std.specs.Prelude.{◌≡◌, ◌≢◌, ◌<◌, ◌≤◌, ◌^◌, ◌⊎◌, ◌↔◌, ℕ, List, length, IfOk, IfErr, Err, IsTrue, MatchOption, MatchResult, string_bytes, false};
ghost use Rattle.bpf_insn.specs.AsmText.{IsPrintable, PrintsAt};
ghost use Rattle.bpf_insn.specs.Ddd.{Ddd};
ghost use Rattle.bpf_insn.specs.declared.insn.TheConstants.{MAX_INSNS};
ghost use Rattle.filter_asm.specs.Cleared.{PrintedStands};
ghost use Rattle.filter_asm.specs.Program.{Asm};
ghost use Rattle.filter_asm.specs.declared.fault.AsmFaultKind.TheVariants.{NoMemory};
ghost use Rattle.filter_listing.specs.Lines.{Spells};
ghost use Rattle.console.specs.Checking.{IsFirstUnprinted, Reads, ShowsCheck, ShowsFault, ShowsProgram, ShowsText, asm_fault_line, listing_fault_line, listing_fault_name, unprinted_line, unprinted_rule};
ghost use Rattle.engine_io.specs.declared.input.TheConstants.{INPUT_BYTES, INPUT_READS};
ghost use Rattle.engine_io.specs.Devices.{EndsEarly, EndsWell, IsFresh, Writes};
ghost use Rattle.engine_io.specs.Reading.{IsEngineFault};
ghost use Rattle.engine_io.specs.Reading.{GetsAtMost, IsInput, most_taken};
ghost use Rattle.console.specs.Reading.{ShowsOne};

use crate::code::code_fault;
use crate::fault_words::name_of_asm_fault;
use bpf_insn::{Form, Insn, jumps_out, read_ddd, write_asm, write_ddd};
use engine_io::{EngineFault, Shown, Sink, Source, show_input};
use filter_asm::{AsmFaultKind, assemble};
use filter_listing::{ListingFault, ListingFaultKind, read_listing};
use std::alloc::{AllocError, Global};
use std::io::{Read, Write};

/// What the text of a program is.
#[derive(Clone, Copy, Debug, PartialEq, Eq)]
pub enum CheckInput {
    /// Assembler text in the mnemonics of Linux's `bpf_asm`.
    Assembler,
    /// A listing, as `tcpdump -d` or `tcpdump -dd` prints it.
    Listing,
    /// Decimal text, as `tcpdump -ddd` prints it.
    Decimal,
}

/// Reads the filter of the input, prints it, and answers the status.
///
/// Where `asm` is false the program is printed as the decimal text that `match` takes, and where it is true as assembler
/// text, a labelled line for each instruction. A program has no assembler text where an instruction's code is none, or where
/// a jump leads outside: of the first such instruction `refused BadCode pc P` or `refused JumpOut pc P` is printed, with
/// status 1. So is the first fault of the text: `line N: NAME` of an assembler text or a listing, and `code NAME`, as `match`
/// prints it, of a decimal text. The program is not verified. Of an input of more than 64 MiB only `fault InputTooLong` is
/// printed, status 1.
///
/// Answers `ReadFailed` or `NoMemory`, with nothing written, or `WriteFailed`.
pub fn run_check<R: Read, W: Write>(
    alloc: Global,
    input: CheckInput,
    asm: bool,
    reader: &mut Source<R>,
    writer: &mut Sink<W>,
) -> Result<u8, EngineFault>
    requires fresh { IsFresh reader.old INPUT_READS }
    requires good { writer.old.failed ≡ false }
    ensures shown { IfOk result (λ status. (text : List ℕ) × Writes W.contents writer.old writer.new text
        × ((bytes : List ℕ) × IsInput R.remaining reader.old reader.new bytes × ShowsCheck input asm bytes status text)) }
    ensures taken { IfOk result (λ _. GetsAtMost R.remaining reader.old reader.new most_taken) }
    // Of one text one thing is shown. A listing doesn't print each field, so that it is one of several programs.
    ensures only { input ≢ CheckInput.Listing → (bytes : List ℕ) → ShowsOne (ShowsCheck input asm bytes) }
    // The assembler text that is printed of a program stands for it, but for fields that its forms don't use: these are 0.
    ensures printed { PrintedStands }
    ensures fault { IfErr result IsEngineFault }
    ensures well { IfOk result (λ _. EndsWell reader.new writer.new INPUT_BYTES) }
    ensures cause { IfErr result (EndsEarly reader.new writer.new) }
    ensures most { reader.new.taken ≤ most_taken }
    ensures silent { (result ≡ Err EngineFault.ReadFailed) ⊎ (result ≡ Err EngineFault.NoMemory) → writer.new ≡ writer.old }
{
    show_input(alloc, reader, writer, |text| {
        check_text(alloc, input, asm, text)
    })
}

/// What is shown of the text of a program.
fn check_text(alloc: Global, input: CheckInput, asm: bool, text: &[u8]) -> Result<Shown, AllocError>
    requires { length text.now < 2 ^ 32 }
    ensures { IfOk result (λ shown. ShowsText input asm text.now shown.status shown.text.items) }
{
    match read_program(alloc, input, text)? {
        Ok(program) => show_program(alloc, asm, program.as_slice()),
        Err(line) => Ok(Shown {
            text: line.into_bytes(),
            status: 1,
        }),
    }
}

/// The program of a text, or the line for its first fault.
pub fn read_program(
    alloc: Global,
    input: CheckInput,
    text: &[u8],
) -> Result<Result<Vec<Insn>, String>, AllocError>
    requires { length text.now < 2 ^ 32 }
    ensures read { IfOk result (λ answer. MatchResult answer (λ program. Reads input text.now program.items) (λ line. ShowsFault input text.now (string_bytes line))) }
    ensures short { IfOk result (λ answer. IfOk answer (λ program. length program.items ≤ MAX_INSNS)) }
{
    match input {
        CheckInput::Assembler => read_assembler(alloc, text),
        CheckInput::Listing => listed(alloc, text),
        CheckInput::Decimal => read_decimal(alloc, text),
    }
}

/// The program of an assembler text, or the line for its first fault.
fn read_assembler(alloc: Global, text: &[u8]) -> Result<Result<Vec<Insn>, String>, AllocError>
    requires { length text.now < 2 ^ 32 }
    ensures read { IfOk result (λ answer. MatchResult answer (λ program. Asm text.now program.items) (λ line. ShowsFault CheckInput.Assembler text.now (string_bytes line))) }
    ensures short { IfOk result (λ answer. IfOk answer (λ program. length program.items ≤ MAX_INSNS)) }
{
    match assemble(alloc, text) {
        Ok(program) => Ok(Ok(program)),
        Err(fault) => Ok(Err(fault_line(alloc, fault.line, fault.kind)?)),
    }
}

/// The program of a listing, or the line for its first fault.
fn listed(alloc: Global, text: &[u8]) -> Result<Result<Vec<Insn>, String>, AllocError>
    requires { length text.now < 2 ^ 32 }
    ensures read { IfOk result (λ answer. MatchResult answer (λ program. Spells text.now program.items) (λ line. ShowsFault CheckInput.Listing text.now (string_bytes line))) }
    ensures short { IfOk result (λ answer. IfOk answer (λ program. length program.items ≤ MAX_INSNS)) }
{
    match read_listing(alloc, text) {
        Ok(program) => Ok(Ok(program)),
        Err(fault) => Ok(Err(listing_fault_line(alloc, fault)?)),
    }
}

/// The program of a decimal text, or the line for its first fault.
fn read_decimal(alloc: Global, text: &[u8]) -> Result<Result<Vec<Insn>, String>, AllocError>
    ensures read { IfOk result (λ answer. MatchResult answer (λ program. Ddd text.now program.items) (λ line. ShowsFault CheckInput.Decimal text.now (string_bytes line))) }
    ensures short { IfOk result (λ answer. IfOk answer (λ program. length program.items ≤ MAX_INSNS)) }
{
    match read_ddd(alloc, text) {
        Ok(program) => Ok(Ok(program)),
        Err(fault) => Ok(Err(code_fault(alloc, fault)?)),
    }
}

/// What is shown of a program.
fn show_program(alloc: Global, asm: bool, program: &[Insn]) -> Result<Shown, AllocError>
    requires short { length program.now ≤ MAX_INSNS }
    ensures { IfOk result (λ shown. ShowsProgram asm program.now shown.status shown.text.items) }
{
    if !asm {
        return Ok(Shown {
            text: write_ddd(alloc, program)?,
            status: 0,
        });
    }
    match first_unprinted(program) {
        None => Ok(Shown {
            text: write_asm(alloc, program)?,
            status: 0,
        }),
        Some(pc) => Ok(Shown {
            text: unprinted_line(alloc, program, pc)?.into_bytes(),
            status: 1,
        }),
    }
}

/// The line for an instruction that has no assembler text.
fn unprinted_line(alloc: Global, program: &[Insn], pc: usize) -> Result<String, AllocError>
    requires { pc < length program.now }
    ensures { IfOk result (λ text. string_bytes text ≡ unprinted_line program.now pc) }
{
    let rule = unprinted_rule(program[pc].form());
    let text = format!(in alloc; "refused {rule} pc {pc}\n")?;
    Ok(text)
}

/// The rule by which an instruction has no assembler text.
fn unprinted_rule(form: Option<Form>) -> &'static str
    ensures { result.now ≡ unprinted_rule form }
{
    match form {
        Some(_) => "JumpOut",
        None => "BadCode",
    }
}

/// The least place of an instruction that has no assembler text.
fn first_unprinted(program: &[Insn]) -> Option<usize>
    requires { length program.now ≤ MAX_INSNS }
    ensures { MatchOption result (IsPrintable program.now) (IsFirstUnprinted program.now) }
{
    for pc in 0..program.len() {
        if !prints_at(program, pc) {
            return Some(pc);
        }
    }
    None
}

/// Whether the instruction at a place has a form, and is no jump that leads outside.
fn prints_at(program: &[Insn], pc: usize) -> bool
    requires short { length program.now ≤ MAX_INSNS }
    requires inside { pc < length program.now }
    ensures { IsTrue result ↔ PrintsAt program.now pc }
{
    match program[pc].form() {
        Some(form) => !jumps_out(form, pc, program.len()),
        None => false,
    }
}

/// The line for the first fault of a listing.
fn listing_fault_line(alloc: Global, fault: ListingFault) -> Result<String, AllocError>
    ensures { IfOk result (λ text. (fault.kind ≢ ListingFaultKind.NoMemory) × (string_bytes text ≡ listing_fault_line fault)) }
{
    let Some(name) = name_of_listing_fault(fault.kind) else {
        return Err(AllocError);
    };
    let line = fault.line;
    let text = format!(in alloc; "line {line}: {name}\n")?;
    Ok(text)
}

/// The name of a listing's fault.
fn name_of_listing_fault(kind: ListingFaultKind) -> Option<&'static str>
    ensures { MatchOption result (kind ≡ ListingFaultKind.NoMemory) (λ name. (kind ≢ ListingFaultKind.NoMemory) × (name.now ≡ listing_fault_name kind)) }
{
    match kind {
        ListingFaultKind::BadLine => Some("BadLine"),
        ListingFaultKind::TooLong => Some("TooLong"),
        ListingFaultKind::NoMemory => None,
    }
}

/// The line for the first fault of an assembler text.
pub fn fault_line(alloc: Global, line: u32, kind: AsmFaultKind) -> Result<String, AllocError>
    ensures { IfOk result (λ text. (kind ≢ NoMemory) × (string_bytes text ≡ asm_fault_line (record { line = line; kind = kind }))) }
{
    let Some(name) = name_of_asm_fault(kind) else {
        return Err(AllocError);
    };
    let text = format!(in alloc; "line {line}: {name}\n")?;
    Ok(text)
}
