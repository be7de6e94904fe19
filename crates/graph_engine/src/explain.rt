//! `match --explain`: the instructions that the machine takes.

ghost use Rattle.std.specs.Prelude.{◌≡◌, ◌<◌, ◌≤◌, ◌^◌, ◌++◌, ◌⊎◌, ℕ, List, length, Ok, Option, ◌∷◌, IfOk, IfErr, IsErr, IsErrOf, MatchOption, OnOk, flat_map, string_bytes, ⊤, [], false};
ghost use Rattle.std.specs.List.{All};
ghost use Rattle.std.specs.Str.Lines.{lines};
ghost use Rattle.hex.specs.Hex.{decode_of};
ghost use Rattle.std.specs.Option.{option_map_or};
ghost use Rattle.bpf_insn.specs.AsmText.{printed};
ghost use Rattle.bpf_insn.specs.Program.{form_at};
ghost use Rattle.console.specs.declared.filter.CodeFault.{CodeFault as Stop};
ghost use Rattle.console.specs.Expressions.{IsFilter, ShowsBadFilter, explanation_of};
ghost use Rattle.console.specs.Choosing.{chosen};
ghost use Rattle.console.specs.Programs.{Programs, programs_of};
ghost use Rattle.console.specs.Reading.{entries_of};
ghost use Rattle.engine_io.specs.declared.input.TheConstants.{INPUT_BYTES, INPUT_READS};
ghost use Rattle.engine_io.specs.Devices.{EndsEarly, EndsWell, IsFresh, Writes};
ghost use Rattle.engine_io.specs.Reading.{IsEngineFault};
ghost use Rattle.engine_io.specs.Reading.{IsInput, most_taken};
ghost use Rattle.graph_engine.specs.Explaining as spec;

use bpf_insn::{Insn, push_form};
use capture_reader::Entry;
use console::{
    Captured, CodeFault, Ending, Filter, KeptEntry, PacketForm, decode, first_line, is_link,
    push_outcome, read_entries, read_filter, write_last,
};
use engine_io::{
    EngineFault, INPUT_BYTES, Input, Sink, Source, read_bounded, refuse_long, write_text,
};
use filter_verify::Verified;
use filter_vm::{Outcome, Taken, trace_run};
use std::alloc::{AllocError, Global};
use std::fmt::Write as FmtWrite;
use std::io::{Read, Write};

/// Explains the runs of the filter of `code`, an expression or decimal text, on the packets of the input, and answers the status.
///
/// Code and input are those of `match`: packets are lines of hexadecimal digits, or those of a capture; an expression accepts with the
/// verdict `accept`. For each packet it writes a line for each instruction that was taken, `lPC: INSTRUCTION A=N X=N`, with the two
/// registers after it, and then the outcome, as `match` writes it; status 0. What comes after the last packet is as under `match`:
/// `line N: BadHex` at the first line that is no packet, a fault of the capture, or `code column C KIND` or `code link N` at the first
/// packet for whose link type the expression has a fault; status 1. Of an input of more than 64 MiB it writes only `fault InputTooLong`,
/// status 1. For a code that gives nothing to run it writes one line that says why, with status 1, and reads nothing. What a fault of an
/// expression means is appended to `complaint`.
///
/// All text is kept to the end. Answers `ReadFailed` or `NoMemory`, with nothing written, or `WriteFailed`.
pub fn run_explain<R: Read, W: Write>(
    alloc: Global,
    code: &[u8],
    accept: u32,
    form: PacketForm,
    reader: &mut Source<R>,
    writer: &mut Sink<W>,
    complaint: &mut String,
) -> Result<u8, EngineFault>
    requires fresh { IsFresh reader.old INPUT_READS }
    requires good { writer.old.failed ≡ false }
    ensures shown { IfOk result (λ status. (text : List ℕ) × (words : List ℕ) × Writes W.contents writer.old writer.new text
        × (string_bytes complaint.new ≡ string_bytes complaint.old ++ words)
        × ((ShowsBadFilter code.now text words × (status ≡ 1))
        ⊎ ((input : List ℕ) × IsInput R.remaining reader.old reader.new input × spec.ShowsExplained code.now accept form input status text words))) }
    ensures unread { ((programs : Programs) → IsFilter code.now accept programs → ⊥) → reader.new ≡ reader.old }
    ensures fault { IfErr result IsEngineFault }
    ensures well { IfOk result (λ _. (writer.new.failed ≡ false) × ((reader.new ≡ reader.old) ⊎ EndsWell reader.new writer.new INPUT_BYTES)) }
    ensures cause { IfErr result (EndsEarly reader.new writer.new) }
    ensures most { reader.new.taken ≤ most_taken }
    ensures silent { IsErrOf result EngineFault.ReadFailed ⊎ IsErrOf result EngineFault.NoMemory → writer.new ≡ writer.old }
{
    match read_filter(alloc, code, accept)? {
        Ok(filter) => explain_input(alloc, code, &filter, form, reader, writer, complaint),
        Err(bad) => {
            complaint.push_str(bad.words.as_str())?;
            write_text(writer, bad.line.as_str())?;
            Ok(1)
        }
    }
}

/// Explains the runs on the packets of an input.
fn explain_input<R: Read, W: Write>(
    alloc: Global,
    code: &[u8],
    filter: &Filter,
    form: PacketForm,
    reader: &mut Source<R>,
    writer: &mut Sink<W>,
    complaint: &mut String,
) -> Result<u8, EngineFault>
    requires unread { reader.old.taken ≡ 0 }
    requires open { (reader.old.ended ≡ false) × (reader.old.failed ≡ false) }
    requires good { writer.old.failed ≡ false }
    ensures shown { IfOk result (λ status. (text : List ℕ) × (stop : Option Stop) × Writes W.contents writer.old writer.new text
        × ((input : List ℕ) × IsInput R.remaining reader.old reader.new input × spec.ShowsInput (programs_of filter.now) form input status text stop)
        × (string_bytes complaint.new ≡ string_bytes complaint.old ++ explanation_of code.now stop)) }
    ensures fault { IfErr result IsEngineFault }
    ensures well { IfOk result (λ _. EndsWell reader.new writer.new INPUT_BYTES) }
    ensures cause { IfErr result (EndsEarly reader.new writer.new) }
    ensures most { reader.new.taken ≤ most_taken }
    ensures silent { IsErrOf result EngineFault.ReadFailed ⊎ IsErrOf result EngineFault.NoMemory → writer.new ≡ writer.old }
{
    match form {
        PacketForm::Digits(link) => match read_bounded(alloc, reader, INPUT_BYTES)? {
            Input::TooLong => refuse_long(writer),
            Input::Whole(input) => {
                let Explained { text, ending } = explain_lines(
                    alloc,
                    filter,
                    link,
                    input.as_slice(),
                )?;
                write_last(alloc, code, text, ending, writer, complaint)
            }
        },
        PacketForm::Capture(link) => match read_entries(alloc, reader)? {
            None => refuse_long(writer),
            Some(captured) => {
                let Explained { text, ending } = explain_capture(alloc, filter, link, &captured)?;
                write_last(alloc, code, text, ending, writer, complaint)
            }
        },
    }
}

/// The explanations of the runs on packets, and what comes after them.
#[derive(Drop)]
struct Explained {
    text: String,
    ending: Ending,
}

/// Explains the run on the packet of each line, up to the first line that isn't run.
fn explain_lines(
    alloc: Global,
    filter: &Filter,
    link: u32,
    input: &[u8],
) -> Result<Explained, AllocError>
    requires { length input.now < 2 ^ 32 }
    ensures { IfOk result (λ explained. spec.ExplainsLines (programs_of filter.now) link (lines input.now) explained.ending (string_bytes explained.text)) }
{
    let mut text = String::new(alloc);
    let mut rest = input;
    let mut number: u64 = 0;
    while let Some((line, more)) = first_line(rest) {
        rest = more;
        number += 1;
        match packet_of(alloc, line)? {
            Some(packet) => match filter.program(link) {
                Ok(program) => {
                    let original = packet.len() as u32;
                    push_explanation(
                        alloc,
                        &mut text,
                        program.program(),
                        packet.as_slice(),
                        original,
                    )?;
                }
                Err(fault) => {
                    return Ok(Explained {
                        text,
                        ending: Ending::Refused(fault),
                    });
                }
            },
            None => {
                return Ok(Explained {
                    text,
                    ending: Ending::BadLine(number),
                });
            }
        }
    }
    Ok(Explained {
        text,
        ending: Ending::Done,
    })
}

/// Explains the run on each packet of a capture, of one link type alone if that is named, up to the first for whose link type CODE has
/// no program.
fn explain_capture(
    alloc: Global,
    filter: &Filter,
    link: Option<u32>,
    captured: &Captured,
) -> Result<Explained, AllocError>
    ensures { IfOk result (λ explained. spec.ExplainsEntries (programs_of filter.now) (chosen link (entries_of captured.now.entries.items)) captured.now.fault explained.ending (string_bytes explained.text)) }
{
    let mut text = String::new(alloc);
    let mut rest = captured.entries.as_slice();
    while let Some((kept, more)) = rest.split_first() {
        rest = more;
        if let Some(fault) = explain_entry(alloc, filter, link, &mut text, kept)? {
            return Ok(Explained {
                text,
                ending: Ending::Refused(fault),
            });
        }
    }
    let ending = match captured.fault {
        Some(fault) => Ending::Fault(fault),
        None => Ending::Done,
    };
    Ok(Explained { text, ending })
}

/// Appends the explanation of the run on the packet of an entry, if there is one that is chosen; or answers why CODE has no program for
/// its link type.
fn explain_entry(
    alloc: Global,
    filter: &Filter,
    link: Option<u32>,
    text: &mut String,
    kept: &KeptEntry,
) -> Result<Option<CodeFault>, AllocError>
    ensures { IfOk result (λ stop. spec.ExplainsEntry (programs_of filter.now) (chosen link (entries_of (kept.now ∷ []))) stop (string_bytes text.old) (string_bytes text.new)) }
{
    let Entry::Packet(info) = kept.entry else {
        return Ok(None);
    };
    if !is_link(link, info.link) {
        return Ok(None);
    }
    match filter.program(info.link) {
        Ok(program) => {
            push_explanation(
                alloc,
                text,
                program.program(),
                kept.bytes.as_slice(),
                info.original,
            )?;
            Ok(None)
        }
        Err(fault) => Ok(Some(fault)),
    }
}

/// The packet that a line spells, if it spells one.
fn packet_of(alloc: Global, line: &[u8]) -> Result<Option<Vec<u8>>, AllocError>
    ensures found { IfOk result (λ found. MatchOption found (IsErr (decode_of line.now)) (λ packet. decode_of line.now ≡ Ok packet.items)) }
    ensures short { IfOk result (λ found. MatchOption found ⊤ (λ packet. length packet.items ≤ length line.now)) }
{
    let mut packet = vec![in alloc; 0; line.len() / 2]?;
    if decode(line, packet.as_mut_slice()) {
        Ok(Some(packet))
    } else {
        Ok(None)
    }
}

/// Appends the explanation of the run on a packet.
fn push_explanation(
    alloc: Global,
    text: &mut String,
    program: &Verified,
    packet: &[u8],
    original: u32,
) -> Result<(), AllocError>
    ensures { OnOk result ((more : List ℕ) × spec.ExplainsRun program.now (record { bytes = packet.now; original = original }) more × (string_bytes text.new ≡ string_bytes text.old ++ more)) }
{
    let run = trace_run(alloc, program, packet, original)?;
    push_all_taken(text, program.code(), run.taken.as_slice())?;
    let outcome = Outcome {
        verdict: run.verdict,
        steps: run.taken.len() as u32,
    };
    push_outcome(text, outcome)
}

/// Appends the lines of the instructions that were taken.
fn push_all_taken(text: &mut String, program: &[Insn], taken: &[Taken]) -> Result<(), AllocError>
    requires short { length program.now ≤ 4096 }
    requires inside { All (λ t. t.pc < length program.now) taken.now }
    ensures { OnOk result (string_bytes text.new ≡ string_bytes text.old ++ flat_map (spec.taken_line program.now) taken.now) }
{
    for instruction in taken {
        push_taken(text, program, *instruction)?;
    }
    Ok(())
}

/// Appends the line of an instruction that was taken.
fn push_taken(text: &mut String, program: &[Insn], taken: Taken) -> Result<(), AllocError>
    requires short { length program.now ≤ 4096 }
    requires inside { taken.pc < length program.now }
    ensures { OnOk result (string_bytes text.new ≡ string_bytes text.old ++ spec.taken_line program.now taken) }
{
    let Taken { pc, a, x } = taken;
    write!(text, "l{pc}: ")?;
    push_insn(text, program, pc)?;
    writeln!(text, " A={a} X={x}")?;
    Ok(())
}

/// Appends the instruction at a place.
fn push_insn(text: &mut String, program: &[Insn], pc: usize) -> Result<(), AllocError>
    requires short { length program.now ≤ 4096 }
    requires inside { pc < length program.now }
    ensures { OnOk result (string_bytes text.new ≡ string_bytes text.old ++ option_map_or (printed pc) (form_at program.now pc) []) }
{
    match program[pc].form() {
        Some(form) => {
            push_form(text, pc, form)?;
            Ok(())
        }
        None => Ok(()),
    }
}
