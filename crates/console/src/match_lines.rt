//! `match` over lines of hexadecimal digits.

ghost use Rattle.std.specs.Prelude.{◌≡◌, ◌+◌, ◌<◌, ◌++◌, ◌^◌, ℕ, List, false, length, IfOk, IfErr, IsErrOf, OnOk, MatchResult, Option, string_bytes};
ghost use Rattle.std.specs.Str.Lines.{lines};
ghost use Rattle.engine_io.specs.Devices.{StopsWriting, Writes};
ghost use Rattle.engine_io.specs.Reading.{IsPrintFault};
ghost use Rattle.console.specs.declared.filter.CodeFault.{CodeFault as CodeStop};
ghost use Rattle.console.specs.Expressions.{explanation_of};
ghost use Rattle.console.specs.Matching.{Answers, IsNotRun, ShowsFirst, ShowsLines, bad_line};
ghost use Rattle.console.specs.Programs.{programs_of};

use crate::ending::{Ending, write_last};
use crate::lines::first_line;
use crate::outcome::push_outcome;
use crate::{CodeFault, Filter, hexadecimal};
use engine_io::{BLOCK, EngineFault, Sink, write_text};
use filter_vm::Outcome;
use std::alloc::{AllocError, Global};
use std::fmt::Write as FmtWrite;
use std::io::Write;

/// Runs the filter on the packet of each line, up to the first line that isn't run, prints what came out, and answers the
/// status. A line isn't run that spells no packet, or where CODE has no program for the link type; what that fault means is appended to
/// `complaint`.
pub fn match_lines<W: Write>(
    alloc: Global,
    code: &[u8],
    filter: &Filter,
    link: u32,
    input: &[u8],
    writer: &mut Sink<W>,
    complaint: &mut String,
) -> Result<u8, EngineFault>
    requires short { length input.now < 2 ^ 32 }
    requires good { writer.old.failed ≡ false }
    ensures shown { IfOk result (λ status. (text : List ℕ) × (stop : Option CodeStop) × ShowsLines (programs_of filter.now) link (lines input.now) status text stop
        × Writes W.contents writer.old writer.new text
        × (string_bytes complaint.new ≡ string_bytes complaint.old ++ explanation_of code.now stop)) }
    ensures part { IsErrOf result EngineFault.NoMemory → (text : List ℕ) × ShowsFirst (Answers (programs_of filter.now) link) (lines input.now) text
        × Writes W.contents writer.old writer.new text }
    ensures fault { IfErr result IsPrintFault }
    ensures good { OnOk result (writer.new.failed ≡ false) }
    ensures cause { IfErr result (StopsWriting writer.new) }
{
    let mut text = String::new(alloc);
    let mut packet = Vec::new(alloc);
    let mut rest = input;
    let mut number: u64 = 0;
    while let Some((line, more)) = first_line(rest) {
        rest = more;
        number += 1;
        match outcome_of(filter, link, line, &mut packet)? {
            Ok(outcome) => push_outcome(&mut text, outcome)?,
            Err(stop) => {
                let ending = Ending::at_line(number, stop);
                return write_last(alloc, code, text, ending, writer, complaint);
            }
        }
        if text.len() >= BLOCK {
            write_text(writer, text.as_str())?;
            text.clear();
        }
    }
    write_last(alloc, code, text, Ending::Done, writer, complaint)
}

/// The outcome on the packet that a line spells; or why the line isn't run: the fault of CODE over the link type, or none, where it
/// spells no packet. The packet is put into a buffer that is kept from line to line.
pub fn outcome_of(
    filter: &Filter,
    link: u32,
    line: &[u8],
    buffer: &mut Vec<u8>,
) -> Result<Result<Outcome, Option<CodeFault>>, AllocError>
    requires { length line.now < 2 ^ 32 }
    ensures { IfOk result (λ found. MatchResult found (Answers (programs_of filter.now) link line.now) (IsNotRun (programs_of filter.now) link line.now)) }
{
    let length = line.len() / 2;
    if buffer.len() < length {
        buffer.resize(length, 0)?;
    }
    let packet = &mut buffer.as_mut_slice()[..length];
    if !hexadecimal::decode(line, packet) {
        return Ok(Err(None));
    }
    match filter.program(link) {
        Ok(program) => Ok(Ok(program.run(packet, length as u32))),
        Err(fault) => Ok(Err(Some(fault))),
    }
}

/// Prints the complaint about a line.
pub fn push_bad_line(text: &mut String, number: u64) -> Result<(), AllocError>
    ensures { OnOk result (string_bytes text.new ≡ string_bytes text.old ++ bad_line number) }
{
    writeln!(text, "line {number}: BadHex")
}
