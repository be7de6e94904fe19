//! `match`: runs a filter on packets.

ghost use Rattle.std.specs.Prelude.{◌≡◌, ◌≤◌, ◌⊎◌, ◌++◌, ℕ, List, Option, IfOk, IfErr, IsErrOf, string_bytes, false};
ghost use Rattle.console.specs.declared.filter.CodeFault.{CodeFault};
ghost use Rattle.console.specs.Code.{SameButPath, ShowsBadCode};
ghost use Rattle.console.specs.Expressions.{IsFilter, ShowsBadFilter, explanation_of};
ghost use Rattle.console.specs.Telling.{is_expression};
ghost use Rattle.console.specs.Programs.{Programs, programs_of};
ghost use Rattle.engine_io.specs.Reading.{GetsAtMost, IsInput, most_taken};
ghost use Rattle.console.specs.Reading.{AreBytes, ShowsOne};
ghost use Rattle.engine_io.specs.declared.input.TheConstants.{INPUT_BYTES, INPUT_READS};
ghost use Rattle.engine_io.specs.Devices.{EndsEarly, EndsWell, IsFresh, Writes};
ghost use Rattle.engine_io.specs.Reading.{IsEngineFault};
ghost use Rattle.console.specs.Matching.{ShowsGoodCode, ShowsInput, ShowsPart, ShowsRead};

use crate::capture_run::{CaptureRun, run_input};
use crate::expression::read_filter;
use crate::match_capture::show_capture;
use crate::match_lines::match_lines;
use crate::{Filter, LinkTypes, PacketForm};
use engine_io::{
    EngineFault, INPUT_BYTES, Input, Sink, Source, read_bounded, refuse_long, write_text,
};
use std::alloc::Global;
use std::io::{Read, Write};

/// Runs the filter of `code` on packets of the input, and answers the status. The code is a filter expression (pcap-filter(7)) where
/// its first byte that is no blank is a letter, `(`, `!` or `\`, and else decimal text.
///
/// For each packet it writes the verdict and the number of instructions that ran, as `VERDICT STEPS`, with status 0. An expression has a
/// program for each link type, which accepts just the packets of which it is true, with the verdict `accept`.
///
/// - `PacketForm::Digits`: a packet is a line with an even number of hexadecimal digits of either case. At the first line that
///   is no packet it writes `line N: BadHex`, N counting from 1, and ends with status 1.
/// - `PacketForm::Capture`: the input is a capture, in pcapng or a savefile. Where a link type is named, only packets of that
///   are run. What stands before a fault of the capture is written, then `fault NAME`, with the fault's offset where it has
///   one, and the status is 1.
///
/// Of an input of more than 64 MiB only `fault InputTooLong` is shown, status 1. For a code that gives nothing to run (decimal text
/// that is no program, or that the verifier refuses, or a text that is no expression) it writes one line that says why, with status 1, and
/// reads nothing.
///
/// What an expression says may have a fault over the link type of a packet, or expressions don't know that: `code column C KIND` or
/// `code link N` is written where the first such packet stands, and ends with status 1. What a fault of an expression means is appended
/// to `complaint`.
///
/// Packets of a capture are run while it is read, and 8 bytes of each are kept to its end; lines are kept whole. `links` becomes
/// the link types of a capture's interfaces, for a warning where there are several.
///
/// Answers `ReadFailed`, with nothing written, where a read fails; `WriteFailed`; and `NoMemory`, where a front of the
/// text may have been written: of the lines for packets alone.
pub fn run_match<R: Read, W: Write>(
    alloc: Global,
    code: &[u8],
    accept: u32,
    form: PacketForm,
    links: &mut LinkTypes,
    reader: &mut Source<R>,
    writer: &mut Sink<W>,
    complaint: &mut String,
) -> Result<u8, EngineFault>
    requires fresh { IsFresh reader.old INPUT_READS }
    requires good { writer.old.failed ≡ false }
    ensures shown { IfOk result (λ status. (text : List ℕ) × (words : List ℕ) × Writes W.contents writer.old writer.new text
        × (string_bytes complaint.new ≡ string_bytes complaint.old ++ words)
        × ((ShowsBadFilter code.now text words × (status ≡ 1))
        ⊎ ((input : List ℕ) × IsInput R.remaining reader.old reader.new input × ShowsGoodCode code.now accept form input status text words))) }
    ensures taken { IfOk result (λ _. GetsAtMost R.remaining reader.old reader.new most_taken) }
    ensures only { is_expression code.now ≡ false → (input : List ℕ) → AreBytes input
        → ShowsOne (λ status text. (words : List ℕ) × ShowsGoodCode code.now accept form input status text words) }
    ensures only_by { (programs : Programs) (input : List ℕ) → AreBytes input → ShowsOne (λ status text. (stop : Option CodeFault) × ShowsInput programs form input status text stop) }
    ensures bad_only { (text other : List ℕ) → ShowsBadCode code.now text → ShowsBadCode code.now other → SameButPath text other }
    ensures good_or_bad { (programs : Programs) (text words : List ℕ) → IsFilter code.now accept programs → ShowsBadFilter code.now text words → ⊥ }
    ensures unread { ((programs : Programs) → IsFilter code.now accept programs → ⊥) → reader.new ≡ reader.old }
    ensures fault { IfErr result IsEngineFault }
    ensures well { IfOk result (λ _. (writer.new.failed ≡ false) × ((reader.new ≡ reader.old) ⊎ EndsWell reader.new writer.new INPUT_BYTES)) }
    ensures cause { IfErr result (EndsEarly reader.new writer.new) }
    ensures most { reader.new.taken ≤ most_taken }
    ensures silent { IsErrOf result EngineFault.ReadFailed → writer.new ≡ writer.old }
    ensures part { IsErrOf result EngineFault.NoMemory → (text : List ℕ)
        × ShowsPart code.now accept form R.remaining reader.old reader.new text
        × Writes W.contents writer.old writer.new text }
{
    let filter = match read_filter(alloc, code, accept)? {
        Ok(filter) => filter,
        Err(bad) => {
            complaint.push_str(bad.words.as_str())?;
            write_text(writer, bad.line.as_str())?;
            return Ok(1);
        }
    };
    match_input(alloc, code, &filter, form, links, reader, writer, complaint)
}

/// Runs the filter on the packets of the input, and answers the status.
fn match_input<R: Read, W: Write>(
    alloc: Global,
    code: &[u8],
    filter: &Filter,
    form: PacketForm,
    links: &mut LinkTypes,
    reader: &mut Source<R>,
    writer: &mut Sink<W>,
    complaint: &mut String,
) -> Result<u8, EngineFault>
    requires unread { reader.old.taken ≡ 0 }
    requires open { (reader.old.ended ≡ false) × (reader.old.failed ≡ false) }
    requires good { writer.old.failed ≡ false }
    ensures shown { IfOk result (λ status. (text : List ℕ) × (stop : Option CodeFault) × Writes W.contents writer.old writer.new text
        × ((input : List ℕ) × IsInput R.remaining reader.old reader.new input × ShowsInput (programs_of filter.now) form input status text stop)
        × (string_bytes complaint.new ≡ string_bytes complaint.old ++ explanation_of code.now stop)) }
    ensures taken { IfOk result (λ _. GetsAtMost R.remaining reader.old reader.new most_taken) }
    ensures fault { IfErr result IsEngineFault }
    ensures well { IfOk result (λ _. EndsWell reader.new writer.new INPUT_BYTES) }
    ensures cause { IfErr result (EndsEarly reader.new writer.new) }
    ensures most { reader.new.taken ≤ most_taken }
    ensures silent { IsErrOf result EngineFault.ReadFailed → writer.new ≡ writer.old }
    ensures part { IsErrOf result EngineFault.NoMemory → (text : List ℕ)
        × ShowsRead (programs_of filter.now) form R.remaining reader.old reader.new text
        × Writes W.contents writer.old writer.new text }
{
    let link = match form {
        PacketForm::Capture(link) => link,
        PacketForm::Digits(link) => {
            return match read_bounded(alloc, reader, INPUT_BYTES)? {
                Input::TooLong => refuse_long(writer),
                Input::Whole(input) => {
                    match_lines(
                        alloc,
                        code,
                        filter,
                        link,
                        input.as_slice(),
                        writer,
                        complaint,
                    )
                }
            };
        }
    };
    let mut run = CaptureRun::new(alloc, link, false);
    let mut outcomes = Vec::new(alloc);
    let mut stamps = Vec::new(alloc);
    if !run_input(filter, reader, &mut run, &mut outcomes, &mut stamps)? {
        return refuse_long(writer);
    }
    *links = run.links();
    show_capture(alloc, code, &run, outcomes.as_slice(), writer, complaint)
}
