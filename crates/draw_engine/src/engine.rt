//! `draw`: the picture of a trace.

ghost use Rattle.std.specs.Prelude.{◌≡◌, ◌≤◌, ◌⊎◌, ℕ, List, IfOk, IfErr, Err, false};
ghost use Rattle.engine_io.specs.declared.input.TheConstants.{INPUT_BYTES, INPUT_READS};
ghost use Rattle.engine_io.specs.Devices.{EndsEarly, EndsWell, IsFresh, Writes};
ghost use Rattle.engine_io.specs.Reading.{IsEngineFault};
ghost use Rattle.engine_io.specs.Reading.{IsInput, most_taken};
ghost use Rattle.draw_engine.specs.Drawing.{Shows, ShowsDraw, bad_line};
ghost use Rattle.std.specs.Prelude.{string_bytes};
ghost use Rattle.trace_lines.specs.Traces.{trace_of};

use crate::svg::svg;
use crate::text::draw_as_text;
use engine_io::{EngineFault, Shown, Sink, Source, show_input};
use std::alloc::{AllocError, Global};
use std::io::{Read, Write};
use trace_lines::{TraceFault, link_events, read_trace};

/// Draws the trace of the input, and answers the status.
///
/// The input is what `sim` or `run` printed. The picture is an SVG file, or text where `plain` is true: a column for each core, a row for each event, with
/// its line, and an arrow for each message, from the event that sent it to the event that took it, or to a row below the
/// events where it is still under way. The first line that no trace has is printed as `line N: BadLine`, status 1; and of an
/// input of more than 64 MiB only `fault InputTooLong`, status 1.
///
/// Answers `ReadFailed` or `NoMemory`, with nothing written, or `WriteFailed`.
pub fn run_draw<R: Read, W: Write>(
    alloc: Global,
    plain: bool,
    reader: &mut Source<R>,
    writer: &mut Sink<W>,
) -> Result<u8, EngineFault>
    requires fresh { IsFresh reader.old INPUT_READS }
    requires good { writer.old.failed ≡ false }
    ensures shown { IfOk result (λ status. (text : List ℕ) × Writes W.contents writer.old writer.new text
        × ((input : List ℕ) × IsInput R.remaining reader.old reader.new input × ShowsDraw plain input status text)) }
    ensures fault { IfErr result IsEngineFault }
    ensures well { IfOk result (λ _. EndsWell reader.new writer.new INPUT_BYTES) }
    ensures cause { IfErr result (EndsEarly reader.new writer.new) }
    ensures most { reader.new.taken ≤ most_taken }
    ensures silent { (result ≡ Err EngineFault.ReadFailed) ⊎ (result ≡ Err EngineFault.NoMemory) → writer.new ≡ writer.old }
{
    show_input(alloc, reader, writer, |text| draw_text(alloc, plain, text))
}

/// What is shown of a trace.
fn draw_text(alloc: Global, plain: bool, text: &[u8]) -> Result<Shown, AllocError>
    ensures { IfOk result (λ shown. Shows plain (trace_of text.now) shown.status shown.text.items) }
{
    match read_trace(alloc, text) {
        Ok(lines) => {
            let picture = link_events(alloc, lines.as_slice())?;
            let text = if plain {
                draw_as_text(alloc, &picture)?
            } else {
                svg(alloc, &picture)?
            };
            Ok(Shown { text, status: 0 })
        }
        Err(TraceFault::BadLine(number)) => {
            let line = fault_line(alloc, number)?;
            Ok(Shown {
                text: line.into_bytes(),
                status: 1,
            })
        }
        Err(TraceFault::NoMemory) => Err(AllocError),
    }
}

/// The line for the first bad line of a text.
fn fault_line(alloc: Global, number: usize) -> Result<String, AllocError>
    ensures { IfOk result (λ line. string_bytes line ≡ bad_line number) }
{
    let line = format!(in alloc; "line {number}: BadLine\n")?;
    Ok(line)
}
