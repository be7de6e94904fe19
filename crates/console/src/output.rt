//! Writing what is shown of outcomes, in large pieces.

ghost use Rattle.std.specs.Prelude.{◌≡◌, ◌+◌, ◌<◌, ◌^◌, ◌++◌, ℕ, List, length, OnOk, OnErr, IfErr, string_bytes, [], false};
ghost use Rattle.engine_io.specs.Devices.{StopsWriting, Writes};
ghost use Rattle.engine_io.specs.Reading.{BeginsWith};
ghost use Rattle.engine_io.specs.Reading.{IsPrintFault};
ghost use Rattle.console.specs.Views.{shown_at_once};

use crate::View;
use crate::view::{next_stamp, push_line};
use capture_reader::PacketTime;
use engine_io::{BLOCK, EngineFault, Sink, write_text};
use filter_vm::Outcome;
use std::io::Write;

/// Writes what is shown of each outcome under a view, in large pieces, with the time stamps of the first ones. `before` packets
/// came before. The text is a buffer that is empty before and after.
pub fn write_outcomes<W: Write>(
    text: &mut String,
    view: View,
    before: u64,
    outcomes: &[Outcome],
    stamps: &[PacketTime],
    writer: &mut Sink<W>,
) -> Result<(), EngineFault>
    requires empty { string_bytes text.old ≡ [] }
    requires few { before + length outcomes.now < 2 ^ 64 }
    requires good { writer.old.failed ≡ false }
    ensures written { OnOk result (Writes W.contents writer.old writer.new (shown_at_once view before stamps.now outcomes.now)) }
    ensures front { OnErr result ((front : List ℕ) × BeginsWith front (shown_at_once view before stamps.now outcomes.now)
        × Writes W.contents writer.old writer.new front) }
    ensures empty { OnOk result (string_bytes text.new ≡ []) }
    ensures fault { IfErr result IsPrintFault }
    ensures good { OnOk result (writer.new.failed ≡ false) }
    ensures cause { IfErr result (StopsWriting writer.new) }
{
    let mut rest = outcomes;
    let mut times = stamps;
    let mut number = before;
    while let Some((outcome, more)) = rest.split_first() {
        rest = more;
        number += 1;
        let stamp = next_stamp(&mut times);
        push_line(text, view, number, stamp, *outcome)?;
        if text.len() >= BLOCK {
            write_text(writer, text.as_str())?;
            text.clear();
        }
    }
    write_text(writer, text.as_str())?;
    text.clear();
    Ok(())
}
