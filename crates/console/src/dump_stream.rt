//! `dump --stream`: prints what a capture of any length holds, while it reads.

ghost use Rattle.std.specs.Prelude.{◌≡◌, ◌≢◌, ◌<◌, ℕ, List, [], All, length, IfErr, IfOk, OnErr, OnOk, true, false};
ghost use Rattle.std.specs.Io.KnownBytes.{IsAtEnd};
ghost use Rattle.engine_io.specs.Devices.{EndsEarly, Gets, IsFresh, Writes};
ghost use Rattle.engine_io.specs.Reading.{IsEngineFault};
ghost use Rattle.console.specs.DumpStream.{LeavesDump, PrintsOn, PrintsSeen, ShowsEntries};

use crate::capture_fault::write_ending;
use crate::captured::fault_of;
use crate::dumping::{Place, is_chosen, push_entry};
use crate::streaming::STREAM_READS;
use capture_reader::{CaptureFeed, Found, SeenEntry};
use engine_io::{EngineFault, Got, READ_BYTES, Sink, Source, write_bytes};
use std::alloc::{AllocError, Global};
use std::io::{Read, Write};

/// Prints what a capture of any length holds while it reads, and answers the status.
///
/// What is shown, and the status, are those of `run_dump`, but that no input is too long: the lines of the entries that a read
/// completed are written before the next read. The line for a fault of the capture comes where the input ends.
///
/// It holds the longest entry at most, and the lines for what one read completed. `writer` is never flushed.
///
/// Answers `ReadFailed` where a read fails, or after 2^48 - 1 reads of at most 65,536 bytes; `WriteFailed`; and `NoMemory`. A
/// front of the text for what was read was written then.
pub fn run_dump_stream<R: Read, W: Write>(
    alloc: Global,
    link: Option<u32>,
    stamped: bool,
    reader: &mut Source<R>,
    writer: &mut Sink<W>,
) -> Result<u8, EngineFault>
    requires fresh { IsFresh reader.old STREAM_READS }
    requires good { writer.old.failed ≡ false }
    ensures shown { IfOk result (λ status. (input : List ℕ) × Gets R.remaining reader.old reader.new input × IsAtEnd (R.remaining reader.new.inner)
        × ((text : List ℕ) × Writes W.contents writer.old writer.new text × ShowsEntries link stamped input status text)) }
    ensures left { OnErr result ((input : List ℕ) × Gets R.remaining reader.old reader.new input
        × ((text : List ℕ) × Writes W.contents writer.old writer.new text × LeavesDump link stamped input text)) }
    ensures fault { IfErr result IsEngineFault }
    ensures well { IfOk result (λ _. (writer.new.failed ≡ false) × (reader.new.failed ≡ false) × (reader.new.ended ≡ true)) }
    ensures cause { IfErr result (EndsEarly reader.new writer.new) }
{
    let mut feed = CaptureFeed::new(alloc);
    let mut text = Vec::new(alloc);
    let mut place = Place {
        packets: 0,
        interfaces: 0,
    };
    let mut block = [0u8; READ_BYTES];
    for _turn in 0..STREAM_READS {
        match reader.read(&mut block) {
            Got::End => {
                let fault = fault_of(&feed)?;
                return write_ending(String::new(alloc), fault, writer);
            }
            Got::Bytes(count) => {
                print_piece(
                    alloc,
                    link,
                    stamped,
                    &mut feed,
                    &block[..count],
                    &mut place,
                    &mut text,
                )?;
                write_bytes(writer, text.as_slice())?;
                text.clear();
            }
            Got::Again => {}
            Got::Failed => return Err(EngineFault::ReadFailed),
        }
    }
    Err(EngineFault::ReadFailed)
}

/// Takes a piece, and prints the lines of the entries that are whole then.
fn print_piece(
    alloc: Global,
    link: Option<u32>,
    stamped: bool,
    feed: &mut CaptureFeed,
    piece: &[u8],
    place: &mut Place,
    text: &mut Vec<u8>,
) -> Result<(), AllocError>
    ensures prints { OnOk result (PrintsOn link stamped piece.now [] feed.old feed.new place.old place.new text.old.items text.new.items) }
    ensures bytes { All (λ byte. byte < 256) piece.now }
{
    let mut rest = piece;
    while !rest.is_empty() {
        if let Some(item) = feed.next_whole(&mut rest) {
            print_found(alloc, link, stamped, Some(item), place, text)?;
            continue;
        }
        print_next(alloc, link, stamped, feed, &mut rest, place, text)?;
    }
    Ok(())
}

/// Takes bytes off the front of a piece, up to the end of an entry at most, and prints that. After a fault all are taken.
fn print_next(
    alloc: Global,
    link: Option<u32>,
    stamped: bool,
    feed: &mut CaptureFeed,
    rest: &mut &[u8],
    place: &mut Place,
    text: &mut Vec<u8>,
) -> Result<(), AllocError>
    ensures prints { OnOk result (PrintsOn link stamped rest.old.now rest.new.now feed.old feed.new place.old place.new text.old.items text.new.items) }
    ensures shorter { OnOk result (rest.old.now ≢ [] → length rest.new.now < length rest.old.now) }
{
    match feed.next(rest) {
        Ok(Found::SeenEntry(item)) => print_found(alloc, link, stamped, Some(item), place, text),
        Ok(Found::Held) => print_found(alloc, link, stamped, feed.held(), place, text),
        Ok(Found::Nothing) => Ok(()),
        Err(fault) => {
            if fault.is_refusal() {
                return Err(AllocError);
            }
            *rest = &[];
            Ok(())
        }
    }
}

/// Prints an entry that was seen, if there is one and it is shown.
fn print_found(
    alloc: Global,
    link: Option<u32>,
    stamped: bool,
    item: Option<SeenEntry<'_>>,
    place: &mut Place,
    text: &mut Vec<u8>,
) -> Result<(), AllocError>
    ensures { OnOk result (PrintsSeen link stamped item.entry place.old place.new text.old.items text.new.items) }
{
    let Some(item) = item else {
        return Ok(());
    };
    if !is_chosen(link, item.entry) {
        return Ok(());
    }
    push_entry(alloc, stamped, text, place, item.entry, item.bytes)
}
