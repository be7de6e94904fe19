//! `match --stream`: runs a filter on packets of an input of any length, and shows each outcome while it reads.

ghost use Rattle.std.specs.Prelude.{◌≡◌, ◌⊎◌, ℕ, List, [], IfOk, IfErr, OnErr, OnOk, ◌++◌, string_bytes, true, false};
ghost use Rattle.std.specs.Io.KnownBytes.{IsAtEnd};
ghost use Rattle.console.specs.Expressions.{IsFilter, ShowsBadFilter};
ghost use Rattle.console.specs.Programs.{Programs, programs_of};
ghost use Rattle.engine_io.specs.Reading.{BeginsWith};
ghost use Rattle.engine_io.specs.Devices.{EndsEarly, Gets, IsFresh, StopsWriting, Writes};
ghost use Rattle.engine_io.specs.Reading.{IsEngineFault};
ghost use Rattle.console.specs.Streaming.{SourceRan, StreamLeaves, StreamShows, form_of, is_stamped};
ghost use Rattle.console.specs.Views.{IsFound, ShowsView, ShowsViewCode, ShowsViewPart, ViewLeaves, ViewShows, heard, shows_stamps};

use crate::ending::push_stop;
use crate::expression::read_filter;
use crate::packet_source::PacketSource;
use crate::tally::{Finished, Tally};
use crate::{Filter, LinkTypes, PacketForm, View};
use engine_io::{EngineFault, Got, READ_BYTES, Sink, Source, write_text};
use std::alloc::Global;
use std::io::{Read, Write};

/// The most reads of a stream: at one a microsecond they take nine years.
pub const STREAM_READS: u64 = 281_474_976_710_655;

/// Runs the filter of `code`, an expression or decimal text, on packets of an input of any length, shows each outcome while it
/// reads, and answers the status.
///
/// What is shown, and the status, are those of `run_match`, but that no input is too long: what a read completed is written
/// before the next read. At a line that is no packet, a packet for whose link type an expression has a fault, or a fault of the capture
/// that stands whatever follows, it ends without reading on. A record that isn't whole is reported where the input ends.
///
/// It holds the longest packet or line at most, and what one read completed. A line of 2^32 bytes or more is refused as memory
/// is. `writer` is never flushed.
///
/// Answers `ReadFailed` where a read fails, or after 2^48 - 1 reads of at most 65,536 bytes; `WriteFailed`; and `NoMemory`.
/// A front of the text for what was read was written then.
pub fn run_stream<R: Read, W: Write>(
    alloc: Global,
    code: &[u8],
    accept: u32,
    form: PacketForm,
    links: &mut LinkTypes,
    reader: &mut Source<R>,
    writer: &mut Sink<W>,
    complaint: &mut String,
) -> Result<u8, EngineFault>
    requires fresh { IsFresh reader.old STREAM_READS }
    requires good { writer.old.failed ≡ false }
    ensures shown { IfOk result (λ status. (text : List ℕ) × (words : List ℕ) × Writes W.contents writer.old writer.new text
        × (string_bytes complaint.new ≡ string_bytes complaint.old ++ words)
        × ((ShowsBadFilter code.now text words × (status ≡ 1))
        ⊎ ((input : List ℕ) × Gets R.remaining reader.old reader.new input
        × StreamShows code.now accept form input status text words × (IsAtEnd (R.remaining reader.new.inner) ⊎ (status ≡ 1))))) }
    ensures unread { ((programs : Programs) → IsFilter code.now accept programs → ⊥) → reader.new ≡ reader.old }
    ensures left { OnErr result ((text : List ℕ) × Writes W.contents writer.old writer.new text
        × ((text ≡ []) ⊎ (((whole : List ℕ) × (words : List ℕ) × ShowsBadFilter code.now whole words × BeginsWith text whole)
        ⊎ ((input : List ℕ) × Gets R.remaining reader.old reader.new input × StreamLeaves code.now accept form input text)))) }
    ensures fault { IfErr result IsEngineFault }
    ensures well { IfOk result (λ status. (writer.new.failed ≡ false) × (reader.new.failed ≡ false) × ((reader.new.ended ≡ true) ⊎ (status ≡ 1))) }
    ensures cause { IfErr result (EndsEarly reader.new writer.new) }
{
    let view = View::Lines;
    run_view(
        alloc, code, accept, form, view, links, reader, writer, complaint,
    )
}

/// Runs the filter of `code`, an expression or decimal text, on packets of an input of any length, shows their outcomes under a
/// view, and answers the status.
///
/// - `View::Lines` is `run_stream`. `View::Numbers` is the same, with the packet's number and a blank before each line, and then,
///   of a capture, its time stamp and a blank.
/// - `View::Count` writes `N of M` at the end: so many packets were accepted, of so many that were run. The line for what is wrong
///   with the input or with an expression, if anything is, comes after it. `View::NumbersAndCount` writes the lines of
///   `View::Numbers` before it.
/// - `View::Quiet` writes nothing. It ends at the first packet that is accepted, without reading on, with status 0. The status is
///   4 where the input ends and no packet was accepted, and 1 at a line that is no packet, a packet for whose link type an expression has
///   a fault, or a fault of the capture.
///
/// For a code that gives nothing to run it reads nothing, and answers status 1. It writes one line that says why, but under
/// `View::Quiet`. What a fault of an expression means is appended to `complaint`, under each view.
///
/// `links` becomes the link types of the interfaces of a capture that was read, for a warning where there are several.
///
/// The input is read as by `run_stream`, and it fails as that does. 2^64 packets are refused as memory is.
pub fn run_view<R: Read, W: Write>(
    alloc: Global,
    code: &[u8],
    accept: u32,
    form: PacketForm,
    view: View,
    links: &mut LinkTypes,
    reader: &mut Source<R>,
    writer: &mut Sink<W>,
    complaint: &mut String,
) -> Result<u8, EngineFault>
    requires fresh { IsFresh reader.old STREAM_READS }
    requires good { writer.old.failed ≡ false }
    ensures shown { IfOk result (λ status. (text : List ℕ) × (words : List ℕ) × Writes W.contents writer.old writer.new text
        × (string_bytes complaint.new ≡ string_bytes complaint.old ++ words)
        × ((ShowsViewCode view code.now text words × (status ≡ 1))
        ⊎ ((input : List ℕ) × Gets R.remaining reader.old reader.new input
        × ViewShows view code.now accept form input status text words × (IsAtEnd (R.remaining reader.new.inner) ⊎ (status ≡ 1) ⊎ IsFound view status)))) }
    ensures unread { ((programs : Programs) → IsFilter code.now accept programs → ⊥) → reader.new ≡ reader.old }
    ensures left { OnErr result ((text : List ℕ) × Writes W.contents writer.old writer.new text
        × ((text ≡ []) ⊎ (((whole : List ℕ) × (words : List ℕ) × ShowsBadFilter code.now whole words × BeginsWith text whole)
        ⊎ ((input : List ℕ) × Gets R.remaining reader.old reader.new input × ViewLeaves view code.now accept form input text)))) }
    ensures fault { IfErr result IsEngineFault }
    ensures well { IfOk result (λ status. (writer.new.failed ≡ false) × (reader.new.failed ≡ false)
        × ((reader.new.ended ≡ true) ⊎ (status ≡ 1) ⊎ IsFound view status)) }
    ensures cause { IfErr result (EndsEarly reader.new writer.new) }
{
    let filter = match read_filter(alloc, code, accept)? {
        Ok(filter) => filter,
        Err(bad) => {
            complaint.push_str(bad.words.as_str())?;
            return refuse_code(view, bad.line.as_str(), writer);
        }
    };
    let mut source = PacketSource::new(alloc, form, shows_stamps(view, form));
    let finished = stream(alloc, &filter, &mut source, view, reader, writer);
    *links = source.links();
    let finished = finished?;
    push_stop(alloc, complaint, code, finished.stop)?;
    Ok(finished.status)
}

/// Whether a view shows time stamps.
fn shows_stamps(view: View, form: PacketForm) -> bool
    ensures { result ≡ shows_stamps view form }
{
    match view {
        View::Numbers | View::NumbersAndCount => matches!(form, PacketForm::Capture(_)),
        View::Lines | View::Count | View::Quiet => false,
    }
}

/// Writes the line of a code that is refused, where the view shows any, and answers the status.
fn refuse_code<W: Write>(view: View, line: &str, writer: &mut Sink<W>) -> Result<u8, EngineFault>
    requires { writer.old.failed ≡ false }
    ensures written { IfOk result (λ status. (status ≡ 1) × Writes W.contents writer.old writer.new (heard view line.now)) }
    ensures front { OnErr result ((front : List ℕ) × BeginsWith front line.now × Writes W.contents writer.old writer.new front) }
    ensures fault { IfErr result (λ e. e ≡ EngineFault.WriteFailed) }
    ensures good { OnOk result (writer.new.failed ≡ false) }
    ensures cause { IfErr result (StopsWriting writer.new) }
{
    match view {
        View::Lines | View::Numbers | View::Count | View::NumbersAndCount => {
            write_text(writer, line)?;
        }
        View::Quiet => {}
    }
    Ok(1)
}

/// Reads packets to the end of the input and shows their outcomes under a view, and answers the status and the fault of CODE that one
/// met, if one did.
fn stream<R: Read, W: Write>(
    alloc: Global,
    filter: &Filter,
    source: &mut PacketSource,
    view: View,
    reader: &mut Source<R>,
    writer: &mut Sink<W>,
) -> Result<Finished, EngineFault>
    requires nothing { SourceRan (programs_of filter.now) [] source.old [] [] }
    requires stamped { is_stamped source.old ≡ shows_stamps view (form_of source.old) }
    requires fresh { IsFresh reader.old STREAM_READS }
    requires good { writer.old.failed ≡ false }
    ensures shown { IfOk result (λ finished. (input : List ℕ) × Gets R.remaining reader.old reader.new input
        × ((text : List ℕ) × Writes W.contents writer.old writer.new text × ShowsView view (programs_of filter.now) (form_of source.old) input finished.status text finished.stop)
        × (IsAtEnd (R.remaining reader.new.inner) ⊎ (finished.status ≡ 1) ⊎ IsFound view finished.status)) }
    ensures left { OnErr result ((input : List ℕ) × Gets R.remaining reader.old reader.new input
        × ((text : List ℕ) × Writes W.contents writer.old writer.new text × ShowsViewPart view (programs_of filter.now) (form_of source.old) input text)) }
    ensures fault { IfErr result IsEngineFault }
    ensures well { IfOk result (λ finished. (writer.new.failed ≡ false) × (reader.new.failed ≡ false)
        × ((reader.new.ended ≡ true) ⊎ (finished.status ≡ 1) ⊎ IsFound view finished.status)) }
    ensures cause { IfErr result (EndsEarly reader.new writer.new) }
{
    let mut outcomes = Vec::new(alloc);
    let mut stamps = Vec::new(alloc);
    let mut tally = Tally::new(alloc, view);
    let mut block = [0u8; READ_BYTES];
    for _turn in 0..STREAM_READS {
        match reader.read(&mut block) {
            Got::End => {
                let stopped = source.finish(filter, &mut outcomes)?;
                tally.show(outcomes.as_slice(), stamps.as_slice(), writer)?;
                let ending = source.ending(stopped)?;
                return tally.finish(ending, writer);
            }
            Got::Bytes(count) => {
                let stopped = source.run(filter, &block[..count], &mut outcomes, &mut stamps)?;
                tally.show(outcomes.as_slice(), stamps.as_slice(), writer)?;
                outcomes.clear();
                stamps.clear();
                if tally.is_done() {
                    return Ok(Finished {
                        status: 0,
                        stop: None,
                    });
                }
                if stopped {
                    let ending = source.ending(true)?;
                    return tally.finish(ending, writer);
                }
            }
            Got::Again => {}
            Got::Failed => return Err(EngineFault::ReadFailed),
        }
    }
    Err(EngineFault::ReadFailed)
}
