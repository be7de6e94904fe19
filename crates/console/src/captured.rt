//! Reading a capture: its entries, up to the end or to a fault.

ghost use Rattle.std.specs.Prelude.{◌≡◌, ◌≢◌, ◌≤◌, ◌<◌, ◌++◌, [], length, IfOk, IfErr, OnOk, is_some, false};
ghost use Rattle.engine_io.specs.Reading.{GetsSome, IsReadFault, most_taken};
ghost use Rattle.console.specs.Reading.{GaveCapture, EndsAs, KeepsOn, entries_of};
ghost use Rattle.console.specs.Running.{item_entries};
ghost use Rattle.engine_io.specs.Devices.{IsReadThrough, StopsReading};

use capture_reader::{CaptureFeed, Entry, Found, ReadFault, SeenEntry};
use engine_io::{EngineFault, Got, INPUT_BYTES, READ_BYTES, Source};
use pcap_reader::Bytes;
use std::alloc::{AllocError, Global};
use std::io::Read;

/// An entry of a capture, and the captured bytes of its packet, if it has one.
#[derive(Drop)]
pub struct KeptEntry {
    pub entry: Entry,
    pub bytes: Bytes,
}

/// What was read of a capture.
pub struct Captured {
    /// The entries before the fault, or before the end.
    pub entries: Vec<KeptEntry>,
    /// The first fault of the capture, where it has one.
    pub fault: Option<ReadFault>,
}

// By hand, so that the proofs of its owners have one call and not a drop of each part.
impl Drop for Captured {
    fn drop(self) {
        let Captured {
            entries: _,
            fault: _,
        } = self;
    }
}

/// Reads a capture to its end, in pieces, and keeps its entries; `None` for an input of more than 64 MiB.
///
/// After a fault of the capture it reads on without keeping anything, so that an input that is too long is reported all the same.
pub fn read_entries<R: Read>(
    alloc: Global,
    reader: &mut Source<R>,
) -> Result<Option<Captured>, EngineFault>
    requires unread { reader.old.taken ≡ 0 }
    requires open { (reader.old.ended ≡ false) × (reader.old.failed ≡ false) }
    ensures read { IfOk result (GaveCapture R.remaining reader.old reader.new) }
    ensures record { IfOk result (λ found. IsReadThrough reader.new INPUT_BYTES (is_some found)) }
    ensures fault { IfErr result IsReadFault }
    ensures cause { IfErr result (StopsReading reader.new) }
    ensures taken { GetsSome R.remaining reader.old reader.new }
    ensures most { reader.new.taken ≤ most_taken }
{
    let mut feed = CaptureFeed::new(alloc);
    let mut entries = Vec::new(alloc);
    let mut block = [0u8; READ_BYTES];
    while reader.left() > 0 {
        match reader.read(&mut block) {
            Got::Bytes(count) => {
                if reader.taken() > INPUT_BYTES {
                    return Ok(None);
                }
                keep_piece(alloc, &mut feed, &block[..count], &mut entries)?;
            }
            Got::End => {
                let fault = fault_of(&feed)?;
                return Ok(Some(Captured { entries, fault }));
            }
            Got::Again => {}
            Got::Failed => return Err(EngineFault::ReadFailed),
        }
    }
    Err(EngineFault::ReadFailed)
}

/// Takes a piece, and keeps the entries that are whole then.
fn keep_piece(
    alloc: Global,
    feed: &mut CaptureFeed,
    piece: &[u8],
    entries: &mut Vec<KeptEntry>,
) -> Result<(), AllocError>
    ensures { OnOk result (KeepsOn piece.now [] feed.old feed.new entries.old.items entries.new.items) }
{
    let mut rest = piece;
    while !rest.is_empty() {
        if let Some(item) = feed.next_whole(&mut rest) {
            keep_found(alloc, Some(item), entries)?;
            continue;
        }
        keep_next(alloc, feed, &mut rest, entries)?;
    }
    Ok(())
}

/// Takes bytes off the front of a piece, up to the end of an entry at most, and keeps that. After a fault all are taken.
fn keep_next(
    alloc: Global,
    feed: &mut CaptureFeed,
    rest: &mut &[u8],
    entries: &mut Vec<KeptEntry>,
) -> Result<(), AllocError>
    ensures keeps { OnOk result (KeepsOn rest.old.now rest.new.now feed.old feed.new entries.old.items entries.new.items) }
    ensures shorter { OnOk result (rest.old.now ≢ [] → length rest.new.now < length rest.old.now) }
{
    match feed.next(rest) {
        Ok(Found::SeenEntry(item)) => keep_found(alloc, Some(item), entries),
        Ok(Found::Held) => keep_found(alloc, feed.held(), entries),
        Ok(Found::Nothing) => Ok(()),
        Err(fault) => {
            if fault.is_refusal() {
                return Err(AllocError);
            }
            *rest = &[];
            Ok(())
        }
    }
}

/// Keeps an entry that was seen, if there is one.
#[inline(always)]
fn keep_found(
    alloc: Global,
    item: Option<SeenEntry<'_>>,
    entries: &mut Vec<KeptEntry>,
) -> Result<(), AllocError>
    ensures { OnOk result (entries_of entries.new.items ≡ entries_of entries.old.items ++ item_entries item.entry) }
{
    if let Some(item) = item {
        let bytes = Bytes::from_vec(Vec::from_slice(alloc, item.bytes)?);
        entries.push(KeptEntry {
            entry: item.entry,
            bytes,
        })?;
    }
    Ok(())
}

/// The fault of a capture that ends where it was taken, if it has one.
pub(crate) fn fault_of(feed: &CaptureFeed) -> Result<Option<ReadFault>, AllocError>
    ensures { IfOk result (EndsAs feed.now) }
{
    match feed.ending() {
        Ok(()) => Ok(None),
        Err(fault) => {
            if fault.is_refusal() {
                return Err(AllocError);
            }
            Ok(Some(fault))
        }
    }
}
