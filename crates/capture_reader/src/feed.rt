//! Captures of either format that come in pieces.

ghost use Rattle.std.specs.Prelude.{◌≡◌, [], length, IfOk, IfErr};
ghost use Rattle.capture_reader.specs.Holding.{HoldsAs, StopsAs};

use crate::blocks::{begun, item_of, next_block, next_whole_packet};
use crate::entry::{Found, SeenEntry};
use crate::fault::ReadFault;
use crate::records::RecordFeed;
use pcapng_reader::{BlockFeed, is_pcapng};
use std::alloc::Global;

/// How many bytes tell the format.
const MAGIC: usize = 4;

/// A capture of either format that comes in pieces, cut anywhere.
///
/// Time is linear in the bytes, however they are cut. An entry that lies whole in a piece is not copied, and no memory is
/// taken for it. The feed keeps what was cut: of a savefile a record at most, of pcapng a block at most, and the interfaces
/// of a section.
#[derive(Drop)]
pub struct CaptureFeed {
    alloc: Global,
    /// The bytes that came before the format was known.
    first: Vec<u8>,
    format: Format,
    fault: Option<ReadFault>,
}

/// How a capture is read.
#[derive(Drop)]
pub enum Format {
    /// Fewer than four bytes have come.
    Unknown,
    Savefile(RecordFeed),
    Pcapng(BlockFeed),
}

impl CaptureFeed {
    ghost use Rattle.std.specs.Prelude.{◌≡◌, ◌≢◌, [], ℕ, List, Some, None, Ok, IfOk, IfSome, OnOk, MatchOption};
    ghost use Rattle.capture_reader.specs.Entries.{EntryBytes};
    ghost use Rattle.capture_reader.specs.Holding.{Advances, Ends, HoldsAfter, IsTold, held_entry, held_fault};
    ghost use Rattle.capture_reader.specs.Steps.{IsShorter, seen_item};

    /// A feed that was given nothing. Takes no memory.
    pub fn new(alloc: Global) -> CaptureFeed
        ensures holds { HoldsAfter result [] [] }
        ensures going { held_fault result ≡ None }
    {
        CaptureFeed {
            alloc,
            first: Vec::new(alloc),
            format: Format::Unknown,
            fault: None,
        }
    }

    /// Takes bytes off the front of `rest`, up to the end of an entry at most, and says what they are. Called until `rest` is
    /// empty, it goes over a piece. All pieces together have fewer than 2^64 bytes.
    ///
    /// The fault stands whatever bytes follow, or says that memory was refused. After a fault each call answers the same fault,
    /// and changes nothing.
    #[inline]
    pub fn next<'b>(&mut self, rest: &mut &'b [u8]) -> Result<Found<'b>, ReadFault>
        ensures advances { Advances rest.old.now rest.new.now self.old self.new result }
        ensures shorter { IfOk result (λ _. IsShorter rest.old.now rest.new.now) }
        ensures says { IsTold (held_fault self.new) result }

        // After a fault nothing changes.
        ensures stays { (fault : ReadFault) → held_fault self.old ≡ Some fault → self.new ≡ self.old }
    {
        match self.next_whole(rest) {
            Some(item) => Ok(Found::SeenEntry(item)),
            None => self.go_on(rest),
        }
    }

    /// Takes the next entry off the front of `rest`, where it is a packet that lies whole there and has nothing wrong.
    ///
    /// Where it takes nothing, which it may do at any entry, `next` goes on. It does less than `next`.
    #[inline(always)]
    pub fn next_whole<'b>(&mut self, rest: &mut &'b [u8]) -> Option<SeenEntry<'b>>
        ensures advances { IfSome result (λ item. Advances rest.old.now rest.new.now self.old self.new (Ok (Found.SeenEntry item))) }
        ensures shorter { IfSome result (λ _. IsShorter rest.old.now rest.new.now) }
        ensures going { IfSome result (λ _. (held_fault self.old ≡ None) × (held_fault self.new ≡ None)) }
        ensures same { result ≡ None → (self.new ≡ self.old) × (rest.new.now ≡ rest.old.now) }
    {
        if self.fault.is_some() {
            return None;
        }
        match &mut self.format {
            Format::Savefile(records) => records.next_whole(rest),
            Format::Pcapng(blocks) => next_whole_packet(blocks, rest),
            Format::Unknown => None,
        }
    }

    // Apart from `next`, so that a packet that lies whole has a short way.
    /// Takes bytes as `next` does, of whatever they are.
    #[inline(never)]
    fn go_on<'b>(&mut self, rest: &mut &'b [u8]) -> Result<Found<'b>, ReadFault>
        ensures advances { Advances rest.old.now rest.new.now self.old self.new result }
        ensures shorter { IfOk result (λ _. IsShorter rest.old.now rest.new.now) }
        ensures says { IsTold (held_fault self.new) result }
        ensures stays { (fault : ReadFault) → held_fault self.old ≡ Some fault → self.new ≡ self.old }
    {
        if let Some(fault) = self.fault {
            return Err(fault);
        }
        match self.step(rest) {
            Ok(found) => Ok(found),
            Err(fault) => {
                self.fault = Some(fault);
                Err(fault)
            }
        }
    }

    /// The entry that is held, after `Found::Held`.
    pub fn held(&self) -> Option<SeenEntry<'_>>
        ensures { MatchOption result (held_entry self.now ≡ None) (λ item. held_entry self.now ≡ Some (seen_item item)) }
    {
        match &self.format {
            Format::Unknown => None,
            Format::Savefile(records) => records.held(),
            Format::Pcapng(blocks) => item_of(blocks.held()?),
        }
    }

    /// How the capture ends if nothing follows: well, or with its fault.
    ///
    /// The fault says that memory was refused just where a call answered it.
    pub fn ending(&self) -> Result<(), ReadFault>
        ensures ends { (given : List EntryBytes) (fed : List ℕ) → HoldsAfter self.now given fed → Ends given fed result }
        ensures fault { (fault : ReadFault) → held_fault self.now ≡ Some fault → result ≡ Err fault }
        ensures going { OnOk result (held_fault self.now ≡ None) }
    {
        if let Some(fault) = self.fault {
            return Err(fault);
        }
        match &self.format {
            Format::Unknown => Err(ReadFault::Savefile(pcap_reader::CaptureFault::TruncatedHeader)),
            Format::Savefile(records) => Ok(records.ending()?),
            Format::Pcapng(blocks) => Ok(blocks.ending()?),
        }
    }

    /// Takes bytes of a capture without a fault.
    fn step<'b>(&mut self, rest: &mut &'b [u8]) -> Result<Found<'b>, ReadFault>
        requires { self.old.fault ≡ None }
        ensures advances { Advances rest.old.now rest.new.now self.old self.new result }
        ensures shorter { IfOk result (λ _. IsShorter rest.old.now rest.new.now) }
        ensures same { self.new.fault ≡ None }
    {
        match &mut self.format {
            Format::Unknown => self.begin(rest),
            Format::Savefile(records) => Ok(records.next(rest)?),
            Format::Pcapng(blocks) => Ok(next_block(blocks, rest)?),
        }
    }

    /// Takes bytes until the first four tell the format.
    fn begin<'b>(&mut self, rest: &mut &'b [u8]) -> Result<Found<'b>, ReadFault>
        requires { (self.old.fault ≡ None) × (self.old.format ≡ Format.Unknown) }
        ensures advances { Advances rest.old.now rest.new.now self.old self.new result }
        ensures shorter { IfOk result (λ _. IsShorter rest.old.now rest.new.now) }
        ensures same { self.new.fault ≡ None }
    {
        let bytes = *rest;
        let count = MAGIC
            .saturating_sub(self.first.len())
            .max(1)
            .min(bytes.len());
        self.first.extend_from_slice(&bytes[..count])?;
        *rest = &bytes[count..];
        if self.first.len() < MAGIC {
            return Ok(Found::Nothing);
        }
        self.format = opened(self.alloc, &self.first[..MAGIC])?;
        Ok(Found::Nothing)
    }
}

/// A feed of the format that the first four bytes of a capture tell, which was given these.
fn opened(alloc: Global, first: &[u8]) -> Result<Format, ReadFault>
    requires { length first.now ≡ MAGIC }
    ensures holds { IfOk result (HoldsAs [] first.now first.now) }
    ensures stops { IfErr result (StopsAs [] first.now) }
{
    if is_pcapng(first) {
        return Ok(Format::Pcapng(begun(alloc, first)?));
    }
    Ok(Format::Savefile(RecordFeed::begun(alloc, first)?))
}
