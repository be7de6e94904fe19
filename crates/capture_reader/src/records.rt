//! Savefiles that come in pieces, record by record.

ghost use Rattle.std.specs.Prelude.{◌≡◌, ◌≤◌, ◌<◌, ◌^◌, length};
ghost use Rattle.capture_reader.specs.Recording.{IsWanted};
ghost use Rattle.capture_reader.specs.Entries.{record_info, savefile_link};

use crate::entry::{Entry, Found, PacketInfo, PacketTime, SeenEntry};
use crate::header::header_of;
use pcap_reader::{CaptureFault, Header};
use savefile_front::{FILE_HEADER, Front, front_of, word_at};
use std::alloc::Global;

/// The length of a record's header.
const RECORD_HEADER: usize = 16;

/// A savefile that comes in pieces, cut anywhere, and is taken record by record.
#[derive(Drop)]
pub struct RecordFeed {
    alloc: Global,
    header: Option<Header>,
    /// Where the next record begins, once there is a header.
    offset: u64,
    /// The bytes of the file's header or of a record that isn't whole yet, or of the record that is held.
    part: Vec<u8>,
    /// What the record that is held says of its packet, if one is.
    held: Option<PacketInfo>,
}

impl RecordFeed {
    ghost use Rattle.std.specs.Prelude.{◌≡◌, ◌≢◌, ◌<◌, ◌≤◌, ◌^◌, ◌++◌, [], ℕ, List, Option, Some, None, Ok, length, IfOk, IfErr, IfSome, OnOk, MatchOption};
    ghost use Rattle.capture_reader.specs.Entries.{EntryBytes};
    ghost use Rattle.capture_reader.specs.Recording.{EndsRecords, HasGrown, HoldsRecords, IsApart, IsWhole, Looks, StopsRecords, held_record, open_part};
    ghost use Rattle.capture_reader.specs.Steps.{Adds, AdvancesBy, IsShorter, seen_item};

    /// A feed that was given the first bytes of a savefile, fewer than its header has.
    pub fn begun(alloc: Global, first: &[u8]) -> Result<RecordFeed, CaptureFault>
        requires { length first.now < FILE_HEADER }
        ensures holds { IfOk result (λ feed. HoldsRecords feed [] first.now) }
        ensures stops { IfErr result (StopsRecords [] first.now) }
    {
        let _ = header_of(alloc, first)?;
        Ok(RecordFeed {
            alloc,
            header: None,
            offset: FILE_HEADER as u64,
            part: Vec::from_slice(alloc, first)?,
            held: None,
        })
    }

    /// Takes bytes off the front of `rest`, up to the end of the header or of a record at most, and says what they are.
    pub fn next<'b>(&mut self, rest: &mut &'b [u8]) -> Result<Found<'b>, CaptureFault>
        ensures advances { AdvancesBy (HoldsRecords self.old) (HoldsRecords self.new) StopsRecords (held_record self.new) rest.old.now rest.new.now result }
        ensures shorter { IfOk result (λ _. IsShorter rest.old.now rest.new.now) }
    {
        self.let_go();
        match self.header {
            None => self.begin(rest),
            Some(header) if self.part.is_empty() => self.take(header, rest),
            Some(header) => self.fill(header, rest),
        }
    }

    /// The record that lies whole at the front of `rest`, which is taken off, unless one is open or held; else nothing changes.
    ///
    /// It finds what `next` finds most often, in the fewest steps.
    #[inline(always)]
    pub fn next_whole<'b>(&mut self, rest: &mut &'b [u8]) -> Option<SeenEntry<'b>>
        ensures advances { IfSome result (λ item. AdvancesBy {E = CaptureFault} (HoldsRecords self.old) (HoldsRecords self.new) StopsRecords (held_record self.new) rest.old.now rest.new.now (Ok (Found.SeenEntry item))) }
        ensures shorter { IfSome result (λ _. IsShorter rest.old.now rest.new.now) }
        ensures same { result ≡ None → (self.new ≡ self.old) × (rest.new.now ≡ rest.old.now) }
    {
        let header = self.header?;
        if self.held.is_some() || !self.part.is_empty() {
            return None;
        }
        match front_of(header.big, *rest) {
            Front::Record { length, .. } => Some(self.pass(header, length, rest)),
            Front::Part | Front::TooLong => None,
        }
    }

    /// The record that is held, after `Found::Held`.
    pub fn held(&self) -> Option<SeenEntry<'_>>
        ensures { MatchOption result (held_record self.now ≡ None) (λ item. held_record self.now ≡ Some (seen_item item)) }
    {
        let info = self.held?;
        let part = self.part.as_slice();
        Some(SeenEntry {
            entry: Entry::Packet(info),
            bytes: &part[part.len().min(RECORD_HEADER)..],
        })
    }

    /// How the savefile ends if nothing follows: well, or with its fault.
    pub fn ending(&self) -> Result<(), CaptureFault>
        ensures { (given : List EntryBytes) (fed : List ℕ) → HoldsRecords self.now given fed → EndsRecords given fed result }
    {
        match (self.header, self.held) {
            (None, _) => Err(CaptureFault::TruncatedHeader),
            (Some(_), Some(_)) => Ok(()),
            (Some(_), None) if self.part.is_empty() => Ok(()),
            (Some(_), None) => Err(CaptureFault::TruncatedRecord(self.offset)),
        }
    }

    /// Lets the record go that is held.
    fn let_go(&mut self)
        ensures { (self.new.held ≡ None) × (self.new.part.items ≡ open_part self.old.held self.old.part.items) × (self.new.header ≡ self.old.header) × (self.new.offset ≡ self.old.offset) }
    {
        if self.held.is_some() {
            self.held = None;
            self.part.clear();
        }
    }

    /// Takes bytes of the file's header.
    fn begin<'b>(&mut self, rest: &mut &'b [u8]) -> Result<Found<'b>, CaptureFault>
        requires { (self.old.held ≡ None) × (self.old.header ≡ None) }
        ensures advances { AdvancesBy (HoldsRecords self.old) (HoldsRecords self.new) StopsRecords (held_record self.new) rest.old.now rest.new.now result }
        ensures shorter { IfOk result (λ _. IsShorter rest.old.now rest.new.now) }
    {
        let bytes = *rest;
        let count = FILE_HEADER
            .saturating_sub(self.part.len())
            .max(1)
            .min(bytes.len());
        self.part.extend_from_slice(&bytes[..count])?;
        *rest = &bytes[count..];
        let front = self.part.len().min(FILE_HEADER);
        match header_of(self.alloc, &self.part[..front])? {
            None => Ok(Found::Nothing),
            Some(header) => {
                self.header = Some(header);
                self.part.clear();
                Ok(Found::SeenEntry(SeenEntry {
                    entry: Entry::Savefile(header),
                    bytes: &[],
                }))
            }
        }
    }

    /// Takes the record that some bytes begin with, or the part of one.
    fn take<'b>(&mut self, header: Header, rest: &mut &'b [u8]) -> Result<Found<'b>, CaptureFault>
        requires between { (self.old.held ≡ None) × (self.old.header ≡ Some header) × (self.old.part.items ≡ []) }
        ensures advances { AdvancesBy (HoldsRecords self.old) (HoldsRecords self.new) StopsRecords (held_record self.new) rest.old.now rest.new.now result }
        ensures shorter { IfOk result (λ _. IsShorter rest.old.now rest.new.now) }
    {
        match front_of(header.big, *rest) {
            Front::Record { length, .. } => Ok(Found::SeenEntry(self.pass(header, length, rest))),
            Front::Part => self.fill(header, rest),
            Front::TooLong => Err(CaptureFault::TooLong(self.offset)),
        }
    }

    /// Takes a whole record of so many bytes.
    #[inline(always)]
    fn pass<'b>(&mut self, header: Header, length: usize, rest: &mut &'b [u8]) -> SeenEntry<'b>
        requires between { (self.old.held ≡ None) × (self.old.header ≡ Some header) × (self.old.part.items ≡ []) }
        requires whole { IsWhole header.big rest.old.now length }
        ensures advances { AdvancesBy {E = CaptureFault} (HoldsRecords self.old) (HoldsRecords self.new) StopsRecords (held_record self.new) rest.old.now rest.new.now (Ok (Found.SeenEntry result)) }
        ensures shorter { IsShorter rest.old.now rest.new.now }
    {
        let (whole, more) = rest.split_at(length);
        *rest = more;
        self.offset = self.offset.saturating_add(length as u64);
        SeenEntry {
            entry: Entry::Packet(info_of(header, whole)),
            bytes: &whole[RECORD_HEADER..],
        }
    }

    /// Takes bytes that a record lacks that isn't whole yet.
    fn fill<'b>(&mut self, header: Header, rest: &mut &'b [u8]) -> Result<Found<'b>, CaptureFault>
        requires between { (self.old.held ≡ None) × (self.old.header ≡ Some header) }
        ensures advances { AdvancesBy (HoldsRecords self.old) (HoldsRecords self.new) StopsRecords (held_record self.new) rest.old.now rest.new.now result }
        ensures shorter { IfOk result (λ _. IsShorter rest.old.now rest.new.now) }
    {
        let bytes = *rest;
        let count = wanted(header.big, self.part.as_slice())
            .max(1)
            .min(bytes.len());
        self.part.extend_from_slice(&bytes[..count])?;
        *rest = &bytes[count..];
        self.look(header)
    }

    /// Looks at a part that has grown.
    fn look<'b>(&mut self, header: Header) -> Result<Found<'b>, CaptureFault>
        requires between { (self.old.held ≡ None) × (self.old.header ≡ Some header) }
        ensures looks { (given : List EntryBytes) (fed : List ℕ) → HasGrown given fed header self.old → length fed < 2 ^ 64 → Looks given fed self.new result }
        ensures apart { IfOk result IsApart }
    {
        match front_of(header.big, self.part.as_slice()) {
            Front::Record { length, .. } => {
                self.offset = self.offset.saturating_add(length as u64);
                self.held = Some(info_of(header, self.part.as_slice()));
                Ok(Found::Held)
            }
            Front::Part => Ok(Found::Nothing),
            Front::TooLong => Err(CaptureFault::TooLong(self.offset)),
        }
    }
}

/// How many bytes a part lacks to be looked at again.
fn wanted(big: bool, part: &[u8]) -> usize
    requires { length part.now < 2 ^ 63 }
    ensures { IsWanted big part.now result }
{
    if part.len() < RECORD_HEADER {
        return RECORD_HEADER - part.len();
    }
    (RECORD_HEADER + word_at(big, &part[8..]) as usize).saturating_sub(part.len())
}

/// The link type of a savefile: the lower 16 bits of its network. The others tell of a frame check sequence (pcap-savefile(5)).
#[inline(always)]
pub fn savefile_link(header: Header) -> u32
    ensures { result ≡ savefile_link header }
{
    header.network % 65_536
}

/// What the header of a record says of its packet.
#[inline(always)]
fn info_of(header: Header, bytes: &[u8]) -> PacketInfo
    requires { 16 ≤ length bytes.now }
    ensures { result ≡ record_info header bytes.now }
{
    PacketInfo {
        section: 0,
        interface: 0,
        link: savefile_link(header),
        time: PacketTime::Seconds {
            seconds: word_at(header.big, bytes),
            fraction: word_at(header.big, &bytes[4..]),
            nano: header.nano,
        },
        original: word_at(header.big, &bytes[12..]),
    }
}
