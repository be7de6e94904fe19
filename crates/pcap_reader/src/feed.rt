//! Captures that come in pieces, or whole.

ghost use Rattle.std.specs.Prelude.{◌≡◌, ◌≢◌, ◌≤◌, ◌<◌, ◌+◌, ◌++◌, ◌^◌, ◌⊎◌, [], ℕ, List, Option, Some, None, Err, Bool, length, IsSome, IfOk, IfErr, IfSome, OnOk, MatchOption, MatchResult};
ghost use Rattle.pcap_reader.specs.declared.capture.CapturedPacket.{CapturedPacket};
ghost use Rattle.pcap_reader.specs.Savefile.{IsMagic, IsHeader, IsLong, HasNoHeader, IsLasting, ReadsFront};
ghost use Rattle.pcap_reader.specs.Answers.{GivesWhole, GivesFront, GivesOnly, HasOneReading, HasReading, Tells};
ghost use Rattle.pcap_reader.specs.Held.{Holds, HoldsBehind, IsEnding, Says, Grows, SeesWhole, TakesFront, TakesWhole, held_header, held_packets, held_fault, seen_packet};
ghost use Rattle.pcap_reader.specs.Growth.{GoesOn, IsGrown, IsWanted, IsShort, IsWhole, IsPacket, SplitsRecord};

use crate::capture::{Bytes, Capture, CaptureFault, CapturedPacket, Header, Packets, Stop};
use crate::fields::{short_at, word_at};
use std::alloc::{AllocError, Global};

/// The length of a file's header.
const FILE_HEADER: usize = 24;

/// The length of a record's header.
const RECORD_HEADER: usize = 16;

/// The most captured bytes of a record.
const MOST_CAPTURED: u32 = 262_144;

/// A capture that comes in pieces, cut anywhere.
///
/// The time is linear in the bytes, however they are cut.
#[derive(Drop)]
pub struct Feed {
    alloc: Global,
    header: Option<Header>,
    packets: Vec<CapturedPacket>,
    /// Where the next record begins, once there is a header.
    offset: u64,
    /// The bytes of a header or a record that isn't whole yet.
    part: Vec<u8>,
    fault: Option<CaptureFault>,
}

impl Feed {
    /// A feed that was fed nothing. Takes no memory: the feed keeps the allocator for its pieces.
    pub fn new(alloc: Global) -> Feed
        ensures holds { Holds [] result }
        ensures going { held_fault result ≡ None }
    {
        Feed {
            alloc,
            header: None,
            packets: Vec::new(alloc),
            offset: 24,
            part: Vec::new(alloc),
            fault: None,
        }
    }

    /// Takes the next piece. All pieces together have fewer than 2^64 bytes.
    ///
    /// The answer is a fault that stands whatever bytes follow: BadMagic, BadVersion or TooLong;
    /// or NoMemory where memory was refused. After a fault every later piece answers the same
    /// fault, takes nothing and changes nothing. The packets that were whole before a fault stay.
    pub fn piece(&mut self, bytes: &[u8]) -> Result<(), CaptureFault>
        ensures holds { (given : List CapturedPacket) (fed : List ℕ) → HoldsBehind given fed self.old
            → length (fed ++ bytes.now) < 2 ^ 64 → HoldsBehind given (fed ++ bytes.now) self.new }
        ensures tells { (given : List CapturedPacket) (fed : List ℕ) → HoldsBehind given fed self.old → length (fed ++ bytes.now) < 2 ^ 64
            → Tells (fed ++ bytes.now) result }
        ensures says { Says (held_fault self.new) result }

        // What was read stays, also where memory is refused.
        ensures grows { Grows self.old self.new }

        // After a fault nothing changes.
        ensures stays { (fault : CaptureFault) → held_fault self.old ≡ Some fault
            → self.new ≡ self.old }
    {
        if let Some(fault) = self.fault {
            return Err(fault);
        }
        match self.take(bytes) {
            Ok(()) => Ok(()),
            Err(fault) => {
                self.fault = Some(fault);
                Err(fault)
            }
        }
    }

    /// Takes bytes up to each place where something can be seen: the end of a header or a record.
    fn take(&mut self, bytes: &[u8]) -> Result<(), CaptureFault>
        requires { self.old.fault ≡ None }
        ensures grown { (given : List CapturedPacket) (fed : List ℕ) → HoldsBehind given fed self.old
            → length (fed ++ bytes.now) < 2 ^ 64 → GoesOn given (fed ++ bytes.now) self.new result }
        ensures grows { Grows self.old self.new }
        ensures same { self.new.fault ≡ None }
    {
        let mut rest = bytes;
        while !rest.is_empty() {
            let count = wanted(self.header, self.part.as_slice())
                .max(1)
                .min(rest.len());
            self.part.extend_from_slice(&rest[..count])?;
            rest = &rest[count..];
            self.close()?;
        }
        Ok(())
    }

    /// Looks at a part that has grown.
    fn close(&mut self) -> Result<(), CaptureFault>
        requires { self.old.fault ≡ None }
        ensures closed { (given : List CapturedPacket) (fed : List ℕ) → IsGrown given fed self.old
            → length fed < 2 ^ 64 → GoesOn given fed self.new result }
        ensures grows { Grows self.old self.new }
        ensures same { self.new.fault ≡ None }
    {
        match self.header {
            None => {
                if let Some(header) = header_of(self.part.as_slice())? {
                    self.header = Some(header);
                    self.part.clear();
                }
            }
            Some(header) => {
                if let Some(captured) = record_of(header.big, self.offset, self.part.as_slice())? {
                    self.packets
                        .push(packet_of(self.alloc, header.big, self.part.as_slice())?)?;
                    self.offset = self
                        .offset
                        .saturating_add(RECORD_HEADER as u64 + captured as u64);
                    self.part.clear();
                }
            }
        }
        Ok(())
    }

    /// The capture, where it is whole, and else what stands before its fault. Takes no memory.
    ///
    /// The fault is NoMemory only where a piece answered it; the packets are then those that were
    /// whole before.
    pub fn finish(self) -> Result<Capture, Stop>
        ensures whole { (fed : List ℕ) → Holds fed self → held_fault self ≢ Some CaptureFault.NoMemory
            → GivesWhole fed result }
        ensures front { (fed : List ℕ) → Holds fed self → held_fault self ≡ Some CaptureFault.NoMemory
            → GivesFront fed result }
        ensures only { (fed : List ℕ) → Holds fed self → GivesOnly fed result }
        ensures kept { MatchResult result
            (λ capture. (held_header self ≡ Some capture.header) × (capture.packets ≡ held_packets self))
            (λ stop. (stop.header ≡ held_header self) × (stop.before ≡ held_packets self)) }
    {
        let ending = self.ending();
        let packets = Packets::from_vec(self.packets);
        match ending {
            Ok(header) => Ok(Capture { header, packets }),
            Err(fault) => Err(Stop {
                header: self.header,
                before: packets,
                fault,
            }),
        }
    }

    /// How the capture ends if nothing follows: the header of a whole capture, or its fault.
    ///
    /// The fault is NoMemory just where a piece answered it.
    pub fn ending(&self) -> Result<Header, CaptureFault>
        ensures whole { (given : List CapturedPacket) (fed : List ℕ) → HoldsBehind given fed self.now
            → held_fault self.now ≢ Some CaptureFault.NoMemory
            → IsEnding fed (held_header self.now) (given ++ held_packets self.now) result }
        ensures front { (given : List CapturedPacket) (fed : List ℕ) → HoldsBehind given fed self.now
            → held_fault self.now ≡ Some CaptureFault.NoMemory
            → ReadsFront fed (held_header self.now) (given ++ held_packets self.now) }
        ensures refused { held_fault self.now ≡ Some CaptureFault.NoMemory
            → result ≡ Err CaptureFault.NoMemory }
        ensures header { IfOk result (λ header. held_header self.now ≡ Some header) }
        ensures going { OnOk result (held_fault self.now ≡ None) }
    {
        if let Some(fault) = self.fault {
            return Err(fault);
        }
        match self.header {
            None => Err(CaptureFault::TruncatedHeader),
            Some(header) => {
                if self.part.is_empty() {
                    Ok(header)
                } else {
                    Err(CaptureFault::TruncatedRecord(self.offset))
                }
            }
        }
    }

    /// Gives up the packets that are whole so far, and holds none then. Takes no memory.
    pub fn give_up(&mut self) -> Packets
        ensures given { (given : List CapturedPacket) (fed : List ℕ) → HoldsBehind given fed self.old
            → HoldsBehind (given ++ result) fed self.new }
        ensures all { result ≡ held_packets self.old }
        ensures none { held_packets self.new ≡ [] }
        ensures header { held_header self.new ≡ held_header self.old }
        ensures fault { held_fault self.new ≡ held_fault self.old }
    {
        let empty = Vec::new(self.alloc);
        Packets::from_vec(std::mem::replace(&mut self.packets, empty))
    }

    /// The packet of a whole record at the front of `rest`, which is taken off `rest`. The packet stays where it lies: no
    /// memory is taken, and the feed doesn't hold it.
    ///
    /// There is none where `rest` begins with no whole record, where the feed has no header yet or a fault, and where it
    /// holds packets or a part of a record; then nothing changes. So `fill` and `give_up` come between.
    pub fn whole<'b>(&mut self, rest: &mut &'b [u8]) -> Option<Seen<'b>>
        ensures takes { IfSome result (λ seen. TakesWhole rest.old.now rest.new.now self.old self.new (seen_packet seen)) }
        ensures sees { SeesWhole self.old rest.old.now → IsSome result }
        ensures none { result ≡ None → (self.new ≡ self.old) × (rest.new ≡ rest.old) }
        ensures grows { Grows self.old self.new }
        ensures empty { held_packets self.old ≡ [] → held_packets self.new ≡ [] }
        ensures fault { held_fault self.new ≡ held_fault self.old }
    {
        if self.fault.is_some() || !self.part.is_empty() || !self.packets.is_empty() {
            return None;
        }
        let header = self.header?;
        let (seen, more) = split_record(header.big, self.offset, *rest)?;
        self.offset = self
            .offset
            .saturating_add(RECORD_HEADER as u64 + seen.bytes.len() as u64);
        *rest = more;
        Some(seen)
    }

    /// Takes bytes off the front of `rest` and feeds them: as many as are lacking to the end of the header, of a record's
    /// header or of a record, or all that there are. The answer is that of `piece`.
    pub fn fill(&mut self, rest: &mut &[u8]) -> Result<(), CaptureFault>
        ensures takes { TakesFront rest.old.now rest.new.now self.old self.new }
        ensures says { Says (held_fault self.new) result }
        ensures grows { Grows self.old self.new }
        ensures stays { (fault : CaptureFault) → held_fault self.old ≡ Some fault
            → self.new ≡ self.old }
    {
        let bytes = *rest;
        let count = wanted(self.header, self.part.as_slice())
            .max(1)
            .min(bytes.len());
        *rest = &bytes[count..];
        self.piece(&bytes[..count])
    }
}

/// A packet that lies in a piece.
#[derive(Clone, Copy, Debug)]
pub struct Seen<'b> {
    /// The bytes that were captured, from the packet's first byte on.
    pub bytes: &'b [u8],
    /// The packet's length in bytes when it was seen.
    pub original: u32,
}

/// How many bytes a part lacks to be looked at again.
fn wanted(header: Option<Header>, part: &[u8]) -> usize
    requires { length part.now < 2 ^ 63 }
    ensures { IsWanted header part.now result }
{
    match header {
        None => FILE_HEADER.saturating_sub(part.len()),
        Some(header) => {
            if part.len() < RECORD_HEADER {
                RECORD_HEADER - part.len()
            } else {
                let whole = RECORD_HEADER + word_at(header.big, &part[8..]) as usize;
                whole.saturating_sub(part.len())
            }
        }
    }
}

/// What the header of a capture says that begins with these bytes, once they are all of it.
fn header_of(part: &[u8]) -> Result<Option<Header>, CaptureFault>
    ensures found { length part.now ≤ 24 → IfOk result (λ found.
        MatchOption found (HasNoHeader part.now CaptureFault.TruncatedHeader) (IsHeader part.now)) }
    ensures fault { IfErr result (λ f. IsLasting f × HasNoHeader part.now f) }
{
    if part.len() < 4 {
        return Ok(None);
    }
    let (big, nano) = magic(part).ok_or(CaptureFault::BadMagic)?;
    if part.len() < 8 {
        return Ok(None);
    }
    if short_at(big, &part[4..]) != 2 || short_at(big, &part[6..]) != 4 {
        return Err(CaptureFault::BadVersion);
    }
    if part.len() < FILE_HEADER {
        return Ok(None);
    }
    Ok(Some(Header {
        big,
        nano,
        snaplen: word_at(big, &part[16..]),
        network: word_at(big, &part[20..]),
    }))
}

/// The byte order and the unit of a capture that begins with these bytes.
fn magic(bytes: &[u8]) -> Option<(bool, bool)>
    requires { 4 ≤ length bytes.now }
    ensures { MatchOption result
        ((big nano : Bool) → ¬ (IsMagic big nano bytes.now)) (λ m. IsMagic m.0 m.1 bytes.now) }
{
    match (word_at(false, bytes), word_at(true, bytes)) {
        (0xa1b2_c3d4, _) => Some((false, false)),
        (0xa1b2_3c4d, _) => Some((false, true)),
        (_, 0xa1b2_c3d4) => Some((true, false)),
        (_, 0xa1b2_3c4d) => Some((true, true)),
        _ => None,
    }
}

/// How many bytes were captured in a record, once these are all of it; `offset` is its place.
fn record_of(big: bool, offset: u64, part: &[u8]) -> Result<Option<u32>, CaptureFault>
    ensures found { IfOk result (λ found. MatchOption found (IsShort big part.now) (IsWhole big part.now)) }
    ensures fault { IfErr result (λ f. (f ≡ CaptureFault.TooLong offset) × IsLong big part.now) }
{
    if part.len() < RECORD_HEADER {
        return Ok(None);
    }
    let captured = word_at(big, &part[8..]);
    if captured > MOST_CAPTURED {
        return Err(CaptureFault::TooLong(offset));
    }
    if part.len() < RECORD_HEADER + captured as usize {
        return Ok(None);
    }
    Ok(Some(captured))
}

/// The packet of the whole record that bytes begin with, if they do, and the bytes after it.
fn split_record<'b>(big: bool, offset: u64, bytes: &'b [u8]) -> Option<(Seen<'b>, &'b [u8])>
    ensures { MatchOption result (IsShort big bytes.now ⊎ IsLong big bytes.now)
        (λ found. SplitsRecord big bytes.now found.0 found.1.now) }
{
    match record_of(big, offset, bytes) {
        Ok(Some(captured)) => {
            let end = RECORD_HEADER + captured as usize;
            let seen = Seen {
                bytes: &bytes[RECORD_HEADER..end],
                original: word_at(big, &bytes[12..]),
            };
            Some((seen, &bytes[end..]))
        }
        _ => None,
    }
}

/// The packet of a whole record.
fn packet_of(alloc: Global, big: bool, part: &[u8]) -> Result<CapturedPacket, AllocError>
    requires { 16 ≤ length part.now }
    ensures { IfOk result (IsPacket big part.now) }
{
    let bytes = Bytes::from_vec(Vec::from_slice(alloc, &part[RECORD_HEADER..])?);
    let original = word_at(big, &part[12..]);
    Ok(CapturedPacket { bytes, original })
}

/// Reads a capture that is there as a whole: one piece and a finish of a `Feed`.
///
/// The answer is the header and the packets, or what stands before the first fault. Every byte
/// string has just one reading; after NoMemory the packets are the first packets of it.
pub fn read_capture(alloc: Global, bytes: &[u8]) -> Result<Capture, Stop>
    ensures gives { GivesWhole bytes.now result ⊎ GivesFront bytes.now result }
    ensures only { GivesOnly bytes.now result }
    ensures readable { HasReading bytes.now }
    ensures one { HasOneReading bytes.now }
{
    let mut feed = Feed::new(alloc);
    let _ = feed.piece(bytes);
    feed.finish()
}
