//! Captures, record by record or block by block.

ghost use Rattle.std.specs.Prelude.{◌≡◌, ◌≤◌, length};
ghost use Rattle.pcapng_reader.specs.Grammar.{front_at};
ghost use Rattle.mkdemux_c.specs.Captures.{IsReadAsHeader, IsReadAsPcapng, IsRecordItem, OfContent, OfFront, OfHeader, OfRecord, larger, number_of, number_of_header, opened, packet_item, passed, place_of};

use crate::answers::{NO_MEMORY, NO_ROOM};
use pcap_reader::{CaptureFault, Header, Seen};
use pcapng_reader::{
    BlockError, Content, Front as BlockFront, InterfaceDescription, PacketEntry,
    front_of as block_front, is_pcapng,
};
use savefile_front::{FILE_HEADER, Front, front_of, header_of, word_at};
use std::alloc::Global;

/// A header, or a block without a packet, was taken.
pub const PASSED: u32 = 0;

/// A packet was taken.
pub const PACKET: u32 = 1;

/// The bytes hold no whole header, record or block.
pub const MORE: u32 = 2;

/// A record has too many captured bytes, or a block too many bytes.
pub const TOO_LONG: u32 = 24;

/// The length of a record's header.
const RECORD_HEADER: usize = 16;

/// The format of a savefile.
pub const SAVEFILE: u32 = 1;

/// The format of a capture in pcapng.
pub const PCAPNG: u32 = 2;

/// How far a capture has been read.
#[repr(C)]
#[derive(Clone, Copy)]
pub struct Capture {
    /// How many bytes come before the next record or block.
    pub offset: u64,
    /// How many sections have begun, of pcapng.
    pub sections: u64,
    /// 0 before the first bytes, 1 for a savefile, 2 for pcapng.
    pub format: u32,
    /// Whether numbers have the high byte first: 0 or 1.
    pub big: u32,
    /// Whether the fractions of time stamps are nanoseconds, of a savefile: 0 or 1.
    pub nano: u32,
    /// The link type of the packets, of a savefile.
    pub link: u32,
    /// How many interfaces the section has described, of pcapng.
    pub interfaces: u32,
}

/// What was taken.
#[repr(C)]
#[derive(Clone, Copy)]
pub struct Item {
    /// How many bytes it has.
    pub taken: usize,
    /// Where in them the captured bytes of its packet begin.
    pub start: usize,
    /// When the packet was seen, in units of the resolution.
    pub units: u64,
    /// Seconds to be added.
    pub offset: i64,
    /// How many bytes were captured.
    pub captured: u32,
    /// The packet's length when it was seen.
    pub original: u32,
    /// The link type.
    pub link: u32,
    /// The number of the interface in its section.
    pub interface: u32,
    /// The resolution: 10^-k seconds for a k below 128, and 2^-k seconds for 128 + k.
    pub resolution: u32,
    /// Whether it says when it was seen: 0 or 1.
    pub timed: u32,
}

/// Nothing but so many bytes.
fn passed(taken: usize) -> Item
    ensures { result ≡ passed taken }
{
    Item {
        taken,
        start: 0,
        units: 0,
        offset: 0,
        captured: 0,
        original: 0,
        link: 0,
        interface: 0,
        resolution: 0,
        timed: 0,
    }
}

/// The packet of a block.
fn packet_item(taken: usize, entry: PacketEntry) -> Item
    ensures { result ≡ packet_item taken entry }
{
    let untimed = Item {
        taken,
        start: entry.start as usize,
        units: 0,
        offset: 0,
        captured: entry.captured,
        original: entry.original,
        link: u32::from(entry.link),
        interface: entry.interface,
        resolution: 0,
        timed: 0,
    };
    match entry.time {
        None => untimed,
        Some(time) => Item {
            units: time.units,
            offset: time.offset,
            resolution: u32::from(time.resolution),
            timed: 1,
            ..untimed
        },
    }
}

/// The number of what is wrong with a block.
fn number_of(error: BlockError) -> u32
    ensures { result ≡ number_of error }
{
    match error {
        BlockError::NoSection => 16,
        BlockError::BadByteOrder => 17,
        BlockError::BadLength => 18,
        BlockError::LengthNotRepeated => 19,
        BlockError::BadVersion => 20,
        BlockError::NoInterface => 21,
        BlockError::BadCaptured => 22,
        BlockError::TooManyInterfaces => 23,
        BlockError::TooLong => TOO_LONG,
    }
}

/// The next block of a capture in pcapng.
fn read_block(
    capture: &mut Capture,
    interfaces: &mut [InterfaceDescription],
    bytes: &[u8],
    item: &mut Item,
) -> u32
    ensures { OfFront capture.old interfaces.old (front_at (place_of capture.old interfaces.old) bytes.now) result capture.new interfaces.new item.new }
{
    let described = interfaces.len().min(capture.interfaces as usize);
    match block_front(
        capture.sections,
        capture.big != 0,
        &interfaces[..described],
        bytes,
    ) {
        BlockFront::Short => {
            *item = passed(0);
            MORE
        }
        BlockFront::Wrong(error) => {
            *item = passed(0);
            number_of(error)
        }
        BlockFront::Whole(total, content) => take_block(capture, interfaces, total, content, item),
    }
}

/// Takes a whole block.
fn take_block(
    capture: &mut Capture,
    interfaces: &mut [InterfaceDescription],
    total: u32,
    content: Content,
    item: &mut Item,
) -> u32
    ensures { OfContent capture.old interfaces.old content total result capture.new interfaces.new item.new }
{
    match content {
        Content::Interface(described) => {
            let place = capture.interfaces as usize;
            if place >= interfaces.len() {
                *item = passed(0);
                return NO_ROOM;
            }
            interfaces[place] = described;
            capture.interfaces = capture.interfaces.saturating_add(1);
            take_bytes(capture, total, passed(total as usize), item);
            PASSED
        }
        Content::Section(header) => {
            capture.sections = capture.sections.saturating_add(1);
            capture.big = u32::from(header.big);
            capture.interfaces = 0;
            take_bytes(capture, total, passed(total as usize), item);
            PASSED
        }
        Content::Packet(entry) => {
            take_bytes(capture, total, packet_item(total as usize, entry), item);
            PACKET
        }
        Content::Other => {
            take_bytes(capture, total, passed(total as usize), item);
            PASSED
        }
    }
}

/// Takes the bytes of a block of a capture in pcapng.
fn take_bytes(capture: &mut Capture, total: u32, taken: Item, item: &mut Item)
    ensures capture { capture.new ≡ record capture.old { offset = larger capture.old.offset total; format = PCAPNG } }
    ensures item { item.new ≡ taken }
{
    capture.format = PCAPNG;
    capture.offset = capture.offset.saturating_add(u64::from(total));
    *item = taken;
}

/// The packet of a record of a savefile.
fn record_item(capture: &Capture, bytes: &[u8], taken: usize, packet: Seen) -> Item
    requires header { 16 ≤ length bytes.now }
    requires short { length packet.bytes.now ≤ 262144 }
    ensures { IsRecordItem capture.now bytes.now taken packet.entry result }
{
    let big = capture.big != 0;
    let (parts, resolution) = if capture.nano != 0 {
        (1_000_000_000, 9)
    } else {
        (1_000_000, 6)
    };
    Item {
        taken,
        start: RECORD_HEADER,
        units: u64::from(word_at(big, bytes)) * parts + u64::from(word_at(big, &bytes[4..])),
        offset: 0,
        captured: packet.bytes.len() as u32,
        original: packet.original,
        link: capture.link,
        interface: 0,
        resolution,
        timed: 1,
    }
}

/// The next record of a savefile.
fn read_record(capture: &mut Capture, bytes: &[u8], item: &mut Item) -> u32
    ensures { OfRecord capture.old bytes.now result capture.new item.new }
{
    match front_of(capture.big != 0, bytes) {
        Front::Record { length, packet } => {
            *item = record_item(capture, bytes, length, packet);
            capture.offset = capture.offset.saturating_add(length as u64);
            PACKET
        }
        Front::Part => {
            *item = passed(0);
            MORE
        }
        Front::TooLong => {
            *item = passed(0);
            TOO_LONG
        }
    }
}

/// The header of a savefile.
fn read_header(alloc: Global, capture: &mut Capture, bytes: &[u8], item: &mut Item) -> u32
    ensures { OfHeader capture.old bytes.now result capture.new item.new }
{
    *item = passed(0);
    let front = bytes.len().min(FILE_HEADER);
    match header_of(alloc, &bytes[..front]) {
        Ok(Ok(header)) => {
            open(capture, header);
            *item = passed(FILE_HEADER);
            PASSED
        }
        Ok(Err(fault)) => number_of_header(fault),
        Err(_) => NO_MEMORY,
    }
}

/// A savefile has this header.
fn open(capture: &mut Capture, header: Header)
    ensures { capture.new ≡ opened capture.old header }
{
    capture.offset = FILE_HEADER as u64;
    capture.format = SAVEFILE;
    capture.big = u32::from(header.big);
    capture.nano = u32::from(header.nano);
    capture.link = header.network;
}

/// The number of what is wrong with a header.
fn number_of_header(fault: CaptureFault) -> u32
    ensures { result ≡ number_of_header fault }
{
    match fault {
        CaptureFault::BadMagic => 25,
        CaptureFault::BadVersion => 20,
        CaptureFault::TruncatedHeader | CaptureFault::TruncatedRecord(_) => MORE,
        CaptureFault::TooLong(_) => TOO_LONG,
        CaptureFault::NoMemory => NO_MEMORY,
    }
}

/// Takes the next header, record or block off the front of a capture's bytes, whose format its first four bytes tell, and says what
/// it is.
///
/// `PACKET`: a packet was taken, of which `item` says where it lies. `PASSED`: what was taken has no packet. `MORE`: no whole header,
/// record or block is there, and the same bytes with more behind them are to be handed over; where the capture ends there, it ends
/// well if no bytes are left and its header was read. 254: the section has more interfaces than there is room for. 255: memory was
/// refused, which is taken for the header of a savefile alone. Any other answer is a fault, at `capture.offset`. Nothing is taken
/// then.
#[unsafe(no_mangle)]
pub extern "C" fn mkdemux_next(
    alloc: Global,
    capture: &mut Capture,
    interfaces: &mut [InterfaceDescription],
    bytes: &[u8],
    item: &mut Item,
) -> u32
    // A capture in pcapng is read by its grammar: the answer is what the bytes begin with at its place.
    ensures pcapng { IsReadAsPcapng capture.old bytes.now
        → OfFront capture.old interfaces.old (front_at (place_of capture.old interfaces.old) bytes.now) result capture.new interfaces.new item.new }

    // So is a savefile: its header first, then its records.
    ensures record { capture.old.format ≡ SAVEFILE → OfRecord capture.old bytes.now result capture.new item.new }
    ensures header { IsReadAsHeader capture.old bytes.now → OfHeader capture.old bytes.now result capture.new item.new }

    // Interfaces are written where a capture in pcapng describes one, and nowhere else.
    ensures interfaces { (IsReadAsPcapng capture.old bytes.now → ⊥) → interfaces.new ≡ interfaces.old }
{
    match capture.format {
        SAVEFILE => read_record(capture, bytes, item),
        PCAPNG => read_block(capture, interfaces, bytes, item),
        _ if is_pcapng(bytes) => read_block(capture, interfaces, bytes, item),
        _ => read_header(alloc, capture, bytes, item),
    }
}
