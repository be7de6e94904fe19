//! Captures that are read whole, in pieces, cut and changed.

use crate::facts::{equal, equal_at, holds};
use pcapng_reader::{
    Block, BlockError, BlockFeed, CaptureFault, Content, FeedStep, InterfaceDescription,
    PacketEntry, SectionHeader, Time, read_blocks,
};
use std::alloc::Global;
use std::process::Abort;

/// A little-endian section: an interface whose time stamps have nanoseconds and that takes four bytes of a simple packet, one
/// of another link type, and then an enhanced packet with a comment, names, a simple packet, a custom block and an obsolete
/// packet.
pub(crate) const LITTLE: &[u8; 228] =
    b"\x0a\x0d\x0d\x0a\x1c\x00\x00\x00\x4d\x3c\x2b\x1a\x01\x00\x00\x00\xff\xff\xff\xff\xff\xff\xff\xff\x1c\x00\x00\x00\x01\x00\x00\x00\x28\x00\x00\x00\x01\x00\x00\x00\x04\x00\x00\x00\x02\x00\x04\x00\x65\x74\x68\x30\x09\x00\x01\x00\x09\x00\x00\x00\x00\x00\x00\x00\x28\x00\x00\x00\x01\x00\x00\x00\x14\x00\x00\x00\x65\x00\x00\x00\x00\x00\x00\x00\x14\x00\x00\x00\x06\x00\x00\x00\x38\x00\x00\x00\x00\x00\x00\x00\x0d\x12\xd1\x14\x15\xcd\x71\x82\x05\x00\x00\x00\x3c\x00\x00\x00\x01\x02\x03\x04\x05\x00\x00\x00\x01\x00\x05\x00\x68\x65\x6c\x6c\x6f\x00\x00\x00\x00\x00\x00\x00\x38\x00\x00\x00\x04\x00\x00\x00\x10\x00\x00\x00\x00\x00\x00\x00\x10\x00\x00\x00\x03\x00\x00\x00\x14\x00\x00\x00\x09\x00\x00\x00\xa1\xa2\xa3\xa4\x14\x00\x00\x00\xad\x0b\x00\x00\x0c\x00\x00\x00\x0c\x00\x00\x00\x02\x00\x00\x00\x24\x00\x00\x00\x01\x00\x07\x00\x24\x0a\x06\x00\x01\x40\x1e\x18\x02\x00\x00\x00\x02\x00\x00\x00\xb1\xb2\x00\x00\x24\x00\x00\x00";

/// A big-endian section: an interface whose time stamps have 2^-10 seconds and lie 100 seconds ahead, an enhanced packet, and
/// statistics.
pub(crate) const BIG: &[u8; 124] =
    b"\x0a\x0d\x0d\x0a\x00\x00\x00\x1c\x1a\x2b\x3c\x4d\x00\x01\x00\x00\xff\xff\xff\xff\xff\xff\xff\xff\x00\x00\x00\x1c\x00\x00\x00\x01\x00\x00\x00\x28\x00\x71\x00\x00\x00\x00\x00\x00\x00\x09\x00\x01\x8a\x00\x00\x00\x00\x0e\x00\x08\xff\xff\xff\xff\xff\xff\xff\x9c\x00\x00\x00\x28\x00\x00\x00\x06\x00\x00\x00\x24\x00\x00\x00\x00\x00\x00\x00\x00\x00\x00\xcb\xff\x00\x00\x00\x01\x00\x00\x00\x01\xc1\x00\x00\x00\x00\x00\x00\x24\x00\x00\x00\x05\x00\x00\x00\x14\x00\x00\x00\x00\x00\x00\x00\x00\x00\x00\x00\x14";

/// Where the blocks of both sections end.
pub(crate) const ENDS: [usize; 12] = [28, 68, 88, 144, 160, 180, 192, 228, 256, 296, 332, 352];

/// A block as it was read, without its memory.
#[derive(Debug, Drop, PartialEq)]
struct Row {
    offset: u64,
    length: usize,
    content: Content,
    packet: Vec<u8>,
}

/// What is read of a capture.
#[derive(Debug, Drop, PartialEq)]
struct Reading {
    blocks: Vec<Row>,
    fault: Option<CaptureFault>,
}

/// Adds bytes after others.
fn append(rt: &impl Abort, bytes: &mut Vec<u8>, more: &[u8]) {
    bytes.extend_from_slice(more).expect(rt, "there is memory");
}

/// Both sections, one after the other.
pub(crate) fn both(rt: &impl Abort, alloc: Global) -> Vec<u8> {
    let mut bytes = Vec::new(alloc);
    append(rt, &mut bytes, LITTLE);
    append(rt, &mut bytes, BIG);
    bytes
}

/// A block, with its packet's bytes.
fn shown(rt: &impl Abort, alloc: Global, block: &Block<'_>) -> Row {
    let mut packet = Vec::new(alloc);
    if let Some((_, bytes)) = block.packet() {
        append(rt, &mut packet, bytes);
    }
    Row {
        offset: block.offset,
        length: block.bytes.len(),
        content: block.content,
        packet,
    }
}

/// Adds a block after others.
fn add(rt: &impl Abort, blocks: &mut Vec<Row>, block: Row) {
    blocks.push(block).expect(rt, "there is memory");
}

/// What is read of a capture that is there as a whole.
fn whole(rt: &impl Abort, alloc: Global, bytes: &[u8]) -> Reading {
    let (found, fault) = match read_blocks(alloc, bytes) {
        Ok(found) => (found, None),
        Err(stop) => {
            let pcapng_reader::Stop { before, fault } = stop;
            (before, Some(fault))
        }
    };
    let mut blocks = Vec::new(alloc);
    for block in found.as_slice() {
        let block = shown(rt, alloc, block);
        add(rt, &mut blocks, block);
    }
    Reading { blocks, fault }
}

/// What a feed says of the next bytes; false where it has a fault.
fn go(
    rt: &impl Abort,
    alloc: Global,
    feed: &mut BlockFeed,
    rest: &mut &[u8],
    blocks: &mut Vec<Row>,
) -> bool {
    match feed.next(rest) {
        Ok(FeedStep::Block(block)) => {
            let block = shown(rt, alloc, &block);
            add(rt, blocks, block);
            true
        }
        Ok(FeedStep::Held) => {
            if let Some(block) = feed.held() {
                let block = shown(rt, alloc, &block);
                add(rt, blocks, block);
            }
            true
        }
        Ok(_) => true,
        Err(_) => false,
    }
}

/// Goes over a piece.
fn go_over(
    rt: &impl Abort,
    alloc: Global,
    feed: &mut BlockFeed,
    piece: &[u8],
    blocks: &mut Vec<Row>,
) {
    let mut rest = piece;
    for _byte in piece {
        if rest.is_empty() || !go(rt, alloc, feed, &mut rest, blocks) {
            return;
        }
    }
}

/// What a feed reads of a capture that comes in pieces of so many bytes.
fn pieces(
    rt: &impl Abort,
    alloc: Global,
    mut feed: BlockFeed,
    bytes: &[u8],
    size: usize,
) -> Reading {
    let mut blocks = Vec::new(alloc);
    for piece in bytes.chunks(size.max(1)) {
        go_over(rt, alloc, &mut feed, piece, &mut blocks);
    }
    let fault = feed.ending().err();
    Reading { blocks, fault }
}

/// The blocks of a reading that are looked at.
fn needed(reading: &mut Reading) {
    reading
        .blocks
        .retain(|block| block.content != Content::Other);
}

/// However a capture is cut, a feed that copies reads what is read of the whole, and another the same but for blocks that
/// nobody needs.
fn is_read_alike(rt: &impl Abort, alloc: Global, bytes: &[u8]) {
    let mut want = whole(rt, alloc, bytes);
    for size in [1, 7, 13, 100, 65_536] {
        let got = pieces(rt, alloc, BlockFeed::copying(alloc), bytes, size);
        equal_at(rt, &got, &want, &size);
    }
    needed(&mut want);
    for size in [1, 7, 13, 100, 65_536] {
        let mut got = pieces(rt, alloc, BlockFeed::new(alloc), bytes, size);
        needed(&mut got);
        equal_at(rt, &got, &want, &size);
    }
}

/// What the blocks of both sections say.
const CONTENTS: [Content; 12] = [
    Content::Section(SectionHeader {
        big: false,
        minor: 0,
    }),
    Content::Interface(InterfaceDescription {
        link: 1,
        snaplen: 4,
        resolution: 9,
        offset: 0,
    }),
    Content::Interface(InterfaceDescription {
        link: 101,
        snaplen: 0,
        resolution: 6,
        offset: 0,
    }),
    Content::Packet(PacketEntry {
        section: 0,
        interface: 0,
        link: 1,
        time: Some(Time {
            units: 1_500_000_000_123_456_789,
            resolution: 9,
            offset: 0,
        }),
        start: 28,
        captured: 5,
        original: 60,
    }),
    Content::Other,
    Content::Packet(PacketEntry {
        section: 0,
        interface: 0,
        link: 1,
        time: None,
        start: 12,
        captured: 4,
        original: 9,
    }),
    Content::Other,
    Content::Packet(PacketEntry {
        section: 0,
        interface: 1,
        link: 101,
        time: Some(Time {
            units: 1_700_000_000_000_001,
            resolution: 6,
            offset: 0,
        }),
        start: 28,
        captured: 2,
        original: 2,
    }),
    Content::Section(SectionHeader {
        big: true,
        minor: 0,
    }),
    Content::Interface(InterfaceDescription {
        link: 113,
        snaplen: 0,
        resolution: 138,
        offset: -100,
    }),
    Content::Packet(PacketEntry {
        section: 1,
        interface: 0,
        link: 113,
        time: Some(Time {
            units: 52_223,
            resolution: 138,
            offset: -100,
        }),
        start: 28,
        captured: 1,
        original: 1,
    }),
    Content::Other,
];

/// The captured bytes of the packets of both sections.
const PACKETS: [&[u8]; 12] = [
    b"",
    b"",
    b"",
    b"\x01\x02\x03\x04\x05",
    b"",
    b"\xa1\xa2\xa3\xa4",
    b"",
    b"\xb1\xb2",
    b"",
    b"",
    b"\xc1",
    b"",
];

#[test]
fn two_sections(rt: HostRuntime) {
    let bytes = both(&rt, rt.alloc());
    let got = whole(&rt, rt.alloc(), &bytes);
    equal(&rt, got.fault, None);
    equal(&rt, got.blocks.len(), 12);
    let mut begin = 0;
    let blocks = got.blocks.iter().zip(CONTENTS).zip(PACKETS).zip(ENDS);
    for (((block, content), packet), end) in blocks {
        equal(&rt, block.offset, begin as u64);
        equal(&rt, block.length, end.saturating_sub(begin));
        equal(&rt, block.content, content);
        equal(&rt, block.packet.as_slice(), packet);
        begin = end;
    }
    is_read_alike(&rt, rt.alloc(), &bytes);
}

/// How many blocks end at a place or before it.
fn blocks_before(place: usize) -> usize {
    let mut count = 0usize;
    for end in ENDS {
        if end <= place {
            count = count.saturating_add(1);
        }
    }
    count
}

/// Where the block begins that a place lies in.
fn begin_before(place: usize) -> usize {
    let mut begin = 0;
    for end in ENDS {
        if end <= place {
            begin = end;
        }
    }
    begin
}

/// A capture that is cut has the blocks that are whole before the cut.
fn is_cut(rt: &impl Abort, alloc: Global, bytes: &[u8]) {
    let cut = bytes.len();
    let begin = begin_before(cut);
    let fault = if begin == cut && cut > 0 {
        None
    } else {
        Some(CaptureFault::Truncated(begin as u64))
    };
    let got = whole(rt, alloc, bytes);
    equal_at(rt, got.fault, fault, &cut);
    equal_at(rt, got.blocks.len(), blocks_before(cut), &cut);
    is_read_alike(rt, alloc, bytes);
}

#[test]
fn cut_after_each_byte(rt: HostRuntime) {
    let bytes = both(&rt, rt.alloc());
    for cut in 0..bytes.len() {
        is_cut(&rt, rt.alloc(), &bytes[..cut]);
    }
}

/// A byte that was changed leaves the blocks before its own, and a fault has the place of that block or a later one.
fn is_kept_before(rt: &impl Abort, alloc: Global, bytes: &[u8], at: usize) {
    let got = whole(rt, alloc, bytes);
    holds(rt, got.blocks.len() >= blocks_before(at));
    match got.fault {
        None | Some(CaptureFault::NoMemory) => {}
        Some(CaptureFault::BadBlock(_, place) | CaptureFault::Truncated(place)) => {
            holds(rt, place >= begin_before(at) as u64);
        }
    }
}

/// Changes each byte in turn.
fn change_each(rt: &impl Abort, alloc: Global, bytes: &mut [u8]) {
    for at in 0..bytes.len() {
        let byte = bytes[at];
        for changed in [byte ^ 1, byte ^ 0x80, !byte, 0] {
            bytes[at] = changed;
            is_kept_before(rt, alloc, bytes, at);
        }
        bytes[at] = !byte;
        is_read_alike(rt, alloc, bytes);
        bytes[at] = byte;
    }
}

#[test]
fn each_byte_changed(rt: HostRuntime) {
    let mut bytes = both(&rt, rt.alloc());
    change_each(&rt, rt.alloc(), bytes.as_mut_slice());
}

/// A place in the little-endian section, the byte there instead, and the fault that it makes.
const FAULTS: [(usize, u8, CaptureFault); 21] = [
    (0, 0x0b, CaptureFault::BadBlock(BlockError::NoSection, 0)),
    (8, 0x4e, CaptureFault::BadBlock(BlockError::BadByteOrder, 0)),
    (12, 2, CaptureFault::BadBlock(BlockError::BadVersion, 0)),
    (4, 0x18, CaptureFault::BadBlock(BlockError::BadLength, 0)),
    (4, 0x1d, CaptureFault::BadBlock(BlockError::BadLength, 0)),
    (
        24,
        0x20,
        CaptureFault::BadBlock(BlockError::LengthNotRepeated, 0),
    ),
    (7, 1, CaptureFault::BadBlock(BlockError::TooLong, 0)),
    (
        4,
        0x20,
        CaptureFault::BadBlock(BlockError::LengthNotRepeated, 0),
    ),
    (40, 0, CaptureFault::BadBlock(BlockError::BadCaptured, 160)),
    (40, 5, CaptureFault::BadBlock(BlockError::BadCaptured, 160)),
    (72, 0x10, CaptureFault::BadBlock(BlockError::BadLength, 68)),
    (92, 0x1c, CaptureFault::BadBlock(BlockError::BadLength, 88)),
    (94, 2, CaptureFault::Truncated(88)),
    (96, 2, CaptureFault::BadBlock(BlockError::NoInterface, 88)),
    (
        108,
        0x19,
        CaptureFault::BadBlock(BlockError::BadCaptured, 88),
    ),
    (111, 1, CaptureFault::BadBlock(BlockError::TooLong, 88)),
    (148, 8, CaptureFault::BadBlock(BlockError::BadLength, 144)),
    (
        158,
        1,
        CaptureFault::BadBlock(BlockError::LengthNotRepeated, 144),
    ),
    (
        164,
        0x0c,
        CaptureFault::BadBlock(BlockError::BadLength, 160),
    ),
    (
        184,
        0x10,
        CaptureFault::BadBlock(BlockError::LengthNotRepeated, 180),
    ),
    (200, 2, CaptureFault::BadBlock(BlockError::NoInterface, 192)),
];

/// The little-endian section with another byte at a place.
fn changed(rt: &impl Abort, alloc: Global, at: usize, byte: u8) -> Vec<u8> {
    let mut bytes = Vec::new(alloc);
    for (place, old) in LITTLE.iter().enumerate() {
        append(rt, &mut bytes, &[if place == at { byte } else { *old }]);
    }
    bytes
}

#[test]
fn faults(rt: HostRuntime) {
    for (at, byte, fault) in FAULTS {
        let bytes = changed(&rt, rt.alloc(), at, byte);
        let got = whole(&rt, rt.alloc(), &bytes);
        equal_at(&rt, got.fault, Some(fault), &at);
        is_read_alike(&rt, rt.alloc(), &bytes);
    }
}

/// The big-endian section without its interface, after the little-endian one, which has two.
#[test]
fn interfaces_of_the_section_before(rt: HostRuntime) {
    let big: &[u8] = BIG;
    let mut bytes = Vec::new(rt.alloc());
    append(&rt, &mut bytes, LITTLE);
    append(&rt, &mut bytes, &big[..28]);
    append(&rt, &mut bytes, &big[68..]);
    let fault = CaptureFault::BadBlock(BlockError::NoInterface, 256);
    equal(&rt, whole(&rt, rt.alloc(), &bytes).fault, Some(fault));
    is_read_alike(&rt, rt.alloc(), &bytes);
}

/// The blocks are the first of the little-endian section, and all where there was memory.
fn are_first(rt: &impl Abort, blocks: &[Block<'_>], fault: Option<CaptureFault>) {
    for (block, content) in blocks.iter().zip(CONTENTS) {
        equal(rt, block.content, content);
    }
    match fault {
        None => equal(rt, blocks.len(), 8),
        Some(fault) => {
            equal(rt, fault, CaptureFault::NoMemory);
            holds(rt, blocks.len() <= 8);
        }
    }
}

/// The packets that a feed has given are the first of the little-endian section, and all where there was memory. After a
/// fault it stays.
fn is_first(rt: &impl Abort, feed: &mut BlockFeed, packets: usize) {
    match feed.ending() {
        Ok(()) => equal(rt, packets, 3),
        Err(fault) => {
            equal(rt, fault, CaptureFault::NoMemory);
            holds(rt, packets <= 3);
            let mut more: &[u8] = LITTLE;
            equal(rt, feed.next(&mut more).err(), Some(fault));
            equal(rt, feed.ending(), Err(fault));
        }
    }
}

/// Whether a feed gives a packet of the next bytes.
fn gives_packet(feed: &mut BlockFeed, rest: &mut &[u8]) -> bool {
    match feed.next(rest) {
        Ok(FeedStep::Block(block)) => block.packet().is_some(),
        Ok(FeedStep::Held) => match feed.held() {
            Some(block) => block.packet().is_some(),
            None => false,
        },
        _ => false,
    }
}

/// How many packets a feed gives of a piece.
fn count_packets(feed: &mut BlockFeed, piece: &[u8]) -> usize {
    let mut count = 0usize;
    let mut rest = piece;
    for _byte in piece {
        if gives_packet(feed, &mut rest) {
            count = count.saturating_add(1);
        }
    }
    count
}

/// Tried with each allocation failing in turn, too.
#[test]
fn memory_refused(rt: HostRuntime) {
    match read_blocks(rt.alloc(), LITTLE) {
        Ok(blocks) => are_first(&rt, blocks.as_slice(), None),
        Err(stop) => are_first(&rt, stop.before.as_slice(), Some(stop.fault)),
    }
    let little: &[u8] = LITTLE;
    let mut feed = BlockFeed::new(rt.alloc());
    let mut packets = 0usize;
    for piece in little.chunks(13) {
        packets = packets.saturating_add(count_packets(&mut feed, piece));
    }
    is_first(&rt, &mut feed, packets);
}
