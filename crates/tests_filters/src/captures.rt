//! Captures that are read whole, in pieces and cut.

use crate::facts::{equal, equal_at, holds};
use pcap_reader::{
    Bytes, Capture, CaptureFault, CapturedPacket, Feed, Header, Packets, SharedPackets, Stop,
    read_capture, share_capture,
};
use seq::Shared;
use std::alloc::Global;
use std::process::Abort;

/// A header: little-endian, microseconds, 65,535 bytes at most, Ethernet.
const HEADER: &[u8; 24] = b"\xd4\xc3\xb2\xa1\x02\0\x04\0\0\0\0\0\0\0\0\0\xff\xff\0\0\x01\0\0\0";

/// That header, a record of two bytes, and five bytes of another record.
const TRUNCATED: &[u8; 47] =
    b"\xd4\xc3\xb2\xa1\x02\0\x04\0\0\0\0\0\0\0\0\0\xff\xff\0\0\x01\0\0\0\0\0\0\0\0\0\0\0\x02\0\0\0\x02\0\0\0\xab\xcd\0\0\0\0\0";

/// That header, and the header of a record of 262,145 bytes.
const TOO_LONG: &[u8; 40] =
    b"\xd4\xc3\xb2\xa1\x02\0\x04\0\0\0\0\0\0\0\0\0\xff\xff\0\0\x01\0\0\0\0\0\0\0\0\0\0\0\x01\0\x04\0\x01\0\x04\0";

/// What is read of a capture.
#[derive(Debug, Drop, PartialEq)]
struct Reading {
    header: Option<Header>,
    packets: Vec<CapturedPacket>,
    fault: Option<CaptureFault>,
}

fn shown(answer: Result<Capture, Stop>) -> Reading {
    match answer {
        Ok(capture) => {
            let Capture { header, packets } = capture;
            Reading {
                header: Some(header),
                packets: packets.into_vec(),
                fault: None,
            }
        }
        Err(stop) => {
            let Stop {
                header,
                before,
                fault,
            } = stop;
            Reading {
                header,
                packets: before.into_vec(),
                fault: Some(fault),
            }
        }
    }
}

/// What is read of a capture that comes in pieces of so many bytes.
fn read_pieces(alloc: Global, bytes: &[u8], size: usize) -> Reading {
    let mut feed = Feed::new(alloc);
    for piece in bytes.chunks(size.max(1)) {
        let _ = feed.piece(piece);
    }
    shown(feed.finish())
}

/// What `HEADER` says.
const ETHERNET: Header = Header {
    big: false,
    nano: false,
    snaplen: 65_535,
    network: 1,
};

/// Adds bytes after others.
fn append(rt: &impl Abort, bytes: &mut Vec<u8>, more: &[u8]) {
    bytes.extend_from_slice(more).expect(rt, "there is memory");
}

/// These bytes, one part after the other.
fn joined(rt: &impl Abort, alloc: Global, parts: &[&[u8]]) -> Vec<u8> {
    let mut bytes = Vec::new(alloc);
    for part in parts {
        append(rt, &mut bytes, part);
    }
    bytes
}

/// A packet of these captured bytes and this original length.
fn packet(rt: &impl Abort, alloc: Global, bytes: &[u8], original: u32) -> CapturedPacket {
    let bytes = Vec::from_slice(alloc, bytes).expect(rt, "there is memory");
    CapturedPacket {
        bytes: Bytes::from_vec(bytes),
        original,
    }
}

/// Adds a packet after others.
fn add(rt: &impl Abort, packets: &mut Vec<CapturedPacket>, packet: CapturedPacket) {
    packets.push(packet).expect(rt, "there is memory");
}

/// A reading with a packet of each of these captured bytes and original lengths.
fn wanted(
    rt: &impl Abort,
    alloc: Global,
    header: Option<Header>,
    rows: &[(&[u8], u32)],
    fault: Option<CaptureFault>,
) -> Reading {
    let mut packets = Vec::new(alloc);
    for (bytes, original) in rows {
        let packet = packet(rt, alloc, bytes, *original);
        add(rt, &mut packets, packet);
    }
    Reading {
        header,
        packets,
        fault,
    }
}

/// What is read of a capture whose packets share its bytes.
fn shared(rt: &impl Abort, alloc: Global, bytes: &[u8]) -> Result<SharedPackets, CaptureFault> {
    let bytes = Vec::from_slice(alloc, bytes).expect(rt, "there is memory");
    let file = Shared::from_vec(alloc, bytes).expect(rt, "there is memory");
    share_capture(alloc, &file)
}

/// Where the capture has no fault its packets are shared, and else its fault is given.
fn is_shared(rt: &impl Abort, alloc: Global, bytes: &[u8], want: &Reading) {
    match shared(rt, alloc, bytes) {
        Err(fault) => equal(rt, Some(fault), want.fault),
        Ok(packets) => {
            holds(rt, want.fault.is_none());
            let packets = packets.as_slice();
            equal(rt, packets.len(), want.packets.len());
            for (packet, want) in packets.iter().zip(want.packets.iter()) {
                equal(rt, packet.bytes(), want.bytes.as_slice());
                equal(rt, packet.original(), want.original);
            }
        }
    }
}

/// What is read of a capture, whole, in pieces of 1, 7 and 65,536 bytes, and shared.
fn check(rt: &impl Abort, alloc: Global, bytes: &[u8], want: &Reading) {
    equal(rt, &shown(read_capture(alloc, bytes)), want);
    is_shared(rt, alloc, bytes, want);
    for size in [1, 7, 65_536] {
        equal_at(rt, &read_pieces(alloc, bytes, size), want, &size);
    }
}

/// Headers, and what they say.
const HEADERS: [(&[u8], Header); 4] = [
    (HEADER, ETHERNET),
    (
        b"\x4d\x3c\xb2\xa1\x02\0\x04\0\0\0\0\0\0\0\0\0\0\0\x01\0\0\0\0\0",
        Header {
            big: false,
            nano: true,
            snaplen: 65_536,
            network: 0,
        },
    ),
    (
        b"\xa1\xb2\xc3\xd4\0\x02\0\x04\0\0\0\0\0\0\0\0\0\x01\0\0\0\0\0\x01",
        Header {
            big: true,
            nano: false,
            snaplen: 65_536,
            network: 1,
        },
    ),
    (
        b"\xa1\xb2\x3c\x4d\0\x02\0\x04\0\0\0\0\0\0\0\0\xff\xff\xff\xff\0\0\0\x71",
        Header {
            big: true,
            nano: true,
            snaplen: u32::MAX,
            network: 113,
        },
    ),
];

#[test]
fn headers(rt: HostRuntime) {
    for (bytes, header) in &HEADERS {
        let want = wanted(&rt, rt.alloc(), Some(*header), &[], None);
        check(&rt, rt.alloc(), bytes, &want);
    }
}

/// Bytes that begin with no whole header of version 2.4.
const NO_HEADERS: [(&[u8], CaptureFault); 11] = [
    (b"", CaptureFault::TruncatedHeader),
    (b"\xff\xff\xff", CaptureFault::TruncatedHeader),
    (b"\xd4\xc3\xb2\xa2", CaptureFault::BadMagic),
    (b"\xa1\xb2\xc3\xd5\0\x02\0\x04", CaptureFault::BadMagic),
    (b"\xc3\xd4\xa1\xb2", CaptureFault::BadMagic),
    (b"\xd4\xc3\xb2\xa1\x03\0\x04", CaptureFault::TruncatedHeader),
    (b"\xd4\xc3\xb2\xa1\x03\0\x04\0", CaptureFault::BadVersion),
    (b"\x4d\x3c\xb2\xa1\x02\0\x03\0", CaptureFault::BadVersion),
    (b"\xa1\xb2\xc3\xd4\x02\0\x04\0", CaptureFault::BadVersion),
    (b"\xa1\xb2\x3c\x4d\0\x02\0\x05\0", CaptureFault::BadVersion),
    (
        b"\xd4\xc3\xb2\xa1\x02\0\x04\0\0\0\0\0\0\0\0\0\xff\xff\0\0\x01\0\0",
        CaptureFault::TruncatedHeader,
    ),
];

#[test]
fn no_headers(rt: HostRuntime) {
    for (bytes, fault) in &NO_HEADERS {
        let want = wanted(&rt, rt.alloc(), None, &[], Some(*fault));
        check(&rt, rt.alloc(), bytes, &want);
    }
}

/// What follows `HEADER`, with the packets and the fault that are read.
const RECORDS: [(&[u8], &[(&[u8], u32)], Option<CaptureFault>); 4] = [
    (
        b"\0\0\0\0\0\0\0\0\x01\0\x04\0\x01\0\x04\0",
        &[],
        Some(CaptureFault::TooLong(24)),
    ),
    (
        b"\0\0\0\0\0\0\0\0\x02\0\0\0\x02\0\0\0\xab\xcd\0\0\0\0\0",
        &[(b"\xab\xcd", 2)],
        Some(CaptureFault::TruncatedRecord(42)),
    ),
    (
        b"\0\0\0\0\0\0\0\0\0\0\0\0\xea\x05\0\0\0\0\0\0\0\0\0\0\x03\0\0\0\x02\0\0\0\x01\x02\x03",
        &[(b"", 1514), (b"\x01\x02\x03", 2)],
        None,
    ),
    (
        b"\0\0\0\0\0\0\0\0\x01\0\0\0\x01\0\0\0\xee\0\0\0\0\0\0\0\0\xff\xff\xff\xff\0\0\0\0\0",
        &[(b"\xee", 1)],
        Some(CaptureFault::TooLong(41)),
    ),
];

#[test]
fn records(rt: HostRuntime) {
    for (bytes, packets, fault) in &RECORDS {
        let capture = joined(&rt, rt.alloc(), &[HEADER, bytes]);
        let want = wanted(&rt, rt.alloc(), Some(ETHERNET), packets, *fault);
        check(&rt, rt.alloc(), &capture, &want);
    }
}

/// A record of 60 bytes of a packet of 1,514, and a record of a big-endian capture.
#[test]
fn packets_cut_off(rt: HostRuntime) {
    is_cut(
        &rt,
        rt.alloc(),
        (HEADER, ETHERNET),
        b"\0\0\0\0\0\0\0\0\x3c\0\0\0\xea\x05\0\0",
        (&[9; 60], 1514),
    );
    is_cut(
        &rt,
        rt.alloc(),
        HEADERS[2],
        b"\0\0\0\0\0\0\0\0\0\0\0\x01\0\0\x01\x02",
        (b"\xee", 258),
    );
}

/// The packet is read of a capture of this header and one record, of which these are the bytes before the packet's.
fn is_cut(
    rt: &impl Abort,
    alloc: Global,
    header: (&[u8], Header),
    record: &[u8],
    packet: (&[u8], u32),
) {
    let capture = joined(rt, alloc, &[header.0, record, packet.0]);
    let want = wanted(rt, alloc, Some(header.1), &[packet], None);
    check(rt, alloc, &capture, &want);
}

/// What is read of a capture that comes in pieces of so many bytes, whose packets are seen in place or given up.
fn run_pieces(rt: &impl Abort, alloc: Global, bytes: &[u8], size: usize) -> Reading {
    let mut feed = Feed::new(alloc);
    let mut packets = Vec::new(alloc);
    for piece in bytes.chunks(size.max(1)) {
        let mut rest = piece;
        for _ in 0..bytes.len() {
            run_step(rt, alloc, &mut feed, &mut rest, &mut packets);
        }
    }
    ended(feed, packets)
}

/// Sees one packet in place, or fills the feed and has it give up what it has.
fn run_step(
    rt: &impl Abort,
    alloc: Global,
    feed: &mut Feed,
    rest: &mut &[u8],
    packets: &mut Vec<CapturedPacket>,
) {
    match feed.whole(rest) {
        Some(seen) => {
            let packet = packet(rt, alloc, seen.bytes, seen.original);
            add(rt, packets, packet);
        }
        None => {
            let _ = feed.fill(rest);
            for packet in feed.give_up().into_vec() {
                add(rt, packets, packet);
            }
        }
    }
}

/// What was read at the end of a feed that gave up these packets.
fn ended(feed: Feed, packets: Vec<CapturedPacket>) -> Reading {
    let fault = feed.ending().err();
    let header = match feed.finish() {
        Ok(capture) => Some(capture.header),
        Err(stop) => stop.header,
    };
    Reading {
        header,
        packets,
        fault,
    }
}

#[test]
fn in_place_as_whole(rt: HostRuntime) {
    let records = joined(
        &rt,
        rt.alloc(),
        &[
            HEADER,
            b"\0\0\0\0\0\0\0\0\x03\0\0\0\x09\0\0\0\xab\xcd\xef",
            b"\0\0\0\0\0\0\0\0\0\0\0\0\0\0\0\0",
            b"\0\0\0\0\0\0\0\0\x01\0\0\0\x01\0\0\0\x11",
        ],
    );
    is_read_in_place(&rt, rt.alloc(), &records);
    is_read_in_place(&rt, rt.alloc(), TRUNCATED);
    is_read_in_place(&rt, rt.alloc(), TOO_LONG);
    is_read_in_place(&rt, rt.alloc(), b"\xd4\xc3\xb2\xa2");
}

/// In pieces of each size below 80 as much is read in place as of the whole.
fn is_read_in_place(rt: &impl Abort, alloc: Global, capture: &[u8]) {
    let want = shown(read_capture(alloc, capture));
    for size in 1..80 {
        equal_at(rt, &run_pieces(rt, alloc, capture, size), &want, &size);
    }
}

/// What is read of so many bytes of `TRUNCATED`: the header, how many packets, and the fault.
fn read_until(cut: usize) -> (Option<Header>, usize, Option<CaptureFault>) {
    let ethernet = Some(ETHERNET);
    if cut < 24 {
        (None, 0, Some(CaptureFault::TruncatedHeader))
    } else if cut == 24 {
        (ethernet, 0, None)
    } else if cut < 42 {
        (ethernet, 0, Some(CaptureFault::TruncatedRecord(24)))
    } else if cut == 42 {
        (ethernet, 1, None)
    } else {
        (ethernet, 1, Some(CaptureFault::TruncatedRecord(42)))
    }
}

#[test]
fn cut_after_each_byte(rt: HostRuntime) {
    let capture: &[u8] = TRUNCATED;
    let packets: [(&[u8], u32); 1] = [(b"\xab\xcd", 2)];
    for cut in 0..48 {
        let (header, count, fault) = read_until(cut);
        let rows = &packets[..count.min(1)];
        let want = wanted(&rt, rt.alloc(), header, rows, fault);
        let got = shown(read_capture(rt.alloc(), &capture[..cut]));
        equal_at(&rt, got, want, &cut);
    }
}

#[test]
fn byte_by_byte(rt: HostRuntime) {
    let mut feed = Feed::new(rt.alloc());
    for byte in TRUNCATED {
        equal(&rt, feed.piece(&[*byte]), Ok(()));
    }
    let whole = shown(read_capture(rt.alloc(), TRUNCATED));
    equal(&rt, whole.fault, Some(CaptureFault::TruncatedRecord(42)));
    equal(&rt, shown(feed.finish()), whole);
}

/// A header, and a record that says how many bytes were captured, of which so many are there.
fn record_of(rt: &impl Abort, alloc: Global, captured: u32, there: usize) -> Vec<u8> {
    let body = sevens(rt, alloc, there);
    let captured = captured.to_le_bytes();
    let parts: [&[u8]; 5] = [
        HEADER,
        b"\0\0\0\0\0\0\0\0",
        &captured,
        b"\x3c\0\0\0",
        body.as_slice(),
    ];
    joined(rt, alloc, &parts)
}

/// So many bytes of 7.
fn sevens(rt: &impl Abort, alloc: Global, count: usize) -> Vec<u8> {
    vec![in alloc; 7u8; count].expect(rt, "there is memory")
}

#[test]
fn greatest_records(rt: HostRuntime) {
    is_read_whole(&rt, rt.alloc());
    is_too_long(&rt, rt.alloc(), 262_145, 3);
    is_too_long(&rt, rt.alloc(), u32::MAX, 0);
}

/// A record of 262,144 bytes is read.
fn is_read_whole(rt: &impl Abort, alloc: Global) {
    let whole = record_of(rt, alloc, 262_144, 262_144);
    let body = sevens(rt, alloc, 262_144);
    let want = wanted(rt, alloc, Some(ETHERNET), &[(body.as_slice(), 60)], None);
    equal(rt, &shown(read_capture(alloc, &whole)), &want);
    equal(rt, &read_pieces(alloc, &whole, 65_536), &want);
}

/// A record that says so many bytes is refused, however many are there.
fn is_too_long(rt: &impl Abort, alloc: Global, captured: u32, there: usize) {
    let record = record_of(rt, alloc, captured, there);
    let fault = Some(CaptureFault::TooLong(24));
    let want = wanted(rt, alloc, Some(ETHERNET), &[], fault);
    equal(rt, shown(read_capture(alloc, &record)), want);
}

#[test]
fn faults_stay(rt: HostRuntime) {
    bad_magic_stays(&rt, rt.alloc());
    long_record_stays(&rt, rt.alloc());
}

fn bad_magic_stays(rt: &impl Abort, alloc: Global) {
    let mut feed = Feed::new(alloc);
    equal(rt, feed.piece(b"\xd4\xc3\xb2"), Ok(()));
    equal(rt, feed.piece(b"\xa2"), Err(CaptureFault::BadMagic));
    equal(rt, feed.piece(TRUNCATED), Err(CaptureFault::BadMagic));
    let none = wanted(rt, alloc, None, &[], Some(CaptureFault::BadMagic));
    equal(rt, shown(feed.finish()), none);
}

fn long_record_stays(rt: &impl Abort, alloc: Global) {
    let capture: &[u8] = TRUNCATED;
    let long: &[u8] = TOO_LONG;
    let mut feed = Feed::new(alloc);
    equal(rt, feed.piece(&capture[..42]), Ok(()));
    let too_long = Err(CaptureFault::TooLong(42));
    equal(rt, feed.piece(&long[24..]), too_long);
    equal(rt, feed.piece(&capture[24..42]), too_long);
    equal(rt, feed.piece(b""), too_long);
    let fault = Some(CaptureFault::TooLong(42));
    let want = wanted(rt, alloc, Some(ETHERNET), &[(b"\xab\xcd", 2)], fault);
    equal(rt, shown(feed.finish()), want);
}

#[test]
fn copied_packet(rt: HostRuntime) {
    let packet = packet(&rt, rt.alloc(), &[1, 2, 3], 1514);
    let copy = packet.clone().expect(&rt, "there is memory");
    equal(&rt, &copy, &packet);
    equal(&rt, copy.bytes.into_vec().as_slice(), &[1, 2, 3]);
    let none = Packets::from_vec(Vec::new(rt.alloc()));
    holds(&rt, none.as_slice().is_empty());
}

/// Where memory is refused at any growth, what is read begins what the bytes hold, and the
/// fault stays.
#[test]
fn refused_memory(rt: HostRuntime) {
    let mut feed = Feed::new(rt.alloc());
    let last = last_answer(&rt, &mut feed);
    let refused = last == Err(CaptureFault::NoMemory);
    is_front(&rt, &shown(feed.finish()), refused);
}

/// What the feed answers to the last piece; no piece is read after a refusal.
fn last_answer(rt: &impl Abort, feed: &mut Feed) -> Result<(), CaptureFault> {
    let mut last = Ok(());
    for piece in TRUNCATED.chunks(7) {
        let answer = feed.piece(piece);
        holds(rt, last == Ok(()) || answer == last);
        holds(
            rt,
            answer == Ok(()) || answer == Err(CaptureFault::NoMemory),
        );
        last = answer;
    }
    last
}

/// The packet of `TRUNCATED`, or none where memory was refused.
fn is_front(rt: &impl Abort, got: &Reading, refused: bool) {
    equal(rt, got.fault == Some(CaptureFault::NoMemory), refused);
    match got.packets.as_slice() {
        [] => holds(rt, refused),
        [packet] => equal(rt, packet.bytes.as_slice(), b"\xab\xcd"),
        _ => panic!(rt; "too many packets"),
    }
}

/// A number of four bytes in the byte order of a header.
fn number_of(big: bool, number: u32) -> [u8; 4] {
    if big {
        number.to_be_bytes()
    } else {
        number.to_le_bytes()
    }
}

/// Packet number `i` of a made capture: `i` modulo 97 bytes, each `i` modulo 251, of an original length of 3 times `i`.
fn made_packet(rt: &impl Abort, alloc: Global, i: u32) -> CapturedPacket {
    let bytes = vec![in alloc; (i % 251) as u8; (i % 97) as usize].expect(rt, "there is memory");
    CapturedPacket {
        bytes: Bytes::from_vec(bytes),
        original: i.wrapping_mul(3),
    }
}

/// Adds the record of that packet.
fn add_record(rt: &impl Abort, capture: &mut Vec<u8>, big: bool, i: u32, packet: &CapturedPacket) {
    append(rt, capture, &number_of(big, i));
    append(rt, capture, &number_of(big, 999_999));
    append(rt, capture, &number_of(big, i % 97));
    append(rt, capture, &number_of(big, packet.original));
    append(rt, capture, packet.bytes.as_slice());
}

/// How many packets a made capture has.
const MADE: u32 = 300;

#[test]
fn several_hundred_packets_in_each_kind(rt: HostRuntime) {
    for (front, header) in &HEADERS {
        are_all_read(&rt, rt.alloc(), front, *header);
    }
}

/// All packets of a made capture after this header are read.
fn are_all_read(rt: &impl Abort, alloc: Global, front: &[u8], header: Header) {
    let mut capture = joined(rt, alloc, &[front]);
    let mut packets = Vec::new(alloc);
    for i in 0..MADE {
        let packet = made_packet(rt, alloc, i);
        add_record(rt, &mut capture, header.big, i, &packet);
        add(rt, &mut packets, packet);
    }
    let want = Reading {
        header: Some(header),
        packets,
        fault: None,
    };
    check(rt, alloc, &capture, &want);
}
