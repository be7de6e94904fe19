//! `dump` and `match --pcap` over captures that come a byte, seven bytes or a block at a time.

use crate::devices::Pieces;
use crate::engines::{Command, run};
use crate::facts::equal_at;
use std::alloc::Global;
use std::process::Abort;

/// Little-endian, microseconds, snaplen 65535, network 1.
const HEADER: &str = "d4c3b2a1020004000000000000000000ffff000001000000";

/// The verdict is the first byte of the packet.
const FIRST: Command<'static> = Command::Match("2,48 0 0 0,22 0 0 0", true);

/// Commands and their captures in hexadecimal digits, each with its status and what is shown.
static CAPTURES: [(Command<'static>, &str, &str, u8, &str); 23] = [
    (Command::Dump, "", "", 1, "fault TruncatedHeader\n"),
    (
        Command::Dump,
        HEADER,
        "",
        0,
        "pcap little micro snaplen 65535 network 1\n",
    ),
    (
        Command::Dump,
        HEADER,
        "00000000000000000100040001000400",
        1,
        "pcap little micro snaplen 65535 network 1\nfault TooLong 24\n",
    ),
    (
        Command::Dump,
        HEADER,
        "00000000000000000200000002000000abcd0000000000",
        1,
        "pcap little micro snaplen 65535 network 1\n1 captured 2 original 2 abcd\nfault TruncatedRecord 42\n",
    ),
    (
        Command::Dump,
        "",
        "4d3cb2a1020004000000000000000000000001000000000000",
        1,
        "pcap little nano snaplen 65536 network 0\nfault TruncatedRecord 24\n",
    ),
    (
        Command::Dump,
        "",
        "4d3cb2a10200040000000000000000000000010000000000",
        0,
        "pcap little nano snaplen 65536 network 0\n",
    ),
    (
        Command::Dump,
        "",
        "a1b2c3d4000200040000000000000000000100000000000100000000000000000000000000000005",
        0,
        "pcap big micro snaplen 65536 network 1\n1 captured 0 original 5 -\n",
    ),
    (
        Command::Dump,
        "",
        "a1b2c3d40002000400000000000000000001000000000001",
        0,
        "pcap big micro snaplen 65536 network 1\n",
    ),
    // Time stamps of microseconds, and of nanoseconds.
    (
        Command::Stamped,
        HEADER,
        "01000000020000000200000002000000abcd",
        0,
        "pcap little micro snaplen 65535 network 1\n1 1.000002 captured 2 original 2 abcd\n",
    ),
    (
        Command::Stamped,
        "",
        "a1b23c4d000200040000000000000000000100000000000100000007000000080000000000000005",
        0,
        "pcap big nano snaplen 65536 network 1\n1 7.000000008 captured 0 original 5 -\n",
    ),
    (
        Command::DumpStream(false),
        "",
        "",
        1,
        "fault TruncatedHeader\n",
    ),
    (
        Command::DumpStream(true),
        HEADER,
        "01000000020000000200000002000000abcd02000000000000000100000004000000ef",
        0,
        "pcap little micro snaplen 65535 network 1\n1 1.000002 captured 2 original 2 abcd\n2 2.000000 captured 1 original 4 ef\n",
    ),
    (
        Command::DumpStream(false),
        HEADER,
        "00000000000000000200000002000000abcd0000000000",
        1,
        "pcap little micro snaplen 65535 network 1\n1 captured 2 original 2 abcd\nfault TruncatedRecord 42\n",
    ),
    (
        Command::DumpStream(false),
        HEADER,
        "00000000000000000100040001000400",
        1,
        "pcap little micro snaplen 65535 network 1\nfault TooLong 24\n",
    ),
    (Command::Dump, "", "d4c3b2a2", 1, "fault BadMagic\n"),
    (
        Command::Dump,
        "",
        "d4c3b2a103000400",
        1,
        "fault BadVersion\n",
    ),
    // A filter sees the original length.
    (
        Command::Match("2,128 0 0 0,22 0 0 0", true),
        "d4c3b2a102000400000000000000000000000400010000000000000000000000",
        "3c000000ea050000000000000000000000000000000000000000000000000000000000000000000000000000000000000000000000000000000000000000000000000000",
        0,
        "1514 2\n",
    ),
    // Outcomes stand before the fault of a capture.
    (FIRST, "", "", 1, "fault TruncatedHeader\n"),
    (FIRST, HEADER, "", 0, ""),
    (
        FIRST,
        HEADER,
        "00000000000000000200000002000000abcd",
        0,
        "171 2\n",
    ),
    (
        FIRST,
        HEADER,
        "00000000000000000200000002000000abcd0000000000",
        1,
        "171 2\nfault TruncatedRecord 42\n",
    ),
    (
        FIRST,
        HEADER,
        "00000000000000000200000002000000abcd00000000000000000100040001000400",
        1,
        "171 2\nfault TooLong 42\n",
    ),
    (FIRST, "", "d4c3b2a2", 1, "fault BadMagic\n"),
];

/// The bytes of two texts of hexadecimal digits, one after the other.
pub fn bytes_of(rt: &impl Abort, alloc: Global, front: &str, back: &str) -> Vec<u8> {
    let mut bytes = hex::decode(alloc, front).expect(rt, "digits");
    let more = hex::decode(alloc, back).expect(rt, "digits");
    bytes
        .extend_from_slice(more.as_slice())
        .expect(rt, "there is memory");
    bytes
}

/// However many bytes a read gives, the command ends with this status and shows this text.
fn shows(
    rt: &impl Abort,
    alloc: Global,
    command: Command<'_>,
    capture: &[u8],
    status: u8,
    shown: &str,
) {
    for step in [1, 7, 65_536] {
        let mut out = Vec::new(alloc);
        let mut reader = Pieces::new(capture, step, 0);
        let answer = run(alloc, command, &mut reader, &mut out);
        equal_at(rt, answer, Ok(status), &shown);
        equal_at(rt, out.as_slice(), shown.as_bytes(), &shown);
    }
}

#[test]
fn captures_in_pieces(rt: HostRuntime) {
    for (command, header, records, status, shown) in &CAPTURES {
        let capture = bytes_of(&rt, rt.alloc(), header, records);
        shows(&rt, rt.alloc(), *command, &capture, *status, shown);
    }
}
