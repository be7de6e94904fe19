//! Runs that may be refused memory: what they show then. With ample memory they show all.

use crate::devices::Pieces;
use crate::engines::{Command, run};
use crate::facts::{equal, holds};
use crate::page::Page;
use console::{CheckInput, View};
use engine_io::EngineFault;
use std::alloc::Global;
use std::process::Abort;

/// A capture of one packet, the byte 5.
const CAPTURE: &[u8] = b"\xd4\xc3\xb2\xa1\x02\0\x04\0\0\0\0\0\0\0\0\0\xff\xff\0\0\x01\0\0\0\
    \0\0\0\0\0\0\0\0\x01\0\0\0\x01\0\0\0\x05";

const ARP: &[u8] = b"ldh [12]\njne #0x806, drop\nret #-1\ndrop: ret #0\n";

/// A command with its input, its status and what it shows.
type Row = (Command<'static>, &'static [u8], u8, &'static str);

/// Of each row all of the text is written, with this status, or memory is refused after a front of it.
fn show_or_end(rt: &impl Abort, alloc: Global, rows: &[Row]) {
    for (command, input, status, shown) in rows {
        let mut page = Page::new();
        let answer = run(alloc, *command, &mut Pieces::new(input, 64, 0), &mut page);
        if answer == Err(EngineFault::NoMemory) {
            holds(rt, shown.as_bytes().starts_with(page.as_slice()));
        } else {
            equal(rt, answer, Ok(*status));
            equal(rt, page.as_slice(), shown.as_bytes());
        }
    }
}

static MATCHES: [Row; 6] = [
    (
        Command::View("1,6 0 0 5", false, View::Numbers),
        b"05\n06\n",
        0,
        "1 5 1\n2 5 1\n",
    ),
    (
        Command::View("1,6 0 0 5", false, View::Count),
        b"05\n5\n",
        1,
        "1 of 1\nline 2: BadHex\n",
    ),
    (
        Command::Match("1,6 0 0 5", false),
        b"05\n06\n",
        0,
        "5 1\n5 1\n",
    ),
    (
        Command::Match("1,6 0 0 5", false),
        b"05\n5\n",
        1,
        "5 1\nline 2: BadHex\n",
    ),
    (
        Command::Match("1,6 0 256 5", false),
        b"05\n",
        1,
        "code BadNumber 1\n",
    ),
    (
        Command::Match("5,40 0 0 12,21 0 1 2048,2 0 0 0,96 0 0 0,22 0 0 0", false),
        b"",
        1,
        "refused Unwritten pc 3 word 0 path 0,1,3\n",
    ),
];

#[test]
fn matches_with_a_refused_growth(rt: HostRuntime) {
    show_or_end(&rt, rt.alloc(), &MATCHES);
}

static CAPTURES: [Row; 2] = [
    (Command::Match("1,6 0 0 5", true), CAPTURE, 0, "5 1\n"),
    (
        Command::Dump,
        CAPTURE,
        0,
        "pcap little micro snaplen 65535 network 1\n1 captured 1 original 1 05\n",
    ),
];

#[test]
fn captures_with_a_refused_growth(rt: HostRuntime) {
    show_or_end(&rt, rt.alloc(), &CAPTURES);
}

static CHECKS: [Row; 3] = [
    (
        Command::Check(false),
        ARP,
        0,
        "4\n40 0 0 12\n21 0 1 2054\n6 0 0 4294967295\n6 0 0 0\n",
    ),
    (
        Command::Check(true),
        ARP,
        0,
        "l0: ldh [12]\nl1: jeq #2054, l2, l3\nl2: ret #4294967295\nl3: ret #0\n",
    ),
    (
        Command::Check(false),
        b"jmp x9\nret #0\n",
        1,
        "line 1: NoLabel\n",
    ),
];

/// What `tcpdump` prints of `arp` on Ethernet, in its three forms.
const LISTING: &[u8] =
    b"(000) ldh      [12]\n(001) jeq      #0x806           jt 2\tjf 3\n(002) ret      #262144\n(003) ret      #0\n";

const INITIALIZERS: &[u8] =
    b"{ 0x28, 0, 0, 0x0000000c },\n{ 0x15, 0, 1, 0x00000806 },\n{ 0x6, 0, 0, 0x00040000 },\n{ 0x6, 0, 0, 0x00000000 },\n";

const DECIMAL: &[u8] = b"4\n40 0 0 12\n21 0 1 2054\n6 0 0 262144\n6 0 0 0\n";

const DECIMAL_SHOWN: &str = "4\n40 0 0 12\n21 0 1 2054\n6 0 0 262144\n6 0 0 0\n";

const ASM_SHOWN: &str = "l0: ldh [12]\nl1: jeq #2054, l2, l3\nl2: ret #262144\nl3: ret #0\n";

static READS: [Row; 12] = [
    (
        Command::Read(CheckInput::Listing, false),
        LISTING,
        0,
        DECIMAL_SHOWN,
    ),
    (
        Command::Read(CheckInput::Listing, true),
        LISTING,
        0,
        ASM_SHOWN,
    ),
    (
        Command::Read(CheckInput::Listing, false),
        INITIALIZERS,
        0,
        DECIMAL_SHOWN,
    ),
    (
        Command::Read(CheckInput::Decimal, true),
        DECIMAL,
        0,
        ASM_SHOWN,
    ),
    (
        Command::Read(CheckInput::Decimal, false),
        DECIMAL,
        0,
        DECIMAL_SHOWN,
    ),
    (
        Command::Read(CheckInput::Listing, false),
        b"(000) ldh [12]\n\n(002) ret #0\n",
        1,
        "line 3: BadLine\n",
    ),
    (
        Command::Read(CheckInput::Decimal, true),
        b"2,6 0 0 1",
        1,
        "code CountMismatch\n",
    ),
    (
        Command::Read(CheckInput::Decimal, true),
        b"2,6 0 0 1,256 0 0 1",
        1,
        "refused BadCode pc 1\n",
    ),
    (
        Command::Read(CheckInput::Decimal, true),
        b"3,21 0 2 1,5 0 0 1,255 0 0 0",
        1,
        "refused JumpOut pc 0\n",
    ),
    (
        Command::Read(CheckInput::Decimal, false),
        b"1,255 0 0 0",
        0,
        "1\n255 0 0 0\n",
    ),
    (
        Command::Graph(CheckInput::Decimal),
        b"1,6 0 0 1",
        0,
        "digraph filter {\n  node [shape=box] [fontname=monospace]\n  edge [fontname=monospace]\n  n0 [label=\"l0: ret #1\"] [shape=ellipse]\n}\n",
    ),
    (
        Command::Graph(CheckInput::Listing),
        b"(000) ret #1\n(001) ret 1\n",
        1,
        "line 2: BadLine\n",
    ),
];

#[test]
fn other_texts_with_a_refused_growth(rt: HostRuntime) {
    show_or_end(&rt, rt.alloc(), &READS);
}

#[test]
fn checks_with_a_refused_growth(rt: HostRuntime) {
    show_or_end(&rt, rt.alloc(), &CHECKS);
}
