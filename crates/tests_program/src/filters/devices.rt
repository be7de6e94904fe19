//! Readers and writers that fail at one of their calls.

use crate::devices::{Pieces, Taker};
use crate::engines::{Command, run};
use crate::facts::equal_at;
use console::{CheckInput, View};
use engine_io::EngineFault;
use std::alloc::Global;

const ARP_CODE: &str = "4,40 0 0 12,21 0 1 2054,6 0 0 4294967295,6 0 0 0";

const ARP: &[u8] = b"ldh [12]\njne #0x806, drop\nret #-1\ndrop: ret #0\n";

const PACKETS: &[u8] = b"ffffffffffff0011223344550806\nffffffffffff00112233445508\n";

/// A capture of a packet of two bytes, and of a part of a record.
const CAPTURE: &[u8] =
    b"\xd4\xc3\xb2\xa1\x02\0\x04\0\0\0\0\0\0\0\0\0\xff\xff\0\0\x01\0\0\0\0\0\0\0\0\0\0\0\x02\0\0\0\x02\0\0\0\xab\xcd\0\0\0\0\0";

/// The answer where a read of one byte fails, and how much is written.
fn with_reader(
    alloc: Global,
    command: Command<'_>,
    input: &[u8],
    fails_at: usize,
) -> (Result<u8, EngineFault>, usize) {
    let mut out = Vec::new(alloc);
    let mut reader = Pieces::new(input, 1, fails_at);
    let answer = run(alloc, command, &mut reader, &mut out);
    (answer, out.len())
}

#[test]
fn a_read_that_fails_leaves_nothing_written(rt: HostRuntime) {
    // One read for each byte, and one that finds the end.
    let rows: [(Command<'static>, &[u8], usize, usize); 6] = [
        (Command::Match(ARP_CODE, false), PACKETS, 1, 57),
        (Command::Check(false), ARP, 1, 47),
        (Command::Dump, CAPTURE, 1, 48),
        (Command::Graph(CheckInput::Assembler), b"", 1, 1),
        (Command::Explain(ARP_CODE), b"", 1, 1),
        (Command::Draw, b"\n", 2, 2),
    ];
    for (command, input, first, last) in rows {
        for fails_at in first..last + 1 {
            let (answer, written) = with_reader(rt.alloc(), command, input, fails_at);
            equal_at(
                &rt,
                answer,
                Err(EngineFault::ReadFailed),
                &(input, fails_at),
            );
            equal_at(&rt, written, 0, &(input, fails_at));
        }
    }
    let whole = with_reader(rt.alloc(), Command::Match(ARP_CODE, false), PACKETS, 58);
    equal_at(&rt, whole, (Ok(0), 17), &58);
}

/// The answer where a write of one byte fails, and how much is written.
fn with_writer(
    alloc: Global,
    command: Command<'_>,
    input: &[u8],
    fails_at: usize,
) -> (Result<u8, EngineFault>, usize) {
    let mut taker = Taker::new(fails_at);
    let mut reader = Pieces::new(input, 64, 0);
    let answer = run(alloc, command, &mut reader, &mut taker);
    (answer, taker.taken)
}

#[test]
fn a_write_that_fails_is_reported(rt: HostRuntime) {
    // What is shown has so many bytes.
    let rows: [(Command<'static>, &[u8], u8, usize); 8] = [
        (Command::View(ARP_CODE, false, View::Count), PACKETS, 0, 7),
        (Command::Match(ARP_CODE, false), PACKETS, 0, 17),
        (Command::Check(false), ARP, 0, 49),
        (Command::Check(true), ARP, 0, 66),
        (Command::Check(true), b"jmp e\ne:\n", 1, 21),
        (Command::Check(false), b"ldq [0]\n", 1, 17),
        // The header's line has 42 bytes, the packet's 29 and the fault's 25.
        (Command::Dump, CAPTURE, 1, 96),
        (
            Command::Stream("2,48 0 0 0,22 0 0 0", false),
            b"05\n0a\n0\n",
            1,
            24,
        ),
    ];
    for (command, input, status, length) in rows {
        for fails_at in 1..length + 1 {
            let (answer, taken) = with_writer(rt.alloc(), command, input, fails_at);
            equal_at(
                &rt,
                answer,
                Err(EngineFault::WriteFailed),
                &(input, fails_at),
            );
            equal_at(&rt, taken, fails_at - 1, &(input, fails_at));
        }
        let whole = with_writer(rt.alloc(), command, input, length + 1);
        equal_at(&rt, whole, (Ok(status), length), &input);
    }
}
