//! `match --stream`: inputs that come a few bytes at a time, and readers that fail.

use super::captures::bytes_of;
use crate::devices::Pieces;
use crate::engines::{Command, run};
use crate::facts::equal_at;
use console::View;
use engine_io::EngineFault;
use std::alloc::Global;
use std::process::Abort;

/// Little-endian, microseconds, snaplen 65535, network 1; two packets, of 2 and of 0 bytes, and a packet of 3.
const RECORDS: &str = "d4c3b2a1020004000000000000000000ffff000001000000\
00000000000000000200000002000000abcd\
00000000000000000000000005000000\
00000000000000000300000003000000070809";

/// How a run ends.
type Answer = Result<u8, EngineFault>;

const DONE: Answer = Ok(0);

const REFUSED: Answer = Ok(1);

const FAILED: Answer = Err(EngineFault::ReadFailed);

/// Whatever comes at a read, from `steps.0` bytes to fewer than `steps.1`, and whichever read fails, from `fails.0` to before
/// `fails.1`, the run ends so and shows this. No read fails at 0.
fn ends(
    rt: &impl Abort,
    alloc: Global,
    filter: Command<'_>,
    input: &[u8],
    steps: (usize, usize),
    fails: (usize, usize),
    wanted: (Answer, &str),
) {
    for step in steps.0..steps.1 {
        for fails_at in fails.0..fails.1 {
            let mut out = Vec::new(alloc);
            let mut reader = Pieces::new(input, step, fails_at);
            let answer = run(alloc, filter, &mut reader, &mut out);
            equal_at(rt, answer, wanted.0, &(input, step, fails_at));
            equal_at(
                rt,
                out.as_slice(),
                wanted.1.as_bytes(),
                &(input, step, fails_at),
            );
        }
    }
}

/// The verdict is the first byte of the packet.
const LINES: Command<'static> = Command::Stream("2,48 0 0 0,22 0 0 0", false);

const CAPTURES: Command<'static> = Command::Stream("2,48 0 0 0,22 0 0 0", true);

/// An input, the steps, the reads that fail, the status and what is shown.
type Line = (
    &'static str,
    (usize, usize),
    (usize, usize),
    Answer,
    &'static str,
);

static OF_LINES: [Line; 13] = [
    // Lines cut at every byte.
    ("", (1, 20), (0, 1), DONE, ""),
    ("05", (1, 20), (0, 1), DONE, "5 2\n"),
    ("05\n", (1, 20), (0, 1), DONE, "5 2\n"),
    (
        "05\r\n\n0A0b\nff\r\n",
        (1, 20),
        (0, 1),
        DONE,
        "5 2\n0 1\n10 2\n255 2\n",
    ),
    (
        "05\n5\n06\n",
        (1, 20),
        (0, 1),
        REFUSED,
        "5 2\nline 2: BadHex\n",
    ),
    ("05\n0\r", (1, 20), (0, 1), REFUSED, "5 2\nline 2: BadHex\n"),
    (
        "05\n0a\r",
        (1, 20),
        (0, 1),
        REFUSED,
        "5 2\nline 2: BadHex\n",
    ),
    ("zz\n05\n", (1, 20), (0, 1), REFUSED, "line 1: BadHex\n"),
    // What was read is shown before a read that fails: an outcome is there as soon as its line is whole.
    ("05\n\n0a\n", (1, 2), (1, 4), FAILED, ""),
    ("05\n\n0a\n", (1, 2), (4, 5), FAILED, "5 2\n"),
    ("05\n\n0a\n", (1, 2), (5, 8), FAILED, "5 2\n0 1\n"),
    ("05\n\n0a\n", (1, 2), (8, 9), FAILED, "5 2\n0 1\n10 2\n"),
    // After a bad line nothing is read.
    ("05\nzz\n", (6, 7), (2, 3), REFUSED, "5 2\nline 2: BadHex\n"),
];

#[test]
fn lines_cut_at_every_byte(rt: HostRuntime) {
    for (input, steps, fails, answer, shown) in &OF_LINES {
        ends(
            &rt,
            rt.alloc(),
            LINES,
            input.as_bytes(),
            *steps,
            *fails,
            (*answer, shown),
        );
    }
    // A bad code reads nothing.
    let bad = Command::Stream("0", false);
    ends(
        &rt,
        rt.alloc(),
        bad,
        b"05\n",
        (1, 2),
        (1, 2),
        (REFUSED, "refused Empty\n"),
    );
}

/// A view of lines, an input, the steps, the reads that fail, the status and what is shown.
type Viewed = (
    View,
    &'static str,
    (usize, usize),
    (usize, usize),
    Answer,
    &'static str,
);

const NONE: Answer = Ok(4);

static OF_VIEWS: [Viewed; 10] = [
    (
        View::Numbers,
        "05\n\n0a",
        (1, 20),
        (0, 1),
        DONE,
        "1 5 2\n2 0 1\n3 10 2\n",
    ),
    (
        View::Numbers,
        "05\nzz\n",
        (1, 20),
        (0, 1),
        REFUSED,
        "1 5 2\nline 2: BadHex\n",
    ),
    // What was read is shown before a read that fails, but for a count.
    (
        View::Numbers,
        "05\n\n0a\n",
        (1, 2),
        (5, 8),
        FAILED,
        "1 5 2\n2 0 1\n",
    ),
    (View::Count, "05\n\n0a\n", (1, 2), (1, 9), FAILED, ""),
    (View::Count, "05\n\n0a", (1, 20), (0, 1), DONE, "2 of 3\n"),
    (
        View::Count,
        "05\n\nzz\n",
        (1, 20),
        (0, 1),
        REFUSED,
        "1 of 2\nline 3: BadHex\n",
    ),
    (View::Quiet, "\n00\n", (1, 20), (0, 1), NONE, ""),
    (View::Quiet, "zz\n05\n", (1, 20), (0, 1), REFUSED, ""),
    (View::Quiet, "\n05\nzz\n", (1, 20), (0, 1), DONE, ""),
    // After a packet that is accepted nothing is read.
    (View::Quiet, "05\n\n", (1, 2), (4, 5), DONE, ""),
];

#[test]
fn views_cut_at_every_byte(rt: HostRuntime) {
    for (view, input, steps, fails, answer, shown) in &OF_VIEWS {
        ends(
            &rt,
            rt.alloc(),
            Command::View("2,48 0 0 0,22 0 0 0", false, *view),
            input.as_bytes(),
            *steps,
            *fails,
            (*answer, shown),
        );
    }
}

/// A capture in two parts, the steps, the reads that fail, the status and what is shown.
type Cut = (
    &'static str,
    &'static str,
    (usize, usize),
    (usize, usize),
    Answer,
    &'static str,
);

static OF_CAPTURES: [Cut; 13] = [
    // Captures cut at every byte.
    (RECORDS, "", (1, 130), (0, 1), DONE, "171 2\n0 1\n7 2\n"),
    (
        RECORDS,
        "00",
        (1, 130),
        (0, 1),
        REFUSED,
        "171 2\n0 1\n7 2\nfault TruncatedRecord 77\n",
    ),
    (
        RECORDS,
        "00000000000000000200000002000000ab",
        (1, 130),
        (0, 1),
        REFUSED,
        "171 2\n0 1\n7 2\nfault TruncatedRecord 77\n",
    ),
    (
        RECORDS,
        "00000000000000000100040001000400",
        (1, 130),
        (0, 1),
        REFUSED,
        "171 2\n0 1\n7 2\nfault TooLong 77\n",
    ),
    (
        RECORDS,
        "0000000000000000010004000100040000000000000000000100000001000000aa",
        (1, 130),
        (0, 1),
        REFUSED,
        "171 2\n0 1\n7 2\nfault TooLong 77\n",
    ),
    (
        RECORDS,
        "0000000000000000010000000100000009",
        (1, 130),
        (0, 1),
        DONE,
        "171 2\n0 1\n7 2\n9 2\n",
    ),
    ("", "", (1, 2), (0, 1), REFUSED, "fault TruncatedHeader\n"),
    (
        "d4c3b2",
        "",
        (1, 2),
        (0, 1),
        REFUSED,
        "fault TruncatedHeader\n",
    ),
    // What was read is shown before a read that fails: an outcome is there as soon as its record is whole.
    (RECORDS, "", (1, 2), (1, 43), FAILED, ""),
    (RECORDS, "", (1, 2), (43, 59), FAILED, "171 2\n"),
    (RECORDS, "", (1, 2), (59, 78), FAILED, "171 2\n0 1\n"),
    (RECORDS, "", (1, 2), (78, 79), FAILED, "171 2\n0 1\n7 2\n"),
    // After a lasting fault nothing is read.
    (
        "d4c3b2a20000",
        "",
        (6, 7),
        (2, 3),
        REFUSED,
        "fault BadMagic\n",
    ),
];

#[test]
fn captures_cut_at_every_byte(rt: HostRuntime) {
    for (front, back, steps, fails, answer, shown) in &OF_CAPTURES {
        let input = bytes_of(&rt, rt.alloc(), front, back);
        ends(
            &rt,
            rt.alloc(),
            CAPTURES,
            &input,
            *steps,
            *fails,
            (*answer, shown),
        );
    }
}
