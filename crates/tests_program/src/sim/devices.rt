//! Readers and writers that give or take little at a time, fail when they are told to, or have too much.

use super::protocol::TWO_PHASE;
use crate::devices::{Pieces, Taker};
use crate::engines::run_sim;
use crate::facts::{equal, equal_at};
use engine_io::EngineFault;
use std::alloc::{AllocError, Global};
use std::process::Abort;
use world_core::Messages;

/// The most bytes of one input.
const LIMIT: usize = 67_108_864;

/// How a run ends, what it writes, and how many reads the script and the two files had.
type Seen = (Result<u8, EngineFault>, Vec<u8>, [usize; 3]);

/// A run of a script and two files.
fn run<'a>(
    alloc: Global,
    mut script: Pieces<'_>,
    mut first: Pieces<'a>,
    mut second: Pieces<'a>,
) -> Result<Seen, AllocError> {
    let mut out = Vec::new(alloc);
    let mut files = Vec::new(alloc);
    files.push(&mut first)?;
    files.push(&mut second)?;
    let answer = run_sim::<Messages, Pieces<'_>, &mut Pieces<'_>, Vec<u8>>(
        alloc,
        files,
        &mut script,
        &mut out,
    );
    Ok((answer, out, [script.reads, first.reads, second.reads]))
}

/// The run ends so, with this text written, and with so many reads.
fn ends(
    rt: &impl Abort,
    seen: Result<Seen, AllocError>,
    answer: Result<u8, EngineFault>,
    shown: &str,
    reads: [usize; 3],
) {
    let (found, out, read) = seen.expect(rt, "there is memory");
    equal_at(rt, found, answer, &reads);
    equal_at(rt, out.as_slice(), shown.as_bytes(), &reads);
    equal(rt, read, reads);
}

/// `TWO_PHASE` and two files of nine bytes, one byte a read, where these reads fail: 0 for none.
fn slow(alloc: Global, fails_at: [usize; 3]) -> Result<Seen, AllocError> {
    let (script, _, _) = TWO_PHASE;
    run(
        alloc,
        Pieces::new(script.as_bytes(), 1, fails_at[0]),
        Pieces::new(&[7; 9], 1, fails_at[1]),
        Pieces::new(&[7; 9], 1, fails_at[2]),
    )
}

const FAILED: Result<u8, EngineFault> = Err(EngineFault::ReadFailed);

/// The script is read to its end, and then each file.
#[test]
fn an_input_that_fails_to_be_read_shows_nothing(rt: HostRuntime) {
    let (script, _, shown) = TWO_PHASE;
    // One read for each byte, and one that finds the end.
    let end = script.len() + 1;
    for fails_at in 1..end + 1 {
        ends(
            &rt,
            slow(rt.alloc(), [fails_at, 0, 0]),
            FAILED,
            "",
            [fails_at, 0, 0],
        );
    }
    for fails_at in 1..11 {
        ends(
            &rt,
            slow(rt.alloc(), [0, fails_at, 0]),
            FAILED,
            "",
            [end, fails_at, 0],
        );
        ends(
            &rt,
            slow(rt.alloc(), [0, 0, fails_at]),
            FAILED,
            "",
            [end, 10, fails_at],
        );
    }
    for fails_at in [[end + 1, 0, 0], [0, 11, 0], [0, 0, 11], [0, 0, 0]] {
        ends(&rt, slow(rt.alloc(), fails_at), Ok(0), shown, [end, 10, 10]);
    }
}

/// The answer to `TWO_PHASE` where this write fails, and how many bytes were taken.
fn with_writer(alloc: Global, fails_at: usize) -> (Result<u8, EngineFault>, usize) {
    let (script, _, _) = TWO_PHASE;
    let files: Vec<Pieces<'_>> = Vec::new(alloc);
    let mut taker = Taker::new(fails_at);
    let mut reader = Pieces::new(script.as_bytes(), 64, 0);
    let answer = run_sim::<Messages, Pieces<'_>, Pieces<'_>, Taker>(
        alloc,
        files,
        &mut reader,
        &mut taker,
    );
    (answer, taker.taken)
}

#[test]
fn a_write_that_fails_is_reported(rt: HostRuntime) {
    let (_, _, shown) = TWO_PHASE;
    for fails_at in 1..shown.len() + 1 {
        let seen = with_writer(rt.alloc(), fails_at);
        equal(&rt, seen, (Err(EngineFault::WriteFailed), fails_at - 1));
    }
    let seen = with_writer(rt.alloc(), shown.len() + 1);
    equal(&rt, seen, (Ok(0), shown.len()));
}

/// A script and two files end so, with this text; which reads were made is left open.
fn ends_with(
    rt: &impl Abort,
    seen: Result<Seen, AllocError>,
    answer: Result<u8, EngineFault>,
    shown: &str,
) {
    let (found, out, _) = seen.expect(rt, "there is memory");
    equal_at(rt, found, answer, &shown);
    equal(rt, out.as_slice(), shown.as_bytes());
}

#[test]
fn a_file_has_a_limit(rt: HostRuntime) {
    let alloc = rt.alloc();
    for (marks, shown) in [
        (LIMIT, "line 2: BadBody capture BadMagic\n"),
        (LIMIT + 1, "fault InputTooLong\n"),
    ] {
        let script = Pieces::new(b"cores 9\ncapture c 1\n", 1, 0);
        let seen = run(alloc, script, Pieces::of_marks(marks), Pieces::of_marks(0));
        ends_with(&rt, seen, Ok(1), shown);
    }
}

/// An input that would be read then fails, but for the last: a file that fails comes before one that is too long.
#[test]
fn nothing_is_read_after_an_input_that_is_too_long(rt: HostRuntime) {
    let alloc = rt.alloc();
    let long = "fault InputTooLong\n";
    let script = Pieces::of_marks(LIMIT + 1);
    let seen = run(
        alloc,
        script,
        Pieces::new(b"", 1, 1),
        Pieces::new(b"", 1, 1),
    );
    ends_with(&rt, seen, Ok(1), long);
    let script = Pieces::new(b"cores 9\n", 1, 0);
    let seen = run(
        alloc,
        script,
        Pieces::of_marks(LIMIT + 1),
        Pieces::new(b"", 1, 1),
    );
    ends_with(&rt, seen, Ok(1), long);
    let script = Pieces::new(b"no script\n", 1, 0);
    let seen = run(
        alloc,
        script,
        Pieces::new(b"", 1, 1),
        Pieces::of_marks(LIMIT + 1),
    );
    ends_with(&rt, seen, FAILED, "");
}
