//! A run of two cores over readers and writers that fail, and `sim` after it.

use crate::devices::{Pieces, Taker};
use crate::engines::{run_script, run_sim};
use crate::facts::{equal, equal_at, holds};
use engine_io::EngineFault;
use run_engine::RunFailure;
use std::alloc::{AllocError, Global};
use std::io::Cursor;
use std::process::Abort;
use std::sync::Wait;
use std::thread::Threads;
use std::time::Clock;
use world_core::Messages;

/// Core 0 commits two requests. Core 1 receives packet 1 at the version of the second; packet 2 waits for one that never comes.
const SCRIPT: &str = "cores 100 100\n\
     ddd all 1,6 0 0 65535\n\
     packet q 0102030405\n\
     create 1 7\n\
     install 1 1 all\n\
     rx 1 q 2\n\
     rx 1 q 9\n";

const PRINTED: &str = "start: prepared 1\n\
     take 1 0: prepare 1 Yes\n\
     take 0 1: vote 1 Yes committed 1 cap 1\n\
     take 1 0: commit 1 version 1\n\
     take 0 1: ack 1\n\
     start: prepared 2\n\
     take 1 0: prepare 2 Yes\n\
     take 0 1: vote 2 Yes committed 2 filter 1\n\
     take 1 0: commit 2 version 2\n\
     take 0 1: ack 2\n\
     rx 1 1: version 2 7=5\n\
     left 1 2\n";

/// The answer where this read of one byte fails, and what is written.
fn with_reader<R: Threads + Wait + Clock + Sync>(
    rt: &R,
    alloc: Global,
    fails_at: usize,
    out: &mut Vec<u8>,
) -> Result<u8, RunFailure> {
    let mut reader = Pieces::new(SCRIPT.as_bytes(), 1, fails_at);
    run_script(rt, alloc, &mut reader, out)
}

#[test]
fn a_script_that_fails_to_be_read_prints_nothing(rt: HostRuntime) {
    // One read for each byte, and one that finds the end.
    let reads = SCRIPT.len() + 1;
    let failed = RunFailure::Engine(EngineFault::ReadFailed);
    for fails_at in 1..reads + 1 {
        let mut out = Vec::new(rt.alloc());
        let answer = with_reader(&rt, rt.alloc(), fails_at, &mut out);
        equal_at(&rt, answer, Err(failed), &fails_at);
        equal(&rt, out.len(), 0);
    }
    let mut out = Vec::new(rt.alloc());
    let answer = with_reader(&rt, rt.alloc(), reads + 1, &mut out);
    equal(&rt, answer, Ok(0));
    equal(&rt, out.as_slice(), PRINTED.as_bytes());
}

/// The answer where this write of one byte fails, and how many bytes were taken.
fn with_writer<R: Threads + Wait + Clock + Sync>(
    rt: &R,
    alloc: Global,
    fails_at: usize,
) -> (Result<u8, RunFailure>, usize) {
    let mut taker = Taker::new(fails_at);
    let mut reader = Pieces::new(SCRIPT.as_bytes(), 64, 0);
    let answer = run_script(rt, alloc, &mut reader, &mut taker);
    (answer, taker.taken)
}

#[test]
fn a_write_that_fails_is_reported(rt: HostRuntime) {
    let failed = RunFailure::Engine(EngineFault::WriteFailed);
    for fails_at in 1..PRINTED.len() + 1 {
        let (answer, taken) = with_writer(&rt, rt.alloc(), fails_at);
        equal_at(&rt, answer, Err(failed), &fails_at);
        equal(&rt, taken, fails_at - 1);
    }
}

/// The script, and after `trace` what was printed.
fn traced(alloc: Global, printed: &[u8]) -> Result<Vec<u8>, AllocError> {
    let mut input = Vec::from_slice(alloc, SCRIPT.as_bytes())?;
    input.extend_from_slice(b"trace\n")?;
    input.extend_from_slice(printed)?;
    Ok(input)
}

/// `sim` shows what was printed, but for the packet that was left.
fn shows_again(rt: &impl Abort, alloc: Global, printed: &[u8]) {
    let input = traced(alloc, printed).expect(rt, "there is memory");
    let files: Vec<Cursor<&[u8]>> = Vec::new(alloc);
    let mut shown = Vec::new(alloc);
    let mut reader = Pieces::new(input.as_slice(), 64, 0);
    let status = run_sim::<Messages, Pieces<'_>, Cursor<&[u8]>, Vec<u8>>(
        alloc,
        files,
        &mut reader,
        &mut shown,
    );
    equal(rt, status, Ok(0));
    let left = b"left 1 2\n";
    equal(rt, shown.len().saturating_add(left.len()), printed.len());
    holds(rt, printed.starts_with(shown.as_slice()));
    holds(rt, printed.ends_with(left));
}

#[test]
fn sim_shows_what_run_printed(rt: HostRuntime) {
    let mut printed = Vec::new(rt.alloc());
    let status = with_reader(&rt, rt.alloc(), 0, &mut printed);
    equal(&rt, status, Ok(0));
    shows_again(&rt, rt.alloc(), printed.as_slice());
}
