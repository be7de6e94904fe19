//! Runs that may be refused memory: what they show then. With ample memory they show all.

use super::captures::CAPTURE;
use super::protocol::TWO_PHASE;
use super::tables::TABLES;
use crate::engines::run_sim;
use crate::facts::{equal, holds};
use crate::page::Page;
use engine_io::EngineFault;
use std::alloc::{AllocError, Global};
use std::io::Cursor;
use std::process::Abort;
use world_core::Messages;

/// Whether a vote or a decision tells that there was no memory.
fn tells_no_memory(text: &[u8]) -> bool {
    text.windows(8).any(|word| word == b"NoMemory".as_slice())
}

/// A script, whose file is the capture, shows all of this text, or ends early after a front of it, or goes on after a vote NoMemory.
fn shows_or_tells(rt: &impl Abort, alloc: Global, script: &[u8], shown: &str) {
    let mut files = Vec::new(alloc);
    files
        .push(Cursor::new(CAPTURE))
        .expect(rt, "there is memory");
    let mut page = Page::new();
    let mut reader = Cursor::new(script);
    let answer = run_sim::<Messages, Cursor<&[u8]>, Cursor<&[u8]>, Page>(
        alloc,
        files,
        &mut reader,
        &mut page,
    );
    let text = page.as_slice();
    if answer == Err(EngineFault::NoMemory) {
        holds(rt, shown.as_bytes().starts_with(text));
    } else {
        equal(rt, answer, Ok(0));
        holds(rt, text == shown.as_bytes() || tells_no_memory(text));
    }
}

#[test]
fn a_refused_growth_is_told(rt: HostRuntime) {
    let (script, _, shown) = TWO_PHASE;
    shows_or_tells(&rt, rt.alloc(), script.as_bytes(), shown);
    for (script, _, shown) in &TABLES {
        shows_or_tells(&rt, rt.alloc(), script.as_bytes(), shown);
    }
}

/// A script with a program, a capture, a home, a replay and a trace: what comes before the lines of the trace.
const TRACED: &str = "cores 100 100\n\
     asm three\n\
     ldb [0]\n\
     jeq #3, a, b\n\
     a: ret #1\n\
     b: ret #0\n\
     end\n\
     capture c 1\n\
     home 5 1\n\
     create 1 7\n\
     install 1 1 three\n\
     create 5 8\n\
     replay c 3\n\
     trace\n";

/// The lines of the trace, which the script shows again.
const TRACE: &str = "start: prepared 1\n\
     take 1 0: prepare 1 Yes\n\
     take 0 1: vote 1 Yes committed 1 cap 1\n\
     take 1 0: commit 1 version 1\n\
     take 0 1: ack 1\n\
     start: prepared 2\n\
     take 1 0: prepare 2 Yes\n\
     take 0 1: vote 2 Yes committed 2 filter 1\n\
     take 1 0: commit 2 version 2\n\
     take 0 1: ack 2\n\
     submit 1: sent\n\
     take 0 1: submit\n\
     startfor 1: prepared 3\n\
     take 1 0: prepare 3 Yes\n\
     take 0 1: vote 3 Yes committed 3 cap 2\n\
     take 1 0: commit 3 version 3\n\
     take 0 1: ack 3\n\
     take 1 0: reply committed 3 cap 2\n\
     rx 0 1: version 3 none\n\
     rx 1 2: version 3 none\n\
     rx 0 3: version 3 7=1\n";

fn traced(alloc: Global) -> Result<Vec<u8>, AllocError> {
    let mut script = Vec::from_slice(alloc, TRACED.as_bytes())?;
    script.extend_from_slice(TRACE.as_bytes())?;
    Ok(script)
}

#[test]
fn a_refused_growth_of_a_trace_is_told(rt: HostRuntime) {
    let script = traced(rt.alloc()).expect(&rt, "there is memory");
    shows_or_tells(&rt, rt.alloc(), &script, TRACE);
}
