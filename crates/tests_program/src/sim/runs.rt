//! Runs of scripts in memory, over each kind of channel.

use super::captures::{CAPTURE, CUT, CUT_SCRIPTS, OF_CAPTURES, TRACED};
use super::protocol::AGREEMENT;
use super::refused::REFUSED;
use super::tables::TABLES;
use crate::engines::run_sim;
use crate::facts::equal_at;
use engine_io::EngineFault;
use std::alloc::{AllocError, Global};
use std::io::Cursor;
use std::process::Abort;
use world_core::{Channel, Lines, Messages};

/// A script with its status and what it shows.
pub type Script = (&'static str, u8, &'static str);

/// One file.
fn files(alloc: Global, file: &'static [u8]) -> Result<Vec<Cursor<&'static [u8]>>, AllocError> {
    let mut files = Vec::new(alloc);
    files.push(Cursor::new(file))?;
    Ok(files)
}

/// The answer to a script with one file, and what is written.
fn answer<C: Channel>(
    alloc: Global,
    script: &str,
    file: &'static [u8],
    out: &mut Vec<u8>,
) -> Result<u8, EngineFault> {
    let files = files(alloc, file)?;
    let mut reader = Cursor::new(script.as_bytes());
    run_sim::<C, Cursor<&[u8]>, Cursor<&[u8]>, Vec<u8>>(alloc, files, &mut reader, out)
}

/// Each script ends with its status and shows just its text.
fn show<C: Channel>(rt: &impl Abort, alloc: Global, file: &'static [u8], scripts: &[Script]) {
    for (script, status, shown) in scripts {
        let mut out = Vec::new(alloc);
        let answer = answer::<C>(alloc, script, file, &mut out);
        equal_at(rt, answer, Ok(*status), script);
        equal_at(rt, out.as_slice(), shown.as_bytes(), script);
    }
}

/// All scripts, over channels of this kind.
fn show_all<C: Channel>(rt: &impl Abort, alloc: Global) {
    show::<C>(rt, alloc, CAPTURE, &AGREEMENT);
    show::<C>(rt, alloc, CAPTURE, &TABLES);
    show::<C>(rt, alloc, CAPTURE, &REFUSED);
    show::<C>(rt, alloc, CAPTURE, &OF_CAPTURES);
    show::<C>(rt, alloc, CAPTURE, &TRACED);
    show::<C>(rt, alloc, CUT, &CUT_SCRIPTS);
}

#[test]
fn scripts_over_each_kind_of_channel(rt: HostRuntime) {
    show_all::<Messages>(&rt, rt.alloc());
    show_all::<Lines>(&rt, rt.alloc());
}
