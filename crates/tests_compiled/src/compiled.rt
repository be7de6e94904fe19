//! Each expression accepts the packets that libpcap 1.10.3's program of it accepts.

use crate::vectors::{
    PACKETS_1, PACKETS_2, PACKETS_3, PACKETS_4, PACKETS_5, PACKETS_6, ROWS_1, ROWS_2, ROWS_3,
    ROWS_4, ROWS_5, ROWS_6, ROWS_7, ROWS_8, ROWS_9, ROWS_10,
};
use filter_expr::{Link, compile};
use filter_verify::Verified;
use filter_vm::run;
use std::alloc::Global;
use std::process::Abort;
use std::test::Fail;

/// The verdict of an accepted packet.
const ACCEPT: u32 = 262_144;

/// A packet's bytes, and its original length.
#[derive(Drop)]
struct Frame {
    bytes: Vec<u8>,
    original: u32,
}

/// Appends packets.
fn push_frames(
    alloc: Global,
    frames: &mut Vec<Frame>,
    packets: &[(&str, u32)],
) -> Result<(), Fail> {
    for (digits, original) in packets {
        let bytes = hex::decode(alloc, digits.as_bytes())
            .ok()
            .ok_or("no digits")?;
        frames.push(Frame {
            bytes,
            original: *original,
        })?;
    }
    Ok(())
}

fn frames(alloc: Global) -> Result<Vec<Frame>, Fail> {
    let mut frames = Vec::new(alloc);
    push_frames(alloc, &mut frames, &PACKETS_1)?;
    push_frames(alloc, &mut frames, &PACKETS_2)?;
    push_frames(alloc, &mut frames, &PACKETS_3)?;
    push_frames(alloc, &mut frames, &PACKETS_4)?;
    push_frames(alloc, &mut frames, &PACKETS_5)?;
    push_frames(alloc, &mut frames, &PACKETS_6)?;
    Ok(frames)
}

/// A digit for each packet: 1 where the program accepts it.
fn verdicts(alloc: Global, program: &Verified, frames: &[Frame]) -> Result<String, Fail> {
    let mut digits = String::new(alloc);
    for frame in frames {
        let verdict = run(program, &frame.bytes, frame.original).verdict;
        digits.push(if verdict == ACCEPT { '1' } else { '0' })?;
    }
    Ok(digits)
}

/// The digits are these.
fn equal(rt: &impl Abort, got: &str, wanted: &str, text: &str) {
    assert_eq!(rt; got, wanted, "{text}");
}

/// The expression's program accepts the packets that have the digit 1.
fn accepts(
    rt: &impl Abort,
    alloc: Global,
    frames: &[Frame],
    wanted: &str,
    text: &str,
) -> Result<(), Fail> {
    let program = compile(alloc, text.as_bytes(), Link::Ethernet, ACCEPT)
        .ok()
        .ok_or("a fault")?;
    let digits = verdicts(alloc, &program, frames)?;
    equal(rt, digits.as_str(), wanted, text);
    Ok(())
}

/// Each of these does.
fn all_accept(rt: &impl Abort, alloc: Global, rows: &[(&str, &str)]) -> Result<(), Fail> {
    let frames = frames(alloc)?;
    for (wanted, text) in rows {
        accepts(rt, alloc, &frames, wanted, text)?;
    }
    Ok(())
}

#[test]
fn expressions_of_part_1(rt: HostRuntime) -> Result<(), Fail> {
    all_accept(&rt, rt.alloc(), &ROWS_1)
}

#[test]
fn expressions_of_part_2(rt: HostRuntime) -> Result<(), Fail> {
    all_accept(&rt, rt.alloc(), &ROWS_2)
}

#[test]
fn expressions_of_part_3(rt: HostRuntime) -> Result<(), Fail> {
    all_accept(&rt, rt.alloc(), &ROWS_3)
}

#[test]
fn expressions_of_part_4(rt: HostRuntime) -> Result<(), Fail> {
    all_accept(&rt, rt.alloc(), &ROWS_4)
}

#[test]
fn expressions_of_part_5(rt: HostRuntime) -> Result<(), Fail> {
    all_accept(&rt, rt.alloc(), &ROWS_5)
}

#[test]
fn expressions_of_part_6(rt: HostRuntime) -> Result<(), Fail> {
    all_accept(&rt, rt.alloc(), &ROWS_6)
}

#[test]
fn expressions_of_part_7(rt: HostRuntime) -> Result<(), Fail> {
    all_accept(&rt, rt.alloc(), &ROWS_7)
}

#[test]
fn expressions_of_part_8(rt: HostRuntime) -> Result<(), Fail> {
    all_accept(&rt, rt.alloc(), &ROWS_8)
}

#[test]
fn expressions_of_part_9(rt: HostRuntime) -> Result<(), Fail> {
    all_accept(&rt, rt.alloc(), &ROWS_9)
}

#[test]
fn expressions_of_part_10(rt: HostRuntime) -> Result<(), Fail> {
    all_accept(&rt, rt.alloc(), &ROWS_10)
}
