//! What `keep` gives of captures in pcapng: in pieces, cut, and changed.

use crate::blocks::{ENDS, LITTLE, both};
use crate::facts::{equal, equal_at, holds};
use crate::pieces::Pieces;
use console::{LinkTypes, STREAM_READS};
use engine_io::{EngineFault, Sink, Source};
use keep_engine::{Wanted, run_keep};
use std::alloc::Global;
use std::io;
use std::io::Write;
use std::process::Abort;

/// A filter that accepts every packet.
const ALL: &str = "1,6 0 0 1";

/// A filter that accepts none.
const NONE: &str = "1,6 0 0 0";

/// A filter that accepts packets whose first byte is 161.
const SIMPLE: &str = "4,48 0 0 0,21 0 1 161,6 0 0 1,6 0 0 0";

/// The verdict on packets that an expression accepts.
const ACCEPT: u32 = 262_144;

/// What `keep` answers, writes and says.
#[derive(Debug, Drop, PartialEq)]
struct Answer {
    status: u8,
    bytes: Vec<u8>,
    complaint: String,
}

/// What `keep` gives of bytes that are read in steps.
fn kept(
    rt: &impl Abort,
    alloc: Global,
    code: &str,
    inverted: bool,
    bytes: &[u8],
    step: usize,
) -> Answer {
    let mut answer = Answer {
        status: 0,
        bytes: Vec::new(alloc),
        complaint: String::new(alloc),
    };
    let reader = Pieces { bytes, step };
    answer.status = status(
        alloc,
        code,
        inverted,
        reader,
        &mut answer.bytes,
        &mut answer.complaint,
    )
    .expect(rt, "nothing fails");
    answer
}

/// The status of `keep`.
fn status<W: Write>(
    alloc: Global,
    code: &str,
    inverted: bool,
    reader: Pieces<'_>,
    writer: &mut W,
    complaint: &mut String,
) -> Result<u8, EngineFault> {
    let mut source = Source::new(reader, STREAM_READS);
    let mut sink = Sink::new(writer);
    run_keep(
        alloc,
        code.as_bytes(),
        ACCEPT,
        Wanted {
            inverted,
            link: None,
        },
        &mut LinkTypes::None,
        &mut source,
        &mut sink,
        complaint,
    )
}

/// The bytes of the block in this place.
fn block(bytes: &[u8], place: usize) -> &[u8] {
    let mut from = 0;
    for (number, end) in ENDS.iter().enumerate() {
        if number == place {
            return bytes.get(from..*end).unwrap_or(&[]);
        }
        from = *end;
    }
    &[]
}

/// The bytes of these blocks.
fn blocks(rt: &impl Abort, alloc: Global, bytes: &[u8], wanted: &[usize]) -> Vec<u8> {
    let mut list = Vec::new(alloc);
    for place in wanted {
        list.extend_from_slice(block(bytes, *place))
            .expect(rt, "there is memory");
    }
    list
}

#[test]
fn what_is_accepted_is_kept_however_it_is_cut(rt: HostRuntime) {
    let input = both(&rt, rt.alloc());
    for step in [1, 2, 3, 11, 28, 100, 351, 352, 65_536] {
        let rows: [(&str, bool, &[usize]); 5] = [
            (ALL, false, &[0, 1, 2, 3, 4, 5, 6, 7, 8, 9, 10, 11]),
            (ALL, true, &[0, 1, 2, 4, 6, 8, 9, 11]),
            (NONE, true, &[0, 1, 2, 3, 4, 5, 6, 7, 8, 9, 10, 11]),
            (SIMPLE, false, &[0, 1, 2, 4, 5, 6, 8, 9, 11]),
            (SIMPLE, true, &[0, 1, 2, 3, 4, 6, 7, 8, 9, 10, 11]),
        ];
        for (code, inverted, wanted) in &rows {
            let got = kept(&rt, rt.alloc(), code, *inverted, &input, step);
            equal(&rt, got.status, 0);
            equal_at(
                &rt,
                got.bytes,
                blocks(&rt, rt.alloc(), &input, wanted),
                &(step, *code),
            );
            holds(&rt, got.complaint.is_empty());
        }
    }
}

/// This is kept of a capture, and said of it, however it is cut.
fn keeps(rt: &impl Abort, alloc: Global, code: &str, inverted: bool, wanted: (u8, &[usize], &str)) {
    let input = both(rt, alloc);
    for step in [1, 28, 65_536] {
        let got = kept(rt, alloc, code, inverted, &input, step);
        equal_at(rt, got.status, wanted.0, &(code, step));
        let bytes = blocks(rt, alloc, &input, wanted.1);
        equal_at(rt, got.bytes, bytes, &(code, step));
        equal_at(rt, got.complaint.as_str(), wanted.2, &(code, step));
    }
}

#[test]
fn expressions_are_compiled_for_each_link_type(rt: HostRuntime) {
    let others: &[usize] = &[0, 1, 2, 4, 6, 8, 9, 11];
    keeps(&rt, rt.alloc(), "ip", false, (0, others, ""));
    let all: &[usize] = &[0, 1, 2, 3, 4, 5, 6, 7, 8, 9, 10, 11];
    keeps(&rt, rt.alloc(), "ip", true, (0, all, ""));
}

/// What is before the first packet of a link type that lacks a layer is kept.
#[test]
fn an_expression_with_a_fault_over_one_link_type(rt: HostRuntime) {
    let words =
        "code column 1 Layer\ncolumn 1: packets have none of this here, by their link type or the tag before it\n    ether host 1:2:3:4:5:6\n    ^\n";
    let before: &[usize] = &[0, 1, 2, 3, 4, 5, 6];
    keeps(
        &rt,
        rt.alloc(),
        "ether host 1:2:3:4:5:6",
        true,
        (1, before, words),
    );
}

#[test]
fn a_text_that_is_no_expression_keeps_nothing(rt: HostRuntime) {
    let words =
        "code column 1 Parenthesis\ncolumn 1: the other parenthesis or bracket is missing\n    (arp\n    ^\n";
    keeps(&rt, rt.alloc(), "(arp", false, (1, &[], words));
}

/// How many bytes whole blocks have that end at a place or before it.
fn whole(place: usize) -> usize {
    let mut last = 0;
    for end in ENDS {
        if end <= place {
            last = end;
        }
    }
    last
}

#[test]
fn each_front_gives_its_whole_blocks(rt: HostRuntime) {
    let input = both(&rt, rt.alloc());
    for place in 0..352 {
        let last = whole(place);
        let front = input.get(..place).unwrap_or(&[]);
        let got = kept(&rt, rt.alloc(), ALL, false, front, 13);
        let ends_well = last > 0 && last == place;
        equal_at(&rt, got.status, u8::from(!ends_well), &place);
        equal(&rt, got.complaint.is_empty(), ends_well);
        holds(&rt, Some(got.bytes.as_slice()) == input.get(..last));
    }
}

/// Changes some bits of a byte.
fn change(bytes: &mut [u8], place: usize, by: u8) {
    if let Some(byte) = bytes.get_mut(place) {
        *byte ^= by;
    }
}

#[test]
fn each_changed_byte_leaves_what_is_before_it(rt: HostRuntime) {
    let mut input = both(&rt, rt.alloc());
    for place in 0..352 {
        for by in [1, 128, 255] {
            change(&mut input, place, by);
            let got = kept(&rt, rt.alloc(), ALL, false, &input, 64);
            holds(&rt, got.bytes.len() >= whole(place));
            holds(&rt, input.starts_with(got.bytes.as_slice()));
            equal(&rt, got.complaint.is_empty(), got.status == 0);
            change(&mut input, place, by);
        }
    }
}

/// A writer that compares what it is given with what it should be given.
#[derive(Drop)]
struct Checker<'a> {
    wanted: &'a [u8],
    is_right: bool,
}

impl Write for Checker<'_> {
    fn write(&mut self, buf: &[u8]) -> io::Result<usize> {
        self.is_right = self.is_right && self.wanted.starts_with(buf);
        self.wanted = self.wanted.get(buf.len()..).unwrap_or(&[]);
        Ok(buf.len())
    }

    fn flush(&mut self) -> io::Result<()> {
        Ok(())
    }
}

/// Tried with each allocation failing in turn, too.
#[test]
fn memory_refused_to_keep(rt: HostRuntime) {
    let mut checker = Checker {
        wanted: LITTLE,
        is_right: true,
    };
    let mut complaint = String::new(rt.alloc());
    let reader = Pieces {
        bytes: LITTLE,
        step: 13,
    };
    match status(rt.alloc(), ALL, false, reader, &mut checker, &mut complaint) {
        Ok(status) => {
            equal(&rt, status, 0);
            holds(&rt, checker.wanted.is_empty());
        }
        Err(fault) => holds(&rt, matches!(fault, EngineFault::NoMemory)),
    }
    holds(&rt, checker.is_right);
}
