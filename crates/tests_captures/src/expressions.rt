//! What `match` shows where CODE is a filter expression.

use crate::blocks::{LITTLE, both};
use crate::facts::{equal, equal_at};
use crate::pieces::Pieces;
use console::{ETHERNET, LinkTypes, PacketForm, STREAM_READS, View, run_match, run_view};
use engine_io::{EngineFault, INPUT_READS, Sink, Source};
use std::alloc::Global;
use std::process::Abort;

/// The verdict on packets that an expression accepts.
const ACCEPT: u32 = 262_144;

/// An ARP packet, one of IPv4, and a line that is no packet.
const LINES: &[u8] =
    b"ffffffffffff00112233445508060001\nffffffffffff00112233445508000001\nno packet\n";

/// A savefile over Ethernet with two packets of IPv4: one of TCP to port 80, and one of UDP to it.
const WEB: &[u8] =
    b"\xd4\xc3\xb2\xa1\x02\x00\x04\x00\x00\x00\x00\x00\x00\x00\x00\x00\xff\xff\x00\x00\x01\x00\x00\x00\x00\x00\x00\x00\x00\x00\x00\x00\x2a\x00\x00\x00\x2a\x00\x00\x00\x00\x11\x22\x33\x44\x55\x66\x77\x88\x99\xaa\xbb\x08\x00\x45\x00\x00\x1c\x00\x00\x00\x00\x40\x06\x00\x00\x0a\x00\x00\x01\x0a\x00\x00\x02\x04\x00\x00\x50\x00\x08\x00\x00\x00\x00\x00\x00\x00\x00\x00\x00\x2a\x00\x00\x00\x2a\x00\x00\x00\x00\x11\x22\x33\x44\x55\x66\x77\x88\x99\xaa\xbb\x08\x00\x45\x00\x00\x1c\x00\x00\x00\x00\x40\x11\x00\x00\x0a\x00\x00\x01\x0a\x00\x00\x02\x04\x00\x00\x50\x00\x08\x00\x00";

/// What `match` answers, writes and says.
#[derive(Debug, Drop, PartialEq)]
struct Answer {
    status: u8,
    text: Vec<u8>,
    complaint: String,
}

/// How it is run: whole, or as a stream under a view.
#[derive(Clone, Copy, Debug)]
enum Way {
    Whole,
    Stream(View),
}

/// What it gives of an input that is read in steps.
fn shown(
    rt: &impl Abort,
    alloc: Global,
    code: &str,
    form: PacketForm,
    way: Way,
    bytes: &[u8],
    step: usize,
) -> Answer {
    let mut answer = Answer {
        status: 0,
        text: Vec::new(alloc),
        complaint: String::new(alloc),
    };
    let reader = Pieces { bytes, step };
    answer.status = status(
        alloc,
        code,
        form,
        way,
        reader,
        &mut answer.text,
        &mut answer.complaint,
    )
    .expect(rt, "nothing fails");
    answer
}

/// Its status.
fn status(
    alloc: Global,
    code: &str,
    form: PacketForm,
    way: Way,
    reader: Pieces<'_>,
    text: &mut Vec<u8>,
    complaint: &mut String,
) -> Result<u8, EngineFault> {
    let links = &mut LinkTypes::None;
    let code = code.as_bytes();
    let mut sink = Sink::new(text);
    match way {
        Way::Whole => {
            let mut source = Source::new(reader, INPUT_READS);
            run_match(
                alloc,
                code,
                ACCEPT,
                form,
                links,
                &mut source,
                &mut sink,
                complaint,
            )
        }
        Way::Stream(view) => {
            let mut source = Source::new(reader, STREAM_READS);
            run_view(
                alloc,
                code,
                ACCEPT,
                form,
                view,
                links,
                &mut source,
                &mut sink,
                complaint,
            )
        }
    }
}

/// This is shown, however the input is cut.
fn shows(
    rt: &impl Abort,
    alloc: Global,
    code: &str,
    form: PacketForm,
    way: Way,
    bytes: &[u8],
    wanted: (u8, &str, &str),
) {
    for step in [1, 7, 1_000_000] {
        let answer = shown(rt, alloc, code, form, way, bytes, step);
        equal_at(rt, answer.status, wanted.0, &(code, way, step));
        equal_at(
            rt,
            answer.text.as_slice(),
            wanted.1.as_bytes(),
            &(code, way, step),
        );
        equal_at(rt, answer.complaint.as_str(), wanted.2, &(code, way, step));
    }
}

/// `both`, but that the second interface of the first section has link type 147, of which no expression says anything.
fn unknown(rt: &impl Abort, alloc: Global) -> Vec<u8> {
    let mut bytes = both(rt, alloc);
    match bytes.as_mut_slice().get_mut(76) {
        Some(byte) => {
            equal(rt, *byte, 101);
            *byte = 147;
        }
        None => equal(rt, 0, 101),
    }
    bytes
}

const DIGITS: PacketForm = PacketForm::Digits(ETHERNET);

const CAPTURE: PacketForm = PacketForm::Capture(None);

const LINES_VIEW: Way = Way::Stream(View::Lines);

const COUNT: Way = Way::Stream(View::Count);

const QUIET: Way = Way::Stream(View::Quiet);

#[test]
fn lines_of_digits(rt: HostRuntime) {
    let wanted = (1, "262144 3\n0 3\nline 3: BadHex\n", "");
    shows(&rt, rt.alloc(), "arp", DIGITS, Way::Whole, LINES, wanted);
    shows(&rt, rt.alloc(), " (arp)", DIGITS, LINES_VIEW, LINES, wanted);
    shows(
        &rt,
        rt.alloc(),
        "arp",
        DIGITS,
        COUNT,
        LINES,
        (1, "1 of 2\nline 3: BadHex\n", ""),
    );
    shows(&rt, rt.alloc(), "!arp", DIGITS, QUIET, LINES, (0, "", ""));
}

#[test]
fn ports_of_a_savefile(rt: HostRuntime) {
    shows(
        &rt,
        rt.alloc(),
        "tcp port 80",
        CAPTURE,
        COUNT,
        WEB,
        (0, "1 of 2\n", ""),
    );
    shows(
        &rt,
        rt.alloc(),
        "port 80",
        CAPTURE,
        COUNT,
        WEB,
        (0, "2 of 2\n", ""),
    );
    shows(
        &rt,
        rt.alloc(),
        "udp port 81",
        CAPTURE,
        QUIET,
        WEB,
        (4, "", ""),
    );
}

#[test]
fn two_link_types(rt: HostRuntime) {
    let bytes = both(&rt, rt.alloc());
    shows(
        &rt,
        rt.alloc(),
        "ip",
        CAPTURE,
        COUNT,
        &bytes,
        (0, "0 of 4\n", ""),
    );
    shows(
        &rt,
        rt.alloc(),
        "len >= 20",
        CAPTURE,
        COUNT,
        &bytes,
        (0, "1 of 4\n", ""),
    );
}

#[test]
fn a_link_type_without_rows(rt: HostRuntime) {
    let bytes = unknown(&rt, rt.alloc());
    let words = "link type 147 has no expressions here\n";
    let wanted = (1, "0 1\n0 1\ncode link 147\n", words);
    shows(&rt, rt.alloc(), "ip", CAPTURE, Way::Whole, &bytes, wanted);
    shows(&rt, rt.alloc(), "ip", CAPTURE, LINES_VIEW, &bytes, wanted);
    shows(
        &rt,
        rt.alloc(),
        "ip",
        CAPTURE,
        COUNT,
        &bytes,
        (1, "0 of 2\ncode link 147\n", words),
    );
    shows(
        &rt,
        rt.alloc(),
        "ip",
        CAPTURE,
        QUIET,
        &bytes,
        (1, "", words),
    );
    // Packets of other link types aren't looked at where one is named.
    let ethernet = PacketForm::Capture(Some(1));
    shows(
        &rt,
        rt.alloc(),
        "ip",
        ethernet,
        COUNT,
        &bytes,
        (0, "0 of 2\n", ""),
    );
    shows(
        &rt,
        rt.alloc(),
        "ip",
        PacketForm::Digits(147),
        COUNT,
        b"00\n",
        (1, "0 of 0\ncode link 147\n", words),
    );
    shows(
        &rt,
        rt.alloc(),
        "ip",
        PacketForm::Digits(147),
        COUNT,
        b"",
        (0, "0 of 0\n", ""),
    );
}

#[test]
fn a_fault_over_one_link_type(rt: HostRuntime) {
    let code = "ether host 1:2:3:4:5:6";
    let words =
        "column 1: packets have none of this here, by their link type or the tag before it\n    ether host 1:2:3:4:5:6\n    ^\n";
    let wanted = (1, "0 of 2\ncode column 1 Layer\n", words);
    shows(&rt, rt.alloc(), code, CAPTURE, COUNT, LITTLE, wanted);
}

#[test]
fn a_text_that_is_no_expression(rt: HostRuntime) {
    let words = "column 1: the other parenthesis or bracket is missing\n    (arp\n    ^\n";
    let wanted = (1, "code column 1 Parenthesis\n", words);
    shows(&rt, rt.alloc(), "(arp", DIGITS, Way::Whole, LINES, wanted);
    shows(&rt, rt.alloc(), "(arp", CAPTURE, COUNT, WEB, wanted);
    shows(&rt, rt.alloc(), "(arp", CAPTURE, QUIET, WEB, (1, "", words));
    // Decimal text is what begins with no letter.
    shows(
        &rt,
        rt.alloc(),
        " ?arp",
        DIGITS,
        COUNT,
        LINES,
        (1, "code BadNumber 0\n", ""),
    );
}
