//! Listings that `tcpdump` prints, their faults, and refused memory.

use crate::facts::{equal, equal_at, holds};
use bpf_insn::{Insn, MAX_INSNS, printable, read_ddd, write_asm};
use filter_listing::{ListingFault, ListingFaultKind, read_listing};
use std::alloc::Global;
use std::process::Abort;

/// What `tcpdump -d`, `-dd` and `-ddd` (4.99, with libpcap 1.10) print of an expression on Ethernet.
#[derive(Debug, Clone, Copy)]
struct Printed {
    expression: &'static str,
    images: &'static [u8],
    initializers: &'static [u8],
    decimal: &'static [u8],
}

const PORT: Printed = Printed {
    expression: "ip and tcp port 80",
    images: b"(000) ldh      [12]\n\
(001) jeq      #0x800           jt 2\tjf 12\n\
(002) ldb      [23]\n\
(003) jeq      #0x6             jt 4\tjf 12\n\
(004) ldh      [20]\n\
(005) jset     #0x1fff          jt 12\tjf 6\n\
(006) ldxb     4*([14]&0xf)\n\
(007) ldh      [x + 14]\n\
(008) jeq      #0x50            jt 11\tjf 9\n\
(009) ldh      [x + 16]\n\
(010) jeq      #0x50            jt 11\tjf 12\n\
(011) ret      #262144\n\
(012) ret      #0\n\
",
    initializers: b"{ 0x28, 0, 0, 0x0000000c },\n\
{ 0x15, 0, 10, 0x00000800 },\n\
{ 0x30, 0, 0, 0x00000017 },\n\
{ 0x15, 0, 8, 0x00000006 },\n\
{ 0x28, 0, 0, 0x00000014 },\n\
{ 0x45, 6, 0, 0x00001fff },\n\
{ 0xb1, 0, 0, 0x0000000e },\n\
{ 0x48, 0, 0, 0x0000000e },\n\
{ 0x15, 2, 0, 0x00000050 },\n\
{ 0x48, 0, 0, 0x00000010 },\n\
{ 0x15, 0, 1, 0x00000050 },\n\
{ 0x6, 0, 0, 0x00040000 },\n\
{ 0x6, 0, 0, 0x00000000 },\n\
",
    decimal: b"13\n\
40 0 0 12\n\
21 0 10 2048\n\
48 0 0 23\n\
21 0 8 6\n\
40 0 0 20\n\
69 6 0 8191\n\
177 0 0 14\n\
72 0 0 14\n\
21 2 0 80\n\
72 0 0 16\n\
21 0 1 80\n\
6 0 0 262144\n\
6 0 0 0\n\
",
};

const ARITHMETIC: Printed = Printed {
    expression: "len > 100 and ip[2:2] - 20 > tcp[12] & 0xf0 >> 2",
    images: b"(000) ld       #pktlen\n\
(001) jgt      #0x64            jt 2\tjf 18\n\
(002) ldh      [12]\n\
(003) jeq      #0x800           jt 4\tjf 18\n\
(004) ldb      [23]\n\
(005) jeq      #0x6             jt 6\tjf 18\n\
(006) ldh      [20]\n\
(007) jset     #0x1fff          jt 18\tjf 8\n\
(008) ldh      [16]\n\
(009) sub      #20\n\
(010) st       M[3]\n\
(011) ldxb     4*([14]&0xf)\n\
(012) ldb      [x + 26]\n\
(013) and      #0x3c\n\
(014) tax      \n\
(015) ld       M[3]\n\
(016) jgt      x                jt 17\tjf 18\n\
(017) ret      #262144\n\
(018) ret      #0\n\
",
    initializers: b"{ 0x80, 0, 0, 0x00000000 },\n\
{ 0x25, 0, 16, 0x00000064 },\n\
{ 0x28, 0, 0, 0x0000000c },\n\
{ 0x15, 0, 14, 0x00000800 },\n\
{ 0x30, 0, 0, 0x00000017 },\n\
{ 0x15, 0, 12, 0x00000006 },\n\
{ 0x28, 0, 0, 0x00000014 },\n\
{ 0x45, 10, 0, 0x00001fff },\n\
{ 0x28, 0, 0, 0x00000010 },\n\
{ 0x14, 0, 0, 0x00000014 },\n\
{ 0x2, 0, 0, 0x00000003 },\n\
{ 0xb1, 0, 0, 0x0000000e },\n\
{ 0x50, 0, 0, 0x0000001a },\n\
{ 0x54, 0, 0, 0x0000003c },\n\
{ 0x7, 0, 0, 0x00000007 },\n\
{ 0x60, 0, 0, 0x00000003 },\n\
{ 0x2d, 0, 1, 0x00000000 },\n\
{ 0x6, 0, 0, 0x00040000 },\n\
{ 0x6, 0, 0, 0x00000000 },\n\
",
    decimal: b"19\n\
128 0 0 0\n\
37 0 16 100\n\
40 0 0 12\n\
21 0 14 2048\n\
48 0 0 23\n\
21 0 12 6\n\
40 0 0 20\n\
69 10 0 8191\n\
40 0 0 16\n\
20 0 0 20\n\
2 0 0 3\n\
177 0 0 14\n\
80 0 0 26\n\
84 0 0 60\n\
7 0 0 7\n\
96 0 0 3\n\
45 0 1 0\n\
6 0 0 262144\n\
6 0 0 0\n\
",
};

const VLAN: Printed = Printed {
    expression: "ether[0] & 1 != 0 or vlan 5",
    images: b"(000) ldb      [0]\n\
(001) jset     #0x1             jt 9\tjf 2\n\
(002) ldh      [12]\n\
(003) jeq      #0x8100          jt 6\tjf 4\n\
(004) jeq      #0x88a8          jt 6\tjf 5\n\
(005) jeq      #0x9100          jt 6\tjf 10\n\
(006) ldh      [14]\n\
(007) and      #0xfff\n\
(008) jeq      #0x5             jt 9\tjf 10\n\
(009) ret      #262144\n\
(010) ret      #0\n\
",
    initializers: b"{ 0x30, 0, 0, 0x00000000 },\n\
{ 0x45, 7, 0, 0x00000001 },\n\
{ 0x28, 0, 0, 0x0000000c },\n\
{ 0x15, 2, 0, 0x00008100 },\n\
{ 0x15, 1, 0, 0x000088a8 },\n\
{ 0x15, 0, 4, 0x00009100 },\n\
{ 0x28, 0, 0, 0x0000000e },\n\
{ 0x54, 0, 0, 0x00000fff },\n\
{ 0x15, 0, 1, 0x00000005 },\n\
{ 0x6, 0, 0, 0x00040000 },\n\
{ 0x6, 0, 0, 0x00000000 },\n\
",
    decimal: b"11\n\
48 0 0 0\n\
69 7 0 1\n\
40 0 0 12\n\
21 2 0 33024\n\
21 1 0 34984\n\
21 0 4 37120\n\
40 0 0 14\n\
84 0 0 4095\n\
21 0 1 5\n\
6 0 0 262144\n\
6 0 0 0\n\
",
};

/// The program that a text is a listing of.
fn listed(rt: &impl Abort, alloc: Global, text: &[u8]) -> Vec<Insn> {
    let short = text.len() < 1 << 20;
    holds(rt, short);
    if !short {
        return Vec::new(alloc);
    }
    match read_listing(alloc, text) {
        Ok(program) => program,
        Err(_) => Vec::new(alloc),
    }
}

/// The three texts of an expression stand for one program.
fn check_printed(rt: &impl Abort, alloc: Global, printed: Printed) {
    let decimal = read_ddd(alloc, printed.decimal).expect(rt, "decimal text");
    holds(rt, !decimal.is_empty());
    let images = listed(rt, alloc, printed.images);
    let initializers = listed(rt, alloc, printed.initializers);
    // Fields that its codes don't use, which `tcpdump` leaves at any value, aren't printed by `-d`.
    let texts = (
        assembler_text(alloc, &images),
        assembler_text(alloc, &decimal),
    );
    holds(rt, texts.0.is_some());
    equal_at(rt, texts.0 == texts.1, true, &printed.expression);
    equal_at(rt, initializers == decimal, true, &printed.expression);
}

/// The assembler text of a program that has one.
fn assembler_text(alloc: Global, program: &[Insn]) -> Option<Vec<u8>> {
    if !printable(program) {
        return None;
    }
    write_asm(alloc, program).ok()
}

#[test]
fn what_tcpdump_prints(rt: HostRuntime) {
    let alloc = rt.alloc();
    check_printed(&rt, alloc, PORT);
    check_printed(&rt, alloc, ARITHMETIC);
    check_printed(&rt, alloc, VLAN);
}

/// What bpf_image of libpcap 1.10 prints of each code, with numbers that are small, and that are below 0 as C's `%d` has them.
const EACH: Printed = Printed {
    expression: "each code",
    images: b"(000) ld       #0xa\n\
(001) ld       [10]\n\
(002) ldh      [10]\n\
(003) ldb      [10]\n\
(004) ld       [x + 10]\n\
(005) ldh      [x + 10]\n\
(006) ldb      [x + 10]\n\
(007) ld       M[10]\n\
(008) ld       #pktlen\n\
(009) ldx      #0xa\n\
(010) ldx      M[10]\n\
(011) ldxb     4*([10]&0xf)\n\
(012) st       M[10]\n\
(013) stx      M[10]\n\
(014) add      #10\n\
(015) sub      #10\n\
(016) mul      #10\n\
(017) div      #10\n\
(018) or       #0xa\n\
(019) and      #0xa\n\
(020) lsh      #10\n\
(021) rsh      #10\n\
(022) mod      #10\n\
(023) xor      #0xa\n\
(024) add      x\n\
(025) sub      x\n\
(026) mul      x\n\
(027) div      x\n\
(028) or       x\n\
(029) and      x\n\
(030) lsh      x\n\
(031) rsh      x\n\
(032) mod      x\n\
(033) xor      x\n\
(034) neg      \n\
(035) ja       46\n\
(036) jeq      #0xa             jt 38\tjf 39\n\
(037) jgt      #0xa             jt 39\tjf 40\n\
(038) jge      #0xa             jt 40\tjf 41\n\
(039) jset     #0xa             jt 41\tjf 42\n\
(040) jeq      x                jt 42\tjf 43\n\
(041) jgt      x                jt 43\tjf 44\n\
(042) jge      x                jt 44\tjf 45\n\
(043) jset     x                jt 45\tjf 46\n\
(044) ret      #10\n\
(045) ret      \n\
(046) tax      \n\
(047) txa      \n\
",
    initializers: b"",
    decimal: b"48\n\
0 0 0 10\n\
32 0 0 10\n\
40 0 0 10\n\
48 0 0 10\n\
64 0 0 10\n\
72 0 0 10\n\
80 0 0 10\n\
96 0 0 10\n\
128 0 0 0\n\
1 0 0 10\n\
97 0 0 10\n\
177 0 0 10\n\
2 0 0 10\n\
3 0 0 10\n\
4 0 0 10\n\
20 0 0 10\n\
36 0 0 10\n\
52 0 0 10\n\
68 0 0 10\n\
84 0 0 10\n\
100 0 0 10\n\
116 0 0 10\n\
148 0 0 10\n\
164 0 0 10\n\
12 0 0 0\n\
28 0 0 0\n\
44 0 0 0\n\
60 0 0 0\n\
76 0 0 0\n\
92 0 0 0\n\
108 0 0 0\n\
124 0 0 0\n\
156 0 0 0\n\
172 0 0 0\n\
132 0 0 0\n\
5 0 0 10\n\
21 1 2 10\n\
37 1 2 10\n\
53 1 2 10\n\
69 1 2 10\n\
29 1 2 0\n\
45 1 2 0\n\
61 1 2 0\n\
77 1 2 0\n\
6 0 0 10\n\
22 0 0 0\n\
7 0 0 0\n\
135 0 0 0\n\
",
};

const BELOW_ZERO: Printed = Printed {
    expression: "below zero",
    images: b"(000) add      #-2\n\
(001) ret      #-2\n\
(002) ld       #0xfffffffe\n\
(003) ld       [-2]\n\
(004) ld       [x + -2]\n\
(005) ld       M[-2]\n\
(006) ja       5\n\
(007) ldxb     4*([-2]&0xf)\n\
",
    initializers: b"",
    decimal: b"8\n\
4 0 0 4294967294\n\
6 0 0 4294967294\n\
0 0 0 4294967294\n\
32 0 0 4294967294\n\
64 0 0 4294967294\n\
96 0 0 4294967294\n\
5 0 0 4294967294\n\
177 0 0 4294967294\n\
",
};

/// The listing and the decimal text stand for one program.
fn check_images(rt: &impl Abort, alloc: Global, printed: Printed) {
    let decimal = read_ddd(alloc, printed.decimal).expect(rt, "decimal text");
    holds(rt, !decimal.is_empty());
    let images = listed(rt, alloc, printed.images);
    equal_at(rt, images == decimal, true, &printed.expression);
}

#[test]
fn each_code(rt: HostRuntime) {
    let alloc = rt.alloc();
    check_images(&rt, alloc, EACH);
    check_images(&rt, alloc, BELOW_ZERO);
}

/// Texts that are written by hand, and the programs that they stand for, in decimal text.
const LOOSE: [(&[u8], &[u8]); 5] = [
    (b"", b"0"),
    (b"\n \t\r\n", b"0"),
    (b"(000) ret #1\r\n\n(001)\tret\t#2", b"2,6 0 0 1,6 0 0 2"),
    (b"  { 0x06,  0,  0, 0x00000001 },\n", b"1,6 0 0 1"),
    (
        b"{0x15,255,0,0xffffffff},\n\n{ 22 , 0 , 0 , 0 }\n",
        b"2,21 255 0 4294967295,22 0 0 0",
    ),
];

#[test]
fn texts_by_hand(rt: HostRuntime) {
    let alloc = rt.alloc();
    for (text, decimal) in LOOSE {
        let wanted = read_ddd(alloc, decimal).expect(&rt, "decimal text");
        let found = read_listing(alloc, text).expect(&rt, "a listing");
        equal_at(&rt, found == wanted, true, &text);
    }
}

/// Texts that are no listing, and the line of the first fault.
const BAD: [(&[u8], u64); 20] = [
    (b"ret #1", 1),
    (b"(001) ret #1", 1),
    (b"(000) ret #1\n\n(002) ret #1", 3),
    (b"(0000) ret #1", 1),
    (b"(000) ret #01", 1),
    (b"(000) ret #+1", 1),
    (b"(000) ret #4294967295", 1),
    (b"(000) ret #0x1", 1),
    (b"(000) jeq #800 jt 1 jf 2", 1),
    (b"(000) jeq #0x800 jt 0 jf 2", 1),
    (b"(000) jeq #0x800 jt 1 jf 257", 1),
    (b"(000) jeq #0x800", 1),
    (b"(000) ld #0xABC", 1),
    (b"(000) ldh [proto]", 1),
    (b"(000) unimp 0x81", 1),
    (b"{ 0x28, 0, 0 },", 1),
    (b"{ 0x10000, 0, 0, 1 }", 1),
    (b"{ 6, 256, 0, 1 }", 1),
    (b"{ 06, 0, 0, 1 }", 1),
    (b"{ 6, 0, 0, 1 },\n(001) ret #1", 2),
];

#[test]
fn no_listings(rt: HostRuntime) {
    let alloc = rt.alloc();
    for (text, line) in BAD {
        let fault = ListingFault {
            line,
            kind: ListingFaultKind::BadLine,
        };
        match read_listing(alloc, text) {
            Ok(_) => holds(&rt, false),
            Err(found) => equal_at(&rt, found, fault, &text),
        }
    }
}

/// A text of so many instructions.
fn returns(rt: &impl Abort, alloc: Global, count: usize) -> Vec<u8> {
    let mut text = Vec::new(alloc);
    for _place in 0..count {
        text.extend_from_slice(b"{6,0,0,1},\n")
            .expect(rt, "there is memory");
    }
    text
}

/// What is read of a text that is short enough.
fn read(rt: &impl Abort, alloc: Global, text: &[u8]) -> Result<usize, ListingFault> {
    if text.len() >= 1 << 20 {
        holds(rt, false);
        return Ok(0);
    }
    match read_listing(alloc, text) {
        Ok(program) => Ok(program.len()),
        Err(fault) => Err(fault),
    }
}

#[test]
fn the_longest_program(rt: HostRuntime) {
    let alloc = rt.alloc();
    let most = returns(&rt, alloc, MAX_INSNS);
    equal(&rt, read(&rt, alloc, &most), Ok(MAX_INSNS));
    let more = returns(&rt, alloc, MAX_INSNS + 1);
    let fault = ListingFault {
        line: 4097,
        kind: ListingFaultKind::TooLong,
    };
    equal(&rt, read(&rt, alloc, &more), Err(fault));
}

/// A program is given or memory is refused.
#[test]
fn listings_with_a_refused_growth(rt: HostRuntime) {
    match read_listing(
        rt.alloc(),
        b"(000) ldh [12]\n(001) jeq #0x806 jt 2\tjf 3\n(002) ret #4\n(003) ret #0\n",
    ) {
        Ok(program) => equal(&rt, program.len(), 4),
        Err(fault) => equal(&rt, fault.kind, ListingFaultKind::NoMemory),
    }
    match read_listing(rt.alloc(), b"{ 6, 0, 0, 1 },\n") {
        Ok(program) => equal(&rt, program.len(), 1),
        Err(fault) => equal(&rt, fault.kind, ListingFaultKind::NoMemory),
    }
}
