//! Decimal texts, codes and bytes of instructions, and assembler texts.

use crate::facts::{equal, equal_at, holds, holds_at};
use bpf_insn::{
    AluOp, Form, Insn, Size, Test, TextFault, printable, read_ddd, write_asm, write_ddd,
};
use std::alloc::Global;
use std::process::Abort;

fn insn(code: u16, jt: u8, jf: u8, k: u32) -> Insn {
    Insn { code, jt, jf, k }
}

/// Whether a text spells these instructions.
fn spells(alloc: Global, text: &[u8], want: &[Insn]) -> bool {
    match read_ddd(alloc, text) {
        Ok(program) => program.as_slice() == want,
        Err(_) => false,
    }
}

/// The filter of ARP packets over Ethernet.
fn arp() -> [Insn; 4] {
    [
        insn(40, 0, 0, 12),
        insn(21, 0, 1, 2054),
        insn(6, 0, 0, 4294967295),
        insn(6, 0, 0, 0),
    ]
}

#[test]
fn texts_of_programs(rt: HostRuntime) {
    let alloc = rt.alloc();
    let comma: &[u8] = b"4,40 0 0 12,21 0 1 2054,6 0 0 4294967295,6 0 0 0";
    let comma_at_end: &[u8] = b"4,40 0 0 12,21 0 1 2054,6 0 0 4294967295,6 0 0 0,";
    let lines: &[u8] = b"4\n40 0 0 12\n21 0 1 2054\n6 0 0 4294967295\n6 0 0 0\n";
    let dos_lines: &[u8] = b"4\r\n40 0 0 12\r\n21 0 1 2054\r\n6 0 0 4294967295\r\n6 0 0 0\r\n\r\n";
    let blanks: &[u8] =
        b"  4\t, 40\t0 0   12,\t21 0 1 2054\r,6 0\r0 4294967295 \n6 0 0 0 , ,\n\t\n";
    let zeros: &[u8] =
        b"0004,00040 00 000 012,021 0 01 02054,6 0 0 000000000000004294967295,06 0 0 00";
    for text in [comma, comma_at_end, lines, dos_lines, blanks, zeros] {
        holds_at(&rt, spells(alloc, text, &arp()), &text);
    }
    holds(&rt, spells(alloc, b"1,6 0 0 5,", &[insn(6, 0, 0, 5)]));
    holds(
        &rt,
        spells(
            alloc,
            b"1,65535 255 255 4294967295",
            &[insn(65535, 255, 255, 4294967295)],
        ),
    );
    holds(&rt, spells(alloc, b"0", &[]));
    holds(&rt, spells(alloc, b"0,\n", &[]));
}

/// A text of so many instructions.
fn returns(rt: &impl Abort, alloc: Global, count: u32) -> String {
    let mut text = format!(in alloc; "{count}").expect(rt, "there is memory");
    for _ in 0..count {
        text.push_str(",6 0 0 5").expect(rt, "there is memory");
    }
    text
}

#[test]
fn the_longest_program(rt: HostRuntime) {
    are_returns(&rt, rt.alloc(), 4096);
    let longer = returns(&rt, rt.alloc(), 4097);
    let fault = read_ddd(rt.alloc(), longer.as_bytes()).err();
    equal(&rt, fault, Some(TextFault::TooLong));
}

/// A text of so many instructions is read as these.
fn are_returns(rt: &impl Abort, alloc: Global, count: u32) {
    let longest = returns(rt, alloc, count);
    let program = read_ddd(alloc, longest.as_bytes()).expect(rt, "a program");
    equal(rt, program.len(), count as usize);
    for one in &program {
        equal(rt, *one, insn(6, 0, 0, 5));
    }
}

/// The codes of the loads from the packet, at a fixed place and at one from the index register on.
static LOADS: [(u16, u16, Size); 3] = [
    (0x20, 0x40, Size::Word),
    (0x28, 0x48, Size::Half),
    (0x30, 0x50, Size::Byte),
];

/// The codes of the operations, with a constant and with the index register.
static OPERATIONS: [(u16, u16, AluOp); 10] = [
    (0x04, 0x0c, AluOp::Add),
    (0x14, 0x1c, AluOp::Sub),
    (0x24, 0x2c, AluOp::Mul),
    (0x34, 0x3c, AluOp::Div),
    (0x44, 0x4c, AluOp::Or),
    (0x54, 0x5c, AluOp::And),
    (0x64, 0x6c, AluOp::Lsh),
    (0x74, 0x7c, AluOp::Rsh),
    (0x94, 0x9c, AluOp::Mod),
    (0xa4, 0xac, AluOp::Xor),
];

/// The codes of the conditional jumps, with a constant and with the index register.
static TESTS: [(u16, u16, Test); 4] = [
    (0x15, 0x1d, Test::Equal),
    (0x25, 0x2d, Test::Greater),
    (0x35, 0x3d, Test::GreaterOrEqual),
    (0x45, 0x4d, Test::AnyBit),
];

static OTHERS: [(u16, Form); 15] = [
    (0x00, Form::LdImm { k: 7 }),
    (0x60, Form::LdMem { k: 7 }),
    (0x80, Form::LdLen),
    (0x01, Form::LdxImm { k: 7 }),
    (0x61, Form::LdxMem { k: 7 }),
    (0x81, Form::LdxLen),
    (0xb1, Form::LdxMsh { k: 7 }),
    (0x02, Form::St { k: 7 }),
    (0x03, Form::Stx { k: 7 }),
    (0x84, Form::Neg),
    (0x05, Form::Ja { k: 7 }),
    (0x06, Form::RetK { k: 7 }),
    (0x16, Form::RetA),
    (0x07, Form::Tax),
    (0x87, Form::Txa),
];

fn has_form(rt: &impl Abort, code: u16, form: Form) {
    equal_at(rt, insn(code, 3, 5, 7).form(), Some(form), &code);
}

#[test]
fn codes_of_forms(rt: HostRuntime) {
    for (fixed, indexed, size) in &LOADS {
        let (size, k) = (*size, 7);
        has_form(&rt, *fixed, Form::LdAbs { size, k });
        has_form(&rt, *indexed, Form::LdInd { size, k });
    }
    for (constant, index, op) in &OPERATIONS {
        let (op, k) = (*op, 7);
        has_form(&rt, *constant, Form::AluK { op, k });
        has_form(&rt, *index, Form::AluX { op });
    }
    for (constant, index, test) in &TESTS {
        let (test, k, jt, jf) = (*test, 7, 3, 5);
        has_form(&rt, *constant, Form::JmpK { test, k, jt, jf });
        has_form(&rt, *index, Form::JmpX { test, jt, jf });
    }
    for (code, form) in &OTHERS {
        has_form(&rt, *code, *form);
    }
    let mut known = 0u32;
    for code in 0..=u16::MAX {
        if insn(code, 3, 5, 7).form().is_some() {
            known = known.saturating_add(1);
        }
    }
    equal(&rt, known, 49);
}

#[test]
fn bytes_of_instructions(rt: HostRuntime) {
    let one = insn(0x1234, 0x56, 0x78, 0x9abcdef0);
    let bytes = [0x34, 0x12, 0x56, 0x78, 0xf0, 0xde, 0xbc, 0x9a];
    equal(&rt, one.to_bytes(), bytes);
    equal(&rt, Insn::from_bytes(bytes), one);
    for one in arp() {
        equal(&rt, Insn::from_bytes(one.to_bytes()), one);
    }
}

#[test]
fn decimal_texts_written(rt: HostRuntime) {
    let alloc = rt.alloc();
    let written = write_ddd(alloc, &arp()).expect(&rt, "there is memory");
    let lines: &[u8] = b"4\n40 0 0 12\n21 0 1 2054\n6 0 0 4294967295\n6 0 0 0\n";
    holds(&rt, written.as_slice() == lines);
    holds(&rt, spells(alloc, lines, &arp()));
    let nothing = write_ddd(alloc, &[]).expect(&rt, "there is memory");
    holds(&rt, nothing.as_slice() == b"0\n".as_slice());
    let any = [
        insn(65535, 255, 255, 4294967295),
        insn(0, 10, 200, 1000000000),
    ];
    let text = write_ddd(alloc, &any).expect(&rt, "there is memory");
    holds(
        &rt,
        text.as_slice() == b"2\n65535 255 255 4294967295\n0 10 200 1000000000\n".as_slice(),
    );
    holds(&rt, spells(alloc, text.as_slice(), &any));
}

/// Whether a program has this assembler text.
fn prints_as(alloc: Global, program: &[Insn], want: &str) -> bool {
    if !printable(program) {
        return false;
    }
    match write_asm(alloc, program) {
        Ok(text) => text.as_slice() == want.as_bytes(),
        Err(_) => false,
    }
}

/// Each code, and the text at place 0 of its instruction with 1, 2 and 7 in its fields.
static TEXTS: [(u16, &str); 49] = [
    (0x00, "ldi #7"),
    (0x20, "ld [7]"),
    (0x28, "ldh [7]"),
    (0x30, "ldb [7]"),
    (0x40, "ld [x + 7]"),
    (0x48, "ldh [x + 7]"),
    (0x50, "ldb [x + 7]"),
    (0x60, "ld M[7]"),
    (0x80, "ld #len"),
    (0x01, "ldxi #7"),
    (0x61, "ldx M[7]"),
    (0x81, "ldx #len"),
    (0xb1, "ldxb 4*([7]&0xf)"),
    (0x02, "st M[7]"),
    (0x03, "stx M[7]"),
    (0x04, "add #7"),
    (0x14, "sub #7"),
    (0x24, "mul #7"),
    (0x34, "div #7"),
    (0x44, "or #7"),
    (0x54, "and #7"),
    (0x64, "lsh #7"),
    (0x74, "rsh #7"),
    (0x94, "mod #7"),
    (0xa4, "xor #7"),
    (0x0c, "add x"),
    (0x1c, "sub x"),
    (0x2c, "mul x"),
    (0x3c, "div x"),
    (0x4c, "or x"),
    (0x5c, "and x"),
    (0x6c, "lsh x"),
    (0x7c, "rsh x"),
    (0x9c, "mod x"),
    (0xac, "xor x"),
    (0x84, "neg"),
    (0x05, "jmp l8"),
    (0x15, "jeq #7, l2, l3"),
    (0x25, "jgt #7, l2, l3"),
    (0x35, "jge #7, l2, l3"),
    (0x45, "jset #7, l2, l3"),
    (0x1d, "jeq x, l2, l3"),
    (0x2d, "jgt x, l2, l3"),
    (0x3d, "jge x, l2, l3"),
    (0x4d, "jset x, l2, l3"),
    (0x06, "ret #7"),
    (0x16, "ret a"),
    (0x07, "tax"),
    (0x87, "txa"),
];

#[test]
fn assembler_texts(rt: HostRuntime) {
    let alloc = rt.alloc();
    let lines = "l0: ldh [12]\nl1: jeq #2054, l2, l3\nl2: ret #4294967295\nl3: ret #0\n";
    holds(&rt, prints_as(alloc, &arp(), lines));
    holds(&rt, prints_as(alloc, &[], ""));
    for (code, want) in &TEXTS {
        begins_with(&rt, alloc, *code, want);
    }
}

/// The text of a program of this instruction and eight returns begins with that of the instruction.
fn begins_with(rt: &impl Abort, alloc: Global, code: u16, want: &str) {
    let mut program = [insn(6, 0, 0, 0); 9];
    program[0] = insn(code, 1, 2, 7);
    let rest =
        "l1: ret #0\nl2: ret #0\nl3: ret #0\nl4: ret #0\nl5: ret #0\nl6: ret #0\nl7: ret #0\nl8: ret #0\n";
    let text = format!(in alloc; "l0: {want}\n{rest}").expect(rt, "there is memory");
    holds_at(rt, prints_as(alloc, &program, text.as_str()), &want);
}

/// Instructions before a return, and whether they are printable there.
static BEFORE_A_RETURN: [(Insn, bool); 8] = [
    (
        Insn {
            code: 5,
            jt: 0,
            jf: 0,
            k: 1,
        },
        false,
    ),
    (
        Insn {
            code: 5,
            jt: 0,
            jf: 0,
            k: 0,
        },
        true,
    ),
    (
        Insn {
            code: 5,
            jt: 0,
            jf: 0,
            k: 4294967295,
        },
        false,
    ),
    (
        Insn {
            code: 0x15,
            jt: 1,
            jf: 0,
            k: 0,
        },
        false,
    ),
    (
        Insn {
            code: 0x15,
            jt: 0,
            jf: 1,
            k: 0,
        },
        false,
    ),
    (
        Insn {
            code: 0x15,
            jt: 0,
            jf: 0,
            k: 0,
        },
        true,
    ),
    (
        Insn {
            code: 0x1d,
            jt: 1,
            jf: 0,
            k: 0,
        },
        false,
    ),
    (
        Insn {
            code: 0x1d,
            jt: 0,
            jf: 1,
            k: 0,
        },
        false,
    ),
];

#[test]
fn what_is_printable(rt: HostRuntime) {
    let end = insn(6, 0, 0, 0);
    equal(&rt, printable(&[]), true);
    equal(&rt, printable(&arp()), true);
    equal(&rt, printable(&[insn(5, 0, 0, 0)]), false);
    for (one, wanted) in &BEFORE_A_RETURN {
        equal_at(&rt, printable(&[*one, end]), *wanted, one);
    }
    equal(&rt, printable(&[insn(0x0e, 0, 0, 0), end]), false);
    for (count, wanted) in [(4096, true), (4097, false)] {
        let long = vec![in rt.alloc(); end; count].expect(&rt, "there is memory");
        equal(&rt, printable(&long), wanted);
    }
}
