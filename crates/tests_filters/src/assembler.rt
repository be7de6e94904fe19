//! Assembler texts that are printed and read again, and refused memory.

use crate::facts::{equal, holds};
use bpf_insn::{Insn, printable, write_asm};
use filter_asm::{AsmFault, AsmFaultKind, assemble};
use std::alloc::Global;
use std::process::Abort;

fn insn(code: u16, jt: u8, jf: u8, k: u32) -> Insn {
    Insn { code, jt, jf, k }
}

/// What the text that is printed of a program stands for, if it is printable.
fn printed_again(alloc: Global, printed: &[Insn]) -> Option<Vec<Insn>> {
    if !printable(printed) {
        return None;
    }
    let text = write_asm(alloc, printed).ok()?;
    if text.len() >= 1 << 20 {
        return None;
    }
    assemble(alloc, &text).ok()
}

/// Instructions with fields that their forms may not use, and those that their text stands for.
#[derive(Drop)]
struct Pairs {
    printed: Vec<Insn>,
    read: Vec<Insn>,
}

impl Pairs {
    /// Adds one of these codes, of whose fields these are read again.
    fn push(&mut self, rt: &impl Abort, code: u16, jt: u8, jf: u8, k: u32) {
        let printed = self.printed.push(insn(code, 1, 2, 3));
        printed.expect(rt, "there is memory");
        let read = self.read.push(insn(code, jt, jf, k));
        read.expect(rt, "there is memory");
    }
}

/// The codes of which k alone is read again.
const NUMBERS: [u16; 25] = [
    0x00, 0x20, 0x28, 0x30, 0x40, 0x48, 0x50, 0x60, 0x01, 0x61, 0xb1, 0x02, 0x03, 0x05, 0x04, 0x14,
    0x24, 0x34, 0x44, 0x54, 0x64, 0x74, 0x94, 0xa4, 0x06,
];

/// The codes of which nothing else is read again.
const ALONE: [u16; 16] = [
    0x80, 0x81, 0x0c, 0x1c, 0x2c, 0x3c, 0x4c, 0x5c, 0x6c, 0x7c, 0x9c, 0xac, 0x84, 0x16, 0x07, 0x87,
];

/// Adds each code.
fn push_all(rt: &impl Abort, pairs: &mut Pairs) {
    for code in NUMBERS {
        pairs.push(rt, code, 0, 0, 3);
    }
    for code in [0x15, 0x25, 0x35, 0x45] {
        pairs.push(rt, code, 1, 2, 3);
    }
    for code in [0x1d, 0x2d, 0x3d, 0x4d] {
        pairs.push(rt, code, 1, 2, 0);
    }
    for code in ALONE {
        pairs.push(rt, code, 0, 0, 0);
    }
}

#[test]
fn printed_programs(rt: HostRuntime) {
    let alloc = rt.alloc();
    let mut pairs = Pairs {
        printed: Vec::new(alloc),
        read: Vec::new(alloc),
    };
    push_all(&rt, &mut pairs);
    equal(&rt, pairs.printed.len(), 49);
    equal(&rt, printed_again(alloc, &pairs.printed), Some(pairs.read));
}

/// What a text stands for, or its fault, is given or memory is refused.
#[test]
fn texts_with_a_refused_growth(rt: HostRuntime) {
    let text = b"ldh [12]\njeq #0x806, arp, drop\narp: ret #4\ndrop: ret #0\n";
    match assemble(rt.alloc(), text) {
        Ok(program) => equal(&rt, program.len(), 4),
        Err(fault) => equal(&rt, fault.kind, AsmFaultKind::NoMemory),
    }
    if let Err(fault) = assemble(rt.alloc(), b"arp: tax\njmp drop\n") {
        let AsmFault { line, kind } = fault;
        holds(
            &rt,
            kind == AsmFaultKind::NoMemory || (line == 2 && kind == AsmFaultKind::NoLabel),
        );
    } else {
        holds(&rt, false);
    }
}
