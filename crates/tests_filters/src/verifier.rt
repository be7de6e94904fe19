//! Programs, and whether and why they are refused.

use crate::facts::{equal, holds};
use bpf_insn::{Insn, MAX_INSNS};
use filter_verify::{Breach, Places, Refusal, Verified, check, verify};
use std::alloc::Global;
use std::process::Abort;

fn insn(code: u16, jt: u8, jf: u8, k: u32) -> Insn {
    Insn { code, jt, jf, k }
}

/// So many times `txa`, and a return.
fn txa_program(rt: &impl Abort, alloc: Global, count: usize) -> Vec<Insn> {
    let mut code = vec![in alloc; insn(135, 0, 0, 0); count].expect(rt, "there is memory");
    code.push(insn(6, 0, 0, 5)).expect(rt, "there is memory");
    code
}

/// A text of so many instructions is no program, so no command shows this.
#[test]
fn the_longest_program(rt: HostRuntime) {
    let long = txa_program(&rt, rt.alloc(), MAX_INSNS);
    equal(&rt, long.len(), 4097);
    equal(&rt, verify(rt.alloc(), &long).err(), Some(Refusal::TooLong));
}

#[test]
fn copies(rt: HostRuntime) {
    let alloc = rt.alloc();
    let code = [insn(40, 0, 0, 12), insn(6, 0, 0, 0)];
    let program = verify(alloc, &code).expect(&rt, "there is memory");
    equal(&rt, program.code(), &code[..]);
    equal(
        &rt,
        program.clone().expect(&rt, "there is memory").code(),
        &code[..],
    );
    let places = Places::from_vec([0, 2].to_vec(alloc).expect(&rt, "there is memory"));
    equal(&rt, places.as_slice(), &[0, 2][..]);
    equal(&rt, places.into_vec().as_slice(), &[0, 2][..]);
}

#[test]
fn numbers_and_places(rt: HostRuntime) {
    let path = Places::from_vec([0, 2].to_vec(rt.alloc()).expect(&rt, "there is memory"));
    for (refusal, number, place) in [
        (Refusal::NoMemory, 0, 0),
        (Refusal::Empty, 1, 0),
        (Refusal::TooLong, 2, 0),
        (Refusal::BadCode(7), 3, 7),
        (Refusal::ZeroDivisor(6), 4, 6),
        (Refusal::BadShift(5), 5, 5),
        (Refusal::BadWord(4), 6, 4),
        (Refusal::JumpOut(4095), 7, 4095),
        (Refusal::Ancillary(3), 8, 3),
        (Refusal::NoReturn, 9, 0),
        (
            Refusal::Unwritten {
                pc: 2,
                word: 0,
                path,
            },
            10,
            2,
        ),
    ] {
        equal(&rt, (refusal.number(), refusal.place()), (number, place));
    }
}

/// The answer, asked for once more where a growth is refused.
fn answer(alloc: Global, code: &[Insn]) -> Result<Verified, Refusal> {
    match verify(alloc, code) {
        Err(Refusal::NoMemory) => verify(alloc, code),
        answer => answer,
    }
}

/// Both arms store the word that is loaded.
fn stored_by_both() -> [Insn; 7] {
    [
        insn(40, 0, 0, 12),
        insn(21, 0, 2, 2048),
        insn(2, 0, 0, 0),
        insn(5, 0, 0, 1),
        insn(2, 0, 0, 0),
        insn(96, 0, 0, 0),
        insn(22, 0, 0, 0),
    ]
}

/// Only one arm stores it.
fn stored_by_one() -> [Insn; 5] {
    [
        insn(40, 0, 0, 12),
        insn(21, 0, 1, 2048),
        insn(2, 0, 0, 0),
        insn(96, 0, 0, 0),
        insn(22, 0, 0, 0),
    ]
}

#[test]
fn refused_growths_change_nothing(rt: HostRuntime) {
    let both = stored_by_both();
    match answer(rt.alloc(), &both) {
        Ok(program) => equal(&rt, program.code(), both.as_slice()),
        Err(_refusal) => holds(&rt, false),
    }
    match answer(rt.alloc(), &stored_by_one()) {
        Err(Refusal::Unwritten { pc, word, path }) => {
            equal(&rt, (pc, word), (3, 0));
            equal(&rt, path.as_slice(), &[0, 1, 3][..]);
        }
        _other => holds(&rt, false),
    }
}

/// Without memory no path is named.
#[test]
fn checked_without_memory(rt: HostRuntime) {
    let both = stored_by_both();
    equal(&rt, check(both.as_slice()), Ok(()));
    let one = stored_by_one();
    equal(&rt, check(one.as_slice()), Err(Breach { rule: 10, pc: 3 }));
    let long = txa_program(&rt, rt.alloc(), MAX_INSNS);
    equal(&rt, check(long.as_slice()), Err(Breach { rule: 2, pc: 0 }));
}
