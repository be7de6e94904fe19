//! Conditions and their programs. The first is what libpcap makes of `ip and tcp port 80` (pcap-filter(7)).

use bpf_insn::{Insn, Size, Test};
use filter_codegen::{CompileFault, compile};
use filter_cond::{Calculation, Check, Comparison, Cond, Load, Number, Part};
use filter_vm::run;
use std::test::Fail;

/// A test for a number at a byte of the packet.
fn is(size: Size, at: u32, value: u32) -> Part {
    Part::Is(Check {
        load: Load::At { size, at },
        mask: None,
        test: Test::Equal,
        value,
    })
}

/// A test for a number past a header of IPv4, which lies at `at` where that header has no bytes: the ports at 14 and 16.
fn port(at: u32, value: u32) -> Part {
    Part::Is(Check {
        load: Load::Past {
            size: Size::Half,
            header: 14,
            at,
        },
        mask: None,
        test: Test::Equal,
        value,
    })
}

/// The packet is no later fragment.
const WHOLE: Part = Part::Is(Check {
    load: Load::At {
        size: Size::Half,
        at: 20,
    },
    mask: Some(0x1fff),
    test: Test::Equal,
    value: 0,
});

/// The condition with these parts.
fn cond(rt: &HostRuntime, parts: &[Part]) -> Result<Cond, Fail> {
    let mut made = Cond::new(rt.alloc());
    for part in parts {
        made.parts.push(*part)?;
    }
    Ok(made)
}

fn insn(code: u16, jt: u8, jf: u8, k: u32) -> Insn {
    Insn { code, jt, jf, k }
}

#[test]
fn a_port_of_tcp(rt: HostRuntime) -> Result<(), Fail> {
    let parts = [
        is(Size::Half, 12, 0x800),
        is(Size::Byte, 23, 6),
        Part::And,
        WHOLE,
        Part::And,
        port(14, 80),
        port(16, 80),
        Part::Or,
        Part::And,
    ];
    let code = [
        insn(0x28, 0, 0, 12),
        insn(0x15, 0, 10, 0x800),
        insn(0x30, 0, 0, 23),
        insn(0x15, 0, 8, 6),
        insn(0x28, 0, 0, 20),
        insn(0x45, 6, 0, 0x1fff),
        insn(0xb1, 0, 0, 14),
        insn(0x48, 0, 0, 14),
        insn(0x15, 2, 0, 80),
        insn(0x48, 0, 0, 16),
        insn(0x15, 0, 1, 80),
        insn(0x06, 0, 0, 262144),
        insn(0x06, 0, 0, 0),
    ];
    let made = cond(&rt, &parts)?;
    let program = compile(rt.alloc(), &made, 262_144)
        .ok()
        .ok_or("no program")?;
    assert_eq!(rt; program.code(), code.as_slice());
    Ok(())
}

/// The header of IPv4 is 24 bytes long, and port 80 is the second number after it.
#[test]
fn options_are_passed_over(rt: HostRuntime) -> Result<(), Fail> {
    let made = cond(&rt, &[port(16, 80)])?;
    let program = compile(rt.alloc(), &made, 7).ok().ok_or("no program")?;
    let mut packet = [0u8; 42];
    packet[14] = 0x46;
    packet[41] = 80;
    assert_eq!(rt; run(&program, &packet, 42).verdict, 7);
    packet[14] = 0x45;
    assert_eq!(rt; run(&program, &packet, 42).verdict, 0);
    packet[14] = 0x47;
    assert_eq!(rt;
        run(&program, &packet, 42).verdict,
        0,
        "past the end of the packet"
    );
    Ok(())
}

/// A load out of range ends a program with 0, whatever `not` stands before it.
#[test]
fn the_other_way_round(rt: HostRuntime) -> Result<(), Fail> {
    let made = cond(&rt, &[is(Size::Half, 12, 0x806), Part::Not])?;
    let program = compile(rt.alloc(), &made, 9).ok().ok_or("no program")?;
    let mut packet = [0u8; 14];
    assert_eq!(rt; run(&program, &packet, 14).verdict, 9);
    assert_eq!(rt; run(&program, &packet[..13], 14).verdict, 0);
    packet[12] = 8;
    packet[13] = 6;
    assert_eq!(rt; run(&program, &packet, 14).verdict, 0);
    Ok(())
}

/// One of three, by the first; what others have decided is not asked again.
#[test]
fn a_test_is_done_once(rt: HostRuntime) -> Result<(), Fail> {
    let first = is(Size::Byte, 0, 1);
    let parts = [
        first,
        is(Size::Byte, 1, 2),
        is(Size::Byte, 2, 3),
        Part::If,
        first,
        Part::And,
    ];
    let made = cond(&rt, &parts)?;
    let program = compile(rt.alloc(), &made, 5).ok().ok_or("no program")?;
    assert_eq!(rt; run(&program, &[1, 2, 9], 3).verdict, 5);
    assert_eq!(rt; run(&program, &[1, 9, 3], 3).verdict, 0);
    assert_eq!(rt; run(&program, &[9, 2, 3], 3).verdict, 0);
    let loads = program
        .code()
        .iter()
        .filter(|insn| insn.code == 0x30 && insn.k == 0);
    assert_eq!(rt; loads.count(), 1);
    Ok(())
}

/// Conditions without a test, and one without a part, which has no value.
#[test]
fn constants_load_nothing(rt: HostRuntime) -> Result<(), Fail> {
    for (parts, verdict) in [
        ([Part::Always].as_slice(), 3),
        (&[Part::Never], 0),
        (&[], 0),
    ] {
        let made = cond(&rt, parts)?;
        let program = compile(rt.alloc(), &made, 3).ok().ok_or("no program")?;
        assert_eq!(rt; run(&program, &[], 0).verdict, verdict);
        assert!(rt; program.code().iter().all(|insn| insn.code % 8 > 4));
    }
    Ok(())
}

#[test]
fn what_is_refused(rt: HostRuntime) -> Result<(), Fail> {
    let mut sums = cond(&rt, &[])?;
    sums.calculations
        .push(Calculation::Negate(Number::Constant(1)))?;
    sums.parts.push(Part::Compare(Comparison {
        left: Number::Calculated(0),
        test: Test::Equal,
        right: Number::Constant(1),
    }))?;
    assert_eq!(rt;
        compile(rt.alloc(), &sums, 1).err(),
        Some(CompileFault::TooHard)
    );
    let mut long = cond(&rt, &[Part::Never])?;
    for value in 0..5000u32 {
        long.parts.push(is(Size::Word, value, value))?;
        long.parts.push(Part::Or)?;
    }
    assert_eq!(rt;
        compile(rt.alloc(), &long, 1).err(),
        Some(CompileFault::TooLong)
    );
    Ok(())
}
