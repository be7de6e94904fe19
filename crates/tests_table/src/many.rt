//! Many filters of few shapes: each packet goes where a run of each filter says, also once filters were removed and replaced.
use crate::facts::{equal_at, holds};
use bpf_insn::Insn;
use filter_vm::run;
use std::alloc::{AllocError, Global};
use std::process::Abort;
use table_replica::{Kept, Op, Program, Replica};

/// How many shapes there are, and how many filters of each.
const SHAPES: u32 = 6;

const EACH: u32 = 7;

const fn insn(code: u16, jt: u8, jf: u8, k: u32) -> Insn {
    Insn { code, jt, jf, k }
}

/// UDP datagrams to a port.
fn to_port(alloc: Global, number: u8) -> Result<Vec<Insn>, AllocError> {
    Vec::from_slice(
        alloc,
        &[
            insn(40, 0, 0, 12),
            insn(21, 0, 8, 2048),
            insn(48, 0, 0, 23),
            insn(21, 0, 6, 17),
            insn(40, 0, 0, 20),
            insn(69, 4, 0, 8191),
            insn(177, 0, 0, 14),
            insn(72, 0, 0, 16),
            insn(21, 0, 1, 53 + u32::from(number)),
            insn(6, 0, 0, 60 + u32::from(number)),
            insn(6, 0, 0, 0),
        ],
    )
}

/// Packets whose byte 40 is in a range.
fn in_range(alloc: Global, number: u8) -> Result<Vec<Insn>, AllocError> {
    Vec::from_slice(
        alloc,
        &[
            insn(48, 0, 0, 40),
            insn(53, 0, 2, u32::from(number)),
            insn(37, 1, 0, 2 * u32::from(number)),
            insn(6, 0, 0, 1 + u32::from(number)),
            insn(6, 0, 0, 0),
        ],
    )
}

/// All packets, so much of each.
fn so_much(alloc: Global, number: u8) -> Result<Vec<Insn>, AllocError> {
    Vec::from_slice(alloc, &[insn(6, 0, 0, u32::from(number / 2))])
}

/// Packets that have a bit in byte 41.
fn with_bit(alloc: Global, number: u8) -> Result<Vec<Insn>, AllocError> {
    Vec::from_slice(
        alloc,
        &[
            insn(48, 0, 0, 41),
            insn(69, 0, 1, 1 << (u32::from(number) % 8)),
            insn(6, 0, 0, 9),
            insn(6, 0, 0, 0),
        ],
    )
}

/// Packets whose byte 40 gives one of two sums over a word that is kept: it is another where members part.
fn by_word(alloc: Global, number: u8) -> Result<Vec<Insn>, AllocError> {
    Vec::from_slice(
        alloc,
        &[
            insn(48, 0, 0, 40),
            insn(2, 0, 0, 3),
            insn(21, 0, 2, u32::from(number % 3)),
            insn(0, 0, 0, u32::from(number)),
            insn(2, 0, 0, 3),
            insn(96, 0, 0, 3),
            insn(4, 0, 0, 5),
            insn(22, 0, 0, 0),
        ],
    )
}

/// Packets by two bytes, of which the first parts the filters one by one.
fn by_two(alloc: Global, number: u8) -> Result<Vec<Insn>, AllocError> {
    Vec::from_slice(
        alloc,
        &[
            insn(48, 0, 0, 41),
            insn(21, 1, 0, u32::from(number % 2)),
            insn(4, 0, 0, 0),
            insn(48, 0, 0, 40),
            insn(21, 0, 1, u32::from(number / 2)),
            insn(6, 0, 0, 20),
            insn(6, 0, 0, 0),
        ],
    )
}

fn code(alloc: Global, shape: u32, number: u32) -> Result<Vec<Insn>, AllocError> {
    let number = (number % EACH) as u8;
    match shape % SHAPES {
        0 => to_port(alloc, number),
        1 => in_range(alloc, number),
        2 => so_much(alloc, number),
        3 => with_bit(alloc, number),
        4 => by_word(alloc, number),
        _ => by_two(alloc, number),
    }
}

fn program(rt: &impl Abort, alloc: Global, shape: u32, number: u32) -> Program {
    let code = code(alloc, shape, number).expect(rt, "there is memory");
    Program::from_vec(alloc, code).expect(rt, "there is memory")
}

fn does(rt: &impl Abort, alloc: Global, replica: &mut Replica, op: &Op) {
    let staged = replica.stage(alloc, op).is_ok();
    let done = staged && replica.commit().is_ok();
    holds(rt, done);
}

/// Ten endpoints, and filters of all shapes in turn.
fn fill(rt: &impl Abort, alloc: Global, replica: &mut Replica) {
    for endpoint in 0..10 {
        does(
            rt,
            alloc,
            replica,
            &Op::Create {
                domain: 1,
                endpoint,
            },
        );
    }
    for number in 0..EACH {
        for shape in 0..SHAPES {
            let cap = (shape + 3 * number) % 10 + 1;
            let program = program(rt, alloc, shape, number);
            does(
                rt,
                alloc,
                replica,
                &Op::Install {
                    domain: 1,
                    cap,
                    program,
                },
            );
        }
    }
}

/// Every third filter is removed, and every fifth of the others has another program.
fn change(rt: &impl Abort, alloc: Global, replica: &mut Replica) {
    for filter in 1..SHAPES * EACH + 1 {
        if filter % 3 == 0 {
            does(rt, alloc, replica, &Op::Remove { domain: 1, filter });
        } else if filter % 5 == 0 {
            let program = program(rt, alloc, filter, filter + 2);
            does(
                rt,
                alloc,
                replica,
                &Op::Replace {
                    domain: 1,
                    filter,
                    program,
                },
            );
        }
    }
}

/// A datagram to a port over IPv4, with these bytes 40 and 41.
fn datagram(rt: &impl Abort, alloc: Global, port: u8, first: u8, second: u8) -> Vec<u8> {
    let mut bytes = vec![in alloc; 0u8; 64].expect(rt, "there is memory");
    bytes[12] = 8;
    bytes[14] = 69;
    bytes[23] = 17;
    bytes[37] = port;
    bytes[40] = first;
    bytes[41] = second;
    bytes
}

/// How much of a packet an endpoint gets by a run of each filter.
fn by_runs(replica: &Replica, endpoint: u16, bytes: &[u8]) -> u32 {
    let mut most = 0;
    for filter in replica.filters() {
        if filter.endpoint == endpoint {
            most = most.max(run(filter.program, bytes, 100).verdict.min(64));
        }
    }
    most
}

/// How much of a packet an endpoint is said to get.
fn by_list(kept: &[Kept], endpoint: u16) -> u32 {
    let mut most = 0;
    for one in kept {
        if one.endpoint == endpoint {
            most = one.kept;
        }
    }
    most
}

fn goes_right(rt: &impl Abort, alloc: Global, replica: &Replica, bytes: &[u8]) {
    let kept = replica
        .accepting(alloc, bytes, 100)
        .expect(rt, "there is memory");
    for endpoint in 0..10 {
        equal_at(
            rt,
            by_list(&kept, endpoint),
            by_runs(replica, endpoint, bytes),
            &endpoint,
        );
    }
}

fn all_go_right(rt: &impl Abort, alloc: Global, replica: &Replica) {
    for first in 0..8 {
        for second in 0..3 {
            let bytes = datagram(rt, alloc, 52 + first, first, second);
            goes_right(rt, alloc, replica, &bytes);
        }
    }
}

#[test]
fn packets_go_where_each_filter_says(rt: HostRuntime) {
    let mut replica = Replica::new(rt.alloc(), 1000).expect(&rt, "there is memory");
    fill(&rt, rt.alloc(), &mut replica);
    all_go_right(&rt, rt.alloc(), &replica);
    change(&rt, rt.alloc(), &mut replica);
    all_go_right(&rt, rt.alloc(), &replica);
    drop(replica);
}
