//! Two cores that serve, each in a thread of its own. Core 1 asks for an endpoint and for a filter, learns what became of each request, and has a
//! packet handed to the endpoints that want it.
#![tactic(auto)]

ghost use Rattle.std.specs.Prelude.{◌≡◌, ◌≤◌, ◌∷◌, [], length, IfOk};
ghost use Rattle.core_loop.specs.Cores.{AreShort};

use bpf_insn::Insn;
use core_loop::{Core, RingLinks, Turn};
use core_machine::boot_cores;
use filter_table::{Decision, Kept, Op, Program};
use std::alloc::{AllocError, Global};
use std::io::{self, Print};
use std::sync::atomic::{AtomicBool, Ordering};
use std::thread::{self, Threads};

/// Accepts ARP, and keeps 64 bytes (`tcpdump -ddd arp`).
const ARP: [Insn; 4] = [
    Insn {
        code: 40,
        jt: 0,
        jf: 0,
        k: 12,
    },
    Insn {
        code: 21,
        jt: 0,
        jf: 1,
        k: 2054,
    },
    Insn {
        code: 6,
        jt: 0,
        jf: 0,
        k: 64,
    },
    Insn {
        code: 6,
        jt: 0,
        jf: 0,
        k: 0,
    },
];

/// The first bytes of an ARP request.
const FRAME: [u8; 16] = [
    255, 255, 255, 255, 255, 255, 0, 17, 34, 51, 68, 85, 8, 6, 0, 1,
];

/// A core that waits for the others gives up after so many turns.
const MOST_TURNS: u64 = 1_000_000_000;

fn main(rt: HostRuntime) -> io::Result<()> {
    run(&rt, rt.alloc())
}

fn run<R: Threads + Print + Sync>(rt: &R, alloc: Global) -> io::Result<()> {
    let Ok(mut cores) = boot_cores(alloc, &[9, 9]) else {
        return println!(rt; "out of memory");
    };
    let done = AtomicBool::new(false);
    thread::for_each_mut(rt, &mut cores, 2, &|_, core| serve(rt, alloc, core, &done));
    Ok(())
}

/// Core 0 is turned until core 1 has what it asked for.
fn serve<R: Print>(rt: &R, alloc: Global, core: &mut Core<RingLinks>, done: &AtomicBool) {
    if core.number() == 1 {
        let _ = open(rt, alloc, core);
        done.store(true, Ordering::SeqCst);
    } else {
        turn_until(core, done);
    }
}

fn turn_until(core: &mut Core<RingLinks>, done: &AtomicBool) {
    for _ in 0..MOST_TURNS {
        let _ = core.turn(false);
        if done.load(Ordering::SeqCst) {
            break;
        }
    }
}

/// Opens endpoint 7 of domain 1 for ARP, and receives a packet.
fn open<R: Print>(rt: &R, alloc: Global, core: &mut Core<RingLinks>) -> io::Result<()> {
    let create = Op::Create {
        domain: 1,
        endpoint: 7,
    };
    println!(rt; "{:?}", decided(core, create))?;
    let Ok(program) = arp(alloc) else {
        return println!(rt; "out of memory");
    };
    let install = Op::Install {
        domain: 1,
        cap: 1,
        program,
    };
    println!(rt; "{:?}", decided(core, install))?;
    let mut room = [Kept {
        endpoint: 0,
        kept: 0,
    }; 4];
    match core.receive(&FRAME, 42, &mut room) {
        Ok(count) => println!(rt; "version {}: {:?}", core.version(), &room[..count]),
        Err(why) => println!(rt; "{why:?}"),
    }
}

/// The program that accepts ARP.
fn arp(alloc: Global) -> Result<Program, AllocError>
    ensures { IfOk result (λ program. length program ≤ 4096) }
{
    Program::from_vec(alloc, Vec::from_slice(alloc, &ARP)?)
}

/// What becomes of a request, once all cores have had their say.
fn decided(core: &mut Core<RingLinks>, op: Op) -> Option<Decision>
    requires { AreShort core.old.number (op ∷ []) }
{
    core.ask(op).ok()?;
    for _ in 0..MOST_TURNS {
        if let Turn::Did { event: _, decision } = core.turn(false)
            && decision.is_some()
        {
            return decision;
        }
    }
    None
}
