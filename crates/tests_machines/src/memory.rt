//! Requests, turns and packets of cores that may be refused memory: what is refused changes nothing, and the next try does it.

ghost use Rattle.std.specs.Prelude.{◌≡◌};

use crate::facts::{equal, holds};
use crate::words::{create, install};
use core_loop::{Core, NotReceived, RingLinks, Turn};
use core_machine::boot_cores;
use filter_table::{Decision, Kept, Veto};
use std::alloc::Global;
use std::process::Abort;
use test_words::BYTES;

const NONE: Kept = Kept {
    endpoint: 0,
    kept: 0,
};

/// The version, the requests that are pending, and those that are under way.
fn place(core: &Core<RingLinks>) -> (u64, usize, u64) {
    (core.version(), core.pending(), core.under_way())
}

/// Asks for an endpoint, and again where memory was refused.
fn asks_for_endpoint(rt: &impl Abort, core: &mut Core<RingLinks>) {
    let before = place(core);
    if core.ask(create()).is_err() {
        equal(rt, place(core), before);
        holds(rt, core.ask(create()).is_ok());
    }
}

/// Asks for a filter, and again where memory was refused.
fn asks_for_filter(rt: &impl Abort, alloc: Global, core: &mut Core<RingLinks>) {
    let before = place(core);
    if let Ok(op) = install(alloc)
        && core.ask(op).is_ok()
    {
        return;
    }
    equal(rt, place(core), before);
    match install(alloc) {
        Ok(op) => holds(rt, core.ask(op).is_ok()),
        Err(_) => holds(rt, false),
    }
}

/// A turn, and another where memory was refused: its decision.
fn turns(rt: &impl Abort, core: &mut Core<RingLinks>) -> Option<Decision> {
    let before = place(core);
    let turn = match core.turn(false) {
        Turn::NoMemory => {
            equal(rt, place(core), before);
            core.turn(false)
        }
        turn => turn,
    };
    match turn {
        Turn::Did { event: _, decision } => decision,
        Turn::Idle => None,
        _ => {
            holds(rt, false);
            None
        }
    }
}

/// How many endpoints get a packet, asked again where memory was refused.
fn receives(rt: &impl Abort, core: &mut Core<RingLinks>) -> Option<usize> {
    let before = place(core);
    let mut room = [NONE; 4];
    match core.receive(&BYTES, 5, &mut room) {
        Ok(count) => Some(count),
        Err(why) => {
            equal(rt, why, NotReceived::NoMemory);
            equal(rt, place(core), before);
            core.receive(&BYTES, 5, &mut room).ok()
        }
    }
}

/// The decision of core 1 on the request that it was asked, once both cores had enough turns.
fn decided(
    rt: &impl Abort,
    first: &mut Core<RingLinks>,
    other: &mut Core<RingLinks>,
) -> Option<Decision> {
    let mut found = None;
    for _ in 0..12 {
        let _ = turns(rt, first);
        found = turns(rt, other).or(found);
    }
    equal(rt, (first.under_way(), other.under_way()), (0, 0));
    equal(rt, first.version(), other.version());
    found
}

fn lacked_memory(decision: Option<Decision>) -> bool {
    matches!(
        decision,
        Some(Decision::Refused {
            why: Veto::NoMemory,
            ..
        })
    )
}

/// Core 1 has its endpoint and its filter, and both cores give a packet to the endpoint, unless a vote or a decision was that there was
/// no memory.
fn serve(rt: &impl Abort, alloc: Global, first: &mut Core<RingLinks>, other: &mut Core<RingLinks>) {
    equal(rt, receives(rt, other), Some(0));
    asks_for_endpoint(rt, other);
    let endpoint = decided(rt, first, other);
    holds(rt, endpoint.is_some());
    equal(rt, receives(rt, first), Some(0));
    asks_for_filter(rt, alloc, other);
    let filter = decided(rt, first, other);
    holds(rt, filter.is_some());
    if !lacked_memory(endpoint) && !lacked_memory(filter) {
        equal(rt, first.version(), 2);
        equal(rt, receives(rt, first), Some(1));
        equal(rt, receives(rt, other), Some(1));
    }
}

#[test]
fn cores_that_serve_with_a_refused_growth(rt: HostRuntime) {
    let alloc = rt.alloc();
    let mut cores = boot_cores(alloc, &[100, 100]).expect(&rt, "there is memory");
    if let [first, other] = cores.as_mut_slice() {
        serve(&rt, alloc, first, other);
    }
    drop(cores);
}
