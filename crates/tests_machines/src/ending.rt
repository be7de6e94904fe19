//! Cores that end before others: who knows of it, and whose answer core 0 waits for.

use crate::facts::{equal, holds};
use crate::words::create;
use core_loop::{Core, RingLinks, Turn};
use core_machine::boot_cores;
use std::process::Abort;

/// Whether core 0 waits for the answers of cores 1 and 2.
fn waits(core: &Core<RingLinks>) -> (bool, bool) {
    (core.waits_for(1), core.waits_for(2))
}

/// A turn that does something.
fn does(rt: &impl Abort, core: &mut Core<RingLinks>) {
    holds(rt, matches!(core.turn(false), Turn::Did { .. }));
}

/// A turn that does nothing.
fn rests(rt: &impl Abort, core: &mut Core<RingLinks>) {
    holds(rt, matches!(core.turn(false), Turn::Idle));
}

/// Core 0 begins a change, on which core 1 votes.
fn begins(rt: &impl Abort, first: &mut Core<RingLinks>, other: &mut Core<RingLinks>) {
    equal(rt, (first.closed(), other.closed()), (0, 0));
    equal(rt, waits(first), (false, false));
    holds(rt, first.ask(create()).is_ok());
    does(rt, first);
    equal(rt, waits(first), (true, true));
    rests(rt, first);
    does(rt, other);
    rests(rt, other);
    does(rt, first);
    equal(rt, waits(first), (false, true));
}

/// Core 2 has ended before it voted.
fn goes_on_without(rt: &impl Abort, first: &mut Core<RingLinks>, other: &mut Core<RingLinks>) {
    equal(rt, (first.closed(), other.closed()), (4, 0));
    rests(rt, first);
    rests(rt, other);
    equal(rt, waits(first), (false, true));
    equal(rt, (first.closed(), other.closed()), (4, 0));
}

#[test]
fn cores_know_who_has_ended(rt: HostRuntime) {
    let mut cores = boot_cores(rt.alloc(), &[100, 100, 100]).expect(&rt, "there is memory");
    if let [first, other, _] = cores.as_mut_slice() {
        begins(&rt, first, other);
    }
    drop(cores.pop());
    if let [first, other] = cores.as_mut_slice() {
        goes_on_without(&rt, first, other);
    }
    if !cores.is_empty() {
        drop(cores.swap_remove(0));
    }
    if let [other] = cores.as_mut_slice() {
        equal(&rt, other.closed(), 1);
        rests(&rt, other);
    }
    drop(cores);
}

#[test]
fn cores_have_the_name_of_their_machine(rt: HostRuntime) {
    let mut cores = boot_cores(rt.alloc(), &[100, 100]).expect(&rt, "there is memory");
    if let [first, other] = cores.as_mut_slice() {
        equal(&rt, (first.machine(), other.machine()), (0, 0));
        first.name_machine(7);
        rests(&rt, first);
        equal(&rt, (first.machine(), other.machine()), (7, 0));
    }
    drop(cores);
}
