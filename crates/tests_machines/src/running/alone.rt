//! A core alone, one whose peer is silent, and one that is given messages which fit nothing.

ghost use Rattle.std.specs.Prelude.{◌≤◌, vec_len};

use super::{core_of, create, creation, has_turned, place};
use crate::facts::{equal, equal_at, holds};
use core_loop::{Cause, Core, ListLinks};
use core_machine::{Recorded, RecordedTurn};
use monitor_messages::{Message, encode};
use rx_queue::{Port, queue};
use std::alloc::Global;
use std::process::Abort;
use table_replica::Limits;
use test_words::job;

/// A core of this many cores that is to create an endpoint, over links of capacity 1.
fn creator(rt: &impl Abort, alloc: Global, cores: u16) -> (Recorded<ListLinks>, Port)
    requires { 1 ≤ cores × cores ≤ 8 }
{
    let (port, intake) = queue(alloc, 4).expect(rt, "there is memory");
    let links = ListLinks::new(alloc, 0, cores, 1).expect(rt, "there is memory");
    let requests = creation(rt, alloc);
    let core = Core::new(
        alloc,
        links,
        Limits::DEFAULT,
        100,
        0,
        cores,
        requests,
        intake,
    );
    let core = core.expect(rt, "there is memory");
    (Recorded::new(alloc, core), port)
}

/// A turn, which may receive a packet or not, with its answer; or a job with its number and its floor, which is put.
#[derive(Clone, Copy)]
enum Step {
    Turns(bool, RecordedTurn),
    Puts(u64, u64),
}

/// The steps, and then the version, the requests that are pending, whether the core is idle, and the events of its history.
fn runs(
    rt: &impl Abort,
    alloc: Global,
    core: &mut Recorded<ListLinks>,
    port: &mut Port,
    steps: &[Step],
    wanted: (u64, usize, bool, usize),
) {
    for step in steps {
        match step {
            Step::Turns(may, wanted) => equal(rt, core.turn(*may), *wanted),
            Step::Puts(number, floor) => {
                let job = job(alloc, *number, *floor).expect(rt, "there is memory");
                holds(rt, port.put(job).is_ok());
            }
        }
    }
    let events = core.events().len();
    let core = core.core();
    let found = (core.version(), core.pending(), core.idle(), events);
    equal_at(rt, found, wanted, &steps.len());
}

/// The request is committed, and then there is nothing to do; a job is received only in a turn that may, and one for a later version
/// waits.
static ALONE: [Step; 7] = [
    Step::Turns(true, RecordedTurn::Did),
    Step::Turns(true, RecordedTurn::Idle),
    Step::Puts(7, 1),
    Step::Turns(false, RecordedTurn::Idle),
    Step::Turns(true, RecordedTurn::Did),
    Step::Turns(true, RecordedTurn::Idle),
    Step::Puts(8, 2),
];

/// A request is sent to the other core, whose answer doesn't come.
static SENDS: [Step; 2] = [
    Step::Turns(true, RecordedTurn::Did),
    Step::Turns(true, RecordedTurn::Idle),
];

/// The one core of a machine commits, receives what it may, and then rests.
fn commits_and_receives(
    rt: &impl Abort,
    alloc: Global,
    core: &mut Recorded<ListLinks>,
    port: &mut Port,
) {
    runs(rt, alloc, core, port, &ALONE[..1], (1, 0, true, 1));
    runs(rt, alloc, core, port, &ALONE[1..], (1, 0, true, 2));
    runs(rt, alloc, core, port, &SENDS[1..], (1, 0, true, 2));
}

#[test]
fn a_core_commits_and_receives(rt: HostRuntime) {
    let alloc = rt.alloc();
    let (mut core, mut port) = creator(&rt, alloc, 1);
    commits_and_receives(&rt, alloc, &mut core, &mut port);
    drop((core, port));
}

#[test]
fn a_core_sends_one_request_and_waits(rt: HostRuntime) {
    let alloc = rt.alloc();
    let (mut core, mut port) = creator(&rt, alloc, 2);
    runs(&rt, alloc, &mut core, &mut port, &SENDS, (0, 0, false, 1));
    let (core, events) = core.into_parts();
    equal(&rt, (core.version(), events.len()), (0, 1));
    drop((core, events, port));
}

/// A core that is given this as core 0's stands still at it, whatever it is asked.
fn stops_at(rt: &impl Abort, core: &mut Recorded<ListLinks>, message: Vec<u8>, turn: RecordedTurn)
    requires length { (1 ≤ vec_len message) × (vec_len message ≤ 32832) }
{
    let _ = core.give(0, message);
    let turns = (core.turn(true), core.turn(true));
    equal(rt, turns, (turn, turn));
    equal(rt, (core.core().version(), core.events().len()), (0, 0));
}

/// So does core 1 of two.
fn stands_still(rt: &impl Abort, alloc: Global, message: Vec<u8>, turn: RecordedTurn)
    requires length { (1 ≤ vec_len message) × (vec_len message ≤ 32832) }
{
    let (mut core, port) = core_of(rt, alloc, 1, 2, 4);
    stops_at(rt, &mut core, message, turn);
    drop((core, port));
}

/// A message that is none, one that comes too early, and the last stamp.
#[test]
fn messages_that_stop_a_core(rt: HostRuntime) {
    let alloc = rt.alloc();
    let bad = Vec::from_slice(alloc, &[9]).expect(&rt, "there is memory");
    stands_still(&rt, alloc, bad, RecordedTurn::Stopped(Cause::BadMessage));
    let commit = encode(alloc, 1, &Message::Commit { txn: 1 }).expect(&rt, "there is memory");
    stands_still(&rt, alloc, commit, RecordedTurn::Stopped(Cause::Stranger));
    let op = create();
    let prepare = encode(alloc, u64::MAX, &Message::Prepare { txn: 1, op });
    stands_still(
        &rt,
        alloc,
        prepare.expect(&rt, "there is memory"),
        RecordedTurn::Spent,
    );
}

/// A turn; one that is refused memory changes nothing.
fn turn(rt: &impl Abort, core: &mut Recorded<ListLinks>) {
    let before = place(core);
    if !has_turned(core) {
        equal(rt, before, place(core));
    }
}

/// Turns that commit the request, or refuse it where it lacked memory.
fn settles(rt: &impl Abort, core: &mut Recorded<ListLinks>) {
    for _ in 0..4 {
        turn(rt, core);
    }
    holds(rt, core.core().idle() && core.core().pending() == 0);
    equal(rt, core.events().len(), 1);
}

#[test]
fn a_core_alone_with_a_refused_growth(rt: HostRuntime) {
    let (mut core, port) = creator(&rt, rt.alloc(), 1);
    settles(&rt, &mut core);
    drop((core, port));
}
