//! What comes of each step, by the rules of two-phase commit, on machines of one, two and three cores.

ghost use Rattle.std.specs.Prelude.{◌<◌, ◌≤◌, All, IfSome, IsTrue, length};
ghost use Rattle.core_machine.specs.Driving.{IsStep};

use crate::facts::{equal, equal_at};
use crate::words::{create, install, is_step};
use core_loop::{NotReceived, Turn};
use core_machine::{CoreStep, StepOutcome, Task, boot_cores, drive};
use filter_table::Decision;
use std::alloc::{AllocError, Global};
use std::process::Abort;
use test_words::{BYTES, CAP, FILTER, packet};

/// What is asked of a core.
#[derive(Clone, Copy, PartialEq, Eq, Debug)]
enum Say {
    Turn,
    Create,
    Install,
    Packet,
}

/// What comes of it.
#[derive(Clone, Copy, PartialEq, Eq, Debug)]
enum Came {
    Asked,
    /// An event, with the decision on the oldest request of the core's own that has none, if it is that.
    Did(Option<Decision>),
    Idle,
    Halted,
    /// The version, how many endpoints get the packet, and the first, with its bytes, or zeros.
    Received(u64, usize, u16, u32),
    NotReceived(NotReceived),
    NoMemory,
}

type Line = (u16, Say, Came);

/// An event, which tells no request of the core's own.
const DID: Came = Came::Did(None);

/// A core alone decides a request where it begins it.
static ONE: [Line; 8] = [
    (0, Say::Packet, Came::Received(0, 0, 0, 0)),
    (0, Say::Create, Came::Asked),
    (0, Say::Install, Came::Asked),
    (0, Say::Turn, Came::Did(Some(CAP))),
    (0, Say::Packet, Came::Received(1, 0, 0, 0)),
    (0, Say::Turn, Came::Did(Some(FILTER))),
    (0, Say::Turn, Came::Idle),
    (0, Say::Packet, Came::Received(2, 1, 7, 5)),
];

/// Core 1 asks. Core 0 starts its request, has its vote, decides, has its acknowledgement and replies. Then core 0 asks, and each core receives by
/// its own version. A message goes out with the next turn of its sender.
static TWO: [Line; 33] = [
    (1, Say::Create, Came::Asked),
    (0, Say::Turn, Came::Idle),
    (1, Say::Turn, DID),
    (1, Say::Turn, Came::Idle),
    (0, Say::Turn, DID),
    (0, Say::Turn, DID),
    (0, Say::Turn, Came::Idle),
    (1, Say::Turn, DID),
    (1, Say::Turn, Came::Idle),
    (0, Say::Turn, DID),
    (0, Say::Turn, Came::Idle),
    (1, Say::Turn, DID),
    (1, Say::Turn, Came::Idle),
    (0, Say::Turn, DID),
    (0, Say::Turn, Came::Idle),
    (1, Say::Turn, Came::Did(Some(CAP))),
    (0, Say::Install, Came::Asked),
    (0, Say::Turn, DID),
    (0, Say::Turn, Came::Idle),
    (1, Say::Turn, DID),
    (1, Say::Packet, Came::Received(1, 0, 0, 0)),
    (1, Say::Turn, Came::Idle),
    (0, Say::Turn, Came::Did(Some(FILTER))),
    (0, Say::Packet, Came::Received(2, 1, 7, 5)),
    (1, Say::Packet, Came::Received(1, 0, 0, 0)),
    (1, Say::Turn, Came::Idle),
    (0, Say::Turn, Came::Idle),
    (1, Say::Turn, DID),
    (1, Say::Packet, Came::Received(2, 1, 7, 5)),
    (1, Say::Turn, Came::Idle),
    (0, Say::Turn, DID),
    (0, Say::Turn, Came::Idle),
    (1, Say::Turn, Came::Idle),
];

/// Core 2 asks. Core 0 decides at the second vote, and replies at the second acknowledgement.
static THREE: [Line; 25] = [
    (2, Say::Create, Came::Asked),
    (2, Say::Turn, DID),
    (2, Say::Turn, Came::Idle),
    (0, Say::Turn, DID),
    (0, Say::Turn, DID),
    (0, Say::Turn, Came::Idle),
    (1, Say::Turn, DID),
    (1, Say::Turn, Came::Idle),
    (0, Say::Turn, DID),
    (2, Say::Turn, DID),
    (2, Say::Turn, Came::Idle),
    (0, Say::Turn, DID),
    (2, Say::Turn, Came::Idle),
    (0, Say::Turn, Came::Idle),
    (2, Say::Turn, DID),
    (2, Say::Turn, Came::Idle),
    (1, Say::Turn, DID),
    (1, Say::Turn, Came::Idle),
    (0, Say::Turn, DID),
    (2, Say::Turn, Came::Idle),
    (0, Say::Turn, DID),
    (0, Say::Turn, Came::Idle),
    (2, Say::Turn, Came::Did(Some(CAP))),
    (1, Say::Turn, Came::Idle),
    (2, Say::Turn, Came::Idle),
];

fn task(alloc: Global, say: Say) -> Result<Task, AllocError> {
    match say {
        Say::Turn => Ok(Task::Turn { rx: false }),
        Say::Create => Ok(Task::Ask { op: create() }),
        Say::Install => Ok(Task::Ask {
            op: install(alloc)?,
        }),
        Say::Packet => Ok(Task::Receive {
            packet: packet(alloc, &BYTES)?,
        }),
    }
}

fn steps(alloc: Global, lines: &[Line]) -> Result<Vec<CoreStep>, AllocError> {
    let mut steps = Vec::new(alloc);
    for (core, say, _) in lines {
        let task = task(alloc, *say)?;
        steps.push(CoreStep { core: *core, task })?;
    }
    Ok(steps)
}

fn are_steps(steps: &[CoreStep], cores: usize) -> bool
    ensures { IsTrue result → All (IsStep cores) steps.now }
{
    steps.iter().all(|step| is_step(step, cores))
}

/// Does the steps on a machine with these budgets.
fn drive_machine(alloc: Global, budgets: &[u32], steps: Vec<CoreStep>) -> Option<Vec<StepOutcome>> {
    let Ok(mut cores) = boot_cores(alloc, budgets) else {
        return None;
    };
    if !are_steps(&steps, cores.len()) {
        return None;
    }
    drive(alloc, &mut cores, steps).ok()
}

fn outcome_of(outcome: &StepOutcome) -> Came {
    match outcome {
        StepOutcome::Asked => Came::Asked,
        StepOutcome::Turned(Turn::Did { event: _, decision }) => Came::Did(*decision),
        StepOutcome::Turned(Turn::Idle) => Came::Idle,
        StepOutcome::Turned(_) => Came::Halted,
        StepOutcome::Received { version, kept } => match kept.first() {
            Some(first) => Came::Received(*version, kept.len(), first.endpoint, first.kept),
            None => Came::Received(*version, 0, 0, 0),
        },
        StepOutcome::NotReceived(why) => Came::NotReceived(*why),
        StepOutcome::NoMemory => Came::NoMemory,
    }
}

/// The steps come to what the lines say.
fn comes_so(rt: &impl Abort, alloc: Global, budgets: &[u32], lines: &[Line]) {
    let steps = steps(alloc, lines).expect(rt, "there is memory");
    let outcomes = drive_machine(alloc, budgets, steps).expect(rt, "there is a machine");
    equal(rt, outcomes.len(), lines.len());
    for (place, (outcome, line)) in outcomes.iter().zip(lines).enumerate() {
        equal_at(rt, outcome_of(outcome), line.2, &place);
    }
}

#[test]
fn a_core_alone_serves(rt: HostRuntime) {
    comes_so(&rt, rt.alloc(), &[100], &ONE);
}

#[test]
fn two_cores_serve(rt: HostRuntime) {
    comes_so(&rt, rt.alloc(), &[100, 100], &TWO);
}

#[test]
fn three_cores_serve(rt: HostRuntime) {
    comes_so(&rt, rt.alloc(), &[100, 100, 100], &THREE);
}
