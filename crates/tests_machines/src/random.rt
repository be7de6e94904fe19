//! Random requests, turns and packets at the cores of machines, done again as one list of events.

ghost use Rattle.std.specs.Prelude.{◌<◌, ◌≤◌, All, IsTrue, length};
ghost use Rattle.core_machine.specs.Driving.{IsStep};

use crate::again::is_done_again;
use crate::facts::{equal_at, holds};
use crate::words::is_step;
use bpf_insn::Insn;
use core_loop::Turn;
use core_machine::{CoreStep, StepOutcome, Task, boot_cores, drive};
use endpoint_caps::Rights;
use filter_table::{Op, Program};
use pcap_reader::SharedPacket;
use seq::Seq;
use std::alloc::{AllocError, Global};
use std::process::Abort;
use test_words::packet;
use world_events::{Answer, Done, Event};

/// Random numbers (Knuth's linear congruential generator for 64 bits).
#[derive(Clone, Copy)]
struct Draw {
    state: u64,
}

impl Draw {
    fn new(run: u64) -> Draw {
        let mut draw = Draw { state: run };
        let _ = draw.below(2);
        let _ = draw.below(2);
        draw
    }

    fn below(&mut self, limit: u32) -> u32
        requires { 0 < limit }
        ensures { result < limit }
    {
        self.state = self
            .state
            .wrapping_mul(6364136223846793005)
            .wrapping_add(1442695040888963407);
        ((self.state >> 33) % u64::from(limit)) as u32
    }
}

fn instruction(code: u16, jt: u8, jf: u8, k: u32) -> Insn {
    Insn { code, jt, jf, k }
}

/// A program that looks at the packet's first byte; one in eight ends without a return, which the verifier refuses.
fn program(alloc: Global, draw: &mut Draw) -> Result<Program, AllocError> {
    let mut list = Vec::new(alloc);
    list.push(instruction(48, 0, 0, 0))?;
    list.push(instruction(21, 0, 1, draw.below(4)))?;
    list.push(instruction(6, 0, 0, draw.below(40)))?;
    if draw.below(8) != 0 {
        list.push(instruction(6, 0, 0, 0))?;
    }
    Program::from_vec(alloc, list)
}

/// A request that some machine or other fulfils: of domain 1 mostly, for its first capabilities and filters.
fn operation(alloc: Global, draw: &mut Draw) -> Result<Op, AllocError> {
    let domain = if draw.below(4) == 0 { 2 } else { 1 };
    match draw.below(8) {
        0 => Ok(Op::Revoke {
            domain,
            cap: draw.below(3) + 1,
        }),
        1 => Ok(Op::Remove {
            domain,
            filter: draw.below(4) + 1,
        }),
        2 => Ok(Op::Mint {
            domain,
            cap: draw.below(3) + 1,
            to: 2,
            rights: Rights::Rm,
        }),
        3 | 4 => Ok(Op::Create {
            domain,
            endpoint: draw.below(4) as u16,
        }),
        _ => Ok(Op::Install {
            domain,
            cap: draw.below(3) + 1,
            program: program(alloc, draw)?,
        }),
    }
}

/// A task, mostly a turn.
fn task(alloc: Global, draw: &mut Draw) -> Result<Task, AllocError> {
    match draw.below(12) {
        0 => Ok(Task::Ask {
            op: operation(alloc, draw)?,
        }),
        1 => Ok(Task::Receive {
            packet: packet(alloc, &[draw.below(5) as u8; 5])?,
        }),
        _ => Ok(Task::Turn { rx: false }),
    }
}

/// So many steps, each at one of so many cores.
fn steps(
    alloc: Global,
    draw: &mut Draw,
    cores: u32,
    count: usize,
) -> Result<Vec<CoreStep>, AllocError>
    requires { (0 < cores) × (cores ≤ 8) }
{
    let mut steps = Vec::new(alloc);
    for _ in 0..count {
        let core = draw.below(cores) as u16;
        let task = task(alloc, draw)?;
        steps.push(CoreStep { core, task })?;
    }
    Ok(steps)
}

fn are_steps(steps: &[CoreStep], cores: usize) -> bool
    ensures { IsTrue result → All (IsStep cores) steps.now }
{
    steps.iter().all(|step| is_step(step, cores))
}

/// Does the steps on a machine with these budgets.
fn drive_machine(alloc: Global, budgets: &[u32], steps: Vec<CoreStep>) -> Option<Vec<StepOutcome>> {
    let Ok(mut cores) = boot_cores(alloc, budgets) else {
        return None;
    };
    if !are_steps(&steps, cores.len()) {
        return None;
    }
    drive(alloc, &mut cores, steps).ok()
}

/// The core of a step, and its packet, if it has one.
fn place_of(step: &CoreStep) -> Result<(u16, Option<SharedPacket>), AllocError> {
    match &step.task {
        Task::Receive { packet } => Ok((step.core, Some(packet.clone()?))),
        _ => Ok((step.core, None)),
    }
}

fn places_of(
    alloc: Global,
    steps: &[CoreStep],
) -> Result<Vec<(u16, Option<SharedPacket>)>, AllocError> {
    let mut places = Vec::new(alloc);
    for step in steps {
        places.push(place_of(step)?)?;
    }
    Ok(places)
}

/// The event of a step, if it did one.
fn done_of(core: u16, packet: Option<SharedPacket>, outcome: StepOutcome) -> Option<Done> {
    match outcome {
        StepOutcome::Turned(Turn::Did { event, decision: _ }) => Some(event.done),
        StepOutcome::Received { version, kept } => Some(Done {
            event: Event::Rx {
                core,
                number: 0,
                packet: packet?,
                floor: 0,
            },
            answer: Answer::Delivered {
                version,
                kept: Seq::from_vec(kept),
            },
        }),
        _ => None,
    }
}

/// The events of all steps, in order.
fn events(
    alloc: Global,
    places: Vec<(u16, Option<SharedPacket>)>,
    outcomes: Vec<StepOutcome>,
) -> Result<Vec<Done>, AllocError> {
    let mut list = Vec::new(alloc);
    for ((core, packet), outcome) in places.into_iter().zip(outcomes) {
        if let Some(done) = done_of(core, packet, outcome) {
            list.push(done)?;
        }
    }
    Ok(list)
}

/// What a machine with these budgets did in so many random steps.
fn random_run(alloc: Global, draw: &mut Draw, budgets: &[u32]) -> Option<Vec<Done>> {
    let count = budgets.len();
    if count == 0 || count > 8 {
        return None;
    }
    let steps = steps(alloc, draw, count as u32, 300).ok()?;
    let places = places_of(alloc, &steps).ok()?;
    let outcomes = drive_machine(alloc, budgets, steps)?;
    events(alloc, places, outcomes).ok()
}

/// Ten runs of a machine with these budgets: each does something, and is done again with the same answers.
fn runs_again(rt: &impl Abort, alloc: Global, budgets: &[u32]) {
    for run in 0..10 {
        let list = random_run(alloc, &mut Draw::new(run), budgets).expect(rt, "there is a machine");
        holds(rt, list.len() > 20);
        equal_at(rt, is_done_again(alloc, budgets, &list), true, &run);
    }
}

#[test]
fn a_core_alone_is_done_again(rt: HostRuntime) {
    runs_again(&rt, rt.alloc(), &[30]);
}

#[test]
fn two_cores_are_done_again(rt: HostRuntime) {
    runs_again(&rt, rt.alloc(), &[100, 30]);
}

#[test]
fn three_cores_are_done_again(rt: HostRuntime) {
    runs_again(&rt, rt.alloc(), &[100, 30, 20]);
}
