//! Domain 1 opens endpoint 7 for all packets, and one comes.

ghost use Rattle.std.specs.Prelude.{◌≡◌, ◌<◌, ℕ, All, length, IfOk, false};
ghost use Rattle.filter_table.specs.declared.operation.Op.{Op as GhostOp};
ghost use Rattle.filter_table.specs.Tables.{HasShortProgram};
ghost use Rattle.world_events.specs.declared.event.Event.TheVariants.{Submit};
ghost use Rattle.core_machine.specs.declared.step.Task.TheVariants.{Turn as GhostTurn, Ask};

use crate::facts::equal;
use filter_table::{Limits, Op};
use headline::{
    CoreStep, Event, Fault, Job, Outcome, Replicas, StepOutcome, Task, filter, one_by_one, serve,
    serve_steps, threads,
};
use pcap_reader::SharedPacket;
use seq::Shared;
use std::alloc::{AllocError, Global};
use std::process::Abort;
use test_words::{ALL, ARP, EventWords, REQUEST, program, tells};

/// A core halts after so many idle turns, which no test comes to.
pub(crate) const LIMIT: u64 = 50_000_000;

fn create() -> Op
    ensures { HasShortProgram result }
{
    Op::Create {
        domain: 1,
        endpoint: 7,
    }
}

pub(crate) fn install(rt: &impl Abort, alloc: Global) -> Op
    ensures { HasShortProgram result }
{
    Op::Install {
        domain: 1,
        cap: 1,
        program: program(alloc, ALL).expect(rt, "there is memory"),
    }
}

fn packet(alloc: Global) -> Result<SharedPacket, AllocError> {
    let bytes = Vec::from_slice(alloc, &REQUEST)?;
    Ok(SharedPacket::new(Shared::from_vec(alloc, bytes)?, 42))
}

fn job(alloc: Global) -> Result<Job, AllocError> {
    Ok(Job {
        number: 1,
        packet: packet(alloc)?,
        floor: 2,
    })
}

/// The version of the last core's replica.
fn last_version(replicas: &Replicas, last: u16) -> Option<u64> {
    Some(replicas.get(last)?.version())
}

/// The filter for ARP takes three instructions on a request.
#[test]
fn a_filter_ends(rt: HostRuntime) {
    let arp = program(rt.alloc(), ARP).expect(&rt, "there is memory");
    let ended = filter(rt.alloc(), arp.as_slice(), &REQUEST, 42).ok();
    let wanted = Outcome {
        verdict: u32::MAX,
        steps: 3,
    };
    equal(&rt, ended, Some(wanted));
    equal(&rt, filter(rt.alloc(), &[], &REQUEST, 42).is_err(), true);
}

fn events(rt: &impl Abort, alloc: Global) -> Vec<Event>
    ensures { All (λ event. (core : ℕ) (op : GhostOp) → event ≡ Submit core op → HasShortProgram op) result.items }
{
    let open = Event::Start { op: create() };
    let accept = Event::Start {
        op: install(rt, alloc),
    };
    let receipt = Event::Rx {
        core: 0,
        number: 1,
        packet: packet(alloc).expect(rt, "there is memory"),
        floor: 2,
    };
    vec![in alloc; open, accept, receipt].expect(rt, "there is memory")
}

/// A machine of one core decides at once, and delivers.
#[test]
fn a_machine_does_its_events(rt: HostRuntime) {
    let events = events(&rt, rt.alloc());
    let did = one_by_one(rt.alloc(), Limits::DEFAULT, &[100], events).expect(
        &rt,
        "each event can be done",
    );
    equal(&rt, last_version(&did.replicas, 0), Some(2));
    equal(
        &rt,
        did.events.last().map(|done| tells(&done.answer)),
        Some(EventWords::Delivered(2, 1, 7, 14)),
    );
    drop(did);
}

fn requests(rt: &impl Abort, alloc: Global) -> Vec<(u16, Op)>
    ensures inside { All (λ r. r.0 < 2) result.items }
    ensures short { All (λ r. 0 < r.0 → HasShortProgram r.1) result.items }
{
    vec![in alloc; (1, create()), (1, install(rt, alloc))].expect(rt, "there is memory")
}

fn jobs(rt: &impl Abort, alloc: Global) -> Vec<(u16, Job)>
    ensures { All (λ j. j.0 < 2) result.items }
{
    let job = job(alloc).expect(rt, "there is memory");
    vec![in alloc; (0, job)].expect(rt, "there is memory")
}

/// Core 1 asks, both cores come to version 2, and the job of core 0 is received.
#[test]
fn threads_end_at_one_version(rt: HostRuntime) {
    let requests = requests(&rt, rt.alloc());
    let jobs = jobs(&rt, rt.alloc());
    let ran = threads(
        &rt,
        rt.alloc(),
        Limits::DEFAULT,
        &[100, 100],
        requests,
        jobs,
        LIMIT,
    );
    let (did, left) = ran.expect(&rt, "no core halts");
    equal(&rt, last_version(&did.replicas, 0), Some(2));
    equal(&rt, last_version(&did.replicas, 1), Some(2));
    equal(&rt, left.len(), 0);
    drop((did, left));
}

/// Each core halts after one idle turn. What they had not decided is decided once they are joined.
#[test]
fn requests_are_decided_after_cores_halt(rt: HostRuntime) {
    let requests = requests(&rt, rt.alloc());
    let none = Vec::new(rt.alloc());
    let ran = threads(
        &rt,
        rt.alloc(),
        Limits::DEFAULT,
        &[100, 100],
        requests,
        none,
        1,
    );
    let (did, left) = ran.expect(&rt, "the cores are settled");
    equal(&rt, last_version(&did.replicas, 0), Some(2));
    equal(&rt, last_version(&did.replicas, 1), Some(2));
    equal(&rt, left.len(), 0);
    drop((did, left));
}

/// A step of core 0.
pub(crate) fn of_core_0(task: Task) -> CoreStep
    ensures core { result.core ≡ 0 }
    ensures task { result.task ≡ task }
{
    CoreStep { core: 0, task }
}

fn steps(rt: &impl Abort, alloc: Global) -> Vec<CoreStep>
    ensures inside { All (λ step. step.core < 1) result.items }
    ensures short { All (λ step. (op : GhostOp) → step.task ≡ Ask op → 0 < step.core → HasShortProgram op) result.items }
{
    let packet = packet(alloc).expect(rt, "there is memory");
    let open = of_core_0(Task::Ask { op: create() });
    let accept = of_core_0(Task::Ask {
        op: install(rt, alloc),
    });
    let first = of_core_0(Task::Turn { rx: false });
    let second = of_core_0(Task::Turn { rx: false });
    let receipt = of_core_0(Task::Receive { packet });
    vec![in alloc; open, accept, first, second, receipt].expect(rt, "there is memory")
}

/// What the last step came to: how many endpoints got the packet, and at which version.
fn received(outcomes: &[StepOutcome]) -> Option<(u64, usize)> {
    match outcomes.last()? {
        StepOutcome::Received { version, kept } => Some((*version, kept.len())),
        _ => None,
    }
}

/// A core that serves begins what it is asked, and receives.
#[test]
fn cores_serve(rt: HostRuntime) {
    let steps = steps(&rt, rt.alloc());
    let served = serve(rt.alloc(), Limits::DEFAULT, &[100], steps).expect(&rt, "there is memory");
    equal(&rt, received(&served.outcomes), Some((2, 1)));
    equal(&rt, last_version(&served.replicas, 0), Some(2));
    drop(served);
}

fn request_of_core_1(rt: &impl Abort, alloc: Global) -> Vec<CoreStep>
    ensures inside { All (λ step. step.core < 2) result.items }
    ensures short { All (λ step. (op : GhostOp) → step.task ≡ Ask op → 0 < step.core → HasShortProgram op) result.items }
{
    let ask = CoreStep {
        core: 1,
        task: Task::Ask { op: create() },
    };
    vec![in alloc; ask].expect(rt, "there is memory")
}

/// What a core was asked last is decided by the turns that are taken after the steps.
#[test]
fn cores_that_served_come_to_rest(rt: HostRuntime) {
    let steps = request_of_core_1(&rt, rt.alloc());
    let served = serve(rt.alloc(), Limits::DEFAULT, &[100, 100], steps).expect(
        &rt,
        "there is memory",
    );
    equal(&rt, served.halted, None);
    equal(&rt, last_version(&served.replicas, 0), Some(1));
    equal(&rt, last_version(&served.replicas, 1), Some(1));
    drop(served);
}

/// A turn of this core.
fn turn(core: u16) -> CoreStep
    ensures core { result.core ≡ core }
    ensures task { result.task ≡ GhostTurn false }
{
    CoreStep {
        core,
        task: Task::Turn { rx: false },
    }
}

/// Core 1 asks, and both cores take turns until core 0 has the vote of core 1 and commits.
fn half_of_a_change(rt: &impl Abort, alloc: Global) -> Vec<CoreStep>
    ensures inside { All (λ step. step.core < 2) result.items }
    ensures short { All (λ step. (op : GhostOp) → step.task ≡ Ask op → 0 < step.core → HasShortProgram op) result.items }
{
    let ask = CoreStep {
        core: 1,
        task: Task::Ask { op: create() },
    };
    vec![in alloc;
        ask,
        turn(1),
        turn(0),
        turn(1),
        turn(0),
        turn(1),
        turn(0),
        turn(1),
        turn(0),
        turn(1),
        turn(0),
        turn(1),
        turn(0),
    ]
    .expect(rt, "there is memory")
}

/// After the steps alone core 0 has committed, and core 1 has not.
#[test]
fn cores_are_seen_in_the_middle_of_a_change(rt: HostRuntime) {
    let steps = half_of_a_change(&rt, rt.alloc());
    let stepped = serve_steps(rt.alloc(), Limits::DEFAULT, &[100, 100], steps).expect(
        &rt,
        "there is memory",
    );
    equal(&rt, stepped.outcomes.len(), 13);
    equal(&rt, last_version(&stepped.replicas, 0), Some(1));
    equal(&rt, last_version(&stepped.replicas, 1), Some(0));
    drop(stepped);
}

/// A machine has a core.
#[test]
fn no_machine_without_a_core(rt: HostRuntime) {
    let none = Vec::new(rt.alloc());
    equal(
        &rt,
        one_by_one(rt.alloc(), Limits::DEFAULT, &[], none).err(),
        Some(Fault::CoreCount),
    );
}
