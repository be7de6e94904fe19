//! What a call keeps to: the limits that it is given, and 64 cores.

ghost use Rattle.std.specs.Prelude.{◌≡◌, ◌<◌, ℕ, All};
ghost use Rattle.filter_table.specs.declared.operation.Op.{Op as GhostOp};
ghost use Rattle.filter_table.specs.Tables.{HasShortProgram};
ghost use Rattle.world_events.specs.declared.event.Event.TheVariants.{Submit};
ghost use Rattle.core_machine.specs.declared.step.Task.TheVariants.{Ask};

use crate::calls::{LIMIT, install, of_core_0};
use crate::facts::equal;
use core_loop::Turn;
use endpoint_caps::CapLimits;
use filter_table::{Decision, Limits, Op, OpFault, Veto};
use headline::{
    Answer, CoreStep, Done, Event, Fault, StepOutcome, Task, one_by_one, serve, threads,
};
use std::alloc::Global;
use std::process::Abort;
use std::sync::Wait;
use std::thread::Threads;
use std::time::Clock;

/// One capability and one filter.
fn one_of_each(rt: &impl Abort) -> Limits {
    let caps = CapLimits::new(1, 1).expect(rt, "they are limits");
    Limits::new(caps, 1, 1, u32::MAX).expect(rt, "they are limits")
}

fn create(endpoint: u16) -> Op
    ensures { HasShortProgram result }
{
    Op::Create {
        domain: 1,
        endpoint,
    }
}

/// Two capabilities are asked for, and then two filters.
fn events(rt: &impl Abort, alloc: Global) -> Vec<Event>
    ensures { All (λ event. (core : ℕ) (op : GhostOp) → event ≡ Submit core op → HasShortProgram op) result.items }
{
    let first = Event::Start { op: create(7) };
    let second = Event::Start { op: create(8) };
    let third = Event::Start {
        op: install(rt, alloc),
    };
    let fourth = Event::Start {
        op: install(rt, alloc),
    };
    vec![in alloc; first, second, third, fourth].expect(rt, "there is memory")
}

/// The same as requests of core 0.
fn requests(rt: &impl Abort, alloc: Global) -> Vec<(u16, Op)>
    ensures inside { All (λ r. r.0 < 1) result.items }
    ensures short { All (λ r. 0 < r.0 → HasShortProgram r.1) result.items }
{
    let third = install(rt, alloc);
    let fourth = install(rt, alloc);
    vec![in alloc; (0, create(7)), (0, create(8)), (0, third), (0, fourth)].expect(
        rt,
        "there is memory",
    )
}

/// The same as steps of core 0.
fn steps(rt: &impl Abort, alloc: Global) -> Vec<CoreStep>
    ensures inside { All (λ step. step.core < 1) result.items }
    ensures short { All (λ step. (op : GhostOp) → step.task ≡ Ask op → 0 < step.core → HasShortProgram op) result.items }
{
    let first = of_core_0(Task::Ask { op: create(7) });
    let second = of_core_0(Task::Ask { op: create(8) });
    let third = of_core_0(Task::Ask {
        op: install(rt, alloc),
    });
    let fourth = of_core_0(Task::Ask {
        op: install(rt, alloc),
    });
    vec![in alloc; first, second, third, fourth].expect(rt, "there is memory")
}

/// The rule that refused a request, if one did.
fn rule_of(decision: &Decision) -> Option<OpFault> {
    match decision {
        Decision::Refused {
            core: _,
            why: Veto::Rule(rule),
        } => Some(*rule),
        _ => None,
    }
}

/// The rule that refused the request that this event decided.
fn rule_told(events: &[Done], place: usize) -> Option<OpFault> {
    match &events.get(place)?.answer {
        Answer::Decided(decision) => rule_of(decision),
        _ => None,
    }
}

/// The rule that refused the request that this turn decided.
fn rule_answered(outcomes: &[StepOutcome], place: usize) -> Option<OpFault> {
    match outcomes.get(place)? {
        StepOutcome::Turned(
            Turn::Did {
                event: _,
                decision: Some(decision),
            },
        ) => rule_of(decision),
        _ => None,
    }
}

/// What a machine whose events are done one by one refused the second and the fourth request for.
fn refused_one_by_one(
    rt: &impl Abort,
    alloc: Global,
    limits: Limits,
) -> (Option<OpFault>, Option<OpFault>) {
    let events = events(rt, alloc);
    let did = one_by_one(alloc, limits, &[100], events).expect(rt, "each event can be done");
    (rule_told(&did.events, 1), rule_told(&did.events, 3))
}

/// What a machine whose core is a thread refused the second and the fourth request for.
fn refused_by_threads<R: Abort + Threads + Wait + Clock + Sync>(
    rt: &R,
    alloc: Global,
    limits: Limits,
) -> (Option<OpFault>, Option<OpFault>) {
    let requests = requests(rt, alloc);
    let none = Vec::new(alloc);
    let ran = threads(rt, alloc, limits, &[100], requests, none, LIMIT);
    let (did, _) = ran.expect(rt, "no core halts");
    (rule_told(&did.events, 1), rule_told(&did.events, 3))
}

/// What a core that served refused the second and the fourth request for. The turns follow the four steps.
fn refused_by_steps(
    rt: &impl Abort,
    alloc: Global,
    limits: Limits,
) -> (Option<OpFault>, Option<OpFault>) {
    let steps = steps(rt, alloc);
    let served = serve(alloc, limits, &[100], steps).expect(rt, "there is memory");
    (
        rule_answered(&served.outcomes, 5),
        rule_answered(&served.outcomes, 7),
    )
}

/// The second capability is one too many, and so is the second filter.
#[test]
fn a_machine_keeps_to_its_limits(rt: HostRuntime) {
    let limits = one_of_each(&rt);
    let full = (Some(OpFault::CapsFull), Some(OpFault::TableFull));
    equal(&rt, refused_one_by_one(&rt, rt.alloc(), limits), full);
    equal(&rt, refused_by_threads(&rt, rt.alloc(), limits), full);
    equal(&rt, refused_by_steps(&rt, rt.alloc(), limits), full);
}

/// What is wrong with a machine of so many cores that does nothing, by each call.
fn faults<R: Threads + Wait + Clock + Sync>(
    rt: &R,
    alloc: Global,
    budgets: &[u32],
) -> [Option<Fault>; 3] {
    let limits = Limits::DEFAULT;
    let none = Vec::new(alloc);
    let did = one_by_one(alloc, limits, budgets, none).err();
    let ran = threads(
        rt,
        alloc,
        limits,
        budgets,
        Vec::new(alloc),
        Vec::new(alloc),
        LIMIT,
    )
    .err();
    let served = serve(alloc, limits, budgets, Vec::new(alloc)).err();
    [did, ran, served]
}

/// A machine has at most 64 cores, and more than 8 are no fault.
#[test]
fn no_machine_of_65_cores(rt: HostRuntime) {
    let count = Some(Fault::CoreCount);
    equal(&rt, faults(&rt, rt.alloc(), &[100; 65]), [count; 3]);
    equal(&rt, faults(&rt, rt.alloc(), &[100; 9]), [None; 3]);
}
