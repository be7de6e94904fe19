//! A machine whose cores serve in one thread, and then come to rest.

ghost use Rattle.std.specs.Prelude.{◌≡◌, ◌≢◌, ◌↔◌, ◌⊎◌, ◌<◌, ◌≤◌, ◌++◌, ◌∷◌, [], ℕ, List, All, Err, None, Some, true, false, IfOk, IfSome, IfNone, IsOkUnless, IsTrue, IsFalse, OnOk, Option, length, if◌then◌else◌};
ghost use Rattle.filter_table.specs.Limits.{TableLimits};
ghost use Rattle.std.specs.List.{AllZip};
ghost use mathlib.Core.List.{IsPrefix};
ghost use Rattle.filter_table.specs.declared.operation.Op.{Op as GhostOp};
ghost use Rattle.filter_table.specs.Tables.{HasShortProgram};
ghost use Rattle.world_model.specs.Decisions.{Delivers};
ghost use Rattle.world_histories.specs.Merging.{core_of};
ghost use Rattle.filter_table.specs.declared.decision.Decision.{Decision as GhostDecision};
ghost use Rattle.world_histories.specs.declared.history.Stamped.{Stamped as GhostStamped};
ghost use Rattle.core_loop.specs.declared.cause.Turn.TheVariants.{Did};
ghost use Rattle.core_machine.specs.Machines.{RingCore, IsMachine, AreSameCores};
ghost use Rattle.core_machine.specs.Booted.{HasDoneNothing};
ghost use Rattle.core_machine.specs.Rounds.{AreAtRest, HasAllDecided, halt_of};
ghost use Rattle.core_machine.specs.Naming.{NamedTurn, NoneAwake, names};
ghost use Rattle.core_machine.specs.declared.step.CoreStep.{CoreStep as GhostStep};
ghost use Rattle.core_machine.specs.declared.step.Task.TheVariants.{Turn as GhostTurn, Ask};
ghost use Rattle.core_machine.specs.declared.step.StepOutcome.TheVariants.{Turned};
ghost use Rattle.core_machine.specs.Steps.{IsOf, did, asked_op, of_core};
ghost use Rattle.core_machine.specs.Conclusions.{Conclude};
ghost use Rattle.core_machine.specs.Driving.{IsStep, IsRunning, AreDriven};
ghost use Rattle.headline.specs.declared.fault.Fault.TheVariants.{CoreCount, NoMemory};
ghost use Rattle.headline.specs.Decided.{decided_in};
ghost use Rattle.headline.specs.Headline.{ShowTables, AreEqualByVersion, begun_in};
ghost use Rattle.headline.specs.Judged.{AreRightful, AreAllowed, AreJudged, AreCommittedOnce, AreAllNamed};
ghost use Rattle.world_model.specs.Committed.{log_of};
ghost use Rattle.headline.specs.Served.{EndsHalted, events_of};
ghost use Rattle.headline.specs.Waking.{AreDone, Halts, IsTurnOf, awake_of, turn_of_core};

use crate::fault::Fault;
use crate::replicas::{Holder, Replicas};
use core_loop::{Core, RingLinks, Turn};
use core_machine::{
    BootFault, CoreStep, StepOutcome, Task, agree_all, at_rest, boot_machine, drive,
};
use filter_table::Limits;
use std::alloc::{AllocError, Global};

/// What came of steps, and what the cores have in the end.
#[derive(Drop)]
pub struct Served {
    /// What came of each step, in order, and then of each of the turns.
    pub outcomes: Vec<StepOutcome>,
    /// The turns that were taken after the steps, in order, until nothing was left to do.
    pub turns: Vec<CoreStep>,
    /// The core that has no memory or no number for what it would do next, if there is one. Else nothing is left to do.
    pub halted: Option<u16>,
    /// Each core's replica of the table in the end.
    pub replicas: Replicas,
}

/// Boots a machine with these limits and a core for each budget, 1 to 64 of them, and does these steps on its cores, one after
/// another, in any order: a core takes a turn, is asked one request more, or receives a packet. A request of a core other than 0
/// has a program of at most 4,096 instructions. Then the cores take turns until nothing is left to do, or one has no memory or no
/// number for what it would do next. The outcomes of the steps and of these turns tell the events that the cores did.
pub fn serve(
    alloc: Global,
    limits: Limits,
    budgets: &[u32],
    steps: Vec<CoreStep>,
) -> Result<Served, Fault>
    requires steps { All (λ step. step.core < length budgets.now) steps.items }
    requires short { All (λ step. (op : GhostOp) → step.task ≡ Ask op → 0 < step.core → HasShortProgram op) steps.items }
    ensures count { result ≡ Err CoreCount ↔ ((length budgets.now ≡ 0) ⊎ (64 < length budgets.now)) }
    ensures memory { 0 < length budgets.now → length budgets.now ≤ 64 → IsOkUnless result NoMemory }
    ensures cores { IfOk result (λ served. length served.replicas ≡ length budgets.now) }
    ensures tables { IfOk result (λ served. ShowTables limits (events_of (steps.items ++ served.turns.items) served.outcomes.items) served.replicas) }
    ensures equal { IfOk result (λ served. AreEqualByVersion served.replicas) }
    ensures delivers { IfOk result (λ served. let events = events_of (steps.items ++ served.turns.items) served.outcomes.items in Delivers limits (log_of events) events) }

    // What is in the log was allowed there, and each filter that a table lists is its owner's by right.
    ensures rightful { IfOk result (λ served. AreRightful limits (log_of (events_of (steps.items ++ served.turns.items) served.outcomes.items))) }
    ensures allowed { IfOk result (λ served. AreAllowed limits budgets.now (log_of (events_of (steps.items ++ served.turns.items) served.outcomes.items))) }

    // Each outcome is one of its step, and tells events of the step's core alone. The turns receive no packet.
    ensures answered { IfOk result (λ served. AllZip (λ step outcome. IsOf step.task outcome) (steps.items ++ served.turns.items) served.outcomes.items) }
    ensures own { IfOk result (λ served. AllZip (λ step outcome. All (λ done. core_of done.event ≡ step.core) (did step.core step.task outcome)) (steps.items ++ served.turns.items) served.outcomes.items) }
    ensures turns { IfOk result (λ served. All (λ step. step.task ≡ GhostTurn false) served.turns.items) }

    // No core stops.
    ensures running { IfOk result (λ served. All IsRunning served.outcomes.items) }

    // What a core begins are the requests that it was asked, in the order of the steps.
    ensures begun { IfOk result (λ served. (core : ℕ) → IsPrefix (begun_in core (events_of (steps.items ++ served.turns.items) served.outcomes.items)) (of_core asked_op core (steps.items ++ served.turns.items) served.outcomes.items)) }

    // The n-th decision of a core is on its n-th request, and no request is committed twice.
    ensures judged { IfOk result (λ served. AreJudged limits budgets.now (events_of (steps.items ++ served.turns.items) served.outcomes.items)) }
    ensures once { IfOk result (λ served. AreCommittedOnce (events_of (steps.items ++ served.turns.items) served.outcomes.items)) }

    // Unless a core halted each request is decided, nothing else is committed, and all replicas show the whole log.
    ensures decided { IfOk result (λ served. served.halted ≡ None → (core : ℕ) → length (decided_in core (events_of (steps.items ++ served.turns.items) served.outcomes.items)) ≡ length (of_core asked_op core (steps.items ++ served.turns.items) served.outcomes.items)) }
    ensures named { IfOk result (λ served. served.halted ≡ None → AreAllNamed (events_of (steps.items ++ served.turns.items) served.outcomes.items)) }
    ensures newest { IfOk result (λ served. served.halted ≡ None → All (λ replica. replica.shown.version ≡ length (log_of (events_of (steps.items ++ served.turns.items) served.outcomes.items))) served.replicas) }
    ensures halted { IfOk result (λ served. IfSome served.halted (λ core. core < length budgets.now)) }
    ensures halts { IfOk result (λ served. IfSome served.halted (EndsHalted served.turns.items served.outcomes.items)) }
{
    let mut cores = match boot_machine(alloc, limits, budgets) {
        Ok(cores) => cores,
        Err(fault) => return Err(fault_of(fault)),
    };
    match serve_all(alloc, cores.as_mut_slice(), steps) {
        Ok(work) => Ok(Served {
            outcomes: work.outcomes,
            turns: work.turns,
            halted: work.halted,
            replicas: Replicas {
                holder: Holder::Cores(cores),
            },
        }),
        Err(AllocError) => {
            drop(cores);
            Err(Fault::NoMemory)
        }
    }
}

/// What came of steps, and what the cores have after them, at rest or in the middle of a change.
#[derive(Drop)]
pub struct Stepped {
    /// What came of each step, in order.
    pub outcomes: Vec<StepOutcome>,
    /// Each core's replica of the table after the steps.
    pub replicas: Replicas,
}

/// Boots a machine with these limits and a core for each budget, 1 to 64 of them, and does these steps on its cores, as `serve`
/// does before its turns. So what is said of the replicas holds at any moment, whatever is under way.
pub fn serve_steps(
    alloc: Global,
    limits: Limits,
    budgets: &[u32],
    steps: Vec<CoreStep>,
) -> Result<Stepped, Fault>
    requires steps { All (λ step. step.core < length budgets.now) steps.items }
    requires short { All (λ step. (op : GhostOp) → step.task ≡ Ask op → 0 < step.core → HasShortProgram op) steps.items }
    ensures count { result ≡ Err CoreCount ↔ ((length budgets.now ≡ 0) ⊎ (64 < length budgets.now)) }
    ensures memory { 0 < length budgets.now → length budgets.now ≤ 64 → IsOkUnless result NoMemory }
    ensures cores { IfOk result (λ stepped. length stepped.replicas ≡ length budgets.now) }
    ensures tables { IfOk result (λ stepped. ShowTables limits (events_of steps.items stepped.outcomes.items) stepped.replicas) }
    ensures equal { IfOk result (λ stepped. AreEqualByVersion stepped.replicas) }
    ensures delivers { IfOk result (λ stepped. let events = events_of steps.items stepped.outcomes.items in Delivers limits (log_of events) events) }

    // What is in the log was allowed there, and each filter that a table lists is its owner's by right.
    ensures rightful { IfOk result (λ stepped. AreRightful limits (log_of (events_of steps.items stepped.outcomes.items))) }
    ensures allowed { IfOk result (λ stepped. AreAllowed limits budgets.now (log_of (events_of steps.items stepped.outcomes.items))) }

    // Each outcome is one of its step, and tells events of the step's core alone.
    ensures answered { IfOk result (λ stepped. AllZip (λ step outcome. IsOf step.task outcome) steps.items stepped.outcomes.items) }
    ensures own { IfOk result (λ stepped. AllZip (λ step outcome. All (λ done. core_of done.event ≡ step.core) (did step.core step.task outcome)) steps.items stepped.outcomes.items) }

    // No core stops.
    ensures running { IfOk result (λ stepped. All IsRunning stepped.outcomes.items) }

    // What a core begins are the requests that it was asked, in the order of the steps.
    ensures begun { IfOk result (λ stepped. (core : ℕ) → IsPrefix (begun_in core (events_of steps.items stepped.outcomes.items)) (of_core asked_op core steps.items stepped.outcomes.items)) }

    // The n-th decision of a core is on its n-th request, and no request is committed twice.
    ensures judged { IfOk result (λ stepped. AreJudged limits budgets.now (events_of steps.items stepped.outcomes.items)) }
    ensures once { IfOk result (λ stepped. AreCommittedOnce (events_of steps.items stepped.outcomes.items)) }
{
    let mut cores = match boot_machine(alloc, limits, budgets) {
        Ok(cores) => cores,
        Err(fault) => return Err(fault_of(fault)),
    };
    match drive_each(alloc, cores.as_mut_slice(), steps) {
        Ok(outcomes) => Ok(Stepped {
            outcomes,
            replicas: Replicas {
                holder: Holder::Cores(cores),
            },
        }),
        Err(AllocError) => {
            drop(cores);
            Err(Fault::NoMemory)
        }
    }
}

/// Why there is no machine.
fn fault_of(fault: BootFault) -> Fault
    ensures count { fault ≡ BootFault.CoreCount → result ≡ CoreCount }
    ensures memory { fault ≡ BootFault.NoMemory → result ≡ NoMemory }
{
    match fault {
        BootFault::CoreCount => Fault::CoreCount,
        BootFault::NoMemory => Fault::NoMemory,
    }
}

/// What was done: the turns after the steps, what came of the steps and of these, and the core that halted.
#[derive(Drop)]
struct Work {
    turns: Vec<CoreStep>,
    outcomes: Vec<StepOutcome>,
    halted: Option<u16>,
}

/// Does the steps, and then turns the cores until nothing is left to do.
fn serve_all(
    alloc: Global,
    cores: &mut [Core<RingLinks>],
    steps: Vec<CoreStep>,
) -> Result<Work, AllocError>
    requires machine { (limits : TableLimits) × (budget : ℕ) × (budgets : List ℕ) × IsMachine limits budget budgets cores.old }
    requires few { length cores.old ≤ 64 }
    requires steps { All (IsStep (length cores.old)) steps.items }
    requires nothing { All HasDoneNothing cores.old }
    ensures done { (limits : TableLimits) (budget : ℕ) (budgets : List ℕ) → IsMachine limits budget budgets cores.old → IfOk result (λ work. AreDone limits (steps.items ++ work.turns.items) work.outcomes.items cores.old cores.new) }
    ensures turns { IfOk result (λ work. All (IsTurnOf (length cores.old)) work.turns.items) }
    ensures running { IfOk result (λ work. All IsRunning work.outcomes.items) }
    ensures rests { IfOk result (λ work. work.halted ≡ None → AreAtRest cores.new × All HasAllDecided cores.new) }
    ensures halted { IfOk result (λ work. IfSome work.halted (λ core. core < length cores.old)) }
    ensures halts { IfOk result (λ work. IfSome work.halted (EndsHalted work.turns.items work.outcomes.items)) }
{
    let outcomes = drive_each(alloc, cores, steps)?;
    settle_each(alloc, cores, outcomes)
}

/// Does the steps, each by a call of its own, so that the cores are looked at after each step. That shows that core 0 starts a
/// request after its core has submitted it, where one call for all steps shows the order of each core's own events alone.
fn drive_each(
    alloc: Global,
    cores: &mut [Core<RingLinks>],
    steps: Vec<CoreStep>,
) -> Result<Vec<StepOutcome>, AllocError>
    requires machine { (limits : TableLimits) × (budget : ℕ) × (budgets : List ℕ) × IsMachine limits budget budgets cores.old }
    requires steps { All (IsStep (length cores.old)) steps.items }
    requires nothing { All HasDoneNothing cores.old }
    ensures done { (limits : TableLimits) (budget : ℕ) (budgets : List ℕ) → IsMachine limits budget budgets cores.old → IfOk result (λ outcomes. AreDone limits steps.items outcomes.items cores.old cores.new) }
    ensures running { IfOk result (λ outcomes. All IsRunning outcomes.items) }
{
    let mut outcomes = drive(alloc, cores, Vec::new(alloc))?;
    for step in steps {
        let mut outcome = drive(alloc, cores, vec![in alloc; step]?)?;
        outcomes.append(&mut outcome)?;
    }
    Ok(outcomes)
}

/// Turns the cores that have something to do until none has, or one halts, after steps with these outcomes.
fn settle_each(
    alloc: Global,
    cores: &mut [Core<RingLinks>],
    given: Vec<StepOutcome>,
) -> Result<Work, AllocError>
    requires machine { (limits : TableLimits) × (budget : ℕ) × (budgets : List ℕ) × IsMachine limits budget budgets cores.old }
    requires few { length cores.old ≤ 64 }
    requires running { All IsRunning given.items }
    ensures done { (limits : TableLimits) (steps : List GhostStep) (first : List RingCore) → All (IsStep (length first)) steps → All HasDoneNothing first → AreDone limits steps given.items first cores.old → IfOk result (λ work. AreDone limits (steps ++ work.turns.items) work.outcomes.items first cores.new) }
    ensures turns { IfOk result (λ work. All (IsTurnOf (length cores.old)) work.turns.items) }
    ensures running { IfOk result (λ work. All IsRunning work.outcomes.items) }
    ensures rests { IfOk result (λ work. work.halted ≡ None → AreAtRest cores.new × All HasAllDecided cores.new) }
    ensures halted { IfOk result (λ work. IfSome work.halted (λ core. core < length cores.old)) }
    ensures halts { IfOk result (λ work. IfSome work.halted (EndsHalted work.turns.items work.outcomes.items)) }
{
    agree_all(cores);
    let mut outcomes = given;
    let mut turns = Vec::new(alloc);
    let mut awake = vec![in alloc; true; cores.len()]?;
    while !at_rest(cores) {
        let Some(core) = first_awake(&awake) else {
            unreachable!()
        };
        let answer = turn_named(cores, awake.as_mut_slice(), core);
        let halts = is_halt(&answer);
        turns.push(turn_of(core))?;
        outcomes.push(StepOutcome::Turned(answer))?;
        if halts {
            return Ok(Work {
                turns,
                outcomes,
                halted: Some(core),
            });
        }
    }
    Ok(Work {
        turns,
        outcomes,
        halted: None,
    })
}

/// A turn of this core that receives no packet.
fn turn_of(core: u16) -> CoreStep
    ensures { result ≡ turn_of_core core }
{
    CoreStep {
        core,
        task: Task::Turn { rx: false },
    }
}

/// The first core that has something to do.
fn first_awake(awake: &[bool]) -> Option<u16>
    requires few { length awake.now ≤ 64 }
    ensures some { IfSome result (λ core. (core < length awake.now) × (awake_of awake.now core ≡ true)) }
    ensures none { IfNone result (NoneAwake (length awake.now) (awake_of awake.now)) }
{
    for core in 0..awake.len() {
        if awake[core] {
            return Some(core as u16);
        }
    }
    None
}

/// Whether a turn halted its core.
fn is_halt(answer: &Turn) -> bool
    ensures halts { IsTrue result → Halts answer.now }
    ensures goes_on { IsFalse result → halt_of answer.now ≡ None }
{
    !matches!(answer, Turn::Did { .. } | Turn::Idle)
}

/// Whether a turn did an event.
fn is_event(answer: &Turn) -> bool
    ensures did { IsTrue result → (s : GhostStamped) × (d : Option GhostDecision) × (answer.now ≡ Did s d) }
    ensures none { IsFalse result → (s : GhostStamped) (d : Option GhostDecision) → answer.now ≢ Did s d }
{
    matches!(answer, Turn::Did { .. })
}

/// A core that has something to do takes a turn, and then all are looked at. Unless that halted the core, `awake` says which cores have
/// something to do now.
fn turn_named(cores: &mut [Core<RingLinks>], awake: &mut [bool], core: u16) -> Turn
    requires machine { (limits : TableLimits) × (budget : ℕ) × (budgets : List ℕ) × IsMachine limits budget budgets cores.old }
    requires few { length cores.old ≤ 64 }
    requires each { length awake.old ≡ length cores.old }
    requires core { core < length cores.old }
    requires is_awake { awake_of awake.old core ≡ true }
    ensures each { length awake.new ≡ length awake.old }
    ensures driven { AreDriven (turn_of_core core ∷ []) (Turned result ∷ []) cores.old cores.new }
    ensures running { IsRunning (Turned result) }
    ensures machine { AreSameCores cores.old cores.new }
    ensures concludes { (limits : TableLimits) (budget : ℕ) (budgets : List ℕ) → IsMachine limits budget budgets cores.old → Conclude limits budget budgets cores.new }
    ensures named { halt_of result ≡ None → NamedTurn (awake_of awake.old) (awake_of awake.new) cores.old cores.new }
{
    let place = usize::from(core);
    let answer = cores[place].turn(false);
    awake[place] = is_event(&answer);
    wake(awake, &cores[place], core);
    agree_all(cores);
    answer
}

/// The cores that this one names have something to do.
fn wake(awake: &mut [bool], named_by: &Core<RingLinks>, core: u16)
    requires few { length awake.old ≤ 64 }
    ensures each { length awake.new ≡ length awake.old }
    ensures itself { awake_of awake.new core ≡ awake_of awake.old core }
    ensures others { (i : ℕ) → i ≢ core → awake_of awake.new i ≡ if awake_of awake.old i then true else names named_by.now i }
{
    for peer in 0..awake.len() as u16 {
        if peer != core && named_by.names(peer) {
            awake[usize::from(peer)] = true;
        }
    }
}
