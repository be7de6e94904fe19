//! Steps that are done.

ghost use Rattle.std.specs.Prelude.{◌≡◌, ◌<◌, ◌∷◌, [], ℕ, List, None, Some, length, slice_get, IfOk, OnOk, OnErr};
ghost use Rattle.filter_table.specs.Limits.{TableLimits};
ghost use Rattle.std.specs.List.{All};
ghost use Rattle.core_machine.specs.Machines.{RingCore, IsMachine, AreSameCores};
ghost use Rattle.core_machine.specs.Conclusions.{AreRunning, Conclude};
ghost use Rattle.core_machine.specs.declared.step.Task.TheVariants as GhostTask;
ghost use Rattle.core_machine.specs.Steps.{IsOf, did, asked_op, decided};
ghost use Rattle.core_machine.specs.Driving.{IsStep, IsGivable, CoreDrives, AreDriven, IsRunning, IsRight, IsDone, AreDoneAndLookedAt};

use crate::conclusion::agree_all;
use crate::step::{CoreStep, StepOutcome, Task};
use core_loop::{Core, RingLinks};
use filter_table::Kept;
use pcap_reader::SharedPacket;
use std::alloc::{AllocError, Global};

/// Does these steps on the cores of a machine, in this order, and gives what came of each. At the end no core is in a call, so all
/// that holds of a machine's histories holds of these. No core of a machine ever stops, so no outcome says that one has. The one error
/// is that there is no memory for the list of the outcomes; nothing is done then.
pub fn drive(
    alloc: Global,
    cores: &mut [Core<RingLinks>],
    steps: Vec<CoreStep>,
) -> Result<Vec<StepOutcome>, AllocError>
    requires machine { (limits : TableLimits) × (budget : ℕ) × (budgets : List ℕ) × IsMachine limits budget budgets cores.old }
    requires steps { All (IsStep (length cores.old)) steps.items }
    ensures driven { IfOk result (λ outcomes. AreDriven steps.items outcomes.items cores.old cores.new) }
    ensures in_turn { IfOk result (λ outcomes. AreDoneAndLookedAt steps.items outcomes.items cores.old cores.new) }
    ensures running { IfOk result (λ outcomes. All IsRunning outcomes.items) }
    ensures machine { AreSameCores cores.old cores.new }
    ensures concludes { (limits : TableLimits) (budget : ℕ) (budgets : List ℕ) → IsMachine limits budget budgets cores.old → OnOk result (Conclude limits budget budgets cores.new) }
    ensures err { OnErr result (cores.new ≡ cores.old) }
{
    let mut outcomes = Vec::with_capacity(alloc, steps.len())?;
    for step in steps {
        outcomes.push_reserved(do_step(alloc, cores, step));
    }
    agree_all(cores);
    Ok(outcomes)
}

/// Does one step.
fn do_step(alloc: Global, cores: &mut [Core<RingLinks>], step: CoreStep) -> StepOutcome
    requires step { IsStep (length cores.old) step }
    requires place { (i : ℕ) (c : RingCore) → slice_get cores.old i ≡ Some c → c.number ≡ i }
    ensures driven { AreDriven (step ∷ []) (result ∷ []) cores.old cores.new }
    ensures done { IsDone step result cores.old cores.new }
    ensures running { AreRunning cores.new → AreRunning cores.old × IsRunning result }
{
    let CoreStep { core, task } = step;
    do_task(alloc, &mut cores[usize::from(core)], task)
}

/// Does one task of a core.
fn do_task(alloc: Global, core: &mut Core<RingLinks>, task: Task) -> StepOutcome
    requires { IsGivable core.old.number task }
    ensures answered { IsOf task result }
    ensures drives { CoreDrives (did core.old.number task result) (asked_op task result) (decided result) core.old core.new }
    ensures right { IsRight task result core.old core.new }
    ensures running { core.new.stopped ≡ None → (core.old.stopped ≡ None) × IsRunning result }
{
    match task {
        Task::Turn { rx } => StepOutcome::Turned(core.turn(rx)),
        Task::Ask { op } => match core.ask(op) {
            Ok(()) => StepOutcome::Asked,
            Err(AllocError) => StepOutcome::NoMemory,
        },
        Task::Receive { packet } => receive(alloc, core, packet),
    }
}

/// Has a core receive a packet, in a room that is always enough: an endpoint that gets one has a capability that is held.
fn receive(alloc: Global, core: &mut Core<RingLinks>, packet: SharedPacket) -> StepOutcome
    ensures answered { IsOf (GhostTask.Receive packet) result }
    ensures drives { CoreDrives (did core.old.number (GhostTask.Receive packet) result) [] [] core.old core.new }
    ensures right { IsRight (GhostTask.Receive packet) result core.old core.new }
    ensures running { core.new.stopped ≡ None → (core.old.stopped ≡ None) × IsRunning result }
{
    let none = Kept {
        endpoint: 0,
        kept: 0,
    };
    let most = core.replica().limits().caps().total() as usize;
    let Ok(mut room) = vec![in alloc; none; most] else {
        return StepOutcome::NoMemory;
    };
    let version = core.version();
    match core.receive(packet.bytes(), packet.original(), &mut room) {
        Ok(count) => {
            room.truncate(count);
            StepOutcome::Received {
                version,
                kept: room,
            }
        }
        Err(why) => StepOutcome::NotReceived(why),
    }
}
