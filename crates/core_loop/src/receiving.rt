//! The receipt of a packet.

ghost use Rattle.std.specs.Prelude.{◌≡◌, ◌≤◌, ◌++◌, ℕ, IfOk, IfErr, OnErr};
ghost use mathlib.Core.List.{IsPrefix};
ghost use Rattle.rx_queue.specs.declared.job.Job.{Job as GhostJob};
ghost use Rattle.rx_queue.specs.Queue.{jobs_seen, jobs_taken, SameIntake};
ghost use Rattle.world_model.specs.Cases.{ReceivesAt};
ghost use Rattle.core_loop.specs.Outcomes.{OnEvent, OnNone, OnIdle};
ghost use Rattle.core_loop.specs.Receipts.{IsReceivable, Receives, receives, CannotReceive};

use crate::context::Context;
use crate::looking::can_receive;
use crate::refusal::{Refusal, next_stamp};
use filter_table::KeptList;
use pcap_reader::SharedPacket;
use rx_queue::Intake;
use std::alloc::{AllocError, Global};
use table_replica::{Replica, Workspace};
use world_events::{Answer, Done, Event};
use world_histories::Stamped;

/// Receives the front job of a core, if it has one whose floor is at most its version.
// Not in line, so that a request that is begun instead has its room on the stack.
#[inline(never)]
pub(crate) fn receive(
    replica: &Replica,
    intake: &mut Intake,
    workspace: &mut Workspace,
    context: Context,
) -> Result<Option<Stamped>, Refusal>
    ensures receives { OnEvent result (Receives context.number context.clock replica.now) }
    ensures queue { SameIntake intake.old intake.new }
    ensures taken { OnEvent result (λ s. jobs_taken intake.new ≡ jobs_taken intake.old ++ receives s.done.event) }
    ensures front { OnEvent result (λ s. IsPrefix (jobs_seen intake.old) (receives s.done.event ++ jobs_seen intake.new)) }
    ensures kept { OnNone result (jobs_taken intake.new ≡ jobs_taken intake.old) }
    ensures seen { OnNone result (IsPrefix (jobs_seen intake.old) (jobs_seen intake.new)) }
    ensures idle { OnIdle result ((job : GhostJob) → IsReceivable replica.now.shown.version intake.new job → ⊥) }
    ensures can { OnErr result ((job : GhostJob) × IsReceivable replica.now.shown.version intake.new job) }
    ensures why { IfErr result (CannotReceive context.clock) }
{
    if !can_receive(replica.version(), intake) {
        return Ok(None);
    }
    let Some(job) = intake.seen() else {
        unreachable!()
    };
    let Some(stamp) = next_stamp(context.clock, 0) else {
        return Err(Refusal::Spent);
    };
    let Ok(answer) = delivery(replica, workspace, context.alloc, &job.packet) else {
        return Err(Refusal::NoMemory);
    };
    let Some(job) = intake.next() else {
        unreachable!()
    };
    let event = Event::Rx {
        core: context.number,
        number: job.number,
        packet: job.packet,
        floor: job.floor,
    };
    Ok(Some(Stamped {
        stamp,
        done: Done { event, answer },
    }))
}

/// What a replica answers to a packet. It works with the lists of the workspace. Memory is taken once, for the list that the answer keeps, and
/// none where no endpoint gets the packet.
fn delivery(
    replica: &Replica,
    workspace: &mut Workspace,
    alloc: Global,
    packet: &SharedPacket,
) -> Result<Answer, AllocError>
    ensures { (floor : ℕ) → floor ≤ replica.now.shown.version → IfOk result (ReceivesAt replica.now.shown replica.now.shown.version packet.now floor) }
{
    replica.accepting_with(workspace, packet.bytes(), packet.original())?;
    let kept = Vec::from_slice(alloc, &workspace.kept)?;
    Ok(Answer::Delivered {
        version: replica.version(),
        kept: KeptList::from_vec(kept),
    })
}
