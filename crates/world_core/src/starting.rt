//! Core 0 starts a request, of its own or of another core.

ghost use Rattle.std.specs.Prelude.{◌≡◌, ◌<◌, ◌≤◌, ℕ, IfOk, IfErr, OnErr, length};
ghost use Rattle.filter_table.specs.declared.operation.Op.{Op as GhostOp};
ghost use Rattle.two_phase.specs.Coordinators.{CanStart};
ghost use Rattle.monitor_2pc.specs.Starting.{WasStaged};
ghost use Rattle.core_steps.specs.Core0Steps.{core0_place, CanBegin, HasWaiting, start_sends, start_for_sends};
ghost use Rattle.world_events.specs.declared.event.Event.TheVariants.{Start, StartFor};
ghost use Rattle.world_model.specs.Worlds as worlds;
ghost use Rattle.world_core.specs.Keeping.{seen_world, WorldIsKept, EachMatches, Readied};
ghost use Rattle.world_core.specs.Sending.{IsReady};
ghost use Rattle.world_core.specs.LoggedCore0s.{StartForRefuses};

use crate::channel::Channel;
use crate::core0::LoggedCore0;
use crate::peer::Peer;
use crate::sending::{Ready, make_ready, send};
use core_steps::Core0;
use filter_table::{Op, StageFault};
use std::alloc::{AllocError, Global};
use world_events::{Answer, WorldFault};

/// Core 0 starts an operation, and asks the other cores.
pub(crate) fn begin<C: Channel>(
    core0: &mut LoggedCore0,
    peers: &mut [Peer<C>],
    alloc: Global,
    op: &Op,
) -> Result<Answer, AllocError>
    requires kept { WorldIsKept C.messages core0.old peers.old }
    requires can { CanStart (core0_place core0.old.core) }
    ensures happens { IfOk result (worlds.Happens (seen_world C.messages core0.old peers.old) (Start op.now) (seen_world C.messages core0.new peers.new)) }
    ensures same { OnErr result (seen_world C.messages core0.new peers.new ≡ seen_world C.messages core0.old peers.old) }
    ensures kept { WorldIsKept C.messages core0.new peers.new }
{
    let refusal = core0.core.stage(alloc, op);
    let Ok(ready) = ready_start(&core0.core, peers, alloc, op, refusal) else {
        core0.core.withdraw();
        return Err(AllocError);
    };
    let told = core0.begin(op, refusal);
    send(peers, ready);
    Ok(told.answer)
}

/// Makes ready what a start sends.
fn ready_start<C: Channel>(
    core: &Core0,
    peers: &mut [Peer<C>],
    alloc: Global,
    op: &Op,
    refusal: Option<StageFault>,
) -> Result<Ready<C::Piece>, AllocError>
    requires can { CanBegin core.now }
    requires tried { WasStaged core.now.replica op.now refusal }
    ensures peers { EachMatches (Readied C.messages) peers.old peers.new }
    ensures ready { IfOk result (IsReady C.spare C.made_for peers.new (start_sends core.now op.now refusal)) }
{
    let outgoing = core.start_sends(op, refusal)?;
    let ready = make_ready(peers, alloc, &outgoing);
    drop(outgoing);
    ready
}

/// Core 0 starts the request that a core has waiting, and asks the other cores, or answers that core at once.
pub(crate) fn begin_for<C: Channel>(
    core0: &mut LoggedCore0,
    peers: &mut [Peer<C>],
    alloc: Global,
    core: u16,
) -> Result<Answer, WorldFault>
    requires kept { WorldIsKept C.messages core0.old peers.old }
    requires can { CanStart (core0_place core0.old.core) }
    requires other { 0 < core }
    requires inside { core ≤ length peers.old }
    ensures happens { IfOk result (worlds.Happens (seen_world C.messages core0.old peers.old) (StartFor core) (seen_world C.messages core0.new peers.new)) }
    ensures fault { IfErr result (StartForRefuses (seen_world C.messages core0.old peers.old) core) }
    ensures same { OnErr result (seen_world C.messages core0.new peers.new ≡ seen_world C.messages core0.old peers.old) }
    ensures kept { WorldIsKept C.messages core0.new peers.new }
{
    let Some(refusal) = core0.core.stage_for(alloc, core) else {
        return Err(WorldFault::NoneWaiting);
    };
    let Ok(ready) = ready_start_for(&core0.core, peers, alloc, core, refusal) else {
        core0.core.withdraw();
        return Err(WorldFault::NoMemory);
    };
    let told = core0.begin_for(core, refusal);
    send(peers, ready);
    Ok(told.answer)
}

/// Makes ready what a start for a core sends.
fn ready_start_for<C: Channel>(
    core0: &Core0,
    peers: &mut [Peer<C>],
    alloc: Global,
    core: u16,
    refusal: Option<StageFault>,
) -> Result<Ready<C::Piece>, AllocError>
    requires can { CanBegin core0.now }
    requires waits { (entry : ℕ) × (op : GhostOp) × HasWaiting core0.now core entry op × WasStaged core0.now.replica op refusal }
    ensures peers { EachMatches (Readied C.messages) peers.old peers.new }
    ensures ready { IfOk result (λ ready. (entry : ℕ) (op : GhostOp) → HasWaiting core0.now core entry op → IsReady C.spare C.made_for peers.new (start_for_sends entry core0.now op refusal) ready) }
{
    let outgoing = core0.start_for_sends(core, refusal)?;
    let ready = make_ready(peers, alloc, &outgoing);
    drop(outgoing);
    ready
}
