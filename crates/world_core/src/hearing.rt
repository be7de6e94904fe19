//! Core 0 takes a message of another core.

ghost use Rattle.std.specs.Prelude.{◌≡◌, Bool, Some, IfOk, OnErr, option_and_then};
ghost use Rattle.world_core.specs.Channels.{first_of};
ghost use Rattle.world_events.specs.declared.event.Event.TheVariants.{Take};
ghost use Rattle.world_model.specs.Worlds as worlds;
ghost use Rattle.world_model.specs.Refusals.{channel};
ghost use Rattle.world_core.specs.Keeping.{seen_world, WorldIsKept};

use crate::channel::Channel;
use crate::core0::LoggedCore0;
use crate::peer::{Peer, drop_at};
use crate::sending::{make_ready, send};
use monitor_2pc::Message;
use std::alloc::{AllocError, Global};
use world_events::Answer;

/// Core 0 takes the oldest message of a core, which this is, and sends what follows.
pub(crate) fn hear<C: Channel>(
    core0: &mut LoggedCore0,
    peers: &mut [Peer<C>],
    alloc: Global,
    core: u16,
    message: Message,
) -> Result<Answer, AllocError>
    requires kept { WorldIsKept C.messages core0.old peers.old }
    requires oldest { option_and_then first_of (channel (seen_world C.messages core0.old peers.old) 0 core) ≡ Some message }
    ensures happens { (short : Bool) → IfOk result (worlds.Happens (seen_world C.messages core0.old peers.old) (Take 0 core short) (seen_world C.messages core0.new peers.new)) }
    ensures same { OnErr result (seen_world C.messages core0.new peers.new ≡ seen_world C.messages core0.old peers.old) }
    ensures kept { WorldIsKept C.messages core0.new peers.new }
{
    let outgoing = core0.core.take_sends(core, &message);
    let ready = make_ready(peers, alloc, &outgoing)?;
    drop(outgoing);
    let told = core0.take(core, message);
    drop_at(peers, usize::from(core) - 1);
    send(peers, ready);
    Ok(told.answer)
}
