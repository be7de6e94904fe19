//! What core 0 sends, made ready before a step and put after it.

ghost use Rattle.std.specs.Prelude.{IfOk};
ghost use Rattle.core_steps.specs.Core0Steps.{sent, CanBeCoded};
ghost use Rattle.world_model.specs.Cases.{Outgoing as GhostOutgoing};
ghost use Rattle.world_core.specs.Keeping.{EachMatches, Readied};
ghost use Rattle.world_core.specs.Sending.{IsReady, IsMade, HasRoomFor, SentOut};

use crate::channel::Channel;
use crate::peer::{Peer, put_all, put_at, ready_all, ready_at};
use core_steps::Outgoing;
use std::alloc::{AllocError, Global};

/// What is ready to be sent: a piece for each core that it goes to.
#[derive(Drop)]
pub(crate) enum Ready<P: Drop> {
    Nothing,
    ToAll(Vec<P>),
    ToOne(usize, P),
}

/// Makes ready what core 0 sends.
pub(crate) fn make_ready<C: Channel>(
    peers: &mut [Peer<C>],
    alloc: Global,
    outgoing: &Outgoing,
) -> Result<Ready<C::Piece>, AllocError>
    requires { CanBeCoded outgoing.now }
    ensures peers { EachMatches (Readied C.messages) peers.old peers.new }
    ensures ready { IfOk result (IsReady C.spare C.made_for peers.new (sent outgoing.now)) }
{
    match outgoing {
        Outgoing::Nothing => Ok(Ready::Nothing),
        Outgoing::ToAll(message) => Ok(Ready::ToAll(ready_all(peers, alloc, message)?)),
        Outgoing::ToOne(entry, message) => {
            if *entry >= peers.len() {
                return Ok(Ready::Nothing);
            }
            Ok(Ready::ToOne(*entry, ready_at(peers, *entry, message)?))
        }
    }
}

/// Puts what is ready.
pub(crate) fn send<C: Channel>(peers: &mut [Peer<C>], ready: Ready<C::Piece>)
    requires { HasRoomFor C.spare peers.old ready }
    ensures { (out : GhostOutgoing) → IsMade C.made_for peers.old out ready → SentOut C.messages peers.old out peers.new }
{
    match ready {
        Ready::Nothing => {}
        Ready::ToAll(pieces) => put_all(peers, pieces),
        Ready::ToOne(entry, piece) => put_at(peers, entry, piece),
    }
}
