//! A core other than core 0.

ghost use Rattle.std.specs.Prelude.{◌≡◌, ◌<◌, ◌++◌, ℕ, All, length, IfOk, OnOk, option_to_list};
ghost use Rattle.monitor_messages.specs.declared.message.Message.{Message as GhostMessage};
ghost use Rattle.filter_table.specs.Tables.{HasShortProgram};
ghost use Rattle.monitor_messages.specs.Coding.{IsNumbered, IsShort};
ghost use Rattle.world_core.specs.Keeping.{ChangesOne, Submits, Takes, IsReadyAt, GivesUp, EachMatches, Readied, IsSent, RoomAt, RoomFrom};

use crate::channel::Channel;
use core_steps::OtherCore;
use filter_table::{Limits, Op};
use monitor_2pc::Message;
use std::alloc::{AllocError, Global};
use world_events::{Answer, WorldFault};

/// A core other than core 0, with its channels from and to core 0.
pub(crate) struct Peer<C: Channel> {
    pub(crate) core: OtherCore,
    pub(crate) down: C,
    pub(crate) up: C,
}

// By hand, so that the proofs of its owners have one call and not a drop of each part.
impl<C: Channel> Drop for Peer<C> {
    fn drop(self) {
        let Peer {
            core: _,
            down: _,
            up: _,
        } = self;
    }
}

impl<C: Channel> Peer<C> {
    ghost use Rattle.std.specs.Prelude.{◌≤◌, Bool, Option, [], Some, IfOk, IfErr, OnErr, OnOk};
    ghost use Rattle.monitor_messages.specs.declared.message.Message.{Message as GhostMessage};
    ghost use Rattle.world_core.specs.Channels.{first_of};
    ghost use Rattle.world_events.specs.declared.fault.WorldFault.TheVariants.{NoMemory};
    ghost use Rattle.filter_table.specs.Tables.{HasShortProgram};
    ghost use Rattle.monitor_messages.specs.Coding.{IsNumbered, IsShort};
    ghost use Rattle.core_steps.specs.declared.other_core.OtherCore.{OtherCore as GhostCore};
    ghost use Rattle.core_steps.specs.OtherCoreSteps.{IsBetweenSteps, AwaitsHere, Considers};
    ghost use Rattle.world_model.specs.Worlds.{new_peer};
    ghost use Rattle.world_core.specs.Keeping.{seen_peer, PeerIsKept, PeerSubmits, PeerCannotSubmit, AwaitsOldest, PeerTakes, PeerCannotTake, Readied, IsSent, HasRoom, IsReadyUp};

    /// A core that has done nothing yet.
    pub(crate) fn new(alloc: Global, limits: Limits, budget: u32) -> Result<Peer<C>, AllocError>
        ensures seen { IfOk result (λ peer. seen_peer C.messages peer ≡ new_peer budget) }
        ensures kept { IfOk result (λ peer. PeerIsKept limits [] peer) }
    {
        let down = C::new(alloc)?;
        let up = C::new(alloc)?;
        let core = OtherCore::new(alloc, limits, budget)?;
        Ok(Peer { core, down, up })
    }

    /// Sends a request to core 0.
    pub(crate) fn submit(&mut self, op: &Op) -> Result<Answer, WorldFault>
        requires { HasShortProgram op.now }
        ensures submits { IfOk result (PeerSubmits (seen_peer C.messages self.old) op.now (seen_peer C.messages self.new)) }
        ensures fault { IfErr result (PeerCannotSubmit (seen_peer C.messages self.old)) }
        ensures same { OnErr result (seen_peer C.messages self.new ≡ seen_peer C.messages self.old) }
        ensures replica { self.new.core.replica ≡ self.old.core.replica }
        ensures voted { self.new.core.participant.voted ≡ self.old.core.participant.voted }
    {
        if self.core.participant.outstanding() {
            return Err(WorldFault::Outstanding);
        }
        let message = Message::Submit { op: op.clone()? };
        let prepared = self.up.prepare(&message);
        drop(message);
        let piece = prepared?;
        let answer = self.core.submit();
        self.up.put(piece);
        Ok(answer)
    }

    /// Takes the oldest message from core 0.
    pub(crate) fn take(&mut self, alloc: Global, short: bool) -> Result<Answer, WorldFault>
        requires between { IsBetweenSteps self.old.core }
        requires awaits { AwaitsOldest C.messages self.old }
        ensures takes { IfOk result (PeerTakes short self.old.core.replica.shown (seen_peer C.messages self.old) self.new.core.replica.shown (seen_peer C.messages self.new)) }
        ensures fault { IfErr result (PeerCannotTake (seen_peer C.messages self.old)) }
        ensures same { OnErr result (seen_peer C.messages self.new ≡ seen_peer C.messages self.old) }
        ensures same_core { OnErr result (self.new.core ≡ self.old.core) }
        ensures now_between { IsBetweenSteps self.new.core }
    {
        match self.down.first()? {
            None => Err(WorldFault::Nothing),
            Some(message) => {
                // A message is dropped by a call, as core 0 is in `assemble`.
                let taken = self.take_in(alloc, &message, short);
                drop(message);
                Ok(taken?)
            }
        }
    }

    /// Takes this message, and sends what follows.
    fn take_in(
        &mut self,
        alloc: Global,
        message: &Message,
        short: bool,
    ) -> Result<Answer, AllocError>
        requires between { IsBetweenSteps self.old.core }
        requires awaits { AwaitsHere self.old.core message.now }
        requires oldest { first_of (C.messages self.old.down) ≡ Some message.now }
        ensures takes { IfOk result (PeerTakes short self.old.core.replica.shown (seen_peer C.messages self.old) self.new.core.replica.shown (seen_peer C.messages self.new)) }
        ensures same { OnErr result (seen_peer C.messages self.new ≡ seen_peer C.messages self.old) }
        ensures same_core { OnErr result (self.new.core ≡ self.old.core) }
        ensures now_between { IsBetweenSteps self.new.core }
    {
        let Ok(reply) = self.core.consider(alloc, message, short) else {
            unreachable!()
        };
        let Ok(ready) = self.ready_up(&reply) else {
            drop(reply);
            self.core.withdraw(message);
            return Err(AllocError);
        };
        let answer = self.core.take(message, &reply);
        drop(reply);
        self.put_up(ready);
        self.down.drop_first();
        Ok(answer)
    }

    /// Makes what this core sends to core 0 ready to be put.
    fn ready_up(&mut self, reply: &Option<Message>) -> Result<Option<C::Piece>, AllocError>
        requires { (short : Bool) × (before : GhostCore) × (m : GhostMessage) × (after : GhostCore) × Considers short before m reply.now after }
        ensures ready { IfOk result (IsReadyUp C.spare C.made_for reply.now self.new.up) }
        ensures up { C.messages self.new.up ≡ C.messages self.old.up }
        ensures down { self.new.down ≡ self.old.down }
        ensures core { self.new.core ≡ self.old.core }
    {
        match reply {
            None => Ok(None),
            Some(message) => Ok(Some(self.up.prepare(message)?)),
        }
    }

    /// Puts it.
    fn put_up(&mut self, ready: Option<C::Piece>)
        requires { (reply : Option GhostMessage) × IsReadyUp C.spare C.made_for reply self.old.up ready }
        ensures up { (reply : Option GhostMessage) → IsReadyUp C.spare C.made_for reply self.old.up ready → C.messages self.new.up ≡ C.messages self.old.up ++ option_to_list reply }
        ensures down { self.new.down ≡ self.old.down }
        ensures core { self.new.core ≡ self.old.core }
    {
        if let Some(piece) = ready {
            self.up.put(piece);
        }
    }

    /// Makes a message to this core ready to be put.
    fn ready_down(&mut self, message: &Message) -> Result<C::Piece, AllocError>
        requires short { IsShort message.now }
        requires numbered { IsNumbered message.now }
        ensures seen { Readied C.messages self.old self.new }
        ensures room { OnOk result (HasRoom C.spare self.new) }
        ensures piece { IfOk result (λ piece. C.made_for piece ≡ message.now) }
    {
        self.down.prepare(message)
    }

    /// Puts a message to this core.
    fn put_down(&mut self, piece: C::Piece)
        requires { HasRoom C.spare self.old }
        ensures { IsSent C.messages (C.made_for piece) self.old self.new }
    {
        self.down.put(piece);
    }
}

/// The core with this entry sends a request to core 0.
pub(crate) fn submit_at<C: Channel>(
    peers: &mut [Peer<C>],
    entry: usize,
    op: &Op,
) -> Result<Answer, WorldFault>
    requires inside { entry < length peers.old }
    requires short { HasShortProgram op.now }
    ensures { ChangesOne peers.old entry peers.new (Submits C.messages op.now result) }
{
    peers[entry].submit(op)
}

/// The core with this entry takes the oldest message from core 0.
pub(crate) fn take_at<C: Channel>(
    peers: &mut [Peer<C>],
    alloc: Global,
    entry: usize,
    short: bool,
) -> Result<Answer, WorldFault>
    requires inside { entry < length peers.old }
    requires ready { IsReadyAt C.messages peers.old entry }
    ensures { ChangesOne peers.old entry peers.new (Takes C.messages short result) }
{
    peers[entry].take(alloc, short)
}

/// The core with this entry has given up its oldest message to core 0.
pub(crate) fn drop_at<C: Channel>(peers: &mut [Peer<C>], entry: usize)
    requires { entry < length peers.old }
    ensures { ChangesOne peers.old entry peers.new (GivesUp C.messages) }
{
    peers[entry].up.drop_first();
}

/// Makes a message ready for the core with this entry.
pub(crate) fn ready_at<C: Channel>(
    peers: &mut [Peer<C>],
    entry: usize,
    message: &Message,
) -> Result<C::Piece, AllocError>
    requires inside { entry < length peers.old }
    requires short { IsShort message.now }
    requires numbered { IsNumbered message.now }
    ensures seen { EachMatches (Readied C.messages) peers.old peers.new }
    ensures room { OnOk result (RoomAt C.spare peers.new entry) }
    ensures piece { IfOk result (λ piece. C.made_for piece ≡ message.now) }
{
    peers[entry].ready_down(message)
}

/// Puts a message for the core with this entry.
pub(crate) fn put_at<C: Channel>(peers: &mut [Peer<C>], entry: usize, piece: C::Piece)
    requires inside { entry < length peers.old }
    requires room { RoomAt C.spare peers.old entry }
    ensures { ChangesOne peers.old entry peers.new (IsSent C.messages (C.made_for piece)) }
{
    peers[entry].put_down(piece);
}

/// Makes a message ready for each core.
pub(crate) fn ready_all<C: Channel>(
    peers: &mut [Peer<C>],
    alloc: Global,
    message: &Message,
) -> Result<Vec<C::Piece>, AllocError>
    requires short { IsShort message.now }
    requires numbered { IsNumbered message.now }
    ensures seen { EachMatches (Readied C.messages) peers.old peers.new }
    ensures room { OnOk result (RoomFrom C.spare peers.new 0) }
    ensures pieces { IfOk result (λ pieces. All (λ piece. C.made_for piece ≡ message.now) pieces.items) }
    ensures count { IfOk result (λ pieces. length pieces.items ≡ length peers.new) }
{
    let mut pieces = Vec::with_capacity(alloc, peers.len())?;
    for peer in peers.iter_mut() {
        let piece = peer.ready_down(message)?;
        pieces.push(piece)?;
    }
    Ok(pieces)
}

/// Puts a message for each core.
pub(crate) fn put_all<C: Channel>(peers: &mut [Peer<C>], mut pieces: Vec<C::Piece>)
    requires room { RoomFrom C.spare peers.old 0 }
    requires count { length pieces.items ≡ length peers.old }
    ensures { (m : GhostMessage) → All (λ piece. C.made_for piece ≡ m) pieces.items → EachMatches (IsSent C.messages m) peers.old peers.new }
{
    for peer in peers.iter_mut() {
        match pieces.pop() {
            Some(piece) => peer.put_down(piece),
            None => {}
        }
    }
}
