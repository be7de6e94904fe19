//! The world of the cores.

ghost use Rattle.std.specs.Prelude.{◌≡◌, ◌≢◌, ◌+◌, ◌∷◌, [], ℕ, Bool, None, Some, IfSome, IfNone, IfOk, IfErr, OnOk, OnErr, List, ◌<◌, ◌≤◌, All, length, map, slice_get, option_map};
ghost use Rattle.world_core.specs.Channels.{first_of};
ghost use Rattle.world_model.specs.Worlds.{new_peer};
ghost use Rattle.world_core.specs.Keeping.{seen_peer, PeerIsKept};
ghost use Rattle.std.specs.Option.{option_copied};

use crate::channel::{Channel, Messages};
use crate::core0::LoggedCore0;
use crate::hearing::hear;
use crate::peer::{Peer, submit_at, take_at};
use crate::starting::{begin, begin_for};
use core_steps::receive;
use filter_table::{Limits, Op};
use monitor_2pc::{DEFAULT_MOST_CORES, MOST_CORES, Message};
use pcap_reader::SharedPacket;
use std::alloc::{AllocError, Global};
use std::marker::Model;
use table_replica::Replica;
use world_events::{Answer, BootFault, Event, WorldFault};

/// The world of the cores over channels of one kind, seen as the log, the place of each core in the protocol and the messages
/// under way.
pub struct WorldOver<C: Channel> {
    alloc: Global,
    core0: LoggedCore0,
    pub(crate) peers: Vec<Peer<C>>,
}

// By hand, so that the proofs of its owners have one call and not a drop of each part.
impl<C: Channel> Drop for WorldOver<C> {
    fn drop(self) {
        let WorldOver {
            alloc: _,
            core0: _,
            peers: _,
        } = self;
    }
}

/// The world over channels that keep messages.
pub type World = WorldOver<Messages>;

impl<C: Channel> Model for WorldOver<C> {
    ghost use Rattle.world_model.specs.Worlds as worlds;
    ghost use Rattle.world_core.specs.Keeping.{seen_world, WorldIsKept};

    ghost Value = { worlds.World };

    ghost view = { λ w. seen_world C.messages w.core0 w.peers.items };

    ghost invariant = { λ w. WorldIsKept C.messages w.core0 w.peers.items };
}

impl<C: Channel> WorldOver<C> {
    ghost use Rattle.world_model.specs.Worlds as worlds;
    ghost use Rattle.filter_table.specs.Limits.{TableLimits, default_limits};
    ghost use Rattle.filter_table.specs.Tables.{HasShortProgram};
    ghost use Rattle.world_events.specs.declared.event.Event.TheVariants.{Start, Submit, StartFor, Take, Rx};
    ghost use Rattle.world_model.specs.Refusals.{channel, NoneStands, WorldRefuses, BootRefuses, Extends, HasCores, Reached, IsShortEvent, waiting_at};
    ghost use Rattle.world_model.specs.Agreement.{Agrees, Grows, IsSoundLog, NoStranger, TellsVersions};
    ghost use Rattle.world_model.specs.Decisions.{Delivers, DecidesRightly, RepliesRightly};
    ghost use Rattle.world_events.specs.declared.event.Done.{Done as GhostDone};
    ghost use Rattle.world_core.specs.Shown.{ShowsReplica};

    /// The 1 to 8 cores of a machine with the default limits and these budgets, core 0's first. Nothing has happened yet.
    pub fn boot(alloc: Global, budgets: &[u32]) -> Result<WorldOver<C>, BootFault>
        ensures boots { IfOk result (λ world. (budget : ℕ) × (others : List ℕ) × (budgets.now ≡ budget ∷ others) × (world ≡ worlds.boot default_limits budget others)) }
        ensures count { OnOk result (HasCores 8 budgets.now) }
        ensures fault { IfErr result (BootRefuses 8 budgets.now) }
    {
        if budgets.len() > usize::from(DEFAULT_MOST_CORES) {
            return Err(BootFault::CoreCount);
        }
        WorldOver::boot_with_limits(alloc, Limits::DEFAULT, budgets)
    }

    /// The 1 to 64 cores of a machine with these limits and budgets, core 0's first. Nothing has happened yet.
    pub fn boot_with_limits(
        alloc: Global,
        limits: Limits,
        budgets: &[u32],
    ) -> Result<WorldOver<C>, BootFault>
        ensures boots { IfOk result (λ world. (budget : ℕ) × (others : List ℕ) × (budgets.now ≡ budget ∷ others) × (world ≡ worlds.boot limits budget others)) }
        ensures count { OnOk result (HasCores 64 budgets.now) }
        ensures fault { IfErr result (BootRefuses 64 budgets.now) }
    {
        let [budget, others @ ..] = budgets else {
            return Err(BootFault::CoreCount);
        };
        if others.len() >= usize::from(MOST_CORES) {
            return Err(BootFault::CoreCount);
        }
        Ok(WorldOver::assemble(alloc, limits, *budget, others)?)
    }

    /// Core 0 with this budget, and the others with theirs.
    fn assemble(
        alloc: Global,
        limits: Limits,
        budget: u32,
        others: &[u32],
    ) -> Result<WorldOver<C>, AllocError>
        requires { length others.now < MOST_CORES }
        ensures { IfOk result (λ world. world ≡ worlds.boot limits budget others.now) }
    {
        // Core 0 is dropped by a call: left to a way out, each of its parts is dropped there, which takes long to prove.
        let core0 = LoggedCore0::new(alloc, limits, budget, others.len() as u16)?;
        match new_peers(alloc, limits, others) {
            Ok(peers) => Ok(WorldOver {
                alloc,
                core0,
                peers,
            }),
            Err(error) => {
                drop(core0);
                Err(error)
            }
        }
    }

    /// How many cores there are. Some run of a machine led here.
    pub(crate) fn cores(&self) -> u16
        ensures count { result ≡ length self.now.peers + 1 }
        ensures reached { (limits : TableLimits) × (budget : ℕ) × (budgets : List ℕ) × Reached limits budget budgets self.now }
    {
        self.peers.len() as u16 + 1
    }

    /// The replica of a core, if there is such a core. Every world has been reached by some run of a machine.
    pub fn replica(&self, core: u16) -> Option<&Replica>
        ensures some { IfSome result (λ replica. ShowsReplica self.now core replica.now) }
        ensures none { IfNone result (worlds.version_at self.now core ≡ None) }
        ensures reached { (limits : TableLimits) × (budget : ℕ) × (budgets : List ℕ) × Reached limits budget budgets self.now }
    {
        if core == 0 {
            return Some(&self.core0.core.replica);
        }
        match peer_at(&self.peers, usize::from(core) - 1) {
            Some(peer) => Some(&peer.core.replica),
            None => None,
        }
    }

    /// The request that core 0 has waiting for a core.
    pub fn waiting(&self, core: u16) -> Option<&Op>
        ensures some { IfSome result (λ op. waiting_at self.now core ≡ Some op.now) }
        ensures none { IfNone result (waiting_at self.now core ≡ None) }
    {
        self.core0.core.coordinator.waiting(core)
    }

    /// Does one event where no fault stands, and answers what its core tells. A fault changes nothing.
    ///
    /// The faults, in the order in which they are looked for:
    ///
    /// - of a Take, `NoSuchCore` and `Nothing`;
    /// - of an Rx, `NoSuchCore` and `NotReady`;
    /// - of a Start, `NotIdle` and `Spent`;
    /// - of a Submit, `NoSuchCore` (of core 0 too) and `Outstanding`;
    /// - of a StartFor, `NoSuchCore` (of core 0 too), `NotIdle`, `Spent` and `NoneWaiting`.
    ///
    /// `NoMemory` is reported where none of them holds. All memory that the event needs is taken before anything changes. The
    /// program of a submitted request has at most 4,096 instructions.
    pub fn apply(&mut self, event: &Event) -> Result<Answer, WorldFault>
        requires { IsShortEvent event.now }
        ensures happens { IfOk result (worlds.Happens self.old event.now self.new) }
        ensures none_stands { OnOk result (NoneStands self.old event.now) }
        ensures fault { IfErr result (WorldRefuses self.old event.now) }
        ensures same { OnErr result (self.new ≡ self.old) }
        ensures extends { IfOk result (λ answer. Extends self.old (record { event = event.now; answer = answer } ∷ []) self.new) }
        ensures grows { IfOk result (λ _. (limits : TableLimits) (budget : ℕ) (budgets : List ℕ) (events : List GhostDone) → worlds.Run limits budget budgets events self.old → Grows self.old self.new) }
        ensures one_log { (limits : TableLimits) (budget : ℕ) (budgets : List ℕ) (events : List GhostDone) → worlds.Run limits budget budgets events self.new → Agrees limits budget budgets self.new }
        ensures versions_counted { (limits : TableLimits) (budget : ℕ) (budgets : List ℕ) (events : List GhostDone) → worlds.Run limits budget budgets events self.new → TellsVersions events self.new }
        ensures sound { (limits : TableLimits) (budget : ℕ) (budgets : List ℕ) (events : List GhostDone) → worlds.Run limits budget budgets events self.new → IsSoundLog self.new.limits self.new.log }
        ensures all_expected { (limits : TableLimits) (budget : ℕ) (budgets : List ℕ) (events : List GhostDone) → worlds.Run limits budget budgets events self.new → NoStranger self.new }
        ensures delivers { (limits : TableLimits) (budget : ℕ) (budgets : List ℕ) (events : List GhostDone) → worlds.Run limits budget budgets events self.new → Delivers self.new.limits self.new.log events }
        ensures decides { IfOk result (λ answer. (limits : TableLimits) (budget : ℕ) (budgets : List ℕ) (events : List GhostDone) → worlds.Run limits budget budgets events self.old → DecidesRightly events self.old event.now self.new answer) }
        ensures replies { IfOk result (λ answer. (limits : TableLimits) (budget : ℕ) (budgets : List ℕ) (events : List GhostDone) → worlds.Run limits budget budgets events self.old → RepliesRightly events self.old event.now answer) }
    {
        self.perform(event)
    }

    /// Does one event.
    fn perform(&mut self, event: &Event) -> Result<Answer, WorldFault>
        requires { IsShortEvent event.now }
        ensures happens { IfOk result (worlds.Happens self.old event.now self.new) }
        ensures none_stands { OnOk result (NoneStands self.old event.now) }
        ensures fault { IfErr result (WorldRefuses self.old event.now) }
        ensures same { OnErr result (self.new ≡ self.old) }
    {
        match event {
            Event::Start { op } => self.start(op),
            Event::Submit { core, op } => self.submit(*core, op),
            Event::StartFor { core } => self.start_for(*core),
            Event::Take { to, from, short } => self.take(*to, *from, *short),
            Event::Rx {
                core,
                packet,
                floor,
                ..
            } => self.receive(*core, packet, *floor),
        }
    }

    /// Core 0 starts a request of its own.
    fn start(&mut self, op: &Op) -> Result<Answer, WorldFault>
        ensures happens { IfOk result (worlds.Happens self.old (Start op.now) self.new) }
        ensures fault { IfErr result (WorldRefuses self.old (Start op.now)) }
        ensures same { OnErr result (self.new ≡ self.old) }
    {
        if !self.core0.core.coordinator.idle() {
            return Err(WorldFault::NotIdle);
        }
        if self.core0.core.coordinator.last() == u64::MAX {
            return Err(WorldFault::Spent);
        }
        Ok(begin(&mut self.core0, &mut self.peers, self.alloc, op)?)
    }

    /// Core 0 starts the request that another core has waiting.
    fn start_for(&mut self, core: u16) -> Result<Answer, WorldFault>
        ensures happens { IfOk result (worlds.Happens self.old (StartFor core) self.new) }
        ensures joined { OnOk result (channel self.old 0 core ≢ None) }
        ensures fault { IfErr result (WorldRefuses self.old (StartFor core)) }
        ensures same { OnErr result (self.new ≡ self.old) }
    {
        if core == 0 || usize::from(core) > self.peers.len() {
            return Err(WorldFault::NoSuchCore);
        }
        if !self.core0.core.coordinator.idle() {
            return Err(WorldFault::NotIdle);
        }
        if self.core0.core.coordinator.last() == u64::MAX {
            return Err(WorldFault::Spent);
        }
        begin_for(&mut self.core0, &mut self.peers, self.alloc, core)
    }

    /// A core receives a packet.
    fn receive(&self, core: u16, packet: &SharedPacket, floor: u64) -> Result<Answer, WorldFault>
        ensures happens { (number : ℕ) → IfOk result (worlds.Happens self.now (Rx core number packet.now floor) self.now) }
        ensures fault { (number : ℕ) → IfErr result (WorldRefuses self.now (Rx core number packet.now floor)) }
    {
        let Some(replica) = self.replica(core) else {
            return Err(WorldFault::NoSuchCore);
        };
        if replica.version() < floor {
            return Err(WorldFault::NotReady);
        }
        Ok(receive(replica, self.alloc, packet)?)
    }

    /// Another core than core 0 submits a request.
    fn submit(&mut self, core: u16, op: &Op) -> Result<Answer, WorldFault>
        requires { HasShortProgram op.now }
        ensures happens { IfOk result (worlds.Happens self.old (Submit core op.now) self.new) }
        ensures fault { IfErr result (WorldRefuses self.old (Submit core op.now)) }
        ensures same { OnErr result (self.new ≡ self.old) }
    {
        if core == 0 || usize::from(core) > self.peers.len() {
            return Err(WorldFault::NoSuchCore);
        }
        let entry = usize::from(core) - 1;
        submit_at(&mut self.peers, entry, op)
    }

    /// A core takes its oldest message from another.
    fn take(&mut self, to: u16, from: u16, short: bool) -> Result<Answer, WorldFault>
        ensures happens { IfOk result (worlds.Happens self.old (Take to from short) self.new) }
        ensures fault { IfErr result (WorldRefuses self.old (Take to from short)) }
        ensures same { OnErr result (self.new ≡ self.old) }
    {
        if to == 0 {
            self.take_up(from)
        } else if from == 0 {
            self.take_down(to, short)
        } else {
            Err(WorldFault::NoSuchCore)
        }
    }

    /// Another core than core 0 takes its oldest message.
    pub(crate) fn take_down(&mut self, core: u16, short: bool) -> Result<Answer, WorldFault>
        ensures happens { IfOk result (worlds.Happens self.old (Take core 0 short) self.new) }
        ensures fault { IfErr result (WorldRefuses self.old (Take core 0 short)) }
        ensures same { OnErr result (self.new ≡ self.old) }
    {
        if core == 0 || usize::from(core) > self.peers.len() {
            return Err(WorldFault::NoSuchCore);
        }
        let entry = usize::from(core) - 1;
        take_at(&mut self.peers, self.alloc, entry, short)
    }

    /// Core 0 takes the oldest message of another core.
    pub(crate) fn take_up(&mut self, core: u16) -> Result<Answer, WorldFault>
        ensures happens { (short : Bool) → IfOk result (worlds.Happens self.old (Take 0 core short) self.new) }
        ensures fault { (short : Bool) → IfErr result (WorldRefuses self.old (Take 0 core short)) }
        ensures same { OnErr result (self.new ≡ self.old) }
    {
        if core == 0 || usize::from(core) > self.peers.len() {
            return Err(WorldFault::NoSuchCore);
        }
        let entry = usize::from(core) - 1;
        match oldest_at(&self.peers, entry)? {
            None => Err(WorldFault::Nothing),
            Some(message) => Ok(hear(&mut self.core0, &mut self.peers, self.alloc, core, message)?),
        }
    }
}

/// Cores other than core 0 that have done nothing yet.
fn new_peers<C: Channel>(
    alloc: Global,
    limits: Limits,
    budgets: &[u32],
) -> Result<Vec<Peer<C>>, AllocError>
    ensures seen { IfOk result (λ peers. map (seen_peer C.messages) peers.items ≡ map new_peer budgets.now) }
    ensures kept { IfOk result (λ peers. All (PeerIsKept limits []) peers.items) }
{
    let mut peers = Vec::with_capacity(alloc, budgets.len())?;
    for budget in budgets {
        peers.push(Peer::new(alloc, limits, *budget)?)?;
    }
    Ok(peers)
}

/// The core with this entry.
fn peer_at<C: Channel>(peers: &[Peer<C>], entry: usize) -> Option<&Peer<C>>
    ensures { option_copied result ≡ slice_get peers.now entry }
{
    peers.get(entry)
}

/// A copy of the oldest message of the core with this entry, if there is one.
fn oldest_at<C: Channel>(peers: &[Peer<C>], entry: usize) -> Result<Option<Message>, AllocError>
    requires { entry < length peers.now }
    ensures ok { IfOk result (λ message. option_map (λ peer. first_of (C.messages peer.up)) (slice_get peers.now entry) ≡ Some message) }
    ensures err { OnErr result (option_map (λ peer. C.messages peer.up) (slice_get peers.now entry) ≢ Some []) }
{
    peers[entry].up.first()
}
