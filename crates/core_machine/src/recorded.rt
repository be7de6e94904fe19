//! A core with the list of what it did.

use core_loop::{Busy, Cause, Core, Links, ListLinks, RingLinks, Stamped, Turn};
use rx_queue::{Job, Port};
use std::alloc::Global;
use std::marker::Model;

/// A core whose events are kept, in order.
pub struct Recorded<L: Links> {
    core: Core<L>,
    events: Vec<Stamped>,
}

// By hand, so that the proofs of its owners have one call and not a drop of each part.
impl<L: Links> Drop for Recorded<L> {
    fn drop(self) {
        let Recorded { core: _, events: _ } = self;
    }
}

impl<L: Links> Model for Recorded<L> {
    ghost use Rattle.std.specs.Prelude.{◌≡◌};
    ghost use Rattle.core_loop.specs.Cores.{CoreState};

    ghost Value = { CoreState L };

    ghost view = { λ r. r.core };

    ghost invariant = { λ r. r.events.items ≡ r.core.history };
}

/// What a turn of a recorded core did.
#[derive(Clone, Copy, PartialEq, Eq, Debug)]
pub enum RecordedTurn {
    /// An event, which is now the last of the list.
    Did,
    Idle,
    Stopped(Cause),
    /// The next number, or the stamp of the event, would be too great.
    Spent,
    /// Memory was refused, and nothing was done.
    NoMemory,
    /// Memory was refused for one event more in the list, and no turn was taken.
    NoRoom,
}

impl<L: Links> Recorded<L> {
    ghost use Rattle.std.specs.Prelude.{◌≡◌, ◌≢◌, ◌<◌, ◌++◌, ◌∷◌, ℕ, [], true, false, Some, None, IfSome, IfNone};
    ghost use mathlib.Core.List.{IsPrefix};
    ghost use Rattle.rx_queue.specs.Queue.{jobs_put, jobs_seen, jobs_taken, AreEnds, SamePort, SameIntake};
    ghost use Rattle.rx_queue.specs.declared.job.Job.{Job as GhostJob};
    ghost use Rattle.world_histories.specs.declared.history.Stamped.{Stamped as GhostStamped};
    ghost use Rattle.core_loop.specs.declared.cause.Cause.{Cause as GhostCause};
    ghost use Rattle.core_loop.specs.Cores.{SameCore, NothingDone, DidOne, CanReceive, begun};
    ghost use Rattle.core_loop.specs.Receipts.{receives};
    ghost use Rattle.core_loop.specs.Beginning.{CanBeginNext};
    ghost use Rattle.core_links.specs.Flows.{FlowsOn};
    ghost use Rattle.core_loop.specs.Choosing.{ShowsNothing, NoMessageNow};
    ghost use Rattle.core_loop.specs.Turning.{StopsFirst, IsSpent, LacksMemory, HasWork};
    ghost use Rattle.core_machine.specs.declared.recorded.RecordedTurn.TheVariants.{Did, Idle, Stopped, Spent, NoMemory, NoRoom};

    /// A core that has done nothing yet, with an empty list.
    pub fn new(alloc: Global, core: Core<L>) -> Recorded<L>
        requires { core.history ≡ [] }
        ensures { result ≡ core }
    {
        Recorded {
            core,
            events: Vec::new(alloc),
        }
    }

    /// The core.
    pub fn core(&self) -> &Core<L>
        ensures { result.now ≡ self.now }
    {
        &self.core
    }

    /// What the core did, in order.
    pub fn events(&self) -> &[Stamped]
        ensures { result.now ≡ self.now.history }
    {
        self.events.as_slice()
    }

    /// The core, and what it did, in order.
    pub fn into_parts(self) -> (Core<L>, Vec<Stamped>)
        ensures core { result.0 ≡ self }
        ensures events { result.1.items ≡ self.history }
    {
        let Recorded { core, events } = self;
        (core, events)
    }

    /// Takes a turn, as `Core::turn` does, and keeps its event. Room for the event is taken first.
    pub fn turn(&mut self, rx: bool) -> RecordedTurn
        ensures core { SameCore L.same self.old self.new }
        ensures requests { begun self.new.history ++ self.new.pending ≡ begun self.old.history ++ self.old.pending }
        ensures did { result ≡ Did → (s : GhostStamped) × DidOne L.view self.old self.new s × (rx ≡ false → receives s.done.event ≡ []) }
        ensures other { result ≢ Did → NothingDone L.view self.old self.new }
        ensures no_room { result ≡ NoRoom → self.new ≡ self.old }
        ensures stays { (cause : GhostCause) → self.old.stopped ≡ Some cause → result ≢ NoRoom → (result ≡ Stopped cause) × (self.new ≡ self.old) }
        ensures stopped { (cause : GhostCause) → result ≡ Stopped cause → self.new.stopped ≡ Some cause }
        ensures running { ((cause : GhostCause) → result ≢ Stopped cause) → result ≢ NoRoom → (self.old.stopped ≡ None) × (self.new.stopped ≡ None) }
        ensures cause { (cause : GhostCause) → self.old.stopped ≡ None → result ≡ Stopped cause → StopsFirst self.old.cores self.old.clock self.old.part (L.view self.new.links) cause }
        ensures spent { result ≡ Spent → IsSpent self.old.cores self.old.clock self.old.part self.old.pending (L.view self.new.links) rx self.new.intake }
        ensures lacks { result ≡ NoMemory → LacksMemory self.old.cores self.old.clock self.old.part self.old.pending (L.view self.new.links) rx self.new.intake }
        ensures no_memory { result ≡ NoMemory → HasWork self.old.cores self.old.part self.old.pending (L.view self.new.links) rx self.new.intake }
        ensures idle_message { result ≡ Idle → NoMessageNow self.new.cores self.new.part (L.view self.new.links) }
        ensures idle { result ≡ Idle → CanBeginNext self.new.cores self.new.part self.new.pending (L.view self.new.links) → ⊥ }
        ensures lines { result ≡ Idle → (p : ℕ) → FlowsOn (L.flow self.old.links p) (L.flow self.new.links p) }
        ensures full { result ≡ Idle → (p : ℕ) → (L.view self.new.links p).ready ≡ false → (L.flow self.new.links p).room ≡ 0 }
        ensures dry { result ≡ Idle → ((p : ℕ) → p < self.new.cores → ShowsNothing (L.view self.new.links p)) → (p : ℕ) → p < self.new.cores → (L.flow self.new.links p).known ≡ 0 }
        ensures idle_job { result ≡ Idle → rx ≡ true → (job : GhostJob) → CanReceive self.new job → ⊥ }
    {
        if self.events.reserve(1).is_err() {
            return RecordedTurn::NoRoom;
        }
        match self.core.turn(rx) {
            Turn::Did { event, decision: _ } => {
                self.events.push_reserved(event);
                RecordedTurn::Did
            }
            Turn::Idle => RecordedTurn::Idle,
            Turn::Stopped(cause) => RecordedTurn::Stopped(cause),
            Turn::Spent => RecordedTurn::Spent,
            Turn::NoMemory => RecordedTurn::NoMemory,
        }
    }

    /// Looks whether a job is there, as `Core::look` does.
    pub fn look(&mut self)
        ensures core { self.new ≡ record self.old { intake = self.new.intake } }
        ensures queue { SameIntake self.old.intake self.new.intake }
        ensures taken { jobs_taken self.new.intake ≡ jobs_taken self.old.intake }
        ensures seen { IsPrefix (jobs_seen self.old.intake) (jobs_seen self.new.intake) }
    {
        self.core.look();
    }

    /// The next job that was put for this core and not received, as of `Core::unread`.
    pub fn unread(&mut self, port: &mut Port) -> Option<Job>
        requires { AreEnds port.old self.old.intake }
        ensures core { self.new ≡ record self.old { intake = self.new.intake } }
        ensures intake { SameIntake self.old.intake self.new.intake }
        ensures port { SamePort port.old port.new × (jobs_put port.new ≡ jobs_put port.old) }
        ensures front { IsPrefix (jobs_taken self.new.intake) (jobs_put port.new) }
        ensures some { IfSome result (λ job. jobs_taken self.new.intake ≡ jobs_taken self.old.intake ++ job ∷ []) }
        ensures none { IfNone result ((jobs_taken self.new.intake ≡ jobs_taken self.old.intake) × (jobs_taken self.new.intake ≡ jobs_put port.new)) }
    {
        self.core.unread(port)
    }
}

impl Recorded<ListLinks> {
    ghost use Rattle.std.specs.Prelude.{◌≡◌, ◌≢◌, ◌≤◌, [], None, IfErr, OnOk, IsTrue, IsFalse, length, vec_len};
    ghost use Rattle.core_links.specs.Views.{AtPeer, last_in};
    ghost use Rattle.core_links.specs.ListSlots.{list_view, messages_given, messages_collected, messages_uncollected, give_capacity, SameLists, GivesMessage, CollectsMessage};

    /// Gives a message as a peer's, as `Core::give` does.
    pub fn give(&mut self, peer: u16, message: Vec<u8>) -> Result<(), Busy>
        requires length { (1 ≤ vec_len message) × (vec_len message ≤ 32832) }
        ensures core { self.new ≡ record self.old { links = self.new.links } }
        ensures ok { OnOk result (GivesMessage self.old.links self.new.links peer message.items) }
        ensures busy { IfErr result (λ back. (back.0 ≡ message) × (length (messages_given self.old.links peer) ≡ give_capacity self.old.links peer)) }
        ensures stays { IfErr result (λ back. AtPeer SameLists list_view peer (λ v w. w ≡ v) self.old.links self.new.links) }
    {
        self.core.give(peer, message)
    }

    /// Collects the oldest message sent to a peer and not yet collected, as `Core::mark_collected` does.
    pub fn mark_collected(&mut self, peer: u16) -> bool
        ensures core { self.new ≡ record self.old { links = self.new.links } }
        ensures some { IsTrue result → CollectsMessage self.old.links self.new.links peer (last_in (messages_collected self.new.links peer)) × (messages_uncollected self.old.links peer ≢ []) }
        ensures none { IsFalse result → CollectsMessage self.old.links self.new.links peer None × (messages_uncollected self.old.links peer ≡ []) }
    {
        self.core.mark_collected(peer)
    }
}

impl Recorded<RingLinks> {
    ghost use Rattle.std.specs.Prelude.{◌≡◌, ℕ};
    ghost use mathlib.Core.List.{IsPrefix};
    ghost use Rattle.core_links.specs.Views.{IsSameView};
    ghost use Rattle.core_links.specs.Flows.{IsExactAt, LooksAt};
    ghost use Rattle.core_links.specs.RingSlots.{ring_view, own_of, SameLinks, AreJoinedLinks};

    /// Shows that what each core took from the other begins what the other sent to it, as `Core::beside` does. Nothing
    /// changes. Takes no memory.
    pub fn beside(&mut self, other: &mut Recorded<RingLinks>)
        requires { AreJoinedLinks self.old.links other.old.links }
        ensures core { self.new ≡ record self.old { links = self.new.links } }
        ensures other { other.new ≡ record other.old { links = other.new.links } }
        ensures links { SameLinks self.old.links self.new.links × SameLinks other.old.links other.new.links }
        ensures here { (p : ℕ) → IsSameView (ring_view self.old.links p) (ring_view self.new.links p) }
        ensures there { (p : ℕ) → IsSameView (ring_view other.old.links p) (ring_view other.new.links p) }
        ensures took { IsPrefix (ring_view self.new.links (own_of other.new.links)).taken (ring_view other.new.links (own_of self.new.links)).sent }
        ensures gave { IsPrefix (ring_view other.new.links (own_of self.new.links)).taken (ring_view self.new.links (own_of other.new.links)).sent }
        ensures exact { IsExactAt self.new.links other.new.links × IsExactAt other.new.links self.new.links }
        ensures still { LooksAt (own_of other.old.links) self.old.links self.new.links × LooksAt (own_of self.old.links) other.old.links other.new.links }
    {
        self.core.beside(&mut other.core);
    }
}
