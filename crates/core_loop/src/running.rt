//! One core: its links, its jobs, its part in the protocol, and its history, which only proofs read.

ghost use Rattle.std.specs.Prelude.{◌≡◌, ◌<◌, ◌≤◌, ℕ};

use crate::cause::{Cause, Turn};
use crate::context::Context;
use crate::deciding::decision_of;
use crate::noting::{last_begun_with, noted};
use crate::part::{BoxedPart, Part};
use crate::refusal::Halt;
use crate::sending::all_ready;
use crate::turning::next_event_of;
use core_links::Links;
use filter_table::{Limits, Op};
use ghost_log::Log;
use rx_queue::{Intake, Job, Port};
use std::alloc::{AllocError, Global};
use std::collections::VecDeque;
use std::marker::Model;
use table_replica::{Replica, Workspace};
use world_histories::Stamped;

/// A core. Its history is a list that only proofs read, so its memory doesn't grow with what it does.
pub struct Core<L: Links> {
    pub(crate) alloc: Global,
    pub(crate) number: u16,
    pub(crate) cores: u16,
    pub(crate) links: L,
    pub(crate) part: BoxedPart,
    pub(crate) clock: u64,
    pub(crate) requests: VecDeque<Op>,
    // How many requests it was given, no count above 2^64 - 1.
    pub(crate) given: u64,
    pub(crate) intake: Intake,
    pub(crate) history: Log<Stamped>,
    // The core whose request core 0 began last.
    pub(crate) begun_last: u16,
    // What a receipt works with, and writes before it is kept or handed out.
    pub(crate) workspace: Workspace,
    pub(crate) stopped: Option<Cause>,
}

// By hand, so that the proofs of its owners have one call and not a drop of each part.
impl<L: Links> Drop for Core<L> {
    fn drop(self) {
        let Core {
            alloc: _,
            number: _,
            cores: _,
            links,
            part: _,
            clock: _,
            requests: _,
            given: _,
            intake: _,
            history: _,
            begun_last: _,
            workspace: _,
            stopped: _,
        } = self;
        drop_links(links);
    }
}

// Drops links. Not in line, so that their room on the stack isn't there while the part is dropped.
#[inline(never)]
fn drop_links<L: Links>(links: L) {
    drop(links);
}

impl<L: Links> Model for Core<L> {
    ghost use Rattle.std.specs.Prelude.{◌≡◌, ◌<◌, ◌≤◌};
    ghost use Rattle.two_phase.specs.declared.most.TheConstants.{MOST_CORES};
    ghost use Rattle.core_loop.specs.Cores.{CoreState, AreShort};
    ghost use Rattle.core_loop.specs.Keeping.{IsStanding};
    ghost use Rattle.core_loop.specs.InTurn.{last_begun};
    ghost use Rattle.core_loop.specs.Turning.{HasStopped};
    ghost use Rattle.core_loop.specs.Answering.{IsGivenCount};

    ghost Value = { CoreState L };

    ghost view = { λ c. record { number = c.number; cores = c.cores; links = c.links; part = c.part; clock = c.clock; pending = c.requests.items; intake = c.intake; history = c.history.items; stopped = c.stopped } };

    ghost invariant = { λ c. (c.number < c.cores) × (c.cores ≤ MOST_CORES) × IsStanding c.part c.number c.cores c.clock c.history.items (L.view c.links) × AreShort c.number c.requests.items × (c.begun_last ≡ last_begun c.history.items) × HasStopped c.cores c.clock c.part (L.view c.links) c.stopped × IsGivenCount c.given c.history.items c.requests.items };
}

impl<L: Links> Core<L> {
    ghost use Rattle.std.specs.Prelude.{◌≡◌, ◌≢◌, ◌<◌, ◌≤◌, ◌↔◌, ◌++◌, ◌∷◌, ℕ, List, Option, option_to_list, [], length, true, false, Some, None, IfOk, IfSome, IfNone, IsTrue, MatchOption};
    ghost use mathlib.Core.List.{IsPrefix};
    ghost use Rattle.two_phase.specs.declared.most.TheConstants.{MOST_CORES};
    ghost use Rattle.rx_queue.specs.Queue.{jobs_put, jobs_seen, jobs_taken, AreEnds, SamePort, SameIntake};
    ghost use Rattle.rx_queue.specs.declared.job.Job.{Job as GhostJob};
    ghost use Rattle.world_histories.specs.declared.history.Stamped.{Stamped as GhostStamped};
    ghost use Rattle.core_loop.specs.declared.cause.Cause.{Cause as GhostCause};
    ghost use Rattle.core_loop.specs.declared.cause.Turn.TheVariants.{Did, Idle, Stopped, Spent, NoMemory};
    ghost use Rattle.core_loop.specs.Passing.{PassesOver, IsOnceEach};
    ghost use Rattle.core_loop.specs.Cores.{CoreState, Stands, AreShort, SameCore, NothingDone, DidOne, CanReceive, begun};
    ghost use Rattle.core_loop.specs.Beginning.{CanBeginNext, HasNothingUnderWay};
    ghost use Rattle.core_links.specs.Flows.{FlowsOn, IsLooked, HasMoved};
    ghost use Rattle.core_loop.specs.Choosing.{ShowsNothing, NoMessageNow};
    ghost use Rattle.core_loop.specs.Turning.{StopsFirst, HasStopped, IsSpent, LacksMemory, HasWork};
    ghost use Rattle.core_loop.specs.Receipts.{receives};
    ghost use Rattle.core_loop.specs.Answering.{decisions};
    ghost use Rattle.core_links.specs.Waking.{bits_below};
    ghost use Rattle.filter_table.specs.declared.decision.Decision.{Decision as GhostDecision};
    ghost use Rattle.core_loop.specs.Keeping.{replica_of};
    ghost use Rattle.core_loop.specs.Standing.{IsSilent};

    /// A core that has done nothing yet. Nothing was sent or taken over its links, and no job was taken. Requests of a core
    /// other than 0 have programs of at most 4,096 instructions.
    pub fn new(
        alloc: Global,
        links: L,
        limits: Limits,
        budget: u32,
        number: u16,
        cores: u16,
        requests: VecDeque<Op>,
        intake: Intake,
    ) -> Result<Core<L>, AllocError>
        requires number { number < cores }
        requires cores { cores ≤ MOST_CORES }
        requires short { AreShort number requests.items }
        requires silent { (peer : ℕ) → IsSilent (L.view links peer) }
        requires intake { jobs_taken intake ≡ [] }
        ensures place { IfOk result (λ core. (core.number ≡ number) × (core.cores ≡ cores) × ((replica_of core.part).budget ≡ budget)) }
        ensures limits { IfOk result (λ core. (replica_of core.part).shown.limits ≡ limits) }
        ensures parts { IfOk result (λ core. (core.links ≡ links) × (core.intake ≡ intake)) }
        ensures history { IfOk result (λ core. core.history ≡ []) }
        ensures running { IfOk result (λ core. core.stopped ≡ None) }
        ensures requests { IfOk result (λ core. core.pending ≡ requests.items) }
    {
        let part = BoxedPart::new(alloc, limits, budget, number, cores)?;
        let given = requests.len() as u64;
        Ok(Core {
            alloc,
            number,
            cores,
            links,
            part,
            clock: 0,
            requests,
            given,
            intake,
            history: Log::new(),
            begun_last: 0,
            workspace: Workspace::new(alloc),
            stopped: None,
        })
    }

    /// The core's history leads to where it stands. A law: nothing is done.
    pub fn stands(&self)
        ensures { Stands L.view self.now }
    {
        let _ = &self.part;
    }

    /// Why the core has stopped, if it has, by what its links show. A law: nothing is done.
    pub fn has_stopped(&self)
        ensures { HasStopped self.now.cores self.now.clock self.now.part (L.view self.now.links) self.now.stopped }
    {
        let _ = &self.stopped;
    }

    /// Does one event at most, without waiting: it takes the next message of the least peer that has one, where the links that
    /// its answer needs take messages; else it begins the next request; else it receives the front job where `rx` is true. Core 0
    /// begins the request of the next core that has one, going round after the core whose request it began last.
    /// After `Stopped` every turn answers the same. It takes no memory where there is no message, no request and no job that
    /// it can receive. A core other than 0 votes NoMemory in the turn in which memory is refused to an operation that it is
    /// asked about, or to the operation's program: it never answers `NoMemory` to a message.
    // In line, so that what it answers isn't on the stack twice.
    #[inline(always)]
    pub fn turn(&mut self, rx: bool) -> Turn
        ensures core { SameCore L.same self.old self.new }
        ensures requests { begun self.new.history ++ self.new.pending ≡ begun self.old.history ++ self.old.pending }
        ensures did { (s : GhostStamped) (d : Option GhostDecision) → result ≡ Did s d → DidOne L.view self.old self.new s }
        ensures decision { (s : GhostStamped) (d : Option GhostDecision) → result ≡ Did s d → decisions self.new.history ≡ decisions self.old.history ++ option_to_list d }
        ensures leave { (s : GhostStamped) (d : Option GhostDecision) → result ≡ Did s d → rx ≡ false → receives s.done.event ≡ [] }
        ensures other { ((s : GhostStamped) (d : Option GhostDecision) → result ≢ Did s d) → NothingDone L.view self.old self.new }
        ensures stays { (cause : GhostCause) → self.old.stopped ≡ Some cause → (result ≡ Stopped cause) × (self.new ≡ self.old) }
        ensures stopped { (cause : GhostCause) → result ≡ Stopped cause → self.new.stopped ≡ Some cause }
        ensures running { ((cause : GhostCause) → result ≢ Stopped cause) → (self.old.stopped ≡ None) × (self.new.stopped ≡ None) }
        ensures cause { (cause : GhostCause) → self.old.stopped ≡ None → result ≡ Stopped cause → StopsFirst self.old.cores self.old.clock self.old.part (L.view self.new.links) cause }
        ensures spent { result ≡ Spent → IsSpent self.old.cores self.old.clock self.old.part self.old.pending (L.view self.new.links) rx self.new.intake }
        ensures lacks { result ≡ NoMemory → LacksMemory self.old.cores self.old.clock self.old.part self.old.pending (L.view self.new.links) rx self.new.intake }
        ensures no_memory { result ≡ NoMemory → HasWork self.old.cores self.old.part self.old.pending (L.view self.new.links) rx self.new.intake }
        ensures idle_message { result ≡ Idle → NoMessageNow self.new.cores self.new.part (L.view self.new.links) }
        ensures idle { result ≡ Idle → CanBeginNext self.new.cores self.new.part self.new.pending (L.view self.new.links) → ⊥ }
        ensures lines { result ≡ Idle → (p : ℕ) → FlowsOn (L.flow self.old.links p) (L.flow self.new.links p) }
        ensures still { (p : ℕ) → (L.flow self.new.links p).moved ≡ false → IsLooked (L.flow self.old.links p) (L.flow self.new.links p) }
        ensures moved { self.old.stopped ≡ None → (p : ℕ) → (L.flow self.new.links p).moved ≡ true → HasMoved (L.flow self.old.links p) (L.flow self.new.links p) }
        ensures full { result ≡ Idle → (p : ℕ) → (L.view self.new.links p).ready ≡ false → (L.flow self.new.links p).room ≡ 0 }
        ensures dry { result ≡ Idle → ((p : ℕ) → p < self.new.cores → ShowsNothing (L.view self.new.links p)) → (p : ℕ) → p < self.new.cores → (L.flow self.new.links p).known ≡ 0 }
        ensures idle_job { result ≡ Idle → rx ≡ true → (job : GhostJob) → CanReceive self.new job → ⊥ }
    {
        if let Some(cause) = self.stopped {
            return Turn::Stopped(cause);
        }
        let context = Context {
            alloc: self.alloc,
            number: self.number,
            cores: self.cores,
            clock: self.clock,
            begun_last: self.begun_last,
        };
        match next_event_of(
            &mut self.part,
            &mut self.links,
            &mut self.requests,
            &mut self.intake,
            &mut self.workspace,
            context,
            rx,
        ) {
            Ok(None) => Turn::Idle,
            Ok(Some(stamped)) => {
                self.clock = stamped.stamp;
                self.history = noted(&self.history, &stamped);
                self.begun_last = last_begun_with(self.begun_last, &stamped.done.event);
                Turn::Did {
                    decision: decision_of(&self.part, &stamped.done),
                    event: stamped,
                }
            }
            Err(Halt::Spent) => Turn::Spent,
            Err(Halt::NoMemory) => Turn::NoMemory,
            Err(Halt::Stopped(cause)) => {
                self.stopped = Some(cause);
                Turn::Stopped(cause)
            }
        }
    }

    /// The peers that lines went to in the last turn, or came from: a bit for each, the least for core 0. Such a core may now do what it
    /// couldn't, since it has lines to read or room to write; each other core can do no more than before the turn. A turn that answers
    /// `Stopped` once more moves nothing, and this stays as it was.
    pub fn woken(&self) -> u64
        ensures { result ≡ bits_below self.now.cores (λ p. (L.flow self.now.links p).moved) }
    {
        self.links.moved_below(self.cores)
    }

    /// Whether lines went to this peer in the last turn, or came from it, as `woken` says of all.
    pub fn names(&self, peer: u16) -> bool
        ensures { result ≡ (L.flow self.now.links peer).moved }
    {
        self.links.moved(peer)
    }

    /// While a core's request waits at core 0, core 0 begins at most one request of each other core, and one of its own, before it. A
    /// law of core 0's turns, whatever else happens between them: nothing is done.
    pub fn passes_each_once()
        ensures { (core : ℕ) (cores : List ℕ) (old : CoreState L) → PassesOver L.view core cores old → IsOnceEach cores }
    {}

    /// The core's number.
    pub fn number(&self) -> u16
        ensures { result ≡ self.now.number }
    {
        self.number
    }

    /// Its table.
    pub fn replica(&self) -> &Replica
        ensures { result.now ≡ replica_of self.now.part }
    {
        self.part.replica()
    }

    /// Its version of the table.
    pub fn version(&self) -> u64
        ensures { result ≡ (replica_of self.now.part).shown.version }
    {
        self.part.replica().version()
    }

    /// The number of requests that the core has not begun.
    pub fn pending(&self) -> usize
        ensures { result ≡ length (self.now.pending) }
    {
        self.requests.len()
    }

    /// Whether the core has nothing under way: core 0 no request, and all its links take messages; another core no request
    /// that core 0 has not answered.
    pub fn idle(&self) -> bool
        ensures { IsTrue result ↔ HasNothingUnderWay self.now.cores self.now.part (L.view self.now.links) }
    {
        match &*self.part.inner {
            Part::Core0(core) => core.coordinator.idle() && all_ready(&self.links, self.cores - 1),
            Part::OtherCore(core) => !core.participant.outstanding(),
        }
    }

    /// Looks whether a job is there, which `seen` then shows. These two are the front of the core's queue in two steps.
    pub fn look(&mut self)
        ensures core { self.new ≡ record self.old { intake = self.new.intake } }
        ensures queue { SameIntake self.old.intake self.new.intake }
        ensures taken { jobs_taken self.new.intake ≡ jobs_taken self.old.intake }
        ensures seen { IsPrefix (jobs_seen self.old.intake) (jobs_seen self.new.intake) }
    {
        self.intake.look();
    }

    /// The first job that was seen and not received. It stays in the queue.
    pub fn seen(&self) -> Option<&Job>
        ensures { MatchOption result (jobs_seen self.now.intake ≡ []) (λ job. IsPrefix (job.now ∷ []) (jobs_seen self.now.intake)) }
    {
        self.intake.seen()
    }

    /// The next job that was put for this core and not received.
    pub fn unread(&mut self, port: &mut Port) -> Option<Job>
        requires { AreEnds port.old self.old.intake }
        ensures core { self.new ≡ record self.old { intake = self.new.intake } }
        ensures intake { SameIntake self.old.intake self.new.intake }
        ensures port { SamePort port.old port.new × (jobs_put port.new ≡ jobs_put port.old) }
        ensures front { IsPrefix (jobs_taken self.new.intake) (jobs_put port.new) }
        ensures some { IfSome result (λ job. jobs_taken self.new.intake ≡ jobs_taken self.old.intake ++ job ∷ []) }
        ensures none { IfNone result ((jobs_taken self.new.intake ≡ jobs_taken self.old.intake) × (jobs_taken self.new.intake ≡ jobs_put port.new)) }
    {
        self.intake.rest(port)
    }
}
