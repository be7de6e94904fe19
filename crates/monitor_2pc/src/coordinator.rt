//! Core 0 in the protocol.

ghost use Rattle.std.specs.Prelude.{◌≡◌, ◌+◌, ◌-◌, ◌<◌, ◌≤◌, ◌↔◌, ℕ, suc, true, false, Option, None, Some, IsSome, IsTrue, IsFalse, IfOk, IfErr, OnOk, OnErr, IfSome, OnSome, IfNone, slice_get, slice_set};
ghost use Rattle.std.proofs.Common.{replicate};
ghost use Rattle.filter_table.specs.declared.operation.Op.{Op as GhostOp};
ghost use Rattle.filter_table.specs.Tables.{TableState as GhostState, after, made};
ghost use Rattle.two_phase.specs.declared.step.Step.{Step as GhostStep};
ghost use Rattle.filter_table.specs.declared.decision.Decision.TheVariants.{Committed, Refused};
ghost use Rattle.two_phase.specs.declared.step.Say.TheVariants.{Abort};
ghost use Rattle.monitor_2pc.specs.Places.{after_commit};
ghost use Rattle.two_phase.specs.Coordinators.{CoordinatorState, CoordinatorPlace, Requests, Idle, Acking, IsVoting, coordinator_place, no_requests, StagedByPhase, CanStart, Starts, StartsFor, CanSubmit, with_waiting, AwaitsVote, Hears, with_decided, AwaitsAck, HearsAck, reply_of, veto_of, veto_by, step};
ghost use Rattle.monitor_2pc.specs.Awaiting.{Awaits};
ghost use Rattle.monitor_2pc.specs.Starting.{CannotStart, CannotStartFor, WasStaged, asked_by};

use crate::tally::{AckList, Tally, VoteList};
use crate::waiting::WaitingList;
use filter_table::{Decision, Op, StageFault, Veto, Vote};
use std::alloc::{AllocError, Global};
use std::marker::Model;
use table_replica::Replica;
use two_phase::{MOST_CORES, Say, StartFault, Step, Stranger};

/// What core 0 waits for.
#[derive(Clone, Copy, PartialEq, Eq)]
enum Wait {
    Nothing,
    Votes,
    Acks,
}

/// Core 0 in the protocol: its last number, the votes or acknowledgements so far, the request that each other core has waiting,
/// the core whose request is under way, and what was decided of it.
pub struct Coordinator {
    last: u64,
    wait: Wait,
    votes: VoteList,
    acks: AckList,
    waiting: WaitingList,
    asker: Option<u16>,
    decided: Option<Decision>,
}

// By hand, so that the proofs of its owners have one call and not a drop of each part.
impl Drop for Coordinator {
    fn drop(self) {
        let Coordinator {
            last: _,
            wait: _,
            votes: _,
            acks: _,
            waiting: _,
            asker: _,
            decided: _,
        } = self;
    }
}

impl Model for Coordinator {
    ghost use Rattle.std.specs.Prelude.{◌≡◌, length};
    ghost use Rattle.two_phase.specs.Coordinators.{CoordinatorState};
    ghost use Rattle.monitor_2pc.specs.Waiting.{phase_of, KeepsDecided};

    ghost Value = { CoordinatorState };

    ghost view = { λ c. record { others = length c.waiting; last = c.last; phase = phase_of c.wait c.votes c.acks; requests = record { waiting = c.waiting; asker = c.asker; decided = c.decided } } };

    ghost invariant = { λ c. (length c.votes ≡ length c.waiting) × (length c.acks ≡ length c.waiting) × KeepsDecided c.wait c.asker c.decided };
}

impl Coordinator {
    /// Idle after this number, with nothing waiting, among so many cores, core 0 included. The one error is that there is no
    /// memory.
    pub fn new(alloc: Global, cores: u16, last: u64) -> Result<Coordinator, AllocError>
        requires least { 1 ≤ cores }
        requires most { cores ≤ MOST_CORES }
        ensures { IfOk result (λ own. own ≡ record { others = cores - 1; last = last; phase = Idle; requests = no_requests (cores - 1) }) }
    {
        let others = usize::from(cores) - 1;
        Ok(Coordinator {
            last,
            wait: Wait::Nothing,
            votes: VoteList::new(alloc, others)?,
            acks: AckList::new(alloc, others)?,
            waiting: WaitingList::new(alloc, others)?,
            asker: None,
            decided: None,
        })
    }

    /// Whether no request is under way.
    pub fn idle(&self) -> bool
        ensures { IsTrue result ↔ (self.now.phase ≡ Idle) }
    {
        self.wait == Wait::Nothing
    }

    /// Whether the request under way waits for votes.
    pub fn voting(&self) -> bool
        ensures { IsTrue result ↔ IsVoting self.now.phase }
    {
        self.wait == Wait::Votes
    }

    /// Whether it waits for this core's vote or acknowledgement.
    pub fn awaits(&self, from: u16) -> bool
        ensures { IsTrue result ↔ Awaits self.now from }
    {
        let Some(entry) = usize::from(from).checked_sub(1) else {
            return false;
        };
        match self.wait {
            Wait::Nothing => false,
            Wait::Votes => self.votes.is_missing(entry),
            Wait::Acks => self.acks.is_missing(entry),
        }
    }

    /// The last number.
    pub fn last(&self) -> u64
        ensures { result ≡ self.now.last }
    {
        self.last
    }

    /// How many other cores there are.
    pub fn others(&self) -> usize
        ensures { result ≡ self.now.others }
    {
        self.waiting.others()
    }

    /// The core whose request is under way, where that is not core 0.
    pub fn asker(&self) -> Option<u16>
        ensures { result ≡ self.now.requests.asker }
    {
        self.asker
    }

    /// The request that the core has waiting.
    pub fn waiting(&self, from: u16) -> Option<&Op>
        ensures inside { OnSome result (from ≤ self.now.others) }
        ensures some { IfSome result (λ op. (entry : ℕ) × (from ≡ suc entry) × (slice_get self.now.requests.waiting entry ≡ Some (Some op.now))) }
        ensures none { IfNone result ((entry : ℕ) (op : GhostOp) → from ≡ suc entry → slice_get self.now.requests.waiting entry ≡ Some (Some op) → ⊥) }
    {
        let entry = usize::from(from).checked_sub(1)?;
        self.waiting.get(entry)
    }

    /// Whether a core has a request waiting.
    pub fn has_waiting(&self) -> bool
        ensures { IsTrue result ↔ (entry : ℕ) × (op : GhostOp) × (slice_get self.now.requests.waiting entry ≡ Some (Some op)) }
    {
        self.waiting.has_some()
    }

    /// Keeps a request of another core as waiting. A stranger changes nothing.
    pub fn submit(&mut self, from: u16, op: Op) -> Result<(), Stranger>
        ensures kept { OnOk result ((entry : ℕ) × (from ≡ suc entry) × CanSubmit self.old.requests entry × (self.new ≡ record self.old { requests = with_waiting self.old.requests entry op })) }
        ensures stranger { OnErr result ((entry : ℕ) → from ≡ suc entry → CanSubmit self.old.requests entry → ⊥) }
        ensures same { OnErr result (self.new ≡ self.old) }
    {
        if from == 0 || self.asker == Some(from) {
            return Err(Stranger);
        }
        if !self.waiting.keep(usize::from(from) - 1, op) {
            return Err(Stranger);
        }
        Ok(())
    }

    /// Starts a request. A fault changes nothing.
    pub fn start(
        &mut self,
        alloc: Global,
        replica: &mut Replica,
        op: &Op,
    ) -> Result<Step, StartFault>
        requires { StagedByPhase self.old.phase replica.old.staged }
        ensures can { OnOk result (CanStart (coordinator_place self.old replica.old.staged)) }
        ensures starts { IfOk result (λ told. (committed : Option GhostOp)
            × Starts self.old.others replica.old.shown replica.old.budget (coordinator_place self.old replica.old.staged) op.now (coordinator_place self.new replica.new.staged) committed told
            × (replica.new.shown ≡ after_commit replica.old.shown committed)) }
        ensures same_requests { self.new.requests ≡ self.old.requests }
        ensures fault { IfErr result (CannotStart self.old) }
        ensures same { OnErr result (self.new ≡ self.old) }
        ensures same_replica { OnErr result (replica.new ≡ replica.old) }
        ensures others { self.new.others ≡ self.old.others }
        ensures budget { replica.new.budget ≡ replica.old.budget }
        ensures staged { StagedByPhase self.new.phase replica.new.staged }
    {
        self.ready()?;
        let refusal = replica.stage(alloc, op).err();
        Ok(self.begin(replica, refusal))
    }

    /// Starts the request that the core has waiting; a decision at once goes to it as Reply. A fault changes nothing.
    pub fn start_for(
        &mut self,
        alloc: Global,
        replica: &mut Replica,
        from: u16,
    ) -> Result<Step, StartFault>
        requires { StagedByPhase self.old.phase replica.old.staged }
        ensures can { OnOk result (CanStart (coordinator_place self.old replica.old.staged)) }
        ensures starts { IfOk result (λ told. (entry : ℕ) × (committed : Option GhostOp) × (from ≡ suc entry)
            × StartsFor self.old.others replica.old.shown replica.old.budget (coordinator_place self.old replica.old.staged) self.old.requests entry (coordinator_place self.new replica.new.staged) self.new.requests committed told
            × (replica.new.shown ≡ after_commit replica.old.shown committed)) }
        ensures fault { IfErr result (CannotStartFor self.old from) }
        ensures same { OnErr result (self.new ≡ self.old) }
        ensures same_replica { OnErr result (replica.new ≡ replica.old) }
        ensures others { self.new.others ≡ self.old.others }
        ensures budget { replica.new.budget ≡ replica.old.budget }
        ensures staged { StagedByPhase self.new.phase replica.new.staged }
    {
        self.ready()?;
        let Some(op) = self.waiting(from) else {
            return Err(StartFault::NoneWaiting);
        };
        let refusal = replica.stage(alloc, op).err();
        Ok(self.begin_for(replica, from, refusal))
    }

    /// Whether a request can be started.
    fn ready(&self) -> Result<(), StartFault>
        ensures idle { OnOk result (self.now.phase ≡ Idle) }
        ensures unspent { OnOk result (self.now.last < 18446744073709551615) }
        ensures fault { IfErr result (CannotStart self.now) }
    {
        if self.wait != Wait::Nothing {
            return Err(StartFault::NotIdle);
        }
        if self.last == u64::MAX {
            return Err(StartFault::Spent);
        }
        Ok(())
    }

    /// Begins a request that the replica was asked to stage: `refusal` is why it did not, if it did not. The other cores, if
    /// there are any, are to be asked. Takes no memory.
    pub fn begin(&mut self, replica: &mut Replica, refusal: Option<StageFault>) -> Step
        requires can { CanStart (coordinator_place self.old None) }
        requires tried { (op : GhostOp) × WasStaged replica.old op refusal }
        ensures starts { (op : GhostOp) → WasStaged replica.old op refusal → (committed : Option GhostOp)
            × Starts self.old.others replica.old.shown replica.old.budget (coordinator_place self.old None) op (coordinator_place self.new replica.new.staged) committed result
            × (replica.new.shown ≡ after_commit replica.old.shown committed) }
        ensures asks { result.say ≡ asked_by refusal self.old.others }
        ensures refuses { IfSome refusal (λ fault. result.decided ≡ Some (Refused 0 (veto_of fault))) }
        ensures same_requests { self.new.requests ≡ self.old.requests }
        ensures others { self.new.others ≡ self.old.others }
        ensures budget { replica.new.budget ≡ replica.old.budget }
        ensures staged { StagedByPhase self.new.phase replica.new.staged }
    {
        if let Some(fault) = refusal {
            return refused_step(self.last, fault);
        }
        self.last += 1;
        if self.waiting.others() == 0 {
            return committed_step(self.last, None, replica);
        }
        self.votes.clear();
        self.wait = Wait::Votes;
        Step {
            txn: self.last,
            say: Some(Say::Prepare),
            decided: None,
            reply: None,
        }
    }

    /// Begins the request that the core has waiting, which the replica was asked to stage; a decision at once goes to the core
    /// as Reply. Takes no memory.
    pub fn begin_for(
        &mut self,
        replica: &mut Replica,
        from: u16,
        refusal: Option<StageFault>,
    ) -> Step
        requires can { CanStart (coordinator_place self.old None) }
        requires waits { (entry : ℕ) × (op : GhostOp) × (from ≡ suc entry) × (slice_get self.old.requests.waiting entry ≡ Some (Some op)) × WasStaged replica.old op refusal }
        ensures starts { (entry : ℕ) × (committed : Option GhostOp) × (from ≡ suc entry)
            × StartsFor self.old.others replica.old.shown replica.old.budget (coordinator_place self.old None) self.old.requests entry (coordinator_place self.new replica.new.staged) self.new.requests committed result
            × (replica.new.shown ≡ after_commit replica.old.shown committed) }
        ensures asks { result.say ≡ asked_by refusal self.old.others }
        ensures refuses { IfSome refusal (λ fault. result.decided ≡ Some (Refused 0 (veto_of fault))) }
        ensures others { self.new.others ≡ self.old.others }
        ensures budget { replica.new.budget ≡ replica.old.budget }
        ensures staged { StagedByPhase self.new.phase replica.new.staged }
    {
        let entry = usize::from(from) - 1;
        let Some(_op) = self.waiting.take_out(entry) else {
            unreachable!()
        };
        let mut begun = self.begin(replica, refusal);
        match begun.decided {
            Some(decision) => begun.reply = Some((from, decision)),
            None => self.asker = Some(from),
        }
        begun
    }

    /// Takes a vote. With the last one the operation is decided. A stranger changes nothing. Takes no memory.
    pub fn hear_vote(
        &mut self,
        replica: &mut Replica,
        from: u16,
        txn: u64,
        vote: Vote,
    ) -> Result<Step, Stranger>
        requires { StagedByPhase self.old.phase replica.old.staged }
        ensures heard { IfOk result (λ told. (entry : ℕ) × (committed : Option GhostOp) × (from ≡ suc entry)
            × Hears replica.old.shown (coordinator_place self.old replica.old.staged) entry txn vote (coordinator_place self.new replica.new.staged) committed told
            × (replica.new.shown ≡ after_commit replica.old.shown committed)) }
        ensures requests { IfOk result (λ told. self.new.requests ≡ with_decided self.old.requests told.decided) }
        ensures stranger { OnErr result (AwaitsVote self.old from txn → ⊥) }
        ensures same { OnErr result (self.new ≡ self.old) }
        ensures same_replica { OnErr result (replica.new ≡ replica.old) }
        ensures others { self.new.others ≡ self.old.others }
        ensures budget { replica.new.budget ≡ replica.old.budget }
        ensures staged { StagedByPhase self.new.phase replica.new.staged }
    {
        if self.wait != Wait::Votes || txn != self.last || from == 0 {
            return Err(Stranger);
        }
        match self.votes.cast(usize::from(from) - 1, vote) {
            None => Err(Stranger),
            Some(Tally::Open) => Ok(Step {
                txn,
                say: None,
                decided: None,
                reply: None,
            }),
            Some(Tally::AllYes) => {
                let told = committed_step(txn, Some(Say::Commit), replica);
                self.decide(told.decided);
                Ok(told)
            }
            Some(Tally::Against(core, against)) => {
                let told = aborted_step(txn, core, against, replica);
                self.decide(told.decided);
                Ok(told)
            }
        }
    }

    /// What core 0 says when it takes this vote, one that it waits for: nothing where another is missing. Nothing changes.
    pub fn verdict_after(&self, from: u16, vote: Vote) -> Option<Say>
        ensures { (s : GhostState) (staged : Option GhostOp) (entry txn : ℕ) (place : CoordinatorPlace) (committed : Option GhostOp) (told : GhostStep)
            → from ≡ suc entry → Hears s (coordinator_place self.now staged) entry txn vote place committed told → told.say ≡ result }
    {
        if from == 0 {
            return None;
        }
        self.votes.verdict_with(usize::from(from) - 1, vote)
    }

    /// The decision that core 0 sends, and to which core, when it takes this acknowledgement, one that it waits for: none where
    /// another is missing, or where no core asked. Nothing changes.
    pub fn reply_after(&self, from: u16) -> Option<(u16, Decision)>
        ensures asker { IfSome result (λ reply. self.now.requests.asker ≡ Some reply.0) }
        ensures decided { IfSome result (λ reply. self.now.requests.decided ≡ Some reply.1) }
        ensures told { (entry txn : ℕ) (place : CoordinatorPlace) (requests : Requests) (told : GhostStep)
            → from ≡ suc entry → HearsAck (coordinator_place self.now None) self.now.requests entry txn place requests told → told.reply ≡ result }
    {
        if from == 0 || !self.acks.is_last(usize::from(from) - 1) {
            return None;
        }
        reply_of(self.asker, self.decided)
    }

    /// Waits until every other core has acknowledged the decision.
    fn decide(&mut self, decided: Option<Decision>)
        ensures { self.new ≡ record self.old { phase = Acking (replicate self.old.others false); requests = with_decided self.old.requests decided } }
    {
        self.acks.unmark();
        self.wait = Wait::Acks;
        self.decided = decided;
    }

    /// Takes an acknowledgement; the last one sends the decision to the core that asked. A stranger changes nothing. Takes no
    /// memory.
    pub fn hear_ack(&mut self, from: u16, txn: u64) -> Result<Step, Stranger>
        ensures heard { IfOk result (λ told. (entry : ℕ) × (from ≡ suc entry)
            × HearsAck (coordinator_place self.old None) self.old.requests entry txn (coordinator_place self.new None) self.new.requests told) }
        ensures others { self.new.others ≡ self.old.others }
        ensures staged { (staged : Option GhostOp) → StagedByPhase self.old.phase staged → StagedByPhase self.new.phase staged }
        ensures stranger { OnErr result (AwaitsAck (coordinator_place self.old None) from txn → ⊥) }
        ensures same { OnErr result (self.new ≡ self.old) }
    {
        if self.wait != Wait::Acks || txn != self.last || from == 0 {
            return Err(Stranger);
        }
        match self.acks.mark(usize::from(from) - 1) {
            Some(true) => {
                self.wait = Wait::Nothing;
                Ok(Step {
                    txn,
                    say: None,
                    decided: None,
                    reply: reply_of(self.asker.take(), self.decided.take()),
                })
            }
            Some(false) => Ok(Step {
                txn,
                say: None,
                decided: None,
                reply: None,
            }),
            None => Err(Stranger),
        }
    }
}

/// The decision for the core that asked.
fn reply_of(asker: Option<u16>, decided: Option<Decision>) -> Option<(u16, Decision)>
    ensures { result ≡ reply_of asker decided }
{
    match (asker, decided) {
        (Some(core), Some(decision)) => Some((core, decision)),
        _ => None,
    }
}

/// Why core 0 refuses what it can't stage.
pub fn veto_of(fault: StageFault) -> Veto
    ensures { result ≡ veto_of fault }
{
    match fault {
        StageFault::Rule(fault) => Veto::Rule(fault),
        StageFault::Budget => Veto::Budget,
        StageFault::AlreadyStaged | StageFault::NoMemory => Veto::NoMemory,
    }
}

/// Why a core refuses that voted so.
fn veto_by(vote: Vote) -> Veto
    ensures { result ≡ veto_by vote }
{
    match vote {
        Vote::Budget => Veto::Budget,
        Vote::Yes | Vote::NoMemory => Veto::NoMemory,
    }
}

/// Commits what is staged, and tells so.
fn committed_step(txn: u64, say: Option<Say>, replica: &mut Replica) -> Step
    requires { IsSome replica.old.staged }
    ensures { (op : GhostOp) × (replica.old.staged ≡ Some op) × (result ≡ step txn say (Some (Committed (replica.old.shown.version + 1) (made replica.old.shown op))))
        × (replica.new ≡ record { budget = replica.old.budget; shown = after replica.old.shown op; staged = None }) }
{
    let decided = match replica.commit() {
        Ok(made) => Some(Decision::Committed {
            version: replica.version(),
            made,
        }),
        Err(_) => None,
    };
    Step {
        txn,
        say,
        decided,
        reply: None,
    }
}

/// Refuses what could not be staged, and tells so.
fn refused_step(txn: u64, fault: StageFault) -> Step
    ensures { result ≡ step txn None (Some (Refused 0 (veto_of fault))) }
{
    Step {
        txn,
        say: None,
        decided: Some(Decision::Refused {
            core: 0,
            why: veto_of(fault),
        }),
        reply: None,
    }
}

/// Gives up what is staged, and tells so.
fn aborted_step(txn: u64, core: u16, against: Vote, replica: &mut Replica) -> Step
    ensures told { result ≡ step txn (Some Abort) (Some (Refused core (veto_by against))) }
    ensures replica { replica.new ≡ record replica.old { staged = None } }
{
    let _ = replica.abort();
    Step {
        txn,
        say: Some(Say::Abort),
        decided: Some(Decision::Refused {
            core,
            why: veto_by(against),
        }),
        reply: None,
    }
}
