//! A core other than core 0 in the protocol.

ghost use Rattle.std.specs.Prelude.{◌≡◌, ◌+◌, ◌↔◌, Bool, IsTrue, IsSome, true, false, None, Some, IfErr, IfOk, OnOk, OnErr};
ghost use Rattle.filter_table.specs.Tables.{Allowed};
ghost use Rattle.filter_table.specs.Loading.{load_op};
ghost use Rattle.filter_table.specs.declared.operation.StageFault.TheVariants.{Rule};
ghost use Rattle.filter_table.specs.declared.decision.Vote.TheVariants.{Yes};
ghost use Rattle.filter_table.specs.declared.operation.OpFault.{OpFault as GhostFault};
ghost use Rattle.monitor_messages.specs.declared.message.Message.TheVariants.{Prepare, Commit, Abort, Submit};
ghost use Rattle.two_phase.specs.Participants.{ParticipantState, Casts, staged_by, place_of, StagedByVote, Answers, commits, Fits};
ghost use Rattle.monitor_2pc.specs.Places.{after_commit};

use filter_table::{Decision, Load, Op, StageFault, Vote};
use monitor_messages::Message;
use std::alloc::Global;
use std::marker::Model;
use table_replica::{Code, Replica};
use two_phase::Stranger;

/// A core other than core 0 in the protocol: its last number, its vote while it awaits the outcome, and whether it has a
/// request outstanding.
pub struct Participant {
    last: u64,
    voted: Option<Vote>,
    outstanding: bool,
}

// By hand, so that the proofs of its owners have one call and not a drop of each part.
impl Drop for Participant {
    fn drop(self) {
        let Participant {
            last: _,
            voted: _,
            outstanding: _,
        } = self;
    }
}

impl Model for Participant {
    ghost Value = { ParticipantState };

    ghost view = { λ p. record { last = p.last; voted = p.voted; outstanding = p.outstanding } };
}

impl Participant {
    /// At rest after this number.
    pub fn new(last: u64) -> Participant
        ensures { result ≡ record { last = last; voted = None; outstanding = false } }
    {
        Participant {
            last,
            voted: None,
            outstanding: false,
        }
    }

    /// Makes the message that sends a request to core 0, and hands the request back where one is outstanding.
    pub fn submit(&mut self, op: Op) -> Result<Message, Op>
        ensures free { OnOk result (self.old.outstanding ≡ false) }
        ensures sent { IfOk result (λ sent. sent ≡ Submit op) }
        ensures now_outstanding { OnOk result (self.new ≡ record self.old { outstanding = true }) }
        ensures outstanding { OnErr result (self.old.outstanding ≡ true) }
        ensures handed_back { IfErr result (λ back. back ≡ op) }
        ensures same { OnErr result (self.new ≡ self.old) }
    {
        if self.outstanding {
            return Err(op);
        }
        self.submitted();
        Ok(Message::Submit { op })
    }

    /// Keeps that a request was sent to core 0, while none is outstanding.
    pub fn submitted(&mut self)
        requires { self.old.outstanding ≡ false }
        ensures { self.new ≡ record self.old { outstanding = true } }
    {
        self.outstanding = true;
    }

    /// Takes the decision of the request that is outstanding. A stranger changes nothing.
    pub fn reply(&mut self, _decision: &Decision) -> Result<(), Stranger>
        ensures was_outstanding { OnOk result (self.old.outstanding ≡ true) }
        ensures now_free { OnOk result (self.new ≡ record self.old { outstanding = false }) }
        ensures stranger { OnErr result (self.old.outstanding ≡ false) }
        ensures same { OnErr result (self.new ≡ self.old) }
    {
        if !self.outstanding {
            return Err(Stranger);
        }
        self.outstanding = false;
        Ok(())
    }

    /// Whether a request of this core is outstanding.
    pub fn outstanding(&self) -> bool
        ensures { result ≡ self.now.outstanding }
    {
        self.outstanding
    }

    /// Whether it waits for Commit with this number.
    pub fn can_commit(&self, txn: u64) -> bool
        ensures { IsTrue result ↔ (self.now.voted ≡ Some Yes) × (txn ≡ self.now.last) }
    {
        self.voted == Some(Vote::Yes) && txn == self.last
    }

    /// Whether it waits for Abort with this number.
    pub fn can_abort(&self, txn: u64) -> bool
        ensures { IsTrue result ↔ IsSome self.now.voted × (txn ≡ self.now.last) }
    {
        self.voted.is_some() && txn == self.last
    }

    /// Takes a message of core 0 and gives the vote or the acknowledgement to send back; where `short` is true, the core acts
    /// as if it had no memory for an operation. A program that memory is refused to is verified all the same. A stranger changes
    /// nothing. Takes no memory on Commit or Abort.
    pub fn answer(
        &mut self,
        alloc: Global,
        replica: &mut Replica,
        message: &Message,
        short: bool,
    ) -> Result<Message, Stranger>
        requires { StagedByVote self.old.voted replica.old.staged }
        ensures answered { IfOk result (Answers short replica.old.shown replica.old.budget (place_of self.old replica.old.staged) message.now (place_of self.new replica.new.staged)) }
        ensures shown { OnOk result (replica.new.shown ≡ after_commit replica.old.shown (commits (place_of self.old replica.old.staged) message.now)) }
        ensures budget { replica.new.budget ≡ replica.old.budget }
        ensures staged { StagedByVote self.new.voted replica.new.staged }
        ensures outstanding { self.new.outstanding ≡ self.old.outstanding }
        ensures stranger { OnErr result (Fits replica.old.shown replica.old.budget (place_of self.old replica.old.staged) message.now → ⊥) }
        ensures same_place { OnErr result (self.new ≡ self.old) }
        ensures same_replica { OnErr result (replica.new ≡ replica.old) }
    {
        match message {
            Message::Prepare { txn, op } => self.prepare(alloc, replica, *txn, op, short),
            Message::Commit { txn } => self.commit(replica, *txn),
            Message::Abort { txn } => self.abort(replica, *txn),
            Message::Vote { .. }
            | Message::Ack { .. }
            | Message::Submit { .. }
            | Message::Reply { .. } => Err(Stranger),
        }
    }

    fn prepare(
        &mut self,
        alloc: Global,
        replica: &mut Replica,
        txn: u64,
        op: &Op,
        short: bool,
    ) -> Result<Message, Stranger>
        requires { StagedByVote self.old.voted replica.old.staged }
        ensures answered { IfOk result (Answers short replica.old.shown replica.old.budget (place_of self.old replica.old.staged) (Prepare txn op.now) (place_of self.new replica.new.staged)) }
        ensures shown { replica.new.shown ≡ replica.old.shown }
        ensures budget { replica.new.budget ≡ replica.old.budget }
        ensures staged { StagedByVote self.new.voted replica.new.staged }
        ensures outstanding { self.new.outstanding ≡ self.old.outstanding }
        ensures stranger { OnErr result (Fits replica.old.shown replica.old.budget (place_of self.old replica.old.staged) (Prepare txn op.now) → ⊥) }
        ensures same_place { OnErr result (self.new ≡ self.old) }
        ensures same_staged { OnErr result (replica.new.staged ≡ replica.old.staged) }
    {
        let vote = self.ballot(alloc, replica, txn, op, short)?;
        self.cast(txn, vote);
        Ok(Message::Vote { txn, vote })
    }

    /// How this core votes on an operation that core 0 asks about, which stays staged where that is Yes. The vote is cast by
    /// `vote`, or the replica's `abort` takes it back. A program that memory is refused to is verified all the same. A stranger
    /// changes nothing.
    pub fn ballot(
        &self,
        alloc: Global,
        replica: &mut Replica,
        txn: u64,
        op: &Op,
        short: bool,
    ) -> Result<Vote, Stranger>
        requires { StagedByVote self.now.voted replica.old.staged }
        ensures fits { OnOk result ((self.now.voted ≡ None) × (txn ≡ self.now.last + 1)) }
        ensures casts { IfOk result (Casts short replica.old.shown replica.old.budget op.now) }
        ensures staged { IfOk result (λ vote. replica.new.staged ≡ staged_by vote op.now) }
        ensures stranger { OnErr result (Fits replica.old.shown replica.old.budget (place_of self.now replica.old.staged) (Prepare txn op.now) → ⊥) }
        ensures same { OnErr result (replica.new.staged ≡ replica.old.staged) }
        ensures shown { replica.new.shown ≡ replica.old.shown }
        ensures budget { replica.new.budget ≡ replica.old.budget }
    {
        if !self.can_vote(txn) {
            return Err(Stranger);
        }
        staged_vote(alloc, replica, op, short)
    }

    /// How this core votes on an operation that core 0 asks about, where its program lies elsewhere and no memory is left for
    /// it: NoMemory, or Budget. The vote is cast by `vote`. Nothing is staged, and no memory is taken.
    pub fn ballot_without_memory<C: Code>(
        &self,
        replica: &Replica,
        txn: u64,
        load: Load,
        program: C,
    ) -> Result<Vote, Stranger>
        requires { StagedByVote self.now.voted replica.now.staged }
        ensures fits { OnOk result ((self.now.voted ≡ None) × (txn ≡ self.now.last + 1)) }
        ensures casts { (short : Bool) → IfOk result (Casts short replica.now.shown replica.now.budget (load_op load (C.insns program))) }
        ensures staged { IfOk result (λ vote. replica.now.staged ≡ staged_by vote (load_op load (C.insns program))) }
        ensures stranger { OnErr result (Fits replica.now.shown replica.now.budget (place_of self.now replica.now.staged) (Prepare txn (load_op load (C.insns program))) → ⊥) }
    {
        if !self.can_vote(txn) {
            return Err(Stranger);
        }
        loaded_vote(replica, load, program)
    }

    /// Whether it can vote on an operation with this number.
    fn can_vote(&self, txn: u64) -> bool
        ensures { IsTrue result ↔ (self.now.voted ≡ None) × (txn ≡ self.now.last + 1) }
    {
        self.voted.is_none() && self.last < u64::MAX && txn == self.last + 1
    }

    /// Casts the vote on an operation.
    pub fn cast(&mut self, txn: u64, vote: Vote)
        ensures { self.new ≡ record self.old { last = txn; voted = Some vote } }
    {
        self.last = txn;
        self.voted = Some(vote);
    }

    /// Commits what it voted Yes on, and gives the acknowledgement. A stranger changes nothing. Takes no memory.
    pub fn commit(&mut self, replica: &mut Replica, txn: u64) -> Result<Message, Stranger>
        requires { StagedByVote self.old.voted replica.old.staged }
        ensures answered { IfOk result (Answers false replica.old.shown replica.old.budget (place_of self.old replica.old.staged) (Commit txn) (place_of self.new replica.new.staged)) }
        ensures shown { OnOk result (replica.new.shown ≡ after_commit replica.old.shown replica.old.staged) }
        ensures budget { replica.new.budget ≡ replica.old.budget }
        ensures staged { StagedByVote self.new.voted replica.new.staged }
        ensures outstanding { self.new.outstanding ≡ self.old.outstanding }
        ensures stranger { OnErr result (Fits replica.old.shown replica.old.budget (place_of self.old replica.old.staged) (Commit txn) → ⊥) }
        ensures same_place { OnErr result (self.new ≡ self.old) }
        ensures same_replica { OnErr result (replica.new ≡ replica.old) }
    {
        if !self.can_commit(txn) {
            return Err(Stranger);
        }
        match replica.commit() {
            Ok(_) => {
                self.voted = None;
                Ok(Message::Ack { txn })
            }
            Err(_) => Err(Stranger),
        }
    }

    /// Gives up what it voted on, and gives the acknowledgement. A stranger changes nothing. Takes no memory.
    pub fn abort(&mut self, replica: &mut Replica, txn: u64) -> Result<Message, Stranger>
        requires { StagedByVote self.old.voted replica.old.staged }
        ensures answered { IfOk result (Answers false replica.old.shown replica.old.budget (place_of self.old replica.old.staged) (Abort txn) (place_of self.new replica.new.staged)) }
        ensures shown { replica.new.shown ≡ replica.old.shown }
        ensures budget { replica.new.budget ≡ replica.old.budget }
        ensures staged { StagedByVote self.new.voted replica.new.staged }
        ensures outstanding { self.new.outstanding ≡ self.old.outstanding }
        ensures stranger { OnErr result (Fits replica.old.shown replica.old.budget (place_of self.old replica.old.staged) (Abort txn) → ⊥) }
        ensures same_place { OnErr result (self.new ≡ self.old) }
        ensures same_staged { OnErr result (replica.new.staged ≡ replica.old.staged) }
    {
        if !self.can_abort(txn) {
            return Err(Stranger);
        }
        let _ = replica.abort();
        self.voted = None;
        Ok(Message::Ack { txn })
    }
}

/// The vote on an operation, which stays staged where it is Yes. A rule that refuses it makes it a stranger.
fn staged_vote(alloc: Global, replica: &mut Replica, op: &Op, short: bool) -> Result<Vote, Stranger>
    requires { replica.old.staged ≡ None }
    ensures casts { IfOk result (Casts short replica.old.shown replica.old.budget op.now) }
    ensures staged { IfOk result (λ vote. replica.new.staged ≡ staged_by vote op.now) }
    ensures refused { OnErr result ((fault : GhostFault) × Allowed replica.old.shown replica.old.budget op.now (Some (Rule fault))) }
    ensures same { OnErr result (replica.new.staged ≡ None) }
    ensures shown { replica.new.shown ≡ replica.old.shown }
    ensures budget { replica.new.budget ≡ replica.old.budget }
{
    if short {
        return unstaged_vote(replica, op);
    }
    match replica.stage(alloc, op) {
        Ok(()) => Ok(Vote::Yes),
        Err(_) => unstaged_vote(replica, op),
    }
}

/// The vote on an operation that isn't staged.
#[tactic(auto, using(filter_table::proofs::Tables::over_budget))]
fn unstaged_vote(replica: &Replica, op: &Op) -> Result<Vote, Stranger>
    requires { replica.now.staged ≡ None }
    ensures casts { (short : Bool) → IfOk result (Casts short replica.now.shown replica.now.budget op.now) }
    ensures staged { IfOk result (λ vote. replica.now.staged ≡ staged_by vote op.now) }
    ensures refused { OnErr result ((fault : GhostFault) × Allowed replica.now.shown replica.now.budget op.now (Some (Rule fault))) }
{
    match replica.check(op) {
        Ok(()) => Ok(Vote::NoMemory),
        Err(StageFault::Rule(_)) => Err(Stranger),
        Err(StageFault::Budget) => Ok(Vote::Budget),
        Err(StageFault::NoMemory | StageFault::AlreadyStaged) => unreachable!(),
    }
}

/// The same where the program lies elsewhere.
#[tactic(auto, using(filter_table::proofs::Tables::over_budget))]
fn loaded_vote<C: Code>(replica: &Replica, load: Load, program: C) -> Result<Vote, Stranger>
    requires { replica.now.staged ≡ None }
    ensures casts { (short : Bool) → IfOk result (Casts short replica.now.shown replica.now.budget (load_op load (C.insns program))) }
    ensures staged { IfOk result (λ vote. replica.now.staged ≡ staged_by vote (load_op load (C.insns program))) }
    ensures refused { OnErr result ((fault : GhostFault) × Allowed replica.now.shown replica.now.budget (load_op load (C.insns program)) (Some (Rule fault))) }
{
    match replica.check_load(load, program) {
        Ok(()) => Ok(Vote::NoMemory),
        Err(StageFault::Rule(_)) => Err(Stranger),
        Err(StageFault::Budget) => Ok(Vote::Budget),
        Err(StageFault::NoMemory | StageFault::AlreadyStaged) => unreachable!(),
    }
}
