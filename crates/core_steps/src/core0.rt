//! Core 0.

ghost use Rattle.std.specs.Prelude.{◌≡◌, ◌≢◌, ◌+◌, ◌-◌, ◌<◌, ◌≤◌, ℕ, suc, None, Some, IsSome, IfOk, IfSome, IfNone, OnSome, OnErr, slice_get};
ghost use Rattle.filter_table.specs.declared.operation.Op.{Op as GhostOp};
ghost use Rattle.filter_table.specs.Tables.{empty_table};
ghost use Rattle.monitor_messages.specs.declared.message.Message.TheVariants as message;
ghost use Rattle.two_phase.specs.Coordinators.{Idle, CanStart, coordinator_place, no_requests};
ghost use Rattle.monitor_2pc.specs.Starting.{WasStaged};
ghost use Rattle.world_model.specs.Agreement.{Expects};
ghost use Rattle.world_model.specs.Cases.{outgoing, start_told};
ghost use Rattle.core_steps.specs.declared.core0.Core0.{Core0 as GhostCore0};
ghost use Rattle.core_steps.specs.declared.core0.Told.{Told as GhostTold};
ghost use Rattle.core_steps.specs.Core0Steps.{BetweenSteps, CanBegin, core0_place, sent, CanBeCoded, start_sends, start_for_sends, Starts, StartsForCore, TakesUp, BringNoOp, RepliesAlone, HasWaiting};

use crate::outgoing::Outgoing;
use filter_table::{Limits, Op, StageFault};
use monitor_2pc::{Coordinator, Decision, MOST_CORES, Message, Say, Step, Stranger, Vote, veto_of};
use std::alloc::{AllocError, Global};
use std::mem;
use table_replica::Replica;
use world_events::Answer;

/// Core 0: its replica of the table, and its part of the protocol.
pub struct Core0 {
    pub replica: Replica,
    pub coordinator: Coordinator,
}

// By hand, so that the proofs of its owners have one call and not a drop of each part.
impl Drop for Core0 {
    // In line, so that the core isn't copied to be dropped.
    #[inline(always)]
    fn drop(self) {
        let Core0 {
            replica: _,
            coordinator: _,
        } = self;
    }
}

/// What core 0 tells of a step: to the protocol, and as the answer to the event.
#[derive(Drop)]
pub struct Told {
    pub step: Step,
    pub answer: Answer,
}

impl Core0 {
    /// Core 0 that has done nothing yet, of a machine with so many cores.
    #[inline(never)]
    pub fn new(alloc: Global, limits: Limits, budget: u32, cores: u16) -> Result<Core0, AllocError>
        requires least { 1 ≤ cores }
        requires most { cores ≤ MOST_CORES }
        ensures replica { IfOk result (λ core. core.replica ≡ record { budget = budget; shown = empty_table limits; staged = None }) }
        ensures coordinator { IfOk result (λ core. core.coordinator ≡ record { others = cores - 1; last = 0; phase = Idle; requests = no_requests (cores - 1) }) }
        ensures between { IfOk result BetweenSteps }
    {
        // The replica comes last, so that no error path has it to give up: that takes much of the stack.
        let coordinator = Coordinator::new(alloc, cores, 0)?;
        let replica = Replica::with_limits(alloc, limits, budget)?;
        Ok(Core0 {
            replica,
            coordinator,
        })
    }

    /// Gives up a core whose replica was cleared.
    // What is forgotten holds no memory, and so it isn't moved to be dropped.
    #[inline(always)]
    pub fn drop_cleared(self) {
        let Core0 {
            replica,
            coordinator: _,
        } = self;
        mem::forget(replica);
    }

    /// Stages a request of its own, and answers why it can't, if it can't. `begin` or `withdraw` comes next.
    pub fn stage(&mut self, alloc: Global, op: &Op) -> Option<StageFault>
        requires { self.old.replica.staged ≡ None }
        ensures tried { WasStaged self.new.replica op.now result }
        ensures same { self.new ≡ record self.old { replica = record self.old.replica { staged = self.new.replica.staged } } }
    {
        self.replica.stage(alloc, op).err()
    }

    /// Stages the request that the core has waiting, if it has one, as `stage` does. `begin_for` or `withdraw` comes next.
    pub fn stage_for(&mut self, alloc: Global, core: u16) -> Option<Option<StageFault>>
        requires { self.old.replica.staged ≡ None }
        ensures tried { IfSome result (λ refusal. (entry : ℕ) × (op : GhostOp) × HasWaiting self.old core entry op × WasStaged self.new.replica op refusal) }
        ensures none { IfNone result ((entry : ℕ) (op : GhostOp) → HasWaiting self.old core entry op → ⊥) }
        ensures unstaged { IfNone result (self.new.replica.staged ≡ None) }
        ensures same { self.new ≡ record self.old { replica = record self.old.replica { staged = self.new.replica.staged } } }
    {
        let op = self.coordinator.waiting(core)?;
        Some(self.replica.stage(alloc, op).err())
    }

    /// Takes back what was staged.
    pub fn withdraw(&mut self)
        ensures { self.new ≡ record self.old { replica = record self.old.replica { staged = None } } }
    {
        let _ = self.replica.abort();
    }

    /// What `begin` sends after `stage`: Prepare to every other core, if there is one, where the request was staged.
    pub fn start_sends(&self, op: &Op, refusal: Option<StageFault>) -> Result<Outgoing, AllocError>
        requires can { CanBegin self.now }
        requires tried { WasStaged self.now.replica op.now refusal }
        ensures sends { IfOk result (λ out. sent out ≡ start_sends self.now op.now refusal) }
        ensures codable { IfOk result CanBeCoded }
        ensures replies { IfOk result RepliesAlone }
    {
        if let Some(_) = refusal {
            return Ok(Outgoing::Nothing);
        }
        if self.coordinator.others() == 0 {
            return Ok(Outgoing::Nothing);
        }
        Ok(Outgoing::ToAll(self.prepare(op)?))
    }

    /// What `begin_for` sends after `stage_for`: Prepare to every other core, or the refusal to the core that asked.
    pub fn start_for_sends(
        &self,
        core: u16,
        refusal: Option<StageFault>,
    ) -> Result<Outgoing, AllocError>
        requires can { CanBegin self.now }
        requires waits { (entry : ℕ) × (op : GhostOp) × HasWaiting self.now core entry op × WasStaged self.now.replica op refusal }
        ensures sends { IfOk result (λ out. (entry : ℕ) (op : GhostOp) → HasWaiting self.now core entry op → sent out ≡ start_for_sends entry self.now op refusal) }
        ensures codable { IfOk result CanBeCoded }
        ensures replies { IfOk result RepliesAlone }
    {
        if let Some(fault) = refusal {
            let decision = Decision::Refused {
                core: 0,
                why: veto_of(fault),
            };
            return Ok(Outgoing::ToOne(usize::from(core) - 1, Message::Reply { decision }));
        }
        let Some(op) = self.coordinator.waiting(core) else {
            unreachable!()
        };
        Ok(Outgoing::ToAll(self.prepare(op)?))
    }

    /// The message that asks the other cores for their votes on a request.
    fn prepare(&self, op: &Op) -> Result<Message, AllocError>
        requires { self.now.coordinator.last < 18446744073709551615 }
        ensures { IfOk result (λ m. m ≡ message.Prepare (self.now.coordinator.last + 1) op.now) }
    {
        Ok(Message::Prepare {
            txn: self.coordinator.last() + 1,
            op: op.clone()?,
        })
    }

    /// Starts the request that `stage` was given, with its outcome.
    pub fn begin(&mut self, refusal: Option<StageFault>) -> Told
        requires can { CanBegin self.old }
        requires tried { (op : GhostOp) × WasStaged self.old.replica op refusal }
        ensures starts { (op : GhostOp) → WasStaged self.old.replica op refusal → Starts self.old op self.new result }
        ensures sends { (op : GhostOp) → WasStaged self.old.replica op refusal → outgoing result.step (core0_place self.new) ≡ start_sends self.old op refusal }
    {
        let step = self.coordinator.begin(&mut self.replica, refusal);
        Told {
            step,
            answer: answer_to_start(&step),
        }
    }

    /// Starts the request that the core has waiting and `stage_for` has staged, with its outcome. There are other cores.
    pub fn begin_for(&mut self, core: u16, refusal: Option<StageFault>) -> Told
        requires can { CanBegin self.old }
        requires others { 0 < self.old.coordinator.others }
        requires waits { (entry : ℕ) × (op : GhostOp) × HasWaiting self.old core entry op × WasStaged self.old.replica op refusal }
        ensures starts { (entry : ℕ) → core ≡ suc entry → StartsForCore self.old entry self.new result }
        ensures sends { (entry : ℕ) (op : GhostOp) → HasWaiting self.old core entry op → outgoing result.step (core0_place self.new) ≡ start_for_sends entry self.old op refusal }
    {
        let step = self.coordinator.begin_for(&mut self.replica, core, refusal);
        Told {
            step,
            answer: answer_to_start(&step),
        }
    }

    /// What `take` sends of this message: Commit or Abort to every other core with the last vote, and with the last
    /// acknowledgement the decision to the core that asked, if one did.
    pub fn take_sends(&self, from: u16, message: &Message) -> Outgoing
        requires { BetweenSteps self.now }
        ensures sends { (after : GhostCore0) (told : GhostTold) → TakesUp self.now from message.now after told → outgoing told.step (core0_place after) ≡ sent result }
        ensures codable { CanBeCoded result }
        ensures no_op { BringNoOp result }
    {
        match message {
            Message::Vote { txn, vote } => self.vote_sends(from, *txn, *vote),
            Message::Ack { .. } => self.ack_sends(from),
            Message::Submit { .. }
            | Message::Prepare { .. }
            | Message::Commit { .. }
            | Message::Abort { .. }
            | Message::Reply { .. } => Outgoing::Nothing,
        }
    }

    fn vote_sends(&self, from: u16, txn: u64, vote: Vote) -> Outgoing
        ensures sends { (after : GhostCore0) (told : GhostTold) → TakesUp self.now from (message.Vote txn vote) after told → outgoing told.step (core0_place after) ≡ sent result }
        ensures codable { CanBeCoded result }
        ensures no_op { BringNoOp result }
    {
        match self.coordinator.verdict_after(from, vote) {
            Some(Say::Commit) => Outgoing::ToAll(Message::Commit { txn }),
            Some(Say::Abort) => Outgoing::ToAll(Message::Abort { txn }),
            Some(Say::Prepare) => Outgoing::Nothing,
            None => Outgoing::Nothing,
        }
    }

    fn ack_sends(&self, from: u16) -> Outgoing
        requires { BetweenSteps self.now }
        ensures sends { (txn : ℕ) (after : GhostCore0) (told : GhostTold) → TakesUp self.now from (message.Ack txn) after told → outgoing told.step (core0_place after) ≡ sent result }
        ensures codable { CanBeCoded result }
        ensures no_op { BringNoOp result }
    {
        let Some((core, decision)) = self.coordinator.reply_after(from) else {
            return Outgoing::Nothing;
        };
        if core == 0 {
            return Outgoing::Nothing;
        }
        Outgoing::ToOne(usize::from(core) - 1, Message::Reply { decision })
    }

    /// Takes a message of another core. A stranger changes nothing.
    pub fn take(&mut self, from: u16, message: Message) -> Result<Told, Stranger>
        requires { BetweenSteps self.old }
        ensures taken { IfOk result (TakesUp self.old from message self.new) }
        ensures stranger { OnErr result ((entry : ℕ) → from ≡ suc entry → Expects (core0_place self.old) self.old.coordinator.requests entry message → ⊥) }
        ensures same { OnErr result (self.new ≡ self.old) }
    {
        match message {
            Message::Vote { txn, vote } => self.hear_vote(from, txn, vote),
            Message::Ack { txn } => self.hear_ack(from, txn),
            Message::Submit { op } => self.keep(from, op),
            Message::Prepare { .. }
            | Message::Commit { .. }
            | Message::Abort { .. }
            | Message::Reply { .. } => Err(Stranger),
        }
    }

    fn hear_vote(&mut self, from: u16, txn: u64, vote: Vote) -> Result<Told, Stranger>
        requires { BetweenSteps self.old }
        ensures taken { IfOk result (TakesUp self.old from (message.Vote txn vote) self.new) }
        ensures stranger { OnErr result ((entry : ℕ) → from ≡ suc entry → Expects (core0_place self.old) self.old.coordinator.requests entry (message.Vote txn vote) → ⊥) }
        ensures same { OnErr result (self.new ≡ self.old) }
    {
        let step = self
            .coordinator
            .hear_vote(&mut self.replica, from, txn, vote)?;
        Ok(Told {
            step,
            answer: Answer::TookVote {
                txn,
                vote,
                decided: step.decided,
            },
        })
    }

    fn hear_ack(&mut self, from: u16, txn: u64) -> Result<Told, Stranger>
        requires { BetweenSteps self.old }
        ensures taken { IfOk result (TakesUp self.old from (message.Ack txn) self.new) }
        ensures stranger { OnErr result ((entry : ℕ) → from ≡ suc entry → Expects (core0_place self.old) self.old.coordinator.requests entry (message.Ack txn) → ⊥) }
        ensures same { OnErr result (self.new ≡ self.old) }
    {
        let step = self.coordinator.hear_ack(from, txn)?;
        Ok(Told {
            step,
            answer: Answer::TookAck { txn },
        })
    }

    fn keep(&mut self, from: u16, op: Op) -> Result<Told, Stranger>
        requires { BetweenSteps self.old }
        ensures taken { IfOk result (TakesUp self.old from (message.Submit op) self.new) }
        ensures stranger { OnErr result ((entry : ℕ) → from ≡ suc entry → Expects (core0_place self.old) self.old.coordinator.requests entry (message.Submit op) → ⊥) }
        ensures same { OnErr result (self.new ≡ self.old) }
    {
        self.coordinator.submit(from, op)?;
        Ok(Told {
            step: Step {
                txn: self.coordinator.last(),
                say: None,
                decided: None,
                reply: None,
            },
            answer: Answer::TookSubmit,
        })
    }
}

/// What a start answers.
fn answer_to_start(step: &Step) -> Answer
    ensures { result ≡ start_told step.now.txn step.now.decided }
{
    match step.decided {
        None => Answer::Prepared { txn: step.txn },
        Some(decision) => Answer::Decided(decision),
    }
}
