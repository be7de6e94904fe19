//! A core other than core 0.

ghost use Rattle.std.specs.Prelude.{◌≡◌, Bool, true, false, Option, None, Some, IfOk, IfErr, OnErr};
ghost use Rattle.filter_table.specs.declared.operation.Op.{Op as GhostOp};
ghost use Rattle.monitor_messages.specs.declared.message.Message.{Message as GhostMessage};
ghost use Rattle.monitor_messages.specs.declared.message.Message.TheVariants as message;
ghost use Rattle.monitor_messages.specs.Coding.{Coded};
ghost use Rattle.monitor_messages.specs.Carrying.{CarriesProgram};
ghost use Rattle.filter_table.specs.Tables.{empty_table};
ghost use Rattle.world_model.specs.Cases.{sent_up, SubmitsAt};
ghost use Rattle.world_events.specs.declared.event.Event.TheVariants.{Take};
ghost use Rattle.core_steps.specs.declared.other_core.OtherCore.{OtherCore as GhostCore};
ghost use Rattle.core_steps.specs.OtherCoreSteps.{IsBetweenSteps, AwaitsHere, Considers, TakesDown, other_place};
ghost use Rattle.core_steps.specs.Unread.{CannotVote};

use crate::unread::{Ballot, Unread, unread_ballot};
use filter_table::Limits;
use monitor_2pc::{Decision, Message, Participant, Stranger, Vote};
use std::alloc::{AllocError, Global};
use std::mem;
use table_replica::Replica;
use world_events::Answer;

/// A core other than core 0: its replica of the table, and its part of the protocol.
pub struct OtherCore {
    pub replica: Replica,
    pub participant: Participant,
}

// By hand, so that the proofs of its owners have one call and not a drop of each part.
impl Drop for OtherCore {
    // In line, so that the core isn't copied to be dropped.
    #[inline(always)]
    fn drop(self) {
        let OtherCore {
            replica: _,
            participant: _,
        } = self;
    }
}

impl OtherCore {
    /// A core that has done nothing yet. It takes memory for its replica alone.
    #[inline(never)]
    pub fn new(alloc: Global, limits: Limits, budget: u32) -> Result<OtherCore, AllocError>
        ensures replica { IfOk result (λ core. core.replica ≡ record { budget = budget; shown = empty_table limits; staged = None }) }
        ensures participant { IfOk result (λ core. core.participant ≡ record { last = 0; voted = None; outstanding = false }) }
        ensures between { IfOk result IsBetweenSteps }
    {
        let replica = Replica::with_limits(alloc, limits, budget)?;
        Ok(OtherCore {
            replica,
            participant: Participant::new(0),
        })
    }

    /// Gives up a core whose replica was cleared.
    // What is forgotten holds no memory, and so it isn't moved to be dropped.
    #[inline(always)]
    pub fn drop_cleared(self) {
        let OtherCore {
            replica,
            participant: _,
        } = self;
        mem::forget(replica);
    }

    /// Submits a request to core 0, while none is outstanding. Submit is sent with it. Takes no memory.
    pub fn submit(&mut self) -> Answer
        requires { self.old.participant.outstanding ≡ false }
        ensures submits { SubmitsAt self.old.participant.outstanding self.new.participant.outstanding result }
        ensures next { self.new ≡ record self.old { participant = record self.old.participant { outstanding = true } } }
    {
        self.participant.submitted();
        Answer::Submitted
    }

    /// What `take` sends to core 0 for this message of core 0: a vote, an acknowledgement, or nothing for a Reply. An operation
    /// that it votes Yes on is staged; else nothing changes. Where `short` is true, the core acts as if it had no memory for an
    /// operation. `take` or `withdraw` comes next. A stranger changes nothing.
    pub fn consider(
        &mut self,
        alloc: Global,
        message: &Message,
        short: bool,
    ) -> Result<Option<Message>, Stranger>
        requires { IsBetweenSteps self.old }
        ensures considers { IfOk result (λ reply. Considers short self.old message.now reply self.new) }
        ensures stranger { OnErr result (AwaitsHere self.old message.now → ⊥) }
        ensures same { OnErr result (self.new ≡ self.old) }
    {
        match message {
            Message::Prepare { txn, op } => {
                let vote = self
                    .participant
                    .ballot(alloc, &mut self.replica, *txn, op, short)?;
                Ok(Some(Message::Vote { txn: *txn, vote }))
            }
            Message::Commit { txn } if self.participant.can_commit(*txn) => {
                Ok(Some(Message::Ack { txn: *txn }))
            }
            Message::Abort { txn } if self.participant.can_abort(*txn) => {
                Ok(Some(Message::Ack { txn: *txn }))
            }
            Message::Reply { .. } if self.participant.outstanding() => Ok(None),
            _ => Err(Stranger),
        }
    }

    /// `consider` without memory, of a Prepare that brings a program, by its bytes: the stamp, the number and the vote, which is
    /// NoMemory or Budget. Nothing is staged. `cast` comes next, or nothing does.
    #[inline(never)]
    pub fn consider_unread(&mut self, bytes: &[u8]) -> Result<Ballot, Unread>
        requires between { IsBetweenSteps self.old }
        requires carries { CarriesProgram bytes.now }
        ensures considers { IfOk result (λ ballot. (op : GhostOp) × Coded bytes.now ballot.stamp (message.Prepare ballot.txn op) × ((short : Bool) → Considers short self.old (message.Prepare ballot.txn op) (Some (message.Vote ballot.txn ballot.vote)) self.old)) }
        ensures unread { IfErr result (CannotVote (other_place self.old) self.old.replica.shown self.old.replica.budget bytes.now) }
        ensures same { self.new ≡ self.old }
    {
        unread_ballot(&self.participant, &self.replica, bytes)
    }

    /// Takes a Prepare that was considered, with this vote. Takes no memory.
    pub fn cast(&mut self, txn: u64, vote: Vote) -> Answer
        ensures takes { (op : GhostOp) (short : Bool) (before : GhostCore) → IsBetweenSteps before → Considers short before (message.Prepare txn op) (Some (message.Vote txn vote)) self.old → TakesDown short before (message.Prepare txn op) self.new result }
        ensures sent { (short : Bool) → sent_up (Take 0 0 short) result ≡ Some (message.Vote txn vote) }
    {
        self.participant.cast(txn, vote);
        Answer::TookPrepare { txn, vote }
    }

    /// Takes back what `consider` staged for this message.
    pub fn withdraw(&mut self, message: &Message)
        ensures { (short : Bool) (before : GhostCore) (reply : Option GhostMessage) → IsBetweenSteps before → Considers short before message.now reply self.old → self.new ≡ before }
    {
        if let Message::Prepare { .. } = message {
            let _ = self.replica.abort();
        }
    }

    /// Takes the message that was considered. Takes no memory.
    pub fn take(&mut self, message: &Message, reply: &Option<Message>) -> Answer
        requires { (short : Bool) × (before : GhostCore) × IsBetweenSteps before × Considers short before message.now reply.now self.old }
        ensures takes { (short : Bool) (before : GhostCore) → IsBetweenSteps before → Considers short before message.now reply.now self.old → TakesDown short before message.now self.new result }
        ensures sent { (short : Bool) → sent_up (Take 0 0 short) result ≡ reply.now }
    {
        match (message, reply) {
            (Message::Prepare { txn, .. }, Some(Message::Vote { vote, .. })) => {
                self.cast(*txn, *vote)
            }
            (Message::Commit { txn }, _) => {
                let _ = self.participant.commit(&mut self.replica, *txn);
                Answer::TookCommit {
                    txn: *txn,
                    version: self.replica.version(),
                }
            }
            (Message::Abort { txn }, _) => {
                let _ = self.participant.abort(&mut self.replica, *txn);
                Answer::TookAbort {
                    txn: *txn,
                    version: self.replica.version(),
                }
            }
            (Message::Reply { decision }, _) => {
                let _ = self.participant.reply(decision);
                Answer::TookReply {
                    decision: *decision,
                }
            }
            _ => unreachable!(),
        }
    }
}
