//! Core 0 and another core, each with its replica.

use crate::asks::{Sent, asked, said};
use crate::facts::equal;
use monitor_2pc::{
    Coordinator, MOST_CORES, Message, Participant, StartFault, Step, Stranger, Vote,
};
use std::alloc::Global;
use std::marker::Model;
use std::process::Abort;
use table_replica::{Op, Replica};
use test_words::Ask;

/// Core 0 with its replica.
#[derive(Drop)]
pub(crate) struct Core0 {
    pub core: Coordinator,
    pub table: Replica,
}

impl Model for Core0 {
    ghost use Rattle.two_phase.specs.Coordinators.{CoordinatorState, StagedByPhase};

    ghost Value = { CoordinatorState };

    ghost view = { λ h. h.core };

    ghost invariant = { λ h. StagedByPhase h.core.phase h.table.staged };
}

impl Core0 {
    /// With this budget, among so many cores, of which there are 1 to 8; its last number was this.
    pub fn new(rt: &impl Abort, alloc: Global, budget: u32, cores: u16, last: u64) -> Core0 {
        Core0 {
            core: Coordinator::new(alloc, cores.clamp(1, MOST_CORES), last).expect(
                rt,
                "there is memory",
            ),
            table: Replica::new(alloc, budget).expect(rt, "there is memory"),
        }
    }

    pub fn starts(&mut self, rt: &impl Abort, alloc: Global, ask: Ask) -> Result<Step, StartFault> {
        let op = asked(rt, alloc, ask);
        self.core.start(alloc, &mut self.table, &op)
    }

    /// Whether it keeps the request of the other core.
    pub fn keeps(&mut self, rt: &impl Abort, alloc: Global, from: u16, ask: Ask) -> bool {
        self.core.submit(from, asked(rt, alloc, ask)).is_ok()
    }

    pub fn starts_for(&mut self, alloc: Global, from: u16) -> Result<Step, StartFault> {
        self.core.start_for(alloc, &mut self.table, from)
    }

    /// What it says when it hears a vote; none where the vote fits nothing.
    pub fn hears(&mut self, from: u16, txn: u64, vote: Vote) -> Option<Step> {
        self.core.hear_vote(&mut self.table, from, txn, vote).ok()
    }

    pub fn hears_end(&mut self, from: u16, txn: u64) -> Option<Step> {
        self.core.hear_ack(from, txn).ok()
    }
}

/// Another core with its replica.
#[derive(Drop)]
pub(crate) struct Peer {
    pub core: Participant,
    pub table: Replica,
}

impl Model for Peer {
    ghost use Rattle.two_phase.specs.Participants.{ParticipantState, StagedByVote};

    ghost Value = { ParticipantState };

    ghost view = { λ p. p.core };

    ghost invariant = { λ p. StagedByVote p.core.voted p.table.staged };
}

/// What another core answers to a message: its vote or its acknowledgement of a number, or nothing.
pub(crate) type Heard = (&'static str, u64, Vote);

fn heard_of(answer: &Result<Message, Stranger>) -> Heard {
    match answer {
        Ok(Message::Vote { txn, vote }) => ("vote", *txn, *vote),
        Ok(Message::Ack { txn }) => ("ack", *txn, Vote::Yes),
        Ok(_) => ("another message", 0, Vote::Yes),
        Err(_) => ("stranger", 0, Vote::Yes),
    }
}

impl Peer {
    pub fn new(rt: &impl Abort, alloc: Global, budget: u32) -> Peer {
        Peer {
            core: Participant::new(0),
            table: Replica::new(alloc, budget).expect(rt, "there is memory"),
        }
    }

    /// What it answers, being short of memory or not.
    pub fn answers(&mut self, rt: &impl Abort, alloc: Global, sent: Sent, short: bool) -> Heard {
        let message = said(rt, alloc, sent);
        heard_of(&self.core.answer(alloc, &mut self.table, &message, short))
    }

    /// The operation that it sends to core 0; none where it has sent one.
    pub fn submits(&mut self, op: Op) -> Option<Op> {
        match self.core.submit(op) {
            Ok(Message::Submit { op }) => Some(op),
            _ => None,
        }
    }

    /// Whether it hands an operation back.
    pub fn refuses(&mut self, op: Op) -> bool {
        self.core.submit(op).is_err()
    }

    /// Its vote on this number.
    pub fn votes(
        &mut self,
        rt: &impl Abort,
        alloc: Global,
        txn: u64,
        ask: Ask,
        short: bool,
    ) -> Vote {
        let (word, of, vote) = self.answers(rt, alloc, Sent::Prepare(txn, ask), short);
        equal(rt, (word, of), ("vote", txn));
        vote
    }
}
