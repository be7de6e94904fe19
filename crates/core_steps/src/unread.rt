//! The vote on a Prepare whose program gets no memory, by the message's bytes.

ghost use Rattle.std.specs.Prelude.{ℕ, List, IfOk, IfErr};
ghost use Rattle.monitor_messages.specs.Carrying.{CarriesProgram, loaded_message};
ghost use Rattle.monitor_messages.specs.Coding.{Coded};
ghost use Rattle.monitor_messages.specs.Programs.{insns_of};
ghost use Rattle.two_phase.specs.Participants.{StagedByVote, place_of};
ghost use Rattle.core_steps.specs.Unread.{IsBallot, CannotVote};

use monitor_2pc::{Participant, Vote};
use monitor_messages::{Carrier, Loaded, decode_in_place};
use table_replica::Replica;
use thiserror::Error;

/// How a core votes on the operation of a Prepare with this stamp and this number.
#[derive(Clone, Copy, PartialEq, Eq, Debug)]
pub struct Ballot {
    pub stamp: u64,
    pub txn: u64,
    pub vote: Vote,
}

/// Why it doesn't vote.
#[derive(Clone, Copy, PartialEq, Eq, Debug, Error)]
pub enum Unread {
    /// The bytes are no message's.
    #[error("the bytes are no message's")]
    BadMessage,
    /// The message fits no phase of the protocol.
    #[error("the message fits no phase of the protocol")]
    Stranger,
}

/// How a core votes on the operation of a Prepare with these bytes, which brings a program. Takes no memory: the program is
/// verified where it lies.
pub(crate) fn unread_ballot(
    participant: &Participant,
    replica: &Replica,
    bytes: &[u8],
) -> Result<Ballot, Unread>
    requires carries { CarriesProgram bytes.now }
    requires between { StagedByVote participant.now.voted replica.now.staged }
    ensures ballot { IfOk result (IsBallot (place_of participant.now replica.now.staged) replica.now.shown replica.now.budget bytes.now) }
    ensures unread { IfErr result (CannotVote (place_of participant.now replica.now.staged) replica.now.shown replica.now.budget bytes.now) }
{
    let Ok(found) = decode_in_place(bytes) else {
        return Err(Unread::BadMessage);
    };
    loaded_ballot(participant, replica, found)
}

/// The same once it is read.
fn loaded_ballot(
    participant: &Participant,
    replica: &Replica,
    found: Loaded<'_>,
) -> Result<Ballot, Unread>
    requires { StagedByVote participant.now.voted replica.now.staged }
    ensures ballot { (bytes : List ℕ) → Coded bytes found.entry.stamp (loaded_message found.entry.carrier found.entry.load (insns_of found.entry.program.bytes.now)) → IfOk result (IsBallot (place_of participant.now replica.now.staged) replica.now.shown replica.now.budget bytes) }
    ensures unread { (bytes : List ℕ) → Coded bytes found.entry.stamp (loaded_message found.entry.carrier found.entry.load (insns_of found.entry.program.bytes.now)) → IfErr result (CannotVote (place_of participant.now replica.now.staged) replica.now.shown replica.now.budget bytes) }
{
    let Carrier::Prepare { txn } = found.carrier else {
        return Err(Unread::Stranger);
    };
    match participant.ballot_without_memory(replica, txn, found.load, found.program) {
        Ok(vote) => Ok(Ballot {
            stamp: found.stamp,
            txn,
            vote,
        }),
        Err(_) => Err(Unread::Stranger),
    }
}
