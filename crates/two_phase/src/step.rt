//! What a step of core 0 tells, and why one is not taken.

use filter_table::Decision;
use thiserror::Error;

/// What core 0 says to every other core.
#[derive(Clone, Copy, PartialEq, Eq, Debug, Drop)]
pub enum Say {
    /// That they vote on the operation that was started.
    Prepare,
    /// That they commit it.
    Commit,
    /// That they give it up.
    Abort,
}

/// What a step of core 0 tells.
#[derive(Clone, Copy, PartialEq, Eq, Debug, Drop)]
pub struct Step {
    /// Core 0's last number after the step.
    pub txn: u64,
    /// What it says to every other core.
    pub say: Option<Say>,
    /// What it decides.
    pub decided: Option<Decision>,
    /// The decision that is sent to this core as Reply.
    pub reply: Option<(u16, Decision)>,
}

/// Why a request is not started.
#[derive(Clone, Copy, PartialEq, Eq, Debug, Drop, Error)]
pub enum StartFault {
    /// Another request is under way.
    #[error("another request is under way")]
    NotIdle,
    /// The last number has been given out.
    #[error("the last number has been given out")]
    Spent,
    /// The core has no request waiting.
    #[error("the core has no request waiting")]
    NoneWaiting,
}

/// The message doesn't fit the place in the protocol.
#[derive(Clone, Copy, PartialEq, Eq, Debug, Drop, Error)]
#[error("the message does not fit the place in the protocol")]
pub struct Stranger;
