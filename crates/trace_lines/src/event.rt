//! The events of a trace, as far as a picture shows them.

/// What is done. Cores are below 64.
#[derive(Clone, Copy, Debug, PartialEq, Eq)]
pub enum Act {
    /// Core 0 begins a request of its own.
    Start,
    /// The core sends its request to core 0.
    Submit(u16),
    /// Core 0 begins the request that this core sent.
    StartFor(u16),
    /// Core 0 takes a message from this core.
    TakeUp(u16),
    /// This core takes a message from core 0.
    TakeDown(u16),
    /// The core receives a packet.
    Rx(u16),
}

/// What the event answered.
#[derive(Clone, Copy, Debug, PartialEq, Eq)]
pub enum TraceAnswer {
    /// A request is put to the vote.
    Prepared,
    /// A request is committed at once.
    Committed,
    /// A request is refused at once.
    Refused,
    /// A request is on its way to core 0.
    Sent,
    /// A request to vote, which is answered.
    Prepare,
    /// A vote that isn't the last.
    Vote,
    /// The last vote: the request is committed.
    VoteCommits,
    /// The last vote: the request is refused.
    VoteRefuses,
    /// The decision to commit.
    Commit,
    /// The decision to refuse.
    Abort,
    /// A decision was followed.
    Ack,
    /// A request of another core.
    Submit,
    /// The decision on a core's own request.
    Reply,
    /// A packet's endpoints.
    Delivered,
    /// Nothing was done.
    Fault,
}

/// An event.
#[derive(Clone, Copy, Debug, PartialEq, Eq)]
pub struct TraceEvent {
    pub act: Act,
    pub told: TraceAnswer,
}
