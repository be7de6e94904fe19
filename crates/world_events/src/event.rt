//! Events and their answers.

use filter_table::{Decision, KeptList, Op, Vote};
use pcap_reader::SharedPacket;

/// What one core does.
#[derive(Clone, Drop)]
pub enum Event {
    /// Core 0 starts a request of its own.
    Start {
        op: Op,
    },
    /// Another core submits a request to core 0.
    Submit {
        core: u16,
        op: Op,
    },
    /// Core 0 starts the request that the core has waiting.
    StartFor {
        core: u16,
    },
    /// A core takes the oldest message from another. Where `short` is true, it has no memory for an operation that it is to
    /// vote on.
    Take {
        to: u16,
        from: u16,
        short: bool,
    },
    /// The core receives a packet, of this number, at a version that is at least the floor.
    Rx {
        core: u16,
        number: u64,
        packet: SharedPacket,
        floor: u64,
    },
}

/// What an event does, as its core tells it.
#[derive(Clone, Drop)]
pub enum Answer {
    /// The request has this number, and every other core is asked.
    Prepared {
        txn: u64,
    },
    /// The request is decided at once.
    Decided(Decision),
    /// The request is on its way to core 0.
    Submitted,
    /// The core votes on the operation of this number.
    TookPrepare {
        txn: u64,
        vote: Vote,
    },
    /// Core 0 has a vote; the last one decides.
    TookVote {
        txn: u64,
        vote: Vote,
        decided: Option<Decision>,
    },
    /// The core commits, and is at this version now.
    TookCommit {
        txn: u64,
        version: u64,
    },
    /// The core gives up the operation, and stays at this version.
    TookAbort {
        txn: u64,
        version: u64,
    },
    /// Core 0 has an acknowledgement.
    TookAck {
        txn: u64,
    },
    /// Core 0 has a request of another core.
    TookSubmit,
    /// The core has the decision on its request.
    TookReply {
        decision: Decision,
    },
    /// These endpoints get the packet, at this version.
    Delivered {
        version: u64,
        kept: KeptList,
    },
}

/// An event with its answer.
#[derive(Clone, Drop)]
pub struct Done {
    pub event: Event,
    pub answer: Answer,
}
