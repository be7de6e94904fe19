//! Answers and decisions.

use filter_table::{Decision, Made, OpFault, Veto};
use monitor_messages::Vote;
use world_model::Answer;

/// What an event tells. Of the endpoints that get a packet, it has how many there are and the first, with so many bytes, or zeros.
#[derive(Clone, Copy, PartialEq, Eq, Debug)]
pub enum EventWords {
    Prepared(u64),
    Decided(Decision),
    Submitted,
    TookPrepare(u64, Vote),
    TookVote(u64, Vote, Option<Decision>),
    TookCommit(u64, u64),
    TookAbort(u64, u64),
    TookAck(u64),
    TookSubmit,
    TookReply(Decision),
    Delivered(u64, usize, u16, u32),
}

/// What an answer tells.
pub fn tells(answer: &Answer) -> EventWords {
    match answer {
        Answer::Prepared { txn } => EventWords::Prepared(*txn),
        Answer::Decided(decision) => EventWords::Decided(*decision),
        Answer::Submitted => EventWords::Submitted,
        Answer::TookPrepare { txn, vote } => EventWords::TookPrepare(*txn, *vote),
        Answer::TookVote { txn, vote, decided } => EventWords::TookVote(*txn, *vote, *decided),
        Answer::TookCommit { txn, version } => EventWords::TookCommit(*txn, *version),
        Answer::TookAbort { txn, version } => EventWords::TookAbort(*txn, *version),
        Answer::TookAck { txn } => EventWords::TookAck(*txn),
        Answer::TookSubmit => EventWords::TookSubmit,
        Answer::TookReply { decision } => EventWords::TookReply(*decision),
        Answer::Delivered { version, kept } => {
            let kept = kept.as_slice();
            match kept.first() {
                Some(first) => EventWords::Delivered(
                    *version,
                    kept.len(),
                    first.endpoint,
                    first.kept,
                ),
                None => EventWords::Delivered(*version, 0, 0, 0),
            }
        }
    }
}

/// Whether a core had no memory: it voted so, or it was so decided.
pub fn is_for_memory(answer: &Answer) -> bool {
    match answer {
        Answer::TookPrepare { vote, .. } => *vote == Vote::NoMemory,
        Answer::Decided(Decision::Refused { why, .. })
        | Answer::TookVote {
            decided: Some(Decision::Refused { why, .. }),
            ..
        } => *why == Veto::NoMemory,
        _ => false,
    }
}

/// The first capability is made, at the first version.
pub const CAP: Decision = Decision::Committed {
    version: 1,
    made: Made::Cap(1),
};

/// The first filter is made, at the second version.
pub const FILTER: Decision = Decision::Committed {
    version: 2,
    made: Made::Filter(1),
};

/// The endpoint has a capability already.
pub const TAKEN: Decision = Decision::Refused {
    core: 0,
    why: Veto::Rule(OpFault::EndpointTaken),
};

/// There is no such filter.
pub const NO_FILTER: Decision = Decision::Refused {
    core: 0,
    why: Veto::Rule(OpFault::NoFilter),
};

/// The filters are too long for core 1.
pub const OVER_BUDGET_OF_1: Decision = Decision::Refused {
    core: 1,
    why: Veto::Budget,
};

/// The filters are too long for core 2.
pub const OVER_BUDGET_OF_2: Decision = Decision::Refused {
    core: 2,
    why: Veto::Budget,
};

/// Core 1 has no memory for the operation.
pub const NO_MEMORY_ON_1: Decision = Decision::Refused {
    core: 1,
    why: Veto::NoMemory,
};

/// A core has no memory for the operation.
pub fn no_memory(core: u16) -> Decision {
    Decision::Refused {
        core,
        why: Veto::NoMemory,
    }
}
