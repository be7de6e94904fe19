//! The messages.

use filter_table::{Decision, Op, Vote};

/// A message between core 0 and another core.
#[derive(Clone, Drop)]
pub enum Message {
    /// Core 0 asks whether the core can make the change of this number.
    Prepare { txn: u64, op: Op },
    /// The core's answer.
    Vote { txn: u64, vote: Vote },
    /// Core 0 has the change made.
    Commit { txn: u64 },
    /// Core 0 has the change given up.
    Abort { txn: u64 },
    /// The core has made the change, or given it up.
    Ack { txn: u64 },
    /// A request of the core, for core 0 to start.
    Submit { op: Op },
    /// What became of the core's request.
    Reply { decision: Decision },
}
