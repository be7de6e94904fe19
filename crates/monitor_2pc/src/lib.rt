//! Two-phase commit between core 0, which coordinates, and the other cores, so that each change of the table is made at every
//! core or at none (Gray, "Notes on data base operating systems", 1978, section 5.8.3; Baumann and others, "The Multikernel",
//! SOSP 2009, section 4.4).
//!
//! Core 0 is idle, waits for votes, or waits for acknowledgements. A request is staged on core 0; what refuses it there decides
//! it at once. Otherwise it gets the next number and every other core is asked (Prepare). Each stages the request and votes.
//! With the last vote core 0 commits where all are Yes, else it aborts with the veto of the least core that refused, and says
//! so. Each core commits or aborts what it has staged and answers Ack. With the last Ack core 0 is idle again.
//!
//! Another core sends its request to core 0 (Submit) and has one outstanding at most. Core 0 keeps it as waiting, at most one
//! for each core, until it starts it; the decision goes back as Reply, at once where the start decides, else with the last Ack.
//!
//! A message that doesn't fit, by its number, its sender or the time, is a stranger and changes nothing.
//!
//! A `Coordinator` and a `Participant` own no replica. The one that they are lent must have an operation staged exactly where
//! core 0 waits for votes on it, or where the participant has voted Yes on it and has neither committed nor aborted it since.
#![tactic(auto)]

mod coordinator;
mod participant;
mod tally;
mod waiting;

pub use coordinator::{Coordinator, veto_of};
pub use monitor_messages::{Decision, DecodeFault, Message, Veto, Vote, decode, encode};
pub use participant::Participant;
pub use two_phase::{DEFAULT_MOST_CORES, MOST_CORES, Say, StartFault, Step, Stranger};
