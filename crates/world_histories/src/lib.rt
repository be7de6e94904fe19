//! The histories of cores that ran beside each other, with no common time: each core did what the protocol says, and took the
//! messages of each other in the order in which they were sent. Here are the definitions of one core's history and of the
//! histories of all, and what holds of them whatever the order in time was (Lamport, "Time, clocks, and the ordering of events in
//! a distributed system", CACM 1978).
#![tactic(auto)]

mod history;
mod laws;

pub use history::Stamped;
pub use laws::{answers_are_right, histories_agree, histories_are_one_run};
