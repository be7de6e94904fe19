//! What the tests share: requests, answers and decisions in plain values, and packets and programs that several runs use.
#![tactic(auto)]

mod asks;
mod jobs;
mod told;

pub use asks::{ALL, ARP, Ask, REQUEST, THREE, op, program};
pub use jobs::{BYTES, job, packet};
pub use told::{
    CAP, EventWords, FILTER, NO_FILTER, NO_MEMORY_ON_1, OVER_BUDGET_OF_1, OVER_BUDGET_OF_2, TAKEN,
    is_for_memory, no_memory, tells,
};
