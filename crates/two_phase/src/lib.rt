//! Two-phase commit, case by case: what core 0 and another core may do, whatever runs them.
#![tactic(auto)]

mod most;
mod step;

pub use most::{DEFAULT_MOST_CORES, MOST_CORES};
pub use step::{Say, StartFault, Step, Stranger};
