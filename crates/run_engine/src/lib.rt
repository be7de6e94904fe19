//! The engine of `run`: runs a script on cores that are threads, and prints what they did.
#![tactic(auto)]

mod engine;
mod lines;
mod work;

pub use core_threads::Watcher;
pub use engine::{RunFailure, run_script};
