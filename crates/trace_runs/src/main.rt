//! A run's events, done again: `sim` does a merged run of cores again after the requests of its script, and shows the same lines
//! unless a core is out of memory (Lamport, "Time, clocks, and the ordering of events in a distributed system", CACM 1978). What
//! `run` printed is such a run: after its script and a line `trace`, `sim` shows its events once more.
//!
//! Here are laws alone, each the contract of a function that does nothing. No crate stands on them, so this is a program, which does
//! nothing either.
#![tactic(auto)]

mod laws;

pub use laws::{
    merged_runs_are_done_again, outputs_are_drawn, printed_runs_are_done_again,
    runs_are_done_again, sim_shows_the_trace,
};

/// Does nothing: here are laws alone.
fn main() {}
