//! The lines of a run are read back: what a run of a script printed stands, after the script and a line `trace`, for the same
//! events, and `draw` reads from it these events and their answers.
//!
//! These are laws, each the contract of a function that does nothing.
#![tactic(auto)]

mod laws;

pub use laws::{
    lines_are_read_back, packets_are_named, printed_lines_are_drawn, runs_are_drawn,
    traces_are_read_back,
};
