//! The engines of `check --graph` and `match --explain`: a program's control flow, and one run after the other.
#![tactic(auto)]

mod explain;
mod graph;
mod program;

pub use explain::run_explain;
pub use program::{draw_program, run_graph};
