//! The engine of `sim`: runs a script on the world of the cores, and prints what each does.
#![tactic(auto)]

mod engine;
mod requests;
mod running;
mod simulation;
mod way;

pub use engine::{run_sim, run_sim_over};
