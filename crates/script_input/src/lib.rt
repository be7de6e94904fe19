//! What a command reads before it does a script: the script and its files. And what it prints where it can't do the script.
#![tactic(auto)]

mod faults;
mod files;
mod inputs;
mod refusals;

pub use inputs::{Inputs, read_inputs};
pub use refusals::refuse;
