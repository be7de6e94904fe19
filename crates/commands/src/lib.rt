//! What the program does for each request.
#![tactic(auto)]

mod performing;

pub use performing::{Choices, most_reads, perform};
