//! The engine of `keep`: a capture in, and out of it the packets that a filter accepts, as they are.
#![tactic(auto)]

mod block_sieve;
mod choice;
mod keeping;
mod record_sieve;
mod sieve;
mod sifting;

pub use choice::Wanted;
pub use keeping::run_keep;
