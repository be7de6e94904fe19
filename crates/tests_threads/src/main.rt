//! Tests of cores as threads, and of the calls of the headline.
#![tactic(auto)]

#[cfg(test)]
mod calls;
#[cfg(test)]
mod facts;
#[cfg(test)]
mod limits;
#[cfg(test)]
mod threads;

/// Does nothing: here are tests alone.
fn main() {}
