//! Tests of machines by their public calls: all cores as one value, a core that runs, cores that serve in one thread, and joined cores.
#![tactic(auto)]

#[cfg(test)]
mod again;
#[cfg(test)]
mod ending;
#[cfg(test)]
mod facts;
#[cfg(test)]
mod joined;
#[cfg(test)]
mod memory;
#[cfg(test)]
mod random;
#[cfg(test)]
mod running;
#[cfg(test)]
mod scripts;
#[cfg(test)]
mod words;
#[cfg(test)]
mod world;

/// Does nothing: here are tests alone.
fn main() {}
