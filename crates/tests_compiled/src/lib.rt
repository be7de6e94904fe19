//! Filter expressions as programs, on packets.
#![tactic(auto)]

#[cfg(test)]
mod compiled;
#[cfg(test)]
mod vectors;
