//! Filter expressions as texts: with all of their qualifiers, and with parentheses wherever `and` meets `or`.
#![tactic(auto)]

mod names;
mod primitives;
mod printer;
mod same;

pub use printer::{PrintFault, print};
