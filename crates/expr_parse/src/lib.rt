//! Filter expressions as people write them (pcap-filter(7)): from a text to a tree.
//!
//! One token is looked at at a time; what stands behind the `)` of a `(` is looked up in a table that is made first. So a text is
//! read in time that grows as its length does. Chains of `and`, `or` and of operators are loops; what stands in parentheses,
//! brackets, behind `not` and behind a sign is read by recursion, 200 levels deep at most.
#![tactic(auto)]

mod brackets;
mod calculations;
mod cursor;
mod fault;
mod items;
mod operators;
mod parser;
mod primitives;
mod text;
mod value_fault;
mod words;

pub use fault::{ExprFault, ExprFaultKind};
pub use text::{MAX_LEVELS, parse};
