//! From filter expressions to conditions on packets.
#![tactic(auto)]

mod compare;
mod constant;
mod fault;
mod operand;
mod spine;
mod walk;

pub use fault::LowerFault;
pub use walk::lower;
