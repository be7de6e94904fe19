//! The words of the table that every core keeps a replica of: its operations and their refusals, what they make, what the cores
//! decide of them, its limits, and which endpoints get a packet; with the definition of the table after a log of operations.
#![tactic(auto)]

mod decision;
mod delivery;
mod limits;
mod loading;
mod operation;

pub use decision::{Decision, Veto, Vote};
pub use delivery::{Kept, KeptList};
pub use limits::Limits;
pub use loading::Load;
pub use operation::{Made, Op, OpFault, Program, StageFault};
