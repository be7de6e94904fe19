//! The table that every core keeps a replica of: capabilities over endpoints, and the filters that say which packets reach them.
//!
//! A replica changes in place, by operations that are staged, which takes all memory, and then committed or aborted, which takes none
//! (Baumann and others, "The Multikernel", SOSP 2009: replicated state, changed by two-phase commit).
#![tactic(auto)]

mod boxed;
mod changing;
mod contents;
mod plan;
mod replica;
mod shares;

pub use boxed::FilterIter;
pub use bpf_insn::Insn;
use contents::Contents;
pub use filter_table::{Kept, Limits, Load, Made, Op, OpFault, Program, StageFault};
pub use filter_verify::Code;
pub use installed_filters::{Filter, Receivers, Workspace};
pub use replica::Replica;
use thiserror::Error;

/// Nothing is staged.
#[derive(Clone, Copy, PartialEq, Eq, Debug, Drop, Error)]
#[error("nothing is staged")]
pub struct NothingStaged;
