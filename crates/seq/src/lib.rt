//! Two types for the lists that contracts speak of, one that owns its items and one that shares them. Each is seen as the list of its
//! items, whatever memory it has.
#![tactic(auto)]

mod list;
mod shared;

pub use list::Seq;
pub use shared::Shared;
