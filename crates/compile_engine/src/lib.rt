//! `compile`: the program of a filter expression, or the expression as it was read, printed.
#![tactic(auto)]

mod compiling;
mod listing;
mod tree;

pub use compiling::run_compile;
pub use listing::Listing;
pub use tree::run_tree;
