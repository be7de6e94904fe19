//! A list whose items lie in blocks of one length, each a ring, so that an edit at any place moves one block's items and one item of each
//! later block, and a place is found without a search (Goodrich, Kloss, "Tiered vectors: efficient dynamic arrays for rank-based
//! sequences", WADS 1999).
#![tactic(auto)]

mod block;
mod carry;
mod copies;
mod edits;
mod list;
mod tiers;

pub use list::Tiered;
