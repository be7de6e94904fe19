//! A map in the order of its keys, whose entries lie in chunks and are changed in place. Room for an insert is made before, which may
//! fail; the insert itself and a removal take no memory and can't.
#![tactic(auto)]

mod chunks;
mod edits;
mod items;
mod keys;
mod room;
mod settling;
mod sorted;

pub use items::Items;
pub use sorted::Sorted;
