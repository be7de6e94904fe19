//! What filter expressions say of packets, over each link type.
//!
//! The definitions stand in `specs/`: `Holds` has the expressions, over `Layers`, `Headers` and `Questions`.
#![tactic(auto)]

mod asked;
mod carriage;
mod laws;
mod link;
mod lists;
mod place;

pub use asked::{can_ask, can_load, is_tag};
pub use carriage::{Carriage, carriage_of};
pub use laws::laws as laws_of_expressions;
pub use link::{Link, link_of};
pub use lists::{Item, is_one_more, item_of};
pub use place::{Layer, Place, start};
