//! Filter expressions as trees, and the text that a tree is printed as.
//!
//! A tree is a list of nodes, each after those below it. A chain of `and` and `or`, which have one rank, leans to the left,
//! as it is read: a walk over a tree loops along the first operands, and recurs into second operands, into what `not` turns
//! round, and into calculations, which are 200 levels deep at most.
#![tactic(auto)]

mod calc;
mod test;
mod tree;

pub use calc::{Calc, Operator, Relation, Size};
pub use test::{Carrier, Header, Net4, Net6, Side, Test, Transport};
pub use tree::{Kind, Node, Tree};
