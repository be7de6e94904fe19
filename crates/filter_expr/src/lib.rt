//! Filter expressions as people write them (pcap-filter(7)), as verified programs: from a text, over a link type, to a program
//! that accepts just the packets of which the expression is true.
#![tactic(auto)]

mod compiler;
mod fault;
mod messages;

pub use compiler::{compile, compile_tree};
pub use expr_meaning::{Link, link_of};
pub use expr_parse::{ExprFault, ExprFaultKind, parse};
pub use expr_tree::Tree;
pub use expr_words::{Refusal, WordFaultKind};
pub use fault::CompileFault;
pub use messages::explain;
