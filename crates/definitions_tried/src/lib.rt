//! The definitions, tried. A definition can be wrong in its own words, and no proof shows it: so here are examples
//! that must hold of them, and some that must not, as the contracts of functions that do nothing.
//!
//! What is expected comes from the papers, manuals, programs and pages that each file names, and never from the code.
#![tactic(auto)]

mod blocks;
mod captures;
mod filters;
mod kernel;
mod messages;
mod printed;
mod readings;
mod scripts;
mod tables;
mod texts;
mod verifier;

pub use blocks::{kept_blocks, read_blocks, refused_blocks};
pub use captures::{read_captures, refused_captures};
pub use filters::{arithmetic, jumps, loads, runs_of_filters, words};
pub use kernel::kernel_programs;
pub use messages::{coded_messages, lines_of_messages};
pub use printed::{matched_lines, printed_events};
pub use readings::told_by_events;
pub use scripts::{script_limits, script_lines, script_words};
pub use tables::{bounds, budgets, capabilities, logs, receivers, refusals, shares};
pub use texts::{assembler_texts, decimal_texts, refused_texts, told_texts};
pub use verifier::{refused_programs, sound_programs};
