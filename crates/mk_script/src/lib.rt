//! Scripts: the language in which domains, their capabilities, filters and packets are described, and the order in which
//! the cores do things.
//!
//! A script is read whole before anything is done. Each line is a command; empty lines, and those whose first word begins
//! with `#`, are skipped. Programs, packets and captures have names, in namespaces of their own.
#![tactic(auto)]

mod bodies;
mod commands;
mod drafts;
mod fault;
mod homes;
mod laws;
mod lines;
mod meaning;
mod names;
mod number;
mod reader;
mod reading;
mod rows;
mod script;
mod settings;
mod state;
mod trace;
mod words;

pub use fault::{BodyFault, ScriptFault, ScriptFaultKind};
pub use laws::{faults_are_told_in_order, scripts_for_threads_are_scripts};
pub use reader::read_script;
pub use script::{BudgetList, Item, ItemList, Script};
