//! What an address, a number or a name says after its qualifiers (pcap-filter(7), "type", "dir" and "proto").
#![tactic(auto)]

mod address;
mod kinds;
mod marks;
mod masks;
mod numbers;
mod qualifiers;
mod values;

pub use kinds::{Quals, ValueKind};
pub use values::value;
