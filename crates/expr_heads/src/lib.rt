//! The qualifiers before a value (pcap-filter(7), "type", "dir" and "proto"): how they are read off tokens.
#![tactic(auto)]

mod heads;
mod keywords;

pub use heads::{Head, read_head};
