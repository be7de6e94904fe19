//! The machine as one list of events: in each, one core starts or submits a request, takes a message or receives a packet. Here
//! are the events and their answers, the definition of every run of them, and what holds of every run.
//!
//! Core 0 and every other core are joined by two channels, which keep messages in order. Nothing is said of when a core does
//! something: the laws hold for every interleaving (Baumann and others, "The Multikernel", SOSP 2009).
#![tactic(auto)]

mod laws;

pub use filter_table::KeptList;
pub use laws::{
    decisions_are_right, packets_are_delivered, replicas_agree, replies_are_right, tables_are_sound,
};
pub use world_events::{Answer, Done, Event};
