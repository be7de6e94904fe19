//! The machine as one list of events: in each, one core starts or submits a request, takes a message or receives a packet.
//!
//! Core 0 and every other core are joined by two channels. A `World` has all cores with their replicas of the table, their
//! places in the protocol and the messages under way, and does one event after another, in any order.
#![tactic(auto)]

mod channel;
mod core0;
mod hearing;
mod lines;
mod peer;
mod sending;
mod settling;
mod starting;
mod world;

pub use channel::{Channel, Messages};
pub use filter_table::KeptList;
pub use lines::{Lines, MessageLines};
pub use world::{World, WorldOver};
pub use world_events::{Answer, BootFault, Done, Event, WorldFault};
