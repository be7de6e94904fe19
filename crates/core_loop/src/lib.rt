//! One core's turn over its links.
#![tactic(auto)]

mod cause;
mod context;
mod core0;
mod deciding;
mod events;
mod joined;
mod laws;
mod listed;
mod live;
mod looking;
mod noting;
mod other_core;
mod part;
mod putting;
mod queue;
mod receiving;
mod refusal;
mod running;
mod sending;
mod turning;

pub use cause::{Cause, Turn};
pub use core_links::{Busy, LineFault, Links, ListLinks, RingLinks};
pub use filter_table::Kept;
pub use laws::cores_compute;
pub use live::NotReceived;
pub use running::Core;
pub use world_histories::Stamped;
