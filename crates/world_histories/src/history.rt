//! Events with stamps.

use world_events::Done;

/// An event with its answer and its stamp, the clock of its core. A core's history is a list of these.
#[derive(Drop)]
pub struct Stamped {
    pub stamp: u64,
    pub done: Done,
}
