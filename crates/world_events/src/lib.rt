//! The words of a machine of cores: what one core does, what it answers, and why an event is not done.
#![tactic(auto)]

mod boot;
mod event;
mod fault;

pub use boot::BootFault;
pub use event::{Answer, Done, Event};
pub use fault::WorldFault;
