//! One step of one core, whoever carries its messages.
//!
//! Core 0 starts requests and takes messages of the other cores; another core submits requests and takes messages of core 0;
//! each receives packets. A step that sends messages comes in two calls: the first names what is sent, the second does the
//! step and takes no memory. So the messages are made ready between the two. A start and a vote stage the operation in the first
//! call; where memory is refused after it, `withdraw` takes that back.
#![tactic(auto)]

mod core0;
mod other_core;
mod outgoing;
mod receiving;
mod unread;

pub use core0::{Core0, Told};
pub use monitor_2pc::Stranger;
pub use other_core::OtherCore;
pub use outgoing::Outgoing;
pub use receiving::receive;
pub use unread::{Ballot, Unread};
