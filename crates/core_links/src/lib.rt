//! The links of a core to its peers: what it asks of them, links over rings, and links that keep lists.
//!
//! `Links` is the law by which a core sees the others. Per peer, its contracts show the messages handed over and those
//! taken, as byte strings in order, the whole messages that have come and are not taken, the fault at which the link
//! stopped, and whether it takes a message. Each call says what changes for its peer, and that all others stay as they
//! were.
//!
//! `RingLinks` keeps messages in rings, two for each pair of cores, so a look shows what has come so far. `ListLinks` keeps
//! them in lists that a caller fills and empties by hand, so a look shows all that was given.
#![tactic(auto)]

mod bell;
mod laws;
mod links;
mod list_links;
mod marks;
mod message_list;
mod ring_links;

pub use bell::Bell;
pub use laws::still_rings_are_empty;
pub use links::Links;
pub use list_links::{ListLink, ListLinks};
pub use ring_links::{Link, RingLinks};
pub use ump_ring::{Busy, LineFault};
