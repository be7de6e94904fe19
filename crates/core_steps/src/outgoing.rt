//! What core 0 sends.

use monitor_2pc::Message;

/// What core 0 sends with one event.
#[derive(Drop)]
pub enum Outgoing {
    /// Nothing.
    Nothing,
    /// The message to every other core.
    ToAll(Message),
    /// The message to the core with this entry, which is its number less 1.
    ToOne(usize, Message),
}
