//! The lines that `sim` and `run` print, read back: the events of a trace, and which of them sent the message that another
//! takes.
#![tactic(auto)]

mod event;
mod lines;
mod messages;
mod picture;
mod trace;
mod words;

pub use event::{Act, TraceAnswer, TraceEvent};
pub use lines::{Line, Read};
pub use messages::{Effect, MessageKind, TraceMessage};
pub use picture::{Picture, Row, link_events};
pub use trace::{TraceFault, read_trace};
