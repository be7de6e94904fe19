//! What engines read and write: a source over any reader, a sink over any writer, and inputs that have a limit.
#![tactic(auto)]

mod fault;
mod input;
mod laws;
mod output;
mod remembering;
mod showing;
mod sink;
mod source;
mod too_long;

pub use fault::EngineFault;
pub use input::{INPUT_BYTES, INPUT_READS, Input, READ_BYTES, read_bounded};
pub use laws::inputs_have_limits;
pub use output::{BLOCK, write_bytes, write_text};
pub use showing::{Shown, show_input};
pub use sink::Sink;
pub use source::{Got, Source};
pub use too_long::refuse_long;
