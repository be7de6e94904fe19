//! Steps, and what comes of them.

use core_loop::{NotReceived, Turn};
use filter_table::{Kept, Op};
use pcap_reader::SharedPacket;

/// What is asked of a core.
#[derive(Drop)]
pub enum Task {
    /// A turn, which may receive the front job of its queue where `rx` is true.
    Turn { rx: bool },
    /// One request more.
    Ask { op: Op },
    /// The receipt of a packet.
    Receive { packet: SharedPacket },
}

/// A task, and the core that it is for.
#[derive(Drop)]
pub struct CoreStep {
    pub core: u16,
    pub task: Task,
}

/// What came of a step.
#[derive(Drop)]
pub enum StepOutcome {
    Turned(Turn),
    Asked,
    /// The endpoints that get the packet, with the bytes that each keeps, at the core's version.
    Received { version: u64, kept: Vec<Kept> },
    NotReceived(NotReceived),
    /// Memory was refused for the request, or for the list of the endpoints. Nothing is done.
    NoMemory,
}
