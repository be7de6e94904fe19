//! What a line means.

ghost use Rattle.std.specs.Prelude.{◌<◌, ◌≤◌, ◌^◌};

use crate::script::Item;
use filter_table::{Limits, Program};
use pcap_reader::SharedPacket;
use seq::Shared;
use world_events::Event;

/// What a line means.
#[derive(Drop)]
pub(crate) enum Meaning<'a> {
    /// The limits of the machine.
    Limits(Limits),
    /// The budgets of the cores.
    Budgets(Vec<u32>),
    NamedProgram(&'a [u8], Program),
    NamedPacket(&'a [u8], SharedPacket),
    NamedCapture(&'a [u8], Shared<SharedPacket>),
    /// A domain, and the core at which its requests enter from now on.
    Home(u16, u16),
    Does(Item),
    /// A packet that is received.
    Receives(Event),
    Replays(Replay),
    /// The events of a run follow.
    Trace,
    /// A line of a trace that tells of no event.
    Nothing,
}

/// The packets of a capture, received one after another by the cores in turn.
#[derive(Drop)]
pub(crate) struct Replay {
    pub packets: Shared<SharedPacket>,
    pub cores: usize,
    /// How many packets were received before.
    pub received: u64,
    pub floor: u64,
    ghost some: { 0 < cores },
    ghost few: { cores ≤ 64 },
    ghost room: { received < 2 ^ 63 },
}

/// What a line asks for: its meaning, or a name with the body that is to be read.
#[derive(Drop)]
pub(crate) enum Draft<'a> {
    Whole(Meaning<'a>),
    /// The text of a program for the assembler.
    Assembler(&'a [u8], &'a [u8]),
    /// The decimal text of a program.
    Decimal(&'a [u8], &'a [u8]),
    /// The bytes of a capture.
    Savefile(&'a [u8], &'a Shared<u8>),
}
