//! What is known of a script that was read so far.

ghost use Rattle.std.specs.Prelude.{◌≤◌, vec_len};

use crate::homes::Homes;
use crate::names::Names;
use crate::script::Item;
use filter_table::{Limits, Program};
use pcap_reader::SharedPacket;
use seq::Shared;
use world_events::Event;

/// What the lines so far mean for those after them, and what they have done.
#[derive(Drop)]
pub(crate) struct Reading<'a> {
    /// Where a line gives them.
    pub limits: Option<Limits>,
    /// None before `cores`.
    pub budgets: Vec<u32>,
    pub programs: Names<'a, Program>,
    pub packets: Names<'a, SharedPacket>,
    pub captures: Names<'a, Shared<SharedPacket>>,
    pub homes: Homes,
    /// How many packets were received; 0 after `trace`.
    pub received: u64,
    /// Whether something was done that only a simulation does.
    pub acted: bool,
    /// Behind `trace`, the receptions before it.
    pub jobs: Option<Vec<Event>>,
    pub items: Vec<Item>,
    ghost counted: { received ≤ vec_len items },
    ghost few: { vec_len budgets ≤ 64 },
}
