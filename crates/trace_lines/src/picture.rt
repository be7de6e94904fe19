//! A trace as a picture: its events, row by row, with the messages between them.

ghost use Rattle.std.specs.Prelude.{◌≡◌, map, IfOk};
ghost use Rattle.trace_lines.specs.Links.{core_in, drawn_of, highest_of, left_of};
ghost use Rattle.trace_lines.specs.Views.{drawn, shown};

use crate::event::Act;
use crate::lines::Line;
use crate::messages::{State, TraceMessage, follow, under_way};
use std::alloc::{AllocError, Global};

/// An event of a picture.
#[derive(Clone, Copy, Debug)]
pub struct Row<'a> {
    /// Its place, from 0.
    pub row: usize,
    /// The place of the event that sent the message that it takes.
    pub sender: Option<usize>,
    pub line: Line<'a>,
}

/// The events of a trace and their messages.
#[derive(Drop)]
pub struct Picture<'a> {
    /// The last core.
    pub highest: u16,
    pub rows: Vec<Row<'a>>,
    /// The messages under way at the end.
    pub left: Vec<TraceMessage>,
}

fn core_in(act: Act) -> u16
    ensures { result ≡ core_in act }
{
    match act {
        Act::Start => 0,
        Act::Submit(core)
        | Act::StartFor(core)
        | Act::TakeUp(core)
        | Act::TakeDown(core)
        | Act::Rx(core) => core,
    }
}

/// The last core that an event names.
fn highest(lines: &[Line<'_>]) -> u16
    ensures { result ≡ highest_of (map shown lines.now) }
{
    let mut highest = 0u16;
    for line in lines {
        highest = highest.max(core_in(line.event.act));
    }
    highest
}

/// Finds the sender of each message that is taken, in time that grows with the number of events.
///
/// Between two cores messages are taken in the order in which they were sent. An event that takes one when none is under way
/// has no sender: its message was sent before the first line.
pub fn link_events<'a>(alloc: Global, lines: &[Line<'a>]) -> Result<Picture<'a>, AllocError>
    ensures highest { IfOk result (λ p. p.highest ≡ highest_of (map shown lines.now)) }
    ensures rows { IfOk result (λ p. map drawn p.rows.items ≡ drawn_of (map shown lines.now)) }
    ensures left { IfOk result (λ p. p.left.items ≡ left_of (map shown lines.now)) }
{
    let highest = highest(lines);
    let mut rows = Vec::new(alloc);
    let mut state = State {
        messages: Vec::new(alloc),
        fronts: Vec::new(alloc),
        asker: 0,
        acks: highest,
    };
    for row in 0..lines.len() {
        let line = lines[row];
        let sender = follow(&mut state, highest, row, line.event)?;
        rows.push(Row { row, sender, line })?;
    }
    let left = under_way(alloc, &state)?;
    Ok(Picture {
        highest,
        rows,
        left,
    })
}
