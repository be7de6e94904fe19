//! Cores over lists, whose messages the tests carry.

mod alone;
mod lines;
mod two_cores;

ghost use Rattle.std.specs.Prelude.{◌≤◌, ◌<◌};
ghost use Rattle.filter_table.specs.Tables.{HasShortProgram};

use core_loop::{Core, ListLinks};
use core_machine::{Recorded, RecordedTurn};
use rx_queue::{Port, queue};
use std::alloc::{AllocError, Global};
use std::collections::VecDeque;
use std::process::Abort;
use table_replica::{Limits, Op};

pub(crate) fn create() -> Op
    ensures { HasShortProgram result }
{
    Op::Create {
        domain: 1,
        endpoint: 7,
    }
}

/// A list with the one request to create an endpoint.
pub(crate) fn creation(rt: &impl Abort, alloc: Global) -> VecDeque<Op> {
    let mut requests = VecDeque::new(alloc);
    requests.push_back(create()).expect(rt, "there is memory");
    requests
}

/// A core other than 0 has no requests.
pub(crate) fn core_of(
    rt: &impl Abort,
    alloc: Global,
    number: u16,
    cores: u16,
    capacity: usize,
) -> (Recorded<ListLinks>, Port)
    requires number { 1 ≤ number × number < cores × cores ≤ 8 }
{
    let (port, intake) = queue(alloc, 4).expect(rt, "there is memory");
    let links = ListLinks::new(alloc, number, cores, capacity).expect(rt, "there is memory");
    let core = Core::new(
        alloc,
        links,
        Limits::DEFAULT,
        100,
        number,
        cores,
        VecDeque::new(alloc),
        intake,
    );
    let core = core.expect(rt, "there is memory");
    (Recorded::new(alloc, core), port)
}

/// The events of a core's history, its version, and its requests that are pending.
pub(crate) fn place(recorded: &Recorded<ListLinks>) -> (usize, u64, usize) {
    let core = recorded.core();
    (recorded.events().len(), core.version(), core.pending())
}

/// Whether the core took a turn for which there was memory.
pub(crate) fn has_turned(core: &mut Recorded<ListLinks>) -> bool {
    !matches!(
        core.turn(true),
        RecordedTurn::NoMemory | RecordedTurn::NoRoom
    )
}

/// Gives what a core sent to a peer to that peer. A copy that is refused memory once is tried again, so that no message is lost.
pub(crate) fn carry(
    alloc: Global,
    from: &mut Recorded<ListLinks>,
    to: &mut Recorded<ListLinks>,
) -> Result<(), AllocError> {
    let (sender, peer) = (from.core().number(), to.core().number());
    for _ in 0..8 {
        if !from.mark_collected(peer) {
            return Ok(());
        }
        let Some(bytes) = from.core().last_collected(peer) else {
            return Ok(());
        };
        if bytes.is_empty() || bytes.len() > 32832 {
            return Ok(());
        }
        let message = match Vec::from_slice(alloc, bytes) {
            Ok(message) => message,
            Err(_) => Vec::from_slice(alloc, bytes)?,
        };
        let _ = to.give(sender, message);
    }
    Ok(())
}
