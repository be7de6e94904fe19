//! A core over rings whose lines are written by hand.

ghost use Rattle.std.specs.Prelude.{ℕ, IfOk};
ghost use Rattle.core_links.specs.RingSlots.{ring_view};
ghost use Rattle.core_loop.specs.Standing.{IsSilent};

use crate::facts::equal;
use core_links::Bell;
use core_loop::{Cause, Core, LineFault, RingLinks};
use core_machine::{Recorded, RecordedTurn};
use rtrb::RingBuffer;
use rx_queue::{Port, queue};
use std::alloc::{AllocError, Global};
use std::collections::VecDeque;
use std::process::Abort;
use table_replica::Limits;
use ump_ring::{Joiner, Line, Receiver, ring};

/// The links of core 1 of two, over which these lines have come: their first two words, where all others are 0.
fn given_links(alloc: Global, heads: &[(u64, u64)]) -> Result<RingLinks, AllocError>
    ensures { IfOk result (λ r. (p : ℕ) → IsSilent (ring_view r p)) }
{
    let (mut producer, consumer) = RingBuffer::<Line>::new(alloc, 8)?;
    let receiver = Receiver::new(consumer, Joiner::new(alloc)?);
    for (head, word) in heads {
        let _ = producer.push([*head, *word, 0, 0, 0, 0, 0, 0]);
    }
    let (sender, _) = ring(alloc, 1)?;
    let mut links = RingLinks::new(alloc, 1, 2)?;
    links.join(0, sender, receiver, Bell::new(alloc)?);
    Ok(links)
}

/// That core, with the port of its queue.
fn given_core(rt: &impl Abort, alloc: Global, heads: &[(u64, u64)]) -> (Recorded<RingLinks>, Port) {
    let (port, intake) = queue(alloc, 1).expect(rt, "there is memory");
    let links = given_links(alloc, heads).expect(rt, "there is memory");
    let core = Core::new(
        alloc,
        links,
        Limits::DEFAULT,
        100,
        1,
        2,
        VecDeque::new(alloc),
        intake,
    );
    let core = core.expect(rt, "there is memory");
    (Recorded::new(alloc, core), port)
}

/// What two turns answer, and what the core has done and knows then.
fn two_turns(core: &mut Recorded<RingLinks>) -> (RecordedTurn, RecordedTurn, u64, usize) {
    let first = core.turn(true);
    let second = core.turn(true);
    (first, second, core.core().version(), core.events().len())
}

/// What two turns of that core come to.
fn turns_at(
    rt: &impl Abort,
    alloc: Global,
    heads: &[(u64, u64)],
) -> (RecordedTurn, RecordedTurn, u64, usize) {
    let (mut core, port) = given_core(rt, alloc, heads);
    let found = two_turns(&mut core);
    drop((core, port));
    found
}

/// The heads of lines, and what stops the core at them.
static STOPS: [(&[(u64, u64)], Cause); 4] = [
    (&[(4294967297, 5)], Cause::Line(LineFault::OutOfSequence)),
    (&[(0, 0)], Cause::Line(LineFault::BadLength)),
    // A bad padding.
    (&[(4294967296, 261)], Cause::Line(LineFault::BadLength)),
    // Bytes that are no message.
    (&[(4294967296, 9)], Cause::BadMessage),
];

#[test]
fn lines_that_stop_a_core(rt: HostRuntime) {
    for (heads, cause) in &STOPS {
        let found = turns_at(&rt, rt.alloc(), heads);
        let stopped = RecordedTurn::Stopped(*cause);
        equal(&rt, found, (stopped, stopped, 0, 0));
    }
}
