//! The turns of one core in its thread.

ghost use Rattle.std.specs.Prelude.{◌≡◌, ◌≢◌, ◌++◌, ◌∷◌, [], List, None, IsTrue};
ghost use Rattle.rx_queue.specs.Queue.{jobs_seen};
ghost use Rattle.world_histories.specs.declared.history.Stamped.{Stamped as GhostStamped};
ghost use Rattle.core_machine.specs.declared.recorded.RecordedTurn.TheVariants.{Did};
ghost use Rattle.core_threads.specs.Watchers.{HasLooked, AsksOfFront, AsksLeave, receipt_of, receipts_of};
ghost use Rattle.core_threads.specs.Runs.{CoreRan, AfterTurn, StandsSo, HasSettled, HasDone};

use crate::backoff::Backoff;
use crate::flags::Flags;
use crate::halt::Halt;
use crate::watcher::{Notes, Watcher};
use core_loop::Links;
use core_machine::{Recorded, RecordedTurn};
use std::sync::Wait;
use std::time::Clock;
use world_events::Event;

/// When a core's thread ends.
#[derive(Clone, Copy)]
pub(crate) struct Bounds {
    /// A core halts after so many turns in a row that did nothing.
    pub(crate) limit: u64,
    /// The requests that were given to other cores than core 0.
    pub(crate) submitted: u64,
}

/// Whether the core has a job in front that the watcher lets through.
fn may_receive<L: Links, G: Watcher>(core: &mut Recorded<L>, watcher: &G, notes: &mut Notes) -> bool
    ensures ran { CoreRan L.same core.old core.new }
    ensures core { core.new ≡ record core.old { intake = core.new.intake } }
    ensures looked { HasLooked core.old.intake core.new.intake }
    ensures asked { AsksOfFront core.new.number (jobs_seen core.new.intake) result notes.old.asked.items notes.new.asked.items }
    ensures told { notes.new.told.items ≡ notes.old.told.items }
{
    core.look();
    let core = core.core();
    match core.seen() {
        Some(job) => watcher.may(notes, core.number(), job.number),
        None => false,
    }
}

/// Takes one turn. It may receive the job in front where the watcher says so.
fn take_turn<L: Links, G: Watcher>(
    core: &mut Recorded<L>,
    watcher: &G,
    notes: &mut Notes,
) -> RecordedTurn
    ensures ran { CoreRan L.same core.old core.new }
    ensures stopped { core.old.stopped ≡ None → AfterTurn L.view result core.new }
    ensures did { result ≡ Did → (s : GhostStamped) × (core.new.history ≡ core.old.history ++ s ∷ []) }
    ensures other { result ≢ Did → core.new.history ≡ core.old.history }
    ensures leave { AsksLeave core.old core.new notes.old.asked.items notes.new.asked.items }
    ensures told { notes.new.told.items ≡ notes.old.told.items }
{
    let rx = may_receive(core, watcher, notes);
    core.turn(rx)
}

/// Tells the watcher of an event that is a receipt, and says whether the event began a request of another core.
fn note<G: Watcher>(event: &Event, watcher: &G, notes: &mut Notes) -> bool
    ensures told { notes.new.told.items ≡ notes.old.told.items ++ receipt_of event.now }
{
    match event {
        Event::Rx {
            core,
            number,
            packet: _,
            floor: _,
        } => {
            watcher.did(notes, *core, *number);
            false
        }
        Event::StartFor { core: _ } => true,
        _ => false,
    }
}

/// Notes the core's last event.
fn note_last<L: Links, G: Watcher>(core: &Recorded<L>, watcher: &G, notes: &mut Notes) -> bool
    ensures told { (before : List GhostStamped) (s : GhostStamped) → core.now.history ≡ before ++ s ∷ [] → notes.new.told.items ≡ notes.old.told.items ++ receipt_of s.done.event }
{
    match core.events().last() {
        Some(last) => note(&last.done.event, watcher, notes),
        None => false,
    }
}

/// Takes one turn, tells the watcher of its event, and counts the requests of other cores that were begun.
fn take_noted_turn<L: Links, G: Watcher>(
    core: &mut Recorded<L>,
    watcher: &G,
    notes: &mut Notes,
    began: &mut u64,
) -> RecordedTurn
    ensures ran { CoreRan L.same core.old core.new }
    ensures stopped { core.old.stopped ≡ None → AfterTurn L.view result core.new }
    ensures told { notes.old.told.items ≡ receipts_of core.old.history → notes.new.told.items ≡ receipts_of core.new.history }
{
    let turn = take_turn(core, watcher, notes);
    if let RecordedTurn::Did = turn {
        if note_last(core, watcher, notes) {
            *began = began.saturating_add(1);
        }
    }
    turn
}

/// Whether every request is decided: core 0 has nothing under way, no request of its own left, and began this many of the others.
/// What an idle core 0 began is decided.
fn is_settled<L: Links>(core: &Recorded<L>, began: u64, bounds: Bounds) -> bool
    ensures { IsTrue result → HasSettled L.view core.now }
{
    let core = core.core();
    core.number() == 0 && began == bounds.submitted && core.pending() == 0 && core.idle()
}

/// Whether nothing is left for the core to do. The flags are read before the queue is looked at.
fn is_done<L: Links>(core: &mut Recorded<L>, flags: &Flags) -> bool
    ensures ran { CoreRan L.same core.old core.new }
    ensures core { core.new ≡ record core.old { intake = core.new.intake } }
    ensures done { IsTrue result → HasDone L.view core.new }
{
    if !flags.is_settled() || !core.core().idle() {
        return false;
    }
    let fed = flags.is_fed();
    core.look();
    let core = core.core();
    match core.seen() {
        Some(job) => job.floor > core.version(),
        None => fed,
    }
}

/// Takes turns until the core ends, and says why it halted, if it did. The watcher is told of each receipt once.
pub(crate) fn run_core<L: Links, R: Wait + Clock, G: Watcher>(
    rt: &R,
    core: &mut Recorded<L>,
    flags: &Flags,
    watcher: &G,
    notes: &mut Notes,
    bounds: Bounds,
) -> Option<Halt>
    ensures ran { CoreRan L.same core.old core.new }
    ensures stands { core.old.stopped ≡ None → StandsSo L.view result core.new }
    ensures told { notes.old.told.items ≡ receipts_of core.old.history → notes.new.told.items ≡ receipts_of core.new.history }
{
    let mut backoff = Backoff::new();
    let mut began = 0u64;
    for _ in rt.forever() {
        if flags.is_halted() {
            break;
        }
        match take_noted_turn(core, watcher, notes, &mut began) {
            RecordedTurn::Did => backoff.reset(),
            RecordedTurn::Idle => {
                if is_done(core, flags) {
                    break;
                }
                backoff.wait(rt);
                if backoff.waits() >= bounds.limit {
                    return Some(Halt::Limit);
                }
            }
            RecordedTurn::Stopped(cause) => return Some(Halt::Cause(cause)),
            RecordedTurn::Spent => return Some(Halt::Spent),
            RecordedTurn::NoMemory => return Some(Halt::NoMemory),
            RecordedTurn::NoRoom => return Some(Halt::NoRoom),
        }
        if is_settled(core, began, bounds) {
            flags.settle();
        }
    }
    None
}
