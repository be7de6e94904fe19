//! A script's items on the world.

ghost use Rattle.std.specs.Prelude.{◌≡◌, ◌<◌, ◌++◌, ◌∷◌, ℕ, List, Some, None, Result, IfOk, OnOk, MatchOption, is_ok};
ghost use Rattle.std.specs.List.{flat_map};
ghost use Rattle.sim_engine.specs.declared.requests.PendingRequest.{PendingRequest};
ghost use Rattle.sim_engine.specs.Pending.{left, IsLeft};
ghost use Rattle.filter_table.specs.Tables.{HasShortProgram};
ghost use Rattle.filter_table.specs.declared.operation.Op.{Op as GhostOp};
ghost use Rattle.world_events.specs.declared.event.Answer.{Answer as GhostAnswer};
ghost use Rattle.world_events.specs.declared.fault.WorldFault.{WorldFault as GhostFault};
ghost use Rattle.world_model.specs.Refusals.{IsShortEvent, waiting_at};
ghost use Rattle.sim_lines.specs.Events.{event_line, done_line};
ghost use Rattle.sim_engine.specs.Keeping.{IsFirst};
ghost use Rattle.sim_engine.specs.Simulations.{Tells, Begins, Quiets, BeginsNext, NoneWaits, SettlesAll, Shows, no_core_line, nothing_line, sim};
ghost use Rattle.sim_engine.specs.Ways.{event_of, way_of};

use crate::requests::Requests;
use crate::way::Way;
use filter_table::Op;
use monitor_2pc::MOST_CORES;
use sim_lines::{line_of, show_core};
use std::alloc::{AllocError, Global};
use std::fmt::Write;
use world_core::{Channel, WorldFault, WorldOver};
use world_events::{Done, Event};

/// Begins the first request of the way's core.
pub(crate) fn begin<C: Channel>(
    alloc: Global,
    world: &mut WorldOver<C>,
    requests: &mut Requests,
    by: Way,
    text: &mut Vec<u8>,
) -> Result<(), AllocError>
    ensures { OnOk result ((line : List ℕ) × Begins (sim world.old requests.old) by (sim world.new requests.new) line
        × (text.new.items ≡ text.old.items ++ line)) }
{
    let Some(place) = requests.first_at(by.home()) else {
        push_nothing(alloc, by, text)?;
        return Ok(());
    };
    let Some(request) = requests.at(place) else {
        unreachable!()
    };
    if begin_one(alloc, world, by, &request.op, text)? {
        requests.remove(place);
    }
    Ok(())
}

/// Says that there is nothing to begin so.
fn push_nothing(alloc: Global, by: Way, text: &mut Vec<u8>) -> Result<(), AllocError>
    ensures { OnOk result (text.new.items ≡ text.old.items ++ nothing_line by) }
{
    match by {
        Way::Start => text.extend_from_slice(b"start: fault Nothing\n"),
        Way::Submit(core) => {
            let line = format!(in alloc; "submit {core}: fault Nothing\n")?;
            text.extend_from_slice(line.as_bytes())
        }
    }
}

/// Begins a request, or says why it is not begun, and tells whether it was.
fn begin_one<C: Channel>(
    alloc: Global,
    world: &mut WorldOver<C>,
    by: Way,
    op: &Op,
    text: &mut Vec<u8>,
) -> Result<bool, AllocError>
    requires { HasShortProgram op.now }
    ensures { IfOk result (λ done. (told : Result GhostAnswer GhostFault) × Tells world.old (event_of by op.now) told world.new
        × (text.new.items ≡ text.old.items ++ event_line (event_of by op.now) told) × (done ≡ is_ok told)) }
{
    let event = by.event(op)?;
    tell(alloc, world, &event, text)
}

/// Does an event, or says why it is not done, and tells whether it was done.
pub(crate) fn tell<C: Channel>(
    alloc: Global,
    world: &mut WorldOver<C>,
    event: &Event,
    text: &mut Vec<u8>,
) -> Result<bool, AllocError>
    requires { IsShortEvent event.now }
    ensures { IfOk result (λ done. (told : Result GhostAnswer GhostFault) × Tells world.old event.now told world.new
        × (text.new.items ≡ text.old.items ++ event_line event.now told) × (done ≡ is_ok told)) }
{
    let told = world.apply(event);
    if let Err(WorldFault::NoMemory) = told {
        return Err(AllocError);
    }
    let line = line_of(alloc, event, &told)?;
    text.extend_from_slice(line.as_slice())?;
    Ok(told.is_ok())
}

/// Takes all messages, and begins all that is left, up to a fault.
pub(crate) fn settle<C: Channel>(
    alloc: Global,
    world: &mut WorldOver<C>,
    requests: &mut Requests,
    text: &mut Vec<u8>,
) -> Result<(), AllocError>
    ensures { OnOk result ((lines : List ℕ) × SettlesAll (sim world.old requests.old) (sim world.new requests.new) lines
        × (text.new.items ≡ text.old.items ++ lines)) }
{
    'requests: loop {
        quiet(alloc, world, text)?;
        if !begin_next(alloc, world, requests, text)? {
            return Ok(());
        }
    }
}

/// Begins what is next, if something is left, and tells whether it was begun.
fn begin_next<C: Channel>(
    alloc: Global,
    world: &mut WorldOver<C>,
    requests: &mut Requests,
    text: &mut Vec<u8>,
) -> Result<bool, AllocError>
    ensures { IfOk result (λ more. (lines : List ℕ) × BeginsNext (sim world.old requests.old) (sim world.new requests.new) lines more
        × (text.new.items ≡ text.old.items ++ lines)) }
{
    if let Some(core) = least_waiting(world) {
        return tell(alloc, world, &Event::StartFor { core }, text);
    }
    match requests.first() {
        Some(place) => begin_at(alloc, world, requests, place, text),
        None => Ok(false),
    }
}

/// The least core that has a request waiting on core 0.
fn least_waiting<C: Channel>(world: &WorldOver<C>) -> Option<u16>
    ensures { MatchOption result (NoneWaits world.now) (λ core. (op : GhostOp) × (waiting_at world.now core ≡ Some op)
        × ((less : ℕ) → less < core → waiting_at world.now less ≡ None)) }
{
    for core in 0..MOST_CORES {
        // No core from here on is there, so that none has a request waiting.
        let Some(_) = world.replica(core) else {
            return None;
        };
        if world.waiting(core).is_some() {
            return Some(core);
        }
    }
    None
}

/// Takes all messages.
fn quiet<C: Channel>(
    alloc: Global,
    world: &mut WorldOver<C>,
    text: &mut Vec<u8>,
) -> Result<(), AllocError>
    ensures { OnOk result ((lines : List ℕ) × Quiets world.old world.new lines × (text.new.items ≡ text.old.items ++ lines)) }
{
    let mut taken = Vec::new(alloc);
    world.settle(&mut taken)?;
    push_taken(alloc, taken, text)
}

/// The lines of messages that were taken.
fn push_taken(alloc: Global, taken: Vec<Done>, text: &mut Vec<u8>) -> Result<(), AllocError>
    ensures { OnOk result (text.new.items ≡ text.old.items ++ flat_map done_line taken.items) }
{
    for done in taken {
        let line = line_of_done(alloc, done)?;
        text.extend_from_slice(line.as_slice())?;
    }
    Ok(())
}

/// The line of an event that was done.
fn line_of_done(alloc: Global, done: Done) -> Result<Vec<u8>, AllocError>
    ensures { IfOk result (λ line. line.items ≡ done_line done) }
{
    let Done { event, answer } = done;
    line_of(alloc, &event, &Ok(answer))
}

/// Shows a core's table.
pub(crate) fn show<C: Channel>(
    alloc: Global,
    world: &WorldOver<C>,
    core: u16,
    text: &mut Vec<u8>,
) -> Result<(), AllocError>
    ensures { OnOk result ((lines : List ℕ) × Shows world.now core lines × (text.new.items ≡ text.old.items ++ lines)) }
{
    match world.replica(core) {
        Some(replica) => {
            let shown = show_core(alloc, core, replica)?;
            text.extend_from_slice(shown.as_slice())
        }
        None => push_no_core(alloc, core, text),
    }
}

/// Says that there is no such core to show.
fn push_no_core(alloc: Global, core: u16, text: &mut Vec<u8>) -> Result<(), AllocError>
    ensures { OnOk result (text.new.items ≡ text.old.items ++ no_core_line core) }
{
    let line = format!(in alloc; "show {core}: fault NoSuchCore\n")?;
    text.extend_from_slice(line.as_bytes())
}

/// Begins the request at the first place by its own way, and tells whether it was begun.
fn begin_at<C: Channel>(
    alloc: Global,
    world: &mut WorldOver<C>,
    requests: &mut Requests,
    place: usize,
    text: &mut Vec<u8>,
) -> Result<bool, AllocError>
    requires { IsFirst requests.old place }
    ensures { IfOk result (λ done. (first : PendingRequest) × (rest : List PendingRequest) × (told : Result GhostAnswer GhostFault) × (left requests.old ≡ first ∷ rest)
        × Tells world.old (event_of (way_of first.home) first.op) told world.new
        × (text.new.items ≡ text.old.items ++ event_line (event_of (way_of first.home) first.op) told) × (done ≡ is_ok told) × IsLeft done (first ∷ rest) rest (left requests.new)) }
{
    let Some(request) = requests.at(place) else {
        unreachable!()
    };
    let by = Way::of(request.home);
    if !begin_one(alloc, world, by, &request.op, text)? {
        return Ok(false);
    }
    requests.remove(place);
    Ok(true)
}
