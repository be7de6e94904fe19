//! A script's items, one after the other.

ghost use Rattle.std.specs.Prelude.{◌≡◌, ◌++◌, ℕ, List, OnOk, IfErr, IsErrOf, false};
ghost use Rattle.engine_io.specs.Devices.{StopsWriting, Writes};
ghost use Rattle.engine_io.specs.Reading.{IsPrintFault};
ghost use Rattle.std.specs.List.{All};
ghost use Rattle.mk_script.specs.Limits.{EntersBelow, IsLimited};
ghost use Rattle.world_model.specs.Refusals.{IsShortEvent};
ghost use Rattle.mk_script.specs.declared.script.Item.{Item as GhostItem};
ghost use Rattle.sim_engine.specs.declared.requests.PendingRequest.{PendingRequest as GhostRequest};
ghost use Rattle.sim_engine.specs.Writing.{Wrote};
ghost use Rattle.sim_engine.specs.Simulations.{Applies, Does, Performs, Simulation, sim, just};

use crate::requests::{PendingRequest, Requests};
use crate::simulation::{begin, settle, show, tell};
use crate::way::Way;
use engine_io::{BLOCK, EngineFault, Sink, write_bytes};
use mk_script::Item;
use std::alloc::{AllocError, Global};
use std::io::Write;
use world_core::{Channel, WorldOver};
use world_events::Event;

/// Does a script's items in order, and writes what they print.
pub(crate) fn perform_all<C: Channel, W: Write>(
    alloc: Global,
    world: &mut WorldOver<C>,
    items: &[Item],
    writer: &mut Sink<W>,
) -> Result<(), EngineFault>
    requires limited { All IsLimited items.now }
    requires entered { All (EntersBelow 64) items.now }
    requires good { writer.old.failed ≡ false }
    ensures shown { OnOk result ((s' : Simulation) × (text : List ℕ) × Performs (just world.old) items.now s' text
        × Writes W.contents writer.old writer.new text) }
    ensures fault { IfErr result IsPrintFault }
    ensures good { OnOk result (writer.new.failed ≡ false) }
    ensures cause { IfErr result (StopsWriting writer.new) }
    ensures part { IsErrOf result EngineFault.NoMemory → (done rest : List GhostItem) × (items.now ≡ done ++ rest) × (s' : Simulation) × (text more : List ℕ)
        × Performs (just world.old) done s' (text ++ more) × Writes W.contents writer.old writer.new text }
{
    let mut requests = Requests::new(alloc)?;
    let mut text = Vec::new(alloc);
    for item in items {
        perform(alloc, world, &mut requests, item, &mut text)?;
        write_block(writer, &mut text)?;
    }
    write_bytes(writer, text.as_slice())
}

/// Writes the text that was kept back, once there is much of it.
fn write_block<W: Write>(writer: &mut Sink<W>, text: &mut Vec<u8>) -> Result<(), EngineFault>
    requires { writer.old.failed ≡ false }
    ensures written { OnOk result (Wrote W.contents writer.old writer.new text.old.items text.new.items) }
    ensures fault { IfErr result (λ e. e ≡ EngineFault.WriteFailed) }
    ensures good { OnOk result (writer.new.failed ≡ false) }
    ensures cause { IfErr result (StopsWriting writer.new) }
{
    if text.len() >= BLOCK {
        write_bytes(writer, text.as_slice())?;
        text.clear();
    }
    Ok(())
}

/// Does an item, and adds what it prints to the text.
fn perform<C: Channel>(
    alloc: Global,
    world: &mut WorldOver<C>,
    requests: &mut Requests,
    item: &Item,
    text: &mut Vec<u8>,
) -> Result<(), AllocError>
    requires limited { IsLimited item.now }
    requires entered { EntersBelow 64 item.now }
    ensures { OnOk result ((lines : List ℕ) × Does (sim world.old requests.old) item.now (sim world.new requests.new) lines
        × (text.new.items ≡ text.old.items ++ lines)) }
{
    match item {
        Item::Ask(home, op) => {
            let request = PendingRequest::new(*home, op)?;
            requests.push(request)
        }
        Item::Begin => begin(alloc, world, requests, Way::Start, text),
        Item::Submit(core) => begin(alloc, world, requests, Way::Submit(*core), text),
        Item::StartFor(core) => apply(alloc, world, &Event::StartFor { core: *core }, text),
        Item::Apply(event) => apply(alloc, world, event, text),
        Item::Settle => settle(alloc, world, requests, text),
        Item::Show(core) => show(alloc, world, *core, text),
    }
}

/// Does an event, or says why it is not done.
fn apply<C: Channel>(
    alloc: Global,
    world: &mut WorldOver<C>,
    event: &Event,
    text: &mut Vec<u8>,
) -> Result<(), AllocError>
    requires { IsShortEvent event.now }
    ensures { OnOk result ((lines : List ℕ) × ((pending : List GhostRequest) → Applies (record { world = world.old; pending = pending }) event.now (record { world = world.new; pending = pending }) lines)
        × (text.new.items ≡ text.old.items ++ lines)) }
{
    tell(alloc, world, event, text)?;
    Ok(())
}
