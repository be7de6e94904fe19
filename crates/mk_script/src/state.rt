//! How a line changes what is known.

ghost use Rattle.std.specs.Prelude.{◌≡◌, ◌≤◌, ◌+◌, ◌++◌, ◌∷◌, List, [], None, length, map, IfOk, OnOk, vec_len};
ghost use Rattle.std.specs.List.{flat_map};
ghost use Rattle.mk_script.specs.Changes.{Follows, Knows, asks_in, events_in};
ghost use Rattle.mk_script.specs.DraftViews.{events_of, meaning_of};
ghost use Rattle.mk_script.specs.Meanings as meanings;
ghost use Rattle.mk_script.specs.declared.script.Item.TheVariants.{Apply};

use crate::homes::Homes;
use crate::meaning::{Meaning, Replay};
use crate::names::Names;
use crate::reading::Reading;
use crate::script::Item;
use std::alloc::{AllocError, Global};
use std::mem;
use world_events::Event;

/// What is known of a script before its first line.
pub(crate) fn nothing_read<'a>(alloc: Global) -> Reading<'a>
    ensures { Knows result [] }
{
    Reading {
        limits: None,
        budgets: Vec::new(alloc),
        programs: Names::new(alloc),
        packets: Names::new(alloc),
        captures: Names::new(alloc),
        homes: Homes::new(alloc),
        received: 0,
        acted: false,
        jobs: None,
        items: Vec::new(alloc),
    }
}

fn is_request(item: &Item) -> bool
    ensures { result ≡ meanings.is_request item.now }
{
    matches!(item, Item::Ask(_, _))
}

/// Adds the receptions of a capture's packets.
fn receive_all(items: &mut Vec<Item>, replay: &Replay) -> Result<(), AllocError>
    ensures items { OnOk result (items.new.items ≡ items.old.items ++ map (λ e. Apply e) (events_of replay.now)) }
    ensures len { OnOk result (vec_len items.new ≡ vec_len items.old + length replay.now.packets) }
    ensures grows { vec_len items.old ≤ vec_len items.new }
{
    let packets = replay.packets.as_slice();
    for (place, packet) in packets.iter().enumerate() {
        let packet = packet.clone()?;
        items.push(Item::Apply(Event::Rx {
            core: (place % replay.cores) as u16,
            number: replay.received + place as u64 + 1,
            packet,
            floor: replay.floor,
        }))?;
    }
    Ok(())
}

/// The requests among items, and the receptions.
fn split(alloc: Global, items: Vec<Item>) -> Result<(Vec<Item>, Vec<Event>), AllocError>
    ensures { IfOk result (λ r. (r.0.items ≡ flat_map asks_in items.items) × (r.1.items ≡ flat_map events_in items.items)) }
{
    let mut asks = Vec::new(alloc);
    let mut jobs = Vec::new(alloc);
    for item in items {
        match item {
            Item::Apply(event) => jobs.push(event)?,
            ask => asks.push(ask)?,
        }
    }
    Ok((asks, jobs))
}

/// Does something.
fn does<'a>(reading: &mut Reading<'a>, item: Item) -> Result<(), AllocError>
    ensures { OnOk result ((given : List meanings.Meaning) → Knows reading.old given → Knows reading.new (given ++ meanings.Does item ∷ [])) }
{
    reading.acted = reading.acted || !is_request(&item);
    reading.items.push(item)?;
    Ok(())
}

/// Receives a packet.
fn receives<'a>(reading: &mut Reading<'a>, event: Event) -> Result<(), AllocError>
    requires { reading.old.jobs ≡ None }
    ensures { OnOk result ((given : List meanings.Meaning) → Knows reading.old given → Knows reading.new (given ++ meanings.Receives (event ∷ []) ∷ [])) }
{
    reading.items.push(Item::Apply(event))?;
    reading.received += 1;
    Ok(())
}

/// Receives the packets of a capture.
fn replays<'a>(reading: &mut Reading<'a>, replay: &Replay) -> Result<(), AllocError>
    requires { reading.old.jobs ≡ None }
    ensures { OnOk result ((given : List meanings.Meaning) → Knows reading.old given → Knows reading.new (given ++ meanings.Receives (events_of replay.now) ∷ [])) }
{
    receive_all(&mut reading.items, replay)?;
    reading.received += replay.packets.as_slice().len() as u64;
    Ok(())
}

/// Turns to the events of a run: the receptions so far only name jobs.
fn traces<'a>(alloc: Global, reading: &mut Reading<'a>) -> Result<(), AllocError>
    requires { Follows reading.old Meaning.Trace }
    ensures { OnOk result ((given : List meanings.Meaning) → Knows reading.old given → Knows reading.new (given ++ meanings.Trace ∷ [])) }
{
    reading.received = 0;
    let items = mem::replace(&mut reading.items, Vec::new(alloc));
    let (asks, jobs) = split(alloc, items)?;
    reading.items = asks;
    reading.jobs = Some(jobs);
    Ok(())
}

/// Adds what a line means.
pub(crate) fn add<'a>(
    alloc: Global,
    reading: &mut Reading<'a>,
    meaning: Meaning<'a>,
) -> Result<(), AllocError>
    requires { Follows reading.old meaning }
    ensures { OnOk result ((given : List meanings.Meaning) → Knows reading.old given → Knows reading.new (given ++ meaning_of meaning.entry ∷ [])) }
{
    match meaning {
        Meaning::Limits(limits) => {
            reading.limits = Some(limits);
            Ok(())
        }
        Meaning::Budgets(budgets) => {
            reading.budgets = budgets;
            Ok(())
        }
        Meaning::NamedProgram(name, program) => {
            reading.programs.put(name, program)?;
            Ok(())
        }
        Meaning::NamedPacket(name, packet) => {
            reading.packets.put(name, packet)?;
            Ok(())
        }
        Meaning::NamedCapture(name, packets) => {
            reading.captures.put(name, packets)?;
            Ok(())
        }
        Meaning::Home(domain, core) => {
            reading.homes.put(domain, core)?;
            Ok(())
        }
        Meaning::Does(item) => does(reading, item),
        Meaning::Receives(event) => receives(reading, event),
        Meaning::Replays(replay) => replays(reading, &replay),
        Meaning::Trace => traces(alloc, reading),
        Meaning::Nothing => Ok(()),
    }
}
