//! A machine as one value.

ghost use Rattle.std.specs.Prelude.{◌≡◌, ◌↔◌, ◌⊎◌, ◌<◌, ℕ, List, All, Err, IfOk, length, map};
ghost use Rattle.filter_table.specs.declared.operation.Op.{Op as GhostOp};
ghost use Rattle.filter_table.specs.Tables.{HasShortProgram};
ghost use Rattle.world_events.specs.declared.event.Event.TheVariants.{Submit};
ghost use Rattle.world_model.specs.Decisions.{Delivers};
ghost use Rattle.world_model.specs.Refusals.{Extends};
ghost use Rattle.headline.specs.declared.fault.Fault.TheVariants.{CoreCount};
ghost use Rattle.headline.specs.Headline.{ShowTables, AreEqualByVersion};
ghost use Rattle.headline.specs.Judged.{AreRightful, AreAllowed, AreJudged, AreCommittedOnce};
ghost use Rattle.world_model.specs.Committed.{log_of};

use crate::fault::Fault;
use crate::replicas::{Holder, Replicas};
use filter_table::Limits;
use std::alloc::Global;
use world_core::{BootFault, World};
use world_events::{Done, Event};

/// What a machine did, and what its cores have.
#[derive(Drop)]
pub struct Did {
    /// The events with their answers, in order.
    pub events: Vec<Done>,
    /// Each core's replica of the table, after these events.
    pub replicas: Replicas,
}

/// Boots a machine with these limits and a core for each budget, 1 to 64 of them, and does these events one after another, in any
/// order: a core starts or submits a request, takes a message or receives a packet. An operation that is submitted has a program
/// of at most 4,096 instructions.
pub fn one_by_one(
    alloc: Global,
    limits: Limits,
    budgets: &[u32],
    events: Vec<Event>,
) -> Result<Did, Fault>
    requires short { All (λ event. (core : ℕ) (op : GhostOp) → event ≡ Submit core op → HasShortProgram op) events.items }
    ensures count { result ≡ Err CoreCount ↔ ((length budgets.now ≡ 0) ⊎ (64 < length budgets.now)) }
    ensures given { IfOk result (λ did. map (λ done. done.event) did.events.items ≡ events.items) }
    ensures cores { IfOk result (λ did. length did.replicas ≡ length budgets.now) }
    ensures tables { IfOk result (λ did. ShowTables limits did.events.items did.replicas) }
    ensures equal { IfOk result (λ did. AreEqualByVersion did.replicas) }
    ensures delivers { IfOk result (λ did. Delivers limits (log_of did.events.items) did.events.items) }

    // What is in the log was allowed there, and each filter that a table lists is its owner's by right.
    ensures rightful { IfOk result (λ did. AreRightful limits (log_of did.events.items)) }
    ensures allowed { IfOk result (λ did. AreAllowed limits budgets.now (log_of did.events.items)) }

    // The n-th decision of a core is on its n-th request, and no request is committed twice.
    ensures judged { IfOk result (λ did. AreJudged limits budgets.now did.events.items) }
    ensures once { IfOk result (λ did. AreCommittedOnce did.events.items) }
{
    let mut world = match World::boot_with_limits(alloc, limits, budgets) {
        Ok(world) => world,
        Err(BootFault::CoreCount) => return Err(Fault::CoreCount),
        Err(BootFault::NoMemory) => return Err(Fault::NoMemory),
    };
    // The world is dropped by a call: left to a way out, each of its parts is dropped there, which takes long to prove.
    match apply_all(alloc, &mut world, events) {
        Ok(events) => Ok(Did {
            events,
            replicas: Replicas {
                holder: Holder::World(world),
            },
        }),
        Err(fault) => {
            drop(world);
            Err(fault)
        }
    }
}

/// Does these events in order.
fn apply_all(alloc: Global, world: &mut World, events: Vec<Event>) -> Result<Vec<Done>, Fault>
    requires short { All (λ event. (core : ℕ) (op : GhostOp) → event ≡ Submit core op → HasShortProgram op) events.items }
    ensures fault { result ≡ Err CoreCount → ⊥ }
    ensures given { IfOk result (λ done. map (λ d. d.event) done.items ≡ events.items) }
    ensures extends { IfOk result (λ done. Extends world.old done.items world.new) }
{
    let mut done = Vec::with_capacity(alloc, events.len())?;
    for event in events {
        let answer = world.apply(&event)?;
        done.push_reserved(Done { event, answer });
    }
    Ok(done)
}
