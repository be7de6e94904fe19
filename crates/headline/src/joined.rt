//! Cores that were joined: what they did, in one list.

ghost use Rattle.std.specs.Prelude.{◌≡◌, ℕ, List, IfOk};
ghost use Rattle.filter_table.specs.Limits.{TableLimits};
ghost use Rattle.core_machine.specs.Machines.{IsMachine};
ghost use Rattle.core_machine.specs.Conclusions.{Concludes, OfMachine, histories_of, listed_histories};
ghost use Rattle.core_machine.specs.Merges.{ListsRuns};
ghost use Rattle.headline.specs.Shown.{replicas_of_cores};

use crate::machine::Did;
use crate::replicas::{Holder, Replicas};
use core_loop::{Core, RingLinks};
use core_machine::{Histories, Recorded, agree, merge};
use std::alloc::{AllocError, Global};

/// Cores, each without its list, and the lists.
#[derive(Drop)]
struct Parted {
    cores: Vec<Core<RingLinks>>,
    histories: Histories,
}

/// Takes each core from its list.
fn part(alloc: Global, recorded: Vec<Recorded<RingLinks>>) -> Result<Parted, AllocError>
    ensures cores { IfOk result (λ r. r.cores.items ≡ recorded.items) }
    ensures histories { IfOk result (λ r. listed_histories r.histories.cores.items ≡ histories_of recorded.items) }
{
    // With the room taken first, no way out of the loop has cores to drop, which would be most of the proof.
    let mut cores = Vec::with_capacity(alloc, recorded.len())?;
    let mut histories = Vec::with_capacity(alloc, recorded.len())?;
    for one in recorded {
        let (core, events) = one.into_parts();
        cores.push_reserved(core);
        histories.push_reserved(events);
    }
    let histories = Histories { cores: histories };
    Ok(Parted { cores, histories })
}

/// The first of the cores and the others agree.
fn agree_all(cores: &mut [Core<RingLinks>])
    requires { (limits : TableLimits) × (budget : ℕ) × (budgets : List ℕ) × IsMachine limits budget budgets cores.old }
    ensures concludes { OfMachine cores.old Concludes }
    ensures replicas { replicas_of_cores cores.new ≡ replicas_of_cores cores.old }
{
    match cores.split_first_mut() {
        None => {}
        Some((first, others)) => agree(first, others),
    }
}

/// The one list of what the cores did, and their replicas.
pub(crate) fn conclude_all(
    alloc: Global,
    recorded: Vec<Recorded<RingLinks>>,
) -> Result<Did, AllocError>
    requires { (limits : TableLimits) × (budget : ℕ) × (budgets : List ℕ) × IsMachine limits budget budgets recorded.items }
    ensures concludes { IfOk result (λ did. OfMachine recorded.items Concludes) }
    ensures list { IfOk result (λ did. ListsRuns (histories_of recorded.items) did.events.items) }
    ensures replicas { IfOk result (λ did. did.replicas ≡ replicas_of_cores recorded.items) }
{
    let Parted {
        mut cores,
        histories,
    } = part(alloc, recorded)?;
    agree_all(cores.as_mut_slice());
    match merge(alloc, &histories) {
        Ok(events) => Ok(Did {
            events,
            replicas: Replicas {
                holder: Holder::Cores(cores),
            },
        }),
        Err(AllocError) => {
            drop(cores);
            Err(AllocError)
        }
    }
}
