//! The histories of the cores of a machine, once they are joined.

ghost use Rattle.std.specs.Prelude.{◌≡◌, ◌∷◌, ℕ, List, IfOk};
ghost use Rattle.filter_table.specs.Limits.{TableLimits};
ghost use Rattle.core_machine.specs.Machines.{IsMachine};
ghost use Rattle.core_machine.specs.Looking.{AreLookedAt, AreExactMachine};
ghost use Rattle.core_machine.specs.Conclusions.{Concludes, Conclude, OfMachine, histories_of, listed_histories};

use crate::agreement::agree;
use crate::recorded::Recorded;
use core_loop::{Core, RingLinks, Stamped};
use std::alloc::{AllocError, Global};

/// The history of each core, in the order of the cores.
pub struct Histories {
    pub cores: Vec<Vec<Stamped>>,
}

// By hand, so that the proofs of its owners have one call and not a drop of each part.
impl Drop for Histories {
    fn drop(self) {
        let Histories { cores: _ } = self;
    }
}

/// Cores, each without its list, and the lists.
#[derive(Drop)]
struct Parted {
    cores: Vec<Core<RingLinks>>,
    histories: Vec<Vec<Stamped>>,
}

/// Takes each core from its list.
fn part(alloc: Global, recorded: Vec<Recorded<RingLinks>>) -> Result<Parted, AllocError>
    ensures cores { IfOk result (λ r. r.cores.items ≡ recorded.items) }
    ensures histories { IfOk result (λ r. listed_histories r.histories.items ≡ histories_of recorded.items) }
{
    // With the room taken first, no way out of the loop has cores to drop, which would be most of the proof.
    let mut cores = Vec::with_capacity(alloc, recorded.len())?;
    let mut histories = Vec::with_capacity(alloc, recorded.len())?;
    for one in recorded {
        let (core, events) = one.into_parts();
        cores.push_reserved(core);
        histories.push_reserved(events);
    }
    Ok(Parted { cores, histories })
}

/// The cores of one machine, as they stand, as one list: `agree` of the first and the others.
pub fn agree_all(cores: &mut [Core<RingLinks>])
    requires { (limits : TableLimits) × (budget : ℕ) × (budgets : List ℕ) × IsMachine limits budget budgets cores.old }
    ensures looked { AreLookedAt cores.old cores.new }
    ensures exact { AreExactMachine cores.new }
    ensures agree { OfMachine cores.old Concludes }
    ensures concludes { (limits : TableLimits) (budget : ℕ) (budgets : List ℕ) → IsMachine limits budget budgets cores.old → Conclude limits budget budgets cores.new }
{
    match cores.split_first_mut() {
        None => {}
        Some((first, others)) => agree(first, others),
    }
}

/// The histories of all cores of one machine, in the order of the cores, which is that of their numbers. Whatever the order in
/// time was, they are one computation: each core took the messages of each other in the order in which they were sent, and
/// stands where its history ends. The one error is that there is no memory; the cores are gone then.
pub fn conclude(alloc: Global, cores: Vec<Recorded<RingLinks>>) -> Result<Histories, AllocError>
    requires { (limits : TableLimits) × (budget : ℕ) × (budgets : List ℕ) × IsMachine limits budget budgets cores.items }
    ensures histories { IfOk result (λ h. listed_histories h.cores.items ≡ histories_of cores.items) }
    ensures computation { IfOk result (λ _. OfMachine cores.items Concludes) }
{
    let Parted {
        mut cores,
        histories,
    } = part(alloc, cores)?;
    agree_all(cores.as_mut_slice());
    Ok(Histories { cores: histories })
}
