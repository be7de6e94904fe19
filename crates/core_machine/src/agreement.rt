//! What holds of the cores of one machine at a moment when none of them is in a call.

ghost use Rattle.std.specs.Prelude.{◌≡◌, ◌<◌, ℕ, List, Some, length, slice_get};
ghost use Rattle.filter_table.specs.Limits.{TableLimits};
ghost use mathlib.Core.List.{IsPrefix};
ghost use Rattle.core_links.specs.Flows.{LooksAt};
ghost use Rattle.core_links.specs.RingSlots.{AreJoinedLinks, own_of, ring_view};
ghost use Rattle.core_loop.specs.Cores.{Stands};
ghost use Rattle.core_machine.specs.Machines.{RingCore, AreMachine};
ghost use Rattle.core_machine.specs.Conclusions.{Concludes};
ghost use Rattle.core_machine.specs.Looking.{IsLookedAt, AreLookedAt, TookInOrder, EachTookInOrder, AreExactCores, EachIsExact, HaveOwnLinks, LooksOnlyAt};

use core_loop::{Core, RingLinks};

/// The cores of one machine, as they stand: their histories are one computation, whatever the order in time was, and each core has the table
/// of the log at its version. No core of a machine ever stops. After it each end of a ring knows all that is in it. Nothing is joined or
/// ended, no event is done, no line moves, and what is read of each core stays as it was.
pub fn agree(first: &mut Core<RingLinks>, others: &mut [Core<RingLinks>])
    requires { (limits : TableLimits) × (budget : ℕ) × (budgets : List ℕ) × AreMachine limits budget budgets first.old others.old }
    ensures first { IsLookedAt first.old first.new }
    ensures others { AreLookedAt others.old others.new }
    ensures agree { (limits : TableLimits) (budget : ℕ) (budgets : List ℕ) → AreMachine limits budget budgets first.old others.old → Concludes limits budget budgets first.old others.old }
    ensures exact { EachIsExact first.new others.new }
{
    look_at_all(first, others);
    first.stands();
    first.has_stopped();
}

/// Looks at each of these cores beside core 0.
fn look_at_all(first: &mut Core<RingLinks>, others: &mut [Core<RingLinks>])
    requires joined { (k : ℕ) (c : RingCore) → slice_get others.old k ≡ Some c → AreJoinedLinks first.old.links c.links }
    requires own { HaveOwnLinks others.old }
    ensures first { IsLookedAt first.old first.new }
    ensures others { AreLookedAt others.old others.new }
    ensures each { EachTookInOrder first.old others.old }
    ensures exact { EachIsExact first.new others.new }
    ensures only { LooksOnlyAt others.old first.old first.new }
{
    match others.split_first_mut() {
        None => {}
        Some((other, rest)) => {
            look_at(first, other);
            look_at_all(first, rest);
        }
    }
}

/// Looks at one core beside core 0.
fn look_at(first: &mut Core<RingLinks>, other: &mut Core<RingLinks>)
    requires { AreJoinedLinks first.old.links other.old.links }
    ensures first { IsLookedAt first.old first.new }
    ensures other { IsLookedAt other.old other.new }
    ensures took { TookInOrder first.old other.old }
    ensures exact { AreExactCores first.new other.new }
    ensures only { LooksAt (own_of other.old.links) first.old.links first.new.links }
{
    first.beside(other);
    other.stands();
    other.has_stopped();
}
