//! All cores of a machine, looked at while none of them is in a call.

ghost use Rattle.std.specs.Prelude.{◌≡◌, ℕ, List, Some, map, slice_get};
ghost use Rattle.filter_table.specs.Limits.{TableLimits};
ghost use Rattle.core_links.specs.Flows.{LooksAt};
ghost use Rattle.core_links.specs.RingSlots.{AreJoinedLinks, own_of, ring_view};
ghost use Rattle.core_loop.specs.Cores.{Stands};
ghost use Rattle.core_loop.specs.Turning.{HasStopped};
ghost use Rattle.core_machine.specs.Machines.{RingCore, IsMachine};
ghost use Rattle.core_machine.specs.Conclusions.{Conclude};
ghost use Rattle.core_machine.specs.Looking.{IsLookedAt, AreLookedAt, AreExactMachine, TookInOrder, EachTookInOrder, AreExactCores, EachIsExact, HaveOwnLinks, LooksOnlyAt};

use crate::member::Member;

/// The cores of one machine, as they stand, however they are kept: as `agree` of core 0 and the others.
pub fn look_at_machine<T: Member>(cores: &mut [T])
    requires { (limits : TableLimits) × (budget : ℕ) × (budgets : List ℕ) × IsMachine limits budget budgets (map T.core cores.old) }
    ensures looked { AreLookedAt (map T.core cores.old) (map T.core cores.new) }
    ensures exact { AreExactMachine (map T.core cores.new) }
    ensures concludes { (limits : TableLimits) (budget : ℕ) (budgets : List ℕ) → IsMachine limits budget budgets (map T.core cores.old) → Conclude limits budget budgets (map T.core cores.new) }
{
    match cores.split_first_mut() {
        None => {}
        Some((first, others)) => {
            look_at_all(first, others);
            stands_alone(first);
        }
    }
}

/// Looks at each of these cores beside core 0.
fn look_at_all<T: Member>(first: &mut T, others: &mut [T])
    requires joined { (k : ℕ) (c : RingCore) → slice_get (map T.core others.old) k ≡ Some c → AreJoinedLinks (T.core first.old).links c.links }
    requires own { HaveOwnLinks (map T.core others.old) }
    ensures first { IsLookedAt (T.core first.old) (T.core first.new) }
    ensures others { AreLookedAt (map T.core others.old) (map T.core others.new) }
    ensures each { EachTookInOrder (T.core first.old) (map T.core others.old) }
    ensures exact { EachIsExact (T.core first.new) (map T.core others.new) }
    ensures only { LooksOnlyAt (map T.core others.old) (T.core first.old) (T.core first.new) }
{
    for other in others.iter_mut() {
        look_at(first, other);
    }
}

/// Looks at one core beside core 0.
fn look_at<T: Member>(first: &mut T, other: &mut T)
    requires { AreJoinedLinks (T.core first.old).links (T.core other.old).links }
    ensures first { IsLookedAt (T.core first.old) (T.core first.new) }
    ensures other { IsLookedAt (T.core other.old) (T.core other.new) }
    ensures took { TookInOrder (T.core first.old) (T.core other.old) }
    ensures exact { AreExactCores (T.core first.new) (T.core other.new) }
    ensures only { LooksAt (own_of (T.core other.old).links) (T.core first.old).links (T.core first.new).links }
{
    first.beside(other);
    stands_alone(other);
}

/// What a core shows by itself.
fn stands_alone<T: Member>(member: &T)
    ensures stands { Stands ring_view (T.core member.now) }
    ensures stopped { let core = T.core member.now in HasStopped core.cores core.clock core.part (ring_view core.links) core.stopped }
{
    let core = member.core();
    core.stands();
    core.has_stopped();
}
