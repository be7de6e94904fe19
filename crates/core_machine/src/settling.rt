//! Turns of all cores until nothing is left to do.

ghost use Rattle.std.specs.Prelude.{◌≡◌, ◌↔◌, ℕ, List, length, map, None, All, IfSome, IfNone, IsTrue};
ghost use Rattle.filter_table.specs.Limits.{TableLimits};
ghost use Rattle.core_machine.specs.Machines.{RingCore, IsMachine, AreSameCores};
ghost use Rattle.core_machine.specs.Looking.{AreExactMachine};
ghost use Rattle.core_machine.specs.Conclusions.{Conclude};
ghost use Rattle.core_machine.specs.Rounds.{Keeps, GoesOn, Halts, AllGoOn, HaltsAmong, IsEndOf, NoneStops, Round, AllKeep, CoreRests, AreAtRest, HasAllDecided, EndsFor, EndsRound, TakesRounds};

use crate::halt::Halt;
use crate::looking::look_at_machine;
use crate::member::Member;
use core_loop::{Core, RingLinks};

/// How settling ended.
#[derive(Clone, Copy, PartialEq, Eq, Debug)]
pub enum Settled {
    /// Nothing is left to do.
    AtRest,
    /// The core of this number has no number or stamp left for what it would do next.
    Spent(u16),
    /// The core of this number was refused memory for what it would do next.
    NoMemory(u16),
    /// The core of this number was refused memory for one event more in the list of what it did. Only cores that keep
    /// such a list are.
    NoRoom(u16),
}

/// Turns all cores of a machine, round by round, until nothing is left to do: each request that a core was asked is
/// decided, in order, all cores have the table of the whole log, and every ring is empty; or until a core lacks memory
/// or a number, which is the only way in which a core of a machine halts. It takes at most one round more than the work
/// ahead, which is a number of events and lines, and a machine at rest takes none. Everything done so far is kept, so
/// settling again goes on from there. No job is received.
pub fn settle<T: Member>(cores: &mut [T]) -> Settled
    requires machine { (limits : TableLimits) × (budget : ℕ) × (budgets : List ℕ) × IsMachine limits budget budgets (map T.core cores.old) }
    ensures machine { AreSameCores (map T.core cores.old) (map T.core cores.new) }
    ensures keeps { AllKeep (map T.core cores.old) (map T.core cores.new) }
    ensures ends { EndsFor T.lists result (map T.core cores.new) }
    ensures rounds { TakesRounds result (map T.core cores.old) (map T.core cores.new) }
    ensures concludes { (limits : TableLimits) (budget : ℕ) (budgets : List ℕ) → IsMachine limits budget budgets (map T.core cores.old) → Conclude limits budget budgets (map T.core cores.new) }
{
    look_at_machine(cores);
    if at_rest(cores) {
        return Settled::AtRest;
    }
    loop {
        if let Some(settled) = round(cores) {
            return settled;
        }
    }
}

/// A round: a turn of each core, in order, until one halts, and a look at all. It answers where settling ends.
fn round<T: Member>(cores: &mut [T]) -> Option<Settled>
    requires machine { (limits : TableLimits) × (budget : ℕ) × (budgets : List ℕ) × IsMachine limits budget budgets (map T.core cores.old) }
    ensures machine { AreSameCores (map T.core cores.old) (map T.core cores.new) }
    ensures keeps { AllKeep (map T.core cores.old) (map T.core cores.new) }
    ensures exact { AreExactMachine (map T.core cores.new) }
    ensures goes_on { IfNone result (Round (map T.core cores.old) (map T.core cores.new) × (AreAtRest (map T.core cores.new) → ⊥)) }
    ensures ends { IfSome result (λ settled. EndsRound settled (map T.core cores.old) (map T.core cores.new) × EndsFor T.lists settled (map T.core cores.new)) }
    ensures concludes { (limits : TableLimits) (budget : ℕ) (budgets : List ℕ) → IsMachine limits budget budgets (map T.core cores.old) → Conclude limits budget budgets (map T.core cores.new) }
{
    let halted = turn_each(cores);
    look_at_machine(cores);
    ended(halted, cores)
}

/// Whether settling ends with a round in which this core halted, or none.
fn ended<T: Member>(halted: Option<(u16, Halt)>, cores: &[T]) -> Option<Settled>
    requires { NoneStops halted }
    ensures none { IfNone result ((halted ≡ None) × (AreAtRest (map T.core cores.now) → ⊥)) }
    ensures some { IfSome result (λ settled. IsEndOf halted settled (map T.core cores.now)) }
{
    match halted {
        Some((core, Halt::Spent)) => Some(Settled::Spent(core)),
        Some((core, Halt::NoMemory)) => Some(Settled::NoMemory(core)),
        Some((core, Halt::NoRoom)) => Some(Settled::NoRoom(core)),
        Some((_, Halt::Stopped)) => unreachable!(),
        None if at_rest(cores) => Some(Settled::AtRest),
        None => None,
    }
}

/// Gives each core a turn, in order, until one halts: its number, and why.
fn turn_each<T: Member>(cores: &mut [T]) -> Option<(u16, Halt)>
    ensures all { length (map T.core cores.new) ≡ length (map T.core cores.old) }
    ensures keeps { AllKeep (map T.core cores.old) (map T.core cores.new) }
    ensures none { IfNone result (AllGoOn (map T.core cores.old) (map T.core cores.new)) }
    ensures some { IfSome result (λ halted. HaltsAmong T.lists halted.0 halted.1 (map T.core cores.new)) }
{
    for core in cores.iter_mut() {
        if let Some(halted) = turn_one(core) {
            return Some(halted);
        }
    }
    None
}

/// Gives a core a turn: its number, and why, where it halts.
fn turn_one<T: Member>(core: &mut T) -> Option<(u16, Halt)>
    ensures keeps { Keeps (T.core core.old) (T.core core.new) }
    ensures none { IfNone result (GoesOn (T.core core.old) (T.core core.new)) }
    ensures some { IfSome result (λ halted. ((T.core core.new).number ≡ halted.0) × Halts T.lists halted.1 (T.core core.new)) }
{
    let halt = core.turn_once()?;
    Some((core.core().number(), halt))
}

/// Whether all cores are at rest, as far as they were looked at. Then each of their requests is decided.
pub fn at_rest<T: Member>(cores: &[T]) -> bool
    ensures rests { IsTrue result ↔ AreAtRest (map T.core cores.now) }
    ensures decided { IsTrue result → All HasAllDecided (map T.core cores.now) }
{
    for core in cores {
        if !rests(core.core()) {
            return false;
        }
    }
    true
}

/// Whether a core is at rest.
fn rests(core: &Core<RingLinks>) -> bool
    ensures rests { IsTrue result ↔ CoreRests core.now }
    ensures decided { IsTrue result → HasAllDecided core.now }
{
    core.are_decided();
    core.pending() == 0 && core.idle() && core.links_rest()
}
