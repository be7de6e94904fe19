//! Why a run ended.

ghost use Rattle.std.specs.Prelude.{◌≡◌, ◌↔◌, [], map, IsTrue, IfOk, MatchOption};
ghost use Rattle.core_threads.specs.Ending.{IsAtEnd};
ghost use Rattle.core_machine.specs.Lanes.{items_for};
ghost use Rattle.core_machine.specs.Rounds.{HasAllDecided};
ghost use Rattle.core_threads.specs.Searching.{AreInPlace, HaltedAt, NoneHalted, IsFirstFloor, AreDone, UnfinishedAt, IsHalt, IsWhole};

use crate::halt::Halt;
use crate::threads::Ran;
use core_loop::{Core, RingLinks};
use core_machine::Recorded;
use rx_queue::Job;
use std::alloc::{AllocError, Global};

/// The least core that halted, and why.
fn first_halt(ran: &[Ran]) -> Option<(u16, Halt)>
    requires { AreInPlace ran.now }
    ensures { MatchOption result (NoneHalted ran.now) (λ halted. HaltedAt ran.now halted.0 halted.1) }
{
    for ran in ran {
        match ran.halted {
            Some(why) => return Some((ran.core.core().number(), why)),
            None => {}
        }
    }
    None
}

/// The floor of a core's first job.
fn first_floor(number: u16, left: &[(u16, Job)]) -> Option<u64>
    ensures { MatchOption result (items_for number left.now ≡ []) (IsFirstFloor (items_for number left.now)) }
{
    for item in left {
        if item.0 == number {
            return Some(item.1.floor);
        }
    }
    None
}

/// Whether a core has nothing to do, where these are the jobs that are left.
pub(crate) fn is_at_end(core: &Core<RingLinks>, left: &[(u16, Job)]) -> bool
    ensures at_end { IsTrue result ↔ IsAtEnd (items_for core.now.number left.now) core.now }
    ensures decided { IsTrue result → HasAllDecided core.now }
{
    core.are_decided();
    if core.pending() != 0 || !core.idle() {
        return false;
    }
    match first_floor(core.number(), left) {
        Some(floor) => floor > core.version(),
        None => true,
    }
}

/// The least core that has something to do, where these are the jobs that are left.
fn first_unfinished(ran: &[Ran], left: &[(u16, Job)]) -> Option<u16>
    requires { AreInPlace ran.now }
    ensures { MatchOption result (AreDone ran.now left.now) (UnfinishedAt ran.now left.now) }
{
    for ran in ran {
        let core = ran.core.core();
        if !is_at_end(core, left) {
            return Some(core.number());
        }
    }
    None
}

/// The least core that halted, and why, where these are the jobs that are left. Where no core did, `Early` says that there is
/// work left.
pub(crate) fn why_halted(ran: &[Ran], left: &[(u16, Job)]) -> Option<(u16, Halt)>
    requires { AreInPlace ran.now }
    ensures { MatchOption result (IsWhole ran.now left.now) (λ halted. IsHalt ran.now left.now halted.0 halted.1) }
{
    if let Some(halted) = first_halt(ran) {
        return Some(halted);
    }
    match first_unfinished(ran, left) {
        Some(core) => Some((core, Halt::Early)),
        None => None,
    }
}

/// The cores alone.
pub(crate) fn cores_of(alloc: Global, ran: Vec<Ran>) -> Result<Vec<Recorded<RingLinks>>, AllocError>
    ensures { IfOk result (λ cores. cores.items ≡ map (λ r. r.core) ran.items) }
{
    ran.into_iter().map(|ran| ran.core).collect(alloc)
}

/// Why a core halted, if it did.
fn halt_of(ran: &Ran) -> Option<Halt>
    ensures { result ≡ ran.now.halted }
{
    ran.halted
}

/// Why each halted, if it did.
pub(crate) fn halts_of(alloc: Global, ran: &[Ran]) -> Result<Vec<Option<Halt>>, AllocError>
    ensures { IfOk result (λ halts. halts.items ≡ map (λ r. r.halted) ran.now) }
{
    let mut halts = Vec::with_capacity(alloc, ran.len())?;
    for one in ran {
        halts.push(halt_of(one))?;
    }
    Ok(halts)
}
