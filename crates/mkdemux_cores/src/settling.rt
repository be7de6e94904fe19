//! All cores of a machine, turned until nothing is left to do.

ghost use Rattle.std.specs.Prelude.{◌≡◌, ◌≢◌, ◌≤◌, ◌<◌, ◌+◌, ◌++◌, ◌∷◌, [], ◌⊎◌, ◌↔◌, ℕ, List, None, Some, map, length, IfNone, IfSome, IsTrue, slice_get, vec_capacity};
ghost use Rattle.core_links.specs.RingSlots.{machine_of};
ghost use Rattle.core_machine.specs.Machines.{RingCore};
ghost use Rattle.mkdemux_cores.specs.Booting.{AreClosed, cores_of};
ghost use Rattle.mkdemux_cores.specs.Settling.{answer_of, AreOfOneMachine, AreOpen, AreNumbered, HasFault, IsOf, Settles};

use crate::answers::{CLOSED, DONE, NO_MEMORY, NOT_MACHINE, SPENT};
use crate::booting::put_all;
use crate::handle::CoreHandle;
use core_loop::{Core, RingLinks};
use core_machine::{Settled, settle};
use std::alloc::Global;

/// Turns all cores of one machine, in the order of their numbers, round by round, until nothing is left to do: each
/// request is decided then, and all cores are at one version. `DONE`, else `NO_MEMORY` or `SPENT` where a core has no
/// memory or no number for what it would do next: what was done so far is kept, and settling again goes on from there.
/// `CLOSED` where a core is closed, `NOT_MACHINE` where one is missing, twice, in another place or of a machine of another
/// name, and nothing changes. No packet is received.
#[unsafe(no_mangle)]
pub extern "C" fn mkdemux_settle(alloc: Global, cores: &mut [CoreHandle]) -> u32
    requires machine { AreOfOneMachine cores.old }
    ensures closed { result ≡ CLOSED → (cs : List RingCore) → AreOpen cores.old cs → ⊥ }
    ensures not_machine { result ≡ NOT_MACHINE → (cs : List RingCore) (name : ℕ) → AreOpen cores.old cs → 1 ≤ length cs → AreNumbered name 0 (length cs) cs → ⊥ }
    ensures two_machines { (i j : ℕ) (a b : RingCore) → slice_get (cores_of cores.old) i ≡ Some (Some a) → slice_get (cores_of cores.old) j ≡ Some (Some b) → machine_of a.links ≢ machine_of b.links → (result ≡ CLOSED) ⊎ (result ≡ NOT_MACHINE) }
    ensures same { (result ≡ CLOSED) ⊎ (result ≡ NOT_MACHINE) → cores_of cores.new ≡ cores_of cores.old }
    ensures settles { result ≢ CLOSED → result ≢ NOT_MACHINE → Settles result (cores_of cores.old) (cores_of cores.new) ⊎ ((result ≡ NO_MEMORY) × (cores_of cores.new ≡ cores_of cores.old)) }
{
    if let Some(answer) = machine_fault(alloc, cores) {
        return answer;
    }
    let count = cores.len();
    let Ok(mut taken) = Vec::with_capacity(alloc, count) else {
        return NO_MEMORY;
    };
    take_all(alloc, cores, &mut taken);
    let settled = settle(taken.as_mut_slice());
    put_all(cores, taken);
    answer_of(settled)
}

/// `DONE` where these are all cores of one machine, in the order of their numbers. `CLOSED` where one is closed, `NOT_MACHINE` where one is
/// missing, twice, in another place or of a machine of another name. Nothing changes.
#[unsafe(no_mangle)]
pub extern "C" fn mkdemux_are_machine(alloc: Global, cores: &mut [CoreHandle]) -> u32
    ensures same { cores_of cores.new ≡ cores_of cores.old }
    ensures machine { result ≡ DONE → (cs : List RingCore) × (name : ℕ) × AreOpen cores.old cs × (1 ≤ length cs) × AreNumbered name 0 (length cs) cs }
    ensures closed { result ≡ CLOSED → (cs : List RingCore) → AreOpen cores.old cs → ⊥ }
    ensures not_machine { result ≡ NOT_MACHINE → (cs : List RingCore) (name : ℕ) → AreOpen cores.old cs → 1 ≤ length cs → AreNumbered name 0 (length cs) cs → ⊥ }
    ensures answers { (result ≡ DONE) ⊎ ((result ≡ CLOSED) ⊎ (result ≡ NOT_MACHINE)) }
{
    match machine_fault(alloc, cores) {
        Some(answer) => answer,
        None => DONE,
    }
}

/// Why these aren't all cores of one machine, if they aren't.
fn machine_fault(alloc: Global, cores: &mut [CoreHandle]) -> Option<u32>
    ensures same { cores_of cores.new ≡ cores_of cores.old }
    ensures none { IfNone result ((cs : List RingCore) × (name : ℕ) × AreOpen cores.old cs × (1 ≤ length cs) × AreNumbered name 0 (length cs) cs) }
    ensures closed { IfSome result (λ answer. answer ≡ CLOSED → (cs : List RingCore) → AreOpen cores.old cs → ⊥) }
    ensures not_machine { IfSome result (λ answer. answer ≡ NOT_MACHINE → (cs : List RingCore) (name : ℕ) → AreOpen cores.old cs → 1 ≤ length cs → AreNumbered name 0 (length cs) cs → ⊥) }
    ensures answers { IfSome result (λ answer. (answer ≡ CLOSED) ⊎ (answer ≡ NOT_MACHINE)) }
{
    let count = cores.len();
    let Some((first, _rest)) = cores.split_first_mut() else {
        return Some(NOT_MACHINE);
    };
    let Some(name) = name_of(alloc, first) else {
        return Some(CLOSED);
    };
    fault_of(alloc, cores, name, 0, count)
}

/// The name of a core's machine, if the core is open.
fn name_of(alloc: Global, core: &mut CoreHandle) -> Option<u64>
    ensures same { core.new.core ≡ core.old.core }
    ensures closed { IfNone result (core.old.core ≡ None) }
    ensures name { IfSome result (λ name. (c : RingCore) × (core.old.core ≡ Some c) × (machine_of c.links ≡ name)) }
{
    let open = core.take(alloc)?;
    let name = open.machine();
    core.put(open);
    Some(name)
}

/// How settling ended, as a number.
fn answer_of(settled: Settled) -> u32
    ensures { result ≡ answer_of settled }
{
    match settled {
        Settled::AtRest => DONE,
        Settled::Spent(_) => SPENT,
        Settled::NoMemory(_) | Settled::NoRoom(_) => NO_MEMORY,
    }
}

/// Why these aren't the cores of the machine of this name and of so many, the first in this place, if they aren't.
fn fault_of(
    alloc: Global,
    cores: &mut [CoreHandle],
    name: u64,
    place: usize,
    count: usize,
) -> Option<u32>
    requires { place + length cores.old ≤ count }
    ensures same { cores_of cores.new ≡ cores_of cores.old }
    ensures none { IfNone result ((cs : List RingCore) × AreOpen cores.old cs × AreNumbered name place count cs) }
    ensures some { IfSome result (HasFault name place count cores.old) }
{
    let Some((core, rest)) = cores.split_first_mut() else {
        return None;
    };
    let Some(open) = core.take(alloc) else {
        return Some(CLOSED);
    };
    let fits = is_of(&open, name, place, count);
    core.put(open);
    if !fits {
        return Some(NOT_MACHINE);
    }
    fault_of(alloc, rest, name, place + 1, count)
}

/// Whether this is the core in this place of the machine of this name and of so many.
fn is_of(core: &Core<RingLinks>, name: u64, place: usize, count: usize) -> bool
    ensures { IsTrue result ↔ IsOf name place count core.now }
{
    usize::from(core.number()) == place
        && usize::from(core.count()) == count
        && core.machine() == name
}

/// Takes each core out of its handle, after those that were taken.
fn take_all(alloc: Global, cores: &mut [CoreHandle], taken: &mut Vec<Box<Core<RingLinks>>>)
    requires room { length taken.old.items + length cores.old ≤ vec_capacity taken.old }
    ensures closed { AreClosed cores.new }
    ensures count { length cores.new ≡ length cores.old }
    ensures taken { (cs : List RingCore) → AreOpen cores.old cs → map (λ b. b.value) taken.new.items ≡ map (λ b. b.value) taken.old.items ++ cs }
{
    let Some((core, rest)) = cores.split_first_mut() else {
        return;
    };
    take_one(alloc, core, taken);
    take_all(alloc, rest, taken);
}

/// Takes a core out of its handle, after those that were taken.
fn take_one(alloc: Global, handle: &mut CoreHandle, taken: &mut Vec<Box<Core<RingLinks>>>)
    requires room { length taken.old.items < vec_capacity taken.old }
    ensures closed { handle.new.core ≡ None }
    ensures room { vec_capacity taken.new ≡ vec_capacity taken.old }
    ensures most { length taken.new.items ≤ length taken.old.items + 1 }
    ensures taken { (core : RingCore) → handle.old.core ≡ Some core → map (λ b. b.value) taken.new.items ≡ map (λ b. b.value) taken.old.items ++ core ∷ [] }
{
    if let Some(open) = handle.take(alloc) {
        taken.push_reserved(open);
    }
}
