//! A run whose machine is settled after its threads are joined.

ghost use Rattle.std.specs.Prelude.{◌≡◌, ◌↔◌, ◌<◌, ℕ, All, List, IfNone, IfSome, IfOk, IsTrue, length};
ghost use Rattle.filter_table.specs.Limits.{TableLimits};
ghost use Rattle.core_machine.specs.Machines.{IsMachine};
ghost use Rattle.core_threads.specs.Ending.{AreAllDone};
ghost use Rattle.core_threads.specs.Searching.{EachIsAtEnd};
ghost use Rattle.core_threads.specs.Settling.{HaveSettled, IsUndone, SettlesWhere, RunsToRest};

use crate::ending::is_at_end;
use crate::halt::{Halt, RunFault};
use crate::machine::{Ended, Machine, run_machine};
use crate::watcher::Watcher;
use core_loop::RingLinks;
use core_machine::{Recorded, Settled, settle};
use rx_queue::Job;
use std::alloc::Global;
use std::sync::Wait;
use std::thread::Threads;
use std::time::Clock;

/// A machine that has run, and was settled where a core had halted.
#[derive(Drop)]
pub struct Rested {
    /// Its cores, in the order of their numbers.
    pub cores: Vec<Recorded<RingLinks>>,
    /// The jobs that were not received, each with the number of its core, and each core's in order.
    pub left: Vec<(u16, Job)>,
    /// Why the work is not done, where it isn't: this core lacks memory or a number for what it would do next. Or all
    /// requests are decided, and a job is left that can be received, since this core had halted.
    pub undone: Option<(u16, Halt)>,
}

/// Runs each core of a machine in a thread of its own, as `run_machine`. Where that ended with work left, since a core
/// halted, the machine is settled once the threads are joined: the cores are turned in this thread until all requests
/// are decided, or a core lacks memory or a number. So the work is done, or `undone` says why not. After an error the
/// machine and the jobs are gone.
pub fn run_to_rest<R: Threads + Wait + Clock + Sync, G: Watcher + Sync>(
    rt: &R,
    alloc: Global,
    machine: Machine,
    jobs: Vec<(u16, Job)>,
    watcher: &G,
    limit: u64,
) -> Result<Rested, RunFault>
    requires { All (λ j. j.0 < length machine.cores) jobs.items }
    ensures rests { IfOk result (λ rested. RunsToRest machine.cores jobs.items rested.cores.items rested.left.items rested.undone) }
    ensures machine { IfOk result (λ rested. (limits : TableLimits) (budget : ℕ) (budgets : List ℕ) → IsMachine limits budget budgets machine.cores → IsMachine limits budget budgets rested.cores.items) }
    ensures count { IfOk result (λ rested. length rested.cores.items ≡ length machine.cores) }
    ensures named { IfOk result (λ rested. IfSome rested.undone (λ why. why.0 < length rested.cores.items)) }
{
    let ended = run_machine(rt, alloc, machine, jobs, watcher, limit)?;
    let Ended {
        mut cores,
        left,
        halted,
        ..
    } = ended;
    let undone = settle_where_halted(cores.as_mut_slice(), &left, halted);
    Ok(Rested {
        cores,
        left,
        undone,
    })
}

/// Settles the cores of a machine whose threads were joined, where one had halted.
fn settle_where_halted(
    cores: &mut [Recorded<RingLinks>],
    left: &[(u16, Job)],
    halted: Option<(u16, Halt)>,
) -> Option<(u16, Halt)>
    requires machine { (limits : TableLimits) × (budget : ℕ) × (budgets : List ℕ) × IsMachine limits budget budgets cores.old }
    ensures { SettlesWhere halted result cores.old cores.new left.now }
{
    match halted {
        Some(halted) => settle_halted(cores, left, halted),
        None => None,
    }
}

/// Settles the cores of a machine whose threads were joined after this one had halted. It answers for which core the work is
/// not done, and why, where it isn't.
fn settle_halted(
    cores: &mut [Recorded<RingLinks>],
    left: &[(u16, Job)],
    halted: (u16, Halt),
) -> Option<(u16, Halt)>
    requires machine { (limits : TableLimits) × (budget : ℕ) × (budgets : List ℕ) × IsMachine limits budget budgets cores.old }
    ensures settled { HaveSettled cores.old cores.new }
    ensures done { IfNone result (AreAllDone cores.new left.now) }
    ensures undone { IfSome result (IsUndone cores.new left.now halted) }
{
    match settle(cores) {
        Settled::AtRest if are_at_end(cores, left) => None,
        Settled::AtRest => Some(halted),
        Settled::Spent(core) => Some((core, Halt::Spent)),
        Settled::NoMemory(core) => Some((core, Halt::NoMemory)),
        Settled::NoRoom(core) => Some((core, Halt::NoRoom)),
    }
}

/// Whether all cores have nothing to do, where these are the jobs that are left.
fn are_at_end(cores: &[Recorded<RingLinks>], left: &[(u16, Job)]) -> bool
    ensures { IsTrue result ↔ EachIsAtEnd cores.now left.now }
{
    match cores.split_first() {
        None => true,
        Some((core, rest)) => is_at_end(core.core(), left) && are_at_end(rest, left),
    }
}
