//! A machine, and its run.

ghost use Rattle.std.specs.Prelude.{◌≡◌, ◌<◌, ℕ, All, List, length, IfOk};
ghost use Rattle.filter_table.specs.Limits.{TableLimits};
ghost use Rattle.core_machine.specs.Machines.{IsMachine};
ghost use Rattle.core_threads.specs.Booted.{IsBootedMachine};
ghost use Rattle.core_threads.specs.Ending.{EndsRightly, HaltEach};
ghost use Rattle.core_threads.specs.Finishing.{CanFinish, Finishes};
ghost use Rattle.core_threads.specs.Loading.{AreLoaded};

use crate::ending::{cores_of, halts_of, why_halted};
use crate::feeding::{Outlet, outlets_of};
use crate::flags::Flags;
use crate::halt::{Halt, RunFault};
use crate::leaving::leave_all;
use crate::threads::{Joined, run_in_threads};
use crate::turning::Bounds;
use crate::watcher::Watcher;
use core_loop::RingLinks;
use core_machine::{Recorded, by_core, look_at_machine};
use rx_queue::{Job, Port};
use std::alloc::{AllocError, Global};
use std::marker::Model;
use std::sync::Wait;
use std::thread::Threads;
use std::time::Clock;

/// The cores of one machine that has not run, and where their jobs go in.
#[derive(Drop)]
pub struct Machine {
    pub(crate) cores: Vec<Recorded<RingLinks>>,
    pub(crate) ports: Vec<Port>,
}

impl Model for Machine {
    ghost use Rattle.core_threads.specs.Booted.{MachineState, IsBootedMachine};

    ghost Value = { MachineState };

    ghost view = { λ m. record { cores = m.cores.items; ports = m.ports.items } };

    ghost invariant = { λ m. IsBootedMachine m.cores.items m.ports.items };
}

/// A machine that has run.
#[derive(Drop)]
pub struct Ended {
    /// Its cores, in the order of their numbers.
    pub cores: Vec<Recorded<RingLinks>>,
    /// Why each of them halted, if it did.
    pub halts: Vec<Option<Halt>>,
    /// The jobs that were not received, each with the number of its core, and each core's in order.
    pub left: Vec<(u16, Job)>,
    /// The least core that halted, and why, which is no `Halt::Cause`; or `Halt::Early` where none did and there is work left.
    pub halted: Option<(u16, Halt)>,
}

/// What the joined threads came to.
fn finish(alloc: Global, joined: Joined) -> Result<Ended, AllocError>
    requires { CanFinish joined.ran.items joined.outlets.items }
    ensures finishes { IfOk result (λ ended. Finishes joined.ran.items joined.outlets.items ended.cores.items ended.left.items ended.halted) }
    ensures halts { IfOk result (λ ended. HaltEach ended.cores.items ended.halts.items ended.halted) }
{
    let Joined {
        mut ran,
        mut outlets,
    } = joined;
    let left = leave_all(alloc, &mut ran, &mut outlets)?;
    let halted = why_halted(&ran, &left);
    let halts = halts_of(alloc, &ran)?;
    let mut cores = cores_of(alloc, ran)?;
    look_at_machine(cores.as_mut_slice());
    Ok(Ended {
        cores,
        halts,
        left,
        halted,
    })
}

/// The cores of a machine, and the outlets with all jobs.
fn load(
    alloc: Global,
    machine: Machine,
    jobs: Vec<(u16, Job)>,
) -> Result<(Vec<Recorded<RingLinks>>, Vec<Outlet>), AllocError>
    requires { All (λ j. j.0 < length machine.cores) jobs.items }
    ensures booted { IsBootedMachine machine.cores machine.ports }
    ensures cores { IfOk result (λ r. r.0.items ≡ machine.cores) }
    ensures outlets { IfOk result (λ r. AreLoaded machine.ports jobs.items r.1.items) }
{
    let Machine { cores, ports } = machine;
    let lanes = by_core(alloc, cores.len(), jobs)?;
    let outlets = outlets_of(alloc, ports, lanes)?;
    Ok((cores, outlets))
}

/// How many requests the cores other than core 0 have.
fn submitted(cores: &[Recorded<RingLinks>]) -> u64 {
    let mut count = 0u64;
    for core in cores {
        let core = core.core();
        if core.number() != 0 {
            count = count.saturating_add(core.pending() as u64);
        }
    }
    count
}

/// Runs each core of a machine in a thread of its own, until all requests are decided and all jobs are received that can be. The
/// calling thread puts the jobs, each in the queue of its core. A core halts after `limit` turns in a row that did nothing;
/// where one halts, all end. No core stops, so none halts for a `Halt::Cause`. After an error the machine and the jobs are gone.
pub fn run_machine<R: Threads + Wait + Clock + Sync, G: Watcher + Sync>(
    rt: &R,
    alloc: Global,
    machine: Machine,
    jobs: Vec<(u16, Job)>,
    watcher: &G,
    limit: u64,
) -> Result<Ended, RunFault>
    requires { All (λ j. j.0 < length machine.cores) jobs.items }
    ensures ended { IfOk result (λ ended. EndsRightly machine.cores jobs.items ended.cores.items ended.left.items ended.halted) }
    ensures halts { IfOk result (λ ended. HaltEach ended.cores.items ended.halts.items ended.halted) }
    ensures machine { IfOk result (λ ended. (limits : TableLimits) (budget : ℕ) (budgets : List ℕ) → IsMachine limits budget budgets machine.cores → IsMachine limits budget budgets ended.cores.items) }
    ensures one_machine { IfOk result (λ ended. (limits : TableLimits) × (budget : ℕ) × (budgets : List ℕ) × IsMachine limits budget budgets ended.cores.items) }
{
    let (cores, outlets) = load(alloc, machine, jobs)?;
    let flags = Flags::new(alloc, cores.len())?;
    let bounds = Bounds {
        limit,
        submitted: submitted(&cores),
    };
    let joined = run_in_threads(rt, alloc, cores, outlets, &flags, watcher, bounds)?;
    let ended = finish(alloc, joined)?;
    Ok(ended)
}
