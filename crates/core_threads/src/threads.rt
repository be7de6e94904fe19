//! One thread for each core.

ghost use Rattle.std.specs.Prelude.{◌≡◌, ◌∷◌, [], ◌++◌, List, IfOk};
ghost use Rattle.std.specs.Thread.{IsSync};
ghost use Rattle.core_machine.specs.Machines.{RingCore};
ghost use Rattle.core_threads.specs.declared.feeding.Outlet.{Outlet as GhostOutlet};
ghost use Rattle.core_threads.specs.Joining.{HaveRan, SameOutlets};
ghost use Rattle.core_threads.specs.Runs.{ThreadRan};

use crate::feeding::{Outlet, put_jobs};
use crate::flags::Flags;
use crate::halt::{Halt, RunFault};
use crate::turning::{Bounds, run_core};
use crate::watcher::{Notes, Watcher};
use core_loop::RingLinks;
use core_machine::Recorded;
use std::alloc::Global;
use std::snapshot::Snapshot;
use std::sync::Wait;
use std::thread;
use std::thread::{Promise, Threads};
use std::time::Clock;

/// What a core's thread gives back.
#[derive(Drop)]
pub(crate) struct Ran {
    pub(crate) core: Recorded<RingLinks>,
    pub(crate) halted: Option<Halt>,
}

/// The promise of a core's thread: it ran this core.
#[derive(Drop)]
struct Runs(Snapshot<Recorded<RingLinks>>);

impl Promise<Ran> for Runs {
    ghost kept_by = { λ p r. ThreadRan p.0.value r.core r.halted };
}

/// What all threads give back.
#[derive(Drop)]
pub(crate) struct Joined {
    pub(crate) ran: Vec<Ran>,
    pub(crate) outlets: Vec<Outlet>,
}

/// A core's thread.
fn run_thread<R: Wait + Clock, G: Watcher>(
    rt: &R,
    core: Recorded<RingLinks>,
    flags: &Flags,
    watcher: &G,
    bounds: Bounds,
) -> Ran
    ensures { ThreadRan core result.core result.halted }
{
    let mut core = core;
    let mut notes = Notes::new();
    let halted = run_core(rt, &mut core, flags, watcher, &mut notes, bounds);
    if halted.is_some() {
        flags.halt();
    }
    flags.end(core.core().number());
    Ran { core, halted }
}

/// Puts the jobs, while all cores run.
fn feed<R: Wait + Clock>(rt: &R, alloc: Global, outlets: Vec<Outlet>, flags: &Flags) -> Joined
    ensures cores { result.ran.items ≡ [] }
    ensures outlets { SameOutlets outlets.items result.outlets.items }
{
    let mut outlets = outlets;
    put_jobs(rt, outlets.as_mut_slice(), flags);
    flags.feed();
    Joined {
        ran: Vec::new(alloc),
        outlets,
    }
}

/// What the threads of all cores give back, where those of the cores before the last one gave back the rest.
fn join_last(rest: Result<Joined, RunFault>, ran: Ran) -> Result<Joined, RunFault>
    ensures cores { (cores : List RingCore) (core : RingCore) → IfOk rest (λ joined. HaveRan cores joined.ran.items) → ThreadRan core ran.core ran.halted →
        IfOk result (λ joined. HaveRan (cores ++ core ∷ []) joined.ran.items) }
    ensures outlets { (outlets : List GhostOutlet) → IfOk rest (λ joined. SameOutlets outlets joined.outlets.items) → IfOk result (λ joined. SameOutlets outlets joined.outlets.items) }
{
    // A core is dropped by a call: left to a way out, each of its parts is dropped there, which takes minutes to prove.
    let mut joined = match rest {
        Ok(joined) => joined,
        Err(fault) => {
            drop(ran);
            return Err(fault);
        }
    };
    match joined.ran.push(ran) {
        Ok(()) => Ok(joined),
        Err(refused) => {
            drop((refused, joined));
            Err(RunFault::NoMemory)
        }
    }
}

/// Runs each core in a thread of its own, and puts the jobs in this one. All threads are joined, also where one could not be
/// started.
pub(crate) fn run_in_threads<R: Threads + Wait + Clock + Sync, G: Watcher + Sync>(
    rt: &R,
    alloc: Global,
    cores: Vec<Recorded<RingLinks>>,
    outlets: Vec<Outlet>,
    flags: &Flags,
    watcher: &G,
    bounds: Bounds,
) -> Result<Joined, RunFault>
    ensures cores { IfOk result (λ joined. HaveRan cores.items joined.ran.items) }
    ensures outlets { IfOk result (λ joined. SameOutlets outlets.items joined.outlets.items) }
{
    let mut cores = cores;
    let Some(core) = cores.pop() else {
        drop(cores);
        return Ok(feed(rt, alloc, outlets, flags));
    };
    thread::scope(
        thread::scope_env(),
        rt,
        move |scope| -> Result<Joined, RunFault>
            requires { IsSync R.row × IsSync G.row }
            ensures cores { IfOk result (λ joined. HaveRan (cores.items ++ core ∷ []) joined.ran.items) }
            ensures outlets { IfOk result (λ joined. SameOutlets outlets.items joined.outlets.items) }
        {
            let promise = Runs(Snapshot::of(&core));
            let child = match scope.spawn_with(
                promise,
                move || run_thread(rt, core, flags, watcher, bounds),
            ) {
                Ok(child) => child,
                // The error has the thread's code, and so the core: it is dropped by a call, as in `join_last`.
                Err(refused) => {
                    flags.halt();
                    drop((refused, cores, outlets));
                    return Err(RunFault::Spawn);
                }
            };
            let rest = run_in_threads(rt, alloc, cores, outlets, flags, watcher, bounds);
            join_last(rest, child.join(rt))
        },
    )
}
