//! Machines whose cores run in threads.

ghost use Rattle.std.specs.Prelude.{◌≤◌, ◌<◌, ℕ, All, List, length, IfOk};
ghost use Rattle.filter_table.specs.Limits.{default_limits};
ghost use Rattle.core_machine.specs.Machines.{IsMachine};
ghost use Rattle.core_machine.specs.Booting.{AreGivable};

use crate::facts::{equal, holds};
use core_loop::RingLinks;
use core_machine::{Recorded, conclude, merge};
use core_threads::{
    BootFault, Ended, Free, Halt, Machine, Notes, RunFault, Watcher, boot, boot_with_limits,
    run_machine,
};
use rx_queue::Job;
use std::alloc::{AllocError, Global};
use std::process::Abort;
use std::sync::Wait;
use std::sync::atomic::{AtomicBool, AtomicU64, Ordering};
use std::thread::Threads;
use std::time::Clock;
use table_replica::{Limits, Op};
use test_words::{ALL, EventWords, is_for_memory, job, program, tells};
use world_model::{Done, Event};

/// A limit that is never met.
const LIMIT: u64 = 50_000_000;

/// On core 0 of so many, domain 1 creates endpoint 7 and installs a filter that accepts every packet.
fn requests(rt: &impl Abort, alloc: Global, cores: usize) -> Vec<(u16, Op)>
    requires { 1 ≤ cores }
    ensures inside { All (λ r. r.0 < cores) result.items }
    ensures short { AreGivable result.items }
{
    let _cores = cores;
    let program = program(alloc, ALL).expect(rt, "there is memory");
    let create = Op::Create {
        domain: 1,
        endpoint: 7,
    };
    let install = Op::Install {
        domain: 1,
        cap: 1,
        program,
    };
    vec![in alloc; (0, create), (0, install)].expect(rt, "there is memory")
}

/// Job 1 of core 1, among so many, waits for version 2, and its job 2 for version 9.
fn waiting_jobs(rt: &impl Abort, alloc: Global, cores: usize) -> Vec<(u16, Job)>
    requires { 2 ≤ cores }
    ensures { All (λ j. j.0 < cores) result.items }
{
    let _cores = cores;
    let first = job(alloc, 1, 2).expect(rt, "there is memory");
    let second = job(alloc, 2, 9).expect(rt, "there is memory");
    vec![in alloc; (1, first), (1, second)].expect(rt, "there is memory")
}

/// Runs a machine with these budgets.
fn worked_run<R: Abort + Threads + Wait + Clock + Sync>(
    rt: &R,
    alloc: Global,
    budgets: &[u32],
) -> Ended
    requires { (2 ≤ length budgets.now) × (length budgets.now ≤ 8) }
    ensures { (budget : ℕ) × (rest : List ℕ) × IsMachine default_limits budget rest result.cores.items }
{
    let requests = requests(rt, alloc, budgets.len());
    let machine = boot(alloc, budgets, requests).expect(rt, "there is memory");
    let jobs = waiting_jobs(rt, alloc, budgets.len());
    run_machine(rt, alloc, machine, jobs, &Free, LIMIT).expect(rt, "threads start")
}

/// The last event of a core where that is a receipt: the job's number, and what is told.
fn last_receipt(ended: &Ended, place: usize) -> Option<(u64, EventWords)> {
    let last = ended.cores.get(place)?.events().last()?;
    match &last.done.event {
        Event::Rx { number, .. } => Some((*number, tells(&last.done.answer))),
        _ => None,
    }
}

/// The core and the number of the first job that was left, and how many were left.
fn left(ended: &Ended) -> Option<(u16, u64, usize)> {
    let (core, job) = ended.left.first()?;
    Some((*core, job.number, ended.left.len()))
}

fn ends_as_worked(rt: &impl Abort, ended: &Ended, cores: usize) {
    equal(rt, ended.halted, None);
    equal(rt, ended.cores.len(), cores);
    for core in &ended.cores {
        let core = core.core();
        equal(rt, (core.version(), core.pending()), (2, 0));
    }
    let received = EventWords::Delivered(2, 1, 7, 5);
    equal(rt, last_receipt(ended, 1), Some((1, received)));
    equal(rt, left(ended), Some((1, 2, 1)));
}

/// What two cores did is one run, of so many events.
#[test]
fn two_cores_commit_and_receive(rt: HostRuntime) {
    let ended = worked_run(&rt, rt.alloc(), &[100, 100]);
    ends_as_worked(&rt, &ended, 2);
    let Ended { cores, left, .. } = ended;
    let list = list_of(rt.alloc(), cores).expect(&rt, "there is memory");
    equal(&rt, list.len(), 11);
    drop((list, left));
}

#[test]
fn eight_cores_commit_and_receive(rt: HostRuntime) {
    let ended = worked_run(&rt, rt.alloc(), &[100; 8]);
    ends_as_worked(&rt, &ended, 8);
    drop(ended);
}

/// Lets no job through.
struct Never;

impl Watcher for Never {
    fn may(&self, notes: &mut Notes, core: u16, number: u64) -> bool {
        notes.ask(core, number, false);
        false
    }

    fn did(&self, notes: &mut Notes, core: u16, number: u64) {
        notes.tell(core, number);
    }
}

/// Runs one core, which has a job that it may never receive.
fn halting_run<R: Abort + Threads + Wait + Clock + Sync>(rt: &R, alloc: Global) -> Ended {
    let machine = boot(alloc, &[100], Vec::new(alloc)).expect(rt, "there is memory");
    let job = job(alloc, 1, 0).expect(rt, "there is memory");
    let jobs = vec![in alloc; (0, job)].expect(rt, "there is memory");
    run_machine(rt, alloc, machine, jobs, &Never, 1_000).expect(rt, "threads start")
}

#[test]
fn a_core_halts_at_its_limit(rt: HostRuntime) {
    let ended = halting_run(&rt, rt.alloc());
    equal(&rt, ended.halted, Some((0, Halt::Limit)));
    equal(&rt, left(&ended), Some((0, 1, 1)));
    drop(ended);
}

/// Each core's first question sets its flag, and then looks for the other core's.
#[derive(Drop)]
struct Meeting {
    here: [AtomicBool; 2],
    met: AtomicU64,
}

impl Watcher for Meeting {
    fn may(&self, notes: &mut Notes, core: u16, number: u64) -> bool {
        notes.ask(core, number, true);
        let (own, other) = if core == 0 {
            (&self.here[0], &self.here[1])
        } else {
            (&self.here[1], &self.here[0])
        };
        if own.swap(true, Ordering::SeqCst) {
            return true;
        }
        for _ in 0..LIMIT {
            if other.load(Ordering::SeqCst) {
                self.met.fetch_add(1, Ordering::SeqCst);
                return true;
            }
        }
        true
    }

    fn did(&self, notes: &mut Notes, core: u16, number: u64) {
        notes.tell(core, number);
    }
}

/// Runs two cores with a job each.
fn meeting_run<R: Abort + Threads + Wait + Clock + Sync>(
    rt: &R,
    alloc: Global,
    watcher: &Meeting,
) -> Ended {
    let machine = boot(alloc, &[100, 100], Vec::new(alloc)).expect(rt, "there is memory");
    let first = job(alloc, 1, 0).expect(rt, "there is memory");
    let second = job(alloc, 2, 0).expect(rt, "there is memory");
    let jobs = vec![in alloc; (0, first), (1, second)].expect(rt, "there is memory");
    run_machine(rt, alloc, machine, jobs, watcher, LIMIT).expect(rt, "threads start")
}

#[test]
fn two_cores_wait_for_each_other(rt: HostRuntime) {
    let watcher = Meeting {
        here: [AtomicBool::new(false), AtomicBool::new(false)],
        met: AtomicU64::new(0),
    };
    let ended = meeting_run(&rt, rt.alloc(), &watcher);
    equal(&rt, ended.halted, None);
    equal(&rt, watcher.met.load(Ordering::SeqCst), 2);
    let nobody = EventWords::Delivered(0, 0, 0, 0);
    equal(&rt, last_receipt(&ended, 0), Some((1, nobody)));
    equal(&rt, last_receipt(&ended, 1), Some((2, nobody)));
    equal(&rt, left(&ended), None);
    drop(ended);
}

#[test]
fn a_machine_has_1_to_8_cores(rt: HostRuntime) {
    let alloc = rt.alloc();
    let none = boot(alloc, &[], Vec::new(alloc));
    equal(&rt, none.err(), Some(BootFault::CoreCount));
    let nine = boot(alloc, &[100; 9], Vec::new(alloc));
    equal(&rt, nine.err(), Some(BootFault::CoreCount));
}

#[test]
fn a_machine_with_limits_has_1_to_64_cores(rt: HostRuntime) {
    let alloc = rt.alloc();
    let none = boot_with_limits(alloc, Limits::DEFAULT, &[], Vec::new(alloc));
    equal(&rt, none.err(), Some(BootFault::CoreCount));
    let most = boot_with_limits(alloc, Limits::DEFAULT, &[100; 64], Vec::new(alloc));
    equal(&rt, most.err(), None);
    let more = boot_with_limits(alloc, Limits::DEFAULT, &[100; 65], Vec::new(alloc));
    equal(&rt, more.err(), Some(BootFault::CoreCount));
}

/// Runs a machine of two cores that may be refused memory: its end, or why there is none.
fn run_within<R: Threads + Wait + Clock + Sync>(
    rt: &R,
    alloc: Global,
    requests: Vec<(u16, Op)>,
    jobs: Vec<(u16, Job)>,
) -> Result<Ended, RunFault>
    requires inside { All (λ r. r.0 < 2) requests.items }
    requires short { AreGivable requests.items }
    requires jobs { All (λ j. j.0 < 2) jobs.items }
    ensures { IfOk result (λ ended. (budget : ℕ) × (rest : List ℕ) × IsMachine default_limits budget rest ended.cores.items) }
{
    match boot(alloc, &[100, 100], requests) {
        Ok(machine) => run_machine(rt, alloc, machine, jobs, &Free, LIMIT),
        Err(_) => {
            drop(jobs);
            Err(RunFault::NoMemory)
        }
    }
}

/// The list of what two cores did, or none where there was no memory for it.
fn list_of(alloc: Global, cores: Vec<Recorded<RingLinks>>) -> Result<Vec<Done>, AllocError>
    requires { (budget : ℕ) × (rest : List ℕ) × IsMachine default_limits budget rest cores.items }
{
    merge(alloc, &conclude(alloc, cores)?)
}

/// An end with ample memory has all events. Else a core halted, voted or decided that there was none.
fn ends_within<A: Abort>(rt: &A, alloc: Global, ended: Ended)
    requires { (budget : ℕ) × (rest : List ℕ) × IsMachine default_limits budget rest ended.cores.items }
{
    let Ended {
        cores,
        left,
        halted,
        ..
    } = ended;
    if let Some((_, why)) = halted {
        holds(rt, matches!(why, Halt::NoMemory | Halt::NoRoom));
        drop((cores, left));
        return;
    }
    holds(rt, !left.is_empty() && left.len() <= 2);
    drop(left);
    if let Ok(list) = list_of(alloc, cores) {
        let lacked_memory = list.iter().any(|done| is_for_memory(&done.answer));
        holds(rt, list.len() == 11 || lacked_memory);
    }
}

#[test]
fn a_machine_with_a_refused_growth(rt: HostRuntime) {
    let alloc = rt.alloc();
    let requests = requests(&rt, alloc, 2);
    let jobs = waiting_jobs(&rt, alloc, 2);
    match run_within(&rt, alloc, requests, jobs) {
        Ok(ended) => ends_within(&rt, alloc, ended),
        Err(fault) => holds(&rt, matches!(fault, RunFault::NoMemory | RunFault::Spawn)),
    }
}
