//! A machine whose cores are threads.

ghost use Rattle.std.specs.Prelude.{◌≡◌, ◌↔◌, ◌⊎◌, ◌<◌, ◌++◌, ◌∷◌, ℕ, List, All, Err, IfOk, length};
ghost use Rattle.filter_table.specs.Tables.{HasShortProgram};
ghost use Rattle.world_model.specs.Decisions.{Delivers};
ghost use Rattle.rx_queue.specs.declared.job.Job.{Job as GhostJob};
ghost use Rattle.core_machine.specs.Lanes.{items_for};
ghost use Rattle.headline.specs.declared.fault.Fault.TheVariants.{CoreCount, Halted};
ghost use Rattle.headline.specs.Decided.{decided_in};
ghost use Rattle.core_threads.specs.Settling.{HasHalted};
ghost use Rattle.core_threads.specs.declared.halt.Halt.{Halt};
ghost use Rattle.headline.specs.Headline.{ShowTables, AreEqualByVersion, begun_in, received_in};
ghost use Rattle.headline.specs.Judged.{AreRightful, AreAllowed, AreJudged, AreCommittedOnce, AreAllNamed};
ghost use Rattle.world_model.specs.Committed.{log_of};
ghost use Rattle.headline.specs.Ended.{HaveEnded};

use crate::fault::Fault;
use crate::joined::conclude_all;
use crate::machine::Did;
use core_loop::RingLinks;
use core_machine::Recorded;
use core_threads::{BootFault, Free, boot_with_limits, run_to_rest};
use filter_table::{Limits, Op};
use rx_queue::Job;
use std::alloc::Global;
use std::sync::Wait;
use std::thread::Threads;
use std::time::Clock;

/// Boots a machine with these limits and a core for each budget, 1 to 64 of them, and runs each core in a thread of its own, until
/// these requests are decided and these jobs are received. Requests and jobs have the number of their core before them, and each
/// core's come in order; a request of a core other than 0 has a program of at most 4,096 instructions. A core halts after `limit`
/// turns in a row that did nothing.
///
/// Where a core halts, the cores are settled once the threads are joined, so that each request is decided. It gives what the
/// cores did in one order, that of their clocks, and the jobs that are left, which wait for a later version. Else it names the
/// core that has no memory or no number for what it would do next, or that halted before a job which can be received was, and why.
pub fn threads<R: Threads + Wait + Clock + Sync>(
    rt: &R,
    alloc: Global,
    limits: Limits,
    budgets: &[u32],
    requests: Vec<(u16, Op)>,
    jobs: Vec<(u16, Job)>,
    limit: u64,
) -> Result<(Did, Vec<(u16, Job)>), Fault>
    requires requests { All (λ r. r.0 < length budgets.now) requests.items }
    requires short { All (λ r. 0 < r.0 → HasShortProgram r.1) requests.items }
    requires jobs { All (λ j. j.0 < length budgets.now) jobs.items }
    ensures count { result ≡ Err CoreCount ↔ ((length budgets.now ≡ 0) ⊎ (64 < length budgets.now)) }
    ensures cores { IfOk result (λ ran. length ran.0.replicas ≡ length budgets.now) }
    ensures tables { IfOk result (λ ran. ShowTables limits ran.0.events.items ran.0.replicas) }
    ensures equal { IfOk result (λ ran. AreEqualByVersion ran.0.replicas) }
    ensures delivers { IfOk result (λ ran. Delivers limits (log_of ran.0.events.items) ran.0.events.items) }
    ensures newest { IfOk result (λ ran. All (λ replica. replica.shown.version ≡ length (log_of ran.0.events.items)) ran.0.replicas) }

    // What is in the log was allowed there, and each filter that a table lists is its owner's by right.
    ensures rightful { IfOk result (λ ran. AreRightful limits (log_of ran.0.events.items)) }
    ensures allowed { IfOk result (λ ran. AreAllowed limits budgets.now (log_of ran.0.events.items)) }

    // Each request is decided: the n-th decision of a core is on its n-th request. No request is committed twice, and nothing else is.
    ensures judged { IfOk result (λ ran. AreJudged limits budgets.now ran.0.events.items) }
    ensures once { IfOk result (λ ran. AreCommittedOnce ran.0.events.items) }
    ensures named { IfOk result (λ ran. AreAllNamed ran.0.events.items) }
    ensures decided { IfOk result (λ ran. (core : ℕ) → length (decided_in core ran.0.events.items) ≡ length (items_for core requests.items)) }

    // Of each core, each request is begun once, and each job is received or left once, in the order in which they were given.
    ensures begun { IfOk result (λ ran. (core : ℕ) → begun_in core ran.0.events.items ≡ items_for core requests.items) }
    ensures received { IfOk result (λ ran. (core : ℕ) → received_in core ran.0.events.items ++ items_for core ran.1.items ≡ items_for core jobs.items) }
    ensures left { IfOk result (λ ran. (core : ℕ) (job : GhostJob) (later : List GhostJob) → items_for core ran.1.items ≡ job ∷ later → length (log_of ran.0.events.items) < job.floor) }

    // A core that is named is one of the machine's.
    ensures halted { (core : ℕ) (why : Halt) → result ≡ Err (Halted core why) → core < length budgets.now }
{
    let (cores, left) = run_machine_to_rest(rt, alloc, limits, budgets, requests, jobs, limit)?;
    let did = conclude_all(alloc, cores)?;
    Ok((did, left))
}

/// Runs the cores, and gives them with the jobs that are left. What is said of a core that is named is what the work isn't done for.
fn run_machine_to_rest<R: Threads + Wait + Clock + Sync>(
    rt: &R,
    alloc: Global,
    limits: Limits,
    budgets: &[u32],
    requests: Vec<(u16, Op)>,
    jobs: Vec<(u16, Job)>,
    limit: u64,
) -> Result<(Vec<Recorded<RingLinks>>, Vec<(u16, Job)>), Fault>
    requires requests { All (λ r. r.0 < length budgets.now) requests.items }
    requires short { All (λ r. 0 < r.0 → HasShortProgram r.1) requests.items }
    requires jobs { All (λ j. j.0 < length budgets.now) jobs.items }
    ensures count { result ≡ Err CoreCount ↔ ((length budgets.now ≡ 0) ⊎ (64 < length budgets.now)) }
    ensures ended { IfOk result (λ r. HaveEnded limits budgets.now requests.items jobs.items r.0.items r.1.items) }
    ensures halted { (core : ℕ) (why : Halt) → result ≡ Err (Halted core why) → core < length budgets.now }
    ensures why { (core : ℕ) (why : Halt) → result ≡ Err (Halted core why) → HasHalted limits budgets.now requests.items jobs.items core why }
{
    let machine = match boot_with_limits(alloc, limits, budgets, requests) {
        Ok(machine) => machine,
        Err(BootFault::CoreCount) => return Err(Fault::CoreCount),
        Err(BootFault::NoMemory) => return Err(Fault::NoMemory),
    };
    let rested = run_to_rest(rt, alloc, machine, jobs, &Free, limit)?;
    match rested.undone {
        Some((core, why)) => Err(Fault::Halted(core, why)),
        None => Ok((rested.cores, rested.left)),
    }
}
