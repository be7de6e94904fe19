//! The thread that puts the jobs.

ghost use Rattle.std.specs.Prelude.{◌≡◌, map, IfOk};
ghost use Rattle.std.specs.List.{AllZip, zip};
ghost use Rattle.core_threads.specs.Feeding.{full_outlet, SameOutlet};

use crate::backoff::Backoff;
use crate::flags::Flags;
use rx_queue::{Full, Job, Port};
use std::alloc::{AllocError, Global};
use std::collections::VecDeque;
use std::sync::Wait;
use std::time::Clock;

/// The jobs that are put for one core at most before it is another core's turn.
const BATCH: usize = 16;

/// Where the jobs of one core go in.
#[derive(Drop)]
pub(crate) struct Outlet {
    pub(crate) port: Port,
    /// The job that the queue had no place for.
    pub(crate) held: Option<Job>,
    /// The jobs after it.
    pub(crate) later: VecDeque<Job>,
}

/// What a try to put jobs led to.
#[derive(Clone, Copy)]
enum Fed {
    /// Jobs were put.
    Moved,
    /// There are jobs, and no queue took one.
    Stuck,
    /// No job is left to put, or its core has ended.
    Done,
}

/// What two tries led to.
fn both(first: Fed, second: Fed) -> Fed {
    match (first, second) {
        (Fed::Moved, _) | (_, Fed::Moved) => Fed::Moved,
        (Fed::Stuck, _) | (_, Fed::Stuck) => Fed::Stuck,
        (Fed::Done, Fed::Done) => Fed::Done,
    }
}

/// Puts the next job of one core, and says whether the queue took it.
fn put_next(outlet: &mut Outlet) -> bool
    ensures { SameOutlet outlet.old outlet.new }
{
    let job = match outlet.held.take() {
        Some(job) => job,
        None => match outlet.later.pop_front() {
            Some(job) => job,
            None => return false,
        },
    };
    match outlet.port.put(job) {
        Ok(()) => true,
        Err(Full(job)) => {
            outlet.held = Some(job);
            false
        }
    }
}

/// Puts some jobs of one core that has not ended, as far as there is room.
fn put_batch(outlet: &mut Outlet) -> Fed
    ensures { SameOutlet outlet.old outlet.new }
{
    let mut any = false;
    for _ in 0..BATCH {
        if !put_next(outlet) {
            break;
        }
        any = true;
    }
    match (any, outlet.held.is_some()) {
        (true, _) => Fed::Moved,
        (false, true) => Fed::Stuck,
        (false, false) => Fed::Done,
    }
}

/// Puts some jobs of one core.
fn put_for(core: usize, outlet: &mut Outlet, flags: &Flags) -> Fed
    ensures { SameOutlet outlet.old outlet.new }
{
    if flags.has_ended(core) {
        return Fed::Done;
    }
    put_batch(outlet)
}

/// Puts some jobs of each core.
fn put_some(outlets: &mut [Outlet], flags: &Flags) -> Fed
    ensures { AllZip SameOutlet outlets.old outlets.new }
{
    let mut fed = Fed::Done;
    for (core, outlet) in outlets.iter_mut().enumerate() {
        fed = both(fed, put_for(core, outlet, flags));
    }
    fed
}

/// Puts each job in the queue of its core, in order. The jobs of a core that ends stay in its outlet.
pub(crate) fn put_jobs<R: Wait + Clock>(rt: &R, outlets: &mut [Outlet], flags: &Flags)
    ensures { AllZip SameOutlet outlets.old outlets.new }
{
    let mut backoff = Backoff::new();
    for _ in rt.forever() {
        if flags.is_halted() {
            return;
        }
        match put_some(outlets, flags) {
            Fed::Moved => backoff.reset(),
            Fed::Stuck => backoff.wait(rt),
            Fed::Done => return,
        }
    }
}

/// The outlet of each core: its port, and the jobs that are to be put for it.
pub(crate) fn outlets_of(
    alloc: Global,
    ports: Vec<Port>,
    lanes: Vec<VecDeque<Job>>,
) -> Result<Vec<Outlet>, AllocError>
    ensures { IfOk result (λ outlets. outlets.items ≡ map full_outlet (zip ports.items lanes.items)) }
{
    ports
        .into_iter()
        .zip(lanes)
        .map(|(port, later)| Outlet {
            port,
            held: None,
            later,
        })
        .collect(alloc)
}
