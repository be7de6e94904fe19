//! What a script gives the cores to do.

ghost use Rattle.std.specs.Prelude.{◌≡◌, ◌++◌, All, OnOk, IfOk};
ghost use Rattle.mk_script.specs.Threads.{IsForThreads};
ghost use Rattle.run_engine.specs.Work.{job_in, jobs_of, request_in, requests_of};

use filter_table::Op;
use mk_script::Item;
use rx_queue::Job;
use std::alloc::{AllocError, Global};
use world_events::Event;

/// Requests and jobs, each with the number of its core.
#[derive(Drop)]
pub(crate) struct Work {
    pub requests: Vec<(u16, Op)>,
    pub jobs: Vec<(u16, Job)>,
}

/// What these items of a script for so many cores give them to do.
pub(crate) fn work_of(alloc: Global, items: Vec<Item>, cores: usize) -> Result<Work, AllocError>
    requires at_cores { All (IsForThreads cores) items.items }
    ensures requests { IfOk result (λ work. work.requests.items ≡ requests_of items.items) }
    ensures jobs { IfOk result (λ work. work.jobs.items ≡ jobs_of items.items) }
{
    let mut work = Work {
        requests: Vec::new(alloc),
        jobs: Vec::new(alloc),
    };
    for item in items {
        add(&mut work, item, cores)?;
    }
    Ok(work)
}

/// Adds what an item gives a core to do.
fn add(work: &mut Work, item: Item, cores: usize) -> Result<(), AllocError>
    requires at_core { IsForThreads cores item }
    ensures requests { OnOk result (work.new.requests.items ≡ work.old.requests.items ++ request_in item) }
    ensures jobs { OnOk result (work.new.jobs.items ≡ work.old.jobs.items ++ job_in item) }
{
    match item {
        Item::Ask(core, op) => work.requests.push((core, op))?,
        Item::Apply(
            Event::Rx {
                core,
                number,
                packet,
                floor,
            },
        ) => work.jobs.push((
            core,
            Job {
                number,
                packet,
                floor,
            },
        ))?,
        _ => unreachable!(),
    }
    Ok(())
}
