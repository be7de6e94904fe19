//! The lines of a run.

ghost use Rattle.std.specs.Prelude.{◌≡◌, ◌++◌, ℕ, List, OnOk, string_bytes};
ghost use Rattle.std.specs.List.{flat_map};
ghost use Rattle.sim_lines.specs.Events.{done_line};
ghost use Rattle.world_histories.specs.Merging.{listed};
ghost use Rattle.core_machine.specs.Merges.{shown_list};
ghost use Rattle.run_engine.specs.Showing.{ShowsLeft, left_lines};

use core_loop::Stamped;
use rx_queue::Job;
use sim_lines::{push_done, push_left};
use std::alloc::AllocError;

/// Adds the lines of events.
pub(crate) fn push_events(text: &mut String, events: &[&Stamped]) -> Result<(), AllocError>
    ensures { OnOk result (string_bytes text.new ≡ string_bytes text.old ++ flat_map done_line (shown_list events.now)) }
{
    for event in events {
        push_event(text, event)?;
    }
    Ok(())
}

/// Adds the line of an event. That a take was short of memory isn't part of it.
fn push_event(text: &mut String, event: &Stamped) -> Result<(), AllocError>
    ensures { OnOk result (string_bytes text.new ≡ string_bytes text.old ++ done_line (listed event.now)) }
{
    push_done(text, &event.done.event, &event.done.answer)
}

/// Adds the lines of jobs left, by the jobs' numbers.
pub(crate) fn push_all_left(text: &mut String, mut left: Vec<(u16, Job)>) -> Result<(), AllocError>
    ensures { OnOk result ((lines : List ℕ) × ShowsLeft left.items lines × (string_bytes text.new ≡ string_bytes text.old ++ lines)) }
{
    left.sort_by_key(|l| l.1.number)?;
    push_in_order(text, left.as_slice())
}

/// Adds the lines of jobs in their order.
fn push_in_order(text: &mut String, left: &[(u16, Job)]) -> Result<(), AllocError>
    ensures { OnOk result (string_bytes text.new ≡ string_bytes text.old ++ left_lines left.now) }
{
    for (core, job) in left {
        push_left(text, *core, job.number)?;
    }
    Ok(())
}
