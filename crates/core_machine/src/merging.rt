//! One list of what all cores did.

ghost use Rattle.std.specs.Prelude.{◌≡◌, IfOk, IfSome, IfNone};
ghost use Rattle.world_histories.specs.Merging.{listed};
ghost use Rattle.core_machine.specs.Conclusions.{listed_histories};
ghost use Rattle.core_machine.specs.Merges.{ListsAll, ListsRuns, NoneLeft, IsLeast, shown_histories, shown_list};

use crate::conclusion::Histories;
use filter_table::Vote;
use std::alloc::{AllocError, Global};
use world_events::{Answer, Done, Event};
use world_histories::Stamped;

/// All events of the histories, by stamp and then by core. Where the histories are a computation, as those that `conclude` gives
/// are, the list is a run of the machine, once a take that voted NoMemory has its `short` set, as `merge` sets it. The one error
/// is that there is no memory.
pub fn in_order(alloc: Global, histories: &Histories) -> Result<Vec<&Stamped>, AllocError>
    ensures list { IfOk result (λ list. ListsAll (listed_histories histories.now.cores.items) (shown_list list.items)) }
    ensures run { IfOk result (λ list. ListsRuns (listed_histories histories.now.cores.items) (shown_list list.items)) }
{
    let mut left = Vec::with_capacity(alloc, histories.cores.len())?;
    let mut count: usize = 0;
    for history in &histories.cores {
        left.push(history.as_slice())?;
        count = count.checked_add(history.len()).ok_or(AllocError)?;
    }
    let mut list = Vec::with_capacity(alloc, count)?;
    while let Some(core) = least(&left) {
        let Some((event, later)) = left[core].split_first() else {
            unreachable!()
        };
        list.push(event)?;
        left[core] = later;
    }
    Ok(list)
}

/// All events of the histories, by stamp and then by core. A take that voted NoMemory has its `short` set. Where the histories
/// are a computation, as those that `conclude` gives are, the list is a run of the machine. The one error is that there is no
/// memory.
pub fn merge(alloc: Global, histories: &Histories) -> Result<Vec<Done>, AllocError>
    ensures list { IfOk result (λ list. ListsAll (listed_histories histories.now.cores.items) list.items) }
    ensures run { IfOk result (λ list. ListsRuns (listed_histories histories.now.cores.items) list.items) }
{
    let events = in_order(alloc, histories)?;
    copy_listed(alloc, &events)
}

/// The events as the list has them.
fn copy_listed(alloc: Global, events: &[&Stamped]) -> Result<Vec<Done>, AllocError>
    ensures { IfOk result (λ list. list.items ≡ shown_list events.now) }
{
    let mut copies = Vec::with_capacity(alloc, events.len())?;
    for event in events {
        copies.push(listed_copy(event)?)?;
    }
    Ok(copies)
}

/// The core whose first event comes first of all: the least stamp, and of equal stamps the least core.
fn least(left: &[&[Stamped]]) -> Option<usize>
    ensures some { IfSome result (λ core. IsLeast (shown_histories left.now) core) }
    ensures none { IfNone result (NoneLeft (shown_histories left.now)) }
{
    let mut least: Option<(usize, u64)> = None;
    for (core, history) in left.iter().enumerate() {
        let Some(event) = history.first() else {
            continue;
        };
        match least {
            Some((_, stamp)) if stamp <= event.stamp => {}
            _ => least = Some((core, event.stamp)),
        }
    }
    let (core, _) = least?;
    Some(core)
}

/// The clone of an event is equal to it.
fn equal_event(event: &Event) -> Result<Event, AllocError>
    ensures { IfOk result (λ equal. equal ≡ event.now) }
{
    event.clone()
}

/// The clone of an answer is equal to it.
fn equal_answer(answer: &Answer) -> Result<Answer, AllocError>
    ensures { IfOk result (λ equal. equal ≡ answer.now) }
{
    answer.clone()
}

/// The event as the list has it.
fn listed_copy(stamped: &Stamped) -> Result<Done, AllocError>
    ensures { IfOk result (λ done. done ≡ listed stamped.now) }
{
    let event = equal_event(&stamped.done.event)?;
    let answer = equal_answer(&stamped.done.answer)?;
    let mut done = Done { event, answer };
    if let Event::Take { short, .. } = &mut done.event {
        if let Answer::TookPrepare {
            vote: Vote::NoMemory,
            ..
        } = done.answer
        {
            *short = true;
        }
    }
    Ok(done)
}
