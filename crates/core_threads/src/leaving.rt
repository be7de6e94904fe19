//! The jobs that are left when all threads are joined.

ghost use Rattle.std.specs.Prelude.{◌≡◌, ◌<◌, ◌++◌, [], All, length, IfOk, OnOk, option_to_list};
ghost use Rattle.rx_queue.specs.Queue.{jobs_put, jobs_taken, AreEnds, SamePort};
ghost use Rattle.core_threads.specs.Feeding.{jobs_through};
ghost use Rattle.core_threads.specs.Leaving.{Leaves, SameButTaken, AreFedBy, AreSameRan, AllLeft};

use crate::feeding::Outlet;
use crate::threads::Ran;
use core_loop::RingLinks;
use core_machine::Recorded;
use rx_queue::{Job, Port};
use std::alloc::{AllocError, Global};
use std::collections::VecDeque;

/// Leaves what was put for a core and not received.
fn leave_put(
    number: u16,
    core: &mut Recorded<RingLinks>,
    port: &mut Port,
    left: &mut Vec<(u16, Job)>,
) -> Result<(), AllocError>
    requires { AreEnds port.old core.old.intake }
    ensures core { SameButTaken core.old core.new }
    ensures left { OnOk result (Leaves number (jobs_taken core.old.intake) (jobs_put port.old) left.old.items left.new.items) }
{
    while let Some(job) = core.unread(port) {
        left.push((number, job))?;
    }
    Ok(())
}

/// Leaves the job that the queue had no place for.
fn leave_held(
    number: u16,
    held: &mut Option<Job>,
    left: &mut Vec<(u16, Job)>,
) -> Result<(), AllocError>
    ensures { OnOk result (Leaves number [] (option_to_list held.old) left.old.items left.new.items) }
{
    if let Some(job) = held.take() {
        left.push((number, job))?;
    }
    Ok(())
}

/// Leaves the jobs after it.
fn leave_later(
    number: u16,
    later: &mut VecDeque<Job>,
    left: &mut Vec<(u16, Job)>,
) -> Result<(), AllocError>
    ensures { OnOk result (Leaves number [] later.old.items left.old.items left.new.items) }
{
    while let Some(job) = later.pop_front() {
        left.push((number, job))?;
    }
    Ok(())
}

/// Leaves the jobs of a core that it has not received, in order.
fn leave_jobs(
    core: &mut Recorded<RingLinks>,
    outlet: &mut Outlet,
    left: &mut Vec<(u16, Job)>,
) -> Result<(), AllocError>
    requires { AreEnds outlet.old.port core.old.intake }
    ensures core { SameButTaken core.old core.new }
    ensures left { OnOk result (Leaves core.old.number (jobs_taken core.old.intake) (jobs_through outlet.old) left.old.items left.new.items) }
{
    let number = core.core().number();
    leave_put(number, core, &mut outlet.port, left)?;
    leave_held(number, &mut outlet.held, left)?;
    leave_later(number, &mut outlet.later, left)?;
    Ok(())
}

/// The jobs that no core has received, core after core, and each core's in order.
pub(crate) fn leave_all(
    alloc: Global,
    ran: &mut [Ran],
    outlets: &mut [Outlet],
) -> Result<Vec<(u16, Job)>, AllocError>
    requires { AreFedBy ran.old outlets.old }
    ensures { IfOk result (λ left. AllLeft ran.old ran.new outlets.old left.items) }
{
    let mut left = Vec::new(alloc);
    for (place, outlet) in outlets.iter_mut().enumerate() {
        leave_jobs(&mut ran[place].core, outlet, &mut left)?;
    }
    Ok(left)
}
