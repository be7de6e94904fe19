#![tactic(auto)]
//! The packet queue of a core: jobs go from the thread that puts them to the core's thread, in order.
//!
//! A queue has one end that puts, a `Port`, and one that takes, an `Intake`; each may move to a thread of
//! its own. Contracts show the list of the jobs put and that of the jobs taken. Where both ends are in one
//! thread again, `rest` tells that the second list begins the first, whatever the timing was.
ghost use Rattle.std.specs.Prelude.{◌≡◌, ◌<◌, ◌≤◌, [], IfOk};
ghost use Rattle.rx_queue.specs.Queue.{jobs_put, free_places, jobs_taken, jobs_seen, AreEnds};

mod intake;
mod job;
mod port;

pub use intake::Intake;
pub use job::Job;
pub use port::{Full, Port};
use rtrb::RingBuffer;
use std::alloc::{AllocError, Global};

/// A queue of `capacity` jobs, whose room is reserved here. The one error is that there is no memory.
pub fn queue(alloc: Global, capacity: usize) -> Result<(Port, Intake), AllocError>
    requires { 1 ≤ capacity }
    ensures ends { IfOk result (λ r. AreEnds r.0 r.1) }
    ensures port { IfOk result (λ r. (jobs_put r.0 ≡ []) × (free_places r.0 ≡ capacity)) }
    ensures intake { IfOk result (λ r. (jobs_taken r.1 ≡ []) × (jobs_seen r.1 ≡ [])) }
{
    let (producer, consumer) = RingBuffer::new(alloc, capacity)?;
    Ok((Port { producer }, Intake { consumer }))
}
