//! The end that puts jobs.

use crate::job::Job;
use rtrb::{Producer, PushError};
use thiserror::Error;

/// The end of a queue that puts jobs.
pub struct Port {
    pub(crate) producer: Producer<Job>,
}

// By hand, so that the proofs of its owners have one call and not a drop of each part.
impl Drop for Port {
    fn drop(self) {
        let Port { producer: _ } = self;
    }
}

/// The queue had no free place for the job, which is handed back.
#[derive(Debug, Drop, Error)]
#[error("the queue is full")]
pub struct Full(pub Job);

impl Port {
    ghost use Rattle.std.specs.Prelude.{◌≡◌, ◌<◌, ◌∷◌, [], ◌++◌, IsOk, OnOk, IfErr};
    ghost use Rattle.rx_queue.specs.Queue.{jobs_put, free_places, SamePort};

    /// Puts a job after those that were put before, or hands it back. It succeeds where a free
    /// place is known. Takes no memory.
    pub fn put(&mut self, job: Job) -> Result<(), Full>
        ensures queue { SamePort self.old self.new }
        ensures ok { OnOk result (jobs_put self.new ≡ jobs_put self.old ++ job ∷ []) }
        ensures full { IfErr result (λ e. (e.0 ≡ job) × (jobs_put self.new ≡ jobs_put self.old)) }
        ensures succeeds { 0 < free_places self.old → IsOk result }
    {
        match self.producer.push(job) {
            Ok(()) => Ok(()),
            Err(PushError::Full(job)) => Err(Full(job)),
        }
    }
}
