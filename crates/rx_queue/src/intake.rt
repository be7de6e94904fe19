//! The end that takes jobs.

use crate::job::Job;
use crate::port::Port;
use rtrb::Consumer;

/// The end of a queue that takes jobs.
pub struct Intake {
    pub(crate) consumer: Consumer<Job>,
}

// By hand, so that the proofs of its owners have one call and not a drop of each part.
impl Drop for Intake {
    fn drop(self) {
        let Intake { consumer: _ } = self;
    }
}

impl Intake {
    ghost use Rattle.std.specs.Prelude.{◌≡◌, ◌<◌, ◌∷◌, [], ◌++◌, length, IsSome, IfSome, IfNone, MatchOption};
    ghost use mathlib.Core.List.{IsPrefix};
    ghost use Rattle.std.specs.Borrow.{sem};
    ghost use Rattle.rx_queue.specs.Queue.{jobs_put, jobs_taken, jobs_seen, AreEnds, SamePort, SameIntake};
    ghost use Rattle.rx_queue.specs.Lending.{LendsFront};

    /// The next job, which stays in the queue. Takes no memory.
    pub fn front(&mut self) -> Option<&Job>
        ensures* front { sem 𝓛 (LendsFront self.entry result) }
    {
        self.consumer.peek().ok()
    }

    /// Looks whether a job is there, which `seen` then shows. These two are `front` in two steps, for a
    /// type that holds the intake and lends the job out of itself. Takes no memory.
    pub fn look(&mut self)
        ensures queue { SameIntake self.old self.new }
        ensures taken { jobs_taken self.new ≡ jobs_taken self.old }
        ensures seen { IsPrefix (jobs_seen self.old) (jobs_seen self.new) }
    {
        let _ = self.consumer.is_empty();
    }

    /// The first job that was seen and not taken, which stays in the queue. Takes no memory.
    pub fn seen(&self) -> Option<&Job>
        ensures { MatchOption result (jobs_seen self.now ≡ []) (λ job. IsPrefix (job.now ∷ []) (jobs_seen self.now)) }
    {
        if self.consumer.cached_slots() == 0 {
            return None;
        }
        Some(self.consumer.peek_known())
    }

    /// Takes the next job. It succeeds where `front` has shown one. Takes no memory.
    pub fn next(&mut self) -> Option<Job>
        ensures queue { SameIntake self.old self.new }
        ensures some { IfSome result (λ job. (jobs_taken self.new ≡ jobs_taken self.old ++ job ∷ []) × IsPrefix (jobs_seen self.old) (job ∷ jobs_seen self.new)) }
        ensures none { IfNone result ((jobs_taken self.new ≡ jobs_taken self.old) × (jobs_seen self.new ≡ [])) }
        ensures succeeds { 0 < length (jobs_seen self.old) → IsSome result }
    {
        self.consumer.pop().ok()
    }

    /// Takes the next job in a thread that has both ends. It is `None` exactly where all jobs that were
    /// put were taken. Takes no memory.
    pub fn rest(&mut self, port: &mut Port) -> Option<Job>
        requires { AreEnds port.old self.old }
        ensures queue { SameIntake self.old self.new × SamePort port.old port.new }
        ensures put { jobs_put port.new ≡ jobs_put port.old }
        ensures some { IfSome result (λ job. (jobs_taken self.new ≡ jobs_taken self.old ++ job ∷ []) × IsPrefix (jobs_taken self.new) (jobs_put port.new)) }
        ensures none { IfNone result ((jobs_taken self.new ≡ jobs_taken self.old) × (jobs_taken self.new ≡ jobs_put port.new)) }
    {
        if self.consumer.slots_beside(&mut port.producer) == 0 {
            return None;
        }
        Some(self.consumer.pop_known())
    }
}
