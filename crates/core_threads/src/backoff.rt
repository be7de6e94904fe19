//! How a thread waits that finds nothing to do.

use std::thread;
use std::time::{Clock, Duration};

/// So many times in a row a thread yields before it sleeps.
const YIELDS: u64 = 256;

/// A sleep, in microseconds.
const SLEEP: u64 = 50;

/// Counts how often in a row a thread found nothing to do.
#[derive(Clone, Copy)]
pub(crate) struct Backoff {
    idle: u64,
}

impl Backoff {
    pub(crate) fn new() -> Backoff {
        Backoff { idle: 0 }
    }

    /// Something was done, so the next wait is short.
    pub(crate) fn reset(&mut self) {
        self.idle = 0;
    }

    /// Leaves the processor to other threads, which may be more than there are processors: by a yield, and where nothing comes for
    /// long by a short sleep, so that a thread with work doesn't share its processor with those that have none.
    pub(crate) fn wait(&mut self, clock: &impl Clock) {
        self.idle = self.idle.saturating_add(1);
        if self.idle <= YIELDS {
            thread::yield_now();
        } else {
            thread::sleep(clock, Duration::from_micros(SLEEP));
        }
    }

    /// How often in a row there was nothing to do.
    pub(crate) fn waits(&self) -> u64 {
        self.idle
    }
}
