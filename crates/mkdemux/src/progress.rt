//! How far a run is.

use core_threads::{Notes, Watcher};
use std::sync::atomic::{AtomicU64, Ordering};
use std::time::Instant;

/// How many packets a core receives between two looks at the clock.
const STRIDE: u64 = 1_024;

/// Lets every packet through, counts those that were received, and says on standard error once a second how many they are.
#[derive(Drop)]
pub struct Progress<'a> {
    rt: &'a HostRuntime,
    start: Option<Instant>,
    received: AtomicU64,
    /// How many whole seconds were told of.
    told: AtomicU64,
}

impl<'a> Progress<'a> {
    /// A run that begins now.
    pub fn new(rt: &'a HostRuntime) -> Progress<'a> {
        Progress {
            rt,
            start: Instant::now(rt).ok(),
            received: AtomicU64::new(0),
            told: AtomicU64::new(0),
        }
    }

    /// Ends the line, where there is one.
    pub fn end(&self) {
        if self.told.load(Ordering::Relaxed) > 0 {
            let _ = eprintln!(self.rt; "");
        }
    }

    /// Says how many packets were received, where a second more has gone by.
    fn tell(&self, received: u64) {
        let Some(start) = self.start else {
            return;
        };
        let Ok(elapsed) = start.elapsed(self.rt) else {
            return;
        };
        let seconds = elapsed.as_secs();
        if seconds > self.told.fetch_max(seconds, Ordering::Relaxed) {
            let _ = eprint!(self.rt; "\rmkdemux: {received} packets");
        }
    }
}

impl Watcher for Progress<'_> {
    fn may(&self, notes: &mut Notes, core: u16, number: u64) -> bool {
        notes.ask(core, number, true);
        true
    }

    fn did(&self, notes: &mut Notes, core: u16, number: u64) {
        notes.tell(core, number);
        let before = self.received.fetch_add(1, Ordering::Relaxed);
        if before % STRIDE == STRIDE - 1 {
            self.tell(before.wrapping_add(1));
        }
    }
}
