//! The flags that end the threads of a run. No contract rests on a flag's value.

use crossbeam_utils::CachePadded;
use std::alloc::{AllocError, Global};
use std::sync::atomic::{AtomicBool, Ordering};

/// A flag alone on its cache line.
type Flag = CachePadded<AtomicBool>;

/// The flags of one run. Each is set once at most.
#[derive(Drop)]
pub(crate) struct Flags {
    settled: Flag,
    fed: Flag,
    halt: Flag,
    ended: Vec<Flag>,
}

fn flag() -> Flag {
    CachePadded::new(AtomicBool::new(false))
}

impl Flags {
    /// The flags of a run of this many cores, none of them set.
    pub(crate) fn new(alloc: Global, cores: usize) -> Result<Flags, AllocError> {
        let mut ended = Vec::with_capacity(alloc, cores)?;
        for _ in 0..cores {
            ended.push(flag())?;
        }
        Ok(Flags {
            settled: flag(),
            fed: flag(),
            halt: flag(),
            ended,
        })
    }

    /// Every request is decided, and core 0 has nothing under way.
    pub(crate) fn settle(&self) {
        self.settled.store(true, Ordering::SeqCst);
    }

    pub(crate) fn is_settled(&self) -> bool {
        self.settled.load(Ordering::SeqCst)
    }

    /// Every job is put, or given up because its core has ended.
    pub(crate) fn feed(&self) {
        self.fed.store(true, Ordering::SeqCst);
    }

    pub(crate) fn is_fed(&self) -> bool {
        self.fed.load(Ordering::SeqCst)
    }

    /// A core halted, or a thread could not be started.
    pub(crate) fn halt(&self) {
        self.halt.store(true, Ordering::SeqCst);
    }

    pub(crate) fn is_halted(&self) -> bool {
        self.halt.load(Ordering::SeqCst)
    }

    /// A core ended, so no job is to be put for it.
    pub(crate) fn end(&self, core: u16) {
        if let Some(flag) = self.ended.get(usize::from(core)) {
            flag.store(true, Ordering::SeqCst);
        }
    }

    pub(crate) fn has_ended(&self, core: usize) -> bool {
        match self.ended.get(core) {
            Some(flag) => flag.load(Ordering::SeqCst),
            None => true,
        }
    }
}
