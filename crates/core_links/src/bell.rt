//! What a core hears of its peers before it looks at any link.

use crossbeam_utils::CachePadded;
use std::alloc::{AllocError, Global};
use std::sync::Arc;
use std::sync::atomic::{AtomicU64, Ordering};

/// A core's bell, which its peers ring: a count, on a cache line of its own, that each of its owners sees. A peer rings once its lines
/// lie in the ring, and a core reads the count before it looks for lines. So where the count is the one that was read before a look
/// that found nothing, nothing has come since. A core that ends closes its bell, once, after its last line went out. (As with the rings
/// themselves, that one thread sees what another wrote is trusted: no contract speaks of the count.)
pub struct Bell {
    /// Twice the number of times that it was rung, and 1 more once it is closed.
    rung: Arc<CachePadded<AtomicU64>, Global>,
}

// By hand, so that the proofs of its owners have one call and not a drop of each part.
impl Drop for Bell {
    fn drop(self) {
        let Bell { rung: _ } = self;
    }
}

impl Bell {
    /// A bell that was never rung.
    pub fn new(alloc: Global) -> Result<Bell, AllocError> {
        let rung = Arc::new(alloc, CachePadded::new(AtomicU64::new(0)))?;
        Ok(Bell { rung })
    }

    /// One more owner. Takes no memory.
    pub fn share(&self) -> Result<Bell, AllocError> {
        let rung = Arc::try_clone(&self.rung)?;
        Ok(Bell { rung })
    }

    /// Rings.
    pub(crate) fn ring(&self) {
        self.rung.fetch_add(2, Ordering::SeqCst);
    }

    /// A number that each ring changes, and that goes on from 0 after its greatest one.
    pub(crate) fn count(&self) -> u64 {
        self.rung.load(Ordering::SeqCst)
    }

    /// Closes it. Its core does so once, when it ends.
    pub(crate) fn close(&self) {
        self.rung.fetch_add(1, Ordering::SeqCst);
    }

    /// Whether it was closed.
    pub(crate) fn is_closed(&self) -> bool {
        self.rung.load(Ordering::SeqCst) % 2 == 1
    }
}
