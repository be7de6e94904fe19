//! Why a capture ends early.

use crate::block::BlockError;
use std::alloc::{AllocError, AllocFailed};
use thiserror::Error;

/// Why a capture ends early.
#[derive(Clone, Copy, Debug, PartialEq, Eq, Error)]
pub enum CaptureFault {
    /// Something is wrong with a block, whose first byte has this place in the capture.
    #[error("the block at byte {1} is wrong: {0}")]
    BadBlock(BlockError, u64),
    /// The bytes end within a block, whose first byte has this place in the capture; or there are none.
    #[error("the capture ends within the block at byte {0}")]
    Truncated(u64),
    /// Memory was refused.
    #[error("out of memory")]
    NoMemory,
}

impl From<AllocError> for CaptureFault {
    ghost use Rattle.std.specs.Prelude.{◌≡◌};
    ghost use Rattle.pcapng_reader.specs.declared.fault.CaptureFault.TheVariants.{NoMemory};

    ghost from_gives = { λ _ f. f ≡ NoMemory };

    fn from(_error: AllocError) -> CaptureFault {
        CaptureFault::NoMemory
    }
}

impl<T: Drop> From<AllocFailed<T>> for CaptureFault {
    ghost use Rattle.std.specs.Prelude.{◌≡◌};
    ghost use Rattle.pcapng_reader.specs.declared.fault.CaptureFault.TheVariants.{NoMemory};

    ghost from_gives = { λ _ f. f ≡ NoMemory };

    fn from(_error: AllocFailed<T>) -> CaptureFault {
        CaptureFault::NoMemory
    }
}
