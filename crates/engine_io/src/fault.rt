//! How an engine fails.

ghost use Rattle.std.specs.Prelude.{◌≡◌};

use std::alloc::AllocError;
use std::fmt;
use thiserror::Error;

/// Why an engine ended early. What it had written by then stays written.
#[derive(Clone, Copy, Debug, PartialEq, Eq, Error)]
pub enum EngineFault {
    /// A read failed, or an input took more reads than its limit.
    #[error("the input can't be read")]
    ReadFailed,
    /// A write failed.
    #[error("the output can't be written")]
    WriteFailed,
    /// The allocator refused memory.
    #[error("out of memory")]
    NoMemory,
}

impl From<AllocError> for EngineFault {
    ghost use Rattle.engine_io.specs.declared.fault.EngineFault.TheVariants.{NoMemory};

    ghost from_gives = { λ _ e. e ≡ NoMemory };

    fn from(_error: AllocError) -> EngineFault {
        EngineFault::NoMemory
    }
}
