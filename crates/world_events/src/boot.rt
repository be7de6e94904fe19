//! Why a machine does not begin.

ghost use Rattle.std.specs.Prelude.{◌≡◌};
ghost use Rattle.world_events.specs.declared.boot.BootFault.TheVariants as boot_fault;

use std::alloc::AllocError;
use thiserror::Error;

/// Why there is no machine.
#[derive(Clone, Copy, PartialEq, Eq, Debug, Drop, Error)]
pub enum BootFault {
    /// A machine has 1 to 8 cores, or 1 to 64 where it is given its limits.
    #[error("a machine has 1 to 8 cores, or 1 to 64 where it is given its limits")]
    CoreCount,
    /// There was no memory.
    #[error("out of memory")]
    NoMemory,
}

impl From<AllocError> for BootFault {
    ghost from_gives = { λ _ fault. fault ≡ boot_fault.NoMemory };

    fn from(_: AllocError) -> BootFault {
        BootFault::NoMemory
    }
}
