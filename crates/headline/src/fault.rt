//! Why a machine has not done what it was given.

ghost use Rattle.std.specs.Prelude.{◌≡◌};
ghost use Rattle.headline.specs.declared.fault.Fault.TheVariants as fault;

use core_threads::{Halt, RunFault};
use std::alloc::AllocError;
use thiserror::Error;
use world_core::WorldFault;

/// Why a machine has not done all that it was given. The machine is gone then.
#[derive(Clone, Copy, PartialEq, Eq, Debug, Drop, Error)]
pub enum Fault {
    /// A machine has 1 to 64 cores.
    #[error("a machine has 1 to 64 cores")]
    CoreCount,
    /// A core can't do its event, for this.
    #[error(transparent)]
    Refused(WorldFault),
    /// This core has no memory or no number for what it would do next, or it halted before a job that can be received was; and why.
    #[error("core {0} halted with work left: {1}")]
    Halted(u16, Halt),
    /// A thread could not be started.
    #[error("a thread could not be started")]
    Spawn,
    /// There was no memory.
    #[error("out of memory")]
    NoMemory,
}

impl From<AllocError> for Fault {
    ghost from_gives = { λ _ f. f ≡ fault.NoMemory };

    fn from(_: AllocError) -> Fault {
        Fault::NoMemory
    }
}

impl From<WorldFault> for Fault {
    ghost from_gives = { λ why f. f ≡ fault.Refused why };

    fn from(why: WorldFault) -> Fault {
        Fault::Refused(why)
    }
}

impl From<RunFault> for Fault {
    ghost use Rattle.std.specs.Prelude.{◌⊎◌};
    ghost use Rattle.core_threads.specs.declared.halt.RunFault.TheVariants as run_fault;

    ghost from_gives = { λ why f. ((why ≡ run_fault.Spawn) × (f ≡ fault.Spawn)) ⊎ ((why ≡ run_fault.NoMemory) × (f ≡ fault.NoMemory)) };

    fn from(why: RunFault) -> Fault {
        match why {
            RunFault::Spawn => Fault::Spawn,
            RunFault::NoMemory => Fault::NoMemory,
        }
    }
}
