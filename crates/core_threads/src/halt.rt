//! Why a core, or a whole run, ends before its work is done.

ghost use Rattle.std.specs.Prelude.{◌≡◌};
ghost use Rattle.core_threads.specs.declared.halt.RunFault.TheVariants as run_fault;

use core_loop::Cause;
use std::alloc::AllocError;
use thiserror::Error;

/// Why a core halted.
#[derive(Clone, Copy, PartialEq, Eq, Debug, Error)]
pub enum Halt {
    /// The core is stopped for good, which no core of a machine ever is.
    #[error("it is stopped for good")]
    Cause(Cause),
    /// The next number or stamp would be too great.
    #[error("the next number or stamp would be too great")]
    Spent,
    /// Memory was refused in a turn.
    #[error("out of memory")]
    NoMemory,
    /// Memory was refused for one event more in the list of what the core did.
    #[error("out of memory for one event more")]
    NoRoom,
    /// As many turns in a row as the limit says did nothing.
    #[error("it did nothing for too long")]
    Limit,
    /// No core halted, but there is work left: a request that was not begun or not answered, or a job that may be received.
    #[error("there is work left")]
    Early,
}

/// Why there is no end of a run: its machine and its jobs are gone.
#[derive(Clone, Copy, PartialEq, Eq, Debug, Error)]
pub enum RunFault {
    /// A thread could not be started. Those that were started are joined.
    #[error("a thread could not be started")]
    Spawn,
    /// There was no memory.
    #[error("out of memory")]
    NoMemory,
}

impl From<AllocError> for RunFault {
    ghost from_gives = { λ _ fault. fault ≡ run_fault.NoMemory };

    fn from(_: AllocError) -> RunFault {
        RunFault::NoMemory
    }
}
