//! Why a condition has no program.

ghost use Rattle.std.specs.Prelude.{◌≡◌};
ghost use Rattle.filter_codegen.specs.declared.fault.CompileFault.TheVariants.{NoMemory};

use std::alloc::{AllocError, AllocFailed};
use thiserror::Error;

#[derive(Clone, Copy, Debug, PartialEq, Eq, Error)]
pub enum CompileFault {
    /// The program would have more than `MAX_INSNS` instructions.
    #[error("the program has too many instructions")]
    TooLong,
    /// A test of two numbers, or of one that is calculated, is not supported yet.
    #[error("the calculation is too hard")]
    TooHard,
    /// Memory ran out.
    #[error("out of memory")]
    NoMemory,
}

impl From<AllocError> for CompileFault {
    ghost from_gives = { λ _ e. e ≡ NoMemory };

    fn from(_e: AllocError) -> CompileFault {
        CompileFault::NoMemory
    }
}

impl<T: Drop> From<AllocFailed<T>> for CompileFault {
    ghost from_gives = { λ _ e. e ≡ NoMemory };

    fn from(_e: AllocFailed<T>) -> CompileFault {
        CompileFault::NoMemory
    }
}
