//! Why an expression has no condition.

ghost use Rattle.std.specs.Prelude.{◌≡◌};
ghost use Rattle.expr_lower.specs.declared.fault.LowerFault.TheVariants.{NoMemory};

use std::alloc::{AllocError, AllocFailed};
use thiserror::Error;

#[derive(Clone, Copy, Debug, PartialEq, Eq, Error)]
pub enum LowerFault {
    /// The layer doesn't say what the test at this column asks.
    #[error("the layer has none of this")]
    Layer { column: usize },
    /// The test at this column stands behind a tag, but also counts where the tag is missing.
    #[error("the tag before this may be missing")]
    Moved { column: usize },
    /// The division at this column is by 0: it never has a value.
    #[error("a division by 0")]
    Zero { column: usize },
    /// The shift at this column is by more than 31 bits: it leaves nothing of 32.
    #[error("a shift by more than 31 bits")]
    Shift { column: usize },
    /// The comparison at this column is of numbers that are calculated, which is not supported yet.
    #[error("the calculation is too hard")]
    TooHard { column: usize },
    /// Memory ran out.
    #[error("out of memory")]
    NoMemory,
}

impl From<AllocError> for LowerFault {
    ghost from_gives = { λ _ e. e ≡ NoMemory };

    fn from(_e: AllocError) -> LowerFault {
        LowerFault::NoMemory
    }
}

impl<T: Drop> From<AllocFailed<T>> for LowerFault {
    ghost from_gives = { λ _ e. e ≡ NoMemory };

    fn from(_e: AllocFailed<T>) -> LowerFault {
        LowerFault::NoMemory
    }
}
