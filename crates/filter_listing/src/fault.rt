//! Why a text is no listing.

ghost use Rattle.std.specs.Prelude.{◌≡◌};

use std::alloc::{AllocError, AllocFailed};
use thiserror::Error;

#[derive(Clone, Copy, Debug, PartialEq, Eq, Error)]
pub enum ListingFaultKind {
    /// The line is not that of an instruction at its place.
    #[error("not the line of an instruction at its place")]
    BadLine,
    /// The program has more than `MAX_INSNS` instructions.
    #[error("the program has too many instructions")]
    TooLong,
    /// Memory ran out.
    #[error("out of memory")]
    NoMemory,
}

/// A fault, and the line that has it, from 1.
#[derive(Clone, Copy, Debug, PartialEq, Eq, Error)]
#[error("line {line}: {kind}")]
pub struct ListingFault {
    pub line: u64,
    pub kind: ListingFaultKind,
}

impl From<AllocError> for ListingFaultKind {
    ghost use Rattle.filter_listing.specs.declared.fault.ListingFaultKind.TheVariants.{NoMemory};

    ghost from_gives = { λ _ e. e ≡ NoMemory };

    fn from(_error: AllocError) -> ListingFaultKind {
        ListingFaultKind::NoMemory
    }
}

impl<T: Drop> From<AllocFailed<T>> for ListingFaultKind {
    ghost use Rattle.filter_listing.specs.declared.fault.ListingFaultKind.TheVariants.{NoMemory};

    ghost from_gives = { λ _ e. e ≡ NoMemory };

    fn from(_error: AllocFailed<T>) -> ListingFaultKind {
        ListingFaultKind::NoMemory
    }
}
