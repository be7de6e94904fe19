//! Why a text has no tokens.

use std::alloc::AllocFailed;
use thiserror::Error;

#[derive(Clone, Copy, Debug, PartialEq, Eq, Error)]
pub enum WordFaultKind {
    /// No token begins with this byte.
    #[error("no word begins so")]
    Character,
    /// A number that begins with 0 is octal, and has an 8 or a 9.
    #[error("an octal number has no 8 or 9")]
    Octal,
    /// A number is above 4294967295.
    #[error("a number is above 4294967295")]
    Large,
    /// Numbers joined by dots are no IPv4 address.
    #[error("no IPv4 address")]
    Address,
    /// A token after `MAX_TOKENS` others.
    #[error("the expression has too many words")]
    TooLong,
    /// Memory ran out.
    #[error("out of memory")]
    NoMemory,
}

/// A fault, the column that has it, from 1, and the bytes that it is about.
#[derive(Clone, Copy, Debug, PartialEq, Eq, Error)]
#[error("column {column}: {kind}")]
pub struct WordFault {
    pub kind: WordFaultKind,
    pub column: usize,
    pub width: usize,
}

impl<T: Drop> From<AllocFailed<T>> for WordFault {
    ghost use Rattle.std.specs.Prelude.{◌≡◌};
    ghost use Rattle.expr_words.specs.declared.fault.WordFaultKind.TheVariants.{NoMemory};

    ghost from_gives = { λ _ e. e.kind ≡ NoMemory };

    fn from(_e: AllocFailed<T>) -> WordFault {
        WordFault {
            kind: WordFaultKind::NoMemory,
            column: 1,
            width: 0,
        }
    }
}
