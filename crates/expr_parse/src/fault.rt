//! Why a text is no expression.

ghost use Rattle.std.specs.Prelude.{◌≡◌, ◌⊎◌};

use expr_words::{Refusal, WordFault, WordFaultKind};
use std::alloc::{AllocError, AllocFailed};
use thiserror::Error;

#[derive(Clone, Copy, Debug, PartialEq, Eq, Error)]
pub enum ExprFaultKind {
    /// The text has no tokens.
    #[error("{0}")]
    Word(WordFaultKind),
    /// A word of pcap-filter(7) that is refused.
    #[error("a word that is refused")]
    Refused(Refusal),
    /// A sign that closes nothing, or that is never closed.
    #[error("a parenthesis without its other one")]
    Parenthesis,
    /// A word that can't stand here.
    #[error("a word that can't stand here")]
    Unexpected,
    /// The text ends, or a value is missing.
    #[error("something is missing here")]
    Ends,
    /// The qualifiers before a value don't fit it.
    #[error("a qualifier that doesn't fit")]
    Qualifier,
    /// No address of a host or of a net.
    #[error("no address")]
    Address,
    /// A name, where no name service is asked.
    #[error("a name is no address")]
    Name,
    /// A mask that doesn't fit its address, or where none may stand.
    #[error("a mask that doesn't fit")]
    Mask,
    /// No port, or no range of ports.
    #[error("no port")]
    Port,
    /// No protocol that is known by name.
    #[error("no protocol")]
    Protocol,
    /// A number that is too large here.
    #[error("a number that is too large")]
    Range,
    /// A load of neither 1, 2 nor 4 bytes.
    #[error("a load has 1, 2 or 4 bytes")]
    Size,
    /// An operator beside `%` or `^`, which have no rank.
    #[error("operators that can be read in two ways")]
    Rank,
    /// More than 200 levels.
    #[error("the expression is nested too deep")]
    TooDeep,
    #[error("out of memory")]
    NoMemory,
}

/// A fault, the column that has it, from 1, and the bytes that it is about.
#[derive(Clone, Copy, Debug, PartialEq, Eq, Error)]
#[error("column {column}: {kind}")]
pub struct ExprFault {
    pub kind: ExprFaultKind,
    pub column: usize,
    pub width: usize,
}

/// The fault of a text that has no tokens.
pub(crate) fn word_fault(fault: WordFault) -> ExprFault
    ensures memory { fault.kind ≡ WordFaultKind.NoMemory → (result.kind ≡ ExprFaultKind.NoMemory) × (result.column ≡ 1) }
    ensures column { (result.column ≡ 1) ⊎ (result.column ≡ fault.column) }
{
    match fault.kind {
        WordFaultKind::NoMemory => ExprFault {
            kind: ExprFaultKind::NoMemory,
            column: 1,
            width: 0,
        },
        kind => ExprFault {
            kind: ExprFaultKind::Word(kind),
            column: fault.column,
            width: fault.width,
        },
    }
}

/// Why nothing is read, and the token that shows it.
#[derive(Clone, Copy, Debug)]
pub(crate) struct Stop {
    pub kind: ExprFaultKind,
    pub place: usize,
}

impl From<AllocError> for Stop {
    ghost use Rattle.std.specs.Prelude.{◌≡◌};
    ghost use Rattle.expr_parse.specs.declared.fault.ExprFaultKind.TheVariants.{NoMemory};

    ghost from_gives = { λ _ e. e.kind ≡ NoMemory };

    fn from(_e: AllocError) -> Stop {
        Stop {
            kind: ExprFaultKind::NoMemory,
            place: 0,
        }
    }
}

impl<T: Drop> From<AllocFailed<T>> for Stop {
    ghost use Rattle.std.specs.Prelude.{◌≡◌};
    ghost use Rattle.expr_parse.specs.declared.fault.ExprFaultKind.TheVariants.{NoMemory};

    ghost from_gives = { λ _ e. e.kind ≡ NoMemory };

    fn from(_e: AllocFailed<T>) -> Stop {
        Stop {
            kind: ExprFaultKind::NoMemory,
            place: 0,
        }
    }
}
