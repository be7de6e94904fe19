//! Why a text is no program.

ghost use Rattle.std.specs.Prelude.{◌≡◌};
ghost use Rattle.filter_asm.specs.declared.fault.AsmFaultKind.TheVariants.{NoMemory};

use std::alloc::{AllocError, AllocFailed};
use thiserror::Error;

#[derive(Clone, Copy, Debug, PartialEq, Eq, Error)]
pub enum AsmFaultKind {
    /// No known mnemonic stands where one should.
    #[error("no known mnemonic")]
    Mnemonic,
    /// The operands fit no shape of their mnemonic.
    #[error("the operands do not fit the mnemonic")]
    Operand,
    /// A number is not in range, or no number at all.
    #[error("a number is not in range, or no number")]
    Number,
    /// A jump names a label that the text doesn't define.
    #[error("no such label")]
    NoLabel,
    /// A label is defined a second time.
    #[error("a label is defined a second time")]
    TwiceLabel,
    /// A jump doesn't go forward.
    #[error("a jump does not go forward")]
    Backward,
    /// A conditional jump passes over more than 255 instructions.
    #[error("a conditional jump passes over more than 255 instructions")]
    TooFar,
    /// The program has more than `MAX_INSNS` instructions.
    #[error("the program has too many instructions")]
    TooLong,
    /// Memory ran out.
    #[error("out of memory")]
    NoMemory,
}

/// A fault, and the line that has it, from 1.
#[derive(Clone, Copy, Debug, PartialEq, Eq, Error)]
#[error("line {line}: {kind}")]
pub struct AsmFault {
    pub line: u32,
    pub kind: AsmFaultKind,
}

impl From<AllocError> for AsmFaultKind {
    ghost from_gives = { λ _ e. e ≡ NoMemory };

    fn from(_e: AllocError) -> AsmFaultKind {
        AsmFaultKind::NoMemory
    }
}

impl<T: Drop> From<AllocFailed<T>> for AsmFaultKind {
    ghost from_gives = { λ _ e. e ≡ NoMemory };

    fn from(_e: AllocFailed<T>) -> AsmFaultKind {
        AsmFaultKind::NoMemory
    }
}
