//! Why a text is no script.

ghost use Rattle.std.specs.Prelude.{◌≡◌};
ghost use Rattle.mk_script.specs.declared.fault.ScriptFaultKind.TheVariants.{NoMemory};

use bpf_insn::TextFault;
use capture_reader::ReadFault;
use filter_asm::AsmFault;
use std::alloc::{AllocError, AllocFailed};
use thiserror::Error;

/// Why a body can't be read.
#[derive(Clone, Copy, Debug, PartialEq, Eq, Error)]
pub enum BodyFault {
    /// The bytes of a packet aren't pairs of hexadecimal digits.
    #[error("the bytes of a packet are not pairs of hexadecimal digits")]
    Hex,
    /// The lines of an `asm` block are no program. The fault's line is counted from the block's first.
    #[error(transparent)]
    Asm(AsmFault),
    /// A decimal text spells no program.
    #[error(transparent)]
    Ddd(TextFault),
    /// A file is no whole capture.
    #[error(transparent)]
    Capture(ReadFault),
}

/// What is wrong with a line, in the order in which it is looked for.
#[derive(Clone, Copy, Debug, PartialEq, Eq, Error)]
pub enum ScriptFaultKind {
    /// The word is unknown, the number of words is wrong, a name or rights are spelled wrong, an `asm` block has no `end`,
    /// or `trace` stands after something that only a simulation does.
    #[error("the line has a wrong word, or a wrong number of words")]
    BadLine,
    /// The line stands before `cores`.
    #[error("the line stands before `cores`")]
    NoCores,
    /// A word is no number in its range.
    #[error("a number is not in its range, or no number")]
    BadNumber,
    /// `cores` or `limits` stands a second time, or a name is taken.
    #[error("`cores` or `limits` stands a second time, or a name is taken")]
    Twice,
    /// `limits` stands after `cores`.
    #[error("the line stands after `cores`")]
    AfterCores,
    /// There is no such name, packet, file or job.
    #[error("there is no such name, packet, file or job")]
    NoName,
    /// A body can't be read.
    #[error("{0}")]
    BadBody(BodyFault),
    /// Memory ran out. This says nothing of the text.
    #[error("out of memory")]
    NoMemory,
}

/// A fault, and the line that has it.
#[derive(Clone, Copy, Debug, PartialEq, Eq, Error)]
#[error("line {line}: {kind}")]
pub struct ScriptFault {
    /// The line, from 1.
    pub line: u32,
    /// What is wrong with it.
    pub kind: ScriptFaultKind,
}

impl From<AllocError> for ScriptFaultKind {
    ghost from_gives = { λ _ e. e ≡ NoMemory };

    fn from(_error: AllocError) -> ScriptFaultKind {
        ScriptFaultKind::NoMemory
    }
}

impl<T: Drop> From<AllocFailed<T>> for ScriptFaultKind {
    ghost from_gives = { λ _ e. e ≡ NoMemory };

    fn from(_error: AllocFailed<T>) -> ScriptFaultKind {
        ScriptFaultKind::NoMemory
    }
}
