//! Why an expression has no program.

ghost use Rattle.std.specs.Prelude.{◌≡◌, ◌≢◌};
ghost use Rattle.filter_expr.specs.Messages as spec;
ghost use Rattle.filter_expr.specs.Selects.{IsOfMeaning};

use expr_lower::LowerFault;
use expr_parse::{ExprFault, ExprFaultKind};
use thiserror::Error;

#[derive(Clone, Copy, Debug, PartialEq, Eq, Error)]
pub enum CompileFault {
    /// The text is no expression.
    #[error("{0}")]
    Text(ExprFault),
    /// The layer that the test at this column is about doesn't say what it asks.
    #[error("column {column}: the layer has none of this")]
    Layer { column: usize },
    /// The test at this column stands behind a tag, but also counts where the tag is missing.
    #[error("column {column}: the tag before this may be missing")]
    Moved { column: usize },
    /// The division at this column is by 0: it never has a value.
    #[error("column {column}: a division by 0")]
    Zero { column: usize },
    /// The shift at this column is by more than 31 bits: it leaves nothing of 32.
    #[error("column {column}: a shift by more than 31 bits")]
    Shift { column: usize },
    /// The comparison at this column is of numbers that are calculated, which is not supported yet.
    #[error("column {column}: the calculation is too hard")]
    TooHard { column: usize },
    /// The program would have more than 4,096 instructions.
    #[error("the program has too many instructions")]
    TooLong,
    /// Memory ran out.
    #[error("out of memory")]
    NoMemory,
}

impl CompileFault {
    /// Its column, from 1, and how many bytes it is about; none, where it is of the whole program.
    pub fn place(self) -> Option<(usize, usize)>
        ensures { result ≡ spec.place self }
    {
        match self {
            CompileFault::Text(fault) => Some((fault.column, fault.width)),
            CompileFault::Layer { column } => Some((column, 1)),
            CompileFault::Moved { column } => Some((column, 1)),
            CompileFault::Zero { column } => Some((column, 1)),
            CompileFault::Shift { column } => Some((column, 1)),
            CompileFault::TooHard { column } => Some((column, 1)),
            CompileFault::TooLong => None,
            CompileFault::NoMemory => None,
        }
    }
}

/// The fault of a text.
pub(crate) fn of_text(fault: ExprFault) -> CompileFault
    ensures memory { fault.kind ≡ ExprFaultKind.NoMemory → result ≡ CompileFault.NoMemory }
    ensures text { fault.kind ≢ ExprFaultKind.NoMemory → result ≡ CompileFault.Text fault }
{
    match fault.kind {
        ExprFaultKind::NoMemory => CompileFault::NoMemory,
        _ => CompileFault::Text(fault),
    }
}

impl From<LowerFault> for CompileFault {
    ghost from_gives = { λ _ e. IsOfMeaning e };

    fn from(fault: LowerFault) -> CompileFault {
        match fault {
            LowerFault::Layer { column } => CompileFault::Layer { column },
            LowerFault::Moved { column } => CompileFault::Moved { column },
            LowerFault::Zero { column } => CompileFault::Zero { column },
            LowerFault::Shift { column } => CompileFault::Shift { column },
            LowerFault::TooHard { column } => CompileFault::TooHard { column },
            LowerFault::NoMemory => CompileFault::NoMemory,
        }
    }
}
