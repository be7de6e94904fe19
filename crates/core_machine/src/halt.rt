//! Why a turn halts its core.

use crate::recorded::RecordedTurn;
use core_loop::Turn;
use thiserror::Error;

/// Why a turn halted its core.
#[derive(Clone, Copy, PartialEq, Eq, Debug, Error)]
pub enum Halt {
    /// No number or stamp is left for what it would do next.
    #[error("the next number or stamp would be too great")]
    Spent,
    /// Memory was refused for what it would do next.
    #[error("out of memory")]
    NoMemory,
    /// Memory was refused for one event more in the list of what it did.
    #[error("out of memory for one event more")]
    NoRoom,
    /// It is stopped for good, which no core of a machine ever is.
    #[error("it is stopped for good")]
    Stopped,
}

ghost use Rattle.std.specs.Prelude.{◌≡◌};
ghost use Rattle.core_machine.specs.Rounds.{halt_of, recorded_halt_of};

/// Why an answer halts the core, if it does.
pub(crate) fn halt_of(answer: Turn) -> Option<Halt>
    ensures { result ≡ halt_of answer }
{
    match answer {
        Turn::Did { .. } | Turn::Idle => None,
        Turn::Spent => Some(Halt::Spent),
        Turn::NoMemory => Some(Halt::NoMemory),
        Turn::Stopped(_) => Some(Halt::Stopped),
    }
}

/// Why an answer of a core with a list halts it, if it does.
pub(crate) fn recorded_halt_of(answer: RecordedTurn) -> Option<Halt>
    ensures { result ≡ recorded_halt_of answer }
{
    match answer {
        RecordedTurn::Did | RecordedTurn::Idle => None,
        RecordedTurn::Spent => Some(Halt::Spent),
        RecordedTurn::NoMemory => Some(Halt::NoMemory),
        RecordedTurn::NoRoom => Some(Halt::NoRoom),
        RecordedTurn::Stopped(_) => Some(Halt::Stopped),
    }
}
