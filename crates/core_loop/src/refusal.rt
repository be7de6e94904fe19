//! Why an event is not done now.

ghost use Rattle.std.specs.Prelude.{◌≡◌, ◌+◌, ◌≤◌, max, IfSome, IfNone};

use crate::cause::Cause;

/// Why an event is not done now. Nothing has changed.
#[derive(Clone, Copy, PartialEq, Eq, Debug)]
pub(crate) enum Refusal {
    /// A link that it needs takes no message.
    NotReady,
    /// The number or the stamp would be too great.
    Spent,
    /// Memory was refused.
    NoMemory,
    /// The message fits no phase of the protocol.
    Stranger,
}

/// Why a turn ends without an event.
#[derive(Clone, Copy, PartialEq, Eq, Debug)]
pub(crate) enum Halt {
    Spent,
    NoMemory,
    Stopped(Cause),
}

/// The stamp of the event that comes next at this clock and takes a message of this stamp (0 for none).
pub(crate) fn next_stamp(clock: u64, taken: u64) -> Option<u64>
    ensures some { IfSome result (λ stamp. stamp ≡ max clock taken + 1) }
    ensures none { IfNone result (18446744073709551615 ≤ max clock taken) }
{
    let latest = if clock < taken { taken } else { clock };
    if latest == u64::MAX {
        return None;
    }
    Some(latest + 1)
}
