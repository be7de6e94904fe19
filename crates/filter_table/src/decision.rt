//! What the cores say of a request.

use crate::operation::{Made, OpFault};

/// What another core answers to the question whether it can make a change.
#[derive(Clone, Copy, PartialEq, Eq, Debug, Drop)]
pub enum Vote {
    /// It has the change ready.
    Yes,
    /// The instructions of its filters would exceed its budget.
    Budget,
    /// It has no memory for the change.
    NoMemory,
}

/// Why a request is refused.
#[derive(Clone, Copy, PartialEq, Eq, Debug, Drop)]
pub enum Veto {
    /// It breaks a rule, which every core says of it.
    Rule(OpFault),
    /// The instructions of the core's filters would exceed its budget.
    Budget,
    /// The core has no memory for it.
    NoMemory,
}

/// What becomes of a request.
#[derive(Clone, Copy, PartialEq, Eq, Debug, Drop)]
pub enum Decision {
    /// Every core makes the change, and has then this version; the request made this.
    Committed { version: u64, made: Made },
    /// No core makes the change, since this core can't.
    Refused { core: u16, why: Veto },
}
