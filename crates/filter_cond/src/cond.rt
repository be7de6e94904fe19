//! Conditions, as lists of parts.

ghost use Rattle.std.specs.Prelude.{◌≡◌, []};

use crate::check::{Check, Comparison};
use crate::number::Calculation;
use std::alloc::Global;

/// One part of a condition. Operands stand before what they are operands of.
#[derive(Clone, Copy, Debug, PartialEq, Eq)]
pub enum Part {
    /// True.
    Always,
    /// False.
    Never,
    /// A test of a number with a constant.
    Is(Check),
    /// A test of two numbers.
    Compare(Comparison),
    /// The one before, the other way round.
    Not,
    /// Both of the two before, the first one first.
    And,
    /// Either of the two before, the first one first.
    Or,
    /// Of the three before, the second where the first is true, and the third where it is false.
    If,
}

/// A condition on packets: its parts in postfix order, so that a condition of any depth is a plain list, and the calculations
/// that they name by index.
#[derive(Debug, Drop)]
pub struct Cond {
    /// Each may use the results of those before it.
    pub calculations: Vec<Calculation>,
    /// The condition is what the last of them makes of those before it.
    pub parts: Vec<Part>,
}

impl Cond {
    /// No part and no calculation.
    pub fn new(alloc: Global) -> Cond
        ensures calculations { result.calculations.items ≡ [] }
        ensures parts { result.parts.items ≡ [] }
    {
        Cond {
            calculations: Vec::new(alloc),
            parts: Vec::new(alloc),
        }
    }
}
