//! The line for an outcome.

ghost use Rattle.std.specs.Prelude.{◌≡◌, ◌++◌, OnOk, string_bytes};
ghost use Rattle.console.specs.Matching.{outcome_line};

use filter_vm::Outcome;
use itoa::Buffer;
use std::alloc::AllocError;

/// Prints an outcome.
pub fn push_outcome(text: &mut String, outcome: Outcome) -> Result<(), AllocError>
    ensures { OnOk result (string_bytes text.new ≡ string_bytes text.old ++ outcome_line outcome) }
{
    let mut digits = Buffer::new();
    text.push_str(digits.format(outcome.verdict))?;
    text.push_str(" ")?;
    text.push_str(digits.format(outcome.steps))?;
    text.push_str("\n")
}
