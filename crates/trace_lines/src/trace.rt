//! A text of lines.

ghost use Rattle.std.specs.Prelude.{◌≡◌, ◌<◌, ◌^◌, ◌==◌, ℕ, map, length, Ok, Err, IfOk, IfErr, MatchResult};
ghost use Rattle.std.specs.List.{slice_split};
ghost use Rattle.trace_lines.specs.Traces.{outcome, said_in, trace_of};
ghost use Rattle.trace_lines.specs.Views.{shown};
ghost use Rattle.line_words.specs.Words.{texts};
ghost use Rattle.trace_lines.specs.declared.trace.TraceFault.TheVariants.{NoMemory, BadLine};

use crate::lines::{Line, Read, read_line};
use std::alloc::{AllocError, AllocFailed, Global};
use thiserror::Error;

/// Why a text is no trace.
#[derive(Clone, Copy, Debug, PartialEq, Eq, Error)]
pub enum TraceFault {
    /// The first line, from 1, that isn't one of a trace.
    #[error("line {0} is not one of a trace")]
    BadLine(usize),
    /// Memory ran out. This says nothing of the text.
    #[error("out of memory")]
    NoMemory,
}

impl From<AllocError> for TraceFault {
    ghost from_gives = { λ _ e. e ≡ NoMemory };

    fn from(_error: AllocError) -> TraceFault {
        TraceFault::NoMemory
    }
}

impl<T: Drop> From<AllocFailed<T>> for TraceFault {
    ghost from_gives = { λ _ e. e ≡ NoMemory };

    fn from(_error: AllocFailed<T>) -> TraceFault {
        TraceFault::NoMemory
    }
}

/// The lines of a text.
fn lines(alloc: Global, text: &[u8]) -> Result<Vec<&[u8]>, AllocError>
    ensures { IfOk result (λ lines. texts lines.items ≡ slice_split (λ b. b == 10) text.now) }
{
    text.split(|b| *b == b'\n').collect(alloc)
}

/// Reads lines up to the first that is bad.
fn read_lines<'a>(alloc: Global, lines: &[&'a [u8]]) -> Result<Vec<Line<'a>>, TraceFault>
    ensures ok { IfOk result (λ found. outcome (said_in (texts lines.now)) ≡ Ok (map shown found.items)) }
    ensures bad { (number : ℕ) → result ≡ Err (BadLine number) → outcome (said_in (texts lines.now)) ≡ Err number }
{
    let mut found = Vec::new(alloc);
    let mut number = 0usize;
    for line in lines {
        number += 1;
        match read_line(alloc, line)? {
            Read::Skipped => {}
            Read::Bad => return Err(TraceFault::BadLine(number)),
            Read::Done(line) => found.push(line)?,
        }
    }
    Ok(found)
}

/// The events of a trace, in the order of its lines.
pub fn read_trace(alloc: Global, text: &[u8]) -> Result<Vec<Line<'_>>, TraceFault>
    ensures ok { IfOk result (λ found. trace_of text.now ≡ Ok (map shown found.items)) }
    ensures bad { (number : ℕ) → result ≡ Err (BadLine number) → trace_of text.now ≡ Err number }
{
    let lines = lines(alloc, text)?;
    read_lines(alloc, &lines)
}
