//! What comes after the last packet.

ghost use Rattle.std.specs.Prelude.{◌≡◌, ◌++◌, ℕ, List, IfErr, IfOk, IsErrOf, OnErr, OnOk, string_bytes, false};
ghost use Rattle.engine_io.specs.Devices.{StopsWriting, Writes};
ghost use Rattle.engine_io.specs.Reading.{BeginsWith, IsPrintFault};
ghost use Rattle.console.specs.Expressions.{explanation_of};
ghost use Rattle.console.specs.Matching.{ending_status, ending_stop, ending_text, line_ending};

use crate::CodeFault;
use crate::capture_fault::push_fault;
use crate::code_fault::{push_code_fault, push_explanation};
use crate::match_lines::push_bad_line;
use capture_reader::ReadFault;
use engine_io::{EngineFault, Sink, write_text};
use std::alloc::{AllocError, Global};
use std::io::Write;

/// What comes after the last packet that was run.
#[derive(Clone, Copy, Debug)]
pub enum Ending {
    /// The end of the input.
    Done,
    /// The line of this number, which is no packet.
    BadLine(u64),
    /// A packet for whose link type CODE has this fault.
    Refused(CodeFault),
    /// A fault of the capture.
    Fault(ReadFault),
}

impl Ending {
    /// What comes at the line of this number, which isn't run: for a fault of CODE, or since it is no packet.
    pub fn at_line(number: u64, stop: Option<CodeFault>) -> Ending
        ensures { result ≡ line_ending number stop }
    {
        match stop {
            None => Ending::BadLine(number),
            Some(fault) => Ending::Refused(fault),
        }
    }

    /// The status that goes with it.
    pub fn status(self) -> u8
        ensures { result ≡ ending_status self }
    {
        match self {
            Ending::Done => 0,
            Ending::BadLine(_) | Ending::Refused(_) | Ending::Fault(_) => 1,
        }
    }

    /// The fault of CODE that was met, if one was.
    pub fn stop(self) -> Option<CodeFault>
        ensures { result ≡ ending_stop self }
    {
        match self {
            Ending::Refused(fault) => Some(fault),
            Ending::Done | Ending::BadLine(_) | Ending::Fault(_) => None,
        }
    }

    /// Prints its line, if it has one.
    pub fn push(self, text: &mut String) -> Result<(), AllocError>
        ensures { OnOk result (string_bytes text.new ≡ string_bytes text.old ++ ending_text self) }
    {
        match self {
            Ending::Done => Ok(()),
            Ending::BadLine(number) => push_bad_line(text, number),
            Ending::Refused(fault) => push_code_fault(text, fault),
            Ending::Fault(fault) => push_fault(text, fault),
        }
    }
}

/// Appends what a fault of CODE means, if there is one.
pub fn push_stop(
    alloc: Global,
    complaint: &mut String,
    code: &[u8],
    stop: Option<CodeFault>,
) -> Result<(), AllocError>
    ensures { OnOk result (string_bytes complaint.new ≡ string_bytes complaint.old ++ explanation_of code.now stop) }
{
    match stop {
        None => Ok(()),
        Some(fault) => push_explanation(alloc, complaint, code, fault),
    }
}

/// Appends what a fault of CODE means to `complaint`, then writes what was kept back of a text, and the line after it if there is
/// one, and answers the status.
pub fn write_last<W: Write>(
    alloc: Global,
    code: &[u8],
    mut text: String,
    ending: Ending,
    writer: &mut Sink<W>,
    complaint: &mut String,
) -> Result<u8, EngineFault>
    requires { writer.old.failed ≡ false }
    ensures shown { IfOk result (λ status. (status ≡ ending_status ending)
        × Writes W.contents writer.old writer.new (string_bytes text ++ ending_text ending)) }
    ensures explained { OnOk result (string_bytes complaint.new ≡ string_bytes complaint.old ++ explanation_of code.now (ending_stop ending)) }
    ensures part { IsErrOf result EngineFault.NoMemory → writer.new ≡ writer.old }
    ensures front { OnErr result ((front : List ℕ) × BeginsWith front (string_bytes text ++ ending_text ending)
        × Writes W.contents writer.old writer.new front) }
    ensures fault { IfErr result IsPrintFault }
    ensures good { OnOk result (writer.new.failed ≡ false) }
    ensures cause { IfErr result (StopsWriting writer.new) }
{
    push_stop(alloc, complaint, code, ending.stop())?;
    ending.push(&mut text)?;
    write_text(writer, text.as_str())?;
    Ok(ending.status())
}
