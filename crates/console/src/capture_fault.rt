//! The end of what is shown of a capture: the line for its fault, and the status.

ghost use Rattle.std.specs.Prelude.{◌≡◌, ◌++◌, ℕ, List, IfOk, IfErr, IsErrOf, OnOk, OnErr, string_bytes, false};
ghost use Rattle.engine_io.specs.Devices.{StopsWriting, Writes};
ghost use Rattle.console.specs.Faults.{fault_line, fault_status, fault_text};
ghost use Rattle.engine_io.specs.Reading.{IsPrintFault};
ghost use Rattle.engine_io.specs.Reading.{BeginsWith};

use crate::fault_words::push_read_words;
use capture_reader::ReadFault;
use engine_io::{EngineFault, Sink, write_text};
use std::alloc::AllocError;
use std::io::Write;

/// Writes what was kept back of a text, and the line for the fault after it if there is one, and answers the status.
pub fn write_ending<W: Write>(
    mut text: String,
    fault: Option<ReadFault>,
    writer: &mut Sink<W>,
) -> Result<u8, EngineFault>
    requires { writer.old.failed ≡ false }
    ensures shown { IfOk result (λ status. (status ≡ fault_status fault)
        × Writes W.contents writer.old writer.new (string_bytes text ++ fault_text fault)) }
    ensures part { IsErrOf result EngineFault.NoMemory → writer.new ≡ writer.old }
    ensures front { OnErr result ((front : List ℕ) × BeginsWith front (string_bytes text ++ fault_text fault)
        × Writes W.contents writer.old writer.new front) }
    ensures fault { IfErr result IsPrintFault }
    ensures good { OnOk result (writer.new.failed ≡ false) }
    ensures cause { IfErr result (StopsWriting writer.new) }
{
    let status = push_ending(&mut text, fault)?;
    write_text(writer, text.as_str())?;
    Ok(status)
}

/// Prints the line for a fault if there is one, and answers the status.
fn push_ending(text: &mut String, fault: Option<ReadFault>) -> Result<u8, AllocError>
    ensures status { IfOk result (λ status. status ≡ fault_status fault) }
    ensures printed { OnOk result (string_bytes text.new ≡ string_bytes text.old ++ fault_text fault) }
{
    match fault {
        None => Ok(0),
        Some(fault) => {
            push_fault(text, fault)?;
            Ok(1)
        }
    }
}

/// Prints the line for a fault.
pub fn push_fault(text: &mut String, fault: ReadFault) -> Result<(), AllocError>
    ensures { OnOk result (string_bytes text.new ≡ string_bytes text.old ++ fault_line fault) }
{
    text.push_str("fault ")?;
    push_read_words(text, fault)?;
    text.push_str("\n")
}
