//! What is printed in place of what a script does.

ghost use Rattle.std.specs.Prelude.{◌≡◌, ◌≢◌, IfOk, IfErr, IsErrOf, OnOk, false};
ghost use Rattle.engine_io.specs.Devices.{StopsWriting, Writes};
ghost use Rattle.engine_io.specs.Reading.{IsPrintFault};
ghost use Rattle.script_input.specs.Faults.{script_fault_line};

use crate::faults::fault_line;
use engine_io::{EngineFault, Sink, write_bytes};
use mk_script::{ScriptFault, ScriptFaultKind};
use std::alloc::Global;
use std::io::Write;

/// Prints the line for a script's fault, and answers the status. A script that was refused memory is no refused input:
/// `NoMemory`, with nothing written.
pub fn refuse<W: Write>(
    alloc: Global,
    fault: ScriptFault,
    writer: &mut Sink<W>,
) -> Result<u8, EngineFault>
    requires { writer.old.failed ≡ false }
    ensures shown { IfOk result (λ status. (status ≡ 1) × (fault.kind ≢ ScriptFaultKind.NoMemory) × Writes W.contents writer.old writer.new (script_fault_line fault)) }
    ensures fault { IfErr result IsPrintFault }
    ensures good { OnOk result (writer.new.failed ≡ false) }
    ensures cause { IfErr result (StopsWriting writer.new) }
    ensures silent { IsErrOf result EngineFault.NoMemory → writer.new ≡ writer.old }
{
    if let ScriptFaultKind::NoMemory = fault.kind {
        return Err(EngineFault::NoMemory);
    }
    let line = fault_line(alloc, fault)?;
    write_bytes(writer, line.as_bytes())?;
    Ok(1)
}
