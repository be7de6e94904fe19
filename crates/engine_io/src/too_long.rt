//! What is shown of an input that is too long.

ghost use Rattle.std.specs.Prelude.{◌≡◌, IfOk, IfErr, OnOk, false};
ghost use Rattle.engine_io.specs.Devices.{StopsWriting, Writes};
ghost use Rattle.engine_io.specs.Reading.{too_long_line};

use crate::output::write_text;
use crate::{EngineFault, Sink};
use std::io::Write;

/// Prints that an input is too long, and answers the status.
pub fn refuse_long<W: Write>(writer: &mut Sink<W>) -> Result<u8, EngineFault>
    requires { writer.old.failed ≡ false }
    ensures shown { IfOk result (λ status. (status ≡ 1) × Writes W.contents writer.old writer.new too_long_line) }
    ensures fault { IfErr result (λ e. e ≡ EngineFault.WriteFailed) }
    ensures good { OnOk result (writer.new.failed ≡ false) }
    ensures cause { IfErr result (StopsWriting writer.new) }
{
    write_text(writer, "fault InputTooLong\n")?;
    Ok(1)
}
