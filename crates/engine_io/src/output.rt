//! Writing all of a text.

ghost use Rattle.std.specs.Prelude.{◌≡◌, ℕ, List, OnOk, OnErr, IfErr, false};
ghost use Rattle.engine_io.specs.Devices.{StopsWriting, Writes};
ghost use Rattle.engine_io.specs.Reading.{BeginsWith};

use crate::{EngineFault, Sink};
use std::io::Write;

/// How many bytes of text are kept back before they are written.
pub const BLOCK: usize = 65_536;

/// Writes a text that was kept back. Where a write fails, a front of the text was written, and nothing after it.
pub fn write_text<W: Write>(writer: &mut Sink<W>, text: &str) -> Result<(), EngineFault>
    requires { writer.old.failed ≡ false }
    ensures written { OnOk result (Writes W.contents writer.old writer.new text.now) }
    ensures front { OnErr result ((front : List ℕ) × BeginsWith front text.now × Writes W.contents writer.old writer.new front) }
    ensures fault { IfErr result (λ e. e ≡ EngineFault.WriteFailed) }
    ensures good { OnOk result (writer.new.failed ≡ false) }
    ensures cause { IfErr result (StopsWriting writer.new) }
{
    write_bytes(writer, text.as_bytes())
}

/// Writes bytes. Where a write fails, a front of them was written, and nothing after it.
pub fn write_bytes<W: Write>(writer: &mut Sink<W>, bytes: &[u8]) -> Result<(), EngineFault>
    requires { writer.old.failed ≡ false }
    ensures written { OnOk result (Writes W.contents writer.old writer.new bytes.now) }
    ensures front { OnErr result ((front : List ℕ) × BeginsWith front bytes.now × Writes W.contents writer.old writer.new front) }
    ensures fault { IfErr result (λ e. e ≡ EngineFault.WriteFailed) }
    ensures good { OnOk result (writer.new.failed ≡ false) }
    ensures cause { IfErr result (StopsWriting writer.new) }
{
    let mut rest = bytes;
    while !rest.is_empty() {
        let Some(count) = writer.write(rest) else {
            return Err(EngineFault::WriteFailed);
        };
        rest = &rest[count..];
    }
    Ok(())
}
