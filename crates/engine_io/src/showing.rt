//! Showing what is made of an input that is read as a whole.

ghost use Rattle.std.specs.Prelude.{◌≡◌, ◌≤◌, ◌⊎◌, ℕ, List, length, IfOk, IfErr, Err, false};
ghost use Rattle.std.specs.Fn.{FnOnceTakesAt};
ghost use Rattle.engine_io.specs.declared.input.TheConstants.{INPUT_BYTES};
ghost use Rattle.engine_io.specs.Devices.{EndsEarly, EndsWell, Writes};
ghost use Rattle.engine_io.specs.Reading.{IsEngineFault};
ghost use Rattle.engine_io.specs.Reading.{GetsAtMost, IsInput, most_taken};
ghost use Rattle.engine_io.specs.Showing.{Makes, ShowsBounded};

use crate::input::{INPUT_BYTES, Input, read_bounded};
use crate::output::write_bytes;
use crate::too_long::refuse_long;
use crate::{EngineFault, Sink, Source};
use std::alloc::{AllocError, Global};
use std::io::{Read, Write};

/// What is shown of an input, and the status that goes with it.
#[derive(Drop)]
pub struct Shown {
    /// The text.
    pub text: Vec<u8>,
    /// The status.
    pub status: u8,
}

/// Reads an input to its end, writes what `make` makes of it, and answers the status that goes with that. Of an input of
/// more than 64 MiB only `fault InputTooLong` is written, status 1.
///
/// Answers `ReadFailed` or `NoMemory`, with nothing written, or `WriteFailed`.
pub fn show_input<R: Read, W: Write, F: FnOnce(&[u8]) -> Result<Shown, AllocError>>(
    alloc: Global,
    reader: &mut Source<R>,
    writer: &mut Sink<W>,
    make: F,
) -> Result<u8, EngineFault>
    requires takes { (input : List ℕ) → length input ≤ INPUT_BYTES → FnOnceTakesAt F.FnOnce make input }
    requires unread { reader.old.taken ≡ 0 }
    requires open { (reader.old.ended ≡ false) × (reader.old.failed ≡ false) }
    requires good { writer.old.failed ≡ false }
    ensures shown { IfOk result (λ status. (text : List ℕ) × Writes W.contents writer.old writer.new text
        × ((input : List ℕ) × IsInput R.remaining reader.old reader.new input × ShowsBounded (Makes F.FnOnce make) input status text)) }
    ensures taken { IfOk result (λ _. GetsAtMost R.remaining reader.old reader.new most_taken) }
    ensures fault { IfErr result IsEngineFault }
    ensures well { IfOk result (λ _. EndsWell reader.new writer.new INPUT_BYTES) }
    ensures cause { IfErr result (EndsEarly reader.new writer.new) }
    ensures most { reader.new.taken ≤ most_taken }
    ensures silent { (result ≡ Err EngineFault.ReadFailed) ⊎ (result ≡ Err EngineFault.NoMemory) → writer.new ≡ writer.old }
{
    match read_bounded(alloc, reader, INPUT_BYTES)? {
        Input::TooLong => refuse_long(writer),
        Input::Whole(input) => {
            let shown = make(input.as_slice())?;
            write_bytes(writer, shown.text.as_slice())?;
            Ok(shown.status)
        }
    }
}
