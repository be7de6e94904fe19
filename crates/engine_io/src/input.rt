//! Reading an input to its end, up to a limit.

ghost use Rattle.std.specs.Prelude.{◌≡◌, ◌+◌, ◌<◌, ◌≤◌, ◌^◌, IfOk, IfErr, false};
ghost use Rattle.engine_io.specs.Devices.{HasTaken, StopsReading};
ghost use Rattle.engine_io.specs.Reading.{Gave, GetsSome, IsReadFault};

use crate::{EngineFault, Got, Source};
use std::alloc::Global;
use std::io::Read;

/// The most bytes of one input: 64 MiB.
pub const INPUT_BYTES: u64 = 67_108_864;

/// The most reads of one input, the one that finds the end among them.
pub const INPUT_READS: u64 = 134_217_728;

/// How many bytes one read may give.
pub const READ_BYTES: usize = 65_536;

/// What a reader gave, up to a limit.
#[derive(Drop)]
pub enum Input {
    /// All that there was, to the end.
    Whole(Vec<u8>),
    /// More than the limit.
    TooLong,
}

/// Reads to the end, and keeps what was read where it is at most `bytes` bytes.
///
/// The read that finds the end is one of those that are left, and so is a read that was interrupted and is tried again. It
/// answers `TooLong` as soon as more than `bytes` were read, and `ReadFailed` where a read fails, or where no read is left and
/// none found the end.
pub fn read_bounded<R: Read>(
    alloc: Global,
    reader: &mut Source<R>,
    bytes: u64,
) -> Result<Input, EngineFault>
    requires unread { reader.old.taken ≡ 0 }
    requires open { (reader.old.ended ≡ false) × (reader.old.failed ≡ false) }
    requires short { bytes + READ_BYTES < 2 ^ 64 }
    ensures input { IfOk result (Gave R.remaining reader.old reader.new bytes) }
    ensures record { IfOk result (HasTaken reader.new bytes) }
    ensures fault { IfErr result IsReadFault }
    ensures cause { IfErr result (StopsReading reader.new) }
    ensures taken { GetsSome R.remaining reader.old reader.new }
    ensures most { reader.new.taken ≤ bytes + READ_BYTES }
{
    let mut held = Vec::new(alloc);
    let mut block = [0u8; READ_BYTES];
    while reader.left() > 0 {
        match reader.read(&mut block) {
            Got::Bytes(count) => {
                if reader.taken() > bytes {
                    return Ok(Input::TooLong);
                }
                held.extend_from_slice(&block[..count])?;
            }
            Got::End => return Ok(Input::Whole(held)),
            Got::Again => {}
            Got::Failed => return Err(EngineFault::ReadFailed),
        }
    }
    Err(EngineFault::ReadFailed)
}
