//! Reading a script's files.

ghost use Rattle.std.specs.Prelude.{◌≡◌, ◌++◌, ◌∷◌, [], OnOk, Option, List, ℕ, IfOk, IfErr, MatchOption};
ghost use Rattle.engine_io.specs.Devices.{IsFresh, IsReadThrough, StopsReading};
ghost use Rattle.engine_io.specs.Reading.{IsReadFault};
ghost use Rattle.engine_io.specs.declared.input.TheConstants.{INPUT_BYTES, INPUT_READS};
ghost use Rattle.script_input.specs.Inputs.{AllFresh, AllWithin, AreInputs, AreReadInOrder, Kept, LongAmong, NoneFailed, StopsFiles};

use engine_io::{EngineFault, INPUT_BYTES, Input, Source, read_bounded};
use seq::Shared;
use std::alloc::{AllocError, Global};
use std::io::Read;

/// What the files hold, in order, or `None` where one is too long; those after it are not read.
pub(crate) fn read_files<F: Read>(
    alloc: Global,
    files: &mut [Source<F>],
) -> Result<Option<Vec<Shared<u8>>>, EngineFault>
    requires { AllFresh files.old }
    ensures read { IfOk result (λ read. MatchOption read (LongAmong F.remaining files.old files.new)
        (λ held. AreInputs F.remaining files.old files.new held.items × AllWithin held.items)) }
    ensures order { AreReadInOrder files.old files.new }
    ensures fault { IfErr result IsReadFault }
    ensures good { OnOk result (NoneFailed files.new) }
    ensures cause { IfErr result (StopsFiles files.new) }
{
    let mut held = Vec::new(alloc);
    'files: for place in 0..files.len() {
        if !keep(alloc, &mut files[place], &mut held)? {
            return Ok(None);
        }
    }
    Ok(Some(held))
}

/// Reads one file, and tells whether it was not too long.
fn keep<F: Read>(
    alloc: Global,
    source: &mut Source<F>,
    held: &mut Vec<Shared<u8>>,
) -> Result<bool, EngineFault>
    requires { IsFresh source.old INPUT_READS }
    ensures kept { IfOk result (Kept F.remaining source.old source.new (held.old.items) (held.new.items)) }
    ensures record { IfOk result (IsReadThrough source.new INPUT_BYTES) }
    ensures fault { IfErr result IsReadFault }
    ensures cause { IfErr result (StopsReading source.new) }
{
    match read_bounded(alloc, source, INPUT_BYTES)? {
        Input::Whole(bytes) => {
            push(alloc, held, bytes)?;
            Ok(true)
        }
        Input::TooLong => Ok(false),
    }
}

/// Keeps what a file holds.
fn push(alloc: Global, held: &mut Vec<Shared<u8>>, bytes: Vec<u8>) -> Result<(), AllocError>
    ensures { OnOk result (held.new.items ≡ held.old.items ++ bytes.items ∷ []) }
{
    held.push(Shared::from_vec(alloc, bytes)?)?;
    Ok(())
}
