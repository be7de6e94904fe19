//! Reading a script and its files.

ghost use Rattle.std.specs.Prelude.{◌≡◌, ◌≤◌, ◌⊎◌, IfOk, IfErr, OnOk, MatchOption, true, false};
ghost use Rattle.engine_io.specs.declared.input.TheConstants.{INPUT_READS};
ghost use Rattle.engine_io.specs.Devices.{IsFresh};
ghost use Rattle.engine_io.specs.Reading.{IsReadFault, most_taken};
ghost use Rattle.script_input.specs.Inputs.{AllFresh, AllShort, AreReadInOrder, AreScriptInputs, HadLong, NoneFailed, StopsInputs};

use crate::files::read_files;
use engine_io::{EngineFault, INPUT_BYTES, Input, Source, read_bounded};
use seq::Shared;
use std::alloc::Global;
use std::io::Read;

/// A script and its files, each of at most 64 MiB.
pub struct Inputs {
    pub script: Vec<u8>,
    /// The captures that the script names by number, from 1.
    pub files: Vec<Shared<u8>>,
}

// By hand, so that the proofs of its owners have one call and not a drop of each part.
impl Drop for Inputs {
    fn drop(self) {
        let Inputs {
            script: _,
            files: _,
        } = self;
    }
}

/// Reads the script to its end, then each file to its end in order. Answers `None` as soon as one is longer than 64 MiB, and
/// `ReadFailed` where a read fails or an input takes more reads than its limit; nothing after it is read then.
pub fn read_inputs<R: Read, F: Read>(
    alloc: Global,
    reader: &mut Source<R>,
    files: &mut [Source<F>],
) -> Result<Option<Inputs>, EngineFault>
    requires fresh { IsFresh reader.old INPUT_READS }
    requires fresh_files { AllFresh files.old }
    ensures read { IfOk result (λ read. MatchOption read (HadLong R.remaining reader.old reader.new F.remaining files.old files.new)
        (λ inputs. AreScriptInputs R.remaining reader.old reader.new F.remaining files.old files.new inputs.script.items (inputs.files.items)
        × AllShort inputs.script.items (inputs.files.items))) }
    ensures script_first { (reader.new.ended ≡ true) ⊎ (files.new ≡ files.old) }
    ensures order { AreReadInOrder files.old files.new }
    ensures fault { IfErr result IsReadFault }
    ensures good { OnOk result ((reader.new.failed ≡ false) × NoneFailed files.new) }
    ensures cause { IfErr result (StopsInputs reader.new files.new) }
    ensures most { reader.new.taken ≤ most_taken }
{
    let script = match read_bounded(alloc, reader, INPUT_BYTES)? {
        Input::Whole(script) => script,
        Input::TooLong => return Ok(None),
    };
    let Some(files) = read_files(alloc, files)? else {
        return Ok(None);
    };
    Ok(Some(Inputs { script, files }))
}
