//! `sim`: runs a script.

ghost use Rattle.std.specs.Prelude.{◌≡◌, ◌<◌, ◌≤◌, ◌^◌, ◌++◌, ◌⊎◌, length, ℕ, List, IfOk, IfErr, IsErrOf, OnOk, true, false};
ghost use Rattle.engine_io.specs.declared.input.TheConstants.{INPUT_READS};
ghost use Rattle.engine_io.specs.Devices.{IsFresh, StopsWriting, Writes};
ghost use Rattle.engine_io.specs.Reading.{most_taken};
ghost use Rattle.engine_io.specs.Reading.{IsEngineFault, IsPrintFault};
ghost use Rattle.mk_script.specs.Limits.{HasLimits};
ghost use Rattle.mk_script.specs.declared.script.Item.{Item as GhostItem};
ghost use Rattle.mk_script.specs.Scripts.{AreFiles};
ghost use Rattle.script_input.specs.Inputs.{AllFresh, AreReadInOrder, AreScriptInputs, NoneFailed, ScriptEndsEarly};
ghost use Rattle.sim_engine.specs.Showing.{ShowsAmply, ShowsItems, ShowsOneButForMemory, ShowsPart, ShowsScript, ShowsSim};

use crate::running::perform_all;
use engine_io::{EngineFault, Sink, Source, refuse_long};
use mk_script::{Script, read_script};
use script_input::{read_inputs, refuse};
use seq::Shared;
use std::alloc::Global;
use std::io::{Read, Write};
use world_core::{BootFault, Channel, Messages, WorldOver};

/// Runs a script on the world of the cores, prints a line for each event and the tables that are shown, and answers the status.
///
/// The script is read to its end, then each file to its end in order, all before the first event. The script's first fault is
/// printed as `line N: NAME`, status 1. Of a script or a file of more than 64 MiB only `fault InputTooLong` is printed, status
/// 1. Messages go through lists.
///
/// Answers `ReadFailed`, with nothing written; `WriteFailed`; and `NoMemory`, where a front of the text may have been written.
pub fn run_sim<R: Read, F: Read, W: Write>(
    alloc: Global,
    files: &mut [Source<F>],
    reader: &mut Source<R>,
    writer: &mut Sink<W>,
) -> Result<u8, EngineFault>
    requires fresh { IsFresh reader.old INPUT_READS }
    requires fresh_files { AllFresh files.old }
    requires good { writer.old.failed ≡ false }
    ensures shown { IfOk result (λ status. (text : List ℕ) × Writes W.contents writer.old writer.new text
        × ((input : List ℕ) × (inputs : List (List ℕ)) × AreScriptInputs R.remaining reader.old reader.new F.remaining files.old files.new input inputs × ShowsSim inputs input status text)) }
    ensures some { (input : List ℕ) (inputs : List (List ℕ)) → AreFiles inputs → ShowsAmply (ShowsSim inputs input) }
    ensures only { (input : List ℕ) (inputs : List (List ℕ)) → AreFiles inputs → ShowsOneButForMemory (ShowsSim inputs input) }
    ensures fault { IfErr result IsEngineFault }
    ensures script_first { (reader.new.ended ≡ true) ⊎ (files.new ≡ files.old) }
    ensures order { AreReadInOrder files.old files.new }
    ensures well { OnOk result ((reader.new.failed ≡ false) × NoneFailed files.new × (writer.new.failed ≡ false)) }
    ensures cause { IfErr result (ScriptEndsEarly reader.new files.new writer.new) }
    ensures most { reader.new.taken ≤ most_taken }
    ensures silent { IsErrOf result EngineFault.ReadFailed → writer.new ≡ writer.old }
    ensures part { IsErrOf result EngineFault.NoMemory → (writer.new ≡ writer.old) ⊎ ((text : List ℕ) × Writes W.contents writer.old writer.new text
        × ((input : List ℕ) × (inputs : List (List ℕ)) × AreScriptInputs R.remaining reader.old reader.new F.remaining files.old files.new input inputs × ShowsPart inputs input text)) }
{
    run_sim_over::<Messages, R, F, W>(alloc, files, reader, writer)
}

/// Runs a script as `run_sim` does, over channels of one kind.
pub fn run_sim_over<C: Channel, R: Read, F: Read, W: Write>(
    alloc: Global,
    files: &mut [Source<F>],
    reader: &mut Source<R>,
    writer: &mut Sink<W>,
) -> Result<u8, EngineFault>
    requires fresh { IsFresh reader.old INPUT_READS }
    requires fresh_files { AllFresh files.old }
    requires good { writer.old.failed ≡ false }
    ensures shown { IfOk result (λ status. (text : List ℕ) × Writes W.contents writer.old writer.new text
        × ((input : List ℕ) × (inputs : List (List ℕ)) × AreScriptInputs R.remaining reader.old reader.new F.remaining files.old files.new input inputs × ShowsSim inputs input status text)) }
    ensures fault { IfErr result IsEngineFault }
    ensures script_first { (reader.new.ended ≡ true) ⊎ (files.new ≡ files.old) }
    ensures order { AreReadInOrder files.old files.new }
    ensures well { OnOk result ((reader.new.failed ≡ false) × NoneFailed files.new × (writer.new.failed ≡ false)) }
    ensures cause { IfErr result (ScriptEndsEarly reader.new files.new writer.new) }
    ensures most { reader.new.taken ≤ most_taken }
    ensures silent { IsErrOf result EngineFault.ReadFailed → writer.new ≡ writer.old }
    ensures part { IsErrOf result EngineFault.NoMemory → (writer.new ≡ writer.old) ⊎ ((text : List ℕ) × Writes W.contents writer.old writer.new text
        × ((input : List ℕ) × (inputs : List (List ℕ)) × AreScriptInputs R.remaining reader.old reader.new F.remaining files.old files.new input inputs × ShowsPart inputs input text)) }
{
    let Some(inputs) = read_inputs(alloc, reader, files)? else {
        return refuse_long(writer);
    };
    run_text::<C, W>(alloc, &inputs.script, &inputs.files, writer)
}

/// Runs a script that was read, with its files.
fn run_text<C: Channel, W: Write>(
    alloc: Global,
    input: &[u8],
    inputs: &[Shared<u8>],
    writer: &mut Sink<W>,
) -> Result<u8, EngineFault>
    requires short { length input.now < 2 ^ 32 }
    requires good { writer.old.failed ≡ false }
    ensures shown { IfOk result (λ status. (text : List ℕ) × Writes W.contents writer.old writer.new text × ShowsScript inputs.now input.now status text) }
    ensures fault { IfErr result IsPrintFault }
    ensures good { OnOk result (writer.new.failed ≡ false) }
    ensures cause { IfErr result (StopsWriting writer.new) }
    ensures part { IsErrOf result EngineFault.NoMemory → (writer.new ≡ writer.old) ⊎ ((text : List ℕ) × Writes W.contents writer.old writer.new text
        × ((more : List ℕ) × ShowsScript inputs.now input.now 0 (text ++ more))) }
{
    match read_script(alloc, input, inputs, false) {
        Ok(script) => run_script::<C, W>(alloc, &script, writer),
        Err(fault) => refuse(alloc, fault, writer),
    }
}

/// Does what a script asks for.
fn run_script<C: Channel, W: Write>(
    alloc: Global,
    script: &Script,
    writer: &mut Sink<W>,
) -> Result<u8, EngineFault>
    requires limits { HasLimits script.now }
    requires good { writer.old.failed ≡ false }
    ensures shown { IfOk result (λ status. (status ≡ 0) × ((text : List ℕ) × Writes W.contents writer.old writer.new text × ShowsItems script.now.limits script.now.budgets script.now.items text)) }
    ensures fault { IfErr result IsPrintFault }
    ensures good { OnOk result (writer.new.failed ≡ false) }
    ensures cause { IfErr result (StopsWriting writer.new) }
    ensures part { IsErrOf result EngineFault.NoMemory → (writer.new ≡ writer.old) ⊎ ((done rest : List GhostItem) × (script.now.items ≡ done ++ rest) × (text more : List ℕ)
        × ShowsItems script.now.limits script.now.budgets done (text ++ more) × Writes W.contents writer.old writer.new text) }
{
    let budgets = script.budgets.as_slice();
    let mut world = match WorldOver::<C>::boot_with_limits(alloc, script.limits, budgets) {
        Ok(world) => world,
        Err(BootFault::CoreCount) => unreachable!(),
        Err(BootFault::NoMemory) => return Err(EngineFault::NoMemory),
    };
    let done = perform_all(alloc, &mut world, script.items.as_slice(), writer);
    drop(world);
    done?;
    Ok(0)
}
