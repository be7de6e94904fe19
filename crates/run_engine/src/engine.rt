//! `run`: runs a script on cores that are threads.

ghost use Rattle.std.specs.Prelude.{◌≡◌, ◌<◌, ◌≤◌, ◌^◌, ◌⊎◌, ℕ, All, List, length, IfOk, IfErr, OnOk, string_bytes, true, false};
ghost use Rattle.engine_io.specs.declared.input.TheConstants.{INPUT_READS};
ghost use Rattle.engine_io.specs.Devices.{IsFresh, Writes};
ghost use Rattle.engine_io.specs.Reading.{most_taken};
ghost use Rattle.mk_script.specs.Limits.{HasLimits, IsLimited};
ghost use Rattle.mk_script.specs.Threads.{IsForThreads, IsScriptForThreads};
ghost use Rattle.script_input.specs.Inputs.{AllFresh, AreReadInOrder, AreScriptInputs, NoneFailed};
ghost use Rattle.run_engine.specs.Failing.{HaltsOf, HaltsRun, HaltsScript, IsOfCores, RunEndsEarly, StopsRun};
ghost use Rattle.run_engine.specs.Running.{HaveDone};
ghost use Rattle.run_engine.specs.Showing.{Shows, ShowsRun, ShowsRunScript};

use crate::lines::{push_all_left, push_events};
use crate::work::{Work, work_of};
use core_machine::{conclude, in_order};
use core_threads::{BootFault, Halt, Rested, RunFault, Watcher, boot_with_limits, run_to_rest};
use engine_io::{EngineFault, Sink, Source, refuse_long, write_bytes};
use filter_table::Limits;
use mk_script::{Item, Script, read_script};
use script_input::{read_inputs, refuse};
use seq::Shared;
use std::alloc::{AllocError, Global};
use std::io::{Read, Write};
use std::sync::Wait;
use std::thread::Threads;
use std::time::Clock;
use thiserror::Error;

/// Why a run has no status.
#[derive(Clone, Copy, PartialEq, Eq, Debug, Error)]
pub enum RunFailure {
    /// An input, the output or memory failed.
    #[error(transparent)]
    Engine(EngineFault),
    /// A thread could not be started.
    #[error("a thread can't be started")]
    Spawn,
    /// The work isn't done, for this core: the machine was settled once its threads were joined, and the core had no
    /// memory or no number left for what it would do next. Or all requests are decided, and a job is left that can be
    /// received, since this core had halted.
    #[error("core {0} halted: {1}")]
    Halted(u16, Halt),
}

impl From<EngineFault> for RunFailure {
    ghost use Rattle.std.specs.Prelude.{◌≡◌};
    ghost use Rattle.run_engine.specs.declared.engine.RunFailure.TheVariants.{Engine};

    ghost from_gives = { λ fault failure. failure ≡ Engine fault };

    fn from(fault: EngineFault) -> RunFailure {
        RunFailure::Engine(fault)
    }
}

impl From<AllocError> for RunFailure {
    ghost use Rattle.std.specs.Prelude.{◌≡◌};
    ghost use Rattle.engine_io.specs.declared.fault.EngineFault.TheVariants.{NoMemory};
    ghost use Rattle.run_engine.specs.declared.engine.RunFailure.TheVariants.{Engine};

    ghost from_gives = { λ _ failure. failure ≡ Engine NoMemory };

    fn from(_: AllocError) -> RunFailure {
        RunFailure::Engine(EngineFault::NoMemory)
    }
}

impl From<RunFault> for RunFailure {
    ghost use Rattle.run_engine.specs.Failing.{IsFault};

    ghost from_gives = { λ fault failure. IsFault fault failure };

    fn from(fault: RunFault) -> RunFailure {
        match fault {
            RunFault::Spawn => RunFailure::Spawn,
            RunFault::NoMemory => RunFailure::Engine(EngineFault::NoMemory),
        }
    }
}

/// Runs a script on cores that are threads, each on its own replica of the table, and prints one run that they did: a line for
/// each event, by stamp and then by core, and then one for each job that is left, by its number. Answers the status.
///
/// The script is read to its end, then each file in order. Its first fault is printed as `line N: NAME`, status 1. Of a script
/// or a file of more than 64 MiB only `fault InputTooLong` is printed, status 1. The watcher is asked before each receipt, and told
/// after it.
///
/// Where a core halts, since memory ran out in its thread, the machine is settled once the threads are joined, so that each
/// request is decided. Nothing is written before the run has ended, and nothing where its work isn't done, or where an input or
/// memory failed. Where a write fails, a front of the text may have been written.
pub fn run_script<T: Threads + Wait + Clock + Sync, G: Watcher + Sync, R: Read, F: Read, W: Write>(
    rt: &T,
    alloc: Global,
    watcher: &G,
    files: &mut [Source<F>],
    reader: &mut Source<R>,
    writer: &mut Sink<W>,
) -> Result<u8, RunFailure>
    requires fresh { IsFresh reader.old INPUT_READS }
    requires fresh_files { AllFresh files.old }
    requires good { writer.old.failed ≡ false }
    ensures shown { IfOk result (λ status. (text : List ℕ) × Writes W.contents writer.old writer.new text
        × ((input : List ℕ) × (inputs : List (List ℕ)) × AreScriptInputs R.remaining reader.old reader.new F.remaining files.old files.new input inputs × Shows inputs input status text)) }
    ensures script_first { (reader.new.ended ≡ true) ⊎ (files.new ≡ files.old) }
    ensures order { AreReadInOrder files.old files.new }
    ensures well { OnOk result ((reader.new.failed ≡ false) × NoneFailed files.new × (writer.new.failed ≡ false)) }
    ensures cause { IfErr result (RunEndsEarly reader.new files.new writer.new) }
    ensures halted { IfErr result (HaltsRun R.remaining reader.old reader.new F.remaining files.old files.new) }
    ensures most { reader.new.taken ≤ most_taken }
    ensures silent { IfErr result (λ failure. (failure ≡ RunFailure.Engine EngineFault.WriteFailed) ⊎ (writer.new ≡ writer.old)) }
{
    let Some(inputs) = read_inputs(alloc, reader, files)? else {
        return Ok(refuse_long(writer)?);
    };
    run_text(rt, alloc, watcher, &inputs.script, &inputs.files, writer)
}

/// Runs a script that was read, with its files.
fn run_text<T: Threads + Wait + Clock + Sync, G: Watcher + Sync, W: Write>(
    rt: &T,
    alloc: Global,
    watcher: &G,
    input: &[u8],
    files: &[Shared<u8>],
    writer: &mut Sink<W>,
) -> Result<u8, RunFailure>
    requires short { length input.now < 2 ^ 32 }
    requires good { writer.old.failed ≡ false }
    ensures shown { IfOk result (λ status. (text : List ℕ) × Writes W.contents writer.old writer.new text × ShowsRunScript (files.now) input.now status text) }
    ensures good { OnOk result (writer.new.failed ≡ false) }
    ensures cause { IfErr result (StopsRun writer.new) }
    ensures halted { IfErr result (HaltsScript files.now input.now) }
    ensures silent { IfErr result (λ failure. (failure ≡ RunFailure.Engine EngineFault.WriteFailed) ⊎ (writer.new ≡ writer.old)) }
{
    match read_script(alloc, input, files, true) {
        Ok(script) => print_run(rt, alloc, watcher, script, writer),
        Err(fault) => Ok(refuse(alloc, fault, writer)?),
    }
}

/// Runs a script, and prints what its cores did.
fn print_run<T: Threads + Wait + Clock + Sync, G: Watcher + Sync, W: Write>(
    rt: &T,
    alloc: Global,
    watcher: &G,
    script: Script,
    writer: &mut Sink<W>,
) -> Result<u8, RunFailure>
    requires limits { HasLimits script }
    requires threads { IsScriptForThreads script }
    requires good { writer.old.failed ≡ false }
    ensures shown { IfOk result (λ status. (status ≡ 0) × ((text : List ℕ) × Writes W.contents writer.old writer.new text × ShowsRun script text)) }
    ensures good { OnOk result (writer.new.failed ≡ false) }
    ensures cause { IfErr result (StopsRun writer.new) }
    ensures halted { IfErr result (HaltsOf script) }
    ensures silent { IfErr result (λ failure. (failure ≡ RunFailure.Engine EngineFault.WriteFailed) ⊎ (writer.new ≡ writer.old)) }
{
    let text = text_of_run(rt, alloc, watcher, script)?;
    write_bytes(writer, text.as_bytes())?;
    Ok(0)
}

/// What the cores of a script did.
fn text_of_run<T: Threads + Wait + Clock + Sync, G: Watcher + Sync>(
    rt: &T,
    alloc: Global,
    watcher: &G,
    script: Script,
) -> Result<String, RunFailure>
    requires limits { HasLimits script }
    requires threads { IsScriptForThreads script }
    ensures shown { IfOk result (λ text. ShowsRun script (string_bytes text)) }
    ensures failure { IfErr result (IsOfCores script.limits script.budgets script.items) }
{
    let Script {
        limits,
        budgets,
        items,
    } = script;
    let items = items.into_vec();
    let rested = run_items(rt, alloc, watcher, limits, budgets.as_slice(), items)?;
    let Rested { cores, left, .. } = rested;
    let histories = conclude(alloc, cores)?;
    let events = in_order(alloc, &histories)?;
    let mut text = String::new(alloc);
    push_events(&mut text, &events)?;
    push_all_left(&mut text, left)?;
    Ok(text)
}

/// Runs cores with these limits and budgets until they have done what the items give them.
fn run_items<T: Threads + Wait + Clock + Sync, G: Watcher + Sync>(
    rt: &T,
    alloc: Global,
    watcher: &G,
    limits: Limits,
    budgets: &[u32],
    items: Vec<Item>,
) -> Result<Rested, RunFailure>
    requires count { (1 ≤ length budgets.now) × (length budgets.now ≤ 64) }
    requires limited { All IsLimited items.items }
    requires at_cores { All (IsForThreads (length budgets.now)) items.items }
    ensures done { IfOk result (λ rested. HaveDone limits budgets.now items.items rested.cores.items rested.left.items) }
    ensures failure { IfErr result (IsOfCores limits budgets.now items.items) }
{
    let Work { requests, jobs } = work_of(alloc, items, budgets.len())?;
    let machine = match boot_with_limits(alloc, limits, budgets, requests) {
        Ok(machine) => machine,
        Err(BootFault::CoreCount) => unreachable!(),
        Err(BootFault::NoMemory) => return Err(RunFailure::Engine(EngineFault::NoMemory)),
    };
    let rested = run_to_rest(rt, alloc, machine, jobs, watcher, u64::MAX)?;
    match rested.undone {
        Some((core, why)) => Err(RunFailure::Halted(core, why)),
        None => Ok(rested),
    }
}
