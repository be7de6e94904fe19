//! `check --graph`: the control flow of a filter.

ghost use Rattle.std.specs.Prelude.{◌≡◌, ◌<◌, ◌≤◌, ◌^◌, ◌⊎◌, ℕ, List, None, length, IfOk, IfErr, Err, string_bytes, false};
ghost use Rattle.engine_io.specs.declared.input.TheConstants.{INPUT_BYTES, INPUT_READS};
ghost use Rattle.engine_io.specs.Devices.{EndsEarly, EndsWell, IsFresh, Writes};
ghost use Rattle.engine_io.specs.Reading.{IsEngineFault};
ghost use Rattle.engine_io.specs.Reading.{IsInput, most_taken};
ghost use Rattle.filter_verify.specs.Rules.{Sound};
ghost use Rattle.graph_engine.specs.Graph.{graph_text};
ghost use Rattle.graph_engine.specs.Showing.{Draws, ShowsGraph, ShowsText, Verifies};

use crate::graph::graph;
use bpf_insn::Insn;
use console::{CheckInput, read_program};
use engine_io::{EngineFault, Shown, Sink, Source, show_input};
use filter_verify::{Refusal, verify};
use std::alloc::{AllocError, Global};
use std::io::{Read, Write};

/// Draws the control flow of the filter of the input, and answers the status.
///
/// The input is the text of a program, as for `check`. It is drawn as text for Graphviz, status 0: a node for each
/// instruction, and an arrow to each place where control may go from it, labelled `true` or `false` at a conditional jump. A
/// program that the verifier refuses has a title that says why, as `match` prints it; the refused instruction is red, and a
/// path on which a word is unwritten is bold. The first fault of the text is printed as by `check`, status 1; and of an input
/// of more than 64 MiB only `fault InputTooLong`, status 1.
///
/// Answers `ReadFailed` or `NoMemory`, with nothing written, or `WriteFailed`.
pub fn run_graph<R: Read, W: Write>(
    alloc: Global,
    input: CheckInput,
    reader: &mut Source<R>,
    writer: &mut Sink<W>,
) -> Result<u8, EngineFault>
    requires fresh { IsFresh reader.old INPUT_READS }
    requires good { writer.old.failed ≡ false }
    ensures shown { IfOk result (λ status. (text : List ℕ) × Writes W.contents writer.old writer.new text
        × ((bytes : List ℕ) × IsInput R.remaining reader.old reader.new bytes × ShowsGraph input bytes status text)) }
    ensures fault { IfErr result IsEngineFault }
    ensures well { IfOk result (λ _. EndsWell reader.new writer.new INPUT_BYTES) }
    ensures cause { IfErr result (EndsEarly reader.new writer.new) }
    ensures most { reader.new.taken ≤ most_taken }
    ensures silent { (result ≡ Err EngineFault.ReadFailed) ⊎ (result ≡ Err EngineFault.NoMemory) → writer.new ≡ writer.old }
{
    show_input(alloc, reader, writer, |text| draw_text(alloc, input, text))
}

/// What is shown of the text of a program.
fn draw_text(alloc: Global, input: CheckInput, text: &[u8]) -> Result<Shown, AllocError>
    requires { length text.now < 2 ^ 32 }
    ensures { IfOk result (λ shown. ShowsText input text.now shown.status shown.text.items) }
{
    match read_program(alloc, input, text)? {
        Ok(program) => {
            let drawn = draw_program(alloc, program.as_slice())?;
            Ok(Shown {
                text: drawn.into_bytes(),
                status: 0,
            })
        }
        Err(line) => Ok(Shown {
            text: line.into_bytes(),
            status: 1,
        }),
    }
}

/// The control flow of a program as text for Graphviz, as `run_graph` draws it, with the reason for which the verifier
/// refuses it, if it does.
pub fn draw_program(alloc: Global, program: &[Insn]) -> Result<String, AllocError>
    requires { length program.now ≤ 4096 }
    ensures draws { IfOk result (λ text. Draws program.now (string_bytes text)) }
    // A program that the verifier accepts is drawn without a mark.
    ensures sound { Sound program.now → IfOk result (λ text. string_bytes text ≡ graph_text program.now None) }
{
    let refusal = refusal_of(alloc, program)?;
    graph(alloc, program, &refusal)
}

/// Why the verifier refuses a program, if it does.
fn refusal_of(alloc: Global, program: &[Insn]) -> Result<Option<Refusal>, AllocError>
    ensures { IfOk result (Verifies program.now) }
{
    match verify(alloc, program) {
        Ok(_) => Ok(None),
        Err(Refusal::NoMemory) => Err(AllocError),
        Err(refusal) => Ok(Some(refusal)),
    }
}
