//! The bodies of programs and captures.

ghost use Rattle.std.specs.Prelude.{◌≡◌, ◌<◌, ◌^◌, ◌⊎◌, length, IfOk, IfErr, Ok, Err};
ghost use Rattle.mk_script.specs.Bodies as spec;
ghost use Rattle.mk_script.specs.Bodies.{DraftMeans};
ghost use Rattle.mk_script.specs.Changes.{DraftFollows, Follows};
ghost use Rattle.mk_script.specs.declared.reading.Reading.{Reading};
ghost use Rattle.mk_script.specs.DraftViews.{draft_of, meaning_of};
ghost use Rattle.mk_script.specs.BodyViews.{IsNamedCapture, IsNamedProgram, IsShort};
ghost use Rattle.mk_script.specs.declared.fault.ScriptFaultKind.TheVariants.{NoMemory};

use crate::fault::{BodyFault, ScriptFaultKind};
use crate::meaning::{Draft, Meaning};
use bpf_insn::{TextFault, read_ddd};
use capture_reader::share_packets;
use filter_asm::{AsmFaultKind, assemble};
use filter_table::Program;
use seq::Shared;
use std::alloc::Global;

/// The program of an `asm` block.
fn assembled<'a>(alloc: Global, name: &'a [u8], text: &[u8]) -> Result<Meaning<'a>, ScriptFaultKind>
    requires { length text.now < 2 ^ 32 }
    ensures ok { IfOk result (λ m. spec.MeansAssembled name.now text.now (Ok (meaning_of m))) }
    ensures err { IfErr result (λ fault. (fault ≡ NoMemory) ⊎ spec.MeansAssembled name.now text.now (Err fault)) }
    ensures named { IfOk result (λ m. IsNamedProgram name.now m) }
{
    match assemble(alloc, text) {
        Ok(program) => Ok(Meaning::NamedProgram(name, Program::from_vec(alloc, program)?)),
        Err(fault) => Err(if fault.kind == AsmFaultKind::NoMemory {
            ScriptFaultKind::NoMemory
        } else {
            ScriptFaultKind::BadBody(BodyFault::Asm(fault))
        }),
    }
}

/// The program of a decimal text.
fn decimal<'a>(alloc: Global, name: &'a [u8], text: &[u8]) -> Result<Meaning<'a>, ScriptFaultKind>
    ensures ok { IfOk result (λ m. spec.MeansDecimal name.now text.now (Ok (meaning_of m))) }
    ensures err { IfErr result (λ fault. (fault ≡ NoMemory) ⊎ spec.MeansDecimal name.now text.now (Err fault)) }
    ensures named { IfOk result (λ m. IsNamedProgram name.now m) }
{
    match read_ddd(alloc, text) {
        Ok(program) => Ok(Meaning::NamedProgram(name, Program::from_vec(alloc, program)?)),
        Err(TextFault::NoMemory) => Err(ScriptFaultKind::NoMemory),
        Err(fault) => Err(ScriptFaultKind::BadBody(BodyFault::Ddd(fault))),
    }
}

/// The packets of a capture.
fn captured<'a>(
    alloc: Global,
    name: &'a [u8],
    file: &Shared<u8>,
) -> Result<Meaning<'a>, ScriptFaultKind>
    ensures ok { IfOk result (λ m. spec.MeansCaptured name.now file.now (Ok (meaning_of m))) }
    ensures err { IfErr result (λ fault. (fault ≡ NoMemory) ⊎ spec.MeansCaptured name.now file.now (Err fault)) }
    ensures named { IfOk result (λ m. IsNamedCapture name.now m) }
{
    match share_packets(alloc, file) {
        Ok(packets) => {
            let packets = Shared::from_vec(alloc, packets.into_vec())?;
            Ok(Meaning::NamedCapture(name, packets))
        }
        Err(fault) => Err(if fault.is_refusal() {
            ScriptFaultKind::NoMemory
        } else {
            ScriptFaultKind::BadBody(BodyFault::Capture(fault))
        }),
    }
}

/// What a draft means once its body is read.
pub(crate) fn meaning<'a>(alloc: Global, draft: Draft<'a>) -> Result<Meaning<'a>, ScriptFaultKind>
    requires { IsShort draft }
    ensures ok { IfOk result (λ m. DraftMeans (draft_of draft.entry) (Ok (meaning_of m))) }
    ensures err { IfErr result (λ fault. (fault ≡ NoMemory) ⊎ DraftMeans (draft_of draft.entry) (Err fault)) }
    ensures follows { IfOk result (λ m. (r : Reading) → DraftFollows r draft.entry → Follows r m) }
{
    match draft {
        Draft::Whole(meaning) => Ok(meaning),
        Draft::Assembler(name, text) => assembled(alloc, name, text),
        Draft::Decimal(name, text) => decimal(alloc, name, text),
        Draft::Savefile(name, bytes) => captured(alloc, name, bytes),
    }
}
