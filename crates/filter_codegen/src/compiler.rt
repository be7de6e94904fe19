//! Conditions as programs.

ghost use Rattle.std.specs.Prelude.{◌≡◌, ◌+◌, ◌*◌, ◌<◌, Err, IfOk, IfErr};
ghost use Rattle.bpf_insn.specs.declared.insn.TheConstants.{MAX_INSNS};
ghost use Rattle.filter_verify.specs.Rules.{Sound};
ghost use Rattle.filter_cond.specs.Means.{tests};
ghost use Rattle.filter_codegen.specs.Built.{HasComparison};
ghost use Rattle.filter_codegen.specs.Decides.{Decides, RefusesCond};

use crate::builder::build;
use crate::fault::CompileFault;
use crate::graph::Graph;
use crate::shorten::lower_short;
use bpf_insn::Insn;
use filter_cond::Cond;
use filter_verify::{Verified, verify};
use std::alloc::Global;

/// The program of a condition, before it is verified.
fn program(alloc: Global, cond: &Cond, accept: u32) -> Result<Vec<Insn>, CompileFault>
    ensures sound { IfOk result (λ code. Sound code.items) }
    ensures decides { IfOk result (λ code. Decides cond.now accept code.items) }
    ensures err { IfErr result (λ fault. RefusesCond cond.now fault) }
{
    let mut graph = Graph::new(alloc)?;
    let root = build(alloc, &mut graph, &cond.parts)?;
    let draft = lower_short(alloc, &graph, root, accept)?;
    Ok(draft.finish())
}

/// A program that accepts the packets of which the condition is true, with this verdict, and gives the others 0: those of which
/// it is false, and those of which it has no value. `accept` is how many bytes of a packet are kept.
///
/// It takes memory and time in proportion to the number of parts, with no recursion.
pub fn compile(alloc: Global, cond: &Cond, accept: u32) -> Result<Verified, CompileFault>
    ensures decides { IfOk result (λ verified. Decides cond.now accept verified) }
    // Six instructions for each test are enough.
    ensures too_long { result ≡ Err CompileFault.TooLong → MAX_INSNS < 6 * tests cond.now.parts.items + 3 }
    ensures too_hard { result ≡ Err CompileFault.TooHard → HasComparison cond.now.parts.items }
{
    let code = program(alloc, cond, accept)?;
    match verify(alloc, &code) {
        Ok(verified) => Ok(verified),
        Err(_) => Err(CompileFault::NoMemory),
    }
}
