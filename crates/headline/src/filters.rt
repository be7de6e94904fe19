//! Filters.

ghost use Rattle.std.specs.Prelude.{◌≤◌, length, IfOk, IsOk, IsOkUnless};
ghost use Rattle.bpf_insn.specs.Machine.{Ends};
ghost use Rattle.filter_verify.specs.Rules.{Sound};

use bpf_insn::Insn;
use filter_verify::{Refusal, verify};
use filter_vm::{Outcome, run};
use std::alloc::Global;

/// Verifies a program, and runs it over a packet's captured bytes, for a packet that had `original` bytes. An accepted program
/// ends, within as many instructions as it has; and exactly the sound programs are accepted, where there is memory.
pub fn filter(
    alloc: Global,
    code: &[Insn],
    packet: &[u8],
    original: u32,
) -> Result<Outcome, Refusal>
    ensures accepts { Sound code.now → IsOkUnless result Refusal.NoMemory }
    ensures sound { IsOk result → Sound code.now }
    ensures ends { IfOk result (λ outcome. Ends code.now (record { bytes = packet.now; original = original }) outcome.verdict outcome.steps) }
    ensures within { IfOk result (λ outcome. outcome.steps ≤ length code.now) }
{
    let program = verify(alloc, code)?;
    Ok(run(&program, packet, original))
}
