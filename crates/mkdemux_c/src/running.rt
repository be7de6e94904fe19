//! The machine.

ghost use Rattle.std.specs.Prelude.{◌≡◌, ◌≤◌, ℕ, length};
ghost use Rattle.filter_verify.specs.Rules.{Sound};
ghost use Rattle.bpf_insn.specs.Machine.{Ends};

use bpf_insn::Insn;
use filter_vm::run_sound;

/// How a run ended.
#[repr(C)]
#[derive(Clone, Copy)]
pub struct Ending {
    /// How many bytes of the packet to keep. 0: the packet isn't accepted.
    pub verdict: u32,
    /// How many instructions were taken, the last one included: from 1 to the program's length.
    pub steps: u32,
}

/// Runs an accepted program over a packet's captured bytes, for a packet that had `original` bytes. Takes no memory.
#[unsafe(no_mangle)]
pub extern "C" fn mkdemux_run(code: &[Insn], packet: &[u8], original: u32) -> Ending
    requires { Sound code.now }
    ensures ends { Ends code.now (record { bytes = packet.now; original = original }) result.verdict result.steps }
    ensures only { (verdict steps : ℕ)
        → Ends code.now (record { bytes = packet.now; original = original }) verdict steps
        → (verdict ≡ result.verdict) × (steps ≡ result.steps) }
    ensures within { result.steps ≤ length code.now }
{
    let outcome = run_sound(code, packet, original);
    Ending {
        verdict: outcome.verdict,
        steps: outcome.steps,
    }
}

/// The verdict of that run alone.
#[unsafe(no_mangle)]
pub extern "C" fn mkdemux_verdict(code: &[Insn], packet: &[u8], original: u32) -> u32
    requires { Sound code.now }
    ensures ends { (steps : ℕ) × (steps ≤ length code.now)
        × Ends code.now (record { bytes = packet.now; original = original }) result steps }
    ensures only { (verdict steps : ℕ)
        → Ends code.now (record { bytes = packet.now; original = original }) verdict steps → verdict ≡ result }
{
    run_sound(code, packet, original).verdict
}
