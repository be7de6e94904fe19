//! Predecoded programs.

ghost use Rattle.std.specs.Prelude.{◌≡◌, ◌≤◌, ◌⊎◌, ℕ, length};
ghost use Rattle.bpf_insn.specs.Machine.{Ends};
ghost use Rattle.filter_predecode.specs.Nodes.{IsMade, insns_of};
ghost use Rattle.filter_verify.specs.Rules.{Sound};

use crate::answers::{DONE, NO_MEMORY};
use bpf_insn::Insn;
use filter_predecode::{Cell, predecode, run_laid};
use std::alloc::Global;

/// The machine is as quick, or no cell is made of an instruction.
const NOT_QUICKER: u32 = 1;

/// Makes the cells of an accepted program in the caller's list. The answer is `DONE`, or `NOT_QUICKER`, or `NO_MEMORY`.
#[unsafe(no_mangle)]
pub extern "C" fn mkdemux_predecode(alloc: Global, code: &[Insn], cells: &mut [Cell]) -> u32
    requires sound { Sound code.now }
    requires cells { length cells.old ≡ length code.now }
    ensures made { result ≡ DONE → IsMade code.now cells.new }
    ensures memory { result ≡ NO_MEMORY → cells.new ≡ cells.old }
    ensures answer { (result ≡ DONE) ⊎ ((result ≡ NOT_QUICKER) ⊎ (result ≡ NO_MEMORY)) }
{
    match predecode(alloc, code, cells) {
        Ok(quicker) => { if quicker { DONE } else { NOT_QUICKER } }
        Err(_) => NO_MEMORY,
    }
}

/// The verdict of a run by the cells of an accepted program, as `mkdemux_verdict` gives it. Takes no memory.
#[unsafe(no_mangle)]
pub extern "C" fn mkdemux_cells_verdict(packet: &[u8], original: u32, cells: &[Cell]) -> u32
    requires { IsMade (insns_of cells.now) cells.now }
    ensures ends { (steps : ℕ) × (steps ≤ length cells.now)
        × Ends (insns_of cells.now) (record { bytes = packet.now; original = original }) result steps }
    ensures only { (verdict steps : ℕ)
        → Ends (insns_of cells.now) (record { bytes = packet.now; original = original }) verdict steps → verdict ≡ result }
{
    run_laid(cells, packet, original).verdict
}
