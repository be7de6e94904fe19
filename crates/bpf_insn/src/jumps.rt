//! Jumps that lead outside their program.

ghost use Rattle.std.specs.Prelude.{ℕ, ◌<◌, ◌≤◌, IsTrue, MatchOption};
ghost use Rattle.bpf_insn.specs.Program.{JumpsTo};

use crate::{Form, MAX_INSNS};

/// Whether a jump of that form at a place has a target outside a program of `len` instructions. Both targets of a
/// conditional jump count.
pub fn jumps_out(form: Form, pc: usize, len: usize) -> bool
    requires { pc ≤ MAX_INSNS }
    ensures out { IsTrue result → (to : ℕ) × JumpsTo pc form to × (len ≤ to) }
    ensures inside { (IsTrue result → ⊥) → (to : ℕ) → JumpsTo pc form to → to < len }
{
    match farthest_target(form, pc) {
        Some(to) => to >= len,
        None => false,
    }
}

/// The target of a jump of that form at a place, the farther one of two.
fn farthest_target(form: Form, pc: usize) -> Option<usize>
    requires { pc ≤ MAX_INSNS }
    ensures { MatchOption result ((to : ℕ) → JumpsTo pc form to → ⊥)
        (λ far. JumpsTo pc form far × ((to : ℕ) → JumpsTo pc form to → to ≤ far)) }
{
    match form {
        Form::Ja { k } => Some(pc + 1 + k as usize),
        Form::JmpK { jt, jf, .. } => Some(pc + 1 + usize::from(jt.max(jf))),
        Form::JmpX { jt, jf, .. } => Some(pc + 1 + usize::from(jt.max(jf))),
        _ => None,
    }
}
