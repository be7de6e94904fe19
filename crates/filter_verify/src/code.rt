//! Programs where they lie.

ghost use Rattle.std.specs.Prelude.{◌≡◌, ◌<◌, List, length, Some, slice_get};
ghost use Rattle.bpf_insn.specs.declared.insn.Insn.{Insn as GhostInsn};

use bpf_insn::Insn;

/// A program where it lies: its instructions, or bytes that stand for them.
pub trait Code: Copy {
    /// The instructions, in order.
    ghost insns: { Self → List GhostInsn };

    /// How many there are.
    fn count(self) -> usize
        ensures { result ≡ length (insns self) };

    /// The one at a place.
    fn insn(self, pc: usize) -> Insn
        requires { pc < length (insns self) }
        ensures { slice_get (insns self) pc ≡ Some result };
}

impl Code for &[Insn] {
    ghost insns = { λ code. code.now };

    #[inline(always)]
    fn count(self) -> usize {
        self.len()
    }

    #[inline(always)]
    fn insn(self, pc: usize) -> Insn {
        self[pc]
    }
}
