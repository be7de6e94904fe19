//! Messages that carry a program, which stays where it lies in their bytes.

ghost use Rattle.monitor_messages.specs.Programs.{insns_of};

use crate::reading::insn_at;
use bpf_insn::Insn;
use filter_table::Load;
use filter_verify::Code;

/// A message that carries a program.
#[derive(Clone, Copy)]
pub struct Loaded<'a> {
    /// The clock of the core that sent it.
    pub stamp: u64,
    /// Which message it is.
    pub carrier: Carrier,
    /// What it asks for with the program.
    pub load: Load,
    /// The program.
    pub program: CodedProgram<'a>,
}

/// The messages that carry a program.
#[derive(Clone, Copy, PartialEq, Eq, Debug)]
pub enum Carrier {
    /// Core 0 asks whether the core can make the change of this number.
    Prepare { txn: u64 },
    /// A request of the core, for core 0 to start.
    Submit,
}

/// A program where it lies in a message, eight bytes for each instruction.
#[derive(Clone, Copy)]
pub struct CodedProgram<'a> {
    pub(crate) bytes: &'a [u8],
}

impl Code for CodedProgram<'_> {
    ghost insns = { λ program. insns_of program.bytes.now };

    fn count(self) -> usize {
        self.bytes.len() / 8
    }

    fn insn(self, pc: usize) -> Insn {
        match insn_at(&self.bytes[8 * pc..]) {
            Ok((insn, _)) => insn,
            Err(_) => unreachable!(),
        }
    }
}
