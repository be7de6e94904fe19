//! Instructions of the classic BPF machine: the records of four numbers in which programs are stored, the 49 operation
//! codes and the forms that they stand for, and the texts in which packet filters are passed around: decimal text, which
//! is read and written, and assembler text, which is written here.
//!
//! The machine is that of McCanne and Jacobson, "The BSD Packet Filter: A New Architecture for User-level Packet
//! Capture" (USENIX, winter 1993), section 3. The codes and the assembler text are those of Linux
//! Documentation/networking/filter, and the decimal text is that of `tcpdump -ddd`.
#![tactic(auto)]

mod ddd;
mod form;
mod insn;
mod jumps;
mod number;
mod pieces;
mod printing;

pub use ddd::{TextFault, read_ddd};
pub use form::{AluOp, Form, Size, Test};
pub use insn::{Insn, MAX_INSNS};
pub use jumps::jumps_out;
pub use printing::{printable, push_form, write_asm, write_ddd};
