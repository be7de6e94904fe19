//! The assembler: from the text of a classic BPF program to its instructions.
//!
//! The mnemonics are those of Linux's `bpf_asm` (Linux Documentation/networking/filter), without its ancillary loads. A
//! line has one instruction at most, `;` begins a comment to its end, and numbers are decimal or `0x` and hexadecimal.
#![tactic(auto)]

mod assembler;
mod define;
mod draft;
mod fault;
mod labels;
mod link;
mod number;
mod operands;
mod pass;
mod table;
mod token;
mod tokenizer;

pub use assembler::assemble;
pub use fault::{AsmFault, AsmFaultKind};
