//! The verifier, the machine, the texts of programs and a reader of captures as functions for C. `mkdemux.h` declares them, and
//! says what a caller owes that C can't check.
//!
//! A program is the caller's array of instructions, `struct bpf_insn` of libpcap and BSD or `struct sock_filter` of Linux. It is
//! read where it lies. Nothing is kept from one call to the next.
#![tactic(auto)]

mod answers;
mod assembling;
mod capturing;
mod compiling;
mod predecoding;
mod reading;
mod room;
mod running;
mod verifying;
mod writing;
