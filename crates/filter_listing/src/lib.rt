//! The listings of programs that `tcpdump` prints: from `-d`, a line for each instruction with its place and its
//! mnemonic, as libpcap's bpf_image.c writes it, and from `-dd`, an initializer in C for each.
#![tactic(auto)]

mod fault;
mod image;
mod initializer;
mod mnemonic;
mod number;
mod operand;
mod reading;
mod word;

pub use fault::{ListingFault, ListingFaultKind};
pub use reading::read_listing;
