//! Cores that share a table, as functions for C. `mkdemux_cores.h` declares them, and says what a caller owes that C can't check.
//!
//! A core is a struct of one pointer that only these functions fill; the null pointer is a closed core. There is no global state: all
//! that a call reads and writes is what it is given.
#![tactic(auto)]

mod answers;
mod asking;
mod booting;
mod bursts;
mod caps;
mod code;
mod filters;
mod handle;
mod listing;
mod looking;
mod loose;
mod naming;
mod receiving;
mod settling;
mod turned;
mod turning;
