//! From conditions on packets to classic BPF programs.
#![tactic(auto)]

mod builder;
mod compiler;
mod draft;
mod emitter;
mod facts;
mod fault;
mod graph;
mod implied;
mod insns;
mod lower;
mod plan;
mod shorten;
mod task;

pub use compiler::compile;
pub use fault::CompileFault;
