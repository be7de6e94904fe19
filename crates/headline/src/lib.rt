//! The headline, as the contracts of a few calls that make the program's own calls, by what can be seen alone.
//!
//! Every accepted filter ends on every packet within as many instructions as it has: `filter`. Replicas at one version hold
//! equal tables, and each packet goes to exactly the endpoints whose filters accept it: `one_by_one`, `threads`, `serve_steps` at any
//! moment, and `serve`.
#![tactic(auto)]

mod fault;
mod filters;
mod joined;
mod machine;
mod replicas;
mod running;
mod serving;

pub use core_machine::{CoreStep, StepOutcome, Task};
pub use core_threads::Halt;
pub use fault::Fault;
pub use filter_verify::Refusal;
pub use filter_vm::Outcome;
pub use filters::filter;
pub use machine::{Did, one_by_one};
pub use replicas::Replicas;
pub use running::threads;
pub use rx_queue::Job;
pub use serving::{Served, Stepped, serve, serve_steps};
pub use table_replica::Replica;
pub use world_events::{Answer, Done, Event, WorldFault};
