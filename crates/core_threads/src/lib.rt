//! The cores of one machine as threads: one thread for each core, and one that puts the jobs.
#![tactic(auto)]

mod backoff;
mod booting;
mod ending;
mod feeding;
mod flags;
mod halt;
mod leaving;
mod machine;
mod settling;
mod threads;
mod turning;
mod watcher;

pub use booting::{boot, boot_with_limits};
pub use core_machine::BootFault;
pub use halt::{Halt, RunFault};
pub use machine::{Ended, Machine, run_machine};
pub use settling::{Rested, run_to_rest};
pub use watcher::{Free, Notes, Question, Watcher};
