//! A machine goes on: each event of a reached world is done or refused, with one answer where no core is out of memory, and taking
//! the messages in order comes to an end (Alpern and Schneider, "Defining liveness", Information Processing Letters 1985). And how much
//! it has left to do: each step leaves less, so the steps are bounded by the requests; a machine that has nothing left to do is at rest.
//!
//! Here are laws alone, each the contract of a function that does nothing.
#![tactic(auto)]

mod laws;
mod liveness;

pub use laws::{answers_follow_from_events, events_are_done_or_refused, settling_ends};
pub use liveness::{
    a_machine_goes_on, core_0_sends_to_empty, cores_go_on, each_step_leaves_less,
    last_words_come_last, next_messages_are_awaited, steps_are_bounded, steps_of_cores_are_bounded,
};
