//! What the words of the command line ask for.
#![tactic(auto)]

mod program;
mod request;
mod texts;

pub use request::{CheckInput, FileWords, Invocation, Listing, MatchView, Request, request_of};
