//! The engines of `match`, `check` and `dump`, and what engines say of faults.
#![tactic(auto)]

mod capture_fault;
mod capture_run;
mod captured;
mod checking;
mod code;
mod code_fault;
mod dump_stream;
mod dumping;
mod ending;
mod expression;
mod fault_words;
mod filter;
mod form;
mod hexadecimal;
mod line_feed;
mod lines;
mod link_types;
mod match_capture;
mod match_lines;
mod matching;
mod outcome;
mod output;
mod packet_source;
mod stamp;
mod streaming;
mod tally;
mod view;

pub use capture_run::is_link;
pub use captured::{Captured, KeptEntry, read_entries};
pub use checking::{CheckInput, fault_line, read_program, run_check};
pub use code::read_code;
pub use code_fault::{push_code_fault, push_explanation};
pub use dump_stream::run_dump_stream;
pub use dumping::run_dump;
pub use ending::{Ending, write_last};
pub use expression::{BadCode, is_expression, read_filter};
pub use fault_words::{
    name_of_asm_fault, push_capture_words, push_code_words, push_read_words, push_refusal_words,
};
pub use filter::{CodeFault, Filter, LinkPrograms};
pub use form::{ETHERNET, PacketForm};
pub use hexadecimal::decode;
pub use lines::first_line;
pub use link_types::LinkTypes;
pub use match_lines::push_bad_line;
pub use matching::run_match;
pub use outcome::push_outcome;
pub use streaming::{STREAM_READS, run_stream, run_view};
pub use tally::NONE_ACCEPTED;
pub use view::View;
