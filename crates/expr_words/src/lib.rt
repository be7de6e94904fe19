//! The words of a filter expression: from a text to its tokens, each with its column and what it says.
//!
//! Numbers, addresses and names are spelled as in pcap-filter(7), IPv6 addresses as in RFC 4291, section 2.2. Names stand
//! in fixed tables: what a text means doesn't depend on the machine that reads it.
#![tactic(auto)]

mod address;
mod bytes;
mod fault;
mod laws;
mod names;
mod number;
mod protocol;
mod scan;
mod tables;
mod token;
mod tokenizer;
mod word;

pub use fault::{WordFault, WordFaultKind};
pub use laws::{faults_leave_no_tokens, tokens_are_unique};
pub use protocol::Protocol;
pub use token::{MAX_TOKENS, Token};
pub use tokenizer::tokens;
pub use word::{Keyword, Name, NamedPort, Numbers, Refusal, Sign, Span, Transports, V4, Word};
