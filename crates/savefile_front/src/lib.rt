//! What bytes of a savefile begin with (pcap-savefile(5) of libpcap): the file's header, or a record.
#![tactic(auto)]

mod front;
mod header;

pub use front::{Front, front_of, length_of, word_at};
pub use header::{FILE_HEADER, header_of};
