//! Captures of packets in either format: pcap savefiles (pcap-savefile(5) of libpcap) and pcapng
//! (draft-ietf-opsawg-pcapng), which a `CaptureFeed` takes in pieces cut anywhere.
//!
//! A capture whose first four bytes are 0a 0d 0d 0a is in pcapng; any other is a savefile, one of fewer than four bytes
//! too. What is wrong with a capture is a fault of its format.
//!
//! A capture is given as entries, in order: of a savefile its header and the packet of each record; of pcapng each section
//! header, each interface description and each packet. Other blocks are passed over.
#![tactic(auto)]

mod blocks;
mod entry;
mod fault;
mod feed;
mod header;
mod laws;
mod records;
mod sharing;

pub use entry::{Entry, Found, PacketInfo, PacketTime, SeenEntry};
pub use fault::ReadFault;
pub use feed::CaptureFeed;
pub use laws::{captured_bytes_are_few, captures_have_one_reading, savefiles_are_read_as_such};
pub use records::savefile_link;
pub use sharing::share_packets;
