//! Captures of packets: pcap savefiles of version 2.4 (pcap-savefile(5) of libpcap;
//! draft-ietf-opsawg-pcap), read whole by `read_capture` or in pieces by a `Feed`.
//!
//! A capture is a header and then records, to the end of the bytes. All numbers in it stand in one
//! byte order, which is that in which the magic number reads as one of its two values.
//!
//! | At | Bytes | The header |
//! |---|---|---|
//! | 0 | 4 | magic number: a1b2c3d4, or a1b23c4d where timestamps have nanoseconds |
//! | 4 | 2, 2 | version: 2, 4 |
//! | 8 | 4, 4 | zone and accuracy of the timestamps, which aren't looked at |
//! | 16 | 4 | the most bytes that were to be captured of a packet |
//! | 20 | 4 | the link type |
//!
//! | At | Bytes | A record |
//! |---|---|---|
//! | 0 | 4, 4 | timestamp: seconds and their fraction, which aren't looked at |
//! | 8 | 4 | captured length, at most 262,144 |
//! | 12 | 4 | original length of the packet |
//! | 16 | captured length | the captured bytes |
//!
//! Faults come in this order. Fewer than 4 bytes: TruncatedHeader; another magic number: BadMagic;
//! fewer than 8: TruncatedHeader; another version: BadVersion; fewer than 24: TruncatedHeader.
//! Then for each record, if any byte is left: fewer than 16: TruncatedRecord; a captured length
//! above 262,144: TooLong; fewer captured bytes than it says: TruncatedRecord. A captured length
//! above the original length, or above the most that the header names, is no fault.
#![tactic(auto)]

mod capture;
mod feed;
mod fields;
mod shared;

pub use capture::{Bytes, Capture, CaptureFault, CapturedPacket, Header, Packets, Stop};
pub use feed::{Feed, Seen, read_capture};
pub use shared::{SharedPacket, SharedPackets, share_capture};
