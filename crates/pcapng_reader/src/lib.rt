//! Captures in pcapng (draft-ietf-opsawg-pcapng), taken block by block: whole by `read_blocks`, or in pieces cut anywhere by
//! a `BlockFeed`.
//!
//! A capture is blocks, to the end of the bytes. A section header begins a section, whose numbers stand in one byte order:
//! that in which its byte-order magic reads as 1a2b3c4d. It is known by its first four bytes, 0a 0d 0d 0a in both orders.
//!
//! | At | Bytes | A block |
//! |---|---|---|
//! | 0 | 4 | type |
//! | 4 | 4 | total length: a multiple of 4, at most 16,777,216 |
//! | 8 | | what it says, its options last |
//! | total - 4 | 4 | total length once more |
//!
//! | Type | Block | Least | What it says, from byte 8 on |
//! |---|---|---|---|
//! | 0a0d0d0a | section header | 28 | byte-order magic 4, major version 2: 1, minor version 2, section length 8, which isn't looked at |
//! | 1 | interface description | 20 | link type 2, reserved 2, most bytes of a packet 4 |
//! | 2 | obsolete packet | 32 | interface 2, drops 2, units of time 8, captured length 4, original length 4, the packet |
//! | 3 | simple packet | 16 | original length 4, the packet |
//! | 6 | enhanced packet | 32 | interface 4, units of time 8, captured length 4, original length 4, the packet |
//! | any other | passed over | 12 | |
//!
//! Interfaces are numbered from 0 in their section, in the order in which it describes them. Of the units of time the high
//! half is first in both byte orders. A simple packet is of interface 0, and as many bytes of it were captured as it had, or
//! as that interface takes, if that isn't 0. Captured bytes may be fewer or more than the original length says; what follows
//! them, padding and options, is no part of the packet.
//!
//! Options are looked at in interface descriptions alone: the first `if_tsresol` (9) and the first `if_tsoffset` (14), where
//! they have 1 and 8 bytes. The options end at code 0, at the end of the block, or at an option that doesn't fit in it.
//!
//! Faults come in this order, for each block if any byte is left, and for the first in any case. Fewer than 12 bytes:
//! Truncated; before the first section header: NoSection; a byte-order magic that is neither: BadByteOrder; a total length
//! below the least or no multiple of 4: BadLength; above 16,777,216: TooLong; fewer bytes than it says: Truncated; another
//! total length at the end: LengthNotRepeated; another major version: BadVersion; after 65,536 interfaces of a section one
//! more: TooManyInterfaces; a packet of an interface that wasn't described before it: NoInterface; more than 262,144 captured
//! bytes: TooLong; more than the block has room for: BadCaptured. The offset is that of the block's first byte.
#![tactic(auto)]

mod block;
mod content;
mod fault;
mod feed;
mod fields;
mod frame;
mod front;
mod options;
mod reading;
mod seen;
mod time;

pub use block::{BlockError, Content, InterfaceDescription, PacketEntry, SectionHeader};
pub use fault::CaptureFault;
pub use feed::{BlockFeed, FeedStep};
pub use frame::is_pcapng;
pub use front::{Front, front_of};
pub use reading::{Blocks, Stop, captured_bytes_fit, packets_are_of_their_sections, read_blocks};
pub use seen::{Block, Skimmed};
pub use time::{Stamp, Time};
