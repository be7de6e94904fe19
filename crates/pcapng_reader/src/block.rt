//! What a block says, and what can be wrong with one.

use crate::time::Time;
use thiserror::Error;

/// What is wrong with a block.
#[derive(Clone, Copy, Debug, PartialEq, Eq, Error)]
pub enum BlockError {
    /// A block before the first section header.
    #[error("it stands before the first section header")]
    NoSection,
    /// The byte-order magic of a section header reads as 1A2B3C4D in neither order.
    #[error("its byte-order magic is in neither order")]
    BadByteOrder,
    /// A total length that isn't a multiple of 4, or is too short for the fields that such a block has: below 12 in any block.
    #[error("its length is no multiple of 4, or too short for its fields")]
    BadLength,
    /// The total length at the end of a block isn't the one at its front.
    #[error("the length at its end is another")]
    LengthNotRepeated,
    /// A section of another major version than 1.
    #[error("its section is not of version 1")]
    BadVersion,
    /// A packet of an interface that its section hasn't described before it.
    #[error("its interface is not described before it")]
    NoInterface,
    /// More captured bytes than the block has room for.
    #[error("it has no room for so many captured bytes")]
    BadCaptured,
    /// More than 65,536 interfaces in a section.
    #[error("its section has more than 65,536 interfaces")]
    TooManyInterfaces,
    /// More than 262,144 captured bytes, or a block of more than 16,777,216 bytes.
    #[error("it has more than 262,144 captured bytes, or more than 16,777,216 in all")]
    TooLong,
}

/// What the header of a section says.
#[derive(Clone, Copy, Debug, PartialEq, Eq)]
pub struct SectionHeader {
    /// Whether the numbers of the section are big-endian, and not little-endian.
    pub big: bool,
    /// The minor version. Any number is taken.
    pub minor: u16,
}

/// What a section says of an interface.
#[repr(C)]
#[derive(Clone, Copy, Debug, PartialEq, Eq)]
pub struct InterfaceDescription {
    /// The link type of its packets, as 1 for Ethernet. Any number is taken.
    pub link: u16,
    /// The most bytes that were to be captured of a packet; 0 for no limit. Only simple packets are held to it.
    pub snaplen: u32,
    /// The resolution of time stamps, as the option `if_tsresol` has it; 6 where there is none.
    pub resolution: u8,
    /// The seconds to be added to time stamps, as the option `if_tsoffset` has them; 0 where there is none.
    pub offset: i64,
}

/// What a block says of its packet.
#[derive(Clone, Copy, Debug, PartialEq, Eq)]
pub struct PacketEntry {
    /// The number of its section, from 0.
    pub section: u64,
    /// The number of its interface in the section, from 0.
    pub interface: u32,
    /// The link type of the interface.
    pub link: u16,
    /// When it was seen. A simple packet doesn't say.
    pub time: Option<Time>,
    /// Where its bytes begin in the block.
    pub start: u32,
    /// How many bytes of it were captured: at most 262,144.
    pub captured: u32,
    /// The packet's length in bytes when it was seen.
    pub original: u32,
}

/// What a block says.
#[derive(Clone, Copy, Debug, PartialEq, Eq)]
pub enum Content {
    /// A section begins.
    Section(SectionHeader),
    /// The next interface of the section.
    Interface(InterfaceDescription),
    /// A packet: an enhanced, a simple or an obsolete packet block.
    Packet(PacketEntry),
    /// Nothing that is looked at.
    Other,
}
