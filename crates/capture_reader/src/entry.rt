//! What a capture holds.

use pcap_reader::Header;
use pcapng_reader::{InterfaceDescription, SectionHeader, Time};

/// When a packet was seen.
#[derive(Clone, Copy, Debug, PartialEq, Eq)]
pub enum PacketTime {
    /// As a savefile's record says it.
    Seconds {
        /// Seconds since the beginning of 1970.
        seconds: u32,
        /// Parts of the second after these.
        fraction: u32,
        /// Whether the parts are nanoseconds; else they are microseconds.
        nano: bool,
    },
    /// As a block and its interface say it.
    Units(Time),
    /// A simple packet block doesn't say.
    Unknown,
}

/// What a capture says of a packet.
#[derive(Clone, Copy, Debug, PartialEq, Eq)]
pub struct PacketInfo {
    /// The number of its section, from 0. A savefile is one section.
    pub section: u64,
    /// The number of its interface in the section, from 0. A savefile has one interface.
    pub interface: u32,
    /// Its link type, as 1 for Ethernet.
    pub link: u32,
    /// When it was seen.
    pub time: PacketTime,
    /// The packet's length in bytes when it was seen.
    pub original: u32,
}

/// What stands at one place of a capture.
#[derive(Clone, Copy, Debug, PartialEq, Eq)]
pub enum Entry {
    /// The header of a savefile.
    Savefile(Header),
    /// A section of a capture in pcapng begins.
    Section(SectionHeader),
    /// The next interface of the section.
    Interface(InterfaceDescription),
    /// A packet.
    Packet(PacketInfo),
}

/// An entry with its bytes, where they lie.
#[derive(Clone, Copy, Debug)]
pub struct SeenEntry<'b> {
    /// What it says.
    pub entry: Entry,
    /// The captured bytes of a packet, from its first byte on; none for any other entry.
    pub bytes: &'b [u8],
}

/// What a feed made of the bytes that it took.
#[derive(Clone, Copy, Debug)]
pub enum Found<'b> {
    /// The next entry, which lies in them.
    SeenEntry(SeenEntry<'b>),
    /// They end the next entry, which was cut: the feed holds it until it is given more.
    Held,
    /// They end no entry.
    Nothing,
}
