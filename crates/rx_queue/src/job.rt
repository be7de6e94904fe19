//! A packet that waits for a core.

use pcap_reader::SharedPacket;

/// A packet that is to be received.
#[derive(Debug, Drop, PartialEq, Eq)]
pub struct Job {
    /// The packet's number in the run.
    pub number: u64,
    pub packet: SharedPacket,
    /// The least version of the table under which the packet may be received.
    pub floor: u64,
}
