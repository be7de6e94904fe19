//! Packets of a few bytes, and jobs of them.

use pcap_reader::SharedPacket;
use rx_queue::Job;
use seq::Shared;
use std::alloc::{AllocError, Global};

/// The bytes of a packet.
pub const BYTES: [u8; 5] = [1, 2, 3, 4, 5];

/// A packet of these bytes, which had five before it was captured.
pub fn packet(alloc: Global, bytes: &[u8]) -> Result<SharedPacket, AllocError> {
    let bytes = Vec::from_slice(alloc, bytes)?;
    Ok(SharedPacket::new(Shared::from_vec(alloc, bytes)?, 5))
}

/// A job of a packet of five bytes, for a table of this version or a later one.
pub fn job(alloc: Global, number: u64, floor: u64) -> Result<Job, AllocError> {
    Ok(Job {
        number,
        packet: packet(alloc, &BYTES)?,
        floor,
    })
}
