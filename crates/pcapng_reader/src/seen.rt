//! Blocks where they lie.

ghost use Rattle.std.specs.Prelude.{◌≡◌, ◌∷◌, [], MatchOption};
ghost use Rattle.pcapng_reader.specs.Packets.{captured_in, packets_by};

use crate::block::{Content, PacketEntry};

/// A whole block.
#[derive(Clone, Copy, Debug)]
pub struct Block<'b> {
    /// The place of its first byte in the capture.
    pub offset: u64,
    /// Its bytes, from its type to the total length at its end.
    pub bytes: &'b [u8],
    /// What it says.
    pub content: Content,
}

/// A whole enhanced packet block.
#[derive(Clone, Copy, Debug)]
pub struct Skimmed<'b> {
    /// Its bytes, from its type to the total length at its end.
    pub block: &'b [u8],
    /// The captured bytes of its packet.
    pub bytes: &'b [u8],
    /// What it says of its packet.
    pub packet: PacketEntry,
}

impl<'b> Block<'b> {
    /// The packet of the block, if it has one: what the block says of it, and its captured bytes.
    pub fn packet(&self) -> Option<(PacketEntry, &'b [u8])>
        ensures { MatchOption result (packets_by self.now.content self.now.bytes.now ≡ [])
            (λ packet. packets_by self.now.content self.now.bytes.now ≡ (packet.0, packet.1.now) ∷ []) }
    {
        match self.content {
            Content::Packet(entry) => Some((entry, captured(self.bytes, entry))),
            _ => None,
        }
    }
}

/// The captured bytes of a packet in its block.
fn captured<'b>(block: &'b [u8], entry: PacketEntry) -> &'b [u8]
    ensures { result.now ≡ captured_in entry block.now }
{
    let from = &block[block.len().min(entry.start as usize)..];
    &from[..from.len().min(entry.captured as usize)]
}
