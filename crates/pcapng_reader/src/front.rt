//! What the bytes at some place of a capture begin with.

ghost use Rattle.std.specs.Prelude.{◌≡◌, Ok, IfSome};
ghost use Rattle.pcapng_reader.specs.Blocks.{IsFrame};
ghost use Rattle.pcapng_reader.specs.Grammar.{framed_in, front_in};
ghost use Rattle.pcapng_reader.specs.Growth.{IsFramedPacket, IsPacketFront};

use crate::block::{BlockError, Content, InterfaceDescription, PacketEntry};
use crate::content::{content_of, enhanced_of};
use crate::fields::word_at;
use crate::frame::{ENHANCED, FRAME, Frame, frame_of};

/// What bytes begin with.
#[derive(Clone, Copy, Debug)]
pub enum Front {
    /// Less than a whole block.
    Short,
    /// A block with something wrong.
    Wrong(BlockError),
    /// A whole block of so many bytes, and what it says.
    Whole(u32, Content),
}

/// The enhanced packet block that bytes begin with.
#[derive(Clone, Copy, Debug)]
pub struct PacketFront {
    /// How many bytes the block has.
    pub total: u32,
    /// What it says.
    pub packet: PacketEntry,
}

/// What bytes begin with, after so many section headers; the last section had this byte order, and has described these
/// interfaces.
#[tactic(auto, unfolding(crate::specs::Grammar::front_in))]
pub fn front_of(
    sections: u64,
    big: bool,
    interfaces: &[InterfaceDescription],
    bytes: &[u8],
) -> Front
    ensures { result ≡ front_in sections big interfaces.now bytes.now }
{
    if bytes.len() < FRAME {
        return Front::Short;
    }
    match frame_of(sections, big, bytes) {
        Ok(frame) => whole_of(sections, interfaces, frame, bytes),
        Err(error) => Front::Wrong(error),
    }
}

/// What bytes begin with that have this front.
fn whole_of(sections: u64, interfaces: &[InterfaceDescription], frame: Frame, bytes: &[u8]) -> Front
    requires { IsFrame frame }
    ensures { result ≡ framed_in sections interfaces.now (Ok frame) bytes.now }
{
    let total = frame.total as usize;
    if bytes.len() < total {
        return Front::Short;
    }
    match content_of(sections, interfaces, frame, &bytes[..total]) {
        Ok(content) => Front::Whole(frame.total, content),
        Err(error) => Front::Wrong(error),
    }
}

/// The enhanced packet block that bytes begin with, where one lies whole in them that has nothing wrong.
#[inline(always)]
pub fn packet_front(
    sections: u64,
    big: bool,
    interfaces: &[InterfaceDescription],
    bytes: &[u8],
) -> Option<PacketFront>
    ensures { IfSome result (IsPacketFront sections big interfaces.now bytes.now) }
{
    if bytes.len() < FRAME || word_at(big, bytes) != ENHANCED {
        return None;
    }
    match frame_of(sections, big, bytes) {
        Ok(frame) => packet_in(sections, interfaces, frame, bytes),
        Err(_) => None,
    }
}

/// The same of bytes that have this front.
#[inline(always)]
fn packet_in(
    sections: u64,
    interfaces: &[InterfaceDescription],
    frame: Frame,
    bytes: &[u8],
) -> Option<PacketFront>
    requires { IsFrame frame }
    ensures { IfSome result (IsFramedPacket sections interfaces.now frame bytes.now) }
{
    let total = frame.total as usize;
    if frame.kind != ENHANCED || bytes.len() < total {
        return None;
    }
    let block = &bytes[..total];
    if word_at(frame.big, &block[total - 4..]) != frame.total {
        return None;
    }
    match enhanced_of(sections, interfaces, frame.big, block) {
        Ok(Content::Packet(packet)) => Some(PacketFront {
            total: frame.total,
            packet,
        }),
        _ => None,
    }
}
