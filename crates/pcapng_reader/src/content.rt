//! What a whole block says.

ghost use Rattle.std.specs.Prelude.{◌≡◌, ◌≤◌, length};
ghost use Rattle.pcapng_reader.specs.Blocks.{IsFrame, content_in, described_in, enhanced_in, fitting, header_in, interface_in, obsolete_in, packet_in, simple_captured, simple_in};

use crate::block::{BlockError, Content, InterfaceDescription, PacketEntry, SectionHeader};
use crate::fields::{short_at, word_at};
use crate::frame::{ENHANCED, Frame, INTERFACE, OBSOLETE, SECTION, SIMPLE};
use crate::options::{offset_of, resolution_of};
use crate::time::Time;

/// The major version that is read.
const MAJOR: u16 = 1;

/// The most interfaces of a section.
const MOST_INTERFACES: usize = 65_536;

/// The most captured bytes of a packet.
const MOST_CAPTURED: u32 = 262_144;

/// Where the bytes of a simple packet begin in its block.
const SIMPLE_START: u32 = 12;

/// Where the bytes of another packet begin in its block.
const PACKET_START: u32 = 28;

/// The length of a block's last number, its total length once more.
const TRAILER: u32 = 4;

/// What a whole block says, after so many section headers and the interfaces of the last section that were described.
#[tactic(auto, unfolding(crate::specs::Blocks::content_in))]
pub fn content_of(
    sections: u64,
    interfaces: &[InterfaceDescription],
    frame: Frame,
    block: &[u8],
) -> Result<Content, BlockError>
    requires frame { IsFrame frame }
    requires whole { length block.now ≡ frame.total }
    ensures { result ≡ content_in sections interfaces.now frame block.now }
{
    if word_at(frame.big, &block[block.len() - 4..]) != frame.total {
        return Err(BlockError::LengthNotRepeated);
    }
    match frame.kind {
        SECTION => header_of(frame.big, block),
        INTERFACE => described_of(interfaces, frame.big, block),
        ENHANCED => enhanced_of(sections, interfaces, frame.big, block),
        SIMPLE => simple_of(sections, interfaces, frame.big, block),
        OBSOLETE => obsolete_of(sections, interfaces, frame.big, block),
        _ => Ok(Content::Other),
    }
}

/// What a section header says.
#[tactic(auto, unfolding(crate::specs::Blocks::header_in))]
fn header_of(big: bool, block: &[u8]) -> Result<Content, BlockError>
    requires { 28 ≤ length block.now }
    ensures { result ≡ header_in big block.now }
{
    if short_at(big, &block[12..]) != MAJOR {
        return Err(BlockError::BadVersion);
    }
    let minor = short_at(big, &block[14..]);
    Ok(Content::Section(SectionHeader { big, minor }))
}

/// What an interface description says, where it isn't one too many.
fn described_of(
    interfaces: &[InterfaceDescription],
    big: bool,
    block: &[u8],
) -> Result<Content, BlockError>
    requires { 20 ≤ length block.now }
    ensures { result ≡ described_in interfaces.now big block.now }
{
    if interfaces.len() >= MOST_INTERFACES {
        return Err(BlockError::TooManyInterfaces);
    }
    Ok(Content::Interface(interface_of(big, block)))
}

/// What an interface description says.
#[tactic(auto, unfolding(crate::specs::Blocks::interface_in))]
fn interface_of(big: bool, block: &[u8]) -> InterfaceDescription
    requires { 20 ≤ length block.now }
    ensures { result ≡ interface_in big block.now }
{
    let options = &block[16..block.len() - 4];
    InterfaceDescription {
        link: short_at(big, &block[8..]),
        snaplen: word_at(big, &block[12..]),
        resolution: resolution_of(big, options),
        offset: offset_of(big, options),
    }
}

/// What an enhanced packet block says.
#[tactic(auto, unfolding(crate::specs::Blocks::enhanced_in))]
#[inline(always)]
pub fn enhanced_of(
    sections: u64,
    interfaces: &[InterfaceDescription],
    big: bool,
    block: &[u8],
) -> Result<Content, BlockError>
    requires { (32 ≤ length block.now) × (length block.now ≤ 16777216) }
    ensures { result ≡ enhanced_in sections interfaces.now big block.now }
{
    let interface = word_at(big, &block[8..]);
    packet_of(sections, interfaces, interface, big, block)
}

/// What an obsolete packet block says.
#[tactic(auto, unfolding(crate::specs::Blocks::obsolete_in))]
fn obsolete_of(
    sections: u64,
    interfaces: &[InterfaceDescription],
    big: bool,
    block: &[u8],
) -> Result<Content, BlockError>
    requires { (32 ≤ length block.now) × (length block.now ≤ 16777216) }
    ensures { result ≡ obsolete_in sections interfaces.now big block.now }
{
    let interface = u32::from(short_at(big, &block[8..]));
    packet_of(sections, interfaces, interface, big, block)
}

/// What a block says of a packet with a time stamp.
#[tactic(auto, unfolding(crate::specs::Blocks::packet_in))]
#[inline(always)]
fn packet_of(
    sections: u64,
    interfaces: &[InterfaceDescription],
    interface: u32,
    big: bool,
    block: &[u8],
) -> Result<Content, BlockError>
    requires { (32 ≤ length block.now) × (length block.now ≤ 16777216) }
    ensures { result ≡ packet_in sections interfaces.now interface big block.now }
{
    let Some(described) = interfaces.get(interface as usize) else {
        return Err(BlockError::NoInterface);
    };
    let captured = word_at(big, &block[20..]);
    fits(block, PACKET_START, captured)?;
    let units = u64::from(word_at(big, &block[12..])) * 4_294_967_296
        + u64::from(word_at(big, &block[16..]));
    Ok(Content::Packet(PacketEntry {
        section: sections.saturating_sub(1),
        interface,
        link: described.link,
        time: Some(Time {
            units,
            resolution: described.resolution,
            offset: described.offset,
        }),
        start: PACKET_START,
        captured,
        original: word_at(big, &block[24..]),
    }))
}

/// What a simple packet block says.
#[tactic(auto, unfolding(crate::specs::Blocks::simple_in))]
fn simple_of(
    sections: u64,
    interfaces: &[InterfaceDescription],
    big: bool,
    block: &[u8],
) -> Result<Content, BlockError>
    requires { (16 ≤ length block.now) × (length block.now ≤ 16777216) }
    ensures { result ≡ simple_in sections interfaces.now big block.now }
{
    let Some(described) = interfaces.first() else {
        return Err(BlockError::NoInterface);
    };
    let original = word_at(big, &block[8..]);
    let captured = captured_of(described.snaplen, original);
    fits(block, SIMPLE_START, captured)?;
    Ok(Content::Packet(PacketEntry {
        section: sections.saturating_sub(1),
        interface: 0,
        link: described.link,
        time: None,
        start: SIMPLE_START,
        captured,
        original,
    }))
}

/// How many bytes of a simple packet were captured.
fn captured_of(snaplen: u32, original: u32) -> u32
    ensures { result ≡ simple_captured snaplen original }
{
    if snaplen == 0 {
        original
    } else {
        original.min(snaplen)
    }
}

/// Sees that so many captured bytes from a place on are not too many, and lie in a block.
#[inline(always)]
fn fits(block: &[u8], start: u32, captured: u32) -> Result<(), BlockError>
    requires { (length block.now ≤ 16777216) × (start ≤ 28) }
    ensures { result ≡ fitting start captured (length block.now) }
{
    if captured > MOST_CAPTURED {
        return Err(BlockError::TooLong);
    }
    if ((start + captured + TRAILER) as usize) > block.len() {
        return Err(BlockError::BadCaptured);
    }
    Ok(())
}
