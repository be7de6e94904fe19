//! The front of a block: its byte order, its type and its length.

ghost use Rattle.std.specs.Prelude.{◌≡◌, ◌≤◌, ◌%◌, length, IfOk};
ghost use Rattle.pcapng_reader.specs.Blocks.{IsFrame, frame_in, is_needed, is_pcapng, least_of, measure_of, order_in};

use crate::block::BlockError;
use crate::fields::word_at;

/// How many bytes of a block say its byte order, its type and its length.
pub const FRAME: usize = 12;

/// The type of a section header, which reads the same in both byte orders.
pub const SECTION: u32 = 0x0a0d_0d0a;

/// The type of an interface description.
pub const INTERFACE: u32 = 1;

/// The type of an obsolete packet block.
pub const OBSOLETE: u32 = 2;

/// The type of a simple packet block.
pub const SIMPLE: u32 = 3;

/// The type of an enhanced packet block.
pub const ENHANCED: u32 = 6;

/// How many bytes tell the format of a capture.
const MAGIC: usize = 4;

/// The byte-order magic of a section header.
const ORDER: u32 = 0x1a2b_3c4d;

/// The most bytes of a block.
const MOST_BLOCK: u32 = 16_777_216;

/// What the first twelve bytes of a block say.
#[derive(Clone, Copy, Debug, PartialEq, Eq)]
pub struct Frame {
    /// Whether the numbers of the block are big-endian, and not little-endian.
    pub big: bool,
    /// The type of the block.
    pub kind: u32,
    /// The block's length in bytes.
    pub total: u32,
}

/// Whether bytes begin with a section header block, as a capture in pcapng does.
pub fn is_pcapng(bytes: &[u8]) -> bool
    ensures { result ≡ is_pcapng bytes.now }
{
    bytes.len() >= MAGIC && word_at(true, bytes) == SECTION
}

/// The front of a block after so many section headers, the last of which had this byte order.
#[tactic(auto, unfolding(crate::specs::Blocks::frame_in))]
#[inline(always)]
pub fn frame_of(sections: u64, big: bool, bytes: &[u8]) -> Result<Frame, BlockError>
    requires { 12 ≤ length bytes.now }
    ensures is { result ≡ frame_in sections big bytes.now }
    ensures frame { IfOk result IsFrame }
{
    let kind = word_at(big, bytes);
    if kind == SECTION {
        measured(order_of(&bytes[8..])?, kind, &bytes[4..])
    } else if sections == 0 {
        Err(BlockError::NoSection)
    } else {
        measured(big, kind, &bytes[4..])
    }
}

/// The byte order that a byte-order magic tells.
fn order_of(bytes: &[u8]) -> Result<bool, BlockError>
    requires { 4 ≤ length bytes.now }
    ensures { result ≡ order_in bytes.now }
{
    if word_at(true, bytes) == ORDER {
        Ok(true)
    } else if word_at(false, bytes) == ORDER {
        Ok(false)
    } else {
        Err(BlockError::BadByteOrder)
    }
}

/// The front of a block of a type, whose total length these bytes begin with.
#[tactic(auto, unfolding(crate::specs::Blocks::measure_of))]
#[inline(always)]
fn measured(big: bool, kind: u32, bytes: &[u8]) -> Result<Frame, BlockError>
    requires { 4 ≤ length bytes.now }
    ensures is { result ≡ measure_of big kind bytes.now }
    ensures frame { IfOk result IsFrame }
{
    let total = word_at(big, bytes);
    if total < least(kind) || !total.is_multiple_of(4) {
        return Err(BlockError::BadLength);
    }
    if total > MOST_BLOCK {
        return Err(BlockError::TooLong);
    }
    Ok(Frame { big, kind, total })
}

/// How many bytes a block of a type has at least.
#[inline(always)]
fn least(kind: u32) -> u32
    ensures { result ≡ least_of kind }
{
    match kind {
        SECTION => 28,
        INTERFACE => 20,
        OBSOLETE | ENHANCED => 32,
        SIMPLE => 16,
        _ => 12,
    }
}

/// Whether blocks of a type are looked at.
pub fn needs(kind: u32) -> bool
    ensures { result ≡ is_needed kind }
{
    matches!(kind, SECTION | INTERFACE | ENHANCED | SIMPLE | OBSOLETE)
}
