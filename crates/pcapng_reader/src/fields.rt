//! The numbers of a block, in the byte order of its section.

ghost use Rattle.std.specs.Prelude.{◌≡◌, ◌≤◌, length};
ghost use Rattle.std.specs.Int.{cast_signed, w64};
ghost use Rattle.pcap_reader.specs.Savefile.{number};

use byteorder::{BigEndian, ByteOrder, LittleEndian};

/// The number in the first two bytes.
pub fn short_at(big: bool, bytes: &[u8]) -> u16
    requires { 2 ≤ length bytes.now }
    ensures { result ≡ number big 2 bytes.now }
{
    if big {
        BigEndian::read_u16(bytes)
    } else {
        LittleEndian::read_u16(bytes)
    }
}

/// The number in the first four bytes.
#[inline(always)]
pub fn word_at(big: bool, bytes: &[u8]) -> u32
    requires { 4 ≤ length bytes.now }
    ensures { result ≡ number big 4 bytes.now }
{
    if big {
        BigEndian::read_u32(bytes)
    } else {
        LittleEndian::read_u32(bytes)
    }
}

/// The signed number in the first eight bytes.
pub fn signed_at(big: bool, bytes: &[u8]) -> i64
    requires { 8 ≤ length bytes.now }
    ensures { result ≡ cast_signed w64 (number big 8 bytes.now) }
{
    if big {
        BigEndian::read_u64(bytes).cast_signed()
    } else {
        LittleEndian::read_u64(bytes).cast_signed()
    }
}
