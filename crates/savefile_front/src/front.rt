//! What stands at the front of the bytes after a capture's header.

ghost use Rattle.std.specs.Prelude.{◌≡◌, ◌≤◌, length};
ghost use Rattle.pcap_reader.specs.Savefile.{number};
ghost use Rattle.savefile_front.specs.Fronts.{IsFront, length_in};

use byteorder::{BigEndian, ByteOrder, LittleEndian};
use pcap_reader::Seen;

/// The length of a record's header.
const RECORD_HEADER: usize = 16;

/// The most captured bytes of a record.
const MOST_CAPTURED: u32 = 262_144;

/// What bytes begin with.
#[derive(Clone, Copy, Debug)]
pub enum Front<'b> {
    /// A whole record.
    Record {
        /// How many bytes it has, its header among them.
        length: usize,
        /// Its packet, where it lies.
        packet: Seen<'b>,
    },
    /// A part of a record, or nothing.
    Part,
    /// The header of a record that is too long.
    TooLong,
}

/// What the bytes after a header or a record begin with.
#[inline(always)]
pub fn front_of<'b>(big: bool, bytes: &'b [u8]) -> Front<'b>
    ensures { IsFront big bytes.now result }
{
    if bytes.len() < RECORD_HEADER {
        return Front::Part;
    }
    let captured = word_at(big, &bytes[8..]);
    if captured > MOST_CAPTURED {
        return Front::TooLong;
    }
    let length = RECORD_HEADER + captured as usize;
    if bytes.len() < length {
        return Front::Part;
    }
    let packet = Seen {
        bytes: &bytes[RECORD_HEADER..length],
        original: word_at(big, &bytes[12..]),
    };
    Front::Record { length, packet }
}

/// How many bytes the record has that some bytes begin, as far as they say.
pub fn length_of(big: bool, bytes: &[u8]) -> usize
    ensures { result ≡ length_in big bytes.now }
{
    if bytes.len() < RECORD_HEADER {
        return RECORD_HEADER;
    }
    RECORD_HEADER + word_at(big, &bytes[8..]).min(MOST_CAPTURED) as usize
}

/// The number in the first four bytes.
#[inline(always)]
pub fn word_at(big: bool, bytes: &[u8]) -> u32
    requires { 4 ≤ length bytes.now }
    ensures { result ≡ number big 4 bytes.now }
{
    if big {
        BigEndian::read_u32(bytes)
    } else {
        LittleEndian::read_u32(bytes)
    }
}
