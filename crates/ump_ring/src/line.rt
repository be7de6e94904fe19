//! One line of a message.
ghost use Rattle.std.specs.Prelude.{◌≡◌, ◌+◌, ◌<◌, ◌≤◌, ◌^◌, slice_index, length};
ghost use Rattle.ump_ring.specs.Lines as spec;

/// A cache line: the message's length and the line's number, and then 56 bytes of the message.
pub type Line = [u64; 8];

/// The bytes of the longest message.
pub const MESSAGE_MOST: usize = 32_832;

/// The lines of the longest message.
pub const LINES_MOST: usize = 587;

/// How many numbers lines have, before they begin again.
pub(crate) const LINE_NUMBERS: u64 = 0x1_0000_0000;

fn byte_at(bytes: &[u8], at: usize) -> u8
    ensures { result ≡ slice_index bytes.now at }
{
    match bytes.get(at) {
        Some(byte) => *byte,
        None => 0,
    }
}

/// The eight bytes from a place on, the first one lowest. There are zeros past the end.
fn word_at(bytes: &[u8], at: usize) -> u64
    requires { at < 2 ^ 32 }
    ensures { result ≡ spec.word_at bytes.now at }
{
    if at + 8 <= bytes.len() {
        // One load of a word.
        return u64::from_le_bytes([
            bytes[at],
            bytes[at + 1],
            bytes[at + 2],
            bytes[at + 3],
            bytes[at + 4],
            bytes[at + 5],
            bytes[at + 6],
            bytes[at + 7],
        ]);
    }
    u64::from_le_bytes([
        byte_at(bytes, at),
        byte_at(bytes, at + 1),
        byte_at(bytes, at + 2),
        byte_at(bytes, at + 3),
        byte_at(bytes, at + 4),
        byte_at(bytes, at + 5),
        byte_at(bytes, at + 6),
        byte_at(bytes, at + 7),
    ])
}

/// The line at a place of a message of at most 32,832 bytes, under a number. Takes no memory.
pub fn line_at(bytes: &[u8], number: u32, place: u32) -> Line
    requires place { place < 1000 }
    requires length { length bytes.now ≤ MESSAGE_MOST }
    ensures { result ≡ spec.line_at (length bytes.now) bytes.now number place }
{
    let at = 56 * place as usize;
    let length = if place == 0 { bytes.len() as u64 } else { 0 };
    [
        length * LINE_NUMBERS + u64::from(number),
        word_at(bytes, at),
        word_at(bytes, at + 8),
        word_at(bytes, at + 16),
        word_at(bytes, at + 24),
        word_at(bytes, at + 32),
        word_at(bytes, at + 40),
        word_at(bytes, at + 48),
    ]
}
