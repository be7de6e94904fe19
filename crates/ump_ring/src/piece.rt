//! A message as its sender keeps it until it is out.

ghost use Rattle.std.specs.Prelude.{◌≤◌};

use seq::Shared;

/// The bytes of a message that one line holds.
pub const SHORT_MOST: usize = 56;

/// A message of at most one line, which lies in the struct itself.
pub struct ShortMessage {
    bytes: [u8; 56],
    length: usize,
    ghost within: { length ≤ 56 },
}

// By hand, so that the proofs of its owners have one call and not a drop of each part.
impl Drop for ShortMessage {
    fn drop(self) {
        let ShortMessage {
            bytes: _,
            length: _,
        } = self;
    }
}

/// A message: in memory of its own, in memory that it shares with what is sent to others, or a short one, which takes none.
#[derive(Drop)]
pub enum Piece {
    Whole(Vec<u8>),
    Shared(Shared<u8>),
    Short(ShortMessage),
}

impl Piece {
    ghost use Rattle.std.specs.Prelude.{◌≡◌, ◌≤◌, length};
    ghost use Rattle.ump_ring.specs.Pieces.{bytes_of};

    /// A copy of a message of at most one line. Takes no memory.
    pub fn short(message: &[u8]) -> Piece
        requires { length message.now ≤ SHORT_MOST }
        ensures { bytes_of result ≡ message.now }
    {
        let mut bytes = [0u8; 56];
        bytes[..message.len()].copy_from_slice(message);
        Piece::Short(ShortMessage {
            bytes,
            length: message.len(),
        })
    }

    /// The bytes of the message.
    pub fn as_slice(&self) -> &[u8]
        ensures { result.now ≡ bytes_of self.now }
    {
        match self {
            Piece::Whole(message) => message,
            Piece::Shared(message) => message.as_slice(),
            Piece::Short(message) => &message.bytes[..message.length],
        }
    }
}
