//! The end of a ring that sends.
ghost use Rattle.std.specs.Prelude.{◌≡◌, ◌+◌, ◌<◌, ◌≤◌, ◌++◌, ℕ, List, length, slice_index};
ghost use mathlib.Core.List.{IsPrefix};
ghost use Rattle.ump_ring.specs.Lines.{line_count, lines_below, number_after};
ghost use Rattle.ump_ring.specs.Pieces.{going};
ghost use Rattle.ump_ring.specs.Sending.{IsSending};
ghost use Rattle.rtrb.specs.Ring.{sent, known_free, SameProducer};

use crate::line::{Line, MESSAGE_MOST, line_at};
use crate::piece::{Piece, SHORT_MOST};
use rtrb::Producer;
use seq::Shared;
use thiserror::Error;

/// The end of a ring that sends messages, one at a time.
pub struct Sender {
    pub(crate) producer: Producer<Line>,
    /// The message that goes out, or nothing.
    message: Option<Piece>,
    /// How many of its lines are out.
    out: u32,
    /// The number of the next line.
    number: u32,
    ghost sending: { IsSending (going message) out number (sent producer) },
}

// By hand, so that the proofs of its owners have one call and not a drop of each part.
impl Drop for Sender {
    fn drop(self) {
        let Sender {
            producer: _,
            message: _,
            out: _,
            number: _,
        } = self;
    }
}

/// A message is still going out. The new one is handed back.
#[derive(Debug, Drop, Error)]
#[error("a message is still going out")]
pub struct Busy(pub Vec<u8>);

/// How far the sender got.
#[derive(Clone, Copy, PartialEq, Eq, Debug)]
pub struct Pushed {
    /// The lines that it pushed.
    pub lines: u32,
    /// Whether nothing is left to push.
    pub whole: bool,
}

/// Pushes the lines of a message from a place on, until none is left or the ring is full. The result is how many.
fn push_lines(producer: &mut Producer<Line>, message: &[u8], out: u32, number: u32) -> u32
    requires length { length message.now ≤ MESSAGE_MOST }
    requires out { out ≤ line_count (length message.now) }
    requires number { number ≡ number_after (length (sent producer.old)) }
    ensures ring { SameProducer producer.old producer.new }
    ensures out { out + result ≤ line_count (length message.now) }
    ensures grown { IsPrefix (sent producer.old) (sent producer.new) }
    ensures pushed { length (sent producer.new) ≡ length (sent producer.old) + result }
    ensures room { known_free producer.old ≤ known_free producer.new + result }
    ensures full { out + result < line_count (length message.now) → known_free producer.new ≡ 0 }
    ensures lines { (before : List (List ℕ)) → sent producer.old ≡ before ++ lines_below (length message.now) message.now (length before) out → sent producer.new ≡ before ++ lines_below (length message.now) message.now (length before) (out + result) }
{
    let count = message.len().div_ceil(56) as u32;
    let mut pushed = 0u32;
    let mut next = number;
    for place in out..count {
        if producer.push(line_at(message, next, place)).is_err() {
            break;
        }
        next = next.wrapping_add(1);
        pushed += 1;
    }
    pushed
}

/// What a slice of bytes has is bytes, which a list of any items doesn't say of itself. A law: nothing is done.
#[inline(always)]
fn are_bytes(bytes: &[u8])
    ensures { (i : ℕ) → slice_index bytes.now i < 256 }
{
    let _ = bytes;
}

impl Sender {
    ghost use Rattle.std.specs.Prelude.{◌≡◌, ◌+◌, ◌<◌, ◌≤◌, ◌↔◌, ◌≢◌, ◌++◌, ◌∷◌, ℕ, List, [], length, vec_len, IsTrue, IsFalse, OnOk, IfErr, None, Some};
    ghost use mathlib.Core.List.{IsPrefix};
    ghost use Rattle.rtrb.specs.Ring.{sent};
    ghost use Rattle.ump_ring.specs.Lines.{stream};
    ghost use Rattle.ump_ring.specs.Senders.{lines_sent, current, messages_offered, room_known, SameSender};

    /// The sending end of a ring to which nothing was pushed.
    pub(crate) fn new(producer: Producer<Line>) -> Sender
        requires { sent producer ≡ [] }
        ensures ring { result.producer ≡ producer }
        ensures offered { messages_offered result ≡ [] }
        ensures current { current result ≡ None }
    {
        Sender {
            producer,
            message: None,
            out: 0,
            number: 0,
        }
    }

    /// Whether no message is going out. Takes no memory.
    pub fn idle(&self) -> bool
        ensures { IsTrue result ↔ (current self.now ≡ None) }
    {
        self.message.is_none()
    }

    /// Takes a message to be sent, of 1 to 32,832 bytes, or hands it back where one is still going out. Takes no
    /// memory.
    pub fn offer(&mut self, message: Vec<u8>) -> Result<(), Busy>
        requires length { (1 ≤ vec_len message) × (vec_len message ≤ MESSAGE_MOST) }
        ensures ring { SameSender self.old self.new × (lines_sent self.new ≡ lines_sent self.old) }
        ensures room { room_known self.new ≡ room_known self.old }
        ensures ok { OnOk result ((current self.old ≡ None) × (current self.new ≡ Some message.items) × (messages_offered self.new ≡ messages_offered self.old ++ message.items ∷ [])) }
        ensures busy { IfErr result (λ e. (e.0 ≡ message) × (current self.old ≢ None) × (current self.new ≡ current self.old) × (messages_offered self.new ≡ messages_offered self.old)) }
    {
        if self.message.is_some() {
            return Err(Busy(message));
        }
        self.message = Some(Piece::Whole(message));
        self.out = 0;
        Ok(())
    }

    /// Takes a copy of a message of 1 to 56 bytes to be sent, and says whether it did: not where one is still going out. Takes
    /// no memory.
    pub fn offer_short(&mut self, message: &[u8]) -> bool
        requires length { (1 ≤ length message.now) × (length message.now ≤ SHORT_MOST) }
        ensures ring { SameSender self.old self.new × (lines_sent self.new ≡ lines_sent self.old) }
        ensures room { room_known self.new ≡ room_known self.old }
        ensures taken { IsTrue result → (current self.old ≡ None) × (current self.new ≡ Some message.now) × (messages_offered self.new ≡ messages_offered self.old ++ message.now ∷ []) }
        ensures busy { IsFalse result → (current self.old ≢ None) × (current self.new ≡ current self.old) × (messages_offered self.new ≡ messages_offered self.old) }
    {
        if self.message.is_some() {
            return false;
        }
        self.message = Some(Piece::short(message));
        self.out = 0;
        true
    }

    /// Takes a message of 1 to 32,832 bytes that is sent to others, too, and says whether it did: not where one is still going
    /// out. Takes no memory.
    pub fn offer_shared(&mut self, message: Shared<u8>) -> bool
        requires length { (1 ≤ length message) × (length message ≤ MESSAGE_MOST) }
        ensures ring { SameSender self.old self.new × (lines_sent self.new ≡ lines_sent self.old) }
        ensures room { room_known self.new ≡ room_known self.old }
        ensures taken { IsTrue result → (current self.old ≡ None) × (current self.new ≡ Some message) × (messages_offered self.new ≡ messages_offered self.old ++ message ∷ []) }
        ensures busy { IsFalse result → (current self.old ≢ None) × (current self.new ≡ current self.old) × (messages_offered self.new ≡ messages_offered self.old) }
    {
        if self.message.is_some() {
            return false;
        }
        are_bytes(message.as_slice());
        self.message = Some(Piece::Shared(message));
        self.out = 0;
        true
    }

    /// Pushes lines until the message is out or the ring is full, as this end sees it. Takes no memory.
    pub fn push_some(&mut self) -> Pushed
        ensures ring { SameSender self.old self.new }
        ensures offered { messages_offered self.new ≡ messages_offered self.old }
        ensures pushed { length (lines_sent self.new) ≡ length (lines_sent self.old) + result.lines }
        ensures grown { IsPrefix (lines_sent self.old) (lines_sent self.new) }
        ensures lines { IsPrefix (lines_sent self.new) (stream 0 (messages_offered self.new)) }
        ensures all { IsTrue result.whole → lines_sent self.new ≡ stream 0 (messages_offered self.new) }
        ensures whole { IsTrue result.whole ↔ (current self.new ≡ None) }
        ensures room { room_known self.old ≤ room_known self.new + result.lines }
        ensures full { IsFalse result.whole → room_known self.new ≡ 0 }
    {
        let Some(message) = &self.message else {
            return Pushed {
                lines: 0,
                whole: true,
            };
        };
        let bytes = message.as_slice();
        let count = bytes.len().div_ceil(56) as u32;
        let lines = push_lines(&mut self.producer, bytes, self.out, self.number);
        self.out += lines;
        self.number = self.number.wrapping_add(lines);
        let whole = self.out == count;
        if whole {
            self.message = None;
            self.out = 0;
        }
        Pushed { lines, whole }
    }
}
