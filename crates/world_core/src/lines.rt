//! Channels that keep lines.

ghost use Rattle.std.specs.Prelude.{◌≡◌, ◌≢◌, ◌<◌, ◌≤◌, [], ℕ, List, length, Some, None, slice_get, slice_index, drop, IfOk, OnErr};
ghost use Rattle.std.specs.VecDeque.{deque_len};
ghost use Rattle.monitor_messages.specs.Coding.{IsNumbered, IsShort};
ghost use Rattle.ump_ring.specs.Joiners.{message_shown};
ghost use Rattle.ump_ring.specs.Lines.{line_count, lines_of, messages_in};
ghost use Rattle.world_core.specs.Carrying.{Carries, messages_of};
ghost use Rattle.world_core.specs.Channels.{first_of};

use crate::channel::Channel;
use monitor_messages::{DecodeFault, Message, decode, encode};
use std::alloc::{AllocError, Global};
use std::collections::VecDeque;
use std::marker::Model;
use ump_ring::{Joiner, LINES_MOST, Line, line_at};

/// The bytes of a message that a line carries.
const LINE_BYTES: usize = 56;

/// A channel that keeps the lines of messages, and joins them to read a message.
///
/// A message's bytes are those under stamp 0, and its lines are numbered from 0, so that a message that is ready can be put
/// at any time. Room is made for the lines of the longest message, and a look takes room for its bytes.
#[derive(Drop)]
pub struct Lines {
    alloc: Global,
    lines: VecDeque<Line>,
}

impl Model for Lines {
    ghost use Rattle.std.specs.VecDeque.{deque_capacity, deque_len};
    ghost use Rattle.world_core.specs.Carrying.{LineChannel, seen_channel, Carries};

    ghost Value = { LineChannel };

    ghost view = { λ channel. seen_channel channel.lines.items (deque_capacity channel.lines) (deque_len channel.lines) };

    ghost invariant = { λ channel. Carries channel.lines.items };
}

/// The lines of one message, which are ready to be put.
#[derive(Drop)]
pub struct MessageLines {
    lines: VecDeque<Line>,
}

impl Model for MessageLines {
    ghost use Rattle.monitor_messages.specs.declared.message.Message.{Message as GhostMessage};
    ghost use Rattle.world_core.specs.Carrying.{CarriesOne, message_of};

    ghost Value = { GhostMessage };

    ghost view = { λ piece. message_of piece.lines.items };

    ghost invariant = { λ piece. CarriesOne piece.lines.items };
}

impl MessageLines {
    /// Cuts a message into lines.
    fn new(alloc: Global, message: &Message) -> Result<MessageLines, AllocError>
        requires short { IsShort message.now }
        requires numbered { IsNumbered message.now }
        ensures { IfOk result (λ piece. piece ≡ message.now) }
    {
        let bytes = encode(alloc, 0, message)?;
        let lines = cut(alloc, &bytes)?;
        Ok(MessageLines { lines })
    }
}

impl Channel for Lines {
    ghost messages = { λ channel. channel.held };

    ghost spare = { λ channel. channel.spare };

    ghost made_for = { λ piece. piece };

    type Piece = MessageLines;

    fn new(alloc: Global) -> Result<Lines, AllocError> {
        Ok(Lines {
            alloc,
            lines: VecDeque::new(alloc),
        })
    }

    fn prepare(&mut self, message: &Message) -> Result<MessageLines, AllocError> {
        self.lines.reserve(LINES_MOST)?;
        MessageLines::new(self.alloc, message)
    }

    fn put(&mut self, piece: MessageLines) {
        let MessageLines { mut lines } = piece;
        let _ = self.lines.append(&mut lines);
    }

    fn first(&self) -> Result<Option<Message>, AllocError> {
        first_in(self.alloc, &self.lines)
    }

    fn drop_first(&mut self) {
        drop_first_in(&mut self.lines);
    }
}

/// The lines of a message of these bytes.
fn cut(alloc: Global, bytes: &[u8]) -> Result<VecDeque<Line>, AllocError>
    requires { length bytes.now ≤ 32832 }
    ensures lines { IfOk result (λ lines. lines.items ≡ lines_of bytes.now 0) }
    ensures bytes { (k : ℕ) → slice_index bytes.now k < 256 }
{
    let count = bytes.len().div_ceil(LINE_BYTES) as u32;
    let mut lines = VecDeque::with_capacity(alloc, count as usize)?;
    for place in 0..count {
        lines.push_back_reserved(line_at(bytes, place, place));
    }
    Ok(lines)
}

/// The oldest message that lines carry, if there is one.
fn first_in(alloc: Global, lines: &VecDeque<Line>) -> Result<Option<Message>, AllocError>
    requires { Carries lines.now.items }
    ensures ok { IfOk result (λ message. message ≡ first_of (messages_of lines.now.items)) }
    ensures err { OnErr result (messages_of lines.now.items ≢ []) }
{
    if lines.is_empty() {
        return Ok(None);
    }
    let joiner = join(alloc, lines)?;
    let Some(bytes) = joiner.message() else {
        unreachable!()
    };
    match decode(alloc, bytes) {
        Ok((_stamp, message)) => Ok(Some(message)),
        Err(DecodeFault::NoMemory) => Err(AllocError),
        Err(DecodeFault::BadMessage) => unreachable!(),
    }
}

/// Joins the lines of the oldest message.
fn join(alloc: Global, lines: &VecDeque<Line>) -> Result<Joiner, AllocError>
    requires carries { Carries lines.now.items }
    requires some { 0 < deque_len lines.now }
    ensures { IfOk result (λ joiner. message_shown joiner ≡ slice_get (messages_in lines.now.items) 0) }
{
    let mut joiner = Joiner::new(alloc)?;
    for place in 0..first_count(lines) {
        let Ok(_whole) = joiner.line(&lines[place]) else {
            unreachable!()
        };
    }
    Ok(joiner)
}

/// How many of the lines are those of the oldest message.
fn first_count(lines: &VecDeque<Line>) -> usize
    requires carries { Carries lines.now.items }
    requires some { 0 < deque_len lines.now }
    ensures { (bytes : List ℕ) → slice_get (messages_in lines.now.items) 0 ≡ Some bytes → result ≡ line_count (length bytes) }
{
    let stated = lines[0][0] >> 32;
    (stated as usize).div_ceil(LINE_BYTES)
}

/// Gives up the lines of the oldest message.
fn drop_first_in(lines: &mut VecDeque<Line>)
    requires { Carries lines.old.items }
    ensures carries { Carries lines.new.items }
    ensures rest { messages_of lines.new.items ≡ drop 1 (messages_of lines.old.items) }
{
    if lines.is_empty() {
        return;
    }
    for _ in 0..first_count(lines) {
        let _ = lines.pop_front();
    }
}
