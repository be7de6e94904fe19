//! Channels that carry messages from one core to another.

ghost use Rattle.std.specs.Prelude.{◌≡◌, ◌≢◌, ◌≤◌, ◌++◌, ◌∷◌, [], List, ℕ, IfOk, OnOk, OnErr, drop};
ghost use Rattle.monitor_messages.specs.Coding.{IsNumbered, IsShort};
ghost use Rattle.monitor_messages.specs.declared.message.Message.{Message as GhostMessage};
ghost use Rattle.world_core.specs.Channels.{first_of};

use monitor_messages::Message;
use std::alloc::{AllocError, Global};
use std::collections::VecDeque;

/// A channel from one core to another, seen as the list of the messages in it, the oldest first.
///
/// A message is put in two steps: `prepare` takes all the memory that it needs, and `put` takes none.
pub trait Channel: Drop {
    /// The messages, the oldest first.
    ghost messages: { Self → List GhostMessage };

    /// How many pieces can be put.
    ghost spare: { Self → ℕ };

    /// The message that a piece was made for.
    ghost made_for: { Self.Piece → GhostMessage };

    /// A message that is ready to be put.
    type Piece: Drop;

    /// An empty channel.
    fn new(alloc: Global) -> Result<Self, AllocError>
        ensures { IfOk result (λ channel. messages channel ≡ []) };

    /// Makes a message ready to be put. A program in it has at most 4,096 instructions, and where it says that the verifier
    /// refuses one, it names a rule of the verifier's, 1 to 10.
    fn prepare(&mut self, message: &Message) -> Result<Self::Piece, AllocError>
        requires short { IsShort message.now }
        requires numbered { IsNumbered message.now }
        ensures piece { IfOk result (λ piece. made_for piece ≡ message.now) }
        ensures room { OnOk result (1 ≤ spare self.new) }
        ensures same { messages self.new ≡ messages self.old };

    /// Puts a message last. Takes no memory.
    fn put(&mut self, piece: Self::Piece)
        requires { 1 ≤ spare self.old }
        ensures { messages self.new ≡ messages self.old ++ made_for piece ∷ [] };

    /// A copy of the oldest message, if there is one.
    fn first(&self) -> Result<Option<Message>, AllocError>
        ensures ok { IfOk result (λ message. message ≡ first_of (messages self.now)) }
        ensures err { OnErr result (messages self.now ≢ []) };

    /// Gives up the oldest message. Takes no memory.
    fn drop_first(&mut self)
        ensures { messages self.new ≡ drop 1 (messages self.old) };
}

/// A channel that keeps messages.
pub struct Messages {
    alloc: Global,
    messages: VecDeque<Message>,
}

// By hand, so that the proofs of its owners have one call and not a drop of each part.
impl Drop for Messages {
    fn drop(self) {
        let Messages {
            alloc: _,
            messages: _,
        } = self;
    }
}

impl Channel for Messages {
    ghost use Rattle.std.specs.Prelude.{◌-◌};
    ghost use Rattle.std.specs.VecDeque.{deque_len, deque_capacity};

    ghost messages = { λ channel. channel.messages.items };

    ghost spare = { λ channel. deque_capacity channel.messages - deque_len channel.messages };

    ghost made_for = { λ piece. piece };

    type Piece = Message;

    fn new(alloc: Global) -> Result<Messages, AllocError> {
        Ok(Messages {
            alloc,
            messages: VecDeque::new(alloc),
        })
    }

    fn prepare(&mut self, message: &Message) -> Result<Message, AllocError> {
        self.messages.reserve(1)?;
        message.clone()
    }

    fn put(&mut self, piece: Message) {
        self.messages.push_back_reserved(piece);
    }

    fn first(&self) -> Result<Option<Message>, AllocError> {
        match self.messages.front() {
            None => Ok(None),
            Some(message) => Ok(Some(message.clone()?)),
        }
    }

    fn drop_first(&mut self) {
        let _ = self.messages.pop_front();
    }
}
