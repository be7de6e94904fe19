//! A list of messages that is written at its end and read from its beginning.

ghost use Rattle.std.specs.Prelude.{◌≤◌, vec_len, vec_capacity, length};

use seq::Shared;
use std::alloc::{AllocError, Global};
use ump_ring::{Busy, Piece};

/// Messages, at most `capacity` over its life, of which the first ones were read. It keeps them all.
pub(crate) struct MessageList {
    messages: Vec<Piece>,
    /// How many of them were read.
    read: usize,
    capacity: usize,
    ghost most: { vec_len messages ≤ capacity },
    ghost room: { capacity ≤ vec_capacity messages },
    ghost within: { read ≤ vec_len messages },
}

// By hand, so that the proofs of its owners have one call and not a drop of each part.
impl Drop for MessageList {
    fn drop(self) {
        let MessageList {
            messages: _,
            read: _,
            capacity: _,
        } = self;
    }
}

impl MessageList {
    ghost use Rattle.std.specs.Prelude.{◌≡◌, ◌≢◌, ◌++◌, ◌∷◌, [], take, drop, true, false, IfOk, OnOk, IfErr, IsTrue, IsFalse};
    ghost use Rattle.ump_ring.specs.Joiners.{shown_items};
    ghost use Rattle.core_links.specs.Views.{first_of, last_in};
    ghost use Rattle.core_links.specs.MessageLists.{all_of, read_of, unread_of, capacity_of, has_room};

    /// A list with no messages. The room for all is reserved here. The one error is that there is no memory.
    pub(crate) fn new(alloc: Global, capacity: usize) -> Result<MessageList, AllocError>
        ensures { IfOk result (λ m. (all_of m ≡ []) × (read_of m ≡ []) × (unread_of m ≡ []) × (capacity_of m ≡ capacity)) }
    {
        Ok(MessageList {
            messages: Vec::with_capacity(alloc, capacity)?,
            read: 0,
            capacity,
        })
    }

    /// Whether the list takes a message.
    pub(crate) fn has_room(&self) -> bool
        ensures { result ≡ has_room self.now }
    {
        self.messages.len() < self.capacity
    }

    /// Puts a message at the end, or hands it back where the list has as many as it takes. Takes no memory.
    pub(crate) fn put(&mut self, message: Vec<u8>) -> Result<(), Busy>
        ensures rest { (read_of self.new ≡ read_of self.old) × (capacity_of self.new ≡ capacity_of self.old) }
        ensures ok { OnOk result ((has_room self.old ≡ true) × (all_of self.new ≡ all_of self.old ++ message.items ∷ []) × (unread_of self.new ≡ unread_of self.old ++ message.items ∷ [])) }
        ensures busy { IfErr result (λ back. (back.0 ≡ message) × (has_room self.old ≡ false) × (self.new ≡ self.old)) }
    {
        if !self.has_room() {
            return Err(Busy(message));
        }
        self.messages.push_reserved(Piece::Whole(message));
        Ok(())
    }

    /// Puts a copy of a message of at most 56 bytes at the end, and says whether it did: not where the list has as many as it
    /// takes. Takes no memory.
    pub(crate) fn put_short(&mut self, message: &[u8]) -> bool
        requires { length message.now ≤ 56 }
        ensures room { result ≡ has_room self.old }
        ensures rest { (read_of self.new ≡ read_of self.old) × (capacity_of self.new ≡ capacity_of self.old) }
        ensures ok { IsTrue result → (all_of self.new ≡ all_of self.old ++ message.now ∷ []) × (unread_of self.new ≡ unread_of self.old ++ message.now ∷ []) }
        ensures busy { IsFalse result → self.new ≡ self.old }
    {
        if !self.has_room() {
            return false;
        }
        self.messages.push_reserved(Piece::short(message));
        true
    }

    /// Puts a message that shares its memory at the end, and says whether it did: not where the list has as many as it takes. Takes
    /// no memory.
    pub(crate) fn put_shared(&mut self, message: Shared<u8>) -> bool
        ensures room { result ≡ has_room self.old }
        ensures rest { (read_of self.new ≡ read_of self.old) × (capacity_of self.new ≡ capacity_of self.old) }
        ensures ok { IsTrue result → (all_of self.new ≡ all_of self.old ++ message ∷ []) × (unread_of self.new ≡ unread_of self.old ++ message ∷ []) }
        ensures busy { IsFalse result → self.new ≡ self.old }
    {
        if !self.has_room() {
            return false;
        }
        self.messages.push_reserved(Piece::Shared(message));
        true
    }

    /// The first message that was not read.
    pub(crate) fn first(&self) -> Option<&[u8]>
        ensures { shown_items result ≡ first_of (unread_of self.now) }
    {
        if self.read < self.messages.len() {
            Some(self.messages[self.read].as_slice())
        } else {
            None
        }
    }

    /// Reads the first message that was not read, which `last` then shows, and says whether there was one.
    pub(crate) fn advance(&mut self) -> bool
        ensures rest { (all_of self.new ≡ all_of self.old) × (capacity_of self.new ≡ capacity_of self.old) }
        ensures read { read_of self.new ≡ read_of self.old ++ take 1 (unread_of self.old) }
        ensures unread { unread_of self.new ≡ drop 1 (unread_of self.old) }
        ensures some { IsTrue result → unread_of self.old ≢ [] }
        ensures none { IsFalse result → unread_of self.old ≡ [] }
        ensures last { IsTrue result → last_in (read_of self.new) ≡ first_of (unread_of self.old) }
    {
        if self.read >= self.messages.len() {
            return false;
        }
        self.read += 1;
        true
    }

    /// The message that was read last.
    pub(crate) fn last(&self) -> Option<&[u8]>
        ensures { shown_items result ≡ last_in (read_of self.now) }
    {
        if self.read == 0 {
            None
        } else {
            Some(self.messages[self.read - 1].as_slice())
        }
    }
}
