//! A core over lists, whose messages the caller carries.

use crate::running::Core;
use core_links::{Busy, ListLinks};

impl Core<ListLinks> {
    ghost use Rattle.std.specs.Prelude.{◌≡◌, ◌≢◌, ◌≤◌, [], ℕ, None, IfErr, OnOk, IsTrue, IsFalse, length, vec_len};
    ghost use Rattle.ump_ring.specs.Joiners.{shown_items};
    ghost use Rattle.ump_ring.specs.Lines.{message_most};
    ghost use Rattle.core_links.specs.Views.{AtPeer, last_in};
    ghost use Rattle.core_links.specs.ListSlots.{list_view, messages_given, messages_collected, messages_uncollected, give_capacity, SameLists, GivesMessage, CollectsMessage};

    /// Gives a message of 1 to 32,832 bytes as a peer's, which the core can take then, or hands it back where as many were
    /// given as the links keep. Takes no memory.
    pub fn give(&mut self, peer: u16, message: Vec<u8>) -> Result<(), Busy>
        requires length { (1 ≤ vec_len message) × (vec_len message ≤ message_most) }
        ensures core { self.new ≡ record self.old { links = self.new.links } }
        ensures ok { OnOk result (GivesMessage self.old.links self.new.links peer message.items) }
        ensures busy { IfErr result (λ back. (back.0 ≡ message) × (length (messages_given self.old.links peer) ≡ give_capacity self.old.links peer)) }
        ensures stays { IfErr result (λ back. AtPeer SameLists list_view peer (λ v w. w ≡ v) self.old.links self.new.links) }
    {
        self.links.give(peer, message)
    }

    /// Collects the oldest message sent to a peer and not yet collected, which `last_collected` then shows, and says whether
    /// there was one. Takes no memory.
    pub fn mark_collected(&mut self, peer: u16) -> bool
        ensures core { self.new ≡ record self.old { links = self.new.links } }
        ensures some { IsTrue result → CollectsMessage self.old.links self.new.links peer (last_in (messages_collected self.new.links peer)) × (messages_uncollected self.old.links peer ≢ []) }
        ensures none { IsFalse result → CollectsMessage self.old.links self.new.links peer None × (messages_uncollected self.old.links peer ≡ []) }
    {
        self.links.mark_collected(peer)
    }

    /// The message that was collected last of those sent to a peer. Takes no memory.
    pub fn last_collected(&self, peer: u16) -> Option<&[u8]>
        ensures { shown_items result ≡ last_in (messages_collected self.now.links peer) }
    {
        self.links.last_collected(peer)
    }
}
