//! Links that keep lists, for cores that a caller drives by hand.

ghost use Rattle.std.specs.Prelude.{◌≤◌, vec_len};

use crate::links::Links;
use crate::message_list::MessageList;
use seq::Shared;
use std::alloc::{AllocError, Global};
use ump_ring::{Busy, LineFault};

/// What a core and one peer hand each other.
pub struct ListLink {
    /// What was sent to the peer, as far as it was collected.
    sent: MessageList,
    /// What was given as the peer's, as far as it was taken.
    given: MessageList,
}

// By hand, so that the proofs of its owners have one call and not a drop of each part.
impl Drop for ListLink {
    fn drop(self) {
        let ListLink { sent: _, given: _ } = self;
    }
}

/// The links of a core that keep each message sent and each message given, at most `capacity` per peer and direction over
/// their life.
pub struct ListLinks {
    slots: Vec<Option<ListLink>>,
    // Peers have numbers of 16 bits.
    ghost most: { vec_len slots ≤ 65535 },
}

// By hand, so that the proofs of its owners have one call and not a drop of each part.
impl Drop for ListLinks {
    fn drop(self) {
        let ListLinks { slots: _ } = self;
    }
}

impl ListLink {
    ghost use Rattle.std.specs.Prelude.{◌≡◌, [], IfOk};
    ghost use Rattle.core_links.specs.Views.{IsFresh};
    ghost use Rattle.core_links.specs.MessageLists.{read_of, capacity_of};
    ghost use Rattle.core_links.specs.ListSlots.{list_link_view};

    fn new(alloc: Global, capacity: usize) -> Result<ListLink, AllocError>
        ensures fresh { IfOk result (λ k. IsFresh (list_link_view k) × (read_of k.sent ≡ [])) }
        ensures capacity { IfOk result (λ k. (capacity_of k.sent ≡ capacity) × (capacity_of k.given ≡ capacity)) }
    {
        Ok(ListLink {
            sent: MessageList::new(alloc, capacity)?,
            given: MessageList::new(alloc, capacity)?,
        })
    }
}

impl ListLinks {
    ghost use Rattle.std.specs.Prelude.{◌≡◌, ◌≢◌, ◌<◌, ◌⊎◌, ℕ, length, IfOk, OnOk, IfErr, IsTrue, IsFalse, None, Some, []};
    ghost use Rattle.std.specs.Borrow.{sem};
    ghost use Rattle.ump_ring.specs.Joiners.{shown_items};
    ghost use Rattle.core_links.specs.Views.{last_in, AtPeer, IsFresh};
    ghost use Rattle.core_links.specs.ListSlots.{list_to, list_view, messages_given, messages_collected, messages_uncollected, send_capacity, give_capacity, SameLists, GivesMessage, CollectsMessage};
    ghost use Rattle.core_links.specs.ListLending.{LendsCollected};

    /// The links of core `own` to each other one of `cores` cores. The room for `capacity` messages sent to each peer, and
    /// for as many given as its, is reserved here. The one error is that there is no memory.
    pub fn new(
        alloc: Global,
        own: u16,
        cores: u16,
        capacity: usize,
    ) -> Result<ListLinks, AllocError>
        requires { own < cores }
        ensures fresh { IfOk result (λ l. (p : ℕ) → IsFresh (list_view l p) × (messages_collected l p ≡ [])) }
        ensures capacity { IfOk result (λ l. (p : ℕ) → p < cores → p ≢ own → (send_capacity l p ≡ capacity) × (give_capacity l p ≡ capacity)) }
        ensures none { IfOk result (λ l. (p : ℕ) → (cores ≤ p) ⊎ (p ≡ own) → list_to l p ≡ None) }
    {
        let mut slots = Vec::with_capacity(alloc, usize::from(cores))?;
        for peer in 0..cores {
            slots.push(if peer == own {
                None
            } else {
                Some(ListLink::new(alloc, capacity)?)
            })?;
        }
        Ok(ListLinks { slots })
    }

    /// Gives a message of 1 to 32,832 bytes as a peer's, which the core can take then, or hands it back where `capacity`
    /// were given. A core that is no peer gives none. Takes no memory.
    pub fn give(&mut self, peer: u16, message: Vec<u8>) -> Result<(), Busy>
        requires length { (1 ≤ vec_len message) × (vec_len message ≤ 32832) }
        ensures ok { OnOk result (GivesMessage self.old self.new peer message.items) }
        ensures busy { IfErr result (λ back. (back.0 ≡ message) × (length (messages_given self.old peer) ≡ give_capacity self.old peer)) }
        ensures stays { IfErr result (λ back. AtPeer SameLists list_view peer (λ v w. w ≡ v) self.old self.new) }
    {
        let place = usize::from(peer);
        if place >= self.slots.len() {
            return Err(Busy(message));
        }
        match &mut self.slots[place] {
            None => Err(Busy(message)),
            Some(link) => link.given.put(message),
        }
    }

    /// Lends the oldest message sent to a peer and not yet collected, and collects it. Takes no memory.
    pub fn collect(&mut self, peer: u16) -> Option<&[u8]>
        ensures* collected { sem 𝓛 (LendsCollected self.entry peer result) }
    {
        if !self.mark_collected(peer) {
            return None;
        }
        self.last_collected(peer)
    }

    /// Collects the oldest message sent to a peer and not yet collected, which `last_collected` then shows, and says
    /// whether there was one. These two are `collect` in two steps, for a type that holds the links and lends the message
    /// out of itself. Takes no memory.
    pub fn mark_collected(&mut self, peer: u16) -> bool
        ensures some { IsTrue result → CollectsMessage self.old self.new peer (last_in (messages_collected self.new peer)) × (messages_uncollected self.old peer ≢ []) }
        ensures none { IsFalse result → CollectsMessage self.old self.new peer None × (messages_uncollected self.old peer ≡ []) }
    {
        let place = usize::from(peer);
        if place >= self.slots.len() {
            return false;
        }
        match &mut self.slots[place] {
            None => false,
            Some(link) => link.sent.advance(),
        }
    }

    /// The message that was collected last of those sent to a peer. Takes no memory.
    pub fn last_collected(&self, peer: u16) -> Option<&[u8]>
        ensures { shown_items result ≡ last_in (messages_collected self.now peer) }
    {
        match self.slots.get(usize::from(peer)) {
            Some(Some(link)) => link.sent.last(),
            _ => None,
        }
    }

    /// The message that was taken last from a peer.
    fn last(&self, peer: u16) -> Option<&[u8]>
        ensures { shown_items result ≡ last_in (list_view self.now peer).taken }
    {
        match self.slots.get(usize::from(peer)) {
            Some(Some(link)) => link.given.last(),
            _ => None,
        }
    }
}

impl Links for ListLinks {
    ghost use Rattle.std.specs.Prelude.{◌≡◌, ◌≢◌, [], ℕ, IsTrue, IsFalse};
    ghost use Rattle.core_links.specs.Flows.{list_flow};
    ghost use Rattle.core_links.specs.Views.{first_of, last_in, AtPeer, GivenUp};
    ghost use Rattle.core_links.specs.ListSlots.{list_view, SameLists};
    ghost use Rattle.core_links.specs.ListLaws.{SameLists-itself, SameLists-along};

    ghost view = { list_view };

    ghost same = { SameLists };

    ghost flow = { list_flow };

    fn ready(&self, peer: u16) -> bool {
        match self.slots.get(usize::from(peer)) {
            Some(Some(link)) => link.sent.has_room(),
            _ => false,
        }
    }

    /// Lists have no lines.
    fn moved(&self, _peer: u16) -> bool {
        false
    }

    fn span(&self) -> u16 {
        self.slots.len() as u16
    }

    fn moved_below(&self, _cores: u16) -> u64 {
        0
    }

    fn is_calm(&mut self) -> bool {
        false
    }

    fn calm_down(&mut self, _cores: u16) {}

    fn shows(&mut self, peer: u16) -> Result<bool, LineFault> {
        Ok(self.shown(peer).is_some())
    }

    fn shown(&self, peer: u16) -> Option<&[u8]> {
        match self.slots.get(usize::from(peer)) {
            Some(Some(link)) => link.given.first(),
            _ => None,
        }
    }

    fn give_up(&mut self, peer: u16) -> bool
        ensures given { AtPeer SameLists list_view peer GivenUp self.old self.new }
        ensures lines { (p : ℕ) → list_flow self.new p ≡ list_flow self.old p }
        ensures some { IsTrue result → (list_view self.old peer).kept ≢ [] }
        ensures none { IsFalse result → (list_view self.old peer).kept ≡ [] }
        ensures last { IsTrue result → last_in (list_view self.new peer).taken ≡ first_of (list_view self.old peer).kept }
    {
        let place = usize::from(peer);
        if place >= self.slots.len() {
            return false;
        }
        match &mut self.slots[place] {
            None => false,
            Some(link) => link.given.advance(),
        }
    }

    fn take(&mut self, peer: u16) -> Result<Option<&[u8]>, LineFault> {
        if !self.give_up(peer) {
            return Ok(None);
        }
        Ok(self.last(peer))
    }

    fn send(&mut self, peer: u16, message: Vec<u8>) -> Result<(), Busy> {
        let place = usize::from(peer);
        if place >= self.slots.len() {
            return Err(Busy(message));
        }
        match &mut self.slots[place] {
            None => Err(Busy(message)),
            Some(link) => link.sent.put(message),
        }
    }

    fn send_short(&mut self, peer: u16, message: &[u8]) -> bool {
        let place = usize::from(peer);
        if place >= self.slots.len() {
            return false;
        }
        match &mut self.slots[place] {
            None => false,
            Some(link) => link.sent.put_short(message),
        }
    }

    fn send_shared(&mut self, peer: u16, message: Shared<u8>) -> bool {
        let place = usize::from(peer);
        if place >= self.slots.len() {
            return false;
        }
        match &mut self.slots[place] {
            None => false,
            Some(link) => link.sent.put_shared(message),
        }
    }

    fn pump(&mut self) {}

    ghost same_itself = { SameLists-itself };

    ghost same_along = { SameLists-along };
}
