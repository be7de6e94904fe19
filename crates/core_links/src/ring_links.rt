//! Links over rings.

ghost use Rattle.std.specs.Prelude.{◌≤◌, length, vec_len};
ghost use Rattle.std.specs.Prelude.{IsTrue};
ghost use Rattle.core_links.specs.Marks.{TellMoved, TellDue, LieBelow};
ghost use Rattle.core_links.specs.Ends.{AreEmptyEnds};

use crate::bell::Bell;
use crate::links::Links;
use crate::marks::{MARKED, Marks, with_bit};
use seq::Shared;
use std::alloc::{AllocError, Global};
use ump_ring::{Busy, LineFault, Receiver, Sender, beside};

/// The two ring ends that join a core to one peer.
pub struct Link {
    sender: Sender,
    receiver: Receiver,
    /// A line moved, either way, since the last `pump` began.
    moved: bool,
    /// The peer's.
    bell: Bell,
}

// By hand, so that the proofs of its owners have one call and not a drop of each part.
impl Drop for Link {
    fn drop(self) {
        let Link {
            sender: _,
            receiver: _,
            moved: _,
            bell: _,
        } = self;
    }
}

/// The links of a core over rings, each to the peer of its place.
pub struct RingLinks {
    own: u16,
    slots: Vec<Option<Link>>,
    /// No link is to this peer or one above it.
    span: u16,
    marks: Marks,
    bell: Bell,
    /// What the bell counted when it was asked last.
    heard: u64,
    /// Since then all links were looked at, and nothing was there.
    calm: bool,
    /// What tells the core's machine from others: 0 until it is named.
    machine: u64,
    // Peers have numbers of 16 bits.
    ghost most: { vec_len slots ≤ 65535 },
    ghost below: { LieBelow span slots.items },
    ghost moves: { TellMoved marks.moved slots.items },
    ghost dues: { TellDue marks.due slots.items },
    ghost calms: { IsTrue calm → AreEmptyEnds slots.items },
}

// By hand, so that the proofs of its owners have one call and not a drop of each part.
impl Drop for RingLinks {
    fn drop(self) {
        let RingLinks {
            own: _,
            slots: _,
            span: _,
            marks: _,
            bell,
            heard: _,
            calm: _,
            machine: _,
        } = self;
        bell.close();
    }
}

impl RingLinks {
    ghost use Rattle.std.specs.Prelude.{◌≡◌, ◌≢◌, ◌<◌, ◌≤◌, ◌↔◌, ℕ, false, None, Some, IfOk, IsTrue, IsFalse};
    ghost use Rattle.std.specs.Int.{bit_at};
    ghost use mathlib.Core.List.{IsPrefix};
    ghost use Rattle.ump_ring.specs.Joiners.{shown_items};
    ghost use Rattle.core_links.specs.Views.{IsSameView};
    ghost use Rattle.core_links.specs.Flows.{IsExactAt, IsResting, LooksAt, ring_flow};
    ghost use Rattle.core_links.specs.RingSlots.{own_of, places_of, machine_of, with_machine, link_to, last_of, ring_view, SameLinks, AreJoinedLinks};

    /// The links of core `own`, with places for those to so many peers, from core 0 on. It has none yet. The one error is that there is
    /// no memory.
    pub fn new(alloc: Global, own: u16, places: u16) -> Result<RingLinks, AllocError>
        ensures place { IfOk result (λ r. (own_of r ≡ own) × (places_of r ≡ places)) }
        ensures empty { IfOk result (λ r. (p : ℕ) → link_to r p ≡ None) }
        ensures unnamed { IfOk result (λ r. machine_of r ≡ 0) }
    {
        let mut slots = Vec::with_capacity(alloc, usize::from(places))?;
        for _ in 0..places {
            slots.push(None)?;
        }
        Ok(RingLinks {
            own,
            slots,
            span: 0,
            marks: Marks::none(),
            bell: Bell::new(alloc)?,
            heard: 0,
            calm: false,
            machine: 0,
        })
    }

    /// The number of the core's machine.
    pub fn machine(&self) -> u64
        ensures { result ≡ machine_of self.now }
    {
        self.machine
    }

    /// Names the core's machine: its number from now on.
    pub fn name_machine(&mut self, machine: u64)
        ensures { self.new ≡ with_machine machine self.old }
    {
        self.machine = machine;
    }

    /// The peers below `cores` whose cores have ended, as far as their bells say: a bit for each, the least for core 0. No contract says
    /// that a core has ended.
    pub fn closed_below(&self, cores: u16) -> u64
        requires { cores ≤ 64 }
        ensures below { (p : ℕ) → cores ≤ p → bit_at result p ≡ 0 }
        ensures joined { (p : ℕ) → link_to self.now p ≡ None → bit_at result p ≡ 0 }
    {
        let mut closed = 0;
        for peer in 0..cores.min(self.span) {
            if self.has_ended(peer) {
                closed = with_bit(closed, usize::from(peer));
            }
        }
        closed
    }

    /// Whether a peer's core has ended, as far as its bell says.
    fn has_ended(&self, peer: u16) -> bool
        ensures { link_to self.now peer ≡ None → IsFalse result }
    {
        match self.slots.get(usize::from(peer)) {
            Some(Some(link)) => link.bell.is_closed(),
            _ => false,
        }
    }

    /// The core's bell, for a peer: one more owner.
    pub fn bell(&self) -> Result<Bell, AllocError> {
        self.bell.share()
    }

    /// Joins the link to a peer, once, by the sender of one ring and the receiver of another, and with the peer's bell. Takes no memory.
    pub fn join(&mut self, peer: u16, sender: Sender, receiver: Receiver, bell: Bell)
        requires peer { (peer < places_of self.old) × (peer ≢ own_of self.old) }
        requires once { link_to self.old peer ≡ None }
        ensures place { (own_of self.new ≡ own_of self.old) × (places_of self.new ≡ places_of self.old) }
        ensures machine { machine_of self.new ≡ machine_of self.old }
        ensures joined { link_to self.new peer ≡ Some (record { sender = sender; receiver = receiver; moved = false; bell = bell }) }
        ensures others { (p : ℕ) → p ≢ peer → link_to self.new p ≡ link_to self.old p }
    {
        let place = usize::from(peer);
        self.slots[place] = Some(Link {
            sender,
            receiver,
            moved: false,
            bell,
        });
        self.calm = false;
        self.span = self.span.max(peer + 1);
        self.marks.note(place, false, true);
    }

    /// Shows, in a thread with the links of two cores that rings join, that what each took from the other begins what
    /// the other handed over for it. Nothing changes. Takes no memory.
    pub fn beside(&mut self, other: &mut RingLinks)
        requires { AreJoinedLinks self.old other.old }
        ensures links { SameLinks self.old self.new × SameLinks other.old other.new }
        ensures here { (p : ℕ) → IsSameView (ring_view self.old p) (ring_view self.new p) }
        ensures there { (p : ℕ) → IsSameView (ring_view other.old p) (ring_view other.new p) }
        ensures sound { ((ring_view self.new (own_of other.new)).stopped ≡ None) × ((ring_view other.new (own_of self.new)).stopped ≡ None) }
        ensures took { IsPrefix (ring_view self.new (own_of other.new)).taken (ring_view other.new (own_of self.new)).sent }
        ensures gave { IsPrefix (ring_view other.new (own_of self.new)).taken (ring_view self.new (own_of other.new)).sent }
        ensures exact { IsExactAt self.new other.new × IsExactAt other.new self.new }
        ensures still { LooksAt (own_of other.old) self.old self.new × LooksAt (own_of self.old) other.old other.new }
    {
        let (place, back) = (usize::from(other.own), usize::from(self.own));
        self.calm = false;
        other.calm = false;
        match (&mut self.slots[place], &mut other.slots[back]) {
            (Some(link), Some(its)) => link.beside(its),
            _ => unreachable!(),
        }
    }

    /// Whether nothing goes over the link to a peer, as this end sees it, and it takes a message.
    pub fn rests(&self, peer: u16) -> bool
        ensures { IsTrue result ↔ IsResting (ring_view self.now peer) (ring_flow self.now peer) }
    {
        match self.slots.get(usize::from(peer)) {
            Some(Some(link)) => link.rests(),
            _ => false,
        }
    }

    /// The message that was read last from a peer.
    fn last(&self, peer: u16) -> Option<&[u8]>
        ensures { shown_items result ≡ last_of (link_to self.now peer) }
    {
        match self.slots.get(usize::from(peer)) {
            Some(Some(link)) => link.last(),
            _ => None,
        }
    }
}

// The messages of one link.
impl Link {
    ghost use Rattle.std.specs.Prelude.{◌≡◌, ◌≢◌, ◌↔◌, IfOk, IsTrue, IsFalse, None, []};
    ghost use Rattle.ump_ring.specs.Joiners.{shown_items};
    ghost use Rattle.ump_ring.specs.Receivers.{message_last};
    ghost use Rattle.ump_ring.specs.Senders.{sender_capacity};
    ghost use Rattle.core_links.specs.Flows.{FlowsOut, FlowsIn, IsExact, IsLooked, IsResting, link_flow};
    ghost use Rattle.core_links.specs.Views.{first_of, IsSameView, Pulled, GivenUp, HandedOver, HandedBytes, Pumped};
    ghost use mathlib.Core.List.{IsPrefix};
    ghost use Rattle.core_links.specs.RingSlots.{link_view, SameLink, AreJoined};

    fn ready(&self) -> bool
        ensures { result ≡ (link_view self.now).ready }
    {
        self.sender.idle()
    }

    fn rests(&self) -> bool
        ensures { IsTrue result ↔ IsResting (link_view self.now) (link_flow self.now) }
    {
        self.sender.idle() && self.receiver.shown().is_none() && self.receiver.known() == 0
    }

    fn shows(&mut self) -> Result<bool, LineFault>
        ensures link { SameLink self.old self.new }
        ensures pulled { Pulled (link_view self.old) (link_view self.new) result }
        ensures lines { FlowsIn (link_flow self.old) (link_flow self.new) (link_view self.new).kept result }
        ensures kept { IfOk result (λ shows. IsTrue shows ↔ ((link_view self.new).kept ≢ [])) }
    {
        let pulled = self.receiver.pull();
        self.moved = self.moved || self.receiver.moved();
        pulled?;
        Ok(self.receiver.shown().is_some())
    }

    fn shown(&self) -> Option<&[u8]>
        ensures { shown_items result ≡ first_of (link_view self.now).kept }
    {
        self.receiver.shown()
    }

    fn give_up(&mut self) -> bool
        ensures link { SameLink self.old self.new }
        ensures given { GivenUp (link_view self.old) (link_view self.new) }
        ensures lines { link_flow self.new ≡ link_flow self.old }
        ensures some { IsTrue result → (link_view self.old).kept ≢ [] }
        ensures none { IsFalse result → (link_view self.old).kept ≡ [] }
        ensures last { IsTrue result → message_last self.new.receiver ≡ first_of (link_view self.old).kept }
    {
        self.receiver.give_up()
    }

    fn last(&self) -> Option<&[u8]>
        ensures { shown_items result ≡ message_last self.now.receiver }
    {
        self.receiver.last()
    }

    fn send(&mut self, message: Vec<u8>) -> Result<(), Busy>
        requires length { (1 ≤ vec_len message) × (vec_len message ≤ 32832) }
        ensures link { SameLink self.old self.new }
        ensures sent { HandedOver (link_view self.old) (link_view self.new) message result }
        ensures lines { link_flow self.new ≡ link_flow self.old }
    {
        self.sender.offer(message)
    }

    fn send_short(&mut self, message: &[u8]) -> bool
        requires length { (1 ≤ length message.now) × (length message.now ≤ 56) }
        ensures link { SameLink self.old self.new }
        ensures sent { HandedBytes (link_view self.old) (link_view self.new) message.now result }
        ensures lines { link_flow self.new ≡ link_flow self.old }
    {
        self.sender.offer_short(message)
    }

    fn send_shared(&mut self, message: Shared<u8>) -> bool
        requires length { (1 ≤ length message) × (length message ≤ 32832) }
        ensures link { SameLink self.old self.new }
        ensures sent { HandedBytes (link_view self.old) (link_view self.new) message result }
        ensures lines { link_flow self.new ≡ link_flow self.old }
    {
        self.sender.offer_shared(message)
    }

    fn pump(&mut self)
        ensures link { SameLink self.old self.new }
        ensures pumped { Pumped (link_view self.old) (link_view self.new) }
        ensures lines { FlowsOut (link_flow self.old) (link_flow self.new) (link_view self.new).ready }
    {
        self.moved = !self.sender.idle() && self.sender.push_some().lines != 0;
        if self.moved {
            self.bell.ring();
        }
    }

    fn beside(&mut self, other: &mut Link)
        requires { AreJoined self.old other.old }
        ensures links { SameLink self.old self.new × SameLink other.old other.new }
        ensures here { IsSameView (link_view self.old) (link_view self.new) }
        ensures there { IsSameView (link_view other.old) (link_view other.new) }
        ensures sound { ((link_view self.new).stopped ≡ None) × ((link_view other.new).stopped ≡ None) }
        ensures took { IsPrefix (link_view self.new).taken (link_view other.new).sent }
        ensures gave { IsPrefix (link_view other.new).taken (link_view self.new).sent }
        ensures exact_out { IsExact (sender_capacity self.new.sender) (link_view self.new) (link_view other.new) (link_flow self.new) (link_flow other.new) }
        ensures exact_in { IsExact (sender_capacity other.new.sender) (link_view other.new) (link_view self.new) (link_flow other.new) (link_flow self.new) }
        ensures still { IsLooked (link_flow self.old) (link_flow self.new) × IsLooked (link_flow other.old) (link_flow other.new) }
        ensures same_moved { (self.new.moved ≡ self.old.moved) × (other.new.moved ≡ other.old.moved) }
    {
        beside(&mut self.sender, &mut other.receiver);
        beside(&mut other.sender, &mut self.receiver);
    }
}

// What a pump does.
impl RingLinks {
    ghost use Rattle.std.specs.Prelude.{◌≡◌, ◌≢◌, ◌<◌, ℕ, None, slice_index_or};
    ghost use Rattle.core_links.specs.Marks.{TellMoved, TellDue};
    ghost use Rattle.core_links.specs.Pumping.{MovesOn, MovesOnAt};

    /// Moves on each link that is due, and marks what it then has to do. Links to peers with no bit are all due.
    fn pump_due(slots: &mut [Option<Link>], due: u64) -> Marks
        requires { TellDue due slots.old }
        ensures each { (p : ℕ) → MovesOn (slice_index_or slots.old p None) (slice_index_or slots.new p None) }
        ensures moves { TellMoved result.moved slots.new }
        ensures dues { TellDue result.due slots.new }
    {
        let mut marks = Marks::none();
        let mut left = due;
        'bits: while left != 0 {
            let bit = left.trailing_zeros();
            left &= !(1u64 << bit);
            RingLinks::pump_at(slots, bit as usize, &mut marks);
        }
        'others: for place in MARKED..slots.len() {
            RingLinks::pump_at(slots, place, &mut marks);
        }
        marks
    }

    /// Moves on the link to a peer, if there is one, and marks what it then has to do.
    fn pump_at(slots: &mut [Option<Link>], peer: usize, marks: &mut Marks)
        ensures { MovesOnAt peer slots.old slots.new marks.old marks.new }
    {
        if peer >= slots.len() {
            return;
        }
        match &mut slots[peer] {
            None => {}
            Some(link) => {
                link.pump();
                marks.note(peer, link.moved, !link.ready());
            }
        }
    }
}

impl Links for RingLinks {
    ghost use Rattle.std.specs.Prelude.{◌≡◌, ◌≢◌, [], ℕ, IsTrue, IsFalse};
    ghost use Rattle.core_links.specs.Flows.{ring_flow};
    ghost use Rattle.core_links.specs.Views.{first_of, AtPeer, GivenUp};
    ghost use Rattle.core_links.specs.RingSlots.{ring_view, link_to, last_of, SameLinks};
    ghost use Rattle.core_links.specs.RingLaws.{SameLinks-itself, SameLinks-along};

    ghost view = { ring_view };

    ghost same = { SameLinks };

    ghost flow = { ring_flow };

    fn ready(&self, peer: u16) -> bool {
        match self.slots.get(usize::from(peer)) {
            Some(Some(link)) => link.ready(),
            _ => false,
        }
    }

    fn moved(&self, peer: u16) -> bool {
        match self.slots.get(usize::from(peer)) {
            Some(Some(link)) => link.moved,
            _ => false,
        }
    }

    fn span(&self) -> u16 {
        self.span
    }

    fn moved_below(&self, cores: u16) -> u64 {
        self.marks.moved_below(cores)
    }

    fn is_calm(&mut self) -> bool {
        let count = self.bell.count();
        self.calm = self.calm && count == self.heard;
        self.heard = count;
        self.calm
    }

    fn calm_down(&mut self, cores: u16) {
        self.calm = self.calm || self.span <= cores;
    }

    fn shows(&mut self, peer: u16) -> Result<bool, LineFault> {
        let place = usize::from(peer);
        if place >= self.slots.len() {
            return Ok(false);
        }
        match &mut self.slots[place] {
            None => Ok(false),
            Some(link) => {
                self.calm = false;
                let shows = link.shows();
                self.marks.note(place, link.moved, false);
                shows
            }
        }
    }

    fn shown(&self, peer: u16) -> Option<&[u8]> {
        match self.slots.get(usize::from(peer)) {
            Some(Some(link)) => link.shown(),
            _ => None,
        }
    }

    fn give_up(&mut self, peer: u16) -> bool
        ensures given { AtPeer SameLinks ring_view peer GivenUp self.old self.new }
        ensures lines { (p : ℕ) → ring_flow self.new p ≡ ring_flow self.old p }
        ensures some { IsTrue result → (ring_view self.old peer).kept ≢ [] }
        ensures none { IsFalse result → (ring_view self.old peer).kept ≡ [] }
        ensures last { IsTrue result → last_of (link_to self.new peer) ≡ first_of (ring_view self.old peer).kept }
    {
        let place = usize::from(peer);
        if place >= self.slots.len() {
            return false;
        }
        match &mut self.slots[place] {
            None => false,
            Some(link) => link.give_up(),
        }
    }

    fn take(&mut self, peer: u16) -> Result<Option<&[u8]>, LineFault> {
        self.shows(peer)?;
        if !self.give_up(peer) {
            return Ok(None);
        }
        Ok(self.last(peer))
    }

    fn send(&mut self, peer: u16, message: Vec<u8>) -> Result<(), Busy> {
        let place = usize::from(peer);
        if place >= self.slots.len() {
            return Err(Busy(message));
        }
        match &mut self.slots[place] {
            None => Err(Busy(message)),
            Some(link) => {
                self.marks.note(place, false, true);
                link.send(message)
            }
        }
    }

    fn send_short(&mut self, peer: u16, message: &[u8]) -> bool {
        let place = usize::from(peer);
        if place >= self.slots.len() {
            return false;
        }
        match &mut self.slots[place] {
            None => false,
            Some(link) => {
                self.marks.note(place, false, true);
                link.send_short(message)
            }
        }
    }

    fn send_shared(&mut self, peer: u16, message: Shared<u8>) -> bool {
        let place = usize::from(peer);
        if place >= self.slots.len() {
            return false;
        }
        match &mut self.slots[place] {
            None => false,
            Some(link) => {
                self.marks.note(place, false, true);
                link.send_shared(message)
            }
        }
    }

    fn pump(&mut self) {
        self.marks = RingLinks::pump_due(&mut self.slots, self.marks.due);
    }

    ghost same_itself = { SameLinks-itself };

    ghost same_along = { SameLinks-along };
}
