//! Cores over rings, of which two are in one thread.

ghost use Rattle.std.specs.Prelude.{◌↔◌, IsTrue};
ghost use Rattle.core_links.specs.Flows.{ring_flow};
ghost use Rattle.core_links.specs.RingSlots.{ring_view};
ghost use Rattle.core_loop.specs.Resting.{AreResting};

use crate::part::Part;
use crate::running::Core;
use core_links::{Links, RingLinks};

impl Core<RingLinks> {
    ghost use Rattle.std.specs.Prelude.{◌≡◌, ◌≤◌, ◌↔◌, ℕ, IsTrue, None};
    ghost use Rattle.std.specs.Int.{bit_at};
    ghost use mathlib.Core.List.{IsPrefix};
    ghost use Rattle.core_links.specs.Views.{IsSameView};
    ghost use Rattle.core_links.specs.Flows.{IsExactAt, LooksAt, ring_flow};
    ghost use Rattle.core_links.specs.RingSlots.{ring_view, own_of, machine_of, with_machine, link_to, SameLinks, AreJoinedLinks};
    ghost use Rattle.core_loop.specs.Resting.{AreResting};
    ghost use Rattle.core_loop.specs.Awaiting.{WaitsFor};

    /// Shows that what each core took from the other begins what the other sent to it. Nothing changes. Takes no memory.
    pub fn beside(&mut self, other: &mut Core<RingLinks>)
        requires { AreJoinedLinks self.old.links other.old.links }
        ensures core { self.new ≡ record self.old { links = self.new.links } }
        ensures other { other.new ≡ record other.old { links = other.new.links } }
        ensures links { SameLinks self.old.links self.new.links × SameLinks other.old.links other.new.links }
        ensures here { (p : ℕ) → IsSameView (ring_view self.old.links p) (ring_view self.new.links p) }
        ensures there { (p : ℕ) → IsSameView (ring_view other.old.links p) (ring_view other.new.links p) }
        ensures took { IsPrefix (ring_view self.new.links (own_of other.new.links)).taken (ring_view other.new.links (own_of self.new.links)).sent }
        ensures gave { IsPrefix (ring_view other.new.links (own_of self.new.links)).taken (ring_view self.new.links (own_of other.new.links)).sent }
        ensures exact { IsExactAt self.new.links other.new.links × IsExactAt other.new.links self.new.links }
        ensures still { LooksAt (own_of other.old.links) self.old.links self.new.links × LooksAt (own_of self.old.links) other.old.links other.new.links }
    {
        self.links.beside(&mut other.links);
    }

    /// How many cores its machine has.
    pub fn count(&self) -> u16
        ensures { result ≡ self.now.cores }
    {
        self.cores
    }

    /// The number of its machine: 0 until it is named.
    pub fn machine(&self) -> u64
        ensures { result ≡ machine_of self.now.links }
    {
        self.links.machine()
    }

    /// Names its machine: the number that tells it from others.
    pub fn name_machine(&mut self, machine: u64)
        ensures { self.new ≡ record self.old { links = with_machine machine self.old.links } }
    {
        self.links.name_machine(machine);
    }

    /// The cores that have ended, of those that it has a link to, as far as it knows: a bit for each, the least for core 0. No contract
    /// says that a core has ended.
    pub fn closed(&self) -> u64
        ensures below { (p : ℕ) → self.now.cores ≤ p → bit_at result p ≡ 0 }
        ensures joined { (p : ℕ) → link_to self.now.links p ≡ None → bit_at result p ≡ 0 }
    {
        self.links.closed_below(self.cores)
    }

    /// Whether it is core 0 and waits for an answer of this core, of which its link shows no message.
    pub fn waits_for(&self, peer: u16) -> bool
        ensures { IsTrue result ↔ WaitsFor self.now.part (ring_view self.now.links peer) peer }
    {
        match &*self.part.inner {
            Part::Core0(core) => {
                core.coordinator.awaits(peer) && self.links.shown(peer).is_none()
            }
            Part::OtherCore(_) => false,
        }
    }

    /// Whether nothing goes over its links, as this core sees it, and each takes a message.
    pub fn links_rest(&self) -> bool
        ensures { IsTrue result ↔ AreResting self.now.number self.now.cores (ring_view self.now.links) (ring_flow self.now.links) }
    {
        if self.number == 0 {
            all_rest(&self.links, self.cores)
        } else {
            self.links.rests(0)
        }
    }
}

// Whether nothing goes over the links of core 0, among so many cores.
fn all_rest(links: &RingLinks, cores: u16) -> bool
    ensures { IsTrue result ↔ AreResting 0 cores (ring_view links.now) (ring_flow links.now) }
{
    for peer in 1..cores {
        if !links.rests(peer) {
            return false;
        }
    }
    true
}
