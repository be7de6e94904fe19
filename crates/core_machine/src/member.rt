//! The cores of a machine, however each is kept.

ghost use Rattle.std.specs.Prelude.{IfNone, IfSome};
ghost use Rattle.core_machine.specs.Rounds.{Keeps, GoesOn, Halts};

use crate::halt::{Halt, halt_of, recorded_halt_of};
use crate::recorded::Recorded;
use core_loop::{Core, RingLinks};

/// A core of a machine, however it is kept: by itself, in a box, or with the list of what it did.
pub trait Member {
    ghost use Rattle.std.specs.Prelude.{◌≡◌, ℕ, IfNone, IfSome};
    ghost use mathlib.Core.List.{IsPrefix};
    ghost use Rattle.core_links.specs.Views.{IsSameView};
    ghost use Rattle.core_links.specs.Flows.{IsExactAt, LooksAt};
    ghost use Rattle.core_links.specs.RingSlots.{ring_view, own_of, SameLinks, AreJoinedLinks};
    ghost use Rattle.core_machine.specs.Machines.{RingCore};
    ghost use Rattle.core_machine.specs.Rounds.{Keeps, GoesOn, Halts};

    /// The core.
    ghost core: { Self → RingCore };

    /// That the core keeps a list of its events, for which memory may be refused.
    ghost lists: { Type 0 };

    /// The core.
    fn core(&self) -> &Core<RingLinks>
        ensures { result.now ≡ core self.now };

    /// One turn, which receives no packet, and why it halted the core, if it did.
    fn turn_once(&mut self) -> Option<Halt>
        ensures keeps { Keeps (core self.old) (core self.new) }
        ensures none { IfNone result (GoesOn (core self.old) (core self.new)) }
        ensures some { IfSome result (λ halt. Halts lists halt (core self.new)) };

    /// Shows that what each core took from the other begins what the other sent to it. Nothing changes. Takes no
    /// memory.
    fn beside(&mut self, other: &mut Self)
        requires { AreJoinedLinks (core self.old).links (core other.old).links }
        ensures core { core self.new ≡ record (core self.old) { links = (core self.new).links } }
        ensures other { core other.new ≡ record (core other.old) { links = (core other.new).links } }
        ensures links { SameLinks (core self.old).links (core self.new).links × SameLinks (core other.old).links (core other.new).links }
        ensures here { (p : ℕ) → IsSameView (ring_view (core self.old).links p) (ring_view (core self.new).links p) }
        ensures there { (p : ℕ) → IsSameView (ring_view (core other.old).links p) (ring_view (core other.new).links p) }
        ensures took { IsPrefix (ring_view (core self.new).links (own_of (core other.new).links)).taken (ring_view (core other.new).links (own_of (core self.new).links)).sent }
        ensures gave { IsPrefix (ring_view (core other.new).links (own_of (core self.new).links)).taken (ring_view (core self.new).links (own_of (core other.new).links)).sent }
        ensures exact { IsExactAt (core self.new).links (core other.new).links × IsExactAt (core other.new).links (core self.new).links }
        ensures still { LooksAt (own_of (core other.old).links) (core self.old).links (core self.new).links × LooksAt (own_of (core self.old).links) (core other.old).links (core other.new).links };
}

impl Member for Core<RingLinks> {
    ghost core = { λ c. c };

    ghost lists = { ⊥ };

    fn core(&self) -> &Core<RingLinks> {
        self
    }

    fn turn_once(&mut self) -> Option<Halt> {
        turn(self)
    }

    fn beside(&mut self, other: &mut Core<RingLinks>) {
        Core::beside(self, other);
    }
}

impl Member for Box<Core<RingLinks>> {
    ghost core = { λ b. b.value };

    ghost lists = { ⊥ };

    fn core(&self) -> &Core<RingLinks> {
        &**self
    }

    fn turn_once(&mut self) -> Option<Halt> {
        turn(&mut **self)
    }

    fn beside(&mut self, other: &mut Box<Core<RingLinks>>) {
        Core::beside(&mut **self, &mut **other);
    }
}

impl Member for Recorded<RingLinks> {
    ghost core = { λ r. r };

    ghost lists = { Unit {0} };

    fn core(&self) -> &Core<RingLinks> {
        Recorded::core(self)
    }

    fn turn_once(&mut self) -> Option<Halt> {
        recorded_halt_of(self.turn(false))
    }

    fn beside(&mut self, other: &mut Recorded<RingLinks>) {
        Recorded::beside(self, other);
    }
}

/// One turn, which receives no packet, and why it halted its core, if it did.
fn turn(core: &mut Core<RingLinks>) -> Option<Halt>
    ensures keeps { Keeps core.old core.new }
    ensures none { IfNone result (GoesOn core.old core.new) }
    ensures some { IfSome result (λ halt. Halts ⊥ halt core.new) }
{
    halt_of(core.turn(false))
}
