//! A law of rings, the contract of a function that does nothing.

ghost use Rattle.std.specs.Prelude.{◌≡◌, ◌≤◌, ℕ, Bool, true, false};
ghost use Rattle.core_links.specs.Flows.{Flow, AreExact, IsStill};

/// Where no line moves though the sender pushed while it knew of room, and the receiver received while it knew of lines, nothing is in the ring and
/// nothing waits to go out.
pub fn still_rings_are_empty()
    ensures { (capacity : ℕ) (s s' r r' : Flow) (ready : Bool) → 1 ≤ capacity → AreExact capacity s r → IsStill s s' → IsStill r r' → (ready ≡ false → s'.room ≡ 0) → r'.known ≡ 0 →
        (s'.out ≡ r'.come) × (ready ≡ true) }
{}
