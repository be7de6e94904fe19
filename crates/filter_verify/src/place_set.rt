//! Sets of places of a program.

ghost use Rattle.std.specs.Prelude.{◌≡◌, ℕ, ◌<◌, ◌⊎◌, ◌↔◌, IsTrue};
ghost use Rattle.bpf_insn.specs.declared.insn.TheConstants.{MAX_INSNS};
ghost use Rattle.filter_verify.specs.Places.{HasPlace};

use std::marker::Model;

/// A set of places below 4,096, a bit for each.
pub struct PlaceSet {
    bits: [u64; 64],
}

impl Drop for PlaceSet {
    fn drop(self) {
        let PlaceSet { bits: _ } = self;
    }
}

impl Model for PlaceSet {
    ghost use Rattle.std.specs.Prelude.{◌≡◌, ℕ, List, length};

    ghost Value = { List ℕ };

    ghost view = { λ set. set.bits };

    ghost invariant = { λ set. length set.bits ≡ 64 };
}

impl PlaceSet {
    /// No place.
    pub fn empty() -> PlaceSet
        ensures { (place : ℕ) → HasPlace result place → ⊥ }
    {
        PlaceSet { bits: [0; 64] }
    }

    /// Whether the set has the place.
    pub fn contains(&self, place: usize) -> bool
        requires { place < MAX_INSNS }
        ensures { IsTrue result ↔ HasPlace self.now place }
    {
        (self.bits[place / 64] >> (place % 64)) & 1 == 1
    }

    /// Puts one more place into the set.
    pub fn insert(&mut self, place: usize)
        requires { place < MAX_INSNS }
        ensures { (other : ℕ) → HasPlace self.new other ↔ (HasPlace self.old other ⊎ (other ≡ place)) }
    {
        self.bits[place / 64] |= 1 << (place % 64);
    }
}
