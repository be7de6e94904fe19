//! Which links a pump has something to do for, and over which a line moved.

ghost use Rattle.std.specs.Prelude.{◌≡◌, ◌≢◌, ◌<◌, ◌≤◌, ℕ, Bool, cond};
ghost use Rattle.std.specs.Int.{bit_at};
ghost use Rattle.core_links.specs.Waking.{bits_below};
ghost use Rattle.core_links.specs.Notes.{Notes};

/// So many peers have a bit: those with the least numbers.
pub(crate) const MARKED: usize = 64;

/// Two bits for each of the first 64 peers.
#[derive(Clone, Copy)]
pub(crate) struct Marks {
    /// A line moved over the link, either way, since the last `pump` began.
    pub(crate) moved: u64,
    /// The next `pump` has something to do for the link.
    pub(crate) due: u64,
}

impl Marks {
    /// No bit is set.
    pub(crate) fn none() -> Marks
        ensures { (result.moved ≡ 0) × (result.due ≡ 0) }
    {
        Marks { moved: 0, due: 0 }
    }

    /// Notes what a peer's link has for the next `pump` to do: to forget that a line moved, or to send what waits.
    pub(crate) fn note(&mut self, peer: usize, moved: bool, waits: bool)
        ensures { Notes peer moved waits self.old self.new }
    {
        if moved {
            self.moved = with_bit(self.moved, peer);
        }
        if moved || waits {
            self.due = with_bit(self.due, peer);
        }
    }

    /// A bit for each peer below `cores` over whose link a line moved, the least for core 0.
    pub(crate) fn moved_below(self, cores: u16) -> u64
        requires { cores ≤ 64 }
        ensures { (has : ℕ → Bool) → ((p : ℕ) → p < 64 → bit_at self.moved p ≡ cond (has p) 1 0) → result ≡ bits_below cores has }
    {
        if cores < 64 {
            self.moved % (1u64 << cores)
        } else {
            self.moved
        }
    }
}

/// The bits with that of a peer set, if it has one.
pub(crate) fn with_bit(bits: u64, peer: usize) -> u64
    ensures here { peer < 64 → bit_at result peer ≡ 1 }
    ensures others { (p : ℕ) → p ≢ peer → bit_at result p ≡ bit_at bits p }
{
    if peer < MARKED {
        bits | 1u64 << peer
    } else {
        bits
    }
}
