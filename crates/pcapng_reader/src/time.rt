//! When a packet was seen.

ghost use Rattle.std.specs.Prelude.{◌≡◌, ◌<◌, ◌^◌, ◌≤◌, ◌*◌, ◌/◌, ◌%◌, MatchOption, ℕ};
ghost use Rattle.pcapng_reader.specs.Times.{parts_of, stamp_of};

/// The most k for which 10^k fits.
const MOST_TENTHS: u8 = 38;

/// From this resolution on, units are powers of two.
const POWERS_OF_TWO: u8 = 128;

const NANOSECONDS: u128 = 1_000_000_000;

/// When a packet was seen, as its block and its interface say it.
#[derive(Clone, Copy, Debug, PartialEq, Eq)]
pub struct Time {
    /// How many units of the resolution.
    pub units: u64,
    /// The resolution: 10^-k seconds for a k below 128, and 2^-k seconds for 128 + k.
    pub resolution: u8,
    /// Seconds to be added.
    pub offset: i64,
}

/// A time in seconds and nanoseconds since the beginning of 1970.
#[derive(Clone, Copy, Debug, PartialEq, Eq)]
pub struct Stamp {
    /// Whole seconds. A sum with the interface's offset that an `i64` can't have is the nearest that it can.
    pub seconds: i64,
    /// Nanoseconds after these, rounded down: below 1,000,000,000.
    pub nanoseconds: u32,
}

impl Time {
    /// The time in seconds and nanoseconds.
    #[tactic(auto, unfolding(crate::specs::Times::stamp_of))]
    pub fn stamp(self) -> Stamp
        ensures { result ≡ stamp_of self }
    {
        let (seconds, nanoseconds) = split(self.units, parts(self.resolution));
        Stamp {
            seconds: self.offset.saturating_add_unsigned(seconds),
            nanoseconds,
        }
    }
}

/// How many units a second has, where they are few enough that a time isn't 0.
fn parts(resolution: u8) -> Option<u128>
    ensures { MatchOption result (2 ^ 94 ≤ parts_of resolution) (λ parts. parts ≡ parts_of resolution) }
{
    if resolution >= POWERS_OF_TWO {
        Some(2u128.pow(u32::from(resolution - POWERS_OF_TWO)))
    } else if resolution <= MOST_TENTHS {
        Some(10u128.pow(u32::from(resolution)))
    } else {
        None
    }
}

/// Units as seconds and nanoseconds.
fn split(units: u64, parts: Option<u128>) -> (u64, u32)
    ensures { (n : ℕ) → MatchOption parts (2 ^ 94 ≤ n) (λ parts. (parts ≡ n) × (0 < n)) → (result.0 ≡ units / n) × (result.1 ≡ units % n * 1000000000 / n) }
{
    match parts {
        None => (0, 0),
        Some(0) => (0, 0),
        Some(parts) => {
            let units = u128::from(units);
            let nanoseconds = units % parts * NANOSECONDS / parts;
            ((units / parts) as u64, nanoseconds as u32)
        }
    }
}
