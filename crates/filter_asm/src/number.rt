//! Numbers.

ghost use Rattle.std.specs.Prelude.{◌≡◌, ◌≤◌, ◌<◌, ◌&&◌, if◌then◌else◌};
ghost use Rattle.filter_asm.specs.Number as spec;
ghost use Rattle.filter_asm.specs.ShortNumber.{below_2_32};

/// A number as it is written: its digit token, after a `-` or not.
#[derive(Clone, Copy)]
pub(crate) struct Numeral<'a> {
    pub negative: bool,
    pub digits: &'a [u8],
}

impl<'a> Numeral<'a> {
    /// The value, where it is a number in range.
    #[tactic(auto, unfolding(crate::specs::Number::number))]
    pub(crate) fn value(self) -> Option<u32>
        ensures { result ≡ spec.number self.entry.negative self.entry.digits.now }
    {
        let magnitude = magnitude(self.digits)?;
        if self.negative {
            (magnitude <= 1 << 31).then_some(magnitude.wrapping_neg())
        } else {
            Some(magnitude)
        }
    }
}

/// The number that a digit token writes, where it is below 2^32.
#[tactic(auto, unfolding(crate::specs::Number::magnitude))]
fn magnitude(token: &[u8]) -> Option<u32>
    ensures { result ≡ below_2_32 (spec.magnitude token.now) }
{
    if token.starts_with(b"0x") && token.len() > 2 {
        return in_base(&token[2..], 16);
    }
    if token.len() > 1 && token[0] == b'0' {
        return None;
    }
    in_base(token, 10)
}

/// The number that the digits write in a base, where all are digits and it is below 2^32.
fn in_base(digits: &[u8], base: u32) -> Option<u32>
    requires low { 2 ≤ base }
    requires high { base ≤ 16 }
    ensures { result ≡ below_2_32 (spec.in_base base digits.now) }
{
    let mut value = 0u32;
    'digits: for byte in digits {
        let digit = char::from(*byte).to_digit(base)?;
        let next = u64::from(value) * u64::from(base) + u64::from(digit);
        if next > u64::from(u32::MAX) {
            return None;
        }
        value = next as u32;
    }
    Some(value)
}
