//! Numbers in decimal digits.

ghost use Rattle.std.specs.Prelude.{◌≡◌, ℕ, min, Some, None, MatchOption};
ghost use Rattle.bpf_insn.specs.Texts.{number_of};

/// More than any number of the format: what greater numbers are read as.
pub const HUGE: u64 = 4_294_967_296;

/// The number that a word of digits writes, or `HUGE` where that is less.
pub fn number(word: &[u8]) -> Option<u64>
    ensures { MatchOption result (number_of word.now ≡ None)
        (λ n. (m : ℕ) × (number_of word.now ≡ Some m) × (n ≡ min m HUGE)) }
{
    if word.is_empty() {
        return None;
    }
    let mut value = 0;
    for digit in word {
        if !digit.is_ascii_digit() {
            return None;
        }
        value = (value * 10 + u64::from(*digit - b'0')).min(HUGE);
    }
    Some(value)
}
