//! Packets in hexadecimal digits.

ghost use Rattle.std.specs.Prelude.{◌≡◌, ◌/◌, ◌<◌, length, Ok, IsErr, unwrap_or};
ghost use Rattle.std.specs.Bool.{MatchBool};
ghost use Rattle.hex.specs.Hex.{decode_of, hex_digit_value};

/// What stands for a byte that is no digit.
const NO_DIGIT: u8 = 255;

/// The value of a hexadecimal digit of either case, or `NO_DIGIT`.
#[inline(always)]
fn digit_value(digit: u8) -> u8
    ensures { result ≡ unwrap_or (hex_digit_value digit) 255 }
{
    let number = digit.wrapping_sub(b'0');
    let upper = digit.wrapping_sub(b'A');
    let lower = digit.wrapping_sub(b'a');
    if number < 10 {
        number
    } else if upper < 6 {
        upper + 10
    } else if lower < 6 {
        lower + 10
    } else {
        NO_DIGIT
    }
}

/// Writes the bytes that a line of digits spells, and says whether it spells any; where it doesn't, what is written means
/// nothing.
///
/// It looks at each digit and asks at the end whether all were digits: a loop without a way out in its middle, which the
/// compiler turns into vector instructions. A pair is read as one number, since single digits would be read one by one.
pub fn decode(line: &[u8], packet: &mut [u8]) -> bool
    requires { length packet.old ≡ length line.now / 2 }
    ensures { MatchBool result (decode_of line.now ≡ Ok packet.new) (IsErr (decode_of line.now)) }
{
    if line.len() % 2 != 0 {
        return false;
    }
    let (pairs, _) = line.as_chunks::<2>();
    let mut most = 0u8;
    'bytes: for i in 0..packet.len() {
        let pair = u16::from_le_bytes(pairs[i]);
        let high = digit_value((pair % 256) as u8);
        let low = digit_value((pair / 256) as u8);
        most = most.max(high).max(low);
        packet[i] = high.wrapping_mul(16).wrapping_add(low);
    }
    most != NO_DIGIT
}
