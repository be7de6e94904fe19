//! Numbers.

ghost use Rattle.std.specs.Prelude.{◌≡◌, ◌<◌, ◌≤◌, IfSome};
ghost use Rattle.std.specs.List.{list_all};
ghost use Rattle.std.specs.Char.{is_ascii_digit, is_ascii_hexdigit};
ghost use Rattle.expr_words.specs.Number as spec;

use crate::fault::WordFaultKind;

/// The number that the digits write in a base, where all are digits and it is below 2^32.
fn in_base(base: u32, digits: &[u8]) -> Option<u32>
    requires low { 2 ≤ base }
    requires high { base ≤ 16 }
    ensures { result ≡ spec.in_base base digits.now }
{
    let mut value = 0u32;
    'digits: for byte in digits {
        let digit = char::from(*byte).to_digit(base)?;
        let next = u64::from(value) * u64::from(base) + u64::from(digit);
        if next > u64::from(u32::MAX) {
            return None;
        }
        value = next as u32;
    }
    Some(value)
}

fn are_digits(text: &[u8]) -> bool
    ensures { result ≡ list_all is_ascii_digit text.now }
{
    text.iter().all(|b| b.is_ascii_digit())
}

fn are_hex_digits(text: &[u8]) -> bool
    ensures { result ≡ list_all is_ascii_hexdigit text.now }
{
    text.iter().all(|b| b.is_ascii_hexdigit())
}

fn has_8_or_9(text: &[u8]) -> bool
    ensures { result ≡ spec.has_8_or_9 text.now }
{
    text.iter().any(|b| *b == b'8' || *b == b'9')
}

fn is_x(byte: u8) -> bool
    ensures { result ≡ spec.is_x byte }
{
    byte == b'x' || byte == b'X'
}

/// Whether the text is the number, or one that is too large.
fn or_large(number: Option<u32>) -> Result<u32, WordFaultKind>
    ensures { result ≡ spec.or_large number }
{
    number.ok_or(WordFaultKind::Large)
}

fn is_decimal(text: &[u8]) -> bool
    ensures { result ≡ spec.is_decimal text.now }
{
    !text.is_empty() && are_digits(text)
}

fn is_hexadecimal(text: &[u8]) -> bool
    ensures { result ≡ spec.is_hexadecimal text.now }
{
    text.len() > 2 && text[0] == b'0' && is_x(text[1]) && are_hex_digits(&text[2..])
}

/// Whether the text is spelled as a number.
pub(crate) fn is_number(text: &[u8]) -> bool
    ensures { result ≡ spec.is_number text.now }
{
    is_decimal(text) || is_hexadecimal(text)
}

/// The number that a text writes, which is spelled as one.
#[tactic(auto, unfolding(crate::specs::Number::number))]
pub(crate) fn number(text: &[u8]) -> Result<u32, WordFaultKind>
    ensures { result ≡ spec.number text.now }
{
    if is_hexadecimal(text) {
        return or_large(in_base(16, &text[2..]));
    }
    if text.len() > 1 && text[0] == b'0' {
        if has_8_or_9(text) {
            return Err(WordFaultKind::Octal);
        }
        return or_large(in_base(8, text));
    }
    or_large(in_base(10, text))
}

/// The number below 256 that a part of an address writes: decimal, or of one or two hexadecimal digits.
pub(crate) fn octet(base: u32, part: &[u8]) -> Option<u8>
    requires low { 2 ≤ base }
    requires high { base ≤ 16 }
    ensures value { result ≡ spec.octet base part.now }
    ensures small { IfSome result (λ n. n < 256) }
{
    if part.is_empty() || (base == 16 && part.len() > 2) {
        return None;
    }
    let value = in_base(base, part)?;
    if value < 256 { Some(value as u8) } else { None }
}
