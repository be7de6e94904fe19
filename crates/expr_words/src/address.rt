//! Addresses.

ghost use Rattle.std.specs.Prelude.{◌≡◌, ◌≤◌, ◌<◌, ◌*◌, ◌^◌, IfSome};
ghost use Rattle.expr_words.specs.Address as spec;
ghost use Rattle.expr_words.specs.AddressViews.{summed};

use crate::number::octet;
use crate::word::V4;
use line_words::find;

/// The octets of an address: how many, and the number that they are, the first one highest.
#[derive(Clone, Copy)]
pub(crate) struct Octets {
    pub count: u32,
    pub value: u64,
}

/// The octets that the parts of a text write, up to six.
fn read_octets(base: u32, separator: u8, text: &[u8]) -> Option<Octets>
    requires low { 2 ≤ base }
    requires high { base ≤ 16 }
    ensures octets { result ≡ summed base separator text.now }
    ensures small { IfSome result (λ o. o.value < 256 ^ o.count) }
{
    let mut count = 0u32;
    let mut value = 0u64;
    let mut rest = text;
    'parts: loop {
        let end = find(separator, rest);
        let part = octet(base, &rest[..end])?;
        if count == 6 {
            return None;
        }
        count += 1;
        value = value * 256 + u64::from(part);
        if end == rest.len() {
            return Some(Octets { count, value });
        }
        rest = &rest[end + 1..];
    }
}

/// An address of fewer bytes, with zeros after them.
fn padded(value: u64, factor: u64, bits: u8) -> V4
    requires { value * factor < 2 ^ 32 }
    ensures address { result.address ≡ value * factor }
    ensures bits { result.bits ≡ bits }
{
    V4 {
        address: (value * factor) as u32,
        bits,
    }
}

/// The IPv4 address that two to four decimal numbers below 256 write.
pub(crate) fn v4(text: &[u8]) -> Option<V4>
    ensures { result ≡ spec.v4 text.now }
{
    let octets = read_octets(10, b'.', text)?;
    if octets.count == 2 {
        return Some(padded(octets.value, 65536, 16));
    }
    if octets.count == 3 {
        return Some(padded(octets.value, 256, 24));
    }
    if octets.count == 4 {
        return Some(padded(octets.value, 1, 32));
    }
    None
}

/// The Ethernet address that six parts write.
pub(crate) fn mac(separator: u8, text: &[u8]) -> Option<u64>
    ensures { result ≡ spec.mac separator text.now }
{
    let octets = read_octets(16, separator, text)?;
    (octets.count == 6).then_some(octets.value)
}
