//! Addresses.

ghost use Rattle.std.specs.Prelude.{◌≡◌};
ghost use Rattle.expr_values.specs.Values as spec;

use crate::kinds::{Quals, ValueKind};
use crate::masks::{Masked, mask4, mask6};
use crate::qualifiers::{carrier, is_ether, says_ip6};
use expr_tree::{Net4, Net6, Test};
use expr_words::{Token, V4};

/// The mask that is meant, where one may be written.
fn mask_for(item: ValueKind, bits: u8, written: Option<u32>) -> Option<u32>
    ensures { result ≡ spec.mask_for item bits written }
{
    match item {
        ValueKind::Host => match written {
            Some(_) => None,
            None => whole_bytes(bits),
        },
        ValueKind::Net => match written {
            Some(mask) => Some(mask),
            None => whole_bytes(bits),
        },
        ValueKind::Port => None,
        ValueKind::Portrange => None,
        ValueKind::Proto => None,
    }
}

/// The mask of the bytes that are written.
fn whole_bytes(bits: u8) -> Option<u32>
    ensures { result ≡ spec.whole_bytes bits }
{
    match bits {
        8 => Some(0xff00_0000),
        16 => Some(0xffff_0000),
        24 => Some(0xffff_ff00),
        _ => Some(0xffff_ffff),
    }
}

/// Addresses that have no bits beyond their mask.
fn net4(address: u32, mask: u32) -> Option<Net4>
    ensures { result ≡ spec.net4 address mask }
{
    if address & mask == address {
        Some(Net4 { address, mask })
    } else {
        None
    }
}

/// The test of IPv4 addresses, and its tokens.
pub(crate) fn v4_value(quals: Quals, address: V4, tokens: &[Token]) -> Option<(Test, usize)>
    ensures { result ≡ spec.v4_value quals address tokens.now }
{
    let carrier = carrier(quals.protocol)?;
    let masked = mask4(tokens)?;
    let mask = mask_for(quals.item, address.bits, masked.mask)?;
    let net = net4(address.address, mask)?;
    Some((Test::Net4(carrier, quals.side, net), 1 + masked.tokens))
}

/// How many bits are meant, where they may be written.
fn bits_for(item: ValueKind, written: Option<u8>) -> Option<u8>
    ensures { result ≡ spec.bits_for item written }
{
    match item {
        ValueKind::Host => match written {
            Some(bits) => { if bits == 128 { Some(128) } else { None } }
            None => Some(128),
        },
        ValueKind::Net => match written {
            Some(bits) => Some(bits),
            None => Some(128),
        },
        ValueKind::Port => None,
        ValueKind::Portrange => None,
        ValueKind::Proto => None,
    }
}

/// Addresses that have no bits beyond those that are fixed.
fn net6(address: u128, bits: u8) -> Option<Net6>
    ensures { result ≡ spec.net6 address bits }
{
    if 128 <= u32::from(bits) + address.trailing_zeros() {
        Some(Net6 { address, bits })
    } else {
        None
    }
}

/// The test of IPv6 addresses, and its tokens.
pub(crate) fn v6_value(quals: Quals, address: u128, tokens: &[Token]) -> Option<(Test, usize)>
    ensures { result ≡ spec.v6_value quals address tokens.now }
{
    let says_ip6 = says_ip6(quals.protocol)?;
    let masked = mask6(tokens)?;
    let bits = bits_for(quals.item, masked.mask)?;
    let net = net6(address, bits)?;
    Some((Test::Net6(says_ip6, quals.side, net), 1 + masked.tokens))
}

/// The test of an Ethernet address, and its token.
pub(crate) fn mac_value(quals: Quals, address: u64) -> Option<(Test, usize)>
    ensures { result ≡ spec.mac_value quals address }
{
    if !is_ether(quals.protocol) {
        return None;
    }
    match quals.item {
        ValueKind::Host => Some((Test::Mac(quals.side, address), 1)),
        ValueKind::Net => None,
        ValueKind::Port => None,
        ValueKind::Portrange => None,
        ValueKind::Proto => None,
    }
}
