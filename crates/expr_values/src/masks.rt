//! Masks.

ghost use Rattle.std.specs.Prelude.{◌≡◌};
ghost use Rattle.expr_values.specs.Masks as spec;

use crate::marks::{Mark, second_mark, third_address, third_number};
use expr_words::Token;

/// The mask after an address, where one is written, and the tokens that it has.
#[derive(Clone, Copy)]
pub(crate) struct Masked<T> {
    pub mask: Option<T>,
    pub tokens: usize,
}

/// The IPv4 mask whose first bits, this many, are 1.
fn mask_of(bits: u32) -> Option<u32>
    ensures { result ≡ spec.mask_of bits }
{
    if bits > 32 {
        return None;
    }
    Some(((1u64 << 32) - (1u64 << (32 - bits))) as u32)
}

/// The number of bits, where there are that many in an IPv6 address.
fn bits_of(bits: u32) -> Option<u8>
    ensures { result ≡ spec.bits_of bits }
{
    if bits > 128 {
        return None;
    }
    Some(bits as u8)
}

/// What is masked by two tokens.
fn by_two<T>(mask: Option<T>) -> Option<Masked<T>>
    ensures { result ≡ spec.by_two mask }
{
    let mask = mask?;
    Some(Masked {
        mask: Some(mask),
        tokens: 2,
    })
}

/// The mask after an IPv4 address: `/` and a number, `mask` and an address, or none.
pub(crate) fn mask4(tokens: &[Token]) -> Option<Masked<u32>>
    ensures { result ≡ spec.mask4 tokens.now }
{
    match second_mark(tokens) {
        Mark::Slash => {
            let bits = third_number(tokens)?;
            by_two(mask_of(bits))
        }
        Mark::Mask => {
            let address = third_address(tokens)?;
            by_two(Some(address.address))
        }
        Mark::Other => Some(Masked {
            mask: None,
            tokens: 0,
        }),
    }
}

/// How many bits an IPv6 address fixes: `/` and a number, or none.
pub(crate) fn mask6(tokens: &[Token]) -> Option<Masked<u8>>
    ensures { result ≡ spec.mask6 tokens.now }
{
    match second_mark(tokens) {
        Mark::Slash => {
            let bits = third_number(tokens)?;
            by_two(bits_of(bits))
        }
        Mark::Mask => None,
        Mark::Other => Some(Masked {
            mask: None,
            tokens: 0,
        }),
    }
}
