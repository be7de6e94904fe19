//! Tests of addresses.

ghost use Rattle.std.specs.Prelude.{◌≡◌, ℕ, ◌+◌, ◌-◌, ◌<◌, ◌≤◌, ◌^◌, ◌++◌, min, OnOk};
ghost use Rattle.expr_meaning.specs.Holds as spec;
ghost use Rattle.expr_fields.specs.Parts.{parts_of};

use crate::draft::{Draft, half, word};
use crate::items::{Target, any_item};
use crate::layers::over;
use expr_meaning::{Layer, Place};
use expr_tree::{Carrier, Net4, Net6, Side, Test};
use filter_cond::{Load, Part};
use std::alloc::AllocFailed;

/// An address is in a net.
pub(crate) fn in_net4(draft: &mut Draft, load: Load, net: Net4) -> Result<(), AllocFailed<Part>>
    ensures { OnOk result (draft.new.parts.items ≡ draft.old.parts.items ++ parts_of (spec.in_net4 load net)) }
{
    if net.mask == 0 {
        draft.push(Part::Always)
    } else if net.mask == 0xffff_ffff {
        draft.is(load, net.address)
    } else {
        draft.bits(load, net.mask, net.address)
    }
}

/// The address so many bytes into the header of this type is in one of these nets.
fn end4(
    draft: &mut Draft,
    place: Place,
    number: u16,
    at: u8,
    tests: &[Test],
) -> Result<(), AllocFailed<Part>>
    ensures { OnOk result (draft.new.parts.items ≡ draft.old.parts.items ++ parts_of (spec.end4 place number at tests.now)) }
{
    over(draft, place, number)?;
    let target = Target::Address4(word(u32::from(place.payload) + u32::from(at)));
    any_item(draft, target, tests)?;
    draft.push(Part::And)
}

/// The addresses so many bytes into the header of this type are in one of these nets.
fn ends4(
    draft: &mut Draft,
    place: Place,
    number: u16,
    source: u8,
    destination: u8,
    side: Side,
    tests: &[Test],
) -> Result<(), AllocFailed<Part>>
    ensures { OnOk result (draft.new.parts.items ≡ draft.old.parts.items ++ parts_of (spec.ends4 place number source destination side tests.now)) }
{
    match side {
        Side::Either => {
            end4(draft, place, number, source, tests)?;
            end4(draft, place, number, destination, tests)?;
            draft.push(Part::Or)
        }
        Side::Src => end4(draft, place, number, source, tests),
        Side::Dst => end4(draft, place, number, destination, tests),
        Side::Both => {
            end4(draft, place, number, source, tests)?;
            end4(draft, place, number, destination, tests)?;
            draft.push(Part::And)
        }
    }
}

/// The addresses of IPv4, ARP and RARP.
fn all_ends4(
    draft: &mut Draft,
    place: Place,
    side: Side,
    tests: &[Test],
) -> Result<(), AllocFailed<Part>>
    ensures { OnOk result (draft.new.parts.items ≡ draft.old.parts.items ++ parts_of (spec.all_ends4 place side tests.now)) }
{
    ends4(draft, place, 0x0800, 12, 16, side, tests)?;
    ends4(draft, place, 0x0806, 14, 24, side, tests)?;
    draft.push(Part::Or)?;
    ends4(draft, place, 0x8035, 14, 24, side, tests)?;
    draft.push(Part::Or)
}

/// The addresses of each protocol that the layer can have.
fn any_ends4(
    draft: &mut Draft,
    place: Place,
    side: Side,
    tests: &[Test],
) -> Result<(), AllocFailed<Part>>
    ensures { OnOk result (draft.new.parts.items ≡ draft.old.parts.items ++ parts_of (spec.any_ends4 place side tests.now)) }
{
    match place.layer {
        Layer::Labels => ends4(draft, place, 0x0800, 12, 16, side, tests),
        Layer::Ethernet => all_ends4(draft, place, side, tests),
        Layer::Session => all_ends4(draft, place, side, tests),
        Layer::Cooked => all_ends4(draft, place, side, tests),
        Layer::Raw => all_ends4(draft, place, side, tests),
        Layer::Ipv4 => all_ends4(draft, place, side, tests),
        Layer::Ipv6 => all_ends4(draft, place, side, tests),
        Layer::Null => all_ends4(draft, place, side, tests),
        Layer::Loop => all_ends4(draft, place, side, tests),
    }
}

/// IPv4 nets.
pub(crate) fn net4(
    draft: &mut Draft,
    place: Place,
    carrier: Carrier,
    side: Side,
    tests: &[Test],
) -> Result<(), AllocFailed<Part>>
    ensures { OnOk result (draft.new.parts.items ≡ draft.old.parts.items ++ parts_of (spec.net4 place carrier side tests.now)) }
{
    match carrier {
        Carrier::Any => any_ends4(draft, place, side, tests),
        Carrier::Ip => ends4(draft, place, 0x0800, 12, 16, side, tests),
        Carrier::Arp => ends4(draft, place, 0x0806, 14, 24, side, tests),
        Carrier::Rarp => ends4(draft, place, 0x8035, 14, 24, side, tests),
    }
}

/// How many bits of a word are fixed.
fn fixed(bits: u8, from: u8) -> u8
    ensures is { result ≡ spec.fixed bits from }
    ensures most { result ≤ 32 }
{
    bits.saturating_sub(from).min(32)
}

/// A word of an address is in a net.
fn in_word(draft: &mut Draft, load: Load, count: u8, value: u32) -> Result<(), AllocFailed<Part>>
    requires { count ≤ 32 }
    ensures { OnOk result (draft.new.parts.items ≡ draft.old.parts.items ++ parts_of (spec.in_word load count value)) }
{
    if count == 0 {
        draft.push(Part::Always)
    } else if count == 32 {
        draft.is(load, value)
    } else {
        let mask = ((1u64 << 32) - (1u64 << (32 - count))) as u32;
        draft.bits(load, mask, value)
    }
}

/// An address that begins at this byte is in a net.
pub(crate) fn in_net6(draft: &mut Draft, at: u32, net: Net6) -> Result<(), AllocFailed<Part>>
    requires { at < 2 ^ 31 }
    ensures { OnOk result (draft.new.parts.items ≡ draft.old.parts.items ++ parts_of (spec.in_net6 at net)) }
{
    let Net6 { address, bits } = net;
    in_word(draft, word(at), fixed(bits, 0), (address >> 96) as u32)?;
    in_word(
        draft,
        word(at + 4),
        fixed(bits, 32),
        (address >> 64 & 0xffff_ffff) as u32,
    )?;
    draft.push(Part::And)?;
    in_word(
        draft,
        word(at + 8),
        fixed(bits, 64),
        (address >> 32 & 0xffff_ffff) as u32,
    )?;
    draft.push(Part::And)?;
    in_word(
        draft,
        word(at + 12),
        fixed(bits, 96),
        (address & 0xffff_ffff) as u32,
    )?;
    draft.push(Part::And)
}

/// The IPv6 address so many bytes into its header is in one of these nets.
fn end6(draft: &mut Draft, place: Place, at: u8, tests: &[Test]) -> Result<(), AllocFailed<Part>>
    ensures { OnOk result (draft.new.parts.items ≡ draft.old.parts.items ++ parts_of (spec.end6 place at tests.now)) }
{
    over(draft, place, 0x86dd)?;
    any_item(draft, Target::Address6(place.payload, at), tests)?;
    draft.push(Part::And)
}

/// IPv6 nets.
pub(crate) fn net6(
    draft: &mut Draft,
    place: Place,
    side: Side,
    tests: &[Test],
) -> Result<(), AllocFailed<Part>>
    ensures { OnOk result (draft.new.parts.items ≡ draft.old.parts.items ++ parts_of (spec.net6 place side tests.now)) }
{
    match side {
        Side::Either => {
            end6(draft, place, 8, tests)?;
            end6(draft, place, 24, tests)?;
            draft.push(Part::Or)
        }
        Side::Src => end6(draft, place, 8, tests),
        Side::Dst => end6(draft, place, 24, tests),
        Side::Both => {
            end6(draft, place, 8, tests)?;
            end6(draft, place, 24, tests)?;
            draft.push(Part::And)
        }
    }
}

/// The Ethernet address at a byte of the frame.
pub(crate) fn mac_at(draft: &mut Draft, at: u8, address: u64) -> Result<(), AllocFailed<Part>>
    ensures { OnOk result (draft.new.parts.items ≡ draft.old.parts.items ++ parts_of (spec.mac_at at address)) }
{
    let at = u32::from(at);
    draft.is(word(at + 2), (address % (1 << 32)) as u32)?;
    draft.is(half(at), (address >> 32) as u32)?;
    draft.push(Part::And)
}

/// The Ethernet address at a byte of the frame is one of these.
fn end_mac(draft: &mut Draft, at: u8, tests: &[Test]) -> Result<(), AllocFailed<Part>>
    ensures { OnOk result (draft.new.parts.items ≡ draft.old.parts.items ++ parts_of (spec.end_mac at tests.now)) }
{
    any_item(draft, Target::Mac(at), tests)
}

/// Ethernet addresses.
pub(crate) fn mac(draft: &mut Draft, side: Side, tests: &[Test]) -> Result<(), AllocFailed<Part>>
    ensures { OnOk result (draft.new.parts.items ≡ draft.old.parts.items ++ parts_of (spec.mac side tests.now)) }
{
    match side {
        Side::Either => {
            end_mac(draft, 6, tests)?;
            end_mac(draft, 0, tests)?;
            draft.push(Part::Or)
        }
        Side::Src => end_mac(draft, 6, tests),
        Side::Dst => end_mac(draft, 0, tests),
        Side::Both => {
            end_mac(draft, 6, tests)?;
            end_mac(draft, 0, tests)?;
            draft.push(Part::And)
        }
    }
}
