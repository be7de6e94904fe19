//! What layers say of their payload.

ghost use Rattle.std.specs.Prelude.{◌≡◌, ◌<◌, ◌++◌, OnOk};
ghost use Rattle.expr_meaning.specs.Layers as spec;
ghost use Rattle.expr_fields.specs.Parts.{parts_of};

use crate::draft::{Draft, byte, half, word};
use expr_meaning::{Layer, Place};
use filter_cond::Part;
use std::alloc::AllocFailed;

/// A SNAP header: its first four bytes, and the four after them.
fn snap(draft: &mut Draft, at: u16, high: u32, low: u32) -> Result<(), AllocFailed<Part>>
    ensures { OnOk result (draft.new.parts.items ≡ draft.old.parts.items ++ parts_of (spec.snap at high low)) }
{
    let at = u32::from(at);
    draft.is(word(at), high)?;
    draft.is(word(at + 4), low)?;
    draft.push(Part::And)
}

/// An EtherType, or a SNAP header in its place.
fn type_or_snap(
    draft: &mut Draft,
    at: u16,
    payload: u16,
    high: u32,
    number: u16,
) -> Result<(), AllocFailed<Part>>
    ensures { OnOk result (draft.new.parts.items ≡ draft.old.parts.items ++ parts_of (spec.type_or_snap at payload high number)) }
{
    let kind = half(u32::from(at));
    let number = u32::from(number);
    draft.is(kind, number)?;
    draft.at_most(kind, 1500)?;
    snap(draft, payload, high, number)?;
    draft.push(Part::And)?;
    draft.push(Part::Or)
}

/// A number above 1500.
fn ether_type(
    draft: &mut Draft,
    at: u16,
    payload: u16,
    number: u16,
) -> Result<(), AllocFailed<Part>>
    ensures { OnOk result (draft.new.parts.items ≡ draft.old.parts.items ++ parts_of (spec.ether_type at payload number)) }
{
    if number == 0x809b {
        type_or_snap(draft, at, payload, 0xaaaa_0308, number)
    } else if number == 0x80f3 {
        type_or_snap(draft, at, payload, 0xaaaa_0300, number)
    } else {
        draft.is(half(u32::from(at)), u32::from(number))
    }
}

/// A length, and both service points.
fn both_points(
    draft: &mut Draft,
    at: u16,
    payload: u16,
    number: u16,
) -> Result<(), AllocFailed<Part>>
    requires { number < 256 }
    ensures { OnOk result (draft.new.parts.items ≡ draft.old.parts.items ++ parts_of (spec.both_points at payload number)) }
{
    draft.at_most(half(u32::from(at)), 1500)?;
    draft.is(half(u32::from(payload)), u32::from(number) * 257)?;
    draft.push(Part::And)
}

/// The frames of IPX with a length: a SNAP header, a service point, or a bare frame.
fn ipx_frame(draft: &mut Draft, payload: u16) -> Result<(), AllocFailed<Part>>
    ensures { OnOk result (draft.new.parts.items ≡ draft.old.parts.items ++ parts_of (spec.ipx_frame payload)) }
{
    let at = u32::from(payload);
    snap(draft, payload, 0xaaaa_0300, 0x8137)?;
    draft.is(byte(at), 0xe0)?;
    draft.push(Part::Or)?;
    draft.is(half(at), 0xffff)?;
    draft.push(Part::Or)
}

/// A length, and one of those frames.
fn ipx_framed(draft: &mut Draft, at: u16, payload: u16) -> Result<(), AllocFailed<Part>>
    ensures { OnOk result (draft.new.parts.items ≡ draft.old.parts.items ++ parts_of (spec.ipx_framed at payload)) }
{
    draft.at_most(half(u32::from(at)), 1500)?;
    ipx_frame(draft, payload)?;
    draft.push(Part::And)
}

/// IPX: an EtherType, or one of its frames with a length.
fn ipx(draft: &mut Draft, at: u16, payload: u16) -> Result<(), AllocFailed<Part>>
    ensures { OnOk result (draft.new.parts.items ≡ draft.old.parts.items ++ parts_of (spec.ipx at payload)) }
{
    draft.is(half(u32::from(at)), 0x8137)?;
    ipx_framed(draft, at, payload)?;
    draft.push(Part::Or)
}

/// A number up to 1500.
fn service_point(
    draft: &mut Draft,
    at: u16,
    payload: u16,
    number: u16,
) -> Result<(), AllocFailed<Part>>
    ensures { OnOk result (draft.new.parts.items ≡ draft.old.parts.items ++ parts_of (spec.service_point at payload number)) }
{
    if number == 0xe0 {
        ipx(draft, at, payload)
    } else if number == 0xfe {
        both_points(draft, at, payload, number)
    } else if number == 0x06 {
        both_points(draft, at, payload, number)
    } else if number == 0xf0 {
        both_points(draft, at, payload, number)
    } else {
        draft.at_most(half(u32::from(at)), 1500)?;
        draft.is(byte(u32::from(payload)), u32::from(number))?;
        draft.push(Part::And)
    }
}

/// The version of IPv4 or IPv6.
fn version(draft: &mut Draft, at: u16, number: u16) -> Result<(), AllocFailed<Part>>
    ensures { OnOk result (draft.new.parts.items ≡ draft.old.parts.items ++ parts_of (spec.version at number)) }
{
    if number == 0x0800 {
        draft.bits(byte(u32::from(at)), 0xf0, 0x40)
    } else if number == 0x86dd {
        draft.bits(byte(u32::from(at)), 0xf0, 0x60)
    } else {
        draft.push(Part::Never)
    }
}

/// Behind an MPLS label that is the last one.
fn labelled(draft: &mut Draft, payload: u16, number: u16) -> Result<(), AllocFailed<Part>>
    ensures { OnOk result (draft.new.parts.items ≡ draft.old.parts.items ++ parts_of (spec.labelled payload number)) }
{
    draft.bits(byte(u32::from(payload.saturating_sub(2))), 1, 1)?;
    version(draft, payload, number)?;
    draft.push(Part::And)
}

/// The number of PPP for an EtherType or a service point.
fn ppp_number(number: u16) -> u16
    ensures { result ≡ spec.ppp_number number }
{
    if number == 0x0800 {
        0x21
    } else if number == 0x86dd {
        0x57
    } else if number == 0x6003 {
        0x27
    } else if number == 0x809b {
        0x29
    } else if number == 0xfe {
        0x23
    } else if number == 0x42 {
        0x31
    } else if number == 0xe0 {
        0x2b
    } else {
        number
    }
}

/// The families of IPv6.
fn families6(draft: &mut Draft) -> Result<(), AllocFailed<Part>>
    ensures { OnOk result (draft.new.parts.items ≡ draft.old.parts.items ++ parts_of spec.families6) }
{
    draft.either(word(0), 24, 28)?;
    draft.either(word(0), 30, 10)?;
    draft.push(Part::Or)
}

/// The families of IPv6, the lowest byte first.
fn turned6(draft: &mut Draft) -> Result<(), AllocFailed<Part>>
    ensures { OnOk result (draft.new.parts.items ≡ draft.old.parts.items ++ parts_of spec.turned6) }
{
    draft.either(word(0), 0x1800_0000, 0x1c00_0000)?;
    draft.either(word(0), 0x1e00_0000, 0x0a00_0000)?;
    draft.push(Part::Or)
}

/// An address family, the highest byte first.
fn family(draft: &mut Draft, number: u16) -> Result<(), AllocFailed<Part>>
    ensures { OnOk result (draft.new.parts.items ≡ draft.old.parts.items ++ parts_of (spec.family number)) }
{
    if number == 0x0800 {
        draft.is(word(0), 2)
    } else if number == 0x86dd {
        families6(draft)
    } else {
        draft.push(Part::Never)
    }
}

/// An address family in either order.
fn either_family(draft: &mut Draft, number: u16) -> Result<(), AllocFailed<Part>>
    ensures { OnOk result (draft.new.parts.items ≡ draft.old.parts.items ++ parts_of (spec.either_family number)) }
{
    if number == 0x0800 {
        draft.either(word(0), 2, 0x0200_0000)
    } else if number == 0x86dd {
        families6(draft)?;
        turned6(draft)?;
        draft.push(Part::Or)
    } else {
        draft.push(Part::Never)
    }
}

/// True or false.
fn known(draft: &mut Draft, is: bool) -> Result<(), AllocFailed<Part>>
    ensures { OnOk result (draft.new.parts.items ≡ draft.old.parts.items ++ parts_of (spec.known is)) }
{
    if is {
        draft.push(Part::Always)
    } else {
        draft.push(Part::Never)
    }
}

/// Whether the payload is the protocol with this EtherType, or up to 1500 this service point.
pub(crate) fn over(draft: &mut Draft, place: Place, number: u16) -> Result<(), AllocFailed<Part>>
    ensures { OnOk result (draft.new.parts.items ≡ draft.old.parts.items ++ parts_of (spec.over place number)) }
{
    let Place {
        layer,
        type_at,
        payload,
    } = place;
    match layer {
        Layer::Ethernet => {
            if number > 1500 {
                ether_type(draft, type_at, payload, number)
            } else {
                service_point(draft, type_at, payload, number)
            }
        }
        Layer::Labels => labelled(draft, payload, number),
        Layer::Session => draft.is(half(u32::from(type_at)), u32::from(ppp_number(number))),
        Layer::Cooked => draft.is(half(u32::from(type_at)), u32::from(number)),
        Layer::Raw => version(draft, 0, number),
        Layer::Ipv4 => known(draft, number == 0x0800),
        Layer::Ipv6 => known(draft, number == 0x86dd),
        Layer::Null => either_family(draft, number),
        Layer::Loop => family(draft, number),
    }
}
