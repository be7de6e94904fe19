//! Headers of IPv4 and IPv6, and what they carry.

ghost use Rattle.std.specs.Prelude.{◌≡◌, ◌++◌, OnOk};
ghost use Rattle.expr_meaning.specs.Headers as spec;
ghost use Rattle.expr_fields.specs.Parts.{parts_of};

use crate::draft::{Draft, byte, half};
use crate::layers::over;
use expr_meaning::{Carriage, Place, carriage_of};
use expr_words::Protocol;
use filter_cond::{Load, Part};
use std::alloc::AllocFailed;

/// Where IPv4 says what it carries.
pub(crate) fn protocol_at(place: Place) -> Load
    ensures { result ≡ spec.protocol_at place }
{
    byte(u32::from(place.payload) + 9)
}

/// Where IPv6 says what comes next.
pub(crate) fn next_at(place: Place) -> Load
    ensures { result ≡ spec.next_at place }
{
    byte(u32::from(place.payload) + 6)
}

/// IPv4 carries the protocol with this number.
fn carries4(draft: &mut Draft, place: Place, number: u16) -> Result<(), AllocFailed<Part>>
    ensures { OnOk result (draft.new.parts.items ≡ draft.old.parts.items ++ parts_of (spec.carries4 place number)) }
{
    over(draft, place, 0x0800)?;
    draft.is(protocol_at(place), u32::from(number))?;
    draft.push(Part::And)
}

/// IPv6 or its fragment header says that this comes next.
fn next(draft: &mut Draft, place: Place, number: u16) -> Result<(), AllocFailed<Part>>
    ensures { OnOk result (draft.new.parts.items ≡ draft.old.parts.items ++ parts_of (spec.next place number)) }
{
    let number = u32::from(number);
    draft.is(next_at(place), number)?;
    draft.is(next_at(place), 44)?;
    draft.is(byte(u32::from(place.payload) + 40), number)?;
    draft.push(Part::And)?;
    draft.push(Part::Or)
}

/// IPv6 carries the protocol with this number.
fn carries6(draft: &mut Draft, place: Place, number: u16) -> Result<(), AllocFailed<Part>>
    ensures { OnOk result (draft.new.parts.items ≡ draft.old.parts.items ++ parts_of (spec.carries6 place number)) }
{
    over(draft, place, 0x86dd)?;
    next(draft, place, number)?;
    draft.push(Part::And)
}

/// IPv4 or IPv6 carries the protocol with this number.
fn carries(draft: &mut Draft, place: Place, number: u16) -> Result<(), AllocFailed<Part>>
    ensures { OnOk result (draft.new.parts.items ≡ draft.old.parts.items ++ parts_of (spec.carries place number)) }
{
    carries4(draft, place, number)?;
    carries6(draft, place, number)?;
    draft.push(Part::Or)
}

/// What IPv4 carries begins in this packet.
pub(crate) fn first_fragment(draft: &mut Draft, place: Place) -> Result<(), AllocFailed<Part>>
    ensures { OnOk result (draft.new.parts.items ≡ draft.old.parts.items ++ parts_of (spec.first_fragment place)) }
{
    draft.bits(half(u32::from(place.payload) + 6), 0x1fff, 0)
}

/// The packet has the protocol.
pub(crate) fn has(
    draft: &mut Draft,
    place: Place,
    protocol: Protocol,
) -> Result<(), AllocFailed<Part>>
    ensures { OnOk result (draft.new.parts.items ≡ draft.old.parts.items ++ parts_of (spec.has place protocol)) }
{
    match carriage_of(protocol) {
        Carriage::Frame => draft.push(Part::Always),
        Carriage::Type(number) => over(draft, place, number),
        Carriage::Both(number) => carries(draft, place, u16::from(number)),
        Carriage::Ip(number) => carries4(draft, place, u16::from(number)),
        Carriage::Ip6(number) => carries6(draft, place, u16::from(number)),
    }
}

/// IPv4 carries it, and it begins in this packet.
fn begins4(draft: &mut Draft, place: Place, number: u8) -> Result<(), AllocFailed<Part>>
    ensures { OnOk result (draft.new.parts.items ≡ draft.old.parts.items ++ parts_of (spec.begins4 place number)) }
{
    carries4(draft, place, u16::from(number))?;
    first_fragment(draft, place)?;
    draft.push(Part::And)
}

/// IPv6 has it right behind its header.
fn begins6(draft: &mut Draft, place: Place, number: u8) -> Result<(), AllocFailed<Part>>
    ensures { OnOk result (draft.new.parts.items ≡ draft.old.parts.items ++ parts_of (spec.begins6 place number)) }
{
    over(draft, place, 0x86dd)?;
    draft.is(next_at(place), u32::from(number))?;
    draft.push(Part::And)
}

/// Adds that the protocol's header is there, so that bytes of it may be asked for.
pub fn there(draft: &mut Draft, place: Place, protocol: Protocol) -> Result<(), AllocFailed<Part>>
    ensures { OnOk result (draft.new.parts.items ≡ draft.old.parts.items ++ parts_of (spec.there place protocol)) }
{
    match carriage_of(protocol) {
        Carriage::Frame => draft.push(Part::Always),
        Carriage::Type(number) => over(draft, place, number),
        Carriage::Both(number) => begins4(draft, place, number),
        Carriage::Ip(number) => begins4(draft, place, number),
        Carriage::Ip6(number) => begins6(draft, place, number),
    }
}
