//! Tests of ports.

ghost use Rattle.std.specs.Prelude.{◌≡◌, ◌++◌, OnOk};
ghost use Rattle.expr_meaning.specs.Holds as spec;
ghost use Rattle.expr_fields.specs.Parts.{parts_of};

use crate::draft::{Draft, half};
use crate::headers::{first_fragment, next_at, protocol_at};
use crate::items::{Target, any_item};
use crate::layers::over;
use bpf_insn::Size;
use expr_meaning::Place;
use expr_tree::{Side, Test, Transport};
use filter_cond::{Load, Part};
use std::alloc::AllocFailed;

/// The number is one of these protocols.
fn transports(draft: &mut Draft, load: Load, transport: Transport) -> Result<(), AllocFailed<Part>>
    ensures { OnOk result (draft.new.parts.items ≡ draft.old.parts.items ++ parts_of (spec.transports load transport)) }
{
    match transport {
        Transport::All => {
            draft.either(load, 6, 17)?;
            draft.is(load, 132)?;
            draft.push(Part::Or)
        }
        Transport::Tcp => draft.is(load, 6),
        Transport::Udp => draft.is(load, 17),
        Transport::Sctp => draft.is(load, 132),
    }
}

/// The number lies between these, or is one of them.
pub(crate) fn within(
    draft: &mut Draft,
    load: Load,
    low: u16,
    high: u16,
) -> Result<(), AllocFailed<Part>>
    ensures { OnOk result (draft.new.parts.items ≡ draft.old.parts.items ++ parts_of (spec.within load low high)) }
{
    if low == high {
        draft.is(load, u32::from(low))
    } else {
        draft.at_least(load, u32::from(low))?;
        draft.at_most(load, u32::from(high))?;
        draft.push(Part::And)
    }
}

/// A port is in one of these ranges.
fn end_port(draft: &mut Draft, load: Load, tests: &[Test]) -> Result<(), AllocFailed<Part>>
    ensures { OnOk result (draft.new.parts.items ≡ draft.old.parts.items ++ parts_of (spec.end_port load tests.now)) }
{
    any_item(draft, Target::Port(load), tests)
}

/// The ports are in these ranges.
fn ends(
    draft: &mut Draft,
    source: Load,
    destination: Load,
    side: Side,
    tests: &[Test],
) -> Result<(), AllocFailed<Part>>
    ensures { OnOk result (draft.new.parts.items ≡ draft.old.parts.items ++ parts_of (spec.ends source destination side tests.now)) }
{
    match side {
        Side::Either => {
            end_port(draft, source, tests)?;
            end_port(draft, destination, tests)?;
            draft.push(Part::Or)
        }
        Side::Src => end_port(draft, source, tests),
        Side::Dst => end_port(draft, destination, tests),
        Side::Both => {
            end_port(draft, source, tests)?;
            end_port(draft, destination, tests)?;
            draft.push(Part::And)
        }
    }
}

/// Where a port is behind IPv6's header.
fn port6(place: Place, at: u8) -> Load
    ensures { result ≡ spec.port6 place at }
{
    half(u32::from(place.payload) + 40 + u32::from(at))
}

/// Where a port is behind IPv4's header.
fn port4(place: Place, at: u8) -> Load
    ensures { result ≡ spec.port4 place at }
{
    let header = u32::from(place.payload);
    Load::Past {
        size: Size::Half,
        header,
        at: header + u32::from(at),
    }
}

/// IPv6 says that one of these protocols comes next.
fn begins6(draft: &mut Draft, place: Place, transport: Transport) -> Result<(), AllocFailed<Part>>
    ensures { OnOk result (draft.new.parts.items ≡ draft.old.parts.items ++ parts_of (spec.begins6 place transport)) }
{
    over(draft, place, 0x86dd)?;
    transports(draft, next_at(place), transport)?;
    draft.push(Part::And)
}

/// The ports behind IPv6's header.
fn ports6(
    draft: &mut Draft,
    place: Place,
    transport: Transport,
    side: Side,
    tests: &[Test],
) -> Result<(), AllocFailed<Part>>
    ensures { OnOk result (draft.new.parts.items ≡ draft.old.parts.items ++ parts_of (spec.ports6 place transport side tests.now)) }
{
    let source = port6(place, 0);
    let destination = port6(place, 2);
    begins6(draft, place, transport)?;
    ends(draft, source, destination, side, tests)?;
    draft.push(Part::And)
}

/// A first fragment of IPv4 carries one of these protocols.
fn begins4(draft: &mut Draft, place: Place, transport: Transport) -> Result<(), AllocFailed<Part>>
    ensures { OnOk result (draft.new.parts.items ≡ draft.old.parts.items ++ parts_of (spec.begins4 place transport)) }
{
    over(draft, place, 0x0800)?;
    transports(draft, protocol_at(place), transport)?;
    draft.push(Part::And)?;
    first_fragment(draft, place)?;
    draft.push(Part::And)
}

/// The ports behind IPv4's header.
fn ports4(
    draft: &mut Draft,
    place: Place,
    transport: Transport,
    side: Side,
    tests: &[Test],
) -> Result<(), AllocFailed<Part>>
    ensures { OnOk result (draft.new.parts.items ≡ draft.old.parts.items ++ parts_of (spec.ports4 place transport side tests.now)) }
{
    let source = port4(place, 0);
    let destination = port4(place, 2);
    begins4(draft, place, transport)?;
    ends(draft, source, destination, side, tests)?;
    draft.push(Part::And)
}

/// Ports, and ranges of ports.
pub(crate) fn ports(
    draft: &mut Draft,
    place: Place,
    transport: Transport,
    side: Side,
    tests: &[Test],
) -> Result<(), AllocFailed<Part>>
    ensures { OnOk result (draft.new.parts.items ≡ draft.old.parts.items ++ parts_of (spec.ports place transport side tests.now)) }
{
    ports6(draft, place, transport, side, tests)?;
    ports4(draft, place, transport, side, tests)?;
    draft.push(Part::Or)
}
