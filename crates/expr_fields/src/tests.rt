//! Tests as conditions.

ghost use Rattle.std.specs.Prelude.{◌≡◌, ◌++◌, OnOk};
ghost use Rattle.expr_meaning.specs.Holds as spec;
ghost use Rattle.expr_fields.specs.Parts.{parts_of};

use crate::addresses::{mac, mac_at, net4, net6};
use crate::draft::{Draft, byte, word};
use crate::headers::{has, next_at, protocol_at};
use crate::items::{Target, any_item};
use crate::layers::over;
use crate::ports::ports;
use crate::tags::{mpls, pppoes, vlan};
use expr_meaning::Place;
use expr_tree::{Header, Test};
use filter_cond::Part;
use std::alloc::AllocFailed;

/// IPv4 carries one of these protocols.
fn proto4(draft: &mut Draft, place: Place, tests: &[Test]) -> Result<(), AllocFailed<Part>>
    ensures { OnOk result (draft.new.parts.items ≡ draft.old.parts.items ++ parts_of (spec.proto4 place tests.now)) }
{
    over(draft, place, 0x0800)?;
    any_item(draft, Target::Number(protocol_at(place)), tests)?;
    draft.push(Part::And)
}

/// IPv6's fragment header says that one of these comes next.
fn fragment6(draft: &mut Draft, place: Place, tests: &[Test]) -> Result<(), AllocFailed<Part>>
    ensures { OnOk result (draft.new.parts.items ≡ draft.old.parts.items ++ parts_of (spec.fragment6 place tests.now)) }
{
    draft.is(next_at(place), 44)?;
    any_item(
        draft,
        Target::Number(byte(u32::from(place.payload) + 40)),
        tests,
    )?;
    draft.push(Part::And)
}

/// IPv6 or its fragment header says that one of these comes next.
fn next_item(draft: &mut Draft, place: Place, tests: &[Test]) -> Result<(), AllocFailed<Part>>
    ensures { OnOk result (draft.new.parts.items ≡ draft.old.parts.items ++ parts_of (spec.next_item place tests.now)) }
{
    any_item(draft, Target::Number(next_at(place)), tests)?;
    fragment6(draft, place, tests)?;
    draft.push(Part::Or)
}

/// IPv6 carries one of these protocols.
fn proto6(draft: &mut Draft, place: Place, tests: &[Test]) -> Result<(), AllocFailed<Part>>
    ensures { OnOk result (draft.new.parts.items ≡ draft.old.parts.items ++ parts_of (spec.proto6 place tests.now)) }
{
    over(draft, place, 0x86dd)?;
    next_item(draft, place, tests)?;
    draft.push(Part::And)
}

/// The next protocol is one of these.
fn proto(
    draft: &mut Draft,
    place: Place,
    header: Header,
    tests: &[Test],
) -> Result<(), AllocFailed<Part>>
    ensures { OnOk result (draft.new.parts.items ≡ draft.old.parts.items ++ parts_of (spec.proto place header tests.now)) }
{
    match header {
        Header::Any => {
            proto4(draft, place, tests)?;
            proto6(draft, place, tests)?;
            draft.push(Part::Or)
        }
        Header::Ip => proto4(draft, place, tests),
        Header::Ip6 => proto6(draft, place, tests),
        Header::Ether => any_item(draft, Target::Over(place), tests),
    }
}

/// IPv4's destination is of no or of all bits.
fn ip_broadcast(draft: &mut Draft, place: Place) -> Result<(), AllocFailed<Part>>
    ensures { OnOk result (draft.new.parts.items ≡ draft.old.parts.items ++ parts_of (spec.ip_broadcast place)) }
{
    let destination = word(u32::from(place.payload) + 16);
    over(draft, place, 0x0800)?;
    draft.either(destination, 0, 0xffff_ffff)?;
    draft.push(Part::And)
}

/// IPv4's destination is a group.
fn ip_multicast(draft: &mut Draft, place: Place) -> Result<(), AllocFailed<Part>>
    ensures { OnOk result (draft.new.parts.items ≡ draft.old.parts.items ++ parts_of (spec.ip_multicast place)) }
{
    over(draft, place, 0x0800)?;
    draft.at_least(byte(u32::from(place.payload) + 16), 224)?;
    draft.push(Part::And)
}

/// IPv6's destination is a group.
fn ip6_multicast(draft: &mut Draft, place: Place) -> Result<(), AllocFailed<Part>>
    ensures { OnOk result (draft.new.parts.items ≡ draft.old.parts.items ++ parts_of (spec.ip6_multicast place)) }
{
    over(draft, place, 0x86dd)?;
    draft.is(byte(u32::from(place.payload) + 24), 255)?;
    draft.push(Part::And)
}

/// What a test asks that stands first in a list of its kind.
fn ask_by(
    draft: &mut Draft,
    place: Place,
    first: Test,
    tests: &[Test],
) -> Result<(), AllocFailed<Part>>
    ensures { OnOk result (draft.new.parts.items ≡ draft.old.parts.items ++ parts_of (spec.asks_by place first tests.now)) }
{
    match first {
        Test::Is(protocol) => has(draft, place, protocol),
        Test::Net4(carrier, side, _) => net4(draft, place, carrier, side, tests),
        Test::Net6(_, side, _) => net6(draft, place, side, tests),
        Test::Mac(side, _) => mac(draft, side, tests),
        Test::Ports(transport, side, _, _) => ports(draft, place, transport, side, tests),
        Test::Proto(header, _) => proto(draft, place, header, tests),
        Test::EtherBroadcast => mac_at(draft, 0, 0xffff_ffff_ffff),
        Test::IpBroadcast => ip_broadcast(draft, place),
        Test::EtherMulticast => draft.bits(byte(0), 1, 1),
        Test::IpMulticast => ip_multicast(draft, place),
        Test::Ip6Multicast => ip6_multicast(draft, place),
        Test::Vlan(number) => vlan(draft, place, number),
        Test::Mpls(label) => mpls(draft, place, label),
        Test::Pppoes(number) => pppoes(draft, place, number),
    }
}

/// Adds what a list of tests, or a single one, asks of packets at a place.
pub fn ask(draft: &mut Draft, place: Place, tests: &[Test]) -> Result<(), AllocFailed<Part>>
    ensures { OnOk result (draft.new.parts.items ≡ draft.old.parts.items ++ parts_of (spec.asks place tests.now)) }
{
    match tests {
        [] => draft.push(Part::Never),
        [first, ..] => ask_by(draft, place, *first, tests),
    }
}
