//! Tests of tags, and the layer behind them.

ghost use Rattle.std.specs.Prelude.{◌≡◌, ◌++◌, OnOk, IfSome};
ghost use Rattle.expr_meaning.specs.Holds as spec;
ghost use Rattle.expr_fields.specs.Parts.{parts_of};

use crate::draft::{Draft, byte, half, word};
use crate::layers::over;
use expr_meaning::{Layer, Place};
use expr_tree::Test;
use filter_cond::Part;
use std::alloc::AllocFailed;

/// One of the types that stand before a tag.
fn tagged(draft: &mut Draft, place: Place) -> Result<(), AllocFailed<Part>>
    ensures { OnOk result (draft.new.parts.items ≡ draft.old.parts.items ++ parts_of (spec.tagged place)) }
{
    let kind = half(u32::from(place.type_at));
    draft.either(kind, 0x8100, 0x88a8)?;
    draft.is(kind, 0x9100)?;
    draft.push(Part::Or)
}

/// A tag of 802.1Q.
pub(crate) fn vlan(
    draft: &mut Draft,
    place: Place,
    number: Option<u16>,
) -> Result<(), AllocFailed<Part>>
    ensures { OnOk result (draft.new.parts.items ≡ draft.old.parts.items ++ parts_of (spec.vlan place number)) }
{
    match number {
        Some(number) => {
            tagged(draft, place)?;
            draft.bits(half(u32::from(place.payload)), 0xfff, u32::from(number))?;
            draft.push(Part::And)
        }
        None => tagged(draft, place),
    }
}

/// A label may stand here.
fn stacked(draft: &mut Draft, place: Place) -> Result<(), AllocFailed<Part>>
    ensures { OnOk result (draft.new.parts.items ≡ draft.old.parts.items ++ parts_of (spec.stacked place)) }
{
    match place.layer {
        Layer::Labels => draft.bits(byte(u32::from(place.payload.saturating_sub(2))), 1, 0),
        Layer::Ethernet => over(draft, place, 0x8847),
        Layer::Session => over(draft, place, 0x8847),
        Layer::Cooked => over(draft, place, 0x8847),
        Layer::Raw => over(draft, place, 0x8847),
        Layer::Ipv4 => over(draft, place, 0x8847),
        Layer::Ipv6 => over(draft, place, 0x8847),
        Layer::Null => over(draft, place, 0x8847),
        Layer::Loop => over(draft, place, 0x8847),
    }
}

/// A label of MPLS.
pub(crate) fn mpls(
    draft: &mut Draft,
    place: Place,
    label: Option<u32>,
) -> Result<(), AllocFailed<Part>>
    ensures { OnOk result (draft.new.parts.items ≡ draft.old.parts.items ++ parts_of (spec.mpls place label)) }
{
    match label {
        Some(label) => {
            stacked(draft, place)?;
            let value = label % (1 << 20) * (1 << 12);
            draft.bits(word(u32::from(place.payload)), 0xffff_f000, value)?;
            draft.push(Part::And)
        }
        None => stacked(draft, place),
    }
}

/// A session of PPPoE.
pub(crate) fn pppoes(
    draft: &mut Draft,
    place: Place,
    number: Option<u16>,
) -> Result<(), AllocFailed<Part>>
    ensures { OnOk result (draft.new.parts.items ≡ draft.old.parts.items ++ parts_of (spec.pppoes place number)) }
{
    match number {
        Some(number) => {
            over(draft, place, 0x8864)?;
            draft.is(half(u32::from(place.payload) + 2), u32::from(number))?;
            draft.push(Part::And)
        }
        None => over(draft, place, 0x8864),
    }
}

/// The layer behind a test, for the tests after it in the same conjunction; none where it begins beyond the first 65,535 bytes.
pub fn moved(test: Test, place: Place) -> Option<Place>
    ensures { IfSome result (λ behind. behind ≡ spec.moved test place) }
{
    match test {
        Test::Vlan(_) => Some(Place {
            layer: place.layer,
            type_at: place.type_at.checked_add(4)?,
            payload: place.payload.checked_add(4)?,
        }),
        Test::Mpls(_) => Some(Place {
            layer: Layer::Labels,
            type_at: place.type_at,
            payload: place.payload.checked_add(4)?,
        }),
        Test::Pppoes(_) => Some(Place {
            layer: Layer::Session,
            type_at: place.payload.checked_add(6)?,
            payload: place.payload.checked_add(8)?,
        }),
        Test::Is(_) => Some(place),
        Test::Net4(_, _, _) => Some(place),
        Test::Net6(_, _, _) => Some(place),
        Test::Mac(_, _) => Some(place),
        Test::Ports(_, _, _, _) => Some(place),
        Test::Proto(_, _) => Some(place),
        Test::EtherBroadcast => Some(place),
        Test::IpBroadcast => Some(place),
        Test::EtherMulticast => Some(place),
        Test::IpMulticast => Some(place),
        Test::Ip6Multicast => Some(place),
    }
}
