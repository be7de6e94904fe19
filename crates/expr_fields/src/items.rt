//! Lists of tests.

ghost use Rattle.std.specs.Prelude.{◌≡◌, ◌+◌, ◌++◌, List, fold, map, OnOk};
ghost use Rattle.filter_cond.specs.declared.cond.Part as spec_part;
ghost use Rattle.expr_meaning.specs.Questions.{Question, Or};
ghost use Rattle.expr_meaning.specs.Lists.{item_of};
ghost use Rattle.expr_meaning.specs.Holds as spec;
ghost use Rattle.expr_fields.specs.Parts.{parts_of};
ghost use Rattle.expr_fields.specs.Targets.{asked};

use crate::addresses::{in_net4, in_net6, mac_at};
use crate::draft::Draft;
use crate::layers::over;
use crate::ports::within;
use expr_meaning::{Item, Place, item_of};
use expr_tree::Test;
use filter_cond::{Load, Part};
use std::alloc::AllocFailed;

/// What each test of a list is about.
#[derive(Clone, Copy)]
pub(crate) enum Target {
    /// The IPv4 address that is loaded.
    Address4(Load),
    /// The IPv6 address so many bytes behind this byte.
    Address6(u16, u8),
    /// The Ethernet address at this byte.
    Mac(u8),
    /// The port that is loaded.
    Port(Load),
    /// The number that is loaded.
    Number(Load),
    /// What the layer carries.
    Over(Place),
}

fn item4(draft: &mut Draft, load: Load, item: Item) -> Result<(), AllocFailed<Part>>
    ensures { OnOk result (draft.new.parts.items ≡ draft.old.parts.items ++ parts_of (spec.in_item4 load item)) }
{
    match item {
        Item::Net4(_, _, net) => in_net4(draft, load, net),
        Item::Net6(_, _) => draft.push(Part::Never),
        Item::Mac(_, _) => draft.push(Part::Never),
        Item::Ports(_, _, _, _) => draft.push(Part::Never),
        Item::Proto(_, _) => draft.push(Part::Never),
        Item::Alone => draft.push(Part::Never),
    }
}

fn item6(draft: &mut Draft, payload: u16, at: u8, item: Item) -> Result<(), AllocFailed<Part>>
    ensures { OnOk result (draft.new.parts.items ≡ draft.old.parts.items ++ parts_of (spec.in_item6 (payload + at) item)) }
{
    match item {
        Item::Net4(_, _, _) => draft.push(Part::Never),
        Item::Net6(_, net) => in_net6(draft, u32::from(payload) + u32::from(at), net),
        Item::Mac(_, _) => draft.push(Part::Never),
        Item::Ports(_, _, _, _) => draft.push(Part::Never),
        Item::Proto(_, _) => draft.push(Part::Never),
        Item::Alone => draft.push(Part::Never),
    }
}

fn mac_item(draft: &mut Draft, at: u8, item: Item) -> Result<(), AllocFailed<Part>>
    ensures { OnOk result (draft.new.parts.items ≡ draft.old.parts.items ++ parts_of (spec.mac_item at item)) }
{
    match item {
        Item::Net4(_, _, _) => draft.push(Part::Never),
        Item::Net6(_, _) => draft.push(Part::Never),
        Item::Mac(_, address) => mac_at(draft, at, address),
        Item::Ports(_, _, _, _) => draft.push(Part::Never),
        Item::Proto(_, _) => draft.push(Part::Never),
        Item::Alone => draft.push(Part::Never),
    }
}

fn port_item(draft: &mut Draft, load: Load, item: Item) -> Result<(), AllocFailed<Part>>
    ensures { OnOk result (draft.new.parts.items ≡ draft.old.parts.items ++ parts_of (spec.within_item load item)) }
{
    match item {
        Item::Net4(_, _, _) => draft.push(Part::Never),
        Item::Net6(_, _) => draft.push(Part::Never),
        Item::Mac(_, _) => draft.push(Part::Never),
        Item::Ports(_, _, low, high) => within(draft, load, low, high),
        Item::Proto(_, _) => draft.push(Part::Never),
        Item::Alone => draft.push(Part::Never),
    }
}

fn number_item(draft: &mut Draft, load: Load, item: Item) -> Result<(), AllocFailed<Part>>
    ensures { OnOk result (draft.new.parts.items ≡ draft.old.parts.items ++ parts_of (spec.is_item load item)) }
{
    match item {
        Item::Net4(_, _, _) => draft.push(Part::Never),
        Item::Net6(_, _) => draft.push(Part::Never),
        Item::Mac(_, _) => draft.push(Part::Never),
        Item::Ports(_, _, _, _) => draft.push(Part::Never),
        Item::Proto(_, number) => draft.is(load, u32::from(number)),
        Item::Alone => draft.push(Part::Never),
    }
}

fn over_item(draft: &mut Draft, place: Place, item: Item) -> Result<(), AllocFailed<Part>>
    ensures { OnOk result (draft.new.parts.items ≡ draft.old.parts.items ++ parts_of (spec.over_item place item)) }
{
    match item {
        Item::Net4(_, _, _) => draft.push(Part::Never),
        Item::Net6(_, _) => draft.push(Part::Never),
        Item::Mac(_, _) => draft.push(Part::Never),
        Item::Ports(_, _, _, _) => draft.push(Part::Never),
        Item::Proto(_, number) => over(draft, place, number),
        Item::Alone => draft.push(Part::Never),
    }
}

/// One test of a list.
fn item(draft: &mut Draft, target: Target, item: Item) -> Result<(), AllocFailed<Part>>
    ensures { OnOk result (draft.new.parts.items ≡ draft.old.parts.items ++ parts_of (asked target item)) }
{
    match target {
        Target::Address4(load) => item4(draft, load, item),
        Target::Address6(payload, at) => item6(draft, payload, at, item),
        Target::Mac(at) => mac_item(draft, at, item),
        Target::Port(load) => port_item(draft, load, item),
        Target::Number(load) => number_item(draft, load, item),
        Target::Over(place) => over_item(draft, place, item),
    }
}

/// One of these tests is true, or what is written already.
fn more_items(draft: &mut Draft, target: Target, tests: &[Test]) -> Result<(), AllocFailed<Part>>
    ensures { OnOk result ((q : Question) (old : List spec_part.Part) → draft.old.parts.items ≡ old ++ parts_of q → draft.new.parts.items ≡ old ++ parts_of (fold Or q (map (λ t. asked target (item_of t)) tests.now))) }
{
    for test in tests {
        item(draft, target, item_of(*test))?;
        draft.push(Part::Or)?;
    }
    Ok(())
}

/// One of a list of tests is true.
pub(crate) fn any_item(
    draft: &mut Draft,
    target: Target,
    tests: &[Test],
) -> Result<(), AllocFailed<Part>>
    ensures { OnOk result (draft.new.parts.items ≡ draft.old.parts.items ++ parts_of (spec.any_item (asked target) tests.now)) }
{
    match tests {
        [] => draft.push(Part::Never),
        [first, rest @ ..] => {
            item(draft, target, item_of(*first))?;
            more_items(draft, target, rest)
        }
    }
}
