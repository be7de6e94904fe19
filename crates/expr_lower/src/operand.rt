//! Numbers of packets that are compared.

ghost use Rattle.std.specs.Prelude.{◌≡◌, Some, IfOk, IfSome};
ghost use Rattle.bpf_insn.specs.Machine.{Packet};
ghost use Rattle.filter_cond.specs.Numbers.{loaded};
ghost use Rattle.expr_tree.specs.Expr.{Value, Bytes, calc_by, value_at};
ghost use Rattle.expr_meaning.specs.Values as spec;
ghost use Rattle.expr_lower.specs.Operands.{IsConstant, Loads, LoadsAll, IsMasked, Gives};

use crate::constant::{calc_of, constant};
use crate::fault::LowerFault;
use bpf_insn::Size;
use expr_meaning::{Carriage, Place, can_load, carriage_of};
use expr_tree::{Calc, Node, Operator};
use expr_words::Protocol;
use filter_cond::Load;

/// The header of a protocol at a place.
#[derive(Clone, Copy)]
pub(crate) struct HeaderAt {
    pub place: Place,
    pub protocol: Protocol,
}

/// A number of a packet, the bits of it that count, if not all, and the header that it lies in, if it does.
#[derive(Clone, Copy)]
pub(crate) struct Loading {
    pub load: Load,
    pub mask: Option<u32>,
    pub header: Option<HeaderAt>,
}

/// A side of a comparison.
#[derive(Clone, Copy)]
pub(crate) enum Operand {
    Constant(u32),
    Loading(Loading),
}

fn size_of(size: expr_tree::Size) -> Size
    ensures { result ≡ spec.size_of size }
{
    match size {
        expr_tree::Size::Byte => Size::Byte,
        expr_tree::Size::Half => Size::Half,
        expr_tree::Size::Word => Size::Word,
    }
}

/// A number behind the header of IPv4 that begins at this byte.
fn past(payload: u16, size: Size, index: u32) -> Option<Load>
    ensures { IfSome result (λ load. (packet : Packet) → spec.behind4 packet payload size index ≡ loaded load packet) }
{
    let header = u32::from(payload);
    if index < 1 << 31 {
        Some(Load::Past {
            size,
            header,
            at: header + index,
        })
    } else {
        None
    }
}

/// The number so many bytes into a header, where one load gives it.
fn load_of(payload: u16, carriage: Carriage, size: Size, index: u32) -> Option<Load>
    ensures { IfSome result (λ load. (packet : Packet) → spec.bytes_of packet payload carriage size index ≡ loaded load packet) }
{
    match carriage {
        Carriage::Frame => Some(Load::At { size, at: index }),
        Carriage::Type(_) => Some(Load::At {
            size,
            at: u32::from(payload).checked_add(index)?,
        }),
        Carriage::Ip6(_) => Some(Load::At {
            size,
            at: (u32::from(payload) + 40).checked_add(index)?,
        }),
        Carriage::Ip(_) => past(payload, size, index),
        Carriage::Both(_) => past(payload, size, index),
    }
}

/// The number so many bytes into a protocol's header, where one load gives it.
fn bytes(
    before: Option<Place>,
    protocol: Protocol,
    size: expr_tree::Size,
    index: u32,
    column: usize,
) -> Result<Option<Loading>, LowerFault>
    ensures { IfOk result (λ found. IfSome found (λ loading. (v : Value) → IsConstant v index → LoadsAll (Bytes protocol v size) before loading)) }
{
    let Some(place) = before else {
        return Err(LowerFault::Moved { column });
    };
    if !can_load(place.layer, protocol) {
        return Err(LowerFault::Layer { column });
    }
    match load_of(place.payload, carriage_of(protocol), size_of(size), index) {
        Some(load) => Ok(Some(Loading {
            load,
            mask: None,
            header: Some(HeaderAt { place, protocol }),
        })),
        None => Ok(None),
    }
}

/// The number that a calculation loads; its parts are among these nodes.
fn load_calc(
    nodes: &[Node],
    before: Option<Place>,
    calc: Calc,
    column: usize,
) -> Result<Option<Loading>, LowerFault>
    ensures { IfOk result (λ found. IfSome found (λ loading. LoadsAll (calc_by (value_at nodes.now) calc) before loading)) }
{
    match calc {
        Calc::Len => Ok(Some(Loading {
            load: Load::Length,
            mask: None,
            header: None,
        })),
        Calc::Bytes(protocol, index, size) => match constant(nodes, index)? {
            Some(index) => bytes(before, protocol, size, index, column),
            None => Ok(None),
        },
        Calc::Number(_) => Ok(None),
        Calc::Operation(_, _, _) => Ok(None),
        Calc::Negate(_) => Ok(None),
    }
}

/// The number that the calculation at a place loads.
fn load_at(
    nodes: &[Node],
    before: Option<Place>,
    place: usize,
) -> Result<Option<Loading>, LowerFault>
    ensures { IfOk result (λ found. IfSome found (λ loading. LoadsAll (value_at nodes.now place) before loading)) }
{
    if place >= nodes.len() {
        return Ok(None);
    }
    let Node { kind, column } = nodes[place];
    load_calc(&nodes[..place], before, calc_of(kind), column)
}

/// The bits of a number that count.
fn with_mask(loading: Loading, mask: u32) -> Loading
    ensures { result ≡ record loading { mask = Some mask } }
{
    Loading {
        load: loading.load,
        mask: Some(mask),
        header: loading.header,
    }
}

/// The number and the mask that these calculations give, of which the second is a number.
fn masked_by(
    nodes: &[Node],
    before: Option<Place>,
    first: usize,
    second: usize,
) -> Result<Option<Loading>, LowerFault>
    ensures { IfOk result (λ found. IfSome found (λ loading. IsMasked (value_at nodes.now first) (value_at nodes.now second) before loading)) }
{
    match constant(nodes, second)? {
        Some(mask) => match load_at(nodes, before, first)? {
            Some(loading) => Ok(Some(with_mask(loading, mask))),
            None => Ok(None),
        },
        None => Ok(None),
    }
}

/// The number that a calculation loads, of which some bits count.
fn mask_calc(
    nodes: &[Node],
    before: Option<Place>,
    calc: Calc,
) -> Result<Option<Loading>, LowerFault>
    ensures { IfOk result (λ found. IfSome found (λ loading. Loads (calc_by (value_at nodes.now) calc) before loading)) }
{
    match calc {
        Calc::Operation(Operator::And, first, second) => {
            match masked_by(nodes, before, first, second)? {
                Some(loading) => Ok(Some(loading)),
                None => masked_by(nodes, before, second, first),
            }
        }
        _ => Ok(None),
    }
}

/// The number that the calculation at a place loads, of which some bits count.
fn mask_at(
    nodes: &[Node],
    before: Option<Place>,
    place: usize,
) -> Result<Option<Loading>, LowerFault>
    ensures { IfOk result (λ found. IfSome found (λ loading. Loads (value_at nodes.now place) before loading)) }
{
    if place >= nodes.len() {
        return Ok(None);
    }
    let Node { kind, column: _ } = nodes[place];
    mask_calc(&nodes[..place], before, calc_of(kind))
}

/// The side of a comparison that the calculation at a place is; none where it takes more than a load and a mask.
pub(crate) fn side_of(
    nodes: &[Node],
    before: Option<Place>,
    place: usize,
) -> Result<Option<Operand>, LowerFault>
    ensures { IfOk result (λ found. IfSome found (λ operand. Gives (value_at nodes.now place) before operand)) }
{
    if let Some(number) = constant(nodes, place)? {
        return Ok(Some(Operand::Constant(number)));
    }
    if let Some(loading) = load_at(nodes, before, place)? {
        return Ok(Some(Operand::Loading(loading)));
    }
    match mask_at(nodes, before, place)? {
        Some(loading) => Ok(Some(Operand::Loading(loading))),
        None => Ok(None),
    }
}
