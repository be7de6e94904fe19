//! Comparisons of calculations.

ghost use Rattle.std.specs.Prelude.{◌≡◌, ◌++◌, OnOk};
ghost use Rattle.expr_meaning.specs.Values.{relates};
ghost use Rattle.expr_meaning.specs.Layers.{known};
ghost use Rattle.expr_fields.specs.Parts.{parts_of};
ghost use Rattle.expr_tree.specs.Expr.{Compare, value_at};
ghost use Rattle.expr_lower.specs.Operands as spec;
ghost use Rattle.expr_lower.specs.Walks.{Fronts, still};

use crate::fault::LowerFault;
use crate::operand::{HeaderAt, Loading, Operand, side_of};
use crate::spine::Related;
use bpf_insn::Test;
use expr_fields::{Draft, there};
use expr_meaning::Place;
use expr_tree::{Node, Relation};
use filter_cond::{Check, Part};
use std::alloc::AllocFailed;

/// The same relation, from the other side.
fn turned(relation: Relation) -> Relation
    ensures { result ≡ spec.turned relation }
{
    match relation {
        Relation::Equal => Relation::Equal,
        Relation::NotEqual => Relation::NotEqual,
        Relation::Less => Relation::Greater,
        Relation::Greater => Relation::Less,
        Relation::LessEqual => Relation::GreaterEqual,
        Relation::GreaterEqual => Relation::LessEqual,
    }
}

/// Whether two numbers are related so.
fn relates_known(relation: Relation, a: u32, b: u32) -> bool
    ensures { result ≡ relates relation a b }
{
    match relation {
        Relation::Equal => a == b,
        Relation::NotEqual => a != b,
        Relation::Less => a < b,
        Relation::Greater => a > b,
        Relation::LessEqual => a <= b,
        Relation::GreaterEqual => a >= b,
    }
}

/// Adds true or false.
fn add_known(draft: &mut Draft, is: bool) -> Result<(), AllocFailed<Part>>
    ensures { OnOk result (draft.new.parts.items ≡ draft.old.parts.items ++ parts_of (known is)) }
{
    if is {
        draft.push(Part::Always)
    } else {
        draft.push(Part::Never)
    }
}

/// Adds that a header is there.
fn add_header(draft: &mut Draft, header: Option<HeaderAt>) -> Result<(), AllocFailed<Part>>
    ensures { OnOk result (draft.new.parts.items ≡ draft.old.parts.items ++ parts_of (spec.header_of header)) }
{
    match header {
        Some(header) => there(draft, header.place, header.protocol),
        None => draft.push(Part::Always),
    }
}

/// Adds that a number is related so to another.
fn add_related(
    draft: &mut Draft,
    relation: Relation,
    loading: Loading,
    k: u32,
) -> Result<(), AllocFailed<Part>>
    ensures { OnOk result (draft.new.parts.items ≡ draft.old.parts.items ++ parts_of (spec.related relation loading.load loading.mask k)) }
{
    let Loading {
        load,
        mask,
        header: _,
    } = loading;
    let check = |test| Check {
        load,
        mask,
        test,
        value: k,
    };
    match relation {
        Relation::Equal => draft.push(Part::Is(check(Test::Equal))),
        Relation::NotEqual => {
            draft.push(Part::Is(check(Test::Equal)))?;
            draft.push(Part::Not)
        }
        Relation::Less => {
            draft.push(Part::Is(check(Test::GreaterOrEqual)))?;
            draft.push(Part::Not)
        }
        Relation::Greater => draft.push(Part::Is(check(Test::Greater))),
        Relation::LessEqual => {
            draft.push(Part::Is(check(Test::Greater)))?;
            draft.push(Part::Not)
        }
        Relation::GreaterEqual => draft.push(Part::Is(check(Test::GreaterOrEqual))),
    }
}

/// Adds that a header is there, and that a number of it is related so to another.
fn relate(
    draft: &mut Draft,
    relation: Relation,
    loading: Loading,
    k: u32,
) -> Result<(), AllocFailed<Part>>
    ensures { OnOk result (draft.new.parts.items ≡ draft.old.parts.items ++ parts_of (spec.relate relation loading k)) }
{
    add_header(draft, loading.header)?;
    add_related(draft, relation, loading, k)?;
    draft.push(Part::And)
}

/// Adds a comparison of the calculations at two places.
pub(crate) fn compare(
    draft: &mut Draft,
    nodes: &[Node],
    before: Option<Place>,
    related: Related,
) -> Result<(), LowerFault>
    ensures { OnOk result (Fronts (Compare related.relation (value_at nodes.now related.first) (value_at nodes.now related.second)) before (still before) draft.old.parts.items draft.new.parts.items) }
{
    let Related {
        relation,
        first,
        second,
        column,
    } = related;
    let Some(left) = side_of(nodes, before, first)? else {
        return Err(LowerFault::TooHard { column });
    };
    let Some(right) = side_of(nodes, before, second)? else {
        return Err(LowerFault::TooHard { column });
    };
    match left {
        Operand::Constant(a) => match right {
            Operand::Constant(b) => add_known(draft, relates_known(relation, a, b))?,
            Operand::Loading(loading) => relate(draft, turned(relation), loading, a)?,
        },
        Operand::Loading(loading) => match right {
            Operand::Constant(b) => relate(draft, relation, loading, b)?,
            Operand::Loading(_) => return Err(LowerFault::TooHard { column }),
        },
    }
    Ok(())
}
