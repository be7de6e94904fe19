//! The way down a tree along first operands.

ghost use Rattle.std.specs.Prelude.{◌≡◌, ◌<◌, ◌≤◌, All, length, take, reverse, IfOk};
ghost use Rattle.expr_tree.specs.Expr.{expr_at, value_at};
ghost use Rattle.expr_lower.specs.Spines.{leaf_expr, joined};
ghost use Rattle.expr_lower.specs.Spines as spec;

use expr_tree::{Kind, Node, Relation, Test};
use std::alloc::{AllocFailed, Global};

/// How two calculations, at these places, are compared, and the column of the comparison.
#[derive(Clone, Copy)]
pub(crate) struct Related {
    pub relation: Relation,
    pub first: usize,
    pub second: usize,
    pub column: usize,
}

/// A part of an expression that is made of no others.
#[derive(Clone, Copy)]
pub(crate) enum Leaf {
    Every,
    /// A test, and its column.
    Test(Test, usize),
    Compare(Related),
}

/// The nodes from one of a tree down along first operands: those that join, by their places, then the one that joins none, and
/// how many nodes stand before what it may be made of.
#[derive(Drop)]
pub(crate) struct Spine {
    pub joins: Vec<usize>,
    pub leaf: Leaf,
    pub limit: usize,
}

/// What a node is, where it joins none.
fn leaf_of(node: Node) -> Leaf
    ensures { result ≡ spec.leaf_of node }
{
    let Node { kind, column } = node;
    match kind {
        Kind::Test(test) => Leaf::Test(test, column),
        Kind::Compare(relation, first, second) => Leaf::Compare(Related {
            relation,
            first,
            second,
            column,
        }),
        Kind::Every => Leaf::Every,
        Kind::Not(_) => Leaf::Every,
        Kind::And(_, _) => Leaf::Every,
        Kind::Or(_, _) => Leaf::Every,
        Kind::Calc(_) => Leaf::Every,
    }
}

/// The first operand of a node that joins.
fn first_of(kind: Kind) -> Option<usize>
    ensures { result ≡ spec.first_of kind }
{
    match kind {
        Kind::Not(of) => Some(of),
        Kind::And(first, _) => Some(first),
        Kind::Or(first, _) => Some(first),
        Kind::Every => None,
        Kind::Test(_) => None,
        Kind::Compare(_, _, _) => None,
        Kind::Calc(_) => None,
    }
}

/// The way down from the node at a place.
pub(crate) fn way_down(
    alloc: Global,
    nodes: &[Node],
    place: usize,
) -> Result<Spine, AllocFailed<usize>>
    ensures within { IfOk result (λ spine. All (λ join. join < length nodes.now) spine.joins.items) }
    ensures limit { IfOk result (λ spine. spine.limit ≤ length nodes.now) }
    ensures is { IfOk result (λ spine. expr_at nodes.now place ≡ joined nodes.now (reverse spine.joins.items) (leaf_expr (value_at (take spine.limit nodes.now)) spine.leaf)) }
{
    let mut joins = Vec::new(alloc);
    let mut limit = nodes.len();
    let mut at = place;
    'down: while at < limit {
        let node = nodes[at];
        limit = at;
        match first_of(node.kind) {
            Some(first) => {
                joins.push(at)?;
                at = first;
            }
            None => {
                return Ok(Spine {
                    joins,
                    leaf: leaf_of(node),
                    limit,
                });
            }
        }
    }
    Ok(Spine {
        joins,
        leaf: Leaf::Every,
        limit,
    })
}
