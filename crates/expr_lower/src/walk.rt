//! Expressions as conditions.

ghost use Rattle.std.specs.Prelude.{◌≡◌, ◌||◌, [], true, Some, option_map, IfOk, OnOk};
ghost use Rattle.bpf_insn.specs.Machine.{Packet};
ghost use Rattle.filter_cond.specs.Means.{means};
ghost use Rattle.expr_tree.specs.Expr.{Is, Or, expr_at, expr_of, value_at};
ghost use Rattle.expr_meaning.specs.Holds.{holds};
ghost use Rattle.expr_meaning.specs.Refused as refused;
ghost use Rattle.expr_meaning.specs.Layers as layers;
ghost use Rattle.expr_lower.specs.Spines.{leaf_expr, joined_by};
ghost use Rattle.expr_lower.specs.Spines as spec;
ghost use Rattle.expr_lower.specs.Walks.{Lowers, Runs, Flushes, Joins, IsTest};

use crate::compare::compare;
use crate::fault::LowerFault;
use crate::spine::{Leaf, Spine, way_down};
use expr_fields::{Draft, ask, moved};
use expr_meaning::{Link, Place, can_ask, is_one_more, is_tag, start};
use expr_tree::{Kind, Node, Test, Tree};
use filter_cond::{Cond, Part};
use std::alloc::Global;

/// What is known of the place behind a part of an expression, and whether a tag stands in it.
#[derive(Clone, Copy)]
pub(crate) struct Behind {
    pub place: Option<Place>,
    pub tag: bool,
}

/// What is known of the place behind a test, where it can be asked.
fn check_test(before: Option<Place>, test: Test, column: usize) -> Result<Option<Place>, LowerFault>
    ensures behind { IfOk result (λ place. place ≡ refused.behind_test test before) }
    ensures can { IfOk result (λ _. refused.can_test test before ≡ true) }
{
    let Some(place) = before else {
        return Err(LowerFault::Moved { column });
    };
    if !can_ask(place.layer, test) {
        return Err(LowerFault::Layer { column });
    }
    match moved(test, place) {
        Some(behind) => Ok(Some(behind)),
        None => Err(LowerFault::Layer { column }),
    }
}

/// Adds a part of an expression that is made of no others, but for its test; the calculations that it compares stand among these
/// nodes.
fn lower_leaf(
    draft: &mut Draft,
    tests: &mut Vec<Test>,
    nodes: &[Node],
    before: Option<Place>,
    leaf: Leaf,
) -> Result<Behind, LowerFault>
    requires { tests.old.items ≡ [] }
    ensures { IfOk result (λ behind. Runs (leaf_expr (value_at nodes.now) leaf) before behind tests.new.items draft.old.parts.items draft.new.parts.items) }
{
    match leaf {
        Leaf::Every => {
            draft.push(Part::Always)?;
            Ok(Behind {
                place: before,
                tag: false,
            })
        }
        Leaf::Test(test, column) => {
            let place = check_test(before, test, column)?;
            draft.push(Part::Never)?;
            tests.push(test)?;
            Ok(Behind {
                place,
                tag: is_tag(test),
            })
        }
        Leaf::Compare(related) => {
            compare(draft, nodes, before, related)?;
            Ok(Behind {
                place: before,
                tag: false,
            })
        }
    }
}

/// Adds what a list of tests asks, where what stands before it is false.
fn flush(
    draft: &mut Draft,
    before: Option<Place>,
    tests: &[Test],
    column: usize,
) -> Result<(), LowerFault>
    ensures { OnOk result (Flushes before tests.now draft.old.parts.items draft.new.parts.items) }
{
    match before {
        Some(place) => {
            ask(draft, place, tests)?;
            draft.push(Part::Or)?;
            Ok(())
        }
        None => match tests {
            [] => {
                draft.push(Part::Never)?;
                draft.push(Part::Or)?;
                Ok(())
            }
            [_, ..] => Err(LowerFault::Moved { column }),
        },
    }
}

/// What is known of a place behind tests that need not be true: nothing where one is a tag.
fn kept(tag: bool, place: Option<Place>) -> Option<Place>
    ensures { result ≡ refused.kept tag place }
{
    if tag { None } else { place }
}

/// A tag stands in one part or the other.
fn either(first: bool, second: bool) -> bool
    ensures { result ≡ (first || second) }
{
    first || second
}

/// The test that a node is.
fn test_of(kind: Kind) -> Option<Test>
    ensures { result ≡ spec.test_of kind }
{
    match kind {
        Kind::Test(test) => Some(test),
        Kind::Every => None,
        Kind::Compare(_, _, _) => None,
        Kind::Not(_) => None,
        Kind::And(_, _) => None,
        Kind::Or(_, _) => None,
        Kind::Calc(_) => None,
    }
}

/// The test at a place, and its column.
fn test_at(nodes: &[Node], place: usize) -> Option<(Test, usize)>
    ensures { IsTest (option_map (λ found. found.0) result) (expr_at nodes.now place) }
{
    if place >= nodes.len() {
        return None;
    }
    let Node { kind, column } = nodes[place];
    match test_of(kind) {
        Some(test) => Some((test, column)),
        None => None,
    }
}

/// Adds a test after `or`: to the list before it, or as the first of another one.
fn lower_or_test(
    draft: &mut Draft,
    tests: &mut Vec<Test>,
    before: Option<Place>,
    behind: Behind,
    test: Test,
    column: usize,
) -> Result<Behind, LowerFault>
    ensures { IfOk result (λ end. Joins (λ first. Or first (Is test)) before behind end tests.old.items tests.new.items draft.old.parts.items draft.new.parts.items) }
{
    let middle = kept(behind.tag, before);
    check_test(middle, test, column)?;
    let tag = either(behind.tag, is_tag(test));
    let place = kept(tag, before);
    if is_one_more(tests, test) {
        tests.push(test)?;
        return Ok(Behind { place, tag });
    }
    flush(draft, before, tests, column)?;
    tests.clear();
    tests.push(test)?;
    Ok(Behind { place, tag })
}

/// Adds what a node of this kind makes of its first operand, which is written but for the list that it ends in, and which stands
/// behind this place; its other operand is among the nodes below it.
#[cycle(walk)]
fn lower_join(
    alloc: Global,
    draft: &mut Draft,
    tests: &mut Vec<Test>,
    below: &[Node],
    node: Node,
    before: Option<Place>,
    behind: Behind,
) -> Result<Behind, LowerFault>
    ensures { IfOk result (λ end. Joins (joined_by (expr_at below.now) node.kind) before behind end tests.old.items tests.new.items draft.old.parts.items draft.new.parts.items) }
{
    let Node { kind, column } = node;
    match kind {
        Kind::Not(_) => {
            flush(draft, before, tests, column)?;
            tests.clear();
            draft.push(Part::Not)?;
            let place = kept(behind.tag, before);
            Ok(Behind {
                place,
                tag: behind.tag,
            })
        }
        Kind::And(_, second) => {
            flush(draft, before, tests, column)?;
            tests.clear();
            let last = lower_at(alloc, draft, below, behind.place, second)?;
            draft.push(Part::And)?;
            let tag = either(behind.tag, last.tag);
            Ok(Behind {
                place: last.place,
                tag,
            })
        }
        Kind::Or(_, second) => match test_at(below, second) {
            Some((test, column)) => lower_or_test(draft, tests, before, behind, test, column),
            None => {
                flush(draft, before, tests, column)?;
                tests.clear();
                let middle = kept(behind.tag, before);
                let last = lower_at(alloc, draft, below, middle, second)?;
                draft.push(Part::Or)?;
                let tag = either(behind.tag, last.tag);
                let place = kept(tag, before);
                Ok(Behind { place, tag })
            }
        },
        Kind::Every => Ok(behind),
        Kind::Test(_) => Ok(behind),
        Kind::Compare(_, _, _) => Ok(behind),
        Kind::Calc(_) => Ok(behind),
    }
}

/// Adds the expression at a place of a tree's nodes.
#[cycle(walk)]
fn lower_at(
    alloc: Global,
    draft: &mut Draft,
    nodes: &[Node],
    before: Option<Place>,
    place: usize,
) -> Result<Behind, LowerFault>
    ensures { IfOk result (λ behind. Lowers (expr_at nodes.now place) before behind draft.old.parts.items draft.new.parts.items) }
{
    let Spine { joins, leaf, limit } = way_down(alloc, nodes, place)?;
    let mut tests = Vec::new(alloc);
    let mut behind = lower_leaf(draft, &mut tests, &nodes[..limit], before, leaf)?;
    let mut count = joins.len();
    'up: while count > 0 {
        count -= 1;
        let join = joins[count];
        behind = lower_join(
            alloc,
            draft,
            &mut tests,
            &nodes[..join],
            nodes[join],
            before,
            behind,
        )?;
    }
    flush(draft, before, &tests, 1)?;
    Ok(behind)
}

/// The condition that says of packets of this link type what the expression does.
pub fn lower(alloc: Global, tree: &Tree, link: Link) -> Result<Cond, LowerFault>
    // What libpcap reads otherwise isn't taken: tests behind a tag that may be missing, and those that their layer doesn't answer.
    ensures can { IfOk result (λ _. refused.can (expr_of tree.now) (Some (layers.start link)) ≡ true) }
    ensures means { IfOk result (λ cond. (packet : Packet) → means cond packet ≡ holds (expr_of tree.now) packet (layers.start link)) }
{
    let mut draft = Draft::new(alloc);
    let last = tree.nodes.len().saturating_sub(1);
    let _behind = lower_at(alloc, &mut draft, &tree.nodes, Some(start(link)), last)?;
    Ok(draft.finish(alloc))
}
