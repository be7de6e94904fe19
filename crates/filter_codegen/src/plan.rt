//! What the registers hold where each test of a graph begins, on all ways to it.

ghost use Rattle.std.specs.Prelude.{◌≡◌, ℕ, ◌+◌, ◌<◌, ◌≤◌, length, IfOk, IfErr, IsTrue};
ghost use Rattle.filter_codegen.specs.Drafts.{Refuses};
ghost use Rattle.filter_codegen.specs.Held.{IsReady, Needs, left, IsNoneOr, IsWeaker};
ghost use Rattle.filter_codegen.specs.Plans.{Notes, PlansNode, IsPlanning, IsPlanned};

use crate::fault::CompileFault;
use crate::graph::{Graph, Node, same_load, same_mask};
use filter_cond::{Check, Load};
use std::alloc::Global;

/// The bits of a number of the packet.
#[derive(Clone, Copy, Debug, PartialEq, Eq)]
pub struct Bits {
    pub load: Load,
    pub mask: Option<u32>,
}

/// What the registers hold, as far as it is known.
#[derive(Clone, Copy, Debug, PartialEq, Eq)]
pub struct Held {
    /// What the accumulator holds.
    pub number: Option<Bits>,
    /// Where the IPv4 header begins whose length the index register holds.
    pub header: Option<u32>,
}

/// With which of its instructions the code of a test begins: those before it are not needed.
#[derive(Clone, Copy, Debug, PartialEq, Eq)]
pub enum Start {
    /// The conditional jump.
    Branch,
    /// The mask, if there is one.
    Mask,
    /// The load.
    Load,
    /// The load of the index register, where the load wants one.
    Index,
}

/// How the code of a test is entered.
#[derive(Clone, Copy, Debug, PartialEq, Eq)]
pub struct Plan {
    pub held: Held,
    pub start: Start,
}

/// The first place of an absolute load that stands for ancillary data.
pub const ANCILLARY: u32 = 0x8000_0000;

fn same_bits(a: Bits, b: Bits) -> bool
    ensures { IsTrue result → a ≡ b }
{
    same_load(a.load, b.load) && same_mask(a.mask, b.mask)
}

/// Whether the index register is as the load wants it.
fn is_ready(load: Load, header: Option<u32>) -> bool
    ensures { IsTrue result → IsReady load header }
{
    match load {
        Load::At { size: _, at } => at < ANCILLARY,
        Load::Past {
            size: _,
            header: wanted,
            at: _,
        } => same_mask(header, Some(wanted)),
        Load::Length => true,
    }
}

/// Where the code of a test begins, by what the registers hold.
fn start_of(check: Check, held: Held) -> Start
    ensures { Needs check result held }
{
    if let Some(bits) = held.number {
        let Check {
            load,
            mask,
            test: _,
            value: _,
        } = check;
        if same_bits(bits, Bits { load, mask }) {
            return Start::Branch;
        }
        if same_bits(bits, Bits { load, mask: None }) {
            return Start::Mask;
        }
    }
    if is_ready(check.load, held.header) {
        return Start::Load;
    }
    Start::Index
}

/// What the registers hold behind a test.
fn left_by(check: Check, start: Start, held: Held) -> Held
    ensures { result ≡ left check start held }
{
    let Check {
        load,
        mask,
        test: _,
        value: _,
    } = check;
    let header = match start {
        Start::Index => match load {
            Load::Past {
                size: _,
                header,
                at: _,
            } => Some(header),
            _ => None,
        },
        _ => held.header,
    };
    Held {
        number: Some(Bits { load, mask }),
        header,
    }
}

/// What the accumulator holds either way.
fn common_number(a: Option<Bits>, b: Option<Bits>) -> Option<Bits>
    ensures a { IsNoneOr result a }
    ensures b { IsNoneOr result b }
{
    if let Some(p) = a {
        if let Some(q) = b {
            if same_bits(p, q) {
                return Some(p);
            }
        }
    }
    None
}

/// What the index register holds either way.
fn common_header(a: Option<u32>, b: Option<u32>) -> Option<u32>
    ensures a { IsNoneOr result a }
    ensures b { IsNoneOr result b }
{
    if same_mask(a, b) { a } else { None }
}

/// What both hold.
fn common(a: Held, b: Held) -> Held
    ensures a { IsWeaker result a }
    ensures b { IsWeaker result b }
{
    Held {
        number: common_number(a.number, b.number),
        header: common_header(a.header, b.header),
    }
}

/// Notes that a place is reached with these registers.
fn note(plans: &mut Vec<Option<Plan>>, place: usize, held: Held)
    requires { place < length plans.old.items }
    ensures { Notes place held plans.old.items plans.new.items }
{
    let held = match plans[place] {
        Some(plan) => common(plan.held, held),
        None => held,
    };
    plans[place] = Some(Plan {
        held,
        start: Start::Index,
    });
}

/// Plans the node at a place, and notes what it leaves to the places to which it leads.
fn plan_node(plans: &mut Vec<Option<Plan>>, node: Node, place: usize, held: Held)
    requires below { (node.pass < place) × (node.fail < place) }
    requires inside { place < length plans.old.items }
    ensures { PlansNode node place held plans.old.items plans.new.items }
{
    let start = start_of(node.check, held);
    let left = left_by(node.check, start, held);
    plans[place] = Some(Plan { held, start });
    note(plans, node.pass, left);
    note(plans, node.fail, left);
}

/// Plans the node at a place, if it is reached.
fn plan_place(plans: &mut Vec<Option<Plan>>, graph: &Graph, place: usize)
    requires test { 2 ≤ place }
    requires inside { place < length graph.now + 2 }
    requires same_length { length plans.old.items ≡ length graph.now + 2 }
    ensures { (root : ℕ) → place ≤ root → IsPlanning graph.now root (place + 1) plans.old.items → IsPlanning graph.now root place plans.new.items }
{
    match plans[place] {
        Some(plan) => plan_node(plans, graph.get(place), place, plan.held),
        None => {}
    }
}

/// How each place is entered that is reached from the root, and nothing for the others.
pub fn plan_places(
    alloc: Global,
    graph: &Graph,
    root: usize,
) -> Result<Vec<Option<Plan>>, CompileFault>
    requires { root < length graph.now + 2 }
    ensures ok { IfOk result (λ plans. IsPlanned graph.now root plans.items) }
    ensures err { IfErr result (λ fault. Refuses 0 fault) }
{
    let mut plans = vec![in alloc; None; graph.len() + 2]?;
    let nothing = Held {
        number: None,
        header: None,
    };
    note(&mut plans, root, nothing);
    let mut place = root + 1;
    'places: while place > 2 {
        place -= 1;
        plan_place(&mut plans, graph, place);
    }
    Ok(plans)
}
