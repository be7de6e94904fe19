//! Graphs without the tests that others have decided.

ghost use Rattle.std.specs.Prelude.{true, ◌≡◌, ℕ, ◌+◌, ◌*◌, ◌<◌, ◌≤◌, [], Some, length, IfOk, IfErr, IfSome, IsTrue, OnOk};
ghost use Rattle.bpf_insn.specs.Machine.{Packet};
ghost use Rattle.filter_cond.specs.Means.{tested};
ghost use Rattle.filter_codegen.specs.declared.graph.Node.{Node};
ghost use Rattle.filter_codegen.specs.Drafts.{Refuses};
ghost use Rattle.filter_codegen.specs.Graphs.{value};
ghost use Rattle.filter_codegen.specs.Known.{known};
ghost use Rattle.filter_codegen.specs.Lowered.{Lowers};
ghost use Rattle.filter_codegen.specs.Shortened.{Counts, IsMapped, Targets, Shortens};

use crate::draft::Draft;
use crate::facts::Facts;
use crate::fault::CompileFault;
use crate::graph::{Graph, Node, same_check};
use crate::implied::Fact;
use crate::lower::lower;
use filter_cond::Check;
use std::alloc::Global;

/// How many tests are passed on one way.
const HOPS: usize = 256;

/// What is known where a test is made that is reached, and where it came out one way or the other: places of facts.
#[derive(Clone, Copy, Debug, PartialEq, Eq)]
pub struct Route {
    pub head: usize,
    pub passed: usize,
    pub failed: usize,
}

/// The place at which a run comes out that knows these facts, past the tests that they decide.
fn followed(graph: &Graph, facts: &Facts, head: usize, place: usize) -> usize
    requires { place < length graph.now + 2 }
    ensures inside { result < length graph.now + 2 }
    ensures same { (packet : Packet) (accept : ℕ) → known packet facts.now head ≡ true → value packet accept graph.now result ≡ value packet accept graph.now place }
{
    let mut at = place;
    let mut hops = 0;
    'places: while at >= 2 && hops < HOPS {
        let node = graph.get(at);
        match facts.decided(head, node.check) {
            Some(true) => at = node.pass,
            Some(false) => at = node.fail,
            None => return at,
        }
        hops += 1;
    }
    at
}

/// Notes that a place is reached with these facts.
fn reach(routes: &mut Vec<Option<Route>>, facts: &Facts, place: usize, head: usize)
    requires { place < length routes.old.items }
    ensures { length routes.new.items ≡ length routes.old.items }
{
    let head = match routes[place] {
        Some(route) => facts.common(route.head, head),
        None => head,
    };
    routes[place] = Some(Route {
        head,
        passed: 0,
        failed: 0,
    });
}

/// Notes the places that a test leads to, past those that its outcome and what is known before decide.
fn route_node(
    routes: &mut Vec<Option<Route>>,
    facts: &mut Facts,
    graph: &Graph,
    place: usize,
    head: usize,
) -> Result<(), CompileFault>
    requires test { 2 ≤ place }
    requires inside { place < length graph.now + 2 }
    requires same_length { length routes.old.items ≡ length graph.now + 2 }
    ensures same_length { OnOk result (length routes.new.items ≡ length graph.now + 2) }
    ensures err { IfErr result (λ fault. Refuses 0 fault) }
{
    let node = graph.get(place);
    let check = node.check;
    let passed = facts.add(Fact {
        check,
        holds: true,
        before: head,
    })?;
    let failed = facts.add(Fact {
        check,
        holds: false,
        before: head,
    })?;
    routes[place] = Some(Route {
        head,
        passed,
        failed,
    });
    let pass = followed(graph, facts, passed, node.pass);
    reach(routes, facts, pass, passed);
    let fail = followed(graph, facts, failed, node.fail);
    reach(routes, facts, fail, failed);
    Ok(())
}

/// What is known at each place that is reached from the root. Nothing is promised of it: `target` looks at what it says.
fn route_places(
    alloc: Global,
    facts: &mut Facts,
    graph: &Graph,
    root: usize,
) -> Result<Vec<Option<Route>>, CompileFault>
    requires { root < length graph.now + 2 }
    ensures same_length { IfOk result (λ routes. length routes.items ≡ length graph.now + 2) }
    ensures err { IfErr result (λ fault. Refuses 0 fault) }
{
    let mut routes = vec![in alloc; None; graph.len() + 2]?;
    reach(&mut routes, facts, root, 0);
    let mut place = root + 1;
    'places: while place > 2 {
        place -= 1;
        if let Some(route) = routes[place] {
            route_node(&mut routes, facts, graph, place, route.head)?;
        }
    }
    Ok(routes)
}

/// Whether a fact says that the test came out so, with these facts before.
fn is_outcome(fact: Fact, head: usize, check: Check, holds: bool) -> bool
    ensures { IsTrue result → (fact.before ≡ head) × (fact.holds ≡ holds) × (fact.check ≡ check) }
{
    fact.before == head && fact.holds == holds && same_check(fact.check, check)
}

/// Whether a place counts on no more than these facts.
fn counts_on(facts: &Facts, routes: &[Option<Route>], head: usize, place: usize) -> bool
    requires { place < length routes.now }
    ensures { IsTrue result → (packet : Packet) → known packet facts.now head ≡ true → Counts routes.now facts.now place packet }
{
    if place < 2 {
        return true;
    }
    match routes[place] {
        Some(route) => facts.includes(head, route.head),
        None => false,
    }
}

/// Where a test leads that came out so, in the new graph: the place for the first test there that is not decided. Nothing, if
/// that place counts on more than is known.
fn target(
    graph: &Graph,
    facts: &Facts,
    routes: &[Option<Route>],
    places: &[usize],
    head: usize,
    outcome: usize,
    check: Check,
    holds: bool,
    place: usize,
) -> Option<usize>
    requires place { place < length graph.now + 2 }
    requires routes { length routes.now ≡ length graph.now + 2 }
    ensures { IfSome result (λ at. Targets graph.now facts.now routes.now places.now head check holds place at) }
{
    let Some(fact) = facts.get(outcome) else {
        return None;
    };
    if !is_outcome(fact, head, check, holds) {
        return None;
    }
    let next = followed(graph, facts, outcome, place);
    if next >= places.len() {
        return None;
    }
    if !counts_on(facts, routes, outcome, next) {
        return None;
    }
    Some(places[next])
}

/// Adds the node of a place to the new graph, if it is reached, and its place there to the list. It is false, if a way of the
/// node leads to a place that counts on more than is known.
fn map_place(
    graph: &Graph,
    facts: &Facts,
    routes: &[Option<Route>],
    new: &mut Graph,
    places: &mut Vec<usize>,
    place: usize,
) -> Result<bool, CompileFault>
    requires test { 2 ≤ place }
    requires inside { place < length graph.now + 2 }
    requires routes { length routes.now ≡ length graph.now + 2 }
    requires mapped { IsMapped graph.now facts.now routes.now new.old place places.old.items }
    ensures ok { IfOk result (λ done. IsTrue done → IsMapped graph.now facts.now routes.now new.new (place + 1) places.new.items) }
    ensures err { IfErr result (λ fault. Refuses (length new.old + 1) fault) }
{
    let Some(route) = routes[place] else {
        places.push(0)?;
        return Ok(true);
    };
    let node = graph.get(place);
    let Some(pass) = target(
        graph,
        facts,
        routes,
        places,
        route.head,
        route.passed,
        node.check,
        true,
        node.pass,
    ) else {
        return Ok(false);
    };
    let Some(fail) = target(
        graph,
        facts,
        routes,
        places,
        route.head,
        route.failed,
        node.check,
        false,
        node.fail,
    ) else {
        return Ok(false);
    };
    let at = new.add(Node {
        check: node.check,
        pass,
        fail,
    })?;
    places.push(at)?;
    Ok(true)
}

/// Makes a graph that gives at a place, the result, what this one gives at the root, without the tests that others have decided.
pub fn shorten(
    alloc: Global,
    graph: &Graph,
    new: &mut Graph,
    root: usize,
) -> Result<Option<usize>, CompileFault>
    requires root { root < length graph.now + 2 }
    requires empty { new.old ≡ [] }
    ensures ok { IfOk result (λ found. IfSome found (λ place. Shortens graph.now root new.new place)) }
    ensures err { IfErr result (λ fault. Refuses (length graph.now) fault) }
{
    let mut facts = Facts::new(alloc);
    let routes = route_places(alloc, &mut facts, graph, root)?;
    let mut places = vec![in alloc; 0, 1]?;
    'places: for place in 2..graph.len() + 2 {
        let done = map_place(graph, &facts, &routes, new, &mut places, place)?;
        if !done {
            return Ok(None);
        }
    }
    match routes[root] {
        Some(route) if route.head == 0 => Ok(Some(places[root])),
        _ => Ok(None),
    }
}

/// The program of a graph, from one of its places, without the tests that others have decided.
pub fn lower_short(
    alloc: Global,
    graph: &Graph,
    root: usize,
    accept: u32,
) -> Result<Draft, CompileFault>
    requires { root < length graph.now + 2 }
    ensures ok { IfOk result (λ draft. Lowers accept graph.now root draft) }
    ensures err { IfErr result (λ fault. Refuses (6 * length graph.now + 3) fault) }
{
    let mut new = Graph::new(alloc)?;
    match shorten(alloc, graph, &mut new, root)? {
        Some(place) => lower(alloc, &new, place, accept),
        None => lower(alloc, graph, root, accept),
    }
}
