//! Graphs of tests as programs.

ghost use Rattle.std.specs.Prelude.{◌≡◌, ◌+◌, ◌*◌, ◌<◌, ◌≤◌, [], List, Option, length, IfOk, IfErr, OnOk, slice_index};
ghost use Rattle.filter_codegen.specs.declared.graph.Node.{Node};
ghost use Rattle.filter_codegen.specs.declared.plan.Plan.{Plan};
ghost use Rattle.filter_codegen.specs.Drafts.{Refuses};
ghost use Rattle.filter_codegen.specs.Lowered.{AreInside, Stands, Nears, Fronts, Puts, Lowers};

use crate::draft::Draft;
use crate::emitter::emit_check;
use crate::fault::CompileFault;
use crate::graph::{Graph, Node};
use crate::insns::{end, jump};
use crate::plan::{Plan, plan_places};
use crate::task::Ways;
use std::alloc::Global;

/// The last two instructions, and their places: one that rejects, and one that accepts.
fn put_ends(
    draft: &mut Draft,
    places: &mut Vec<usize>,
    jumps: &mut Vec<usize>,
    accept: u32,
) -> Result<(), CompileFault>
    requires code { draft.old ≡ [] }
    requires places { places.old.items ≡ [] }
    requires jumps { jumps.old.items ≡ [] }
    ensures ok { OnOk result ((graph : List Node) (plans : List (Option Plan)) → Stands accept graph plans 2 places.new.items jumps.new.items draft.new) }
    ensures few { OnOk result (length draft.new ≤ 2) }
    ensures err { IfErr result (λ fault. Refuses 2 fault) }
{
    let reject = draft.put(end(0))?;
    let accept = draft.put(end(accept))?;
    places.push(reject)?;
    places.push(accept)?;
    jumps.push(reject)?;
    jumps.push(accept)?;
    Ok(())
}

/// A place at which a run goes on as at that of a node, and to which a conditional jump can lead, also over one more
/// instruction: that place, or the last jump to it, or a new one.
fn near(
    draft: &mut Draft,
    places: &[usize],
    jumps: &mut Vec<usize>,
    node: usize,
) -> Result<usize, CompileFault>
    requires places { node < length places.now }
    requires jumps { node < length jumps.old.items }
    requires at { slice_index places.now node < length draft.old }
    requires near { slice_index jumps.old.items node < length draft.old }
    ensures ok { IfOk result (λ near. Nears places.now node jumps.old.items jumps.new.items draft.old draft.new near) }
    ensures err { IfErr result (λ fault. Refuses (length draft.old + 1) fault) }
{
    let near = jumps[node];
    if draft.len() - 1 - near < 255 {
        return Ok(near);
    }
    let over = draft.len() - 1 - places[node];
    let near = draft.put(jump(over as u32))?;
    jumps[node] = near;
    Ok(near)
}

/// Puts the code of a node before what is there, or none where the node isn't planned.
fn put_node(
    draft: &mut Draft,
    places: &mut Vec<usize>,
    jumps: &mut Vec<usize>,
    node: Node,
    plan: Option<Plan>,
) -> Result<(), CompileFault>
    requires pass { node.pass < length places.old.items }
    requires fail { node.fail < length places.old.items }
    requires same_length { length jumps.old.items ≡ length places.old.items }
    requires places { AreInside places.old.items draft.old }
    requires jumps { AreInside jumps.old.items draft.old }
    ensures ok { OnOk result (Puts node plan places.old.items places.new.items jumps.old.items jumps.new.items draft.old draft.new) }
    ensures err { IfErr result (λ fault. Refuses (length draft.old + 6) fault) }
{
    match plan {
        Some(plan) => {
            let pass = near(draft, places, jumps, node.pass)?;
            let fail = near(draft, places, jumps, node.fail)?;
            let place = emit_check(draft, node.check, plan.start, Ways { pass, fail })?;
            places.push(place)?;
            jumps.push(place)?;
        }
        None => {
            places.push(0)?;
            jumps.push(0)?;
        }
    }
    Ok(())
}

/// A jump to a place, unless that is the first.
fn put_front(draft: &mut Draft, place: usize) -> Result<usize, CompileFault>
    requires { place < length draft.old }
    ensures ok { IfOk result (λ first. Fronts place draft.old draft.new first) }
    ensures err { IfErr result (λ fault. Refuses (length draft.old + 1) fault) }
{
    let over = draft.len() - 1 - place;
    if over == 0 {
        return Ok(place);
    }
    draft.put(jump(over as u32))
}

/// The program of a graph, from one of its places.
pub fn lower(alloc: Global, graph: &Graph, root: usize, accept: u32) -> Result<Draft, CompileFault>
    requires { root < length graph.now + 2 }
    ensures ok { IfOk result (λ draft. Lowers accept graph.now root draft) }
    ensures err { IfErr result (λ fault. Refuses (6 * length graph.now + 3) fault) }
{
    let plans = plan_places(alloc, graph, root)?;
    let mut draft = Draft::new(alloc);
    let mut places = Vec::new(alloc);
    let mut jumps = Vec::new(alloc);
    put_ends(&mut draft, &mut places, &mut jumps, accept)?;
    'nodes: for at in 2..graph.len() + 2 {
        put_node(
            &mut draft,
            &mut places,
            &mut jumps,
            graph.get(at),
            plans[at],
        )?;
    }
    put_front(&mut draft, places[root])?;
    Ok(draft)
}
