//! Conditions as graphs of tests.

ghost use Rattle.std.specs.Prelude.{◌≡◌, ◌+◌, ◌<◌, [], not, option_map, length, reverse, IfOk, IfErr, IfSome, OnOk};
ghost use Rattle.bpf_insn.specs.Machine.{Packet};
ghost use Rattle.filter_cond.specs.Means.{tested};
ghost use Rattle.filter_codegen.specs.Drafts.{Refuses};
ghost use Rattle.filter_codegen.specs.Graphs.{Adds};
ghost use Rattle.filter_codegen.specs.Tasks.{AreBelow, AreTasksBelow, Builds, RefusesPart};
ghost use Rattle.filter_codegen.specs.Built.{BuildsNext, IsBuilt, RefusesParts};

use crate::fault::CompileFault;
use crate::graph::{Graph, Node};
use crate::task::{Task, Ways, pop_entry, resolve};
use bpf_insn::Test;
use filter_cond::{Check, Part};
use std::alloc::Global;

/// The test that some of these bits are set, where the one that is given says that none is.
fn any_bit(check: Check) -> Option<Check>
    ensures { IfSome result (λ any. (packet : Packet) → tested check packet ≡ option_map not (tested any packet)) }
{
    let Check {
        load,
        mask,
        test,
        value,
    } = check;
    if value != 0 {
        return None;
    }
    match test {
        Test::Equal => match mask {
            Some(bits) => Some(Check {
                load,
                mask: None,
                test: Test::AnyBit,
                value: bits,
            }),
            None => None,
        },
        _ => None,
    }
}

/// Adds a test. That no bit is set is asked as whether any is, which needs no instruction for the mask.
fn add_check(graph: &mut Graph, check: Check, ways: Ways) -> Result<usize, CompileFault>
    requires pass { ways.pass < length graph.old + 2 }
    requires fail { ways.fail < length graph.old + 2 }
    ensures ok { IfOk result (λ place. Adds (record { check = check; pass = ways.pass; fail = ways.fail }) graph.old graph.new place) }
    ensures err { IfErr result (λ fault. Refuses (length graph.old + 1) fault) }
{
    match any_bit(check) {
        Some(any) => graph.add(Node {
            check: any,
            pass: ways.fail,
            fail: ways.pass,
        }),
        None => graph.add(Node {
            check,
            pass: ways.pass,
            fail: ways.fail,
        }),
    }
}

/// Builds a part, so that it leads to these places: its test, or tasks for its operands, the last one to be done first.
fn build_part(
    graph: &mut Graph,
    tasks: &mut Vec<Task>,
    entries: &mut Vec<usize>,
    part: Part,
    ways: Ways,
) -> Result<(), CompileFault>
    requires pass { ways.pass < length graph.old + 2 }
    requires fail { ways.fail < length graph.old + 2 }
    ensures ok { OnOk result (Builds part ways graph.old graph.new tasks.old.items tasks.new.items entries.old.items entries.new.items) }
    ensures err { IfErr result (λ fault. RefusesPart part (length graph.old) fault) }
{
    let Ways { pass, fail } = ways;
    match part {
        Part::Always => entries.push(pass)?,
        Part::Never => entries.push(fail)?,
        Part::Is(check) => {
            let entry = add_check(graph, check, ways)?;
            entries.push(entry)?;
        }
        Part::Compare(_) => return Err(CompileFault::TooHard),
        Part::Not => tasks.push(Task::To {
            pass: fail,
            fail: pass,
        })?,
        Part::And => {
            tasks.push(Task::Pass { fail })?;
            tasks.push(Task::To { pass, fail })?;
        }
        Part::Or => {
            tasks.push(Task::Fail { pass })?;
            tasks.push(Task::To { pass, fail })?;
        }
        Part::If => {
            tasks.push(Task::Choose)?;
            tasks.push(Task::To { pass, fail })?;
            tasks.push(Task::To { pass, fail })?;
        }
    }
    Ok(())
}

/// Builds a part as the last task wants it, if one is left.
fn build_next(
    graph: &mut Graph,
    tasks: &mut Vec<Task>,
    entries: &mut Vec<usize>,
    part: Part,
) -> Result<(), CompileFault>
    requires tasks { AreTasksBelow (length graph.old + 2) (reverse tasks.old.items) }
    requires entries { AreBelow (length graph.old + 2) (reverse entries.old.items) }
    ensures ok { OnOk result (BuildsNext part graph.old graph.new tasks.old.items tasks.new.items entries.old.items entries.new.items) }
    ensures err { IfErr result (λ fault. RefusesPart part (length graph.old) fault) }
{
    match tasks.pop() {
        Some(task) => {
            let ways = resolve(task, entries);
            build_part(graph, tasks, entries, part, ways)
        }
        None => Ok(()),
    }
}

/// Adds the tests of a condition, from its last part to its first, and gives the place at which it begins.
pub fn build(alloc: Global, graph: &mut Graph, parts: &[Part]) -> Result<usize, CompileFault>
    requires { graph.old ≡ [] }
    ensures ok { IfOk result (λ root. IsBuilt parts.now graph.new root) }
    ensures err { IfErr result (λ fault. RefusesParts parts.now fault) }
{
    let mut tasks = Vec::new(alloc);
    let mut entries = Vec::new(alloc);
    tasks.push(Task::To { pass: 1, fail: 0 })?;
    let mut count = parts.len();
    'parts: while count > 0 {
        count -= 1;
        build_next(graph, &mut tasks, &mut entries, parts[count])?;
    }
    // An operand that is lacking has no value.
    if tasks.is_empty() {
        Ok(pop_entry(&mut entries))
    } else {
        Ok(0)
    }
}
