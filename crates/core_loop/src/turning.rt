//! The next event of a core.

ghost use Rattle.std.specs.Prelude.{◌≡◌, ◌≤◌, ◌⊎◌, None, IsSome, IsTrue, IsFalse};
ghost use mathlib.Core.List.{IsPrefix};
ghost use Rattle.rx_queue.specs.Queue.{jobs_seen, jobs_taken, SameIntake};
ghost use Rattle.core_loop.specs.Attempts.{LooksAndAttempts};
ghost use Rattle.core_loop.specs.Outcomes.{outcome};
ghost use Rattle.core_loop.specs.Cores.{AreShort};
ghost use Rattle.core_loop.specs.Beginning.{IsFitting};
ghost use Rattle.core_loop.specs.Turning.{MayReceive, HasRequest};

use crate::cause::Cause;
use crate::context::Context;
use crate::events::first_event;
use crate::looking::{can_receive, has_request, least_showing};
use crate::part::{BoxedPart, Part};
use crate::refusal::Halt;
use core_links::Links;
use filter_table::Op;
use rx_queue::Intake;
use std::collections::VecDeque;
use std::mem;
use table_replica::Workspace;
use world_histories::Stamped;

/// Does the next event of a core, if there is one. It takes no memory where there is no message, no request and no job that it
/// can receive.
// Not in line, so that what a turn does afterwards takes no room on the stack while it works.
#[inline(never)]
fn next_event<L: Links>(
    part: &mut Part,
    links: &mut L,
    requests: &mut VecDeque<Op>,
    intake: &mut Intake,
    workspace: &mut Workspace,
    context: Context,
    rx: bool,
    done: &mut Option<Stamped>,
) -> Result<(), Halt>
    requires undone { done.old ≡ None }
    requires cores { 1 ≤ context.cores }
    requires fits { IsFitting context.number context.cores part.old }
    requires short { AreShort context.number requests.old.items }
    ensures { LooksAndAttempts L.view L.flow L.same context rx
        (record { part = part.old; links = links.old; requests = requests.old.items; intake = intake.old })
        (record { part = part.new; links = links.new; requests = requests.new.items; intake = intake.new })
        (outcome result done.new) }
{
    links.pump();
    let shown = match least_showing(links, context.cores) {
        Err(fault) => return Err(Halt::Stopped(Cause::Line(fault))),
        Ok(shown) => shown,
    };
    if !has_work(part, requests, intake, shown, context.cores, rx) {
        return Ok(());
    }
    first_event(
        part, links, requests, intake, workspace, shown, context, rx, done,
    )
}

/// The same of a part that is on the heap.
pub(crate) fn next_event_of<L: Links>(
    part: &mut BoxedPart,
    links: &mut L,
    requests: &mut VecDeque<Op>,
    intake: &mut Intake,
    workspace: &mut Workspace,
    context: Context,
    rx: bool,
) -> Result<Option<Stamped>, Halt>
    requires cores { 1 ≤ context.cores }
    requires fits { IsFitting context.number context.cores part.old }
    requires short { AreShort context.number requests.old.items }
    ensures { LooksAndAttempts L.view L.flow L.same context rx
        (record { part = part.old; links = links.old; requests = requests.old.items; intake = intake.old })
        (record { part = part.new; links = links.new; requests = requests.new.items; intake = intake.new })
        result }
{
    let mut done = None;
    match next_event(
        &mut part.inner,
        links,
        requests,
        intake,
        workspace,
        context,
        rx,
        &mut done,
    ) {
        Ok(()) => Ok(done),
        Err(halt) => {
            // Nothing was done.
            mem::forget(done);
            Err(halt)
        }
    }
}

// Whether there is a message, a request, or a job that can be received.
fn has_work(
    part: &Part,
    requests: &VecDeque<Op>,
    intake: &mut Intake,
    shown: Option<u16>,
    cores: u16,
    rx: bool,
) -> bool
    requires { 1 ≤ cores }
    ensures queue { SameIntake intake.old intake.new }
    ensures taken { jobs_taken intake.new ≡ jobs_taken intake.old }
    ensures seen { IsPrefix (jobs_seen intake.old) (jobs_seen intake.new) }
    ensures some { IsTrue result → IsSome shown ⊎ (HasRequest cores part.now requests.now.items ⊎ MayReceive part.now rx intake.new) }
    ensures no_message { IsFalse result → shown ≡ None }
    ensures no_request { IsFalse result → HasRequest cores part.now requests.now.items → ⊥ }
    ensures no_job { IsFalse result → MayReceive part.now rx intake.new → ⊥ }
{
    if shown.is_some() || has_request(part, cores, requests) {
        return true;
    }
    rx && can_receive(part.replica().version(), intake)
}
