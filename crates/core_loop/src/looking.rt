//! What a core sees before it does anything.

ghost use Rattle.std.specs.Prelude.{◌≡◌, ◌≢◌, ◌<◌, ◌≤◌, ◌∷◌, [], ℕ, Some, true, false, IfOk, IfErr, IfSome, IfNone, IsTrue, IsFalse};
ghost use mathlib.Core.List.{IsPrefix};
ghost use Rattle.rx_queue.specs.declared.job.Job.{Job as GhostJob};
ghost use Rattle.rx_queue.specs.Queue.{jobs_seen, jobs_taken, SameIntake};
ghost use Rattle.core_links.specs.Flows.{FlowsOn, SaysMoved};
ghost use Rattle.core_loop.specs.Carrying.{Quiet};
ghost use Rattle.core_loop.specs.Receipts.{IsReceivable};
ghost use Rattle.core_loop.specs.Turning.{HasRequest};
ghost use Rattle.core_loop.specs.Choosing.{ShowsNothing, IsLeastShowing};

use crate::core0::waiting_after;
use crate::part::Part;
use core_links::{LineFault, Links};
use filter_table::Op;
use rx_queue::Intake;
use std::collections::VecDeque;

/// The least peer that shows a message. Peers after it are not looked at, and a link that has stopped ends the search. Where nothing can have
/// come, no link is looked at.
pub(crate) fn least_showing<L: Links>(links: &mut L, cores: u16) -> Result<Option<u16>, LineFault>
    ensures links { L.same links.old links.new }
    ensures quiet { (p : ℕ) → Quiet (L.view links.old p) (L.view links.new p) }
    ensures least { IfOk result (λ shown. IfSome shown (IsLeastShowing cores (L.view links.new))) }
    ensures none { IfOk result (λ shown. IfNone shown ((p : ℕ) → p < cores → ShowsNothing (L.view links.new p))) }
    ensures lines { (p : ℕ) → FlowsOn (L.flow links.old p) (L.flow links.new p) }
    ensures moved { (p : ℕ) → SaysMoved (L.flow links.old p) (L.flow links.new p) }
    ensures full { ((p : ℕ) → (L.view links.old p).ready ≡ false → (L.flow links.old p).room ≡ 0) → (p : ℕ) → (L.view links.new p).ready ≡ false → (L.flow links.new p).room ≡ 0 }
    ensures dry { IfOk result (λ shown. IfNone shown ((p : ℕ) → p < cores → (L.flow links.new p).known ≡ 0)) }
    ensures fault { IfErr result (λ fault. (peer : ℕ) × (peer < cores) × ((p : ℕ) → p < peer → ShowsNothing (L.view links.new p)) × ((L.view links.new peer).stopped ≡ Some fault)) }
{
    if links.is_calm() {
        return Ok(None);
    }
    let shown = first_showing(links, cores)?;
    if shown.is_none() {
        links.calm_down(cores);
    }
    Ok(shown)
}

/// The same, by a look at each link in turn.
fn first_showing<L: Links>(links: &mut L, cores: u16) -> Result<Option<u16>, LineFault>
    ensures links { L.same links.old links.new }
    ensures quiet { (p : ℕ) → Quiet (L.view links.old p) (L.view links.new p) }
    ensures least { IfOk result (λ shown. IfSome shown (IsLeastShowing cores (L.view links.new))) }
    ensures none { IfOk result (λ shown. IfNone shown ((p : ℕ) → p < cores → ShowsNothing (L.view links.new p))) }
    ensures lines { (p : ℕ) → FlowsOn (L.flow links.old p) (L.flow links.new p) }
    ensures moved { (p : ℕ) → SaysMoved (L.flow links.old p) (L.flow links.new p) }
    ensures full { ((p : ℕ) → (L.view links.old p).ready ≡ false → (L.flow links.old p).room ≡ 0) → (p : ℕ) → (L.view links.new p).ready ≡ false → (L.flow links.new p).room ≡ 0 }
    ensures dry { IfOk result (λ shown. IfNone shown ((p : ℕ) → p < cores → (L.flow links.new p).known ≡ 0)) }
    ensures fault { IfErr result (λ fault. (peer : ℕ) × (peer < cores) × ((p : ℕ) → p < peer → ShowsNothing (L.view links.new p)) × ((L.view links.new peer).stopped ≡ Some fault)) }
{
    let end = cores.min(links.span());
    for peer in 0..end {
        if links.shows(peer)? {
            return Ok(Some(peer));
        }
    }
    Ok(None)
}

/// Whether the core has a request of its own, or core 0 has one waiting.
pub(crate) fn has_request(part: &Part, cores: u16, requests: &VecDeque<Op>) -> bool
    requires { 1 ≤ cores }
    ensures some { IsTrue result → HasRequest cores part.now requests.now.items }
    ensures none { IsFalse result → HasRequest cores part.now requests.now.items → ⊥ }
{
    if !requests.is_empty() {
        return true;
    }
    match part {
        Part::Core0(core) => {
            core.coordinator.has_waiting() && waiting_after(core, 0, cores - 1).is_some()
        }
        Part::OtherCore(_) => false,
    }
}

/// Whether the queue shows a job that a table of this version can receive.
pub(crate) fn can_receive(version: u64, intake: &mut Intake) -> bool
    ensures queue { SameIntake intake.old intake.new }
    ensures taken { jobs_taken intake.new ≡ jobs_taken intake.old }
    ensures seen { IsPrefix (jobs_seen intake.old) (jobs_seen intake.new) }
    ensures some { IsTrue result → (job : GhostJob) × IsReceivable version intake.new job }
    ensures none { IsFalse result → (job : GhostJob) → IsReceivable version intake.new job → ⊥ }
{
    intake.look();
    match intake.seen() {
        Some(job) => job.floor <= version,
        None => false,
    }
}
