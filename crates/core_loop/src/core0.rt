//! The events of core 0.

ghost use Rattle.std.specs.Prelude.{◌≡◌, ◌≢◌, ◌≤◌, ◌<◌, ◌+◌, max, ◌∷◌, ◌++◌, [], ℕ, suc, true, false, Some, IfOk, IfErr, IfSome, IfNone, OnErr, None, slice_get};
ghost use Rattle.filter_table.specs.declared.operation.Op.{Op as GhostOp};
ghost use Rattle.two_phase.specs.Coordinators.{Idle};
ghost use Rattle.monitor_2pc.specs.Starting.{WasStaged};
ghost use Rattle.core_steps.specs.Core0Steps.{BetweenSteps, CanBegin, HasWaiting, start_sends, start_for_sends};
ghost use Rattle.world_events.specs.declared.event.Event.TheVariants.{Start, StartFor, Take};
ghost use Rattle.core_loop.specs.Carrying.{IsFirst};
ghost use Rattle.core_loop.specs.Sending.{CanBeSent, IsMade};
ghost use Rattle.core_loop.specs.Events.{Acts0, SendsTaken, CannotTake0, CannotStart0};
ghost use Rattle.core_loop.specs.Outcomes.{OnEvent, OnNone, OnIdle, outcome};
ghost use Rattle.core_loop.specs.Turning.{IsUnshortened};
ghost use Rattle.core_loop.specs.Cores.{begins};
ghost use Rattle.core_loop.specs.Receipts.{receives};
ghost use Rattle.core_loop.specs.Beginning.{CanBegin0};
ghost use Rattle.core_loop.specs.InTurn.{Asks, BeginsInTurn, IsNextInTurn};

use crate::putting::put;
use crate::queue::next_request;
use crate::refusal::{Refusal, next_stamp};
use crate::sending::{Ready, all_ready, can_carry, make_ready, make_short, send};
use core_links::Links;
use core_steps::Core0;
use filter_table::{Op, StageFault};
use monitor_messages::Message;
use std::alloc::{AllocError, Global};
use std::collections::VecDeque;
use world_events::{Done, Event};
use world_histories::Stamped;

/// What core 0 sends of a message that it takes, made ready, and the event's stamp.
#[derive(Drop)]
struct Sending {
    ready: Ready,
    stamp: u64,
}

/// Takes the first message that is kept of a peer, which this is, with its stamp. Core 0 has so many others.
#[inline(never)]
pub(crate) fn take<L: Links>(
    core: &mut Core0,
    links: &mut L,
    others: u16,
    clock: u64,
    peer: u16,
    sent: u64,
    message: Message,
    done: &mut Option<Stamped>,
) -> Result<(), Refusal>
    requires undone { done.old ≡ None }
    requires between { BetweenSteps core.old }
    requires first { IsFirst (L.view links.old peer) (record { stamp = sent; message = message }) }
    requires other { peer ≤ others }
    ensures acts { OnEvent (outcome result done.new) (Acts0 others clock (L.view links.old) (L.view links.new) core.old core.new) }
    ensures event { OnEvent (outcome result done.new) (λ s. s.done.event ≡ Take 0 peer false) }
    ensures links { OnEvent (outcome result done.new) (λ _. L.same links.old links.new) }
    ensures some { OnIdle (outcome result done.new) ⊥ }
    ensures undone { OnErr result (done.new ≡ None) }
    ensures lines { (p : ℕ) → L.flow links.new p ≡ L.flow links.old p }
    ensures between { BetweenSteps core.new }
    ensures why { IfErr result (CannotTake0 others clock peer core.old (record { stamp = sent; message = message }) (L.view links.old)) }
    ensures same { OnNone (outcome result done.new) ((core.new ≡ core.old) × (links.new ≡ links.old)) }
{
    let sending = match ready_take(core, links, others, clock, peer, sent, &message) {
        Ok(sending) => sending,
        Err(refusal) => {
            drop(message);
            return Err(refusal);
        }
    };
    let stamp = sending.stamp;
    let Ok(told) = core.take(peer, message) else {
        drop(sending);
        return Err(Refusal::Stranger);
    };
    let _ = links.give_up(peer);
    send(links, others, sending.ready);
    let event = Event::Take {
        to: 0,
        from: peer,
        short: false,
    };
    let answer = told.answer;
    put(
        done,
        Stamped {
            stamp,
            done: Done { event, answer },
        },
    );
    Ok(())
}

// Makes ready what core 0 sends of a message once it has taken it. The links that it goes over take messages.
#[inline(never)]
fn ready_take<L: Links>(
    core: &Core0,
    links: &L,
    others: u16,
    clock: u64,
    peer: u16,
    sent: u64,
    message: &Message,
) -> Result<Sending, Refusal>
    requires { BetweenSteps core.now }
    ensures stamp { IfOk result (λ sending. sending.stamp ≡ max clock sent + 1) }
    ensures sends { IfOk result (λ sending. SendsTaken others core.now peer message.now (L.view links.now) sending.stamp sending.ready) }
    ensures lengths { IfOk result (λ sending. CanBeSent sending.ready) }
    ensures why { IfErr result (CannotTake0 others clock peer core.now (record { stamp = sent; message = message.now }) (L.view links.now)) }
{
    let outgoing = core.take_sends(peer, message);
    if !can_carry(links, others, &outgoing) {
        drop(outgoing);
        return Err(Refusal::NotReady);
    }
    let Some(stamp) = next_stamp(clock, sent) else {
        drop(outgoing);
        return Err(Refusal::Spent);
    };
    let ready = make_short(stamp, others, &outgoing);
    drop(outgoing);
    Ok(Sending { ready, stamp })
}

/// Starts the first of its own requests. Core 0 is idle, and the links to its others take messages.
// Not in line, so that what is taken instead has no room of it on the stack.
#[inline(never)]
pub(crate) fn start<L: Links>(
    core: &mut Core0,
    links: &mut L,
    alloc: Global,
    others: u16,
    clock: u64,
    requests: &mut VecDeque<Op>,
    done: &mut Option<Stamped>,
) -> Result<(), Refusal>
    requires undone { done.old ≡ None }
    requires between { BetweenSteps core.old }
    requires idle { core.old.coordinator.phase ≡ Idle }
    requires some { requests.old.items ≢ [] }
    requires ready { (entry : ℕ) → entry < others → (L.view links.old (suc entry)).ready ≡ true }
    ensures acts { OnEvent (outcome result done.new) (Acts0 others clock (L.view links.old) (L.view links.new) core.old core.new) }
    ensures event { OnEvent (outcome result done.new) (λ s. (op : GhostOp) × (s.done.event ≡ Start op) × (requests.old.items ≡ op ∷ requests.new.items)) }
    ensures links { OnEvent (outcome result done.new) (λ _. L.same links.old links.new) }
    ensures some { OnIdle (outcome result done.new) ⊥ }
    ensures lines { (p : ℕ) → L.flow links.new p ≡ L.flow links.old p }
    ensures between { BetweenSteps core.new }
    ensures why { IfErr result (CannotStart0 clock core.old) }
    ensures same { OnNone (outcome result done.new) ((core.new ≡ core.old) × (links.new ≡ links.old)) }
    ensures same_requests { OnNone (outcome result done.new) (requests.new ≡ requests.old) }
{
    if core.coordinator.last() == u64::MAX {
        return Err(Refusal::Spent);
    }
    let Some(stamp) = next_stamp(clock, 0) else {
        return Err(Refusal::Spent);
    };
    let Some(op) = requests.front() else {
        unreachable!()
    };
    let fault = core.stage(alloc, op);
    let Ok(ready) = ready_start(core, alloc, others, stamp, op, fault) else {
        core.withdraw();
        return Err(Refusal::NoMemory);
    };
    let Some(op) = next_request(requests) else {
        unreachable!()
    };
    let told = core.begin(fault);
    send(links, others, ready);
    let event = Event::Start { op };
    let answer = told.answer;
    put(
        done,
        Stamped {
            stamp,
            done: Done { event, answer },
        },
    );
    Ok(())
}

// Makes ready what a start sends. Not in line, so that its room on the stack isn't there while the request is staged.
#[inline(never)]
fn ready_start(
    core: &Core0,
    alloc: Global,
    others: u16,
    stamp: u64,
    op: &Op,
    fault: Option<StageFault>,
) -> Result<Ready, AllocError>
    requires can { CanBegin core.now }
    requires tried { WasStaged core.now.replica op.now fault }
    ensures made { IfOk result (IsMade others stamp (start_sends core.now op.now fault)) }
    ensures lengths { IfOk result CanBeSent }
{
    let outgoing = core.start_sends(op, fault)?;
    make_ready(alloc, stamp, others, &outgoing)
}

/// Starts the request that a core has waiting. Core 0 is idle, and the links to its others take messages.
#[inline(never)]
pub(crate) fn start_for<L: Links>(
    core: &mut Core0,
    links: &mut L,
    alloc: Global,
    others: u16,
    clock: u64,
    from: u16,
    done: &mut Option<Stamped>,
) -> Result<(), Refusal>
    requires undone { done.old ≡ None }
    requires between { BetweenSteps core.old }
    requires idle { core.old.coordinator.phase ≡ Idle }
    requires waits { (entry : ℕ) × (op : GhostOp) × HasWaiting core.old from entry op }
    requires inside { from ≤ core.old.coordinator.others }
    requires ready { (entry : ℕ) → entry < others → (L.view links.old (suc entry)).ready ≡ true }
    ensures acts { OnEvent (outcome result done.new) (Acts0 others clock (L.view links.old) (L.view links.new) core.old core.new) }
    ensures event { OnEvent (outcome result done.new) (λ s. s.done.event ≡ StartFor from) }
    ensures links { OnEvent (outcome result done.new) (λ _. L.same links.old links.new) }
    ensures some { OnIdle (outcome result done.new) ⊥ }
    ensures lines { (p : ℕ) → L.flow links.new p ≡ L.flow links.old p }
    ensures between { BetweenSteps core.new }
    ensures why { IfErr result (CannotStart0 clock core.old) }
    ensures same { OnNone (outcome result done.new) ((core.new ≡ core.old) × (links.new ≡ links.old)) }
{
    if core.coordinator.last() == u64::MAX {
        return Err(Refusal::Spent);
    }
    let Some(stamp) = next_stamp(clock, 0) else {
        return Err(Refusal::Spent);
    };
    let Some(fault) = core.stage_for(alloc, from) else {
        unreachable!()
    };
    let Ok(ready) = ready_start_for(core, alloc, others, stamp, from, fault) else {
        core.withdraw();
        return Err(Refusal::NoMemory);
    };
    let told = core.begin_for(from, fault);
    send(links, others, ready);
    let event = Event::StartFor { core: from };
    let answer = told.answer;
    put(
        done,
        Stamped {
            stamp,
            done: Done { event, answer },
        },
    );
    Ok(())
}

// Makes ready what a start for a core sends.
#[inline(never)]
fn ready_start_for(
    core: &Core0,
    alloc: Global,
    others: u16,
    stamp: u64,
    from: u16,
    fault: Option<StageFault>,
) -> Result<Ready, AllocError>
    requires can { CanBegin core.now }
    requires waits { (entry : ℕ) × (op : GhostOp) × HasWaiting core.now from entry op × WasStaged core.now.replica op fault }
    ensures made { IfOk result (λ ready. (entry : ℕ) (op : GhostOp) → HasWaiting core.now from entry op → IsMade others stamp (start_for_sends entry core.now op fault) ready) }
    ensures lengths { IfOk result CanBeSent }
{
    let outgoing = core.start_for_sends(from, fault)?;
    make_ready(alloc, stamp, others, &outgoing)
}

/// Begins the next request, where core 0 is idle and the links to its others take messages: that of the next core that has one,
/// going round after the core `last`, whose request it began last. So no core that keeps asking holds up another.
#[inline(always)]
pub(crate) fn begin<L: Links>(
    core: &mut Core0,
    links: &mut L,
    alloc: Global,
    others: u16,
    clock: u64,
    last: u16,
    requests: &mut VecDeque<Op>,
    done: &mut Option<Stamped>,
) -> Result<(), Refusal>
    requires undone { done.old ≡ None }
    requires between { BetweenSteps core.old }
    requires others { core.old.coordinator.others ≡ others }
    ensures acts { OnEvent (outcome result done.new) (Acts0 others clock (L.view links.old) (L.view links.new) core.old core.new) }
    ensures requests { OnEvent (outcome result done.new) (λ s. requests.old.items ≡ begins s.done.event ++ requests.new.items) }
    ensures jobs { OnEvent (outcome result done.new) (λ s. receives s.done.event ≡ []) }
    ensures whole { OnEvent (outcome result done.new) (λ s. IsUnshortened s.done.event) }
    ensures links { OnEvent (outcome result done.new) (λ s. L.same links.old links.new) }
    ensures lines { (p : ℕ) → L.flow links.new p ≡ L.flow links.old p }
    ensures in_turn { OnEvent (outcome result done.new) (λ s. BeginsInTurn others last core.old requests.old.items s.done.event) }
    ensures between { BetweenSteps core.new }
    ensures idle { OnIdle (outcome result done.new) (CanBegin0 others core.old requests.old.items (L.view links.old) → ⊥) }
    ensures can { OnErr result (CanBegin0 others core.old requests.old.items (L.view links.old)) }
    ensures why { IfErr result (CannotStart0 clock core.old) }
    ensures same { OnNone (outcome result done.new) ((core.new ≡ core.old) × (links.new ≡ links.old)) }
    ensures same_requests { OnNone (outcome result done.new) (requests.new ≡ requests.old) }
{
    if !core.coordinator.idle() {
        return Ok(());
    }
    if !all_ready(links, others) {
        return Ok(());
    }
    match next_in_turn(core, others, last, requests) {
        None => Ok(()),
        Some(from) => {
            if from == 0 {
                start(core, links, alloc, others, clock, requests, done)?;
            } else {
                start_for(core, links, alloc, others, clock, from, done)?;
            }
            Ok(())
        }
    }
}

// The next core that has a request, going round after the core `last`: core 0 one of its own, another one that waits.
fn next_in_turn(core: &Core0, others: u16, last: u16, requests: &VecDeque<Op>) -> Option<u16>
    requires { core.now.coordinator.others ≡ others }
    ensures asks { IfSome result (Asks others core.now requests.now.items) }
    ensures next { IfSome result (IsNextInTurn others last core.now requests.now.items) }
    ensures none { IfNone result ((from : ℕ) → Asks others core.now requests.now.items from → ⊥) }
{
    if let Some(from) = waiting_after(core, last, others) {
        return Some(from);
    }
    if !requests.is_empty() {
        return Some(0);
    }
    waiting_after(core, 0, last)
}

/// The least core above this one, and at most another, that has a request waiting.
pub(crate) fn waiting_after(core: &Core0, after: u16, most: u16) -> Option<u16>
    ensures above { IfSome result (λ from. after < from) }
    ensures most { IfSome result (λ from. from ≤ most) }
    ensures inside { IfSome result (λ from. from ≤ core.now.coordinator.others) }
    ensures some { IfSome result (λ from. (entry : ℕ) × (op : GhostOp) × HasWaiting core.now from entry op) }
    ensures least { IfSome result (λ from. (entry : ℕ) (op : GhostOp) → after ≤ entry → suc entry < from → slice_get core.now.coordinator.requests.waiting entry ≡ Some (Some op) → ⊥) }
    ensures none { IfNone result ((entry : ℕ) (op : GhostOp) → after ≤ entry → entry < most → slice_get core.now.coordinator.requests.waiting entry ≡ Some (Some op) → ⊥) }
{
    for entry in after..most {
        if let Some(_) = core.coordinator.waiting(entry + 1) {
            return Some(entry + 1);
        }
    }
    None
}
