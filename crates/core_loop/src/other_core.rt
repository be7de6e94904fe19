//! The events of a core other than core 0.

ghost use Rattle.std.specs.Prelude.{◌≡◌, ◌≢◌, ◌≤◌, ◌<◌, ◌+◌, ◌∷◌, ◌++◌, [], max, true, false, suc, ℕ, All, Bool, None, Some, option_to_list, IfOk, IfErr, OnErr, OnOk};
ghost use Rattle.filter_table.specs.declared.operation.Op.{Op as GhostOp};
ghost use Rattle.filter_table.specs.Tables.{HasShortProgram};
ghost use Rattle.core_steps.specs.OtherCoreSteps.{IsBetweenSteps, Considers};
ghost use Rattle.world_events.specs.declared.event.Event.TheVariants.{Submit, Take};
ghost use Rattle.world_histories.specs.Histories.{with_stamp};
ghost use Rattle.core_loop.specs.Carrying.{Hands, IsFirst};
ghost use Rattle.monitor_messages.specs.declared.message.Message.TheVariants as message;
ghost use Rattle.core_loop.specs.Sending.{CanBeHanded, CanGoUp, IsPiece, IsShortAnswer, CannotReply};
ghost use Rattle.core_loop.specs.Outcomes.{OnEvent, OnNone, OnIdle, outcome};
ghost use Rattle.core_loop.specs.Turning.{IsUnshortened};
ghost use Rattle.core_loop.specs.Cores.{begins};
ghost use Rattle.core_loop.specs.Receipts.{receives};
ghost use Rattle.core_loop.specs.Beginning.{CanBeginOther};
ghost use Rattle.core_loop.specs.Choosing.{IsSubmission};
ghost use Rattle.core_loop.specs.Events.{ActsOther, CannotTakeOther, CannotSubmit};

use crate::putting::put;
use crate::queue::next_request;
use crate::refusal::{Refusal, next_stamp};
use crate::sending::{hand, hand_short};
use core_links::Links;
use core_steps::{Ballot, OtherCore};
use filter_table::Op;
use monitor_messages::{Message, encode, short_bytes};
use std::alloc::{AllocError, Global};
use std::collections::VecDeque;
use world_events::{Done, Event};
use world_histories::Stamped;

/// Takes the first message that is kept of core 0, which this is, with its stamp. Where memory is refused to the operation of
/// a Prepare, the core votes NoMemory: neither a vote nor an acknowledgement takes memory.
pub(crate) fn take<L: Links>(
    core: &mut OtherCore,
    links: &mut L,
    alloc: Global,
    number: u16,
    clock: u64,
    sent: u64,
    message: &Message,
    done: &mut Option<Stamped>,
) -> Result<(), Refusal>
    requires undone { done.old ≡ None }
    requires between { IsBetweenSteps core.old }
    requires first { IsFirst (L.view links.old 0) (record { stamp = sent; message = message.now }) }
    ensures acts { OnEvent (outcome result done.new) (λ s. (entry : ℕ) → number ≡ suc entry → ActsOther entry clock (L.view links.old) (L.view links.new) core.old core.new s) }
    ensures event { OnEvent (outcome result done.new) (λ s. s.done.event ≡ Take number 0 false) }
    ensures links { OnEvent (outcome result done.new) (λ _. L.same links.old links.new) }
    ensures some { OnIdle (outcome result done.new) ⊥ }
    ensures undone { OnErr result (done.new ≡ None) }
    ensures lines { (p : ℕ) → L.flow links.new p ≡ L.flow links.old p }
    ensures between { IsBetweenSteps core.new }
    ensures why { IfErr result (CannotTakeOther clock core.old (record { stamp = sent; message = message.now }) (L.view links.old)) }
    ensures same { OnNone (outcome result done.new) ((core.new ≡ core.old) × (links.new ≡ links.old)) }
{
    let Ok(reply) = core.consider(alloc, message, false) else {
        return Err(Refusal::Stranger);
    };
    match stamp_of_reply(links, clock, sent, &reply) {
        Err(refusal) => {
            core.withdraw(message);
            Err(refusal)
        }
        Ok(stamp) => {
            let answer = core.take(message, &reply);
            let _ = links.give_up(0);
            send_reply(links, stamp, &reply);
            let event = Event::Take {
                to: number,
                from: 0,
                short: false,
            };
            put(
                done,
                Stamped {
                    stamp,
                    done: Done { event, answer },
                },
            );
            Ok(())
        }
    }
}

/// Takes the first message that is kept of core 0, a Prepare that was considered without memory, and votes so. Takes no memory.
pub(crate) fn cast<L: Links>(
    core: &mut OtherCore,
    links: &mut L,
    number: u16,
    clock: u64,
    ballot: Ballot,
) -> Result<Stamped, Refusal>
    requires between { IsBetweenSteps core.old }
    requires ballot { (op : GhostOp) × IsFirst (L.view links.old 0) (record { stamp = ballot.stamp; message = message.Prepare ballot.txn op })
        × ((short : Bool) → Considers short core.old (message.Prepare ballot.txn op) (Some (message.Vote ballot.txn ballot.vote)) core.old) }
    ensures acts { IfOk result (λ s. (entry : ℕ) → number ≡ suc entry → ActsOther entry clock (L.view links.old) (L.view links.new) core.old core.new s) }
    ensures event { IfOk result (λ s. s.done.event ≡ Take number 0 false) }
    ensures links { OnOk result (L.same links.old links.new) }
    ensures lines { (p : ℕ) → L.flow links.new p ≡ L.flow links.old p }
    ensures why { IfErr result (CannotReply clock ballot.stamp (Some (message.Vote ballot.txn ballot.vote)) (L.view links.old 0)) }
    ensures same { OnErr result ((core.new ≡ core.old) × (links.new ≡ links.old)) }
{
    if !links.ready(0) {
        return Err(Refusal::NotReady);
    }
    let Some(stamp) = next_stamp(clock, ballot.stamp) else {
        return Err(Refusal::Spent);
    };
    let answer = core.cast(ballot.txn, ballot.vote);
    let _ = links.give_up(0);
    let vote = Message::Vote {
        txn: ballot.txn,
        vote: ballot.vote,
    };
    send_answer(links, stamp, &vote);
    let event = Event::Take {
        to: number,
        from: 0,
        short: false,
    };
    Ok(Stamped {
        stamp,
        done: Done { event, answer },
    })
}

// The stamp of a reply, where there is none or the link to core 0 takes it.
fn stamp_of_reply<L: Links>(
    links: &L,
    clock: u64,
    sent: u64,
    reply: &Option<Message>,
) -> Result<u64, Refusal>
    ensures stamp { IfOk result (λ stamp. stamp ≡ max clock sent + 1) }
    ensures ready { OnOk result (reply.now ≢ None → (L.view links.now 0).ready ≡ true) }
    ensures why { IfErr result (CannotReply clock sent reply.now (L.view links.now 0)) }
{
    if let Some(_) = reply
        && !links.ready(0)
    {
        return Err(Refusal::NotReady);
    }
    match next_stamp(clock, sent) {
        Some(stamp) => Ok(stamp),
        None => Err(Refusal::Spent),
    }
}

// Sends a reply under this stamp. Takes no memory.
fn send_reply<L: Links>(links: &mut L, stamp: u64, reply: &Option<Message>)
    requires { CanGoUp reply.now (L.view links.old 0) }
    ensures links { L.same links.old links.new }
    ensures lines { (p : ℕ) → L.flow links.new p ≡ L.flow links.old p }
    ensures there { Hands (L.view links.old 0) (L.view links.new 0) (with_stamp stamp (option_to_list reply.now)) }
    ensures elsewhere { (p : ℕ) → p ≢ 0 → L.view links.new p ≡ L.view links.old p }
{
    match reply {
        None => {}
        Some(answer) => send_answer(links, stamp, answer),
    }
}

// Not in line, so that its room on the stack isn't there while an operation is staged.
#[inline(never)]
fn send_answer<L: Links>(links: &mut L, stamp: u64, answer: &Message)
    requires answer { IsShortAnswer answer.now }
    requires ready { (L.view links.old 0).ready ≡ true }
    ensures links { L.same links.old links.new }
    ensures lines { (p : ℕ) → L.flow links.new p ≡ L.flow links.old p }
    ensures there { Hands (L.view links.old 0) (L.view links.new 0) (with_stamp stamp (answer.now ∷ [])) }
    ensures elsewhere { (p : ℕ) → p ≢ 0 → L.view links.new p ≡ L.view links.old p }
{
    match short_bytes(stamp, answer) {
        Some(bytes) => hand_short(links, 0, &bytes),
        None => unreachable!(),
    }
}

/// Submits the first of its requests. Nothing is outstanding, and the link to core 0 takes a message.
pub(crate) fn submit<L: Links>(
    core: &mut OtherCore,
    links: &mut L,
    alloc: Global,
    number: u16,
    clock: u64,
    requests: &mut VecDeque<Op>,
) -> Result<Stamped, Refusal>
    requires between { IsBetweenSteps core.old }
    requires free { core.old.participant.outstanding ≡ false }
    requires some { requests.old.items ≢ [] }
    requires short { All HasShortProgram requests.old.items }
    requires ready { (L.view links.old 0).ready ≡ true }
    ensures acts { IfOk result (λ s. (entry : ℕ) → number ≡ suc entry → ActsOther entry clock (L.view links.old) (L.view links.new) core.old core.new s) }
    ensures event { IfOk result (λ s. (op : GhostOp) × (s.done.event ≡ Submit number op) × (requests.old.items ≡ op ∷ requests.new.items)) }
    ensures links { OnOk result (L.same links.old links.new) }
    ensures lines { (p : ℕ) → L.flow links.new p ≡ L.flow links.old p }
    ensures between { IsBetweenSteps core.new }
    ensures why { IfErr result (CannotSubmit clock) }
    ensures same { OnErr result ((core.new ≡ core.old) × (links.new ≡ links.old)) }
    ensures same_requests { OnErr result (requests.new ≡ requests.old) }
{
    let Some(stamp) = next_stamp(clock, 0) else {
        return Err(Refusal::Spent);
    };
    let Some(op) = requests.front() else {
        unreachable!()
    };
    let Ok(piece) = submission(alloc, stamp, op) else {
        return Err(Refusal::NoMemory);
    };
    let Some(op) = next_request(requests) else {
        unreachable!()
    };
    let answer = core.submit();
    hand(links, 0, piece);
    let event = Event::Submit { core: number, op };
    Ok(Stamped {
        stamp,
        done: Done { event, answer },
    })
}

// The bytes of a submission.
fn submission(alloc: Global, stamp: u64, op: &Op) -> Result<Vec<u8>, AllocError>
    requires { HasShortProgram op.now }
    ensures { IfOk result (λ piece. CanBeHanded piece × IsPiece stamp (message.Submit op.now) piece) }
{
    let op = op.clone()?;
    encode(alloc, stamp, &Message::Submit { op })
}

/// Submits the next request, where nothing is outstanding and the link to core 0 takes a message.
#[inline(never)]
pub(crate) fn begin<L: Links>(
    core: &mut OtherCore,
    links: &mut L,
    alloc: Global,
    number: u16,
    clock: u64,
    requests: &mut VecDeque<Op>,
    done: &mut Option<Stamped>,
) -> Result<(), Refusal>
    requires undone { done.old ≡ None }
    requires between { IsBetweenSteps core.old }
    requires short { All HasShortProgram requests.old.items }
    ensures acts { OnEvent (outcome result done.new) (λ s. (entry : ℕ) → number ≡ suc entry → ActsOther entry clock (L.view links.old) (L.view links.new) core.old core.new s) }
    ensures requests { OnEvent (outcome result done.new) (λ s. requests.old.items ≡ begins s.done.event ++ requests.new.items) }
    ensures jobs { OnEvent (outcome result done.new) (λ s. receives s.done.event ≡ []) }
    ensures whole { OnEvent (outcome result done.new) (λ s. IsUnshortened s.done.event) }
    ensures links { OnEvent (outcome result done.new) (λ s. L.same links.old links.new) }
    ensures lines { (p : ℕ) → L.flow links.new p ≡ L.flow links.old p }
    ensures least { OnEvent (outcome result done.new) (λ s. IsSubmission s.done.event) }
    ensures between { IsBetweenSteps core.new }
    ensures idle { OnIdle (outcome result done.new) (CanBeginOther core.old requests.old.items (L.view links.old) → ⊥) }
    ensures can { OnErr result (CanBeginOther core.old requests.old.items (L.view links.old)) }
    ensures why { IfErr result (CannotSubmit clock) }
    ensures same { OnNone (outcome result done.new) ((core.new ≡ core.old) × (links.new ≡ links.old)) }
    ensures same_requests { OnNone (outcome result done.new) (requests.new ≡ requests.old) }
{
    if requests.is_empty() {
        return Ok(());
    }
    if core.participant.outstanding() {
        return Ok(());
    }
    if !links.ready(0) {
        return Ok(());
    }
    put(done, submit(core, links, alloc, number, clock, requests)?);
    Ok(())
}
