//! The next event of a core, whichever part it has.

ghost use Rattle.std.specs.Prelude.{◌≡◌, ◌≢◌, ◌≤◌, ◌<◌, ◌++◌, [], ℕ, false, None, IfErr, IfSome, IfNone, IsTrue, OnErr};
ghost use Rattle.world_events.specs.declared.event.Event.TheVariants.{Take};
ghost use Rattle.core_loop.specs.Attempts.{Attempts};
ghost use Rattle.core_loop.specs.Turning.{IsUnshortened};
ghost use Rattle.core_loop.specs.Events.{Acts};
ghost use Rattle.core_loop.specs.Outcomes.{OnEvent, OnNone, OnIdle, outcome};
ghost use Rattle.core_loop.specs.Cores.{begins, AreShort};
ghost use mathlib.Core.List.{IsPrefix};
ghost use Rattle.rx_queue.specs.declared.job.Job.{Job as GhostJob};
ghost use Rattle.rx_queue.specs.Queue.{jobs_seen, jobs_taken, SameIntake};
ghost use Rattle.core_loop.specs.Receipts.{IsReceivable, Receives, receives, CannotReceive};
ghost use Rattle.core_loop.specs.Beginning.{CanBeginNext, CannotBegin, IsFitting};
ghost use Rattle.core_loop.specs.Taking.{CannotTake, IsUnread, TakeHalts};
ghost use Rattle.core_loop.specs.Carrying.{IsFirst};
ghost use Rattle.core_loop.specs.Choosing.{ShowsNothing, IsLeastShowing, IsKnownAnswered, MustWait, NoMessageNow, IsNextRequest};

use crate::cause::Cause;
use crate::context::Context;
use crate::part::Part;
use crate::putting::put;
use crate::receiving::receive;
use crate::refusal::{Halt, Refusal};
use crate::{core0, other_core};
use core_links::Links;
use core_steps::Unread;
use filter_table::Op;
use monitor_messages::{DecodeFault, Message, decode};
use rx_queue::Intake;
use std::collections::VecDeque;
use table_replica::{Replica, Workspace};
use world_histories::Stamped;

/// Begins the next request of a core of this number, if it can.
#[inline(always)]
pub(crate) fn begin<L: Links>(
    part: &mut Part,
    links: &mut L,
    requests: &mut VecDeque<Op>,
    context: Context,
    done: &mut Option<Stamped>,
) -> Result<(), Refusal>
    requires undone { done.old ≡ None }
    requires cores { 1 ≤ context.cores }
    requires fits { IsFitting context.number context.cores part.old }
    requires short { AreShort context.number requests.old.items }
    ensures acts { OnEvent (outcome result done.new) (Acts context.number context.cores context.clock (L.view links.old) (L.view links.new) part.old part.new) }
    ensures in_turn { OnEvent (outcome result done.new) (λ s. IsNextRequest context.cores context.begun_last part.old requests.old.items s.done.event) }
    ensures requests { OnEvent (outcome result done.new) (λ s. requests.old.items ≡ begins s.done.event ++ requests.new.items) }
    ensures jobs { OnEvent (outcome result done.new) (λ s. receives s.done.event ≡ []) }
    ensures whole { OnEvent (outcome result done.new) (λ s. IsUnshortened s.done.event) }
    ensures links { OnEvent (outcome result done.new) (λ _. L.same links.old links.new) }
    ensures lines { (p : ℕ) → L.flow links.new p ≡ L.flow links.old p }
    ensures idle { OnIdle (outcome result done.new) (CanBeginNext context.cores part.old requests.old.items (L.view links.old) → ⊥) }
    ensures why { IfErr result (CannotBegin context.cores context.clock part.old requests.old.items (L.view links.old)) }
    ensures same { OnNone (outcome result done.new) ((part.new ≡ part.old) × (links.new ≡ links.old)) }
    ensures same_requests { OnNone (outcome result done.new) (requests.new ≡ requests.old) }
{
    let Context {
        alloc,
        number,
        cores,
        clock,
        begun_last,
    } = context;
    match part {
        Part::Core0(core) => core0::begin(
            core,
            links,
            alloc,
            cores - 1,
            clock,
            begun_last,
            requests,
            done,
        ),
        Part::OtherCore(core) => other_core::begin(
            core, links, alloc, number, clock, requests, done,
        ),
    }
}

/// Takes the first message that is kept of a peer, which this is, with its stamp.
pub(crate) fn take<L: Links>(
    part: &mut Part,
    links: &mut L,
    peer: u16,
    sent: u64,
    message: Message,
    context: Context,
    done: &mut Option<Stamped>,
) -> Result<(), Refusal>
    requires undone { done.old ≡ None }
    requires inside { peer < context.cores }
    requires fits { IsFitting context.number context.cores part.old }
    requires first { IsFirst (L.view links.old peer) (record { stamp = sent; message = message }) }
    ensures acts { OnEvent (outcome result done.new) (Acts context.number context.cores context.clock (L.view links.old) (L.view links.new) part.old part.new) }
    ensures event { OnEvent (outcome result done.new) (λ s. s.done.event ≡ Take context.number peer false) }
    ensures links { OnEvent (outcome result done.new) (λ _. L.same links.old links.new) }
    ensures some { OnIdle (outcome result done.new) ⊥ }
    ensures undone { OnErr result (done.new ≡ None) }
    ensures lines { (p : ℕ) → L.flow links.new p ≡ L.flow links.old p }
    ensures why { IfErr result (CannotTake context.cores context.clock peer part.old (record { stamp = sent; message = message }) (L.view links.old)) }
    ensures same { OnNone (outcome result done.new) ((part.new ≡ part.old) × (links.new ≡ links.old)) }
{
    let Context {
        alloc,
        number,
        cores,
        clock,
        begun_last: _,
    } = context;
    match part {
        Part::Core0(core) => core0::take(core, links, cores - 1, clock, peer, sent, message, done),
        Part::OtherCore(core) => {
            if peer != 0 {
                drop(message);
                return Err(Refusal::Stranger);
            }
            let taken = other_core::take(core, links, alloc, number, clock, sent, &message, done);
            drop(message);
            taken
        }
    }
}

/// Takes the first message that is kept of a peer, which has one, where the links that its answer needs take messages.
// Not in line, as what is begun instead: so neither has the room of the other on the stack.
#[inline(never)]
pub(crate) fn take_kept<L: Links>(
    part: &mut Part,
    links: &mut L,
    peer: u16,
    context: Context,
    done: &mut Option<Stamped>,
) -> Result<(), Halt>
    requires undone { done.old ≡ None }
    requires inside { peer < context.cores }
    requires fits { IsFitting context.number context.cores part.old }
    requires shows { (L.view links.old peer).kept ≢ [] }
    ensures acts { OnEvent (outcome result done.new) (Acts context.number context.cores context.clock (L.view links.old) (L.view links.new) part.old part.new) }
    ensures event { OnEvent (outcome result done.new) (λ s. s.done.event ≡ Take context.number peer false) }
    ensures links { OnEvent (outcome result done.new) (λ _. L.same links.old links.new) }
    ensures lines { (p : ℕ) → L.flow links.new p ≡ L.flow links.old p }
    ensures waits { OnIdle (outcome result done.new) (MustWait context.cores part.old peer (L.view links.old)) }
    ensures why { IfErr result (TakeHalts context.cores context.clock peer part.old (L.view links.old)) }
    ensures same { OnNone (outcome result done.new) ((part.new ≡ part.old) × (links.new ≡ links.old)) }
{
    let Some(bytes) = links.shown(peer) else {
        return Ok(());
    };
    if is_answered(part, bytes) && !links.ready(0) {
        return Ok(());
    }
    match decode(context.alloc, bytes) {
        Err(DecodeFault::BadMessage) => Err(Halt::Stopped(Cause::BadMessage)),
        Err(DecodeFault::NoMemory) => take_unread(part, links, peer, context, done),
        Ok((sent, message)) => match take(part, links, peer, sent, message, context, done) {
            Ok(()) => Ok(()),
            Err(Refusal::NotReady) => Ok(()),
            Err(Refusal::Spent) => Err(Halt::Spent),
            Err(Refusal::NoMemory) => unreachable!(),
            Err(Refusal::Stranger) => Err(Halt::Stopped(Cause::Stranger)),
        },
    }
}

/// The same where memory is refused to the program that the message brings: a core other than core 0 votes NoMemory.
#[inline(never)]
fn take_unread<L: Links>(
    part: &mut Part,
    links: &mut L,
    peer: u16,
    context: Context,
    done: &mut Option<Stamped>,
) -> Result<(), Halt>
    requires undone { done.old ≡ None }
    requires inside { peer < context.cores }
    requires fits { IsFitting context.number context.cores part.old }
    requires carries { IsUnread (L.view links.old peer) }
    ensures acts { OnEvent (outcome result done.new) (Acts context.number context.cores context.clock (L.view links.old) (L.view links.new) part.old part.new) }
    ensures event { OnEvent (outcome result done.new) (λ s. s.done.event ≡ Take context.number peer false) }
    ensures links { OnEvent (outcome result done.new) (λ _. L.same links.old links.new) }
    ensures lines { (p : ℕ) → L.flow links.new p ≡ L.flow links.old p }
    ensures waits { OnIdle (outcome result done.new) (MustWait context.cores part.old peer (L.view links.old)) }
    ensures why { IfErr result (TakeHalts context.cores context.clock peer part.old (L.view links.old)) }
    ensures same { OnNone (outcome result done.new) ((part.new ≡ part.old) × (links.new ≡ links.old)) }
{
    let Part::OtherCore(core) = part else {
        return Err(Halt::NoMemory);
    };
    let Some(bytes) = links.shown(peer) else {
        unreachable!()
    };
    let ballot = match core.consider_unread(bytes) {
        Err(Unread::BadMessage) => return Err(Halt::Stopped(Cause::BadMessage)),
        Err(Unread::Stranger) => return Err(Halt::Stopped(Cause::Stranger)),
        Ok(ballot) => ballot,
    };
    if peer != 0 {
        return Err(Halt::Stopped(Cause::Stranger));
    }
    match other_core::cast(core, links, context.number, context.clock, ballot) {
        Ok(stamped) => {
            put(done, stamped);
            Ok(())
        }
        Err(Refusal::NotReady) => Ok(()),
        Err(Refusal::Spent) => Err(Halt::Spent),
        Err(Refusal::NoMemory | Refusal::Stranger) => unreachable!(),
    }
}

/// Whether a message of this kind is answered over the link to core 0. Its first byte tells, so a message that must wait
/// isn't decoded at each turn.
pub(crate) fn is_answered(part: &Part, bytes: &[u8]) -> bool
    ensures { IsTrue result → IsKnownAnswered part.now bytes.now }
{
    match part {
        Part::Core0(_) => false,
        Part::OtherCore(_) => matches!(bytes.first(), Some(1 | 3 | 4)),
    }
}

/// Receives the front job, if it can.
// Not in line, so that a request that is begun has the room of the receipt on the stack.
#[inline(never)]
fn receive_front(
    replica: &Replica,
    intake: &mut Intake,
    workspace: &mut Workspace,
    context: Context,
    done: &mut Option<Stamped>,
) -> Result<(), Refusal>
    requires undone { done.old ≡ None }
    ensures receives { OnEvent (outcome result done.new) (Receives context.number context.clock replica.now) }
    ensures queue { SameIntake intake.old intake.new }
    ensures taken { OnEvent (outcome result done.new) (λ s. jobs_taken intake.new ≡ jobs_taken intake.old ++ receives s.done.event) }
    ensures front { OnEvent (outcome result done.new) (λ s. IsPrefix (jobs_seen intake.old) (receives s.done.event ++ jobs_seen intake.new)) }
    ensures kept { OnNone (outcome result done.new) (jobs_taken intake.new ≡ jobs_taken intake.old) }
    ensures seen { OnNone (outcome result done.new) (IsPrefix (jobs_seen intake.old) (jobs_seen intake.new)) }
    ensures idle { OnIdle (outcome result done.new) ((job : GhostJob) → IsReceivable replica.now.shown.version intake.new job → ⊥) }
    ensures can { OnErr result ((job : GhostJob) × IsReceivable replica.now.shown.version intake.new job) }
    ensures why { IfErr result (CannotReceive context.clock) }
{
    match receive(replica, intake, workspace, context) {
        Ok(None) => Ok(()),
        Ok(Some(stamped)) => {
            put(done, stamped);
            Ok(())
        }
        Err(refusal) => Err(refusal),
    }
}

/// Begins the next request, or receives the front job where `rx` is true: what comes where no message can be taken.
#[inline(always)]
pub(crate) fn begin_or_receive<L: Links>(
    part: &mut Part,
    links: &mut L,
    requests: &mut VecDeque<Op>,
    intake: &mut Intake,
    workspace: &mut Workspace,
    context: Context,
    rx: bool,
    done: &mut Option<Stamped>,
) -> Result<(), Halt>
    requires undone { done.old ≡ None }
    requires cores { 1 ≤ context.cores }
    requires fits { IsFitting context.number context.cores part.old }
    requires short { AreShort context.number requests.old.items }
    requires no_message { NoMessageNow context.cores part.old (L.view links.old) }
    ensures { Attempts L.view L.flow L.same context rx
        (record { part = part.old; links = links.old; requests = requests.old.items; intake = intake.old })
        (record { part = part.new; links = links.new; requests = requests.new.items; intake = intake.new })
        (outcome result done.new) }
{
    match begin(part, links, requests, context, done) {
        Err(Refusal::Spent) => Err(Halt::Spent),
        Err(_) => Err(Halt::NoMemory),
        Ok(()) => match done {
            Some(_) => Ok(()),
            None => {
                if !rx {
                    return Ok(());
                }
                match receive_front(part.replica(), intake, workspace, context, done) {
                    Ok(()) => Ok(()),
                    Err(Refusal::Spent) => Err(Halt::Spent),
                    Err(_) => Err(Halt::NoMemory),
                }
            }
        },
    }
}

/// Does the first event that can be done, by what its links show: `shown` is the least peer that shows a message.
pub(crate) fn first_event<L: Links>(
    part: &mut Part,
    links: &mut L,
    requests: &mut VecDeque<Op>,
    intake: &mut Intake,
    workspace: &mut Workspace,
    shown: Option<u16>,
    context: Context,
    rx: bool,
    done: &mut Option<Stamped>,
) -> Result<(), Halt>
    requires undone { done.old ≡ None }
    requires cores { 1 ≤ context.cores }
    requires fits { IsFitting context.number context.cores part.old }
    requires short { AreShort context.number requests.old.items }
    requires least { IfSome shown (IsLeastShowing context.cores (L.view links.old)) }
    requires none { IfNone shown ((p : ℕ) → p < context.cores → ShowsNothing (L.view links.old p)) }
    ensures { Attempts L.view L.flow L.same context rx
        (record { part = part.old; links = links.old; requests = requests.old.items; intake = intake.old })
        (record { part = part.new; links = links.new; requests = requests.new.items; intake = intake.new })
        (outcome result done.new) }
{
    let Some(peer) = shown else {
        return begin_or_receive(part, links, requests, intake, workspace, context, rx, done);
    };
    match take_kept(part, links, peer, context, done) {
        Err(halt) => Err(halt),
        Ok(()) => match done {
            Some(_) => Ok(()),
            None => begin_or_receive(part, links, requests, intake, workspace, context, rx, done),
        },
    }
}
