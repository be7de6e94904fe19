//! The messages of a trace: which event sends which, and which event takes it.

ghost use Rattle.std.specs.Prelude.{◌≡◌, ◌≤◌, ◌+◌, ◌-◌, ◌==◌, ◌&&◌, ◌∷◌, ◌++◌, ℕ, List, length, filter, min, take, slice_get, option_map, if◌then◌else◌, OnOk, IfOk};
ghost use Rattle.std.specs.List.{position_or_len};
ghost use Rattle.trace_lines.specs.declared.event.TraceEvent.{TraceEvent as Past};
ghost use Rattle.trace_lines.specs.Following.{Follows, HasTaken, front, is_front};
ghost use Rattle.trace_lines.specs.Links as spec;

use crate::event::{Act, TraceAnswer, TraceEvent};
use std::alloc::{AllocError, Global};

/// The words of the protocol.
#[derive(Clone, Copy, Debug, PartialEq, Eq)]
pub enum MessageKind {
    Prepare,
    Vote,
    Commit,
    Abort,
    Ack,
    Submit,
    Reply,
}

/// What an event sends.
#[derive(Clone, Copy, Debug, PartialEq, Eq)]
pub enum Effect {
    Nothing,
    /// Core 0 asks each other core to vote on a request of this core.
    Asks(u16),
    /// Core 0 sends each other core what was decided.
    Decides(MessageKind),
    /// Core 0 sends this core a message.
    Down(u16, MessageKind),
    /// This core sends core 0 a message.
    Up(u16, MessageKind),
    /// Core 0 takes an acknowledgement.
    Acked,
}

/// A message.
#[derive(Clone, Copy, Debug, PartialEq, Eq)]
pub struct TraceMessage {
    pub kind: MessageKind,
    pub from: u16,
    pub to: u16,
    /// The place of the event that sent it, from 0.
    pub row: usize,
}

/// How far the messages between two cores were taken.
#[derive(Clone, Copy)]
pub(crate) struct Front {
    pub from: u16,
    pub to: u16,
    /// All those before this place in the list of all messages were taken, and none from there on.
    pub place: usize,
}

/// What the events before have sent and taken.
#[derive(Drop)]
pub(crate) struct State {
    /// All messages, in the order in which they were sent.
    pub messages: Vec<TraceMessage>,
    /// A front for each two cores between which a message was taken.
    pub fronts: Vec<Front>,
    /// The core whose request was put to the vote last.
    pub asker: u16,
    /// How many acknowledgements are to come.
    pub acks: u16,
}

fn effect_at(act: Act, told: TraceAnswer) -> Effect
    ensures { result ≡ spec.effect_at act told }
{
    match (act, told) {
        (Act::Start, TraceAnswer::Prepared) => Effect::Asks(0),
        (Act::StartFor(core), TraceAnswer::Prepared) => Effect::Asks(core),
        (Act::StartFor(core), TraceAnswer::Committed | TraceAnswer::Refused) => Effect::Down(
            core,
            MessageKind::Reply,
        ),
        (Act::Submit(core), TraceAnswer::Sent) => Effect::Up(core, MessageKind::Submit),
        (Act::TakeDown(core), TraceAnswer::Prepare) => Effect::Up(core, MessageKind::Vote),
        (Act::TakeDown(core), TraceAnswer::Commit | TraceAnswer::Abort) => Effect::Up(
            core,
            MessageKind::Ack,
        ),
        (Act::TakeUp(_), TraceAnswer::VoteCommits) => Effect::Decides(MessageKind::Commit),
        (Act::TakeUp(_), TraceAnswer::VoteRefuses) => Effect::Decides(MessageKind::Abort),
        (Act::TakeUp(_), TraceAnswer::Ack) => Effect::Acked,
        _ => Effect::Nothing,
    }
}

fn ends_at(act: Act, told: TraceAnswer) -> Option<(u16, u16)>
    ensures { result ≡ spec.ends_at act told }
{
    match (act, told) {
        (_, TraceAnswer::Fault) => None,
        (Act::TakeUp(core), _) => Some((core, 0)),
        (Act::TakeDown(core), _) => Some((0, core)),
        _ => None,
    }
}

fn is_between(from: u16, to: u16, message: &TraceMessage) -> bool
    ensures { result ≡ spec.is_between from to message.now }
{
    message.from == from && message.to == to
}

/// The place of the first message between two cores, or the number of messages.
fn first_between(from: u16, to: u16, messages: &[TraceMessage]) -> usize
    ensures place { result ≡ position_or_len (spec.is_between from to) messages.now }
    ensures within { result ≤ length messages.now }
{
    messages
        .iter()
        .take_while(|m| !is_between(from, to, m))
        .count()
}

/// Up to where the messages between two cores were taken.
fn front_of(fronts: &[Front], from: u16, to: u16) -> usize
    ensures { result ≡ front from to fronts.now }
{
    for front in fronts {
        if front.from == from && front.to == to {
            return front.place;
        }
    }
    0
}

/// The place of the front between two cores, or the number of fronts.
fn place_of_front(fronts: &[Front], from: u16, to: u16) -> usize
    ensures place { result ≡ position_or_len (is_front from to) fronts.now }
    ensures within { result ≤ length fronts.now }
{
    fronts
        .iter()
        .take_while(|f| !(f.from == from && f.to == to))
        .count()
}

/// Says up to where they were.
fn set_front(fronts: &mut Vec<Front>, set: Front) -> Result<(), AllocError>
    ensures { OnOk result ((from to : ℕ) → front from to fronts.new.items
        ≡ (if set.from == from && set.to == to then set.place else front from to fronts.old.items)) }
{
    let place = place_of_front(fronts, set.from, set.to);
    if place < fronts.len() {
        fronts[place] = set;
    } else {
        fronts.push(set)?;
    }
    Ok(())
}

/// The row of the sender of the first message between two cores from a place on, and the place after that message.
fn next_between(
    from: u16,
    to: u16,
    messages: &[TraceMessage],
    start: usize,
) -> (Option<usize>, usize)
    requires { start ≤ length messages.now }
    ensures sender { result.0 ≡ option_map (λ m. m.row) (slice_get (filter (spec.is_between from to) messages.now)
        (length (filter (spec.is_between from to) (take start messages.now)))) }
    ensures counted { length (filter (spec.is_between from to) (take result.1 messages.now))
        ≡ min (length (filter (spec.is_between from to) (take start messages.now)) + 1) (length (filter (spec.is_between from to) messages.now)) }
    ensures within { result.1 ≤ length messages.now }
{
    let place = start + first_between(from, to, &messages[start..]);
    if place < messages.len() {
        (Some(messages[place].row), place + 1)
    } else {
        (None, messages.len())
    }
}

/// Takes the oldest message between two cores, and answers the row of its sender.
fn take(state: &mut State, ends: Option<(u16, u16)>) -> Result<Option<usize>, AllocError>
    requires { (from to : ℕ) → front from to state.old.fronts.items ≤ length state.old.messages.items }
    ensures sender { IfOk result (λ row. (highest : ℕ) (past : List Past) → Follows highest past state.old → row ≡ spec.sender highest past ends) }
    ensures taken { OnOk result ((highest : ℕ) (past : List Past) → Follows highest past state.old → HasTaken highest past ends state.new) }
{
    let Some((from, to)) = ends else {
        return Ok(None);
    };
    let start = front_of(&state.fronts, from, to);
    let (sender, place) = next_between(from, to, &state.messages, start);
    set_front(&mut state.fronts, Front { from, to, place })?;
    Ok(sender)
}

/// Sends a message to each core but core 0.
fn send_to_others(
    messages: &mut Vec<TraceMessage>,
    highest: u16,
    kind: MessageKind,
    row: usize,
) -> Result<(), AllocError>
    ensures { OnOk result (messages.new.items ≡ messages.old.items ++ spec.to_others highest kind row) }
{
    for to in 1..=highest {
        messages.push(TraceMessage {
            kind,
            from: 0,
            to,
            row,
        })?;
    }
    Ok(())
}

/// Takes an acknowledgement into account.
fn acknowledge(state: &mut State, row: usize) -> Result<(), AllocError>
    ensures messages { OnOk result ((highest : ℕ) (past : List Past) → row ≡ length past → state.old.asker ≡ spec.asker past
        → state.old.acks ≡ highest - spec.acks past → state.new.messages.items ≡ state.old.messages.items ++ spec.reply highest past) }
    ensures acks { OnOk result (state.new.acks ≡ state.old.acks - 1) }
    ensures asker { OnOk result (state.new.asker ≡ state.old.asker) }
    ensures fronts { OnOk result (state.new.fronts.items ≡ state.old.fronts.items) }
{
    if state.acks == 1 && state.asker != 0 {
        let message = TraceMessage {
            kind: MessageKind::Reply,
            from: 0,
            to: state.asker,
            row,
        };
        state.messages.push(message)?;
    }
    state.acks = state.acks.saturating_sub(1);
    Ok(())
}

/// Does what an event at this row sends.
fn apply(state: &mut State, highest: u16, row: usize, effect: Effect) -> Result<(), AllocError>
    ensures messages { OnOk result ((past : List Past) → row ≡ length past → state.old.asker ≡ spec.asker past
        → state.old.acks ≡ highest - spec.acks past → state.new.messages.items ≡ state.old.messages.items ++ spec.sends highest past effect) }
    ensures acks { OnOk result ((acks : ℕ) → state.old.acks ≡ highest - acks → state.new.acks ≡ highest - spec.acks_after effect acks) }
    ensures asker { OnOk result (state.new.asker ≡ spec.asker_after effect state.old.asker) }
    ensures fronts { OnOk result (state.new.fronts.items ≡ state.old.fronts.items) }
{
    match effect {
        Effect::Nothing => Ok(()),
        Effect::Asks(core) => {
            send_to_others(&mut state.messages, highest, MessageKind::Prepare, row)?;
            state.asker = core;
            state.acks = highest;
            Ok(())
        }
        Effect::Decides(kind) => send_to_others(&mut state.messages, highest, kind, row),
        Effect::Down(core, kind) => {
            let message = TraceMessage {
                kind,
                from: 0,
                to: core,
                row,
            };
            state.messages.push(message)?;
            Ok(())
        }
        Effect::Up(core, kind) => {
            let message = TraceMessage {
                kind,
                from: core,
                to: 0,
                row,
            };
            state.messages.push(message)?;
            Ok(())
        }
        Effect::Acked => acknowledge(state, row),
    }
}

/// Does an event at this row, and answers the row of the sender of the message that it takes.
pub(crate) fn follow(
    state: &mut State,
    highest: u16,
    row: usize,
    event: TraceEvent,
) -> Result<Option<usize>, AllocError>
    requires { (from to : ℕ) → front from to state.old.fronts.items ≤ length state.old.messages.items }
    ensures sender { IfOk result (λ sender. (past : List Past) → Follows highest past state.old
        → sender ≡ spec.sender highest past (spec.ends_at event.act event.told)) }
    ensures follows { OnOk result ((past : List Past) → row ≡ length past → Follows highest past state.old
        → Follows highest (event ∷ past) state.new) }
{
    let TraceEvent { act, told } = event;
    let sender = take(state, ends_at(act, told))?;
    apply(state, highest, row, effect_at(act, told))?;
    Ok(sender)
}

/// The messages under way.
pub(crate) fn under_way(alloc: Global, state: &State) -> Result<Vec<TraceMessage>, AllocError>
    ensures { IfOk result (λ left. (highest : ℕ) (past : List Past) → Follows highest past state.now → left.items ≡ spec.under_way highest past) }
{
    let mut left = Vec::new(alloc);
    for (place, message) in state.messages.iter().enumerate() {
        let under_way = front_of(&state.fronts, message.from, message.to) <= place;
        push_if(&mut left, under_way, *message)?;
    }
    Ok(left)
}

fn push_if(
    left: &mut Vec<TraceMessage>,
    under_way: bool,
    message: TraceMessage,
) -> Result<(), AllocError>
    ensures { OnOk result (left.new.items ≡ left.old.items ++ spec.kept under_way message) }
{
    if under_way {
        left.push(message)?;
    }
    Ok(())
}
