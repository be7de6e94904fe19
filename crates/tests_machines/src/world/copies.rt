//! Copies of what the run of two phases speaks of: each is proved to be what it was made from, and is made once.

ghost use Rattle.std.specs.Prelude.{◌≡◌, IfOk};

use super::steps::{Asked, boot, event, operation, packet};
use crate::facts::holds;
use monitor_messages::{Message, Vote};
use pcap_reader::SharedPacket;
use std::alloc::{AllocError, Global};
use std::process::Abort;
use table_replica::Op;
use test_words::{ARP, Ask, REQUEST};
use world_core::{Answer, Done, Event, Messages, WorldOver};

fn packet_of(packet: &SharedPacket) -> Result<SharedPacket, AllocError>
    ensures { IfOk result (λ copy. copy ≡ packet.now) }
{
    packet.clone()
}

fn op_of(op: &Op) -> Result<Op, AllocError>
    ensures { IfOk result (λ copy. copy ≡ op.now) }
{
    op.clone()
}

fn message_of(message: &Message) -> Result<Message, AllocError>
    ensures { IfOk result (λ copy. copy ≡ message.now) }
{
    message.clone()
}

fn event_of(event: &Event) -> Result<Event, AllocError>
    ensures { IfOk result (λ copy. copy ≡ event.now) }
{
    event.clone()
}

fn answer_of(answer: &Answer) -> Result<Answer, AllocError>
    ensures { IfOk result (λ copy. copy ≡ answer.now) }
{
    answer.clone()
}

/// The events of a run of two phases, each of which is done.
static EVENTS: [Asked; 13] = [
    Asked::Start(Ask::Create(1, 7)),
    Asked::Take(1, 0),
    Asked::Take(0, 1),
    Asked::Take(1, 0),
    Asked::Take(0, 1),
    Asked::Rx(1, &REQUEST, 0),
    Asked::Start(Ask::Install(1, 1, ARP)),
    Asked::Take(1, 0),
    Asked::Take(0, 1),
    Asked::Take(1, 0),
    Asked::Take(0, 1),
    Asked::Rx(0, &REQUEST, 0),
    Asked::Rx(1, &REQUEST, 0),
];

/// The event is done. It is copied, and so are its answer and both together.
fn is_copied(rt: &impl Abort, alloc: Global, world: &mut WorldOver<Messages>, asked: Asked) {
    let event = event(rt, alloc, asked);
    match world.apply(&event) {
        Ok(answer) => {
            holds(rt, event_of(&event).is_ok());
            holds(rt, answer_of(&answer).is_ok());
            holds(rt, Done { event, answer }.clone().is_ok());
        }
        Err(_) => panic!(rt; "the event is done"),
    }
}

#[test]
fn events_are_copied(rt: HostRuntime) {
    let mut world = boot::<Messages>(&rt, rt.alloc(), &[100, 100]);
    for asked in &EVENTS {
        is_copied(&rt, rt.alloc(), &mut world, *asked);
    }
    drop(world);
}

fn are_copied(rt: &impl Abort, alloc: Global, txn: u64, ask: Ask) {
    let op = operation(rt, alloc, ask);
    holds(rt, op_of(&op).is_ok());
    let vote = Vote::Yes;
    for message in [
        Message::Vote { txn, vote },
        Message::Commit { txn },
        Message::Ack { txn },
        Message::Prepare { txn, op },
    ] {
        holds(rt, message_of(&message).is_ok());
    }
}

#[test]
fn packets_and_messages_are_copied(rt: HostRuntime) {
    holds(&rt, packet_of(&packet(&rt, rt.alloc(), &REQUEST)).is_ok());
    are_copied(&rt, rt.alloc(), 1, Ask::Create(1, 7));
    are_copied(&rt, rt.alloc(), 2, Ask::Install(1, 1, ARP));
}
