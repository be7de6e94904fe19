//! Messages through channels of both kinds.

ghost use Rattle.std.specs.Prelude.{IsTrue, ◌≤◌};
ghost use Rattle.filter_table.specs.Tables.{HasShortProgram};
ghost use Rattle.monitor_messages.specs.Coding.{IsShort};

use crate::facts::equal;
use monitor_messages::{Message, decode, encode};
use std::alloc::{AllocError, Global};
use std::process::Abort;
use table_replica::Op;
use world_core::{Channel, Lines, Messages};

/// The operation has no program, or one of at most 4,096 instructions.
fn has_short_program(op: &Op) -> bool
    ensures { IsTrue result → HasShortProgram op.now }
{
    match op {
        Op::Install { program, .. } | Op::Replace { program, .. } => {
            program.as_slice().len() <= 4096
        }
        _ => true,
    }
}

/// So has the message.
fn is_short(message: &Message) -> bool
    ensures { IsTrue result → IsShort message.now }
{
    match message {
        Message::Prepare { op, .. } | Message::Submit { op } => has_short_program(op),
        _ => true,
    }
}

/// The bytes of this message under stamp 1; of none no byte.
fn bytes_of(rt: &impl Abort, alloc: Global, message: &Option<Message>) -> Vec<u8> {
    match message {
        None => Vec::new(alloc),
        Some(message) => {
            if !is_short(message) {
                rt.abort()
            }
            encode(alloc, 1, message).expect(rt, "there is memory")
        }
    }
}

/// The oldest message has these bytes under stamp 1; none is there where they are none.
fn is_first<C: Channel>(rt: &impl Abort, alloc: Global, channel: &C, wanted: &[u8]) {
    let oldest = channel.first().expect(rt, "there is memory");
    equal(rt, bytes_of(rt, alloc, &oldest).as_slice(), wanted);
}

/// A piece of the message of these bytes.
fn piece_of<C: Channel>(rt: &impl Abort, alloc: Global, channel: &mut C, bytes: &[u8]) -> C::Piece
    ensures { 1 ≤ C.spare channel.new }
{
    let (_, message) = decode(alloc, bytes).expect(rt, "a message");
    channel.prepare(&message).expect(rt, "there is memory")
}

/// Puts the messages of these bytes.
fn put_all<C: Channel>(rt: &impl Abort, alloc: Global, channel: &mut C, messages: &[&[u8]]) {
    for bytes in messages {
        let piece = piece_of(rt, alloc, channel, bytes);
        channel.put(piece);
    }
}

/// The messages have these bytes.
fn are_taken<C: Channel>(rt: &impl Abort, alloc: Global, channel: &mut C, messages: &[&[u8]]) {
    for bytes in messages {
        is_first(rt, alloc, channel, bytes);
        channel.drop_first();
    }
    is_first(rt, alloc, channel, &[]);
}

/// What is put is taken in the same order.
fn in_order<C: Channel>(rt: &impl Abort, alloc: Global, messages: &[&[u8]]) {
    let mut channel = C::new(alloc).expect(rt, "there is memory");
    is_first(rt, alloc, &channel, &[]);
    channel.drop_first();
    is_first(rt, alloc, &channel, &[]);
    put_all(rt, alloc, &mut channel, messages);
    are_taken(rt, alloc, &mut channel, messages);
}

/// A Prepare of a Create, a Reply, a Commit, and a Reply that a program was refused.
static MESSAGES: [&[u8]; 4] = [
    &[
        1, 1, 0, 0, 0, 0, 0, 0, 0, 1, 0, 0, 0, 0, 0, 0, 0, 1, 1, 0, 7, 0,
    ],
    &[
        7, 1, 0, 0, 0, 0, 0, 0, 0, 0, 1, 0, 0, 0, 0, 0, 0, 0, 1, 1, 0, 0, 0,
    ],
    &[3, 1, 0, 0, 0, 0, 0, 0, 0, 2, 0, 0, 0, 0, 0, 0, 0],
    &[7, 1, 0, 0, 0, 0, 0, 0, 0, 1, 0, 0, 2, 17, 10, 255, 15],
];

#[test]
fn messages_in_order(rt: HostRuntime) {
    in_order::<Messages>(&rt, rt.alloc(), &MESSAGES);
    in_order::<Lines>(&rt, rt.alloc(), &MESSAGES);
}

/// The votes Yes, Budget and NoMemory on number 5.
static VOTES: [&[u8]; 3] = [
    &[2, 1, 0, 0, 0, 0, 0, 0, 0, 5, 0, 0, 0, 0, 0, 0, 0, 0],
    &[2, 1, 0, 0, 0, 0, 0, 0, 0, 5, 0, 0, 0, 0, 0, 0, 0, 1],
    &[2, 1, 0, 0, 0, 0, 0, 0, 0, 5, 0, 0, 0, 0, 0, 0, 0, 2],
];

/// Of the pieces of these votes only the second is put.
fn put_one_of_three<C: Channel>(rt: &impl Abort, alloc: Global, channel: &mut C) {
    let _yes = piece_of(rt, alloc, channel, VOTES[0]);
    let budget = piece_of(rt, alloc, channel, VOTES[1]);
    let _memory = piece_of(rt, alloc, channel, VOTES[2]);
    channel.put(budget);
}

fn one_of_three<C: Channel>(rt: &impl Abort, alloc: Global) {
    let mut channel = C::new(alloc).expect(rt, "there is memory");
    put_one_of_three(rt, alloc, &mut channel);
    are_taken(rt, alloc, &mut channel, &[VOTES[1]]);
}

#[test]
fn one_piece_of_three(rt: HostRuntime) {
    one_of_three::<Messages>(&rt, rt.alloc());
    one_of_three::<Lines>(&rt, rt.alloc());
}

/// The longest message: a Prepare of this number of an Install of 4,096 instructions by domain 1 under capability 2, 32,794 bytes.
pub(crate) fn long_prepare(alloc: Global, txn: u8) -> Result<Vec<u8>, AllocError> {
    let mut bytes = Vec::from_slice(
        alloc,
        &[1, 1, 0, 0, 0, 0, 0, 0, 0, txn, 0, 0, 0, 0, 0, 0, 0],
    )?;
    bytes.extend_from_slice(&[5, 1, 0, 2, 0, 0, 0, 0, 16])?;
    for k in 0..4096u32 {
        let k = k % 1000;
        bytes.extend_from_slice(&[6, 0, 0, 0, (k % 256) as u8, (k / 256) as u8, 0, 0])?;
    }
    Ok(bytes)
}

/// The longest messages, each with an Abort after it.
#[test]
fn the_longest_messages(rt: HostRuntime) {
    let alloc = rt.alloc();
    let first = long_prepare(alloc, 1).expect(&rt, "there is memory");
    let second = long_prepare(alloc, 2).expect(&rt, "there is memory");
    let third = long_prepare(alloc, 3).expect(&rt, "there is memory");
    let messages = [
        first.as_slice(),
        &[4, 1, 0, 0, 0, 0, 0, 0, 0, 1, 0, 0, 0, 0, 0, 0, 0],
        second.as_slice(),
        &[4, 1, 0, 0, 0, 0, 0, 0, 0, 2, 0, 0, 0, 0, 0, 0, 0],
        third.as_slice(),
        &[4, 1, 0, 0, 0, 0, 0, 0, 0, 3, 0, 0, 0, 0, 0, 0, 0],
    ];
    in_order::<Messages>(&rt, alloc, &messages);
    in_order::<Lines>(&rt, alloc, &messages);
}
