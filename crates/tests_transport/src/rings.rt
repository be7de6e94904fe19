ghost use Rattle.std.specs.Prelude.{◌≡◌, ◌≤◌, length, vec_len};
ghost use Rattle.ump_ring.specs.Receivers.{SameReceiver};
ghost use Rattle.ump_ring.specs.Senders.{SameSender};

use crate::channels::long_prepare;
use crate::facts::{equal, holds};
use rtrb::RingBuffer;
use std::alloc::Global;
use std::process::Abort;
use std::sync::Wait;
use std::sync::atomic::{AtomicBool, Ordering};
use std::thread;
use ump_ring::{Joiner, Line, LineFault, Pushed, Receiver, Sender, beside, line_at, ring};

/// A message whose bytes differ.
fn message(rt: &impl Abort, alloc: Global, size: usize) -> Vec<u8>
    requires { size ≤ 32832 }
    ensures { vec_len result ≡ size }
{
    let mut bytes = Vec::with_capacity(alloc, size).expect(rt, "there is memory");
    for at in 0..size {
        bytes.push((at % 251) as u8).expect(rt, "there is memory");
    }
    bytes
}

/// Whether the receiver shows these bytes.
fn shows(receiver: &mut Receiver, wanted: &[u8]) -> bool
    ensures { SameReceiver receiver.old receiver.new }
{
    match receiver.look() {
        Ok(Some(bytes)) => bytes == wanted,
        _ => false,
    }
}

/// Whether the receiver gives these bytes.
fn takes(receiver: &mut Receiver, wanted: &[u8]) -> bool
    ensures { SameReceiver receiver.old receiver.new }
{
    match receiver.take() {
        Ok(Some(bytes)) => bytes == wanted,
        _ => false,
    }
}

/// Whether the receiver has no fault and no whole message.
fn shows_none(receiver: &mut Receiver) -> bool
    ensures { SameReceiver receiver.old receiver.new }
{
    match receiver.look() {
        Ok(None) => true,
        _ => false,
    }
}

/// Pushes and looks by turns until the receiver shows something. Gives the lines and the turns.
fn by_turns(sender: &mut Sender, receiver: &mut Receiver) -> (u64, u32) {
    let mut lines = 0u64;
    for turn in 1..600 {
        lines = lines.wrapping_add(u64::from(sender.push_some().lines));
        if !shows_none(receiver) {
            return (lines, turn);
        }
    }
    (lines, 600)
}

/// Nine full rings and ten lines, and then the message, which is taken once.
fn through_a_ring(rt: &impl Abort, alloc: Global, wanted: &[u8], sent: Vec<u8>)
    requires { (1 ≤ vec_len sent) × (vec_len sent ≤ 32832) }
{
    equal(rt, wanted.len(), 32_794);
    let (mut sender, mut receiver) = ring(alloc, 64).expect(rt, "there is memory");
    holds(rt, sender.offer(sent).is_ok());
    equal(rt, by_turns(&mut sender, &mut receiver), (586, 10));
    holds(rt, sender.idle());
    holds(rt, shows(&mut receiver, wanted));
    holds(rt, takes(&mut receiver, wanted));
    holds(rt, shows_none(&mut receiver));
}

/// Line 1 of a message comes twice.
fn one_line_twice(rt: &impl Abort, alloc: Global, bytes: &[u8])
    requires { length bytes.now ≤ 32832 }
{
    let mut joiner = Joiner::new(alloc).expect(rt, "there is memory");
    let again = line_at(bytes, 1, 1);
    equal(rt, joiner.line(&line_at(bytes, 0, 0)), Ok(false));
    equal(rt, joiner.line(&again), Ok(false));
    equal(rt, joiner.line(&again), Err(LineFault::OutOfSequence));
    holds(rt, joiner.message().is_none());
}

#[test]
fn a_long_message(rt: HostRuntime) {
    let alloc = rt.alloc();
    let wanted = message(&rt, alloc, 32_794);
    through_a_ring(&rt, alloc, &wanted, message(&rt, alloc, 32_794));
    one_line_twice(&rt, alloc, &wanted);
}

/// The longest message: that of a Prepare.
#[test]
fn the_longest_message(rt: HostRuntime) {
    let alloc = rt.alloc();
    let wanted = long_prepare(alloc, 1).expect(&rt, "there is memory");
    let sent = long_prepare(alloc, 1).expect(&rt, "there is memory");
    if wanted.len() != 32_794 || sent.len() != 32_794 {
        rt.abort()
    }
    through_a_ring(&rt, alloc, &wanted, sent);
    one_line_twice(&rt, alloc, &wanted);
}

/// A message of 22 bytes is one line: that of a Prepare of number 1 under stamp 1, a Create by domain 1 of endpoint 7.
#[test]
fn the_line_of_a_message(rt: HostRuntime) {
    let message = [
        1, 1, 0, 0, 0, 0, 0, 0, 0, 1, 0, 0, 0, 0, 0, 0, 0, 1, 1, 0, 7, 0,
    ];
    let words = [94489280512, 257, 256, 30064836864, 0, 0, 0, 0];
    equal(&rt, line_at(&message, 0, 0), words);
}

/// A line of these words 0 and 1, which has nothing else.
fn line(head: u64, word: u64) -> Line {
    [head, word, 0, 0, 0, 0, 0, 0]
}

/// The first line has this fault, and so has each line after it.
fn stops_at(rt: &impl Abort, alloc: Global, first: &Line, fault: LineFault) {
    let mut joiner = Joiner::new(alloc).expect(rt, "there is memory");
    equal(rt, joiner.line(first), Err(fault));
    equal(rt, joiner.line(&line(4294967296, 5)), Err(fault));
    equal(rt, joiner.fault(), Some(fault));
    holds(rt, joiner.message().is_none());
}

/// A first line that is a whole message of one byte.
fn one_byte(rt: &impl Abort, alloc: Global) {
    let mut joiner = Joiner::new(alloc).expect(rt, "there is memory");
    equal(rt, joiner.line(&line(4294967296, 5)), Ok(true));
    holds(rt, joiner.message() == Some(&[5]));
    equal(rt, joiner.fault(), None);
}

#[test]
fn faults_of_a_first_line(rt: HostRuntime) {
    let alloc = rt.alloc();
    one_byte(&rt, alloc);
    for (head, word, fault) in [
        (4294967296, 261, LineFault::BadLength),
        (0, 0, LineFault::BadLength),
        (141016661229568, 0, LineFault::BadLength),
        (4294967297, 261, LineFault::OutOfSequence),
    ] {
        stops_at(&rt, alloc, &line(head, word), fault);
    }
}

/// Nothing is there.
fn is_empty(rt: &impl Abort, receiver: &mut Receiver) {
    holds(rt, receiver.pull().is_ok());
    holds(rt, receiver.shown().is_none());
    holds(rt, !receiver.give_up());
}

/// The first message is shown until it is given up.
fn given_up_once(rt: &impl Abort, receiver: &mut Receiver) {
    holds(rt, receiver.pull().is_ok());
    holds(rt, receiver.pull().is_ok());
    holds(rt, receiver.shown() == Some(&[5]));
    holds(rt, receiver.give_up());
    holds(rt, receiver.shown().is_none());
    holds(rt, receiver.last() == Some(&[5]));
}

/// A line is out of sequence, and nothing is there.
fn is_stopped(rt: &impl Abort, receiver: &mut Receiver) {
    equal(rt, receiver.pull(), Err(LineFault::OutOfSequence));
    equal(rt, receiver.pull(), Err(LineFault::OutOfSequence));
    holds(rt, receiver.shown().is_none());
    holds(rt, !receiver.give_up());
}

#[test]
fn a_look_and_a_take_in_steps(rt: HostRuntime) {
    let alloc = rt.alloc();
    let (mut producer, consumer) = RingBuffer::<Line>::new(alloc, 8).expect(&rt, "there is memory");
    let mut receiver = Receiver::new(consumer, Joiner::new(alloc).expect(&rt, "there is memory"));
    is_empty(&rt, &mut receiver);
    for (head, word) in [(4294967296, 5), (4294967297, 6), (4294967297, 7)] {
        holds(&rt, producer.push(line(head, word)).is_ok());
    }
    given_up_once(&rt, &mut receiver);
    holds(&rt, takes(&mut receiver, &[6]));
    is_stopped(&rt, &mut receiver);
}

/// The sender pushes so many lines, and says whether the message has gone out whole.
fn pushes(rt: &impl Abort, sender: &mut Sender, lines: u32, whole: bool)
    ensures { SameSender sender.old sender.new }
{
    equal(rt, sender.push_some(), Pushed { lines, whole });
}

/// The sender hands this message back.
fn hands_back(rt: &impl Abort, sender: &mut Sender, message: Vec<u8>)
    requires { (1 ≤ vec_len message) × (vec_len message ≤ 32832) }
{
    let size = message.len();
    match sender.offer(message) {
        Ok(()) => rt.abort(),
        Err(busy) => equal(rt, busy.0.len(), size),
    }
}

#[test]
fn a_ring_of_one(rt: HostRuntime) {
    let alloc = rt.alloc();
    let (mut sender, mut receiver) = ring(alloc, 1).expect(&rt, "there is memory");
    let wanted = message(&rt, alloc, 57);
    holds(&rt, sender.offer(message(&rt, alloc, 57)).is_ok());
    pushes(&rt, &mut sender, 1, false);
    pushes(&rt, &mut sender, 0, false);
    hands_back(&rt, &mut sender, message(&rt, alloc, 3));
    holds(&rt, shows_none(&mut receiver));
    pushes(&rt, &mut sender, 1, true);
    holds(&rt, shows(&mut receiver, &wanted));
}

/// How long message number `number` is: most take one line to three, some take 587.
fn size_of(number: u64) -> usize
    ensures least { 1 ≤ result }
    ensures most { result ≤ 32832 }
{
    if number % 5_000 == 0 {
        32_832
    } else {
        (1 + number % 150) as usize
    }
}

/// Whether the sender takes message number `number`, of bytes that are its number modulo 251.
fn offers(alloc: Global, sender: &mut Sender, number: u64) -> bool
    ensures { SameSender sender.old sender.new }
{
    match vec![in alloc; (number % 251) as u8; size_of(number)] {
        Ok(message) => sender.offer(message).is_ok(),
        Err(_) => false,
    }
}

/// Sends messages with the numbers from 0 on, and says how many went out.
/// It ends where the other thread has.
fn send_all(
    rt: &impl Wait,
    alloc: Global,
    sender: Sender,
    count: u64,
    ended: &AtomicBool,
) -> (Sender, u64)
    ensures { SameSender sender result.0 }
{
    let mut sender = sender;
    let mut number = 0;
    for _ in rt.forever() {
        if ended.load(Ordering::SeqCst) {
            break;
        }
        if !sender.push_some().whole {
            thread::yield_now();
            continue;
        }
        if number >= count {
            return (sender, number);
        }
        if !offers(alloc, &mut sender, number) {
            break;
        }
        number += 1;
    }
    ended.store(true, Ordering::SeqCst);
    (sender, number)
}

/// Takes message number `number`, if it has come, and says whether it was right.
fn take_one(receiver: &mut Receiver, number: u64) -> Option<bool>
    ensures { SameReceiver receiver.old receiver.new }
{
    let wanted = (number % 251) as u8;
    match receiver.take() {
        Ok(Some(bytes)) => Some(bytes.len() == size_of(number) && are_all(bytes, wanted)),
        Ok(None) => None,
        Err(_) => Some(false),
    }
}

fn are_all(bytes: &[u8], wanted: u8) -> bool {
    for byte in bytes {
        if *byte != wanted {
            return false;
        }
    }
    true
}

/// Takes messages with the numbers from 0 on, and says how many were right. It ends where the other thread has.
fn take_all(rt: &impl Wait, receiver: Receiver, count: u64, ended: &AtomicBool) -> (Receiver, u64)
    ensures { SameReceiver receiver result.0 }
{
    let mut receiver = receiver;
    let mut number = 0;
    for _ in rt.forever() {
        if number >= count {
            return (receiver, number);
        }
        match take_one(&mut receiver, number) {
            Some(true) => number += 1,
            Some(false) => break,
            None => {
                if ended.load(Ordering::SeqCst) {
                    break;
                }
                thread::yield_now();
            }
        }
    }
    ended.store(true, Ordering::SeqCst);
    (receiver, number)
}

#[test]
fn messages_go_from_thread_to_thread(rt: HostRuntime) {
    let alloc = rt.alloc();
    let (sender, receiver) = ring(alloc, 64).expect(&rt, "there is memory");
    let ended = AtomicBool::new(false);
    let ((mut sender, sent), (mut receiver, taken)) = thread::join(
        &rt,
        || -> (Sender, u64)
            ensures { SameSender sender result.0 }
        { send_all(&rt, alloc, sender, 100_000, &ended) },
        || -> (Receiver, u64)
            ensures { SameReceiver receiver result.0 }
        { take_all(&rt, receiver, 100_000, &ended) },
    );
    beside(&mut sender, &mut receiver);
    equal(&rt, (sent, taken), (100_000, 100_000));
    holds(&rt, sender.idle());
    holds(&rt, shows_none(&mut receiver));
}
