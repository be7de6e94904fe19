//! Links of both kinds, and lines written by hand.

ghost use Rattle.std.specs.Prelude.{◌≡◌, ◌≤◌, length, vec_len};
ghost use Rattle.core_links.specs.RingSlots.{AreJoinedLinks, SameLinks};

use crate::facts::{equal, holds};
use core_links::{Bell, LineFault, Links, ListLinks, RingLinks};
use rtrb::RingBuffer;
use seq::Shared;
use std::alloc::Global;
use std::process::Abort;
use ump_ring::{Joiner, Line, Receiver, ring};

/// A message of this many bytes, all the same.
fn message(rt: &impl Abort, alloc: Global, byte: u8, size: usize) -> Vec<u8>
    ensures { vec_len result ≡ size }
{
    vec![in alloc; byte; size].expect(rt, "there is memory")
}

/// Whether the link to a peer takes a message of this many bytes.
fn sends<L: Links>(links: &mut L, peer: u16, bytes: Vec<u8>) -> bool
    requires length { (1 ≤ vec_len bytes) × (vec_len bytes ≤ 32832) }
    ensures { L.same links.old links.new }
{
    links.send(peer, bytes).is_ok()
}

/// Whether the link to a peer takes this short message.
fn sends_short<L: Links>(links: &mut L, peer: u16, bytes: &[u8]) -> bool
    requires length { (1 ≤ length bytes.now) × (length bytes.now ≤ 56) }
    ensures { L.same links.old links.new }
{
    links.send_short(peer, bytes)
}

/// Whether these bytes are shown.
fn shows<L: Links>(links: &mut L, peer: u16, wanted: &[u8]) -> bool
    ensures { L.same links.old links.new }
{
    match links.look(peer) {
        Ok(Some(bytes)) => bytes == wanted,
        _ => false,
    }
}

/// Whether these bytes are taken.
fn takes<L: Links>(links: &mut L, peer: u16, wanted: &[u8]) -> bool
    ensures { L.same links.old links.new }
{
    match links.take(peer) {
        Ok(Some(bytes)) => bytes == wanted,
        _ => false,
    }
}

/// Whether there is no fault, and nothing is shown.
fn shows_none<L: Links>(links: &mut L, peer: u16) -> bool
    ensures { L.same links.old links.new }
{
    match links.look(peer) {
        Ok(None) => true,
        _ => false,
    }
}

/// Whether each call that receives from the peer answers the fault.
fn stopped_at<L: Links>(links: &mut L, peer: u16, wanted: LineFault) -> bool {
    let looked = match links.look(peer) {
        Err(fault) => fault == wanted,
        Ok(_) => false,
    };
    let took = match links.take(peer) {
        Err(fault) => fault == wanted,
        Ok(_) => false,
    };
    looked && took && links.pull(peer) == Err(wanted) && !links.give_up(peer)
}

/// The links of cores 0 and 1, which rings of so many lines join.
fn joined(rt: &impl Abort, alloc: Global, capacity: usize) -> (RingLinks, RingLinks)
    requires { 1 ≤ capacity }
    ensures { AreJoinedLinks result.0 result.1 }
{
    let (to_second, from_first) = ring(alloc, capacity).expect(rt, "there is memory");
    let (to_first, from_second) = ring(alloc, capacity).expect(rt, "there is memory");
    let mut first = RingLinks::new(alloc, 0, 2).expect(rt, "there is memory");
    let mut second = RingLinks::new(alloc, 1, 2).expect(rt, "there is memory");
    let bell = first.bell().expect(rt, "a bell has room for owners");
    let its_bell = second.bell().expect(rt, "a bell has room for owners");
    first.join(1, to_second, from_second, its_bell);
    second.join(0, to_first, from_first, bell);
    (first, second)
}

/// The link to core 1 hands this message back.
fn hands_back(rt: &impl Abort, links: &mut RingLinks, message: Vec<u8>)
    requires { (1 ≤ vec_len message) × (vec_len message ≤ 32832) }
{
    let size = message.len();
    match links.send(1, message) {
        Ok(()) => rt.abort(),
        Err(busy) => equal(rt, busy.0.len(), size),
    }
}

/// Core 0 is ready for one message, which is to go to core 1.
fn sent_once(rt: &impl Abort, alloc: Global, first: &mut RingLinks) {
    holds(rt, first.ready(1));
    holds(rt, sends(first, 1, message(rt, alloc, 7, 57)));
    holds(rt, !first.ready(1));
    hands_back(rt, first, message(rt, alloc, 8, 3));
}

/// The message of core 0 is shown in steps, and taken.
fn shown_in_steps(rt: &impl Abort, second: &mut RingLinks, wanted: &[u8]) {
    holds(rt, second.shown(0).is_none());
    holds(rt, second.pull(0).is_ok());
    holds(rt, second.shown(0).is_some());
    holds(rt, shows(second, 0, wanted));
    holds(rt, takes(second, 0, wanted));
    holds(rt, shows_none(second, 0));
}

#[test]
fn a_message_of_two_lines_through_rings_of_one(rt: HostRuntime) {
    let alloc = rt.alloc();
    let (mut first, mut second) = joined(&rt, alloc, 1);
    sent_once(&rt, alloc, &mut first);
    first.pump();
    first.pump();
    holds(&rt, shows_none(&mut second, 0));
    holds(&rt, !second.give_up(0));
    first.pump();
    holds(&rt, first.ready(1));
    shown_in_steps(&rt, &mut second, &message(&rt, alloc, 7, 57));
}

#[test]
fn a_short_message_over_links_of_both_kinds(rt: HostRuntime) {
    let alloc = rt.alloc();
    let (mut first, mut second) = joined(&rt, alloc, 1);
    holds(&rt, sends_short(&mut first, 1, &[7; 56]));
    holds(&rt, !sends_short(&mut first, 1, &[8]));
    holds(&rt, !sends_short(&mut first, 0, &[8]));
    first.pump();
    holds(&rt, sends_short(&mut first, 1, &[8]));
    holds(&rt, takes(&mut second, 0, &[7; 56]));
    first.pump();
    holds(&rt, takes(&mut second, 0, &[8]));
    let mut lists = ListLinks::new(alloc, 0, 2, 1).expect(&rt, "there is memory");
    holds(&rt, sends_short(&mut lists, 1, &[1, 2, 3]));
    holds(&rt, !sends_short(&mut lists, 1, &[4]));
    holds(&rt, lists.mark_collected(1));
    match lists.last_collected(1) {
        Some(bytes) => holds(&rt, bytes == [1, 2, 3].as_slice()),
        None => holds(&rt, false),
    }
}

/// Whether the link to a peer takes a message that others get, too.
fn sends_shared<L: Links>(links: &mut L, peer: u16, bytes: Shared<u8>) -> bool
    requires { (1 ≤ length bytes) × (length bytes ≤ 32832) }
    ensures { L.same links.old links.new }
{
    links.send_shared(peer, bytes)
}

/// A message of this many bytes whose memory is shared.
fn shared(rt: &impl Abort, alloc: Global, byte: u8, size: usize) -> Shared<u8>
    ensures { length result ≡ size }
{
    let bytes = message(rt, alloc, byte, size);
    Shared::from_vec(alloc, bytes).expect(rt, "there is memory")
}

#[test]
fn one_message_goes_to_several_peers(rt: HostRuntime) {
    let alloc = rt.alloc();
    let bytes = shared(&rt, alloc, 7, 100);
    let (mut first, mut second) = joined(&rt, alloc, 4);
    let mut lists = ListLinks::new(alloc, 0, 2, 1).expect(&rt, "there is memory");
    let copy = bytes.clone().expect(&rt, "there is memory");
    holds(&rt, sends_shared(&mut first, 1, copy));
    let copy = bytes.clone().expect(&rt, "there is memory");
    holds(&rt, !sends_shared(&mut first, 1, copy));
    let copy = bytes.clone().expect(&rt, "there is memory");
    holds(&rt, sends_shared(&mut lists, 1, copy));
    first.pump();
    holds(&rt, first.ready(1));
    holds(&rt, takes(&mut second, 0, bytes.as_slice()));
    holds(&rt, lists.mark_collected(1));
    match lists.last_collected(1) {
        Some(collected) => holds(&rt, collected == bytes.as_slice()),
        None => holds(&rt, false),
    }
}

/// A message of one byte goes from the second core to the first.
fn goes(rt: &impl Abort, alloc: Global, first: &mut RingLinks, second: &mut RingLinks)
    ensures first { SameLinks first.old first.new }
    ensures second { SameLinks second.old second.new }
{
    holds(rt, sends(second, 0, message(rt, alloc, 1, 1)));
    second.pump();
    holds(rt, takes(first, 1, &[1]));
}

#[test]
fn what_is_taken_begins_what_was_sent(rt: HostRuntime) {
    let alloc = rt.alloc();
    let (mut first, mut second) = joined(&rt, alloc, 64);
    goes(&rt, alloc, &mut first, &mut second);
    first.beside(&mut second);
    holds(&rt, sends(&mut second, 0, message(&rt, alloc, 2, 1)));
    second.pump();
    holds(&rt, first.pull(1).is_ok());
    holds(&rt, first.give_up(1));
    holds(&rt, shows_none(&mut first, 1));
}

/// There is no link to the peer: none is ready, shows anything or takes a message.
fn has_no_link<L: Links>(rt: &impl Abort, alloc: Global, links: &mut L, peer: u16) {
    holds(rt, !links.ready(peer));
    holds(rt, shows_none(links, peer));
    holds(rt, !sends(links, peer, message(rt, alloc, 1, 1)));
}

#[test]
fn no_link_to_a_core_that_was_not_joined(rt: HostRuntime) {
    let alloc = rt.alloc();
    let mut rings = RingLinks::new(alloc, 1, 3).expect(&rt, "there is memory");
    let mut lists = ListLinks::new(alloc, 1, 3, 2).expect(&rt, "there is memory");
    for peer in [0, 1, 2, 3] {
        has_no_link(&rt, alloc, &mut rings, peer);
    }
    for peer in [1, 3] {
        has_no_link(&rt, alloc, &mut lists, peer);
        holds(&rt, lists.give(peer, message(&rt, alloc, 1, 1)).is_err());
        holds(&rt, lists.collect(peer).is_none());
    }
}

/// The end of a ring that holds lines that were written by hand, by their words 0 and 1.
fn received(rt: &impl Abort, alloc: Global, heads: &[(u64, u64)]) -> Receiver {
    let slots = RingBuffer::<Line>::new(alloc, 8);
    let (mut producer, consumer) = slots.expect(rt, "there is memory");
    let joiner = Joiner::new(alloc).expect(rt, "there is memory");
    for (head, word) in heads {
        let _ = producer.push([*head, *word, 0, 0, 0, 0, 0, 0]);
    }
    Receiver::new(consumer, joiner)
}

/// A link to core 0 from which these lines come.
fn given_lines(rt: &impl Abort, alloc: Global, heads: &[(u64, u64)]) -> RingLinks {
    let (sender, _) = ring(alloc, 1).expect(rt, "there is memory");
    let mut links = RingLinks::new(alloc, 1, 2).expect(rt, "there is memory");
    let bell = Bell::new(alloc).expect(rt, "there is memory");
    links.join(0, sender, received(rt, alloc, heads), bell);
    links
}

#[test]
fn faulty_first_lines(rt: HostRuntime) {
    let alloc = rt.alloc();
    for (head, word, fault) in [
        (4294967296, 261, LineFault::BadLength),
        (0, 0, LineFault::BadLength),
        (141016661229568, 0, LineFault::BadLength),
        (4294967297, 261, LineFault::OutOfSequence),
    ] {
        let mut links = given_lines(&rt, alloc, &[(head, word), (4294967296, 5)]);
        holds(&rt, stopped_at(&mut links, 0, fault));
        holds(&rt, stopped_at(&mut links, 0, fault));
        holds(&rt, links.ready(0));
    }
}

#[test]
fn a_faulty_line_after_a_message(rt: HostRuntime) {
    let alloc = rt.alloc();
    let mut links = given_lines(&rt, alloc, &[(4294967296, 5), (4294967298, 6)]);
    holds(&rt, shows(&mut links, 0, &[5]));
    holds(&rt, shows(&mut links, 0, &[5]));
    holds(&rt, takes(&mut links, 0, &[5]));
    holds(&rt, stopped_at(&mut links, 0, LineFault::OutOfSequence));
    holds(&rt, sends(&mut links, 0, message(&rt, alloc, 1, 1)));
    holds(&rt, stopped_at(&mut links, 0, LineFault::OutOfSequence));
}

/// The list of core 1 hands this message back.
fn is_given_back(rt: &impl Abort, links: &mut ListLinks, message: Vec<u8>)
    requires { (1 ≤ vec_len message) × (vec_len message ≤ 32832) }
{
    let size = message.len();
    match links.give(1, message) {
        Ok(()) => rt.abort(),
        Err(busy) => equal(rt, busy.0.len(), size),
    }
}

#[test]
fn lists_of_two_messages(rt: HostRuntime) {
    let alloc = rt.alloc();
    let mut links = ListLinks::new(alloc, 0, 3, 2).expect(&rt, "there is memory");
    for byte in [1, 2] {
        holds(&rt, links.ready(2));
        holds(&rt, sends(&mut links, 2, message(&rt, alloc, byte, 1)));
        holds(&rt, links.give(1, message(&rt, alloc, byte, 3)).is_ok());
    }
    links.pump();
    holds(&rt, links.ready(1));
    holds(&rt, !links.ready(2));
    holds(&rt, !sends(&mut links, 2, message(&rt, alloc, 3, 1)));
    is_given_back(&rt, &mut links, message(&rt, alloc, 3, 2));
    collected_in_order(&rt, &mut links);
    taken_in_order(&rt, &mut links);
}

/// Whether these bytes are there.
fn are(got: Option<&[u8]>, wanted: &[u8]) -> bool {
    got == Some(wanted)
}

/// Collects what was sent to core 2.
fn collected_in_order(rt: &impl Abort, links: &mut ListLinks) {
    holds(rt, are(links.collect(2), &[1]));
    holds(rt, are(links.last_collected(2), &[1]));
    holds(rt, links.mark_collected(2));
    holds(rt, are(links.last_collected(2), &[2]));
    holds(rt, !links.mark_collected(2));
    holds(rt, links.collect(2).is_none());
    holds(rt, !links.ready(2));
}

/// Takes what was given as core 1's.
fn taken_in_order(rt: &impl Abort, links: &mut ListLinks) {
    holds(rt, shows(links, 1, &[1, 1, 1]));
    holds(rt, takes(links, 1, &[1, 1, 1]));
    holds(rt, links.pull(1).is_ok());
    holds(rt, are(links.shown(1), &[2, 2, 2]));
    holds(rt, links.give_up(1));
    holds(rt, !links.give_up(1));
    holds(rt, shows_none(links, 1));
}
