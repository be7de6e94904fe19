//! Which messages are made ready: just those that are sent.

use super::steps::{Asked, boot, outcome, settled};
use crate::facts::equal;
use monitor_messages::Message;
use std::alloc::{AllocError, Global};
use std::process::Abort;
use test_words::{ARP, Ask, EventWords, TAKEN};
use world_core::{Channel, Lines, Messages, WorldOver};

/// A channel that makes no piece while one that it made isn't put.
#[derive(Drop)]
struct Sparing<C: Channel> {
    channel: C,
    is_made: bool,
}

impl<C: Channel> Channel for Sparing<C> {
    ghost messages = { λ c. C.messages c.channel };

    ghost spare = { λ c. C.spare c.channel };

    ghost made_for = { C.made_for };

    type Piece = C::Piece;

    fn new(alloc: Global) -> Result<Sparing<C>, AllocError> {
        Ok(Sparing {
            channel: C::new(alloc)?,
            is_made: false,
        })
    }

    fn prepare(&mut self, message: &Message) -> Result<C::Piece, AllocError> {
        if self.is_made {
            return Err(AllocError);
        }
        let piece = self.channel.prepare(message)?;
        self.is_made = true;
        Ok(piece)
    }

    fn put(&mut self, piece: C::Piece) {
        self.is_made = false;
        self.channel.put(piece);
    }

    fn first(&self) -> Result<Option<Message>, AllocError> {
        self.channel.first()
    }

    fn drop_first(&mut self) {
        self.channel.drop_first();
    }
}

/// How many messages were taken of a request that core 0 asked of all.
fn taken<C: Channel>(
    rt: &impl Abort,
    alloc: Global,
    world: &mut WorldOver<Sparing<C>>,
    number: u64,
    ask: Ask,
) -> usize {
    let told = outcome(rt, alloc, world, Asked::Start(ask));
    equal(rt, told, Ok(EventWords::Prepared(number)));
    settled(rt, alloc, world).len()
}

fn sends_all<C: Channel>(rt: &impl Abort, alloc: Global) {
    let mut world: WorldOver<Sparing<C>> = boot(rt, alloc, &[9, 9, 9, 9, 9, 9, 9, 2]);
    // Prepare and Commit to each of seven cores, and a vote and an acknowledgement of each.
    equal(rt, taken(rt, alloc, &mut world, 1, Ask::Create(1, 7)), 28);
    // Core 7 votes against it: Abort takes the place of Commit.
    equal(
        rt,
        taken(rt, alloc, &mut world, 2, Ask::Install(1, 1, ARP)),
        28,
    );
    // What core 0 refuses at once is sent to nobody, and no message is left of it.
    let refused = outcome(rt, alloc, &mut world, Asked::Start(Ask::Create(1, 7)));
    equal(rt, refused, Ok(EventWords::Decided(TAKEN)));
    equal(rt, taken(rt, alloc, &mut world, 3, Ask::Create(1, 8)), 28);
    drop(world);
}

#[test]
fn makes_just_what_it_sends(rt: HostRuntime) {
    sends_all::<Messages>(&rt, rt.alloc());
    sends_all::<Lines>(&rt, rt.alloc());
}
