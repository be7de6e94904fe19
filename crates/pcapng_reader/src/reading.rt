//! Captures that are there as a whole.

ghost use Rattle.std.specs.Prelude.{◌≡◌, ◌⊎◌, [], IfErr, OnOk, Some, None};
ghost use Rattle.pcapng_reader.specs.Grammar.{start, Reads, ReadsFront};
ghost use Rattle.pcapng_reader.specs.Held.{place_of};
ghost use Rattle.pcapng_reader.specs.Packets.{FitTheirBlocks};
ghost use Rattle.pcapng_reader.specs.Sections.{AreOfTheirSections};
ghost use Rattle.pcapng_reader.specs.Answers.{GivesFront, GivesOnly, GivesWhole, HasOneReading, HasReading, seen_blocks};

use crate::fault::CaptureFault;
use crate::feed::BlockFeed;
use crate::front::Front;
use crate::seen::Block;
use seq::Seq;
use std::alloc::Global;
use thiserror::Error;

/// Blocks that lie in the bytes of a capture, in order.
pub type Blocks<'b> = Seq<Block<'b>>;

/// A capture that ends at a fault, and what stands before it.
#[derive(Debug, Drop, Error)]
#[error("{fault}")]
pub struct Stop<'b> {
    /// The whole blocks before the fault.
    pub before: Blocks<'b>,
    pub fault: CaptureFault,
}

/// Reads a capture that is there as a whole. Its blocks stay where they lie.
///
/// The answer is all its blocks, or what stands before the first fault. Every byte string has just one reading; after NoMemory
/// the blocks are the first of it.
pub fn read_blocks<'b>(alloc: Global, bytes: &'b [u8]) -> Result<Blocks<'b>, Stop<'b>>
    ensures gives { GivesWhole bytes.now result ⊎ GivesFront bytes.now result }
    ensures only { GivesOnly bytes.now result }
    ensures readable { HasReading bytes.now }
    ensures one { HasOneReading bytes.now }
{
    let mut feed = BlockFeed::new(alloc);
    let mut blocks = Vec::new(alloc);
    match read_all(&mut feed, bytes, &mut blocks) {
        Ok(()) => Ok(Blocks::from_vec(blocks)),
        Err(fault) => Err(Stop {
            before: Blocks::from_vec(blocks),
            fault,
        }),
    }
}

/// Reads a capture from its front to its end or a fault.
fn read_all<'b>(
    feed: &mut BlockFeed,
    bytes: &'b [u8],
    blocks: &mut Vec<Block<'b>>,
) -> Result<(), CaptureFault>
    requires fresh { place_of feed.old ≡ start }
    requires empty { blocks.old.items ≡ [] }
    ensures whole { OnOk result (Reads bytes.now (seen_blocks blocks.new.items) None) }
    ensures fault { IfErr result (λ fault. (Reads bytes.now (seen_blocks blocks.new.items) (Some fault))
        ⊎ ((fault ≡ CaptureFault.NoMemory) × ReadsFront bytes.now (seen_blocks blocks.new.items))) }
{
    let mut rest = bytes;
    while let Front::Whole(total, content) = feed.front(rest) {
        blocks.push(feed.take_block(total, content, &mut rest)?)?;
    }
    feed.end_at(rest)
}

/// The captured bytes of each packet lie in its block.
pub fn captured_bytes_fit()
    ensures { FitTheirBlocks }
{}

/// Each packet is of its section: of an interface that its own section has described before it.
pub fn packets_are_of_their_sections()
    ensures { AreOfTheirSections }
{}
