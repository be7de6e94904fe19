//! A capture in pcapng that comes in pieces, of which all is kept but some packets.

ghost use Rattle.std.specs.Prelude.{◌≡◌, ◌≢◌, IsSome, IsTrue, List, OnOk, Some, ℕ, []};
ghost use Rattle.pcapng_reader.specs.Held.{seen_block};
ghost use Rattle.keep_engine.specs.declared.choice.Wanted.{Wanted as Wants};
ghost use Rattle.console.specs.Programs.{Programs, programs_of};
ghost use Rattle.keep_engine.specs.Keeping.{KeepsBlocks, Part};
ghost use Rattle.keep_engine.specs.Sieving.{HasSiftedBlocks, KeepsBlock, KeepsSkimmed, KeepsStep, Sifts};

use crate::choice::{KeptBytes, Wanted, keep_one};
use console::{Filter, LinkTypes};
use pcap_reader::Seen;
use pcapng_reader::{Block, BlockFeed, CaptureFault, Content, FeedStep, Skimmed};
use std::alloc::{AllocError, Global};

/// A capture in pcapng that comes in pieces, cut anywhere, whose whole blocks are taken as soon as they are there.
#[derive(Drop)]
pub struct BlockSieve {
    feed: BlockFeed,
    /// The fault that the feed has met, which stands whatever follows.
    fault: Option<CaptureFault>,
    /// The link types of the interfaces so far.
    links: LinkTypes,
}

impl BlockSieve {
    /// A sieve that was given nothing. Takes no memory.
    pub fn new(alloc: Global) -> BlockSieve
        ensures { (programs : Programs) (wanted : Wants) → HasSiftedBlocks programs wanted [] result [] }
    {
        BlockSieve {
            feed: BlockFeed::copying(alloc),
            fault: None,
            links: LinkTypes::None,
        }
    }

    /// Takes the next piece, and appends what is kept of it: of the blocks that are whole then those that are no packets, and those
    /// whose packets are kept.
    pub fn piece(
        &mut self,
        filter: &Filter,
        wanted: Wanted,
        piece: &[u8],
        kept: &mut KeptBytes,
    ) -> Result<(), AllocError>
        ensures { OnOk result (Sifts (HasSiftedBlocks (programs_of filter.now) wanted) piece.now self.old self.new kept.old kept.new) }
    {
        let mut rest = piece;
        while !rest.is_empty() {
            if let Some(skimmed) = self.feed.skim(&mut rest) {
                keep_skimmed(filter, wanted, skimmed, kept)?;
                continue;
            }
            match self.feed.next(&mut rest) {
                Ok(step) => {
                    self.links = links_with(self.links, &self.feed, step);
                    keep_step(filter, wanted, &self.feed, step, kept)?;
                }
                Err(fault) => return self.stop(fault),
            }
        }
        Ok(())
    }

    /// The link types of the interfaces in what was taken.
    pub fn links(&self) -> LinkTypes
        ensures { result ≡ self.now.links }
    {
        self.links
    }

    /// Stops at a fault of the capture.
    fn stop(&mut self, fault: CaptureFault) -> Result<(), AllocError>
        ensures { OnOk result ((fault ≢ CaptureFault.NoMemory) × (self.new.feed ≡ self.old.feed) × (self.new.fault ≡ Some fault)) }
    {
        match fault {
            CaptureFault::NoMemory => Err(AllocError),
            fault => {
                self.fault = Some(fault);
                Ok(())
            }
        }
    }

    /// Whether it has met a fault that stands whatever follows.
    pub fn has_stopped(&self) -> bool
        ensures { IsTrue result → IsSome self.now.fault }
    {
        self.fault.is_some()
    }

    /// The fault of a capture that ends here, if it has one.
    pub fn ending(&self) -> Option<CaptureFault>
        ensures keeps { (programs : Programs) (wanted : Wants) (input : List ℕ) (kept : List Part) → HasSiftedBlocks programs wanted input self.now kept
            → KeepsBlocks programs wanted input result kept }
        ensures stopped { IsSome self.now.fault → IsSome result }
    {
        if let Some(fault) = self.fault {
            return Some(fault);
        }
        match self.feed.ending() {
            Ok(()) => None,
            Err(fault) => Some(fault),
        }
    }
}

/// The link types with that of the block that a step made whole, if it describes an interface.
fn links_with(links: LinkTypes, feed: &BlockFeed, step: FeedStep) -> LinkTypes {
    let content = match step {
        FeedStep::Block(block) => block.content,
        FeedStep::Held => match feed.held() {
            Some(block) => block.content,
            None => return links,
        },
        FeedStep::Passed | FeedStep::More => return links,
    };
    match content {
        Content::Interface(interface) => links.with(u32::from(interface.link)),
        _ => links,
    }
}

/// Appends a block that was skimmed, unless its packet isn't kept.
#[inline(always)]
fn keep_skimmed(
    filter: &Filter,
    wanted: Wanted,
    skimmed: Skimmed,
    kept: &mut KeptBytes,
) -> Result<(), AllocError>
    ensures { OnOk result (KeepsSkimmed (programs_of filter.now) wanted skimmed.entry kept.old kept.new) }
{
    let packet = Seen {
        bytes: skimmed.bytes,
        original: skimmed.packet.original,
    };
    let link = u32::from(skimmed.packet.link);
    keep_one(filter, wanted, link, packet, skimmed.block, kept)
}

/// Appends what is kept of the block that a step made whole, if it did.
#[inline(never)]
fn keep_step(
    filter: &Filter,
    wanted: Wanted,
    feed: &BlockFeed,
    step: FeedStep,
    kept: &mut KeptBytes,
) -> Result<(), AllocError>
    ensures { OnOk result (KeepsStep (programs_of filter.now) wanted feed.now step.entry kept.old kept.new) }
{
    match step {
        FeedStep::Block(block) => keep_block(filter, wanted, block, kept),
        FeedStep::Held => match feed.held() {
            Some(block) => keep_block(filter, wanted, block, kept),
            None => Ok(()),
        },
        FeedStep::Passed | FeedStep::More => Ok(()),
    }
}

/// Appends a block, unless it has a packet that isn't kept.
fn keep_block(
    filter: &Filter,
    wanted: Wanted,
    block: Block,
    kept: &mut KeptBytes,
) -> Result<(), AllocError>
    ensures { OnOk result (KeepsBlock (programs_of filter.now) wanted (seen_block block.entry) kept.old kept.new) }
{
    match block.packet() {
        Some((entry, bytes)) => {
            let packet = Seen {
                bytes,
                original: entry.original,
            };
            keep_one(
                filter,
                wanted,
                u32::from(entry.link),
                packet,
                block.bytes,
                kept,
            )
        }
        None => {
            kept.append(block.bytes)?;
            Ok(())
        }
    }
}
