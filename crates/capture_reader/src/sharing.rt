//! Captures whose packets lie in the memory of the file.

ghost use Rattle.std.specs.Prelude.{◌≡◌, ◌<◌, ◌≢◌, ◌⊎◌, ◌++◌, [], List, ℕ, Some, None, length, true, IfOk, IfErr, OnOk, MatchOption};
ghost use Rattle.pcapng_reader.specs.Grammar.{WholeBlock, Reads};
ghost use Rattle.capture_reader.specs.Captures.{HasEntries};
ghost use Rattle.capture_reader.specs.Entries.{EntryBytes, packets_in, pcapng_entries};
ghost use Rattle.capture_reader.specs.Faults.{is_refusal};
ghost use Rattle.capture_reader.specs.Sharing.{IsLastOf, SharesOn, StopsSharing, block_packets};

use crate::fault::ReadFault;
use pcap_reader::{SharedPacket, SharedPackets, share_capture};
use pcapng_reader::{Block, BlockFeed, CaptureFault, FeedStep, is_pcapng};
use seq::{Seq, Shared};
use std::alloc::{AllocError, Global};

/// Reads a capture of either format that is there as a whole. Its packets take no memory but 32 bytes each: their bytes lie in the
/// file's.
pub fn share_packets(alloc: Global, file: &Shared<u8>) -> Result<SharedPackets, ReadFault>
    ensures packets { IfOk result (λ packets. (entries : List EntryBytes) × HasEntries file.now entries None × (packets ≡ packets_in entries)) }
    ensures fault { IfErr result (λ fault. (is_refusal fault ≡ true) ⊎ ((entries : List EntryBytes) × HasEntries file.now entries (Some fault))) }
{
    if is_pcapng(file.as_slice()) {
        return Ok(share_blocks(alloc, file)?);
    }
    Ok(share_capture(alloc, file)?)
}

/// The packets of a capture in pcapng.
fn share_blocks(alloc: Global, file: &Shared<u8>) -> Result<SharedPackets, CaptureFault>
    ensures packets { IfOk result (λ packets. (blocks : List WholeBlock) × Reads file.now blocks None × (packets ≡ packets_in (pcapng_entries blocks))) }
    ensures fault { IfErr result (λ fault. (fault ≡ CaptureFault.NoMemory) ⊎ ((blocks : List WholeBlock) × Reads file.now blocks (Some fault))) }
{
    let mut feed = BlockFeed::new(alloc);
    let mut packets = Vec::new(alloc);
    let mut rest = file.as_slice();
    while !rest.is_empty() {
        share_next(alloc, file, &mut feed, &mut rest, &mut packets)?;
    }
    feed.ending()?;
    Ok(Seq::from_vec(packets))
}

/// Takes what is left of a file up to the end of a block at most, and shares its packet, if it has one.
fn share_next(
    alloc: Global,
    file: &Shared<u8>,
    feed: &mut BlockFeed,
    rest: &mut &[u8],
    packets: &mut Vec<SharedPacket>,
) -> Result<(), CaptureFault>
    requires { IsLastOf rest.old.now file.now }
    ensures shares { OnOk result (SharesOn rest.old.now rest.new.now feed.old feed.new packets.old.items packets.new.items) }
    ensures stops { IfErr result (StopsSharing rest.old.now feed.old) }
    ensures shorter { OnOk result (rest.old.now ≢ [] → length rest.new.now < length rest.old.now) }
{
    match feed.next(rest)? {
        FeedStep::Block(block) => Ok(share_block(file, rest, block, packets)?),
        FeedStep::Held => Ok(copy_block(alloc, feed.held(), packets)?),
        FeedStep::Passed | FeedStep::More => Ok(()),
    }
}

/// Shares the packet of a block, if it has one, where it lies in the file.
fn share_block(
    file: &Shared<u8>,
    rest: &[u8],
    block: Block<'_>,
    packets: &mut Vec<SharedPacket>,
) -> Result<(), AllocError>
    requires { (before : List ℕ) × (file.now ≡ before ++ (block.bytes.now ++ rest.now)) }
    ensures { OnOk result (packets.new.items ≡ packets.old.items ++ block_packets block.entry.content block.entry.bytes.now) }
{
    let Some((entry, bytes)) = block.packet() else {
        return Ok(());
    };
    let place = file.as_slice().len() - rest.len() - block.bytes.len();
    let start = place + block.bytes.len().min(entry.start as usize);
    let shared = file.window(start, bytes.len())?;
    packets.push(SharedPacket::new(shared, entry.original))?;
    Ok(())
}

/// Adds the packet of a block that a feed holds, if it has one, with memory of its own.
fn copy_block(
    alloc: Global,
    held: Option<Block<'_>>,
    packets: &mut Vec<SharedPacket>,
) -> Result<(), AllocError>
    ensures { OnOk result (MatchOption held.entry (packets.new.items ≡ packets.old.items)
        (λ block. packets.new.items ≡ packets.old.items ++ block_packets block.content block.bytes.now)) }
{
    let Some(block) = held else {
        return Ok(());
    };
    let Some((entry, bytes)) = block.packet() else {
        return Ok(());
    };
    let bytes = Shared::from_vec(alloc, Vec::from_slice(alloc, bytes)?)?;
    packets.push(SharedPacket::new(bytes, entry.original))?;
    Ok(())
}
