//! Captures in pcapng that come in pieces, entry by entry.

ghost use Rattle.std.specs.Prelude.{◌≡◌, ◌<◌, [], Some, None, Ok, length, IfOk, IfErr, IfSome, IsSome, MatchOption};
ghost use Rattle.pcapng_reader.specs.Held.{held_block, held_fault};
ghost use Rattle.capture_reader.specs.Entries.{block_entry, block_info, time_of};
ghost use Rattle.capture_reader.specs.Holding.{HoldsPcapng, StopsPcapng, entry_of};
ghost use Rattle.capture_reader.specs.Steps.{AdvancesBy, IsShorter, seen_item};

use crate::entry::{Entry, Found, PacketInfo, PacketTime, SeenEntry};
use pcapng_reader::{Block, BlockFeed, CaptureFault, Content, FeedStep, PacketEntry, Time};
use std::alloc::Global;

/// A feed that was given the first bytes of a capture, fewer than a block has.
pub(crate) fn begun(alloc: Global, first: &[u8]) -> Result<BlockFeed, CaptureFault>
    requires { length first.now < 12 }
    ensures holds { IfOk result (λ feed. HoldsPcapng feed [] first.now) }
    ensures stops { IfErr result (StopsPcapng [] first.now) }
{
    let mut feed = BlockFeed::new(alloc);
    let mut rest = first;
    while !rest.is_empty() {
        feed.next(&mut rest)?;
    }
    Ok(feed)
}

/// Takes bytes off the front of `rest`, up to the end of a block at most, and says what they are.
pub(crate) fn next_block<'b>(
    feed: &mut BlockFeed,
    rest: &mut &'b [u8],
) -> Result<Found<'b>, CaptureFault>
    ensures advances { AdvancesBy (HoldsPcapng feed.old) (HoldsPcapng feed.new) StopsPcapng (entry_of (held_block feed.new)) rest.old.now rest.new.now result }
    ensures shorter { IfOk result (λ _. IsShorter rest.old.now rest.new.now) }
{
    match feed.next(rest)? {
        FeedStep::Block(block) => Ok(found(item_of(block))),
        FeedStep::Held => Ok(held(feed)),
        FeedStep::Passed | FeedStep::More => Ok(Found::Nothing),
    }
}

/// The packet of the block at the front of `rest`, which is taken off, where it is an enhanced packet block, lies whole there and
/// has nothing wrong; else nothing changes.
#[inline(always)]
pub(crate) fn next_whole_packet<'b>(
    feed: &mut BlockFeed,
    rest: &mut &'b [u8],
) -> Option<SeenEntry<'b>>
    ensures advances { IfSome result (λ item. AdvancesBy {E = CaptureFault} (HoldsPcapng feed.old) (HoldsPcapng feed.new) StopsPcapng (entry_of (held_block feed.new)) rest.old.now rest.new.now (Ok (Found.SeenEntry item))) }
    ensures shorter { IfSome result (λ _. IsShorter rest.old.now rest.new.now) }
    ensures same { result ≡ None → (feed.new ≡ feed.old) × (rest.new.now ≡ rest.old.now) }
{
    let skimmed = feed.skim(rest)?;
    Some(SeenEntry {
        entry: Entry::Packet(info_of(skimmed.packet)),
        bytes: skimmed.bytes,
    })
}

/// An item that was seen, if there is one.
fn found<'b>(item: Option<SeenEntry<'b>>) -> Found<'b>
    ensures { MatchOption item.entry (result ≡ Found.Nothing) (λ i. result ≡ Found.SeenEntry i) }
{
    match item {
        Some(item) => Found::SeenEntry(item),
        None => Found::Nothing,
    }
}

/// Whether the block that a feed holds has an entry.
fn held<'b>(feed: &BlockFeed) -> Found<'b>
    ensures held { IsSome (entry_of (held_block feed.now)) → result ≡ Found.Held }
    ensures nothing { entry_of (held_block feed.now) ≡ None → result ≡ Found.Nothing }
{
    match feed.held() {
        Some(block) if item_of(block).is_some() => Found::Held,
        _ => Found::Nothing,
    }
}

/// What a block says, and the captured bytes of its packet, if it is looked at.
pub(crate) fn item_of<'b>(block: Block<'b>) -> Option<SeenEntry<'b>>
    ensures { MatchOption result (block_entry block.entry.content block.entry.bytes.now ≡ None) (λ item. block_entry block.entry.content block.entry.bytes.now ≡ Some (seen_item item)) }
{
    match block.content {
        Content::Section(header) => Some(SeenEntry {
            entry: Entry::Section(header),
            bytes: &[],
        }),
        Content::Interface(described) => Some(SeenEntry {
            entry: Entry::Interface(described),
            bytes: &[],
        }),
        Content::Packet(_) => {
            let (entry, bytes) = block.packet()?;
            Some(SeenEntry {
                entry: Entry::Packet(info_of(entry)),
                bytes,
            })
        }
        Content::Other => None,
    }
}

/// What a block says of its packet.
#[inline(always)]
fn info_of(entry: PacketEntry) -> PacketInfo
    ensures { result ≡ block_info entry }
{
    PacketInfo {
        section: entry.section,
        interface: entry.interface,
        link: u32::from(entry.link),
        time: time_of(entry.time),
        original: entry.original,
    }
}

/// When the packet of a block was seen.
#[inline(always)]
fn time_of(time: Option<Time>) -> PacketTime
    ensures { result ≡ time_of time }
{
    match time {
        Some(time) => PacketTime::Units(time),
        None => PacketTime::Unknown,
    }
}
