//! Captures whose packets lie in the memory of the file.

ghost use Rattle.std.specs.Prelude.{◌≡◌, ◌⊎◌, ◌++◌, [], List, ℕ, Option, Some, None, IfOk, IfErr, OnOk};
ghost use Rattle.pcap_reader.specs.declared.capture.Header.{Header as Heading};
ghost use Rattle.pcap_reader.specs.declared.capture.CapturedPacket.{CapturedPacket};
ghost use Rattle.pcap_reader.specs.Savefile.{Reads};
ghost use Rattle.pcap_reader.specs.Held.{HoldsBehind, held_packets, seen_packet};
ghost use Rattle.pcap_reader.specs.Sharing.{IsLastOf, SharesTo};

use crate::capture::{CaptureFault, Packets};
use crate::feed::{Feed, Seen};
use seq::{Seq, Shared};
use std::alloc::{AllocError, Global};
use std::marker::Model;

/// A packet whose bytes may have other owners, seen as the packet. An equal one takes no memory.
#[derive(Debug)]
pub struct SharedPacket {
    bytes: Shared<u8>,
    original: u32,
}

// By hand, so that the proofs of its owners have one call and not a drop of each part.
impl Drop for SharedPacket {
    fn drop(self) {
        let SharedPacket {
            bytes: _,
            original: _,
        } = self;
    }
}

impl Model for SharedPacket {
    ghost use Rattle.pcap_reader.specs.declared.capture.CapturedPacket.{CapturedPacket};

    ghost Value = { CapturedPacket };

    ghost view = { λ packet. record { bytes = packet.bytes; original = packet.original } };
}

/// Packets that share their bytes, in order.
pub type SharedPackets = Seq<SharedPacket>;

impl SharedPacket {
    /// The packet of these bytes that had this length when it was seen.
    pub fn new(bytes: Shared<u8>, original: u32) -> SharedPacket
        ensures { result ≡ record { bytes = bytes; original = original } }
    {
        SharedPacket { bytes, original }
    }

    /// The bytes that were captured, from the packet's first byte on.
    pub fn bytes(&self) -> &[u8]
        ensures { result.now ≡ self.now.bytes }
    {
        self.bytes.as_slice()
    }

    /// The packet's length in bytes when it was seen.
    pub fn original(&self) -> u32
        ensures { result ≡ self.now.original }
    {
        self.original
    }
}

impl Clone for SharedPacket {
    ghost is_clone = { λ packet copy. copy ≡ packet };

    fn clone(&self) -> Result<SharedPacket, AllocError> {
        Ok(SharedPacket {
            bytes: self.bytes.clone()?,
            original: self.original,
        })
    }
}

/// Reads a capture that is there as a whole, as `read_capture` does. Its packets take no memory but 32 bytes each: their bytes
/// lie in the file's.
pub fn share_capture(alloc: Global, file: &Shared<u8>) -> Result<SharedPackets, CaptureFault>
    ensures packets { IfOk result (λ packets. (header : Heading) × Reads file.now (Some header) packets None) }
    ensures fault { IfErr result (λ fault. (fault ≡ CaptureFault.NoMemory)
        ⊎ ((header : Option Heading) × (packets : List CapturedPacket) × Reads file.now header packets (Some fault))) }
{
    let mut feed = Feed::new(alloc);
    let mut packets = Vec::new(alloc);
    share_all(alloc, file, &mut feed, &mut packets)?;
    feed.ending()?;
    Ok(Seq::from_vec(packets))
}

/// Feeds the file, and takes its packets.
fn share_all(
    alloc: Global,
    file: &Shared<u8>,
    feed: &mut Feed,
    packets: &mut Vec<SharedPacket>,
) -> Result<(), AllocError>
    requires new { HoldsBehind packets.old.items [] feed.old }
    ensures holds { OnOk result (HoldsBehind packets.new.items file.now feed.new) }
    ensures none { OnOk result (held_packets feed.new ≡ []) }
{
    let mut rest = file.as_slice();
    let _ = feed.fill(&mut rest);
    share_whole(file, feed, &mut rest, packets)?;
    let _ = feed.piece(rest);
    push_shared(alloc, packets, feed.give_up())?;
    Ok(())
}

/// Takes the packets of the whole records at the front of what is left of the file.
fn share_whole(
    file: &Shared<u8>,
    feed: &mut Feed,
    rest: &mut &[u8],
    packets: &mut Vec<SharedPacket>,
) -> Result<(), AllocError>
    requires { IsLastOf rest.old.now file.now }
    ensures { OnOk result (SharesTo rest.old.now rest.new.now feed.old feed.new packets.old.items packets.new.items) }
{
    while let Some(seen) = feed.whole(rest) {
        packets.push(shared(file, rest, seen)?)?;
    }
    Ok(())
}

/// The packet that ends where the rest of the file begins.
fn shared(file: &Shared<u8>, rest: &[u8], seen: Seen<'_>) -> Result<SharedPacket, AllocError>
    requires { (front : List ℕ) × (file.now ≡ front ++ (seen.bytes.now ++ rest.now)) }
    ensures { IfOk result (λ packet. packet ≡ seen_packet seen.entry) }
{
    let count = seen.bytes.len();
    let start = file.as_slice().len() - rest.len() - count;
    Ok(SharedPacket::new(file.window(start, count)?, seen.original))
}

/// Adds packets that have memory of their own.
fn push_shared(
    alloc: Global,
    packets: &mut Vec<SharedPacket>,
    held: Packets,
) -> Result<(), AllocError>
    ensures { OnOk result (packets.new.items ≡ packets.old.items ++ held) }
{
    for packet in held.into_vec() {
        let bytes = Shared::from_vec(alloc, packet.bytes.into_vec())?;
        packets.push(SharedPacket::new(bytes, packet.original))?;
    }
    Ok(())
}

impl PartialEq for SharedPacket {
    ghost use Rattle.pcap_reader.specs.contracts.capture.CapturedPacketPartialEq.TheImpl.{eq-value};
    ghost use Rattle.std.proofs.Common.{rules};
    ghost use Rattle.std.specs.Cmp.Rules.{comparing};

    ghost eq = { eq-value.it };

    ghost laws = { Prim.search (comparing, rules) };

    fn eq(&self, other: &SharedPacket) -> bool {
        self.bytes == other.bytes && self.original == other.original
    }
}

impl Eq for SharedPacket {
    ghost use Rattle.std.proofs.Common.{rules};
    ghost use Rattle.std.specs.Cmp.Rules.{comparing};

    ghost laws = { Prim.search (comparing, rules) };
}
