//! Captures that come in pieces.

ghost use Rattle.std.specs.Prelude.{◌≡◌, ◌&&◌, false, is_some};

use crate::block::{BlockError, Content, InterfaceDescription};
use crate::fault::CaptureFault;
use crate::fields::word_at;
use crate::frame::{FRAME, Frame, frame_of, needs};
use crate::front::{Front, front_of, packet_front};
use crate::seen::{Block, Skimmed};
use std::alloc::{AllocError, Global};

/// The length of the total length at the end of a block.
const TRAILER: usize = 4;

/// Where the bytes of a packet begin in an enhanced packet block.
const PACKET: usize = 28;

/// A capture that comes in pieces, cut anywhere, and is taken block by block.
///
/// Time is linear in the bytes, however they are cut. Memory is for the interfaces of a section, and for one block that was
/// cut in two; a block that nobody needs is passed over without room for it, unless the feed keeps blocks to be copied.
#[derive(Drop)]
pub struct BlockFeed {
    /// Whether blocks that nobody needs are kept too.
    copies: bool,
    /// Where the next block begins.
    offset: u64,
    /// How many section headers there were.
    sections: u64,
    /// The byte order of the last section.
    big: bool,
    /// The interfaces that the last section has described.
    interfaces: Vec<InterfaceDescription>,
    /// The bytes of a block that isn't whole yet, or of the block that is held.
    part: Vec<u8>,
    /// The block that is passed over, if one is.
    passing: Option<Passing>,
    /// The block that is held, if one is.
    held: Option<Held>,
    fault: Option<CaptureFault>,
    ghost keeps: { is_some passing && copies ≡ false },
}

/// A block that is passed over.
#[derive(Clone, Copy, Debug)]
struct Passing {
    frame: Frame,
    /// How many bytes come before its last four.
    left: u32,
}

/// A block that is held.
#[derive(Clone, Copy, Debug)]
struct Held {
    offset: u64,
    content: Content,
}

/// What a feed made of the bytes that it took.
#[derive(Clone, Copy, Debug)]
pub enum FeedStep<'b> {
    /// The next block, which lies in them.
    Block(Block<'b>),
    /// They end the next block, which was cut: the feed holds it until it is given more.
    Held,
    /// They end a block that nobody needs, which was cut and is not kept.
    Passed,
    /// They end no block.
    More,
}

impl BlockFeed {
    ghost use Rattle.std.specs.Prelude.{◌≡◌, ◌≢◌, ◌<◌, ◌≤◌, ◌^◌, ◌++◌, [], ℕ, List, Option, Some, None, Err, length, IfOk, IsTrue, OnOk, MatchOption, MatchResult, ◌⊎◌, true, false};
    ghost use Rattle.std.specs.Bool.{MatchBool};
    ghost use Rattle.pcapng_reader.specs.declared.block.Content.{Content as Says};
    ghost use Rattle.pcapng_reader.specs.declared.block.Content.TheVariants.{Packet};
    ghost use Rattle.pcapng_reader.specs.declared.block.PacketEntry.{PacketEntry};
    ghost use Rattle.pcapng_reader.specs.Grammar.{EndsWith, WholeBlock, front_at};
    ghost use Rattle.pcapng_reader.specs.Held.{Advances, Ends, HasBytes, HoldsAfter, IsFresh, IsFrugal, IsShorter, IsTold, Skims, copies_all, held_block, held_fault, open_part, place_of, seen_block};
    ghost use Rattle.pcapng_reader.specs.Growth.{Enters, GoesOn, GrowsFrugally, IsApart, IsBetween, IsGrown, IsLetGo, IsPassed, IsWanted, IsWithin, KeepsOrPasses, TakesBlock};

    /// A feed that was given nothing, and passes over the blocks that nobody needs. Takes no memory.
    pub fn new(alloc: Global) -> BlockFeed
        ensures { IsFresh false result }
    {
        BlockFeed::empty(alloc, false)
    }

    /// A feed that was given nothing, and gives every block with its bytes, so that the capture can be copied. Takes no
    /// memory.
    pub fn copying(alloc: Global) -> BlockFeed
        ensures { IsFresh true result }
    {
        BlockFeed::empty(alloc, true)
    }

    fn empty(alloc: Global, copies: bool) -> BlockFeed
        ensures { IsFresh copies result }
    {
        BlockFeed {
            copies,
            offset: 0,
            sections: 0,
            big: true,
            interfaces: Vec::new(alloc),
            part: Vec::new(alloc),
            passing: None,
            held: None,
            fault: None,
        }
    }

    /// Takes bytes off the front of `rest`, up to the end of a block at most, and says what they are. Called until `rest` is
    /// empty, it goes over a piece. All pieces together have fewer than 2^64 bytes.
    ///
    /// The fault is a BadBlock, which stands whatever bytes follow, or NoMemory where memory was refused. After a fault each
    /// call answers the same fault, and changes nothing.
    pub fn next<'b>(&mut self, rest: &mut &'b [u8]) -> Result<FeedStep<'b>, CaptureFault>
        ensures advances { Advances rest.old.now rest.new.now self.old self.new result }
        ensures shorter { IfOk result (λ _. IsShorter rest.old.now rest.new.now) }
        ensures says { IsTold (held_fault self.new) result }

        // A feed that keeps every block gives each with its bytes.
        ensures every { IfOk result (HasBytes (copies_all self.old)) }
        ensures copies { copies_all self.new ≡ copies_all self.old }

        // What is kept stays small.
        ensures frugal { IsFrugal self.old → OnOk result (IsFrugal self.new) }

        // After a fault nothing changes.
        ensures stays { (fault : CaptureFault) → held_fault self.old ≡ Some fault → self.new ≡ self.old }
    {
        if let Some(fault) = self.fault {
            return Err(fault);
        }
        match self.step(rest) {
            Ok(step) => Ok(step),
            Err(fault) => {
                self.fault = Some(fault);
                Err(fault)
            }
        }
    }

    /// Takes the next block off the front of `rest`, where it is an enhanced packet block, lies whole there and has nothing wrong.
    ///
    /// Where it takes nothing, which it may do at any block, `next` goes on. It does less than `next`.
    #[inline(always)]
    pub fn skim<'b>(&mut self, rest: &mut &'b [u8]) -> Option<Skimmed<'b>>
        ensures skims { MatchOption result ((self.new ≡ self.old) × (rest.new.now ≡ rest.old.now)) (Skims rest.old.now rest.new.now self.old self.new) }
        ensures frugal { IsFrugal self.old → IsFrugal self.new }
    {
        if !self.is_at_a_block() {
            return None;
        }
        let bytes = *rest;
        let front = packet_front(self.sections, self.big, self.interfaces.as_slice(), bytes)?;
        let (block, more) = bytes.split_at(front.total as usize);
        self.pass_packet(front.total);
        *rest = more;
        Some(Skimmed {
            block,
            bytes: &block[PACKET..PACKET + front.packet.captured as usize],
            packet: front.packet,
        })
    }

    /// Whether it has no fault, and nothing of the next block.
    #[inline(always)]
    fn is_at_a_block(&self) -> bool
        ensures { IsTrue result → (self.now.fault ≡ None) × (self.now.held ≡ None) × (self.now.passing ≡ None) × (self.now.part.items ≡ []) }
    {
        self.fault.is_none()
            && self.held.is_none()
            && self.passing.is_none()
            && self.part.is_empty()
    }

    /// Takes in that there was a packet block of so many bytes.
    #[inline(always)]
    fn pass_packet(&mut self, total: u32)
        ensures { (entry : PacketEntry) → Enters self.old self.new (Packet entry) total }
    {
        self.offset = self.offset.saturating_add(u64::from(total));
    }

    /// The block that is held, after `FeedStep::Held`.
    pub fn held(&self) -> Option<Block<'_>>
        ensures { MatchOption result (held_block self.now ≡ None) (λ block. held_block self.now ≡ Some (seen_block block)) }
    {
        let held = self.held?;
        Some(Block {
            offset: held.offset,
            bytes: self.part.as_slice(),
            content: held.content,
        })
    }

    /// How the capture ends if nothing follows: well, or with its fault.
    ///
    /// The fault is NoMemory just where a call answered it.
    pub fn ending(&self) -> Result<(), CaptureFault>
        ensures ends { (given : List WholeBlock) (fed : List ℕ) → HoldsAfter given fed self.now → Ends given fed result }
        ensures refused { held_fault self.now ≡ Some CaptureFault.NoMemory → result ≡ Err CaptureFault.NoMemory }
        ensures memory { result ≡ Err CaptureFault.NoMemory → held_fault self.now ≡ Some CaptureFault.NoMemory }
    {
        if let Some(fault) = self.fault {
            return Err(fault);
        }
        self.end(self.is_within())
    }

    /// How a capture ends with these bytes, which begin with no whole block.
    pub(crate) fn end_at(&self, rest: &[u8]) -> Result<(), CaptureFault>
        requires { (n : ℕ) (content : Says) → front_at (place_of self.now) rest.now ≢ Front.Whole n content }
        ensures { MatchResult result (λ _. EndsWith (place_of self.now) rest.now None) (λ fault. EndsWith (place_of self.now) rest.now (Some fault)) }
    {
        match self.front(rest) {
            Front::Wrong(error) => Err(CaptureFault::BadBlock(error, self.offset)),
            _ => self.end(!rest.is_empty()),
        }
    }

    /// How a capture ends at a place, within a block or not.
    fn end(&self, within: bool) -> Result<(), CaptureFault>
        ensures { MatchResult result (λ _. (within ≡ false) × (0 < self.now.sections))
            (λ fault. (fault ≡ CaptureFault.Truncated self.now.offset) × ((within ≡ true) ⊎ (self.now.sections ≡ 0))) }
    {
        if self.sections == 0 || within {
            return Err(CaptureFault::Truncated(self.offset));
        }
        Ok(())
    }

    /// Whether there are bytes of a block that isn't whole yet.
    fn is_within(&self) -> bool
        ensures { MatchBool result (IsWithin self.now.passing (open_part self.now.held self.now.part.items)) (IsBetween self.now.passing (open_part self.now.held self.now.part.items)) }
    {
        match (self.passing, self.held) {
            (Some(_), _) => true,
            (None, Some(_)) => false,
            (None, None) => !self.part.is_empty(),
        }
    }

    /// Takes bytes of a capture without a fault.
    fn step<'b>(&mut self, rest: &mut &'b [u8]) -> Result<FeedStep<'b>, CaptureFault>
        requires { self.old.fault ≡ None }
        ensures every { IfOk result (HasBytes self.old.copies) }
        ensures advances { Advances rest.old.now rest.new.now self.old self.new result }
        ensures shorter { IfOk result (λ _. IsShorter rest.old.now rest.new.now) }
        ensures frugal { IsFrugal self.old → OnOk result (IsFrugal self.new) }
        ensures same { (self.new.fault ≡ None) × (self.new.copies ≡ self.old.copies) }
    {
        self.let_go();
        if let Some(passing) = self.passing {
            return self.pass(passing, rest);
        }
        if !self.part.is_empty() {
            return self.fill(rest);
        }
        match self.front(rest) {
            Front::Short => self.fill(rest),
            Front::Wrong(error) => Err(CaptureFault::BadBlock(error, self.offset)),
            Front::Whole(total, content) => {
                Ok(FeedStep::Block(self.take_block(total, content, rest)?))
            }
        }
    }

    /// What bytes begin with that stand where the next block begins.
    pub(crate) fn front(&self, bytes: &[u8]) -> Front
        ensures { result ≡ front_at (place_of self.now) bytes.now }
    {
        front_of(self.sections, self.big, self.interfaces.as_slice(), bytes)
    }

    /// Lets the block go that is held.
    fn let_go(&mut self)
        ensures { IsLetGo self.old self.new }
    {
        if self.held.is_some() {
            self.held = None;
            self.part.clear();
        }
    }

    /// Takes the whole block that bytes begin with.
    pub(crate) fn take_block<'b>(
        &mut self,
        total: u32,
        content: Content,
        rest: &mut &'b [u8],
    ) -> Result<Block<'b>, AllocError>
        requires { front_at (place_of self.old) rest.old.now ≡ Front.Whole total content }
        ensures takes { IfOk result (TakesBlock rest.old.now rest.new.now self.old self.new total content) }
        ensures same { (self.new.fault ≡ self.old.fault) × (self.new.copies ≡ self.old.copies) }
    {
        let offset = self.offset;
        let (bytes, more) = rest.split_at(total as usize);
        self.enter(content, total)?;
        *rest = more;
        Ok(Block {
            offset,
            bytes,
            content,
        })
    }

    /// Takes in what a block says.
    fn enter(&mut self, content: Content, total: u32) -> Result<(), AllocError>
        ensures enters { OnOk result (Enters self.old self.new content total) }
        ensures same { (self.new.fault ≡ self.old.fault) × (self.new.copies ≡ self.old.copies) }
    {
        match content {
            Content::Section(header) => {
                self.sections = self.sections.saturating_add(1);
                self.big = header.big;
                self.interfaces.clear();
            }
            Content::Interface(described) => self.interfaces.push(described)?,
            Content::Packet(_) | Content::Other => {}
        }
        self.offset = self.offset.saturating_add(u64::from(total));
        Ok(())
    }

    /// Takes bytes that a block lacks that isn't whole yet.
    fn fill<'b>(&mut self, rest: &mut &'b [u8]) -> Result<FeedStep<'b>, CaptureFault>
        requires between { (self.old.fault ≡ None) × (self.old.held ≡ None) × (self.old.passing ≡ None) }
        ensures every { IfOk result (HasBytes self.old.copies) }
        ensures advances { Advances rest.old.now rest.new.now self.old self.new result }
        ensures shorter { IfOk result (λ _. IsShorter rest.old.now rest.new.now) }
        ensures frugal { IsFrugal self.old → OnOk result (IsFrugal self.new) }
        ensures same { (self.new.fault ≡ None) × (self.new.copies ≡ self.old.copies) }
    {
        let bytes = *rest;
        let count = self.wanted().max(1).min(bytes.len());
        self.part.extend_from_slice(&bytes[..count])?;
        *rest = &bytes[count..];
        self.look()
    }

    /// How many bytes the part lacks to be looked at again.
    fn wanted(&self) -> usize
        ensures { IsWanted (place_of self.now) self.now.part.items result }
    {
        let part = self.part.as_slice();
        if part.len() < FRAME {
            return FRAME - part.len();
        }
        match frame_of(self.sections, self.big, part) {
            Ok(frame) => (frame.total as usize).saturating_sub(part.len()),
            Err(_) => 0,
        }
    }

    /// Looks at a part that has grown.
    fn look<'b>(&mut self) -> Result<FeedStep<'b>, CaptureFault>
        requires between { (self.old.fault ≡ None) × (self.old.held ≡ None) × (self.old.passing ≡ None) }
        ensures looks { (given : List WholeBlock) (fed : List ℕ) → IsGrown given fed self.old → length fed < 2 ^ 64 → GoesOn given fed self.new result }
        ensures apart { IfOk result IsApart }
        ensures every { IfOk result (HasBytes self.old.copies) }
        ensures frugal { GrowsFrugally self.old.copies (place_of self.old) self.old.part.items → OnOk result (IsFrugal self.new) }
        ensures same { (self.new.fault ≡ None) × (self.new.copies ≡ self.old.copies) }
    {
        match self.front(self.part.as_slice()) {
            Front::Short => {
                self.begin_passing();
                Ok(FeedStep::More)
            }
            Front::Wrong(error) => Err(CaptureFault::BadBlock(error, self.offset)),
            Front::Whole(total, content) => {
                let offset = self.offset;
                self.enter(content, total)?;
                self.held = Some(Held { offset, content });
                Ok(FeedStep::Held)
            }
        }
    }

    /// Keeps no more of a block that nobody needs than its front.
    fn begin_passing(&mut self)
        ensures { KeepsOrPasses self.old self.new }
    {
        if self.copies || self.part.len() != FRAME {
            return;
        }
        if let Ok(frame) = frame_of(self.sections, self.big, self.part.as_slice()) {
            if !needs(frame.kind) {
                let left = frame.total.saturating_sub(16);
                self.passing = Some(Passing { frame, left });
                self.part.clear();
            }
        }
    }

    /// Takes bytes of the block that is passed over.
    fn pass<'b>(
        &mut self,
        passing: Passing,
        rest: &mut &'b [u8],
    ) -> Result<FeedStep<'b>, CaptureFault>
        requires between { (self.old.fault ≡ None) × (self.old.held ≡ None) × (self.old.passing ≡ Some passing) }
        ensures every { IfOk result (HasBytes self.old.copies) }
        ensures advances { Advances rest.old.now rest.new.now self.old self.new result }
        ensures shorter { IfOk result (λ _. IsShorter rest.old.now rest.new.now) }
        ensures frugal { IsFrugal self.old → OnOk result (IsFrugal self.new) }
        ensures same { (self.new.fault ≡ None) × (self.new.copies ≡ self.old.copies) }
    {
        let bytes = *rest;
        if passing.left > 0 {
            let count = (passing.left as usize).min(bytes.len());
            self.passing = Some(Passing {
                frame: passing.frame,
                left: passing.left - count as u32,
            });
            *rest = &bytes[count..];
            return Ok(FeedStep::More);
        }
        let count = TRAILER
            .saturating_sub(self.part.len())
            .max(1)
            .min(bytes.len());
        self.part.extend_from_slice(&bytes[..count])?;
        *rest = &bytes[count..];
        self.end_passing(passing.frame)
    }

    /// Looks at the last bytes of the block that is passed over.
    fn end_passing<'b>(&mut self, frame: Frame) -> Result<FeedStep<'b>, CaptureFault>
        requires between { (self.old.fault ≡ None) × (self.old.held ≡ None) × (self.old.passing ≡ Some (record { frame = frame; left = 0 })) }
        ensures looks { (given : List WholeBlock) (fed : List ℕ) → IsPassed given fed frame self.old → length fed < 2 ^ 64 → GoesOn given fed self.new result }
        ensures apart { IfOk result IsApart }
        ensures every { IfOk result (HasBytes self.old.copies) }
        ensures frugal { length self.old.part.items ≤ 4 → OnOk result (IsFrugal self.new) }
        ensures same { (self.new.fault ≡ None) × (self.new.copies ≡ self.old.copies) }
    {
        if self.part.len() < TRAILER {
            return Ok(FeedStep::More);
        }
        if word_at(frame.big, self.part.as_slice()) != frame.total {
            return Err(CaptureFault::BadBlock(BlockError::LengthNotRepeated, self.offset));
        }
        self.passing = None;
        self.part.clear();
        self.offset = self.offset.saturating_add(u64::from(frame.total));
        Ok(FeedStep::Passed)
    }
}
