//! Lines of hexadecimal digits that come in pieces.

ghost use Rattle.std.specs.Prelude.{◌≡◌, ◌+◌, ◌<◌, ◌≤◌, ◌++◌, ◌∷◌, ◌^◌, [], List, length, IfOk, OnOk, true, false};
ghost use Rattle.std.specs.Bool.{MatchBool};
ghost use Rattle.std.specs.Str.Lines.{strip_carriage_return};
ghost use Rattle.filter_vm.specs.declared.machine.Outcome.{Outcome as Ended};
ghost use Rattle.console.specs.Matching.{Answers, IsNotRun};
ghost use Rattle.console.specs.Programs.{Programs, programs_of};
ghost use Rattle.console.specs.Running.{RunsTo};
ghost use Rattle.console.specs.Streaming.{LinesEnded, LinesRan, LinesStopped};

use crate::lines::{newline_at, without_return};
use crate::match_lines::outcome_of;
use crate::{CodeFault, Filter};
use filter_vm::Outcome;
use std::alloc::{AllocError, Global};

/// The most bytes of a line.
const MOST_OF_A_LINE: usize = 4_294_967_295;

/// An input of lines that comes in pieces, cut anywhere.
#[derive(Drop)]
pub struct LineFeed {
    /// The bytes of a line that isn't whole yet.
    part: Vec<u8>,
    /// The packet of the last line, which is kept for its memory.
    packet: Vec<u8>,
    /// How many lines spelt a packet.
    number: u64,
    /// The link type of the packets.
    link: u32,
    /// The fault of CODE that a packet met.
    refused: Option<CodeFault>,
}

impl LineFeed {
    /// A feed that was fed nothing, of packets of this link type. Takes no memory.
    pub fn new(alloc: Global, link: u32) -> LineFeed
        ensures ran { (programs : Programs) → LinesRan programs [] result [] }
        ensures link { result.link ≡ link }
    {
        LineFeed {
            part: Vec::new(alloc),
            packet: Vec::new(alloc),
            number: 0,
            link,
            refused: None,
        }
    }

    /// How many lines spelt a packet.
    pub fn number(&self) -> u64
        ensures { result ≡ self.now.number }
    {
        self.number
    }

    /// The fault of CODE that a packet met, if one did.
    pub fn refused(&self) -> Option<CodeFault>
        ensures { result ≡ self.now.refused }
    {
        self.refused
    }

    /// Runs the filter on the packet of each line that ends in a piece, up to a line that isn't run, and appends the
    /// outcomes. True where there is such a line. A line of 2^32 bytes or more is refused as memory is.
    pub fn run_piece(
        &mut self,
        filter: &Filter,
        piece: &[u8],
        outcomes: &mut Vec<Outcome>,
    ) -> Result<bool, AllocError>
        requires { length piece.now ≤ 65536 }
        ensures runs { IfOk result (λ stopped. MatchBool stopped
            (RunsTo (LinesRan (programs_of filter.now)) (LinesStopped (programs_of filter.now)) piece.now [] self.old self.new outcomes.old.items outcomes.new.items)
            (RunsTo (LinesRan (programs_of filter.now)) (LinesRan (programs_of filter.now)) piece.now [] self.old self.new outcomes.old.items outcomes.new.items)) }
        ensures link { self.new.link ≡ self.old.link }
    {
        let mut rest = piece;
        while let Some(end) = newline_at(rest) {
            if !self.run_line(filter, &rest[..end], outcomes)? {
                return Ok(true);
            }
            rest = &rest[end + 1..];
        }
        self.keep(rest)?;
        Ok(false)
    }

    /// Runs the filter on the packet of the last line, which has no end, and appends the outcome. True where there is such a
    /// line and it isn't run.
    pub fn finish(
        &mut self,
        filter: &Filter,
        outcomes: &mut Vec<Outcome>,
    ) -> Result<bool, AllocError>
        ensures runs { IfOk result (λ stopped. MatchBool stopped
            (RunsTo (LinesRan (programs_of filter.now)) (LinesStopped (programs_of filter.now)) [] [] self.old self.new outcomes.old.items outcomes.new.items)
            (RunsTo (LinesRan (programs_of filter.now)) (LinesEnded (programs_of filter.now)) [] [] self.old self.new outcomes.old.items outcomes.new.items)) }
        ensures link { self.new.link ≡ self.old.link }
    {
        if self.part.is_empty() {
            return Ok(false);
        }
        if self.part.len() > MOST_OF_A_LINE {
            return Err(AllocError);
        }
        match outcome_of(filter, self.link, self.part.as_slice(), &mut self.packet)? {
            Ok(outcome) => {
                outcomes.push(outcome)?;
                Ok(false)
            }
            Err(stop) => {
                self.refused = stop;
                Ok(true)
            }
        }
    }

    /// Runs the filter on the packet that a line spells, whose last bytes these are, and appends the outcome. False where it
    /// isn't run.
    fn run_line(
        &mut self,
        filter: &Filter,
        last: &[u8],
        outcomes: &mut Vec<Outcome>,
    ) -> Result<bool, AllocError>
        requires { length last.now ≤ 65536 }
        ensures ran { IfOk result (λ good. MatchBool good
            ((outcome : Ended) × Answers (programs_of filter.now) self.old.link (strip_carriage_return (self.old.part.items ++ last.now)) outcome
            × (outcomes.new.items ≡ outcomes.old.items ++ outcome ∷ []))
            (IsNotRun (programs_of filter.now) self.old.link (strip_carriage_return (self.old.part.items ++ last.now)) self.new.refused × (outcomes.new.items ≡ outcomes.old.items))) }
        ensures count { IfOk result (λ good. MatchBool good
            ((self.new.part.items ≡ []) × (self.old.number + 1 < 2 ^ 64 → self.new.number ≡ self.old.number + 1))
            (self.new.number ≡ self.old.number)) }
        ensures link { self.new.link ≡ self.old.link }
    {
        let found = if self.part.is_empty() {
            outcome_of(filter, self.link, without_return(last), &mut self.packet)?
        } else {
            self.keep(last)?;
            let line = without_return(self.part.as_slice());
            let found = outcome_of(filter, self.link, line, &mut self.packet)?;
            self.part.clear();
            found
        };
        match found {
            Ok(outcome) => {
                outcomes.push(outcome)?;
                self.number = self.number.saturating_add(1);
                Ok(true)
            }
            Err(stop) => {
                self.refused = stop;
                Ok(false)
            }
        }
    }

    /// Keeps bytes of a line that isn't whole yet.
    fn keep(&mut self, bytes: &[u8]) -> Result<(), AllocError>
        ensures kept { OnOk result (self.new.part.items ≡ self.old.part.items ++ bytes.now) }
        ensures short { OnOk result (length self.new.part.items < 2 ^ 32) }
        ensures number { self.new.number ≡ self.old.number }
        ensures link { self.new.link ≡ self.old.link }
    {
        if bytes.len() > MOST_OF_A_LINE || self.part.len() > MOST_OF_A_LINE - bytes.len() {
            return Err(AllocError);
        }
        self.part.extend_from_slice(bytes)
    }
}
