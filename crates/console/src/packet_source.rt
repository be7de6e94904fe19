//! What a stream reads its packets from.

ghost use Rattle.std.specs.Prelude.{◌≡◌, ◌<◌, ◌≤◌, ◌^◌, ℕ, List, [], length, All, true, false, IfOk, IsTrue};
ghost use Rattle.std.specs.Bool.{MatchBool};
ghost use Rattle.filter_vm.specs.declared.machine.Outcome.{Outcome as Ended};
ghost use Rattle.capture_reader.specs.declared.entry.PacketTime.{PacketTime as Time};
ghost use Rattle.console.specs.Choosing.{is_capture};
ghost use Rattle.console.specs.Matching.{ending_status};
ghost use Rattle.console.specs.Programs.{Programs, programs_of};
ghost use Rattle.console.specs.Streaming.{SourceEnded, SourceRan, StampTo, form_of, is_stamped, links_of};
ghost use Rattle.console.specs.Views.{RanAll};

use crate::capture_run::CaptureRun;
use crate::ending::Ending;
use crate::line_feed::LineFeed;
use crate::{Filter, LinkTypes, PacketForm};
use capture_reader::PacketTime;
use filter_vm::Outcome;
use std::alloc::{AllocError, Global};

/// An input whose packets are run while it is read.
#[derive(Drop)]
pub enum PacketSource {
    /// Lines of hexadecimal digits.
    Lines(LineFeed),
    /// A capture.
    Capture(CaptureRun),
}

impl PacketSource {
    /// A source that was given nothing, of such packets. Of a capture's the times are given, if `stamped`. Takes no memory.
    pub fn new(alloc: Global, form: PacketForm, stamped: bool) -> PacketSource
        requires { stamped ≡ true → is_capture form ≡ true }
        ensures ran { (programs : Programs) → SourceRan programs [] result [] [] }
        ensures form { form_of result ≡ form }
        ensures stamped { is_stamped result ≡ stamped }
    {
        match form {
            PacketForm::Digits(link) => PacketSource::Lines(LineFeed::new(alloc, link)),
            PacketForm::Capture(link) => {
                PacketSource::Capture(CaptureRun::new(alloc, link, stamped))
            }
        }
    }

    /// Runs the filter on each packet that is whole after a piece, and appends the outcomes, and the time stamps if it has
    /// them. True where nothing that follows is looked at: after a line that isn't run, a packet for whose link type CODE has no
    /// program, or a fault of the capture that stands whatever follows.
    pub fn run(
        &mut self,
        filter: &Filter,
        piece: &[u8],
        outcomes: &mut Vec<Outcome>,
        stamps: &mut Vec<PacketTime>,
    ) -> Result<bool, AllocError>
        requires { length piece.now ≤ 65536 }
        ensures runs { IfOk result (λ stopped. MatchBool stopped
            (StampTo (SourceRan (programs_of filter.now)) (SourceEnded (programs_of filter.now) true) piece.now self.old self.new outcomes.old.items outcomes.new.items stamps.old.items stamps.new.items)
            (StampTo (SourceRan (programs_of filter.now)) (SourceRan (programs_of filter.now)) piece.now self.old self.new outcomes.old.items outcomes.new.items stamps.old.items stamps.new.items)) }
        ensures form { form_of self.new ≡ form_of self.old }
        ensures stamped { is_stamped self.new ≡ is_stamped self.old }
        ensures plain { is_stamped self.old ≡ false → stamps.new.items ≡ stamps.old.items }
        ensures bytes { All (λ byte. byte < 256) piece.now }
    {
        match self {
            PacketSource::Lines(lines) => lines.run_piece(filter, piece, outcomes),
            PacketSource::Capture(capture) => capture.run_piece(filter, piece, outcomes, stamps),
        }
    }

    /// Runs the filter on the packet that the end of the input makes whole, if there is one, and appends the outcome. True
    /// where there is a last line that isn't run.
    pub fn finish(
        &mut self,
        filter: &Filter,
        outcomes: &mut Vec<Outcome>,
    ) -> Result<bool, AllocError>
        ensures runs { IfOk result (λ stopped. (stamps : List Time)
            → StampTo (SourceRan (programs_of filter.now)) (SourceEnded (programs_of filter.now) stopped) [] self.old self.new outcomes.old.items outcomes.new.items stamps stamps) }
        ensures form { form_of self.new ≡ form_of self.old }
        ensures stamped { is_stamped self.new ≡ is_stamped self.old }
    {
        match self {
            PacketSource::Lines(lines) => lines.finish(filter, outcomes),
            PacketSource::Capture(_) => Ok(false),
        }
    }

    /// The link types of the interfaces in what was taken of a capture.
    pub fn links(&self) -> LinkTypes
        ensures { result ≡ links_of self.now }
    {
        match self {
            PacketSource::Lines(_) => LinkTypes::None,
            PacketSource::Capture(capture) => capture.links(),
        }
    }

    /// What comes after the last packet that was run: the line at which the run stopped, the fault of CODE that a packet met, or the
    /// fault of the capture.
    pub fn ending(&self, stopped: bool) -> Result<Ending, AllocError>
        ensures ends { IfOk result (λ ending. (programs : Programs) (taken : List ℕ) (outcomes : List Ended) (stamps : List Time) → length taken < 2 ^ 64
            → SourceEnded programs stopped taken self.now outcomes stamps
            → RanAll programs (form_of self.now) taken outcomes ending) }
        ensures status { IfOk result (λ ending. (programs : Programs) (taken : List ℕ) (outcomes : List Ended) (stamps : List Time)
            → SourceEnded programs stopped taken self.now outcomes stamps → IsTrue stopped → ending_status ending ≡ 1) }
    {
        match self {
            PacketSource::Lines(lines) => {
                if !stopped {
                    return Ok(Ending::Done);
                }
                Ok(Ending::at_line(lines.number().saturating_add(1), lines.refused()))
            }
            PacketSource::Capture(capture) => capture.ending(),
        }
    }
}
