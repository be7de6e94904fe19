//! Running a filter on the packets of a capture while it is read.

ghost use Rattle.std.specs.Prelude.{◌≡◌, ◌≤◌, ◌++◌, ◌∷◌, ℕ, List, [], Bool, if◌then◌else◌, IfOk, IfErr, OnOk, true, false};
ghost use Rattle.std.specs.List.{AllZip};
ghost use Rattle.filter_vm.specs.declared.machine.Outcome.{Outcome as Ended};
ghost use Rattle.capture_reader.specs.Steps.{seen_item};
ghost use Rattle.console.specs.Choosing.{chosen, is_chosen, is_link};
ghost use Rattle.console.specs.Programs.{Programs, programs_of};
ghost use Rattle.engine_io.specs.Reading.{GetsSome, IsReadFault, most_taken};
ghost use Rattle.engine_io.specs.Devices.{IsReadThrough, StopsReading};
ghost use Rattle.console.specs.Linking.{AreLinkTypes, links_in};
ghost use Rattle.console.specs.Running.{HasRun, RunsInput, RunsItem, item_entries};

use crate::ending::Ending;
use crate::{CodeFault, Filter, LinkTypes};
use capture_reader::{CaptureFeed, Entry, Found, PacketTime, SeenEntry};
use engine_io::{EngineFault, Got, INPUT_BYTES, READ_BYTES, Source};
use filter_vm::Outcome;
use std::alloc::{AllocError, Global};
use std::io::Read;

/// A capture of either format, whose packets are run while it is read.
pub struct CaptureRun {
    feed: CaptureFeed,
    /// The link type whose packets alone are run, if one is named.
    link: Option<u32>,
    /// Whether the times of the packets are kept.
    stamped: bool,
    /// The link types of the interfaces so far.
    links: LinkTypes,
    /// Why CODE has no program for a packet that came. No later one is run.
    refused: Option<CodeFault>,
}

// By hand, so that the proofs of its owners have one call and not a drop of each part.
impl Drop for CaptureRun {
    fn drop(self) {
        let CaptureRun {
            feed: _,
            link: _,
            stamped: _,
            links: _,
            refused: _,
        } = self;
    }
}

impl CaptureRun {
    ghost use Rattle.std.specs.Prelude.{◌≡◌, ◌≢◌, ◌<◌, ℕ, List, [], length, All, None, IfOk, OnOk, IsTrue, IsSome};
    ghost use Rattle.std.specs.Bool.{MatchBool};
    ghost use Rattle.filter_vm.specs.declared.machine.Outcome.{Outcome as Ended};
    ghost use Rattle.capture_reader.specs.declared.entry.PacketTime.{PacketTime as Time};
    ghost use Rattle.console.specs.Matching.{ending_status};
    ghost use Rattle.console.specs.Programs.{Programs, programs_of};
    ghost use Rattle.console.specs.Running.{EndsRun, HasRun, IsStopped, PassesOn, RunsOn};

    /// A run that was given nothing. Takes no memory.
    pub fn new(alloc: Global, link: Option<u32>, stamped: bool) -> CaptureRun
        ensures ran { (programs : Programs) → HasRun programs [] result [] [] }
        ensures link { result.link ≡ link }
        ensures stamped { result.stamped ≡ stamped }
    {
        CaptureRun {
            feed: CaptureFeed::new(alloc),
            link,
            stamped,
            links: LinkTypes::None,
            refused: None,
        }
    }

    /// The link types of the interfaces in what was taken.
    pub fn links(&self) -> LinkTypes
        ensures { result ≡ self.now.links }
    {
        self.links
    }

    /// Takes a piece, runs the filter on each packet that is whole then, and appends the outcomes, and the times if they are
    /// kept. True where nothing that follows is run: the capture has a fault that stands whatever bytes follow, or CODE has no program
    /// for the link type of a packet. What follows such a packet is taken all the same, so that the run knows all of the capture.
    ///
    /// A packet is run where it lies. One that a piece cut in two is kept until it is whole.
    pub fn run_piece(
        &mut self,
        filter: &Filter,
        piece: &[u8],
        outcomes: &mut Vec<Outcome>,
        stamps: &mut Vec<PacketTime>,
    ) -> Result<bool, AllocError>
        ensures runs { OnOk result (RunsOn (programs_of filter.now) piece.now [] self.old self.new outcomes.old.items outcomes.new.items stamps.old.items stamps.new.items) }
        ensures stopped { IfOk result (λ stopped. IsTrue stopped → IsStopped self.new) }
        ensures same { (self.new.link ≡ self.old.link) × (self.new.stamped ≡ self.old.stamped) }
        ensures plain { self.old.stamped ≡ false → stamps.new.items ≡ stamps.old.items }
        ensures bytes { All (λ byte. byte < 256) piece.now }
    {
        if self.refused.is_some() {
            self.pass(piece)?;
            return Ok(true);
        }
        // Apart, since a packet whose time nobody looks at takes fewer steps.
        if self.stamped {
            self.run_all(true, filter, piece, outcomes, stamps)
        } else {
            self.run_all(false, filter, piece, outcomes, stamps)
        }
    }

    /// Takes a piece as `run_piece` does; `stamped` says whether times are kept.
    #[inline(always)]
    fn run_all(
        &mut self,
        stamped: bool,
        filter: &Filter,
        piece: &[u8],
        outcomes: &mut Vec<Outcome>,
        stamps: &mut Vec<PacketTime>,
    ) -> Result<bool, AllocError>
        requires stamped { self.old.stamped ≡ stamped }
        requires goes_on { self.old.refused ≡ None }
        ensures runs { OnOk result (RunsOn (programs_of filter.now) piece.now [] self.old self.new outcomes.old.items outcomes.new.items stamps.old.items stamps.new.items) }
        ensures stopped { IfOk result (λ stopped. IsTrue stopped → IsStopped self.new) }
        ensures same { (self.new.link ≡ self.old.link) × (self.new.stamped ≡ self.old.stamped) }
        ensures plain { self.old.stamped ≡ false → stamps.new.items ≡ stamps.old.items }
        ensures bytes { All (λ byte. byte < 256) piece.now }
    {
        let mut rest = piece;
        while !rest.is_empty() {
            if let Some(item) = self.feed.next_whole(&mut rest) {
                let stop = run_found(
                    filter,
                    self.link,
                    stamped,
                    Some(item),
                    &mut self.links,
                    outcomes,
                    stamps,
                )?;
                if self.after(stop, &mut rest)? {
                    return Ok(true);
                }
                continue;
            }
            if self.run_next(filter, &mut rest, outcomes, stamps)? {
                return Ok(true);
            }
        }
        Ok(false)
    }

    /// Takes bytes off the front of a piece, up to the end of an entry at most, and runs the filter on its packet, if it has
    /// one. True where nothing that follows is run: the capture has a fault, or the packet was refused. Then all are taken.
    fn run_next(
        &mut self,
        filter: &Filter,
        rest: &mut &[u8],
        outcomes: &mut Vec<Outcome>,
        stamps: &mut Vec<PacketTime>,
    ) -> Result<bool, AllocError>
        requires goes_on { self.old.refused ≡ None }
        ensures runs { OnOk result (RunsOn (programs_of filter.now) rest.old.now rest.new.now self.old self.new outcomes.old.items outcomes.new.items stamps.old.items stamps.new.items) }
        ensures shorter { IfOk result (λ _. rest.old.now ≢ [] → length rest.new.now < length rest.old.now) }
        ensures stopped { IfOk result (λ stopped. MatchBool stopped (IsStopped self.new × (rest.new.now ≡ [])) (self.new.refused ≡ None)) }
        ensures same { (self.new.link ≡ self.old.link) × (self.new.stamped ≡ self.old.stamped) }
        ensures plain { self.old.stamped ≡ false → stamps.new.items ≡ stamps.old.items }
    {
        match self.feed.next(rest) {
            Ok(Found::SeenEntry(item)) => {
                let stop = run_found(
                    filter,
                    self.link,
                    self.stamped,
                    Some(item),
                    &mut self.links,
                    outcomes,
                    stamps,
                )?;
                self.after(stop, rest)
            }
            Ok(Found::Held) => {
                let held = self.feed.held();
                let stop = run_found(
                    filter,
                    self.link,
                    self.stamped,
                    held,
                    &mut self.links,
                    outcomes,
                    stamps,
                )?;
                self.after(stop, rest)
            }
            Ok(Found::Nothing) => Ok(false),
            Err(fault) => {
                if fault.is_refusal() {
                    return Err(AllocError);
                }
                *rest = &[];
                Ok(true)
            }
        }
    }

    /// Goes on after an entry whose packet was run. Where it was refused, takes the rest of the piece without running, and answers
    /// true.
    #[inline(always)]
    fn after(&mut self, stop: Option<CodeFault>, rest: &mut &[u8]) -> Result<bool, AllocError>
        ensures went { IfOk result (λ stopped. MatchBool stopped
            ((rest.new.now ≡ []) × IsSome self.new.refused × PassesOn rest.old.now [] (record self.old { refused = stop }) self.new)
            ((stop ≡ None) × (self.new ≡ self.old) × (rest.new.now ≡ rest.old.now))) }
        ensures same { (self.new.link ≡ self.old.link) × (self.new.stamped ≡ self.old.stamped) }
    {
        if stop.is_none() {
            return Ok(false);
        }
        self.refused = stop;
        self.pass(rest)?;
        *rest = &[];
        Ok(true)
    }

    /// Takes a piece without running any packet, after one was refused.
    fn pass(&mut self, piece: &[u8]) -> Result<(), AllocError>
        requires { IsSome self.old.refused }
        ensures passes { OnOk result (PassesOn piece.now [] self.old self.new) }
        ensures same { (self.new.link ≡ self.old.link) × (self.new.stamped ≡ self.old.stamped) × (self.new.refused ≡ self.old.refused) }
    {
        let mut rest = piece;
        while !rest.is_empty() {
            self.pass_next(&mut rest)?;
        }
        Ok(())
    }

    /// Takes bytes off the front of a piece, up to the end of an entry at most, after a packet was refused. After a fault of the
    /// capture all are taken.
    fn pass_next(&mut self, rest: &mut &[u8]) -> Result<(), AllocError>
        requires { IsSome self.old.refused }
        ensures passes { OnOk result (PassesOn rest.old.now rest.new.now self.old self.new) }
        ensures shorter { OnOk result (rest.old.now ≢ [] → length rest.new.now < length rest.old.now) }
        ensures same { (self.new.link ≡ self.old.link) × (self.new.stamped ≡ self.old.stamped) × (self.new.refused ≡ self.old.refused) }
    {
        match self.feed.next(rest) {
            Ok(Found::SeenEntry(item)) => {
                self.links = links_with(self.links, Some(item));
                Ok(())
            }
            Ok(Found::Held) => {
                self.links = links_with(self.links, self.feed.held());
                Ok(())
            }
            Ok(Found::Nothing) => Ok(()),
            Err(fault) => {
                if fault.is_refusal() {
                    return Err(AllocError);
                }
                *rest = &[];
                Ok(())
            }
        }
    }

    /// What comes after the packets of a capture that ends where it was taken: the fault of CODE that one met, or the capture's, if it
    /// has one.
    pub fn ending(&self) -> Result<Ending, AllocError>
        ensures stopped { IsStopped self.now → IfOk result (λ ending. ending_status ending ≡ 1) }
        ensures ends { IfOk result (λ ending. (programs : Programs) (fed : List ℕ) (outcomes : List Ended) (stamps : List Time)
            → HasRun programs fed self.now outcomes stamps → EndsRun programs self.now.link fed outcomes ending) }
    {
        if let Some(fault) = self.refused {
            return Ok(Ending::Refused(fault));
        }
        match self.feed.ending() {
            Ok(()) => Ok(Ending::Done),
            Err(fault) => {
                if fault.is_refusal() {
                    return Err(AllocError);
                }
                Ok(Ending::Fault(fault))
            }
        }
    }
}

/// The link types with that of an entry that was seen, if it is an interface.
fn links_with(links: LinkTypes, item: Option<SeenEntry<'_>>) -> LinkTypes
    ensures { (before : List ℕ) → AreLinkTypes before links → AreLinkTypes (before ++ links_in (item_entries item.entry)) result }
{
    match item {
        Some(item) => links.with_entry(item.entry),
        None => links,
    }
}

/// Runs the filter on the packet of an entry, if there is one that is chosen, and appends the outcome, and the time if times are
/// kept; or answers why CODE has no program for its link type. Of an interface it adds the link type.
#[inline(always)]
fn run_found(
    filter: &Filter,
    link: Option<u32>,
    stamped: bool,
    item: Option<SeenEntry<'_>>,
    links: &mut LinkTypes,
    outcomes: &mut Vec<Outcome>,
    stamps: &mut Vec<PacketTime>,
) -> Result<Option<CodeFault>, AllocError>
    ensures runs { IfOk result (λ stop. RunsItem (programs_of filter.now) link stamped item.entry stop outcomes.old.items outcomes.new.items stamps.old.items stamps.new.items) }
    ensures plain { stamped ≡ false → stamps.new.items ≡ stamps.old.items }
    ensures links { (before : List ℕ) → AreLinkTypes before links.old → AreLinkTypes (before ++ links_in (item_entries item.entry)) links.new }
{
    let Some(item) = item else {
        return Ok(None);
    };
    let Entry::Packet(info) = item.entry else {
        *links = links.with_entry(item.entry);
        return Ok(None);
    };
    if !is_link(link, info.link) {
        return Ok(None);
    }
    let program = match filter.program(info.link) {
        Ok(program) => program,
        Err(fault) => return Ok(Some(fault)),
    };
    outcomes.push(program.run(item.bytes, info.original))?;
    if stamped {
        stamps.push(info.time)?;
    }
    Ok(None)
}

/// Whether a link type is the one that is named, if one is.
#[inline(always)]
pub fn is_link(one: Option<u32>, link: u32) -> bool
    ensures { result ≡ is_link one link }
{
    match one {
        None => true,
        Some(one) => link == one,
    }
}

/// Reads a capture to its end and runs the filter on each packet as soon as it is whole; false for an input of more than
/// 64 MiB.
///
/// No packet is kept, but for one that a read cut in two. After a fault of the capture it reads on without running, so that
/// an input that is too long is reported all the same. `run` was given nothing before, and `outcomes` is empty.
pub fn run_input<R: Read>(
    filter: &Filter,
    reader: &mut Source<R>,
    run: &mut CaptureRun,
    outcomes: &mut Vec<Outcome>,
    stamps: &mut Vec<PacketTime>,
) -> Result<bool, EngineFault>
    requires fresh { HasRun (programs_of filter.now) [] run.old [] [] }
    requires empty { (outcomes.old.items ≡ []) × (stamps.old.items ≡ []) }
    requires unread { reader.old.taken ≡ 0 }
    requires open { (reader.old.ended ≡ false) × (reader.old.failed ≡ false) }
    ensures run { IfOk result (RunsInput R.remaining reader.old reader.new (programs_of filter.now) run.new outcomes.new.items stamps.new.items) }
    ensures link { run.new.link ≡ run.old.link }
    ensures record { IfOk result (IsReadThrough reader.new INPUT_BYTES) }
    ensures fault { IfErr result IsReadFault }
    ensures cause { IfErr result (StopsReading reader.new) }
    ensures taken { GetsSome R.remaining reader.old reader.new }
    ensures most { reader.new.taken ≤ most_taken }
{
    let mut block = [0u8; READ_BYTES];
    while reader.left() > 0 {
        match reader.read(&mut block) {
            Got::Bytes(count) => {
                if reader.taken() > INPUT_BYTES {
                    return Ok(false);
                }
                let _ = run.run_piece(filter, &block[..count], outcomes, stamps)?;
            }
            Got::End => return Ok(true),
            Got::Again => {}
            Got::Failed => return Err(EngineFault::ReadFailed),
        }
    }
    Err(EngineFault::ReadFailed)
}
