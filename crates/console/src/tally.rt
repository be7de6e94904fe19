//! Showing outcomes, and counting them.

ghost use Rattle.std.specs.Prelude.{◌≡◌, ◌+◌, ◌<◌, ◌^◌, ◌++◌, ℕ, List, [], length, IfOk, IfErr, IsTrue, None, OnOk, OnErr, string_bytes, false};
ghost use Rattle.filter_vm.specs.declared.machine.Outcome.{Outcome as Ended};
ghost use Rattle.console.specs.declared.view.View.{View as Shown};
ghost use Rattle.engine_io.specs.Devices.{StopsWriting, Writes};
ghost use Rattle.engine_io.specs.Reading.{IsPrintFault};
ghost use Rattle.engine_io.specs.Reading.{BeginsWith};
ghost use Rattle.console.specs.declared.tally.Finished.{Finished as Ends};
ghost use Rattle.console.specs.Matching.{ending_status, ending_stop};
ghost use Rattle.console.specs.Views.{HasCounted, IsNoneStatus, ShowsEnd, accepted, shown_at_once};

use crate::ending::Ending;
use crate::output::write_outcomes;
use crate::view::push_after;
use crate::{CodeFault, View};
use capture_reader::PacketTime;
use engine_io::{EngineFault, Sink, write_text};
use filter_vm::Outcome;
use std::alloc::{AllocError, Global};
use std::io::Write;

/// The status by which `View::Quiet` says that no packet was accepted.
pub const NONE_ACCEPTED: u8 = 4;

/// What came of all packets.
#[derive(Clone, Copy, Debug)]
pub struct Finished {
    /// The status.
    pub status: u8,
    /// The fault of CODE that a packet met, if one did.
    pub stop: Option<CodeFault>,
}

/// Shows outcomes under a view, and counts them.
#[derive(Drop)]
pub struct Tally {
    view: View,
    /// How many outcomes were shown.
    total: u64,
    /// How many packets among them were accepted.
    accepted: u64,
    /// Text that is kept back.
    text: String,
}

impl Tally {
    /// A tally of nothing. Takes no memory.
    pub fn new(alloc: Global, view: View) -> Tally
        ensures counted { HasCounted view result [] }
        ensures empty { string_bytes result.text ≡ [] }
    {
        Tally {
            view,
            total: 0,
            accepted: 0,
            text: String::new(alloc),
        }
    }

    /// Counts outcomes, and writes what is shown of them at once, with the time stamps of the first ones. 2^64 packets are refused as memory is.
    pub fn show<W: Write>(
        &mut self,
        outcomes: &[Outcome],
        stamps: &[PacketTime],
        writer: &mut Sink<W>,
    ) -> Result<(), EngineFault>
        requires empty { string_bytes self.old.text ≡ [] }
        requires good { writer.old.failed ≡ false }
        ensures shown { OnOk result (Writes W.contents writer.old writer.new (shown_at_once self.old.view self.old.total stamps.now outcomes.now)) }
        ensures front { OnErr result ((front : List ℕ) × BeginsWith front (shown_at_once self.old.view self.old.total stamps.now outcomes.now)
            × Writes W.contents writer.old writer.new front) }
        ensures counted { OnOk result ((view : Shown) (before : List Ended) → HasCounted view self.old before → HasCounted view self.new (before ++ outcomes.now)) }
        ensures empty { OnOk result (string_bytes self.new.text ≡ []) }
        ensures fault { IfErr result IsPrintFault }
        ensures good { OnOk result (writer.new.failed ≡ false) }
        ensures cause { IfErr result (StopsWriting writer.new) }
    {
        let before = self.total;
        self.count(outcomes)?;
        write_outcomes(&mut self.text, self.view, before, outcomes, stamps, writer)
    }

    /// Counts outcomes.
    fn count(&mut self, outcomes: &[Outcome]) -> Result<(), AllocError>
        ensures few { OnOk result (self.old.total + length outcomes.now < 2 ^ 64) }
        ensures total { OnOk result (self.new.total ≡ self.old.total + length outcomes.now) }
        ensures accepted { OnOk result (self.new.accepted ≡ self.old.accepted + accepted outcomes.now) }
        ensures view { self.new.view ≡ self.old.view }
        ensures text { self.new.text ≡ self.old.text }
    {
        let total = self.total.checked_add(outcomes.len() as u64);
        let accepted = self.accepted.checked_add(accepted(outcomes));
        match (total, accepted) {
            (Some(total), Some(accepted)) => {
                self.total = total;
                self.accepted = accepted;
                Ok(())
            }
            _ => Err(AllocError),
        }
    }

    /// Whether nothing that follows can change the status: under `View::Quiet`, a packet was accepted.
    pub fn is_done(&self) -> bool
        ensures done { IsTrue result → (self.now.view ≡ Shown.Quiet) × (0 < self.now.accepted) }
        ensures only { self.now.view ≡ Shown.Quiet → 0 < self.now.accepted → IsTrue result }
    {
        matches!(self.view, View::Quiet) && self.accepted > 0
    }

    /// Writes what comes after the last packet, and answers the status, and the fault of CODE that was met. Under `View::Quiet`
    /// that doesn't matter where a packet was accepted.
    pub fn finish<W: Write>(
        mut self,
        ending: Ending,
        writer: &mut Sink<W>,
    ) -> Result<Finished, EngineFault>
        requires empty { string_bytes self.text ≡ [] }
        requires good { writer.old.failed ≡ false }
        ensures shown { IfOk result (λ finished. (text : List ℕ) × Writes W.contents writer.old writer.new text
            × ShowsEnd self.view self.accepted self.total ending text finished) }
        ensures left { OnErr result ((text : List ℕ) × Writes W.contents writer.old writer.new text
            × ((finished : Ends) × (whole : List ℕ) × ShowsEnd self.view self.accepted self.total ending whole finished × BeginsWith text whole)) }
        ensures fault { IfErr result IsPrintFault }
        ensures good { OnOk result (writer.new.failed ≡ false) }
        ensures cause { IfErr result (StopsWriting writer.new) }
    {
        if let View::Quiet = self.view {
            return Ok(quiet_end(self.accepted, ending));
        }
        push_after(&mut self.text, self.view, self.accepted, self.total)?;
        ending.push(&mut self.text)?;
        write_text(writer, self.text.as_str())?;
        Ok(Finished {
            status: ending.status(),
            stop: ending.stop(),
        })
    }
}

/// How many packets were accepted.
fn accepted(outcomes: &[Outcome]) -> u64
    ensures { result ≡ accepted outcomes.now }
{
    outcomes
        .iter()
        .filter(|outcome| outcome.verdict > 0)
        .count() as u64
}

/// The end under `View::Quiet`.
fn quiet_end(accepted: u64, ending: Ending) -> Finished
    ensures some { 0 < accepted → (result.status ≡ 0) × (result.stop ≡ None) }
    ensures none { accepted ≡ 0 → IsNoneStatus (ending_status ending) result.status × (result.stop ≡ ending_stop ending) }
{
    if accepted > 0 {
        return Finished {
            status: 0,
            stop: None,
        };
    }
    let status = if ending.status() == 0 {
        NONE_ACCEPTED
    } else {
        ending.status()
    };
    Finished {
        status,
        stop: ending.stop(),
    }
}
