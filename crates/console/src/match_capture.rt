//! What `match` shows of the packets of a capture.

ghost use Rattle.std.specs.Prelude.{◌≡◌, ◌⊎◌, ◌++◌, ℕ, List, [], Option, IfOk, IfErr, IsErrOf, OnOk, string_bytes, true, false};
ghost use Rattle.engine_io.specs.Devices.{StopsWriting, Writes};
ghost use Rattle.engine_io.specs.Reading.{IsPrintFault};
ghost use Rattle.console.specs.Matching.{ShowsBytes, ShowsPackets};
ghost use Rattle.capture_reader.specs.declared.entry.PacketTime.{PacketTime as Time};
ghost use Rattle.console.specs.declared.form.PacketForm.{PacketForm as Form};
ghost use Rattle.console.specs.declared.filter.CodeFault.{CodeFault};
ghost use Rattle.console.specs.Expressions.{explanation_of};
ghost use Rattle.console.specs.Programs.{Programs};
ghost use Rattle.console.specs.Running.{HasRun};

use crate::View;
use crate::capture_run::CaptureRun;
use crate::ending::write_last;
use crate::output::write_outcomes;
use engine_io::{EngineFault, Sink};
use filter_vm::Outcome;
use std::alloc::Global;
use std::io::Write;

/// Prints what came out of the packets of a capture that was fed, and what comes after them, and answers the status. What a fault of
/// CODE means, if a packet met one, is appended to `complaint`.
pub fn show_capture<W: Write>(
    alloc: Global,
    code: &[u8],
    run: &CaptureRun,
    outcomes: &[Outcome],
    writer: &mut Sink<W>,
    complaint: &mut String,
) -> Result<u8, EngineFault>
    requires { writer.old.failed ≡ false }
    ensures shown { IfOk result (λ status. (text : List ℕ) × (stop : Option CodeFault) × Writes W.contents writer.old writer.new text
        × ((programs : Programs) (fed : List ℕ) (stamps : List Time) → HasRun programs fed run.now outcomes.now stamps → ShowsBytes programs (Form.Capture run.now.link) fed status text stop)
        × (string_bytes complaint.new ≡ string_bytes complaint.old ++ explanation_of code.now stop)) }
    ensures part { IsErrOf result EngineFault.NoMemory → (text : List ℕ) × Writes W.contents writer.old writer.new text
        × ((text ≡ []) ⊎ ((programs : Programs) (fed : List ℕ) (stamps : List Time) → HasRun programs fed run.now outcomes.now stamps → ShowsPackets programs (Form.Capture run.now.link) fed text)) }
    ensures fault { IfErr result IsPrintFault }
    ensures good { OnOk result (writer.new.failed ≡ false) }
    ensures cause { IfErr result (StopsWriting writer.new) }
{
    let ending = run.ending()?;
    let mut text = String::new(alloc);
    write_outcomes(&mut text, View::Lines, 0, outcomes, &[], writer)?;
    write_last(alloc, code, text, ending, writer, complaint)
}
