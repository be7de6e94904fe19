//! The line for the first fault of a script.

ghost use Rattle.std.specs.Prelude.{◌≡◌, ◌++◌, IfOk, OnOk, string_bytes};
ghost use Rattle.script_input.specs.Faults.{body_words, kind_words, script_fault_line};

use console::{name_of_asm_fault, push_code_words, push_read_words};
use mk_script::{BodyFault, ScriptFault, ScriptFaultKind};
use std::alloc::{AllocError, Global};
use std::fmt::Write;

/// The line for the first fault of a script.
pub(crate) fn fault_line(alloc: Global, fault: ScriptFault) -> Result<String, AllocError>
    ensures { IfOk result (λ line. string_bytes line ≡ script_fault_line fault) }
{
    let mut line = format!(in alloc; "line {}: ", fault.line)?;
    push_kind(&mut line, fault.kind)?;
    line.push_str("\n")?;
    Ok(line)
}

fn push_kind(line: &mut String, kind: ScriptFaultKind) -> Result<(), AllocError>
    ensures { OnOk result (string_bytes line.new ≡ string_bytes line.old ++ kind_words kind) }
{
    match kind {
        ScriptFaultKind::BadLine => line.push_str("BadLine"),
        ScriptFaultKind::NoCores => line.push_str("NoCores"),
        ScriptFaultKind::BadNumber => line.push_str("BadNumber"),
        ScriptFaultKind::Twice => line.push_str("Twice"),
        ScriptFaultKind::AfterCores => line.push_str("AfterCores"),
        ScriptFaultKind::NoName => line.push_str("NoName"),
        ScriptFaultKind::BadBody(fault) => {
            line.push_str("BadBody ")?;
            push_body(line, fault)
        }
        ScriptFaultKind::NoMemory => Err(AllocError),
    }
}

fn push_body(line: &mut String, fault: BodyFault) -> Result<(), AllocError>
    ensures { OnOk result (string_bytes line.new ≡ string_bytes line.old ++ body_words fault) }
{
    match fault {
        BodyFault::Hex => line.push_str("hex"),
        BodyFault::Asm(fault) => {
            let Some(name) = name_of_asm_fault(fault.kind) else {
                return Err(AllocError);
            };
            write!(line, "asm {} {name}", fault.line)
        }
        BodyFault::Ddd(fault) => {
            line.push_str("ddd ")?;
            push_code_words(line, fault)
        }
        BodyFault::Capture(fault) => {
            line.push_str("capture ")?;
            push_read_words(line, fault)
        }
    }
}
