//! The line for a fault of CODE that is an expression, and what it means.

ghost use Rattle.std.specs.Prelude.{◌≡◌, ◌++◌, OnOk, string_bytes};
ghost use Rattle.console.specs.CodeWords.{code_fault_line, compile_name, kind_name, refusal_name, word_name};
ghost use Rattle.console.specs.Expressions.{explanation};

use crate::CodeFault;
use filter_expr::{CompileFault, ExprFaultKind, Refusal, WordFaultKind, explain};
use std::alloc::{AllocError, Global};
use std::fmt::Write;

/// Appends the line for a fault of CODE: `code column C KIND`, without a column where it has none, or `code link N`.
pub fn push_code_fault(text: &mut String, fault: CodeFault) -> Result<(), AllocError>
    ensures { OnOk result (string_bytes text.new ≡ string_bytes text.old ++ code_fault_line fault) }
{
    match fault {
        CodeFault::Compile(fault) => push_compile_fault(text, fault),
        CodeFault::Link(link) => writeln!(text, "code link {link}"),
    }
}

/// Appends the line for a fault of an expression.
fn push_compile_fault(text: &mut String, fault: CompileFault) -> Result<(), AllocError>
    ensures { OnOk result (string_bytes text.new ≡ string_bytes text.old ++ code_fault_line (CodeFault.Compile fault)) }
{
    let name = name_of_compile(fault);
    match fault.place() {
        Some((column, _)) => writeln!(text, "code column {column} {name}"),
        None => writeln!(text, "code {name}"),
    }
}

/// Appends what a fault of CODE means: the text of an expression, a mark under what is wrong, and what may be done.
pub fn push_explanation(
    alloc: Global,
    text: &mut String,
    code: &[u8],
    fault: CodeFault,
) -> Result<(), AllocError>
    ensures { OnOk result (string_bytes text.new ≡ string_bytes text.old ++ explanation code.now fault) }
{
    match fault {
        CodeFault::Compile(fault) => {
            let lines = explain(alloc, code, fault)?;
            push_ascii(text, lines.as_slice())
        }
        CodeFault::Link(link) => writeln!(text, "link type {link} has no expressions here"),
    }
}

/// The name of a fault of an expression.
fn name_of_compile(fault: CompileFault) -> &'static str
    ensures { result.now ≡ compile_name fault }
{
    match fault {
        CompileFault::Text(fault) => name_of_kind(fault.kind),
        CompileFault::Layer { column: _ } => "Layer",
        CompileFault::Moved { column: _ } => "Moved",
        CompileFault::Zero { column: _ } => "Zero",
        CompileFault::Shift { column: _ } => "Shift",
        CompileFault::TooHard { column: _ } => "TooHard",
        CompileFault::TooLong => "TooLong",
        CompileFault::NoMemory => "NoMemory",
    }
}

/// The name of a fault of a text.
fn name_of_kind(kind: ExprFaultKind) -> &'static str
    ensures { result.now ≡ kind_name kind }
{
    match kind {
        ExprFaultKind::Word(kind) => name_of_word(kind),
        ExprFaultKind::Refused(refusal) => name_of_refusal(refusal),
        ExprFaultKind::Parenthesis => "Parenthesis",
        ExprFaultKind::Unexpected => "Unexpected",
        ExprFaultKind::Ends => "Ends",
        ExprFaultKind::Qualifier => "Qualifier",
        ExprFaultKind::Address => "Address",
        ExprFaultKind::Name => "Name",
        ExprFaultKind::Mask => "Mask",
        ExprFaultKind::Port => "Port",
        ExprFaultKind::Protocol => "Protocol",
        ExprFaultKind::Range => "Range",
        ExprFaultKind::Size => "Size",
        ExprFaultKind::Rank => "Rank",
        ExprFaultKind::TooDeep => "TooDeep",
        ExprFaultKind::NoMemory => "NoMemory",
    }
}

/// The name of a fault of a word.
fn name_of_word(kind: WordFaultKind) -> &'static str
    ensures { result.now ≡ word_name kind }
{
    match kind {
        WordFaultKind::Character => "Character",
        WordFaultKind::Octal => "Octal",
        WordFaultKind::Large => "Large",
        WordFaultKind::Address => "Address",
        WordFaultKind::TooLong => "TooLong",
        WordFaultKind::NoMemory => "NoMemory",
    }
}

/// The name of why a word is refused.
fn name_of_refusal(refusal: Refusal) -> &'static str
    ensures { result.now ≡ refusal_name refusal }
{
    match refusal {
        Refusal::Loop => "Loop",
        Refusal::NameService => "NameService",
        Refusal::Direction => "Direction",
        Refusal::Interface => "Interface",
        Refusal::Geneve => "Geneve",
        Refusal::Byte => "Byte",
        Refusal::LinkType => "LinkType",
    }
}

/// Appends bytes of ASCII. Bytes that are no text, which are never given, are refused as memory is.
fn push_ascii(text: &mut String, bytes: &[u8]) -> Result<(), AllocError>
    ensures { OnOk result (string_bytes text.new ≡ string_bytes text.old ++ bytes.now) }
{
    match std::str::from_utf8(bytes) {
        Ok(words) => text.push_str(words),
        Err(_) => Err(AllocError),
    }
}
