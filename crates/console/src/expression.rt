//! CODE that is a filter expression (pcap-filter(7)), and telling it from decimal text.

ghost use Rattle.std.specs.Prelude.{◌≡◌, IfOk, MatchResult, string_bytes, true};
ghost use Rattle.expr_tree.specs.Expr.{expr_of};
ghost use Rattle.expr_words.specs.Bytes as bytes;
ghost use Rattle.expr_meaning.specs.declared.link.Link.{Link as Over};
ghost use Rattle.console.specs.CodeWords.{code_fault_line};
ghost use Rattle.console.specs.Expressions.{IsFilter, ShowsBadFilter};
ghost use Rattle.console.specs.Compiling.{IsCompiled};
ghost use Rattle.console.specs.Expressions as spec;
ghost use Rattle.console.specs.Telling as told;
ghost use Rattle.console.specs.Programs.{over_link, programs_of};

use crate::code::read_predecoded;
use crate::code_fault::{push_code_fault, push_explanation};
use crate::filter::LinkPrograms;
use crate::{CodeFault, Filter};
use filter_expr::{CompileFault, ExprFaultKind, Link, Tree, compile_tree, parse};
use filter_predecode::Predecoded;
use std::alloc::{AllocError, Global};

/// Why CODE gives nothing to run.
#[derive(Drop)]
pub struct BadCode {
    /// The line that says why.
    pub line: String,
    /// What that means, of an expression: its text, a mark under what is wrong, and what may be done.
    pub words: String,
}

/// What a code gives to run, or why it gives nothing. An expression is compiled for each link type that expressions know, and
/// accepts packets with the verdict `accept`.
///
/// What is no expression by its text is refused here. What has a fault over some link type is not: that shows where a packet of it is
/// to be run.
pub fn read_filter(
    alloc: Global,
    code: &[u8],
    accept: u32,
) -> Result<Result<Filter, BadCode>, AllocError>
    ensures { IfOk result (λ answer. MatchResult answer (λ filter. IsFilter code.now accept (programs_of filter))
        (λ bad. ShowsBadFilter code.now (string_bytes bad.line) (string_bytes bad.words))) }
{
    if is_expression(code) {
        return read_expression(alloc, code, accept);
    }
    match read_predecoded(alloc, code)? {
        Ok(program) => Ok(Ok(Filter::Same(program))),
        Err(line) => Ok(Err(BadCode {
            line,
            words: String::new(alloc),
        })),
    }
}

/// The same of an expression.
fn read_expression(
    alloc: Global,
    code: &[u8],
    accept: u32,
) -> Result<Result<Filter, BadCode>, AllocError>
    requires { told.is_expression code.now ≡ true }
    ensures { IfOk result (λ answer. MatchResult answer (λ filter. IsFilter code.now accept (programs_of filter))
        (λ bad. ShowsBadFilter code.now (string_bytes bad.line) (string_bytes bad.words))) }
{
    match parse(alloc, code) {
        Ok(tree) => Ok(Ok(Filter::ByLink(compile_all(alloc, &tree, accept)?))),
        Err(fault) => {
            if let ExprFaultKind::NoMemory = fault.kind {
                return Err(AllocError);
            }
            Ok(Err(bad_code(alloc, code, CodeFault::Compile(CompileFault::Text(fault)))?))
        }
    }
}

/// The line for a fault of CODE, and what it means.
fn bad_code(alloc: Global, code: &[u8], fault: CodeFault) -> Result<BadCode, AllocError>
    ensures { IfOk result (λ bad. (string_bytes bad.line ≡ code_fault_line fault) × (string_bytes bad.words ≡ spec.explanation code.now fault)) }
{
    let mut line = String::new(alloc);
    push_code_fault(&mut line, fault)?;
    let mut words = String::new(alloc);
    push_explanation(alloc, &mut words, code, fault)?;
    Ok(BadCode { line, words })
}

/// The programs of an expression over the link types that expressions know.
fn compile_all(alloc: Global, tree: &Tree, accept: u32) -> Result<LinkPrograms, AllocError>
    ensures { IfOk result (λ programs. (link : Over) → IsCompiled (expr_of tree.now) link accept (over_link programs link)) }
{
    Ok(LinkPrograms {
        ethernet: compile_over(alloc, tree, Link::Ethernet, accept)?,
        raw: compile_over(alloc, tree, Link::Raw, accept)?,
        cooked: compile_over(alloc, tree, Link::Cooked, accept)?,
        cooked2: compile_over(alloc, tree, Link::Cooked2, accept)?,
        null: compile_over(alloc, tree, Link::Null, accept)?,
        loopback: compile_over(alloc, tree, Link::Loop, accept)?,
        ipv4: compile_over(alloc, tree, Link::Ipv4, accept)?,
        ipv6: compile_over(alloc, tree, Link::Ipv6, accept)?,
    })
}

/// The program of an expression over a link type, or the fault of what it says.
fn compile_over(
    alloc: Global,
    tree: &Tree,
    link: Link,
    accept: u32,
) -> Result<Result<Predecoded, CodeFault>, AllocError>
    ensures { IfOk result (IsCompiled (expr_of tree.now) link accept) }
{
    match compile_tree(alloc, tree, link, accept) {
        Ok(program) => Ok(Ok(Predecoded::new(alloc, &program)?)),
        Err(CompileFault::NoMemory) => Err(AllocError),
        Err(fault) => Ok(Err(CodeFault::Compile(fault))),
    }
}

/// Whether a code is an expression: its first byte that is no blank begins one. All else is decimal text.
pub fn is_expression(code: &[u8]) -> bool
    ensures { result ≡ told.is_expression code.now }
{
    let mut rest = code;
    while let Some((byte, more)) = rest.split_first() {
        if !is_blank(*byte) {
            return begins_expression(*byte);
        }
        rest = more;
    }
    false
}

/// A space, a tab, or the end of a line.
fn is_blank(byte: u8) -> bool
    ensures { result ≡ bytes.is_blank byte }
{
    byte == b' ' || byte == b'\t' || byte == b'\r' || byte == b'\n'
}

/// Whether an expression may begin with the byte.
fn begins_expression(byte: u8) -> bool
    ensures { result ≡ told.begins_expression byte }
{
    byte.is_ascii_alphabetic() || byte == b'(' || byte == b'!' || byte == b'\\'
}
