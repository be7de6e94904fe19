//! Filter expressions to instructions.

ghost use Rattle.std.specs.Prelude.{◌≡◌, ◌≢◌, ◌<◌, ◌≤◌, ◌↔◌, ◌^◌, ℕ, List, Some, None, IfOk, length};
ghost use Rattle.bpf_insn.specs.declared.insn.Insn.{Insn};
ghost use Rattle.expr_tree.specs.Expr.{Expr};
ghost use Rattle.expr_meaning.specs.Links as links;
ghost use Rattle.expr_meaning.specs.declared.link.Link.{Link};
ghost use Rattle.expr_parse.specs.Parsing.{Spells};
ghost use Rattle.filter_expr.specs.Selects.{Compiles};
ghost use Rattle.mkdemux_c.specs.Compilings as spec;
ghost use Rattle.mkdemux_c.specs.Rooms.{laid};

use crate::answers::{DONE, NO_MEMORY, NO_ROOM};
use crate::room::{lay, lay_all};
use bpf_insn::Insn;
use filter_expr::{CompileFault, ExprFaultKind, WordFaultKind, compile, explain, link_of};
use std::alloc::{AllocError, Global};

/// A link type that has no expressions.
pub const NO_LINK: u32 = 26;

/// What was compiled of an expression.
#[repr(C)]
#[derive(Clone, Copy)]
pub struct Compiled {
    /// How many instructions the program has, also where there is no room for them, and 0 for a fault.
    pub count: u32,
    /// 0, or why nothing was compiled: 1 to 19 a fault of the text, 20 to 25 one of what it says over the link type, 26 a link type
    /// that has no expressions, 254 no room, 255 no memory.
    pub fault: u32,
    /// The column of a fault, from 1, or 0 where it has none.
    pub column: u32,
    /// How many bytes of the text it is about.
    pub width: u32,
}

/// A number in 32 bits.
fn short(number: usize) -> u32
    ensures { result ≡ spec.short number }
{
    number.min(u32::MAX as usize) as u32
}

/// The number of a fault of a text.
fn text_number(kind: ExprFaultKind) -> u32
    ensures { result ≡ spec.text_number kind }
{
    match kind {
        ExprFaultKind::Word(kind) => word_number(kind),
        ExprFaultKind::Refused(_) => 6,
        ExprFaultKind::Parenthesis => 7,
        ExprFaultKind::Unexpected => 8,
        ExprFaultKind::Ends => 9,
        ExprFaultKind::Qualifier => 10,
        ExprFaultKind::Address => 11,
        ExprFaultKind::Name => 12,
        ExprFaultKind::Mask => 13,
        ExprFaultKind::Port => 14,
        ExprFaultKind::Protocol => 15,
        ExprFaultKind::Range => 16,
        ExprFaultKind::Size => 17,
        ExprFaultKind::Rank => 18,
        ExprFaultKind::TooDeep => 19,
        ExprFaultKind::NoMemory => NO_MEMORY,
    }
}

/// The number of a fault of a word.
fn word_number(kind: WordFaultKind) -> u32
    ensures { result ≡ spec.word_number kind }
{
    match kind {
        WordFaultKind::Character => 1,
        WordFaultKind::Octal => 2,
        WordFaultKind::Large => 3,
        WordFaultKind::Address => 4,
        WordFaultKind::TooLong => 5,
        WordFaultKind::NoMemory => NO_MEMORY,
    }
}

/// The number of a fault.
fn number(fault: CompileFault) -> u32
    ensures { result ≡ spec.number_of fault }
{
    match fault {
        CompileFault::Text(fault) => text_number(fault.kind),
        CompileFault::Layer { column: _ } => 20,
        CompileFault::Moved { column: _ } => 21,
        CompileFault::Zero { column: _ } => 22,
        CompileFault::Shift { column: _ } => 23,
        CompileFault::TooHard { column: _ } => 24,
        CompileFault::TooLong => 25,
        CompileFault::NoMemory => NO_MEMORY,
    }
}

/// An expression with a fault.
fn refused(fault: CompileFault) -> Compiled
    ensures { result ≡ spec.refused_for fault }
{
    let (column, width) = fault.place().unwrap_or((0, 0));
    Compiled {
        count: 0,
        fault: number(fault),
        column: short(column),
        width: short(width),
    }
}

/// Puts a program that was compiled at the front of the room, if it has room for it.
fn given(program: &[Insn], room: &mut [Insn]) -> Compiled
    requires short { length program.now < 2 ^ 32 }
    ensures answer { result ≡ spec.compiled_of program.now (length room.old) }
    ensures fits { result.fault ≡ DONE → length program.now ≤ length room.old }
    ensures laid { result.fault ≡ DONE → room.new ≡ laid program.now room.old }
    ensures no_room { 0 < result.fault → length room.old < length program.now }
    ensures kept { 0 < result.fault → room.new ≡ room.old }
{
    Compiled {
        count: program.len() as u32,
        fault: if lay_all(program, room) {
            DONE
        } else {
            NO_ROOM
        },
        column: 0,
        width: 0,
    }
}

/// Compiles a filter expression over the link type with this number in captures, and puts its program at the front of the room, if it
/// has room for it. The verifier accepts the program, and it accepts packets with the verdict `accept`.
#[unsafe(no_mangle)]
pub extern "C" fn mkdemux_compile(
    alloc: Global,
    text: &[u8],
    link: u32,
    accept: u32,
    room: &mut [Insn],
) -> Compiled
    // The program of the expression lands at the front of the room, or would not fit.
    ensures compiled { result.fault ≡ DONE → (known : Link) × (program : List Insn) × (links.link_of link ≡ Some known) × Compiles text.now known accept program
        × (result.count ≡ length program) × (length program ≤ length room.old) × (room.new ≡ laid program room.old) }
    ensures no_room { result.fault ≡ NO_ROOM → (known : Link) × (program : List Insn) × (links.link_of link ≡ Some known) × Compiles text.now known accept program
        × (result.count ≡ length program) × (length room.old < length program) }

    // A fault of the text is that of a text that is no expression.
    ensures none { spec.IsOfText result.fault → (expr : Expr) → Spells text.now expr → ⊥ }
    ensures no_link { (result.fault ≡ NO_LINK) ↔ (links.link_of link ≡ None) }
    ensures within { result.fault ≤ NO_MEMORY }
    ensures nothing { 0 < result.fault → result.fault ≢ NO_ROOM → result.count ≡ 0 }
    ensures kept { 0 < result.fault → room.new ≡ room.old }
{
    let Some(known) = link_of(link) else {
        return Compiled {
            count: 0,
            fault: NO_LINK,
            column: 0,
            width: 0,
        };
    };
    match compile(alloc, text, known, accept) {
        Ok(program) => given(program.code(), room),
        Err(fault) => refused(fault),
    }
}

/// What is wrong with an expression over a link type, in lines.
fn message(alloc: Global, text: &[u8], link: u32) -> Result<Vec<u8>, AllocError>
    ensures { IfOk result (λ lines. spec.Explains text.now link lines.items) }
{
    let Some(known) = link_of(link) else {
        let line = format!(in alloc; "link type {link} has no expressions here\n")?;
        return Ok(line.into_bytes());
    };
    match compile(alloc, text, known, 1) {
        Ok(_) => Ok(Vec::new(alloc)),
        Err(fault) => explain(alloc, text, fault),
    }
}

/// Puts what is wrong with an expression over a link type at the front of the room, as much of it as there is room for, and answers how
/// many bytes it has: 0 where nothing is wrong. No byte 0 ends it.
#[unsafe(no_mangle)]
pub extern "C" fn mkdemux_explain(alloc: Global, text: &[u8], link: u32, room: &mut [u8]) -> usize
    ensures { (lines : List ℕ) × spec.Explains text.now link lines × (result ≡ length lines) × (room.new ≡ laid lines room.old) }
{
    match message(alloc, text, link) {
        Ok(lines) => {
            lay(&lines, room);
            lines.len()
        }
        Err(_) => {
            let lines = b"out of memory\n";
            lay(lines, room);
            lines.len()
        }
    }
}
