//! The control flow of a program as text for Graphviz.

ghost use Rattle.std.specs.Prelude.{◌≡◌, ◌+◌, ◌<◌, ◌≤◌, ◌++◌, [], length, IfOk, OnOk, string_bytes};
ghost use Rattle.std.specs.Option.{option_map_or};
ghost use Rattle.bpf_insn.specs.Table.{form_of};
ghost use Rattle.graph_engine.specs.Graph as spec;
ghost use Rattle.graph_engine.specs.Paths.{Ascends, IsAhead};

use bpf_insn::{Form, Insn, push_form};
use console::push_refusal_words;
use filter_verify::Refusal;
use std::alloc::{AllocError, Global};
use std::fmt::Write;

/// The marks of a place.
#[derive(Clone, Copy)]
pub(crate) struct Mark {
    /// Its instruction is refused.
    pub refused: bool,
    /// It is on the path of a refusal.
    pub on_path: bool,
    /// The place after it on that path.
    pub next: Option<usize>,
}

const HEAD: &str =
    "digraph filter {\n  node [shape=box] [fontname=monospace]\n  edge [fontname=monospace]\n";

/// The path on which a word is unwritten.
fn path_of(refusal: &Option<Refusal>) -> &[u32]
    ensures { result.now ≡ spec.path_of refusal.now }
{
    match refusal {
        Some(Refusal::Unwritten { path, .. }) => path.as_slice(),
        _ => &[],
    }
}

/// Whether an instruction is the one that is refused.
fn is_refused(count: usize, refusal: &Option<Refusal>, pc: usize) -> bool
    requires { pc < count }
    ensures { result ≡ spec.is_refused count refusal.now pc }
{
    match refusal {
        None => false,
        Some(Refusal::NoReturn) => count - 1 == pc,
        Some(refusal) => refusal.place() as usize == pc,
    }
}

/// The marks of a place, from the part of the path that is ahead; then what is ahead after it.
fn take_mark(count: usize, refusal: &Option<Refusal>, pc: usize, rest: &mut &[u32]) -> Mark
    requires inside { pc < count }
    requires ahead { IsAhead (spec.path_of refusal.now) rest.old.now pc }
    ensures mark { result ≡ spec.mark_of count refusal.now pc }
    ensures ahead { IsAhead (spec.path_of refusal.now) rest.new.now (pc + 1) }
{
    let refused = is_refused(count, refusal, pc);
    match rest.split_first() {
        Some((place, more)) if *place as usize == pc => {
            *rest = more;
            Mark {
                refused,
                on_path: true,
                next: first_place(more),
            }
        }
        _ => Mark {
            refused,
            on_path: false,
            next: None,
        },
    }
}

/// The first of these places.
fn first_place(places: &[u32]) -> Option<usize>
    ensures { result ≡ spec.first places.now }
{
    match places.first() {
        Some(place) => Some(*place as usize),
        None => None,
    }
}

fn push_bold(text: &mut String, marked: bool) -> Result<(), AllocError>
    ensures { OnOk result (string_bytes text.new ≡ string_bytes text.old ++ spec.bold marked) }
{
    if marked {
        text.push_str(" [style=bold]")?;
    }
    Ok(())
}

fn push_red(text: &mut String, marked: bool) -> Result<(), AllocError>
    ensures { OnOk result (string_bytes text.new ≡ string_bytes text.old ++ spec.red marked) }
{
    if marked {
        text.push_str(" [color=red]")?;
    }
    Ok(())
}

/// The shape of a return.
fn shape(form: Form) -> &'static str
    ensures { result.now ≡ spec.shape form }
{
    match form {
        Form::RetK { .. } | Form::RetA => " [shape=ellipse]",
        _ => "",
    }
}

/// The name and the label of an instruction's node.
#[tactic(auto, unfolding(crate::specs::Graph::labelled))]
fn push_labelled(text: &mut String, pc: usize, form: Form) -> Result<(), AllocError>
    requires { pc < 4096 }
    ensures { OnOk result (string_bytes text.new ≡ string_bytes text.old ++ spec.labelled pc form) }
{
    write!(text, "  n{pc} [label=\"l{pc}: ")?;
    push_form(text, pc, form)?;
    text.push_str("\"]")?;
    Ok(())
}

/// An instruction's node.
fn push_node(text: &mut String, pc: usize, form: Form, mark: Mark) -> Result<(), AllocError>
    requires { pc < 4096 }
    ensures { OnOk result (string_bytes text.new ≡ string_bytes text.old ++ spec.node pc form mark) }
{
    push_labelled(text, pc, form)?;
    text.push_str(shape(form))?;
    push_red(text, mark.refused)?;
    push_bold(text, mark.on_path)?;
    text.push_str("\n")?;
    Ok(())
}

/// The name of a place's node.
fn push_target(text: &mut String, count: usize, to: usize) -> Result<(), AllocError>
    ensures { OnOk result (string_bytes text.new ≡ string_bytes text.old ++ spec.target count to) }
{
    if to < count {
        write!(text, "n{to}")
    } else {
        text.push_str("out")
    }
}

fn is_next(next: Option<usize>, to: usize) -> bool
    ensures { result ≡ spec.is_next next to }
{
    match next {
        None => false,
        Some(next) => next == to,
    }
}

/// From where arrows are drawn.
#[derive(Clone, Copy)]
struct Origin {
    /// The length of the program.
    count: usize,
    pc: usize,
    /// The place after it on the path of a refusal.
    next: Option<usize>,
}

/// An arrow to a place.
fn push_arrow(text: &mut String, from: Origin, to: usize, words: &str) -> Result<(), AllocError>
    ensures { OnOk result (string_bytes text.new ≡ string_bytes text.old ++ spec.arrow from.count from.pc from.next to words.now) }
{
    write!(text, "  n{} -> ", from.pc)?;
    push_target(text, from.count, to)?;
    text.push_str(words)?;
    push_bold(text, is_next(from.next, to))?;
    text.push_str("\n")
}

/// The arrows of a conditional jump.
fn push_arrows_of_test(text: &mut String, from: Origin, jt: u8, jf: u8) -> Result<(), AllocError>
    requires { from.pc < 4096 }
    ensures { OnOk result (string_bytes text.new ≡ string_bytes text.old ++ spec.arrows_of_test from.count from.pc from.next jt jf) }
{
    let after = from.pc + 1;
    push_arrow(text, from, after + usize::from(jt), " [label=true]")?;
    push_arrow(text, from, after + usize::from(jf), " [label=false]")
}

/// The arrows from an instruction.
fn push_arrows(text: &mut String, from: Origin, form: Form) -> Result<(), AllocError>
    requires { from.pc < 4096 }
    ensures { OnOk result (string_bytes text.new ≡ string_bytes text.old ++ spec.arrows from.count from.pc from.next form) }
{
    match form {
        Form::Ja { k } => push_arrow(text, from, from.pc + 1 + k as usize, ""),
        Form::JmpK { jt, jf, .. } => push_arrows_of_test(text, from, jt, jf),
        Form::JmpX { jt, jf, .. } => push_arrows_of_test(text, from, jt, jf),
        Form::RetK { .. } | Form::RetA => Ok(()),
        _ => push_arrow(text, from, from.pc + 1, ""),
    }
}

/// An instruction: its node, and the arrows from it.
fn push_drawn(
    text: &mut String,
    count: usize,
    pc: usize,
    insn: Insn,
    mark: Mark,
) -> Result<(), AllocError>
    requires { pc < 4096 }
    ensures { OnOk result (string_bytes text.new ≡ string_bytes text.old
        ++ option_map_or (λ form. spec.node pc form mark ++ spec.arrows count pc mark.next form) (form_of insn) []) }
{
    let Some(form) = insn.form() else {
        return Ok(());
    };
    push_node(text, pc, form, mark)?;
    let from = Origin {
        count,
        pc,
        next: mark.next,
    };
    push_arrows(text, from, form)
}

/// Why the program is refused.
fn push_title(text: &mut String, refusal: &Option<Refusal>) -> Result<(), AllocError>
    ensures { OnOk result (string_bytes text.new ≡ string_bytes text.old ++ spec.title refusal.now) }
{
    match refusal {
        None => Ok(()),
        Some(refusal) => {
            text.push_str("  label=\"refused ")?;
            push_refusal_words(text, refusal)?;
            text.push_str("\"\n")
        }
    }
}

/// The text of a program, and of the reason for which it is refused, if it is.
#[tactic(auto, unfolding(crate::specs::Graph::head))]
pub(crate) fn graph(
    alloc: Global,
    program: &[Insn],
    refusal: &Option<Refusal>,
) -> Result<String, AllocError>
    requires short { length program.now ≤ 4096 }
    requires ascends { Ascends 0 (spec.path_of refusal.now) }
    ensures { IfOk result (λ text. string_bytes text ≡ spec.graph_text program.now refusal.now) }
{
    let mut text = String::from_str(alloc, HEAD)?;
    push_title(&mut text, refusal)?;
    push_program(&mut text, program, refusal)?;
    text.push_str("}\n")?;
    Ok(text)
}

/// The instructions, one after the other.
fn push_program(
    text: &mut String,
    program: &[Insn],
    refusal: &Option<Refusal>,
) -> Result<(), AllocError>
    requires short { length program.now ≤ 4096 }
    requires ascends { Ascends 0 (spec.path_of refusal.now) }
    ensures { OnOk result (string_bytes text.new ≡ string_bytes text.old ++ spec.drawn_from (length program.now) refusal.now 0 program.now) }
{
    let count = program.len();
    let mut rest = path_of(refusal);
    for pc in 0..count {
        let mark = take_mark(count, refusal, pc, &mut rest);
        push_drawn(text, count, pc, program[pc], mark)?;
    }
    Ok(())
}
