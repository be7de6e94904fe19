//! `compile --tree`: the expression as it was read.

ghost use Rattle.std.specs.Prelude.{◌≡◌, ℕ, List, Err, IfOk, IfErr, OnOk, false};
ghost use Rattle.engine_io.specs.Devices.{StopsWriting, Writes};
ghost use Rattle.engine_io.specs.Reading.{IsPrintFault};
ghost use Rattle.compile_engine.specs.Compiling.{joined};
ghost use Rattle.compile_engine.specs.Trees.{ShowsPrinted, ShowsTree};
ghost use Rattle.expr_tree.specs.Expr.{expr_of};

use crate::compiling::join;
use engine_io::{EngineFault, Shown, Sink, write_bytes};
use expr_parse::{ExprFaultKind, parse};
use expr_print::{PrintFault, print};
use filter_expr::{CompileFault, Tree, explain};
use std::alloc::{AllocError, Global};
use std::io::Write;

/// Prints the expression of these words, joined by blanks, with all of its qualifiers, and with parentheses wherever `and` meets `or`,
/// and answers the status.
///
/// What is printed is read as the same expression, status 0. What is wrong with a text that is no expression is printed as
/// `run_compile` prints it, status 1. An expression of so many levels that its text would have too many prints one line,
/// `too many levels to be printed`, status 1.
///
/// Answers `NoMemory`, with nothing written, or `WriteFailed`.
pub fn run_tree<W: Write>(
    alloc: Global,
    words: &[&str],
    writer: &mut Sink<W>,
) -> Result<u8, EngineFault>
    requires good { writer.old.failed ≡ false }
    ensures shown { IfOk result (λ status. (text : List ℕ) × Writes W.contents writer.old writer.new text × ShowsTree (joined words.now) status text) }
    ensures fault { IfErr result IsPrintFault }
    ensures good { OnOk result (writer.new.failed ≡ false) }
    ensures cause { IfErr result (StopsWriting writer.new) }
    ensures silent { result ≡ Err EngineFault.NoMemory → writer.new ≡ writer.old }
{
    let text = join(alloc, words)?;
    let shown = read_text(alloc, text.as_bytes())?;
    write_bytes(writer, shown.text.as_slice())?;
    Ok(shown.status)
}

/// What is shown of a text.
fn read_text(alloc: Global, text: &[u8]) -> Result<Shown, AllocError>
    ensures { IfOk result (λ shown. ShowsTree text.now shown.status shown.text.items) }
{
    match parse(alloc, text) {
        Ok(tree) => printed(alloc, &tree),
        Err(fault) => match fault.kind {
            ExprFaultKind::NoMemory => Err(AllocError),
            _ => Ok(Shown {
                text: explain(alloc, text, CompileFault::Text(fault))?,
                status: 1,
            }),
        },
    }
}

/// What is shown of an expression.
fn printed(alloc: Global, tree: &Tree) -> Result<Shown, AllocError>
    ensures { IfOk result (λ shown. ShowsPrinted (expr_of tree.now) shown.status shown.text.items) }
{
    match print(alloc, tree) {
        Ok(mut text) => {
            text.push_str("\n")?;
            Ok(Shown {
                text: text.into_bytes(),
                status: 0,
            })
        }
        Err(PrintFault::NoMemory) => Err(AllocError),
        Err(PrintFault::Unreadable) => {
            let line = String::from_str(alloc, "too many levels to be printed\n")?;
            Ok(Shown {
                text: line.into_bytes(),
                status: 1,
            })
        }
    }
}
