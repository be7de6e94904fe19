//! The command: from the words of an expression to its program, or to what is wrong with it.

ghost use Rattle.std.specs.Prelude.{◌≡◌, ℕ, List, Err, IfOk, IfErr, OnOk, false, string_bytes};
ghost use Rattle.engine_io.specs.Devices.{StopsWriting, Writes};
ghost use Rattle.engine_io.specs.Reading.{IsPrintFault};
ghost use Rattle.compile_engine.specs.Compiling.{ShowsCompiled, ShowsOver, joined};

use crate::listing::{Listing, list};
use engine_io::{EngineFault, Shown, Sink, write_bytes};
use filter_expr::{CompileFault, Link, compile, explain, link_of};
use std::alloc::{AllocError, Global};
use std::io::Write;

/// Compiles the expression of these words, joined by blanks, for packets of the link type with this number in captures, prints its
/// program, and answers the status.
///
/// The program gives the packets of which the expression is true the verdict `accept`, and all others 0; it is printed as `listing`
/// says, status 0. What is wrong with the expression is printed as three lines, the column and what is wrong, the text, and marks below
/// what is meant; status 1. A link type of which no expression can say anything is one line, `link type N has no expressions here`,
/// status 1.
///
/// Answers `NoMemory`, with nothing written, or `WriteFailed`.
pub fn run_compile<W: Write>(
    alloc: Global,
    words: &[&str],
    link: u32,
    accept: u32,
    listing: Listing,
    writer: &mut Sink<W>,
) -> Result<u8, EngineFault>
    requires good { writer.old.failed ≡ false }
    ensures shown { IfOk result (λ status. (text : List ℕ) × Writes W.contents writer.old writer.new text
        × ShowsCompiled (joined words.now) link accept listing status text) }
    ensures fault { IfErr result IsPrintFault }
    ensures good { OnOk result (writer.new.failed ≡ false) }
    ensures cause { IfErr result (StopsWriting writer.new) }
    ensures silent { result ≡ Err EngineFault.NoMemory → writer.new ≡ writer.old }
{
    let text = join(alloc, words)?;
    let shown = compiled(alloc, text.as_bytes(), link, accept, listing)?;
    write_bytes(writer, shown.text.as_slice())?;
    Ok(shown.status)
}

/// The words with a blank between each two.
pub(crate) fn join(alloc: Global, words: &[&str]) -> Result<String, AllocError>
    ensures { IfOk result (λ text. string_bytes text ≡ joined words.now) }
{
    words.join(alloc, " ")
}

/// What is shown of an expression over the link type with this number.
fn compiled(
    alloc: Global,
    text: &[u8],
    link: u32,
    accept: u32,
    listing: Listing,
) -> Result<Shown, AllocError>
    ensures { IfOk result (λ shown. ShowsCompiled text.now link accept listing shown.status shown.text.items) }
{
    match link_of(link) {
        Some(known) => compiled_over(alloc, text, known, accept, listing),
        None => Ok(Shown {
            text: format!(in alloc; "link type {link} has no expressions here\n")?.into_bytes(),
            status: 1,
        }),
    }
}

/// What is shown of an expression over a link type.
fn compiled_over(
    alloc: Global,
    text: &[u8],
    link: Link,
    accept: u32,
    listing: Listing,
) -> Result<Shown, AllocError>
    ensures { IfOk result (λ shown. ShowsOver text.now link accept listing shown.status shown.text.items) }
{
    match compile(alloc, text, link, accept) {
        Ok(program) => Ok(Shown {
            text: list(alloc, &program, listing)?,
            status: 0,
        }),
        Err(fault) => match fault {
            CompileFault::NoMemory => Err(AllocError),
            _ => Ok(Shown {
                text: explain(alloc, text, fault)?,
                status: 1,
            }),
        },
    }
}
