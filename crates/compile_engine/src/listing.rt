//! How a program is printed.

ghost use Rattle.std.specs.Prelude.{◌≡◌, ◌++◌, ◌≤◌, length, IfOk, None, OnOk, string_bytes};
ghost use Rattle.bpf_insn.specs.AsmText.{IsPrintable};
ghost use Rattle.compile_engine.specs.Listings.{array_line, array_text, listed};

use bpf_insn::{Insn, write_asm, write_ddd};
use filter_verify::Verified;
use graph_engine::draw_program;
use std::alloc::{AllocError, Global};
use std::fmt::Write;

/// How a program is printed.
#[derive(Clone, Copy, PartialEq, Eq, Debug)]
pub enum Listing {
    /// The decimal text that `match` takes, as `tcpdump -ddd` prints it.
    Decimal,
    /// Assembler text, a labelled line for each instruction.
    Assembler,
    /// The elements of an array of C, as `tcpdump -dd` prints them.
    Array,
    /// The control flow, text for Graphviz.
    Graph,
}

/// The text of a program.
pub(crate) fn list(
    alloc: Global,
    program: &Verified,
    listing: Listing,
) -> Result<Vec<u8>, AllocError>
    ensures { IfOk result (λ text. text.items ≡ listed listing program.now) }
{
    let code = program.code();
    match listing {
        Listing::Decimal => write_ddd(alloc, code),
        Listing::Assembler => write_asm(alloc, code),
        Listing::Array => write_array(alloc, code),
        Listing::Graph => Ok(draw_program(alloc, code)?.into_bytes()),
    }
}

/// The elements of an array of C, a line each.
fn write_array(alloc: Global, program: &[Insn]) -> Result<Vec<u8>, AllocError>
    ensures { IfOk result (λ text. text.items ≡ array_text program.now) }
{
    let mut text = String::new(alloc);
    for insn in program {
        push_element(alloc, &mut text, *insn)?;
    }
    Ok(text.into_bytes())
}

/// Appends an instruction as a line of an array.
fn push_element(alloc: Global, text: &mut String, insn: Insn) -> Result<(), AllocError>
    ensures { OnOk result (string_bytes text.new ≡ string_bytes text.old ++ array_line insn) }
{
    let Insn { code, jt, jf, k } = insn;
    let constant = hex::encode(alloc, k.to_be_bytes())?;
    writeln!(text, "{{ 0x{code:x}, {jt}, {jf}, 0x{constant} }},")
}
