//! From texts to programs.

ghost use Rattle.std.specs.Prelude.{◌≡◌, Err, IfOk, IfErr};
ghost use Rattle.expr_tree.specs.Expr.{Expr, expr_of};
ghost use Rattle.expr_parse.specs.Parsing.{Spells};
ghost use Rattle.filter_expr.specs.Selects.{Selects, Compiles, IsOfMeaning};
ghost use Rattle.filter_expr.specs.declared.fault.CompileFault.TheVariants.{Text};
ghost use Rattle.expr_parse.specs.declared.fault.ExprFault.{ExprFault as GhostFault};

use crate::fault::{CompileFault, of_text};
use expr_lower::lower;
use expr_meaning::Link;
use expr_parse::parse;
use expr_tree::Tree;
use filter_codegen::CompileFault as CodeFault;
use filter_verify::Verified;
use std::alloc::Global;

/// The program of an expression over a link type: it accepts the packets of which the expression is true with the verdict `accept`,
/// the most bytes of a packet that are kept, and gives all others 0.
pub fn compile_tree(
    alloc: Global,
    tree: &Tree,
    link: Link,
    accept: u32,
) -> Result<Verified, CompileFault>
    ensures selects { IfOk result (λ program. Selects (expr_of tree.now) link accept program) }
    ensures fault { IfErr result IsOfMeaning }
{
    let cond = lower(alloc, tree, link)?;
    match filter_codegen::compile(alloc, &cond, accept) {
        Ok(program) => Ok(program),
        Err(CodeFault::TooLong) => Err(CompileFault::TooLong),
        Err(CodeFault::TooHard) => Err(CompileFault::TooHard { column: 1 }),
        Err(CodeFault::NoMemory) => Err(CompileFault::NoMemory),
    }
}

/// The same of a text (pcap-filter(7)). A text that is one expression at most is answered with that one's program, or is no
/// expression where the fault says so.
pub fn compile(
    alloc: Global,
    text: &[u8],
    link: Link,
    accept: u32,
) -> Result<Verified, CompileFault>
    ensures compiles { IfOk result (λ program. Compiles text.now link accept program) }
    ensures none { (fault : GhostFault) → result ≡ Err (Text fault) → (expr : Expr) → Spells text.now expr → ⊥ }
{
    let tree = match parse(alloc, text) {
        Ok(tree) => tree,
        Err(fault) => return Err(of_text(fault)),
    };
    compile_tree(alloc, &tree, link, accept)
}
