//! Trees, as they are printed.

ghost use Rattle.std.specs.Prelude.{◌≡◌, IfOk, string_bytes};
ghost use Rattle.expr_tree.specs.Expr.{Expr, expr_of};
ghost use Rattle.expr_parse.specs.Parsing.{Spells};

use crate::names::{operator_sign, protocol_word, relation_sign, size_number};
use crate::primitives::print_test;
use crate::same::{same_operator, same_tree};
use expr_parse::{ExprFaultKind, parse};
use expr_tree::{Calc, Kind, Node, Operator, Tree};
use std::alloc::{AllocError, AllocFailed, Global};
use std::fmt::Write;
use thiserror::Error;

/// Why no text is printed.
#[derive(Clone, Copy, Debug, PartialEq, Eq, Error)]
pub enum PrintFault {
    /// The tree is none that a text is read as, or its text would have too many levels or tokens.
    #[error("no text is read as this tree")]
    Unreadable,
    #[error("out of memory")]
    NoMemory,
}

impl From<AllocError> for PrintFault {
    fn from(_e: AllocError) -> PrintFault {
        PrintFault::NoMemory
    }
}

impl<T: Drop> From<AllocFailed<T>> for PrintFault {
    fn from(_e: AllocFailed<T>) -> PrintFault {
        PrintFault::NoMemory
    }
}

/// How deep nodes that are printed stand in one another: twice as deep as what is read.
const MAX_DEPTH: usize = 500;

/// What is written, and the nodes that it is written from.
#[derive(Drop)]
struct Printer<'t> {
    alloc: Global,
    text: String,
    nodes: &'t [Node],
}

impl<'t> Printer<'t> {
    fn kind(&self, place: usize) -> Result<Kind, PrintFault> {
        match self.nodes.get(place) {
            Some(node) => Ok(node.kind),
            None => Err(PrintFault::Unreadable),
        }
    }

    /// The operands of a calculation at a place, where it is one of this operator, which has a rank.
    fn operands(&self, operator: Operator, place: usize) -> Option<(usize, usize)> {
        if matches!(operator, Operator::Remainder | Operator::Xor) {
            return None;
        }
        let node = self.nodes.get(place)?;
        match node.kind {
            Kind::Calc(Calc::Operation(found, left, right)) if same_operator(found, operator) => {
                Some((left, right))
            }
            _ => None,
        }
    }

    /// A calculation, in parentheses where it is an operation.
    #[cycle(calc)]
    fn factor(&mut self, place: usize, depth: usize) -> Result<(), PrintFault> {
        let Some(below) = depth.checked_sub(1) else {
            return Err(PrintFault::Unreadable);
        };
        if matches!(self.kind(place)?, Kind::Calc(Calc::Operation(_, _, _))) {
            write!(self.text, "(")?;
            self.calc(place, below)?;
            write!(self.text, ")")?;
            return Ok(());
        }
        self.calc(place, below)
    }

    #[cycle(calc)]
    fn calc(&mut self, place: usize, depth: usize) -> Result<(), PrintFault> {
        match self.kind(place)? {
            Kind::Calc(Calc::Number(number)) => write!(self.text, "{number}")?,
            Kind::Calc(Calc::Len) => write!(self.text, "len")?,
            Kind::Calc(Calc::Bytes(protocol, at, size)) => {
                write!(self.text, "{}[", protocol_word(protocol))?;
                self.factor(at, depth)?;
                write!(self.text, ":{}]", size_number(size))?;
            }
            Kind::Calc(Calc::Operation(operator, left, right)) => {
                return self.operation(operator, left, right, depth);
            }
            Kind::Calc(Calc::Negate(of)) => {
                write!(self.text, "- ")?;
                self.factor(of, depth)?;
            }
            _ => return Err(PrintFault::Unreadable),
        }
        Ok(())
    }

    /// Operations of one operator from the left.
    #[cycle(calc)]
    fn operation(
        &mut self,
        operator: Operator,
        left: usize,
        right: usize,
        depth: usize,
    ) -> Result<(), PrintFault> {
        let mut rights = Vec::new(self.alloc);
        rights.push(right)?;
        let mut first = left;
        'operands: while let Some((left, right)) = self.operands(operator, first) {
            if left >= first {
                return Err(PrintFault::Unreadable);
            }
            rights.push(right)?;
            first = left;
        }
        self.factor(first, depth)?;
        'rights: while let Some(right) = rights.pop() {
            write!(self.text, " {} ", operator_sign(operator))?;
            self.factor(right, depth)?;
        }
        Ok(())
    }

    /// What stands left and right at a place, where it is joined by the same word: `and`, or else `or`.
    fn joined(&self, is_and: bool, place: usize) -> Option<(usize, usize)> {
        let node = self.nodes.get(place)?;
        match node.kind {
            Kind::And(left, right) if is_and => Some((left, right)),
            Kind::Or(left, right) if !is_and => Some((left, right)),
            _ => None,
        }
    }

    /// An expression, in parentheses where it is joined by `and` or `or`.
    #[cycle(expr)]
    fn term(&mut self, place: usize, depth: usize) -> Result<(), PrintFault> {
        let Some(below) = depth.checked_sub(1) else {
            return Err(PrintFault::Unreadable);
        };
        if matches!(self.kind(place)?, Kind::And(_, _) | Kind::Or(_, _)) {
            write!(self.text, "(")?;
            self.expr(place, below)?;
            write!(self.text, ")")?;
            return Ok(());
        }
        self.expr(place, below)
    }

    #[cycle(expr)]
    fn expr(&mut self, place: usize, depth: usize) -> Result<(), PrintFault> {
        match self.kind(place)? {
            Kind::Every => Ok(()),
            Kind::Test(test) => {
                print_test(&mut self.text, test)?;
                Ok(())
            }
            Kind::Compare(relation, left, right) => {
                self.calc(left, MAX_DEPTH)?;
                write!(self.text, " {} ", relation_sign(relation))?;
                self.calc(right, MAX_DEPTH)
            }
            Kind::Not(of) => {
                write!(self.text, "not ")?;
                self.term(of, depth)
            }
            Kind::And(left, right) => self.chain(true, left, right, depth),
            Kind::Or(left, right) => self.chain(false, left, right, depth),
            Kind::Calc(_) => Err(PrintFault::Unreadable),
        }
    }

    /// Terms that one word joins, from the left.
    #[cycle(expr)]
    fn chain(
        &mut self,
        is_and: bool,
        left: usize,
        right: usize,
        depth: usize,
    ) -> Result<(), PrintFault> {
        let mut rights = Vec::new(self.alloc);
        rights.push(right)?;
        let mut first = left;
        'terms: while let Some((left, right)) = self.joined(is_and, first) {
            if left >= first {
                return Err(PrintFault::Unreadable);
            }
            rights.push(right)?;
            first = left;
        }
        self.term(first, depth)?;
        let word = if is_and { " and " } else { " or " };
        'rights: while let Some(right) = rights.pop() {
            write!(self.text, "{word}")?;
            self.term(right, depth)?;
        }
        Ok(())
    }
}

/// The text of a tree: what it is read as is the tree's expression.
///
/// The text is read before it is given, so that a tree is refused which no text is read as, or whose text would have too many
/// levels or tokens. What `expr_parse::parse` gives has a text, but for a tree of nearly as many levels as there may be.
pub fn print(alloc: Global, tree: &Tree) -> Result<String, PrintFault>
    ensures reads { IfOk result (λ text. Spells (string_bytes text) (expr_of tree.now)) }
    ensures only { IfOk result (λ text. (expr : Expr) → Spells (string_bytes text) expr → expr ≡ expr_of tree.now) }
{
    let Some(last) = tree.nodes.len().checked_sub(1) else {
        return Err(PrintFault::Unreadable);
    };
    let mut printer = Printer {
        alloc,
        text: String::new(alloc),
        nodes: &tree.nodes,
    };
    printer.expr(last, MAX_DEPTH)?;
    let Printer {
        alloc: _,
        text,
        nodes: _,
    } = printer;
    checked(alloc, text, tree)
}

/// The text, where it is read as the tree.
fn checked(alloc: Global, text: String, tree: &Tree) -> Result<String, PrintFault>
    ensures reads { IfOk result (λ printed. Spells (string_bytes printed) (expr_of tree.now)) }
    ensures only { IfOk result (λ printed. (expr : Expr) → Spells (string_bytes printed) expr → expr ≡ expr_of tree.now) }
{
    match parse(alloc, text.as_bytes()) {
        Ok(read) => {
            if same_tree(&read, tree) {
                Ok(text)
            } else {
                Err(PrintFault::Unreadable)
            }
        }
        Err(fault) => match fault.kind {
            ExprFaultKind::NoMemory => Err(PrintFault::NoMemory),
            _ => Err(PrintFault::Unreadable),
        },
    }
}
