//! Calculations and comparisons.

ghost use Rattle.std.specs.Prelude.{◌≡◌, ◌+◌, ◌≤◌, length, drop, OnOk};
ghost use Rattle.expr_tree.specs.Expr.{value_at, calc_by};
ghost use Rattle.expr_parse.specs.Calculations as spec;
ghost use Rattle.expr_parse.specs.ParserViews.{Grows, Reads, ReadsExpr, ReadsValue};

use crate::fault::{ExprFaultKind, Stop};
use crate::operators::{operator, operator_in, relation};
use crate::parser::Parser;
use crate::words::{number, protocol, sees, sees_word};
use expr_tree::{Calc, Kind, Size};
use expr_words::{Keyword, Protocol, Sign, Token};

/// Whether the bytes of a protocol's header are at places that are known.
fn has_bytes(protocol: Protocol) -> bool
    ensures { result ≡ spec.has_bytes protocol }
{
    match protocol {
        Protocol::Ah => false,
        Protocol::Esp => false,
        Protocol::Stp => false,
        Protocol::Iso => false,
        Protocol::Ipx => false,
        Protocol::Netbeui => false,
        Protocol::Aarp => false,
        _ => true,
    }
}

/// The protocol that the first token is, where it has bytes.
#[tactic(auto, unfolding(crate::specs::Calculations::header))]
fn header(tokens: &[Token]) -> Option<Protocol>
    ensures { result ≡ spec.header tokens.now }
{
    let protocol = protocol(tokens)?;
    if has_bytes(protocol) {
        Some(protocol)
    } else {
        None
    }
}

fn size_of(number: u32) -> Option<Size>
    ensures { result ≡ spec.size_of number }
{
    if number == 1 {
        return Some(Size::Byte);
    }
    if number == 2 {
        return Some(Size::Half);
    }
    if number == 4 {
        return Some(Size::Word);
    }
    None
}

/// The size that the first token is.
#[tactic(auto, unfolding(crate::specs::Calculations::size_at))]
fn size_at(tokens: &[Token]) -> Option<Size>
    ensures { result ≡ spec.size_at tokens.now }
{
    size_of(number(tokens)?)
}

impl<'t> Parser<'t> {
    /// A comparison of two calculations.
    #[tactic(auto, unfolding(crate::specs::Calculations::comparison))]
    pub fn comparison(&mut self, level: usize) -> Result<usize, Stop>
        ensures reads { ReadsExpr (spec.comparison level self.old.cursor) result self.new.tree.nodes.items self.new.cursor }
        ensures grows { OnOk result (Grows self.old.tree.nodes.items self.new.tree.nodes.items) }
        ensures shorter { OnOk result (length self.new.cursor ≤ length self.old.cursor) }
    {
        let column = self.cursor.column();
        let first = self.calc(level)?;
        let Some(how) = relation(self.cursor.rest()) else {
            return Err(self.cursor.stop(ExprFaultKind::Unexpected));
        };
        self.cursor.skip(1);
        let second = self.calc(level)?;
        self.push(Kind::Compare(how, first, second), column)
    }

    /// A calculation, behind which no operator stands.
    #[cycle(calc)]
    #[tactic(auto, unfolding(crate::specs::Calculations::calc))]
    fn calc(&mut self, level: usize) -> Result<usize, Stop>
        ensures reads { ReadsValue (spec.calc (spec.factor level) self.old.cursor) result self.new.tree.nodes.items self.new.cursor }
        ensures grows { OnOk result (Grows self.old.tree.nodes.items self.new.tree.nodes.items) }
        ensures shorter { OnOk result (length self.new.cursor ≤ length self.old.cursor) }
    {
        let value = self.operation(level)?;
        if operator(self.cursor.rest()).is_some() {
            return Err(self.cursor.stop(ExprFaultKind::Rank));
        }
        Ok(value)
    }

    /// Two factors round `%` or `^`, or a chain of operations.
    #[cycle(calc)]
    #[tactic(auto, unfolding(crate::specs::Calculations::operation))]
    fn operation(&mut self, level: usize) -> Result<usize, Stop>
        ensures reads { ReadsValue (spec.operation (spec.factor level) self.old.cursor) result self.new.tree.nodes.items self.new.cursor }
        ensures grows { OnOk result (Grows self.old.tree.nodes.items self.new.tree.nodes.items) }
        ensures shorter { OnOk result (length self.new.cursor ≤ length self.old.cursor) }
    {
        let first = self.factor(level)?;
        let Some(operator) = operator_in(6, self.cursor.rest()) else {
            return self.layers(level, 5, first);
        };
        let column = self.cursor.column();
        self.cursor.skip(1);
        let second = self.factor(level)?;
        self.push(Kind::Calc(Calc::Operation(operator, first, second)), column)
    }

    /// The operations of so many layers after an operand.
    #[cycle(calc)]
    #[tactic(auto, unfolding(crate::specs::Calculations::layers))]
    fn layers(&mut self, level: usize, layers: usize, operand: usize) -> Result<usize, Stop>
        requires few { layers ≤ 5 }
        requires last { operand + 1 ≡ length self.old.tree.nodes.items }
        ensures reads { ReadsValue (spec.layers (spec.factor level) layers (value_at self.old.tree.nodes.items operand) self.old.cursor) result self.new.tree.nodes.items self.new.cursor }
        ensures grows { OnOk result (Grows self.old.tree.nodes.items self.new.tree.nodes.items) }
        ensures shorter { OnOk result (length self.new.cursor ≤ length self.old.cursor) }
    {
        if layers == 0 {
            return Ok(operand);
        }
        let mut left = self.layers(level, layers - 1, operand)?;
        'operands: while let Some(operator) = operator_in(layers, self.cursor.rest()) {
            let column = self.cursor.column();
            self.cursor.skip(1);
            let right = self.operand(level, layers - 1)?;
            left = self.push(Kind::Calc(Calc::Operation(operator, left, right)), column)?;
        }
        Ok(left)
    }

    /// An operand of a layer: a factor, and the operations of the layers below.
    #[cycle(calc)]
    #[tactic(auto, unfolding(crate::specs::Calculations::operand))]
    fn operand(&mut self, level: usize, layers: usize) -> Result<usize, Stop>
        requires { layers ≤ 5 }
        ensures reads { ReadsValue (spec.operand (spec.factor level) (spec.layers (spec.factor level) layers) self.old.cursor) result self.new.tree.nodes.items self.new.cursor }
        ensures grows { OnOk result (Grows self.old.tree.nodes.items self.new.tree.nodes.items) }
        ensures shorter { OnOk result (length self.new.cursor ≤ length self.old.cursor) }
    {
        let first = self.factor(level)?;
        self.layers(level, layers, first)
    }

    /// A factor: what a sign, a parenthesis or a bracket begins, or a number.
    #[cycle(calc)]
    #[tactic(auto, unfolding(crate::specs::Calculations::factor, crate::specs::Calculations::factor_by))]
    fn factor(&mut self, level: usize) -> Result<usize, Stop>
        ensures reads { ReadsValue (spec.factor level self.old.cursor) result self.new.tree.nodes.items self.new.cursor }
        ensures grows { OnOk result (Grows self.old.tree.nodes.items self.new.tree.nodes.items) }
        ensures shorter { OnOk result (length self.new.cursor ≤ length self.old.cursor) }
    {
        if level == 0 {
            return Err(self.cursor.stop_before(ExprFaultKind::TooDeep));
        }
        if sees(Sign::Minus, self.cursor.rest()) {
            return self.negative(level - 1);
        }
        if sees(Sign::Open, self.cursor.rest()) {
            return self.parenthesized(level - 1);
        }
        if sees_word(Keyword::Len, self.cursor.rest()) {
            return self.constant(Calc::Len);
        }
        if let Some(number) = number(self.cursor.rest()) {
            return self.constant(Calc::Number(number));
        }
        self.bytes(level - 1)
    }

    /// What the next token says alone.
    fn constant(&mut self, calc: Calc) -> Result<usize, Stop>
        ensures reads { ReadsValue (Some (calc_by (value_at self.old.tree.nodes.items) calc, drop 1 self.old.cursor)) result self.new.tree.nodes.items self.new.cursor }
        ensures grows { OnOk result (Grows self.old.tree.nodes.items self.new.tree.nodes.items) }
        ensures shorter { OnOk result (length self.new.cursor ≤ length self.old.cursor) }
    {
        let column = self.cursor.column();
        self.cursor.skip(1);
        self.push(Kind::Calc(calc), column)
    }

    #[cycle(calc)]
    #[tactic(auto, unfolding(crate::specs::Calculations::negative))]
    fn negative(&mut self, level: usize) -> Result<usize, Stop>
        ensures reads { ReadsValue (spec.negative (spec.factor level) self.old.cursor) result self.new.tree.nodes.items self.new.cursor }
        ensures grows { OnOk result (Grows self.old.tree.nodes.items self.new.tree.nodes.items) }
        ensures shorter { OnOk result (length self.new.cursor ≤ length self.old.cursor) }
    {
        let column = self.cursor.column();
        self.cursor.skip(1);
        let inner = self.factor(level)?;
        self.push(Kind::Calc(Calc::Negate(inner)), column)
    }

    #[cycle(calc)]
    #[tactic(auto, unfolding(crate::specs::Calculations::parenthesized))]
    fn parenthesized(&mut self, level: usize) -> Result<usize, Stop>
        ensures reads { ReadsValue (spec.parenthesized (spec.factor level) self.old.cursor) result self.new.tree.nodes.items self.new.cursor }
        ensures grows { OnOk result (Grows self.old.tree.nodes.items self.new.tree.nodes.items) }
        ensures shorter { OnOk result (length self.new.cursor ≤ length self.old.cursor) }
    {
        self.cursor.skip(1);
        let inner = self.calc(level)?;
        self.expect(Sign::Close)?;
        Ok(inner)
    }

    /// The size of a load: a byte, where none is written.
    #[tactic(auto, unfolding(crate::specs::Calculations::size))]
    fn size(&mut self) -> Result<Size, Stop>
        ensures reads { Reads (spec.size self.old.cursor) result self.new.cursor }
        ensures tree { self.new.tree ≡ self.old.tree }
        ensures shorter { OnOk result (length self.new.cursor ≤ length self.old.cursor) }
    {
        if !sees(Sign::Colon, self.cursor.rest()) {
            return Ok(Size::Byte);
        }
        self.cursor.skip(1);
        let Some(size) = size_at(self.cursor.rest()) else {
            return Err(self.cursor.stop(ExprFaultKind::Size));
        };
        self.cursor.skip(1);
        Ok(size)
    }

    /// Bytes of a header.
    #[cycle(calc)]
    #[tactic(auto, unfolding(crate::specs::Calculations::bytes))]
    fn bytes(&mut self, level: usize) -> Result<usize, Stop>
        ensures reads { ReadsValue (spec.bytes (spec.factor level) self.old.cursor) result self.new.tree.nodes.items self.new.cursor }
        ensures grows { OnOk result (Grows self.old.tree.nodes.items self.new.tree.nodes.items) }
        ensures shorter { OnOk result (length self.new.cursor ≤ length self.old.cursor) }
    {
        let column = self.cursor.column();
        let Some(protocol) = header(self.cursor.rest()) else {
            return Err(self.cursor.unexpected());
        };
        self.cursor.skip(1);
        self.expect(Sign::OpenBracket)?;
        let at = self.calc(level)?;
        let size = self.size()?;
        self.expect(Sign::CloseBracket)?;
        self.push(Kind::Calc(Calc::Bytes(protocol, at, size)), column)
    }
}
