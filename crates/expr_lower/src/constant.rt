//! Calculations of numbers alone.

ghost use Rattle.std.specs.Prelude.{◌≡◌, ℕ, option_and_then, IfOk, IfSome};
ghost use Rattle.filter_cond.specs.Numbers.{applied};
ghost use Rattle.expr_tree.specs.Expr.{Value, calc_by, value_at, value_by};
ghost use Rattle.expr_meaning.specs.Values.{operation_of};
ghost use Rattle.expr_lower.specs.Operands.{IsConstant};

use crate::fault::LowerFault;
use expr_tree::{Calc, Kind, Node, Operator};

/// The calculation that a node is; one that is none counts as 0.
pub(crate) fn calc_of(kind: Kind) -> Calc
    ensures { (at : ℕ → Value) → value_by at kind ≡ calc_by at result }
{
    match kind {
        Kind::Calc(calc) => calc,
        Kind::Every => Calc::Number(0),
        Kind::Test(_) => Calc::Number(0),
        Kind::Compare(_, _, _) => Calc::Number(0),
        Kind::Not(_) => Calc::Number(0),
        Kind::And(_, _) => Calc::Number(0),
        Kind::Or(_, _) => Calc::Number(0),
    }
}

/// What an operation gives, where it has a value.
fn apply(operator: Operator, a: u32, b: u32) -> Option<u32>
    ensures { result ≡ applied (operation_of operator) a b }
{
    match operator {
        Operator::Or => Some(a | b),
        Operator::And => Some(a & b),
        Operator::ShiftLeft => Some(if b < 32 { a << b } else { 0 }),
        Operator::ShiftRight => Some(if b < 32 { a >> b } else { 0 }),
        Operator::Add => Some(a.wrapping_add(b)),
        Operator::Subtract => Some(a.wrapping_sub(b)),
        Operator::Multiply => Some(a.wrapping_mul(b)),
        Operator::Divide => { if b == 0 { None } else { Some(a / b) } }
        Operator::Remainder => { if b == 0 { None } else { Some(a % b) } }
        Operator::Xor => Some(a ^ b),
    }
}

/// What an operation gives, where both numbers are known.
fn apply_known(operator: Operator, a: Option<u32>, b: Option<u32>) -> Option<u32>
    ensures { result ≡ option_and_then (λ x. option_and_then (λ y. applied (operation_of operator) x y) b) a }
{
    let a = a?;
    let b = b?;
    apply(operator, a, b)
}

/// Refuses an operation that never has a value, or leaves no bit.
fn check_operand(operator: Operator, b: Option<u32>, column: usize) -> Result<(), LowerFault> {
    match operator {
        Operator::Divide | Operator::Remainder => match b {
            Some(0) => Err(LowerFault::Zero { column }),
            _ => Ok(()),
        },
        Operator::ShiftLeft | Operator::ShiftRight => match b {
            Some(0..=31) => Ok(()),
            Some(_) => Err(LowerFault::Shift { column }),
            None => Ok(()),
        },
        _ => Ok(()),
    }
}

/// The number that a calculation always gives, where it is made of numbers alone; its parts are among these nodes.
#[cycle(constants)]
fn constant_calc(nodes: &[Node], calc: Calc, column: usize) -> Result<Option<u32>, LowerFault>
    ensures { IfOk result (λ known. IfSome known (λ k. IsConstant (calc_by (value_at nodes.now) calc) k)) }
{
    match calc {
        Calc::Number(number) => Ok(Some(number)),
        Calc::Len => Ok(None),
        Calc::Bytes(_, _, _) => Ok(None),
        Calc::Operation(operator, first, second) => {
            let a = constant(nodes, first)?;
            let b = constant(nodes, second)?;
            check_operand(operator, b, column)?;
            Ok(apply_known(operator, a, b))
        }
        Calc::Negate(of) => match constant(nodes, of)? {
            Some(a) => Ok(Some(a.wrapping_neg())),
            None => Ok(None),
        },
    }
}

/// The number that the calculation at a place always gives, where it is made of numbers alone.
#[cycle(constants)]
pub(crate) fn constant(nodes: &[Node], place: usize) -> Result<Option<u32>, LowerFault>
    ensures { IfOk result (λ known. IfSome known (λ k. IsConstant (value_at nodes.now place) k)) }
{
    if place >= nodes.len() {
        return Ok(Some(0));
    }
    let Node { kind, column } = nodes[place];
    constant_calc(&nodes[..place], calc_of(kind), column)
}
