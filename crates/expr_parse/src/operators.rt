//! Signs and words that join or compare.

ghost use Rattle.std.specs.Prelude.{◌≡◌, ◌≤◌};
ghost use Rattle.expr_parse.specs.Operators as spec;

use crate::words::{keyword, sign};
use expr_tree::{Operator, Relation};
use expr_words::{Keyword, Sign, Token};

/// How two conditions are joined.
#[derive(Clone, Copy, Debug)]
pub(crate) enum Join {
    And,
    Or,
}

fn join_of(keyword: Keyword) -> Option<Join>
    ensures { result ≡ spec.join_of keyword }
{
    match keyword {
        Keyword::And => Some(Join::And),
        Keyword::Or => Some(Join::Or),
        _ => None,
    }
}

/// The first token, where it joins two conditions.
#[tactic(auto, unfolding(crate::specs::Operators::join_at))]
pub(crate) fn join_at(tokens: &[Token]) -> Option<Join>
    ensures { result ≡ spec.join_at tokens.now }
{
    join_of(keyword(tokens)?)
}

fn operator_of(sign: Sign) -> Option<Operator>
    ensures { result ≡ spec.operator_of sign }
{
    match sign {
        Sign::Star => Some(Operator::Multiply),
        Sign::Slash => Some(Operator::Divide),
        Sign::Plus => Some(Operator::Add),
        Sign::Minus => Some(Operator::Subtract),
        Sign::ShiftLeft => Some(Operator::ShiftLeft),
        Sign::ShiftRight => Some(Operator::ShiftRight),
        Sign::Ampersand => Some(Operator::And),
        Sign::Bar => Some(Operator::Or),
        Sign::Percent => Some(Operator::Remainder),
        Sign::Caret => Some(Operator::Xor),
        _ => None,
    }
}

/// In which layer an operator stands: those of a lower one bind closer. `%` and `^` stand alone.
fn layer(operator: Operator) -> usize
    ensures { result ≡ spec.layer operator }
{
    match operator {
        Operator::Multiply => 1,
        Operator::Divide => 1,
        Operator::Add => 2,
        Operator::Subtract => 2,
        Operator::ShiftLeft => 3,
        Operator::ShiftRight => 3,
        Operator::And => 4,
        Operator::Or => 5,
        Operator::Remainder => 6,
        Operator::Xor => 6,
    }
}

/// The operator that the first token is.
#[tactic(auto, unfolding(crate::specs::Operators::operator))]
pub(crate) fn operator(tokens: &[Token]) -> Option<Operator>
    ensures { result ≡ spec.operator tokens.now }
{
    operator_of(sign(tokens)?)
}

/// The first token, where it is an operator of this layer.
#[tactic(auto, unfolding(crate::specs::Operators::operator_in))]
pub(crate) fn operator_in(expected: usize, tokens: &[Token]) -> Option<Operator>
    ensures { result ≡ spec.operator_in expected tokens.now }
{
    let found = operator(tokens)?;
    if layer(found) == expected {
        Some(found)
    } else {
        None
    }
}

fn relation_of(sign: Sign) -> Option<Relation>
    ensures { result ≡ spec.relation_of sign }
{
    match sign {
        Sign::Equal => Some(Relation::Equal),
        Sign::NotEqual => Some(Relation::NotEqual),
        Sign::Less => Some(Relation::Less),
        Sign::Greater => Some(Relation::Greater),
        Sign::LessEqual => Some(Relation::LessEqual),
        Sign::GreaterEqual => Some(Relation::GreaterEqual),
        _ => None,
    }
}

/// The relation that the first token is.
#[tactic(auto, unfolding(crate::specs::Operators::relation))]
pub(crate) fn relation(tokens: &[Token]) -> Option<Relation>
    ensures { result ≡ spec.relation tokens.now }
{
    relation_of(sign(tokens)?)
}

/// Whether what stands before these tokens is a part of a calculation, or one side of a comparison.
#[tactic(auto, unfolding(crate::specs::Operators::continues_calc))]
pub(crate) fn continues_calc(tokens: &[Token]) -> bool
    ensures { result ≡ spec.continues_calc tokens.now }
{
    operator(tokens).is_some() || relation(tokens).is_some()
}
