//! Texts as expressions.

ghost use Rattle.std.specs.Prelude.{◌≡◌, ◌≢◌, ◌+◌, ◌≤◌, ◌<◌, length, IfOk, IfErr};
ghost use Rattle.expr_tree.specs.Expr.{Expr, expr_of};
ghost use Rattle.expr_parse.specs.Parsing.{Spells};
ghost use Rattle.expr_parse.specs.ParserViews.{ReadsTree, LieBefore};

use crate::cursor::Cursor;
use crate::fault::{ExprFault, ExprFaultKind, Stop, word_fault};
use crate::parser::Parser;
use expr_tree::{Kind, Tree};
use expr_words::{Sign, Token, Word, tokens};
use std::alloc::{AllocError, Global};

/// How deep what stands in parentheses, in brackets, behind `not` and behind a sign may be nested.
pub const MAX_LEVELS: usize = 200;

/// The expression that all of the tokens are.
fn read_tokens(alloc: Global, tokens: &[Token]) -> Result<Tree, Stop>
    ensures { ReadsTree tokens.now result }
{
    let mut parser = Parser {
        cursor: Cursor::new(alloc, tokens)?,
        tree: Tree::new(alloc),
    };
    if tokens.is_empty() {
        parser.push(Kind::Every, 1)?;
        return Ok(parser.finish());
    }
    parser.expr(MAX_LEVELS + 1, None)?;
    if !parser.cursor.rest().is_empty() {
        return Err(parser.cursor.unexpected());
    }
    Ok(parser.finish())
}

/// The sign that closes what the word opens.
fn closing(word: Word) -> Option<Sign> {
    match word {
        Word::Sign(Sign::Open) => Some(Sign::Close),
        Word::Sign(Sign::OpenBracket) => Some(Sign::CloseBracket),
        _ => None,
    }
}

/// The place of the first sign that closes nothing, or else of the last one that is never closed.
fn unmatched(alloc: Global, tokens: &[Token]) -> Result<Option<usize>, AllocError> {
    let mut open: Vec<(usize, Sign)> = Vec::new(alloc);
    for (place, token) in tokens.iter().enumerate() {
        if let Some(sign) = closing(token.word) {
            open.push((place, sign))?;
        }
        if let Word::Sign(sign @ (Sign::Close | Sign::CloseBracket)) = token.word {
            match open.pop() {
                Some((_, expected)) if expected == sign => (),
                _ => return Ok(Some(place)),
            }
        }
    }
    Ok(open.pop().map(|(place, _)| place))
}

/// A fault of the token at a place; the text has no byte at the column `end`, and all before it.
fn fault_at(tokens: &[Token], kind: ExprFaultKind, place: usize, end: usize) -> ExprFault
    requires columns { LieBefore end tokens.now }
    requires some { 0 < end }
    ensures kind { result.kind ≡ kind }
    ensures begins { 0 < result.column }
    ensures ends { result.column ≤ end }
{
    match tokens.get(place) {
        Some(token) => ExprFault {
            kind,
            column: token.column,
            width: token.width,
        },
        None => ExprFault {
            kind,
            column: end,
            width: 0,
        },
    }
}

/// Why the tokens are no expression: a sign without its other one, or else where reading stopped.
fn fault(alloc: Global, tokens: &[Token], stop: Stop, end: usize) -> ExprFault
    requires columns { LieBefore end tokens.now }
    requires some { 0 < end }
    ensures memory { stop.kind ≡ ExprFaultKind.NoMemory → result.kind ≡ ExprFaultKind.NoMemory }
    ensures begins { 0 < result.column }
    ensures ends { result.column ≤ end }
{
    if matches!(stop.kind, ExprFaultKind::NoMemory) {
        return fault_at(tokens, ExprFaultKind::NoMemory, 0, end);
    }
    match unmatched(alloc, tokens) {
        Ok(Some(place)) => fault_at(tokens, ExprFaultKind::Parenthesis, place, end),
        Ok(None) => fault_at(tokens, stop.kind, stop.place, end),
        Err(_) => fault_at(tokens, ExprFaultKind::NoMemory, 0, end),
    }
}

/// The expression that a text is (pcap-filter(7)), or its fault. It has at most `MAX_TOKENS` tokens and `MAX_LEVELS` levels.
pub fn parse(alloc: Global, text: &[u8]) -> Result<Tree, ExprFault>
    ensures reads { IfOk result (λ tree. Spells text.now (expr_of tree)) }
    ensures only { IfOk result (λ tree. (expr : Expr) → Spells text.now expr → expr ≡ expr_of tree) }
    ensures none { IfErr result (λ fault. fault.kind ≢ ExprFaultKind.NoMemory → (expr : Expr) → Spells text.now expr → ⊥) }
    ensures begins { IfErr result (λ fault. 0 < fault.column) }
    ensures ends { IfErr result (λ fault. fault.column ≤ length text.now + 1) }
{
    let end = text.len() + 1;
    let tokens = match tokens(alloc, text) {
        Ok(tokens) => tokens,
        Err(fault) => return Err(word_fault(fault)),
    };
    match read_tokens(alloc, &tokens) {
        Ok(tree) => Ok(tree),
        Err(stop) => Err(fault(alloc, &tokens, stop, end)),
    }
}
