//! A place in a list of tokens.

ghost use Rattle.std.specs.Prelude.{◌≡◌, drop, IfOk};
ghost use Rattle.expr_parse.specs.Brackets as spec;

use crate::brackets::{begins_calc, begins_item, places_after, rest_at};
use crate::fault::{ExprFaultKind, Stop};
use expr_words::{Token, Word};
use std::alloc::{AllocError, Global};
use std::marker::Model;

/// The tokens that are left to read.
#[derive(Drop)]
pub(crate) struct Cursor<'t> {
    tokens: &'t [Token],
    /// For each place the place behind the sign that closes what is open there.
    after: Vec<usize>,
    place: usize,
}

impl<'t> Model for Cursor<'t> {
    ghost use Rattle.std.specs.Prelude.{List, ◌≤◌, length, drop};
    ghost use Rattle.expr_words.specs.declared.token.Token.{Token};
    ghost use Rattle.expr_parse.specs.CursorViews.{IsAfter};

    ghost Value = { List Token };

    ghost view = { λ c. drop c.place c.tokens.now };

    ghost invariant = { λ c. (c.place ≤ length c.tokens.now) × IsAfter c.tokens.now c.after.items };
}

impl<'t> Cursor<'t> {
    pub fn new(alloc: Global, tokens: &'t [Token]) -> Result<Cursor<'t>, AllocError>
        ensures { IfOk result (λ c. c ≡ tokens.now) }
    {
        let after = places_after(alloc, tokens)?;
        Ok(Cursor {
            tokens,
            after,
            place: 0,
        })
    }

    /// The tokens that are left.
    pub fn rest(&self) -> &'t [Token]
        ensures { result.now ≡ self.now }
    {
        rest_at(self.tokens, self.place)
    }

    /// Passes over tokens, or over those that are left where there are fewer.
    pub fn skip(&mut self, count: usize)
        ensures { self.new ≡ drop count self.old }
    {
        self.place += count.min(self.tokens.len() - self.place);
    }

    /// Whether a `(` comes that begins a calculation.
    pub fn begins_calc(&self) -> bool
        ensures { result ≡ spec.begins_calc self.now }
    {
        begins_calc(self.tokens, &self.after, self.place)
    }

    /// Whether an item comes, also in parentheses.
    pub fn begins_item(&self) -> bool
        ensures { result ≡ spec.begins_item self.now }
    {
        begins_item(self.tokens, &self.after, self.place)
    }

    /// The place of the next token.
    pub fn place(&self) -> usize {
        self.place
    }

    /// The column of the token at a place.
    pub fn column_at(&self, place: usize) -> usize {
        match self.tokens.get(place) {
            Some(token) => token.column,
            None => 0,
        }
    }

    /// The column of the next token.
    pub fn column(&self) -> usize {
        self.column_at(self.place)
    }

    /// Nothing can be read, which so many tokens behind the next one show.
    pub fn stop_ahead(&self, kind: ExprFaultKind, ahead: usize) -> Stop
        ensures { result.kind ≡ kind }
    {
        Stop {
            kind,
            place: self.place.saturating_add(ahead),
        }
    }

    /// Nothing can be read here.
    pub fn stop(&self, kind: ExprFaultKind) -> Stop
        ensures { result.kind ≡ kind }
    {
        self.stop_ahead(kind, 0)
    }

    /// Nothing can be read, which the token before the next one shows.
    pub fn stop_before(&self, kind: ExprFaultKind) -> Stop
        ensures { result.kind ≡ kind }
    {
        Stop {
            kind,
            place: self.place.saturating_sub(1),
        }
    }

    /// The next token can't stand here.
    pub fn unexpected(&self) -> Stop {
        let Some(token) = self.rest().first() else {
            return self.stop(ExprFaultKind::Ends);
        };
        match token.word {
            Word::Refused(refusal) => self.stop(ExprFaultKind::Refused(refusal)),
            _ => self.stop(ExprFaultKind::Unexpected),
        }
    }
}
