//! Where what is open is closed.

ghost use Rattle.std.specs.Prelude.{◌≡◌, ◌≤◌, ◌+◌, ◌<◌, length, drop, slice_index, IfOk};
ghost use Rattle.expr_parse.specs.Brackets as spec;
ghost use Rattle.expr_parse.specs.CursorViews.{IsAfter, AfterFrom, IsPlaceAfter};

use crate::operators::continues_calc;
use crate::words::{is_address_or_name, number, sees};
use expr_words::{Sign, Token};
use std::alloc::{AllocError, Global};

/// The tokens from a place on.
pub(crate) fn rest_at(tokens: &[Token], place: usize) -> &[Token]
    requires { place ≤ length tokens.now }
    ensures { result.now ≡ drop place tokens.now }
{
    &tokens[place..]
}

fn opens(tokens: &[Token]) -> bool
    ensures { result ≡ spec.opens tokens.now }
{
    sees(Sign::Open, tokens) || sees(Sign::OpenBracket, tokens)
}

fn closes(tokens: &[Token]) -> bool
    ensures { result ≡ spec.closes tokens.now }
{
    sees(Sign::Close, tokens) || sees(Sign::CloseBracket, tokens)
}

/// The place behind the sign that closes what is open at a place, where that is known for the places after it.
fn place_after(tokens: &[Token], after: &[usize], place: usize) -> usize
    requires whole { length after.now ≡ length tokens.now + 1 }
    requires known { AfterFrom tokens.now after.now (place + 1) }
    requires inside { place < length tokens.now }
    ensures { IsPlaceAfter tokens.now place result }
{
    let rest = rest_at(tokens, place);
    if opens(rest) {
        return after[after[place + 1]];
    }
    if closes(rest) {
        return place + 1;
    }
    after[place + 1]
}

/// For each place the place behind the sign that closes what is open there, or the end.
pub(crate) fn places_after(alloc: Global, tokens: &[Token]) -> Result<Vec<usize>, AllocError>
    ensures { IfOk result (λ after. IsAfter tokens.now after.items) }
{
    let mut after = vec![in alloc; tokens.len(); tokens.len() + 1]?;
    'places: for place in (0..tokens.len()).rev() {
        let closed = place_after(tokens, &after, place);
        after[place] = closed;
    }
    Ok(after)
}

/// Whether a `(` at the place begins a calculation.
pub(crate) fn begins_calc(tokens: &[Token], after: &[usize], place: usize) -> bool
    requires table { IsAfter tokens.now after.now }
    requires inside { place ≤ length tokens.now }
    ensures { result ≡ spec.begins_calc (drop place tokens.now) }
{
    sees(Sign::Open, rest_at(tokens, place)) && continues_calc(rest_at(tokens, after[place + 1]))
}

/// The place behind each `(` at a place that begins no calculation.
fn past_opens(tokens: &[Token], after: &[usize], place: usize) -> usize
    requires table { IsAfter tokens.now after.now }
    requires inside { place ≤ length tokens.now }
    ensures inside { result ≤ length tokens.now }
    ensures place { drop result tokens.now ≡ spec.past_opens (drop place tokens.now) }
{
    let mut at = place;
    'opens: while sees(Sign::Open, rest_at(tokens, at)) && !begins_calc(tokens, after, at) {
        at += 1;
    }
    at
}

/// Whether the first token is an item by itself.
fn is_item(tokens: &[Token]) -> bool
    ensures { result ≡ spec.is_item tokens.now }
{
    is_address_or_name(tokens)
        || number(tokens).is_some() && !continues_calc(tokens.get(1..).unwrap_or_default())
}

/// Whether an item comes at a place, also in parentheses.
#[tactic(auto, unfolding(crate::specs::Brackets::begins_item))]
pub(crate) fn begins_item(tokens: &[Token], after: &[usize], place: usize) -> bool
    requires table { IsAfter tokens.now after.now }
    requires inside { place ≤ length tokens.now }
    ensures { result ≡ spec.begins_item (drop place tokens.now) }
{
    is_item(rest_at(tokens, past_opens(tokens, after, place)))
}
