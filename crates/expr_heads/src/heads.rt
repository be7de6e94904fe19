//! Qualifiers before a value.

ghost use Rattle.std.specs.Prelude.{◌≡◌, ◌≤◌, IfSome};
ghost use Rattle.expr_heads.specs.Heads as spec;

use crate::keywords::{are_opposite, joined_by, keyword_at, kind_of, protocol_at, side_of};
use expr_tree::Side;
use expr_values::ValueKind;
use expr_words::{Protocol, Token};

/// The qualifiers that are written, and how many tokens they are.
#[derive(Clone, Copy, Debug, PartialEq, Eq)]
pub struct Head {
    pub protocol: Option<Protocol>,
    pub side: Option<Side>,
    pub kind: Option<ValueKind>,
    pub tokens: usize,
}

/// A direction, and how many tokens it is.
#[derive(Clone, Copy)]
struct Direction {
    side: Side,
    tokens: usize,
}

/// What two directions are together: `src or dst` and the like.
fn two_sides(tokens: &[Token], place: usize, first: Side) -> Option<Side>
    requires { place ≤ 1 }
    ensures { result ≡ spec.two_sides tokens.now place first }
{
    let joined = joined_by(keyword_at(tokens, place + 1)?)?;
    let second = side_of(keyword_at(tokens, place + 2)?)?;
    if are_opposite(first, second) {
        Some(joined)
    } else {
        None
    }
}

/// The direction at a place.
fn read_direction(tokens: &[Token], place: usize) -> Option<Direction>
    requires { place ≤ 1 }
    ensures value { result ≡ spec.direction tokens.now place }
    ensures few { IfSome result (λ d. d.tokens ≤ 3) }
{
    let side = side_of(keyword_at(tokens, place)?)?;
    match two_sides(tokens, place, side) {
        Some(joined) => Some(Direction {
            side: joined,
            tokens: 3,
        }),
        None => Some(Direction { side, tokens: 1 }),
    }
}

/// The kind of value that is announced at a place.
fn kind_at(tokens: &[Token], place: usize) -> Option<ValueKind>
    ensures { result ≡ spec.kind_at tokens.now place }
{
    kind_of(keyword_at(tokens, place)?)
}

/// The kind after the other qualifiers.
fn with_kind(tokens: &[Token], protocol: Option<Protocol>, side: Option<Side>, place: usize) -> Head
    requires { place ≤ 4 }
    ensures { result ≡ spec.with_kind tokens.now protocol side place }
{
    match kind_at(tokens, place) {
        Some(kind) => Head {
            protocol,
            side,
            kind: Some(kind),
            tokens: place + 1,
        },
        None => Head {
            protocol,
            side,
            kind: None,
            tokens: place,
        },
    }
}

/// The direction and the kind after a protocol, or after none.
fn with_side(tokens: &[Token], protocol: Option<Protocol>, place: usize) -> Head
    requires { place ≤ 1 }
    ensures { result ≡ spec.with_side tokens.now protocol place }
{
    match read_direction(tokens, place) {
        Some(found) => with_kind(tokens, protocol, Some(found.side), place + found.tokens),
        None => with_kind(tokens, protocol, None, place),
    }
}

/// The qualifiers at the front: [proto] [dir] [type].
pub fn read_head(tokens: &[Token]) -> Head
    ensures { result ≡ spec.head tokens.now }
{
    match protocol_at(tokens, 0) {
        Some(protocol) => with_side(tokens, Some(protocol), 1),
        None => with_side(tokens, None, 0),
    }
}
