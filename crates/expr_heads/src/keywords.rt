//! Words that are qualifiers.

ghost use Rattle.std.specs.Prelude.{◌≡◌};
ghost use Rattle.expr_heads.specs.Heads as spec;

use expr_tree::Side;
use expr_values::ValueKind;
use expr_words::{Keyword, Protocol, Token, Word};

/// The protocol that the token at a place is.
pub(crate) fn protocol_at(tokens: &[Token], place: usize) -> Option<Protocol>
    ensures { result ≡ spec.protocol_at tokens.now place }
{
    let token = tokens.get(place)?;
    match token.word {
        Word::Protocol(protocol, _) => Some(protocol),
        Word::Keyword(_) => None,
        Word::Sign(_) => None,
        Word::Number(_) => None,
        Word::V4(_) => None,
        Word::V6(_) => None,
        Word::Mac(_) => None,
        Word::Name(_) => None,
        Word::Refused(_) => None,
    }
}

/// The keyword that the token at a place is.
pub(crate) fn keyword_at(tokens: &[Token], place: usize) -> Option<Keyword>
    ensures { result ≡ spec.keyword_at tokens.now place }
{
    let token = tokens.get(place)?;
    match token.word {
        Word::Keyword(keyword) => Some(keyword),
        Word::Protocol(_, _) => None,
        Word::Sign(_) => None,
        Word::Number(_) => None,
        Word::V4(_) => None,
        Word::V6(_) => None,
        Word::Mac(_) => None,
        Word::Name(_) => None,
        Word::Refused(_) => None,
    }
}

/// `src` or `dst`.
pub(crate) fn side_of(keyword: Keyword) -> Option<Side>
    ensures { result ≡ spec.side_of keyword }
{
    match keyword {
        Keyword::Src => Some(Side::Src),
        Keyword::Dst => Some(Side::Dst),
        _ => None,
    }
}

/// What `src` and `dst` are together, joined by this word.
pub(crate) fn joined_by(keyword: Keyword) -> Option<Side>
    ensures { result ≡ spec.joined_by keyword }
{
    match keyword {
        Keyword::And => Some(Side::Both),
        Keyword::Or => Some(Side::Either),
        _ => None,
    }
}

/// The kind of value that the word announces.
pub(crate) fn kind_of(keyword: Keyword) -> Option<ValueKind>
    ensures { result ≡ spec.kind_of keyword }
{
    match keyword {
        Keyword::Host => Some(ValueKind::Host),
        Keyword::Net => Some(ValueKind::Net),
        Keyword::Port => Some(ValueKind::Port),
        Keyword::Portrange => Some(ValueKind::Portrange),
        Keyword::Proto => Some(ValueKind::Proto),
        _ => None,
    }
}

/// Whether one is `src` and the other `dst`.
pub(crate) fn are_opposite(first: Side, second: Side) -> bool
    ensures { result ≡ spec.are_opposite first second }
{
    match first {
        Side::Src => match second {
            Side::Dst => true,
            Side::Src => false,
            Side::Either => false,
            Side::Both => false,
        },
        Side::Dst => match second {
            Side::Src => true,
            Side::Dst => false,
            Side::Either => false,
            Side::Both => false,
        },
        Side::Either => false,
        Side::Both => false,
    }
}
