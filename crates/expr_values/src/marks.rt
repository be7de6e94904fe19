//! What may follow an address.

ghost use Rattle.std.specs.Prelude.{◌≡◌};
ghost use Rattle.expr_values.specs.Marks as spec;

use expr_words::{Keyword, Sign, Token, V4, Word};

#[derive(Clone, Copy)]
pub(crate) enum Mark {
    /// `/`.
    Slash,
    /// `mask`.
    Mask,
    Other,
}

fn slash(sign: Sign) -> Mark
    ensures { result ≡ spec.slash sign }
{
    match sign {
        Sign::Slash => Mark::Slash,
        _ => Mark::Other,
    }
}

fn mask(keyword: Keyword) -> Mark
    ensures { result ≡ spec.mask keyword }
{
    match keyword {
        Keyword::Mask => Mark::Mask,
        _ => Mark::Other,
    }
}

/// What the second token is.
pub(crate) fn second_mark(tokens: &[Token]) -> Mark
    ensures { result ≡ spec.second_mark tokens.now }
{
    let Some(token) = tokens.get(1) else {
        return Mark::Other;
    };
    match token.word {
        Word::Sign(sign) => slash(sign),
        Word::Keyword(keyword) => mask(keyword),
        Word::Protocol(_, _) => Mark::Other,
        Word::Number(_) => Mark::Other,
        Word::V4(_) => Mark::Other,
        Word::V6(_) => Mark::Other,
        Word::Mac(_) => Mark::Other,
        Word::Name(_) => Mark::Other,
        Word::Refused(_) => Mark::Other,
    }
}

/// The number that the third token is.
pub(crate) fn third_number(tokens: &[Token]) -> Option<u32>
    ensures { result ≡ spec.third_number tokens.now }
{
    let token = tokens.get(2)?;
    match token.word {
        Word::Number(number) => Some(number),
        Word::Sign(_) => None,
        Word::Keyword(_) => None,
        Word::Protocol(_, _) => None,
        Word::V4(_) => None,
        Word::V6(_) => None,
        Word::Mac(_) => None,
        Word::Name(_) => None,
        Word::Refused(_) => None,
    }
}

/// The IPv4 address that the third token is.
pub(crate) fn third_address(tokens: &[Token]) -> Option<V4>
    ensures { result ≡ spec.third_address tokens.now }
{
    let token = tokens.get(2)?;
    match token.word {
        Word::V4(address) => Some(address),
        Word::Number(_) => None,
        Word::Sign(_) => None,
        Word::Keyword(_) => None,
        Word::Protocol(_, _) => None,
        Word::V6(_) => None,
        Word::Mac(_) => None,
        Word::Name(_) => None,
        Word::Refused(_) => None,
    }
}
