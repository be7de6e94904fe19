//! What the first token says.

ghost use Rattle.std.specs.Prelude.{◌≡◌};
ghost use Rattle.expr_parse.specs.Words as spec;

use expr_words::{Keyword, Protocol, Sign, Token, Word};

/// The sign that the first token is.
#[tactic(auto, unfolding(crate::specs::Words::sign))]
pub(crate) fn sign(tokens: &[Token]) -> Option<Sign>
    ensures { result ≡ spec.sign tokens.now }
{
    let token = tokens.first()?;
    match token.word {
        Word::Sign(sign) => Some(sign),
        Word::Keyword(_) => None,
        Word::Protocol(_, _) => None,
        Word::Number(_) => None,
        Word::V4(_) => None,
        Word::V6(_) => None,
        Word::Mac(_) => None,
        Word::Name(_) => None,
        Word::Refused(_) => None,
    }
}

/// The keyword that the first token is.
#[tactic(auto, unfolding(crate::specs::Words::keyword))]
pub(crate) fn keyword(tokens: &[Token]) -> Option<Keyword>
    ensures { result ≡ spec.keyword tokens.now }
{
    let token = tokens.first()?;
    match token.word {
        Word::Keyword(keyword) => Some(keyword),
        Word::Sign(_) => None,
        Word::Protocol(_, _) => None,
        Word::Number(_) => None,
        Word::V4(_) => None,
        Word::V6(_) => None,
        Word::Mac(_) => None,
        Word::Name(_) => None,
        Word::Refused(_) => None,
    }
}

/// The number that the first token is.
#[tactic(auto, unfolding(crate::specs::Words::number))]
pub(crate) fn number(tokens: &[Token]) -> Option<u32>
    ensures { result ≡ spec.number tokens.now }
{
    let token = tokens.first()?;
    match token.word {
        Word::Number(number) => Some(number),
        Word::Keyword(_) => None,
        Word::Sign(_) => None,
        Word::Protocol(_, _) => None,
        Word::V4(_) => None,
        Word::V6(_) => None,
        Word::Mac(_) => None,
        Word::Name(_) => None,
        Word::Refused(_) => None,
    }
}

/// The protocol that the first token is.
#[tactic(auto, unfolding(crate::specs::Words::protocol))]
pub(crate) fn protocol(tokens: &[Token]) -> Option<Protocol>
    ensures { result ≡ spec.protocol tokens.now }
{
    let token = tokens.first()?;
    match token.word {
        Word::Protocol(protocol, _) => Some(protocol),
        Word::Keyword(_) => None,
        Word::Sign(_) => None,
        Word::Number(_) => None,
        Word::V4(_) => None,
        Word::V6(_) => None,
        Word::Mac(_) => None,
        Word::Name(_) => None,
        Word::Refused(_) => None,
    }
}

/// Whether the first token is an address or a name.
#[tactic(auto, unfolding(crate::specs::Words::is_address_or_name))]
pub(crate) fn is_address_or_name(tokens: &[Token]) -> bool
    ensures { result ≡ spec.is_address_or_name tokens.now }
{
    let Some(token) = tokens.first() else {
        return false;
    };
    match token.word {
        Word::V4(_) => true,
        Word::V6(_) => true,
        Word::Mac(_) => true,
        Word::Name(_) => true,
        Word::Number(_) => false,
        Word::Keyword(_) => false,
        Word::Sign(_) => false,
        Word::Protocol(_, _) => false,
        Word::Refused(_) => false,
    }
}

#[tactic(auto, unfolding(crate::specs::Words::same_sign))]
fn same_sign(first: Sign, second: Sign) -> bool
    ensures { result ≡ spec.same_sign first second }
{
    first == second
}

#[tactic(auto, unfolding(crate::specs::Words::same_keyword))]
fn same_keyword(first: Keyword, second: Keyword) -> bool
    ensures { result ≡ spec.same_keyword first second }
{
    first == second
}

/// Whether the first token is this sign.
#[tactic(auto, unfolding(crate::specs::Words::sees))]
pub(crate) fn sees(expected: Sign, tokens: &[Token]) -> bool
    ensures { result ≡ spec.sees expected tokens.now }
{
    match sign(tokens) {
        Some(found) => same_sign(found, expected),
        None => false,
    }
}

/// Whether the first token is this keyword.
#[tactic(auto, unfolding(crate::specs::Words::sees_word))]
pub(crate) fn sees_word(expected: Keyword, tokens: &[Token]) -> bool
    ensures { result ≡ spec.sees_word expected tokens.now }
{
    match keyword(tokens) {
        Some(found) => same_keyword(found, expected),
        None => false,
    }
}
