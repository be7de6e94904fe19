//! What names say.

ghost use Rattle.std.specs.Prelude.{◌≡◌, map};
ghost use Rattle.std.specs.List.{list_all};
ghost use Rattle.expr_words.specs.Bytes as class;
ghost use Rattle.expr_words.specs.Names as spec;

use crate::address::{mac, v4};
use crate::bytes::is_dotted;
use crate::fault::WordFaultKind;
use crate::number::{is_number, number};
use crate::protocol::Protocol;
use crate::tables::{ETHER_NUMBERS, IP_NUMBERS, KEYWORDS, NUMBERS, PORTS, PROTOCOLS, REFUSALS};
use crate::word::{Keyword, Name, NamedPort, Numbers, Refusal, Span, Word};
use line_words::cut;

/// What the text stands for by the first row of a table that has it.
pub(crate) fn look_up<T: Copy>(rows: &[(&[u8], T)], text: &[u8]) -> Option<T>
    ensures { result ≡ spec.look_up (map (λ r. (r.0.now, r.1)) rows.now) text.now }
{
    for row in rows {
        if row.0 == text {
            return Some(row.1);
        }
    }
    None
}

fn protocol_named(text: &[u8]) -> Option<Protocol>
    ensures { result ≡ spec.protocol_named text.now }
{
    look_up(&PROTOCOLS, text)
}

fn keyword_named(text: &[u8]) -> Option<Keyword>
    ensures { result ≡ spec.keyword_named text.now }
{
    look_up(&KEYWORDS, text)
}

fn number_named(text: &[u8]) -> Option<u32>
    ensures { result ≡ spec.number_named text.now }
{
    look_up(&NUMBERS, text)
}

fn refusal_named(text: &[u8]) -> Option<Refusal>
    ensures { result ≡ spec.refusal_named text.now }
{
    look_up(&REFUSALS, text)
}

fn port_named(text: &[u8]) -> Option<NamedPort>
    ensures { result ≡ spec.port_named text.now }
{
    look_up(&PORTS, text)
}

fn ip_number_named(text: &[u8]) -> Option<u16>
    ensures { result ≡ spec.ip_number_named text.now }
{
    look_up(&IP_NUMBERS, text)
}

fn ether_number_named(text: &[u8]) -> Option<u16>
    ensures { result ≡ spec.ether_number_named text.now }
{
    look_up(&ETHER_NUMBERS, text)
}

/// What the text stands for after `proto`.
fn numbers_named(text: &[u8]) -> Numbers
    ensures { result ≡ spec.numbers_named text.now }
{
    Numbers {
        ip: ip_number_named(text),
        ether: ether_number_named(text),
    }
}

/// What the text says, where it is a word of the language.
fn word_named(text: &[u8]) -> Option<Word>
    ensures { result ≡ spec.word_named text.now }
{
    if let Some(protocol) = protocol_named(text) {
        return Some(Word::Protocol(protocol, numbers_named(text)));
    }
    if let Some(keyword) = keyword_named(text) {
        return Some(Word::Keyword(keyword));
    }
    if let Some(number) = number_named(text) {
        return Some(Word::Number(number));
    }
    refusal_named(text).map(Word::Refused)
}

/// The numbers of `LOW-HIGH`.
#[tactic(auto, unfolding(crate::specs::Names::span))]
fn span(text: &[u8]) -> Option<Span>
    ensures { result ≡ spec.span text.now }
{
    let (first, second) = cut(b'-', text);
    if !is_number(first) || !is_number(second) {
        return None;
    }
    match (number(first), number(second)) {
        (Ok(first), Ok(second)) => Some(Span { first, second }),
        _ => None,
    }
}

/// What a name may stand for.
pub(crate) fn name(text: &[u8]) -> Name
    ensures { result ≡ spec.name text.now }
{
    Name {
        port: port_named(text),
        numbers: numbers_named(text),
        span: span(text),
    }
}

fn are_dotted(text: &[u8]) -> bool
    ensures { result ≡ list_all class.is_dotted text.now }
{
    text.iter().all(|b| is_dotted(*b))
}

/// What a text says that begins with a letter or a digit, and is spelled as a name.
#[tactic(auto, unfolding(crate::specs::Names::meaning))]
pub(crate) fn meaning(text: &[u8]) -> Result<Word, WordFaultKind>
    ensures { result ≡ spec.meaning text.now }
{
    if is_number(text) {
        return number(text).map(Word::Number);
    }
    if are_dotted(text) {
        return v4(text).map(Word::V4).ok_or(WordFaultKind::Address);
    }
    if let Some(address) = mac(b'-', text) {
        return Ok(Word::Mac(address));
    }
    Ok(word_named(text).unwrap_or(Word::Name(name(text))))
}
