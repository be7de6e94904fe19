//! The token at the front of some bytes.

ghost use Rattle.std.specs.Prelude.{◌≡◌, ◌+◌, ◌<◌, ◌≤◌, length, MatchOption, take};
ghost use Rattle.std.specs.List.{prefix_len};
ghost use Rattle.std.specs.Char.{is_ascii_alphanumeric};
ghost use Rattle.expr_words.specs.Bytes as class;
ghost use Rattle.expr_words.specs.Scan as spec;
ghost use Rattle.expr_words.specs.ScanViews.{pair_of};

use crate::address::mac;
use crate::bytes::{continues_name, ends_name, is_blank, is_in_address};
use crate::fault::WordFaultKind;
use crate::names::{look_up, meaning, name};
use crate::tables::{PAIRS, SINGLES};
use crate::word::Word;
use std::net::Ipv6Addr;

/// A token, or why there is none, and how many bytes it is about.
#[derive(Clone, Copy)]
pub(crate) struct Found {
    pub width: usize,
    pub outcome: Result<Word, WordFaultKind>,
}

/// How many blanks stand at the front.
pub(crate) fn blanks(bytes: &[u8]) -> usize
    ensures count { result ≡ prefix_len class.is_blank bytes.now }
    ensures bound { result ≤ length bytes.now }
{
    bytes.iter().take_while(|b| is_blank(**b)).count()
}

/// How many bytes at the front may go on with a name.
fn name_run(bytes: &[u8]) -> usize
    ensures count { result ≡ prefix_len class.continues_name bytes.now }
    ensures bound { result ≤ length bytes.now }
{
    bytes.iter().take_while(|b| continues_name(**b)).count()
}

/// How many bytes at the back can't end a name.
fn name_tail(bytes: &[u8]) -> usize
    ensures count { result ≡ spec.name_tail bytes.now }
    ensures bound { result ≤ length bytes.now }
{
    bytes.iter().rev().take_while(|b| !ends_name(**b)).count()
}

/// The width of the name whose first byte stands at the front.
fn name_width(bytes: &[u8]) -> usize
    requires { 0 < length bytes.now }
    ensures count { result ≡ spec.name_width bytes.now }
    ensures some { 0 < result }
    ensures bound { result ≤ length bytes.now }
{
    let more = &bytes[1..];
    let run = name_run(more);
    1 + run - name_tail(&more[..run])
}

/// How many bytes at the front may stand in an address with colons, counted up to 46.
fn address_run(bytes: &[u8]) -> usize
    ensures count { result ≡ prefix_len class.is_in_address (take 46 bytes.now) }
    ensures bound { result ≤ length bytes.now }
{
    bytes
        .iter()
        .take(46)
        .take_while(|b| is_in_address(**b))
        .count()
}

/// The address with colons that the text is.
fn address(text: &[u8]) -> Option<Word>
    ensures { MatchOption result (spec.NoAddress text.now) (λ w. spec.IsAddress text.now w) }
{
    if let Some(octets) = mac(b':', text) {
        return Some(Word::Mac(octets));
    }
    match Ipv6Addr::parse_ascii(text) {
        Ok(address) => Some(Word::V6(address.to_bits())),
        Err(_) => None,
    }
}

fn pair_named(text: &[u8]) -> Option<Word>
    ensures { result ≡ spec.pair_named text.now }
{
    look_up(&PAIRS, text)
}

fn single_named(text: &[u8]) -> Option<Word>
    ensures { result ≡ spec.single_named text.now }
{
    look_up(&SINGLES, text)
}

/// The sign at the front.
#[tactic(auto, unfolding(crate::specs::Scan::sign))]
fn sign(bytes: &[u8]) -> Found
    requires { 0 < length bytes.now }
    ensures found { pair_of result ≡ spec.sign bytes.now }
    ensures some { 0 < result.width }
    ensures bound { result.width ≤ length bytes.now }
{
    if bytes.len() > 1
        && let Some(word) = pair_named(&bytes[..2])
    {
        return Found {
            width: 2,
            outcome: Ok(word),
        };
    }
    match single_named(&bytes[..1]) {
        Some(word) => Found {
            width: 1,
            outcome: Ok(word),
        },
        None => Found {
            width: 1,
            outcome: Err(WordFaultKind::Character),
        },
    }
}

/// The token at the front, where it is no address with colons.
#[tactic(auto, unfolding(crate::specs::Scan::plain))]
fn plain(bytes: &[u8]) -> Found
    requires { 0 < length bytes.now }
    ensures found { pair_of result ≡ spec.plain bytes.now }
    ensures some { 0 < result.width }
    ensures bound { result.width ≤ length bytes.now }
{
    if bytes[0].is_ascii_alphanumeric() {
        let width = name_width(bytes);
        return Found {
            width,
            outcome: meaning(&bytes[..width]),
        };
    }
    if bytes[0] == b'\\' && bytes.len() > 1 && bytes[1].is_ascii_alphanumeric() {
        let width = 1 + name_run(&bytes[1..]);
        return Found {
            width,
            outcome: Ok(Word::Name(name(&bytes[1..width]))),
        };
    }
    sign(bytes)
}

/// The token at the front, where no blank stands there.
pub(crate) fn token_at(bytes: &[u8]) -> Found
    requires { 0 < length bytes.now }
    ensures begins { spec.Begins bytes.now result.width result.outcome }
    ensures some { 0 < result.width }
    ensures bound { result.width ≤ length bytes.now }
{
    let run = address_run(bytes);
    if run == 0 || run > 45 {
        return plain(bytes);
    }
    match address(&bytes[..run]) {
        Some(word) => Found {
            width: run,
            outcome: Ok(word),
        },
        None => plain(bytes),
    }
}
