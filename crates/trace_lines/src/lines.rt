//! A line of a trace.

ghost use Rattle.std.specs.Prelude.{◌≡◌, IfOk};
ghost use Rattle.trace_lines.specs.Lines as spec;
ghost use Rattle.trace_lines.specs.Views.{said};
ghost use Rattle.line_words.specs.Words.{texts};

use crate::event::{Act, TraceAnswer, TraceEvent};
use crate::words::{is_number, is_other, is_plain, say_no, says, says_number};
use line_words::{cut, word_at, words};
use std::alloc::{AllocError, Global};

/// An event that is drawn.
#[derive(Clone, Copy, Debug)]
pub struct Line<'a> {
    pub event: TraceEvent,
    /// Whether it is refused, vetoed or not done.
    pub no: bool,
    /// The version that its core comes to; no bytes where it stays.
    pub version: &'a [u8],
    /// The line: letters, digits, spaces, `:` and `=`.
    pub text: &'a [u8],
}

/// What a line is.
#[derive(Clone, Copy, Debug)]
pub enum Read<'a> {
    /// One that isn't drawn.
    Skipped,
    /// No line of a trace.
    Bad,
    /// An event's.
    Done(Line<'a>),
}

/// The most cores of a machine: a script has at most as many after `limits`.
const MOST_CORES: u16 = 64;

fn core_below(number: u16) -> Option<u16>
    ensures { result ≡ spec.core_below number }
{
    if number < MOST_CORES {
        Some(number)
    } else {
        None
    }
}

/// A core, as `sim` prints it: one digit, or two of which the first is no zero.
fn core_of(word: &[u8]) -> Option<u16>
    ensures { result ≡ spec.core_of word.now }
{
    match word {
        [ones] if b'0' <= *ones && *ones <= b'9' => Some(u16::from(*ones - b'0')),
        [tens, ones] if b'1' <= *tens && *tens <= b'9' && b'0' <= *ones && *ones <= b'9' => {
            core_below(10 * u16::from(*tens - b'0') + u16::from(*ones - b'0'))
        }
        _ => None,
    }
}

fn act_at(word: &[u8], core: Option<u16>) -> Option<Act>
    ensures { result ≡ spec.act_at word.now core }
{
    let core = core?;
    if word == b"submit".as_slice() {
        Some(Act::Submit(core))
    } else if word == b"startfor".as_slice() {
        Some(Act::StartFor(core))
    } else {
        None
    }
}

fn act_between(to: Option<u16>, from: Option<u16>) -> Option<Act>
    ensures { result ≡ spec.act_between to from }
{
    let to = to?;
    let from = from?;
    if to == 0 {
        if from == 0 {
            None
        } else {
            Some(Act::TakeUp(from))
        }
    } else if from == 0 {
        Some(Act::TakeDown(to))
    } else {
        None
    }
}

fn act_receives(core: Option<u16>, number: &[u8]) -> Option<Act>
    ensures { result ≡ spec.act_receives core number.now }
{
    let core = core?;
    if is_number(number) {
        Some(Act::Rx(core))
    } else {
        None
    }
}

/// What is done, by the words before the colon.
fn act_of(words: &[&[u8]]) -> Option<Act>
    ensures { result ≡ spec.act_of (texts words.now) }
{
    match words {
        [word] if *word == b"start".as_slice() => Some(Act::Start),
        [word, core] => act_at(word, core_of(core)),
        [word, core, other] if *word == b"take".as_slice() => {
            act_between(core_of(core), core_of(other))
        }
        [word, core, other] if *word == b"rx".as_slice() => act_receives(core_of(core), other),
        _ => None,
    }
}

/// The answer of a request that core 0 begins.
fn begun(words: &[&[u8]]) -> Option<TraceAnswer>
    ensures { result ≡ spec.begun (texts words.now) }
{
    if says_number(b"prepared".as_slice(), words) {
        Some(TraceAnswer::Prepared)
    } else if says_number(b"committed".as_slice(), words) {
        Some(TraceAnswer::Committed)
    } else if says(b"refused".as_slice(), words) {
        Some(TraceAnswer::Refused)
    } else {
        None
    }
}

/// What a vote decides, by the word after it.
fn vote_told(word: &[u8]) -> Option<TraceAnswer>
    ensures { result ≡ spec.vote_told word.now }
{
    if word == b"committed".as_slice() {
        Some(TraceAnswer::VoteCommits)
    } else if word == b"refused".as_slice() {
        Some(TraceAnswer::VoteRefuses)
    } else if word.is_empty() {
        Some(TraceAnswer::Vote)
    } else {
        None
    }
}

/// The answer of core 0 that takes a message.
fn taken_up(words: &[&[u8]]) -> Option<TraceAnswer>
    ensures { result ≡ spec.taken_up (texts words.now) }
{
    if says_number(b"vote".as_slice(), words) {
        vote_told(word_at(words, 3))
    } else if says_number(b"ack".as_slice(), words) {
        Some(TraceAnswer::Ack)
    } else if says(b"submit".as_slice(), words) {
        Some(TraceAnswer::Submit)
    } else {
        None
    }
}

/// The answer of another core that does.
fn taken_down(words: &[&[u8]]) -> Option<TraceAnswer>
    ensures { result ≡ spec.taken_down (texts words.now) }
{
    if says_number(b"prepare".as_slice(), words) {
        Some(TraceAnswer::Prepare)
    } else if says_number(b"commit".as_slice(), words) {
        Some(TraceAnswer::Commit)
    } else if says_number(b"abort".as_slice(), words) {
        Some(TraceAnswer::Abort)
    } else if says(b"reply".as_slice(), words) {
        Some(TraceAnswer::Reply)
    } else {
        None
    }
}

fn answer_of(act: Act, words: &[&[u8]]) -> Option<TraceAnswer>
    ensures { result ≡ spec.answer_of act (texts words.now) }
{
    match act {
        Act::Start | Act::StartFor(_) => begun(words),
        Act::Submit(_) if says(b"sent".as_slice(), words) => Some(TraceAnswer::Sent),
        Act::TakeUp(_) => taken_up(words),
        Act::TakeDown(_) => taken_down(words),
        Act::Rx(_) if says_number(b"version".as_slice(), words) => Some(TraceAnswer::Delivered),
        Act::Submit(_) | Act::Rx(_) => None,
    }
}

/// The answer, by the words after the colon.
fn told_of(act: Act, words: &[&[u8]]) -> Option<TraceAnswer>
    ensures { result ≡ spec.told_of act (texts words.now) }
{
    if says(b"fault".as_slice(), words) {
        Some(TraceAnswer::Fault)
    } else {
        answer_of(act, words)
    }
}

/// The version that the core comes to.
fn version_of<'a>(told: TraceAnswer, words: &[&'a [u8]]) -> &'a [u8]
    ensures { result.now ≡ spec.version_of told (texts words.now) }
{
    match told {
        TraceAnswer::Committed => word_at(words, 1),
        TraceAnswer::VoteCommits => word_at(words, 4),
        TraceAnswer::Commit => word_at(words, 3),
        _ => &[],
    }
}

fn is_skipped(words: &[&[u8]]) -> bool
    ensures { result ≡ spec.is_skipped (texts words.now) }
{
    is_other(word_at(words, 0))
        || word_at(words, words.len().saturating_sub(1)) == b"NoSuchCore".as_slice()
}

/// Whether nothing was asked for at this core, by the words before the colon and those after it.
fn is_unasked(done: &[&[u8]], told: &[&[u8]]) -> bool
    ensures { result ≡ spec.is_unasked (texts done.now) (texts told.now) }
{
    match done {
        [word, core] => {
            (*word == b"submit".as_slice() && is_number(core))
                && (says(b"fault".as_slice(), told) && word_at(told, 1) == b"Nothing".as_slice())
        }
        _ => false,
    }
}

/// What the line of an act is, if it is an act. Nothing is drawn where nothing was asked for at a core that isn't there.
fn read_act<'a>(line: &'a [u8], done: &[&[u8]], words: &[&'a [u8]], act: Option<Act>) -> Read<'a>
    ensures { said result ≡ spec.said_act line.now (texts done.now) (texts words.now) act }
{
    let Some(act) = act else {
        return if is_unasked(done, words) {
            Read::Skipped
        } else {
            Read::Bad
        };
    };
    let Some(told) = told_of(act, words) else {
        return Read::Bad;
    };
    Read::Done(Line {
        event: TraceEvent { act, told },
        no: say_no(words),
        version: version_of(told, words),
        text: line,
    })
}

fn read_parts<'a>(
    alloc: Global,
    line: &'a [u8],
    before: &'a [u8],
    after: &'a [u8],
) -> Result<Read<'a>, AllocError>
    ensures { IfOk result (λ read. said read ≡ spec.said_parts line.now before.now after.now) }
{
    let before = words(alloc, before)?;
    let after = words(alloc, after)?;
    Ok(read_act(line, &before, &after, act_of(&before)))
}

/// What a line is.
pub(crate) fn read_line(alloc: Global, line: &[u8]) -> Result<Read<'_>, AllocError>
    ensures { IfOk result (λ read. said read ≡ spec.said_of line.now) }
{
    let all = words(alloc, line)?;
    if is_skipped(&all) {
        return Ok(Read::Skipped);
    }
    if !is_plain(line) {
        return Ok(Read::Bad);
    }
    let (before, after) = cut(b':', line);
    read_parts(alloc, line, before, after)
}
