//! The lines after `trace`: the events of a run.

ghost use Rattle.std.specs.Prelude.{◌≡◌, ◌==◌, ◌<◌, IfOk};
ghost use Rattle.bpf_insn.specs.Texts.{words_of};
ghost use Rattle.mk_script.specs.Drafts as spec;
ghost use Rattle.mk_script.specs.Changes.{DraftFollows};
ghost use Rattle.mk_script.specs.declared.reading.Reading.{Reading};
ghost use Rattle.mk_script.specs.DraftViews.{Answered, draft_of};
ghost use Rattle.line_words.specs.Words.{texts};

use crate::drafts::{act, counted, start_for, submit, take};
use crate::fault::ScriptFaultKind;
use crate::meaning::{Draft, Meaning};
use crate::number::{number, number16, number64};
use crate::rows::{Command, event_of};
use crate::script::Item;
use line_words::{cut, word_at, words as words_of};
use std::alloc::Global;
use world_events::Event;

fn is_number(word: &[u8]) -> bool
    ensures { result ≡ spec.is_number word.now }
{
    number(word).is_some()
}

/// Whether these are the words of a line `left C N`.
fn is_left(words: &[&[u8]]) -> bool
    ensures { result ≡ spec.is_left (texts words.now) }
{
    match words {
        [word, core, number] => {
            *word == b"left".as_slice() && is_number(core) && is_number(number)
        }
        _ => false,
    }
}

/// Whether the words after the colon tell of a vote NoMemory.
fn is_short(words: &[&[u8]]) -> bool
    ensures { result ≡ spec.is_short (texts words.now) }
{
    word_at(words, 0) == b"prepare".as_slice()
        && word_at(words, words.len().saturating_sub(1)) == b"NoMemory".as_slice()
}

fn is_rx_at(core: u16, event: &Event) -> bool
    ensures { result ≡ spec.is_rx_at core event.now }
{
    match event {
        Event::Rx { core: c, .. } => *c == core,
        _ => false,
    }
}

/// The job that an event names by its core and its number.
#[tactic(auto, unfolding(crate::specs::Drafts::job_draft))]
fn job<'a>(jobs: &[Event], words: &[&[u8]]) -> Result<Draft<'a>, ScriptFaultKind>
    ensures drafts { Answered draft_of result (spec.job_draft jobs.now (texts words.now)) }
    ensures follows { (r : Reading) → IfOk result (λ d. DraftFollows r d) }
{
    let core = number16(word_at(words, 1))?;
    let number = number64(word_at(words, 2))?;
    let Some(event) = counted(jobs, u128::from(number)) else {
        return Err(ScriptFaultKind::NoName);
    };
    if !is_rx_at(core, event) {
        return Err(ScriptFaultKind::NoName);
    }
    let event = event.clone()?;
    Ok(act(Item::Apply(event)))
}

/// The event of these words before a colon, with those after it.
#[tactic(auto, unfolding(crate::specs::Drafts::event_draft))]
fn event<'a>(jobs: &[Event], words: &[&[u8]], rest: &[&[u8]]) -> Result<Draft<'a>, ScriptFaultKind>
    ensures drafts { Answered draft_of result (spec.event_draft jobs.now (texts words.now) (texts rest.now)) }
    ensures follows { (r : Reading) → IfOk result (λ d. DraftFollows r d) }
{
    match event_of(words).ok_or(ScriptFaultKind::BadLine)? {
        Command::Start => Ok(act(Item::Begin)),
        Command::Submit => submit(words),
        Command::StartFor => start_for(words),
        Command::Take => take(words, is_short(rest)),
        Command::Rx => job(jobs, words),
        Command::Limits
        | Command::Cores
        | Command::Asm
        | Command::Ddd
        | Command::Packet
        | Command::Capture
        | Command::Home
        | Command::Request(_)
        | Command::Replay
        | Command::Settle
        | Command::Show
        | Command::Trace => Err(ScriptFaultKind::BadLine),
    }
}

/// What a line of these words after `trace` asks for.
pub(crate) fn trace_line<'a>(
    alloc: Global,
    jobs: &[Event],
    words: &[&[u8]],
    line: &[u8],
) -> Result<Draft<'a>, ScriptFaultKind>
    requires { texts words.now ≡ words_of line.now }
    ensures drafts { Answered draft_of result (spec.trace_draft jobs.now line.now) }
    ensures follows { (r : Reading) → IfOk result (λ d. DraftFollows r d) }
{
    if line.contains(&b':') {
        let (before, behind) = cut(b':', line);
        let before = words_of(alloc, before)?;
        let behind = words_of(alloc, behind)?;
        return event(jobs, &before, &behind);
    }
    if is_left(words) {
        Ok(Draft::Whole(Meaning::Nothing))
    } else {
        Err(ScriptFaultKind::BadLine)
    }
}
