//! What the words of a command ask for.

ghost use Rattle.std.specs.Prelude.{◌≡◌, ◌<◌, ◌==◌, Result, Ok, Err};
ghost use Rattle.mk_script.specs.declared.rows.Request.TheVariants as asked;
ghost use Rattle.mk_script.specs.Drafts as spec;
ghost use Rattle.mk_script.specs.DraftViews.{Answered, known_of, identity};
ghost use Rattle.line_words.specs.Words.{texts};
ghost use Rattle.mk_script.specs.Words.{check};

use crate::fault::ScriptFaultKind;
use crate::number::{number16, number32};
use crate::reading::Reading;
use crate::rows::Request;
use endpoint_caps::Rights;
use filter_table::{Op, Program};
use line_words::word_at;

/// A fault where a test fails.
pub(crate) fn check(passes: bool, fault: ScriptFaultKind) -> Result<(), ScriptFaultKind>
    ensures { result ≡ check passes fault }
{
    if passes { Ok(()) } else { Err(fault) }
}

fn rights_of(word: &[u8]) -> Rights
    ensures { result ≡ spec.rights_of word.now }
{
    if word == b"r".as_slice() {
        Rights::R
    } else if word == b"m".as_slice() {
        Rights::M
    } else {
        Rights::Rm
    }
}

#[tactic(auto, unfolding(crate::specs::Drafts::create_op))]
fn create(words: &[&[u8]]) -> Result<Op, ScriptFaultKind>
    ensures { result ≡ spec.create_op (texts words.now) }
{
    let domain = number16(word_at(words, 1))?;
    let endpoint = number16(word_at(words, 2))?;
    Ok(Op::Create { domain, endpoint })
}

#[tactic(auto, unfolding(crate::specs::Drafts::mint_op))]
fn mint(words: &[&[u8]]) -> Result<Op, ScriptFaultKind>
    ensures { result ≡ spec.mint_op (texts words.now) }
{
    let domain = number16(word_at(words, 1))?;
    let cap = number32(word_at(words, 2))?;
    let to = number16(word_at(words, 3))?;
    let rights = rights_of(word_at(words, 4));
    Ok(Op::Mint {
        domain,
        cap,
        to,
        rights,
    })
}

/// A domain, and a capability or a filter.
#[tactic(auto, unfolding(crate::specs::Drafts::held))]
fn held(words: &[&[u8]]) -> Result<(u16, u32), ScriptFaultKind>
    ensures { result ≡ spec.held (texts words.now) }
{
    let domain = number16(word_at(words, 1))?;
    let id = number32(word_at(words, 2))?;
    Ok((domain, id))
}

/// A domain, a capability or a filter, and a program by its name.
#[tactic(auto, unfolding(crate::specs::Drafts::held_program))]
fn held_program<'a>(
    reading: &Reading<'a>,
    words: &[&'a [u8]],
) -> Result<(u16, u32, Program), ScriptFaultKind>
    ensures { Answered identity result (spec.held_program (known_of reading.now) (texts words.now)) }
{
    let (domain, id) = held(words)?;
    let Some(program) = reading.programs.get(word_at(words, 3)) else {
        return Err(ScriptFaultKind::NoName);
    };
    let program = program.clone()?;
    Ok((domain, id, program))
}

/// A filter at a capability.
fn install<'a>(reading: &Reading<'a>, words: &[&'a [u8]]) -> Result<Op, ScriptFaultKind>
    ensures { Answered identity result (spec.op_of (known_of reading.now) (texts words.now) asked.Install) }
{
    let (domain, cap, program) = held_program(reading, words)?;
    Ok(Op::Install {
        domain,
        cap,
        program,
    })
}

/// Another program for a filter.
fn replace<'a>(reading: &Reading<'a>, words: &[&'a [u8]]) -> Result<Op, ScriptFaultKind>
    ensures { Answered identity result (spec.op_of (known_of reading.now) (texts words.now) asked.Replace) }
{
    let (domain, filter, program) = held_program(reading, words)?;
    Ok(Op::Replace {
        domain,
        filter,
        program,
    })
}

/// The operation that a request asks for.
pub(crate) fn op_of<'a>(
    reading: &Reading<'a>,
    words: &[&'a [u8]],
    request: Request,
) -> Result<Op, ScriptFaultKind>
    ensures { Answered identity result (spec.op_of (known_of reading.now) (texts words.now) request) }
{
    match request {
        Request::Create => create(words),
        Request::Mint => mint(words),
        Request::Revoke => {
            let (domain, cap) = held(words)?;
            Ok(Op::Revoke { domain, cap })
        }
        Request::DropCap => {
            let (domain, cap) = held(words)?;
            Ok(Op::DropCap { domain, cap })
        }
        Request::Install => install(reading, words),
        Request::Remove => {
            let (domain, filter) = held(words)?;
            Ok(Op::Remove { domain, filter })
        }
        Request::Replace => replace(reading, words),
    }
}

pub(crate) fn domain_of(op: &Op) -> u16
    ensures { result ≡ spec.domain_of op.now }
{
    match op {
        Op::Create { domain, .. }
        | Op::Mint { domain, .. }
        | Op::Revoke { domain, .. }
        | Op::DropCap { domain, .. }
        | Op::Install { domain, .. }
        | Op::Remove { domain, .. }
        | Op::Replace { domain, .. } => *domain,
    }
}
