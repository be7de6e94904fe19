//! `keep`: keeps the packets of a capture that a filter accepts.

ghost use Rattle.std.specs.Prelude.{◌≡◌, ◌≤◌, ◌<◌, ◌⊎◌, ◌++◌, ℕ, List, [], IfOk, IfErr, None, OnErr, IsSome, Some, false, true, string_bytes};
ghost use Rattle.std.specs.Io.KnownBytes.{IsAtEnd};
ghost use Rattle.console.specs.CodeWords.{code_fault_line};
ghost use Rattle.console.specs.Expressions.{IsFilter, ShowsBadFilter, explanation};
ghost use Rattle.console.specs.Programs.{Programs, programs_of};
ghost use Rattle.engine_io.specs.Devices.{EndsEarly, Gets, IsFresh, Writes};
ghost use Rattle.engine_io.specs.Reading.{IsEngineFault};
ghost use Rattle.keep_engine.specs.Keeping.{KeepsFront, KeepsGoodCode, KeepsPart, Says};
ghost use Rattle.keep_engine.specs.Sieving.{EndsKept, IsStopped, SaysEnding};

use crate::choice::{KeptBytes, Wanted};
use crate::sieve::Sieve;
use capture_reader::ReadFault;
use console::{
    CodeFault, Filter, LinkTypes, STREAM_READS, push_code_fault, push_explanation, push_read_words,
    read_filter,
};
use engine_io::{EngineFault, Got, Sink, Source, write_bytes};
use std::alloc::{AllocError, Global};
use std::io::{Read, Write};

/// How many bytes one read may give at most. Each read and each write costs the system something, however few bytes it moves.
const BLOCK: usize = 262_144;

/// How many bytes one read may give after `MANY`.
const SMALL: usize = 32_768;

/// So many bytes that smaller reads must follow, for all reads of a stream to give fewer than 2^64.
const MANY: u64 = 4_611_686_018_427_387_904;

/// Copies a capture of any length, but of its packets only those that are wanted: that the filter accepts which `code` spells, in
/// decimal text or as an expression; or, inverted, those that it doesn't accept; and of one link type alone, where one is named.
/// Answers the status.
///
/// The input is in pcapng where it begins with the type of a section header, and else a savefile. A packet is accepted where the
/// verdict is above 0. An expression is compiled for the link type of each packet, with the verdict `accept`. Of a savefile the header
/// and each record that is kept are written as they are, byte for byte and in order; of a capture in pcapng each block that isn't a
/// packet or whose packet is kept. What a read completed is written before the next read.
///
/// At a fault of the capture that stands whatever follows, and at a packet that is wanted and for whose link type an expression has a
/// fault, it ends without reading on. A record or a block that isn't whole is a fault where the input ends. What was whole before a
/// fault is written; the fault's lines are appended to `complaint`, and the status is 1. For a code that gives nothing to run it reads
/// and writes nothing, appends the lines that say why, and answers status 1. Else the status is 0, and nothing is appended.
///
/// `links` becomes the link types of the interfaces in what was read, for a warning where there are several.
///
/// It holds the longest record or block at most, and what one read completed. `writer` is never flushed.
///
/// Answers `ReadFailed` where a read fails, or after 2^48 - 1 reads of at most 262,144 bytes; `WriteFailed`; and `NoMemory`. A
/// front of what is kept was written then.
pub fn run_keep<R: Read, W: Write>(
    alloc: Global,
    code: &[u8],
    accept: u32,
    wanted: Wanted,
    links: &mut LinkTypes,
    reader: &mut Source<R>,
    writer: &mut Sink<W>,
    complaint: &mut String,
) -> Result<u8, EngineFault>
    requires fresh { IsFresh reader.old STREAM_READS }
    requires good { writer.old.failed ≡ false }
    ensures kept { IfOk result (λ status. (text : List ℕ) × Writes W.contents writer.old writer.new text
        × (lines : List ℕ) × (string_bytes complaint.new ≡ string_bytes complaint.old ++ lines)
        × (((line : List ℕ) × (words : List ℕ) × ShowsBadFilter code.now line words × (lines ≡ line ++ words) × (status ≡ 1) × (text ≡ []))
        ⊎ ((input : List ℕ) × Gets R.remaining reader.old reader.new input
        × KeepsGoodCode code.now accept wanted input status lines text × (IsAtEnd (R.remaining reader.new.inner) ⊎ (status ≡ 1))))) }
    ensures unread { ((programs : Programs) → IsFilter code.now accept programs → ⊥) → reader.new ≡ reader.old }
    ensures left { OnErr result ((input : List ℕ) × Gets R.remaining reader.old reader.new input
        × (text : List ℕ) × Writes W.contents writer.old writer.new text × KeepsPart code.now accept wanted input text) }
    ensures fault { IfErr result IsEngineFault }
    ensures well { IfOk result (λ status. (writer.new.failed ≡ false) × (reader.new.failed ≡ false) × ((reader.new.ended ≡ true) ⊎ (status ≡ 1))) }
    ensures cause { IfErr result (EndsEarly reader.new writer.new) }
{
    match read_filter(alloc, code, accept)? {
        Ok(filter) => {
            let ending = copy(alloc, &filter, wanted, links, reader, writer)?;
            Ok(say(alloc, code, ending, complaint)?)
        }
        Err(bad) => {
            complaint.push_str(bad.line.as_str())?;
            complaint.push_str(bad.words.as_str())?;
            Ok(1)
        }
    }
}

/// How a copy ended.
#[derive(Clone, Copy, Debug)]
pub enum CopyEnd {
    /// At the capture's end, or at this fault of it.
    Capture(Option<ReadFault>),
    /// At a packet for whose link type CODE has no program.
    Code(CodeFault),
}

/// Appends the lines for what ended a copy, if there are any, and answers the status.
fn say(
    alloc: Global,
    code: &[u8],
    ending: CopyEnd,
    complaint: &mut String,
) -> Result<u8, AllocError>
    ensures { IfOk result (λ status. (lines : List ℕ) × (string_bytes complaint.new ≡ string_bytes complaint.old ++ lines) × SaysEnding code.now ending status lines) }
{
    match ending {
        CopyEnd::Capture(fault) => say_fault(fault, complaint),
        CopyEnd::Code(fault) => {
            push_code_fault(complaint, fault)?;
            push_explanation(alloc, complaint, code, fault)?;
            Ok(1)
        }
    }
}

/// Appends the line of a capture's fault, if there is one, and answers the status.
fn say_fault(fault: Option<ReadFault>, complaint: &mut String) -> Result<u8, AllocError>
    ensures { IfOk result (λ status. (line : List ℕ) × (string_bytes complaint.new ≡ string_bytes complaint.old ++ line) × Says fault status line) }
{
    match fault {
        None => Ok(0),
        Some(fault) => {
            complaint.push_str("fault ")?;
            push_read_words(complaint, fault)?;
            complaint.push_str("\n")?;
            Ok(1)
        }
    }
}

/// Reads to the end of the capture and writes what is kept, and answers how it ended.
fn copy<R: Read, W: Write>(
    alloc: Global,
    filter: &Filter,
    wanted: Wanted,
    links: &mut LinkTypes,
    reader: &mut Source<R>,
    writer: &mut Sink<W>,
) -> Result<CopyEnd, EngineFault>
    requires fresh { IsFresh reader.old STREAM_READS }
    requires good { writer.old.failed ≡ false }
    ensures kept { IfOk result (λ ending. (input : List ℕ) × Gets R.remaining reader.old reader.new input
        × (text : List ℕ) × Writes W.contents writer.old writer.new text
        × EndsKept (programs_of filter.now) wanted input ending text × (IsAtEnd (R.remaining reader.new.inner) ⊎ IsStopped ending)) }
    ensures left { OnErr result ((input : List ℕ) × Gets R.remaining reader.old reader.new input
        × (text : List ℕ) × Writes W.contents writer.old writer.new text × KeepsFront (programs_of filter.now) wanted input text) }
    ensures fault { IfErr result IsEngineFault }
    ensures well { IfOk result (λ ending. (writer.new.failed ≡ false) × (reader.new.failed ≡ false) × ((reader.new.ended ≡ true) ⊎ IsStopped ending)) }
    ensures cause { IfErr result (EndsEarly reader.new writer.new) }
{
    let mut sieve = Sieve::new(alloc);
    let mut kept = KeptBytes::new(alloc);
    let mut block = [0u8; BLOCK];
    for _turn in 0..STREAM_READS {
        let buffer = &mut block[..room(reader.taken())];
        match reader.read(buffer) {
            Got::End => return Ok(CopyEnd::Capture(sieve.ending(reader.taken()))),
            Got::Bytes(count) => {
                sieve.piece(filter, wanted, &buffer[..count], &mut kept)?;
                *links = sieve.links();
                write_bytes(writer, kept.bytes.as_slice())?;
                kept.bytes.clear();
                if let Some(fault) = kept.stop {
                    return Ok(CopyEnd::Code(fault));
                }
                if sieve.has_stopped() {
                    return Ok(CopyEnd::Capture(sieve.ending(reader.taken())));
                }
            }
            Got::Again => {}
            Got::Failed => return Err(EngineFault::ReadFailed),
        }
    }
    Err(EngineFault::ReadFailed)
}

/// How many bytes the next read may give, after so many.
fn room(taken: u64) -> usize
    ensures some { 0 < result }
    ensures most { result ≤ BLOCK }
    ensures small { MANY ≤ taken → result ≤ SMALL }
{
    if taken < MANY { BLOCK } else { SMALL }
}
