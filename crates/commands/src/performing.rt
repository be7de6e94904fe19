//! Each request by its engine.

ghost use Rattle.std.specs.Prelude.{◌≡◌, ◌⊎◌, ◌++◌, ℕ, List, [], true, false, IfErr, OnOk, IfOk, IsErrOf, string_bytes};
ghost use Rattle.engine_io.specs.Devices.{EndsEarly, IsFresh, Writes};
ghost use Rattle.run_engine.specs.Failing.{RunEndsEarly};
ghost use Rattle.script_input.specs.Inputs.{AllFresh, AreReadInOrder};
ghost use Rattle.commands.specs.Commands.{IsFailure, Shows, ShowsAlone, ShowsDumped, ShowsListing, ShowsMatch, form_of, input_as, is_stream, reads_at, reads_of, shown_as, takes_captures};
ghost use Rattle.compile_engine.specs.Compiling.{joined};
ghost use Rattle.engine_io.specs.Reading.{IsPrintFault};
ghost use Rattle.engine_io.specs.Devices.{StopsWriting};

use command_line::{MatchView, Request};
use compile_engine::{run_compile, run_tree};
use console::{
    ETHERNET, LinkTypes, PacketForm, STREAM_READS, run_check, run_dump, run_dump_stream, run_match,
    run_stream, run_view,
};
use draw_engine::run_draw;
use engine_io::{EngineFault, INPUT_READS, Sink, Source};
use graph_engine::{run_explain, run_graph};
use keep_engine::{Wanted, run_keep};
use run_engine::{RunFailure, Watcher, run_script};
use sim_engine::run_sim;
use std::alloc::Global;
use std::io::{Read, Write};
use std::sync::Wait;
use std::thread::Threads;
use std::time::Clock;

/// What is said beside a request.
#[derive(Clone, Copy, PartialEq, Eq, Debug)]
pub struct Choices {
    /// The link type that is named, if one is.
    pub link: Option<u32>,
    /// The verdict of an expression on the packets of which it is true.
    pub accept: u32,
}

/// The most reads that the input of a request may take.
pub fn most_reads(request: &Request) -> u64
    ensures { result ≡ reads_of request.now }
{
    match request {
        Request::Match { stream: true, .. }
        | Request::Dump { stream: true, .. }
        | Request::View { .. }
        | Request::Keep { .. } => STREAM_READS,
        _ => INPUT_READS,
    }
}

/// Does what was asked for with the input, these captures and what else is said, and answers the exit status: 0, 1 where an input was
/// refused, or 4 where `match --quiet` accepted no packet. What it writes is the text of the command for what it read. Of `keep` that
/// is a capture, so the line about what is wrong is appended to `complaint`; so is what the fault of an expression of `match` means.
/// No other request appends anything. `compile` reads nothing.
///
/// Of a capture that `match` or `keep` reads, `links` becomes the link types of its interfaces: it is for a warning where there are
/// several and none was named. No clause speaks of it.
///
/// Only `sim` and `run` take captures, which they read after the input and in order, and only `run` starts threads, whose receipts
/// ask the watcher. After a failure a front of the text may have been written; where a read failed, only by a stream. The records of
/// the sources and of the sink say which of them failed.
pub fn perform<T: Threads + Wait + Clock + Sync, G: Watcher + Sync, R: Read, F: Read, W: Write>(
    rt: &T,
    alloc: Global,
    watcher: &G,
    request: &Request,
    choices: Choices,
    captures: &mut [Source<F>],
    reader: &mut Source<R>,
    writer: &mut Sink<W>,
    complaint: &mut String,
    links: &mut LinkTypes,
) -> Result<u8, RunFailure>
    requires fresh { IsFresh reader.old (reads_of request.now) }
    requires fresh_captures { AllFresh captures.old }
    requires good { writer.old.failed ≡ false }
    ensures shown { IfOk result (λ status. (text : List ℕ) × Writes W.contents writer.old writer.new text
        × (line : List ℕ) × (string_bytes complaint.new ≡ string_bytes complaint.old ++ line)
        × Shows request.now choices R.remaining reader.old reader.new F.remaining captures.old captures.new status text line) }
    ensures alone { takes_captures request.now ≡ false → captures.new ≡ captures.old }
    ensures input_first { (reader.new.ended ≡ true) ⊎ (captures.new ≡ captures.old) }
    ensures order { AreReadInOrder captures.old captures.new }
    ensures failure { IfErr result (IsFailure request.now) }
    ensures cause { IfErr result (RunEndsEarly reader.new captures.new writer.new) }
    ensures silent { IsErrOf result (RunFailure.Engine EngineFault.ReadFailed) → is_stream request.now ≡ false → writer.new ≡ writer.old }
{
    match request {
        Request::Sim { .. } => Ok(run_sim(alloc, captures, reader, writer)?),
        Request::Run { .. } => run_script(rt, alloc, watcher, captures, reader, writer),
        _ => Ok(perform_alone(alloc, request, choices, reader, writer, complaint, links)?),
    }
}

/// Does what was asked for, where it takes no captures.
fn perform_alone<R: Read, W: Write>(
    alloc: Global,
    request: &Request,
    choices: Choices,
    reader: &mut Source<R>,
    writer: &mut Sink<W>,
    complaint: &mut String,
    links: &mut LinkTypes,
) -> Result<u8, EngineFault>
    requires alone { takes_captures request.now ≡ false }
    requires fresh { IsFresh reader.old (reads_of request.now) }
    requires good { writer.old.failed ≡ false }
    ensures shown { IfOk result (λ status. (text : List ℕ) × Writes W.contents writer.old writer.new text
        × (line : List ℕ) × (string_bytes complaint.new ≡ string_bytes complaint.old ++ line)
        × ShowsAlone request.now choices R.remaining reader.old reader.new status text line) }
    ensures cause { IfErr result (EndsEarly reader.new writer.new) }
    ensures silent { IsErrOf result EngineFault.ReadFailed → is_stream request.now ≡ false → writer.new ≡ writer.old }
{
    match request {
        Request::Match { code, pcap, stream } => perform_match(
            alloc,
            code,
            choices.accept,
            form(*pcap, choices.link),
            *stream,
            reader,
            writer,
            links,
            complaint,
        ),
        Request::View { code, pcap, view } => run_view(
            alloc,
            code.as_bytes(),
            choices.accept,
            form(*pcap, choices.link),
            shown(*view),
            links,
            reader,
            writer,
            complaint,
        ),
        Request::Keep { code, inverted } => run_keep(
            alloc,
            code.as_bytes(),
            choices.accept,
            Wanted {
                inverted: *inverted,
                link: choices.link,
            },
            links,
            reader,
            writer,
            complaint,
        ),
        Request::Explain { code, pcap } => run_explain(
            alloc,
            code.as_bytes(),
            choices.accept,
            form(*pcap, choices.link),
            reader,
            writer,
            complaint,
        ),
        Request::Check { input, asm } => run_check(alloc, read_as(*input), *asm, reader, writer),
        Request::Graph { input } => run_graph(alloc, read_as(*input), reader, writer),
        Request::Dump { stream, stamped } => {
            perform_dump(alloc, *stream, choices.link, *stamped, reader, writer)
        }
        Request::Draw { text } => run_draw(alloc, *text, reader, writer),
        Request::Compile { words, listing } => {
            perform_compile(alloc, words.as_slice(), *listing, choices, writer)
        }
        Request::Sim { .. } | Request::Run { .. } => unreachable!(),
    }
}

/// The view of the engine.
fn shown(view: MatchView) -> console::View
    ensures { result ≡ shown_as view }
{
    match view {
        MatchView::Numbers => console::View::Numbers,
        MatchView::NumbersAndCount => console::View::NumbersAndCount,
        MatchView::Count => console::View::Count,
        MatchView::Quiet => console::View::Quiet,
    }
}

/// What the packets of an input are.
fn form(pcap: bool, link: Option<u32>) -> PacketForm
    ensures { result ≡ form_of pcap link }
{
    if pcap {
        PacketForm::Capture(link)
    } else {
        PacketForm::Digits(link.unwrap_or(ETHERNET))
    }
}

/// The input of `check`, as the engine names it.
fn read_as(input: command_line::CheckInput) -> console::CheckInput
    ensures { result ≡ input_as input }
{
    match input {
        command_line::CheckInput::Assembler => console::CheckInput::Assembler,
        command_line::CheckInput::Insns => console::CheckInput::Listing,
        command_line::CheckInput::Decimal => console::CheckInput::Decimal,
    }
}

/// Prints the program of an expression, or the expression as it was read.
fn perform_compile<W: Write>(
    alloc: Global,
    words: &[&str],
    listing: command_line::Listing,
    choices: Choices,
    writer: &mut Sink<W>,
) -> Result<u8, EngineFault>
    requires good { writer.old.failed ≡ false }
    ensures shown { IfOk result (λ status. (text : List ℕ) × Writes W.contents writer.old writer.new text × ShowsListing listing (joined words.now) choices status text) }
    ensures fault { IfErr result IsPrintFault }
    ensures good { OnOk result (writer.new.failed ≡ false) }
    ensures cause { IfErr result (StopsWriting writer.new) }
{
    let listing = match listing {
        command_line::Listing::Decimal => compile_engine::Listing::Decimal,
        command_line::Listing::Assembler => compile_engine::Listing::Assembler,
        command_line::Listing::Array => compile_engine::Listing::Array,
        command_line::Listing::Control => compile_engine::Listing::Graph,
        command_line::Listing::Tree => return run_tree(alloc, words, writer),
    };
    let link = choices.link.unwrap_or(ETHERNET);
    run_compile(alloc, words, link, choices.accept, listing, writer)
}

/// Prints what a capture holds, each line written at once or all at the end.
fn perform_dump<R: Read, W: Write>(
    alloc: Global,
    stream: bool,
    link: Option<u32>,
    stamped: bool,
    reader: &mut Source<R>,
    writer: &mut Sink<W>,
) -> Result<u8, EngineFault>
    requires fresh { IsFresh reader.old (reads_at stream) }
    requires good { writer.old.failed ≡ false }
    ensures shown { IfOk result (λ status. (text : List ℕ) × Writes W.contents writer.old writer.new text × ShowsDumped stream link stamped R.remaining reader.old reader.new status text) }
    ensures cause { IfErr result (EndsEarly reader.new writer.new) }
    ensures silent { IsErrOf result EngineFault.ReadFailed → stream ≡ false → writer.new ≡ writer.old }
{
    if stream {
        run_dump_stream(alloc, link, stamped, reader, writer)
    } else {
        run_dump(alloc, link, stamped, reader, writer)
    }
}

/// Runs a filter on packets, each outcome written at once or all at the end.
fn perform_match<R: Read, W: Write>(
    alloc: Global,
    code: &str,
    accept: u32,
    form: PacketForm,
    stream: bool,
    reader: &mut Source<R>,
    writer: &mut Sink<W>,
    links: &mut LinkTypes,
    complaint: &mut String,
) -> Result<u8, EngineFault>
    requires fresh { IsFresh reader.old (reads_at stream) }
    requires good { writer.old.failed ≡ false }
    ensures shown { IfOk result (λ status. (text : List ℕ) × (lines : List ℕ) × Writes W.contents writer.old writer.new text
        × (string_bytes complaint.new ≡ string_bytes complaint.old ++ lines)
        × ShowsMatch code.now accept form stream R.remaining reader.old reader.new status text lines) }
    ensures cause { IfErr result (EndsEarly reader.new writer.new) }
    ensures silent { IsErrOf result EngineFault.ReadFailed → stream ≡ false → writer.new ≡ writer.old }
{
    if stream {
        run_stream(
            alloc,
            code.as_bytes(),
            accept,
            form,
            links,
            reader,
            writer,
            complaint,
        )
    } else {
        run_match(
            alloc,
            code.as_bytes(),
            accept,
            form,
            links,
            reader,
            writer,
            complaint,
        )
    }
}
