//! The engines over a reader and a writer: each run begins with a new source and a new sink.

ghost use Rattle.std.specs.Prelude.{IfOk};
ghost use Rattle.script_input.specs.Inputs.{AllFresh};

use console::{
    CheckInput, ETHERNET, LinkTypes, PacketForm, STREAM_READS, View, run_check, run_dump,
    run_dump_stream, run_match, run_stream, run_view,
};
use core_threads::Free;
use draw_engine::run_draw;
use engine_io::{EngineFault, INPUT_READS, Sink, Source};
use graph_engine::{run_explain, run_graph};
use run_engine::RunFailure;
use std::alloc::{AllocError, Global};
use std::io::{Cursor, Read, Write};
use std::sync::Wait;
use std::thread::Threads;
use std::time::Clock;
use world_core::Channel;

/// The verdict on packets that an expression accepts.
const ACCEPT: u32 = 262_144;

/// A command that reads standard input alone. The flags are `--pcap` and `--asm`.
#[derive(Clone, Copy)]
pub enum Command<'a> {
    Match(&'a str, bool),
    Stream(&'a str, bool),
    View(&'a str, bool, View),
    Explain(&'a str),
    Check(bool),
    /// `check` of another text: assembler text is printed where the flag is set.
    Read(CheckInput, bool),
    Graph(CheckInput),
    Dump,
    /// `dump --time`.
    Stamped,
    /// `dump --stream`, with time stamps or without.
    DumpStream(bool),
    Draw,
}

/// The status of a command.
pub fn run<R: Read, W: Write>(
    alloc: Global,
    command: Command<'_>,
    reader: &mut R,
    writer: &mut W,
) -> Result<u8, EngineFault> {
    let mut sink = Sink::new(writer);
    let mut complaint = String::new(alloc);
    if let Command::Stream(code, pcap) = command {
        let mut source = Source::new(reader, STREAM_READS);
        return run_stream(
            alloc,
            code.as_bytes(),
            ACCEPT,
            form(pcap),
            &mut LinkTypes::None,
            &mut source,
            &mut sink,
            &mut complaint,
        );
    }
    if let Command::View(code, pcap, view) = command {
        let mut source = Source::new(reader, STREAM_READS);
        return run_view(
            alloc,
            code.as_bytes(),
            ACCEPT,
            form(pcap),
            view,
            &mut LinkTypes::None,
            &mut source,
            &mut sink,
            &mut complaint,
        );
    }
    if let Command::DumpStream(stamped) = command {
        let mut source = Source::new(reader, STREAM_READS);
        return run_dump_stream(alloc, None, stamped, &mut source, &mut sink);
    }
    let mut source = Source::new(reader, INPUT_READS);
    match command {
        Command::Match(code, pcap) | Command::Stream(code, pcap) | Command::View(code, pcap, _) => {
            let links = &mut LinkTypes::None;
            run_match(
                alloc,
                code.as_bytes(),
                ACCEPT,
                form(pcap),
                links,
                &mut source,
                &mut sink,
                &mut complaint,
            )
        }
        Command::Explain(code) => run_explain(
            alloc,
            code.as_bytes(),
            ACCEPT,
            form(false),
            &mut source,
            &mut sink,
            &mut complaint,
        ),
        Command::Check(asm) => {
            run_check(alloc, CheckInput::Assembler, asm, &mut source, &mut sink)
        }
        Command::Read(input, asm) => run_check(alloc, input, asm, &mut source, &mut sink),
        Command::Graph(input) => run_graph(alloc, input, &mut source, &mut sink),
        Command::Dump => run_dump(alloc, None, false, &mut source, &mut sink),
        Command::Stamped => run_dump(alloc, None, true, &mut source, &mut sink),
        Command::DumpStream(stamped) => run_dump(alloc, None, stamped, &mut source, &mut sink),
        Command::Draw => run_draw(alloc, false, &mut source, &mut sink),
    }
}

/// What the packets are.
fn form(pcap: bool) -> PacketForm {
    if pcap {
        PacketForm::Capture(None)
    } else {
        PacketForm::Digits(ETHERNET)
    }
}

/// Sources of these files, of which nothing was read.
fn sources<F: Read + Drop>(alloc: Global, files: Vec<F>) -> Result<Vec<Source<F>>, AllocError>
    ensures { IfOk result (λ sources. AllFresh sources.items) }
{
    let mut sources = Vec::new(alloc);
    for file in files {
        sources.push(Source::new(file, INPUT_READS))?;
    }
    Ok(sources)
}

pub fn run_sim<C: Channel, R: Read, F: Read + Drop, W: Write>(
    alloc: Global,
    files: Vec<F>,
    reader: &mut R,
    writer: &mut W,
) -> Result<u8, EngineFault> {
    let mut files = sources(alloc, files)?;
    let mut source = Source::new(reader, INPUT_READS);
    let mut sink = Sink::new(writer);
    sim_engine::run_sim_over::<C, &mut R, F, &mut W>(alloc, &mut files, &mut source, &mut sink)
}

pub fn run_script<T: Threads + Wait + Clock + Sync, R: Read, W: Write>(
    threads: &T,
    alloc: Global,
    reader: &mut R,
    writer: &mut W,
) -> Result<u8, RunFailure> {
    let files: Vec<Cursor<&[u8]>> = Vec::new(alloc);
    let mut files = sources(alloc, files)?;
    let mut source = Source::new(reader, INPUT_READS);
    let mut sink = Sink::new(writer);
    run_engine::run_script(threads, alloc, &Free, &mut files, &mut source, &mut sink)
}
