//! `mkdemux`: runs classic BPF filters on packets, and scripts on cores that replicate a table of filters.
//!
//! The exit status is 0; 1 for a refused input, whose line is on standard output, or for `keep` on standard error; 2 for a fault of the command line; 3
//! for memory, a file that can't be opened, a device, or a run that halted; and 4 where `match --quiet` accepted no packet. Statuses 2 and 3 have a line on standard error, except
//! where nobody reads the output any more.
#![tactic(auto)]

ghost use Rattle.std.specs.Prelude.{◌≡◌, IfOk, false};
ghost use Rattle.engine_io.specs.Devices.{IsFresh};
ghost use Rattle.commands.specs.Commands.{reads_of};
ghost use Rattle.script_input.specs.Inputs.{AllFresh};

mod devices;
mod hints;
mod link_names;
mod progress;
mod usage;

use clap::Error;
use clap::error::ErrorKind;
use command_line::{CheckInput, Invocation, MatchView, Request, request_of};
use commands::{Choices, most_reads, perform};
use console::{LinkTypes, is_expression};
use core_loop::Cause;
use core_threads::{Free, Halt};
use devices::{FileInput, NOT_READ, Output};
use engine_io::{EngineFault, INPUT_READS, Sink, Source};
use hints::{code_hint, code_of, hint};
use link_names::link_number;
use progress::Progress;
use run_engine::RunFailure;
use std::fs::File;
use std::io::{self, IsTerminal, Read, Stdin};
use std::process::ExitCode;
use std::sync::Wait;
use std::thread::Threads;
use std::time::Clock;

/// The exit status for a refused input.
const REFUSED: u8 = 1;

/// The exit status for a fault of the command line.
const USAGE: u8 = 2;

/// The exit status for memory, a file that can't be opened, a device, or a run that halted.
const FAILED: u8 = 3;

/// The exit status of `match --quiet` where no packet was accepted.
const NOTHING: u8 = 4;

/// The verdict of an expression on the packets of which it is true, if no other is named: as tcpdump has it.
const ACCEPT: u32 = 262_144;

/// The number of Ethernet among link types.
const ETHERNET: u32 = 1;

/// The number by which Linux says that a descriptor isn't open: EBADF.
const NOT_OPEN: i32 = 9;

fn main(rt: HostRuntime) -> ExitCode {
    ExitCode::from(status(&rt, &rt))
}

/// Does what the command line says, and answers the exit status.
fn status<T: Threads + Wait + Clock + Sync>(rt: &HostRuntime, threads: &T) -> u8 {
    let words = match words(rt) {
        Ok(words) => words,
        Err(error) if error.kind() == io::ErrorKind::InvalidData => return not_utf8(rt),
        Err(_) => return failed(rt, "out of memory"),
    };
    match request_of(rt.alloc(), without_flag(words.as_slice())) {
        Ok(Some(invocation)) => answer(rt, threads, &invocation),
        Ok(None) => USAGE,
        Err(error) => not_a_request(rt, &error),
    }
}

/// The words of the command line.
fn words(rt: &HostRuntime) -> io::Result<Vec<String>> {
    Ok(std::env::args(rt)?.collect(rt.alloc())?)
}

/// The words without the flag of `help --help`, which is `help`.
fn without_flag(words: &[String]) -> &[String] {
    if let [_, command, flag] = words {
        if command.as_str() == "help" && matches!(flag.as_str(), "--help" | "-h") {
            return &words[..2];
        }
    }
    words
}

/// Performs a request on each of its inputs. Where CODE is the name of a file, its text is the filter.
fn answer<T: Threads + Wait + Clock + Sync>(
    rt: &HostRuntime,
    threads: &T,
    invocation: &Invocation,
) -> u8 {
    let link = match invocation.link {
        None => None,
        Some(name) => match link_number(name) {
            Some(number) => Some(number),
            None => return bad_link(rt, name),
        },
    };
    let choices = Choices {
        link,
        accept: invocation.accept.unwrap_or(ACCEPT),
    };
    if !invocation.files.code {
        return answer_all(rt, threads, invocation, None, choices);
    }
    match code_in_file(rt, &invocation.request) {
        Ok(code) => answer_all(rt, threads, invocation, Some(code.as_str()), choices),
        Err(status) => status,
    }
}

/// Performs a request on its inputs, one after the other, and answers the worst status. Under `--quiet` it ends at the first that has
/// an accepted packet.
fn answer_all<T: Threads + Wait + Clock + Sync>(
    rt: &HostRuntime,
    threads: &T,
    invocation: &Invocation,
    code: Option<&str>,
    choices: Choices,
) -> u8 {
    let names = invocation.inputs.as_slice();
    if names.len() < 2 {
        let name = names.first().copied();
        return answer_input(rt, threads, invocation, code, choices, name, None);
    }
    let quiet = is_quiet(&invocation.request);
    let mut status = 0;
    for name in names {
        let label = if invocation.files.unnamed {
            None
        } else {
            Some(*name)
        };
        let one = answer_input(rt, threads, invocation, code, choices, Some(*name), label);
        if quiet && one == 0 {
            return 0;
        }
        status = worse(status, one);
    }
    status
}

/// The worse of two statuses: a failure, then a refused input, then that nothing was accepted.
fn worse(one: u8, other: u8) -> u8 {
    if rank(one) < rank(other) { other } else { one }
}

/// How bad a status is.
fn rank(status: u8) -> u8 {
    match status {
        0 => 0,
        NOTHING => 1,
        REFUSED => 2,
        _ => 3,
    }
}

/// Performs a request on the input of this name, or on standard input. A file that begins as a capture does is read as one. Where
/// standard input is the input, it is open: else the first capture of a script would take its place.
fn answer_input<T: Threads + Wait + Clock + Sync>(
    rt: &HostRuntime,
    threads: &T,
    invocation: &Invocation,
    code: Option<&str>,
    choices: Choices,
    name: Option<&str>,
    label: Option<&str>,
) -> u8 {
    let name = name.filter(|name| *name != "-");
    if name.is_none() && has_input(&invocation.request) && is_closed(rt.stdin()) {
        return failed(rt, NOT_READ);
    }
    let files = match open_files(rt, invocation.request.captures()) {
        Ok(files) => files,
        Err(fault) => return not_opened(rt, code_of(&invocation.request), fault),
    };
    let mut input = match open_input(rt, &invocation.request, name) {
        Ok(input) => input,
        Err(fault) => return not_opened(rt, code_of(&invocation.request), fault),
    };
    let capture = name.is_some()
        && !invocation.files.digits
        && {
            input.look();
            input.is_capture()
        };
    match adapted(&invocation.request, code, capture) {
        Some(request) => answer_with(rt, threads, &request, choices, name, label, input, files),
        None => answer_with(
            rt,
            threads,
            &invocation.request,
            choices,
            name,
            label,
            input,
            files,
        ),
    }
}

/// A request that takes CODE, with the text of a file in the place of that, if there is one, and on a capture, if the input is one. None
/// for other requests.
fn adapted<'a>(request: &Request<'a>, text: Option<&'a str>, capture: bool) -> Option<Request<'a>> {
    match request {
        Request::Match { code, pcap, stream } => Some(Request::Match {
            code: text.unwrap_or(*code),
            pcap: *pcap || capture,
            stream: *stream,
        }),
        Request::View { code, pcap, view } => Some(Request::View {
            code: text.unwrap_or(*code),
            pcap: *pcap || capture,
            view: *view,
        }),
        Request::Explain { code, pcap } => Some(Request::Explain {
            code: text.unwrap_or(*code),
            pcap: *pcap || capture,
        }),
        Request::Keep { code, inverted } => Some(Request::Keep {
            code: text.unwrap_or(*code),
            inverted: *inverted,
        }),
        _ => None,
    }
}

/// Whether a request reads an input.
fn has_input(request: &Request) -> bool {
    !matches!(request, Request::Compile { .. })
}

/// Whether a request is `match --quiet`.
fn is_quiet(request: &Request) -> bool {
    matches!(
        request,
        Request::View {
            view: MatchView::Quiet,
            ..
        }
    )
}

/// The text of the file that CODE names.
fn code_in_file(rt: &HostRuntime, request: &Request) -> Result<String, u8> {
    let name = code_of(request).unwrap_or("");
    let mut file = match open_file(rt, name) {
        Ok(file) => file,
        Err(fault) => return Err(not_opened(rt, None, fault)),
    };
    let mut text = String::new(rt.alloc());
    match file.read_to_string(&mut text) {
        Ok(_) => Ok(text),
        Err(_) => {
            let _ = eprintln!(rt; "mkdemux: {name:?} can't be read as text");
            Err(FAILED)
        }
    }
}

/// Says on standard error that a word names no link type.
fn bad_link(rt: &HostRuntime, name: &str) -> u8 {
    let _ = eprintln!(rt;
        "error: invalid value '{name}' for '--link <LINK>': a number below 4294967296, or NULL, EN10MB, RAW, LOOP, LINUX_SLL, IPV4, IPV6 or LINUX_SLL2\n\nFor more information, try '--help'."
    );
    USAGE
}

/// Whether standard input isn't open. It reads no byte.
fn is_closed(mut stdin: Stdin) -> bool {
    match stdin.read(&mut []) {
        Ok(_) => false,
        Err(error) => error.raw_os_error() == Some(NOT_OPEN),
    }
}

/// Opens the file of this name, or takes standard input.
fn open_input<'a>(
    rt: &HostRuntime,
    request: &Request,
    name: Option<&'a str>,
) -> Result<FileInput, OpenFault<'a>> {
    match name {
        Some(name) => Ok(FileInput::named(open_file(rt, name)?)),
        None => {
            invite(rt, request);
            Ok(FileInput::standard(rt.stdin()))
        }
    }
}

/// Performs a request on this input and these captures. The lines that it prints begin with a label, if there is one.
fn answer_with<T: Threads + Wait + Clock + Sync>(
    rt: &HostRuntime,
    threads: &T,
    request: &Request,
    choices: Choices,
    name: Option<&str>,
    label: Option<&str>,
    input: FileInput,
    mut files: Vec<Source<File>>,
) -> u8
    requires { AllFresh files.items }
{
    let reads = most_reads(request);
    let mut source = Source::new(input, reads);
    let mut sink = Sink::new(Output::new(rt.alloc(), rt.stdout(), label));
    let mut complaint = String::new(rt.alloc());
    let mut links = LinkTypes::None;
    match performed(
        rt,
        threads,
        request,
        choices,
        &mut files,
        &mut source,
        &mut sink,
        &mut complaint,
        &mut links,
    ) {
        Ok(status) => {
            if takes_decimal(request) {
                warn(rt, choices.link, links);
            }
            complain(rt, complaint.as_str());
            if !sink.inner().is_used() {
                remind(rt, request);
            }
            advise(rt, request, &source, source.left() == reads, status);
            if choices.link.is_none() && is_nothing(request, sink.inner()) {
                name_link(rt, request, links, status);
            }
            status
        }
        Err(RunFailure::Engine(EngineFault::ReadFailed)) => {
            not_read(rt, source.inner(), request, name, files.as_slice())
        }
        Err(RunFailure::Engine(EngineFault::WriteFailed)) if sink.inner().is_closed() => FAILED,
        Err(failure) => not_done(rt, failure),
    }
}

/// Says on standard error why a request could not be done, where its input could be read.
fn not_done(rt: &HostRuntime, failure: RunFailure) -> u8 {
    match failure {
        RunFailure::Engine(EngineFault::WriteFailed) => failed(rt, "the output can't be written"),
        RunFailure::Engine(EngineFault::ReadFailed) => failed(rt, "an input can't be read"),
        RunFailure::Engine(EngineFault::NoMemory) => failed(rt, "out of memory"),
        RunFailure::Spawn => failed(rt, "a thread can't be started"),
        RunFailure::Halted(core, why) => halted(rt, core, why),
    }
}

/// Performs a request. Says on standard error how far a run of threads is, where that is a terminal.
fn performed<T: Threads + Wait + Clock + Sync>(
    rt: &HostRuntime,
    threads: &T,
    request: &Request,
    choices: Choices,
    files: &mut [Source<File>],
    source: &mut Source<FileInput>,
    sink: &mut Sink<Output>,
    complaint: &mut String,
    links: &mut LinkTypes,
) -> Result<u8, RunFailure>
    requires fresh { IsFresh source.old (reads_of request.now) }
    requires fresh_files { AllFresh files.old }
    requires good { sink.old.failed ≡ false }
{
    if !matches!(request, Request::Run { .. }) || !rt.stderr().is_terminal() {
        return perform(
            threads,
            rt.alloc(),
            &Free,
            request,
            choices,
            files,
            source,
            sink,
            complaint,
            links,
        );
    }
    let progress = Progress::new(rt);
    let answer = perform(
        threads,
        rt.alloc(),
        &progress,
        request,
        choices,
        files,
        source,
        sink,
        complaint,
        links,
    );
    progress.end();
    answer
}

/// Says on standard error that the interfaces of a capture have several link types, where none was named.
fn warn(rt: &HostRuntime, link: Option<u32>, links: LinkTypes) {
    if link.is_none() && links == LinkTypes::Several {
        let _ = eprintln!(rt;
            "mkdemux: the interfaces of the capture have several link types: --link N takes the packets of link type N alone"
        );
    }
}

/// Says on standard error what is wrong, where that doesn't stand on standard output.
fn complain(rt: &HostRuntime, complaint: &str) {
    if !complaint.is_empty() {
        let _ = eprint!(rt; "{complaint}");
    }
}

/// Says on standard error what else is known of a CODE or an input that was refused, or of an input that looks like a capture.
fn advise(
    rt: &HostRuntime,
    request: &Request,
    source: &Source<FileInput>,
    is_unread: bool,
    status: u8,
) {
    if is_unread && status == REFUSED && advise_code(rt, request) {
        return;
    }
    if let Some(hint) = hint(request, source, is_unread, status == REFUSED) {
        let _ = eprintln!(rt; "mkdemux: {hint}");
    }
}

/// Says on standard error what a CODE that was refused looks like, and whether there was anything to say.
fn advise_code(rt: &HostRuntime, request: &Request) -> bool {
    let Some(code) = code_of(request) else {
        return false;
    };
    if let Some(hint) = code_hint(code) {
        let _ = eprintln!(rt; "mkdemux: {hint}");
        return true;
    }
    let is_file = File::open(rt, code).is_ok();
    if is_file {
        let _ = eprintln!(rt;
            "mkdemux: {code:?} is the name of a file: CODE comes before FILE, and --code reads it from a file"
        );
    }
    is_file
}

/// Whether the CODE of a request is decimal text, which is written for one link type.
fn takes_decimal(request: &Request) -> bool {
    match code_of(request) {
        Some(code) => !is_expression(code.as_bytes()),
        None => false,
    }
}

/// Whether what was written says that no packet was accepted: that none of a savefile was kept, or no line of an accepted packet.
fn is_nothing(request: &Request, output: &Output) -> bool {
    match request {
        Request::Keep { .. } => output.is_header(),
        _ => !output.has_accepted(),
    }
}

/// Says on standard error of which link type a capture is, where a CODE in decimal text accepted nothing of it that is most often
/// written for another.
fn name_link(rt: &HostRuntime, request: &Request, links: LinkTypes, status: u8) {
    let LinkTypes::One(link) = links else {
        return;
    };
    if link != ETHERNET && takes_decimal(request) && (status == 0 || status == NOTHING) {
        let _ = eprintln!(rt;
            "mkdemux: no packet was accepted: the capture is of link type {link}, and CODE may be written for another, as 1, Ethernet"
        );
    }
}

/// Says on standard error what a script needs that has printed nothing.
fn remind(rt: &HostRuntime, request: &Request) {
    if let Request::Sim { .. } = request {
        let _ = eprintln!(rt;
            "mkdemux: the script printed nothing: settle begins what it asks for, and show C prints core C's table"
        );
    }
}

/// Says on standard error which core halted, and why.
fn halted(rt: &HostRuntime, core: u16, why: Halt) -> u8 {
    let why = match why {
        Halt::Cause(cause) => cause_words(cause),
        Halt::Spent => "the next number or stamp would be too great",
        Halt::NoMemory | Halt::NoRoom => "out of memory",
        Halt::Limit => "it did nothing for too long",
        Halt::Early => "there is work left",
    };
    let _ = eprintln!(rt; "mkdemux: core {core} halted: {why}");
    FAILED
}

/// Why a core stopped for good.
fn cause_words(cause: Cause) -> &'static str {
    match cause {
        Cause::Line(_) => "a ring gave it a bad line",
        Cause::BadMessage => "a ring gave it bytes that are no message",
        Cause::Stranger => "it got a message that fits no phase of the protocol",
    }
}

/// Says on standard error what is awaited, where standard input is a terminal.
fn invite(rt: &HostRuntime, request: &Request) {
    let awaited = match request {
        Request::Match { pcap: true, .. }
        | Request::View { pcap: true, .. }
        | Request::Explain { pcap: true, .. }
        | Request::Keep { .. }
        | Request::Dump { .. } => "a capture",
        Request::Match { .. } | Request::View { .. } | Request::Explain { .. } => {
            "packets, a line of hexadecimal digits each"
        }
        Request::Check { input, .. } | Request::Graph { input } => match input {
            CheckInput::Assembler => "a filter in assembler text",
            CheckInput::Insns => "a filter as tcpdump -d or -dd prints it",
            CheckInput::Decimal => "a filter in decimal text",
        },
        Request::Draw { .. } => "what sim or run printed",
        Request::Sim { .. } | Request::Run { .. } => "a script",
        Request::Compile { .. } => return,
    };
    if rt.stdin().is_terminal() {
        let _ = eprintln!(rt; "mkdemux: reading {awaited} from the terminal, to its end (Ctrl-D)");
    }
}

/// Why files are not open.
enum OpenFault<'a> {
    /// The file of this name can't be opened.
    Refused(&'a str, io::Error),
    /// This is the name of a directory.
    Directory(&'a str),
    /// There was no memory.
    NoMemory,
}

/// The files of these names, opened in order up to one that can't be.
fn open_files<'a>(rt: &HostRuntime, names: &[&'a str]) -> Result<Vec<Source<File>>, OpenFault<'a>>
    ensures { IfOk result (λ files. AllFresh files.items) }
{
    let mut files = Vec::new(rt.alloc());
    for name in names {
        let file = open_file(rt, name)?;
        if files.push(Source::new(file, INPUT_READS)).is_err() {
            return Err(OpenFault::NoMemory);
        }
    }
    Ok(files)
}

/// The file of this name.
fn open_file<'a>(rt: &HostRuntime, name: &'a str) -> Result<File, OpenFault<'a>> {
    let file = match File::open(rt, name) {
        Ok(file) => file,
        Err(error) => return Err(open_fault(name, error)),
    };
    match file.metadata() {
        Ok(metadata) if metadata.is_dir() => Err(OpenFault::Directory(name)),
        _ => Ok(file),
    }
}

/// Why the file of this name is not open.
fn open_fault<'a>(name: &'a str, error: io::Error) -> OpenFault<'a> {
    match error.kind() {
        io::ErrorKind::OutOfMemory => OpenFault::NoMemory,
        _ => OpenFault::Refused(name, error),
    }
}

/// Prints help, the version or what is wrong with the command line.
fn not_a_request(rt: &HostRuntime, error: &Error) -> u8 {
    if let ErrorKind::OutOfMemory = error.kind() {
        return failed(rt, "out of memory");
    }
    let Ok(text) = usage::with_input(rt.alloc(), error) else {
        return failed(rt, "out of memory");
    };
    if error.use_stderr() {
        let _ = eprint!(rt; "{text}");
        return USAGE;
    }
    match print!(rt; "{text}") {
        Ok(()) => 0,
        Err(error) if error.kind() == io::ErrorKind::BrokenPipe => FAILED,
        Err(_) => failed(rt, "the output can't be written"),
    }
}

/// Says on standard error that the command line is no text.
fn not_utf8(rt: &HostRuntime) -> u8 {
    let _ = eprintln!(rt;
        "error: an argument is not UTF-8\n\nUsage: mkdemux <COMMAND>\n\nFor more information, try '--help'."
    );
    USAGE
}

/// Says on standard error which input could not be read: one of these captures, the file that is the input, or standard input.
fn not_read(
    rt: &HostRuntime,
    input: &FileInput,
    request: &Request,
    name: Option<&str>,
    files: &[Source<File>],
) -> u8 {
    for (name, file) in request.captures().iter().zip(files.iter()) {
        if file.has_failed() {
            let _ = eprintln!(rt; "mkdemux: {name:?} can't be read");
            return FAILED;
        }
    }
    if let Some(name) = name {
        let _ = eprintln!(rt; "mkdemux: {name:?} can't be read");
        return FAILED;
    }
    failed(rt, input.complaint())
}

/// Says on standard error why the program ended early.
fn failed(rt: &HostRuntime, why: &str) -> u8 {
    let _ = eprintln!(rt; "mkdemux: {why}");
    FAILED
}

/// Says on standard error which file can't be opened, and why. After a CODE it may be a word of an expression without quotes.
fn not_opened(rt: &HostRuntime, code: Option<&str>, fault: OpenFault) -> u8 {
    let _ = match fault {
        OpenFault::Refused(name, error) => {
            let _ = eprintln!(rt; "mkdemux: {name:?} can't be opened: {error}");
            match code {
                Some(code) if is_expression(code.as_bytes()) => eprintln!(rt;
                    "mkdemux: put the expression in quotes"
                ),
                _ => Ok(()),
            }
        }
        OpenFault::Directory(name) => eprintln!(rt; "mkdemux: {name:?} is a directory"),
        OpenFault::NoMemory => eprintln!(rt; "mkdemux: out of memory"),
    };
    FAILED
}
