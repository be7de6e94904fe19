//! A request, and the words that make it.

ghost use Rattle.std.specs.Prelude.{◌≡◌, ◌∷◌, [], Bool, Some, codes, false, true, map, IfErr, IfOk};
ghost use Rattle.clap.specs.Words.{Text, found_of, kind_of, rows_of, subcommand_of, subcommand_rows_of, takes};
ghost use Rattle.clap.specs.declared.error.kind.ErrorKind.{ErrorKind};
ghost use Rattle.command_line.specs.Program.{program};
ghost use Rattle.command_line.specs.declared.request.MatchView.{MatchView as Shown};
ghost use Rattle.command_line.specs.Requests.{AreFileWords, AreInputs, AreTexts, Asks, AsksBy, AsksWith, BeginsWithDigit, IsCheckInput, IsExplain, FromGivenCode, FromStandardInput, IsKeep, IsListing, IsMatch, IsNumber, IsView, IsViewed, Spells};
ghost use Rattle.command_line.specs.Requests.{captures_of, check_words, draw_words, explain_words, keep_words, match_words, view_words};

use crate::program::command;
use clap::{ArgMatches, Error};
use std::alloc::{AllocError, Global};
use std::convert::AsStr;

/// What `match` shows in place of a line for each packet.
#[derive(Clone, Copy, PartialEq, Eq, Debug)]
pub enum MatchView {
    /// A line for each packet, with its number.
    Numbers,
    /// How many packets were accepted, of how many.
    Count,
    /// A line for each packet, with its number, and then how many were accepted.
    NumbersAndCount,
    /// Nothing: the status answers.
    Quiet,
}

/// How a filter is printed that was compiled.
#[derive(Clone, Copy, PartialEq, Eq, Debug)]
pub enum Listing {
    /// As the decimal text that `match` takes.
    Decimal,
    /// As assembler text.
    Assembler,
    /// As an array of C.
    Array,
    /// As its control flow, text for Graphviz.
    Control,
    /// Not at all: the expression is printed, as it was read.
    Tree,
}

/// What `check` reads.
#[derive(Clone, Copy, PartialEq, Eq, Debug)]
pub enum CheckInput {
    /// Assembler text.
    Assembler,
    /// What `tcpdump -d` or `tcpdump -dd` prints.
    Insns,
    /// Decimal text, as `tcpdump -ddd` prints it.
    Decimal,
}

/// What the program is asked for.
#[derive(Drop)]
pub enum Request<'a> {
    /// To run a filter on packets.
    Match {
        /// The filter, a decimal text or an expression; or the name of the file that has it.
        code: &'a str,
        /// Whether the packets are a capture's; else they are lines of digits.
        pcap: bool,
        /// Whether each outcome is written while the input is read.
        stream: bool,
    },
    /// To run a filter on packets, and to show what came of it in another way.
    View {
        /// The filter, a decimal text or an expression; or the name of the file that has it.
        code: &'a str,
        /// Whether the packets are a capture's; else they are lines of digits.
        pcap: bool,
        /// What is shown.
        view: MatchView,
    },
    /// To run a filter on packets, and to show each instruction that was taken.
    Explain {
        /// The filter, a decimal text or an expression; or the name of the file that has it.
        code: &'a str,
        /// Whether the packets are a capture's; else they are lines of digits.
        pcap: bool,
    },
    /// To copy a capture, but of its packets only those that a filter accepts.
    Keep {
        /// The filter, a decimal text or an expression; or the name of the file that has it.
        code: &'a str,
        /// Whether the packets are copied that the filter doesn't accept, in place of these.
        inverted: bool,
    },
    /// To read a filter, and to print it in another form.
    Check {
        /// What is read.
        input: CheckInput,
        /// Whether it is printed as assembler text; else in the form that goes with what is read.
        asm: bool,
    },
    /// To draw the control flow of a filter.
    Graph {
        /// What is read.
        input: CheckInput,
    },
    /// To print a capture.
    Dump {
        /// Whether each line is written while the input is read.
        stream: bool,
        /// Whether the time stamps of packets are printed.
        stamped: bool,
    },
    /// To run a script on the model of the cores, with the captures of these names.
    Sim {
        files: Vec<&'a str>,
    },
    /// To run a script on cores that are threads, with the captures of these names.
    Run {
        files: Vec<&'a str>,
    },
    /// To draw a trace.
    Draw {
        /// Whether it is drawn as text; else as an SVG file.
        text: bool,
    },
    /// To compile a filter expression.
    Compile {
        /// The words of the expression.
        words: Vec<&'a str>,
        /// How the filter is printed.
        listing: Listing,
    },
}

impl<'a> Request<'a> {
    /// The names of the captures that are to be opened, in order.
    pub fn captures(&self) -> &[&'a str]
        ensures { map (λ f. f.now) result.now ≡ captures_of self.now }
    {
        match self {
            Request::Sim { files } | Request::Run { files } => files.as_slice(),
            _ => &[],
        }
    }
}

/// A request, and where its input is.
#[derive(Drop)]
pub struct Invocation<'a> {
    /// What the program is asked for.
    pub request: Request<'a>,
    /// The names of the files that are the input, one after the other, `-` for standard input; none: standard input alone.
    pub inputs: Vec<&'a str>,
    /// The link type whose packets alone are run, shown or kept, as it is named, if one is.
    pub link: Option<&'a str>,
    /// How many bytes of a packet are kept that an expression accepts, if that is said.
    pub accept: Option<u32>,
    /// How the words that name files are meant.
    pub files: FileWords,
}

/// How the words that name files are meant.
#[derive(Clone, Copy, PartialEq, Eq, Debug)]
pub struct FileWords {
    /// CODE is the name of a file that has it.
    pub code: bool,
    /// An input that begins as a capture does is lines of digits all the same.
    pub digits: bool,
    /// Lines don't begin with the name of their file.
    pub unnamed: bool,
}

/// What these words ask for, of which the first is the program's name; none where they name no command of the program. An error has
/// the text that is to be shown: help, the version, or what is wrong with the words.
pub fn request_of<'a, S: AsStr>(
    alloc: Global,
    words: &'a [S],
) -> Result<Option<Invocation<'a>>, Error>
    ensures asked { IfOk result (AsksBy (subcommand_of program (map S.text words.entry.now))) }
    ensures taken { IfErr result (λ e. takes program (map S.text words.entry.now) ≡ true → kind_of e ≡ ErrorKind.OutOfMemory) }
    ensures matched { (code : Text) (pcap stream : Bool) → Spells (map S.text words.entry.now) (match_words code pcap stream) → BeginsWithDigit code
        → IfOk result (FromGivenCode (IsMatch code pcap stream)) }
    ensures viewed { (code : Text) (pcap : Bool) (view : Shown) → Spells (map S.text words.entry.now) (view_words code pcap view) → BeginsWithDigit code
        → IfOk result (FromGivenCode (IsViewed code pcap view)) }
    ensures explained { (code : Text) → Spells (map S.text words.entry.now) (explain_words code) → BeginsWithDigit code → IfOk result (FromGivenCode (IsExplain code)) }
    ensures kept { (code : Text) (inverted : Bool) → Spells (map S.text words.entry.now) (keep_words code inverted) → BeginsWithDigit code
        → IfOk result (FromGivenCode (IsKeep code inverted)) }
    ensures checked { (asm : Bool) → Spells (map S.text words.entry.now) (check_words asm) → IfOk result (FromStandardInput (λ r. r ≡ Some (Request.Check CheckInput.Assembler asm))) }
    ensures graphed { Spells (map S.text words.entry.now) (codes "check" ∷ codes "--graph" ∷ []) → IfOk result (FromStandardInput (λ r. r ≡ Some (Request.Graph CheckInput.Assembler))) }
    ensures dumped { Spells (map S.text words.entry.now) (codes "dump" ∷ []) → IfOk result (FromStandardInput (λ r. r ≡ Some (Request.Dump false false))) }
    ensures drawn { (text : Bool) → Spells (map S.text words.entry.now) (draw_words text) → IfOk result (FromStandardInput (λ r. r ≡ Some (Request.Draw text))) }
{
    parsed(alloc, words)
}

/// What these words ask for.
fn parsed<'a, S: AsStr>(alloc: Global, words: &'a [S]) -> Result<Option<Invocation<'a>>, Error>
    ensures asked { IfOk result (AsksBy (subcommand_of program (map S.text words.entry.now))) }
    ensures taken { IfErr result (λ e. takes program (map S.text words.entry.now) ≡ true → kind_of e ≡ ErrorKind.OutOfMemory) }
{
    match command(alloc)?.try_get_matches_from(words) {
        Ok(matches) => {
            let chosen = chosen(alloc, &matches);
            drop(matches);
            Ok(chosen?)
        }
        Err(error) => Err(error),
    }
}

/// What the command among these words asks for.
fn chosen<'a>(alloc: Global, matches: &ArgMatches<'a>) -> Result<Option<Invocation<'a>>, AllocError>
    ensures { IfOk result (AsksBy (subcommand_rows_of matches.now)) }
{
    match matches.subcommand() {
        Some((name, found)) => invoked(alloc, name, found),
        None => Ok(None),
    }
}

/// What a command of this name and these arguments asks for, and where its input is.
fn invoked<'a>(
    alloc: Global,
    name: &str,
    found: &ArgMatches<'a>,
) -> Result<Option<Invocation<'a>>, AllocError>
    ensures { IfOk result (AsksWith name.now (rows_of (found_of found.now))) }
{
    match asked(alloc, name, found)? {
        Some(request) => Ok(Some(Invocation {
            request,
            inputs: inputs(alloc, found)?,
            link: found.get_str("link"),
            accept: accept_of(found),
            files: file_words(found),
        })),
        None => Ok(None),
    }
}

/// The files that are the input: the one of a command that takes one, or those of `match`.
fn inputs<'a>(alloc: Global, found: &ArgMatches<'a>) -> Result<Vec<&'a str>, AllocError>
    ensures { IfOk result (λ inputs. AreInputs (rows_of (found_of found.now)) inputs.items) }
{
    match found.get_str("file") {
        Some(name) => Vec::from_slice(alloc, &[name]),
        None => texts(alloc, found, "inputs"),
    }
}

/// The texts of an argument, in order.
fn texts<'a>(alloc: Global, found: &ArgMatches<'a>, name: &str) -> Result<Vec<&'a str>, AllocError>
    ensures { IfOk result (λ texts. AreTexts name.now (rows_of (found_of found.now)) texts.items) }
{
    Vec::from_slice(alloc, found.get_strs(name).unwrap_or(&[]))
}

/// How many bytes are kept of a packet that an expression accepts, if that is said.
fn accept_of(found: &ArgMatches) -> Option<u32>
    ensures { IsNumber (codes "snap") (rows_of (found_of found.now)) result }
{
    found.get_one("snap")
}

/// How the words that name files are meant, by their flags.
fn file_words(found: &ArgMatches) -> FileWords
    ensures { AreFileWords (rows_of (found_of found.now)) result }
{
    FileWords {
        code: found.get_flag("code-file"),
        digits: found.get_flag("hex"),
        unnamed: found.get_flag("no-filename"),
    }
}

/// What a command of this name and these arguments asks for.
fn asked<'a>(
    alloc: Global,
    name: &str,
    found: &ArgMatches<'a>,
) -> Result<Option<Request<'a>>, AllocError>
    ensures { IfOk result (Asks name.now (rows_of (found_of found.now))) }
{
    Ok(Some(match name {
        "match" => {
            let code = found.get_str("code").unwrap_or("");
            let pcap = found.get_flag("pcap");
            if found.get_flag("explain") {
                return Ok(Some(Request::Explain { code, pcap }));
            }
            match view_of(found) {
                Some(view) => Request::View { code, pcap, view },
                None => Request::Match {
                    code,
                    pcap,
                    stream: found.get_flag("stream"),
                },
            }
        }
        "keep" => Request::Keep {
            code: found.get_str("code").unwrap_or(""),
            inverted: found.get_flag("not"),
        },
        "check" => {
            let input = check_input(found);
            if found.get_flag("graph") {
                return Ok(Some(Request::Graph { input }));
            }
            Request::Check {
                input,
                asm: found.get_flag("asm"),
            }
        }
        "dump" => Request::Dump {
            stream: found.get_flag("stream"),
            stamped: found.get_flag("time"),
        },
        "sim" => Request::Sim {
            files: texts(alloc, found, "files")?,
        },
        "run" => Request::Run {
            files: texts(alloc, found, "files")?,
        },
        "draw" => Request::Draw {
            text: found.get_flag("text"),
        },
        "compile" => Request::Compile {
            words: texts(alloc, found, "words")?,
            listing: listing_of(found),
        },
        _ => return Ok(None),
    }))
}

/// What `match` shows, by its flags, if not a line for each packet.
fn view_of(found: &ArgMatches) -> Option<MatchView>
    ensures { IsView (rows_of (found_of found.now)) result }
{
    if found.get_flag("quiet") {
        Some(MatchView::Quiet)
    } else if found.get_flag("count") {
        if found.get_flag("number") {
            Some(MatchView::NumbersAndCount)
        } else {
            Some(MatchView::Count)
        }
    } else if found.get_flag("number") {
        Some(MatchView::Numbers)
    } else {
        None
    }
}

/// How a compiled filter is printed, by its flags.
fn listing_of(found: &ArgMatches) -> Listing
    ensures { IsListing (rows_of (found_of found.now)) result }
{
    if found.get_flag("tree") {
        Listing::Tree
    } else if found.get_flag("graph") {
        Listing::Control
    } else if found.get_flag("c") {
        Listing::Array
    } else if found.get_flag("asm") {
        Listing::Assembler
    } else {
        Listing::Decimal
    }
}

/// What `check` reads, by its flags.
fn check_input(found: &ArgMatches) -> CheckInput
    ensures { IsCheckInput (rows_of (found_of found.now)) result }
{
    if found.get_flag("insns") {
        CheckInput::Insns
    } else if found.get_flag("ddd") {
        CheckInput::Decimal
    } else {
        CheckInput::Assembler
    }
}
