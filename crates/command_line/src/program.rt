//! The commands of the program, with their help.

ghost use Rattle.std.specs.Prelude.{◌≡◌, List, [], ◌∷◌, IfOk, codes, false};
ghost use Rattle.clap.specs.Words.{Rule, Text, app_of, rule_of, with_rule, with_subcommand};
ghost use Rattle.command_line.specs.Program.{IsCommand, code, code_flag, command, file, files, flag, inputs, link, lone_flag, program, snap, words};

use crate::texts::{
    ABOUT, ASM_HELP, C_HELP, CAPTURE_HELP, CHECK_ABOUT, CHECK_DETAILS, CHECK_EXAMPLE,
    CODE_FILE_HELP, CODE_HELP, COMPILE_ABOUT, COMPILE_DETAILS, COMPILE_EXAMPLE, COMPILED_LINK_HELP,
    COUNT_HELP, DDD_HELP, DRAW_ABOUT, DRAW_DETAILS, DRAW_EXAMPLE, DUMP_ABOUT, DUMP_DETAILS,
    DUMP_EXAMPLE, DUMP_STREAM_HELP, EXIT_STATUS, EXPLAIN_HELP, FILES_HELP, FILTER_HELP, GRAPH_HELP,
    HEX_HELP, INSNS_HELP, KEEP_ABOUT, KEEP_DETAILS, KEEP_EXAMPLE, KEPT_LINK_HELP, LINK_HELP,
    MATCH_ABOUT, MATCH_DETAILS, MATCH_EXAMPLE, NO_FILENAME_HELP, NOT_HELP, NUMBER_HELP,
    PACKETS_HELP, PCAP_HELP, QUIET_HELP, RUN_ABOUT, RUN_DETAILS, RUN_EXAMPLE, SHOWN_LINK_HELP,
    SIM_ABOUT, SIM_DETAILS, SIM_EXAMPLE, SNAP_HELP, STREAM_HELP, TEXT_HELP, TIME_HELP, TRACE_HELP,
    TREE_HELP, VERSION, WORDS_HELP,
};
use clap::{Arg, ArgAction, Command, value_parser};
use std::alloc::{AllocError, Global};

/// The command line of the program.
pub(crate) fn command<'a>(alloc: Global) -> Result<Command<'a>, AllocError>
    ensures { IfOk result (λ c. app_of c ≡ program) }
{
    let command = Command::new(alloc, "mkdemux")
        .version(VERSION)
        .about(ABOUT)
        .after_help(EXIT_STATUS)
        .subcommand_required(true);
    let command = with_command(command, matching(alloc))?;
    let command = with_command(command, checking(alloc))?;
    let command = with_command(command, dumping(alloc))?;
    let command = with_command(command, keeping(alloc))?;
    let command = with_command(command, simulating(alloc))?;
    let command = with_command(command, running(alloc))?;
    let command = with_command(command, drawing(alloc))?;
    with_command(command, compiling(alloc))
}

/// A command line with one more command, where that could be made.
fn with_command<'a>(
    line: Command<'a>,
    made: Result<Command<'a>, AllocError>,
) -> Result<Command<'a>, AllocError>
    ensures { (name : Text) (rules : List Rule) → IfOk made.entry (IsCommand name rules)
        → IfOk result (λ c. app_of c ≡ with_subcommand (app_of line.entry) (command name rules)) }
{
    match made {
        Ok(command) => line.subcommand(command),
        Err(refused) => {
            drop(line);
            Err(refused)
        }
    }
}

/// `match [--code] CODE [--stream] [--number] [--count] [--quiet] [--pcap | --hex] [--link LINK] [--snap N] [FILE]...`,
/// `match [--code] CODE --explain [--pcap | --hex] [--link LINK] [--snap N] [FILE]...`
fn matching<'a>(alloc: Global) -> Result<Command<'a>, AllocError>
    ensures { IfOk result (IsCommand (codes "match") (code ∷ code_flag ∷ flag (codes "pcap") ∷ lone_flag (codes "hex") ∷ flag (codes "stream") ∷ flag (codes "number")
        ∷ flag (codes "count") ∷ lone_flag (codes "quiet") ∷ lone_flag (codes "explain") ∷ flag (codes "no-filename") ∷ link ∷ snap ∷ inputs ∷ [])) }
{
    let command = described(alloc, "match", MATCH_ABOUT, MATCH_DETAILS, MATCH_EXAMPLE)
        .arg(code(alloc))?
        .arg(code_flag(alloc))?
        .arg(flag(alloc, "pcap", PCAP_HELP))?;
    let command = with_argument(command, lone_flag(alloc, "hex", HEX_HELP, "pcap"))?
        .arg(flag(alloc, "stream", STREAM_HELP))?
        .arg(flag(alloc, "number", NUMBER_HELP))?
        .arg(flag(alloc, "count", COUNT_HELP))?;
    let command = with_argument(command, quiet(alloc))?;
    with_argument(command, explain(alloc))?
        .arg(flag(alloc, "no-filename", NO_FILENAME_HELP))?
        .arg(link(alloc, LINK_HELP))?
        .arg(snap(alloc))?
        .arg(inputs(alloc))
}

/// `check [--insns | --ddd] [--asm | --graph] [FILE]`
fn checking<'a>(alloc: Global) -> Result<Command<'a>, AllocError>
    ensures { IfOk result (IsCommand (codes "check") (flag (codes "asm") ∷ lone_flag (codes "graph") ∷ flag (codes "insns") ∷ lone_flag (codes "ddd") ∷ file ∷ [])) }
{
    let command = described(alloc, "check", CHECK_ABOUT, CHECK_DETAILS, CHECK_EXAMPLE).arg(flag(
        alloc, "asm", ASM_HELP,
    ))?;
    let command = with_argument(command, lone_flag(alloc, "graph", GRAPH_HELP, "asm"))?.arg(flag(
        alloc, "insns", INSNS_HELP,
    ))?;
    let command = with_argument(command, lone_flag(alloc, "ddd", DDD_HELP, "insns"))?;
    command.arg(file(alloc, FILTER_HELP))
}

/// A command with the texts of its help, and no argument yet.
fn described<'a>(
    alloc: Global,
    name: &'a str,
    about: &'a str,
    details: &'a str,
    example: &'a str,
) -> Command<'a>
    ensures { IsCommand name.entry.now [] result }
{
    Command::new(alloc, name)
        .about(about)
        .long_about(details)
        .after_help(example)
}

/// A command with one more argument, where that could be made.
fn with_argument<'a>(
    command: Command<'a>,
    made: Result<Arg<'a>, AllocError>,
) -> Result<Command<'a>, AllocError>
    ensures { (rule : Rule) → IfOk made.entry (λ a. (rule_of a ≡ rule) × (a.global ≡ false))
        → IfOk result (λ c. app_of c ≡ with_rule (app_of command.entry) rule) }
{
    match made {
        Ok(argument) => command.arg(argument),
        Err(refused) => {
            drop(command);
            Err(refused)
        }
    }
}

/// `dump [--stream] [--time] [--link LINK] [FILE]`
fn dumping<'a>(alloc: Global) -> Result<Command<'a>, AllocError>
    ensures { IfOk result (IsCommand (codes "dump") (flag (codes "stream") ∷ flag (codes "time") ∷ link ∷ file ∷ [])) }
{
    described(alloc, "dump", DUMP_ABOUT, DUMP_DETAILS, DUMP_EXAMPLE)
        .arg(flag(alloc, "stream", DUMP_STREAM_HELP))?
        .arg(flag(alloc, "time", TIME_HELP))?
        .arg(link(alloc, SHOWN_LINK_HELP))?
        .arg(file(alloc, CAPTURE_HELP))
}

/// `keep [--code] CODE [--not] [--link LINK] [FILE]`
fn keeping<'a>(alloc: Global) -> Result<Command<'a>, AllocError>
    ensures { IfOk result (IsCommand (codes "keep") (code ∷ code_flag ∷ flag (codes "not") ∷ link ∷ file ∷ [])) }
{
    described(alloc, "keep", KEEP_ABOUT, KEEP_DETAILS, KEEP_EXAMPLE)
        .arg(code(alloc))?
        .arg(code_flag(alloc))?
        .arg(flag(alloc, "not", NOT_HELP))?
        .arg(link(alloc, KEPT_LINK_HELP))?
        .arg(file(alloc, CAPTURE_HELP))
}

/// `sim [FILE]...`
fn simulating<'a>(alloc: Global) -> Result<Command<'a>, AllocError>
    ensures { IfOk result (IsCommand (codes "sim") (files ∷ [])) }
{
    described(alloc, "sim", SIM_ABOUT, SIM_DETAILS, SIM_EXAMPLE).arg(files(alloc))
}

/// `run [FILE]...`
fn running<'a>(alloc: Global) -> Result<Command<'a>, AllocError>
    ensures { IfOk result (IsCommand (codes "run") (files ∷ [])) }
{
    described(alloc, "run", RUN_ABOUT, RUN_DETAILS, RUN_EXAMPLE).arg(files(alloc))
}

/// `draw [--text] [FILE]`
fn drawing<'a>(alloc: Global) -> Result<Command<'a>, AllocError>
    ensures { IfOk result (IsCommand (codes "draw") (flag (codes "text") ∷ file ∷ [])) }
{
    described(alloc, "draw", DRAW_ABOUT, DRAW_DETAILS, DRAW_EXAMPLE)
        .arg(flag(alloc, "text", TEXT_HELP))?
        .arg(file(alloc, TRACE_HELP))
}

/// `compile [--asm | --c | --graph | --tree] [--link LINK] [--snap N] EXPR...`
fn compiling<'a>(alloc: Global) -> Result<Command<'a>, AllocError>
    ensures { IfOk result (IsCommand (codes "compile") (flag (codes "asm") ∷ lone_flag (codes "c") ∷ lone_flag (codes "graph") ∷ lone_flag (codes "tree") ∷ link ∷ snap ∷ words ∷ [])) }
{
    let command = described(
        alloc,
        "compile",
        COMPILE_ABOUT,
        COMPILE_DETAILS,
        COMPILE_EXAMPLE,
    )
    .arg(flag(alloc, "asm", ASM_HELP))?;
    let command = with_argument(command, lone_flag(alloc, "c", C_HELP, "asm"))?;
    let command = with_argument(command, compiled_graph(alloc))?;
    let command = with_argument(command, compiled_tree(alloc))?;
    command
        .arg(link(alloc, COMPILED_LINK_HELP))?
        .arg(snap(alloc))?
        .arg(words(alloc))
}

/// `--graph` of a filter that is compiled.
fn compiled_graph<'a>(alloc: Global) -> Result<Arg<'a>, AllocError>
    ensures rule { IfOk result (λ a. rule_of a ≡ lone_flag (codes "graph")) }
    ensures local { IfOk result (λ a. a.global ≡ false) }
{
    let graph = lone_flag(alloc, "graph", GRAPH_HELP, "asm");
    also_lone(graph, "c")
}

/// `--tree` of an expression.
fn compiled_tree<'a>(alloc: Global) -> Result<Arg<'a>, AllocError>
    ensures rule { IfOk result (λ a. rule_of a ≡ lone_flag (codes "tree")) }
    ensures local { IfOk result (λ a. a.global ≡ false) }
{
    let tree = lone_flag(alloc, "tree", TREE_HELP, "asm");
    let tree = also_lone(tree, "c");
    also_lone(tree, "graph")
}

/// `CODE`, which must be given.
fn code<'a>(alloc: Global) -> Arg<'a>
    ensures rule { rule_of result ≡ code }
    ensures local { result.global ≡ false }
{
    Arg::new(alloc, "code")
        .value_name("CODE")
        .help(CODE_HELP)
        .required(true)
}

/// `--code`
fn code_flag<'a>(alloc: Global) -> Arg<'a>
    ensures rule { rule_of result ≡ code_flag }
    ensures local { result.global ≡ false }
{
    Arg::new(alloc, "code-file")
        .long("code")
        .help(CODE_FILE_HELP)
        .action(ArgAction::SetTrue)
}

/// `--quiet`
fn quiet<'a>(alloc: Global) -> Result<Arg<'a>, AllocError>
    ensures rule { IfOk result (λ a. rule_of a ≡ lone_flag (codes "quiet")) }
    ensures local { IfOk result (λ a. a.global ≡ false) }
{
    let quiet = lone_flag(alloc, "quiet", QUIET_HELP, "number");
    also_lone(quiet, "count")
}

/// `--explain`
fn explain<'a>(alloc: Global) -> Result<Arg<'a>, AllocError>
    ensures rule { IfOk result (λ a. rule_of a ≡ lone_flag (codes "explain")) }
    ensures local { IfOk result (λ a. a.global ≡ false) }
{
    let explain = lone_flag(alloc, "explain", EXPLAIN_HELP, "stream");
    let explain = also_lone(explain, "number");
    let explain = also_lone(explain, "count");
    also_lone(explain, "quiet")
}

/// A flag that is refused beside one more, where it could be made.
fn also_lone<'a>(made: Result<Arg<'a>, AllocError>, other: &'a str) -> Result<Arg<'a>, AllocError>
    ensures rule { (name : Text) → IfOk made.entry (λ a. rule_of a ≡ lone_flag name) → IfOk result (λ a. rule_of a ≡ lone_flag name) }
    ensures local { IfOk made.entry (λ a. a.global ≡ false) → IfOk result (λ a. a.global ≡ false) }
{
    match made {
        Ok(argument) => argument.conflicts_with(other),
        Err(refused) => Err(refused),
    }
}

/// A flag `--NAME`.
fn flag<'a>(alloc: Global, name: &'a str, help: &'a str) -> Arg<'a>
    ensures rule { rule_of result ≡ flag name.entry.now }
    ensures local { result.global ≡ false }
{
    Arg::new(alloc, name)
        .long(name)
        .help(help)
        .action(ArgAction::SetTrue)
}

/// A flag `--NAME` that is refused beside another.
fn lone_flag<'a>(
    alloc: Global,
    name: &'a str,
    help: &'a str,
    other: &'a str,
) -> Result<Arg<'a>, AllocError>
    ensures rule { IfOk result (λ a. rule_of a ≡ lone_flag name.entry.now) }
    ensures local { IfOk result (λ a. a.global ≡ false) }
{
    flag(alloc, name, help).conflicts_with(other)
}

/// `--link LINK`
fn link<'a>(alloc: Global, help: &'a str) -> Arg<'a>
    ensures rule { rule_of result ≡ link }
    ensures local { result.global ≡ false }
{
    Arg::new(alloc, "link")
        .long("link")
        .value_name("LINK")
        .help(help)
}

/// `--snap N`, at least 1.
fn snap<'a>(alloc: Global) -> Arg<'a>
    ensures rule { rule_of result ≡ snap }
    ensures local { result.global ≡ false }
{
    Arg::new(alloc, "snap")
        .long("snap")
        .value_name("N")
        .help(SNAP_HELP)
        .value_parser(value_parser!(u32).range(1..))
}

/// The words of an expression, at least one.
fn words<'a>(alloc: Global) -> Arg<'a>
    ensures rule { rule_of result ≡ words }
    ensures local { result.global ≡ false }
{
    Arg::new(alloc, "words")
        .value_name("EXPR")
        .help(WORDS_HELP)
        .required(true)
        .num_args(1..)
}

/// `FILE`, which is read in place of standard input.
fn file<'a>(alloc: Global, help: &'a str) -> Arg<'a>
    ensures rule { rule_of result ≡ file }
    ensures local { result.global ≡ false }
{
    Arg::new(alloc, "file").value_name("FILE").help(help)
}

/// The files that are the input, one after the other.
fn inputs<'a>(alloc: Global) -> Arg<'a>
    ensures rule { rule_of result ≡ inputs }
    ensures local { result.global ≡ false }
{
    Arg::new(alloc, "inputs")
        .value_name("FILE")
        .help(PACKETS_HELP)
        .num_args(0..)
}

/// The captures of a script.
fn files<'a>(alloc: Global) -> Arg<'a>
    ensures rule { rule_of result ≡ files }
    ensures local { result.global ≡ false }
{
    Arg::new(alloc, "files")
        .value_name("FILE")
        .help(FILES_HELP)
        .num_args(0..)
}
