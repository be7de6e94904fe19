//! The commands, and the words that they take.

ghost use Rattle.std.specs.Prelude.{◌≡◌, ◌==◌, ◌||◌, map, option_map, Some, ◌≤◌, length, if◌then◌else◌};
ghost use Rattle.std.specs.List.{find};
ghost use Rattle.std.specs.Str.{bytes_eq};
ghost use Rattle.mk_script.specs.Rows as spec;
ghost use Rattle.mk_script.specs.RowViews.{row_of};
ghost use Rattle.line_words.specs.Words.{texts};

use crate::words::is_name;
use line_words::find;

/// What stands at a place of a line.
#[derive(Clone, Copy)]
pub(crate) enum Form {
    /// Any word: whether it is a number in range, or what it spells, is looked at later.
    Any,
    /// A name.
    Name,
    /// A packet: its name, or `C.I`.
    PacketName,
    /// `r`, `m` or `rm`.
    RightsWord,
    /// The word `short`.
    Short,
}

/// What a line asks for.
#[derive(Clone, Copy)]
pub(crate) enum Command {
    Limits,
    Cores,
    Asm,
    Ddd,
    Packet,
    Capture,
    Home,
    /// A request enters.
    Request(Request),
    Start,
    Submit,
    StartFor,
    Take,
    Rx,
    Replay,
    Settle,
    Show,
    Trace,
}

/// What a request asks for.
#[derive(Clone, Copy)]
pub(crate) enum Request {
    Create,
    Mint,
    Revoke,
    DropCap,
    Install,
    Remove,
    Replace,
}

/// A command, and the words after its own: what they are, and how many there are at least.
#[derive(Clone, Copy)]
pub(crate) struct Row {
    pub word: &'static [u8],
    pub command: Command,
    pub least: usize,
    pub forms: &'static [Form],
    /// Whether further words of any kind may follow.
    pub open_ended: bool,
    /// Whether the command is known in a script for threads.
    pub for_threads: bool,
}

/// What stands before the `.` of `C.I`, or the whole word.
pub(crate) fn before_dot(word: &[u8]) -> &[u8]
    ensures { result.now ≡ spec.before_dot word.now }
{
    &word[..find(b'.', word)]
}

fn is_rights(word: &[u8]) -> bool
    ensures { result ≡ spec.is_rights word.now }
{
    word == b"r".as_slice() || word == b"m".as_slice() || word == b"rm".as_slice()
}

/// Whether a word may stand at a place.
fn fits(form: Form, word: &[u8]) -> bool
    ensures { result ≡ spec.fits form word.now }
{
    match form {
        Form::Any => true,
        Form::Name => is_name(word),
        Form::PacketName => is_name(before_dot(word)),
        Form::RightsWord => is_rights(word),
        Form::Short => word == b"short".as_slice(),
    }
}

/// Whether each word fits its place.
fn all_fit(forms: &[Form], words: &[&[u8]]) -> bool
    ensures { result ≡ spec.all_fit forms.now (texts words.now) }
{
    let Some((form, forms)) = forms.split_first() else {
        return true;
    };
    let Some((word, words)) = words.split_first() else {
        return true;
    };
    fits(*form, word) && all_fit(forms, words)
}

/// Whether the words after a command's own are those that it takes.
fn is_shaped(row: &Row, words: &[&[u8]]) -> bool
    ensures { result ≡ spec.is_shaped (row_of row.now) (texts words.now) }
{
    let count = words.len();
    row.least <= count && (row.open_ended || count <= row.forms.len()) && all_fit(row.forms, words)
}

fn find_in<'r>(rows: &'r [Row], word: &[u8]) -> Option<&'r Row>
    ensures { option_map (λ r. row_of r.now) result ≡ find (λ r. bytes_eq r.word word.now) (map row_of rows.now) }
{
    for row in rows {
        if row.word == word {
            return Some(row);
        }
    }
    None
}

/// The command that words make by a table, where they make one.
fn command_in(rows: &[Row], threads: bool, words: &[&[u8]]) -> Option<Command>
    ensures { result ≡ spec.command_in (map row_of rows.now) threads (texts words.now) }
{
    let (word, words) = words.split_first()?;
    let row = find_in(rows, word)?;
    ((row.for_threads || !threads) && is_shaped(row, words)).then_some(row.command)
}

/// The commands.
static ROWS: [Row; 23] = [
    Row {
        word: b"limits",
        command: Command::Limits,
        least: 2,
        forms: &[Form::Any, Form::Any],
        open_ended: false,
        for_threads: true,
    },
    Row {
        word: b"cores",
        command: Command::Cores,
        least: 1,
        forms: &[Form::Any; 64],
        open_ended: false,
        for_threads: true,
    },
    Row {
        word: b"asm",
        command: Command::Asm,
        least: 1,
        forms: &[Form::Name],
        open_ended: false,
        for_threads: true,
    },
    Row {
        word: b"ddd",
        command: Command::Ddd,
        least: 2,
        forms: &[Form::Name],
        open_ended: true,
        for_threads: true,
    },
    Row {
        word: b"packet",
        command: Command::Packet,
        least: 2,
        forms: &[Form::Name, Form::Any, Form::Any],
        open_ended: false,
        for_threads: true,
    },
    Row {
        word: b"capture",
        command: Command::Capture,
        least: 2,
        forms: &[Form::Name, Form::Any],
        open_ended: false,
        for_threads: true,
    },
    Row {
        word: b"home",
        command: Command::Home,
        least: 2,
        forms: &[Form::Any, Form::Any],
        open_ended: false,
        for_threads: true,
    },
    Row {
        word: b"create",
        command: Command::Request(Request::Create),
        least: 2,
        forms: &[Form::Any, Form::Any],
        open_ended: false,
        for_threads: true,
    },
    Row {
        word: b"mint",
        command: Command::Request(Request::Mint),
        least: 4,
        forms: &[Form::Any, Form::Any, Form::Any, Form::RightsWord],
        open_ended: false,
        for_threads: true,
    },
    Row {
        word: b"revoke",
        command: Command::Request(Request::Revoke),
        least: 2,
        forms: &[Form::Any, Form::Any],
        open_ended: false,
        for_threads: true,
    },
    Row {
        word: b"drop",
        command: Command::Request(Request::DropCap),
        least: 2,
        forms: &[Form::Any, Form::Any],
        open_ended: false,
        for_threads: true,
    },
    Row {
        word: b"install",
        command: Command::Request(Request::Install),
        least: 3,
        forms: &[Form::Any, Form::Any, Form::Name],
        open_ended: false,
        for_threads: true,
    },
    Row {
        word: b"remove",
        command: Command::Request(Request::Remove),
        least: 2,
        forms: &[Form::Any, Form::Any],
        open_ended: false,
        for_threads: true,
    },
    Row {
        word: b"replace",
        command: Command::Request(Request::Replace),
        least: 3,
        forms: &[Form::Any, Form::Any, Form::Name],
        open_ended: false,
        for_threads: true,
    },
    Row {
        word: b"start",
        command: Command::Start,
        least: 0,
        forms: &[],
        open_ended: false,
        for_threads: false,
    },
    Row {
        word: b"submit",
        command: Command::Submit,
        least: 1,
        forms: &[Form::Any],
        open_ended: false,
        for_threads: false,
    },
    Row {
        word: b"startfor",
        command: Command::StartFor,
        least: 1,
        forms: &[Form::Any],
        open_ended: false,
        for_threads: false,
    },
    Row {
        word: b"take",
        command: Command::Take,
        least: 2,
        forms: &[Form::Any, Form::Any, Form::Short],
        open_ended: false,
        for_threads: false,
    },
    Row {
        word: b"rx",
        command: Command::Rx,
        least: 2,
        forms: &[Form::Any, Form::PacketName, Form::Any],
        open_ended: false,
        for_threads: true,
    },
    Row {
        word: b"replay",
        command: Command::Replay,
        least: 1,
        forms: &[Form::Name, Form::Any],
        open_ended: false,
        for_threads: true,
    },
    Row {
        word: b"settle",
        command: Command::Settle,
        least: 0,
        forms: &[],
        open_ended: false,
        for_threads: false,
    },
    Row {
        word: b"show",
        command: Command::Show,
        least: 1,
        forms: &[Form::Any],
        open_ended: false,
        for_threads: false,
    },
    Row {
        word: b"trace",
        command: Command::Trace,
        least: 0,
        forms: &[],
        open_ended: false,
        for_threads: false,
    },
];

/// The words of an event in a trace.
static EVENT_ROWS: [Row; 5] = [
    Row {
        word: b"start",
        command: Command::Start,
        least: 0,
        forms: &[],
        open_ended: false,
        for_threads: true,
    },
    Row {
        word: b"submit",
        command: Command::Submit,
        least: 1,
        forms: &[Form::Any],
        open_ended: false,
        for_threads: true,
    },
    Row {
        word: b"startfor",
        command: Command::StartFor,
        least: 1,
        forms: &[Form::Any],
        open_ended: false,
        for_threads: true,
    },
    Row {
        word: b"take",
        command: Command::Take,
        least: 2,
        forms: &[Form::Any, Form::Any],
        open_ended: false,
        for_threads: true,
    },
    Row {
        word: b"rx",
        command: Command::Rx,
        least: 2,
        forms: &[Form::Any, Form::Any],
        open_ended: false,
        for_threads: true,
    },
];

/// The command that the words of a line make.
#[tactic(auto, unfolding(crate::specs::Rows::command_of))]
pub(crate) fn command_of(threads: bool, words: &[&[u8]]) -> Option<Command>
    ensures command { result ≡ spec.command_of threads (texts words.now) }
    ensures few { result ≡ Some Command.Cores → length words.now ≤ 65 }
{
    command_in(&ROWS, threads, words)
}

/// The event that the words before a colon tell of.
#[tactic(auto, unfolding(crate::specs::Rows::event_of))]
pub(crate) fn event_of(words: &[&[u8]]) -> Option<Command>
    ensures { result ≡ spec.event_of (texts words.now) }
{
    command_in(&EVENT_ROWS, false, words)
}
