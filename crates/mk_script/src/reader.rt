//! Reading a whole script.

ghost use Rattle.std.specs.Prelude.{◌≡◌, ◌≤◌, ◌<◌, ◌+◌, ◌^◌, ◌⊎◌, ◌++◌, ◌∷◌, ℕ, true, List, [], length, IfOk, IfErr, IsErrAnd, IsTrue, MatchResult, OnOk, Ok, Err};
ghost use Rattle.std.specs.List.{All};
ghost use Rattle.bpf_insn.specs.Texts.{words_of};
ghost use Rattle.filter_asm.specs.Program.{text_lines};
ghost use Rattle.mk_script.specs.Bodies.{Means};
ghost use Rattle.mk_script.specs.Changes.{DraftFollows, Knows};
ghost use Rattle.mk_script.specs.DraftViews.{Answered, draft_of, known_of, settings_of};
ghost use Rattle.mk_script.specs.Drafts as drafts;
ghost use Rattle.mk_script.specs.Limits.{HasLimits};
ghost use Rattle.mk_script.specs.Meanings as meanings;
ghost use Rattle.mk_script.specs.Pieces.{BlockShort, statement_of};
ghost use Rattle.mk_script.specs.Reading.{Advances, Reads, Refuses};
ghost use Rattle.mk_script.specs.Scripts.{AreFiles, MeanBehind, OneOutcome, SomeOutcome, Stands, fault_at, settings};
ghost use Rattle.mk_script.specs.Statements.{statements_from};
ghost use Rattle.mk_script.specs.Threads.{IsScriptForThreads};
ghost use Rattle.line_words.specs.Words.{texts};
ghost use Rattle.mk_script.specs.declared.fault.ScriptFault.{ScriptFault};
ghost use Rattle.mk_script.specs.declared.script.Script.{Script};
ghost use Rattle.mk_script.specs.declared.fault.ScriptFaultKind.TheVariants.{NoMemory};

use crate::bodies::meaning;
use crate::drafts::script_line;
use crate::fault::{ScriptFault, ScriptFaultKind};
use crate::lines::{Piece, first_piece, is_skipped};
use crate::meaning::Draft;
use crate::reading::Reading;
use crate::script::{BudgetList, ItemList, Script};
use crate::settings::Settings;
use crate::state::{add, nothing_read};
use crate::trace::trace_line;
use filter_table::Limits;
use seq::Shared;
use std::alloc::Global;

/// What a piece of the text asks for.
fn draft<'a>(
    alloc: Global,
    settings: Settings<'a>,
    reading: &Reading<'a>,
    piece: &Piece<'a>,
) -> Result<Draft<'a>, ScriptFaultKind>
    requires words { texts piece.now.words.items ≡ words_of piece.now.line.now }
    requires some { 1 ≤ length piece.now.words.items }
    requires short { length piece.now.line.now < 2 ^ 32 }
    requires block_short { BlockShort piece.now }
    ensures drafts { (n : ℕ) → Answered draft_of result (drafts.draft_of (settings_of settings.entry) (known_of reading.now) (statement_of n piece.now)) }
    ensures follows { IfOk result (λ d. DraftFollows reading.now d) }
{
    match &reading.jobs {
        None => script_line(
            alloc,
            settings,
            reading,
            &piece.words,
            piece.line,
            piece.block,
        ),
        Some(jobs) => trace_line(alloc, jobs, &piece.words, piece.line),
    }
}

/// Reads a piece of the text.
fn read_piece<'a>(
    alloc: Global,
    settings: Settings<'a>,
    reading: &mut Reading<'a>,
    piece: &Piece<'a>,
) -> Result<(), ScriptFaultKind>
    requires words { texts piece.now.words.items ≡ words_of piece.now.line.now }
    requires some { 1 ≤ length piece.now.words.items }
    requires short { length piece.now.line.now < 2 ^ 32 }
    requires block_short { BlockShort piece.now }
    ensures ok { OnOk result ((given : List meanings.Meaning) (n : ℕ) → Knows reading.old given →
        (m : meanings.Meaning) × Means (settings_of settings.entry) (meanings.known given) (statement_of n piece.now) (Ok m) × Knows reading.new (given ++ m ∷ [])) }
    ensures err { IfErr result (λ fault. (fault ≡ NoMemory) ⊎ ((given : List meanings.Meaning) (n : ℕ) → Knows reading.old given →
        Means (settings_of settings.entry) (meanings.known given) (statement_of n piece.now) (Err fault))) }
{
    let draft = draft(alloc, settings, reading, piece)?;
    let meaning = meaning(alloc, draft)?;
    add(alloc, reading, meaning)?;
    Ok(())
}

/// Reads what stands at the front of the text, and answers how many lines it is, and what stands after it.
fn read_first<'a>(
    alloc: Global,
    settings: Settings<'a>,
    reading: &mut Reading<'a>,
    text: &'a [u8],
) -> Result<(u32, &'a [u8]), ScriptFaultKind>
    requires some { 0 < length text.now }
    requires short { length text.now < 2 ^ 32 }
    ensures within { IfOk result (λ next. (1 ≤ next.0) × (next.0 + length next.1.now ≤ length text.now)) }
    ensures ok { IfOk result (λ next. (given : List meanings.Meaning) (n : ℕ) → Knows reading.old given →
        Advances (settings_of settings.entry) given n text.now next.0 next.1.now reading.new) }
    ensures err { IfErr result (λ fault. (fault ≡ NoMemory) ⊎ ((given : List meanings.Meaning) (n : ℕ) → Knows reading.old given →
        MeanBehind (settings_of settings.entry) given (statements_from n None (text_lines text.now)) (Err (fault_at n fault)))) }
{
    let piece = first_piece(alloc, text)?;
    if is_skipped(&piece.words) {
        return Ok((piece.lines, piece.rest));
    }
    read_piece(alloc, settings, reading, &piece)?;
    Ok((piece.lines, piece.rest))
}

/// Reads a text whole.
fn read<'a>(
    alloc: Global,
    settings: Settings<'a>,
    text: &'a [u8],
) -> Result<Reading<'a>, ScriptFault>
    requires { length text.now < 2 ^ 32 }
    ensures ok { IfOk result (λ r. Reads (settings_of settings.entry) text.now r) }
    ensures err { IfErr result (λ fault. (fault.kind ≡ NoMemory) ⊎ Refuses (settings_of settings.entry) text.now fault) }
{
    let mut reading = nothing_read(alloc);
    let mut rest = text;
    let mut lines = 0u32;
    while !rest.is_empty() {
        match read_first(alloc, settings, &mut reading, rest) {
            Ok((more, after)) => {
                lines += more;
                rest = after;
            }
            Err(kind) => {
                return Err(ScriptFault {
                    line: lines + 1,
                    kind,
                });
            }
        }
    }
    Ok(reading)
}

/// The script that the text stands for, or its first fault.
fn script(alloc: Global, settings: Settings<'_>, text: &[u8]) -> Result<Script, ScriptFault>
    requires { length text.now < 2 ^ 32 }
    ensures found { IfOk result (λ script. Stands (settings_of settings.entry) text.now (Ok script)) }
    ensures refused { IfErr result (λ fault. (fault.kind ≡ NoMemory) ⊎ Stands (settings_of settings.entry) text.now (Err fault)) }
{
    let reading = read(alloc, settings, text)?;
    if reading.budgets.is_empty() {
        return Err(ScriptFault {
            line: 1,
            kind: ScriptFaultKind::NoCores,
        });
    }
    Ok(Script {
        limits: reading.limits.unwrap_or(Limits::DEFAULT),
        budgets: BudgetList::from_vec(reading.budgets),
        items: ItemList::from_vec(reading.items),
    })
}

/// Bytes are below 256.
fn are_bytes(bytes: &[u8])
    ensures { All (λ b. b < 256) bytes.now }
{}

/// Files hold bytes: so a capture has one reading.
fn are_files(files: &[Shared<u8>])
    ensures { AreFiles (settings files.now true).files }
{
    for file in files {
        are_bytes(file.as_slice());
    }
}

/// Reads a script whole: the commands that it has, or its first fault. `files` are the captures that the script names by
/// number, from 1. Where `threads` is true the script is for cores that run by themselves: it doesn't say in which order
/// they do things, and core numbers are those of its cores.
///
/// Lines are taken in order. On a line these faults are looked for in this order: BadLine, NoCores (anything but `limits`
/// before `cores`; a text with no other command has it on line 1), BadNumber, Twice, AfterCores (`limits` after `cores`),
/// NoName, BadBody.
///
/// | Line | Meaning |
/// |---|---|
/// | `limits CAPS FILTERS` | the most capabilities and filters of the machine, 1 to 65,536 each, before `cores`; without it 1,024 each |
/// | `cores B0 B1 ..` | the budgets of 1 to 8 cores, before all else but `limits`; of 1 to 64 after `limits` |
/// | `asm NAME` .. `end` | a program in assembler text |
/// | `ddd NAME TEXT` | a program in decimal text, to the end of the line |
/// | `packet NAME HEX [ORIGINAL]` | a packet in hexadecimal digits, or `-` |
/// | `capture NAME N` | the packets of file N |
/// | `home D C` | later requests of domain D enter at core C |
/// | `create D E`, `mint D CAP TO RIGHTS`, `revoke D CAP`, `drop D CAP`, `install D CAP NAME`, `remove D FILTER`, `replace D FILTER NAME` | a request |
/// | `start`, `submit C`, `startfor C`, `take TO FROM [short]`, `settle`, `show CORE` | what a simulation does |
/// | `rx CORE NAME [FLOOR]`, `replay NAME [FLOOR]` | packets are received; NAME is a packet, or `C.I` for packet I of capture C |
/// | `trace` | the lines that a run printed follow, and are done in their order |
pub fn read_script(
    alloc: Global,
    text: &[u8],
    files: &[Shared<u8>],
    threads: bool,
) -> Result<Script, ScriptFault>
    requires { length text.now < 2 ^ 32 }
    // A text stands for a script or for a fault ..
    ensures some { SomeOutcome (settings files.now threads) text.now }
    // .. and for no two things.
    ensures one { OneOutcome (settings files.now threads) text.now }
    // What is answered is what the text stands for.
    ensures found { IfOk result (λ script. Stands (settings files.now threads) text.now (Ok script)) }
    ensures refused { IfErr result (λ fault. (fault.kind ≡ NoMemory) ⊎ Stands (settings files.now threads) text.now (Err fault)) }
    // That is within the limits of a machine and of its messages, and its requests enter at its cores.
    ensures limits { IfOk result HasLimits }
    // For threads it has requests and packets alone, each at one of its cores, and the packets are numbered in order.
    ensures threads { IsTrue threads → IfOk result IsScriptForThreads }
    // What the text stands for is answered, unless memory runs out.
    ensures only { (script : Script) → Stands (settings files.now threads) text.now (Ok script)
        → MatchResult result (λ found. found ≡ script) (λ fault. fault.kind ≡ NoMemory) }
    ensures first { (fault : ScriptFault) → Stands (settings files.now threads) text.now (Err fault)
        → IsErrAnd result (λ given. (given.kind ≡ NoMemory) ⊎ (given ≡ fault)) }
{
    are_files(files);
    script(alloc, Settings { files, threads }, text)
}
