//! What the statements of a script ask for.

ghost use Rattle.std.specs.Prelude.{◌≡◌, ◌≤◌, ◌<◌, ◌==◌, ◌+◌, ◌^◌, ℕ, false, [], length, Option, Some, None, Result, Ok, Err, true, IfOk, IfErr, IfSome, is_some, vec_len, min};
ghost use Rattle.std.specs.Option.{option_copied};
ghost use Rattle.mk_script.specs.Drafts as spec;
ghost use Rattle.mk_script.specs.Meanings as meanings;
ghost use Rattle.mk_script.specs.Changes.{DraftFollows};
ghost use Rattle.mk_script.specs.declared.reading.Reading.{Reading};
ghost use Rattle.mk_script.specs.declared.script.Item.TheVariants as done;
ghost use Rattle.mk_script.specs.declared.rows.Command.{Command};
ghost use Rattle.mk_script.specs.DraftViews.{Answered, draft_of, known_of, settings_of};
ghost use Rattle.line_words.specs.Words.{texts};
ghost use Rattle.mk_script.specs.Words as words_spec;
ghost use Rattle.line_words.specs.Words as list_spec;
ghost use Rattle.mk_script.specs.declared.fault.ScriptFaultKind.TheVariants.{NoMemory};

use crate::commands::{check, domain_of, op_of};
use crate::fault::{BodyFault, ScriptFaultKind};
use crate::meaning::{Draft, Meaning, Replay};
use crate::number::{most_listed, number, number16, number16_below, number32, number64};
use crate::reading::Reading;
use crate::rows::{Command, Request, command_of};
use crate::script::Item;
use crate::settings::Settings;
use crate::words::behind_word;
use endpoint_caps::CapLimits;
use filter_table::Limits;
use line_words::{cut, word_at};
use pcap_reader::SharedPacket;
use seq::Shared;
use std::alloc::Global;
use world_events::Event;

/// The limits of a machine with so many capabilities and filters: one domain may have all of them.
fn limits_of(caps: u32, filters: u32) -> Limits
    requires some_caps { 1 ≤ caps }
    requires few_caps { caps ≤ 65536 }
    requires some_filters { 1 ≤ filters }
    requires few_filters { filters ≤ 65536 }
    ensures { result ≡ spec.limits_of caps filters }
{
    let caps = CapLimits::new(caps, caps).unwrap();
    Limits::new(caps, filters, filters, u32::MAX).unwrap()
}

#[tactic(auto, unfolding(crate::specs::Drafts::limits_draft))]
fn limits<'a>(reading: &Reading<'a>, words: &[&'a [u8]]) -> Result<Draft<'a>, ScriptFaultKind>
    ensures drafts { Answered draft_of result (spec.limits_draft (known_of reading.now) (texts words.now)) }
    ensures follows { IfOk result (λ d. DraftFollows reading.now d) }
{
    let caps = most_listed(word_at(words, 1))?;
    let filters = most_listed(word_at(words, 2))?;
    check(reading.limits.is_none(), ScriptFaultKind::Twice)?;
    check(reading.budgets.is_empty(), ScriptFaultKind::AfterCores)?;
    Ok(Draft::Whole(Meaning::Limits(limits_of(caps, filters))))
}

/// The numbers of words, as budgets are written.
fn budgets(alloc: Global, words: &[&[u8]]) -> Result<Vec<u32>, ScriptFaultKind>
    ensures numbers { Answered (λ v. v.items) result (spec.numbers_below (2 ^ 32) (texts words.now)) }
    ensures len { IfOk result (λ v. vec_len v ≡ length words.now) }
{
    let mut budgets = Vec::new(alloc);
    for word in words {
        budgets.push(number32(word)?)?;
    }
    Ok(budgets)
}

#[tactic(auto, unfolding(crate::specs::Drafts::cores_draft))]
fn cores<'a>(
    alloc: Global,
    reading: &Reading<'a>,
    words: &[&'a [u8]],
) -> Result<Draft<'a>, ScriptFaultKind>
    requires some { 1 ≤ length words.now }
    requires few { length words.now ≤ 65 }
    ensures drafts { Answered draft_of result (spec.cores_draft (known_of reading.now) (texts words.now)) }
    ensures follows { IfOk result (λ d. DraftFollows reading.now d) }
{
    let budgets = budgets(alloc, &words[1..])?;
    check(reading.budgets.is_empty(), ScriptFaultKind::Twice)?;
    Ok(Draft::Whole(Meaning::Budgets(budgets)))
}

#[tactic(auto, unfolding(crate::specs::Drafts::asm_draft))]
fn asm<'a>(
    reading: &Reading<'a>,
    words: &[&'a [u8]],
    block: Option<&'a [u8]>,
) -> Result<Draft<'a>, ScriptFaultKind>
    requires { IfSome block (λ text. length text.now < 2 ^ 32) }
    ensures drafts { Answered draft_of result (spec.asm_draft (known_of reading.now) (texts words.now) (option_copied block.entry)) }
    ensures follows { IfOk result (λ d. DraftFollows reading.now d) }
{
    let name = word_at(words, 1);
    check(reading.programs.get(name).is_none(), ScriptFaultKind::Twice)?;
    let text = match block {
        Some(text) => text,
        None => &[],
    };
    Ok(Draft::Assembler(name, text))
}

#[tactic(auto, unfolding(crate::specs::Drafts::ddd_draft))]
fn ddd<'a>(
    reading: &Reading<'a>,
    words: &[&'a [u8]],
    line: &'a [u8],
) -> Result<Draft<'a>, ScriptFaultKind>
    ensures drafts { Answered draft_of result (spec.ddd_draft (known_of reading.now) (texts words.now) line.now) }
    ensures follows { IfOk result (λ d. DraftFollows reading.now d) }
{
    let name = word_at(words, 1);
    check(reading.programs.get(name).is_none(), ScriptFaultKind::Twice)?;
    Ok(Draft::Decimal(name, behind_word(behind_word(line))))
}

/// The number of an optional word.
fn optional32(words: &[&[u8]], place: usize) -> Result<Option<u32>, ScriptFaultKind>
    ensures { result ≡ spec.optional_below (2 ^ 32) (texts words.now) place }
{
    if place < words.len() {
        Ok(Some(number32(word_at(words, place))?))
    } else {
        Ok(None)
    }
}

/// The floor of receptions, or 0.
fn floor_at(words: &[&[u8]], place: usize) -> Result<u64, ScriptFaultKind>
    ensures { result ≡ spec.floor_at (texts words.now) place }
{
    if place < words.len() {
        number64(word_at(words, place))
    } else {
        Ok(0)
    }
}

/// The bytes that hexadecimal digits write.
fn hex_bytes(alloc: Global, word: &[u8]) -> Result<Vec<u8>, ScriptFaultKind>
    ensures bytes { Answered (λ v. v.items) result (spec.hex_bytes word.now) }
    ensures short { IfOk result (λ v. vec_len v ≤ length word.now) }
{
    if word == b"-".as_slice() {
        return Ok(Vec::new(alloc));
    }
    match hex::decode(alloc, word) {
        Ok(bytes) => Ok(bytes),
        Err(hex::FromHexError::OutOfMemory) => Err(ScriptFaultKind::NoMemory),
        Err(_) => Err(ScriptFaultKind::BadBody(BodyFault::Hex)),
    }
}

#[tactic(auto, unfolding(crate::specs::Drafts::packet_draft))]
fn packet<'a>(
    alloc: Global,
    reading: &Reading<'a>,
    words: &[&'a [u8]],
) -> Result<Draft<'a>, ScriptFaultKind>
    requires { length (list_spec.word_at (texts words.now) 2) < 2 ^ 32 }
    ensures drafts { Answered draft_of result (spec.packet_draft (known_of reading.now) (texts words.now)) }
    ensures follows { IfOk result (λ d. DraftFollows reading.now d) }
{
    let name = word_at(words, 1);
    let original = optional32(words, 3)?;
    check(reading.packets.get(name).is_none(), ScriptFaultKind::Twice)?;
    let bytes = hex_bytes(alloc, word_at(words, 2))?;
    let original = original.unwrap_or(bytes.len() as u32);
    let packet = SharedPacket::new(Shared::from_vec(alloc, bytes)?, original);
    Ok(Draft::Whole(Meaning::NamedPacket(name, packet)))
}

/// A number of any length.
fn whole_number(word: &[u8]) -> Result<u128, ScriptFaultKind>
    ensures ok { IfOk result (λ n. (m : ℕ) × (words_spec.whole_number word.now ≡ Ok m) × (n ≡ min m 18446744073709551616)) }
    ensures err { IfErr result (λ fault. words_spec.whole_number word.now ≡ Err fault) }
{
    number(word).ok_or(ScriptFaultKind::BadNumber)
}

#[tactic(auto, unfolding(crate::specs::Drafts::capture_draft))]
fn capture<'a>(
    settings: Settings<'a>,
    reading: &Reading<'a>,
    words: &[&'a [u8]],
) -> Result<Draft<'a>, ScriptFaultKind>
    ensures drafts { Answered draft_of result (spec.capture_draft (settings_of settings.entry) (known_of reading.now) (texts words.now)) }
    ensures follows { IfOk result (λ d. DraftFollows reading.now d) }
{
    let name = word_at(words, 1);
    let number = whole_number(word_at(words, 2))?;
    check(reading.captures.get(name).is_none(), ScriptFaultKind::Twice)?;
    let Some(file) = counted(settings.files, number) else {
        return Err(ScriptFaultKind::NoName);
    };
    Ok(Draft::Savefile(name, file))
}

/// The element at a place that is counted from 1.
pub(crate) fn counted<T>(elements: &[T], number: u128) -> Option<&T>
    ensures { (m : ℕ) → number ≡ min m 18446744073709551616 → option_copied result ≡ spec.counted elements.now m }
{
    if number == 0 || number > elements.len() as u128 {
        return None;
    }
    elements.get(number as usize - 1)
}

#[tactic(auto, unfolding(crate::specs::Drafts::home_draft))]
fn home<'a>(reading: &Reading<'a>, words: &[&'a [u8]]) -> Result<Draft<'a>, ScriptFaultKind>
    ensures drafts { Answered draft_of result (spec.home_draft (known_of reading.now) (texts words.now)) }
    ensures follows { IfOk result (λ d. DraftFollows reading.now d) }
{
    let domain = number16(word_at(words, 1))?;
    let core = number16_below(reading.budgets.len() as u32, word_at(words, 2))?;
    Ok(Draft::Whole(Meaning::Home(domain, core)))
}

/// A request with the core at which it enters.
#[tactic(auto, unfolding(crate::specs::Drafts::request_draft))]
fn request<'a>(
    reading: &Reading<'a>,
    words: &[&'a [u8]],
    request: Request,
) -> Result<Draft<'a>, ScriptFaultKind>
    ensures drafts { Answered draft_of result (spec.request_draft (known_of reading.now) (texts words.now) request) }
    ensures follows { IfOk result (λ d. DraftFollows reading.now d) }
{
    let op = op_of(reading, words, request)?;
    let core = reading.homes.get(domain_of(&op));
    Ok(Draft::Whole(Meaning::Does(Item::Ask(core, op))))
}

pub(crate) fn act<'a>(item: Item) -> Draft<'a>
    ensures drafts { draft_of result ≡ spec.Whole (meanings.Does item) }
    ensures follows { (r : Reading) → DraftFollows r result }
{
    Draft::Whole(Meaning::Does(item))
}

/// A core submits.
#[tactic(auto, unfolding(crate::specs::Drafts::core_draft))]
pub(crate) fn submit<'a>(words: &[&[u8]]) -> Result<Draft<'a>, ScriptFaultKind>
    ensures drafts { Answered draft_of result (spec.core_draft done.Submit (texts words.now)) }
    ensures follows { (r : Reading) → IfOk result (λ d. DraftFollows r d) }
{
    let core = number16(word_at(words, 1))?;
    Ok(act(Item::Submit(core)))
}

/// Core 0 starts what a core has waiting.
#[tactic(auto, unfolding(crate::specs::Drafts::core_draft))]
pub(crate) fn start_for<'a>(words: &[&[u8]]) -> Result<Draft<'a>, ScriptFaultKind>
    ensures drafts { Answered draft_of result (spec.core_draft done.StartFor (texts words.now)) }
    ensures follows { (r : Reading) → IfOk result (λ d. DraftFollows r d) }
{
    let core = number16(word_at(words, 1))?;
    Ok(act(Item::StartFor(core)))
}

/// A core's table is shown.
#[tactic(auto, unfolding(crate::specs::Drafts::core_draft))]
fn show<'a>(words: &[&[u8]]) -> Result<Draft<'a>, ScriptFaultKind>
    ensures drafts { Answered draft_of result (spec.core_draft done.Show (texts words.now)) }
    ensures follows { (r : Reading) → IfOk result (λ d. DraftFollows r d) }
{
    let core = number16(word_at(words, 1))?;
    Ok(act(Item::Show(core)))
}

/// A message that is taken.
#[tactic(auto, unfolding(crate::specs::Drafts::take_draft))]
pub(crate) fn take<'a>(words: &[&[u8]], short: bool) -> Result<Draft<'a>, ScriptFaultKind>
    ensures drafts { Answered draft_of result (spec.take_draft (texts words.now) short) }
    ensures follows { (r : Reading) → IfOk result (λ d. DraftFollows r d) }
{
    let to = number16(word_at(words, 1))?;
    let from = number16(word_at(words, 2))?;
    Ok(act(Item::Apply(Event::Take { to, from, short })))
}

/// Whether the word has a `.`, as `C.I` has.
fn is_dotted(word: &[u8]) -> bool
    ensures { result ≡ spec.is_dotted word.now }
{
    word.contains(&b'.')
}

/// The packet of a name, or of a capture by its number.
#[tactic(auto, unfolding(crate::specs::Drafts::packet_at))]
fn packet_at<'r, 'a>(
    reading: &'r Reading<'a>,
    word: &'a [u8],
) -> Result<&'r SharedPacket, ScriptFaultKind>
    ensures { Answered (λ p. p.now) result (spec.packet_at (known_of reading.now) word.now) }
{
    if !is_dotted(word) {
        return reading.packets.get(word).ok_or(ScriptFaultKind::NoName);
    }
    let (name, number) = cut(b'.', word);
    let number = whole_number(number)?;
    let Some(packets) = reading.captures.get(name) else {
        return Err(ScriptFaultKind::NoName);
    };
    counted(packets.as_slice(), number).ok_or(ScriptFaultKind::NoName)
}

/// A core, which is one of the script's where it is for threads.
fn core_at(
    settings: Settings<'_>,
    reading: &Reading<'_>,
    word: &[u8],
) -> Result<u16, ScriptFaultKind>
    ensures { result ≡ words_spec.number_below (spec.core_limit (settings_of settings.entry) (known_of reading.now)) word.now }
{
    if settings.threads {
        number16_below(reading.budgets.len() as u32, word)
    } else {
        number16(word)
    }
}

/// A packet that is received.
#[tactic(auto, unfolding(crate::specs::Drafts::rx_draft))]
fn rx<'a>(
    settings: Settings<'a>,
    reading: &Reading<'a>,
    words: &[&'a [u8]],
) -> Result<Draft<'a>, ScriptFaultKind>
    requires { reading.now.jobs ≡ None }
    ensures drafts { Answered draft_of result (spec.rx_draft (settings_of settings.entry) (known_of reading.now) reading.now.received (texts words.now)) }
    ensures follows { IfOk result (λ d. DraftFollows reading.now d) }
{
    let core = core_at(settings, reading, word_at(words, 1))?;
    let floor = floor_at(words, 3)?;
    let packet = packet_at(reading, word_at(words, 2))?.clone()?;
    Ok(Draft::Whole(Meaning::Receives(Event::Rx {
        core,
        number: reading.received + 1,
        packet,
        floor,
    })))
}

/// The packets of a capture, each received at the core of its place.
#[tactic(auto, unfolding(crate::specs::Drafts::replay_draft))]
fn replay<'a>(reading: &Reading<'a>, words: &[&'a [u8]]) -> Result<Draft<'a>, ScriptFaultKind>
    requires some { 0 < vec_len reading.now.budgets }
    requires untraced { reading.now.jobs ≡ None }
    ensures drafts { Answered draft_of result (spec.replay_draft (known_of reading.now) reading.now.received (texts words.now)) }
    ensures follows { IfOk result (λ d. DraftFollows reading.now d) }
{
    let floor = floor_at(words, 2)?;
    let Some(packets) = reading.captures.get(word_at(words, 1)) else {
        return Err(ScriptFaultKind::NoName);
    };
    Ok(Draft::Whole(Meaning::Replays(Replay {
        packets: packets.clone()?,
        cores: reading.budgets.len(),
        received: reading.received,
        floor,
    })))
}

/// What stands on a line by its command.
fn draft_by<'a>(
    alloc: Global,
    settings: Settings<'a>,
    reading: &Reading<'a>,
    words: &[&'a [u8]],
    line: &'a [u8],
    block: Option<&'a [u8]>,
    command: Command,
) -> Result<Draft<'a>, ScriptFaultKind>
    requires some { 1 ≤ length words.now }
    requires short { length (list_spec.word_at (texts words.now) 2) < 2 ^ 32 }
    requires ready { spec.is_early command ≡ false → 0 < vec_len reading.now.budgets }
    requires few { command ≡ Command.Cores → length words.now ≤ 65 }
    requires block_short { IfSome block (λ text. length text.now < 2 ^ 32) }
    requires stands { spec.may_stand (known_of reading.now) (texts words.now) (option_copied block) command ≡ true }
    requires untraced { reading.now.jobs ≡ None }
    ensures drafts { Answered draft_of result (spec.draft_by (settings_of settings.entry) (known_of reading.now) reading.now.received (texts words.now) line.now (option_copied block.entry) command) }
    ensures follows { IfOk result (λ d. DraftFollows reading.now d) }
{
    match command {
        Command::Limits => limits(reading, words),
        Command::Cores => cores(alloc, reading, words),
        Command::Asm => asm(reading, words, block),
        Command::Ddd => ddd(reading, words, line),
        Command::Packet => packet(alloc, reading, words),
        Command::Capture => capture(settings, reading, words),
        Command::Home => home(reading, words),
        Command::Request(asked) => request(reading, words, asked),
        Command::Start => Ok(act(Item::Begin)),
        Command::Submit => submit(words),
        Command::StartFor => start_for(words),
        Command::Take => take(words, words.len() > 3),
        Command::Rx => rx(settings, reading, words),
        Command::Replay => replay(reading, words),
        Command::Settle => Ok(act(Item::Settle)),
        Command::Show => show(words),
        Command::Trace => Ok(Draft::Whole(Meaning::Trace)),
    }
}

/// How many cores there may be.
fn most_cores(reading: &Reading<'_>) -> usize
    ensures is { result ≡ spec.most_cores (known_of reading.now) }
    ensures most { result ≤ 64 }
{
    if reading.limits.is_some() { 64 } else { 8 }
}

fn may_stand(reading: &Reading<'_>, words: &[&[u8]], block: Option<&[u8]>, command: Command) -> bool
    ensures { result ≡ spec.may_stand (known_of reading.now) (texts words.now) (option_copied block.entry) command }
{
    match command {
        Command::Cores => words.len() <= most_cores(reading) + 1,
        Command::Asm => block.is_some(),
        Command::Trace => !reading.acted,
        _ => true,
    }
}

/// Whether the command stands before `cores`, or is it.
fn is_early(command: Command) -> bool
    ensures { result ≡ spec.is_early command }
{
    matches!(command, Command::Limits | Command::Cores)
}

/// What a line of a script asks for, by its words and by what is known; not after `trace`.
#[tactic(auto, unfolding(crate::specs::Drafts::script_draft))]
pub(crate) fn script_line<'a>(
    alloc: Global,
    settings: Settings<'a>,
    reading: &Reading<'a>,
    words: &[&'a [u8]],
    line: &'a [u8],
    block: Option<&'a [u8]>,
) -> Result<Draft<'a>, ScriptFaultKind>
    requires some { 1 ≤ length words.now }
    requires short { length (list_spec.word_at (texts words.now) 2) < 2 ^ 32 }
    requires block_short { IfSome block (λ text. length text.now < 2 ^ 32) }
    requires untraced { reading.now.jobs ≡ None }
    ensures drafts { Answered draft_of result (spec.script_draft (settings_of settings.entry) (known_of reading.now) reading.now.received (texts words.now) line.now (option_copied block.entry)) }
    ensures follows { IfOk result (λ d. DraftFollows reading.now d) }
{
    let command = command_of(settings.threads, words).ok_or(ScriptFaultKind::BadLine)?;
    check(
        may_stand(reading, words, block, command),
        ScriptFaultKind::BadLine,
    )?;
    check(
        is_early(command) || !reading.budgets.is_empty(),
        ScriptFaultKind::NoCores,
    )?;
    draft_by(alloc, settings, reading, words, line, block, command)
}
