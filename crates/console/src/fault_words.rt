//! The words for what is wrong with a decimal text, a program, an assembler text or a capture. Lack of memory is wrong with none
//! of them.

ghost use Rattle.std.specs.Prelude.{◌≡◌, ◌≢◌, ◌++◌, MatchOption, OnOk, codes, string_bytes};
ghost use Rattle.std.specs.Fmt.{decimal};
ghost use Rattle.console.specs.Code.{commas, refusal_words};
ghost use Rattle.console.specs.Words.{asm_fault_name, block_words, capture_words, code_words, error_name, read_words};

use bpf_insn::TextFault;
use capture_reader::ReadFault;
use filter_asm::AsmFaultKind;
use filter_verify::Refusal;
use pcap_reader::CaptureFault;
use pcapng_reader::{BlockError, CaptureFault as PcapngFault};
use std::alloc::AllocError;
use std::fmt::Write;

/// Appends the name of a decimal text's fault, with its place if it has one.
pub fn push_code_words(text: &mut String, fault: TextFault) -> Result<(), AllocError>
    ensures { OnOk result ((fault ≢ TextFault.NoMemory) × (string_bytes text.new ≡ string_bytes text.old ++ code_words fault)) }
{
    match fault {
        TextFault::BadNumber(place) => write!(text, "BadNumber {place}"),
        TextFault::CountMismatch => text.push_str("CountMismatch"),
        TextFault::TooLong => text.push_str("TooLong"),
        TextFault::NoMemory => Err(AllocError),
    }
}

/// Appends the name of a capture's fault, with its place if it has one.
pub fn push_capture_words(text: &mut String, fault: CaptureFault) -> Result<(), AllocError>
    ensures { OnOk result ((fault ≢ CaptureFault.NoMemory) × (string_bytes text.new ≡ string_bytes text.old ++ capture_words fault)) }
{
    match fault {
        CaptureFault::BadMagic => text.push_str("BadMagic"),
        CaptureFault::BadVersion => text.push_str("BadVersion"),
        CaptureFault::TruncatedHeader => text.push_str("TruncatedHeader"),
        CaptureFault::TruncatedRecord(place) => write!(text, "TruncatedRecord {place}"),
        CaptureFault::TooLong(place) => write!(text, "TooLong {place}"),
        CaptureFault::NoMemory => Err(AllocError),
    }
}

/// Appends the name of a fault of a capture of either format, with its place if it has one.
pub fn push_read_words(text: &mut String, fault: ReadFault) -> Result<(), AllocError>
    ensures { OnOk result (string_bytes text.new ≡ string_bytes text.old ++ read_words fault) }
{
    match fault {
        ReadFault::Savefile(fault) => push_capture_words(text, fault),
        ReadFault::Pcapng(fault) => push_block_words(text, fault),
    }
}

/// Appends the name of a fault of a capture in pcapng, with the place of its block.
fn push_block_words(text: &mut String, fault: PcapngFault) -> Result<(), AllocError>
    ensures { OnOk result (string_bytes text.new ≡ string_bytes text.old ++ block_words fault) }
{
    match fault {
        PcapngFault::BadBlock(error, place) => write!(text, "{} {place}", name_of_error(error)),
        PcapngFault::Truncated(place) => write!(text, "Truncated {place}"),
        PcapngFault::NoMemory => Err(AllocError),
    }
}

/// The name of what is wrong with a block.
fn name_of_error(error: BlockError) -> &'static str
    ensures { result.now ≡ error_name error }
{
    match error {
        BlockError::NoSection => "NoSection",
        BlockError::BadByteOrder => "BadByteOrder",
        BlockError::BadLength => "BadLength",
        BlockError::LengthNotRepeated => "LengthNotRepeated",
        BlockError::BadVersion => "BadVersion",
        BlockError::NoInterface => "NoInterface",
        BlockError::BadCaptured => "BadCaptured",
        BlockError::TooManyInterfaces => "TooManyInterfaces",
        BlockError::TooLong => "TooLong",
    }
}

/// Appends the rule by which a program is refused, with the place, if a single one is refused.
pub fn push_refusal_words(text: &mut String, refusal: &Refusal) -> Result<(), AllocError>
    ensures { OnOk result ((refusal.now ≢ Refusal.NoMemory) × (string_bytes text.new ≡ string_bytes text.old ++ refusal_words refusal.now)) }
{
    match refusal {
        Refusal::Empty => text.push_str("Empty"),
        Refusal::TooLong => text.push_str("TooLong"),
        Refusal::BadCode(pc) => write!(text, "BadCode pc {pc}"),
        Refusal::ZeroDivisor(pc) => write!(text, "ZeroDivisor pc {pc}"),
        Refusal::BadShift(pc) => write!(text, "BadShift pc {pc}"),
        Refusal::BadWord(pc) => write!(text, "BadWord pc {pc}"),
        Refusal::JumpOut(pc) => write!(text, "JumpOut pc {pc}"),
        Refusal::Ancillary(pc) => write!(text, "Ancillary pc {pc}"),
        Refusal::NoReturn => text.push_str("NoReturn"),
        Refusal::Unwritten { pc, word, path } => {
            push_unwritten(text, *pc, *word, path.as_slice())?;
            Ok(())
        }
        Refusal::NoMemory => Err(AllocError),
    }
}

/// Appends the words for a load of a word that a path leaves unwritten.
fn push_unwritten(text: &mut String, pc: u32, word: u32, path: &[u32]) -> Result<(), AllocError>
    ensures { OnOk result (string_bytes text.new ≡ string_bytes text.old
        ++ (codes "Unwritten pc " ++ decimal pc ++ codes " word " ++ decimal word ++ codes " path " ++ commas path.now)) }
{
    write!(text, "Unwritten pc {pc} word {word} path ")?;
    push_places(text, path)?;
    Ok(())
}

/// Appends places, parted by commas.
fn push_places(text: &mut String, places: &[u32]) -> Result<(), AllocError>
    ensures { OnOk result (string_bytes text.new ≡ string_bytes text.old ++ commas places.now) }
{
    let mut rest = places;
    while let Some((place, more)) = rest.split_first() {
        rest = more;
        if more.is_empty() {
            write!(text, "{place}")?;
        } else {
            write!(text, "{place},")?;
        }
    }
    Ok(())
}

/// The name of an assembler text's fault.
pub fn name_of_asm_fault(kind: AsmFaultKind) -> Option<&'static str>
    ensures { MatchOption result (kind ≡ AsmFaultKind.NoMemory) (λ name. (kind ≢ AsmFaultKind.NoMemory) × (name.now ≡ asm_fault_name kind)) }
{
    match kind {
        AsmFaultKind::Mnemonic => Some("Mnemonic"),
        AsmFaultKind::Operand => Some("Operand"),
        AsmFaultKind::Number => Some("Number"),
        AsmFaultKind::NoLabel => Some("NoLabel"),
        AsmFaultKind::TwiceLabel => Some("TwiceLabel"),
        AsmFaultKind::Backward => Some("Backward"),
        AsmFaultKind::TooFar => Some("TooFar"),
        AsmFaultKind::TooLong => Some("TooLong"),
        AsmFaultKind::NoMemory => None,
    }
}
