//! `dump`: prints what a capture holds.

ghost use Rattle.std.specs.Prelude.{◌≡◌, ◌≤◌, ◌++◌, ℕ, List, IfOk, IfErr, IsErrOf, OnOk, string_bytes, false};
ghost use Rattle.engine_io.specs.Reading.{BeginsWith, GetsAtMost, IsInput, most_taken};
ghost use Rattle.console.specs.Reading.{AreBytes, entries_of, ShowsOne};
ghost use Rattle.engine_io.specs.declared.input.TheConstants.{INPUT_BYTES, INPUT_READS};
ghost use Rattle.console.specs.Choosing.{is_chosen};
ghost use Rattle.engine_io.specs.Devices.{EndsEarly, EndsWell, IsFresh, StopsWriting, Writes};
ghost use Rattle.console.specs.Faults.{fault_status};
ghost use Rattle.engine_io.specs.Reading.{IsEngineFault, IsPrintFault};
ghost use Rattle.console.specs.Dumping.{PrintsEntry, ShowsDump, ShowsDumpPart, digits, dump_text, entry_line, header_line, interface_line, interface_words, interfaces_after, packet_line, packets_after, resolution_text, section_line, stamp_words};

use crate::capture_fault::write_ending;
use crate::capture_run::is_link;
use crate::captured::{KeptEntry, read_entries};
use crate::stamp::push_time;
use capture_reader::{Entry, PacketInfo, PacketTime, ReadFault};
use engine_io::{BLOCK, EngineFault, Sink, Source, refuse_long, write_bytes};
use itoa::Buffer;
use pcap_reader::Header;
use pcapng_reader::{InterfaceDescription, SectionHeader};
use std::alloc::{AllocError, Global};
use std::fmt::Write as FmtWrite;
use std::io::{Read, Write};

/// Prints what a capture holds, and answers the status; where a link type is named, of the packets only those of that.
///
/// The line for the header of a savefile is `pcap little|big micro|nano snaplen N network N`. In pcapng the line for a section
/// is `pcapng little|big version 1.N`, and the one for interface N of it, from 0,
/// `interface N snaplen N network N resolution 10^-N|2^-N offset N`. A packet's, counted from 1, is
/// `N captured C original O HEX`, with `-` for no bytes, and ` interface I` after the number where its section has described
/// several before it; then, where stamps are asked for, a blank and the time stamp, as `match --number` prints it. What stands before a fault of the capture is printed, then `fault NAME` with the fault's offset where it
/// has one, and the status is 1. Of an input of more than 64 MiB only `fault InputTooLong` is printed, status 1.
///
/// The capture is read in pieces and its packets are kept; the input as a whole is not. Answers `ReadFailed`, with nothing
/// written, where a read fails; `WriteFailed`; and `NoMemory`, where a front of the text may have been written.
pub fn run_dump<R: Read, W: Write>(
    alloc: Global,
    link: Option<u32>,
    stamped: bool,
    reader: &mut Source<R>,
    writer: &mut Sink<W>,
) -> Result<u8, EngineFault>
    requires fresh { IsFresh reader.old INPUT_READS }
    requires good { writer.old.failed ≡ false }
    ensures shown { IfOk result (λ status. (text : List ℕ) × Writes W.contents writer.old writer.new text
        × ((input : List ℕ) × IsInput R.remaining reader.old reader.new input × ShowsDump link stamped input status text)) }
    ensures taken { IfOk result (λ _. GetsAtMost R.remaining reader.old reader.new most_taken) }
    ensures only { (input : List ℕ) → AreBytes input → ShowsOne (ShowsDump link stamped input) }
    ensures fault { IfErr result IsEngineFault }
    ensures well { IfOk result (λ _. EndsWell reader.new writer.new INPUT_BYTES) }
    ensures cause { IfErr result (EndsEarly reader.new writer.new) }
    ensures most { reader.new.taken ≤ most_taken }
    ensures silent { IsErrOf result EngineFault.ReadFailed → writer.new ≡ writer.old }
    ensures part { IsErrOf result EngineFault.NoMemory → (text : List ℕ)
        × ShowsDumpPart link stamped R.remaining reader.old reader.new text × Writes W.contents writer.old writer.new text }
{
    let Some(captured) = read_entries(alloc, reader)? else {
        return refuse_long(writer);
    };
    let entries = captured.entries.as_slice();
    dump(alloc, link, stamped, entries, captured.fault, writer)
}

/// Prints entries and a fault.
fn dump<W: Write>(
    alloc: Global,
    link: Option<u32>,
    stamped: bool,
    entries: &[KeptEntry],
    fault: Option<ReadFault>,
    writer: &mut Sink<W>,
) -> Result<u8, EngineFault>
    requires { writer.old.failed ≡ false }
    ensures shown { IfOk result (λ status. Writes W.contents writer.old writer.new (dump_text link stamped (entries_of entries.now) fault)
        × (status ≡ fault_status fault)) }
    ensures part { IsErrOf result EngineFault.NoMemory → (text : List ℕ)
        × BeginsWith text (dump_text link stamped (entries_of entries.now) fault) × Writes W.contents writer.old writer.new text }
    ensures fault { IfErr result IsPrintFault }
    ensures good { OnOk result (writer.new.failed ≡ false) }
    ensures cause { IfErr result (StopsWriting writer.new) }
{
    let mut text = Vec::new(alloc);
    let mut rest = entries;
    let mut place = Place {
        packets: 0,
        interfaces: 0,
    };
    while let Some((kept, more)) = rest.split_first() {
        rest = more;
        push_chosen(alloc, link, stamped, &mut text, &mut place, kept)?;
        if text.len() >= BLOCK {
            write_bytes(writer, text.as_slice())?;
            text.clear();
        }
    }
    write_bytes(writer, text.as_slice())?;
    write_ending(String::new(alloc), fault, writer)
}

/// How many packets and how many interfaces of the section come before an entry.
#[derive(Clone, Copy, Debug)]
pub struct Place {
    pub packets: u64,
    pub interfaces: u64,
}

/// Whether an entry is shown: of packets those of the link type that is named, if one is.
pub(crate) fn is_chosen(link: Option<u32>, entry: Entry) -> bool
    ensures { result ≡ is_chosen link entry }
{
    match entry {
        Entry::Packet(info) => is_link(link, info.link),
        _ => true,
    }
}

/// Prints the line for an entry, if that is shown.
fn push_chosen(
    alloc: Global,
    link: Option<u32>,
    stamped: bool,
    text: &mut Vec<u8>,
    place: &mut Place,
    kept: &KeptEntry,
) -> Result<(), AllocError>
    ensures { OnOk result (PrintsEntry link stamped kept.now place.old place.new text.old.items text.new.items) }
{
    if is_chosen(link, kept.entry) {
        return push_entry(
            alloc,
            stamped,
            text,
            place,
            kept.entry,
            kept.bytes.as_slice(),
        );
    }
    Ok(())
}

/// Prints the line for an entry, and counts it. 2^64 entries are refused as memory is.
pub(crate) fn push_entry(
    alloc: Global,
    stamped: bool,
    text: &mut Vec<u8>,
    place: &mut Place,
    entry: Entry,
    bytes: &[u8],
) -> Result<(), AllocError>
    ensures printed { OnOk result (text.new.items ≡ text.old.items ++ entry_line stamped place.old.packets place.old.interfaces entry bytes.now) }
    ensures packets { OnOk result (place.new.packets ≡ packets_after place.old.packets entry) }
    ensures interfaces { OnOk result (place.new.interfaces ≡ interfaces_after place.old.interfaces entry) }
{
    match entry {
        Entry::Savefile(header) => push_line(text, header_text(alloc, header)?.as_str()),
        Entry::Section(section) => {
            place.interfaces = 0;
            push_line(text, section_text(alloc, section)?.as_str())
        }
        Entry::Interface(interface) => {
            let number = place.interfaces;
            place.interfaces = number.checked_add(1).ok_or(AllocError)?;
            push_line(text, interface_text(alloc, number, interface)?.as_str())
        }
        Entry::Packet(info) => {
            place.packets = place.packets.checked_add(1).ok_or(AllocError)?;
            push_packet(alloc, stamped, text, *place, info, bytes)
        }
    }
}

/// Prints a line.
fn push_line(text: &mut Vec<u8>, line: &str) -> Result<(), AllocError>
    ensures { OnOk result (text.new.items ≡ text.old.items ++ line.now) }
{
    text.extend_from_slice(line.as_bytes())
}

/// The line for the header of a savefile.
fn header_text(alloc: Global, header: Header) -> Result<String, AllocError>
    ensures { IfOk result (λ text. string_bytes text ≡ header_line header) }
{
    let mut text = String::new(alloc);
    let order = if header.big { "big" } else { "little" };
    let unit = if header.nano { "nano" } else { "micro" };
    writeln!(
        text,
        "pcap {order} {unit} snaplen {} network {}",
        header.snaplen, header.network
    )?;
    Ok(text)
}

/// The line for a section.
fn section_text(alloc: Global, section: SectionHeader) -> Result<String, AllocError>
    ensures { IfOk result (λ text. string_bytes text ≡ section_line section) }
{
    let mut text = String::new(alloc);
    let order = if section.big { "big" } else { "little" };
    writeln!(text, "pcapng {order} version 1.{}", section.minor)?;
    Ok(text)
}

/// The line for an interface of this number.
fn interface_text(
    alloc: Global,
    number: u64,
    interface: InterfaceDescription,
) -> Result<String, AllocError>
    ensures { IfOk result (λ text. string_bytes text ≡ interface_line number interface) }
{
    let mut text = String::new(alloc);
    write!(
        text,
        "interface {number} snaplen {} network {} resolution ",
        interface.snaplen, interface.link
    )?;
    push_resolution(&mut text, interface.resolution)?;
    writeln!(text, " offset {}", interface.offset)?;
    Ok(text)
}

/// Prints the unit of an interface's times.
fn push_resolution(text: &mut String, resolution: u8) -> Result<(), AllocError>
    ensures { OnOk result (string_bytes text.new ≡ string_bytes text.old ++ resolution_text resolution) }
{
    if resolution < 128 {
        write!(text, "10^-{resolution}")
    } else {
        write!(text, "2^-{}", resolution - 128)
    }
}

/// Prints the line for the last packet that was counted.
fn push_packet(
    alloc: Global,
    stamped: bool,
    text: &mut Vec<u8>,
    place: Place,
    info: PacketInfo,
    bytes: &[u8],
) -> Result<(), AllocError>
    ensures { OnOk result (text.new.items ≡ text.old.items ++ packet_line stamped place.packets place.interfaces info bytes.now) }
{
    let mut decimal = Buffer::new();
    text.extend_from_slice(decimal.format(place.packets).as_bytes())?;
    push_interface(text, place.interfaces, info)?;
    push_stamp(alloc, stamped, text, info.time)?;
    text.extend_from_slice(b" captured ")?;
    text.extend_from_slice(decimal.format(bytes.len()).as_bytes())?;
    text.extend_from_slice(b" original ")?;
    text.extend_from_slice(decimal.format(info.original).as_bytes())?;
    text.extend_from_slice(b" ")?;
    push_digits(text, bytes)?;
    text.extend_from_slice(b"\n")?;
    Ok(())
}

/// Prints the interface of a packet, where there are several.
fn push_interface(text: &mut Vec<u8>, interfaces: u64, info: PacketInfo) -> Result<(), AllocError>
    ensures { OnOk result (text.new.items ≡ text.old.items ++ interface_words interfaces info) }
{
    if interfaces <= 1 {
        return Ok(());
    }
    let mut decimal = Buffer::new();
    text.extend_from_slice(b" interface ")?;
    text.extend_from_slice(decimal.format(info.interface).as_bytes())
}

/// Prints when a packet was seen, where that is to be shown.
fn push_stamp(
    alloc: Global,
    stamped: bool,
    text: &mut Vec<u8>,
    time: PacketTime,
) -> Result<(), AllocError>
    ensures { OnOk result (text.new.items ≡ text.old.items ++ stamp_words stamped time) }
{
    if !stamped {
        return Ok(());
    }
    let mut stamp = String::from_str(alloc, " ")?;
    push_time(&mut stamp, time)?;
    push_line(text, stamp.as_str())
}

/// Prints captured bytes in hexadecimal digits.
fn push_digits(text: &mut Vec<u8>, bytes: &[u8]) -> Result<(), AllocError>
    ensures { OnOk result (text.new.items ≡ text.old.items ++ digits bytes.now) }
{
    if bytes.is_empty() {
        return text.extend_from_slice(b"-");
    }
    let start = text.len();
    text.resize(start.saturating_add(2 * bytes.len()), b'0')?;
    let _ = hex::encode_to_slice(bytes, &mut text.as_mut_slice()[start..]);
    Ok(())
}
