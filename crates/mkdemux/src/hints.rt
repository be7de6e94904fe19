//! What else to say of an input that was refused: what it is, or what reads it.

use crate::devices::FileInput;
use command_line::{MatchView, Request};
use engine_io::{INPUT_BYTES, Source};

/// The CODE of a request that has one.
pub fn code_of<'a>(request: &Request<'a>) -> Option<&'a str> {
    match request {
        Request::Match { code, .. }
        | Request::View { code, .. }
        | Request::Explain { code, .. }
        | Request::Keep { code, .. } => Some(*code),
        _ => None,
    }
}

/// What to say of a CODE that was refused, by what it looks like.
pub fn code_hint(code: &str) -> Option<&'static str> {
    let text = code.trim_start();
    if text.starts_with("(0") {
        return Some(
            "this looks like what tcpdump -d prints: tcpdump -ddd prints a CODE, and mkdemux check --insns makes one of this",
        );
    }
    if text.starts_with("{") {
        return Some(
            "this looks like what tcpdump -dd prints: tcpdump -ddd prints a CODE, and mkdemux check --insns makes one of this",
        );
    }
    if is_assembler(text) {
        return Some("this looks like assembler text: mkdemux check makes a CODE of it");
    }
    None
}

/// Whether a text begins as assembler text does: with a label, or a mnemonic that no expression begins with.
fn is_assembler(text: &str) -> bool {
    let word = text.split_ascii_whitespace().next().unwrap_or("");
    word.ends_with(":")
        || matches!(
            word,
            "ld" | "ldh"
                | "ldb"
                | "ldi"
                | "ldx"
                | "ldxb"
                | "ldxi"
                | "st"
                | "stx"
                | "jmp"
                | "ja"
                | "jeq"
                | "jgt"
                | "jge"
                | "jset"
                | "ret"
                | "tax"
                | "txa"
        )
}

/// What to say of the input of a request, after the line that says what is wrong where its status is 1.
pub fn hint(
    request: &Request,
    source: &Source<FileInput>,
    is_unread: bool,
    is_refused: bool,
) -> Option<&'static str> {
    if !reads_capture(request) && reads_packets(request) && source.inner().is_capture() {
        return Some("this looks like a capture: --pcap reads it as one");
    }
    if !is_refused {
        return None;
    }
    if let Request::View {
        view: MatchView::Quiet,
        pcap,
        ..
    } = request
    {
        return Some(why_quiet(*pcap, source, is_unread));
    }
    if let Request::Match { stream: false, .. } = request {
        if source.taken() > INPUT_BYTES {
            return Some("with --stream an input may be of any length");
        }
    }
    if !reads_capture(request) || is_unread {
        return None;
    }
    kind_of(source.inner())
}

/// Why `match --quiet` has status 1.
fn why_quiet(pcap: bool, source: &Source<FileInput>, is_unread: bool) -> &'static str {
    if is_unread {
        return "the CODE is no filter, or is refused: without --quiet a line says why";
    }
    if !pcap {
        return "a line is no packet: with --count in place of --quiet its number is printed";
    }
    match kind_of(source.inner()) {
        Some(kind) => kind,
        None => "the capture has a fault: with --count in place of --quiet it is printed",
    }
}

/// Whether the input of a request is a capture.
fn reads_capture(request: &Request) -> bool {
    matches!(
        request,
        Request::Match { pcap: true, .. }
            | Request::View { pcap: true, .. }
            | Request::Explain { pcap: true, .. }
            | Request::Dump { .. }
            | Request::Keep { .. }
    )
}

/// Whether the input of a request is packets.
fn reads_packets(request: &Request) -> bool {
    matches!(
        request,
        Request::Match { .. } | Request::View { .. } | Request::Explain { .. }
    )
}

/// What an input is that is no capture, by its first four bytes, if that is known.
fn kind_of(input: &FileInput) -> Option<&'static str> {
    match u32::from_be_bytes(input.front()?) {
        0x1f8b_0000..=0x1f8b_ffff => Some(
            "the input is compressed: gzip -dc makes a capture of it",
        ),
        0xfd37_7a58 => Some("the input is compressed: xz -dc makes a capture of it"),
        0x425a_6800..=0x425a_68ff => Some(
            "the input is compressed: bzip2 -dc makes a capture of it",
        ),
        0x28b5_2ffd => Some("the input is compressed: zstd -dc makes a capture of it"),
        0x0422_4d18 => Some("the input is compressed: lz4 -dc makes a capture of it"),
        0xa1b2_cd34 | 0x34cd_b2a1 => Some(
            "the input is a modified pcap file: editcap -F pcap makes a capture of it that is read",
        ),
        _ => None,
    }
}
