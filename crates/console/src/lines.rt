//! The lines of an input.

ghost use Rattle.std.specs.Prelude.{◌≡◌, ◌∷◌, ◌<◌, ◌≤◌, ◌==◌, [], length, IfSome, MatchOption};
ghost use Rattle.std.specs.List.{position_or_len};
ghost use Rattle.std.specs.Str.Lines.{lines, strip_carriage_return};

use memchr::memchr;

/// The first line of a text, without its end, and the text after it.
///
/// A line ends with LF, or with CR LF; bytes after the last LF, if any, are one more line.
pub fn first_line(text: &[u8]) -> Option<(&[u8], &[u8])>
    ensures lines { MatchOption result (lines text.now ≡ [])
        (λ found. lines text.now ≡ found.0.now ∷ lines found.1.now) }
    ensures shorter { IfSome result (λ found. length found.1.now < length text.now) }
    ensures within { IfSome result (λ found. length found.0.now ≤ length text.now) }
{
    if text.is_empty() {
        return None;
    }
    match newline_at(text) {
        Some(end) => Some((without_return(&text[..end]), &text[end + 1..])),
        None => Some((text, &[])),
    }
}

/// Where the first newline stands.
pub fn newline_at(text: &[u8]) -> Option<usize>
    ensures { MatchOption result (length text.now ≤ position_or_len (λ b. b == 10) text.now)
        (λ end. (end < length text.now) × (position_or_len (λ b. b == 10) text.now ≡ end)) }
{
    memchr(b'\n', text)
}

/// A line without the carriage return at its end.
pub fn without_return(line: &[u8]) -> &[u8]
    ensures rest { result.now ≡ strip_carriage_return line.now }
    ensures within { length result.now ≤ length line.now }
{
    match line.split_last() {
        Some((b'\r', rest)) => rest,
        _ => line,
    }
}
