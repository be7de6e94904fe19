//! What the words of a line say.

ghost use Rattle.std.specs.Prelude.{◌≡◌};
ghost use Rattle.std.specs.List.{list_any, list_all};
ghost use Rattle.std.specs.Char.{is_ascii_digit};
ghost use Rattle.line_words.specs.Words.{texts};
ghost use Rattle.trace_lines.specs.Words as spec;

use line_words::word_at;

fn are_digits(bytes: &[u8]) -> bool
    ensures { result ≡ list_all is_ascii_digit bytes.now }
{
    bytes.iter().all(|b| b.is_ascii_digit())
}

/// Whether the word is one decimal digit or more.
pub(crate) fn is_number(word: &[u8]) -> bool
    ensures { result ≡ spec.is_number word.now }
{
    !word.is_empty() && are_digits(word)
}

/// Whether the first word is this one.
pub(crate) fn says(word: &[u8], words: &[&[u8]]) -> bool
    ensures { result ≡ spec.says word.now (texts words.now) }
{
    word_at(words, 0) == word
}

/// Whether the first word is this one, and a number follows.
pub(crate) fn says_number(word: &[u8], words: &[&[u8]]) -> bool
    ensures { result ≡ spec.says_number word.now (texts words.now) }
{
    says(word, words) && is_number(word_at(words, 1))
}

/// Whether a word is of a refusal, a veto or an event that wasn't done.
fn is_no(word: &[u8]) -> bool
    ensures { result ≡ spec.is_no word.now }
{
    (word == b"refused".as_slice() || word == b"fault".as_slice())
        || (word == b"Budget".as_slice()
            || (word == b"NoMemory".as_slice() || word == b"abort".as_slice()))
}

/// Whether one of the words is.
pub(crate) fn say_no(words: &[&[u8]]) -> bool
    ensures { result ≡ list_any spec.is_no (texts words.now) }
{
    for word in words {
        if is_no(word) {
            return true;
        }
    }
    false
}

/// Whether a first word is of no event.
pub(crate) fn is_other(word: &[u8]) -> bool
    ensures { result ≡ spec.is_other word.now }
{
    (word == b"".as_slice() || word == b"left".as_slice())
        || (word == b"show".as_slice()
            || (word == b"cap".as_slice() || word == b"filter".as_slice()))
}

fn is_plain_byte(b: u8) -> bool
    ensures { result ≡ spec.is_plain b }
{
    (b.is_ascii_alphanumeric() || b == b' ') || (b == b':' || b == b'=')
}

/// Whether a line has no byte that means something to XML.
pub(crate) fn is_plain(line: &[u8]) -> bool
    ensures { result ≡ list_all spec.is_plain line.now }
{
    line.iter().all(|b| is_plain_byte(*b))
}
