//! Names, and the words at the front of a line.

ghost use Rattle.std.specs.Prelude.{◌≡◌, ◌≤◌, not, length};
ghost use Rattle.std.specs.List.{list_all, position_or_len};
ghost use Rattle.bpf_insn.specs.Texts.{is_blank};
ghost use Rattle.mk_script.specs.Drafts.{behind_word};
ghost use Rattle.mk_script.specs.Words as spec;

use line_words::is_blank;

/// Whether the word is a name.
pub(crate) fn is_name(word: &[u8]) -> bool
    ensures { result ≡ spec.is_name word.now }
{
    let Some((first, more)) = word.split_first() else {
        return false;
    };
    first.is_ascii_alphabetic() && continues_name(more) && more.len() < 32
}

fn continues_name(bytes: &[u8]) -> bool
    ensures { result ≡ list_all spec.continues_name bytes.now }
{
    bytes
        .iter()
        .all(|b| b.is_ascii_alphanumeric() || *b == b'_')
}

/// How many blanks stand at the front.
pub(crate) fn blanks(bytes: &[u8]) -> usize
    ensures place { result ≡ position_or_len (λ b. not (is_blank b)) bytes.now }
    ensures bound { result ≤ length bytes.now }
{
    bytes.iter().take_while(|b| is_blank(**b)).count()
}

/// How many bytes that are no blanks stand at the front.
pub(crate) fn word_len(bytes: &[u8]) -> usize
    ensures place { result ≡ position_or_len is_blank bytes.now }
    ensures bound { result ≤ length bytes.now }
{
    bytes.iter().take_while(|b| !is_blank(**b)).count()
}

/// What stands after the first word.
pub(crate) fn behind_word(bytes: &[u8]) -> &[u8]
    ensures { result.now ≡ behind_word bytes.now }
{
    let (_, word) = bytes.split_at(blanks(bytes));
    let (_, rest) = word.split_at(word_len(word));
    rest
}
