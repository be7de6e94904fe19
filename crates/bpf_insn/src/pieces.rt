//! Cutting a text into pieces, and a piece into words.

ghost use Rattle.std.specs.Prelude.{◌≡◌, ◌∷◌, ◌<◌, ◌≤◌, ◌==◌, [], length, position, IfSome, MatchOption};
ghost use Rattle.std.specs.Option.{option_copied};
ghost use Rattle.bpf_insn.specs.Ddd.{is_separator, cuts};
ghost use Rattle.bpf_insn.specs.Parts.{parts_of};
ghost use Rattle.bpf_insn.specs.Texts.{is_blank, words_of};

/// The piece before the first separator, and what stands after that.
pub fn first_piece(text: &[u8]) -> (&[u8], Option<&[u8]>)
    ensures pieces { cuts text.now ≡ words_of result.0.now ∷ parts_of (option_copied result.1) }
    ensures shorter { IfSome result.1 (λ more. length more.now < length text.now) }
    ensures within { length result.0.now ≤ length text.now }
{
    match separator_at(text) {
        Some(end) => (&text[..end], Some(&text[end + 1..])),
        None => (text, None),
    }
}

/// Where the first separator stands.
fn separator_at(text: &[u8]) -> Option<usize>
    ensures { result ≡ position is_separator text.now }
{
    text.iter().position(|b| *b == b',' || *b == b'\n')
}

/// The first word of a piece, and what stands after it.
pub fn first_word(piece: &[u8]) -> Option<(&[u8], &[u8])>
    ensures words { MatchOption result (words_of piece.now ≡ [])
        (λ found. words_of piece.now ≡ found.0.now ∷ words_of found.1.now) }
{
    let mut rest = piece;
    while let Some(end) = blank_at(rest) {
        let word = &rest[..end];
        rest = &rest[end + 1..];
        if !word.is_empty() {
            return Some((word, rest));
        }
    }
    if rest.is_empty() {
        None
    } else {
        Some((rest, &[]))
    }
}

/// Where the first blank stands.
fn blank_at(piece: &[u8]) -> Option<usize>
    ensures { result ≡ position is_blank piece.now }
{
    piece
        .iter()
        .position(|b| *b == b' ' || *b == b'\t' || *b == b'\r')
}
