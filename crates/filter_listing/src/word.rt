//! Words that are compared.

ghost use Rattle.std.specs.Prelude.{◌≡◌, IsTrue};

/// Whether a word is this text.
pub(crate) fn is_word(word: &[u8], text: &[u8]) -> bool
    ensures yes { IsTrue result → word.now ≡ text.now }
    ensures no { word.now ≡ text.now → IsTrue result }
{
    word == text
}
