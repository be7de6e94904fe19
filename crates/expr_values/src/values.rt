//! Values.

ghost use Rattle.std.specs.Prelude.{◌≡◌};
ghost use Rattle.expr_values.specs.Values as spec;

use crate::address::{mac_value, v4_value, v6_value};
use crate::kinds::Quals;
use crate::numbers::{name_value, number_value, numbers_value};
use expr_tree::Test;
use expr_words::{Token, Word};

/// The test that the tokens at the front are under these qualifiers, and how many they are; none where they are no value.
#[tactic(auto, unfolding(crate::specs::Values::value))]
pub fn value(quals: Quals, tokens: &[Token]) -> Option<(Test, usize)>
    ensures { result ≡ spec.value quals tokens.now }
{
    let token = tokens.first()?;
    match token.word {
        Word::Number(number) => number_value(quals, number, tokens),
        Word::V4(address) => v4_value(quals, address, tokens),
        Word::V6(address) => v6_value(quals, address, tokens),
        Word::Mac(address) => mac_value(quals, address),
        Word::Name(name) => name_value(quals, name),
        Word::Protocol(_, numbers) => numbers_value(quals, numbers),
        Word::Keyword(_) => None,
        Word::Sign(_) => None,
        Word::Refused(_) => None,
    }
}
