//! A text as its tokens.

ghost use Rattle.std.specs.Prelude.{◌≡◌, ◌≤◌, ◌⊎◌, length, IfOk, IfErr};
ghost use Rattle.expr_words.specs.declared.fault.WordFaultKind.TheVariants.{NoMemory};
ghost use Rattle.expr_words.specs.Tokens.{Spells, Refuses};

use crate::fault::{WordFault, WordFaultKind};
use crate::scan::{blanks, token_at};
use crate::token::{MAX_TOKENS, Token};
use std::alloc::Global;

/// The tokens of a text, or its first fault.
pub fn tokens(alloc: Global, text: &[u8]) -> Result<Vec<Token>, WordFault>
    ensures spelled { IfOk result (λ v. Spells text.now v.items) }
    ensures few { IfOk result (λ v. length v.items ≤ MAX_TOKENS) }
    ensures fault { IfErr result (λ f. (f.kind ≡ NoMemory) ⊎ Refuses text.now f) }
{
    let mut tokens = Vec::new(alloc);
    let mut place = 0;
    'tokens: loop {
        place += blanks(&text[place..]);
        if place == text.len() {
            return Ok(tokens);
        }
        let column = place + 1;
        let found = token_at(&text[place..]);
        let width = found.width;
        let word = match found.outcome {
            Ok(word) => word,
            Err(kind) => return Err(WordFault {
                kind,
                column,
                width,
            }),
        };
        if tokens.len() == MAX_TOKENS {
            let kind = WordFaultKind::TooLong;
            return Err(WordFault {
                kind,
                column,
                width,
            });
        }
        tokens.push(Token {
            word,
            column,
            width,
        })?;
        place += width;
    }
}
