//! Tokens.

use crate::word::Word;

/// How many tokens a text has at most.
pub const MAX_TOKENS: usize = 8192;

/// A token: what it says, and where it stands.
#[derive(Clone, Copy, Debug, PartialEq, Eq)]
pub struct Token {
    pub word: Word,
    /// Of its first byte, from 1.
    pub column: usize,
    /// In bytes.
    pub width: usize,
}
