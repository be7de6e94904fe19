//! Qualifiers.

use expr_tree::Side;
use expr_words::Protocol;

/// What a value is.
#[derive(Clone, Copy, Debug, PartialEq, Eq)]
pub enum ValueKind {
    Host,
    Net,
    Port,
    Portrange,
    Proto,
}

/// What the words before a value say of it.
#[derive(Clone, Copy, Debug, PartialEq, Eq)]
pub struct Quals {
    pub protocol: Option<Protocol>,
    pub side: Side,
    pub item: ValueKind,
}
