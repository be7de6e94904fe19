//! Calculations.

use expr_words::Protocol;

/// How two numbers are joined; all of them wrap at 2^32.
#[derive(Clone, Copy, Debug, PartialEq, Eq)]
pub enum Operator {
    Or,
    And,
    ShiftLeft,
    ShiftRight,
    Add,
    Subtract,
    Multiply,
    Divide,
    Remainder,
    Xor,
}

/// How two numbers are compared.
#[derive(Clone, Copy, Debug, PartialEq, Eq)]
pub enum Relation {
    Equal,
    NotEqual,
    Less,
    Greater,
    LessEqual,
    GreaterEqual,
}

/// How many bytes are loaded.
#[derive(Clone, Copy, Debug, PartialEq, Eq)]
pub enum Size {
    Byte,
    Half,
    Word,
}

/// A calculation; those that it is made of stand before it, by their places.
#[derive(Clone, Copy, Debug, PartialEq, Eq)]
pub enum Calc {
    Number(u32),
    /// The packet's length before any of it was cut off.
    Len,
    /// Bytes of a header, from a place that is calculated.
    Bytes(Protocol, usize, Size),
    Operation(Operator, usize, usize),
    Negate(usize),
}
