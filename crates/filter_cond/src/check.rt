//! Tests of numbers.

use crate::number::{Load, Number};
use bpf_insn::Test;

/// A test of a number of a packet with a constant.
#[derive(Clone, Copy, Debug, PartialEq, Eq)]
pub struct Check {
    /// Which number.
    pub load: Load,
    /// The bits of it that count, if not all.
    pub mask: Option<u32>,
    /// How it is compared.
    pub test: Test,
    /// With what.
    pub value: u32,
}

/// A test of two numbers, of which either may be calculated.
#[derive(Clone, Copy, Debug, PartialEq, Eq)]
pub struct Comparison {
    /// The number that is compared.
    pub left: Number,
    /// How.
    pub test: Test,
    /// With what.
    pub right: Number,
}
