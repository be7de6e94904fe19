//! Numbers of packets.

use bpf_insn::{AluOp, Size};

/// Where a number of a packet lies.
#[derive(Clone, Copy, Debug, PartialEq, Eq)]
pub enum Load {
    /// At a byte of the packet.
    At { size: Size, at: u32 },
    /// At byte `at` plus the length in bytes of the IPv4 header that begins at byte `header`: what follows a header at byte 14
    /// begins at 14.
    Past { size: Size, header: u32, at: u32 },
    /// The packet's length in bytes before any of it was cut off.
    Length,
}

/// An operand of a calculation or of a comparison.
#[derive(Clone, Copy, Debug, PartialEq, Eq)]
pub enum Number {
    /// This number.
    Constant(u32),
    /// A number of the packet.
    Loaded(Load),
    /// The length in bytes of the IPv4 header that begins at byte `at`: four times the low four bits there.
    Header { at: u32 },
    /// The result of the condition's calculation at this index.
    Calculated(usize),
}

/// A calculation, modulo 2^32. It may use the results of those before it.
#[derive(Clone, Copy, Debug, PartialEq, Eq)]
pub enum Calculation {
    /// The number of the packet that lies `at` bytes past byte `base`.
    Indexed {
        size: Size,
        base: Number,
        at: u32,
    },
    /// An operation. A division by 0 has no value.
    Apply {
        op: AluOp,
        left: Number,
        right: Number,
    },
    /// The number that with this one adds up to 0.
    Negate(Number),
}
