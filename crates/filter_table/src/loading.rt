//! Operations that bring a program, without it.

/// What is asked for with a program that lies elsewhere.
#[derive(Clone, Copy, PartialEq, Eq, Debug)]
pub enum Load {
    /// `Op::Install`: a filter for the endpoint of the capability.
    Install { domain: u16, cap: u32 },
    /// `Op::Replace`: the filter gets this program in place of its own.
    Replace { domain: u16, filter: u32 },
}
