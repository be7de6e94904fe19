//! What the packets of an input are.

/// Ethernet, as a link type of captures: that of lines of hexadecimal digits, where none is named.
pub const ETHERNET: u32 = 1;

/// What the packets of an input are.
#[derive(Clone, Copy, PartialEq, Eq, Debug)]
pub enum PacketForm {
    /// Lines of hexadecimal digits, whose packets are of this link type.
    Digits(u32),
    /// Those of a capture: of this link type alone, if one is named.
    Capture(Option<u32>),
}
