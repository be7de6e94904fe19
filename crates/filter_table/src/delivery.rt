//! What a packet's endpoints get.

use seq::Seq;

/// An endpoint that gets a packet.
#[derive(Clone, Copy, PartialEq, Eq, Debug)]
#[repr(C)]
pub struct Kept {
    pub endpoint: u16,
    /// How many of the packet's bytes it keeps.
    pub kept: u32,
}

/// The endpoints that get a packet, in increasing order.
pub type KeptList = Seq<Kept>;
