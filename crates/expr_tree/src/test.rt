//! What a test asks of a packet.

use expr_words::Protocol;

/// Which end of a packet is meant.
#[derive(Clone, Copy, Debug, PartialEq, Eq)]
pub enum Side {
    /// `src or dst`, and where nothing is written.
    Either,
    Src,
    Dst,
    /// `src and dst`.
    Both,
}

/// Whose IPv4 addresses are meant.
#[derive(Clone, Copy, Debug, PartialEq, Eq)]
pub enum Carrier {
    /// Those of IPv4, ARP and RARP.
    Any,
    Ip,
    Arp,
    Rarp,
}

/// Whose next protocol is meant.
#[derive(Clone, Copy, Debug, PartialEq, Eq)]
pub enum Header {
    /// That of IPv4 and of IPv6.
    Any,
    Ip,
    Ip6,
    /// The link layer's.
    Ether,
}

/// Whose ports are meant.
#[derive(Clone, Copy, Debug, PartialEq, Eq)]
pub enum Transport {
    /// Those of TCP, UDP and SCTP.
    All,
    Tcp,
    Udp,
    Sctp,
}

/// IPv4 addresses: those that agree with this one in the bits of the mask. The address has no other bits.
#[derive(Clone, Copy, Debug, PartialEq, Eq)]
pub struct Net4 {
    pub address: u32,
    pub mask: u32,
}

/// IPv6 addresses: those that agree with this one in the first bits, 128 at most. The address has no other bits.
#[derive(Clone, Copy, Debug, PartialEq, Eq)]
pub struct Net6 {
    pub address: u128,
    pub bits: u8,
}

/// A test of a packet that is no comparison of numbers.
#[derive(Clone, Copy, Debug, PartialEq, Eq)]
pub enum Test {
    /// `tcp`.
    Is(Protocol),
    /// `host` and `net` with an IPv4 address.
    Net4(Carrier, Side, Net4),
    /// `host` and `net` with an IPv6 address; the flag says that `ip6` is written.
    Net6(bool, Side, Net6),
    /// `ether host`: six octets, the first one highest.
    Mac(Side, u64),
    /// `port` and `portrange`: from a port to another.
    Ports(Transport, Side, u16, u16),
    /// `proto`, and `pppoed`, which is the EtherType 0x8863.
    Proto(Header, u16),
    EtherBroadcast,
    IpBroadcast,
    EtherMulticast,
    IpMulticast,
    Ip6Multicast,
    /// A tag of 802.1Q with this number, up to 4095, or any.
    Vlan(Option<u16>),
    /// A label, up to 1048575, or any.
    Mpls(Option<u32>),
    /// A session, or any.
    Pppoes(Option<u16>),
}
