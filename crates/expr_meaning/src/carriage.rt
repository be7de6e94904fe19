//! How a packet says which protocols it has.

ghost use Rattle.std.specs.Prelude.{◌≡◌};
ghost use Rattle.expr_meaning.specs.Carriages as spec;

use expr_words::Protocol;

/// Where a protocol's number stands.
#[derive(Clone, Copy, Debug, PartialEq, Eq)]
pub enum Carriage {
    /// It has none: it is the frame itself.
    Frame,
    /// In the layer's type: an EtherType above 1500, else a service point of 802.2.
    Type(u16),
    /// In IPv4's protocol and in IPv6's next header.
    Both(u8),
    /// In IPv4's protocol.
    Ip(u8),
    /// In IPv6's next header.
    Ip6(u8),
}

/// Where a protocol's number stands, and which it is (IANA, "IEEE 802 Numbers" and "Protocol Numbers").
pub fn carriage_of(protocol: Protocol) -> Carriage
    ensures { result ≡ spec.carriage_of protocol }
{
    match protocol {
        Protocol::Ether => Carriage::Frame,
        Protocol::Ip => Carriage::Type(0x0800),
        Protocol::Ip6 => Carriage::Type(0x86dd),
        Protocol::Arp => Carriage::Type(0x0806),
        Protocol::Rarp => Carriage::Type(0x8035),
        Protocol::Tcp => Carriage::Both(6),
        Protocol::Udp => Carriage::Both(17),
        Protocol::Sctp => Carriage::Both(132),
        Protocol::Icmp => Carriage::Ip(1),
        Protocol::Icmp6 => Carriage::Ip6(58),
        Protocol::Igmp => Carriage::Ip(2),
        Protocol::Igrp => Carriage::Ip(9),
        Protocol::Pim => Carriage::Both(103),
        Protocol::Vrrp => Carriage::Ip(112),
        Protocol::Carp => Carriage::Ip(112),
        Protocol::Ah => Carriage::Both(51),
        Protocol::Esp => Carriage::Both(50),
        Protocol::Stp => Carriage::Type(0x42),
        Protocol::Iso => Carriage::Type(0xfe),
        Protocol::Ipx => Carriage::Type(0xe0),
        Protocol::Netbeui => Carriage::Type(0xf0),
        Protocol::Atalk => Carriage::Type(0x809b),
        Protocol::Aarp => Carriage::Type(0x80f3),
        Protocol::Decnet => Carriage::Type(0x6003),
        Protocol::Lat => Carriage::Type(0x6004),
        Protocol::Sca => Carriage::Type(0x6007),
        Protocol::Moprc => Carriage::Type(0x6002),
        Protocol::Mopdl => Carriage::Type(0x6001),
    }
}
