//! The protocols that a filter expression names.

/// A protocol by its word in pcap-filter(7); `link` is `ether`.
#[derive(Clone, Copy, Debug, PartialEq, Eq)]
pub enum Protocol {
    Ether,
    Ip,
    Ip6,
    Arp,
    Rarp,
    Tcp,
    Udp,
    Sctp,
    Icmp,
    Icmp6,
    Igmp,
    Igrp,
    Pim,
    Vrrp,
    Carp,
    Ah,
    Esp,
    Stp,
    Iso,
    Ipx,
    Netbeui,
    Atalk,
    Aarp,
    Decnet,
    Lat,
    Sca,
    Moprc,
    Mopdl,
}
