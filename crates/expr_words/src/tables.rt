//! The words of pcap-filter(7) and the names that they take, each with its value.
//!
//! Ports are those of IANA's registry of service names and port numbers, protocols those of its registries of protocol
//! numbers and of EtherTypes, and numbers of ICMP and TCP those of RFC 792, RFC 4443, RFC 9293 and of IANA's registries of
//! ICMP parameters, by the names of pcap-filter(7).

use crate::protocol::Protocol;
use crate::word::{Keyword, NamedPort, Refusal, Sign, Transports, Word};

/// The signs of two bytes.
pub const PAIRS: [(&[u8], Word); 8] = [
    (b"&&", Word::Keyword(Keyword::And)),
    (b"||", Word::Keyword(Keyword::Or)),
    (b">=", Word::Sign(Sign::GreaterEqual)),
    (b"<=", Word::Sign(Sign::LessEqual)),
    (b"!=", Word::Sign(Sign::NotEqual)),
    (b"==", Word::Sign(Sign::Equal)),
    (b"<<", Word::Sign(Sign::ShiftLeft)),
    (b">>", Word::Sign(Sign::ShiftRight)),
];

/// The signs of one byte.
pub const SINGLES: [(&[u8], Word); 17] = [
    (b"(", Word::Sign(Sign::Open)),
    (b")", Word::Sign(Sign::Close)),
    (b"[", Word::Sign(Sign::OpenBracket)),
    (b"]", Word::Sign(Sign::CloseBracket)),
    (b":", Word::Sign(Sign::Colon)),
    (b"/", Word::Sign(Sign::Slash)),
    (b"+", Word::Sign(Sign::Plus)),
    (b"-", Word::Sign(Sign::Minus)),
    (b"*", Word::Sign(Sign::Star)),
    (b"%", Word::Sign(Sign::Percent)),
    (b"&", Word::Sign(Sign::Ampersand)),
    (b"|", Word::Sign(Sign::Bar)),
    (b"^", Word::Sign(Sign::Caret)),
    (b"!", Word::Keyword(Keyword::Not)),
    (b"=", Word::Sign(Sign::Equal)),
    (b"<", Word::Sign(Sign::Less)),
    (b">", Word::Sign(Sign::Greater)),
];

/// Protocols by their words (pcap-filter(7)); `link` is `ether`.
pub const PROTOCOLS: [(&[u8], Protocol); 29] = [
    (b"ether", Protocol::Ether),
    (b"link", Protocol::Ether),
    (b"ip", Protocol::Ip),
    (b"ip6", Protocol::Ip6),
    (b"arp", Protocol::Arp),
    (b"rarp", Protocol::Rarp),
    (b"tcp", Protocol::Tcp),
    (b"udp", Protocol::Udp),
    (b"sctp", Protocol::Sctp),
    (b"icmp", Protocol::Icmp),
    (b"icmp6", Protocol::Icmp6),
    (b"igmp", Protocol::Igmp),
    (b"igrp", Protocol::Igrp),
    (b"pim", Protocol::Pim),
    (b"vrrp", Protocol::Vrrp),
    (b"carp", Protocol::Carp),
    (b"ah", Protocol::Ah),
    (b"esp", Protocol::Esp),
    (b"stp", Protocol::Stp),
    (b"iso", Protocol::Iso),
    (b"ipx", Protocol::Ipx),
    (b"netbeui", Protocol::Netbeui),
    (b"atalk", Protocol::Atalk),
    (b"aarp", Protocol::Aarp),
    (b"decnet", Protocol::Decnet),
    (b"lat", Protocol::Lat),
    (b"sca", Protocol::Sca),
    (b"moprc", Protocol::Moprc),
    (b"mopdl", Protocol::Mopdl),
];

/// The other words of the language (pcap-filter(7)).
pub const KEYWORDS: [(&[u8], Keyword); 21] = [
    (b"src", Keyword::Src),
    (b"dst", Keyword::Dst),
    (b"host", Keyword::Host),
    (b"net", Keyword::Net),
    (b"mask", Keyword::Mask),
    (b"port", Keyword::Port),
    (b"portrange", Keyword::Portrange),
    (b"proto", Keyword::Proto),
    (b"less", Keyword::Less),
    (b"greater", Keyword::Greater),
    (b"broadcast", Keyword::Broadcast),
    (b"multicast", Keyword::Multicast),
    (b"len", Keyword::Len),
    (b"vlan", Keyword::Vlan),
    (b"mpls", Keyword::Mpls),
    (b"pppoed", Keyword::Pppoed),
    (b"pppoes", Keyword::Pppoes),
    (b"and", Keyword::And),
    (b"or", Keyword::Or),
    (b"not", Keyword::Not),
    (b"length", Keyword::Len),
];

/// Numbers by name (pcap-filter(7); RFC 792, RFC 4443, RFC 9293 and IANA, ICMP and ICMPv6 parameters).
pub const NUMBERS: [(&[u8], u32); 57] = [
    (b"icmptype", 0),
    (b"icmpcode", 1),
    (b"icmp6type", 0),
    (b"icmp6code", 1),
    (b"tcpflags", 13),
    (b"tcp-fin", 1),
    (b"tcp-syn", 2),
    (b"tcp-rst", 4),
    (b"tcp-push", 8),
    (b"tcp-ack", 16),
    (b"tcp-urg", 32),
    (b"tcp-ece", 64),
    (b"tcp-cwr", 128),
    (b"icmp-echoreply", 0),
    (b"icmp-unreach", 3),
    (b"icmp-sourcequench", 4),
    (b"icmp-redirect", 5),
    (b"icmp-echo", 8),
    (b"icmp-routeradvert", 9),
    (b"icmp-routersolicit", 10),
    (b"icmp-timxceed", 11),
    (b"icmp-paramprob", 12),
    (b"icmp-tstamp", 13),
    (b"icmp-tstampreply", 14),
    (b"icmp-ireq", 15),
    (b"icmp-ireqreply", 16),
    (b"icmp-maskreq", 17),
    (b"icmp-maskreply", 18),
    (b"icmp6-destinationunreach", 1),
    (b"icmp6-packettoobig", 2),
    (b"icmp6-timeexceeded", 3),
    (b"icmp6-parameterproblem", 4),
    (b"icmp6-echo", 128),
    (b"icmp6-echoreply", 129),
    (b"icmp6-multicastlistenerquery", 130),
    (b"icmp6-multicastlistenerreportv1", 131),
    (b"icmp6-multicastlistenerdone", 132),
    (b"icmp6-routersolicit", 133),
    (b"icmp6-routeradvert", 134),
    (b"icmp6-neighborsolicit", 135),
    (b"icmp6-neighboradvert", 136),
    (b"icmp6-redirect", 137),
    (b"icmp6-routerrenum", 138),
    (b"icmp6-nodeinformationquery", 139),
    (b"icmp6-nodeinformationresponse", 140),
    (b"icmp6-ineighbordiscoverysolicit", 141),
    (b"icmp6-ineighbordiscoveryadvert", 142),
    (b"icmp6-multicastlistenerreportv2", 143),
    (b"icmp6-homeagentdiscoveryrequest", 144),
    (b"icmp6-homeagentdiscoveryreply", 145),
    (b"icmp6-mobileprefixsolicit", 146),
    (b"icmp6-mobileprefixadvert", 147),
    (b"icmp6-certpathsolicit", 148),
    (b"icmp6-certpathadvert", 149),
    (b"icmp6-multicastrouteradvert", 151),
    (b"icmp6-multicastroutersolicit", 152),
    (b"icmp6-multicastrouterterm", 153),
];

/// The words of pcap-filter(7) that are refused.
pub const REFUSALS: [(&[u8], Refusal); 78] = [
    (b"protochain", Refusal::Loop),
    (b"gateway", Refusal::NameService),
    (b"inbound", Refusal::Direction),
    (b"outbound", Refusal::Direction),
    (b"ifindex", Refusal::Interface),
    (b"geneve", Refusal::Geneve),
    (b"byte", Refusal::Byte),
    (b"fddi", Refusal::LinkType),
    (b"tr", Refusal::LinkType),
    (b"wlan", Refusal::LinkType),
    (b"ppp", Refusal::LinkType),
    (b"slip", Refusal::LinkType),
    (b"radio", Refusal::LinkType),
    (b"es-is", Refusal::LinkType),
    (b"is-is", Refusal::LinkType),
    (b"esis", Refusal::LinkType),
    (b"isis", Refusal::LinkType),
    (b"clnp", Refusal::LinkType),
    (b"l1", Refusal::LinkType),
    (b"l2", Refusal::LinkType),
    (b"iih", Refusal::LinkType),
    (b"lsp", Refusal::LinkType),
    (b"snp", Refusal::LinkType),
    (b"csnp", Refusal::LinkType),
    (b"psnp", Refusal::LinkType),
    (b"llc", Refusal::LinkType),
    (b"lane", Refusal::LinkType),
    (b"metac", Refusal::LinkType),
    (b"bcc", Refusal::LinkType),
    (b"oam", Refusal::LinkType),
    (b"oamf4", Refusal::LinkType),
    (b"oamf4ec", Refusal::LinkType),
    (b"oamf4sc", Refusal::LinkType),
    (b"sc", Refusal::LinkType),
    (b"ilmic", Refusal::LinkType),
    (b"vpi", Refusal::LinkType),
    (b"vci", Refusal::LinkType),
    (b"connectmsg", Refusal::LinkType),
    (b"metaconnect", Refusal::LinkType),
    (b"on", Refusal::LinkType),
    (b"ifname", Refusal::LinkType),
    (b"rset", Refusal::LinkType),
    (b"ruleset", Refusal::LinkType),
    (b"rnr", Refusal::LinkType),
    (b"rulenum", Refusal::LinkType),
    (b"srnr", Refusal::LinkType),
    (b"subrulenum", Refusal::LinkType),
    (b"reason", Refusal::LinkType),
    (b"action", Refusal::LinkType),
    (b"fisu", Refusal::LinkType),
    (b"lssu", Refusal::LinkType),
    (b"lsu", Refusal::LinkType),
    (b"msu", Refusal::LinkType),
    (b"hfisu", Refusal::LinkType),
    (b"hlssu", Refusal::LinkType),
    (b"hmsu", Refusal::LinkType),
    (b"sio", Refusal::LinkType),
    (b"opc", Refusal::LinkType),
    (b"dpc", Refusal::LinkType),
    (b"sls", Refusal::LinkType),
    (b"hsio", Refusal::LinkType),
    (b"hopc", Refusal::LinkType),
    (b"hdpc", Refusal::LinkType),
    (b"hsls", Refusal::LinkType),
    (b"type", Refusal::LinkType),
    (b"subtype", Refusal::LinkType),
    (b"direction", Refusal::LinkType),
    (b"dir", Refusal::LinkType),
    (b"address1", Refusal::LinkType),
    (b"addr1", Refusal::LinkType),
    (b"address2", Refusal::LinkType),
    (b"addr2", Refusal::LinkType),
    (b"address3", Refusal::LinkType),
    (b"addr3", Refusal::LinkType),
    (b"address4", Refusal::LinkType),
    (b"addr4", Refusal::LinkType),
    (b"ra", Refusal::LinkType),
    (b"ta", Refusal::LinkType),
];

/// Ports by name (IANA, service names and port numbers).
pub const PORTS: [(&[u8], NamedPort); 36] = [
    (
        b"echo",
        NamedPort {
            number: 7,
            transports: Transports::All,
        },
    ),
    (
        b"discard",
        NamedPort {
            number: 9,
            transports: Transports::All,
        },
    ),
    (
        b"daytime",
        NamedPort {
            number: 13,
            transports: Transports::Tcp,
        },
    ),
    (
        b"ftp-data",
        NamedPort {
            number: 20,
            transports: Transports::Tcp,
        },
    ),
    (
        b"ftp",
        NamedPort {
            number: 21,
            transports: Transports::Tcp,
        },
    ),
    (
        b"ssh",
        NamedPort {
            number: 22,
            transports: Transports::Tcp,
        },
    ),
    (
        b"telnet",
        NamedPort {
            number: 23,
            transports: Transports::Tcp,
        },
    ),
    (
        b"smtp",
        NamedPort {
            number: 25,
            transports: Transports::Tcp,
        },
    ),
    (
        b"time",
        NamedPort {
            number: 37,
            transports: Transports::All,
        },
    ),
    (
        b"domain",
        NamedPort {
            number: 53,
            transports: Transports::All,
        },
    ),
    (
        b"bootps",
        NamedPort {
            number: 67,
            transports: Transports::Udp,
        },
    ),
    (
        b"bootpc",
        NamedPort {
            number: 68,
            transports: Transports::Udp,
        },
    ),
    (
        b"tftp",
        NamedPort {
            number: 69,
            transports: Transports::Udp,
        },
    ),
    (
        b"gopher",
        NamedPort {
            number: 70,
            transports: Transports::Tcp,
        },
    ),
    (
        b"finger",
        NamedPort {
            number: 79,
            transports: Transports::Tcp,
        },
    ),
    (
        b"http",
        NamedPort {
            number: 80,
            transports: Transports::Tcp,
        },
    ),
    (
        b"kerberos",
        NamedPort {
            number: 88,
            transports: Transports::All,
        },
    ),
    (
        b"pop3",
        NamedPort {
            number: 110,
            transports: Transports::Tcp,
        },
    ),
    (
        b"sunrpc",
        NamedPort {
            number: 111,
            transports: Transports::All,
        },
    ),
    (
        b"nntp",
        NamedPort {
            number: 119,
            transports: Transports::Tcp,
        },
    ),
    (
        b"ntp",
        NamedPort {
            number: 123,
            transports: Transports::Udp,
        },
    ),
    (
        b"imap2",
        NamedPort {
            number: 143,
            transports: Transports::Tcp,
        },
    ),
    (
        b"snmp",
        NamedPort {
            number: 161,
            transports: Transports::All,
        },
    ),
    (
        b"snmp-trap",
        NamedPort {
            number: 162,
            transports: Transports::All,
        },
    ),
    (
        b"bgp",
        NamedPort {
            number: 179,
            transports: Transports::Tcp,
        },
    ),
    (
        b"ldap",
        NamedPort {
            number: 389,
            transports: Transports::All,
        },
    ),
    (
        b"https",
        NamedPort {
            number: 443,
            transports: Transports::All,
        },
    ),
    (
        b"syslog",
        NamedPort {
            number: 514,
            transports: Transports::Udp,
        },
    ),
    (
        b"submission",
        NamedPort {
            number: 587,
            transports: Transports::Tcp,
        },
    ),
    (
        b"ldaps",
        NamedPort {
            number: 636,
            transports: Transports::All,
        },
    ),
    (
        b"imaps",
        NamedPort {
            number: 993,
            transports: Transports::Tcp,
        },
    ),
    (
        b"pop3s",
        NamedPort {
            number: 995,
            transports: Transports::Tcp,
        },
    ),
    (
        b"nfs",
        NamedPort {
            number: 2049,
            transports: Transports::All,
        },
    ),
    (
        b"mysql",
        NamedPort {
            number: 3306,
            transports: Transports::Tcp,
        },
    ),
    (
        b"postgresql",
        NamedPort {
            number: 5432,
            transports: Transports::Tcp,
        },
    ),
    (
        b"sip",
        NamedPort {
            number: 5060,
            transports: Transports::All,
        },
    ),
];

/// Numbers of the IPv4 header's protocol field by name (IANA, protocol numbers).
pub const IP_NUMBERS: [(&[u8], u16); 26] = [
    (b"icmp", 1),
    (b"igmp", 2),
    (b"ipencap", 4),
    (b"tcp", 6),
    (b"igp", 9),
    (b"udp", 17),
    (b"ipv6", 41),
    (b"ipv6-route", 43),
    (b"ipv6-frag", 44),
    (b"rsvp", 46),
    (b"gre", 47),
    (b"esp", 50),
    (b"ah", 51),
    (b"ipv6-icmp", 58),
    (b"ipv6-nonxt", 59),
    (b"ipv6-opts", 60),
    (b"eigrp", 88),
    (b"ospf", 89),
    (b"ipip", 94),
    (b"pim", 103),
    (b"ipcomp", 108),
    (b"vrrp", 112),
    (b"l2tp", 115),
    (b"sctp", 132),
    (b"udplite", 136),
    (b"icmp6", 58),
];

/// EtherTypes by name (IANA, IEEE 802 numbers), and service access points of 802.2.
pub const ETHER_NUMBERS: [(&[u8], u16); 16] = [
    (b"ip", 0x0800),
    (b"ip6", 0x86dd),
    (b"arp", 0x0806),
    (b"rarp", 0x8035),
    (b"aarp", 0x80f3),
    (b"atalk", 0x809b),
    (b"decnet", 0x6003),
    (b"lat", 0x6004),
    (b"sca", 0x6007),
    (b"moprc", 0x6002),
    (b"mopdl", 0x6001),
    (b"loopback", 0x9000),
    (b"iso", 0x00fe),
    (b"stp", 0x0042),
    (b"ipx", 0x00e0),
    (b"netbeui", 0x00f0),
];
