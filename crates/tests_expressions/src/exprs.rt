//! Filter expressions and their faults. The filters are examples of tcpdump(1) and pcap-filter(7) and such as are in use; which texts
//! libpcap 1.10.3 refuses, and how it reads those that it takes, was tried with it.

use expr_parse::{ExprFaultKind, MAX_LEVELS, parse};
use expr_tree::{
    Calc, Carrier, Header, Kind, Net4, Operator, Relation, Side, Size, Test, Transport,
};
use expr_words::{MAX_TOKENS, Protocol, Refusal, WordFaultKind};
use std::test::Fail;

/// Texts that are no expressions: the fault, and its column.
const FAULTS: [(&str, ExprFaultKind, usize); 49] = [
    ("tcp prt 80", ExprFaultKind::Unexpected, 5),
    ("port http80", ExprFaultKind::Port, 6),
    ("10.0.0.1", ExprFaultKind::Unexpected, 1),
    ("host example.com", ExprFaultKind::Name, 6),
    (
        "host 10.0.0.256",
        ExprFaultKind::Word(WordFaultKind::Address),
        6,
    ),
    ("net 10.0.0.1/8", ExprFaultKind::Mask, 5),
    ("net 10.0.0.0/33", ExprFaultKind::Mask, 14),
    ("src 80", ExprFaultKind::Address, 5),
    ("dst port 70000", ExprFaultKind::Range, 10),
    ("tcp port 80 and", ExprFaultKind::Ends, 16),
    ("tcp port 80 udp port 53", ExprFaultKind::Unexpected, 13),
    ("(tcp or udp", ExprFaultKind::Parenthesis, 1),
    ("tcp or udp)", ExprFaultKind::Parenthesis, 11),
    ("port 80 or 443 or tcp or 22", ExprFaultKind::Unexpected, 26),
    ("tcp[13] & 2", ExprFaultKind::Unexpected, 12),
    ("tcp[13:3] = 1", ExprFaultKind::Size, 8),
    ("tcp[13] & 2 = 2 = 1", ExprFaultKind::Unexpected, 17),
    ("len-14 > 5", ExprFaultKind::Unexpected, 1),
    ("ip[2:2] % 4 + 1 = 2", ExprFaultKind::Rank, 13),
    ("ether host 10.0.0.1", ExprFaultKind::Qualifier, 12),
    ("host 00:11:22:33:44:55", ExprFaultKind::Qualifier, 6),
    ("ip host fe80::1", ExprFaultKind::Qualifier, 1),
    ("ip6 host 10.0.0.1", ExprFaultKind::Qualifier, 1),
    ("icmp port 80", ExprFaultKind::Qualifier, 1),
    ("udp port ssh", ExprFaultKind::Port, 10),
    ("ether proto 0x10000", ExprFaultKind::Range, 13),
    ("ip protochain 6", ExprFaultKind::Refused(Refusal::Loop), 4),
    ("inbound", ExprFaultKind::Refused(Refusal::Direction), 1),
    ("vlan 5000", ExprFaultKind::Range, 6),
    (
        "tcp port 080",
        ExprFaultKind::Word(WordFaultKind::Octal),
        10,
    ),
    ("tcp port 0x", ExprFaultKind::Port, 10),
    ("host ::12345", ExprFaultKind::Ends, 6),
    ("ip6 net 2001:db8::1/32", ExprFaultKind::Mask, 9),
    ("tcp portrange 80 - 90", ExprFaultKind::Unexpected, 18),
    (
        "wlan host 00:11:22:33:44:55",
        ExprFaultKind::Refused(Refusal::LinkType),
        1,
    ),
    ("ip proto tpc", ExprFaultKind::Protocol, 10),
    ("and tcp", ExprFaultKind::Unexpected, 1),
    ("tcp && || udp", ExprFaultKind::Unexpected, 8),
    (
        "tcp @ udp",
        ExprFaultKind::Word(WordFaultKind::Character),
        5,
    ),
    ("port", ExprFaultKind::Ends, 5),
    ("src or dst", ExprFaultKind::Ends, 11),
    ("ether", ExprFaultKind::Unexpected, 1),
    ("tcp src proto 6", ExprFaultKind::Qualifier, 9),
    ("host not", ExprFaultKind::Ends, 9),
    (
        "0x100000000 = 5",
        ExprFaultKind::Word(WordFaultKind::Large),
        1,
    ),
    ("byte 0 = 5", ExprFaultKind::Refused(Refusal::Byte), 1),
    ("ip multicast 5", ExprFaultKind::Unexpected, 14),
    ("tcp multicast", ExprFaultKind::Qualifier, 1),
    ("port 80-90", ExprFaultKind::Port, 6),
];

/// Texts that are expressions.
const FILTERS: [&str; 92] = [
    "ip",
    "ip6",
    "arp",
    "rarp",
    "tcp",
    "udp",
    "icmp",
    "icmp6",
    "igmp",
    "sctp",
    "len > 100",
    "less 128",
    "greater 1000",
    "ether broadcast",
    "ether multicast",
    "ip multicast",
    "ip broadcast or ether proto 0x88cc",
    "ether proto 0x0806",
    "ether proto \\ip and not host 0.0.0.0",
    "ether host 00:0c:29:1f:74:06",
    "ether src 00:11:22:33:44:55 or ether dst ff:ff:ff:ff:ff:ff",
    "ether[0] & 1 = 0 and ip[16] >= 224",
    "ether[12:2] > 1500",
    "stp or ether proto 0x8809",
    "vlan",
    "vlan 100 and tcp port 80",
    "pppoes and ip",
    "mpls",
    "host 10.0.0.1",
    "src host 192.168.1.1 and dst net 10.0.0.0/8",
    "net 192.168.0.0/16",
    "dst net 224.0.0.0/4",
    "src net 172.16.0.0/12 or src net 10.0.0.0/8 or src net 192.168.0.0/16",
    "not (src net 127.0.0.0/8 or dst net 127.0.0.0/8)",
    "host fe80::1",
    "ip6 net 2001:db8::/32",
    "dst host ff02::1 or dst host ff02::2",
    "ip6 and not net fe80::/10 and not net ff00::/8",
    "host 10.1.1.1 and not host 10.1.1.2",
    "port 53",
    "udp port 53",
    "tcp port 80",
    "tcp dst port 443",
    "src port 67 and dst port 68",
    "port 22 or port 80 or port 443",
    "tcp portrange 1024-65535",
    "udp portrange 33434-33534",
    "udp src portrange 5000-6000 and udp dst portrange 1-1023",
    "not port 22",
    "ip and udp and port 123",
    "port 179",
    "tcp[tcpflags] & (tcp-syn|tcp-fin) != 0",
    "tcp[tcpflags] & (tcp-syn|tcp-ack) == tcp-syn",
    "tcp[tcpflags] = tcp-rst or tcp[13] = 0x14",
    "tcp[tcpflags] & tcp-push != 0 and tcp port 80",
    "icmp[icmptype] != icmp-echo and icmp[icmptype] != icmp-echoreply",
    "icmp[icmptype] = icmp-unreach and icmp[icmpcode] = 3",
    "icmp6 and ip6[40] = 135",
    "ip[6:2] & 0x1fff != 0",
    "ip[6] & 0x20 != 0 or ip[6:2] & 0x1fff != 0",
    "ip[8] < 5",
    "ip[0] & 0xf != 5",
    "ip[1] & 0xfc >> 2 == 46",
    "tcp port 80 and (((ip[2:2] - ((ip[0]&0xf)<<2)) - ((tcp[12]&0xf0)>>2)) != 0)",
    "tcp[((tcp[12:1] & 0xf0) >> 2):4] = 0x47455420",
    "tcp[((tcp[12] & 0xf0) >> 2):2] = 0x1603",
    "udp[4:2] - 8 > 512",
    "udp[8] & 0x80 = 0 and udp port 53",
    "len - 14 = ip[2:2]",
    "ip[2:2] * 2 > len + 100",
    "ip[2:2] % 4 = 1 or ip[2:2] / 100 = 3",
    "(ip[12:4] ^ ip[16:4]) & 0xffffff00 = 0",
    "ip[12:4] > ip[16:4]",
    "tcp[0:2] = tcp[2:2] or udp[0:2] = udp[2:2]",
    "tcp[4:4] - tcp[8:4] < 1000 or -tcp[4:4] = tcp[8:4]",
    "ip[ip[0] & 0xf] = 0 and ip[(ip[0]&0xf)<<2] > 10",
    "ether[ether[14] & 0xf : 2] > ether[16:2] | 0x10",
    "(ip[9] = 6 and tcp[2:2] & 0x00ff = 80) or (ip[9] = 17 and udp[2:2] >> 8 = 0)",
    "tcp and port 80 and host 10.0.0.1 and not net 192.168.0.0/16",
    "(tcp or udp) and (port 53 or port 5353 or port 137 or port 138) and not multicast",
    "ip proto 47 or ip proto 50 or ip proto 51 or ip proto 89 or ip proto 103 or ip proto 112",
    "ip6 proto 58 or ip6 proto 43 or ip6 proto 44 or ip6 proto 60",
    "arp and (arp[6:2] = 1 or arp[6:2] = 2) and not arp[24:4] = 0",
    "arp[14:4] = arp[24:4]",
    "host 10.0.0",
    "ip[0] >> 32 = 0",
    "ip[0] / 0 = 1",
    "vlan or ip",
    "not vlan and ip",
    "(vlan 100 and ip) or arp",
    "mpls and arp",
    "tcp portrange 80",
];

#[test]
fn texts_with_a_fault(rt: HostRuntime) -> Result<(), Fail> {
    for (text, kind, column) in FAULTS {
        let found = parse(rt.alloc(), text.as_bytes()).err();
        let fault = found.ok_or("no fault")?;
        assert_eq!(rt; fault.kind, kind, "of {text}");
        assert_eq!(rt; fault.column, column, "of {text}");
    }
    Ok(())
}

#[test]
fn texts_that_are_expressions(rt: HostRuntime) {
    for text in FILTERS {
        assert!(rt; parse(rt.alloc(), text.as_bytes()).is_ok(), "{text}");
    }
}

/// Whether the text is the tree of these nodes, each with its column.
fn is_tree(rt: &HostRuntime, text: &str, nodes: &[(Kind, usize)]) -> Result<bool, Fail> {
    let tree = parse(rt.alloc(), text.as_bytes())
        .ok()
        .ok_or("no expression")?;
    if tree.nodes.len() != nodes.len() {
        return Ok(false);
    }
    for (node, (kind, column)) in tree.nodes.iter().zip(nodes) {
        if node.kind != *kind || node.column != *column {
            return Ok(false);
        }
    }
    Ok(true)
}

fn host(last: u32) -> Kind {
    let address = 0x0a00_0000 | last & 0xff;
    let mask = 0xffff_ffff;
    Kind::Test(Test::Net4(Carrier::Any, Side::Either, Net4 { address, mask }))
}

fn tcp_port(port: u16) -> Kind {
    Kind::Test(Test::Ports(Transport::Tcp, Side::Either, port, port))
}

/// `and` and `or` have one rank, and an address, a number or a name takes the qualifiers before it.
#[test]
fn terms_take_qualifiers_on(rt: HostRuntime) -> Result<(), Fail> {
    let nodes = [
        (tcp_port(80), 1),
        (tcp_port(443), 16),
        (Kind::Or(0, 1), 13),
        (host(1), 24),
        (Kind::And(2, 3), 20),
        (host(2), 41),
        (Kind::Or(4, 5), 38),
    ];
    assert!(rt;
        is_tree(
            &rt,
            "tcp port 80 or 443 and host 10.0.0.1 or 10.0.0.2",
            &nodes
        )?
    );
    Ok(())
}

/// The qualifiers before parentheses are in force again after them.
#[test]
fn qualifiers_in_parentheses(rt: HostRuntime) -> Result<(), Fail> {
    let nodes = [
        (tcp_port(80), 1),
        (host(1), 18),
        (host(2), 35),
        (Kind::Or(1, 2), 32),
        (Kind::And(0, 3), 13),
        (tcp_port(443), 48),
        (Kind::Or(4, 5), 45),
    ];
    assert!(rt;
        is_tree(
            &rt,
            "tcp port 80 and (host 10.0.0.1 or 10.0.0.2) or 443",
            &nodes
        )?
    );
    Ok(())
}

/// A list of values takes the qualifiers as one value does.
#[test]
fn lists_of_values(rt: HostRuntime) -> Result<(), Fail> {
    let nodes = [
        (tcp_port(80), 11),
        (tcp_port(443), 21),
        (Kind::Not(1), 17),
        (Kind::Or(0, 2), 14),
        (Kind::Test(Test::Is(Protocol::Udp)), 30),
        (Kind::And(3, 4), 26),
    ];
    assert!(rt; is_tree(&rt, "tcp port (80 or not 443) and udp", &nodes)?);
    Ok(())
}

fn number(number: u32) -> Kind {
    Kind::Calc(Calc::Number(number))
}

fn operation(operator: Operator, first: usize, second: usize) -> Kind {
    Kind::Calc(Calc::Operation(operator, first, second))
}

/// The operators of C, by its ranks.
#[test]
fn ranks_of_operators(rt: HostRuntime) -> Result<(), Fail> {
    let nodes = [
        (number(0), 4),
        (Kind::Calc(Calc::Bytes(Protocol::Ip, 0, Size::Half)), 1),
        (number(15), 11),
        (number(2), 18),
        (number(1), 22),
        (number(3), 26),
        (operation(Operator::Multiply, 4, 5), 24),
        (operation(Operator::Add, 3, 6), 20),
        (operation(Operator::ShiftLeft, 2, 7), 15),
        (operation(Operator::And, 1, 8), 9),
        (Kind::Calc(Calc::Len), 31),
        (Kind::Calc(Calc::Negate(10)), 30),
        (Kind::Compare(Relation::Equal, 9, 11), 1),
    ];
    assert!(rt; is_tree(&rt, "ip[0:2] & 0xf << 2 + 1 * 3 = -len", &nodes)?);
    Ok(())
}

/// Operators of one rank from the left; `%` between two factors.
#[test]
fn chains_of_operators(rt: HostRuntime) -> Result<(), Fail> {
    let nodes = [
        (number(9), 1),
        (number(4), 5),
        (operation(Operator::Subtract, 0, 1), 3),
        (number(3), 9),
        (operation(Operator::Add, 2, 3), 7),
        (number(7), 15),
        (number(2), 19),
        (operation(Operator::Remainder, 5, 6), 17),
        (Kind::Compare(Relation::GreaterEqual, 4, 7), 1),
    ];
    assert!(rt; is_tree(&rt, "9 - 4 + 3 >= (7 % 2)", &nodes)?);
    Ok(())
}

/// Tags, whole kinds of packets, and no text at all.
#[test]
fn tests_without_values(rt: HostRuntime) -> Result<(), Fail> {
    let nodes = [
        (Kind::Test(Test::Vlan(Some(5))), 5),
        (Kind::Not(0), 1),
        (Kind::Test(Test::Proto(Header::Ether, 0x8863)), 16),
        (Kind::And(1, 2), 12),
        (Kind::Test(Test::Mpls(None)), 26),
        (Kind::Or(3, 4), 23),
        (Kind::Test(Test::EtherMulticast), 35),
        (Kind::And(5, 6), 31),
    ];
    assert!(rt; is_tree(&rt, "not vlan 5 and pppoed or mpls and multicast", &nodes)?);
    assert!(rt; is_tree(&rt, " \n", &[(Kind::Every, 1)])?);
    Ok(())
}

/// A text of so many of the one, an end, and so many of the other.
fn nested(
    rt: &HostRuntime,
    opens: &str,
    count: usize,
    end: &str,
    closes: &str,
) -> Result<Vec<u8>, Fail> {
    let mut text = Vec::new(rt.alloc());
    for _ in 0..count {
        text.extend_from_slice(opens.as_bytes())?;
    }
    text.extend_from_slice(end.as_bytes())?;
    for _ in 0..count {
        text.extend_from_slice(closes.as_bytes())?;
    }
    Ok(text)
}

/// Levels are bounded, whatever they are made of.
#[test]
fn levels(rt: HostRuntime) -> Result<(), Fail> {
    for (opens, end, closes) in [("(", "tcp", ")"), ("!", "udp", "")] {
        let most = nested(&rt, opens, MAX_LEVELS, end, closes)?;
        assert!(rt; parse(rt.alloc(), &most).is_ok(), "{opens}");
        let deeper = nested(&rt, opens, MAX_LEVELS + 1, end, closes)?;
        let fault = parse(rt.alloc(), &deeper).err().ok_or("no fault")?;
        assert_eq!(rt; fault.kind, ExprFaultKind::TooDeep, "{opens}");
        assert_eq!(rt; fault.column, MAX_LEVELS + 1, "{opens}");
    }
    Ok(())
}

/// As many tokens as there may be, and one more.
#[test]
fn tokens_at_most(rt: HostRuntime) -> Result<(), Fail> {
    let most = nested(&rt, "tcp or ", MAX_TOKENS / 2 - 1, "not udp", "")?;
    assert!(rt; parse(rt.alloc(), &most).is_ok());
    let longer = nested(&rt, "tcp or ", MAX_TOKENS / 2, "udp", "")?;
    let fault = parse(rt.alloc(), &longer).err().ok_or("no fault")?;
    assert_eq!(rt; fault.kind, ExprFaultKind::Word(WordFaultKind::TooLong));
    Ok(())
}
