//! Filter expressions as programs, on packets of Ethernet. What they say was compared with libpcap 1.10.3.

use expr_lower::{LowerFault, lower};
use expr_meaning::Link;
use expr_tree::{
    Calc, Carrier, Header, Kind, Net4, Net6, Operator, Relation, Side, Size, Test, Transport, Tree,
};
use expr_words::Protocol;
use filter_codegen::compile;
use filter_vm::run;
use std::test::Fail;

/// TCP from 10.0.0.1 port 40000 to 192.168.1.2 port 80.
const TCP4: &[u8] = &[
    10, 11, 12, 13, 14, 15, 0, 17, 34, 51, 68, 85, 8, 0, 69, 0, 0, 40, 0, 1, 0, 0, 64, 6, 0, 0, 10,
    0, 0, 1, 192, 168, 1, 2, 156, 64, 0, 80, 0, 0, 0, 1, 0, 0, 0, 0, 80, 2, 0, 0, 0, 0, 0, 0,
];

/// UDP from 192.168.1.2 port 53 to 10.0.0.1 port 6004.
const UDP4: &[u8] = &[
    10, 11, 12, 13, 14, 15, 0, 17, 34, 51, 68, 85, 8, 0, 69, 0, 0, 28, 0, 1, 0, 0, 64, 17, 0, 0,
    192, 168, 1, 2, 10, 0, 0, 1, 0, 53, 23, 116, 0, 8, 0, 0,
];

/// A later fragment of TCP, whose bytes look like ports 80.
const FRAGMENT: &[u8] = &[
    10, 11, 12, 13, 14, 15, 0, 17, 34, 51, 68, 85, 8, 0, 69, 0, 0, 40, 0, 1, 0, 5, 64, 6, 0, 0, 10,
    0, 0, 1, 192, 168, 1, 2, 0, 80, 0, 80, 0, 0, 0, 1, 0, 0, 0, 0, 80, 2, 0, 0, 0, 0, 0, 0,
];

/// UDP from 2001:db8::1 port 53 to 2001:db8::2 port 80.
const UDP6: &[u8] = &[
    10, 11, 12, 13, 14, 15, 0, 17, 34, 51, 68, 85, 134, 221, 96, 0, 0, 0, 0, 8, 17, 64, 32, 1, 13,
    184, 0, 0, 0, 0, 0, 0, 0, 0, 0, 0, 0, 1, 32, 1, 13, 184, 0, 0, 0, 0, 0, 0, 0, 0, 0, 0, 0, 2, 0,
    53, 0, 80, 0, 8, 0, 0,
];

/// ARP of 10.0.0.1 for 192.168.1.2, to all.
const ARP: &[u8] = &[
    255, 255, 255, 255, 255, 255, 0, 17, 34, 51, 68, 85, 8, 6, 0, 1, 8, 0, 6, 4, 0, 1, 0, 17, 34,
    51, 68, 85, 10, 0, 0, 1, 0, 0, 0, 0, 0, 0, 192, 168, 1, 2,
];

/// TCP4 behind a tag of 802.1Q with the number 100.
const TAGGED: &[u8] = &[
    10, 11, 12, 13, 14, 15, 0, 17, 34, 51, 68, 85, 129, 0, 96, 100, 8, 0, 69, 0, 0, 40, 0, 1, 0, 0,
    64, 6, 0, 0, 10, 0, 0, 1, 192, 168, 1, 2, 156, 64, 0, 80, 0, 0, 0, 1, 0, 0, 0, 0, 80, 2, 0, 0,
    0, 0, 0, 0,
];

/// TCP4 behind a label of MPLS, 5, which is the last one.
const LABELLED: &[u8] = &[
    10, 11, 12, 13, 14, 15, 0, 17, 34, 51, 68, 85, 136, 71, 0, 0, 81, 64, 69, 0, 0, 40, 0, 1, 0, 0,
    64, 6, 0, 0, 10, 0, 0, 1, 192, 168, 1, 2, 156, 64, 0, 80, 0, 0, 0, 1, 0, 0, 0, 0, 80, 2, 0, 0,
    0, 0, 0, 0,
];

/// TCP4 without its last 20 bytes, and so without ports.
const CUT: &[u8] = &[
    10, 11, 12, 13, 14, 15, 0, 17, 34, 51, 68, 85, 8, 0, 69, 0, 0, 40, 0, 1, 0, 0, 64, 6, 0, 0, 10,
    0, 0, 1, 192, 168, 1, 2,
];

/// The expression with these nodes.
fn tree(rt: &HostRuntime, kinds: &[Kind]) -> Result<Tree, Fail> {
    let mut tree = Tree::new(rt.alloc());
    for kind in kinds {
        tree.push(*kind, 7)?;
    }
    Ok(tree)
}

/// Which of the packets above the expression takes, in order.
fn taken(rt: &HostRuntime, kinds: &[Kind]) -> Result<[bool; 8], Fail> {
    let tree = tree(rt, kinds)?;
    let cond = lower(rt.alloc(), &tree, Link::Ethernet)
        .ok()
        .ok_or("no condition")?;
    let program = compile(rt.alloc(), &cond, 262_144)
        .ok()
        .ok_or("no program")?;
    let takes = |packet: &[u8], length: u32| run(&program, packet, length).verdict != 0;
    Ok([
        takes(TCP4, 54),
        takes(UDP4, 42),
        takes(FRAGMENT, 54),
        takes(UDP6, 62),
        takes(ARP, 42),
        takes(TAGGED, 58),
        takes(LABELLED, 58),
        takes(CUT, 54),
    ])
}

/// `tcp`
#[test]
fn tcp_alone(rt: HostRuntime) -> Result<(), Fail> {
    let kinds = [Kind::Test(Test::Is(Protocol::Tcp))];
    assert_eq!(rt;
        taken(&rt, &kinds)?,
        [true, false, true, false, false, false, false, true]
    );
    Ok(())
}

/// `ip6`
#[test]
fn ip6_alone(rt: HostRuntime) -> Result<(), Fail> {
    let kinds = [Kind::Test(Test::Is(Protocol::Ip6))];
    assert_eq!(rt;
        taken(&rt, &kinds)?,
        [false, false, false, true, false, false, false, false]
    );
    Ok(())
}

/// `arp`
#[test]
fn arp_alone(rt: HostRuntime) -> Result<(), Fail> {
    let kinds = [Kind::Test(Test::Is(Protocol::Arp))];
    assert_eq!(rt;
        taken(&rt, &kinds)?,
        [false, false, false, false, true, false, false, false]
    );
    Ok(())
}

/// `tcp port 80`
#[test]
fn a_port_of_tcp(rt: HostRuntime) -> Result<(), Fail> {
    let kinds = [Kind::Test(Test::Ports(Transport::Tcp, Side::Either, 80, 80))];
    assert_eq!(rt;
        taken(&rt, &kinds)?,
        [true, false, false, false, false, false, false, false]
    );
    Ok(())
}

/// `udp src port 53`
#[test]
fn a_source_port(rt: HostRuntime) -> Result<(), Fail> {
    let kinds = [Kind::Test(Test::Ports(Transport::Udp, Side::Src, 53, 53))];
    assert_eq!(rt;
        taken(&rt, &kinds)?,
        [false, true, false, true, false, false, false, false]
    );
    Ok(())
}

/// `portrange 6000-6004`
#[test]
fn a_range_of_ports(rt: HostRuntime) -> Result<(), Fail> {
    let kinds = [Kind::Test(Test::Ports(Transport::All, Side::Either, 6000, 6004))];
    assert_eq!(rt;
        taken(&rt, &kinds)?,
        [false, true, false, false, false, false, false, false]
    );
    Ok(())
}

/// `host 10.0.0.1`
#[test]
fn a_host(rt: HostRuntime) -> Result<(), Fail> {
    let kinds = [Kind::Test(Test::Net4(
        Carrier::Any,
        Side::Either,
        Net4 {
            address: 167772161,
            mask: 4294967295,
        },
    ))];
    assert_eq!(rt;
        taken(&rt, &kinds)?,
        [true, true, true, false, true, false, false, true]
    );
    Ok(())
}

/// `src host 10.0.0.1 and not arp`
#[test]
fn a_source_that_is_not_asked_of_arp(rt: HostRuntime) -> Result<(), Fail> {
    let kinds = [
        Kind::Test(Test::Net4(
            Carrier::Any,
            Side::Src,
            Net4 {
                address: 167772161,
                mask: 4294967295,
            },
        )),
        Kind::Test(Test::Is(Protocol::Arp)),
        Kind::Not(1),
        Kind::And(0, 2),
    ];
    assert_eq!(rt;
        taken(&rt, &kinds)?,
        [true, false, true, false, false, false, false, true]
    );
    Ok(())
}

/// `net 192.168.0.0/16`
#[test]
fn a_net(rt: HostRuntime) -> Result<(), Fail> {
    let kinds = [Kind::Test(Test::Net4(
        Carrier::Any,
        Side::Either,
        Net4 {
            address: 3232235520,
            mask: 4294901760,
        },
    ))];
    assert_eq!(rt;
        taken(&rt, &kinds)?,
        [true, true, true, false, true, false, false, true]
    );
    Ok(())
}

/// `arp dst host 192.168.1.2`
#[test]
fn the_destination_of_arp(rt: HostRuntime) -> Result<(), Fail> {
    let kinds = [Kind::Test(Test::Net4(
        Carrier::Arp,
        Side::Dst,
        Net4 {
            address: 3232235778,
            mask: 4294967295,
        },
    ))];
    assert_eq!(rt;
        taken(&rt, &kinds)?,
        [false, false, false, false, true, false, false, false]
    );
    Ok(())
}

/// `src net 2001:db8::/33`
#[test]
fn a_net_whose_mask_ends_within_a_word(rt: HostRuntime) -> Result<(), Fail> {
    let kinds = [Kind::Test(Test::Net6(
        false,
        Side::Src,
        Net6 {
            address: 42540766411282592856903984951653826560,
            bits: 33,
        },
    ))];
    assert_eq!(rt;
        taken(&rt, &kinds)?,
        [false, false, false, true, false, false, false, false]
    );
    Ok(())
}

/// `ether src 00:11:22:33:44:55`
#[test]
fn an_ethernet_address(rt: HostRuntime) -> Result<(), Fail> {
    let kinds = [Kind::Test(Test::Mac(Side::Src, 73588229205))];
    assert_eq!(rt;
        taken(&rt, &kinds)?,
        [true, true, true, true, true, true, true, true]
    );
    Ok(())
}

/// `ether broadcast`
#[test]
fn ether_broadcast(rt: HostRuntime) -> Result<(), Fail> {
    let kinds = [Kind::Test(Test::EtherBroadcast)];
    assert_eq!(rt;
        taken(&rt, &kinds)?,
        [false, false, false, false, true, false, false, false]
    );
    Ok(())
}

/// `ip proto 17 or ip proto 6`
#[test]
fn two_protocols(rt: HostRuntime) -> Result<(), Fail> {
    let kinds = [
        Kind::Test(Test::Proto(Header::Ip, 17)),
        Kind::Test(Test::Proto(Header::Ip, 6)),
        Kind::Or(0, 1),
    ];
    assert_eq!(rt;
        taken(&rt, &kinds)?,
        [true, true, true, false, false, false, false, true]
    );
    Ok(())
}

/// `ether proto 0x806`
#[test]
fn an_ether_type(rt: HostRuntime) -> Result<(), Fail> {
    let kinds = [Kind::Test(Test::Proto(Header::Ether, 2054))];
    assert_eq!(rt;
        taken(&rt, &kinds)?,
        [false, false, false, false, true, false, false, false]
    );
    Ok(())
}

/// `vlan 100 and tcp port 80`
#[test]
fn behind_a_tag(rt: HostRuntime) -> Result<(), Fail> {
    let kinds = [
        Kind::Test(Test::Vlan(Some(100))),
        Kind::Test(Test::Ports(Transport::Tcp, Side::Either, 80, 80)),
        Kind::And(0, 1),
    ];
    assert_eq!(rt;
        taken(&rt, &kinds)?,
        [false, false, false, false, false, true, false, false]
    );
    Ok(())
}

/// `mpls 5 and host 10.0.0.1`
#[test]
fn behind_a_label(rt: HostRuntime) -> Result<(), Fail> {
    let kinds = [
        Kind::Test(Test::Mpls(Some(5))),
        Kind::Test(Test::Net4(
            Carrier::Any,
            Side::Either,
            Net4 {
                address: 167772161,
                mask: 4294967295,
            },
        )),
        Kind::And(0, 1),
    ];
    assert_eq!(rt;
        taken(&rt, &kinds)?,
        [false, false, false, false, false, false, true, false]
    );
    Ok(())
}

/// `tcp[13] & 2 != 0`
#[test]
fn flags(rt: HostRuntime) -> Result<(), Fail> {
    let kinds = [
        Kind::Calc(Calc::Number(13)),
        Kind::Calc(Calc::Bytes(Protocol::Tcp, 0, Size::Byte)),
        Kind::Calc(Calc::Number(2)),
        Kind::Calc(Calc::Operation(Operator::And, 1, 2)),
        Kind::Calc(Calc::Number(0)),
        Kind::Compare(Relation::NotEqual, 3, 4),
    ];
    assert_eq!(rt;
        taken(&rt, &kinds)?,
        [true, false, false, false, false, false, false, false]
    );
    Ok(())
}

/// `greater 60`
#[test]
fn a_length(rt: HostRuntime) -> Result<(), Fail> {
    let kinds = [
        Kind::Calc(Calc::Len),
        Kind::Calc(Calc::Number(60)),
        Kind::Compare(Relation::GreaterEqual, 0, 1),
    ];
    assert_eq!(rt;
        taken(&rt, &kinds)?,
        [false, false, false, true, false, false, false, false]
    );
    Ok(())
}

/// `not tcp port 80`
#[test]
fn a_cut_packet_has_no_value(rt: HostRuntime) -> Result<(), Fail> {
    let kinds = [
        Kind::Test(Test::Ports(Transport::Tcp, Side::Either, 80, 80)),
        Kind::Not(0),
    ];
    assert_eq!(rt;
        taken(&rt, &kinds)?,
        [false, true, true, true, true, true, true, false]
    );
    Ok(())
}

/// `host 10.9.9.9 or host 10.0.0.1`
#[test]
fn a_list(rt: HostRuntime) -> Result<(), Fail> {
    let kinds = [
        Kind::Test(Test::Net4(
            Carrier::Any,
            Side::Either,
            Net4 {
                address: 168364297,
                mask: 4294967295,
            },
        )),
        Kind::Test(Test::Net4(
            Carrier::Any,
            Side::Either,
            Net4 {
                address: 167772161,
                mask: 4294967295,
            },
        )),
        Kind::Or(0, 1),
    ];
    assert_eq!(rt;
        taken(&rt, &kinds)?,
        [true, true, true, false, true, false, false, true]
    );
    Ok(())
}

/// `ip[6:2] & 0x1fff = 0 and 80 < 90`
#[test]
fn numbers_alone(rt: HostRuntime) -> Result<(), Fail> {
    let kinds = [
        Kind::Calc(Calc::Number(6)),
        Kind::Calc(Calc::Bytes(Protocol::Ip, 0, Size::Half)),
        Kind::Calc(Calc::Number(8191)),
        Kind::Calc(Calc::Operation(Operator::And, 1, 2)),
        Kind::Calc(Calc::Number(0)),
        Kind::Compare(Relation::Equal, 3, 4),
        Kind::Calc(Calc::Number(80)),
        Kind::Calc(Calc::Number(90)),
        Kind::Compare(Relation::Less, 6, 7),
        Kind::And(5, 8),
    ];
    assert_eq!(rt;
        taken(&rt, &kinds)?,
        [true, true, false, false, false, false, false, true]
    );
    Ok(())
}

/// The fault of an expression over a link type, where it has one.
fn fault(rt: &HostRuntime, kinds: &[Kind], link: Link) -> Result<Option<LowerFault>, Fail> {
    let tree = tree(rt, kinds)?;
    Ok(lower(rt.alloc(), &tree, link).err())
}

const VLAN: Kind = Kind::Test(Test::Vlan(None));

const IP: Kind = Kind::Test(Test::Is(Protocol::Ip));

#[test]
fn refused_by_the_layer(rt: HostRuntime) -> Result<(), Fail> {
    assert_eq!(rt; fault(&rt, &[VLAN], Link::Ethernet)?, None);
    assert_eq!(rt;
        fault(&rt, &[VLAN], Link::Raw)?,
        Some(LowerFault::Layer { column: 7 })
    );
    let behind = [
        Kind::Test(Test::Mpls(None)),
        Kind::Test(Test::Is(Protocol::Arp)),
        Kind::And(0, 1),
    ];
    assert_eq!(rt;
        fault(&rt, &behind, Link::Ethernet)?,
        Some(LowerFault::Layer { column: 7 })
    );
    Ok(())
}

/// A tag that may be missing moves nothing that is told.
#[test]
fn refused_behind_a_tag(rt: HostRuntime) -> Result<(), Fail> {
    let moved = Some(LowerFault::Moved { column: 7 });
    assert_eq!(rt;
        fault(&rt, &[VLAN, IP, Kind::Or(0, 1)], Link::Ethernet)?,
        moved
    );
    assert_eq!(rt;
        fault(
            &rt,
            &[VLAN, Kind::Not(0), IP, Kind::And(1, 2)],
            Link::Ethernet
        )?,
        moved
    );
    assert_eq!(rt;
        fault(&rt, &[IP, VLAN, Kind::Or(0, 1)], Link::Ethernet)?,
        None
    );
    assert_eq!(rt;
        fault(
            &rt,
            &[IP, VLAN, IP, Kind::And(1, 2), Kind::Or(0, 3)],
            Link::Ethernet
        )?,
        None
    );
    Ok(())
}

#[test]
fn refused_calculations(rt: HostRuntime) -> Result<(), Fail> {
    let number = Kind::Calc(Calc::Number(0));
    for (operator, wanted) in [
        (Operator::Divide, LowerFault::Zero { column: 7 }),
        (Operator::Multiply, LowerFault::TooHard { column: 7 }),
    ] {
        let kinds = [
            Kind::Calc(Calc::Len),
            number,
            Kind::Calc(Calc::Operation(operator, 0, 1)),
            Kind::Compare(Relation::Less, 2, 1),
        ];
        assert_eq!(rt; fault(&rt, &kinds, Link::Null)?, Some(wanted));
    }
    Ok(())
}
