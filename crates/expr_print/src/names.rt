//! Words, as they are printed.

use expr_tree::{Carrier, Header, Operator, Relation, Side, Size, Transport};
use expr_words::Protocol;

pub(crate) fn protocol_word(protocol: Protocol) -> &'static str {
    match protocol {
        Protocol::Ether => "ether",
        Protocol::Ip => "ip",
        Protocol::Ip6 => "ip6",
        Protocol::Arp => "arp",
        Protocol::Rarp => "rarp",
        Protocol::Tcp => "tcp",
        Protocol::Udp => "udp",
        Protocol::Sctp => "sctp",
        Protocol::Icmp => "icmp",
        Protocol::Icmp6 => "icmp6",
        Protocol::Igmp => "igmp",
        Protocol::Igrp => "igrp",
        Protocol::Pim => "pim",
        Protocol::Vrrp => "vrrp",
        Protocol::Carp => "carp",
        Protocol::Ah => "ah",
        Protocol::Esp => "esp",
        Protocol::Stp => "stp",
        Protocol::Iso => "iso",
        Protocol::Ipx => "ipx",
        Protocol::Netbeui => "netbeui",
        Protocol::Atalk => "atalk",
        Protocol::Aarp => "aarp",
        Protocol::Decnet => "decnet",
        Protocol::Lat => "lat",
        Protocol::Sca => "sca",
        Protocol::Moprc => "moprc",
        Protocol::Mopdl => "mopdl",
    }
}

/// The direction, with a blank behind it.
pub(crate) fn side_words(side: Side) -> &'static str {
    match side {
        Side::Either => "",
        Side::Src => "src ",
        Side::Dst => "dst ",
        Side::Both => "src and dst ",
    }
}

pub(crate) fn carrier_word(carrier: Carrier) -> &'static str {
    match carrier {
        Carrier::Any => "",
        Carrier::Ip => "ip ",
        Carrier::Arp => "arp ",
        Carrier::Rarp => "rarp ",
    }
}

pub(crate) fn header_word(header: Header) -> &'static str {
    match header {
        Header::Any => "",
        Header::Ip => "ip ",
        Header::Ip6 => "ip6 ",
        Header::Ether => "ether ",
    }
}

pub(crate) fn transport_word(transport: Transport) -> &'static str {
    match transport {
        Transport::All => "",
        Transport::Tcp => "tcp ",
        Transport::Udp => "udp ",
        Transport::Sctp => "sctp ",
    }
}

pub(crate) fn relation_sign(relation: Relation) -> &'static str {
    match relation {
        Relation::Equal => "=",
        Relation::NotEqual => "!=",
        Relation::Less => "<",
        Relation::Greater => ">",
        Relation::LessEqual => "<=",
        Relation::GreaterEqual => ">=",
    }
}

pub(crate) fn operator_sign(operator: Operator) -> &'static str {
    match operator {
        Operator::Or => "|",
        Operator::And => "&",
        Operator::ShiftLeft => "<<",
        Operator::ShiftRight => ">>",
        Operator::Add => "+",
        Operator::Subtract => "-",
        Operator::Multiply => "*",
        Operator::Divide => "/",
        Operator::Remainder => "%",
        Operator::Xor => "^",
    }
}

pub(crate) fn size_number(size: Size) -> u8 {
    match size {
        Size::Byte => 1,
        Size::Half => 2,
        Size::Word => 4,
    }
}
