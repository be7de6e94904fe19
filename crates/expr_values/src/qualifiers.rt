//! What a protocol before a value stands for.

ghost use Rattle.std.specs.Prelude.{◌≡◌};
ghost use Rattle.expr_values.specs.Qualifiers as spec;

use expr_tree::{Carrier, Header, Transport};
use expr_words::Protocol;

/// Whose IPv4 addresses are meant.
pub(crate) fn carrier(protocol: Option<Protocol>) -> Option<Carrier>
    ensures { result ≡ spec.carrier protocol }
{
    let Some(protocol) = protocol else {
        return Some(Carrier::Any);
    };
    match protocol {
        Protocol::Ip => Some(Carrier::Ip),
        Protocol::Arp => Some(Carrier::Arp),
        Protocol::Rarp => Some(Carrier::Rarp),
        _ => None,
    }
}

/// Whether `ip6` is written, where IPv6 addresses may follow.
pub(crate) fn says_ip6(protocol: Option<Protocol>) -> Option<bool>
    ensures { result ≡ spec.says_ip6 protocol }
{
    let Some(protocol) = protocol else {
        return Some(false);
    };
    match protocol {
        Protocol::Ip6 => Some(true),
        _ => None,
    }
}

/// Whether Ethernet addresses may follow.
pub(crate) fn is_ether(protocol: Option<Protocol>) -> bool
    ensures { result ≡ spec.is_ether protocol }
{
    let Some(protocol) = protocol else {
        return false;
    };
    match protocol {
        Protocol::Ether => true,
        _ => false,
    }
}

/// Whose next protocol is meant.
pub(crate) fn header(protocol: Option<Protocol>) -> Option<Header>
    ensures { result ≡ spec.header protocol }
{
    let Some(protocol) = protocol else {
        return Some(Header::Any);
    };
    match protocol {
        Protocol::Ip => Some(Header::Ip),
        Protocol::Ip6 => Some(Header::Ip6),
        Protocol::Ether => Some(Header::Ether),
        _ => None,
    }
}

/// Whose ports are meant.
pub(crate) fn transport(protocol: Option<Protocol>) -> Option<Transport>
    ensures { result ≡ spec.transport protocol }
{
    let Some(protocol) = protocol else {
        return Some(Transport::All);
    };
    match protocol {
        Protocol::Tcp => Some(Transport::Tcp),
        Protocol::Udp => Some(Transport::Udp),
        Protocol::Sctp => Some(Transport::Sctp),
        _ => None,
    }
}
