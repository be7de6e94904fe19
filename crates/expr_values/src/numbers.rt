//! Ports and protocols.

ghost use Rattle.std.specs.Prelude.{◌≡◌};
ghost use Rattle.expr_values.specs.Values as spec;

use crate::address::v4_value;
use crate::kinds::{Quals, ValueKind};
use crate::qualifiers::{header, transport};
use expr_tree::{Header, Side, Test, Transport};
use expr_words::{Name, NamedPort, Numbers, Span, Token, Transports, V4};

/// The test of the ports between two, in either order.
fn ports(transport: Transport, side: Side, first: u32, second: u32) -> Option<(Test, usize)>
    ensures { result ≡ spec.ports transport side first second }
{
    if first > 65535 || second > 65535 {
        return None;
    }
    let (low, high) = (first.min(second), first.max(second));
    Some((Test::Ports(transport, side, low as u16, high as u16), 1))
}

fn port(quals: Quals, first: u32, second: u32) -> Option<(Test, usize)>
    ensures { result ≡ spec.port quals first second }
{
    let transport = transport(quals.protocol)?;
    ports(transport, quals.side, first, second)
}

/// The transport of a named port, where it is one of those that are meant.
fn named_transport(meant: Transport, named: Transports) -> Option<Transport>
    ensures { result ≡ spec.named_transport meant named }
{
    match named {
        Transports::Tcp => match meant {
            Transport::All => Some(Transport::Tcp),
            Transport::Tcp => Some(Transport::Tcp),
            Transport::Udp => None,
            Transport::Sctp => None,
        },
        Transports::Udp => match meant {
            Transport::All => Some(Transport::Udp),
            Transport::Tcp => None,
            Transport::Udp => Some(Transport::Udp),
            Transport::Sctp => None,
        },
        Transports::All => match meant {
            Transport::All => Some(Transport::All),
            Transport::Tcp => Some(Transport::Tcp),
            Transport::Udp => Some(Transport::Udp),
            Transport::Sctp => None,
        },
    }
}

fn named_port(quals: Quals, port: NamedPort) -> Option<(Test, usize)>
    ensures { result ≡ spec.named_port quals port }
{
    let meant = transport(quals.protocol)?;
    let transport = named_transport(meant, port.transports)?;
    Some((
        Test::Ports(transport, quals.side, port.number, port.number),
        1,
    ))
}

/// The test of the next protocol, where the number may be one.
fn next_protocol(header: Header, number: u32) -> Option<(Test, usize)>
    ensures { result ≡ spec.next_protocol header number }
{
    let most = match header {
        Header::Ether => 65535,
        Header::Any => 255,
        Header::Ip => 255,
        Header::Ip6 => 255,
    };
    if number > most {
        return None;
    }
    Some((Test::Proto(header, number as u16), 1))
}

fn protocol(quals: Quals, number: u32) -> Option<(Test, usize)>
    ensures { result ≡ spec.protocol quals number }
{
    let header = header(quals.protocol)?;
    next_protocol(header, number)
}

/// The test of a protocol by name.
pub(crate) fn numbers_value(quals: Quals, numbers: Numbers) -> Option<(Test, usize)>
    ensures { result ≡ spec.numbers_value quals numbers }
{
    match quals.item {
        ValueKind::Proto => named_protocol(quals, numbers),
        ValueKind::Host => None,
        ValueKind::Net => None,
        ValueKind::Port => None,
        ValueKind::Portrange => None,
    }
}

fn named_protocol(quals: Quals, numbers: Numbers) -> Option<(Test, usize)>
    ensures { result ≡ spec.named_protocol quals numbers }
{
    let header = header(quals.protocol)?;
    let number = match header {
        Header::Ether => numbers.ether?,
        Header::Any => numbers.ip?,
        Header::Ip => numbers.ip?,
        Header::Ip6 => numbers.ip?,
    };
    next_protocol(header, u32::from(number))
}

fn span_value(quals: Quals, span: Option<Span>) -> Option<(Test, usize)>
    ensures { result ≡ spec.span_value quals span }
{
    let span = span?;
    port(quals, span.first, span.second)
}

/// The test of what a name stands for.
pub(crate) fn name_value(quals: Quals, name: Name) -> Option<(Test, usize)>
    ensures { result ≡ spec.name_value quals name }
{
    match quals.item {
        ValueKind::Host => None,
        ValueKind::Net => None,
        ValueKind::Port => named_port(quals, name.port?),
        ValueKind::Portrange => span_value(quals, name.span),
        ValueKind::Proto => named_protocol(quals, name.numbers),
    }
}

/// A net of one byte.
fn one_byte(number: u32) -> Option<V4>
    ensures { result ≡ spec.one_byte number }
{
    if number > 255 {
        return None;
    }
    Some(V4 {
        address: number * 16_777_216,
        bits: 8,
    })
}

/// The test of a number.
pub(crate) fn number_value(quals: Quals, number: u32, tokens: &[Token]) -> Option<(Test, usize)>
    ensures { result ≡ spec.number_value quals number tokens.now }
{
    match quals.item {
        ValueKind::Host => None,
        ValueKind::Net => {
            let address = one_byte(number)?;
            v4_value(quals, address, tokens)
        }
        ValueKind::Port => port(quals, number, number),
        ValueKind::Portrange => port(quals, number, number),
        ValueKind::Proto => protocol(quals, number),
    }
}
