//! Tests, as they are printed.

use crate::names::{carrier_word, header_word, protocol_word, side_words, transport_word};
use expr_tree::{Net4, Net6, Test};
use std::alloc::AllocError;
use std::fmt::Write;

fn print_v4(text: &mut String, address: u32) -> Result<(), AllocError> {
    let [a, b, c, d] = address.to_be_bytes();
    write!(text, "{a}.{b}.{c}.{d}")
}

/// Eight groups of hexadecimal digits.
fn print_v6(text: &mut String, address: u128) -> Result<(), AllocError> {
    let group = |shift: u32| (address >> shift & 0xffff) as u16;
    let (a, b, c, d) = (group(112), group(96), group(80), group(64));
    let (e, f, g, h) = (group(48), group(32), group(16), group(0));
    write!(text, "{a:x}:{b:x}:{c:x}:{d:x}:")?;
    write!(text, "{e:x}:{f:x}:{g:x}:{h:x}")
}

fn print_mac(text: &mut String, address: u64) -> Result<(), AllocError> {
    let [_, _, a, b, c, d, e, f] = address.to_be_bytes();
    write!(text, "{a:02x}:{b:02x}:{c:02x}:{d:02x}:{e:02x}:{f:02x}")
}

fn print_net4(text: &mut String, net: Net4) -> Result<(), AllocError> {
    if net.mask == u32::MAX {
        write!(text, "host ")?;
        return print_v4(text, net.address);
    }
    write!(text, "net ")?;
    print_v4(text, net.address)?;
    write!(text, " mask ")?;
    print_v4(text, net.mask)
}

fn print_net6(text: &mut String, net: Net6) -> Result<(), AllocError> {
    if net.bits == 128 {
        write!(text, "host ")?;
        return print_v6(text, net.address);
    }
    write!(text, "net ")?;
    print_v6(text, net.address)?;
    let bits = net.bits;
    write!(text, "/{bits}")
}

fn print_ports(text: &mut String, low: u16, high: u16) -> Result<(), AllocError> {
    if low == high {
        write!(text, "port {low}")
    } else {
        write!(text, "portrange {low}-{high}")
    }
}

/// A word, and a number where there is one.
fn print_tag(text: &mut String, word: &str, number: Option<u32>) -> Result<(), AllocError> {
    write!(text, "{word}")?;
    match number {
        Some(number) => write!(text, " {number}"),
        None => Ok(()),
    }
}

pub(crate) fn print_test(text: &mut String, test: Test) -> Result<(), AllocError> {
    match test {
        Test::Is(protocol) => write!(text, "{}", protocol_word(protocol)),
        Test::Net4(carrier, side, net) => {
            write!(text, "{}{}", carrier_word(carrier), side_words(side))?;
            print_net4(text, net)
        }
        Test::Net6(says_ip6, side, net) => {
            let word = if says_ip6 { "ip6 " } else { "" };
            write!(text, "{word}{}", side_words(side))?;
            print_net6(text, net)
        }
        Test::Mac(side, address) => {
            write!(text, "ether {}host ", side_words(side))?;
            print_mac(text, address)
        }
        Test::Ports(transport, side, low, high) => {
            write!(text, "{}{}", transport_word(transport), side_words(side))?;
            print_ports(text, low, high)
        }
        Test::Proto(header, number) => write!(text, "{}proto {number}", header_word(header)),
        Test::EtherBroadcast => write!(text, "ether broadcast"),
        Test::IpBroadcast => write!(text, "ip broadcast"),
        Test::EtherMulticast => write!(text, "ether multicast"),
        Test::IpMulticast => write!(text, "ip multicast"),
        Test::Ip6Multicast => write!(text, "ip6 multicast"),
        Test::Vlan(number) => print_tag(text, "vlan", number.map(u32::from)),
        Test::Mpls(number) => print_tag(text, "mpls", number),
        Test::Pppoes(number) => print_tag(text, "pppoes", number.map(u32::from)),
    }
}
