//! Tests that are one test of a list.

ghost use Rattle.std.specs.Prelude.{◌≡◌};
ghost use Rattle.expr_meaning.specs.Lists as spec;

use expr_tree::{Carrier, Header, Net4, Net6, Side, Test, Transport};

/// A test, by what it may be a list of.
#[derive(Clone, Copy, Debug, PartialEq, Eq)]
pub enum Item {
    Net4(Carrier, Side, Net4),
    Net6(Side, Net6),
    Mac(Side, u64),
    Ports(Transport, Side, u16, u16),
    Proto(Header, u16),
    /// It is no list.
    Alone,
}

/// What a test may be a list of.
pub fn item_of(test: Test) -> Item
    ensures { result ≡ spec.item_of test }
{
    match test {
        Test::Net4(carrier, side, net) => Item::Net4(carrier, side, net),
        Test::Net6(_, side, net) => Item::Net6(side, net),
        Test::Mac(side, address) => Item::Mac(side, address),
        Test::Ports(transport, side, low, high) => Item::Ports(transport, side, low, high),
        Test::Proto(header, number) => Item::Proto(header, number),
        Test::Is(_) => Item::Alone,
        Test::EtherBroadcast => Item::Alone,
        Test::IpBroadcast => Item::Alone,
        Test::EtherMulticast => Item::Alone,
        Test::IpMulticast => Item::Alone,
        Test::Ip6Multicast => Item::Alone,
        Test::Vlan(_) => Item::Alone,
        Test::Mpls(_) => Item::Alone,
        Test::Pppoes(_) => Item::Alone,
    }
}

/// The same end, and not both.
fn same_side(a: Side, b: Side) -> bool
    ensures { result ≡ spec.same_side a b }
{
    match a {
        Side::Either => b as u8 == 0,
        Side::Src => b as u8 == 1,
        Side::Dst => b as u8 == 2,
        Side::Both => false,
    }
}

fn same_carrier(a: Carrier, b: Carrier) -> bool
    ensures { result ≡ spec.same_carrier a b }
{
    a as u8 == b as u8
}

fn same_transport(a: Transport, b: Transport) -> bool
    ensures { result ≡ spec.same_transport a b }
{
    a as u8 == b as u8
}

fn same_header(a: Header, b: Header) -> bool
    ensures { result ≡ spec.same_header a b }
{
    a as u8 == b as u8
}

fn is_like_net4(carrier: Carrier, side: Side, b: Item) -> bool
    ensures { result ≡ spec.is_like_net4 carrier side b }
{
    match b {
        Item::Net4(c, s, _) => same_carrier(carrier, c) && same_side(side, s),
        Item::Net6(_, _) => false,
        Item::Mac(_, _) => false,
        Item::Ports(_, _, _, _) => false,
        Item::Proto(_, _) => false,
        Item::Alone => false,
    }
}

fn is_like_net6(side: Side, b: Item) -> bool
    ensures { result ≡ spec.is_like_net6 side b }
{
    match b {
        Item::Net4(_, _, _) => false,
        Item::Net6(s, _) => same_side(side, s),
        Item::Mac(_, _) => false,
        Item::Ports(_, _, _, _) => false,
        Item::Proto(_, _) => false,
        Item::Alone => false,
    }
}

fn is_like_mac(side: Side, b: Item) -> bool
    ensures { result ≡ spec.is_like_mac side b }
{
    match b {
        Item::Net4(_, _, _) => false,
        Item::Net6(_, _) => false,
        Item::Mac(s, _) => same_side(side, s),
        Item::Ports(_, _, _, _) => false,
        Item::Proto(_, _) => false,
        Item::Alone => false,
    }
}

fn is_like_ports(transport: Transport, side: Side, b: Item) -> bool
    ensures { result ≡ spec.is_like_ports transport side b }
{
    match b {
        Item::Net4(_, _, _) => false,
        Item::Net6(_, _) => false,
        Item::Mac(_, _) => false,
        Item::Ports(t, s, _, _) => same_transport(transport, t) && same_side(side, s),
        Item::Proto(_, _) => false,
        Item::Alone => false,
    }
}

fn is_like_proto(header: Header, b: Item) -> bool
    ensures { result ≡ spec.is_like_proto header b }
{
    match b {
        Item::Net4(_, _, _) => false,
        Item::Net6(_, _) => false,
        Item::Mac(_, _) => false,
        Item::Ports(_, _, _, _) => false,
        Item::Proto(h, _) => same_header(header, h),
        Item::Alone => false,
    }
}

/// Two tests of one kind with the same qualifiers.
fn alike(a: Item, b: Item) -> bool
    ensures { result ≡ spec.alike a b }
{
    match a {
        Item::Net4(carrier, side, _) => is_like_net4(carrier, side, b),
        Item::Net6(side, _) => is_like_net6(side, b),
        Item::Mac(side, _) => is_like_mac(side, b),
        Item::Ports(transport, side, _, _) => is_like_ports(transport, side, b),
        Item::Proto(header, _) => is_like_proto(header, b),
        Item::Alone => false,
    }
}

/// Whether a test is one more of the list that these are.
pub fn is_one_more(tests: &[Test], test: Test) -> bool
    ensures { result ≡ spec.is_one_more tests.now test }
{
    match tests {
        [] => false,
        [first, ..] => alike(item_of(*first), item_of(test)),
    }
}
