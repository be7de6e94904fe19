//! Whether two trees are one expression.

ghost use Rattle.std.specs.Prelude.{◌≡◌, true, length, map};
ghost use Rattle.expr_tree.specs.Expr.{expr_of};
ghost use Rattle.expr_print.specs.Nodes.{kinds};

use expr_tree::{
    Calc, Carrier, Header, Kind, Net4, Net6, Node, Operator, Relation, Side, Size, Test, Transport,
    Tree,
};
use expr_words::Protocol;

fn same_protocol(first: Protocol, second: Protocol) -> bool
    ensures { result ≡ true → first ≡ second }
{
    first == second
}

fn same_side(first: Side, second: Side) -> bool
    ensures { result ≡ true → first ≡ second }
{
    first == second
}

fn same_carrier(first: Carrier, second: Carrier) -> bool
    ensures { result ≡ true → first ≡ second }
{
    first == second
}

fn same_header(first: Header, second: Header) -> bool
    ensures { result ≡ true → first ≡ second }
{
    first == second
}

fn same_transport(first: Transport, second: Transport) -> bool
    ensures { result ≡ true → first ≡ second }
{
    first == second
}

fn same_relation(first: Relation, second: Relation) -> bool
    ensures { result ≡ true → first ≡ second }
{
    first == second
}

pub(crate) fn same_operator(first: Operator, second: Operator) -> bool
    ensures { result ≡ true → first ≡ second }
{
    first == second
}

fn same_size(first: Size, second: Size) -> bool
    ensures { result ≡ true → first ≡ second }
{
    first == second
}

fn same_net4(first: Net4, second: Net4) -> bool
    ensures { result ≡ true → first ≡ second }
{
    first.address == second.address && first.mask == second.mask
}

fn same_net6(first: Net6, second: Net6) -> bool
    ensures { result ≡ true → first ≡ second }
{
    first.address == second.address && first.bits == second.bits
}

fn same_number(first: Option<u32>, second: Option<u32>) -> bool
    ensures { result ≡ true → first ≡ second }
{
    match first {
        Some(a) => match second {
            Some(b) => a == b,
            None => false,
        },
        None => second.is_none(),
    }
}

fn same_tag(first: Option<u16>, second: Option<u16>) -> bool
    ensures { result ≡ true → first ≡ second }
{
    match first {
        Some(a) => match second {
            Some(b) => a == b,
            None => false,
        },
        None => second.is_none(),
    }
}

fn same_addresses(first: Test, second: Test) -> bool
    ensures { result ≡ true → first ≡ second }
{
    match first {
        Test::Net4(carrier, side, net) => match second {
            Test::Net4(c, s, n) => same_carrier(carrier, c)
                && same_side(side, s)
                && same_net4(net, n),
            _ => false,
        },
        Test::Net6(says_ip6, side, net) => match second {
            Test::Net6(i, s, n) => says_ip6 == i && same_side(side, s) && same_net6(net, n),
            _ => false,
        },
        Test::Mac(side, address) => match second {
            Test::Mac(s, a) => same_side(side, s) && address == a,
            _ => false,
        },
        _ => false,
    }
}

fn same_tags(first: Test, second: Test) -> bool
    ensures { result ≡ true → first ≡ second }
{
    match first {
        Test::Vlan(number) => match second {
            Test::Vlan(n) => same_tag(number, n),
            _ => false,
        },
        Test::Mpls(number) => match second {
            Test::Mpls(n) => same_number(number, n),
            _ => false,
        },
        Test::Pppoes(number) => match second {
            Test::Pppoes(n) => same_tag(number, n),
            _ => false,
        },
        _ => false,
    }
}

fn same_test(first: Test, second: Test) -> bool
    ensures { result ≡ true → first ≡ second }
{
    match first {
        Test::Is(protocol) => match second {
            Test::Is(p) => same_protocol(protocol, p),
            _ => false,
        },
        Test::Ports(transport, side, low, high) => match second {
            Test::Ports(t, s, l, h) => {
                same_transport(transport, t) && same_side(side, s) && low == l && high == h
            }
            _ => false,
        },
        Test::Proto(header, number) => match second {
            Test::Proto(h, n) => same_header(header, h) && number == n,
            _ => false,
        },
        Test::EtherBroadcast => matches!(second, Test::EtherBroadcast),
        Test::IpBroadcast => matches!(second, Test::IpBroadcast),
        Test::EtherMulticast => matches!(second, Test::EtherMulticast),
        Test::IpMulticast => matches!(second, Test::IpMulticast),
        Test::Ip6Multicast => matches!(second, Test::Ip6Multicast),
        Test::Net4(_, _, _) => same_addresses(first, second),
        Test::Net6(_, _, _) => same_addresses(first, second),
        Test::Mac(_, _) => same_addresses(first, second),
        Test::Vlan(_) => same_tags(first, second),
        Test::Mpls(_) => same_tags(first, second),
        Test::Pppoes(_) => same_tags(first, second),
    }
}

fn same_calc(first: Calc, second: Calc) -> bool
    ensures { result ≡ true → first ≡ second }
{
    match first {
        Calc::Number(number) => match second {
            Calc::Number(n) => number == n,
            _ => false,
        },
        Calc::Len => matches!(second, Calc::Len),
        Calc::Bytes(protocol, at, size) => match second {
            Calc::Bytes(p, a, s) => same_protocol(protocol, p) && at == a && same_size(size, s),
            _ => false,
        },
        Calc::Operation(operator, left, right) => match second {
            Calc::Operation(o, l, r) => same_operator(operator, o) && left == l && right == r,
            _ => false,
        },
        Calc::Negate(of) => match second {
            Calc::Negate(o) => of == o,
            _ => false,
        },
    }
}

fn same_kind(first: Kind, second: Kind) -> bool
    ensures { result ≡ true → first ≡ second }
{
    match first {
        Kind::Every => matches!(second, Kind::Every),
        Kind::Test(test) => match second {
            Kind::Test(t) => same_test(test, t),
            _ => false,
        },
        Kind::Compare(relation, left, right) => match second {
            Kind::Compare(o, l, r) => same_relation(relation, o) && left == l && right == r,
            _ => false,
        },
        Kind::Not(of) => match second {
            Kind::Not(o) => of == o,
            _ => false,
        },
        Kind::And(left, right) => match second {
            Kind::And(l, r) => left == l && right == r,
            _ => false,
        },
        Kind::Or(left, right) => match second {
            Kind::Or(l, r) => left == l && right == r,
            _ => false,
        },
        Kind::Calc(calc) => match second {
            Kind::Calc(c) => same_calc(calc, c),
            _ => false,
        },
    }
}

/// Whether the nodes are the same, but for their columns.
fn same_nodes(first: &[Node], second: &[Node]) -> bool
    ensures { result ≡ true → kinds first.now ≡ kinds second.now }
{
    if first.len() != second.len() {
        return false;
    }
    'nodes: for place in 0..first.len() {
        if !same_kind(first[place].kind, second[place].kind) {
            return false;
        }
    }
    true
}

/// Whether two trees have the same nodes, but for their columns: one expression.
pub(crate) fn same_tree(first: &Tree, second: &Tree) -> bool
    ensures { result ≡ true → expr_of first.now ≡ expr_of second.now }
{
    same_nodes(&first.nodes, &second.nodes)
}
