//! Which tests can be asked of a layer.

ghost use Rattle.std.specs.Prelude.{◌≡◌};
ghost use Rattle.expr_meaning.specs.Asked as spec;
ghost use Rattle.expr_meaning.specs.Refused as refused;

use crate::carriage::{Carriage, carriage_of};
use crate::place::Layer;
use expr_tree::{Carrier, Header, Test};
use expr_words::Protocol;

/// The layer tells the protocol with this EtherType or service point from others.
fn tells(layer: Layer, number: u16) -> bool
    ensures { result ≡ spec.tells layer number }
{
    match layer {
        Layer::Labels => number == 0x0800 || number == 0x86dd,
        Layer::Cooked => number > 1500,
        Layer::Ethernet => true,
        Layer::Session => true,
        Layer::Raw => true,
        Layer::Ipv4 => true,
        Layer::Ipv6 => true,
        Layer::Null => true,
        Layer::Loop => true,
    }
}

fn tells_carriage(layer: Layer, carriage: Carriage) -> bool
    ensures { result ≡ spec.tells_carriage layer carriage }
{
    match carriage {
        Carriage::Type(number) => tells(layer, number),
        Carriage::Frame => true,
        Carriage::Both(_) => true,
        Carriage::Ip(_) => true,
        Carriage::Ip6(_) => true,
    }
}

fn tells_carrier(layer: Layer, carrier: Carrier) -> bool
    ensures { result ≡ spec.tells_carrier layer carrier }
{
    match carrier {
        Carrier::Arp => tells(layer, 0x0806),
        Carrier::Rarp => tells(layer, 0x8035),
        Carrier::Any => true,
        Carrier::Ip => true,
    }
}

fn tells_header(layer: Layer, header: Header, number: u16) -> bool
    ensures { result ≡ spec.tells_header layer header number }
{
    match header {
        Header::Ether => tells(layer, number),
        Header::Any => true,
        Header::Ip => true,
        Header::Ip6 => true,
    }
}

fn is_ethernet(layer: Layer) -> bool
    ensures { result ≡ spec.is_ethernet layer }
{
    match layer {
        Layer::Ethernet => true,
        Layer::Labels => false,
        Layer::Session => false,
        Layer::Cooked => false,
        Layer::Raw => false,
        Layer::Ipv4 => false,
        Layer::Ipv6 => false,
        Layer::Null => false,
        Layer::Loop => false,
    }
}

/// The frame is Ethernet's.
fn is_framed(layer: Layer) -> bool
    ensures { result ≡ spec.is_framed layer }
{
    match layer {
        Layer::Ethernet => true,
        Layer::Labels => true,
        Layer::Session => false,
        Layer::Cooked => false,
        Layer::Raw => false,
        Layer::Ipv4 => false,
        Layer::Ipv6 => false,
        Layer::Null => false,
        Layer::Loop => false,
    }
}

/// Whether the layer has what the test asks for.
pub fn can_ask(layer: Layer, test: Test) -> bool
    ensures { result ≡ spec.can_ask layer test }
{
    match test {
        Test::Is(protocol) => tells_carriage(layer, carriage_of(protocol)),
        Test::Net4(carrier, _, _) => tells_carrier(layer, carrier),
        Test::Net6(_, _, _) => true,
        Test::Mac(_, _) => is_framed(layer),
        Test::Ports(_, _, _, _) => true,
        Test::Proto(header, number) => tells_header(layer, header, number),
        Test::EtherBroadcast => is_framed(layer),
        Test::IpBroadcast => true,
        Test::EtherMulticast => is_framed(layer),
        Test::IpMulticast => true,
        Test::Ip6Multicast => true,
        Test::Vlan(_) => is_ethernet(layer),
        Test::Mpls(_) => is_framed(layer),
        Test::Pppoes(_) => is_ethernet(layer),
    }
}

/// The frame's own bytes can be asked for, which behind a session they can't.
fn can_load_frame(layer: Layer) -> bool
    ensures { result ≡ spec.can_load_frame layer }
{
    match layer {
        Layer::Session => false,
        Layer::Ethernet => true,
        Layer::Labels => true,
        Layer::Cooked => true,
        Layer::Raw => true,
        Layer::Ipv4 => true,
        Layer::Ipv6 => true,
        Layer::Null => true,
        Layer::Loop => true,
    }
}

/// Whether bytes of the protocol's header can be asked for.
pub fn can_load(layer: Layer, protocol: Protocol) -> bool
    ensures { result ≡ spec.can_load layer protocol }
{
    match carriage_of(protocol) {
        Carriage::Frame => can_load_frame(layer),
        Carriage::Type(number) => tells(layer, number),
        Carriage::Both(_) => true,
        Carriage::Ip(_) => true,
        Carriage::Ip6(_) => true,
    }
}

/// A tag moves the layer that the tests behind it are about.
pub fn is_tag(test: Test) -> bool
    ensures { result ≡ refused.is_tag test }
{
    match test {
        Test::Vlan(_) => true,
        Test::Mpls(_) => true,
        Test::Pppoes(_) => true,
        Test::Is(_) => false,
        Test::Net4(_, _, _) => false,
        Test::Net6(_, _, _) => false,
        Test::Mac(_, _) => false,
        Test::Ports(_, _, _, _) => false,
        Test::Proto(_, _) => false,
        Test::EtherBroadcast => false,
        Test::IpBroadcast => false,
        Test::EtherMulticast => false,
        Test::IpMulticast => false,
        Test::Ip6Multicast => false,
    }
}
