//! The layer that tests are about.

ghost use Rattle.std.specs.Prelude.{◌≡◌};
ghost use Rattle.expr_meaning.specs.Layers as spec;

use crate::link::Link;

/// What kind of layer it is: how it says what its payload is.
#[derive(Clone, Copy, Debug, PartialEq, Eq)]
pub enum Layer {
    /// By an EtherType, or a length and 802.2's service points.
    Ethernet,
    /// MPLS: by the payload's first four bits, behind the last label.
    Labels,
    /// PPP, within PPPoE: by PPP's numbers.
    Session,
    /// Linux's headers: by an EtherType.
    Cooked,
    /// None: by the payload's first four bits.
    Raw,
    /// It is IPv4.
    Ipv4,
    /// It is IPv6.
    Ipv6,
    /// By an address family, in either order of bytes.
    Null,
    /// By an address family.
    Loop,
}

/// A layer, and the bytes of the packet at which its type stands and at which its payload begins.
#[derive(Clone, Copy, Debug, PartialEq, Eq)]
pub struct Place {
    pub layer: Layer,
    pub type_at: u16,
    pub payload: u16,
}

/// The layer that packets begin with.
pub fn start(link: Link) -> Place
    ensures { result ≡ spec.start link }
{
    match link {
        Link::Ethernet => Place {
            layer: Layer::Ethernet,
            type_at: 12,
            payload: 14,
        },
        Link::Raw => Place {
            layer: Layer::Raw,
            type_at: 0,
            payload: 0,
        },
        Link::Cooked => Place {
            layer: Layer::Cooked,
            type_at: 14,
            payload: 16,
        },
        Link::Cooked2 => Place {
            layer: Layer::Cooked,
            type_at: 0,
            payload: 20,
        },
        Link::Null => Place {
            layer: Layer::Null,
            type_at: 0,
            payload: 4,
        },
        Link::Loop => Place {
            layer: Layer::Loop,
            type_at: 0,
            payload: 4,
        },
        Link::Ipv4 => Place {
            layer: Layer::Ipv4,
            type_at: 0,
            payload: 0,
        },
        Link::Ipv6 => Place {
            layer: Layer::Ipv6,
            type_at: 0,
            payload: 0,
        },
    }
}
