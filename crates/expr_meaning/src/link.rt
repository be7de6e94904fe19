//! Link types.

ghost use Rattle.std.specs.Prelude.{◌≡◌};
ghost use Rattle.expr_meaning.specs.Links as spec;

/// What packets begin with, by the names and numbers of libpcap's "Link-layer header types".
#[derive(Clone, Copy, Debug, PartialEq, Eq)]
pub enum Link {
    /// `EN10MB`, 1: Ethernet.
    Ethernet,
    /// `RAW`, 101, and 12: IPv4 or IPv6, as the first four bits say.
    Raw,
    /// `LINUX_SLL`, 113: Linux's header of 16 bytes, with a type at byte 14.
    Cooked,
    /// `LINUX_SLL2`, 276: Linux's header of 20 bytes, with a type at byte 0.
    Cooked2,
    /// `NULL`, 0: an address family of four bytes, in the order of the machine that captured.
    Null,
    /// `LOOP`, 108: an address family of four bytes, the highest first.
    Loop,
    /// `IPV4`, 228.
    Ipv4,
    /// `IPV6`, 229.
    Ipv6,
}

/// The link type with this number in a capture, where expressions know it.
pub fn link_of(number: u32) -> Option<Link>
    ensures { result ≡ spec.link_of number }
{
    match number {
        0 => Some(Link::Null),
        1 => Some(Link::Ethernet),
        12 => Some(Link::Raw),
        101 => Some(Link::Raw),
        108 => Some(Link::Loop),
        113 => Some(Link::Cooked),
        228 => Some(Link::Ipv4),
        229 => Some(Link::Ipv6),
        276 => Some(Link::Cooked2),
        _ => None,
    }
}
