//! What a token says.

use crate::protocol::Protocol;

/// A word of the language that is no protocol.
#[derive(Clone, Copy, Debug, PartialEq, Eq)]
pub enum Keyword {
    Src,
    Dst,
    Host,
    Net,
    Mask,
    Port,
    Portrange,
    Proto,
    Less,
    Greater,
    Broadcast,
    Multicast,
    /// `len` or `length`.
    Len,
    Vlan,
    Mpls,
    Pppoed,
    Pppoes,
    /// `and` or `&&`.
    And,
    /// `or` or `||`.
    Or,
    /// `not` or `!`.
    Not,
}

#[derive(Clone, Copy, Debug, PartialEq, Eq)]
pub enum Sign {
    Open,
    Close,
    OpenBracket,
    CloseBracket,
    Colon,
    Slash,
    Plus,
    Minus,
    Star,
    Percent,
    Ampersand,
    Bar,
    Caret,
    /// `=` or `==`.
    Equal,
    NotEqual,
    Less,
    Greater,
    LessEqual,
    GreaterEqual,
    ShiftLeft,
    ShiftRight,
}

/// Why a word of pcap-filter(7) is refused.
#[derive(Clone, Copy, Debug, PartialEq, Eq)]
pub enum Refusal {
    /// A chain of headers needs a loop, which a filter can't have.
    Loop,
    /// It needs a name service.
    NameService,
    /// The bytes of a packet don't say its direction.
    Direction,
    /// The bytes of a packet don't say its interface.
    Interface,
    /// Its inner headers have no fixed place.
    Geneve,
    /// `ether[N]` says it.
    Byte,
    /// It is of a link type that isn't known here.
    LinkType,
}

/// An IPv4 address of one to four bytes: these first, and zeros after them.
#[derive(Clone, Copy, Debug, PartialEq, Eq)]
pub struct V4 {
    pub address: u32,
    /// How many bits were written: 8 for each byte.
    pub bits: u8,
}

/// The transports of a named port.
#[derive(Clone, Copy, Debug, PartialEq, Eq)]
pub enum Transports {
    Tcp,
    Udp,
    /// TCP, UDP and SCTP.
    All,
}

/// The port that a name stands for.
#[derive(Clone, Copy, Debug, PartialEq, Eq)]
pub struct NamedPort {
    pub number: u16,
    pub transports: Transports,
}

/// The two numbers of `LOW-HIGH`, as they are written.
#[derive(Clone, Copy, Debug, PartialEq, Eq)]
pub struct Span {
    pub first: u32,
    pub second: u32,
}

/// What stands for a protocol after `proto`.
#[derive(Clone, Copy, Debug, PartialEq, Eq)]
pub struct Numbers {
    /// In the IPv4 header's protocol field.
    pub ip: Option<u16>,
    /// An EtherType, or a service access point of 802.2.
    pub ether: Option<u16>,
}

/// What a name may stand for, by the word before it.
#[derive(Clone, Copy, Debug, PartialEq, Eq)]
pub struct Name {
    pub port: Option<NamedPort>,
    pub numbers: Numbers,
    pub span: Option<Span>,
}

/// What a token says.
#[derive(Clone, Copy, Debug, PartialEq, Eq)]
pub enum Word {
    Keyword(Keyword),
    Protocol(Protocol, Numbers),
    Sign(Sign),
    Number(u32),
    /// Two to four decimal numbers, joined by dots.
    V4(V4),
    V6(u128),
    /// Six octets, the first one highest.
    Mac(u64),
    /// Any other name, or one after `\`.
    Name(Name),
    /// A word of pcap-filter(7) that is refused.
    Refused(Refusal),
}
