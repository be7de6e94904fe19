//! What is run on a packet: a program, by the packet's link type.

ghost use Rattle.std.specs.Prelude.{◌≡◌, Err, MatchResult, Ok};
ghost use Rattle.console.specs.Programs.{over_link, programs_of};

use filter_expr::{CompileFault, Link, link_of};
use filter_predecode::Predecoded;

/// Why CODE has no program for a packet.
#[derive(Clone, Copy, Debug, PartialEq, Eq)]
pub enum CodeFault {
    /// This is wrong with the expression: with its text, or with what it says over the packet's link type.
    Compile(CompileFault),
    /// No expression says anything of packets of this link type.
    Link(u32),
}

/// What is run on packets.
#[derive(Drop)]
pub enum Filter {
    /// This, whatever their link type is.
    Same(Predecoded),
    /// What an expression means over their link type.
    ByLink(LinkPrograms),
}

/// The programs of an expression over the link types that expressions know, or why there is none.
pub struct LinkPrograms {
    pub ethernet: Result<Predecoded, CodeFault>,
    pub raw: Result<Predecoded, CodeFault>,
    pub cooked: Result<Predecoded, CodeFault>,
    pub cooked2: Result<Predecoded, CodeFault>,
    pub null: Result<Predecoded, CodeFault>,
    pub loopback: Result<Predecoded, CodeFault>,
    pub ipv4: Result<Predecoded, CodeFault>,
    pub ipv6: Result<Predecoded, CodeFault>,
}

// By hand, so that the proofs of its owners have one call and not a drop of each part.
impl Drop for LinkPrograms {
    fn drop(self) {
        let LinkPrograms {
            ethernet: _,
            raw: _,
            cooked: _,
            cooked2: _,
            null: _,
            loopback: _,
            ipv4: _,
            ipv6: _,
        } = self;
    }
}

impl Filter {
    /// The program that is run on packets of a link type, or why there is none. Takes no memory.
    #[inline(always)]
    pub fn program(&self, link: u32) -> Result<&Predecoded, CodeFault>
        ensures { MatchResult result (λ program. programs_of self.now link ≡ Ok program.now) (λ fault. programs_of self.now link ≡ Err fault) }
    {
        match self {
            Filter::Same(program) => Ok(program),
            Filter::ByLink(programs) => programs.program(link),
        }
    }
}

impl LinkPrograms {
    /// The program for packets of a link type, or why there is none.
    fn program(&self, number: u32) -> Result<&Predecoded, CodeFault>
        ensures { MatchResult result (λ program. programs_of (Filter.ByLink self.now) number ≡ Ok program.now) (λ fault. programs_of (Filter.ByLink self.now) number ≡ Err fault) }
    {
        match link_of(number) {
            Some(link) => match self.over(link) {
                Ok(program) => Ok(program),
                Err(fault) => Err(*fault),
            },
            None => Err(CodeFault::Link(number)),
        }
    }

    /// The same of one that expressions know.
    fn over(&self, link: Link) -> &Result<Predecoded, CodeFault>
        ensures { result.now ≡ over_link self.now link }
    {
        match link {
            Link::Ethernet => &self.ethernet,
            Link::Raw => &self.raw,
            Link::Cooked => &self.cooked,
            Link::Cooked2 => &self.cooked2,
            Link::Null => &self.null,
            Link::Loop => &self.loopback,
            Link::Ipv4 => &self.ipv4,
            Link::Ipv6 => &self.ipv6,
        }
    }
}
