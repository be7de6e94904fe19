//! The tests with which a program asks first of what kind a packet is.
//!
//! Programs that ask for different kinds share no group, where one of the kinds is common: a packet would search the constants of kinds
//! that it is not of, and a program that asks for a kind of its own would lie among the others and part their runs. Programs that ask for
//! other kinds do share groups, so that there are few groups of one shape, however many kinds are asked for.

use bpf_insn::{Form, Insn, Size, Test};

/// So many first places of a program are looked at.
const FIRST_PLACES: usize = 64;

/// Which of a program's first places are come to by nothing but tests of a packet's kind.
#[derive(Clone, Copy)]
struct Reached {
    places: [bool; FIRST_PLACES],
}

impl Reached {
    /// The first place alone.
    fn first() -> Reached {
        let mut places = [false; FIRST_PLACES];
        places[0] = true;
        Reached { places }
    }

    /// One place more, if it is among those that are looked at.
    fn add(&mut self, place: usize) {
        if place < FIRST_PLACES {
            self.places[place] = true;
        }
    }
}

/// Whether a load reads of what kind a packet is.
fn loads_kind(form: Option<Form>) -> bool {
    match form {
        Some(
            Form::LdAbs {
                size: Size::Half,
                k,
            },
        ) => is_type(k),
        Some(
            Form::LdAbs {
                size: Size::Byte,
                k,
            },
        ) => is_protocol(k),
        _ => false,
    }
}

/// Whether an Ethernet type mostly lies at a place: in the header of Ethernet, of Linux's cooked captures, or behind a tag.
fn is_type(place: u32) -> bool {
    place == 12 || place == 14 || place == 16
}

/// Whether a protocol over IP mostly lies at a place: byte 9 of a header of IPv4, 6 of one of IPv6, or 40, of the first extension.
fn is_protocol(place: u32) -> bool {
    // (the header itself, or behind one of Ethernet, of cooked captures, or of Ethernet with a tag)
    for header in [0, 14, 16, 18] {
        let within = place.wrapping_sub(header);
        if within == 6 || within == 9 || within == 40 {
            return true;
        }
    }
    false
}

/// Whether many programs ask for an Ethernet type or a protocol over IP of this number.
fn is_common(kind: u32) -> bool {
    match kind {
        // IPv4, ARP, RARP, IPv6, and tags of a VLAN.
        0x0800 | 0x0806 | 0x8035 | 0x86dd | 0x8100 | 0x88a8 | 0x9100 => true,
        // ICMP, TCP, UDP, a fragment of IPv6, ICMPv6, and SCTP.
        1 | 6 | 17 | 44 | 58 | 132 => true,
        _ => false,
    }
}

/// Whether two kinds differ, and one of them is common.
fn are_apart(kind: u32, other: u32) -> bool {
    kind != other && (is_common(kind) || is_common(other))
}

/// Whether a program loads a part of the packet at a place.
fn loads_at(code: &[Insn], place: usize) -> bool {
    if place >= code.len() {
        return false;
    }
    match code[place].form_in_place() {
        Some(Form::LdAbs { .. } | Form::LdInd { .. } | Form::LdxMsh { .. }) => true,
        _ => false,
    }
}

/// Whether two programs, whose instructions differ at most in constants of jumps and returns, ask for different kinds of packet. A test counts
/// if more is loaded where it holds: programs that test nothing but the kind differ in it as others do in a port.
// Not in line: what it needs of the stack is free again before the deeper calls.
#[inline(never)]
pub(crate) fn differ_in_kind(code: &[Insn], other: &[Insn]) -> bool {
    let mut reached = Reached::first();
    for place in 0..code.len().min(other.len()).min(FIRST_PLACES) {
        if reached.places[place] {
            let form = code[place].form_in_place();
            if loads_kind(form) {
                reached.add(place + 1);
            }
            if let Some(
                Form::JmpK {
                    test: Test::Equal,
                    k,
                    jt,
                    jf,
                },
            ) = form
            {
                let held = place + 1 + usize::from(jt);
                if are_apart(k, other[place].k) && loads_at(code, held) {
                    return true;
                }
                reached.add(held);
                reached.add(place + 1 + usize::from(jf));
            }
        }
    }
    false
}
