//! Why tokens are no value under their qualifiers.

use crate::fault::ExprFaultKind;
use crate::operators::join_at;
use crate::words::{number, sees, sees_word};
use expr_values::{Quals, ValueKind};
use expr_words::{Keyword, Protocol, Sign, Token, Word};

/// A fault of a value: of a token, so many behind its first, or of its qualifiers.
#[derive(Clone, Copy, Debug)]
pub(crate) struct ValueFault {
    pub kind: ExprFaultKind,
    pub at: Option<usize>,
}

/// A fault of the value's first token.
fn of_value(kind: ExprFaultKind) -> ValueFault {
    ValueFault { kind, at: Some(0) }
}

/// The qualifiers have no such values.
const QUALIFIERS: ValueFault = ValueFault {
    kind: ExprFaultKind::Qualifier,
    at: None,
};

/// The tokens behind the first one.
fn behind(tokens: &[Token], count: usize) -> &[Token] {
    tokens.get(count..).unwrap_or_default()
}

/// Of ports.
fn port_fault(quals: Quals, word: Word) -> ValueFault {
    match quals.protocol {
        None | Some(Protocol::Tcp | Protocol::Udp | Protocol::Sctp) => match word {
            Word::Number(_) => of_value(ExprFaultKind::Range),
            Word::Name(name) if name.span.is_some() && matches!(quals.item, ValueKind::Portrange) =>
                { of_value(ExprFaultKind::Range) }
            _ => of_value(ExprFaultKind::Port),
        },
        Some(_) => QUALIFIERS,
    }
}

/// Of protocols.
fn protocol_fault(quals: Quals, word: Word) -> ValueFault {
    match quals.protocol {
        None | Some(Protocol::Ether | Protocol::Ip | Protocol::Ip6) => match word {
            Word::Number(_) => of_value(ExprFaultKind::Range),
            _ => of_value(ExprFaultKind::Protocol),
        },
        Some(_) => QUALIFIERS,
    }
}

/// Of the mask behind an address, where it has one.
fn mask_fault(quals: Quals, most: u32, rest: &[Token]) -> ValueFault {
    let is_slash = sees(Sign::Slash, rest);
    if !is_slash && !sees_word(Keyword::Mask, rest) {
        return of_value(ExprFaultKind::Mask);
    }
    let kind = ExprFaultKind::Mask;
    if !matches!(quals.item, ValueKind::Net) {
        return ValueFault { kind, at: Some(1) };
    }
    let fits = match behind(rest, 1).first() {
        Some(token) => match token.word {
            Word::Number(bits) => is_slash && bits <= most,
            Word::V4(_) => !is_slash,
            _ => false,
        },
        None => false,
    };
    ValueFault {
        kind,
        at: Some(if fits { 0 } else { 2 }),
    }
}

/// Of addresses.
fn address_fault(quals: Quals, word: Word, rest: &[Token]) -> ValueFault {
    let is_ether = matches!(quals.protocol, Some(Protocol::Ether));
    match word {
        Word::Mac(_) => of_value(ExprFaultKind::Qualifier),
        _ if is_ether => of_value(ExprFaultKind::Qualifier),
        Word::V6(_) => match quals.protocol {
            None | Some(Protocol::Ip6) => mask_fault(quals, 128, rest),
            Some(_) => QUALIFIERS,
        },
        Word::V4(_) | Word::Number(_) => match quals.protocol {
            None | Some(Protocol::Ip | Protocol::Arp | Protocol::Rarp) => number_fault(
                quals, word, rest,
            ),
            Some(_) => QUALIFIERS,
        },
        _ => of_value(ExprFaultKind::Name),
    }
}

/// Of IPv4 addresses.
fn number_fault(quals: Quals, word: Word, rest: &[Token]) -> ValueFault {
    match word {
        Word::Number(byte) if byte > 255 || !matches!(quals.item, ValueKind::Net) => {
            of_value(ExprFaultKind::Address)
        }
        _ => mask_fault(quals, 32, rest),
    }
}

/// Whether something comes that can't stand behind a value.
fn goes_on(tokens: &[Token]) -> bool {
    !tokens.is_empty() && join_at(tokens).is_none() && !sees(Sign::Close, tokens)
}

/// Why the tokens are no value under these qualifiers.
pub(crate) fn value_fault(quals: Quals, tokens: &[Token]) -> ValueFault {
    let Some(token) = tokens.first() else {
        return of_value(ExprFaultKind::Ends);
    };
    let rest = behind(tokens, 1);
    match token.word {
        Word::Sign(_) | Word::Refused(_) => return of_value(ExprFaultKind::Ends),
        Word::Name(_) if goes_on(rest) => return of_value(ExprFaultKind::Unexpected),
        _ => (),
    }
    match quals.item {
        ValueKind::Port | ValueKind::Portrange => port_fault(quals, token.word),
        ValueKind::Proto => protocol_fault(quals, token.word),
        ValueKind::Host | ValueKind::Net => address_fault(quals, token.word, rest),
    }
}
