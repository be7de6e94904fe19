//! Tests: a line of pcap-filter(7) each.

ghost use Rattle.std.specs.Prelude.{◌≡◌, ◌<◌, ◌≤◌, length, drop, IfOk, IfSome, OnOk};
ghost use Rattle.expr_parse.specs.Grammar as spec;
ghost use Rattle.expr_parse.specs.ParserViews.{Grows, Reads, ReadsExpr, ReadsTerm};

use crate::fault::{ExprFaultKind, Stop};
use crate::parser::{Parser, Read};
use crate::words::{number, sees, sees_word};
use expr_heads::{Head, read_head};
use expr_tree::{Calc, Header, Kind, Relation, Side, Test};
use expr_values::{Quals, ValueKind};
use expr_words::{Keyword, Protocol, Sign, Token, Word};

/// What a test begins with.
#[derive(Clone, Copy, Debug)]
pub(crate) enum Line {
    /// A calculation.
    Comparison,
    Less,
    Greater,
    Vlan,
    Mpls,
    Pppoes,
    Pppoed,
}

fn line_of_sign(sign: Sign) -> Option<Line>
    ensures { result ≡ spec.line_of_sign sign }
{
    match sign {
        Sign::Minus => Some(Line::Comparison),
        Sign::Open => Some(Line::Comparison),
        _ => None,
    }
}

fn line_of_keyword(keyword: Keyword) -> Option<Line>
    ensures { result ≡ spec.line_of_keyword keyword }
{
    match keyword {
        Keyword::Len => Some(Line::Comparison),
        Keyword::Less => Some(Line::Less),
        Keyword::Greater => Some(Line::Greater),
        Keyword::Vlan => Some(Line::Vlan),
        Keyword::Mpls => Some(Line::Mpls),
        Keyword::Pppoes => Some(Line::Pppoes),
        Keyword::Pppoed => Some(Line::Pppoed),
        _ => None,
    }
}

/// The line that begins with a protocol.
fn line_of_protocol(rest: &[Token]) -> Option<Line>
    ensures { result ≡ spec.line_of_protocol rest.now }
{
    if sees(Sign::OpenBracket, rest) {
        Some(Line::Comparison)
    } else {
        None
    }
}

/// The line that begins with the first token.
#[tactic(auto, unfolding(crate::specs::Grammar::line_at))]
fn line_at(tokens: &[Token]) -> Option<Line>
    ensures { result ≡ spec.line_at tokens.now }
{
    let (first, rest) = tokens.split_first()?;
    match first.word {
        Word::Number(_) => Some(Line::Comparison),
        Word::Keyword(keyword) => line_of_keyword(keyword),
        Word::Sign(sign) => line_of_sign(sign),
        Word::Protocol(_, _) => line_of_protocol(rest),
        Word::V4(_) => None,
        Word::V6(_) => None,
        Word::Mac(_) => None,
        Word::Name(_) => None,
        Word::Refused(_) => None,
    }
}

fn broadcast(protocol: Option<Protocol>) -> Option<Test>
    ensures { result ≡ spec.broadcast protocol }
{
    let Some(protocol) = protocol else {
        return Some(Test::EtherBroadcast);
    };
    match protocol {
        Protocol::Ether => Some(Test::EtherBroadcast),
        Protocol::Ip => Some(Test::IpBroadcast),
        _ => None,
    }
}

fn multicast(protocol: Option<Protocol>) -> Option<Test>
    ensures { result ≡ spec.multicast protocol }
{
    let Some(protocol) = protocol else {
        return Some(Test::EtherMulticast);
    };
    match protocol {
        Protocol::Ether => Some(Test::EtherMulticast),
        Protocol::Ip => Some(Test::IpMulticast),
        Protocol::Ip6 => Some(Test::Ip6Multicast),
        _ => None,
    }
}

/// A protocol alone. `ether` alone is no test.
fn protocol_test(protocol: Option<Protocol>) -> Option<Test>
    ensures { result ≡ spec.protocol_test protocol }
{
    let protocol = protocol?;
    match protocol {
        Protocol::Ether => None,
        _ => Some(Test::Is(protocol)),
    }
}

/// What is said with neither a direction nor a type, and its tokens behind the protocol.
#[tactic(auto, unfolding(crate::specs::Grammar::lone))]
fn lone(protocol: Option<Protocol>, rest: &[Token]) -> Option<(Test, usize)>
    ensures { result ≡ spec.lone protocol rest.now }
{
    if sees_word(Keyword::Broadcast, rest) {
        let test = broadcast(protocol)?;
        return Some((test, 1));
    }
    if sees_word(Keyword::Multicast, rest) {
        let test = multicast(protocol)?;
        return Some((test, 1));
    }
    let test = protocol_test(protocol)?;
    Some((test, 0))
}

/// The qualifiers of values after a direction.
fn quals_on(protocol: Option<Protocol>, side: Side, kind: Option<ValueKind>) -> Option<Quals>
    ensures { result ≡ spec.quals_by protocol (Some side) kind }
{
    let item = match kind {
        None => ValueKind::Host,
        Some(kind) => match kind {
            ValueKind::Proto => return None,
            ValueKind::Host => kind,
            ValueKind::Net => kind,
            ValueKind::Port => kind,
            ValueKind::Portrange => kind,
        },
    };
    Some(Quals {
        protocol,
        side,
        item,
    })
}

/// The qualifiers that values take; `proto` has no direction.
#[tactic(auto, unfolding(crate::specs::Grammar::quals_of))]
fn quals_of(head: Head) -> Option<Quals>
    ensures { result ≡ spec.quals_of head }
{
    match head.side {
        Some(side) => quals_on(head.protocol, side, head.kind),
        None => {
            let item = head.kind?;
            Some(Quals {
                protocol: head.protocol,
                side: Side::Either,
                item,
            })
        }
    }
}

/// Whether neither a direction nor a type is written.
fn is_lone(head: Head) -> bool
    ensures { result ≡ spec.is_lone head }
{
    head.side.is_none() && head.kind.is_none()
}

/// A number that fits.
fn narrowed(number: Option<u32>) -> Option<u16>
    requires { IfSome number (λ n. n ≤ 65535) }
    ensures { result ≡ number }
{
    match number {
        Some(number) => Some(number as u16),
        None => None,
    }
}

impl<'t> Parser<'t> {
    /// `less` and `greater`, with a number.
    #[tactic(auto, unfolding(crate::specs::Grammar::length_test))]
    fn length_test(&mut self, relation: Relation) -> Result<usize, Stop>
        ensures reads { ReadsExpr (spec.length_test relation self.old.cursor) result self.new.tree.nodes.items self.new.cursor }
        ensures grows { OnOk result (Grows self.old.tree.nodes.items self.new.tree.nodes.items) }
        ensures shorter { OnOk result (length self.new.cursor ≤ length self.old.cursor) }
    {
        let column = self.cursor.column();
        self.cursor.skip(1);
        let Some(most) = number(self.cursor.rest()) else {
            return Err(self.cursor.stop(ExprFaultKind::Ends));
        };
        let bound_column = self.cursor.column();
        self.cursor.skip(1);
        let len = self.push(Kind::Calc(Calc::Len), column)?;
        let bound = self.push(Kind::Calc(Calc::Number(most)), bound_column)?;
        self.push(Kind::Compare(relation, len, bound), column)
    }

    /// The number of a tag, where one is written.
    #[tactic(auto, unfolding(crate::specs::Grammar::tag_number))]
    fn tag_number(&mut self, most: u32) -> Result<Option<u32>, Stop>
        ensures reads { Reads (spec.tag_number most self.old.cursor) result self.new.cursor }
        ensures tree { self.new.tree ≡ self.old.tree }
        ensures small { IfOk result (λ n. IfSome n (λ n. n ≤ most)) }
        ensures shorter { OnOk result (length self.new.cursor ≤ length self.old.cursor) }
    {
        self.cursor.skip(1);
        let Some(number) = number(self.cursor.rest()) else {
            return Ok(None);
        };
        if number > most {
            return Err(self.cursor.stop(ExprFaultKind::Range));
        }
        self.cursor.skip(1);
        Ok(Some(number))
    }

    #[tactic(auto, unfolding(crate::specs::Grammar::tag))]
    fn vlan(&mut self) -> Result<usize, Stop>
        ensures reads { ReadsExpr (spec.tag Test.Vlan 4095 self.old.cursor) result self.new.tree.nodes.items self.new.cursor }
        ensures grows { OnOk result (Grows self.old.tree.nodes.items self.new.tree.nodes.items) }
        ensures shorter { OnOk result (length self.new.cursor ≤ length self.old.cursor) }
    {
        let column = self.cursor.column();
        let number = self.tag_number(4095)?;
        self.push(Kind::Test(Test::Vlan(narrowed(number))), column)
    }

    #[tactic(auto, unfolding(crate::specs::Grammar::tag))]
    fn mpls(&mut self) -> Result<usize, Stop>
        ensures reads { ReadsExpr (spec.tag Test.Mpls 1048575 self.old.cursor) result self.new.tree.nodes.items self.new.cursor }
        ensures grows { OnOk result (Grows self.old.tree.nodes.items self.new.tree.nodes.items) }
        ensures shorter { OnOk result (length self.new.cursor ≤ length self.old.cursor) }
    {
        let column = self.cursor.column();
        let number = self.tag_number(1_048_575)?;
        self.push(Kind::Test(Test::Mpls(number)), column)
    }

    #[tactic(auto, unfolding(crate::specs::Grammar::tag))]
    fn pppoes(&mut self) -> Result<usize, Stop>
        ensures reads { ReadsExpr (spec.tag Test.Pppoes 65535 self.old.cursor) result self.new.tree.nodes.items self.new.cursor }
        ensures grows { OnOk result (Grows self.old.tree.nodes.items self.new.tree.nodes.items) }
        ensures shorter { OnOk result (length self.new.cursor ≤ length self.old.cursor) }
    {
        let column = self.cursor.column();
        let number = self.tag_number(65535)?;
        self.push(Kind::Test(Test::Pppoes(narrowed(number))), column)
    }

    /// `pppoed`: the EtherType of PPPoE's discovery (RFC 2516, 4).
    #[tactic(auto, unfolding(crate::specs::Grammar::discovery))]
    fn discovery(&mut self) -> Result<usize, Stop>
        ensures reads { ReadsExpr (spec.discovery self.old.cursor) result self.new.tree.nodes.items self.new.cursor }
        ensures grows { OnOk result (Grows self.old.tree.nodes.items self.new.tree.nodes.items) }
        ensures shorter { OnOk result (length self.new.cursor ≤ length self.old.cursor) }
    {
        let start = self.cursor.place();
        self.test(Test::Proto(Header::Ether, 0x8863), 1, start)
    }

    /// Why no test comes with neither a direction nor a type. The protocol is at the place `start`, where there is one.
    fn lone_stop(&self, protocol: Option<Protocol>, start: usize) -> Stop {
        let rest = self.cursor.rest();
        let kind = if sees_word(Keyword::Broadcast, rest) || sees_word(Keyword::Multicast, rest) {
            ExprFaultKind::Qualifier
        } else if protocol.is_some() {
            ExprFaultKind::Unexpected
        } else {
            return self.cursor.unexpected();
        };
        Stop { kind, place: start }
    }

    /// What is said with neither a direction nor a type.
    #[tactic(auto, unfolding(crate::specs::Grammar::lone_test))]
    fn lone_test(&mut self, protocol: Option<Protocol>, start: usize) -> Result<usize, Stop>
        ensures reads { ReadsExpr (spec.lone_test protocol self.old.cursor) result self.new.tree.nodes.items self.new.cursor }
        ensures grows { OnOk result (Grows self.old.tree.nodes.items self.new.tree.nodes.items) }
        ensures shorter { OnOk result (length self.new.cursor ≤ length self.old.cursor) }
    {
        let Some((test, tokens)) = lone(protocol, self.cursor.rest()) else {
            return Err(self.lone_stop(protocol, start));
        };
        self.test(test, tokens, start)
    }

    /// A test that begins with qualifiers.
    #[tactic(auto, unfolding(crate::specs::Grammar::primitive))]
    fn primitive(&mut self, level: usize) -> Result<Read, Stop>
        ensures reads { ReadsTerm (spec.primitive level self.old.cursor) result self.new.tree.nodes.items self.new.cursor }
        ensures grows { OnOk result (Grows self.old.tree.nodes.items self.new.tree.nodes.items) }
        ensures shorter { OnOk result (length self.new.cursor ≤ length self.old.cursor) }
    {
        let start = self.cursor.place();
        let head = read_head(self.cursor.rest());
        self.cursor.skip(head.tokens);
        if is_lone(head) {
            let node = self.lone_test(head.protocol, start)?;
            return Ok(Read { node, quals: None });
        }
        let quals = quals_of(head);
        if quals.is_none() {
            return Err(self.cursor.stop_before(ExprFaultKind::Qualifier));
        }
        self.values(level, quals, start)
    }

    /// A test that begins with no qualifiers.
    fn line(&mut self, level: usize, line: Line) -> Result<usize, Stop>
        ensures reads { ReadsExpr (spec.line_by level line self.old.cursor) result self.new.tree.nodes.items self.new.cursor }
        ensures grows { OnOk result (Grows self.old.tree.nodes.items self.new.tree.nodes.items) }
        ensures shorter { OnOk result (length self.new.cursor ≤ length self.old.cursor) }
    {
        match line {
            Line::Comparison => self.comparison(level),
            Line::Less => self.length_test(Relation::LessEqual),
            Line::Greater => self.length_test(Relation::GreaterEqual),
            Line::Vlan => self.vlan(),
            Line::Mpls => self.mpls(),
            Line::Pppoes => self.pppoes(),
            Line::Pppoed => self.discovery(),
        }
    }

    #[tactic(auto, unfolding(crate::specs::Grammar::any_test))]
    pub fn any_test(&mut self, level: usize) -> Result<Read, Stop>
        ensures reads { ReadsTerm (spec.any_test level self.old.cursor) result self.new.tree.nodes.items self.new.cursor }
        ensures grows { OnOk result (Grows self.old.tree.nodes.items self.new.tree.nodes.items) }
        ensures shorter { OnOk result (length self.new.cursor ≤ length self.old.cursor) }
    {
        let Some(line) = line_at(self.cursor.rest()) else {
            return self.primitive(level);
        };
        let node = self.line(level, line)?;
        Ok(Read { node, quals: None })
    }
}
