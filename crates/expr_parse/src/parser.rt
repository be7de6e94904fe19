//! Expressions: terms that are joined.

ghost use Rattle.std.specs.Prelude.{◌≡◌, ◌&&◌, ◌+◌, ◌≤◌, length, drop, IfOk, IfErr, OnOk};
ghost use Rattle.expr_tree.specs.Expr.{expr_at, value_at, expr_by, value_by};
ghost use Rattle.expr_parse.specs.Grammar as spec;
ghost use Rattle.expr_parse.specs.Brackets.{begins_item, begins_group};
ghost use Rattle.expr_parse.specs.Readers.{expect};
ghost use Rattle.expr_parse.specs.ParserViews.{Grows, Reads, ReadsTerm, join_kind};

use crate::cursor::Cursor;
use crate::fault::{ExprFaultKind, Stop};
use crate::operators::{Join, join_at};
use crate::words::{sees, sees_word};
use expr_tree::{Kind, Tree};
use expr_values::Quals;
use expr_words::{Keyword, Sign};

/// What is read: its node, and the qualifiers in force after it.
#[derive(Clone, Copy, Debug)]
pub(crate) struct Read {
    pub node: usize,
    pub quals: Option<Quals>,
}

/// The tokens that are left, and the tree so far.
#[derive(Drop)]
pub(crate) struct Parser<'t> {
    pub cursor: Cursor<'t>,
    pub tree: Tree,
}

pub(crate) fn joined(join: Join, left: usize, right: usize) -> Kind
    ensures { result ≡ join_kind join left right }
{
    match join {
        Join::And => Kind::And(left, right),
        Join::Or => Kind::Or(left, right),
    }
}

impl<'t> Parser<'t> {
    /// The tree.
    pub fn finish(self) -> Tree
        ensures { result ≡ self.entry.tree }
    {
        let Parser { cursor: _, tree } = self;
        tree
    }

    /// A node more.
    pub fn push(&mut self, kind: Kind, column: usize) -> Result<usize, Stop>
        ensures expr { IfOk result (λ p. expr_at self.new.tree.nodes.items p ≡ expr_by (value_at self.old.tree.nodes.items) (expr_at self.old.tree.nodes.items) kind) }
        ensures value { IfOk result (λ p. value_at self.new.tree.nodes.items p ≡ value_by (value_at self.old.tree.nodes.items) kind) }
        ensures placed { IfOk result (λ p. p + 1 ≡ length self.new.tree.nodes.items) }
        ensures grows { OnOk result (Grows self.old.tree.nodes.items self.new.tree.nodes.items) }
        ensures cursor { self.new.cursor ≡ self.old.cursor }
        ensures memory { IfErr result (λ e. e.kind ≡ ExprFaultKind.NoMemory) }
    {
        let place = self.tree.push(kind, column)?;
        Ok(place)
    }

    /// The sign that has to come.
    pub fn expect(&mut self, sign: Sign) -> Result<(), Stop>
        ensures reads { Reads (expect sign self.old.cursor) result self.new.cursor }
        ensures tree { self.new.tree ≡ self.old.tree }
    {
        if sees(sign, self.cursor.rest()) {
            self.cursor.skip(1);
            Ok(())
        } else {
            Err(self.cursor.unexpected())
        }
    }

    /// Whether an item comes where one may.
    fn takes_item(&self, items: bool) -> bool
        ensures { result ≡ (items && begins_item self.now.cursor) }
    {
        items && self.cursor.begins_item()
    }

    /// Whether a `(` comes that begins no calculation.
    fn begins_group(&self) -> bool
        ensures { result ≡ begins_group self.now.cursor }
    {
        sees(Sign::Open, self.cursor.rest()) && !self.cursor.begins_calc()
    }

    /// A term, and those that are joined to it.
    #[cycle(parser)]
    #[tactic(auto, unfolding(crate::specs::Grammar::expr))]
    pub fn expr(&mut self, level: usize, quals: Option<Quals>) -> Result<Read, Stop>
        ensures reads { ReadsTerm (spec.expr (spec.term level) quals self.old.cursor) result self.new.tree.nodes.items self.new.cursor }
        ensures grows { OnOk result (Grows self.old.tree.nodes.items self.new.tree.nodes.items) }
        ensures shorter { OnOk result (length self.new.cursor ≤ length self.old.cursor) }
    {
        let mut left = self.term(level, quals, false)?;
        'terms: while let Some(join) = join_at(self.cursor.rest()) {
            let column = self.cursor.column();
            self.cursor.skip(1);
            let right = self.term(level, left.quals, true)?;
            let node = self.push(joined(join, left.node, right.node), column)?;
            left = Read {
                node,
                quals: right.quals,
            };
        }
        Ok(left)
    }

    /// A term: what `not` turns round, an item, what stands in parentheses, or a test.
    #[cycle(parser)]
    #[tactic(auto, unfolding(crate::specs::Grammar::term))]
    fn term(&mut self, level: usize, quals: Option<Quals>, items: bool) -> Result<Read, Stop>
        ensures reads { ReadsTerm (spec.term level quals items self.old.cursor) result self.new.tree.nodes.items self.new.cursor }
        ensures grows { OnOk result (Grows self.old.tree.nodes.items self.new.tree.nodes.items) }
        ensures shorter { OnOk result (length self.new.cursor ≤ length self.old.cursor) }
    {
        if level == 0 {
            return Err(self.cursor.stop_before(ExprFaultKind::TooDeep));
        }
        if sees_word(Keyword::Not, self.cursor.rest()) {
            return self.term_not(level - 1, quals, items);
        }
        if self.takes_item(items) {
            let start = self.cursor.place();
            return self.values(level, quals, start);
        }
        if self.begins_group() {
            return self.group(level - 1, quals);
        }
        self.any_test(level)
    }

    /// What `not` turns round.
    #[cycle(parser)]
    #[tactic(auto, unfolding(crate::specs::Grammar::term_not))]
    fn term_not(&mut self, level: usize, quals: Option<Quals>, items: bool) -> Result<Read, Stop>
        ensures reads { ReadsTerm (spec.term_not (spec.term level) quals items self.old.cursor) result self.new.tree.nodes.items self.new.cursor }
        ensures grows { OnOk result (Grows self.old.tree.nodes.items self.new.tree.nodes.items) }
        ensures shorter { OnOk result (length self.new.cursor ≤ length self.old.cursor) }
    {
        let column = self.cursor.column();
        self.cursor.skip(1);
        let inner = self.term(level, quals, items)?;
        let node = self.push(Kind::Not(inner.node), column)?;
        Ok(Read {
            node,
            quals: inner.quals,
        })
    }

    /// An expression in parentheses. The qualifiers before it are in force again after it.
    #[cycle(parser)]
    #[tactic(auto, unfolding(crate::specs::Grammar::group))]
    fn group(&mut self, level: usize, quals: Option<Quals>) -> Result<Read, Stop>
        ensures reads { ReadsTerm (spec.group (spec.term level) quals self.old.cursor) result self.new.tree.nodes.items self.new.cursor }
        ensures grows { OnOk result (Grows self.old.tree.nodes.items self.new.tree.nodes.items) }
        ensures shorter { OnOk result (length self.new.cursor ≤ length self.old.cursor) }
    {
        self.cursor.skip(1);
        let inner = self.expr(level, quals)?;
        self.expect(Sign::Close)?;
        Ok(Read {
            node: inner.node,
            quals,
        })
    }
}
