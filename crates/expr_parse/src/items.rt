//! Addresses, numbers and names that take the qualifiers before them.

ghost use Rattle.std.specs.Prelude.{◌≤◌, length, drop, OnOk};
ghost use Rattle.expr_tree.specs.Expr.{Is};
ghost use Rattle.expr_parse.specs.Grammar as spec;
ghost use Rattle.expr_parse.specs.ParserViews.{Grows, ReadsExpr, ReadsTerm};

use crate::fault::{ExprFaultKind, Stop};
use crate::operators::join_at;
use crate::parser::{Parser, Read, joined};
use crate::value_fault::value_fault;
use crate::words::{sees, sees_word};
use expr_tree::{Kind, Test};
use expr_values::{Quals, value};
use expr_words::{Keyword, Sign};

impl<'t> Parser<'t> {
    /// A test that so many tokens say; its first word is at the place `start`.
    pub fn test(&mut self, test: Test, tokens: usize, start: usize) -> Result<usize, Stop>
        ensures reads { ReadsExpr (Some (Is test, drop tokens self.old.cursor)) result self.new.tree.nodes.items self.new.cursor }
        ensures grows { OnOk result (Grows self.old.tree.nodes.items self.new.tree.nodes.items) }
        ensures shorter { OnOk result (length self.new.cursor ≤ length self.old.cursor) }
    {
        let column = self.cursor.column_at(start);
        self.cursor.skip(tokens);
        self.push(Kind::Test(test), column)
    }

    /// Why no value comes: a fault of the qualifiers, which begin at the place `start`, or of a token.
    fn value_stop(&self, quals: Quals, start: usize) -> Stop {
        let fault = value_fault(quals, self.cursor.rest());
        match fault.at {
            Some(ahead) => self.cursor.stop_ahead(fault.kind, ahead),
            None => Stop {
                kind: fault.kind,
                place: start,
            },
        }
    }

    /// A value, as the qualifiers say.
    #[tactic(auto, unfolding(crate::specs::Grammar::single))]
    fn single(&mut self, quals: Quals, start: usize) -> Result<usize, Stop>
        ensures reads { ReadsExpr (spec.single quals self.old.cursor) result self.new.tree.nodes.items self.new.cursor }
        ensures grows { OnOk result (Grows self.old.tree.nodes.items self.new.tree.nodes.items) }
        ensures shorter { OnOk result (length self.new.cursor ≤ length self.old.cursor) }
    {
        let Some((test, tokens)) = value(quals, self.cursor.rest()) else {
            return Err(self.value_stop(quals, start));
        };
        self.test(test, tokens, start)
    }

    /// An item: what `not` turns round, several in parentheses, or a value.
    #[cycle(item)]
    #[tactic(auto, unfolding(crate::specs::Grammar::item))]
    fn item(&mut self, level: usize, quals: Quals, start: usize) -> Result<usize, Stop>
        ensures reads { ReadsExpr (spec.item level quals self.old.cursor) result self.new.tree.nodes.items self.new.cursor }
        ensures grows { OnOk result (Grows self.old.tree.nodes.items self.new.tree.nodes.items) }
        ensures shorter { OnOk result (length self.new.cursor ≤ length self.old.cursor) }
    {
        if level == 0 {
            return Err(self.cursor.stop_before(ExprFaultKind::TooDeep));
        }
        if sees_word(Keyword::Not, self.cursor.rest()) {
            return self.item_not(level - 1, quals);
        }
        if sees(Sign::Open, self.cursor.rest()) {
            return self.item_list(level - 1, quals);
        }
        self.single(quals, start)
    }

    #[cycle(item)]
    #[tactic(auto, unfolding(crate::specs::Grammar::item_not))]
    fn item_not(&mut self, level: usize, quals: Quals) -> Result<usize, Stop>
        ensures reads { ReadsExpr (spec.item_not (spec.item level quals) self.old.cursor) result self.new.tree.nodes.items self.new.cursor }
        ensures grows { OnOk result (Grows self.old.tree.nodes.items self.new.tree.nodes.items) }
        ensures shorter { OnOk result (length self.new.cursor ≤ length self.old.cursor) }
    {
        let column = self.cursor.column();
        self.cursor.skip(1);
        let start = self.cursor.place();
        let inner = self.item(level, quals, start)?;
        self.push(Kind::Not(inner), column)
    }

    /// Items in parentheses, joined by `and` or `or`.
    #[cycle(item)]
    #[tactic(auto, unfolding(crate::specs::Grammar::item_list))]
    fn item_list(&mut self, level: usize, quals: Quals) -> Result<usize, Stop>
        ensures reads { ReadsExpr (spec.item_list (spec.item level quals) self.old.cursor) result self.new.tree.nodes.items self.new.cursor }
        ensures grows { OnOk result (Grows self.old.tree.nodes.items self.new.tree.nodes.items) }
        ensures shorter { OnOk result (length self.new.cursor ≤ length self.old.cursor) }
    {
        self.cursor.skip(1);
        let first = self.cursor.place();
        let mut left = self.item(level, quals, first)?;
        'items: while let Some(join) = join_at(self.cursor.rest()) {
            let column = self.cursor.column();
            self.cursor.skip(1);
            let start = self.cursor.place();
            let right = self.item(level, quals, start)?;
            left = self.push(joined(join, left, right), column)?;
        }
        self.expect(Sign::Close)?;
        Ok(left)
    }

    /// An item, whose qualifiers are in force after it.
    pub fn values(&mut self, level: usize, quals: Option<Quals>, start: usize) -> Result<Read, Stop>
        ensures reads { ReadsTerm (spec.values_by level quals self.old.cursor) result self.new.tree.nodes.items self.new.cursor }
        ensures grows { OnOk result (Grows self.old.tree.nodes.items self.new.tree.nodes.items) }
        ensures shorter { OnOk result (length self.new.cursor ≤ length self.old.cursor) }
    {
        let Some(those) = quals else {
            return Err(self.cursor.unexpected());
        };
        let node = self.item(level, those, start)?;
        Ok(Read { node, quals })
    }
}
