//! Trees by index.

ghost use Rattle.std.specs.Prelude.{◌≡◌, ℕ, ◌+◌, ◌<◌, ◌++◌, ◌∷◌, [], length, IfOk, OnOk, OnErr};
ghost use Rattle.expr_tree.specs.Expr.{expr_at, value_at, expr_by, value_by};

use crate::calc::{Calc, Relation};
use crate::test::Test;
use std::alloc::{AllocFailed, Global};

/// What a node is; those below it stand before it, by their places.
#[derive(Clone, Copy, Debug, PartialEq, Eq)]
pub enum Kind {
    /// Every packet: the empty text.
    Every,
    Test(Test),
    /// A comparison of two calculations.
    Compare(Relation, usize, usize),
    Not(usize),
    And(usize, usize),
    Or(usize, usize),
    /// A part of a calculation.
    Calc(Calc),
}

/// A node, and the column of its first word, or of the word that joins two; from 1.
#[derive(Clone, Copy, Debug, PartialEq, Eq)]
pub struct Node {
    pub kind: Kind,
    pub column: usize,
}

/// An expression: the last node, and those below it.
#[derive(Debug, Drop)]
pub struct Tree {
    pub nodes: Vec<Node>,
}

impl Tree {
    /// A tree with no nodes yet.
    pub fn new(alloc: Global) -> Tree
        ensures { result.nodes.items ≡ [] }
    {
        Tree {
            nodes: Vec::new(alloc),
        }
    }

    /// A node more: its place. Those before it stay what they are.
    pub fn push(&mut self, kind: Kind, column: usize) -> Result<usize, AllocFailed<Node>>
        ensures place { IfOk result (λ place. place ≡ length self.old.nodes.items) }
        ensures longer { IfOk result (λ place. length self.new.nodes.items ≡ length self.old.nodes.items + 1) }
        ensures nodes { OnOk result (self.new.nodes.items ≡ self.old.nodes.items ++ record { kind = kind; column = column } ∷ []) }
        ensures expr { IfOk result (λ place. expr_at self.new.nodes.items place ≡ expr_by (value_at self.old.nodes.items) (expr_at self.old.nodes.items) kind) }
        ensures value { IfOk result (λ place. value_at self.new.nodes.items place ≡ value_by (value_at self.old.nodes.items) kind) }
        ensures exprs { IfOk result (λ _. (p : ℕ) → p < length self.old.nodes.items → expr_at self.new.nodes.items p ≡ expr_at self.old.nodes.items p) }
        ensures unchanged { OnErr result (self.new.nodes.items ≡ self.old.nodes.items) }
        ensures values { IfOk result (λ _. (p : ℕ) → p < length self.old.nodes.items → value_at self.new.nodes.items p ≡ value_at self.old.nodes.items p) }
    {
        let place = self.nodes.len();
        self.nodes.push(Node { kind, column })?;
        Ok(place)
    }
}
