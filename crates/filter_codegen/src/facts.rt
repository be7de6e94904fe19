//! What is known of a packet where a test is made.

ghost use Rattle.std.specs.Prelude.{true, ◌≡◌, ◌+◌, ◌<◌, ◌≤◌, ◌&&◌, [], ◌∷◌, length, IfOk, IfErr, IfSome, IsTrue, Some};
ghost use Rattle.bpf_insn.specs.Machine.{Packet};
ghost use Rattle.filter_cond.specs.Means.{tested};
ghost use Rattle.filter_codegen.specs.Drafts.{Refuses};
ghost use Rattle.filter_codegen.specs.Known.{comes_out, known};

use crate::fault::CompileFault;
use crate::implied::{Fact, implied};
use filter_cond::Check;
use std::alloc::Global;
use std::marker::Model;

/// How many facts are looked at for one test.
const HOPS: usize = 256;

/// Facts, each with the place of those before it: a tree. A place stands for the facts on the way to its root; 0, and a place that
/// isn't there, for none.
pub struct Facts {
    facts: Vec<Fact>,
}

impl Drop for Facts {
    fn drop(self) {
        let Facts { facts: _ } = self;
    }
}

impl Model for Facts {
    ghost use Rattle.std.specs.Prelude.{List, reverse};
    ghost use Rattle.filter_codegen.specs.declared.implied.Fact.{Fact};

    ghost Value = { List Fact };

    ghost view = { λ facts. reverse facts.facts.items };
}

impl Facts {
    /// No fact.
    pub fn new(alloc: Global) -> Facts
        ensures { result ≡ [] }
    {
        Facts {
            facts: Vec::new(alloc),
        }
    }

    /// The last fact at a place.
    pub fn get(&self, place: usize) -> Option<Fact>
        ensures below { IfSome result (λ fact. fact.before < place) }
        ensures says { IfSome result (λ fact. (packet : Packet) → known packet self.now place ≡ (comes_out (tested fact.check packet) fact.holds && known packet self.now fact.before)) }
    {
        if place == 0 || place > self.facts.len() {
            return None;
        }
        let fact = self.facts[place - 1];
        if fact.before >= place {
            return None;
        }
        Some(fact)
    }

    /// Adds a fact, and gives its place.
    pub fn add(&mut self, fact: Fact) -> Result<usize, CompileFault>
        ensures ok { IfOk result (λ place. (self.new ≡ fact ∷ self.old) × (place ≡ length self.old + 1)) }
        ensures err { IfErr result (λ fault. Refuses 0 fault) }
    {
        self.facts.push(fact)?;
        Ok(self.facts.len())
    }

    /// How a test must come out where these facts hold, if they say it.
    pub fn decided(&self, place: usize, check: Check) -> Option<bool>
        ensures { IfSome result (λ holds. (packet : Packet) → known packet self.now place ≡ true → tested check packet ≡ Some holds) }
    {
        let mut at = place;
        let mut hops = 0;
        'facts: while hops < HOPS {
            let Some(fact) = self.get(at) else {
                return None;
            };
            if let Some(holds) = implied(fact, check) {
                return Some(holds);
            }
            at = fact.before;
            hops += 1;
        }
        None
    }

    /// Whether the facts at one place are among those at another.
    pub fn includes(&self, place: usize, wanted: usize) -> bool
        ensures { IsTrue result → (packet : Packet) → known packet self.now place ≡ true → known packet self.now wanted ≡ true }
    {
        let mut at = place;
        'facts: while at > wanted {
            let Some(fact) = self.get(at) else {
                return false;
            };
            at = fact.before;
        }
        at == wanted
    }

    /// The facts that are at both places.
    pub fn common(&self, a: usize, b: usize) -> usize {
        let mut first = a;
        let mut second = b;
        'facts: while first != second {
            let Some(fact) = self.get(if first > second { first } else { second }) else {
                return 0;
            };
            if first > second {
                first = fact.before;
            } else {
                second = fact.before;
            }
        }
        first
    }
}
