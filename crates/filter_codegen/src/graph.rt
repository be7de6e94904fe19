//! Graphs of tests.

ghost use Rattle.std.specs.Prelude.{◌≡◌, ℕ, ◌+◌, ◌<◌, ◌≤◌, [], ◌∷◌, Some, length, IfOk, IfErr, IfSome, IsTrue};
ghost use Rattle.bpf_insn.specs.declared.insn.TheConstants.{MAX_INSNS};
ghost use Rattle.bpf_insn.specs.Machine.{Packet};
ghost use Rattle.filter_cond.specs.Means.{tested};
ghost use Rattle.filter_codegen.specs.Drafts.{Refuses};
ghost use Rattle.filter_codegen.specs.Graphs.{answer, value, node_at, Adds};

use crate::fault::CompileFault;
use bpf_insn::{MAX_INSNS, Size, Test};
use filter_cond::{Check, Load};
use std::alloc::{AllocError, Global};
use std::marker::Model;

/// A test, and the places to which it leads.
#[derive(Clone, Copy, Debug, PartialEq, Eq)]
pub struct Node {
    pub check: Check,
    pub pass: usize,
    pub fail: usize,
}

/// How many nodes the index of a graph remembers: a power of two.
const SLOTS: usize = 4096;

/// Tests that lead to earlier ones. Place 0 rejects the packet, and place 1 accepts it.
pub struct Graph {
    nodes: Vec<Node>,
    /// For each hash, where the last node of that hash is. It may be wrong: what it says is looked at.
    slots: Vec<usize>,
}

impl Drop for Graph {
    fn drop(self) {
        let Graph { nodes: _, slots: _ } = self;
    }
}

impl Model for Graph {
    ghost use Rattle.std.specs.Prelude.{List, ◌≡◌, ◌≤◌, length, reverse};
    ghost use Rattle.bpf_insn.specs.declared.insn.TheConstants.{MAX_INSNS};
    ghost use Rattle.filter_codegen.specs.declared.graph.Node.{Node};
    ghost use Rattle.filter_codegen.specs.Graphs.{IsForward};

    ghost Value = { List Node };

    ghost view = { λ graph. reverse graph.nodes.items };

    ghost invariant = { λ graph. (length graph.nodes.items ≤ MAX_INSNS) × (length graph.slots.items ≡ 4096) × IsForward (reverse graph.nodes.items) };
}

fn same_size(a: Size, b: Size) -> bool
    ensures { IsTrue result → a ≡ b }
{
    a == b
}

pub fn same_test(a: Test, b: Test) -> bool
    ensures { IsTrue result → a ≡ b }
{
    a == b
}

pub fn same_mask(a: Option<u32>, b: Option<u32>) -> bool
    ensures { IsTrue result → a ≡ b }
{
    a == b
}

pub fn same_load(a: Load, b: Load) -> bool
    ensures { IsTrue result → a ≡ b }
{
    match a {
        Load::At { size, at } => match b {
            Load::At { size: s, at: t } => same_size(size, s) && at == t,
            _ => false,
        },
        Load::Past { size, header, at } => match b {
            Load::Past {
                size: s,
                header: h,
                at: t,
            } => same_size(size, s) && header == h && at == t,
            _ => false,
        },
        Load::Length => match b {
            Load::Length => true,
            _ => false,
        },
    }
}

pub fn same_check(a: Check, b: Check) -> bool
    ensures { IsTrue result → a ≡ b }
{
    same_load(a.load, b.load)
        && same_mask(a.mask, b.mask)
        && same_test(a.test, b.test)
        && a.value == b.value
}

fn same_node(a: Node, b: Node) -> bool
    ensures { IsTrue result → a ≡ b }
{
    same_check(a.check, b.check) && a.pass == b.pass && a.fail == b.fail
}

/// A number of a load's place.
fn place_hash(load: Load) -> u32 {
    match load {
        Load::At { size: _, at } => at,
        Load::Past {
            size: _,
            header: _,
            at,
        } => at.wrapping_add(0x51),
        Load::Length => 0x9d,
    }
}

/// Where the index keeps the place of a node.
fn slot_of(node: Node) -> usize
    ensures { result < 4096 }
{
    let check = node.check;
    let targets = (node.pass as u64)
        .wrapping_mul(0x9e37_79b1)
        .wrapping_add((node.fail as u64).wrapping_mul(0x85eb_ca77));
    let test = (check.value as u64)
        .wrapping_mul(0xc2b2_ae3d)
        .wrapping_add((place_hash(check.load) as u64).wrapping_mul(0x27d4_eb2f));
    let mixed = targets ^ test;
    ((mixed ^ (mixed >> 29)) % 4096) as usize
}

impl Graph {
    /// No test.
    pub fn new(alloc: Global) -> Result<Graph, AllocError>
        ensures { IfOk result (λ graph. graph ≡ []) }
    {
        Ok(Graph {
            nodes: Vec::new(alloc),
            slots: vec![in alloc; 0; SLOTS]?,
        })
    }

    /// How many tests there are.
    pub fn len(&self) -> usize
        ensures len { result ≡ length self.now }
        ensures short { result ≤ MAX_INSNS }
    {
        self.nodes.len()
    }

    /// The test at a place.
    pub fn get(&self, place: usize) -> Node
        requires test { 2 ≤ place }
        requires inside { place < length self.now + 2 }
        ensures at { node_at self.now place ≡ Some result }
        ensures below { (result.pass < place) × (result.fail < place) }
        ensures says { (packet : Packet) (accept : ℕ)
            → value packet accept self.now place ≡ answer (tested result.check packet) (value packet accept self.now result.pass) (value packet accept self.now result.fail) }
    {
        self.nodes[place - 2]
    }

    /// Adds a test that isn't there yet, and gives its place.
    fn push(&mut self, node: Node) -> Result<usize, CompileFault>
        requires pass { node.pass < length self.old + 2 }
        requires fail { node.fail < length self.old + 2 }
        ensures ok { IfOk result (λ place. (self.new ≡ node ∷ self.old) × (place ≡ length self.old + 2)) }
        ensures err { IfErr result (λ fault. Refuses (length self.old + 1) fault) }
    {
        let count = self.nodes.len();
        if count >= MAX_INSNS {
            return Err(CompileFault::TooLong);
        }
        self.nodes.push(node)?;
        self.slots[slot_of(node)] = count + 2;
        Ok(count + 2)
    }

    /// The place of a test that is there, if the index knows it.
    fn find(&self, node: Node) -> Option<usize>
        ensures { IfSome result (λ place. (place < length self.now + 2) × ((packet : Packet) (accept : ℕ)
            → value packet accept self.now place ≡ answer (tested node.check packet) (value packet accept self.now node.pass) (value packet accept self.now node.fail))) }
    {
        let place = self.slots[slot_of(node)];
        if place >= 2 && place - 2 < self.nodes.len() && same_node(self.get(place), node) {
            return Some(place);
        }
        None
    }

    /// The place of a test, which is added if it isn't known. A test that rejects either way is the place that rejects: where
    /// its number isn't there, the packet is rejected as well.
    pub fn add(&mut self, node: Node) -> Result<usize, CompileFault>
        requires pass { node.pass < length self.old + 2 }
        requires fail { node.fail < length self.old + 2 }
        ensures ok { IfOk result (λ place. Adds node self.old self.new place) }
        ensures err { IfErr result (λ fault. Refuses (length self.old + 1) fault) }
    {
        if node.pass == 0 && node.fail == 0 {
            return Ok(0);
        }
        if let Some(place) = self.find(node) {
            return Ok(place);
        }
        self.push(node)
    }
}
