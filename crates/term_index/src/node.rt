// The nodes of the tree. Node 0 is the root, and edge k leads to node k + 1.
ghost use Rattle.std.specs.Prelude.{◌≡◌, ◌<◌, ◌++◌, ◌∷◌, [], length, IfOk, OnOk, OnErr};
ghost use Rattle.std.specs.List.{swap_remove};
ghost use Rattle.std.proofs.Common.{rules};
ghost use Rattle.std.specs.Cmp.Rules.{hashing};
ghost use Rattle.std.specs.Hash as fed;
ghost use Rattle.term_index.specs.EdgeNumbers.{edge_number};

use crate::label::Label;
use inst_logic::Memory;
use std::alloc::Global;
use std::hash::{Hash, Hasher};
use std::marker::Model;
use term_bank::TermId;

/// From a node by a label. No two are the same, so the labels from the root tell a node.
#[derive(Clone, Copy, Debug, PartialEq, Eq)]
pub struct Edge {
    pub from: u32,
    pub label: Label,
}

// A walk hashes an edge at each step: one number is hashed several times as fast as the parts one after the other.
fn number_of(edge: &Edge) -> u64
    ensures { result ≡ edge_number edge.now }
{
    let from = edge.from as u64;
    match edge.label {
        Label::Variable => from,
        Label::Symbol(symbol, _) => from + (symbol as u64) * 4294967296,
    }
}

impl Hash for Edge {
    ghost hash_input = { λ e. fed.u64 (edge_number e) };

    ghost respects_eq = { Prim.search (hashing, rules) };

    fn hash<H: Hasher>(&self, state: &mut H) {
        state.write_u64(number_of(self));
    }
}

const _: () = prove!(size_of::<Edge>() == 16);

/// From the root over one edge, or from any other node over one term.
#[derive(Clone, Copy, Debug, PartialEq, Eq, Hash)]
pub struct Span {
    pub begin: u32,
    pub end: u32,
}

// Exits and pairs.
#[derive(Drop)]
pub struct Lists {
    exits: Vec<u32>,
    pairs: Vec<(TermId, u32)>,
}

// What a node has. Most have one exit or one pair. In a tree none has both, since nothing follows a whole atom.
#[derive(Drop)]
pub enum NodeShape {
    Nothing,
    OneExit([u32; 1]),
    OnePair([(TermId, u32); 1]),
    Exits(Box<Vec<u32>>),
    Pairs(Box<Vec<(TermId, u32)>>),
    Both(Box<Lists>),
}

/// The ends of the exits from here to nodes at or below which pairs end, in any order; and the pairs whose atom ends here.
#[derive(Drop)]
pub struct Node {
    alloc: Global,
    shape: NodeShape,
}

const _: () = prove!(size_of::<Node>() == 16);

impl Model for Node {
    ghost use Rattle.term_index.specs.Nodes.{Content, exits_of, ends_at};

    ghost Value = { Content };

    ghost view = { λ n. record { exits = exits_of n.shape; pairs = ends_at n.shape } };
}

// A vector of the items.
fn vec_of<T: Copy + Drop>(alloc: Global, items: &[T]) -> Result<Vec<T>, Memory>
    ensures { IfOk result (λ v. v.items ≡ items.now) }
{
    let mut all = Vec::new(alloc);
    for x in items {
        all.push(*x)?;
    }
    Ok(all)
}

// A vector of the items and one more.
fn longer<T: Copy + Drop>(alloc: Global, items: &[T], last: T) -> Result<Box<Vec<T>>, Memory>
    ensures { IfOk result (λ b. b.value.items ≡ items.now ++ last ∷ []) }
{
    let mut all = vec_of(alloc, items)?;
    all.push(last)?;
    Ok(Box::new(alloc, all)?)
}

// Both lists.
fn lists_of(alloc: Global, exits: &[u32], pairs: &[(TermId, u32)]) -> Result<Box<Lists>, Memory>
    ensures exits { IfOk result (λ b. b.value.exits.items ≡ exits.now) }
    ensures pairs { IfOk result (λ b. b.value.pairs.items ≡ pairs.now) }
{
    let exits = vec_of(alloc, exits)?;
    let pairs = vec_of(alloc, pairs)?;
    Ok(Box::new(alloc, Lists { exits, pairs })?)
}

impl Node {
    // A node that has nothing, which takes no memory besides.
    pub fn new(alloc: Global) -> Node
        ensures { result ≡ record { exits = []; pairs = [] } }
    {
        Node {
            alloc,
            shape: NodeShape::Nothing,
        }
    }

    // The exits.
    pub fn exits(&self) -> &[u32]
        ensures { result.now ≡ self.now.exits }
    {
        match &self.shape {
            NodeShape::OneExit(exit) => exit,
            NodeShape::Exits(all) => all.as_slice(),
            NodeShape::Both(lists) => lists.exits.as_slice(),
            NodeShape::Nothing | NodeShape::OnePair(_) | NodeShape::Pairs(_) => &[],
        }
    }

    // The pairs.
    pub fn pairs(&self) -> &[(TermId, u32)]
        ensures { result.now ≡ self.now.pairs }
    {
        match &self.shape {
            NodeShape::OnePair(pair) => pair,
            NodeShape::Pairs(all) => all.as_slice(),
            NodeShape::Both(lists) => lists.pairs.as_slice(),
            NodeShape::Nothing | NodeShape::OneExit(_) | NodeShape::Exits(_) => &[],
        }
    }

    // Puts the exit last.
    pub fn push_exit(&mut self, end: u32) -> Result<(), Memory>
        ensures exits { OnOk result (self.new.exits ≡ self.old.exits ++ end ∷ []) }
        ensures pairs { self.new.pairs ≡ self.old.pairs }
    {
        match &mut self.shape {
            NodeShape::Nothing => self.shape = NodeShape::OneExit([end]),
            NodeShape::OneExit(exit) => {
                let all = longer(self.alloc, exit, end)?;
                self.shape = NodeShape::Exits(all);
            }
            NodeShape::Exits(all) => all.push(end)?,
            NodeShape::OnePair(pair) => {
                let only = pair[0];
                let lists = lists_of(self.alloc, &[end], &[only])?;
                self.shape = NodeShape::Both(lists);
            }
            NodeShape::Pairs(all) => {
                let lists = lists_of(self.alloc, &[end], all.as_slice())?;
                self.shape = NodeShape::Both(lists);
            }
            NodeShape::Both(lists) => lists.exits.push(end)?,
        }
        Ok(())
    }

    // Puts the pair last. Where memory is refused nothing is changed.
    pub fn push_pair(&mut self, pair: (TermId, u32)) -> Result<(), Memory>
        ensures pairs { OnOk result (self.new.pairs ≡ self.old.pairs ++ pair ∷ []) }
        ensures held { OnErr result (self.new.pairs ≡ self.old.pairs) }
        ensures exits { self.new.exits ≡ self.old.exits }
    {
        match &mut self.shape {
            NodeShape::Nothing => self.shape = NodeShape::OnePair([pair]),
            NodeShape::OnePair(first) => {
                let only = first[0];
                let all = longer(self.alloc, &[only], pair)?;
                self.shape = NodeShape::Pairs(all);
            }
            NodeShape::Pairs(all) => all.push(pair)?,
            NodeShape::OneExit(exit) => {
                let lists = lists_of(self.alloc, exit, &[pair])?;
                self.shape = NodeShape::Both(lists);
            }
            NodeShape::Exits(all) => {
                let lists = lists_of(self.alloc, all.as_slice(), &[pair])?;
                self.shape = NodeShape::Both(lists);
            }
            NodeShape::Both(lists) => lists.pairs.push(pair)?,
        }
        Ok(())
    }

    // Takes the exit at the place, which the last one takes.
    pub fn take_exit(&mut self, place: usize) -> u32
        requires { place < length self.old.exits }
        ensures exits { self.new.exits ≡ swap_remove self.old.exits place result }
        ensures pairs { self.new.pairs ≡ self.old.pairs }
    {
        match &mut self.shape {
            NodeShape::OneExit(exit) => {
                let only = exit[0];
                self.shape = NodeShape::Nothing;
                only
            }
            NodeShape::Exits(all) => all.swap_remove(place),
            NodeShape::Both(lists) => lists.exits.swap_remove(place),
            NodeShape::Nothing | NodeShape::OnePair(_) | NodeShape::Pairs(_) => unreachable!(),
        }
    }

    // Takes the pair at the place, which the last one takes.
    pub fn take_pair(&mut self, place: usize) -> (TermId, u32)
        requires { place < length self.old.pairs }
        ensures pairs { self.new.pairs ≡ swap_remove self.old.pairs place result }
        ensures exits { self.new.exits ≡ self.old.exits }
    {
        match &mut self.shape {
            NodeShape::OnePair(pair) => {
                let only = pair[0];
                self.shape = NodeShape::Nothing;
                only
            }
            NodeShape::Pairs(all) => all.swap_remove(place),
            NodeShape::Both(lists) => lists.pairs.swap_remove(place),
            NodeShape::Nothing | NodeShape::OneExit(_) | NodeShape::Exits(_) => unreachable!(),
        }
    }
}
