// The way of an atom through the tree. All edges stand in one set, by the node and the label: a map in each node would cost
// its room at each.
ghost use Rattle.std.specs.Prelude.{◌≡◌, ◌<◌, ◌+◌, ◌++◌, ◌∷◌, [], ℕ, length, IfOk, OnOk, OnErr, MatchOption};
ghost use Rattle.term_index.specs.Numbered.{IsNumbered};
ghost use Rattle.term_bank.specs.Forest.{tree_at};
ghost use Rattle.term_index.specs.Labels.{label_of, labels};
ghost use Rattle.term_index.specs.Nodes.{no_content};
ghost use Rattle.term_index.specs.Paths.{IsChild, IsShort, AreShort, Leads, KeepsPairs};
ghost use Rattle.term_index.specs.Left.{IsWay, IsGrown, IsIndexed};

use crate::descent::{Descent, pass};
use crate::label::{Label, label_at};
use crate::node::{Edge, Node};
use crate::number::short;
use crate::trie::Trie;
use indexmap::IndexSet;
use inst_logic::Memory;
use std::alloc::Global;
use term_bank::{Bank, TermId};

// Where the label leads from the node.
pub fn child(edges: &IndexSet<Edge>, from: usize, label: Label) -> Result<Option<usize>, Memory>
    ensures some { IfOk result (λ r. MatchOption r ((c : ℕ) → ¬ (IsChild edges.now.keys from label c)) (λ c. IsChild edges.now.keys from label c)) }
{
    let count = edges.len();
    let from = short(from)?;
    match edges.get_index_of(&Edge { from, label }) {
        None => Ok(None),
        Some(k) => {
            prove!(k < count);
            Ok(Some(k + 1))
        }
    }
}

// A new edge.
fn push_edge(edges: &mut IndexSet<Edge>, from: usize, label: Label) -> Result<(), Memory>
    requires { (c : ℕ) → ¬ (IsChild edges.old.keys from label c) }
    ensures { OnOk result (edges.new.keys ≡ edges.old.keys ++ record { from = from; label = label } ∷ []) }
{
    edges.insert(Edge {
        from: short(from)?,
        label,
    })?;
    Ok(())
}

// A new node that holds nothing.
pub fn push_node(alloc: Global, nodes: &mut Vec<Node>) -> Result<(), Memory>
    ensures ok { OnOk result (nodes.new.items ≡ nodes.old.items ++ no_content ∷ []) }
    ensures err { OnErr result (nodes.new.items ≡ nodes.old.items) }
{
    nodes.push(Node::new(alloc))?;
    Ok(())
}

// Where the label leads from the node, by a new edge where there was none.
fn grown_child(trie: &mut Trie, from: usize, label: Label) -> Result<usize, Memory>
    requires within { from < length trie.old.nodes.items }
    requires count { length trie.old.nodes.items ≡ length trie.old.edges.keys + 1 }
    requires fits { IsShort label }
    ensures grown { OnOk result (IsGrown trie.old.edges.keys trie.old.nodes.items trie.new.edges.keys trie.new.nodes.items) }
    ensures child { IfOk result (λ c. IsChild trie.new.edges.keys from label c) }
    ensures within { IfOk result (λ c. c < length trie.new.nodes.items) }
    ensures pairs { KeepsPairs trie.old.nodes.items trie.new.nodes.items }
    ensures places { trie.new.places ≡ trie.old.places }
{
    match child(&trie.edges, from, label)? {
        Some(c) => Ok(c),
        None => {
            let number = trie.nodes.len();
            push_node(trie.alloc, &mut trie.nodes)?;
            push_edge(&mut trie.edges, from, label)?;
            Ok(number)
        }
    }
}

// The node at which the atom ends, by new edges where there were none.
pub fn grown_leaf(
    trie: &mut Trie,
    bank: &Bank,
    atom: TermId,
    descent: &mut Descent,
) -> Result<usize, Memory>
    requires root { 0 < length trie.old.nodes.items }
    requires count { length trie.old.nodes.items ≡ length trie.old.edges.keys + 1 }
    requires atom { atom < length bank.now.trees }
    requires begins { (descent.old.left.items ≡ atom ∷ []) × (descent.old.opened.items ≡ []) × (descent.old.closed.items ≡ []) }
    ensures grown { OnOk result (IsGrown trie.old.edges.keys trie.old.nodes.items trie.new.edges.keys trie.new.nodes.items) }
    ensures way { IfOk result (λ n. IsWay bank.now trie.new.edges.keys atom n descent.new.closed.items) }
    ensures within { IfOk result (λ n. n < length trie.new.nodes.items) }
    ensures numbered { OnOk result (IsNumbered bank.now (tree_at bank.now atom)) }
    ensures pairs { KeepsPairs trie.old.nodes.items trie.new.nodes.items }
    ensures places { trie.new.places ≡ trie.old.places }
{
    let mut node = 0;
    while let Some(id) = descent.left.pop() {
        let next = grown_child(trie, node, label_at(bank, id)?)?;
        pass(descent, bank, id, node, next)?;
        node = next;
    }
    Ok(node)
}

// Where the symbol of the term leads from the node: nowhere if it has a number that has no room on an edge.
fn step(
    edges: &IndexSet<Edge>,
    bank: &Bank,
    from: usize,
    id: TermId,
) -> Result<Option<usize>, Memory>
    requires id { id < length bank.now.trees }
    requires short { AreShort edges.now.keys }
    ensures { IfOk result (λ r. MatchOption r ((c : ℕ) → ¬ (IsChild edges.now.keys from (label_of bank.now (tree_at bank.now id)) c)) (λ c. IsChild edges.now.keys from (label_of bank.now (tree_at bank.now id)) c)) }
{
    match label_at(bank, id) {
        Err(_) => Ok(None),
        Ok(label) => child(edges, from, label),
    }
}

// The node at which the atom ends, where there is one.
pub fn leaf(
    edges: &IndexSet<Edge>,
    bank: &Bank,
    atom: TermId,
    descent: &mut Descent,
) -> Result<Option<usize>, Memory>
    requires once { IsIndexed edges.now.keys }
    requires short { AreShort edges.now.keys }
    requires atom { atom < length bank.now.trees }
    requires begins { (descent.old.left.items ≡ atom ∷ []) × (descent.old.opened.items ≡ []) × (descent.old.closed.items ≡ []) }
    ensures way { IfOk result (λ r. MatchOption r ((n : ℕ) → ¬ (Leads edges.now.keys 0 (labels bank.now (tree_at bank.now atom)) n)) (λ n. IsWay bank.now edges.now.keys atom n descent.new.closed.items)) }
{
    let mut node = 0;
    while let Some(id) = descent.left.pop() {
        match step(edges, bank, node, id)? {
            None => return Ok(None),
            Some(next) => {
                pass(descent, bank, id, node, next)?;
                node = next;
            }
        }
    }
    Ok(Some(node))
}
