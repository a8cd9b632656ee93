// A discrimination tree as an index.
ghost use Rattle.std.specs.Prelude.{◌≡◌, ◌<◌, ℕ, List, [], ◌∷◌, true, false, length, Contains, IsTrue, IsErr, IfOk, OnOk, OnErr};
ghost use Rattle.term_bank.specs.Forest.{tree_at};
ghost use Rattle.term_index.specs.Views.{Stands};
ghost use Rattle.term_index.specs.Pairs.{Posting, Adds, Removes, IsAsked};
ghost use Rattle.term_index.specs.Found.{AreFound};
ghost use Rattle.term_index.specs.Paths.{PlaceLists, MakeTrie, KeepsPairs};
ghost use Rattle.term_index.specs.Tries.{IsTrie, AreStored};
ghost use Rattle.term_index.specs.declared.node.Edge.{Edge};
ghost use Rattle.term_index.specs.Frames.{IsBegun};
ghost use Rattle.term_index.specs.Wide.{IsWide};
ghost use Rattle.term_index.specs.State.{pairs_of, Fits, IsWalkOf};
ghost use Rattle.term_index.specs.Walking.{WalkComes, most_of};
ghost use Rattle.term_index.specs.StateLaws.{empty_tree, grown_tree};

use crate::descent::{Descent, begin, no_descent};
use crate::ids::FEW;
use crate::index::PartnerIndex;
use crate::links::{link_all, prune};
use crate::node::Node;
use crate::number::short;
use crate::pairs::{put_pair, take_pair};
use crate::paths::{grown_leaf, leaf, push_node};
use crate::places::no_places;
use crate::query::{Query, query_of};
use crate::trie::Trie;
use crate::view::View;
use crate::walk::{Frame, Walk, is_dead, next_entry, pairs_at};
use indexmap::{IndexMap, IndexSet};
use inst_logic::Memory;
use std::alloc::Global;
use std::marker::Model;
use term_bank::{Bank, TermId};

/// A tree of the stored atoms by their labels from left to right (McCune, Experiments with discrimination-tree indexing and
/// path indexing for term retrieval, 1992), where all variables have one label. An atom is wide to a query exactly where the
/// two stand to each other as the view says when every occurrence of a variable is a variable of its own.
///
/// `insert` and `remove` take time in the symbols of the atom, which is spelled out, however many entries are stored with it.
/// The lists in which they work are kept for the next call, so they soon take no memory but for what is stored. `start` takes
/// time in the nodes of the query, each once even where it shares them, and in none where no pair is stored; `next` in the
/// nodes that it looks at. The child by a label is found by one hash, however many children a node has. A term that a variable
/// of the query stands for is passed over in one step for each node at which it may end, however long it is; where that is a
/// whole atom, since the query itself is a variable, all nodes are looked at. A node stays when the last pair below it is
/// removed, for the next that is stored there, but no walk of another query comes to it any more.
///
/// A tree has room for 4,294,967,296 nodes, and for entries, numbers of symbols and numbers of arguments up to 4,294,967,295.
/// `insert` and `start` want memory for what is larger, and nothing that is larger is there to be removed.
#[derive(Drop)]
pub struct Tree {
    trie: Trie,
    found: IndexMap<(TermId, u32), u32>,
    descent: Descent,
    spent: bool,
}

impl Model for Tree {
    ghost use Rattle.std.specs.Prelude.{◌≡◌, false};
    ghost use Rattle.term_index.specs.State.{State};
    ghost use Rattle.term_index.specs.Found.{AreFound};
    ghost use Rattle.term_index.specs.Tries.{IsTrie};

    ghost Value = { State };

    ghost view = { λ t. record { edges = t.trie.edges.keys; places = t.trie.places; nodes = t.trie.nodes.items; found = t.found.entries; spent = t.spent } };

    ghost invariant = { λ t. t.spent ≡ false → IsTrie t.trie × AreFound t.found.entries t.trie.nodes.items };
}

/// A walk over the tree, with a copy of its query. It holds no more frames than the steps that it has to come back to, and no
/// more lists of what is to be met than the steps on the way to the node at hand.
#[derive(Drop)]
pub struct TreeCursor {
    view: View,
    query: Query,
    walk: Walk,
    broken: bool,
}

impl Tree {
    /// An index without pairs.
    pub fn new(alloc: Global) -> Tree
        ensures { result ≡ record { edges = []; places = record { ends = []; spans = [] }; nodes = []; found = []; spent = false } }
    {
        Tree {
            trie: Trie {
                alloc,
                edges: IndexSet::new(alloc),
                places: no_places(alloc),
                nodes: Vec::new(alloc),
            },
            found: IndexMap::new(alloc),
            descent: no_descent(alloc),
            spent: false,
        }
    }
}

// A root, where there is none.
fn make_root(alloc: Global, nodes: &mut Vec<Node>) -> Result<(), Memory>
    ensures root { OnOk result (0 < length nodes.new.items) }
    ensures trie { (es : List Edge) (ps : PlaceLists) → MakeTrie es ps nodes.old.items → MakeTrie es ps nodes.new.items }
    ensures pairs { KeepsPairs nodes.old.items nodes.new.items }
{
    if nodes.is_empty() {
        push_node(alloc, nodes)?;
        return Ok(());
    }
    Ok(())
}

// Stores the pair, of which the terms are told one by one.
fn stored_by(
    trie: &mut Trie,
    found: &mut IndexMap<(TermId, u32), u32>,
    bank: &Bank,
    pair: (TermId, u32),
    descent: &mut Descent,
) -> Result<(), Memory>
    requires within { pair.0 < length bank.now.trees }
    requires begins { (descent.old.left.items ≡ pair.0 ∷ []) × (descent.old.opened.items ≡ []) × (descent.old.closed.items ≡ []) }
    requires trie { IsTrie trie.old }
    requires found { AreFound found.old.entries trie.old.nodes.items }
    requires stored { AreStored bank.now trie.old }
    requires absent { ¬ Contains (pairs_of trie.old.nodes.items) pair }
    ensures trie { OnOk result (IsTrie trie.new) }
    ensures found { OnOk result (AreFound found.new.entries trie.new.nodes.items) }
    ensures stored { OnOk result (AreStored bank.now trie.new) }
    ensures added { OnOk result (Adds pair (pairs_of trie.old.nodes.items) (pairs_of trie.new.nodes.items)) }
    ensures held { OnErr result (pairs_of trie.new.nodes.items ≡ pairs_of trie.old.nodes.items) }
{
    let (atom, entry) = pair;
    make_root(trie.alloc, &mut trie.nodes)?;
    let node = grown_leaf(trie, bank, atom, descent)?;
    link_all(
        &trie.edges,
        &mut trie.places,
        &mut trie.nodes,
        descent.closed.as_slice(),
    )?;
    put_pair(found, &mut trie.nodes, node, atom, entry)?;
    Ok(())
}

// Stores the pair.
fn store_pair(
    trie: &mut Trie,
    found: &mut IndexMap<(TermId, u32), u32>,
    bank: &Bank,
    pair: (TermId, usize),
    descent: &mut Descent,
) -> Result<(), Memory>
    requires within { pair.0 < length bank.now.trees }
    requires trie { IsTrie trie.old }
    requires found { AreFound found.old.entries trie.old.nodes.items }
    requires stored { AreStored bank.now trie.old }
    requires absent { ¬ Contains (pairs_of trie.old.nodes.items) pair }
    ensures trie { OnOk result (IsTrie trie.new) }
    ensures found { OnOk result (AreFound found.new.entries trie.new.nodes.items) }
    ensures stored { OnOk result (AreStored bank.now trie.new) }
    ensures added { OnOk result (Adds pair (pairs_of trie.old.nodes.items) (pairs_of trie.new.nodes.items)) }
    ensures held { OnErr result (pairs_of trie.new.nodes.items ≡ pairs_of trie.old.nodes.items) }
{
    let (atom, entry) = pair;
    let number = short(entry)?;
    begin(descent, atom)?;
    stored_by(trie, found, bank, (atom, number), descent)
}

// Takes the pair, where it is there.
fn taken_by(
    trie: &mut Trie,
    found: &mut IndexMap<(TermId, u32), u32>,
    bank: &Bank,
    pair: (TermId, u32),
    descent: &mut Descent,
) -> Result<bool, Memory>
    requires within { pair.0 < length bank.now.trees }
    requires begins { (descent.old.left.items ≡ pair.0 ∷ []) × (descent.old.opened.items ≡ []) × (descent.old.closed.items ≡ []) }
    requires trie { IsTrie trie.old }
    requires found { AreFound found.old.entries trie.old.nodes.items }
    requires stored { AreStored bank.now trie.old }
    ensures trie { IsTrie trie.new }
    ensures found { OnOk result (AreFound found.new.entries trie.new.nodes.items) }
    ensures stored { AreStored bank.now trie.new }
    ensures there { IfOk result (λ r. r ≡ true → Removes pair (pairs_of trie.old.nodes.items) (pairs_of trie.new.nodes.items)) }
    ensures absent { IfOk result (λ r. r ≡ false → (¬ Contains (pairs_of trie.old.nodes.items) pair) × (pairs_of trie.new.nodes.items ≡ pairs_of trie.old.nodes.items)) }
    ensures held { OnErr result (trie.new.nodes.items ≡ trie.old.nodes.items) }
{
    if trie.nodes.is_empty() {
        return Ok(false);
    }
    let (atom, entry) = pair;
    match leaf(&trie.edges, bank, atom, descent)? {
        None => Ok(false),
        Some(node) => {
            let there = take_pair(found, &mut trie.nodes, node, atom, entry)?;
            prune(
                &trie.edges,
                &mut trie.places,
                &mut trie.nodes,
                descent.closed.as_slice(),
            );
            Ok(there)
        }
    }
}

// Takes the pair, where it is there.
fn remove_pair(
    trie: &mut Trie,
    found: &mut IndexMap<(TermId, u32), u32>,
    bank: &Bank,
    pair: (TermId, usize),
    descent: &mut Descent,
) -> Result<bool, Memory>
    requires within { pair.0 < length bank.now.trees }
    requires trie { IsTrie trie.old }
    requires found { AreFound found.old.entries trie.old.nodes.items }
    requires stored { AreStored bank.now trie.old }
    ensures trie { IsTrie trie.new }
    ensures found { OnOk result (AreFound found.new.entries trie.new.nodes.items) }
    ensures stored { AreStored bank.now trie.new }
    ensures there { IfOk result (λ r. r ≡ true → Removes pair (pairs_of trie.old.nodes.items) (pairs_of trie.new.nodes.items)) }
    ensures absent { IfOk result (λ r. r ≡ false → (¬ Contains (pairs_of trie.old.nodes.items) pair) × (pairs_of trie.new.nodes.items ≡ pairs_of trie.old.nodes.items)) }
    ensures held { OnErr result (trie.new.nodes.items ≡ trie.old.nodes.items) }
{
    let (atom, entry) = pair;
    match short(entry) {
        // (no such entry was stored)
        Err(_) => Ok(false),
        Ok(number) => {
            begin(descent, atom)?;
            taken_by(trie, found, bank, (atom, number), descent)
        }
    }
}

// A walk that has not begun: it has one frame at the root, if any pair is stored.
fn walk_from_root(trie: &Trie) -> Result<Walk, Memory>
    ensures { IfOk result (λ w. IsBegun trie.now.nodes.items w.cells.items w.stack.items w.leaf w.place) }
{
    let alloc = trie.alloc;
    let place = pairs_at(&trie.nodes, 0).len();
    let mut stack = Vec::new(alloc);
    if is_dead(&trie.nodes, 0) {
        return Ok(Walk {
            cells: Vec::new(alloc),
            stack,
            leaf: 0,
            place,
        });
    }
    stack.reserve(FEW)?;
    stack.push(Frame {
        node: 0,
        at: 0,
        end: 1,
        rest: 0,
        cells: 0,
    })?;
    Ok(Walk {
        cells: Vec::new(alloc),
        stack,
        leaf: 0,
        place,
    })
}

impl PartnerIndex for Tree {
    type Cursor = TreeCursor;

    ghost pairs = { λ s. pairs_of s.nodes };

    ghost spent = { λ s. s.spent };

    ghost fits = { Fits };

    ghost wide = { IsWide };

    ghost walks = { λ s c. IsWalkOf s c.broken c.view c.query c.walk.cells.items c.walk.stack.items c.walk.leaf };

    ghost to_come = { λ s c. WalkComes c.view c.query s.edges s.nodes c.walk.cells.items c.walk.stack.items c.walk.leaf c.walk.place };

    ghost most = { λ s c. most_of s.nodes c.walk.stack.items c.walk.leaf c.walk.place };

    ghost broken = { λ c. c.broken };

    fn insert(&mut self, bank: &Bank, atom: TermId, entry: usize) -> Result<(), Memory> {
        if self.spent {
            return Err(Memory);
        }
        let result = store_pair(
            &mut self.trie,
            &mut self.found,
            bank,
            (atom, entry),
            &mut self.descent,
        );
        self.spent = result.is_err();
        result
    }

    fn remove(&mut self, bank: &Bank, atom: TermId, entry: usize) -> Result<bool, Memory> {
        if self.spent {
            return Err(Memory);
        }
        let result = remove_pair(
            &mut self.trie,
            &mut self.found,
            bank,
            (atom, entry),
            &mut self.descent,
        );
        self.spent = result.is_err();
        result
    }

    /// A walk that is not refused memory gives just the pairs whose atoms are wide to the query.
    fn start(&self, bank: &Bank, query: TermId, view: View) -> Result<TreeCursor, Memory>
        requires within { query < length bank.now.trees }
        requires fits { Fits bank.now self.now }
        ensures walks { IfOk result (λ c. IsWalkOf self.now c.broken c.view c.query c.walk.cells.items c.walk.stack.items c.walk.leaf) }
        ensures asked { IfOk result (λ c. IsAsked bank.now (pairs_of self.now.nodes) (IsWide view) (Stands view) query (WalkComes c.view c.query self.now.edges self.now.nodes c.walk.cells.items c.walk.stack.items c.walk.leaf c.walk.place)) }
        ensures exact { IfOk result (λ c. (p : Posting) → Contains (pairs_of self.now.nodes) p → IsWide view (tree_at bank.now p.0) (tree_at bank.now query) → WalkComes c.view c.query self.now.edges self.now.nodes c.walk.cells.items c.walk.stack.items c.walk.leaf c.walk.place p) }
        ensures whole { IfOk result (λ c. c.broken ≡ false) }
        ensures stays_spent { IsTrue self.now.spent → IsErr result }
    {
        if self.spent {
            return Err(Memory);
        }
        let walk = walk_from_root(&self.trie)?;
        let query = query_of(self.trie.alloc, bank, query, &walk.stack)?;
        Ok(TreeCursor {
            view,
            query,
            walk,
            broken: false,
        })
    }

    fn next(&self, cursor: &mut TreeCursor) -> Result<Option<usize>, Memory> {
        if cursor.broken {
            return Err(Memory);
        }
        match next_entry(&cursor.query, cursor.view, &self.trie, &mut cursor.walk) {
            Ok(found) => Ok(found),
            Err(error) => {
                cursor.broken = true;
                Err(error)
            }
        }
    }

    ghost empty_fits = { empty_tree };

    ghost grown_fits = { grown_tree };
}
