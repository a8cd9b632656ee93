// The walk of a query over the tree. The frames are the places where it still has to go on, so no depth of term exhausts a
// stack.
ghost use Rattle.std.specs.Prelude.{◌≡◌, ◌↔◌, ◌<◌, ◌≤◌, ◌-◌, ◌++◌, ◌∷◌, [], ℕ, List, true, false, length, IsTrue, IfOk, OnOk, All, map, slice_index_or, MatchOption};
ghost use Rattle.term_index.specs.Pairs.{Gives, IsOver};
ghost use Rattle.term_index.specs.Run.{Graph, node_at, args_at};
ghost use Rattle.term_index.specs.Paths.{IsBare, content_at};
ghost use Rattle.term_index.specs.Tries.{IsTrie, IsWalkOver, StillComes, most_left};
ghost use Rattle.term_index.specs.Wide.{atom_bends, query_bends};
ghost use Rattle.term_index.specs.Walking.{IsWalking, GoesOn};
ghost use Rattle.term_index.specs.Frames.{spot, list_of, IsFrame, AreCells, Grows, AreQuery, rest_of, IsSettled, exit_frame, leaf_at, leaves_before, ends_of, IsLive, LeadsNowhere, AddsOne, AddsInner, AddsNext};

use crate::label::Label;
use crate::node::Node;
use crate::paths::child;
use crate::query::Query;
use crate::trie::Trie;
use crate::view::View;
use inst_logic::Memory;
use term_bank::TermId;

/// A list of nodes of the query: those that the arguments from `at` to `end` number, and then those of an older list.
/// List 0 is empty, and cell k is list k + 1.
#[derive(Clone, Copy, Debug, PartialEq, Eq)]
pub struct Cell {
    pub at: usize,
    pub end: usize,
    pub rest: usize,
}

/// A node of the tree. From it the nodes of the query are met that the arguments from `at` to `end` number, and then those of
/// the list `rest`. So many cells there were when it was pushed: the later ones are of no use when it is taken off.
#[derive(Clone, Copy, Debug, PartialEq, Eq)]
pub struct Frame {
    pub node: usize,
    pub at: usize,
    pub end: usize,
    pub rest: usize,
    pub cells: usize,
}

// Whether a variable of the atom may become any term.
pub fn bends_atom(view: View) -> bool
    ensures { result ≡ atom_bends view }
{
    match view {
        View::Unifiable | View::Generalisations => true,
        View::Instances => false,
    }
}

// Whether a variable of the query may become any term.
pub fn bends_query(view: View) -> bool
    ensures { result ≡ query_bends view }
{
    match view {
        View::Unifiable | View::Instances => true,
        View::Generalisations => false,
    }
}

// The frame of the list, beginning with an argument where it is not empty.
fn argument_frame(cells: &[Cell], frame: Frame) -> Frame
    requires order { frame.at ≤ frame.end }
    requires rest { frame.rest ≤ length cells.now }
    ensures same { (g : Graph) → AreCells g cells.now → spot g cells.now result ≡ spot g cells.now frame }
    ensures first { (g : Graph) → AreCells g cells.now → IsSettled result }
    ensures frame { (g : Graph) (nodes : ℕ) → AreCells g cells.now → IsFrame g nodes (length cells.now) frame → IsFrame g nodes (length cells.now) result }
    ensures cells { result.cells ≡ frame.cells }
{
    if frame.at < frame.end || frame.rest == 0 {
        return frame;
    }
    let cell = cells[frame.rest - 1];
    Frame {
        at: cell.at,
        end: cell.end,
        rest: cell.rest,
        ..frame
    }
}

// The frames at these exits.
fn push_all(exits: &[u32], stack: &mut Vec<Frame>, frame: Frame) -> Result<(), Memory>
    ensures { OnOk result (stack.new.items ≡ stack.old.items ++ map (exit_frame frame) exits.now) }
{
    for end in exits {
        stack.push(Frame {
            node: *end as usize,
            ..frame
        })?;
    }
    Ok(())
}

// The frames at the exits of the frame's node.
fn push_exits(nodes: &Vec<Node>, stack: &mut Vec<Frame>, frame: Frame) -> Result<(), Memory>
    requires { frame.node < length nodes.now.items }
    ensures { OnOk result (stack.new.items ≡ stack.old.items ++ map (exit_frame frame) (content_at nodes.now.items frame.node).exits) }
{
    let here = &nodes[frame.node];
    push_all(here.exits(), stack, frame)?;
    Ok(())
}

// The frame at the node, where pairs end there.
fn push_leaf(
    nodes: &Vec<Node>,
    stack: &mut Vec<Frame>,
    frame: Frame,
    node: usize,
) -> Result<(), Memory>
    ensures { OnOk result (stack.new.items ≡ stack.old.items ++ map (exit_frame frame) (leaf_at nodes.now.items node)) }
{
    if pairs_at(nodes, node).is_empty() {
        return Ok(());
    }
    stack.push(Frame { node, ..frame })?;
    Ok(())
}

// The frames at the nodes where pairs end.
fn push_leaves(nodes: &Vec<Node>, stack: &mut Vec<Frame>, frame: Frame) -> Result<(), Memory>
    ensures { OnOk result (stack.new.items ≡ stack.old.items ++ map (exit_frame frame) (leaves_before nodes.now.items (length nodes.now.items))) }
{
    for node in 0..nodes.len() {
        push_leaf(nodes, stack, frame, node)?;
    }
    Ok(())
}

// The frames after one term from the frame's node, whatever it is. From the root it is a whole atom.
fn push_ends(nodes: &Vec<Node>, stack: &mut Vec<Frame>, frame: Frame) -> Result<(), Memory>
    requires { frame.node < length nodes.now.items }
    ensures { OnOk result (stack.new.items ≡ stack.old.items ++ map (exit_frame frame) (ends_of nodes.now.items frame.node)) }
{
    if frame.node == 0 {
        push_leaves(nodes, stack, frame)?;
        return Ok(());
    }
    push_exits(nodes, stack, frame)?;
    Ok(())
}

// Whether nothing ends at the node and it has no exits.
pub fn is_dead(nodes: &Vec<Node>, node: usize) -> bool
    ensures { IsTrue result ↔ IsBare (content_at nodes.now.items node) }
{
    match nodes.get(node) {
        None => true,
        Some(here) => here.exits().is_empty() && here.pairs().is_empty(),
    }
}

// Where the label leads from the node, if not to a branch of which the last pair was removed: that one keeps its edges.
fn live_child(trie: &Trie, from: usize, label: Label) -> Result<Option<usize>, Memory>
    ensures { IfOk result (λ r. MatchOption r (LeadsNowhere trie.now.edges.keys trie.now.nodes.items from label) (IsLive trie.now.edges.keys trie.now.nodes.items from label)) }
{
    match child(&trie.edges, from, label)? {
        None => Ok(None),
        Some(node) => {
            if is_dead(&trie.nodes, node) {
                return Ok(None);
            }
            Ok(Some(node))
        }
    }
}

// The frame of the live child by this label, where there is one.
fn push_one(trie: &Trie, stack: &mut Vec<Frame>, frame: Frame, label: Label) -> Result<(), Memory>
    ensures { OnOk result (AddsOne trie.now.edges.keys trie.now.nodes.items frame label stack.old.items stack.new.items) }
{
    if let Some(node) = live_child(trie, frame.node, label)? {
        stack.push(Frame { node, ..frame })?;
    }
    Ok(())
}

// The frame of the live child by a variable, where there is one and a variable of the atom may become any term.
fn push_variable(
    view: View,
    trie: &Trie,
    stack: &mut Vec<Frame>,
    frame: Frame,
) -> Result<(), Memory>
    ensures bends { atom_bends view ≡ true → OnOk result (AddsOne trie.now.edges.keys trie.now.nodes.items frame Label.Variable stack.old.items stack.new.items) }
    ensures stays { atom_bends view ≡ false → OnOk result (stack.new.items ≡ stack.old.items) }
{
    if bends_atom(view) {
        push_one(trie, stack, frame, Label::Variable)?;
    }
    Ok(())
}

// The label of a node of the query.
fn query_label(query: &Query, node: usize) -> Label
    requires { node < length query.now.nodes }
    ensures { result ≡ (node_at query.now node).label }
{
    query.nodes[node].label
}

// The node of the query that is this argument.
fn argument(query: &Query, at: usize) -> usize
    requires { at < length query.now.args }
    ensures { result ≡ slice_index_or query.now.args at 0 }
{
    query.args[at]
}

// Saves what is left of the frame's list as a cell, and gives its number.
fn save_list(query: &Query, cells: &mut Vec<Cell>, frame: Frame) -> Result<usize, Memory>
    requires cells { AreCells query.now cells.old.items }
    requires order { frame.at ≤ frame.end }
    requires end { frame.end ≤ length query.now.args }
    requires rest { frame.rest ≤ length cells.old.items }
    ensures cells { OnOk result (AreCells query.now cells.new.items) }
    ensures grows { Grows cells.old.items cells.new.items }
    ensures list { IfOk result (λ n. list_of query.now.args cells.new.items n ≡ rest_of query.now cells.old.items frame) }
    ensures within { IfOk result (λ n. n ≤ length cells.new.items) }
{
    if frame.at == frame.end {
        return Ok(frame.rest);
    }
    cells.push(Cell {
        at: frame.at,
        end: frame.end,
        rest: frame.rest,
    })?;
    Ok(cells.len())
}

// The frame with the arguments of the query's node before its own list.
fn inner_frame(
    query: &Query,
    cells: &mut Vec<Cell>,
    node: usize,
    frame: Frame,
) -> Result<Frame, Memory>
    requires query { AreQuery query.now }
    requires node { node < length query.now.nodes }
    requires cells { AreCells query.now cells.old.items }
    requires order { frame.at ≤ frame.end }
    requires end { frame.end ≤ length query.now.args }
    requires rest { frame.rest ≤ length cells.old.items }
    ensures cells { OnOk result (AreCells query.now cells.new.items) }
    ensures grows { Grows cells.old.items cells.new.items }
    ensures todo { IfOk result (λ f. rest_of query.now cells.new.items f ≡ args_at query.now node ++ rest_of query.now cells.old.items frame) }
    ensures frame { IfOk result (λ f. (f.at ≤ f.end) × (f.end ≤ length query.now.args) × (f.rest ≤ length cells.new.items)) }
{
    let entry = query.nodes[node];
    let rest = save_list(query, cells, frame)?;
    Ok(Frame {
        at: entry.first,
        end: entry.first + entry.label.arity(),
        rest,
        ..frame
    })
}

/// Where a walk stands: what it still has to visit, and at which pair of which node it is.
#[derive(Drop)]
pub struct Walk {
    pub cells: Vec<Cell>,
    pub stack: Vec<Frame>,
    pub leaf: usize,
    pub place: usize,
}

// The frame at the live child by the label of the query's node, with the node's arguments first.
fn push_symbol(
    query: &Query,
    trie: &Trie,
    walk: &mut Walk,
    node: usize,
    label: Label,
    frame: Frame,
) -> Result<(), Memory>
    requires query { AreQuery query.now }
    requires node { node < length query.now.nodes }
    requires cells { AreCells query.now walk.old.cells.items }
    requires order { frame.at ≤ frame.end }
    requires end { frame.end ≤ length query.now.args }
    requires rest { frame.rest ≤ length walk.old.cells.items }
    requires marked { frame.cells ≤ length walk.old.cells.items }
    ensures cells { OnOk result (AreCells query.now walk.new.cells.items) }
    ensures grows { Grows walk.old.cells.items walk.new.cells.items }
    ensures adds { OnOk result (AddsInner query.now trie.now.edges.keys trie.now.nodes.items walk.old.cells.items walk.new.cells.items node label frame walk.old.stack.items walk.new.stack.items) }
    ensures stays { (walk.new.leaf ≡ walk.old.leaf) × (walk.new.place ≡ walk.old.place) }
{
    if let Some(next) = live_child(trie, frame.node, label)? {
        let inner = inner_frame(query, &mut walk.cells, node, frame)?;
        walk.stack.push(Frame {
            node: next,
            cells: walk.cells.len(),
            ..inner
        })?;
        return Ok(());
    }
    Ok(())
}

// The frames after a variable of the query.
fn push_any(view: View, trie: &Trie, stack: &mut Vec<Frame>, frame: Frame) -> Result<(), Memory>
    requires { frame.node < length trie.now.nodes.items }
    ensures bends { query_bends view ≡ true → OnOk result (stack.new.items ≡ stack.old.items ++ map (exit_frame frame) (ends_of trie.now.nodes.items frame.node)) }
    ensures stays { query_bends view ≡ false → OnOk result (AddsOne trie.now.edges.keys trie.now.nodes.items frame Label.Variable stack.old.items stack.new.items) }
{
    if bends_query(view) {
        push_ends(&trie.nodes, stack, frame)?;
        return Ok(());
    }
    push_one(trie, stack, frame, Label::Variable)?;
    Ok(())
}

// The frames after the first node of the query that is to be met.
fn advance(
    query: &Query,
    view: View,
    trie: &Trie,
    walk: &mut Walk,
    frame: Frame,
) -> Result<(), Memory>
    requires trie { IsTrie trie.now }
    requires query { AreQuery query.now }
    requires cells { AreCells query.now walk.old.cells.items }
    requires frame { IsFrame query.now (length trie.now.nodes.items) (length walk.old.cells.items) frame }
    requires first { frame.at < frame.end }
    ensures cells { OnOk result (AreCells query.now walk.new.cells.items) }
    ensures grows { Grows walk.old.cells.items walk.new.cells.items }
    ensures next { OnOk result (AddsNext view query.now trie.now.edges.keys trie.now.nodes.items (spot query.now walk.old.cells.items frame) frame.cells walk.new.cells.items walk.old.stack.items walk.new.stack.items) }
    ensures stays { (walk.new.leaf ≡ walk.old.leaf) × (walk.new.place ≡ walk.old.place) }
{
    let node = argument(query, frame.at);
    let after = Frame {
        at: frame.at + 1,
        ..frame
    };
    let label = query_label(query, node);
    match label {
        Label::Variable => {
            push_any(view, trie, &mut walk.stack, after)?;
            Ok(())
        }
        Label::Symbol(_, _) => {
            push_variable(view, trie, &mut walk.stack, after)?;
            push_symbol(query, trie, walk, node, label, after)?;
            Ok(())
        }
    }
}

// Whether nothing is to be met any more.
fn is_done(frame: Frame) -> bool
    requires { frame.at ≤ frame.end }
    ensures yes { result ≡ true → frame.at ≡ frame.end }
    ensures no { result ≡ false → frame.at < frame.end }
{
    frame.at == frame.end
}

// Goes on from a frame that was taken off.
fn go_on(
    query: &Query,
    view: View,
    trie: &Trie,
    walk: &mut Walk,
    frame: Frame,
) -> Result<(), Memory>
    requires trie { IsTrie trie.now }
    requires query { AreQuery query.now }
    requires walking { IsWalking view query.now trie.now.edges.keys trie.now.nodes.items walk.old.cells.items (walk.old.stack.items ++ frame ∷ []) walk.old.leaf }
    requires over { length (content_at trie.now.nodes.items walk.old.leaf).pairs ≤ walk.old.place }
    ensures { OnOk result (GoesOn view query.now trie.now.edges.keys trie.now.nodes.items walk.old.cells.items (walk.old.stack.items ++ frame ∷ []) walk.old.leaf walk.old.place walk.new.cells.items walk.new.stack.items walk.new.leaf walk.new.place) }
{
    walk.cells.truncate(frame.cells);
    let first = argument_frame(walk.cells.as_slice(), frame);
    if is_done(first) {
        walk.leaf = first.node;
        walk.place = 0;
        return Ok(());
    }
    advance(query, view, trie, walk, first)?;
    Ok(())
}

// The pairs of the node.
pub fn pairs_at(nodes: &Vec<Node>, node: usize) -> &[(TermId, u32)]
    ensures { result.now ≡ (content_at nodes.now.items node).pairs }
{
    if node >= nodes.len() {
        return &[];
    }
    let here = &nodes[node];
    here.pairs()
}

// The entry of the pair at this place.
fn entry_at(pairs: &[(TermId, u32)], place: usize) -> Option<usize>
    ensures { MatchOption result (length pairs.now ≤ place) (λ entry. (atom : ℕ) × (place < length pairs.now) × (slice_index_or pairs.now place (atom, entry) ≡ (atom, entry))) }
{
    match pairs.get(place) {
        None => None,
        Some((_, entry)) => Some(*entry as usize),
    }
}

/// The entry of the next pair.
pub fn next_entry(
    query: &Query,
    view: View,
    trie: &Trie,
    walk: &mut Walk,
) -> Result<Option<usize>, Memory>
    requires trie { IsTrie trie.now }
    requires query { AreQuery query.now }
    requires walking { IsWalkOver view query.now trie.now walk.old }
    ensures walking { OnOk result (IsWalkOver view query.now trie.now walk.new) }
    ensures gives { IfOk result (λ r. MatchOption r
        (IsOver (StillComes view query.now trie.now walk.old) × IsOver (StillComes view query.now trie.now walk.new))
        (λ entry. Gives (StillComes view query.now trie.now walk.old) entry (StillComes view query.now trie.now walk.new) × (most_left trie.now walk.new < most_left trie.now walk.old))) }
{
    loop {
        if let Some(entry) = entry_at(pairs_at(&trie.nodes, walk.leaf), walk.place) {
            walk.place += 1;
            return Ok(Some(entry));
        }
        match walk.stack.pop() {
            None => return Ok(None),
            Some(frame) => go_on(query, view, trie, walk, frame)?,
        }
    }
}
