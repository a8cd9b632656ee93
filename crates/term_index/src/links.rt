// The exits that are listed at the nodes where they begin. A walk that passes over a term goes on at its ends, and so does not
// look at the nodes between.
ghost use Rattle.std.specs.Prelude.{◌≡◌, ◌<◌, ◌≤◌, ◌+◌, ◌++◌, ◌∷◌, [], ℕ, length, OnOk, IfOk, MatchOption, Contains, true, false, Some, ◌⊎◌};
ghost use Rattle.std.specs.List.{swap_remove};
ghost use Rattle.term_index.specs.declared.node.Span.{Span};
ghost use Rattle.term_index.specs.Nodes.{Content};
ghost use Rattle.term_index.specs.Paths.{MakeTrie, AreListed, IsBare, Exits, content_at, exit_at, place_of, KeepsPairs};
ghost use Rattle.term_index.specs.Lists.{IsNoted, KeepsExits, KeepsOthers, ListsAll, AreWithin};

use crate::node::{Edge, Node, Span};
use crate::number::short;
use crate::places::{Places, move_place, note_place, place_of};
use indexmap::IndexSet;
use inst_logic::Memory;

// The exit at this place of the node's.
fn exit_in(nodes: &Vec<Node>, node: usize, place: usize) -> Option<u32>
    requires { node < length nodes.now.items }
    ensures { MatchOption result (length (content_at nodes.now.items node).exits ≤ place) (λ c. (place < length (content_at nodes.now.items node).exits) × (exit_at nodes.now.items node place ≡ c)) }
{
    let here = &nodes[node];
    match here.exits().get(place) {
        None => None,
        Some(end) => Some(*end),
    }
}

// How many exits the node has.
fn count_of(nodes: &Vec<Node>, node: usize) -> Result<u32, Memory>
    requires { node < length nodes.now.items }
    ensures { IfOk result (λ n. n ≡ length (content_at nodes.now.items node).exits) }
{
    let here = &nodes[node];
    short(here.exits().len())
}

// Whether nothing ends at the node and it has no exits.
fn is_bare(nodes: &Vec<Node>, node: usize) -> bool
    requires { node < length nodes.now.items }
    ensures { result ≡ true → IsBare (content_at nodes.now.items node) }
{
    let here = &nodes[node];
    here.exits().is_empty() && here.pairs().is_empty()
}

// Puts the exit at the end of the node's.
fn push_exit(nodes: &mut Vec<Node>, node: usize, end: u32) -> Result<(), Memory>
    requires { node < length nodes.old.items }
    ensures len { length nodes.new.items ≡ length nodes.old.items }
    ensures exits { OnOk result ((content_at nodes.new.items node).exits ≡ (content_at nodes.old.items node).exits ++ end ∷ []) }
    ensures others { (n : ℕ) → ¬ (n ≡ node) → content_at nodes.new.items n ≡ content_at nodes.old.items n }
    ensures pairs { (content_at nodes.new.items node).pairs ≡ (content_at nodes.old.items node).pairs }
{
    let here = &mut nodes[node];
    here.push_exit(end)?;
    Ok(())
}

// Takes the exit at the place, which the last one takes.
fn take_exit(nodes: &mut Vec<Node>, node: usize, place: usize)
    requires within { node < length nodes.old.items }
    requires place { place < length (content_at nodes.old.items node).exits }
    ensures len { length nodes.new.items ≡ length nodes.old.items }
    ensures exits { (d : ℕ) × ((content_at nodes.new.items node).exits ≡ swap_remove (content_at nodes.old.items node).exits place d) }
    ensures others { (n : ℕ) → ¬ (n ≡ node) → content_at nodes.new.items n ≡ content_at nodes.old.items n }
    ensures pairs { (content_at nodes.new.items node).pairs ≡ (content_at nodes.old.items node).pairs }
{
    let here = &mut nodes[node];
    here.take_exit(place);
}

// The place of the span among the exits of the node where it begins, if it is listed there.
fn listed_at(edges: &IndexSet<Edge>, places: &Places, nodes: &Vec<Node>, span: Span) -> Option<u32>
    requires begin { span.begin < length nodes.now.items }
    requires listed { AreListed edges.now.keys places.now nodes.now.items }
    ensures { MatchOption result (¬ (Exits nodes.now.items span.begin span.end)) (λ p. (p < length (content_at nodes.now.items span.begin).exits) × (exit_at nodes.now.items span.begin p ≡ span.end)) }
{
    let Some(place) = place_of(edges, places, span) else {
        return None;
    };
    match exit_in(nodes, span.begin as usize, place as usize) {
        None => None,
        Some(end) => {
            if end == span.end {
                return Some(place);
            }
            None
        }
    }
}

// Lists the span where it begins, if it is not listed there.
fn link(
    edges: &IndexSet<Edge>,
    places: &mut Places,
    nodes: &mut Vec<Node>,
    span: Span,
) -> Result<(), Memory>
    requires listed { AreListed edges.now.keys places.old nodes.old.items }
    requires within { span.begin < length nodes.old.items }
    ensures listed { OnOk result (AreListed edges.now.keys places.new nodes.new.items) }
    ensures sound { OnOk result ((n c : ℕ) → Exits nodes.new.items n c → Exits nodes.old.items n c ⊎ (record { begin = n; end = c } ≡ span)) }
    ensures there { OnOk result (Exits nodes.new.items span.begin span.end) }
    ensures kept { OnOk result (KeepsExits nodes.old.items nodes.new.items) }
    ensures len { length nodes.new.items ≡ length nodes.old.items }
    ensures pairs { KeepsPairs nodes.old.items nodes.new.items }
{
    if let Some(_) = listed_at(edges, places, nodes, span) {
        return Ok(());
    }
    let begin = span.begin as usize;
    let place = count_of(nodes, begin)?;
    note_place(edges, places, span, place)?;
    push_exit(nodes, begin, span.end)?;
    Ok(())
}

// Lists all the spans.
pub fn link_all(
    edges: &IndexSet<Edge>,
    places: &mut Places,
    nodes: &mut Vec<Node>,
    added: &[Span],
) -> Result<(), Memory>
    requires listed { AreListed edges.now.keys places.old nodes.old.items }
    requires within { AreWithin (length nodes.old.items) added.now }
    ensures listed { OnOk result (AreListed edges.now.keys places.new nodes.new.items) }
    ensures all { OnOk result (ListsAll nodes.old.items added.now nodes.new.items) }
    ensures len { length nodes.new.items ≡ length nodes.old.items }
    ensures pairs { KeepsPairs nodes.old.items nodes.new.items }
{
    for span in added {
        link(edges, places, nodes, *span)?;
    }
    Ok(())
}

// Tells the exit at the place that it is there, if there is one.
fn renumber(edges: &IndexSet<Edge>, places: &mut Places, nodes: &Vec<Node>, node: u32, place: u32)
    requires node { node < length nodes.now.items }
    requires known { place < length (content_at nodes.now.items node).exits → (p : ℕ) × (place_of edges.now.keys places.old (record { begin = node; end = exit_at nodes.now.items node place }) ≡ Some p) }
    ensures moved { place < length (content_at nodes.now.items node).exits → IsNoted edges.now.keys places.old places.new (record { begin = node; end = exit_at nodes.now.items node place }) place }
    ensures still { length (content_at nodes.now.items node).exits ≤ place → places.new ≡ places.old }
{
    match exit_in(nodes, node as usize, place as usize) {
        None => {}
        Some(end) => move_place(edges, places, Span { begin: node, end }, place),
    }
}

// Takes the span from the exits of the node where it begins, where it is among them.
fn unlink(edges: &IndexSet<Edge>, places: &mut Places, nodes: &mut Vec<Node>, span: Span)
    requires begin { span.begin < length nodes.old.items }
    requires listed { AreListed edges.now.keys places.old nodes.old.items }
    ensures listed { AreListed edges.now.keys places.new nodes.new.items }
    ensures others { KeepsOthers nodes.old.items span nodes.new.items }
{
    let Some(place) = listed_at(edges, places, nodes, span) else {
        return;
    };
    take_exit(nodes, span.begin as usize, place as usize);
    renumber(edges, places, nodes, span.begin, place);
}

// Takes the edge away where its end is bare.
fn unlink_bare(edges: &IndexSet<Edge>, places: &mut Places, nodes: &mut Vec<Node>, span: Span)
    requires trie { MakeTrie edges.now.keys places.old nodes.old.items }
    requires begin { span.begin < length nodes.old.items }
    requires end { span.end < length nodes.old.items }
    ensures trie { MakeTrie edges.now.keys places.new nodes.new.items }
    ensures len { length nodes.new.items ≡ length nodes.old.items }
    ensures pairs { KeepsPairs nodes.old.items nodes.new.items }
{
    if !is_bare(nodes, span.end as usize) {
        return;
    }
    unlink(edges, places, nodes, span);
}

// Takes the spans whose ends are bare from the exits where they begin, the last span first: where this leaves a node bare, the
// spans to it come later.
pub fn prune(edges: &IndexSet<Edge>, places: &mut Places, nodes: &mut Vec<Node>, removed: &[Span])
    requires trie { MakeTrie edges.now.keys places.old nodes.old.items }
    requires within { AreWithin (length nodes.old.items) removed.now }
    ensures trie { MakeTrie edges.now.keys places.new nodes.new.items }
    ensures pairs { KeepsPairs nodes.old.items nodes.new.items }
{
    for i in (0..removed.len()).rev() {
        unlink_bare(edges, places, nodes, removed[i]);
    }
}
