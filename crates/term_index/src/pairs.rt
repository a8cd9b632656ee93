// The pairs at a node. One at a later place there has its place in a map, so that it is found among many.
ghost use Rattle.std.specs.Prelude.{◌≡◌, ◌<◌, ◌≤◌, ◌-◌, ◌++◌, ◌∷◌, [], ℕ, List, length, slice_index_or, IfOk, OnOk, OnErr, MatchOption, Some, None, true, false, Contains, AllPairs, ◌≢◌};
ghost use Rattle.std.specs.List.{swap_remove};
ghost use Rattle.term_index.specs.Pairs.{Posting, Removes};
ghost use Rattle.term_index.specs.Found.{place_of, few, Changes, AreFound};
ghost use Rattle.term_index.specs.Paths.{content_at, Holds};

use crate::node::Node;
use crate::number::short;
use indexmap::IndexMap;
use inst_logic::Memory;
use term_bank::TermId;

// How many places of a node are searched one by one. Most nodes have no more pairs, and these take no room in the map.
const FEW: u32 = 8;

// How many pairs the node has.
fn count_of(nodes: &Vec<Node>, node: usize) -> Result<u32, Memory>
    requires { node < length nodes.now.items }
    ensures { IfOk result (λ n. n ≡ length (content_at nodes.now.items node).pairs) }
{
    let here = &nodes[node];
    short(here.pairs().len())
}

// Puts the pair at the end of the node's.
fn push_pair(nodes: &mut Vec<Node>, node: usize, atom: TermId, entry: u32) -> Result<(), Memory>
    requires { node < length nodes.old.items }
    ensures len { length nodes.new.items ≡ length nodes.old.items }
    ensures pairs { OnOk result ((content_at nodes.new.items node).pairs ≡ (content_at nodes.old.items node).pairs ++ (atom, entry) ∷ []) }
    ensures held { OnErr result ((content_at nodes.new.items node).pairs ≡ (content_at nodes.old.items node).pairs) }
    ensures others { (n : ℕ) → ¬ (n ≡ node) → content_at nodes.new.items n ≡ content_at nodes.old.items n }
    ensures exits { (content_at nodes.new.items node).exits ≡ (content_at nodes.old.items node).exits }
{
    let here = &mut nodes[node];
    here.push_pair((atom, entry))?;
    Ok(())
}

// Tells the map the place of the pair, where it is not one of the first places.
fn note(
    found: &mut IndexMap<(TermId, u32), u32>,
    atom: TermId,
    entry: u32,
    place: u32,
) -> Result<(), Memory>
    ensures late { few ≤ place → OnOk result (Changes found.old.entries found.new.entries (atom, entry) (Some place)) }
    ensures first { place < few → found.new.entries ≡ found.old.entries }
{
    if place < FEW {
        return Ok(());
    }
    found.insert((atom, entry), place)?;
    Ok(())
}

// Puts the pair at the node.
pub fn put_pair(
    found: &mut IndexMap<(TermId, u32), u32>,
    nodes: &mut Vec<Node>,
    node: usize,
    atom: TermId,
    entry: u32,
) -> Result<(), Memory>
    requires within { node < length nodes.old.items }
    requires absent { (n : ℕ) → ¬ (Holds nodes.old.items n (atom, entry)) }
    requires found { AreFound found.old.entries nodes.old.items }
    ensures len { length nodes.new.items ≡ length nodes.old.items }
    ensures pairs { OnOk result ((content_at nodes.new.items node).pairs ≡ (content_at nodes.old.items node).pairs ++ (atom, entry) ∷ []) }
    ensures held { OnErr result ((content_at nodes.new.items node).pairs ≡ (content_at nodes.old.items node).pairs) }
    ensures others { (n : ℕ) → ¬ (n ≡ node) → content_at nodes.new.items n ≡ content_at nodes.old.items n }
    ensures exits { (content_at nodes.new.items node).exits ≡ (content_at nodes.old.items node).exits }
    ensures found { OnOk result (AreFound found.new.entries nodes.new.items) }
{
    let place = count_of(nodes, node)?;
    note(found, atom, entry, place)?;
    push_pair(nodes, node, atom, entry)?;
    Ok(())
}

// The place of the pair in the map.
fn found_place(found: &IndexMap<(TermId, u32), u32>, atom: TermId, entry: u32) -> Option<u32>
    ensures { result ≡ place_of found.now.entries (atom, entry) }
{
    found.get(&(atom, entry)).copied()
}

// Whether the pair is at this place of the node's.
fn is_at(nodes: &Vec<Node>, node: usize, place: usize, atom: TermId, entry: u32) -> bool
    requires { node < length nodes.now.items }
    ensures yes { result ≡ true → (place < length (content_at nodes.now.items node).pairs) × (slice_index_or (content_at nodes.now.items node).pairs place (atom, entry) ≡ (atom, entry)) }
    ensures no { result ≡ false → place < length (content_at nodes.now.items node).pairs → ¬ (slice_index_or (content_at nodes.now.items node).pairs place (atom, entry) ≡ (atom, entry)) }
{
    let here = &nodes[node];
    match here.pairs().get(place) {
        None => false,
        Some(pair) => *pair == (atom, entry),
    }
}

// The place of the pair among the first ones of the node.
fn first_place(nodes: &Vec<Node>, node: usize, atom: TermId, entry: u32) -> Option<u32>
    requires { node < length nodes.now.items }
    ensures { MatchOption result ((i : ℕ) → i < few → i < length (content_at nodes.now.items node).pairs → ¬ (slice_index_or (content_at nodes.now.items node).pairs i (atom, entry) ≡ (atom, entry))) (λ place. (place < length (content_at nodes.now.items node).pairs) × (slice_index_or (content_at nodes.now.items node).pairs place (atom, entry) ≡ (atom, entry))) }
{
    for place in 0..FEW {
        if is_at(nodes, node, place as usize, atom, entry) {
            return Some(place);
        }
    }
    None
}

// The place of the pair at the node.
fn place_at(
    found: &IndexMap<(TermId, u32), u32>,
    nodes: &Vec<Node>,
    node: usize,
    atom: TermId,
    entry: u32,
) -> Option<u32>
    requires within { node < length nodes.now.items }
    requires found { AreFound found.now.entries nodes.now.items }
    ensures { MatchOption result (¬ (Contains (content_at nodes.now.items node).pairs (atom, entry))) (λ place. (place < length (content_at nodes.now.items node).pairs) × (slice_index_or (content_at nodes.now.items node).pairs place (atom, entry) ≡ (atom, entry))) }
{
    if let Some(place) = first_place(nodes, node, atom, entry) {
        return Some(place);
    }
    let Some(place) = found_place(found, atom, entry) else {
        return None;
    };
    if is_at(nodes, node, place as usize, atom, entry) {
        return Some(place);
    }
    None
}

// The last pair of the node.
fn last_pair(nodes: &Vec<Node>, node: usize) -> Option<(TermId, u32)>
    requires { node < length nodes.now.items }
    ensures { MatchOption result ((content_at nodes.now.items node).pairs ≡ []) (λ p. slice_index_or (content_at nodes.now.items node).pairs (length (content_at nodes.now.items node).pairs - 1) p ≡ p) }
{
    let here = &nodes[node];
    here.pairs().last().copied()
}

// Takes the pair at the place, which the last one takes.
fn take_at(nodes: &mut Vec<Node>, node: usize, place: usize)
    requires within { node < length nodes.old.items }
    requires place { place < length (content_at nodes.old.items node).pairs }
    ensures len { length nodes.new.items ≡ length nodes.old.items }
    ensures pairs { (d : Posting) × ((content_at nodes.new.items node).pairs ≡ swap_remove (content_at nodes.old.items node).pairs place d) }
    ensures others { (n : ℕ) → ¬ (n ≡ node) → content_at nodes.new.items n ≡ content_at nodes.old.items n }
    ensures exits { (content_at nodes.new.items node).exits ≡ (content_at nodes.old.items node).exits }
{
    let here = &mut nodes[node];
    here.take_pair(place);
}

// Tells the map that the last pair of a node takes the place of another, which is taken. Memory is asked for before anything
// is taken.
fn replace(
    found: &mut IndexMap<(TermId, u32), u32>,
    atom: TermId,
    entry: u32,
    last: (TermId, u32),
    place: u32,
) -> Result<(), Memory>
    ensures late { few ≤ place → OnOk result ((mid : List (Posting × ℕ)) × Changes found.old.entries mid last (Some place) × Changes mid found.new.entries (atom, entry) None) }
    ensures first { place < few → OnOk result (Changes found.old.entries found.new.entries last None) }
{
    if place < FEW {
        found.swap_remove(&last);
        return Ok(());
    }
    found.insert(last, place)?;
    found.swap_remove(&(atom, entry));
    Ok(())
}

// Takes the pair from the node, where it is there.
pub fn take_pair(
    found: &mut IndexMap<(TermId, u32), u32>,
    nodes: &mut Vec<Node>,
    node: usize,
    atom: TermId,
    entry: u32,
) -> Result<bool, Memory>
    requires within { node < length nodes.old.items }
    requires once { (n : ℕ) → AllPairs ◌≢◌ (content_at nodes.old.items n).pairs }
    requires one_place { (m n : ℕ) (p : Posting) → Holds nodes.old.items m p → Holds nodes.old.items n p → m ≡ n }
    requires found { AreFound found.old.entries nodes.old.items }
    ensures len { length nodes.new.items ≡ length nodes.old.items }
    ensures there { IfOk result (λ r. r ≡ true → Removes (atom, entry) (content_at nodes.old.items node).pairs (content_at nodes.new.items node).pairs) }
    ensures absent { IfOk result (λ r. r ≡ false → (¬ Contains (content_at nodes.old.items node).pairs (atom, entry)) × ((content_at nodes.new.items node).pairs ≡ (content_at nodes.old.items node).pairs)) }
    ensures held { OnErr result (nodes.new.items ≡ nodes.old.items) }
    ensures once { OnOk result (AllPairs ◌≢◌ (content_at nodes.new.items node).pairs) }
    ensures others { (n : ℕ) → ¬ (n ≡ node) → content_at nodes.new.items n ≡ content_at nodes.old.items n }
    ensures exits { (content_at nodes.new.items node).exits ≡ (content_at nodes.old.items node).exits }
    ensures found { OnOk result (AreFound found.new.entries nodes.new.items) }
{
    let Some(place) = place_at(found, nodes, node, atom, entry) else {
        return Ok(false);
    };
    let Some(last) = last_pair(nodes, node) else {
        return Ok(false);
    };
    replace(found, atom, entry, last, place)?;
    take_at(nodes, node, place as usize);
    Ok(true)
}
