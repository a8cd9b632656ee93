// The trie of the stored atoms' labels.
use crate::node::{Edge, Node};
use crate::places::Places;
use indexmap::IndexSet;
use std::alloc::Global;

/// The edges and the nodes of a trie, and where the exits stand at the nodes where they begin.
#[derive(Drop)]
pub struct Trie {
    pub alloc: Global,
    pub edges: IndexSet<Edge>,
    pub places: Places,
    pub nodes: Vec<Node>,
}
