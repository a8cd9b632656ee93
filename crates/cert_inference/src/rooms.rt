// Comparison to work in, which serves one pair of members after the other.
use crate::comparison::Comparison;
use clause_form::Workspace;
use std::alloc::Global;
use unify_core::Bindings;

/// Comparison for the unifier of a pair, for the instances under it, and for clauses that are compared with them.
#[derive(Drop)]
pub struct PairRoom {
    pub bindings: Bindings,
    pub workspace: Workspace,
    pub comparison: Comparison,
}

impl PairRoom {
    /// Empty; takes no memory.
    pub fn new(alloc: Global) -> PairRoom {
        PairRoom {
            bindings: Bindings::new(alloc),
            workspace: Workspace::new(alloc),
            comparison: Comparison::new(alloc),
        }
    }
}
