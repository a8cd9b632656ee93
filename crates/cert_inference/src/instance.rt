// An instance of a side's clause.
use term_bank::IdClause;
use unify_core::{Bindings, Side};

/// The instance under the bindings of the clause, whose variables are those of the side.
#[derive(Clone, Copy)]
pub struct Instance<'a> {
    pub bindings: &'a Bindings,
    pub side: Side,
    pub clause: &'a IdClause,
}
