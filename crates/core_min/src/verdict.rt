// What a run says of a sub-list.
use inst_logic::NumberList;

/// Whether the clauses at some places are refuted, with their own axioms of equality.
#[derive(Drop, Debug)]
pub enum Verdict {
    /// They are, by the clauses at these places alone: those that the refutation cites, counted from 1 and rising.
    Refuted(NumberList),
    /// They are satisfiable.
    Satisfiable,
}
