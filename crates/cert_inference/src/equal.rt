// Whether two clauses of one bank are equal, by ids: equal trees have equal ids.
ghost use Rattle.std.specs.Prelude.{◌≡◌, ◌↔◌, IsTrue};
ghost use Rattle.term_bank.specs.Forest.{IsClauseOf, clause_at};

use term_bank::{Bank, IdClause};

// Whether the clauses have the same literals in the same order.
pub fn same_clause(c: &IdClause, d: &IdClause) -> bool
    ensures { IsTrue result ↔ (c.now ≡ d.now) }
{
    c == d
}

// Whether the clauses stand for the same trees: equal trees have equal ids.
pub fn same_trees(bank: &Bank, c: &IdClause, d: &IdClause) -> bool
    requires left { IsClauseOf bank.now c.now }
    requires right { IsClauseOf bank.now d.now }
    ensures { IsTrue result ↔ (clause_at bank.now c.now ≡ clause_at bank.now d.now) }
{
    bank.distinct();
    same_clause(c, d)
}
