// The first place where two lists of clauses of one bank differ, by ids: equal trees have equal ids.
ghost use Rattle.std.specs.Prelude.{◌≡◌, ◌↔◌, IsTrue, All, map, slice_get};
ghost use Rattle.inst_logic.specs.Derivations.{at_number};
ghost use Rattle.term_bank.specs.Forest.{IsClauseOf, clause_at};
ghost use Rattle.cert_check.specs.Firsts.{IsFirstWrongOf};

use cert_inference::same_clause;
use term_bank::{Bank, IdClause, IdClauseList};

// Whether both lists have equal clauses there, or both have none.
fn same_at(xs: &[IdClause], ys: &[IdClause], i: usize) -> bool
    ensures { IsTrue result ↔ (slice_get xs.now i ≡ slice_get ys.now i) }
{
    match (xs.get(i), ys.get(i)) {
        (Some(c), Some(d)) => same_clause(c, d),
        (None, None) => true,
        _ => false,
    }
}

// The number of the first clause that the lists do not both have.
fn different_ids(xs: &[IdClause], ys: &[IdClause]) -> Option<usize>
    ensures { IsFirstWrongOf (λ n. at_number xs.now n ≡ at_number ys.now n) result }
{
    for i in 0..xs.len().max(ys.len()) {
        if !same_at(xs, ys, i) {
            return Some(i + 1);
        }
    }
    None
}

// The number of the first clause that the lists do not both have, as clauses of trees.
pub fn difference(bank: &Bank, xs: &IdClauseList, ys: &IdClauseList) -> Option<usize>
    requires left { All (IsClauseOf bank.now) xs.now }
    requires right { All (IsClauseOf bank.now) ys.now }
    ensures { IsFirstWrongOf (λ n. at_number (map (clause_at bank.now) xs.now) n ≡ at_number (map (clause_at bank.now) ys.now) n) result }
{
    bank.distinct();
    different_ids(xs.as_slice(), ys.as_slice())
}
