// The question to the solver. It is not asked where the last valuation makes the entries true that came since: an entry with a
// new atom mostly has a true literal there, since new atoms are false.
ghost use Rattle.std.specs.Prelude.{◌≡◌, ◌<◌, ◌≤◌, ℕ, [], length, true, All, IfOk, IfSome, IfNone};
ghost use Rattle.inst_logic.specs.Truth.{IsTrueClause};
ghost use Rattle.prop_logic.specs.Solving.{IsAnswer};
ghost use Rattle.prop_logic.specs.Valuation.{IsHeld};
ghost use Rattle.instgen_select.specs.Choices.{IsTrueAt};
ghost use Rattle.instgen_run.specs.Solves.{IsTrueEntry};

use crate::ground::clause_after;
use compact_lists::{FlatClauses, PackedLit};
use inst_logic::Memory;
use instgen_select::choose_among;
use prop_logic::{Answer, Solver, Valuation};

// Whether a literal of the clause is true.
fn is_true(clause: &[PackedLit], v: &Valuation) -> bool
    ensures { result ≡ true → (p : ℕ) × IsTrueAt clause.now v.now p }
{
    match choose_among(None, clause, v) {
        Some(_) => true,
        None => false,
    }
}

// Whether all the clauses after the first `count` are true.
fn are_true_after(literals: &FlatClauses, count: usize, v: &Valuation) -> bool
    ensures { result ≡ true → (i : ℕ) → count ≤ i → i < length literals.now → IsTrueEntry literals.now v.now i }
{
    for k in count..literals.len() {
        if !is_true(clause_after(literals, k), v) {
            return false;
        }
    }
    true
}

/// The solver's answer, and `None` where the last valuation makes the solver's clauses true. The first `count` are true there.
pub fn ask<S: Solver>(
    solver: &mut S,
    literals: &FlatClauses,
    count: usize,
    v: &Valuation,
) -> Result<Option<Answer>, Memory>
    requires given { S.added solver.old ≡ literals.now }
    requires first { (i : ℕ) → i < count → IsTrueEntry literals.now v.now i }
    ensures atoms { S.atoms solver.new ≡ S.atoms solver.old }
    ensures added { S.added solver.new ≡ S.added solver.old }
    ensures some { IfOk result (λ r. IfSome r (IsAnswer (S.atoms solver.old) (S.added solver.old) [])) }
    ensures none { IfOk result (λ r. IfNone r (All (IsTrueClause (IsHeld v.now)) literals.now)) }
{
    if are_true_after(literals, count, v) {
        return Ok(None);
    }
    Ok(Some(solver.solve(&[])?))
}
