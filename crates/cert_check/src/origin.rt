// What an origin among the inputs and axioms gives: the canonical form of that clause, made anew where the clause is not seen to
// have it, and compared by ids. Inputs need not be in canonical form.
ghost use Rattle.std.specs.Prelude.{◌≡◌, ◌↔◌, ◌++◌, ◌≤◌, All, IfOk, IsTrue, length, map, option_copied};
ghost use Rattle.inst_logic.specs.Clauses.{canonical_form};
ghost use Rattle.inst_logic.specs.Derivations.{at_number};
ghost use Rattle.term_bank.specs.Forest.{AreFormed, Extends, IsClauseOf, clause_at};
ghost use Rattle.cert_check.specs.Inputs.{GivesInput};

use cert_inference::same_clause;
use clause_form::{canonical, greatest_variable};
use inst_logic::Memory;
use std::alloc::Global;
use term_bank::{Bank, IdClause, IdClauseList};

// Clause `k` of the inputs and then the axioms, counted from 1.
pub fn clause_by_number<'a>(
    inputs: &'a IdClauseList,
    axioms: &'a IdClauseList,
    k: usize,
) -> Option<&'a IdClause>
    ensures { option_copied result ≡ at_number (inputs.now ++ axioms.now) k }
{
    if k == 0 {
        return None;
    }
    if k <= inputs.len() {
        return inputs.get(k - 1);
    }
    axioms.get(k - 1 - inputs.len())
}

fn is_short(c: &IdClause) -> bool
    ensures { IsTrue result → length c.now ≤ 1 }
{
    c.len() <= 1
}

// Whether the clause is a literal without variables, or empty. Many inputs are, and each is its own canonical form.
fn is_plain(bank: &Bank, c: &IdClause) -> bool
    requires { IsClauseOf bank.now c.now }
    ensures { IsTrue result → canonical_form (clause_at bank.now c.now) ≡ clause_at bank.now c.now }
{
    match greatest_variable(bank, c) {
        None => is_short(c),
        Some(_) => false,
    }
}

// Whether the clause is the canonical form of the other one, which is its own.
fn is_own_form(bank: &Bank, from: &IdClause, clause: &IdClause) -> bool
    requires from { IsClauseOf bank.now from.now }
    requires clause { IsClauseOf bank.now clause.now }
    requires form { canonical_form (clause_at bank.now from.now) ≡ clause_at bank.now from.now }
    ensures { IsTrue result ↔ (clause_at bank.now clause.now ≡ canonical_form (clause_at bank.now from.now)) }
{
    bank.distinct();
    same_clause(from, clause)
}

// Whether the clause is the canonical form of the other one, which is built.
fn is_built_form(
    alloc: Global,
    bank: &mut Bank,
    from: &IdClause,
    clause: &IdClause,
) -> Result<bool, Memory>
    requires from { IsClauseOf bank.old from.now }
    requires clause { IsClauseOf bank.old clause.now }
    ensures extends { Extends bank.old bank.new }
    ensures formed { AreFormed bank.old → AreFormed bank.new }
    ensures same { IfOk result (λ r. IsTrue r ↔ (clause_at bank.old clause.now ≡ canonical_form (clause_at bank.old from.now))) }
{
    let d = canonical(alloc, bank, from)?;
    bank.distinct();
    Ok(same_clause(&d, clause))
}

// Whether the clause is the canonical form of the other one.
pub fn is_canonical_form(
    alloc: Global,
    bank: &mut Bank,
    from: &IdClause,
    clause: &IdClause,
) -> Result<bool, Memory>
    requires from { IsClauseOf bank.old from.now }
    requires clause { IsClauseOf bank.old clause.now }
    ensures extends { Extends bank.old bank.new }
    ensures formed { AreFormed bank.old → AreFormed bank.new }
    ensures same { IfOk result (λ r. IsTrue r ↔ (clause_at bank.old clause.now ≡ canonical_form (clause_at bank.old from.now))) }
{
    if is_plain(bank, from) {
        return Ok(is_own_form(bank, from, clause));
    }
    is_built_form(alloc, bank, from, clause)
}

// Whether the clause is the canonical form of clause `k` of the inputs and then the axioms.
pub fn input_gives(
    alloc: Global,
    bank: &mut Bank,
    inputs: &IdClauseList,
    axioms: &IdClauseList,
    k: usize,
    clause: &IdClause,
) -> Result<bool, Memory>
    requires inputs { All (IsClauseOf bank.old) inputs.now }
    requires axioms { All (IsClauseOf bank.old) axioms.now }
    requires clause { IsClauseOf bank.old clause.now }
    ensures extends { Extends bank.old bank.new }
    ensures formed { AreFormed bank.old → AreFormed bank.new }
    ensures gives { IfOk result (λ r. IsTrue r ↔ GivesInput (map (clause_at bank.old) (inputs.now ++ axioms.now)) k (clause_at bank.old clause.now)) }
{
    match clause_by_number(inputs, axioms, k) {
        None => Ok(false),
        Some(from) => is_canonical_form(alloc, bank, from, clause),
    }
}
