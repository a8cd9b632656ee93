// Instances of clauses by lists of terms, one for each variable.
ghost use Rattle.std.specs.Prelude.{◌≡◌, ◌↔◌, All, IfOk, IsTrue, length, map, true};
ghost use Rattle.std.specs.List.{list_all, list_any};
ghost use Rattle.inst_logic.specs.Clauses.{IsCanonical, IsPart};
ghost use Rattle.clause_form.specs.Conclusions.{AreVariables};
ghost use Rattle.clause_form.specs.Literals.{id_eq};
ghost use Rattle.cert_format.specs.TermLists.{AreTermsFor, IsPartBy};
ghost use Rattle.cert_values.specs.Wholes.{IsWholeTerm};
ghost use Rattle.term_bank.specs.Forest.{IsClauseOf, clause_at, tree_at, Grows};

use clause_form::{greatest_variable, under, variant};
use inst_logic::Memory;
use std::alloc::Global;
use term_bank::{Bank, IdClause, IdLiteral, Shape, TermId, TermIdList};

// Whether there is one term for each variable of the clause.
pub fn are_terms_for(bank: &Bank, c: &IdClause, terms: &TermIdList) -> bool
    requires clause { IsClauseOf bank.now c.now }
    requires canonical { IsCanonical (clause_at bank.now c.now) }
    ensures { IsTrue result ↔ AreTermsFor (clause_at bank.now c.now) (map (tree_at bank.now) terms.now) }
{
    match greatest_variable(bank, c) {
        None => terms.len() == 0,
        Some(last) => terms.len() > 0 && terms.len() - 1 == last,
    }
}

// Whether each literal of the first is one of the second.
fn all_within(c: &[IdLiteral], d: &[IdLiteral]) -> bool
    ensures { result ≡ list_all (λ l. list_any (λ m. id_eq m l) d.now) c.now }
{
    c.iter().all(|l| d.contains(l))
}

// Whether each tree of the first is one of the second: equal trees have equal ids. One clause is a part of itself, however long.
fn is_part(bank: &Bank, c: &IdClause, d: &IdClause) -> bool
    requires part { IsClauseOf bank.now c.now }
    requires whole { IsClauseOf bank.now d.now }
    ensures { IsTrue result ↔ IsPart (clause_at bank.now c.now) (clause_at bank.now d.now) }
{
    if variant(c, d) {
        return true;
    }
    bank.distinct();
    all_within(c.as_slice(), d.as_slice())
}

// Whether the term at each place is the variable of that number. Under these a canonical clause is its own instance, and a clause
// without variables is under none.
fn are_variables(bank: &Bank, terms: &[TermId]) -> bool
    requires { All (IsWholeTerm bank.now) terms.now }
    ensures { result ≡ true → AreVariables bank.now (length terms.now) terms.now }
{
    for i in 0..terms.len() {
        if bank.shape(terms[i]) != Shape::Var(i) {
            return false;
        }
    }
    true
}

/// Whether there is one term for each variable of the clause `e`, and all its literals under them are among those of `d`. Under its
/// own variables, or under none, the instance is the clause itself, and is not built.
pub fn is_part_by(
    alloc: Global,
    bank: &mut Bank,
    e: &IdClause,
    d: &IdClause,
    terms: &TermIdList,
) -> Result<bool, Memory>
    requires part { IsClauseOf bank.old e.now }
    requires canonical { IsCanonical (clause_at bank.old e.now) }
    requires whole { IsClauseOf bank.old d.now }
    requires terms { All (IsWholeTerm bank.old) terms.now }
    ensures is { IfOk result (λ r. IsTrue r ↔ IsPartBy (clause_at bank.old e.now) (clause_at bank.old d.now) (map (tree_at bank.old) terms.now)) }
    ensures grows { Grows bank.old bank.new }
{
    if !are_terms_for(bank, e, terms) {
        return Ok(false);
    }
    if are_variables(bank, terms.as_slice()) {
        return Ok(is_part(bank, e, d));
    }
    let built = under(alloc, bank, e, terms)?;
    Ok(is_part(bank, &built, d))
}
