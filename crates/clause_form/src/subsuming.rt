// Subsumption with the terms by which it comes about.
ghost use Rattle.std.specs.Prelude.{◌≡◌, ◌≤◌, ◌<◌, length, slice_index_or, IfOk, IfSome, IfNone, All};
ghost use Rattle.inst_logic.specs.Clauses.{IsCanonical, IsPart, Subsumes, instance, order_of};
ghost use Rattle.term_bank.specs.Forest.{AreFormed, AreIds, Extends, IsClauseOf, clause_at};
ghost use Rattle.clause_form.specs.Conclusions.{AreVariables, by_terms, up_to};
ghost use Rattle.clause_form.specs.Placements.{AreBoundTo, ArePartTerms, IsBoundTo};

use crate::compare::{greatest_variable, variant};
use crate::conclusion::variables_up_to;
use crate::subsumption::{by_rank, have_candidates, place_all};
use inst_logic::Memory;
use std::alloc::Global;
use term_bank::{Bank, IdClause, IdLiteral, TermId, TermIdList};
use unify_core::{Bindings, Side};

// The term to which the variable is bound, or the other one.
fn bound_term(bindings: &Bindings, v: usize, other: TermId) -> TermId
    ensures { IsBoundTo bindings.now.entries v other result }
{
    match bindings.get(Side::Left, v) {
        Some(bound) => bound.term,
        None => other,
    }
}

// For each of the variables, counted from 0, the term to which it is bound, or the other one.
fn bound_terms(alloc: Global, bindings: &Bindings, others: &[TermId]) -> Result<TermIdList, Memory>
    ensures { IfOk result (AreBoundTo bindings.now.entries others.now) }
{
    let mut ids = TermIdList::new(alloc);
    for (v, other) in others.iter().enumerate() {
        let id = bound_term(bindings, v, *other);
        ids.push(id)?;
    }
    Ok(ids)
}

// The variables of the canonical clause `f`, whose ids are given, as the terms by which it subsumes itself.
fn own_terms(
    alloc: Global,
    _bank: &Bank,
    _f: &IdClause,
    variables: &[TermId],
) -> Result<TermIdList, Memory>
    requires canonical { IsCanonical (clause_at _bank.now _f.now) }
    requires variables { AreVariables _bank.now (length (order_of (clause_at _bank.now _f.now))) variables.now }
    ensures { IfOk result (ArePartTerms _bank.now _f.now _f.now) }
{
    let own = Vec::from_slice(alloc, variables)?;
    Ok(TermIdList::from(own))
}

// The terms for the variables of the canonical clause `f`, whose ids are given, by which it subsumes `c`.
fn find_terms(
    alloc: Global,
    bank: &Bank,
    f: &[IdLiteral],
    c: &[IdLiteral],
    variables: &[TermId],
) -> Result<Option<TermIdList>, Memory>
    requires pattern { IsClauseOf bank.now f.now }
    requires canonical { IsCanonical (clause_at bank.now f.now) }
    requires target { IsClauseOf bank.now c.now }
    requires variables { AreVariables bank.now (length (order_of (clause_at bank.now f.now))) variables.now }
    ensures some { IfOk result (λ o. IfSome o (ArePartTerms bank.now f.now c.now)) }
    ensures none { IfOk result (λ o. IfNone o (¬ (Subsumes (clause_at bank.now f.now) (clause_at bank.now c.now)))) }
{
    if !have_candidates(bank, f, c) {
        return Ok(None);
    }
    let ordered = by_rank(alloc, bank, f)?;
    let mut bindings = Bindings::new(alloc);
    let placed = place_all(alloc, bank, &mut bindings, &ordered, c)?;
    if !placed {
        return Ok(None);
    }
    let terms = bound_terms(alloc, &bindings, variables)?;
    Ok(Some(terms))
}

/// The terms for the variables of the canonical clause `f`, in their order, under which all its literals are among those of `c`.
/// `None` comes where `f` doesn't subsume `c`. Where the two are one clause nothing is searched. The bank keeps its trees and may have grown, also where memory was wanted.
pub fn subsuming_terms(
    alloc: Global,
    bank: &mut Bank,
    f: &IdClause,
    c: &IdClause,
) -> Result<Option<TermIdList>, Memory>
    requires pattern { IsClauseOf bank.old f.now }
    requires canonical { IsCanonical (clause_at bank.old f.now) }
    requires target { IsClauseOf bank.old c.now }
    ensures some { IfOk result (λ o. IfSome o (ArePartTerms bank.new f.now c.now)) }
    ensures none { IfOk result (λ o. IfNone o (¬ (Subsumes (clause_at bank.old f.now) (clause_at bank.old c.now)))) }
    ensures extends { Extends bank.old bank.new }
    ensures formed { AreFormed bank.old → AreFormed bank.new }
{
    let greatest = greatest_variable(bank, f);
    let variables = variables_up_to(alloc, bank, greatest)?;
    if variant(f, c) {
        let own = own_terms(alloc, bank, f, &variables)?;
        return Ok(Some(own));
    }
    find_terms(alloc, bank, f.as_slice(), c.as_slice(), &variables)
}
