// What the variables of a conclusion become in a part of it. The part's canonical form is found by renumbering, so matching the
// kept literals onto it tells which variable became which. The part lacks some.
ghost use Rattle.std.specs.Prelude.{◌≡◌, ◌<◌, [], ℕ, length, map, IfOk, OnOk};
ghost use Rattle.inst_logic.specs.declared.symbol.Sym.{Sym};
ghost use Rattle.inst_logic.specs.Tree.{app, none};
ghost use Rattle.inst_logic.specs.Clauses.{IsCanonical, order_of};
ghost use Rattle.inst_calculus.specs.Parts.{IsProperPart, chosen};
ghost use Rattle.inst_calculus.specs.Unrolling.{part_terms};
ghost use Rattle.clause_form.specs.Conclusions.{AreTermIds};
ghost use Rattle.cert_values.specs.Wholes.{IsWholeClause};
ghost use Rattle.term_bank.specs.Forest.{AreFormed, AreIds, Extends, IsClauseOf, IsTermIn, clause_at, tree_at};
ghost use Rattle.instgen_loop.specs.PartTerms.{AreBound, AreBoundTerms, IsBoundTerm, IsRenumbered};

use clause_form::{canonical, greatest_variable};
use inst_logic::{Memory, PlaceList};
use instgen_run::kept_literals;
use std::alloc::Global;
use term_bank::{Bank, IdClause, IdLiteral, TermId, TermIdList};
use unify_core::{Bindings, Side};

// Binds the variables of the kept literals to what they become in the part, which has these literals in their order.
fn bind_all(
    bank: &Bank,
    bindings: &mut Bindings,
    kept: &[IdLiteral],
    part: &[IdLiteral],
) -> Result<(), Memory>
    requires fresh { bindings.old.entries ≡ [] }
    requires kept { IsClauseOf bank.now kept.now }
    requires part { IsClauseOf bank.now part.now }
    requires renumbered { IsRenumbered bank.now kept.now part.now }
    ensures bound { OnOk result (AreBound bank.now kept.now bindings.new.entries) }
{
    for i in 0..kept.len() {
        if !bindings.match_onto(bank, kept[i].atom, part[i].atom)? {
            unreachable!();
        }
    }
    Ok(())
}

// How many variables the clause has.
fn count_of(bank: &Bank, c: &IdClause) -> Result<usize, Memory>
    requires clause { IsClauseOf bank.now c.now }
    requires canonical { IsCanonical (clause_at bank.now c.now) }
    ensures { IfOk result (λ n. n ≡ length (order_of (clause_at bank.now c.now))) }
{
    match greatest_variable(bank, c) {
        None => Ok(0),
        Some(last) => match last.checked_add(1) {
            Some(count) => Ok(count),
            None => Err(Memory),
        },
    }
}

// What variable `v` becomes: the variable to which it is bound, or the constant.
fn bound_term(bindings: &Bindings, v: usize, constant: TermId) -> TermId
    ensures { IsBoundTerm bindings.now.entries constant v result }
{
    match bindings.get(Side::Left, v) {
        Some(bound) => bound.term,
        None => constant,
    }
}

// The terms of so many variables.
fn bound_terms(
    alloc: Global,
    bindings: &Bindings,
    count: usize,
    constant: TermId,
) -> Result<TermIdList, Memory>
    ensures { IfOk result (AreBoundTerms bindings.now.entries constant count) }
{
    let mut terms = TermIdList::new(alloc);
    for v in 0..count {
        terms.push(bound_term(bindings, v, constant))?;
    }
    Ok(terms)
}

/// The literals of a conclusion at the places that are kept.
#[derive(Clone, Copy)]
pub struct Part<'a> {
    pub whole: &'a IdClause,
    pub keep: &'a PlaceList,
}

// The terms of all variables of the conclusion.
fn terms_with(
    alloc: Global,
    bank: &mut Bank,
    bindings: &mut Bindings,
    part: &Part<'_>,
    constant: TermId,
) -> Result<TermIdList, Memory>
    requires fresh { bindings.old.entries ≡ [] }
    requires whole { IsWholeClause bank.old part.now.whole.now }
    requires canonical { IsCanonical (clause_at bank.old part.now.whole.now) }
    requires keep { IsProperPart (length part.now.whole.now) part.now.keep.now }
    requires constant { IsTermIn bank.old constant }
    ensures extends { Extends bank.old bank.new }
    ensures formed { AreFormed bank.old → AreFormed bank.new }
    ensures ids { IfOk result (AreIds bank.new) }
    ensures plain { IfOk result (AreTermIds bank.new) }
    ensures terms { IfOk result (λ ts. (bot : Sym) → tree_at bank.old constant ≡ app bot none → map (tree_at bank.new) ts ≡ part_terms bot (clause_at bank.old part.now.whole.now) (chosen (clause_at bank.old part.now.whole.now) part.now.keep.now)) }
{
    let kept = kept_literals(alloc, part.whole.as_slice(), part.keep)?;
    let canonical_part = canonical(alloc, bank, &kept)?;
    bind_all(bank, bindings, kept.as_slice(), canonical_part.as_slice())?;
    let count = count_of(bank, part.whole)?;
    bound_terms(alloc, bindings, count, constant)
}

/// The terms under which the premises of a lemma imply the part of the conclusion at the places that are kept: for each variable of
/// the conclusion that of the part, or the constant where the part lacks it.
pub fn part_terms(
    alloc: Global,
    bank: &mut Bank,
    part: &Part<'_>,
    constant: TermId,
) -> Result<TermIdList, Memory>
    requires whole { IsWholeClause bank.old part.now.whole.now }
    requires canonical { IsCanonical (clause_at bank.old part.now.whole.now) }
    requires keep { IsProperPart (length part.now.whole.now) part.now.keep.now }
    requires constant { IsTermIn bank.old constant }
    ensures extends { Extends bank.old bank.new }
    ensures formed { AreFormed bank.old → AreFormed bank.new }
    ensures ids { IfOk result (AreIds bank.new) }
    ensures plain { IfOk result (AreTermIds bank.new) }
    ensures terms { IfOk result (λ ts. (bot : Sym) → tree_at bank.old constant ≡ app bot none → map (tree_at bank.new) ts ≡ part_terms bot (clause_at bank.old part.now.whole.now) (chosen (clause_at bank.old part.now.whole.now) part.now.keep.now)) }
{
    let mut bindings = Bindings::new(alloc);
    terms_with(alloc, bank, &mut bindings, part, constant)
}
