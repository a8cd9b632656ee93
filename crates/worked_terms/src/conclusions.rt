// Instances of clauses by terms and under unifiers, and canonical forms.
ghost use Rattle.std.specs.Prelude.{◌<◌, ◌≤◌, ◌↔◌, IsTrue, All, IfOk, IfSome, length};
ghost use Rattle.inst_logic.specs.Clauses.{IsCanonical};
ghost use Rattle.term_bank.specs.Forest.{AreIds, Extends, IsClauseOf, clause_at};
ghost use Rattle.clause_form.specs.Conclusions.{up_to};

use crate::building::{arguments, clause_at, last_atom};
use clause_form::{
    Conclusion, canonical, clause_size, conclude, greatest_variable, under, variant,
};
use inst_logic::Memory;
use std::alloc::Global;
use std::test::Fail;
use term_bank::{Bank, IdClause, IdClauseList, TermId, TermIdList};
use tptp_write::{push_bytes, push_number};
use unify_core::{Bindings, Side};

// The size of the canonical form of the first clause's instance by the arguments of the last atom of the second, where it is the
// third clause. Repeats merge; the second instance is p(Y)|q(X), and Y becomes the first variable.
pub const INSTANCES: &str = "\
#cnf(c,axiom,p(X)|p(Y)). cnf(t,axiom,t(a,a)). cnf(w,axiom,p(a)).@2\
#cnf(c,axiom,p(X)|q(Y)|p(Z)). cnf(t,axiom,s(X)|t(Y,X,Y)). cnf(w,axiom,p(X)|q(Y)).@4\
";

// Whether the first clause becomes the fourth one where the atoms of the second and the third unify, by the terms of the fifth.
pub const CONCLUSIONS: &str = "\
#cnf(c,axiom,p(X)|p(Y)). cnf(l,axiom,p(X)). cnf(r,axiom,p(a)). cnf(w,axiom,p(a)|p(X)). cnf(t,axiom,t(a,X)).@yes\
";

// The canonical form of the clause.
fn form_of(alloc: Global, bank: &mut Bank, c: &IdClause) -> Result<IdClause, Memory>
    requires { IsClauseOf bank.old c.now }
    ensures within { IfOk result (λ d. IsClauseOf bank.new d) }
    ensures canonical { IfOk result (λ d. IsCanonical (clause_at bank.new d)) }
    ensures extends { Extends bank.old bank.new }
{
    canonical(alloc, bank, c)
}

// Whether so many are no fewer than the variables up to the greatest.
fn are_enough(greatest: Option<usize>, count: usize) -> bool
    ensures { IsTrue result ↔ (up_to greatest ≤ count) }
{
    match greatest {
        Some(last) => last < count,
        None => true,
    }
}

// The instance of the clause by these terms, if there is one for each of its variables.
fn instance(
    alloc: Global,
    bank: &mut Bank,
    c: &IdClause,
    terms: &TermIdList,
) -> Result<Option<IdClause>, Memory>
    requires clause { IsClauseOf bank.old c.now }
    requires canonical { IsCanonical (clause_at bank.old c.now) }
    requires ids { AreIds bank.old terms.now }
    ensures { IfOk result (λ r. IfSome r (λ d. IsClauseOf bank.new d)) }
{
    if are_enough(greatest_variable(bank, c), terms.len()) {
        let d = under(alloc, bank, c, terms)?;
        return Ok(Some(d));
    }
    Ok(None)
}

// The canonical form of the first clause's instance by the arguments of the last atom of the second: whether it is the third
// clause, and its size.
fn instance_form(
    alloc: Global,
    bank: &mut Bank,
    clauses: &IdClauseList,
) -> Result<Option<(bool, u64)>, Fail>
    requires { All (IsClauseOf bank.old) clauses.now }
{
    let (Some(c), Some(t)) = (clause_at(bank, clauses, 0), last_atom(bank, clauses, 1)) else {
        return Ok(None);
    };
    let d = form_of(alloc, bank, c)?;
    let terms = arguments(alloc, bank, t)?;
    let Some(made) = instance(alloc, bank, &d, &terms)? else {
        return Ok(None);
    };
    let form = form_of(alloc, bank, &made)?;
    match clauses.get(2) {
        Some(wanted) => Ok(Some((variant(&form, wanted), clause_size(bank, &form)))),
        None => Ok(None),
    }
}

fn push_form(answer: &mut Vec<u8>, form: Option<(bool, u64)>) -> Result<(), Memory> {
    match form {
        Some((true, size)) => push_number(answer, size as usize),
        _ => push_bytes(answer, b"another"),
    }
}

/// Puts the size of that form at the end of the answer.
pub fn push_instance(
    alloc: Global,
    answer: &mut Vec<u8>,
    bank: &mut Bank,
    clauses: &IdClauseList,
) -> Result<(), Fail>
    requires { All (IsClauseOf bank.old) clauses.now }
{
    let form = instance_form(alloc, bank, clauses)?;
    Ok(push_form(answer, form)?)
}

// What the clause becomes on the left of two atoms, if they unify.
fn conclude_by(
    alloc: Global,
    bank: &mut Bank,
    bindings: &mut Bindings,
    c: &IdClause,
    left: TermId,
    right: TermId,
) -> Result<Option<Conclusion>, Memory>
    requires clause { IsClauseOf bank.old c.now }
    requires canonical { IsCanonical (clause_at bank.old c.now) }
    requires left { left < length bank.old.trees }
    requires right { right < length bank.old.trees }
    ensures { Extends bank.old bank.new }
{
    if bindings.unify(bank, left, right)? {
        let made = conclude(alloc, bank, bindings, Side::Left, c)?;
        return Ok(Some(made));
    }
    Ok(None)
}

fn concluded(
    alloc: Global,
    bank: &mut Bank,
    c: &IdClause,
    left: TermId,
    right: TermId,
) -> Result<Option<Conclusion>, Memory>
    requires clause { IsClauseOf bank.old c.now }
    requires canonical { IsCanonical (clause_at bank.old c.now) }
    requires left { left < length bank.old.trees }
    requires right { right < length bank.old.trees }
    ensures { Extends bank.old bank.new }
{
    let mut bindings = Bindings::new(alloc);
    conclude_by(alloc, bank, &mut bindings, c, left, right)
}

// Whether the conclusion is the fourth clause, by the arguments of the last atom of the fifth.
fn is_conclusion(bank: &Bank, found: &Conclusion, clauses: &IdClauseList) -> Option<bool>
    requires { All (IsClauseOf bank.now) clauses.now }
{
    let (Some(wanted), Some(t)) = (clauses.get(3), last_atom(bank, clauses, 4)) else {
        return None;
    };
    Some(variant(&found.clause, wanted) && found.terms.as_slice() == bank.args(t))
}

/// Whether the first clause becomes the fourth one so.
pub fn concludes(
    alloc: Global,
    bank: &mut Bank,
    clauses: &IdClauseList,
) -> Result<Option<bool>, Fail>
    requires { All (IsClauseOf bank.old) clauses.now }
{
    let (Some(c), Some(left), Some(right)) = (
        clause_at(bank, clauses, 0),
        last_atom(bank, clauses, 1),
        last_atom(bank, clauses, 2),
    ) else {
        return Ok(None);
    };
    let d = form_of(alloc, bank, c)?;
    match concluded(alloc, bank, &d, left, right)? {
        Some(found) => Ok(is_conclusion(bank, &found, clauses)),
        None => Ok(None),
    }
}
