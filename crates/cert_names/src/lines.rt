// Ground lines: whether each is the instance of the input or axiom that it names. Inputs need not be in canonical form.
ghost use Rattle.std.specs.Prelude.{◌≡◌, ◌↔◌, ◌++◌, All, IfOk, IsTrue, map, option_copied};
ghost use Rattle.inst_logic.specs.Clauses.{IsCanonical};
ghost use Rattle.inst_logic.specs.Derivations.{at_number};
ghost use Rattle.cert_format.specs.TermLists.{IsGroundLineOf};
ghost use Rattle.cert_values.specs.Values.{line_of};
ghost use Rattle.cert_values.specs.Wholes.{IsWholeLine, IsWholeTerm};
ghost use Rattle.term_bank.specs.Forest.{IsClauseOf, clause_at, Grows};
ghost use Rattle.cert_names.specs.Under.{AreGround, IsFirstWrongLine, IsUnder};

use crate::instances::are_terms_for;
use cert_values::{GroundLine, GroundLineList};
use clause_form::{canonical, under, variant};
use inst_logic::Memory;
use std::alloc::Global;
use term_bank::{Bank, IdClause, IdClauseList, TermIdList};

// Clause `k` of the inputs and then the axioms, counted from 1.
fn clause_by_number<'a>(
    inputs: &'a IdClauseList,
    axioms: &'a IdClauseList,
    k: usize,
) -> Option<&'a IdClause>
    ensures { option_copied result ≡ at_number (inputs.now ++ axioms.now) k }
{
    if k == 0 {
        return None;
    }
    if k <= inputs.len() {
        return inputs.get(k - 1);
    }
    axioms.get(k - 1 - inputs.len())
}

// Whether no term has variables.
fn are_ground(bank: &Bank, terms: &TermIdList) -> bool
    requires { All (IsWholeTerm bank.now) terms.now }
    ensures { IsTrue result ↔ AreGround bank.now terms.now }
{
    for term in terms.as_slice() {
        if !bank.ground(*term) {
            return false;
        }
    }
    true
}

// Whether the clauses stand for the same trees: equal trees have equal ids.
fn same_trees(bank: &Bank, c: &IdClause, d: &IdClause) -> bool
    requires left { IsClauseOf bank.now c.now }
    requires right { IsClauseOf bank.now d.now }
    ensures { IsTrue result ↔ (clause_at bank.now c.now ≡ clause_at bank.now d.now) }
{
    bank.distinct();
    variant(c, d)
}

// Whether there is one term for each variable of the canonical clause `c`, and `d` is this clause under them.
fn is_under(
    alloc: Global,
    bank: &mut Bank,
    c: &IdClause,
    d: &IdClause,
    terms: &TermIdList,
) -> Result<bool, Memory>
    requires clause { IsClauseOf bank.old c.now }
    requires canonical { IsCanonical (clause_at bank.old c.now) }
    requires instance { IsClauseOf bank.old d.now }
    requires terms { All (IsWholeTerm bank.old) terms.now }
    ensures is { IfOk result (λ r. IsTrue r ↔ IsUnder bank.old c.now d.now terms.now) }
    ensures grows { Grows bank.old bank.new }
{
    if !are_terms_for(bank, c, terms) {
        return Ok(false);
    }
    let built = under(alloc, bank, c, terms)?;
    Ok(same_trees(bank, d, &built))
}

// Whether this holds of a clause that need not be canonical: its instances are those of its canonical form.
fn is_form_under(
    alloc: Global,
    bank: &mut Bank,
    c: &IdClause,
    d: &IdClause,
    terms: &TermIdList,
) -> Result<bool, Memory>
    requires clause { IsClauseOf bank.old c.now }
    requires instance { IsClauseOf bank.old d.now }
    requires terms { All (IsWholeTerm bank.old) terms.now }
    ensures is { IfOk result (λ r. IsTrue r ↔ IsUnder bank.old c.now d.now terms.now) }
    ensures grows { Grows bank.old bank.new }
{
    let form = canonical(alloc, bank, c)?;
    is_under(alloc, bank, &form, d, terms)
}

/// Whether the line's number is one of the inputs and axioms, and the line's clause is this one under its terms, of which there is
/// one for each variable and none has variables.
pub fn is_ground_line(
    alloc: Global,
    bank: &mut Bank,
    inputs: &IdClauseList,
    axioms: &IdClauseList,
    line: &GroundLine,
) -> Result<bool, Memory>
    requires inputs { All (IsClauseOf bank.old) inputs.now }
    requires axioms { All (IsClauseOf bank.old) axioms.now }
    requires line { IsWholeLine bank.old line.now }
    ensures is { IfOk result (λ r. IsTrue r ↔ IsGroundLineOf (map (clause_at bank.old) (inputs.now ++ axioms.now)) (line_of bank.old line.now)) }
    ensures grows { Grows bank.old bank.new }
{
    match clause_by_number(inputs, axioms, line.input) {
        None => Ok(false),
        Some(c) => {
            if are_ground(bank, &line.terms) {
                is_form_under(alloc, bank, c, &line.clause, &line.terms)
            } else {
                Ok(false)
            }
        }
    }
}

/// The number of the first line that is not so.
pub fn first_wrong_line(
    alloc: Global,
    bank: &mut Bank,
    inputs: &IdClauseList,
    axioms: &IdClauseList,
    lines: &GroundLineList,
) -> Result<Option<usize>, Memory>
    requires inputs { All (IsClauseOf bank.old) inputs.now }
    requires axioms { All (IsClauseOf bank.old) axioms.now }
    requires lines { All (IsWholeLine bank.old) lines.now }
    ensures first { IfOk result (IsFirstWrongLine bank.old (inputs.now ++ axioms.now) lines.now) }
    ensures grows { Grows bank.old bank.new }
{
    let slice = lines.as_slice();
    for i in 0..slice.len() {
        let right = is_ground_line(alloc, bank, inputs, axioms, &slice[i])?;
        if !right {
            return Ok(Some(i + 1));
        }
    }
    Ok(None)
}
