// The comparison of a certificate's input clauses with a problem's: the clauses of the problem are put into the certificate's
// bank one by one, where equal clauses have equal ids.
ghost use Rattle.std.specs.Prelude.{◌≡◌, ◌↔◌, None, Some, IfOk, IsTrue, OnOk, All, map, option_copied, option_map, slice_get};
ghost use Rattle.std.specs.Option.{ForSome};
ghost use Rattle.inst_logic.specs.Derivations.{at_number};
ghost use Rattle.inst_logic.specs.WellFormed.{AreFormedClauses, IsFormedClause};
ghost use Rattle.term_bank.specs.Forest.{AreFormed, Extends, IsClauseOf, clause_at};
ghost use Rattle.cert_values.specs.Values.{base_of};
ghost use Rattle.cert_values.specs.Wholes.{IsWholeBase, KeepsBase};
ghost use Rattle.cert_check.specs.Firsts.{IsFirstWrongOf};
ghost use Rattle.cert_front.specs.Judgements.{IsDifference};

use cert_check::same_clause;
use cert_values::Base;
use inst_logic::{Clause, ClauseList, Memory, Problem};
use term_bank::{Bank, IdClause, IdClauseList};

// Whether the clause of ids stands for the clause.
fn stands_for(bank: &mut Bank, ids: &IdClause, clause: &Clause) -> Result<bool, Memory>
    requires formed { AreFormed bank.old }
    requires ids { IsClauseOf bank.old ids.now }
    requires clause { IsFormedClause clause.now }
    ensures extends { Extends bank.old bank.new }
    ensures formed { AreFormed bank.new }
    ensures same { IfOk result (λ same. IsTrue same ↔ (clause_at bank.old ids.now ≡ clause.now)) }
{
    let own = bank.clause(clause)?;
    bank.distinct();
    Ok(same_clause(ids, &own))
}

// Whether the clause of ids stands for clause `i` of the list, counted from 0.
fn stands_for_at(
    bank: &mut Bank,
    ids: &IdClause,
    clauses: &ClauseList,
    i: usize,
) -> Result<bool, Memory>
    requires formed { AreFormed bank.old }
    requires ids { IsClauseOf bank.old ids.now }
    requires clauses { AreFormedClauses clauses.now }
    ensures extends { Extends bank.old bank.new }
    ensures formed { AreFormed bank.new }
    ensures same { IfOk result (λ same. IsTrue same ↔ (Some (clause_at bank.old ids.now) ≡ slice_get clauses.now i)) }
{
    match clauses.get(i) {
        Some(clause) => stands_for(bank, ids, clause),
        None => Ok(false),
    }
}

// Whether the list ends before `i`, counted from 0.
fn ends_before(clauses: &ClauseList, i: usize) -> bool
    ensures { IsTrue result ↔ (None ≡ slice_get clauses.now i) }
{
    match clauses.get(i) {
        Some(_) => false,
        None => true,
    }
}

// Whether both lists have the same clause at `i`, counted from 0, or both have none there.
fn same_at(
    bank: &mut Bank,
    inputs: &IdClauseList,
    clauses: &ClauseList,
    i: usize,
) -> Result<bool, Memory>
    requires formed { AreFormed bank.old }
    requires inputs { All (IsClauseOf bank.old) inputs.now }
    requires clauses { AreFormedClauses clauses.now }
    ensures extends { Extends bank.old bank.new }
    ensures formed { AreFormed bank.new }
    ensures same { IfOk result (λ same. IsTrue same ↔ (option_map (clause_at bank.old) (slice_get inputs.now i) ≡ slice_get clauses.now i)) }
{
    match inputs.get(i) {
        Some(ids) => stands_for_at(bank, ids, clauses, i),
        None => Ok(ends_before(clauses, i)),
    }
}

// The number of the first clause that the lists do not both have.
fn first_difference(
    bank: &mut Bank,
    inputs: &IdClauseList,
    clauses: &ClauseList,
) -> Result<Option<usize>, Memory>
    requires formed { AreFormed bank.old }
    requires inputs { All (IsClauseOf bank.old) inputs.now }
    requires clauses { AreFormedClauses clauses.now }
    ensures extends { Extends bank.old bank.new }
    ensures formed { AreFormed bank.new }
    ensures first { IfOk result (IsFirstWrongOf (λ n. at_number (map (clause_at bank.old) inputs.now) n ≡ at_number clauses.now n)) }
{
    for i in 0..inputs.len().max(clauses.len()) {
        let same = same_at(bank, inputs, clauses, i)?;
        if !same {
            return Ok(Some(i + 1));
        }
    }
    Ok(None)
}

/// The number of the first input clause that is not the problem's, where a problem is given.
pub fn difference(base: &mut Base, problem: Option<&Problem>) -> Result<Option<usize>, Memory>
    requires whole { IsWholeBase base.old }
    requires problem { ForSome problem (λ p. AreFormedClauses p.now.clauses) }
    ensures kept { KeepsBase base.old base.new }
    ensures whole { OnOk result (IsWholeBase base.new) }
    ensures first { IfOk result (IsDifference (option_copied problem.entry) (base_of base.old)) }
{
    match problem {
        Some(p) => first_difference(&mut base.bank, &base.inputs, &p.clauses),
        None => Ok(None),
    }
}
