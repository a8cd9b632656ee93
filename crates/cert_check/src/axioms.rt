// The axioms of equality as clauses over the certificate's bank, where they are compared by their ids.
ghost use Rattle.std.specs.Prelude.{◌≡◌, All, IfOk, map};
ghost use Rattle.inst_logic.specs.WellFormed.{AreFormedClauses};
ghost use Rattle.term_bank.specs.Forest.{AreFormed, Extends, IsClauseOf, clause_at};

use inst_logic::{ClauseList, Memory};
use std::alloc::Global;
use term_bank::{Bank, IdClauseList};

// The clauses with the id of each atom in its place.
pub fn intern_clauses(
    alloc: Global,
    bank: &mut Bank,
    clauses: &ClauseList,
) -> Result<IdClauseList, Memory>
    requires formed { AreFormed bank.old }
    requires clauses { AreFormedClauses clauses.now }
    ensures at { IfOk result (λ ids. map (clause_at bank.new) ids ≡ clauses.now) }
    ensures ids { IfOk result (λ ids. All (IsClauseOf bank.new) ids) }
    ensures extends { Extends bank.old bank.new }
    ensures formed { AreFormed bank.new }
{
    let mut ids = IdClauseList::new(alloc);
    for c in clauses.as_slice() {
        ids.push(bank.clause(c)?)?;
    }
    Ok(ids)
}
