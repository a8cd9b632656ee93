// Which member subsumes an input or an axiom. The member that names the input as its origin is tried before all.
ghost use Rattle.std.specs.Prelude.{◌≡◌, ◌+◌, length, All, Any, IfNone, IfOk, IfSome};
ghost use Rattle.inst_logic.specs.Clauses.{Subsumes};
ghost use Rattle.term_bank.specs.Forest.{IsClauseOf, clause_at};
ghost use Rattle.cert_index.specs.Places.{IsPlaceOf};

use cert_values::{Base, Member, Origin};
use clause_form::subsumes;
use indexmap::IndexMap;
use inst_logic::Memory;
use std::alloc::Global;
use term_bank::{Bank, IdClause};

// How many inputs and axioms.
pub fn stated_count(base: &Base) -> usize
    ensures { result ≡ length base.now.inputs + length base.now.axioms }
{
    base.inputs.as_slice().len() + base.axioms.as_slice().len()
}

// For the number of an input the place of a member that it is the origin of, counted from 0.
pub fn sources(alloc: Global, members: &[Member]) -> Result<IndexMap<usize, usize>, Memory> {
    let mut places = IndexMap::new(alloc);
    for (i, member) in members.iter().enumerate() {
        if let Origin::Input(k) = member.origin {
            places.insert(k, i)?;
        }
    }
    Ok(places)
}

// The place of a member that subsumes the clause.
fn subsuming_place(
    alloc: Global,
    bank: &Bank,
    members: &[Member],
    c: &IdClause,
) -> Result<Option<usize>, Memory>
    requires members { All (λ m. IsClauseOf bank.now m.clause) members.now }
    requires clause { IsClauseOf bank.now c.now }
    ensures some { IfOk result (λ o. IfSome o (IsPlaceOf (λ m. Subsumes (clause_at bank.now m.clause) (clause_at bank.now c.now)) members.now)) }
    ensures none { IfOk result (λ o. IfNone o (¬ (Any (λ m. Subsumes (clause_at bank.now m.clause) (clause_at bank.now c.now)) members.now))) }
{
    for i in 0..members.len() {
        if subsumes(alloc, bank, &members[i].clause, c)? {
            return Ok(Some(i));
        }
    }
    Ok(None)
}

// The place of a member that subsumes the clause; the one at this place is tried first.
pub fn subsuming_place_from(
    alloc: Global,
    bank: &Bank,
    members: &[Member],
    first: Option<usize>,
    c: &IdClause,
) -> Result<Option<usize>, Memory>
    requires members { All (λ m. IsClauseOf bank.now m.clause) members.now }
    requires clause { IsClauseOf bank.now c.now }
    ensures some { IfOk result (λ o. IfSome o (IsPlaceOf (λ m. Subsumes (clause_at bank.now m.clause) (clause_at bank.now c.now)) members.now)) }
    ensures none { IfOk result (λ o. IfNone o (¬ (Any (λ m. Subsumes (clause_at bank.now m.clause) (clause_at bank.now c.now)) members.now))) }
{
    if let Some(i) = first {
        if i < members.len() && subsumes(alloc, bank, &members[i].clause, c)? {
            return Ok(Some(i));
        }
    }
    subsuming_place(alloc, bank, members, c)
}
