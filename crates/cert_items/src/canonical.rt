// Clauses that are in canonical form. The clauses of a certificate are, and most are short: then it is seen without building them
// anew.
ghost use Rattle.std.specs.Prelude.{◌≡◌, ◌↔◌, true, IsTrue, IfOk};
ghost use Rattle.inst_logic.specs.Clauses.{IsCanonical};
ghost use Rattle.inst_logic.specs.Lists.{distinct};
ghost use Rattle.inst_logic.specs.Substitution.{clause_vars};
ghost use Rattle.term_bank.specs.Forest.{IsClauseOf, clause_at, Grows};
ghost use Rattle.clause_form.specs.Literals.{id_eq};
ghost use Rattle.cert_items.specs.Orders.{in_order};

use crate::order::is_ordered;
use clause_form::{canonical, greatest_variable, variant};
use inst_logic::Memory;
use std::alloc::Global;
use term_bank::{Bank, IdClause, IdLiteral, TermId};

// At most this many literals are compared with each other.
const FEW: usize = 8;

// Whether no literal stands twice. Its time is quadratic in the number of literals.
fn are_distinct(literals: &[IdLiteral]) -> bool
    ensures { IsTrue result → distinct id_eq literals.now ≡ literals.now }
{
    for i in 1..literals.len() {
        if literals[..i].contains(&literals[i]) {
            return false;
        }
    }
    true
}

// Whether the variables are 0, 1, 2 by first occurrence, as they are where there are none.
fn is_numbered(bank: &Bank, room: &mut Vec<TermId>, c: &IdClause) -> Result<bool, Memory>
    requires { IsClauseOf bank.now c.now }
    ensures { IfOk result (λ r. IsTrue r → in_order 0 (clause_vars (clause_at bank.now c.now)) ≡ true) }
{
    if greatest_variable(bank, c).is_none() {
        return Ok(true);
    }
    is_ordered(bank, room, c)
}

// Whether the clause is short and seen to be in canonical form.
fn is_seen(bank: &Bank, room: &mut Vec<TermId>, c: &IdClause) -> Result<bool, Memory>
    requires { IsClauseOf bank.now c.now }
    ensures { IfOk result (λ r. IsTrue r → IsCanonical (clause_at bank.now c.now)) }
{
    bank.distinct();
    if c.len() > FEW || !are_distinct(c.as_slice()) {
        return Ok(false);
    }
    is_numbered(bank, room, c)
}

// Whether the clause is the canonical form that is built of it.
fn is_built(alloc: Global, bank: &mut Bank, c: &IdClause) -> Result<bool, Memory>
    requires { IsClauseOf bank.old c.now }
    ensures grows { Grows bank.old bank.new }
    ensures is { IfOk result (λ r. IsTrue r ↔ IsCanonical (clause_at bank.old c.now)) }
{
    let d = canonical(alloc, bank, c)?;
    // Beside the length stands the law that equal trees have equal ids.
    let _ = bank.len();
    Ok(variant(&d, c))
}

/// Whether the clause has its variables 0, 1, 2 by first occurrence, and no repeats. The bank may grow where it has not. `room` is
/// room to work in.
pub fn is_canonical(
    alloc: Global,
    bank: &mut Bank,
    room: &mut Vec<TermId>,
    c: &IdClause,
) -> Result<bool, Memory>
    requires { IsClauseOf bank.old c.now }
    ensures grows { Grows bank.old bank.new }
    ensures is { IfOk result (λ r. IsTrue r ↔ IsCanonical (clause_at bank.old c.now)) }
{
    if is_seen(bank, room, c)? {
        return Ok(true);
    }
    is_built(alloc, bank, c)
}
