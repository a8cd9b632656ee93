// Clauses of a bank from a text. Each row of a table is such a text: its first clause and those behind it are what the row
// is about.
ghost use Rattle.std.specs.Prelude.{◌<◌, All, IfOk, IfSome, OnOk, length};
ghost use Rattle.term_bank.specs.Forest.{AreIds, Extends, IsClauseOf};

use inst_logic::Memory;
use std::alloc::Global;
use std::test::Fail;
use term_bank::{Bank, IdClause, IdClauseList, TermId, TermIdList};
use tptp_read::{Statement, read_text};

// Adds the clause of the statement, if it has one.
fn add_clause(bank: &mut Bank, ids: &mut IdClauseList, statement: &Statement) -> Result<(), Memory>
    requires { All (IsClauseOf bank.old) ids.old }
    ensures extends { Extends bank.old bank.new }
    ensures ids { OnOk result (All (IsClauseOf bank.new) ids.new) }
{
    if let Statement::Cnf { clause, .. } = statement {
        ids.push(bank.clause(clause)?)?;
    }
    Ok(())
}

// The clauses of the text, in this bank.
pub fn clauses_in(alloc: Global, bank: &mut Bank, text: &str) -> Result<IdClauseList, Fail>
    ensures { IfOk result (All (IsClauseOf bank.new)) }
{
    let statements = read_text(alloc, text.as_bytes())?;
    let mut ids = IdClauseList::new(alloc);
    for statement in statements.as_slice() {
        add_clause(bank, &mut ids, statement)?;
    }
    Ok(ids)
}

// Clause `i`, counted from 0.
pub fn clause_at<'a>(bank: &Bank, clauses: &'a IdClauseList, i: usize) -> Option<&'a IdClause>
    requires { All (IsClauseOf bank.now) clauses.now }
    ensures { IfSome result (λ c. IsClauseOf bank.now c.now) }
{
    // The contract names the bank, which the code does not need.
    let _ = bank;
    clauses.get(i)
}

// The atom of the last literal of clause `i`, counted from 0.
pub fn last_atom(bank: &Bank, clauses: &IdClauseList, i: usize) -> Option<TermId>
    requires { All (IsClauseOf bank.now) clauses.now }
    ensures { IfSome result (λ id. id < length bank.now.trees) }
{
    match clauses.get(i) {
        None => None,
        Some(c) => match c.as_slice().last() {
            None => None,
            Some(l) => Some(l.atom),
        },
    }
}

// The arguments of the term.
pub fn arguments(alloc: Global, bank: &Bank, t: TermId) -> Result<TermIdList, Memory>
    requires { t < length bank.now.trees }
    ensures { IfOk result (λ ids. AreIds bank.now ids) }
{
    Ok(TermIdList::from(Vec::from_slice(alloc, bank.args(t))?))
}
