// The values that searches try first: those of the predicates, in a valuation of the clauses in which an atom's value is that of its
// predicate. Such a valuation is a model of one element. While each atom has its predicate's value, no two selected literals exclude
// each other, so nothing is inferred. Nothing is proved of these values, since no answer hangs on them.
ghost use Rattle.std.specs.Prelude.{◌≤◌, All, IfOk, OnOk};
ghost use Rattle.prop_logic.specs.Literal.{AtomsBelow};
ghost use Rattle.cert_values.specs.Wholes.{IsWholeClause};
ghost use Rattle.term_bank.specs.Forest.{IsClauseOf};

use crate::start::{Given, greater, literals_after, next_number};
use inst_logic::Memory;
use prop_logic::{Answer, Lit, Solver, Valuation, make_atoms};
use std::alloc::Global;
use term_bank::{Bank, IdClauseList, IdLiteral};

// Whether some literal has a variable.
fn has_variable(bank: &Bank, literals: &[IdLiteral]) -> bool
    requires { IsClauseOf bank.now literals.now }
{
    for l in literals {
        if !bank.ground(l.atom) {
            return true;
        }
    }
    false
}

// Whether some clause has one.
fn have_variables(bank: &Bank, clauses: &IdClauseList) -> bool
    requires { All (IsWholeClause bank.now) clauses.now }
{
    for i in 0..clauses.len() {
        if has_variable(bank, literals_after(clauses, i)) {
            return true;
        }
    }
    false
}

// Leaves in the list the literals with the number of its predicate's symbol in the place of each atom, and answers a number above
// all of these.
fn predicates_of(bank: &Bank, literals: &[IdLiteral], lits: &mut Vec<Lit>) -> Result<usize, Memory>
    requires { IsClauseOf bank.now literals.now }
    ensures { IfOk result (λ count. AtomsBelow count lits.new.items) }
{
    lits.clear();
    let mut count = 0;
    for l in literals {
        let atom = bank.symbol_number(l.atom).unwrap_or(0);
        count = greater(count, next_number(atom)?);
        lits.push(Lit {
            positive: l.positive,
            atom,
        })?;
    }
    Ok(count)
}

// Makes what atoms are wanting up to the count, where the solver has so many or more. Answers how many it then has, or fewer.
fn reach<S: Solver>(solver: &mut S, atoms: usize, count: usize) -> Result<usize, Memory>
    requires { atoms ≤ S.atoms solver.old }
    ensures atoms { IfOk result (λ n. n ≤ S.atoms solver.new) }
    ensures reached { OnOk result (count ≤ S.atoms solver.new) }
{
    if count <= atoms {
        return Ok(atoms);
    }
    make_atoms(solver, count - atoms)?;
    Ok(count)
}

// Gives the solver, which has so many atoms or more, the clause of the literals' predicates. Answers how many it then has, or fewer.
fn add_clause<S: Solver>(
    bank: &Bank,
    solver: &mut S,
    literals: &[IdLiteral],
    lits: &mut Vec<Lit>,
    atoms: usize,
) -> Result<usize, Memory>
    requires literals { IsClauseOf bank.now literals.now }
    requires atoms { atoms ≤ S.atoms solver.old }
    ensures { IfOk result (λ count. count ≤ S.atoms solver.new) }
{
    let count = predicates_of(bank, literals, lits)?;
    let reached = reach(solver, atoms, count)?;
    solver.add(lits.as_slice())?;
    Ok(reached)
}

// Each of the clauses, with its atoms replaced by their predicates, is added to the solver.
fn add_clauses<S: Solver>(
    bank: &Bank,
    solver: &mut S,
    clauses: &IdClauseList,
    lits: &mut Vec<Lit>,
    atoms: usize,
) -> Result<usize, Memory>
    requires clauses { All (IsWholeClause bank.now) clauses.now }
    requires atoms { atoms ≤ S.atoms solver.old }
    ensures { IfOk result (λ count. count ≤ S.atoms solver.new) }
{
    let mut atoms = atoms;
    for i in 0..clauses.len() {
        atoms = add_clause(bank, solver, literals_after(clauses, i), lits, atoms)?;
    }
    Ok(atoms)
}

// The values by the numbers of predicates' symbols, and none where no such valuation makes the clauses true.
fn values_by<S: Solver>(
    alloc: Global,
    bank: &Bank,
    given: &Given,
    solver: &mut S,
) -> Result<Valuation, Memory>
    requires inputs { All (IsWholeClause bank.now) given.now.inputs }
    requires axioms { All (IsWholeClause bank.now) given.now.axioms }
{
    let mut lits = Vec::new(alloc);
    let atoms = add_clauses(bank, solver, &given.inputs, &mut lits, 0)?;
    add_clauses(bank, solver, &given.axioms, &mut lits, atoms)?;
    match solver.solve(&[])? {
        Answer::Sat(values) => Ok(values),
        Answer::Unsat { .. } => Ok(Valuation::new(alloc)),
    }
}

/// The values of predicates, by the numbers of their symbols in the bank: none where there is no solver, or no clause has a variable,
/// or no such values make the clauses true. The solver, which had no atoms, is let go.
pub fn predicate_values<S: Solver>(
    alloc: Global,
    bank: &Bank,
    given: &Given,
    solver: Option<S>,
) -> Result<Valuation, Memory>
    requires inputs { All (IsWholeClause bank.now) given.now.inputs }
    requires axioms { All (IsWholeClause bank.now) given.now.axioms }
{
    match solver {
        Some(mut solver) => {
            if have_variables(bank, &given.inputs) || have_variables(bank, &given.axioms) {
                values_by(alloc, bank, given, &mut solver)
            } else {
                Ok(Valuation::new(alloc))
            }
        }
        None => Ok(Valuation::new(alloc)),
    }
}
