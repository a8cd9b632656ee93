// Axioms of equality, from the symbols alone: the checker has its clauses in a bank and no problem of trees, and must find
// the same list.
ghost use Rattle.std.specs.Prelude.{◌≡◌, [], ◌∷◌, IfOk};
ghost use Rattle.std.specs.List.{list_any};
ghost use Rattle.inst_calculus.specs.Axioms.{axioms_for, equality_axioms, is_equality_kind, reflexivity, symmetry, transitivity};

use crate::congruence::{add_functions, add_predicates, equation};
use crate::symbols::{SymList, symbols_in};
use inst_logic::{Clause, ClauseList, Kind, Memory, Problem, Sym, Term};
use std::alloc::Global;

fn is_equality(s: &Sym) -> bool
    ensures { result ≡ is_equality_kind s.now.kind }
{
    match s.kind {
        Kind::Equality => true,
        Kind::Predicate | Kind::Function => false,
    }
}

fn has_equality(symbols: &[Sym]) -> bool
    ensures { result ≡ list_any (λ s. is_equality_kind s.kind) symbols.now }
{
    symbols.iter().any(|s| is_equality(s))
}

fn reflexive(alloc: Global) -> Result<Clause, Memory>
    ensures { IfOk result (λ c. c ≡ reflexivity) }
{
    let mut c = Clause::new(alloc);
    c.push(equation(alloc, true, Term::Var(0), Term::Var(0))?)?;
    Ok(c)
}

fn symmetric(alloc: Global) -> Result<Clause, Memory>
    ensures { IfOk result (λ c. c ≡ symmetry) }
{
    let mut c = Clause::new(alloc);
    c.push(equation(alloc, false, Term::Var(0), Term::Var(1))?)?;
    c.push(equation(alloc, true, Term::Var(1), Term::Var(0))?)?;
    Ok(c)
}

fn transitive(alloc: Global) -> Result<Clause, Memory>
    ensures { IfOk result (λ c. c ≡ transitivity) }
{
    let mut c = Clause::new(alloc);
    c.push(equation(alloc, false, Term::Var(0), Term::Var(1))?)?;
    c.push(equation(alloc, false, Term::Var(1), Term::Var(2))?)?;
    c.push(equation(alloc, true, Term::Var(0), Term::Var(2))?)?;
    Ok(c)
}

/// The axioms of equality of the problem's clauses, in their order; none where no clause has `=`. The clauses are walked
/// once.
pub fn axioms_of(alloc: Global, p: &Problem) -> Result<ClauseList, Memory>
    ensures { IfOk result (λ cs. cs ≡ equality_axioms p.now.clauses) }
{
    let symbols = symbols_in(alloc, &p.clauses)?;
    axioms_from(alloc, &symbols)
}

/// The axioms of equality from the symbols alone. Where `=` is among them: reflexivity, symmetry and transitivity, then an
/// axiom for each function symbol with arguments and then one for each predicate with arguments, both in the order of the
/// list; else none. They are those of `axioms_of` where the list has the symbols of the clauses, each once and in order of
/// first occurrence; a symbol that stands twice has its axiom twice. The axiom of a symbol with n arguments has n + 1
/// literals for a function and n + 2 for a predicate, over the variables from 0 to 2n - 1.
pub fn axioms_from(alloc: Global, symbols: &SymList) -> Result<ClauseList, Memory>
    ensures { IfOk result (λ cs. cs ≡ axioms_for symbols.now) }
{
    let mut axioms = ClauseList::new(alloc);
    if !has_equality(symbols.as_slice()) {
        return Ok(axioms);
    }
    axioms.push(reflexive(alloc)?)?;
    axioms.push(symmetric(alloc)?)?;
    axioms.push(transitive(alloc)?)?;
    add_functions(alloc, &mut axioms, symbols.as_slice())?;
    add_predicates(alloc, &mut axioms, symbols.as_slice())?;
    Ok(axioms)
}
