// The propositional side: the abstraction of each entry, in the solver and beside it.
ghost use Rattle.std.specs.Prelude.{◌≡◌, ◌+◌, ◌-◌, ◌<◌, ◌≤◌, ◌++◌, ◌∷◌, [], ℕ, List, length, map, All, OnOk, IfOk, Some, slice_get, false};
ghost use Rattle.inst_logic.specs.declared.symbol.Sym.{Sym};
ghost use Rattle.inst_logic.specs.declared.signed.Signed.{Signed};
ghost use Rattle.inst_logic.specs.Clauses.{TreeClause};
ghost use Rattle.inst_logic.specs.WellFormed.{IsAtom};
ghost use Rattle.term_bank.specs.Forest.{Extends, AreFormed, IsClauseOf, clause_at, tree_at};
ghost use Rattle.ground_abs.specs.Abstracts.{AreAtomsIn, AreNotesIn, Grows};
ghost use Rattle.instgen_run.specs.Grounds.{IsLinked};

use compact_lists::{FlatClauses, PackedLit};
use ground_abs::Abstraction;
use inst_logic::Memory;
use prop_logic::{Lit, Solver, Valuation, make_atoms};
use term_bank::{Bank, IdClause, TermId};

/// The abstractions of the entries, one for one, and the last valuation of their atoms.
#[derive(Drop)]
pub struct Ground<S: Solver> {
    pub abstraction: Abstraction,
    pub solver: S,
    pub literals: FlatClauses,
    pub valuation: Valuation,
    /// Room for the numbered literals of one entry.
    pub numbered: Vec<Lit>,
    /// The values that searches try first, by the number of a predicate's symbol in the bank; empty where there are none.
    pub first_values: Valuation,
}

/// The numbered literals of the entry after the first `count`.
pub fn clause_after(literals: &FlatClauses, count: usize) -> &[PackedLit]
    requires { count < length literals.now }
    ensures { slice_get literals.now count ≡ Some result.now }
{
    match literals.get(count) {
        Some(clause) => clause,
        None => unreachable!(),
    }
}

// The value of the atom's predicate.
fn predicate_value(bank: &Bank, values: &Valuation, id: TermId) -> bool
    requires { id < length bank.now.trees }
{
    match bank.symbol_number(id) {
        Some(predicate) => values.value(predicate),
        None => false,
    }
}

// Tells the solver the first values of the atoms from one on.
fn prefer_from<S: Solver>(
    bank: &Bank,
    abstraction: &Abstraction,
    values: &Valuation,
    solver: &mut S,
    from: usize,
)
    requires { AreAtomsIn bank.now abstraction.now.ids }
    ensures atoms { S.atoms solver.new ≡ S.atoms solver.old }
    ensures added { S.added solver.new ≡ S.added solver.old }
{
    if values.is_empty() {
        return;
    }
    for atom in from..abstraction.len() {
        match abstraction.atom_at(atom) {
            Some(id) => solver.prefer(atom, predicate_value(bank, values, id)),
            None => {}
        }
    }
}

/// Adds the abstraction of one more entry. It lacks memory where all entries would have more than 2^32 - 1 literals.
pub fn add_entry<S: Solver>(
    bank: &mut Bank,
    ground: &mut Ground<S>,
    clause: &IdClause,
) -> Result<(), Memory>
    requires clause { IsClauseOf bank.old clause.now }
    requires atoms { All (λ l. IsAtom (tree_at bank.old l.atom)) clause.now }
    requires fits { AreAtomsIn bank.old ground.old.abstraction.ids }
    requires notes { AreNotesIn bank.old ground.old.abstraction.bot ground.old.abstraction.notes }
    requires count { S.atoms ground.old.solver ≡ length ground.old.abstraction.ids }
    ensures linked { OnOk result ((bot : Sym) (cs : List TreeClause) → IsLinked bank.old ground.old (S.atoms ground.old.solver) (S.added ground.old.solver) bot cs
        → IsLinked bank.new ground.new (S.atoms ground.new.solver) (S.added ground.new.solver) bot (cs ++ clause_at bank.old clause.now ∷ [])) }
    ensures fits { AreAtomsIn bank.new ground.new.abstraction.ids }
    ensures notes { AreNotesIn bank.new ground.new.abstraction.bot ground.new.abstraction.notes }
    ensures count { OnOk result (S.atoms ground.new.solver ≡ length ground.new.abstraction.ids) }
    ensures bot { ground.new.abstraction.bot ≡ ground.old.abstraction.bot }
    ensures valuation { ground.new.valuation ≡ ground.old.valuation }
    ensures literals { OnOk result ((abstracted : List (Signed ℕ)) × (ground.new.literals ≡ ground.old.literals ++ abstracted ∷ [])) }
    ensures grows { OnOk result (Grows ground.old.abstraction.ids ground.new.abstraction.ids) }
    ensures extends { Extends bank.old bank.new }
    ensures formed { AreFormed bank.old → AreFormed bank.new }
{
    let before = ground.abstraction.len();
    ground
        .abstraction
        .abstract_into(bank, clause, &mut ground.numbered)?;
    let count = ground.abstraction.len() - before;
    make_atoms(&mut ground.solver, count)?;
    prefer_from(
        bank,
        &ground.abstraction,
        &ground.first_values,
        &mut ground.solver,
        before,
    );
    let literals = ground.numbered.as_slice();
    ground.solver.add(literals)?;
    ground.literals.push(literals)?;
    Ok(())
}
