// For each entry the number of a ground line that is its abstraction, so that a derivation over the abstractions is one over the
// lines.
ghost use Rattle.std.specs.Prelude.{◌≡◌, [], ℕ, length, Contains, IfOk, OnOk};
ghost use Rattle.prop_logic.specs.Literal.{AllAtomsBelow, AtomsBelow};
ghost use Rattle.instgen_loop.specs.LineNumbers.{AreIndexed, AreLineNumbers, HaveLines};
ghost use Rattle.instgen_loop.specs.Refuting.{ground_clause};

use crate::start::copied_clause;
use crate::steps::ground_clause;
use cert_values::GroundLineList;
use compact_lists::{FlatClauses, Literals};
use ground_abs::Abstraction;
use indexmap::IndexMap;
use inst_logic::{Memory, NumberList};
use instgen_run::clause_after;
use std::alloc::Global;
use term_bank::IdClause;

/// A number for each clause.
type Numbers = IndexMap<IdClause, usize>;

// Notes for each clause the number of a line that has it.
fn index_lines(alloc: Global, lines: &GroundLineList, index: &mut Numbers) -> Result<(), Memory>
    requires fresh { index.old.entries ≡ [] }
    ensures indexed { OnOk result (AreIndexed lines.now index.new.entries) }
{
    let lines = lines.as_slice();
    for i in 0..lines.len() {
        let clause = copied_clause(alloc, lines[i].clause.as_slice())?;
        index.insert(clause, i + 1)?;
    }
    Ok(())
}

// The number of a line that is the ground clause of the literals.
fn number_of(
    alloc: Global,
    abstraction: &Abstraction,
    literals: &Literals,
    index: &Numbers,
) -> Result<usize, Memory>
    requires below { AtomsBelow (length abstraction.now.ids) literals.now }
    requires found { (n : ℕ) × Contains index.now.entries (ground_clause abstraction.now.ids literals.now, n) }
    ensures { IfOk result (λ n. Contains index.now.entries (ground_clause abstraction.now.ids literals.now, n)) }
{
    let clause = ground_clause(alloc, abstraction, literals)?;
    match index.get(&clause).copied() {
        Some(number) => Ok(number),
        None => unreachable!(),
    }
}

// The numbers of all, in their order.
fn numbers_in(
    alloc: Global,
    abstraction: &Abstraction,
    clauses: &FlatClauses,
    _lines: &GroundLineList,
    index: &Numbers,
) -> Result<NumberList, Memory>
    requires below { AllAtomsBelow (length abstraction.now.ids) clauses.now }
    requires indexed { AreIndexed _lines.now index.now.entries }
    requires lines { HaveLines _lines.now abstraction.now.ids clauses.now }
    ensures { IfOk result (AreLineNumbers _lines.now abstraction.now.ids clauses.now) }
{
    let mut numbers = Vec::with_capacity(alloc, clauses.len())?;
    for i in 0..clauses.len() {
        let literals = Literals::of_packed(clause_after(clauses, i));
        let number = number_of(alloc, abstraction, &literals, index)?;
        numbers.push(number)?;
    }
    Ok(NumberList::from(numbers))
}

fn numbers_with(
    alloc: Global,
    abstraction: &Abstraction,
    clauses: &FlatClauses,
    lines: &GroundLineList,
    index: &mut Numbers,
) -> Result<NumberList, Memory>
    requires fresh { index.old.entries ≡ [] }
    requires below { AllAtomsBelow (length abstraction.now.ids) clauses.now }
    requires lines { HaveLines lines.now abstraction.now.ids clauses.now }
    ensures { IfOk result (AreLineNumbers lines.now abstraction.now.ids clauses.now) }
{
    index_lines(alloc, lines, index)?;
    numbers_in(alloc, abstraction, clauses, lines, index)
}

/// For each of the numbered clauses, in their order, the number of a line that is its ground clause.
pub fn line_numbers(
    alloc: Global,
    abstraction: &Abstraction,
    clauses: &FlatClauses,
    lines: &GroundLineList,
) -> Result<NumberList, Memory>
    requires below { AllAtomsBelow (length abstraction.now.ids) clauses.now }
    requires lines { HaveLines lines.now abstraction.now.ids clauses.now }
    ensures { IfOk result (AreLineNumbers lines.now abstraction.now.ids clauses.now) }
{
    let mut index = Numbers::new(alloc);
    numbers_with(alloc, abstraction, clauses, lines, &mut index)
}
