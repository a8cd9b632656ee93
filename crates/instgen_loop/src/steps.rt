// Clauses and steps over numbered atoms as those of a certificate: the ids of the atoms stand in the place of their numbers, and
// a repeated literal, which hints count once, is dropped.
ghost use Rattle.std.specs.Prelude.{◌≡◌, ◌<◌, length, map, All, IfOk};
ghost use Rattle.prop_logic.specs.Literal.{AtomsBelow, StepsBelow};
ghost use Rattle.ground_abs.specs.Numbers.{named};
ghost use Rattle.instgen_loop.specs.Refuting.{AreHintsWithin, IsHintWithin, ground_clause, ground_hint, ground_step};

use cert_values::{GroundHint, GroundHintList, GroundStep, GroundStepList};
use compact_lists::Literals;
use ground_abs::{Abstraction, add_literal};
use indexmap::IndexSet;
use inst_logic::{Memory, NumberList};
use prop_logic::{Derivation, Hint, HintList, Lit, Step};
use std::alloc::Global;
use term_bank::{IdClause, IdLiteral};

// The literal with the id of its atom.
fn named_literal(abstraction: &Abstraction, l: Lit) -> IdLiteral
    requires below { l.atom < length abstraction.now.ids }
    ensures { result ≡ named abstraction.now.ids l }
{
    match abstraction.atom_at(l.atom) {
        Some(atom) => IdLiteral {
            positive: l.positive,
            atom,
        },
        None => unreachable!(),
    }
}

/// The literals with the ids of their atoms, each at its first place only.
pub fn ground_clause(
    alloc: Global,
    abstraction: &Abstraction,
    literals: &Literals,
) -> Result<IdClause, Memory>
    requires below { AtomsBelow (length abstraction.now.ids) literals.now }
    ensures { IfOk result (λ c. c ≡ ground_clause abstraction.now.ids literals.now) }
{
    let mut seen: IndexSet<IdLiteral> = IndexSet::new(alloc);
    let mut clause = IdClause::new(alloc);
    for i in 0..literals.len() {
        let literal = named_literal(abstraction, literals.at(i));
        add_literal(&mut seen, &mut clause, literal)?;
    }
    Ok(clause)
}

fn ground_hint(numbers: &[usize], hint: Hint) -> GroundHint
    requires { IsHintWithin (length numbers.now) hint }
    ensures { result ≡ ground_hint numbers.now hint }
{
    match hint {
        Hint::Added(n) => GroundHint::Ground(numbers[n - 1]),
        Hint::Step(n) => GroundHint::Step(n),
    }
}

fn ground_hints(
    alloc: Global,
    numbers: &[usize],
    hints: &HintList,
) -> Result<GroundHintList, Memory>
    requires within { All (IsHintWithin (length numbers.now)) hints.now }
    ensures { IfOk result (λ hs. hs ≡ map (ground_hint numbers.now) hints.now) }
{
    let mut list = GroundHintList::new(alloc);
    for hint in hints.as_slice() {
        list.push(ground_hint(numbers, *hint))?;
    }
    Ok(list)
}

// The step with its clause so, and the lines that its hints name.
fn ground_step(
    alloc: Global,
    abstraction: &Abstraction,
    numbers: &[usize],
    step: &Step,
) -> Result<GroundStep, Memory>
    requires below { AtomsBelow (length abstraction.now.ids) step.now.clause }
    requires within { All (IsHintWithin (length numbers.now)) step.now.hints }
    ensures { IfOk result (λ s. s ≡ ground_step abstraction.now.ids numbers.now step.now) }
{
    let literals = Literals::plain(step.clause.as_slice());
    let clause = ground_clause(alloc, abstraction, &literals)?;
    let hints = ground_hints(alloc, numbers, &step.hints)?;
    Ok(GroundStep { clause, hints })
}

/// The steps so, in their order. The numbers are those of the lines that the clauses of the solver are.
pub fn ground_steps(
    alloc: Global,
    abstraction: &Abstraction,
    numbers: &NumberList,
    steps: &Derivation,
) -> Result<GroundStepList, Memory>
    requires below { StepsBelow (length abstraction.now.ids) steps.now }
    requires within { AreHintsWithin (length numbers.now) steps.now }
    ensures { IfOk result (λ ss. ss ≡ map (ground_step abstraction.now.ids numbers.now) steps.now) }
{
    let mut list = GroundStepList::new(alloc);
    for step in steps.as_slice() {
        let step = ground_step(alloc, abstraction, numbers.as_slice(), step)?;
        list.push(step)?;
    }
    Ok(list)
}
