// Questions whose answers are known, asked through the trait: of the fast solver, and some of the plain solver too. One
// derivation goes through the checker. A function that owns a solver or an answer has one way out, so that it is soon proved.
ghost use Rattle.std.specs.Prelude.{◌≡◌, ◌+◌, ◌*◌, ◌<◌, ◌≤◌, IfOk, OnOk};
ghost use Rattle.prop_logic.specs.Literal.{AtomsBelow, AllAtomsBelow, StepsBelow};

use cdcl_core::Cdcl;
use inst_logic::Memory;
use proof_log::Checker;
use prop_logic::{Answer, Derivation, Lit, LitList, LitLists, Plain, Solver};
use std::alloc::Global;

fn lit(atom: usize, positive: bool) -> Lit
    ensures { result ≡ (record { positive = positive; atom = atom }) }
{
    Lit { positive, atom }
}

fn make_atoms<S: Solver>(solver: &mut S, count: usize) -> Result<(), Memory>
    requires { S.atoms solver.old ≡ 0 }
    ensures { OnOk result (S.atoms solver.new ≡ count) }
{
    for _ in 0..count {
        solver.new_atom()?;
    }
    Ok(())
}

// The clauses that have two atoms each, for the first `count` pairs of atoms.
fn add_pairs<S: Solver>(solver: &mut S, count: usize) -> Result<(), Memory>
    requires atoms { count + count ≤ S.atoms solver.old }
    requires few { count < 1000 }
    ensures { OnOk result (S.atoms solver.new ≡ S.atoms solver.old) }
{
    for i in 0..count {
        solver.add(&[lit(2 * i, true), lit(2 * i + 1, true)])?;
    }
    Ok(())
}

// The eight clauses of three atoms from this one on, with all signs.
fn add_signs<S: Solver>(solver: &mut S, first: usize) -> Result<(), Memory>
    requires atoms { first + 2 < S.atoms solver.old }
    requires few { first < 1000 }
    ensures { OnOk result (S.atoms solver.new ≡ S.atoms solver.old) }
{
    for bits in 0..8u8 {
        solver.add(&[
            lit(first, bits & 1 != 0),
            lit(first + 1, bits & 2 != 0),
            lit(first + 2, bits & 4 != 0),
        ])?;
    }
    Ok(())
}

// The lengths of a core, of a derivation, and of its last clause, with the first literals of core and clause.
#[derive(Clone, Copy, Debug, PartialEq, Eq)]
struct Refutation {
    core: usize,
    steps: usize,
    literals: usize,
    assumed: Option<Lit>,
    shown: Option<Lit>,
}

fn summary(answer: &Answer) -> Option<Refutation> {
    match answer {
        Answer::Sat(_) => None,
        Answer::Unsat { core, derivation } => match derivation.as_slice().last() {
            Some(step) => Some(Refutation {
                core: core.len(),
                steps: derivation.len(),
                literals: step.clause.len(),
                assumed: core.get(0).copied(),
                shown: step.clause.get(0).copied(),
            }),
            None => None,
        },
    }
}

// The values of atoms 0 and 1.
fn values(answer: &Answer) -> Option<(bool, bool)> {
    match answer {
        Answer::Sat(valuation) => Some((valuation.value(0), valuation.value(1))),
        Answer::Unsat { .. } => None,
    }
}

// What refutes the clauses under the assumptions.
fn refutation_of<S: Solver>(
    solver: &mut S,
    assumptions: &[Lit],
) -> Result<Option<Refutation>, Memory>
    requires { AtomsBelow (S.atoms solver.old) assumptions.now }
    ensures { OnOk result (S.atoms solver.new ≡ S.atoms solver.old) }
{
    let answer = solver.solve(assumptions)?;
    Ok(summary(&answer))
}

// The values of atoms 0 and 1 that make the clauses and the assumptions true.
fn values_of<S: Solver>(solver: &mut S, assumptions: &[Lit]) -> Result<Option<(bool, bool)>, Memory>
    requires { AtomsBelow (S.atoms solver.old) assumptions.now }
    ensures { OnOk result (S.atoms solver.new ≡ S.atoms solver.old) }
{
    let answer = solver.solve(assumptions)?;
    Ok(values(&answer))
}

// What is answered of the clauses 0 | 1 and ~0: alone, under not 1, and under an assumption and its complement.
type Answers = (Option<(bool, bool)>, Option<Refutation>, Option<Refutation>);

fn row_by<S: Solver>(solver: &mut S) -> Result<Answers, Memory>
    requires { S.atoms solver.old ≡ 0 }
{
    make_atoms(solver, 2)?;
    solver.add(&[lit(0, true), lit(1, true)])?;
    solver.add(&[lit(0, false)])?;
    let values = values_of(solver, &[])?;
    let refuted = refutation_of(solver, &[lit(1, false)])?;
    let clash = refutation_of(solver, &[lit(0, false), lit(1, true), lit(1, false)])?;
    Ok((values, refuted, clash))
}

fn row<S: Solver>(mut solver: S) -> Result<Answers, Memory>
    requires { S.atoms solver ≡ 0 }
{
    row_by(&mut solver)
}

pub fn the_row_is_answered(alloc: Global) -> Result<bool, Memory> {
    let (values, refuted, clash) = row(Cdcl::new(alloc))?;
    let want = Refutation {
        core: 1,
        steps: 1,
        literals: 1,
        assumed: Some(lit(1, false)),
        shown: Some(lit(1, true)),
    };
    Ok((values, refuted, clash.map(|r| r.core)) == (Some((false, true)), Some(want), Some(1)))
}

// The numbers of the clauses 0 | 1 and ~0, the values that make them true, what refutes them under not 1 and under 1 and its
// complement, by the lengths of core and last clause, and the number of conflicts.
type PlainRow = (
    [usize; 2],
    Option<(bool, bool)>,
    [Option<(usize, usize)>; 2],
    u64,
);

fn plain_row_by<S: Solver>(solver: &mut S) -> Result<PlainRow, Memory>
    requires { S.atoms solver.old ≡ 0 }
{
    make_atoms(solver, 2)?;
    let first = solver.add(&[lit(0, true), lit(1, true)])?;
    let second = solver.add(&[lit(0, false)])?;
    let values = values_of(solver, &[])?;
    let refuted = refutation_of(solver, &[lit(1, false)])?;
    let clash = refutation_of(solver, &[lit(1, true), lit(1, false)])?;
    let lengths = [refuted, clash].map(|found| found.map(|r| (r.core, r.literals)));
    Ok(([first, second], values, lengths, solver.conflicts()))
}

fn plain_row<S: Solver>(mut solver: S) -> Result<PlainRow, Memory>
    requires { S.atoms solver ≡ 0 }
{
    plain_row_by(&mut solver)
}

pub fn the_plain_solver_answers_the_row(alloc: Global) -> Result<bool, Memory> {
    Ok(
        plain_row(Plain::new(alloc))?
            == ([1, 2], Some((false, true)), [Some((1, 1)), Some((2, 2))], 0),
    )
}

fn values_of_atoms_by<S: Solver>(
    solver: &mut S,
    count: usize,
) -> Result<Option<(bool, bool)>, Memory>
    requires { S.atoms solver.old ≡ 0 }
{
    make_atoms(solver, count)?;
    values_of(solver, &[])
}

// The values of the first two of so many atoms of which nothing is said.
fn values_of_atoms<S: Solver>(mut solver: S, count: usize) -> Result<Option<(bool, bool)>, Memory>
    requires { S.atoms solver ≡ 0 }
{
    values_of_atoms_by(&mut solver, count)
}

pub fn a_million_atoms_have_values(alloc: Global) -> Result<bool, Memory> {
    Ok(values_of_atoms(Plain::new(alloc), 1_000_000)? == Some((false, false)))
}

fn core_of_signs_by<S: Solver>(solver: &mut S) -> Result<Option<usize>, Memory>
    requires { S.atoms solver.old ≡ 0 }
{
    make_atoms(solver, 3)?;
    add_signs(solver, 0)?;
    Ok(refutation_of(solver, &[])?.map(|r| r.core))
}

// The length of the core where the eight clauses over three atoms are refuted.
fn core_of_signs<S: Solver>(mut solver: S) -> Result<Option<usize>, Memory>
    requires { S.atoms solver ≡ 0 }
{
    core_of_signs_by(&mut solver)
}

pub fn both_solvers_refute_eight_clauses(alloc: Global) -> Result<bool, Memory> {
    Ok(
        [
            core_of_signs(Cdcl::new(alloc))?,
            core_of_signs(Plain::new(alloc))?,
        ] == [Some(0); 2],
    )
}

fn refute_signs_by<S: Solver>(solver: &mut S) -> Result<Option<Refutation>, Memory>
    requires { S.atoms solver.old ≡ 0 }
{
    make_atoms(solver, 83)?;
    add_pairs(solver, 40)?;
    add_signs(solver, 80)?;
    refutation_of(solver, &[])
}

// What refutes the eight clauses over the last three atoms, after forty clauses over the others.
fn refute_signs<S: Solver>(mut solver: S) -> Result<Option<Refutation>, Memory>
    requires { S.atoms solver ≡ 0 }
{
    refute_signs_by(&mut solver)
}

pub fn clauses_of_forty_pairs_are_left_out(alloc: Global) -> Result<bool, Memory> {
    let found = refute_signs(Cdcl::new(alloc))?;
    Ok(found.map(|r| (r.core, r.steps <= 64)) == Some((0, true)))
}

// The eight clauses of atoms 0, 1 and 2 with all signs.
fn all_signs(alloc: Global) -> Result<LitLists, Memory>
    ensures { IfOk result (AllAtomsBelow 3) }
{
    let mut clauses = LitLists::new(alloc);
    for bits in 0..8u8 {
        let signs = [
            lit(0, bits & 1 != 0),
            lit(1, bits & 2 != 0),
            lit(2, bits & 4 != 0),
        ];
        clauses.push(LitList::from(Vec::from_slice(alloc, &signs)?))?;
    }
    Ok(clauses)
}

fn add_all<S: Solver>(solver: &mut S, clauses: &LitLists) -> Result<(), Memory>
    requires { AllAtomsBelow (S.atoms solver.old) clauses.now }
    ensures { OnOk result (S.atoms solver.new ≡ S.atoms solver.old) }
{
    for clause in clauses.as_slice() {
        solver.add(clause.as_slice())?;
    }
    Ok(())
}

// Whether the checker says that the steps refute the clauses over three atoms.
fn is_refuted(alloc: Global, given: &LitLists, derivation: &Derivation) -> Result<bool, Memory>
    requires given { AllAtomsBelow 3 given.now }
    requires derivation { StepsBelow 3 derivation.now }
{
    let mut checker = Checker::with_room(alloc, 3, given, derivation)?;
    Ok(checker.refutes(given, derivation).is_ok())
}

// The length of the core, and whether the checker accepts the derivation.
fn checked<S: Solver>(
    alloc: Global,
    solver: &mut S,
    given: &LitLists,
) -> Result<Option<(usize, bool)>, Memory>
    requires given { AllAtomsBelow 3 given.now }
    requires atoms { S.atoms solver.old ≡ 3 }
{
    match solver.solve(&[])? {
        Answer::Sat(_) => Ok(None),
        Answer::Unsat { core, derivation } => {
            Ok(Some((core.len(), is_refuted(alloc, given, &derivation)?)))
        }
    }
}

fn checked_of<S: Solver>(
    alloc: Global,
    solver: &mut S,
    given: &LitLists,
) -> Result<Option<(usize, bool)>, Memory>
    requires given { AllAtomsBelow 3 given.now }
    requires atoms { S.atoms solver.old ≡ 0 }
{
    make_atoms(solver, 3)?;
    add_all(solver, given)?;
    checked(alloc, solver, given)
}

// What the checker says of the eight clauses of three atoms.
fn checked_signs<S: Solver>(alloc: Global, solver: &mut S) -> Result<Option<(usize, bool)>, Memory>
    requires { S.atoms solver.old ≡ 0 }
{
    let given = all_signs(alloc)?;
    checked_of(alloc, solver, &given)
}

fn signs_checked<S: Solver>(alloc: Global, mut solver: S) -> Result<Option<(usize, bool)>, Memory>
    requires { S.atoms solver ≡ 0 }
{
    checked_signs(alloc, &mut solver)
}

pub fn the_checker_accepts_what_refutes_eight_clauses(alloc: Global) -> Result<bool, Memory> {
    Ok(
        [
            signs_checked(alloc, Cdcl::new(alloc))?,
            signs_checked(alloc, Cdcl::for_one_question(alloc))?,
        ] == [Some((0, true)); 2],
    )
}

// The clauses that say that atom i gives atom i + 1, for the first `count` atoms, and the first atom.
fn add_facts<S: Solver>(solver: &mut S, count: usize) -> Result<(), Memory>
    requires atoms { count + 1 ≤ S.atoms solver.old }
    requires few { count < 1000000 }
    ensures { OnOk result (S.atoms solver.new ≡ S.atoms solver.old) }
{
    for i in 0..count {
        solver.add(&[lit(i, false), lit(i + 1, true)])?;
    }
    solver.add(&[lit(0, true)])?;
    Ok(())
}

// Adds the chain of implications after the complement of its last atom.
fn add_chain<S: Solver>(solver: &mut S, count: usize) -> Result<(), Memory>
    requires atoms { count + 1 ≤ S.atoms solver.old }
    requires few { count < 1000000 }
    ensures { OnOk result (S.atoms solver.new ≡ S.atoms solver.old) }
{
    solver.add(&[lit(count, false)])?;
    add_facts(solver, count)
}

fn steps_of_chain_by<S: Solver>(solver: &mut S, count: usize) -> Result<Option<usize>, Memory>
    requires atoms { S.atoms solver.old ≡ 0 }
    requires few { count < 1000000 }
{
    make_atoms(solver, count + 1)?;
    add_chain(solver, count)?;
    Ok(refutation_of(solver, &[])?.map(|r| r.steps))
}

// The number of steps that refute a chain.
fn steps_of_chain<S: Solver>(mut solver: S, count: usize) -> Result<Option<usize>, Memory>
    requires atoms { S.atoms solver ≡ 0 }
    requires few { count < 1000000 }
{
    steps_of_chain_by(&mut solver, count)
}

// The clauses that say that the pigeon has a hole.
fn add_pigeon<S: Solver>(solver: &mut S, pigeon: usize, holes: usize) -> Result<(), Memory>
    requires atoms { pigeon * 8 + 8 ≤ S.atoms solver.old }
    requires few { pigeon < 100 }
    ensures { OnOk result (S.atoms solver.new ≡ S.atoms solver.old) }
{
    let first = pigeon * 8;
    let all = [
        lit(first, true),
        lit(first + 1, true),
        lit(first + 2, true),
        lit(first + 3, true),
        lit(first + 4, true),
        lit(first + 5, true),
        lit(first + 6, true),
        lit(first + 7, true),
    ];
    solver.add(&all[..holes.min(8)])?;
    Ok(())
}

// No two of the pigeons have the hole.
fn add_hole<S: Solver>(solver: &mut S, hole: usize, pigeons: usize) -> Result<(), Memory>
    requires atoms { pigeons * 8 ≤ S.atoms solver.old }
    requires hole { hole < 8 }
    requires few { pigeons < 100 }
    ensures { OnOk result (S.atoms solver.new ≡ S.atoms solver.old) }
{
    for one in 0..pigeons {
        add_pairs_after(solver, hole, one, pigeons)?;
    }
    Ok(())
}

fn add_pairs_after<S: Solver>(
    solver: &mut S,
    hole: usize,
    one: usize,
    pigeons: usize,
) -> Result<(), Memory>
    requires atoms { pigeons * 8 ≤ S.atoms solver.old }
    requires hole { hole < 8 }
    requires one { one < pigeons }
    requires few { pigeons < 100 }
    ensures { OnOk result (S.atoms solver.new ≡ S.atoms solver.old) }
{
    for other in one + 1..pigeons {
        solver.add(&[lit(one * 8 + hole, false), lit(other * 8 + hole, false)])?;
    }
    Ok(())
}

// Each of one pigeon more than holes has a hole.
fn add_pigeons<S: Solver>(solver: &mut S, holes: usize) -> Result<(), Memory>
    requires atoms { S.atoms solver.old ≡ holes * 8 + 8 }
    requires few { holes < 8 }
    ensures { OnOk result (S.atoms solver.new ≡ S.atoms solver.old) }
{
    for pigeon in 0..holes + 1 {
        add_pigeon(solver, pigeon, holes)?;
    }
    Ok(())
}

// No two of them have one hole.
fn add_holes<S: Solver>(solver: &mut S, holes: usize) -> Result<(), Memory>
    requires atoms { S.atoms solver.old ≡ holes * 8 + 8 }
    requires few { holes < 8 }
    ensures { OnOk result (S.atoms solver.new ≡ S.atoms solver.old) }
{
    for hole in 0..holes {
        add_hole(solver, hole, holes + 1)?;
    }
    Ok(())
}

fn steps_of_pigeons_by<S: Solver>(solver: &mut S, holes: usize) -> Result<Option<usize>, Memory>
    requires atoms { S.atoms solver.old ≡ 0 }
    requires few { holes < 8 }
{
    make_atoms(solver, holes * 8 + 8)?;
    add_pigeons(solver, holes)?;
    add_holes(solver, holes)?;
    Ok(refutation_of(solver, &[])?.map(|r| r.steps))
}

// The number of steps that refute that one pigeon more than holes has a hole of its own.
fn steps_of_pigeons<S: Solver>(mut solver: S, holes: usize) -> Result<Option<usize>, Memory>
    requires atoms { S.atoms solver ≡ 0 }
    requires few { holes < 8 }
{
    steps_of_pigeons_by(&mut solver, holes)
}

// The clauses of the five atoms after the fact, with all signs, each with the fact's complement.
fn add_signs_after<S: Solver>(solver: &mut S, fact: usize) -> Result<(), Memory>
    requires atoms { fact + 5 < S.atoms solver.old }
    requires few { fact < 1000 }
    ensures { OnOk result (S.atoms solver.new ≡ S.atoms solver.old) }
{
    for bits in 0..32u8 {
        solver.add(&[
            lit(fact, false),
            lit(fact + 1, bits & 1 != 0),
            lit(fact + 2, bits & 2 != 0),
            lit(fact + 3, bits & 4 != 0),
            lit(fact + 4, bits & 8 != 0),
            lit(fact + 5, bits & 16 != 0),
        ])?;
    }
    Ok(())
}

fn hints_of(answer: &Answer) -> Option<usize> {
    match answer {
        Answer::Sat(_) => None,
        Answer::Unsat { derivation, .. } => {
            let mut count: usize = 0;
            for step in derivation.as_slice() {
                count = count.saturating_add(step.hints.len());
            }
            Some(count)
        }
    }
}

fn hints_after_facts_by<S: Solver>(solver: &mut S, count: usize) -> Result<Option<usize>, Memory>
    requires atoms { S.atoms solver.old ≡ 0 }
    requires few { count < 1000 }
{
    make_atoms(solver, count + 6)?;
    add_facts(solver, count)?;
    add_signs_after(solver, count)?;
    let answer = solver.solve(&[])?;
    Ok(hints_of(&answer))
}

// The number of hints that refute clauses of which each has the complement of the last of so many facts.
fn hints_after_facts<S: Solver>(mut solver: S, count: usize) -> Result<Option<usize>, Memory>
    requires atoms { S.atoms solver ≡ 0 }
    requires few { count < 1000 }
{
    hints_after_facts_by(&mut solver, count)
}

// Many steps rest on the last fact. A fact more costs two hints of its own step, and one of the first of those steps.
pub fn a_fact_is_cited_alone(alloc: Global) -> Result<bool, Memory> {
    let few = hints_after_facts(Cdcl::new(alloc), 10)?.unwrap_or(0);
    let many = hints_after_facts(Cdcl::new(alloc), 110)?.unwrap_or(1000);
    Ok(many.saturating_sub(few) <= 300)
}

pub fn a_chain_is_one_step(alloc: Global) -> Result<bool, Memory> {
    Ok(
        [
            steps_of_chain(Cdcl::new(alloc), 1)?,
            steps_of_chain(Cdcl::new(alloc), 10)?,
            steps_of_chain(Cdcl::new(alloc), 10_000)?,
        ] == [Some(1); 3],
    )
}

// Whether so many steps, or fewer, refute the pigeons.
fn refutes_pigeons_within(alloc: Global, holes: usize, most: usize) -> Result<bool, Memory>
    requires { holes < 8 }
{
    let steps = steps_of_pigeons(Cdcl::new(alloc), holes)?;
    Ok(steps.is_some_and(|found| found <= most))
}

pub fn pigeons_are_refuted_in_few_steps(alloc: Global) -> Result<bool, Memory> {
    Ok(
        [
            refutes_pigeons_within(alloc, 2, 5)?,
            refutes_pigeons_within(alloc, 4, 50)?,
            refutes_pigeons_within(alloc, 6, 1500)?,
        ] == [true; 3],
    )
}

// The length of the core where three assumptions are all of a clause's complements, and a fourth is about another atom.
fn core_of_three_by<S: Solver>(solver: &mut S) -> Result<Option<usize>, Memory>
    requires { S.atoms solver.old ≡ 0 }
{
    make_atoms(solver, 4)?;
    solver.add(&[lit(0, false), lit(1, false), lit(2, false)])?;
    let assumptions = [lit(3, true), lit(0, true), lit(1, true), lit(2, true)];
    Ok(refutation_of(solver, &assumptions)?.map(|r| r.core))
}

fn core_of_three<S: Solver>(mut solver: S) -> Result<Option<usize>, Memory>
    requires { S.atoms solver ≡ 0 }
{
    core_of_three_by(&mut solver)
}

pub fn a_core_has_three_of_four_assumptions(alloc: Global) -> Result<bool, Memory> {
    Ok(
        [
            core_of_three(Cdcl::new(alloc))?,
            core_of_three(Plain::new(alloc))?,
        ] == [Some(3); 2],
    )
}

// The values of two atoms before and after a clause that is false at first.
type Pairs = (Option<(bool, bool)>, Option<(bool, bool)>);

fn before_and_after_by<S: Solver>(solver: &mut S) -> Result<Pairs, Memory>
    requires { S.atoms solver.old ≡ 0 }
{
    make_atoms(solver, 2)?;
    solver.add(&[lit(0, true), lit(1, true)])?;
    solver.add(&[lit(0, false), lit(1, false)])?;
    let before = values_of(solver, &[lit(0, true)])?;
    solver.add(&[lit(0, false)])?;
    let after = values_of(solver, &[])?;
    Ok((before, after))
}

fn before_and_after<S: Solver>(mut solver: S) -> Result<Pairs, Memory>
    requires { S.atoms solver ≡ 0 }
{
    before_and_after_by(&mut solver)
}

pub fn a_clause_comes_between_two_questions(alloc: Global) -> Result<bool, Memory> {
    let want = (Some((true, false)), Some((false, true)));
    Ok(
        [
            before_and_after(Cdcl::new(alloc))?,
            before_and_after(Plain::new(alloc))?,
        ] == [want; 2],
    )
}

fn ask_again<S: Solver>(solver: &mut S, count: usize) -> Result<(), Memory>
    requires { 3 ≤ S.atoms solver.old }
    ensures { OnOk result (S.atoms solver.new ≡ S.atoms solver.old) }
{
    for _ in 0..count {
        values_of(solver, &[lit(0, true)])?;
        values_of(solver, &[])?;
    }
    Ok(())
}

// The conflicts that have steps, after one refutation and after many.
fn conflicts_by<S: Solver>(solver: &mut S) -> Result<(u64, u64), Memory>
    requires { S.atoms solver.old ≡ 0 }
{
    make_atoms(solver, 3)?;
    add_signs(solver, 0)?;
    ask_again(solver, 2)?;
    let first = solver.conflicts();
    ask_again(solver, 100)?;
    Ok((first, solver.conflicts()))
}

fn conflicts_of<S: Solver>(mut solver: S) -> Result<(u64, u64), Memory>
    requires { S.atoms solver ≡ 0 }
{
    conflicts_by(&mut solver)
}

pub fn questions_that_are_refuted_again_leave_no_steps(alloc: Global) -> Result<bool, Memory> {
    let found = conflicts_of(Cdcl::new(alloc))?;
    Ok(found.0 == found.1)
}

// What refutes atom 0, where the five atoms after it are refuted by search, and the conflicts that have steps then.
fn conflicts_under_by<S: Solver>(solver: &mut S) -> Result<(Option<usize>, u64), Memory>
    requires { 6 ≤ S.atoms solver.old }
    ensures { OnOk result (S.atoms solver.new ≡ S.atoms solver.old) }
{
    let found = refutation_of(solver, &[lit(0, true)])?;
    Ok((found.map(|r| r.core), solver.conflicts()))
}

// Both, after each of two questions, where all that was learned may be forgotten between them.
fn conflicts_twice_by<S: Solver>(solver: &mut S) -> Result<[(Option<usize>, u64); 2], Memory>
    requires { S.atoms solver.old ≡ 0 }
{
    make_atoms(solver, 6)?;
    add_signs_after(solver, 0)?;
    let first = conflicts_under_by(solver)?;
    let second = conflicts_under_by(solver)?;
    Ok([first, second])
}

fn conflicts_twice<S: Solver>(mut solver: S) -> Result<[(Option<usize>, u64); 2], Memory>
    requires { S.atoms solver ≡ 0 }
{
    conflicts_twice_by(&mut solver)
}

pub fn what_was_forgotten_is_learned_again(alloc: Global) -> Result<bool, Memory> {
    let [first, second] = conflicts_twice(Cdcl::new(alloc))?;
    let [one, more] = conflicts_twice(Cdcl::forgetting_after(alloc, 0))?;
    let cores = [first.0, second.0, one.0, more.0] == [Some(1); 4];
    Ok(cores && first.1 == second.1 && one.1 == first.1 && one.1 < more.1)
}

pub fn new_atoms_are_tried_false_or_true_first(alloc: Global) -> Result<bool, Memory> {
    Ok(
        [
            values_of_atoms(Cdcl::new(alloc), 2)?,
            values_of_atoms(Cdcl::true_first(alloc), 2)?,
        ] == [Some((false, false)), Some((true, true))],
    )
}

// The restarts of the question whether so many pigeons and one more have holes.
fn restarts_of_pigeons(solver: &mut Cdcl, holes: usize) -> Result<u64, Memory>
    requires atoms { solver.old.atoms ≡ 0 }
    requires few { holes < 8 }
{
    steps_of_pigeons_by(solver, holes)?;
    Ok(solver.restarts())
}

fn restarts_of(mut solver: Cdcl, holes: usize) -> Result<u64, Memory>
    requires atoms { solver.atoms ≡ 0 }
    requires few { holes < 8 }
{
    restarts_of_pigeons(&mut solver, holes)
}

pub fn long_questions_restart(alloc: Global) -> Result<bool, Memory> {
    let few = restarts_of(Cdcl::new(alloc), 2)?;
    let more = restarts_of(Cdcl::new(alloc), 6)?;
    Ok(few == 0 && 0 < more)
}
