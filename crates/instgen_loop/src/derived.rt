// The derivation over the ground lines. Where no entry is a part of a conclusion each abstraction is a line, and what refuted the
// abstractions refutes the lines. Else a solver of its own is asked for it.
ghost use Rattle.std.specs.Prelude.{◌≡◌, [], List, Bool, map, All, IfOk, OnOk, false};
ghost use Rattle.prop_logic.specs.Solving.{MakesTrue, Refutes};
ghost use Rattle.cert_values.specs.Wholes.{IsWholeClause};
ghost use Rattle.term_bank.specs.Forest.{AreDistinct, AreFormed, Extends, clause_at};
ghost use Rattle.instgen_run.specs.Clauses.{Item};
ghost use Rattle.instgen_loop.specs.Derived.{AreRefutedLines, IsDerived, IsEmptyGround};
ghost use Rattle.instgen_run.specs.Origins.{IsNoPart};
ghost use Rattle.instgen_run.specs.Grounds.{IsLinked};
ghost use Rattle.instgen_loop.specs.LineNumbers.{clauses_of};
ghost use Rattle.instgen_loop.specs.Starting.{IsNew};

use crate::refuted::RefutedRun;
use cert_values::GroundLineList;
use compact_lists::FlatClauses;
use ground_abs::Abstraction;
use inst_logic::Memory;
use instgen_run::{Ground, Origins, add_entry, origin_of};
use prop_logic::{Answer, Derivation, Solver, Valuation};
use std::alloc::Global;
use std::mem::swap;
use term_bank::Bank;

// Whether some entry is a part of a conclusion.
fn has_part(clauses: &Origins) -> bool
    ensures { result ≡ false → All (λ (e : Item). IsNoPart e.1) clauses.now.entries }
{
    for i in 0..clauses.len() {
        if origin_of(clauses, i + 1).is_part() {
            return true;
        }
    }
    false
}

// Gives the solver each of the lines.
fn add_lines<S: Solver>(
    bank: &mut Bank,
    ground: &mut Ground<S>,
    lines: &GroundLineList,
) -> Result<(), Memory>
    requires formed { AreFormed bank.old }
    requires empty { IsEmptyGround ground.old (S.atoms ground.old.solver) (S.added ground.old.solver) }
    requires lines { All (IsWholeClause bank.old) (clauses_of lines.now) }
    ensures extends { Extends bank.old bank.new }
    ensures formed { OnOk result (AreFormed bank.new) }
    ensures bot { OnOk result (ground.new.abstraction.bot ≡ ground.old.abstraction.bot) }
    ensures linked { OnOk result (IsLinked bank.new ground.new (S.atoms ground.new.solver) (S.added ground.new.solver) ground.old.abstraction.bot (map (clause_at bank.old) (clauses_of lines.now))) }
{
    let lines = lines.as_slice();
    for i in 0..lines.len() {
        add_entry(bank, ground, &lines[i].clause)?;
    }
    Ok(())
}

// The derivation of a solver of which no valuation makes the clauses true.
fn refutation<S: Solver>(solver: &mut S) -> Result<Derivation, Memory>
    requires { (bits : List Bool) → ¬ MakesTrue bits (S.added solver.old) [] }
    ensures { IfOk result (Refutes (S.atoms solver.old) (S.added solver.old) [] []) }
{
    match solver.solve(&[])? {
        Answer::Sat(_) => unreachable!(),
        Answer::Unsat { derivation, .. } => Ok(derivation),
    }
}

// The derivation of a solver that is asked for it over the lines.
fn ask_lines<S: Solver>(
    run: &mut RefutedRun,
    ground: &mut Ground<S>,
    lines: &GroundLineList,
) -> Result<(), Memory>
    requires formed { AreFormed run.old.remains.bank }
    requires empty { IsEmptyGround ground.old (S.atoms ground.old.solver) (S.added ground.old.solver) }
    requires refuted { AreRefutedLines run.old.remains.bank lines.now }
    ensures extends { OnOk result (Extends run.old.remains.bank run.new.remains.bank) }
    ensures formed { OnOk result (AreFormed run.new.remains.bank) }
    ensures remains { OnOk result (run.new.remains ≡ record run.old.remains { bank = run.new.remains.bank }) }
    ensures derived { OnOk result (IsDerived run.new lines.now) }
    ensures distinct { OnOk result (AreDistinct run.new.remains.bank.trees) }
{
    add_lines(&mut run.remains.bank, ground, lines)?;
    // The bank has each tree once, so clauses of equal trees are equal.
    run.remains.bank.distinct();
    run.derivation = refutation(&mut ground.solver)?;
    swap(&mut run.abstraction, &mut ground.abstraction);
    swap(&mut run.literals, &mut ground.literals);
    Ok(())
}

// Asks a fresh solver.
fn ask_anew<S: Solver>(
    alloc: Global,
    run: &mut RefutedRun,
    solver: S,
    lines: &GroundLineList,
) -> Result<(), Memory>
    requires solver { IsNew S.atoms S.added solver }
    requires formed { AreFormed run.old.remains.bank }
    requires refuted { AreRefutedLines run.old.remains.bank lines.now }
    ensures extends { OnOk result (Extends run.old.remains.bank run.new.remains.bank) }
    ensures formed { OnOk result (AreFormed run.new.remains.bank) }
    ensures remains { OnOk result (run.new.remains ≡ record run.old.remains { bank = run.new.remains.bank }) }
    ensures derived { OnOk result (IsDerived run.new lines.now) }
    ensures distinct { OnOk result (AreDistinct run.new.remains.bank.trees) }
{
    let bot = run.abstraction.bot().clone()?;
    let mut ground = Ground {
        abstraction: Abstraction::new(alloc, bot),
        solver,
        literals: FlatClauses::new(alloc),
        valuation: Valuation::new(alloc),
        numbered: Vec::new(alloc),
        first_values: Valuation::new(alloc),
    };
    ask_lines(run, &mut ground, lines)
}

/// Makes the derivation of the run one over the ground lines, with the numbered clauses that its hints cite. The bank may grow.
pub fn derive<S: Solver>(
    alloc: Global,
    run: &mut RefutedRun,
    last: S,
    lines: &GroundLineList,
) -> Result<(), Memory>
    requires last { IsNew S.atoms S.added last }
    requires formed { AreFormed run.old.remains.bank }
    requires refuted { AreRefutedLines run.old.remains.bank lines.now }
    requires carried { All (λ (e : Item). IsNoPart e.1) run.old.remains.clauses.entries → AreDistinct run.old.remains.bank.trees → IsDerived run.old lines.now }
    ensures extends { OnOk result (Extends run.old.remains.bank run.new.remains.bank) }
    ensures formed { OnOk result (AreFormed run.new.remains.bank) }
    ensures remains { OnOk result (run.new.remains ≡ record run.old.remains { bank = run.new.remains.bank }) }
    ensures derived { OnOk result (IsDerived run.new lines.now) }
    ensures distinct { OnOk result (AreDistinct run.new.remains.bank.trees) }
{
    if has_part(&run.remains.clauses) {
        ask_anew(alloc, run, last, lines)
    } else {
        run.remains.bank.distinct();
        Ok(())
    }
}
