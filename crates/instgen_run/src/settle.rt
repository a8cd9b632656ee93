// A solve, and what follows from it: entries whose selected literal became false choose another one and wait again.
ghost use Rattle.std.specs.Prelude.{◌≡◌, ◌<◌, ◌≤◌, ◌+◌, ◌++◌, ◌∷◌, [], ℕ, List, length, slice_get, Some, All, IfOk, OnOk, IfNone, IfSome};
ghost use Rattle.inst_logic.specs.declared.symbol.Sym.{Sym};
ghost use Rattle.inst_logic.specs.Clauses.{TreeClause};
ghost use Rattle.inst_logic.specs.Truth.{IsTrueClause};
ghost use Rattle.prop_logic.specs.Literal.{AllAtomsBelow};
ghost use Rattle.prop_logic.specs.Solving.{Refutes, Satisfies};
ghost use Rattle.prop_logic.specs.Valuation.{IsHeld, AreChanges};
ghost use Rattle.instgen_run.specs.Loops.{IsConsistent, items, ArePartners};
ghost use Rattle.instgen_run.specs.Selections.{AreUsers};
ghost use Rattle.instgen_run.specs.Solves.{Solves};
ghost use Rattle.instgen_run.specs.Tended.{AreTended};
ghost use Rattle.instgen_run.specs.Running.{IsRunningFor, IsRunningWith, KeepsTruth};
ghost use Rattle.instgen_run.specs.Choosing.{IsUnderWay, AreNumbersPlaced};
ghost use Rattle.instgen_run.specs.Settling.{IsOrderly, IsGrounded, IsSomeRun, Settles};

use crate::ask::ask;
use crate::event::FlipList;
use crate::flips::flips_between;
use crate::ground::clause_after;
use crate::queue::Partners;
use crate::reselect::reselect_all;
use crate::selection::{Selection, chosen_literal};
use crate::state::Run;
use compact_lists::FlatClauses;
use inst_logic::Memory;
use prop_logic::{Answer, Derivation, Solver, Valuation};
use std::alloc::Global;
use term_index::PartnerIndex;

// The first entry without a place gets one.
fn place_next(
    selection: &mut Selection,
    literals: &FlatClauses,
    v: &Valuation,
) -> Result<(), Memory>
    requires within { length selection.old.places < length literals.now }
    requires hold { All (IsTrueClause (IsHeld v.now)) literals.now }
    requires below { AllAtomsBelow (length selection.old.users) literals.now }
    requires under_way { IsUnderWay literals.now v.now [] [] selection.old }
    requires numbers { AreNumbersPlaced selection.old }
    ensures under_way { OnOk result (IsUnderWay literals.now v.now [] [] selection.new) }
    ensures numbers { OnOk result (AreNumbersPlaced selection.new) }
    ensures users { OnOk result (length selection.new.users ≡ length selection.old.users) }
    ensures grows { OnOk result ((place : ℕ) × (selection.new.places ≡ selection.old.places ++ place ∷ [])) }
{
    let chosen = chosen_literal(None, clause_after(literals, selection.len()), v);
    selection.select_next(chosen)?;
    Ok(())
}

// Each entry without a place gets one.
fn place_new(selection: &mut Selection, literals: &FlatClauses, v: &Valuation) -> Result<(), Memory>
    requires within { length selection.old.places ≤ length literals.now }
    requires hold { All (IsTrueClause (IsHeld v.now)) literals.now }
    requires below { AllAtomsBelow (length selection.old.users) literals.now }
    requires under_way { IsUnderWay literals.now v.now [] [] selection.old }
    requires numbers { AreNumbersPlaced selection.old }
    ensures under_way { OnOk result (IsUnderWay literals.now v.now [] [] selection.new) }
    ensures numbers { OnOk result (AreNumbersPlaced selection.new) }
    ensures whole { OnOk result (length selection.new.places ≡ length literals.now) }
    ensures grows { OnOk result ((more : List ℕ) × (selection.new.places ≡ selection.old.places ++ more)) }
{
    for _ in selection.len()..literals.len() {
        place_next(selection, literals, v)?;
    }
    Ok(())
}

// Selects a literal of each entry that is true in the valuation. Only the users of the atoms that changed choose again.
fn select_true<S: Solver, I: PartnerIndex>(
    alloc: Global,
    run: &mut Run<S, I>,
    partners: &mut Partners<I>,
    v: &Valuation,
    changed: &[usize],
) -> Result<(), Memory>
    requires orderly { IsOrderly S.atoms I.pairs I.fits run.old partners.old }
    requires users { AreUsers run.old.ground.literals run.old.selection }
    requires grounded { IsGrounded S.added run.old }
    requires hold { All (IsTrueClause (IsHeld v.now)) run.old.ground.literals }
    requires changes { AreChanges run.old.ground.valuation v.now changed.now }
    requires below { All (λ n. n < length run.old.ground.abstraction.ids) changed.now }
    ensures orderly { OnOk result (IsOrderly S.atoms I.pairs I.fits run.new partners.new) }
    ensures settles { OnOk result (Settles run.old run.new v.now) }
{
    run.selection
        .make_users(alloc, run.ground.abstraction.len())?;
    reselect_all(alloc, run, partners, v, changed)?;
    place_new(&mut run.selection, &run.ground.literals, v)?;
    Ok(())
}

// Takes the valuation as the last one.
fn accept<S: Solver, I: PartnerIndex>(
    alloc: Global,
    run: &mut Run<S, I>,
    partners: &mut Partners<I>,
    v: Valuation,
) -> Result<(), Memory>
    requires orderly { IsOrderly S.atoms I.pairs I.fits run.old partners.old }
    requires users { AreUsers run.old.ground.literals run.old.selection }
    requires grounded { IsGrounded S.added run.old }
    requires satisfies { Satisfies (S.atoms run.old.ground.solver) (S.added run.old.ground.solver) [] v }
    ensures orderly { OnOk result (IsOrderly S.atoms I.pairs I.fits run.new partners.new) }
    ensures users { OnOk result (AreUsers run.new.ground.literals run.new.selection) }
    ensures whole { OnOk result (length run.new.selection.places ≡ length (items run.new)) }
    ensures valuation { OnOk result (run.new.ground.valuation ≡ v) }
    ensures solves { OnOk result ((flips : List ℕ) × Solves S.atoms S.added run.old run.new flips) }
{
    let flips = flips_between(
        alloc,
        &run.entries.bank,
        &run.ground.abstraction,
        &run.ground.valuation,
        &v,
    )?;
    select_true(alloc, run, partners, &v, &flips.numbers)?;
    let entries = run.entries.clauses.len();
    run.log.push_solved(&flips.atoms, entries)?;
    run.ground.valuation = v;
    Ok(())
}

// Keeps the last valuation, and the selected literals with it. The entries without a place get one.
fn stay<S: Solver, I: PartnerIndex>(
    alloc: Global,
    run: &mut Run<S, I>,
    _partners: &Partners<I>,
) -> Result<(), Memory>
    requires orderly { IsOrderly S.atoms I.pairs I.fits run.old _partners.now }
    requires users { AreUsers run.old.ground.literals run.old.selection }
    requires grounded { IsGrounded S.added run.old }
    requires hold { All (IsTrueClause (IsHeld run.old.ground.valuation)) run.old.ground.literals }
    ensures orderly { OnOk result (IsOrderly S.atoms I.pairs I.fits run.new _partners.now) }
    ensures users { OnOk result (AreUsers run.new.ground.literals run.new.selection) }
    ensures whole { OnOk result (length run.new.selection.places ≡ length (items run.new)) }
    ensures valuation { OnOk result (run.new.ground.valuation ≡ run.old.ground.valuation) }
    ensures solves { OnOk result (Solves S.atoms S.added run.old run.new []) }
{
    run.selection
        .make_users(alloc, run.ground.abstraction.len())?;
    place_new(
        &mut run.selection,
        &run.ground.literals,
        &run.ground.valuation,
    )?;
    // No value changed.
    let flips = FlipList::new(alloc);
    let entries = run.entries.clauses.len();
    run.log.push_solved(&flips, entries)?;
    Ok(())
}

/// Solves, and selects a true literal of each entry: those whose literals changed leave their index and wait again. The derivation
/// comes where there is no valuation.
pub fn settle<S: Solver, I: PartnerIndex>(
    alloc: Global,
    run: &mut Run<S, I>,
    partners: &mut Partners<I>,
) -> Result<Option<Derivation>, Memory>
    requires safe { IsConsistent S.atoms I.pairs I.fits run.old }
    requires partners { ArePartners I.pairs I.fits run.old partners.old }
    requires tended { AreTended I.pairs run.old partners.old }
    requires users { AreUsers run.old.ground.literals run.old.selection }
    requires running { IsSomeRun S.atoms S.added run.old }
    ensures safe { OnOk result (IsConsistent S.atoms I.pairs I.fits run.new) }
    ensures partners { OnOk result (ArePartners I.pairs I.fits run.new partners.new) }
    ensures tended { OnOk result (AreTended I.pairs run.new partners.new) }
    ensures users { OnOk result (AreUsers run.new.ground.literals run.new.selection) }
    ensures entries { OnOk result (items run.new ≡ items run.old) }
    ensures bank { OnOk result (run.new.entries.bank ≡ run.old.entries.bank) }
    ensures placed { IfOk result (λ r. IfNone r (length run.new.selection.places ≡ length (items run.new))) }
    ensures solved { IfOk result (λ r. IfNone r (KeepsTruth S.atoms S.added run.old run.new)) }
    ensures running { OnOk result ((cs : List TreeClause) (budget : ℕ) → IsRunningFor S.atoms S.added run.old cs budget → IsRunningFor S.atoms S.added run.new cs budget) }
    ensures kept { OnOk result ((bot : Sym) (cs : List TreeClause) (budget : ℕ) → IsRunningWith S.atoms S.added run.old bot cs budget → IsRunningWith S.atoms S.added run.new bot cs budget) }
    ensures refuted { IfOk result (λ r. IfSome r (λ d. Refutes (S.atoms run.new.ground.solver) (S.added run.new.ground.solver) [] [] d)) }
{
    let count = run.selection.len();
    match ask(
        &mut run.ground.solver,
        &run.ground.literals,
        count,
        &run.ground.valuation,
    )? {
        None => {
            stay(alloc, run, partners)?;
            Ok(None)
        }
        Some(Answer::Sat(v)) => {
            accept(alloc, run, partners, v)?;
            Ok(None)
        }
        Some(Answer::Unsat { derivation, .. }) => Ok(Some(derivation)),
    }
}
