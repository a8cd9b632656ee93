// Whether what was held back for want of budget is still open when the run rests.
ghost use Rattle.std.specs.Prelude.{◌≡◌, ◌<◌, ◌≤◌, ℕ, true, false, length, All, Some, IfOk, OnOk, slice_get};
ghost use Rattle.inst_logic.specs.Clauses.{instance};
ghost use Rattle.term_bank.specs.Forest.{clause_at};
ghost use Rattle.engine_laws.specs.Pairs.{IsStillSelected};
ghost use Rattle.unify_core.specs.declared.side.Side.TheVariants as sides;
ghost use Rattle.instgen_run.specs.Loops.{IsConsistent, IsUnified, items, held_of};
ghost use Rattle.instgen_run.specs.Running.{Reads, MayInfer, entries_of};
ghost use Rattle.instgen_run.specs.Deciding.{IsSomeConclusion, IsDecision, IsOneDecision, IsCoveredOrSize, IsLesser, held_value};

use crate::entries::is_covered;
use crate::infer::{clause_of, conclusion_of, conclusion_size, place_of};
use crate::premises::Premises;
use crate::state::Run;
use crate::work::selected_atom;
use inst_logic::Memory;
use prop_logic::Solver;
use std::alloc::Global;
use term_index::PartnerIndex;
use unify_core::Side;

// The smaller size, where there is one.
fn lesser(least: Option<u64>, size: Option<u64>) -> Option<u64>
    ensures { IsLesser least size result }
{
    match least {
        None => size,
        Some(m) => match size {
            None => Some(m),
            Some(n) => Some(if n < m { n } else { m }),
        },
    }
}

// Whether both literals are selected.
fn is_still_selected<S: Solver, I: PartnerIndex>(run: &Run<S, I>, held: Premises) -> bool
    requires from { (0 < held.from) × (held.from ≤ length run.now.selection.places) }
    requires partner { (0 < held.partner) × (held.partner ≤ length run.now.selection.places) }
    ensures yes { result ≡ true → IsStillSelected run.now.selection.places (held_value held) }
    ensures no { result ≡ false → ¬ IsStillSelected run.now.selection.places (held_value held) }
{
    if place_of(run, held.from as usize) != held.place as usize {
        return false;
    }
    place_of(run, held.partner as usize) == held.other as usize
}

// The size of what entry `from` gives under the bindings, where the entries do not cover it.
fn uncovered_size<S: Solver, I: PartnerIndex>(
    alloc: Global,
    run: &mut Run<S, I>,
    from: usize,
) -> Result<Option<u64>, Memory>
    requires safe { IsConsistent S.atoms I.pairs I.fits run.old }
    requires from { (0 < from) × (from ≤ length run.old.selection.places) }
    requires unified { IsUnified run.old.entries.bank run.old.bindings.entries }
    ensures safe { OnOk result (IsConsistent S.atoms I.pairs I.fits run.new) }
    ensures reads { OnOk result (Reads run.old run.new) }
    ensures size { IfOk result (λ o. (partner : ℕ) (m : MayInfer run.old sides.Left from partner)
        → IsCoveredOrSize run.new (clause_at run.old.entries.bank m.0.literals.left_at.item.0) (instance m.0.unifier.left (clause_at run.old.entries.bank m.0.literals.left_at.item.0)) o) }
{
    let size = conclusion_size(run, Side::Left, from)?;
    let conclusion = conclusion_of(run, Side::Left, from)?;
    let len = clause_of(run, from).len();
    if is_covered(alloc, &run.entries, &conclusion, len, &mut run.scratch)? {
        Ok(None)
    } else {
        Ok(Some(size))
    }
}

// What was held back after `k` others.
fn held_at<S: Solver, I: PartnerIndex>(run: &Run<S, I>, k: usize) -> Premises
    requires { k < length run.now.held.items }
    ensures { slice_get run.now.held.items k ≡ Some result }
{
    run.held[k]
}

// The size of the conclusion that was held back, where it is still open.
fn decide_one<S: Solver, I: PartnerIndex>(
    alloc: Global,
    run: &mut Run<S, I>,
    held: Premises,
) -> Result<Option<u64>, Memory>
    requires safe { IsConsistent S.atoms I.pairs I.fits run.old }
    requires whole { length run.old.selection.places ≡ length (items run.old) }
    requires held { IsSomeConclusion (entries_of run.old) (held_value held) }
    ensures safe { OnOk result (IsConsistent S.atoms I.pairs I.fits run.new) }
    ensures reads { OnOk result (Reads run.old run.new) }
    ensures decision { IfOk result (IsOneDecision run.new (held_value held)) }
{
    if !is_still_selected(run, held) {
        return Ok(None);
    }
    let a = selected_atom(run, held.from as usize);
    let b = selected_atom(run, held.partner as usize);
    if !run.bindings.unify(&run.entries.bank, a, b)? {
        return Ok(None);
    }
    let size = uncovered_size(alloc, run, held.from as usize)?;
    Ok(size)
}

/// The size of the smallest conclusion that was held back and is still open: both its literals are selected, and the entries do
/// not cover it. Sizes over the greatest number are cut there. Time: for each that was held back, one unification, one conclusion
/// and one search among the entries.
pub fn decide<S: Solver, I: PartnerIndex>(
    alloc: Global,
    run: &mut Run<S, I>,
) -> Result<Option<u64>, Memory>
    requires safe { IsConsistent S.atoms I.pairs I.fits run.old }
    requires whole { length run.old.selection.places ≡ length (items run.old) }
    requires held { All (IsSomeConclusion (entries_of run.old)) (held_of run.old) }
    ensures safe { OnOk result (IsConsistent S.atoms I.pairs I.fits run.new) }
    ensures reads { OnOk result (Reads run.old run.new) }
    ensures decision { IfOk result (IsDecision run.new) }
{
    let mut least = None;
    for k in 0..run.held.len() {
        let held = held_at(run, k);
        let size = decide_one(alloc, run, held)?;
        least = lesser(least, size);
    }
    Ok(least)
}
