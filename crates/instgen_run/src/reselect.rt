// Choosing again after a solve. Only the users of the atoms that changed may have lost their literal: they leave their index,
// choose another literal and wait again. Nothing is done for the others.
ghost use Rattle.std.specs.Prelude.{◌≡◌, ◌↔◌, ◌<◌, ◌≤◌, ◌∷◌, [], ℕ, List, length, true, All, Contains, Some, IfOk, OnOk};
ghost use Rattle.inst_logic.specs.declared.signed.Signed.{Signed};
ghost use Rattle.inst_logic.specs.Derivations.{at_number};
ghost use Rattle.instgen_select.specs.Queues.{numbers};
ghost use Rattle.instgen_run.specs.Loops.{IsConsistent, ArePartners, items};
ghost use Rattle.instgen_run.specs.Tended.{indexed_of};
ghost use Rattle.instgen_run.specs.Choosing.{IsUnderWay, IsChoice};
ghost use Rattle.instgen_run.specs.Settling.{AreSelectable, IsOrderly, Reselects, Requeues};

use crate::ground::clause_after;
use crate::infer::clause_of;
use crate::queue::{Partners, is_positive};
use crate::selection::{Chosen, chosen_literal};
use crate::state::{Run, variable_count};
use crate::work::selected_atom;
use clause_form::clause_size;
use compact_lists::{FlatClauses, PackedLit};
use inst_logic::Memory;
use prop_logic::{Solver, Valuation};
use std::alloc::Global;
use term_index::PartnerIndex;

/// The numbered literals of entry `n`.
pub fn numbered_clause(literals: &FlatClauses, n: usize) -> &[PackedLit]
    requires { (0 < n) × (n ≤ length literals.now) }
    ensures { at_number literals.now n ≡ Some result.now }
{
    clause_after(literals, n - 1)
}

// Removes the entry from the index of its literal's sign, and answers whether it was there.
fn remove<S: Solver, I: PartnerIndex>(
    run: &Run<S, I>,
    partners: &mut Partners<I>,
    n: usize,
) -> Result<bool, Memory>
    requires safe { IsConsistent S.atoms I.pairs I.fits run.now }
    requires within { (0 < n) × (n ≤ length run.now.selection.places) }
    requires partners { ArePartners I.pairs I.fits run.now partners.old }
    ensures partners { OnOk result (ArePartners I.pairs I.fits run.now partners.new) }
    ensures stays { OnOk result ((m : ℕ) → Contains (indexed_of I.pairs partners.new) m ↔ (Contains (indexed_of I.pairs partners.old) m × (¬ (m ≡ n)))) }
    ensures there { IfOk result (λ r. r ≡ true → Contains (indexed_of I.pairs partners.old) n) }
    ensures absent { IfOk result (λ r. Contains (indexed_of I.pairs partners.old) n → r ≡ true) }
{
    let atom = selected_atom(run, n);
    if is_positive(run, n) {
        partners.positive.remove(&run.entries.bank, atom, n)
    } else {
        partners.negative.remove(&run.entries.bank, atom, n)
    }
}

// Puts the entry into the queue, where it was removed from its index.
fn requeue<S: Solver, I: PartnerIndex>(
    run: &mut Run<S, I>,
    n: usize,
    removed: bool,
) -> Result<(), Memory>
    requires safe { IsConsistent S.atoms I.pairs I.fits run.old }
    requires within { (0 < n) × (n ≤ length (items run.old)) }
    ensures { OnOk result (Requeues run.old run.new n removed) }
{
    if removed {
        let size = clause_size(&run.entries.bank, clause_of(run, n));
        let variables = variable_count(&run.entries.bank, clause_of(run, n));
        run.queue.put(n, size, variables)?;
    }
    Ok(())
}

// The entry leaves its index, and waits again where it was there.
fn withdraw<S: Solver, I: PartnerIndex>(
    run: &mut Run<S, I>,
    partners: &mut Partners<I>,
    n: usize,
) -> Result<(), Memory>
    requires orderly { IsOrderly S.atoms I.pairs I.fits run.old partners.old }
    requires within { (0 < n) × (n ≤ length run.old.selection.places) }
    ensures orderly { OnOk result (IsOrderly S.atoms I.pairs I.fits run.new partners.new) }
    ensures absent { OnOk result (¬ Contains (indexed_of I.pairs partners.new) n) }
    ensures rest { OnOk result (run.new ≡ record run.old { queue = run.new.queue }) }
{
    let removed = remove(run, partners, n)?;
    requeue(run, n, removed)?;
    Ok(())
}

// The literal that entry `n` chooses.
fn choice_of<S: Solver, I: PartnerIndex>(run: &Run<S, I>, v: &Valuation, n: usize) -> Chosen
    requires safe { IsConsistent S.atoms I.pairs I.fits run.now }
    requires selectable { AreSelectable run.now v.now }
    requires within { (0 < n) × (n ≤ length run.now.selection.places) }
    ensures { (clause : List (Signed ℕ)) × (at_number run.now.ground.literals n ≡ Some clause) × IsChoice clause v.now result.place result.atom }
{
    let old = run.selection.place_of(n);
    chosen_literal(Some(old), numbered_clause(&run.ground.literals, n), v)
}

// Entry `n` chooses again.
fn reselect<S: Solver, I: PartnerIndex>(
    run: &mut Run<S, I>,
    partners: &mut Partners<I>,
    v: &Valuation,
    n: usize,
) -> Result<(), Memory>
    requires orderly { IsOrderly S.atoms I.pairs I.fits run.old partners.old }
    requires selectable { AreSelectable run.old v.now }
    requires within { (0 < n) × (n ≤ length run.old.selection.places) }
    ensures orderly { OnOk result (IsOrderly S.atoms I.pairs I.fits run.new partners.new) }
    ensures selectable { OnOk result (AreSelectable run.new v.now) }
    ensures reselects { OnOk result (Reselects run.old run.new) }
    ensures chosen { OnOk result ((left rest : List ℕ) → IsUnderWay run.old.ground.literals v.now left (n ∷ rest) run.old.selection
        → IsUnderWay run.old.ground.literals v.now left rest run.new.selection) }
{
    let chosen = choice_of(run, v, n);
    withdraw(run, partners, n)?;
    run.selection.select(n, chosen)?;
    Ok(())
}

// Each of the entries chooses again.
fn reselect_each<S: Solver, I: PartnerIndex>(
    run: &mut Run<S, I>,
    partners: &mut Partners<I>,
    v: &Valuation,
    entries: &[u32],
) -> Result<(), Memory>
    requires orderly { IsOrderly S.atoms I.pairs I.fits run.old partners.old }
    requires selectable { AreSelectable run.old v.now }
    requires within { All (λ n. (0 < n) × (n ≤ length run.old.selection.places)) entries.now }
    ensures orderly { OnOk result (IsOrderly S.atoms I.pairs I.fits run.new partners.new) }
    ensures selectable { OnOk result (AreSelectable run.new v.now) }
    ensures reselects { OnOk result (Reselects run.old run.new) }
    ensures chosen { OnOk result ((left : List ℕ) → IsUnderWay run.old.ground.literals v.now left entries.now run.old.selection
        → IsUnderWay run.old.ground.literals v.now left [] run.new.selection) }
{
    for n in entries {
        reselect(run, partners, v, *n as usize)?;
    }
    Ok(())
}

// The users of the atom choose again.
fn reselect_users<S: Solver, I: PartnerIndex>(
    alloc: Global,
    run: &mut Run<S, I>,
    partners: &mut Partners<I>,
    v: &Valuation,
    atom: usize,
) -> Result<(), Memory>
    requires orderly { IsOrderly S.atoms I.pairs I.fits run.old partners.old }
    requires selectable { AreSelectable run.old v.now }
    requires atom { atom < length run.old.selection.users }
    ensures orderly { OnOk result (IsOrderly S.atoms I.pairs I.fits run.new partners.new) }
    ensures selectable { OnOk result (AreSelectable run.new v.now) }
    ensures reselects { OnOk result (Reselects run.old run.new) }
    ensures chosen { OnOk result ((left : List ℕ) → IsUnderWay run.old.ground.literals v.now (atom ∷ left) [] run.old.selection
        → IsUnderWay run.old.ground.literals v.now left [] run.new.selection) }
{
    let users = run.selection.take_users(alloc, atom);
    reselect_each(run, partners, v, users.as_slice())?;
    Ok(())
}

/// The users of the atoms that changed choose again: those and no others may have false literals.
pub fn reselect_all<S: Solver, I: PartnerIndex>(
    alloc: Global,
    run: &mut Run<S, I>,
    partners: &mut Partners<I>,
    v: &Valuation,
    atoms: &[usize],
) -> Result<(), Memory>
    requires orderly { IsOrderly S.atoms I.pairs I.fits run.old partners.old }
    requires selectable { AreSelectable run.old v.now }
    requires atoms { All (λ a. a < length run.old.selection.users) atoms.now }
    ensures orderly { OnOk result (IsOrderly S.atoms I.pairs I.fits run.new partners.new) }
    ensures selectable { OnOk result (AreSelectable run.new v.now) }
    ensures reselects { OnOk result (Reselects run.old run.new) }
    ensures chosen { OnOk result (IsUnderWay run.old.ground.literals v.now atoms.now [] run.old.selection
        → IsUnderWay run.old.ground.literals v.now [] [] run.new.selection) }
{
    for a in atoms {
        reselect_users(alloc, run, partners, v, *a)?;
    }
    Ok(())
}
