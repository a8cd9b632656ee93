// The outer loop: solve, and work on entries that wait until enough were picked and one was appended.
ghost use Rattle.std.specs.Prelude.{◌≡◌, [], None, false, length, IfOk, OnOk};
ghost use Rattle.inst_logic.specs.declared.symbol.Sym.{Sym};
ghost use Rattle.term_bank.specs.Forest.{Extends};
ghost use Rattle.inst_logic.specs.WellFormed.{AreFormedClauses};
ghost use Rattle.prop_logic.specs.Solving.{Refutes};
ghost use Rattle.instgen_run.specs.Loops.{IsConsistent, items, ArePartners};
ghost use Rattle.instgen_run.specs.Selections.{AreUsers};
ghost use Rattle.instgen_run.specs.Tended.{AreTended};
ghost use Rattle.instgen_loop.specs.Tasks.{all_clauses};
ghost use Rattle.instgen_loop.specs.Stops.{IfFinished, IfRefuted, IsNotGivenUp};
ghost use Rattle.instgen_run.specs.Running.{IsRunningFor, IsRunningWith, IsSolvedFor};

use crate::task::Task;
use inst_logic::Memory;
use instgen_run::settle::settle;
use instgen_run::{Partners, Run, work_queue};
use prop_logic::{Derivation, Solver};
use std::alloc::Global;
use term_index::PartnerIndex;

// How many picks come before the next solve. What a solve learned by conflicts is worth some work, so that solves which are dear
// come less often; the factor hardly matters. An entry that was appended since the last solve is often false at first, which is a
// conflict by itself and says nothing of the search: so many are not counted.
fn picks_after(conflicts: u64, appended: usize) -> u64 {
    conflicts
        .saturating_sub(appended as u64)
        .saturating_mul(2)
        .saturating_add(1)
}

/// How a run ends.
#[derive(Drop)]
pub enum Stop {
    /// The abstractions are refuted.
    Refuted(Derivation),
    /// Nothing waits any more, and each entry has a true literal selected.
    Finished,
    /// There are more entries than the run may have.
    GivenUp,
}

// Whether so many entries are more than the run may have.
fn is_beyond(entries: usize, most_entries: Option<usize>) -> bool
    ensures { most_entries ≡ None → result ≡ false }
{
    match most_entries {
        Some(most) => entries > most,
        None => false,
    }
}

/// Solves and works by turns until the abstractions are refuted, or nothing waits any more and each entry has a true literal
/// selected, or there are more than `most_entries` after a solve.
pub fn cycle<S: Solver, I: PartnerIndex>(
    alloc: Global,
    run: &mut Run<S, I>,
    partners: &mut Partners<I>,
    _task: &Task<'_>,
    most_entries: Option<usize>,
) -> Result<Stop, Memory>
    requires safe { IsConsistent S.atoms I.pairs I.fits run.old }
    requires partners { ArePartners I.pairs I.fits run.old partners.old }
    requires tended { AreTended I.pairs run.old partners.old }
    requires users { AreUsers run.old.ground.literals run.old.selection }
    requires running { IsRunningFor S.atoms S.added run.old (all_clauses _task.now) _task.now.budget }
    requires formed { AreFormedClauses (all_clauses _task.now) }
    ensures safe { OnOk result (IsConsistent S.atoms I.pairs I.fits run.new) }
    ensures partners { OnOk result (ArePartners I.pairs I.fits run.new partners.new) }
    ensures tended { OnOk result (AreTended I.pairs run.new partners.new) }
    ensures users { OnOk result (AreUsers run.new.ground.literals run.new.selection) }
    ensures running { OnOk result (IsRunningFor S.atoms S.added run.new (all_clauses _task.now) _task.now.budget) }
    ensures bank { OnOk result (Extends run.old.entries.bank run.new.entries.bank) }
    ensures kept { OnOk result ((bot : Sym) → IsRunningWith S.atoms S.added run.old bot (all_clauses _task.now) _task.now.budget → IsRunningWith S.atoms S.added run.new bot (all_clauses _task.now) _task.now.budget) }
    ensures rests { IfOk result (λ s. IfFinished s ((run.new.queue.items ≡ []) × (length run.new.selection.places ≡ length (items run.new)) × IsSolvedFor S.atoms S.added run.new (all_clauses _task.now) _task.now.budget)) }
    ensures refuted { IfOk result (λ s. IfRefuted s (λ d. Refutes (S.atoms run.new.ground.solver) (S.added run.new.ground.solver) [] [] d)) }
    ensures unbounded { most_entries ≡ None → IfOk result IsNotGivenUp }
{
    loop {
        let appended = run
            .ground
            .literals
            .len()
            .saturating_sub(run.selection.len());
        let before = run.ground.solver.conflicts();
        match settle(alloc, run, partners)? {
            Some(derivation) => return Ok(Stop::Refuted(derivation)),
            None => {
                if is_beyond(run.entries.clauses.len(), most_entries) {
                    return Ok(Stop::GivenUp);
                }
                let conflicts = run.ground.solver.conflicts().saturating_sub(before);
                if !work_queue(alloc, run, partners, picks_after(conflicts, appended))? {
                    return Ok(Stop::Finished);
                }
            }
        }
    }
}
