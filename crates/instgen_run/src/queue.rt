// The work on the entries that wait.
ghost use Rattle.std.specs.Prelude.{◌≡◌, ◌<◌, ◌≤◌, [], ◌⊎◌, ◌↔◌, ◌++◌, ℕ, List, true, false, length, All, Contains, IfOk, OnOk};
ghost use Rattle.inst_logic.specs.declared.signed.Signed.{Signed};
ghost use Rattle.term_bank.specs.Forest.{Extends};
ghost use Rattle.instgen_select.specs.Queues.{numbers};
ghost use Rattle.instgen_run.specs.Loops.{IsConsistent, Goes, items, ArePartners, AreWaiting, AreReady, IsSigned, IsPairWorked, held_of};
ghost use Rattle.engine_laws.specs.Pairs.{AreWorked};
ghost use Rattle.instgen_run.specs.Running.{KeepsRunning, entries_of};
ghost use Rattle.instgen_run.specs.Tended.{AreTended, indexed_of};

use crate::infer::{clause_of, literal_at, place_of};
use crate::state::Run;
use crate::work::{selected_atom, work_with};
use inst_logic::Memory;
use prop_logic::Solver;
use std::alloc::Global;
use term_index::PartnerIndex;

/// The indexes of the selected literals of each sign.
#[derive(Drop)]
pub struct Partners<I: PartnerIndex> {
    pub positive: I,
    pub negative: I,
}

/// Whether the selected literal of entry `n` is positive.
pub fn is_positive<S: Solver, I: PartnerIndex>(run: &Run<S, I>, n: usize) -> bool
    requires safe { IsConsistent S.atoms I.pairs I.fits run.now }
    requires within { (0 < n) × (n ≤ length run.now.selection.places) }
    ensures { IsSigned run.now n result }
{
    let place = place_of(run, n);
    literal_at(clause_of(run, n).as_slice(), place).positive
}

// Works an entry with those of the other sign.
fn work_entry<S: Solver, I: PartnerIndex>(
    alloc: Global,
    run: &mut Run<S, I>,
    partners: &Partners<I>,
    n: usize,
) -> Result<(), Memory>
    requires safe { IsConsistent S.atoms I.pairs I.fits run.old }
    requires within { (0 < n) × (n ≤ length run.old.selection.places) }
    requires partners { ArePartners I.pairs I.fits run.old partners.now }
    requires worked { AreWorked (entries_of run.old) run.old.selection.places (held_of run.old) (indexed_of I.pairs partners.now) }
    ensures safe { OnOk result (IsConsistent S.atoms I.pairs I.fits run.new) }
    ensures goes { OnOk result (Goes run.old run.new) }
    ensures running { OnOk result (KeepsRunning S.atoms S.added run.old run.new) }
    ensures worked { OnOk result ((m : ℕ) → Contains (indexed_of I.pairs partners.now) m → IsPairWorked run.new n m) }
{
    if is_positive(run, n) {
        work_with(alloc, run, &partners.positive, &partners.negative, n)
    } else {
        work_with(alloc, run, &partners.negative, &partners.positive, n)
    }
}

// Stores the selected atom of an entry, under its number, with those of its sign.
fn store<S: Solver, I: PartnerIndex>(
    run: &Run<S, I>,
    partners: &mut Partners<I>,
    n: usize,
) -> Result<(), Memory>
    requires safe { IsConsistent S.atoms I.pairs I.fits run.now }
    requires within { (0 < n) × (n ≤ length run.now.selection.places) }
    requires partners { ArePartners I.pairs I.fits run.now partners.old }
    requires absent { ¬ Contains (indexed_of I.pairs partners.old) n }
    ensures partners { OnOk result (ArePartners I.pairs I.fits run.now partners.new) }
    ensures stored { OnOk result ((m : ℕ) → Contains (indexed_of I.pairs partners.new) m ↔ ((m ≡ n) ⊎ Contains (indexed_of I.pairs partners.old) m)) }
{
    let atom = selected_atom(run, n);
    if is_positive(run, n) {
        partners.positive.insert(&run.entries.bank, atom, n)?;
        Ok(())
    } else {
        partners.negative.insert(&run.entries.bank, atom, n)?;
        Ok(())
    }
}

fn has_grown(before: usize, now: usize) -> bool
    ensures yes { result ≡ true → before < now }
    ensures no { result ≡ false → now ≤ before }
{
    before < now
}

// How many picks are left after one. None is where the empty clause is an entry: it covers whatever is inferred.
fn picks_left(left: u64, has_empty: bool) -> u64 {
    if has_empty { 0 } else { left.saturating_sub(1) }
}

// Whether the picks are made and an entry was appended.
fn is_done(left: u64, before: usize, now: usize) -> bool
    ensures { result ≡ true → before < now }
{
    left == 0 && has_grown(before, now)
}

// Works `picks` entries that wait, or more until one is appended, and stores what was worked. It ends where none is left of those
// that have a place. False comes where none was appended.
fn work_ready<S: Solver, I: PartnerIndex>(
    alloc: Global,
    run: &mut Run<S, I>,
    partners: &mut Partners<I>,
    picks: u64,
) -> Result<bool, Memory>
    requires safe { IsConsistent S.atoms I.pairs I.fits run.old }
    requires ready { AreReady run.old }
    requires all { run.old.queue.ready ≡ run.old.queue.items }
    requires partners { ArePartners I.pairs I.fits run.old partners.old }
    requires tended { AreTended I.pairs run.old partners.old }
    ensures safe { OnOk result (IsConsistent S.atoms I.pairs I.fits run.new) }
    ensures partners { OnOk result (ArePartners I.pairs I.fits run.new partners.new) }
    ensures tended { OnOk result (AreTended I.pairs run.new partners.new) }
    ensures running { OnOk result (KeepsRunning S.atoms S.added run.old run.new) }
    ensures bank { OnOk result (Extends run.old.entries.bank run.new.entries.bank) }
    ensures appended { IfOk result (λ r. r ≡ true → length (items run.old) < length (items run.new)) }
    ensures selection { OnOk result (run.new.selection ≡ run.old.selection) }
    ensures literals { OnOk result ((more : List (List (Signed ℕ))) × (run.new.ground.literals ≡ run.old.ground.literals ++ more)) }
    ensures none_waits { IfOk result (λ r. r ≡ false → (run.new.queue.items ≡ []) × (length (items run.new) ≡ length (items run.old))) }
{
    let before = run.entries.clauses.len();
    let mut left = picks;
    loop {
        match run.queue.pick() {
            None => return Ok(has_grown(before, run.entries.clauses.len())),
            Some(n) => {
                work_entry(alloc, run, partners, n)?;
                store(run, partners, n)?;
                left = picks_left(left, run.entries.has_empty);
                if is_done(left, before, run.entries.clauses.len()) {
                    return Ok(true);
                }
            }
        }
    }
}

/// Lets in what came before the last solve, and works the entries that wait: `picks` of them, or more until one is appended. What is
/// appended waits for the next solve. What was worked is stored. False comes where none was appended and none waits any more.
pub fn work_queue<S: Solver, I: PartnerIndex>(
    alloc: Global,
    run: &mut Run<S, I>,
    partners: &mut Partners<I>,
    picks: u64,
) -> Result<bool, Memory>
    requires safe { IsConsistent S.atoms I.pairs I.fits run.old }
    requires waiting { AreWaiting run.old }
    requires partners { ArePartners I.pairs I.fits run.old partners.old }
    requires tended { AreTended I.pairs run.old partners.old }
    ensures safe { OnOk result (IsConsistent S.atoms I.pairs I.fits run.new) }
    ensures partners { OnOk result (ArePartners I.pairs I.fits run.new partners.new) }
    ensures tended { OnOk result (AreTended I.pairs run.new partners.new) }
    ensures running { OnOk result (KeepsRunning S.atoms S.added run.old run.new) }
    ensures bank { OnOk result (Extends run.old.entries.bank run.new.entries.bank) }
    ensures appended { IfOk result (λ r. r ≡ true → length (items run.old) < length (items run.new)) }
    ensures selection { OnOk result (run.new.selection ≡ run.old.selection) }
    ensures literals { OnOk result ((more : List (List (Signed ℕ))) × (run.new.ground.literals ≡ run.old.ground.literals ++ more)) }
    ensures none_waits { IfOk result (λ r. r ≡ false → (run.new.queue.items ≡ []) × (length (items run.new) ≡ length (items run.old))) }
{
    run.queue.admit()?;
    let appended = work_ready(alloc, run, partners, picks)?;
    Ok(appended)
}
