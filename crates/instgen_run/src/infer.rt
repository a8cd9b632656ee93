// What two entries infer: the conclusion is held back, is covered, or is appended, whole or a part of it.
ghost use Rattle.std.specs.Prelude.{◌≡◌, ◌<◌, ◌≤◌, ◌-◌, ℕ, true, false, length, min, take, Contains, Some, IfOk, IfSome, IfNone, OnOk, option_map};
ghost use Rattle.inst_logic.specs.Derivations.{at_number};
ghost use Rattle.inst_logic.specs.Unifiers.{Sided};
ghost use Rattle.inst_logic.specs.Clauses.{TreeClause, IsCanonical, canonical_form};
ghost use Rattle.inst_logic.specs.Measure.{clause_size};
ghost use Rattle.inst_calculus.specs.Lemmas.{IsIrreducible};
ghost use Rattle.inst_calculus.specs.Parts.{AreWithin, IsProperPart, chosen};
ghost use Rattle.inst_calculus.specs.Saturation.{IsCovered};
ghost use Rattle.global_subs.specs.Reductions.{IsReduction};
ghost use Rattle.term_bank.specs.Forest.{IsClauseOf, clause_at};
ghost use Rattle.unify_core.specs.Sides.{IsResolvedBy, of_side};
ghost use Rattle.unify_core.specs.Sizes.{IsSizeUnder};
ghost use Rattle.cert_values.specs.Wholes.{IsWholeClause};
ghost use Rattle.instgen_run.specs.Clauses.{Item, clauses_in};
ghost use Rattle.instgen_run.specs.Loops.{IsConsistent, Goes, items, IsUnified, IsSideWorked, IsConclusionFor, KeepsLink};
ghost use Rattle.instgen_run.specs.Running.{Reads, Holds, AppendsWhole, AppendsPart, AppendsUncovered, MayInfer, KeepsRunning};

use crate::entries::is_covered;
use crate::origin::PackedOrigin;
use crate::premises::Premises;
use crate::state::{Run, append};
use clause_form::{canonical, clause_size};
use global_subs::{Lemma, reduce};
use inst_logic::{Memory, PlaceList};
use prop_logic::Solver;
use std::alloc::Global;
use term_bank::{Bank, IdClause, IdLiteral};
use term_index::PartnerIndex;
use unify_core::Side;

/// The place of entry `n`.
pub fn place_of<S: Solver, I: PartnerIndex>(run: &Run<S, I>, n: usize) -> usize
    requires { (0 < n) × (n ≤ length run.now.selection.places) }
    ensures { at_number run.now.selection.places n ≡ Some result }
{
    run.selection.place_of(n)
}

/// The clause of entry `n`.
pub fn clause_of<S: Solver, I: PartnerIndex>(run: &Run<S, I>, n: usize) -> &IdClause
    requires { (0 < n) × (n ≤ length (items run.now)) }
    ensures { (item : Item) × (at_number (items run.now) n ≡ Some item) × (item.0 ≡ result.now) }
{
    match run.entries.clauses.get_index(n - 1) {
        Some((clause, _)) => clause,
        None => unreachable!(),
    }
}

/// The literal at the place.
pub fn literal_at(clause: &[IdLiteral], place: usize) -> IdLiteral
    requires { (0 < place) × (place ≤ length clause.now) }
    ensures { at_number clause.now place ≡ Some result }
{
    clause[place - 1]
}

// Whether a conclusion of this size fits into what is left.
fn fits(left: Option<u64>, size: u64) -> bool
    ensures yes { result ≡ true → IfSome left (λ k. size ≤ k) }
    ensures no { result ≡ false → (k : ℕ) × (left ≡ Some k) × (k < size) }
{
    match left {
        Some(left) => size <= left,
        None => true,
    }
}

// What is left after a conclusion of this size.
fn budget_after(left: Option<u64>, size: u64) -> Option<u64>
    requires { IfSome left (λ k. size ≤ k) }
    ensures { result ≡ option_map (λ k. k - size) left }
{
    match left {
        Some(left) => Some(left - size),
        None => None,
    }
}

// What is left after the clause is appended.
fn left_after(left: Option<u64>, bank: &Bank, clause: &IdClause) -> Option<u64>
    requires { IsClauseOf bank.now clause.now }
    ensures { result ≡ option_map (λ k. k - min (clause_size (clause_at bank.now clause.now)) u64.MAX) left }
{
    match left {
        Some(left) => Some(left.saturating_sub(clause_size(bank, clause))),
        None => None,
    }
}

/// The literals at these places.
pub fn kept_literals(
    alloc: Global,
    literals: &[IdLiteral],
    keep: &PlaceList,
) -> Result<IdClause, Memory>
    requires { AreWithin (length literals.now) keep.now }
    ensures { IfOk result (λ c. c ≡ chosen literals.now keep.now) }
{
    let mut kept = IdClause::new(alloc);
    for place in keep.as_slice() {
        kept.push(literal_at(literals, *place))?;
    }
    Ok(kept)
}

/// The size of what entry `from` gives under the bindings, repeats dropped.
pub fn conclusion_size<S: Solver, I: PartnerIndex>(
    run: &mut Run<S, I>,
    side: Side,
    from: usize,
) -> Result<u64, Memory>
    requires safe { IsConsistent S.atoms I.pairs I.fits run.old }
    requires within { (0 < from) × (from ≤ length run.old.selection.places) }
    requires unified { IsUnified run.old.entries.bank run.old.bindings.entries }
    ensures safe { IsConsistent S.atoms I.pairs I.fits run.new }
    ensures goes { Goes run.old run.new }
    ensures bindings { run.new.bindings.entries ≡ run.old.bindings.entries }
    ensures left { run.new.left ≡ run.old.left }
    ensures reads { Reads run.old run.new }
    ensures size { IfOk result (λ n. (item : Item) × (at_number (items run.new) from ≡ Some item) × IsSizeUnder run.new.entries.bank run.new.bindings.entries side item.0 u64.MAX n) }
{
    match run.entries.clauses.get_index(from - 1) {
        Some((clause, _)) => run.bindings.size_under(&run.entries.bank, side, clause),
        None => unreachable!(),
    }
}

// The size of the conclusion where a budget applies; without one nothing is measured.
fn budgeted_size<S: Solver, I: PartnerIndex>(
    run: &mut Run<S, I>,
    side: Side,
    from: usize,
) -> Result<u64, Memory>
    requires safe { IsConsistent S.atoms I.pairs I.fits run.old }
    requires within { (0 < from) × (from ≤ length run.old.selection.places) }
    requires unified { IsUnified run.old.entries.bank run.old.bindings.entries }
    ensures safe { IsConsistent S.atoms I.pairs I.fits run.new }
    ensures goes { Goes run.old run.new }
    ensures bindings { run.new.bindings.entries ≡ run.old.bindings.entries }
    ensures left { run.new.left ≡ run.old.left }
    ensures reads { Reads run.old run.new }
    ensures size { IfOk result (λ n. (k : ℕ) → run.new.left ≡ Some k → (item : Item) × (at_number (items run.new) from ≡ Some item) × IsSizeUnder run.new.entries.bank run.new.bindings.entries side item.0 u64.MAX n) }
{
    match run.left {
        None => Ok(0),
        Some(_) => conclusion_size(run, side, from),
    }
}

/// What entry `from` gives under the bindings, in canonical form.
pub fn conclusion_of<S: Solver, I: PartnerIndex>(
    run: &mut Run<S, I>,
    side: Side,
    from: usize,
) -> Result<IdClause, Memory>
    requires safe { IsConsistent S.atoms I.pairs I.fits run.old }
    requires within { (0 < from) × (from ≤ length run.old.selection.places) }
    requires unified { IsUnified run.old.entries.bank run.old.bindings.entries }
    ensures safe { OnOk result (IsConsistent S.atoms I.pairs I.fits run.new) }
    ensures goes { OnOk result (Goes run.old run.new) }
    ensures bindings { run.new.bindings.entries ≡ run.old.bindings.entries }
    ensures left { run.new.left ≡ run.old.left }
    ensures reads { OnOk result (Reads run.old run.new) }
    ensures whole { IfOk result (IsWholeClause run.new.entries.bank) }
    ensures canonical { IfOk result (λ d. IsCanonical (clause_at run.new.entries.bank d)) }
    ensures made { IfOk result (IsConclusionFor run.old run.new side from) }
{
    match run.entries.clauses.get_index(from - 1) {
        Some((clause, _)) => {
            let scratch = &mut run.scratch;
            scratch.conclude_clause(&mut run.entries.bank, &run.bindings, side, clause)
        }
        None => unreachable!(),
    }
}

// Holds back the conclusion of the two entries.
fn hold<S: Solver, I: PartnerIndex>(
    run: &mut Run<S, I>,
    from: usize,
    partner: usize,
) -> Result<(), Memory>
    requires safe { IsConsistent S.atoms I.pairs I.fits run.old }
    requires from { (0 < from) × (from ≤ length run.old.selection.places) }
    requires partner { (0 < partner) × (partner ≤ length run.old.selection.places) }
    ensures safe { OnOk result (IsConsistent S.atoms I.pairs I.fits run.new) }
    ensures goes { OnOk result (Goes run.old run.new) }
    ensures bindings { run.new.bindings.entries ≡ run.old.bindings.entries }
    ensures holds { OnOk result (Holds run.old run.new from partner) }
    ensures worked { OnOk result ((s : Sided) (side : Side) → IsSideWorked run.new (of_side s side) from partner) }
{
    let held = Premises::new(from, place_of(run, from), partner, place_of(run, partner))?;
    run.held.push(held)?;
    Ok(())
}

// The part of the conclusion that the entries imply.
fn lemma_of<S: Solver, I: PartnerIndex>(
    run: &mut Run<S, I>,
    conclusion: &IdClause,
) -> Result<Option<Lemma>, Memory>
    requires safe { IsConsistent S.atoms I.pairs I.fits run.old }
    requires clause { IsClauseOf run.old.entries.bank conclusion.now }
    ensures same { OnOk result (run.new ≡ run.old) }
    ensures some { IfOk result (λ o. IfSome o (IsReduction (clauses_in run.old.entries.bank (items run.old)) (clause_at run.old.entries.bank conclusion.now))) }
    ensures none { IfOk result (λ o. IfNone o (IsIrreducible (clauses_in run.old.entries.bank (items run.old)) (clause_at run.old.entries.bank conclusion.now))) }
{
    reduce(&mut run.known, &run.entries.bank, conclusion)
}

// The literals of the conclusion at the places that are kept, in canonical form.
fn part_of<S: Solver, I: PartnerIndex>(
    alloc: Global,
    run: &mut Run<S, I>,
    conclusion: &IdClause,
    keep: &PlaceList,
) -> Result<IdClause, Memory>
    requires safe { IsConsistent S.atoms I.pairs I.fits run.old }
    requires whole { IsWholeClause run.old.entries.bank conclusion.now }
    requires keep { IsProperPart (length conclusion.now) keep.now }
    ensures safe { OnOk result (IsConsistent S.atoms I.pairs I.fits run.new) }
    ensures reads { OnOk result (Reads run.old run.new) }
    ensures bindings { OnOk result (run.new.bindings ≡ run.old.bindings) }
    ensures whole { IfOk result (IsWholeClause run.new.entries.bank) }
    ensures canonical { IfOk result (λ d. IsCanonical (clause_at run.new.entries.bank d)) }
    ensures part { IfOk result (λ d. clause_at run.new.entries.bank d ≡ canonical_form (chosen (clause_at run.old.entries.bank conclusion.now) keep.now)) }
{
    let kept = kept_literals(alloc, conclusion.as_slice(), keep)?;
    canonical(alloc, &mut run.entries.bank, &kept)
}

// A conclusion that the entries do not cover, in canonical form.
#[derive(Drop)]
struct UncoveredConclusion {
    clause: IdClause,
    at: Premises,
    /// How many literals entry `at.from` has.
    len: usize,
    /// What it takes of the budget, in symbols and variables.
    size: u64,
}

// Appends the conclusion.
fn append_whole<S: Solver, I: PartnerIndex>(
    run: &mut Run<S, I>,
    conclusion: UncoveredConclusion,
) -> Result<(), Memory>
    requires safe { IsConsistent S.atoms I.pairs I.fits run.old }
    requires whole { IsWholeClause run.old.entries.bank conclusion.clause }
    requires canonical { IsCanonical (clause_at run.old.entries.bank conclusion.clause) }
    requires new { (e : Item) → Contains (items run.old) e → ¬ (e.0 ≡ conclusion.clause) }
    requires bounded { length conclusion.clause ≤ run.old.entries.longest }
    requires irreducible { IsIrreducible (clauses_in run.old.entries.bank (items run.old)) (clause_at run.old.entries.bank conclusion.clause) }
    requires fits { IfSome run.old.left (λ k. conclusion.size ≤ k) }
    ensures safe { OnOk result (IsConsistent S.atoms I.pairs I.fits run.new) }
    ensures appends { OnOk result (AppendsWhole run.old run.new conclusion.clause conclusion.at conclusion.size) }
    ensures linked { OnOk result (KeepsLink S.atoms S.added run.old run.new) }
{
    let origin = PackedOrigin::inst(conclusion.at);
    run.left = budget_after(run.left, conclusion.size);
    append(run, conclusion.clause, origin)
}

// Appends the part of the conclusion that is a lemma of the entries. It takes its own size of the budget.
fn append_part<S: Solver, I: PartnerIndex>(
    alloc: Global,
    run: &mut Run<S, I>,
    conclusion: &UncoveredConclusion,
    lemma: Lemma,
) -> Result<(), Memory>
    requires safe { IsConsistent S.atoms I.pairs I.fits run.old }
    requires whole { IsWholeClause run.old.entries.bank conclusion.now.clause }
    requires reduction { IsReduction (clauses_in run.old.entries.bank (items run.old)) (clause_at run.old.entries.bank conclusion.now.clause) lemma }
    requires bounded { length conclusion.now.clause ≤ run.old.entries.longest }
    requires shorter { length conclusion.now.clause ≤ conclusion.now.len }
    requires uncovered { (c : TreeClause) → length c ≡ conclusion.now.len → ¬ IsCovered (clauses_in run.old.entries.bank (items run.old)) c (clause_at run.old.entries.bank conclusion.now.clause) }
    ensures safe { OnOk result (IsConsistent S.atoms I.pairs I.fits run.new) }
    ensures appends { OnOk result (AppendsPart run.old run.new conclusion.now.clause conclusion.now.at) }
    ensures linked { OnOk result (KeepsLink S.atoms S.added run.old run.new) }
{
    let part = part_of(alloc, run, &conclusion.clause, &lemma.keep)?;
    let origin = PackedOrigin::lemma(alloc, conclusion.at, lemma)?;
    run.left = left_after(run.left, &run.entries.bank, &part);
    append(run, part, origin)
}

// Appends the conclusion, or a part of it that the entries imply.
fn append_uncovered<S: Solver, I: PartnerIndex>(
    alloc: Global,
    run: &mut Run<S, I>,
    conclusion: UncoveredConclusion,
) -> Result<(), Memory>
    requires safe { IsConsistent S.atoms I.pairs I.fits run.old }
    requires whole { IsWholeClause run.old.entries.bank conclusion.clause }
    requires canonical { IsCanonical (clause_at run.old.entries.bank conclusion.clause) }
    requires new { (e : Item) → Contains (items run.old) e → ¬ (e.0 ≡ conclusion.clause) }
    requires uncovered { (c : TreeClause) → length c ≡ conclusion.len → ¬ IsCovered (clauses_in run.old.entries.bank (items run.old)) c (clause_at run.old.entries.bank conclusion.clause) }
    requires shorter { length conclusion.clause ≤ conclusion.len }
    requires premise { conclusion.len ≤ run.old.entries.longest }
    requires fits { IfSome run.old.left (λ k. conclusion.size ≤ k) }
    ensures safe { OnOk result (IsConsistent S.atoms I.pairs I.fits run.new) }
    ensures goes { OnOk result (Goes run.old run.new) }
    ensures bindings { OnOk result (run.new.bindings.entries ≡ run.old.bindings.entries) }
    ensures step { OnOk result (AppendsUncovered run.old run.new conclusion.clause conclusion.at conclusion.len conclusion.size) }
    ensures linked { OnOk result (KeepsLink S.atoms S.added run.old run.new) }
    ensures covered { OnOk result ((c : TreeClause) → length c ≡ conclusion.len → IsCovered (clauses_in run.new.entries.bank (items run.new)) c (clause_at run.old.entries.bank conclusion.clause)) }
{
    match lemma_of(run, &conclusion.clause)? {
        None => append_whole(run, conclusion),
        Some(lemma) => append_part(alloc, run, &conclusion, lemma),
    }
}

// Takes what was interned since the bank had so many terms out of it: nothing names a conclusion that is covered.
pub fn forget<S: Solver, I: PartnerIndex>(run: &mut Run<S, I>, len: usize)
    ensures trees { run.new.entries.bank.trees ≡ take len run.old.entries.bank.trees }
    ensures symbols { run.new.entries.bank.symbols ≡ run.old.entries.bank.symbols }
    ensures rest { run.new ≡ record run.old { entries = record run.old.entries { bank = run.new.entries.bank } } }
{
    run.entries.bank.truncate(len);
}

/// What entry `from` gives with entry `partner`, whose selected literals the bindings unify, is covered or held back afterwards.
pub fn infer<S: Solver, I: PartnerIndex>(
    alloc: Global,
    run: &mut Run<S, I>,
    side: Side,
    from: usize,
    partner: usize,
) -> Result<(), Memory>
    requires safe { IsConsistent S.atoms I.pairs I.fits run.old }
    requires from { (0 < from) × (from ≤ length run.old.selection.places) }
    requires partner { (0 < partner) × (partner ≤ length run.old.selection.places) }
    requires unified { IsUnified run.old.entries.bank run.old.bindings.entries }
    ensures safe { OnOk result (IsConsistent S.atoms I.pairs I.fits run.new) }
    ensures goes { OnOk result (Goes run.old run.new) }
    ensures bindings { OnOk result (run.new.bindings.entries ≡ run.old.bindings.entries) }
    ensures running { OnOk result (MayInfer run.old side from partner → KeepsRunning S.atoms S.added run.old run.new) }
    ensures worked { OnOk result ((s : Sided) → IsResolvedBy run.old.entries.bank run.old.bindings.entries s → IsSideWorked run.new (of_side s side) from partner) }
{
    let size = budgeted_size(run, side, from)?;
    if !fits(run.left, size) {
        hold(run, from, partner)?;
        return Ok(());
    }
    let terms = run.entries.bank.len();
    let conclusion = conclusion_of(run, side, from)?;
    let len = clause_of(run, from).len();
    let place = place_of(run, from);
    if is_covered(alloc, &run.entries, &conclusion, len, &mut run.scratch)? {
        forget(run, terms);
        return Ok(());
    }
    let other = place_of(run, partner);
    let at = Premises::new(from, place, partner, other)?;
    let uncovered = UncoveredConclusion {
        clause: conclusion,
        at,
        len,
        size,
    };
    append_uncovered(alloc, run, uncovered)?;
    Ok(())
}
