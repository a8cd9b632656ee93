// Analysis of conflicts, up to the first unique implication point (Marques-Silva and Sakallah, GRASP, 1999; Zhang and others,
// Efficient conflict driven learning in a Boolean satisfiability solver, 2001): one walk down the trail, from one marked
// literal to the next. A walk over all places would cost each conflict the length of the trail, where most literals have
// nothing to do with it. Literals of level 0 are resolved away, so no learned clause has one. The hints come out from the last
// to the first, and are turned round at the end.
ghost use Rattle.std.specs.Prelude.{◌≡◌, ℕ, ◌+◌, ◌++◌, ◌∷◌, [], ◌<◌, ◌≤◌, List, Bool, true, Some, Contains, IsTrue, length, slice_get, slice_set, IfOk, OnOk};
ghost use Rattle.inst_logic.specs.declared.signed.Signed.{Signed};
ghost use Rattle.inst_logic.specs.Signed.{complement};
ghost use Rattle.prop_logic.specs.declared.literal.Hint.{Hint};
ghost use Rattle.prop_logic.specs.Literal.{cited, AtomsBelow};
ghost use Rattle.cdcl_trail.specs.declared.entry.Entry.{Entry};
ghost use Rattle.cdcl_trail.specs.Trail.{IsTrail};
ghost use Rattle.cdcl_core.specs.Log.{IsNamed};
ghost use Rattle.cdcl_core.specs.Analysis.{IsMarked, AreCounted, AreWaiting, MarksToo, IsReady, IsBegun, Resolves, NamesFalse, IsMet, IsMetDecided, IsAnalysis, ShowsGiven};

use crate::log::Log;
use crate::packed_hint::PackedHint;
use crate::places::Places;
use crate::reasons::Reasons;
use crate::redundancy::all_follow;
use crate::seen::Seen;
use cdcl_trail::Trail;
use compact_lists::PackedLit;
use inst_logic::Memory;
use prop_logic::{Lit, complement};
use std::alloc::Global;

// A literal goes that follows by so many more clauses, one after the other. With more of them clauses get shorter, but each costs
// a hint.
const DEPTH: usize = 3;

// The marked literals that are still to be met: how many are of the present level, and the places of all.
#[derive(Drop)]
pub(crate) struct Waiting {
    pub(crate) present: usize,
    pub(crate) places: Places,
}

// The complements of the literals that stay, the hints in the reverse of the order in which they are resolved, and the places
// of the facts of level 0 among those that were resolved by clauses of more literals.
#[derive(Drop)]
pub(crate) struct Analysis {
    pub(crate) clause: Vec<Lit>,
    pub(crate) hints: Vec<PackedHint>,
    pub(crate) facts: Vec<usize>,
    pub(crate) waiting: Waiting,
}

// The literal at a place of the trail.
pub(crate) fn literal_at(trail: &Trail, place: usize) -> Lit
    requires { place < length trail.now.trail.entries }
    ensures literal { (e : Entry) → slice_get trail.now.trail.entries place ≡ Some e → result ≡ e.lit }
    ensures atom { result.atom < trail.now.trail.atoms }
{
    let literals = trail.assigned();
    literals[place]
}

// Counts an atom that is to be marked, if it is of the present level.
fn count_marked(trail: &Trail, present: &mut usize, atom: usize)
    requires trail { IsTrail trail.now.trail }
    requires room { length trail.now.trail.entries ≤ usize.MAX }
    requires atom { atom < trail.now.trail.atoms }
    ensures { (i : ℕ) (marks : List Bool) → AreCounted trail.now.trail i marks present.old → AreCounted trail.now.trail i (slice_set marks atom true) present.new }
{
    let level = trail.level_of(atom).unwrap_or(0);
    if level == trail.level() {
        *present = present.saturating_add(1);
    }
}

// Puts the place of an atom that is to be marked to those that wait, if it has a value.
fn push_place(trail: &Trail, places: &mut Places, atom: usize) -> Result<(), Memory>
    requires trail { IsTrail trail.now.trail }
    requires atom { atom < trail.now.trail.atoms }
    ensures { OnOk result ((i : ℕ) (marks : List Bool) → atom < length marks → AreWaiting trail.now.trail i marks places.old → AreWaiting trail.now.trail i (slice_set marks atom true) places.new) }
{
    match trail.place_of(atom) {
        None => Ok(()),
        Some(place) => places.push(place),
    }
}

fn mark(trail: &Trail, seen: &mut Seen, waiting: &mut Waiting, lit: Lit) -> Result<(), Memory>
    requires trail { IsTrail trail.now.trail }
    requires room { length trail.now.trail.entries ≤ usize.MAX }
    requires size { length seen.old ≡ trail.now.trail.atoms }
    requires atom { lit.atom < trail.now.trail.atoms }
    ensures size { OnOk result (length seen.new ≡ length seen.old) }
    ensures marked { OnOk result (MarksToo trail.now.trail (lit ∷ []) seen.old seen.new waiting.old waiting.new) }
{
    if seen.contains(lit.atom) {
        return Ok(());
    }
    push_place(trail, &mut waiting.places, lit.atom)?;
    count_marked(trail, &mut waiting.present, lit.atom);
    seen.insert(lit.atom);
    seen.see_level(trail.level_of(lit.atom).unwrap_or(0));
    Ok(())
}

// Marks the atoms of the clause.
fn mark_all(
    trail: &Trail,
    seen: &mut Seen,
    waiting: &mut Waiting,
    clause: &[PackedLit],
) -> Result<(), Memory>
    requires trail { IsTrail trail.now.trail }
    requires room { length trail.now.trail.entries ≤ usize.MAX }
    requires size { length seen.old ≡ trail.now.trail.atoms }
    requires atoms { AtomsBelow trail.now.trail.atoms clause.now }
    ensures size { OnOk result (length seen.new ≡ length seen.old) }
    ensures marked { OnOk result (MarksToo trail.now.trail clause.now seen.old seen.new waiting.old waiting.new) }
{
    for packed in clause {
        mark(trail, seen, waiting, packed.lit())?;
    }
    Ok(())
}

// Whether a literal that the clause of this number gave stays. The first one that stays is the last of the present level that
// all paths to the conflict go through. After it those stay that are above level 0 and do not follow from what is marked. One
// that follows only by atoms without marks is resolved too: these atoms are marked then, are met later, and follow in turn.
fn stays(
    reasons: Reasons<'_>,
    seen: &mut Seen,
    analysis: &Analysis,
    level: usize,
    number: usize,
) -> bool
    requires ready { IsReady reasons.log.now reasons.trail.now.trail }
    requires size { length seen.old ≡ reasons.trail.now.trail.atoms }
    ensures same { seen.new ≡ seen.old }
    ensures stays { IsTrue result → (0 < level) × (analysis.now.clause.items ≡ [] → (level ≡ reasons.entry.trail.now.trail.level) × (analysis.now.waiting.present ≤ 1)) }
{
    if level == 0 {
        return false;
    }
    if analysis.clause.is_empty() {
        return level == reasons.trail.level() && analysis.waiting.present <= 1;
    }
    !all_follow(reasons, seen, number, DEPTH)
}

// Counts a literal as met.
fn count_met(trail: &Trail, present: &mut usize, level: usize)
    ensures { (i : ℕ) (e : Entry) (marks : List Bool) → slice_get trail.now.trail.entries i ≡ Some e → IsMarked marks e.lit.atom → e.level ≡ level → AreCounted trail.now.trail (i + 1) marks present.old → AreCounted trail.now.trail i marks present.new }
{
    if level == trail.level() {
        *present = present.saturating_sub(1);
    }
}

// Takes the clause that the hint cites into the analysis.
fn take(
    reasons: Reasons<'_>,
    seen: &mut Seen,
    analysis: &mut Analysis,
    hint: PackedHint,
) -> Result<(), Memory>
    requires ready { IsReady reasons.log.now reasons.trail.now.trail }
    requires size { length seen.old ≡ reasons.trail.now.trail.atoms }
    ensures size { OnOk result (length seen.new ≡ length seen.old) }
    ensures clause { OnOk result (analysis.new.clause ≡ analysis.old.clause) }
    ensures hints { OnOk result (analysis.new.hints.items ≡ analysis.old.hints.items ++ hint ∷ []) }
    ensures marked { OnOk result ((c : List (Signed ℕ)) → cited reasons.entry.log.now.added reasons.entry.log.now.steps hint ≡ Some c → MarksToo reasons.entry.trail.now.trail c seen.old seen.new analysis.old.waiting analysis.new.waiting) }
{
    analysis.hints.push(hint)?;
    let clause = reasons.log.cited_clause(hint);
    mark_all(reasons.trail, seen, &mut analysis.waiting, clause)
}

// Lists the place of a fact of level 0 whose clause has other literals.
fn list_fact(
    log: &Log,
    analysis: &mut Analysis,
    place: usize,
    hint: PackedHint,
) -> Result<(), Memory>
    ensures clause { OnOk result (analysis.new.clause ≡ analysis.old.clause) }
    ensures hints { OnOk result (analysis.new.hints ≡ analysis.old.hints) }
    ensures waiting { OnOk result (analysis.new.waiting ≡ analysis.old.waiting) }
{
    if 1 < log.cited_clause(hint).len() {
        analysis.facts.push(place)?;
    }
    Ok(())
}

// Puts what gave the fact of level 0 at the place in its stead: what cites it alone, if that is known.
fn resolve_fact(
    reasons: Reasons<'_>,
    seen: &mut Seen,
    analysis: &mut Analysis,
    place: usize,
    number: usize,
) -> Result<(), Memory>
    requires ready { IsReady reasons.log.now reasons.trail.now.trail }
    requires size { length seen.old ≡ reasons.trail.now.trail.atoms }
    requires place { place < length reasons.trail.now.trail.entries }
    ensures size { OnOk result (length seen.new ≡ length seen.old) }
    ensures resolved { OnOk result ((e : Entry) → slice_get reasons.entry.trail.now.trail.entries place ≡ Some e → e.reason ≡ Some number → Resolves reasons.entry.log.now reasons.entry.trail.now.trail place e.lit seen.old seen.new analysis.old analysis.new) }
{
    let lit = literal_at(reasons.trail, place);
    let hint = reasons.log.given_by(lit, number);
    list_fact(reasons.log, analysis, place, hint)?;
    take(reasons, seen, analysis, hint)
}

// Puts what gave the literal at the place in its stead.
fn resolve(
    reasons: Reasons<'_>,
    seen: &mut Seen,
    analysis: &mut Analysis,
    place: usize,
    number: usize,
) -> Result<(), Memory>
    requires ready { IsReady reasons.log.now reasons.trail.now.trail }
    requires size { length seen.old ≡ reasons.trail.now.trail.atoms }
    requires place { place < length reasons.trail.now.trail.entries }
    ensures size { OnOk result (length seen.new ≡ length seen.old) }
    ensures resolved { OnOk result ((e : Entry) → slice_get reasons.entry.trail.now.trail.entries place ≡ Some e → e.reason ≡ Some number → Resolves reasons.entry.log.now reasons.entry.trail.now.trail place e.lit seen.old seen.new analysis.old analysis.new) }
{
    let lit = literal_at(reasons.trail, place);
    if reasons.trail.level_of(lit.atom) == Some(0) {
        return resolve_fact(reasons, seen, analysis, place, number);
    }
    take(reasons, seen, analysis, reasons.log.hint_of(number))
}

fn keep(analysis: &mut Analysis, lit: Lit) -> Result<(), Memory>
    ensures clause { OnOk result (analysis.new.clause.items ≡ analysis.old.clause.items ++ complement lit ∷ []) }
    ensures hints { OnOk result (analysis.new.hints ≡ analysis.old.hints) }
    ensures waiting { OnOk result (analysis.new.waiting ≡ analysis.old.waiting) }
{
    analysis.clause.push(complement(lit))?;
    Ok(())
}

// Meets the marked literal at the place.
fn meet(
    reasons: Reasons<'_>,
    seen: &mut Seen,
    analysis: &mut Analysis,
    place: usize,
) -> Result<(), Memory>
    requires ready { IsReady reasons.log.now reasons.trail.now.trail }
    requires size { length seen.old ≡ reasons.trail.now.trail.atoms }
    requires place { place < length reasons.trail.now.trail.entries }
    requires marked { (e : Entry) → slice_get reasons.trail.now.trail.entries place ≡ Some e → IsMarked seen.old e.lit.atom }
    requires met { IsMet reasons.log.now reasons.trail.now.trail (place + 1) seen.old analysis.old }
    ensures size { OnOk result (length seen.new ≡ length seen.old) }
    ensures waiting { OnOk result (AreWaiting reasons.entry.trail.now.trail place seen.old analysis.old.waiting.places → AreWaiting reasons.entry.trail.now.trail place seen.new analysis.new.waiting.places) }
    ensures met { OnOk result (IsMet reasons.entry.log.now reasons.entry.trail.now.trail place seen.new analysis.new) }
{
    let lit = literal_at(reasons.trail, place);
    let level = reasons.trail.level_of(lit.atom).unwrap_or(0);
    match reasons.trail.reason(lit.atom) {
        None => {
            count_met(reasons.trail, &mut analysis.waiting.present, level);
            keep(analysis, lit)
        }
        Some(number) => {
            let remains = stays(reasons, seen, analysis, level, number);
            count_met(reasons.trail, &mut analysis.waiting.present, level);
            if remains {
                return keep(analysis, lit);
            }
            resolve(reasons, seen, analysis, place, number)
        }
    }
}

// Meets the marked literal at the place, where exactly the decisions stay.
fn meet_decided(
    reasons: Reasons<'_>,
    seen: &mut Seen,
    analysis: &mut Analysis,
    place: usize,
) -> Result<(), Memory>
    requires ready { IsReady reasons.log.now reasons.trail.now.trail }
    requires size { length seen.old ≡ reasons.trail.now.trail.atoms }
    requires place { place < length reasons.trail.now.trail.entries }
    requires marked { (e : Entry) → slice_get reasons.trail.now.trail.entries place ≡ Some e → IsMarked seen.old e.lit.atom }
    ensures size { OnOk result (length seen.new ≡ length seen.old) }
    ensures waiting { OnOk result (AreWaiting reasons.entry.trail.now.trail place seen.old analysis.old.waiting.places → AreWaiting reasons.entry.trail.now.trail place seen.new analysis.new.waiting.places) }
    ensures met { OnOk result ((start : ℕ) (l : Signed ℕ) → place < start → IsMetDecided reasons.entry.log.now reasons.entry.trail.now.trail start (place + 1) l seen.old analysis.old → IsMetDecided reasons.entry.log.now reasons.entry.trail.now.trail start place l seen.new analysis.new) }
{
    let lit = literal_at(reasons.trail, place);
    match reasons.trail.reason(lit.atom) {
        None => Ok(()),
        Some(number) => resolve(reasons, seen, analysis, place, number),
    }
}

// An analysis that has met nothing.
fn no_analysis(alloc: Global) -> Analysis
    ensures clause { result.clause.items ≡ [] }
    ensures hints { result.hints.items ≡ [] }
    ensures places { result.waiting.places ≡ [] }
{
    Analysis {
        clause: Vec::new(alloc),
        hints: Vec::new(alloc),
        facts: Vec::new(alloc),
        waiting: Waiting {
            present: 0,
            places: Places::new(alloc),
        },
    }
}

// Marks the clause of this number alone.
fn begin(
    alloc: Global,
    reasons: Reasons<'_>,
    seen: &mut Seen,
    number: usize,
) -> Result<Analysis, Memory>
    requires ready { IsReady reasons.log.now reasons.trail.now.trail }
    requires size { length seen.old ≡ reasons.trail.now.trail.atoms }
    ensures size { OnOk result (length seen.new ≡ length seen.old) }
    ensures begun { IfOk result (λ a. (c : List (Signed ℕ)) → IsNamed reasons.entry.log.now number c → IsBegun reasons.entry.log.now reasons.entry.trail.now.trail number c seen.new a) }
{
    let mut analysis = no_analysis(alloc);
    seen.clear();
    take(reasons, seen, &mut analysis, reasons.log.hint_of(number))?;
    Ok(analysis)
}

// What is learned where the clause of this number is false, on a trail of `count` literals.
#[tactic(auto)]
pub(crate) fn analyze(
    alloc: Global,
    reasons: Reasons<'_>,
    seen: &mut Seen,
    number: usize,
    count: usize,
) -> Result<Analysis, Memory>
    requires ready { IsReady reasons.log.now reasons.trail.now.trail }
    requires size { length seen.old ≡ reasons.trail.now.trail.atoms }
    requires count { count ≡ length reasons.trail.now.trail.entries }
    requires conflict { NamesFalse reasons.log.now reasons.trail.now.trail.entries number }
    ensures size { OnOk result (length seen.new ≡ length seen.old) }
    ensures analysis { IfOk result (IsAnalysis reasons.entry.log.now reasons.entry.trail.now.trail.entries) }
{
    let mut analysis = begin(alloc, reasons, seen, number)?;
    let mut place = count;
    while let Some(next) = analysis.waiting.places.take_below(place) {
        place = next;
        meet(reasons, seen, &mut analysis, place)?;
    }
    analysis.hints.reverse();
    Ok(analysis)
}

// The place on the trail of a true literal.
fn place_of(trail: &Trail, lit: Lit) -> usize
    requires trail { IsTrail trail.now.trail }
    requires atom { lit.atom < trail.now.trail.atoms }
    ensures { (e : Entry) → Contains trail.now.trail.entries e → e.lit ≡ lit → slice_get trail.now.trail.entries result ≡ Some e }
{
    trail.place_of(lit.atom).unwrap_or(0)
}

// Marks the decisions on which a true literal depends that the clause of this number gave, and answers the hints.
pub(crate) fn analyze_given(
    alloc: Global,
    reasons: Reasons<'_>,
    seen: &mut Seen,
    lit: Lit,
    number: usize,
) -> Result<Vec<PackedHint>, Memory>
    requires ready { IsReady reasons.log.now reasons.trail.now.trail }
    requires size { length seen.old ≡ reasons.trail.now.trail.atoms }
    requires given { (e : Entry) × Contains reasons.trail.now.trail.entries e × (e.lit ≡ lit) × (e.reason ≡ Some number) }
    ensures size { OnOk result (length seen.new ≡ length seen.old) }
    ensures hints { IfOk result (λ hints. ShowsGiven reasons.entry.log.now reasons.entry.trail.now.trail.entries lit seen.new hints.items) }
{
    let mut analysis = begin(alloc, reasons, seen, number)?;
    let mut place = place_of(reasons.trail, lit);
    while let Some(next) = analysis.waiting.places.take_below(place) {
        place = next;
        meet_decided(reasons, seen, &mut analysis, place)?;
    }
    analysis.hints.reverse();
    Ok(analysis.hints)
}
