// The search that learns (MiniSat's `search`: Eén and Sörensson, An extensible SAT-solver, 2003): a loop over the trail. Each turn
// propagates, and then decides a literal or answers a conflict by a learned clause, which gives a literal at a lower level. A
// restart takes back all levels but those of assumptions. Learned clauses are forgotten before any turn at which there are too
// many, since restarts may be far apart.
ghost use Rattle.std.specs.Prelude.{◌≡◌, ◌≢◌, IsTrue, IsFalse, ℕ, ◌+◌, ◌-◌, ◌++◌, ◌∷◌, [], ◌<◌, ◌≤◌, ◌⊎◌, List, true, false, Some, None, All, Contains, MatchBool, length, map, min, take, slice_get, unwrap_or, IfOk, IfSome, IfNone, OnOk};
ghost use Rattle.inst_logic.specs.declared.signed.Signed.{Signed};
ghost use Rattle.inst_logic.specs.Signed.{complement};
ghost use Rattle.prop_logic.specs.declared.literal.Hint.TheVariants.{Added};
ghost use Rattle.prop_logic.specs.declared.literal.Step.{Step};
ghost use Rattle.prop_logic.specs.Literal.{AtomsBelow, cited};
ghost use Rattle.prop_logic.specs.Solving.{IsAnswer, IsSubList};
ghost use Rattle.prop_logic.specs.Analysis.{ClosesAll};
ghost use Rattle.cdcl_trail.specs.declared.entry.Entry.{Entry};
ghost use Rattle.cdcl_trail.specs.Clauses.{clause_number};
ghost use Rattle.cdcl_trail.specs.Trail.{IsTrail, IsDecision, level_of, reason_of, literals_of, back_at};
ghost use Rattle.cdcl_trail.specs.Propagation.{IsConflict, IsStable};
ghost use Rattle.cdcl_core.specs.Analysis.{IsAnalysis};
ghost use Rattle.cdcl_core.specs.declared.search.Search.{Search};
ghost use Rattle.cdcl_core.specs.Search.{IsKept, IsTrueUpTo, IsSearch, IsCoreIn, IsInCore, IsSameProblem, IsBackFrom, IsSameButClauses, Advances, Ends, Continues};

use crate::activity::Activity;
use crate::analysis::{Analysis, analyze, analyze_given, literal_at};
use crate::cut::{LastStep, needed_steps};
use crate::fresh_start::{copied_steps, renew_where_due};
use crate::learned::Learned;
use crate::log::Log;
use crate::packed_hint::PackedHint;
use crate::phases::Phases;
use crate::reasons::{Reasons, mark_reasons};
use crate::restart::Restarts;
use crate::seen::Seen;
use crate::settings::Settings;
use crate::units::unite_all;
use cdcl_trail::{Clauses, Trail};
use compact_lists::Literals;
use inst_logic::Memory;
use prop_logic::{Answer, Derivation, Hint, HintList, Lit, LitList, Step, complement, complements};
use std::alloc::Global;

// The levels up to `assumed` were opened by assumptions, of which the first `checked` are true. The decisions take atoms by
// their activity, each with the value that it had last. Where the order has no atom left, which it may for want of memory, one
// is looked for from `next` on. Answers have copied `copied` steps since the search began.
#[derive(Drop)]
pub(crate) struct Search {
    pub(crate) alloc: Global,
    pub(crate) log: Log,
    pub(crate) clauses: Clauses,
    pub(crate) trail: Trail,
    pub(crate) learned: Learned,
    pub(crate) seen: Seen,
    pub(crate) activity: Activity,
    pub(crate) phases: Phases,
    pub(crate) next: usize,
    pub(crate) assumed: usize,
    pub(crate) checked: usize,
    pub(crate) copied: usize,
    pub(crate) settings: Settings,
}

// The first atom from `from` on that has no value.
fn open_from(trail: &Trail, from: usize, atoms: usize) -> Option<usize>
    requires { atoms ≡ trail.now.trail.atoms }
    ensures some { IfSome result (λ atom. (atom < atoms) × (level_of trail.now.trail.entries atom ≡ None)) }
    ensures none { IfNone result ((k : ℕ) → from ≤ k → k < atoms → level_of trail.now.trail.entries k ≡ None → ⊥) }
{
    for atom in from..atoms {
        match trail.level_of(atom) {
            None => return Some(atom),
            Some(_) => {}
        }
    }
    None
}

// An atom that has no value, looked for from `next` on first.
fn open_atom(trail: &Trail, next: usize, atoms: usize) -> Option<usize>
    requires { atoms ≡ trail.now.trail.atoms }
    ensures some { IfSome result (λ atom. (atom < atoms) × (level_of trail.now.trail.entries atom ≡ None)) }
    ensures none { IfNone result ((k : ℕ) → k < atoms → level_of trail.now.trail.entries k ≡ None → ⊥) }
{
    match open_from(trail, next, atoms) {
        Some(atom) => Some(atom),
        None => open_from(trail, 0, atoms),
    }
}

// An atom that has no value, the most active one if the order has one.
fn active_atom(trail: &Trail, activity: &mut Activity, next: usize, atoms: usize) -> Option<usize>
    requires { atoms ≡ trail.now.trail.atoms }
    ensures some { IfSome result (λ atom. (atom < atoms) × (level_of trail.now.trail.entries atom ≡ None)) }
    ensures none { IfNone result ((k : ℕ) → k < atoms → level_of trail.now.trail.entries k ≡ None → ⊥) }
{
    if trail.is_whole() {
        return None;
    }
    match activity.pick(trail, atoms) {
        Some(atom) => Some(atom),
        None => open_atom(trail, next, atoms),
    }
}

fn is_true(trail: &Trail, lit: Lit) -> bool
    requires trail { IsTrail trail.now.trail }
    requires atom { lit.atom < trail.now.trail.atoms }
    ensures { MatchBool result (Contains (literals_of trail.now.trail.entries) lit) (¬ Contains (literals_of trail.now.trail.entries) lit) }
{
    trail.value(lit).unwrap_or(false)
}

// The place of the first assumption from `from` on that is not true.
fn first_not_true(trail: &Trail, assumptions: &[Lit], from: usize) -> Option<usize>
    requires trail { IsTrail trail.now.trail }
    requires atoms { AtomsBelow trail.now.trail.atoms assumptions.now }
    requires checked { All (Contains (literals_of trail.now.trail.entries)) (take from assumptions.now) }
    ensures within { IfSome result (λ place. place < length assumptions.now) }
    ensures some { IfSome result (λ place. (l : Signed ℕ) → slice_get assumptions.now place ≡ Some l → ¬ Contains (literals_of trail.now.trail.entries) l) }
    ensures before { IfSome result (λ place. All (Contains (literals_of trail.now.trail.entries)) (take place assumptions.now)) }
    ensures none { IfNone result (All (Contains (literals_of trail.now.trail.entries)) assumptions.now) }
{
    let mut place = from;
    while place < assumptions.len() {
        if !is_true(trail, assumptions[place]) {
            return Some(place);
        }
        place += 1;
    }
    None
}

// Whether the hint cites a step.
fn is_step(hint: Hint) -> bool
    ensures { IsTrue result → (i : ℕ) → hint ≢ Added i }
{
    match hint {
        Hint::Added(_) => false,
        Hint::Step(_) => true,
    }
}

// Whether the clause gave one of its literals its value.
fn is_reason(trail: &Trail, clause: &Literals, number: usize) -> bool
    requires { AtomsBelow trail.now.trail.atoms clause.now }
    ensures { IsFalse result → All (λ l. reason_of trail.now.trail.entries l.atom ≢ Some number) clause.now }
{
    for i in 0..clause.len() {
        if trail.reason(clause.at(i).atom) == Some(number) {
            return true;
        }
    }
    false
}

// The highest level of the literals.
fn highest_level(trail: &Trail, literals: &Literals) -> usize
    requires { AtomsBelow trail.now.trail.atoms literals.now }
    ensures reached { All (λ l. unwrap_or (level_of trail.now.trail.entries l.atom) 0 ≤ result) literals.now }
    ensures least { (top : ℕ) → 0 < top → All (λ l. unwrap_or (level_of trail.now.trail.entries l.atom) 0 < top) literals.now → result < top }
{
    let mut highest = 0;
    for i in 0..literals.len() {
        highest = highest.max(trail.level_of(literals.at(i).atom).unwrap_or(0));
    }
    highest
}

// The place of the literal among the assumptions from `from` on.
fn place_from(assumptions: &[Lit], from: usize, lit: Lit) -> Option<usize>
    ensures { IfSome result (λ place. slice_get assumptions.now place ≡ Some lit) }
{
    let mut place = from;
    while place < assumptions.len() {
        if assumptions[place] == lit {
            return Some(place);
        }
        place += 1;
    }
    None
}

// A level up to which each decision is an assumption. The decisions are looked for in the order of the assumptions.
fn shared_level(trail: &Trail, assumptions: &[Lit], count: usize) -> usize
    requires trail { IsTrail trail.now.trail }
    requires count { count ≡ length trail.now.trail.entries }
    ensures within { result ≤ trail.now.trail.level }
    ensures decisions { (e : Entry) → Contains trail.now.trail.entries e → IsDecision e → e.level ≤ result → Contains assumptions.now e.lit }
{
    let mut from = 0;
    for place in 0..count {
        let lit = literal_at(trail, place);
        if trail.reason(lit.atom).is_some() {
            continue;
        }
        match place_from(assumptions, from, lit) {
            Some(found) => from = found,
            None => {
                let level = trail.level_of(lit.atom).unwrap_or(0);
                return level.saturating_sub(1).min(trail.level());
            }
        }
    }
    trail.level()
}

// Whether the assumption is the false one, or a marked decision.
fn is_in_core(trail: &Trail, seen: &Seen, refuted: Lit, lit: Lit) -> bool
    requires trail { IsTrail trail.now.trail }
    requires size { length seen.now ≡ trail.now.trail.atoms }
    requires atom { lit.atom < trail.now.trail.atoms }
    ensures { MatchBool result ((lit ≡ refuted) ⊎ Contains (literals_of trail.now.trail.entries) lit) (¬ IsInCore trail.now.trail.entries seen.now refuted lit) }
{
    if lit == refuted {
        return true;
    }
    if !seen.contains(lit.atom) {
        return false;
    }
    if trail.reason(lit.atom).is_some() {
        return false;
    }
    is_true(trail, lit)
}

// The assumptions that the false one can't be true with.
fn core_of(
    alloc: Global,
    trail: &Trail,
    seen: &Seen,
    refuted: Lit,
    assumptions: &[Lit],
) -> Result<LitList, Memory>
    requires trail { IsTrail trail.now.trail }
    requires size { length seen.now ≡ trail.now.trail.atoms }
    requires atoms { AtomsBelow trail.now.trail.atoms assumptions.now }
    ensures { IfOk result (IsCoreIn trail.now.trail.entries seen.now refuted assumptions.now) }
{
    let mut core = LitList::new(alloc);
    for lit in assumptions {
        if !is_in_core(trail, seen, refuted, *lit) {
            continue;
        }
        core.push(*lit)?;
    }
    Ok(core)
}

// Puts the atoms above the level back into the order, and answers the first of them to look at.
fn put_back(trail: &Trail, activity: &mut Activity, next: usize, level: usize) -> usize {
    let mut first = next;
    let mut place = trail.assigned().len();
    while 0 < place {
        place -= 1;
        let lit = literal_at(trail, place);
        if trail.level_of(lit.atom).unwrap_or(0) <= level {
            return first;
        }
        activity.insert(lit.atom);
        first = first.min(lit.atom);
    }
    first
}

impl Search {
    pub(crate) fn new(alloc: Global, settings: Settings) -> Search
        ensures kept { IsKept result }
        ensures atoms { result.trail.trail.atoms ≡ 0 }
        ensures added { result.log.added ≡ [] }
    {
        Search {
            alloc,
            log: Log::new(alloc),
            clauses: Clauses::new(alloc),
            trail: Trail::new(alloc),
            learned: Learned::new(alloc),
            seen: Seen::new(alloc),
            activity: Activity::new(alloc),
            phases: Phases::new(alloc),
            next: 0,
            assumed: 0,
            checked: 0,
            copied: 0,
            settings,
        }
    }

    pub(crate) fn new_atom(&mut self) -> Result<usize, Memory>
        requires kept { IsKept self.old }
        ensures kept { OnOk result (IsKept self.new) }
        ensures number { IfOk result (λ n. n ≡ self.old.trail.trail.atoms) }
        ensures atoms { OnOk result (self.new.trail.trail.atoms ≡ self.old.trail.trail.atoms + 1) }
        ensures added { OnOk result (self.new.log.added ≡ self.old.log.added) }
    {
        self.activity.grow()?;
        self.seen.grow()?;
        self.phases.grow(self.settings.first_value)?;
        self.trail.grow()
    }

    // The value that the atom is given first, where it has none yet.
    pub(crate) fn prefer(&mut self, atom: usize, value: bool)
        requires kept { IsKept self.old }
        ensures kept { IsKept self.new }
        ensures same { IsSameProblem self.old self.new }
    {
        if atom < self.phases.values.len() && self.trail.level_of(atom).is_none() {
            self.phases.values.set(atom, value);
        }
    }

    pub(crate) fn atoms(&self) -> usize
        requires { IsKept self.now }
        ensures { result ≡ self.now.trail.trail.atoms }
    {
        self.phases.values.len()
    }

    // Adds a copy of the clause, and answers its number.
    pub(crate) fn add(&mut self, clause: &[Lit]) -> Result<usize, Memory>
        requires kept { IsKept self.old }
        requires atoms { AtomsBelow self.old.trail.trail.atoms clause.now }
        ensures kept { OnOk result (IsKept self.new) }
        ensures number { IfOk result (λ n. n ≡ length self.new.log.added) }
        ensures trail { OnOk result (self.new.trail.trail ≡ self.old.trail.trail) }
        ensures added { OnOk result (self.new.log.added ≡ self.old.log.added ++ clause.now ∷ []) }
    {
        self.log.added.push(clause)?;
        let number = self.log.added.len();
        let key = self.clauses.add(clause)?;
        self.log.names.put(key, Hint::Added(number))?;
        self.trail.attach(&self.clauses, key)?;
        Ok(number)
    }

    // Takes back the levels above this one.
    fn back_to(&mut self, level: usize)
        requires level { level ≤ self.old.trail.trail.level }
        requires kept { IsKept self.old }
        ensures kept { IsKept self.new }
        ensures right { IsTrail self.old.trail.trail }
        ensures trail { self.new.trail.trail ≡ back_at self.old.trail.trail level }
        ensures log { self.new.log ≡ self.old.log }
        ensures clauses { self.new.clauses ≡ self.old.clauses }
        ensures assumed { self.new.assumed ≡ min self.old.assumed level }
        ensures checked { self.new.checked ≡ 0 }
    {
        self.phases.save(&self.trail);
        self.next = put_back(&self.trail, &mut self.activity, self.next, level);
        self.trail.back_to(level);
        self.phases.cut(&self.trail);
        self.assumed = self.assumed.min(level);
        self.checked = 0;
    }

    // Forgets the clause of this number, if it was learned and is the reason of no literal.
    fn forget(&mut self, number: usize)
        requires kept { IsKept self.old }
        requires trail { IsTrail self.old.trail.trail }
        ensures same { IsSameButClauses self.old self.new }
    {
        let hint = self.log.hint_of(number);
        if !is_step(hint.hint()) || self.clauses.get(number).is_none() {
            return;
        }
        if is_reason(
            &self.trail,
            &Literals::of_packed(self.log.cited_clause(hint)),
            number,
        ) {
            return;
        }
        self.trail.detach(&self.clauses, number);
        self.clauses.forget(number);
    }

    // Forgets learned clauses that conflicts meet least, where there are too many.
    fn reduce(&mut self)
        requires kept { IsKept self.old }
        requires trail { IsTrail self.old.trail.trail }
        ensures same { IsSameButClauses self.old self.new }
    {
        let added = self.log.added.len();
        let assigned = self.trail.assigned().len();
        for _ in 0..self.learned.sort(added, assigned) {
            let rank = self.learned.pop();
            self.forget(rank.number());
            self.learned.list_again(rank, &self.clauses);
        }
    }

    // Ends the steps with the clause.
    fn push_step(&mut self, clause: &[Lit], hints: &[PackedHint]) -> Result<(), Memory>
        requires kept { IsKept self.old }
        requires atoms { AtomsBelow self.old.trail.trail.atoms clause.now }
        requires closes { ClosesAll clause.now (map (cited self.old.log.added self.old.log.steps) hints.now) }
        ensures kept { OnOk result (IsKept self.new) }
        ensures added { self.new.log.added ≡ self.old.log.added }
        ensures steps { OnOk result (self.new.log.steps ≡ self.old.log.steps ++ (record { clause = clause.now; hints = hints.now }) ∷ []) }
        ensures trail { self.new.trail ≡ self.old.trail }
        ensures clauses { self.new.clauses ≡ self.old.clauses }
        ensures assumed { self.new.assumed ≡ self.old.assumed }
    {
        self.log.steps.push(clause, hints)
    }

    // Gives the clause of the last step, which has these hints, to the trail, and answers its number there.
    fn use_last_step(&mut self, clause: &[Lit], hints: &[PackedHint]) -> Result<usize, Memory>
        requires { IsKept self.old }
        ensures kept { IfOk result (λ key. (before : List Step) (s : Step) → self.old.log.steps ≡ before ++ s ∷ [] → s.clause ≡ clause.now → IsKept self.new × (clause_number self.new.clauses key ≡ Some s.clause)) }
        ensures trail { OnOk result (self.new.trail.trail ≡ self.old.trail.trail) }
        ensures added { self.new.log.added ≡ self.old.log.added }
        ensures assumed { self.new.assumed ≡ self.old.assumed }
    {
        let step = self.log.steps.len();
        let key = self.clauses.add(clause)?;
        self.log.names.put(key, Hint::Step(step))?;
        self.trail.attach(&self.clauses, key)?;
        self.learned.push(step, key, clause.len(), hints)?;
        Ok(key)
    }

    // Keeps the clause, whose first literal is above the levels of the others, and makes that literal true by it. The facts that
    // the analysis met become steps.
    fn learn(&mut self, analysis: Analysis) -> Result<(), Memory>
        requires kept { IsKept self.old }
        requires trail { IsTrail self.old.trail.trail }
        requires analysis { IsAnalysis self.old.log self.old.trail.trail.entries analysis }
        requires some { 0 < length analysis.clause.items }
        ensures learned { OnOk result ((first : Search) (assumptions : List (Signed ℕ)) → IsBackFrom first self.old → IsSearch assumptions self.old → IsSearch assumptions self.new × Advances first self.new) }
        ensures added { self.new.log.added ≡ self.old.log.added }
    {
        let lit = analysis.clause[0];
        let level = highest_level(&self.trail, &Literals::plain(&analysis.clause[1..]));
        self.push_step(&analysis.clause, &analysis.hints)?;
        let key = self.use_last_step(&analysis.clause, &analysis.hints)?;
        unite_all(self.alloc, &mut self.log, &self.trail, &analysis.facts)?;
        self.back_to(level);
        self.trail.imply(lit, key);
        Ok(())
    }

    // The answer where the core can't be true, whose complements the hints show. Nothing of it stays in the log.
    fn refutation_answer(&self, core: LitList, hints: Vec<PackedHint>) -> Result<Answer, Memory>
        requires kept { IsKept self.now }
        requires atoms { AtomsBelow self.now.trail.trail.atoms core }
        requires closes { ClosesAll (map complement core) (map (cited self.now.log.added self.now.log.steps) hints.items) }
        ensures { IfOk result (λ answer. (assumptions : List (Signed ℕ)) → IsSubList core assumptions → Ends assumptions self.now self.now answer) }
    {
        let last = LastStep {
            clause: complements(self.alloc, core.as_slice())?,
            hints,
        };
        let derivation = needed_steps(self.alloc, &self.log.steps, &last)?;
        Ok(Answer::Unsat { core, derivation })
    }

    // Goes back to the highest level of the literals of the clause of this number, which is false, and answers how many
    // literals are left.
    fn back_to_conflict(&mut self, number: usize) -> usize
        requires kept { IsKept self.old }
        requires trail { IsTrail self.old.trail.trail }
        requires conflict { IsConflict self.old.clauses self.old.trail.trail.entries number }
        ensures kept { IsKept self.new }
        ensures back { IsBackFrom self.old self.new }
        ensures trail { IsTrail self.new.trail.trail }
        ensures count { result ≡ length self.new.trail.trail.entries }
        ensures clauses { self.new.clauses ≡ self.old.clauses }
        ensures added { self.new.log.added ≡ self.old.log.added }
        ensures conflict { IsConflict self.new.clauses self.new.trail.trail.entries number }
    {
        let highest = highest_level(
            &self.trail,
            &Literals::of_packed(self.log.cited_clause(self.log.hint_of(number))),
        );
        let level = highest.min(self.trail.level());
        self.back_to(level);
        self.trail.assigned().len()
    }

    // Answers a conflict: by what is learned from it, or with an end where it depends on no decision.
    pub(crate) fn resolve(&mut self, number: usize) -> Result<Option<Answer>, Memory>
        requires kept { IsKept self.old }
        requires trail { IsTrail self.old.trail.trail }
        requires conflict { IsConflict self.old.clauses self.old.trail.trail.entries number }
        ensures goes { IfOk result (λ found. (assumptions : List (Signed ℕ)) → IsSearch assumptions self.old → Continues assumptions self.old self.new found) }
        ensures added { self.new.log.added ≡ self.old.log.added }
    {
        let count = self.back_to_conflict(number);
        let reasons = Reasons {
            log: &self.log,
            trail: &self.trail,
        };
        let analysis = analyze(self.alloc, reasons, &mut self.seen, number, count)?;
        if analysis.clause.is_empty() {
            let core = LitList::new(self.alloc);
            return Ok(Some(self.refutation_answer(core, analysis.hints)?));
        }
        mark_reasons(reasons, &mut self.seen, &analysis.clause);
        self.activity.see_conflict(self.seen.atoms());
        self.learn(analysis)?;
        Ok(None)
    }

    // The answer where the complement of an assumption is assumed too, which no clause is needed for.
    fn clash(&mut self, assumptions: &[Lit], lit: Lit) -> Result<Answer, Memory>
        requires search { IsSearch assumptions.now self.old }
        requires trail { IsTrail self.old.trail.trail }
        requires atoms { AtomsBelow self.old.trail.trail.atoms assumptions.now }
        requires assumption { Contains assumptions.now lit }
        requires other { Contains assumptions.now (complement lit) }
        requires decided { (e : Entry) × Contains self.old.trail.trail.entries e × (e.lit ≡ complement lit) × IsDecision e }
        ensures ends { IfOk result (Ends assumptions.now self.old self.new) }
        ensures added { self.new.log.added ≡ self.old.log.added }
    {
        self.seen.clear();
        self.seen.insert(lit.atom);
        self.activity.see_conflict(self.seen.atoms());
        let core = core_of(self.alloc, &self.trail, &self.seen, lit, assumptions)?;
        let clause = complements(self.alloc, core.as_slice())?;
        let mut derivation = Derivation::new(self.alloc);
        derivation.push(Step {
            clause,
            hints: HintList::new(self.alloc),
        })?;
        Ok(Answer::Unsat { core, derivation })
    }

    // The answer where an assumption is false.
    fn refute(&mut self, assumptions: &[Lit], lit: Lit, count: usize) -> Result<Answer, Memory>
        requires search { IsSearch assumptions.now self.old }
        requires trail { IsTrail self.old.trail.trail }
        requires atoms { AtomsBelow self.old.trail.trail.atoms assumptions.now }
        requires count { count ≡ length self.old.trail.trail.entries }
        requires level { self.old.trail.trail.level ≤ self.old.assumed }
        requires assumption { Contains assumptions.now lit }
        requires refuted { Contains (literals_of self.old.trail.trail.entries) (complement lit) }
        ensures ends { IfOk result (Ends assumptions.now self.old self.new) }
        ensures added { self.new.log.added ≡ self.old.log.added }
    {
        match self.trail.reason(lit.atom) {
            None => self.clash(assumptions, lit),
            Some(number) => {
                let reasons = Reasons {
                    log: &self.log,
                    trail: &self.trail,
                };
                let given = complement(lit);
                let hints = analyze_given(self.alloc, reasons, &mut self.seen, given, number)?;
                self.activity.see_conflict(self.seen.atoms());
                let core = core_of(self.alloc, &self.trail, &self.seen, lit, assumptions)?;
                self.refutation_answer(core, hints)
            }
        }
    }

    // Where the assumptions are true: decides an atom, if one has no value.
    fn choose(&mut self) -> Result<Option<Answer>, Memory>
        requires kept { IsKept self.old }
        requires trail { IsTrail self.old.trail.trail }
        requires stable { IsStable self.old.clauses self.old.trail.trail.entries }
        ensures goes { IfOk result (λ found. (assumptions : List (Signed ℕ)) → IsSearch assumptions self.old → All (IsTrueUpTo self.old.trail.trail.entries self.old.assumed) assumptions → Continues assumptions self.old self.new found) }
        ensures added { self.new.log.added ≡ self.old.log.added }
    {
        let atoms = self.phases.values.len();
        match active_atom(&self.trail, &mut self.activity, self.next, atoms) {
            Some(atom) => {
                let positive = self.phases.values.value(atom);
                self.trail.decide(Lit { positive, atom });
                self.next = atom;
                Ok(None)
            }
            None => {
                self.phases.save(&self.trail);
                let valuation = self.phases.values.copy(self.alloc)?;
                Ok(Some(Answer::Sat(valuation)))
            }
        }
    }

    // Where no level is open but for assumptions: decides the next assumption, or an atom where they are all true.
    fn assume(&mut self, assumptions: &[Lit], count: usize) -> Result<Option<Answer>, Memory>
        requires search { IsSearch assumptions.now self.old }
        requires trail { IsTrail self.old.trail.trail }
        requires atoms { AtomsBelow self.old.trail.trail.atoms assumptions.now }
        requires count { count ≡ length self.old.trail.trail.entries }
        requires level { self.old.trail.trail.level ≤ self.old.assumed }
        requires stable { IsStable self.old.clauses self.old.trail.trail.entries }
        ensures goes { IfOk result (Continues assumptions.now self.old self.new) }
        ensures added { self.new.log.added ≡ self.old.log.added }
    {
        match first_not_true(&self.trail, assumptions, self.checked) {
            None => self.choose(),
            Some(place) => self.assume_one(assumptions, place, count),
        }
    }

    // Decides the assumption at the place, which is the first that is not true, or answers that it is false.
    fn assume_one(
        &mut self,
        assumptions: &[Lit],
        place: usize,
        count: usize,
    ) -> Result<Option<Answer>, Memory>
        requires search { IsSearch assumptions.now self.old }
        requires trail { IsTrail self.old.trail.trail }
        requires atoms { AtomsBelow self.old.trail.trail.atoms assumptions.now }
        requires count { count ≡ length self.old.trail.trail.entries }
        requires level { self.old.trail.trail.level ≤ self.old.assumed }
        requires place { place < length assumptions.now }
        requires not_true { (l : Signed ℕ) → slice_get assumptions.now place ≡ Some l → ¬ Contains (literals_of self.old.trail.trail.entries) l }
        requires before { All (Contains (literals_of self.old.trail.trail.entries)) (take place assumptions.now) }
        ensures goes { IfOk result (Continues assumptions.now self.old self.new) }
        ensures added { self.new.log.added ≡ self.old.log.added }
    {
        let lit = assumptions[place];
        if self.trail.level_of(lit.atom).is_some() {
            return Ok(Some(self.refute(assumptions, lit, count)?));
        }
        self.trail.decide(lit);
        self.assumed = self.trail.level();
        self.checked = place;
        Ok(None)
    }

    // One decision or one conflict on.
    fn advance(&mut self, assumptions: &[Lit]) -> Result<Option<Answer>, Memory>
        requires search { IsSearch assumptions.now self.old }
        requires atoms { AtomsBelow self.old.trail.trail.atoms assumptions.now }
        ensures goes { IfOk result (Continues assumptions.now self.old self.new) }
        ensures added { self.new.log.added ≡ self.old.log.added }
    {
        let conflict = self.trail.propagate(&self.clauses)?;
        let count = self.trail.assigned().len();
        match conflict {
            Some(number) => self.resolve(number),
            None => {
                if self.assumed < self.trail.level() {
                    return self.choose();
                }
                self.assume(assumptions, count)
            }
        }
    }

    // One turn of the search: some learned clauses are forgotten if there are too many, and then it is one decision or one
    // conflict on.
    fn turn(&mut self, assumptions: &[Lit]) -> Result<Option<Answer>, Memory>
        requires search { IsSearch assumptions.now self.old }
        requires atoms { AtomsBelow self.old.trail.trail.atoms assumptions.now }
        ensures goes { IfOk result (Continues assumptions.now self.old self.new) }
        ensures added { self.new.log.added ≡ self.old.log.added }
    {
        // Its contract says that the trail is right.
        let _ = self.trail.assigned();
        self.reduce();
        self.advance(assumptions)
    }

    // Keeps all levels where nothing is assumed, else those whose decisions are assumed again. Where literals are to be probed
    // none stays.
    fn keep_levels(&mut self, assumptions: &[Lit])
        requires kept { IsKept self.old }
        ensures search { IsSearch assumptions.now self.new }
        ensures same { IsSameProblem self.old self.new }
    {
        let count = self.trail.assigned().len();
        self.checked = 0;
        if assumptions.is_empty() && !self.settings.probes {
            self.assumed = 0;
            return;
        }
        let level = shared_level(&self.trail, assumptions, count);
        self.back_to(level);
        self.assumed = level;
    }

    // Takes back the levels that no assumption opened, which is a restart of this question.
    fn restart(&mut self, restarts: &mut Restarts)
        requires kept { IsKept self.old }
        requires left { 0 < restarts.old.left }
        ensures back { IsBackFrom self.old self.new }
        ensures counted { restarts.new.left + 1 ≡ restarts.old.left }
    {
        restarts.count();
        let level = self.assumed.min(self.trail.level());
        self.back_to(level);
    }

    // Turns and restarts until the question is answered. Between restarts the weight of the trail rises, so the count of the
    // restarts is what bounds the search.
    fn run(&mut self, restarts: &mut Restarts, assumptions: &[Lit]) -> Result<Answer, Memory>
        requires search { IsSearch assumptions.now self.old }
        requires atoms { AtomsBelow self.old.trail.trail.atoms assumptions.now }
        ensures ends { IfOk result (Ends assumptions.now self.old self.new) }
        ensures added { self.new.log.added ≡ self.old.log.added }
    {
        loop {
            if restarts.is_due() {
                self.restart(restarts);
                continue;
            }
            let level = self.trail.level();
            if let Some(answer) = self.turn(assumptions)? {
                return Ok(answer);
            }
            restarts.see(level, self.trail.level());
        }
    }

    // Whether the clauses and the assumptions can be true together. The restarts are those of this question.
    pub(crate) fn answer(
        &mut self,
        restarts: &mut Restarts,
        assumptions: &[Lit],
    ) -> Result<Answer, Memory>
        requires kept { IsKept self.old }
        requires atoms { AtomsBelow self.old.trail.trail.atoms assumptions.now }
        ensures kept { OnOk result (IsKept self.new) }
        ensures same { OnOk result (IsSameProblem self.old self.new) }
        ensures added { self.new.log.added ≡ self.old.log.added }
        ensures answer { IfOk result (IsAnswer self.old.trail.trail.atoms self.old.log.added assumptions.now) }
    {
        restarts.begin();
        renew_where_due(self, assumptions);
        self.keep_levels(assumptions);
        if let Some(answer) = self.probe_where_due(assumptions)? {
            return Ok(answer);
        }
        let answer = self.run(restarts, assumptions)?;
        self.copied = self.copied.saturating_add(copied_steps(&answer));
        Ok(answer)
    }
}
