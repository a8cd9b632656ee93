// The search of the plain solver. The atoms get values in their order. A clause with all its literals false is a conflict:
// it is resolved with the reasons of the last values, up to the last choice that it depends on, which it then turns.
ghost use Rattle.std.specs.Prelude.{◌≡◌, ◌≢◌, ◌-◌, ◌++◌, ◌∷◌, [], ◌<◌, ◌≤◌, ℕ, List, Bool, Option, Some, None, All, Contains, MatchBool, length, map, take, not, IfOk, IfSome, IfNone, OnOk};
ghost use Rattle.inst_logic.specs.declared.signed.Signed.{Signed};
ghost use Rattle.inst_logic.specs.Signed.{complement};
ghost use Rattle.prop_logic.specs.declared.literal.Step.{Step};
ghost use Rattle.prop_logic.specs.declared.search.Entry.{Entry};
ghost use Rattle.prop_logic.specs.Literal.{AtomsBelow, AllAtomsBelow, cited};
ghost use Rattle.prop_logic.specs.Solving.{IsAnswer};
ghost use Rattle.prop_logic.specs.Search.{AreConsistent, IsFalseIn, HasRest, IsConflict, IsResolvent, IsSearch, Turns, Undoes, AreGood, IsCore, IsOutcome, Continues, literal_of};

use crate::core_of::{assumed_value, core_of, find_clash};
use crate::literal::{
    Derivation, Hint, HintList, Lit, LitList, Step, cited_clause, complement, complements, contains,
};
use crate::resolution::resolvent;
use crate::solver::Answer;
use crate::valuation::Valuation;
use inst_logic::Memory;
use std::alloc::Global;

// The value of the atom of its place. It is assumed or chosen, or has for its reason a clause with one literal that can
// be true.
#[derive(Clone, Copy)]
pub(crate) struct Entry {
    pub(crate) value: bool,
    pub(crate) reason: Option<Hint>,
}

#[derive(Drop)]
pub(crate) struct Search {
    atoms: usize,
    entries: Vec<Entry>,
    steps: Derivation,
}

#[derive(Drop)]
enum Outcome {
    Sat(Valuation),
    Unsat(LitList),
}

fn valuation_of(alloc: Global, entries: &[Entry]) -> Result<Valuation, Memory>
    ensures { IfOk result (λ valuation. valuation ≡ map (λ e. e.value) entries.now) }
{
    let mut valuation = Valuation::new(alloc);
    for entry in entries {
        valuation.push(entry.value)?;
    }
    Ok(valuation)
}

fn is_false(entries: &[Entry], lit: Lit) -> bool
    ensures { MatchBool result (IsFalseIn entries.now lit) (¬ IsFalseIn entries.now lit) }
{
    match entries.get(lit.atom) {
        Some(entry) => entry.value != lit.positive,
        None => false,
    }
}

fn all_false(entries: &[Entry], clause: &[Lit]) -> bool
    ensures { MatchBool result (All (IsFalseIn entries.now) clause.now) (HasRest entries.now clause.now) }
{
    for lit in clause {
        if !is_false(entries, *lit) {
            return false;
        }
    }
    true
}

// The number of a clause with all its literals false.
fn find_false(clauses: &[LitList], entries: &[Entry]) -> Option<Hint>
    ensures some { IfSome result (λ h. (steps : List Step) (assumptions : List (Signed ℕ)) → IsConflict clauses.now steps assumptions entries.now h) }
    ensures none { IfNone result (All (HasRest entries.now) clauses.now) }
{
    for place in 0..clauses.len() {
        if all_false(entries, clauses[place].as_slice()) {
            return Some(Hint::Added(place + 1));
        }
    }
    None
}

impl Search {
    // Adds the step that the two clauses show, resolved at the atom of the next entry.
    fn learn(
        &mut self,
        alloc: Global,
        clauses: &[LitList],
        reason: Hint,
        conflict: Hint,
    ) -> Result<(), Memory>
        ensures steps { OnOk result ((r c : List (Signed ℕ)) → cited clauses.now self.old.steps reason ≡ Some r → cited clauses.now self.old.steps conflict ≡ Some c → (f : List (Signed ℕ)) × IsResolvent r c (length self.old.entries.items) f × (self.new.steps ≡ self.old.steps ++ (record { clause = f; hints = reason ∷ conflict ∷ [] }) ∷ [])) }
        ensures entries { self.new.entries ≡ self.old.entries }
        ensures atoms { self.new.atoms ≡ self.old.atoms }
    {
        let steps = self.steps.as_slice();
        let first = cited_clause(clauses, steps, reason);
        let second = cited_clause(clauses, steps, conflict);
        let clause = resolvent(alloc, first, second, self.entries.len())?;
        let hints = HintList::from(vec![in alloc; reason, conflict]?);
        self.steps.push(Step { clause, hints })?;
        Ok(())
    }

    // Gives the atom of the next entry the other value by the conflict, unless this one is assumed.
    fn turn(
        &mut self,
        assumptions: &[Lit],
        value: bool,
        conflict: Hint,
    ) -> Result<Option<Hint>, Memory>
        ensures stays { IfOk result (λ found. IfSome found (λ h. (h ≡ conflict) × (self.new ≡ self.old) × ((v : Bool) × Contains assumptions.now (literal_of (length self.old.entries.items) v)))) }
        ensures turned { IfOk result (λ found. IfNone found ((self.new.entries.items ≡ self.old.entries.items ++ (record { value = not value; reason = Some conflict }) ∷ []) × All (λ l. l.atom ≢ length self.old.entries.items) assumptions.now)) }
        ensures steps { self.new.steps ≡ self.old.steps }
        ensures atoms { self.new.atoms ≡ self.old.atoms }
    {
        if assumed_value(assumptions, self.entries.len()).is_some() {
            return Ok(Some(conflict));
        }
        self.entries.push(Entry {
            value: !value,
            reason: Some(conflict),
        })?;
        Ok(None)
    }

    // Takes the last value away. Answers the conflict that is left, or none where the value was a choice and is turned.
    fn undo(
        &mut self,
        alloc: Global,
        clauses: &[LitList],
        assumptions: &[Lit],
        conflict: Hint,
    ) -> Result<Option<Hint>, Memory>
        requires search { IsSearch clauses.now assumptions.now self.old }
        requires assumptions { AtomsBelow self.old.atoms assumptions.now }
        requires conflict { IsConflict clauses.now self.old.steps assumptions.now self.old.entries.items conflict }
        requires some { 0 < length self.old.entries.items }
        ensures search { OnOk result (IsSearch clauses.now assumptions.now self.new) }
        ensures atoms { OnOk result (self.new.atoms ≡ self.old.atoms) }
        ensures undone { IfOk result (Undoes clauses.now assumptions.now self.old self.new) }
    {
        let place = self.entries.len() - 1;
        let entry = self.entries[place];
        let lit = Lit {
            positive: !entry.value,
            atom: place,
        };
        self.entries.truncate(place);
        if !contains(cited_clause(clauses, self.steps.as_slice(), conflict), lit) {
            return Ok(Some(conflict));
        }
        match entry.reason {
            Some(reason) => {
                self.learn(alloc, clauses, reason, conflict)?;
                Ok(Some(Hint::Step(self.steps.len())))
            }
            None => self.turn(assumptions, entry.value, conflict),
        }
    }

    // Goes back from a conflict to the last choice that it depends on, and turns it. Answers the conflict that is left
    // where there is no such choice.
    fn back(
        &mut self,
        alloc: Global,
        clauses: &[LitList],
        assumptions: &[Lit],
        conflict: Hint,
    ) -> Result<Option<Hint>, Memory>
        requires search { IsSearch clauses.now assumptions.now self.old }
        requires assumptions { AtomsBelow self.old.atoms assumptions.now }
        requires conflict { IsConflict clauses.now self.old.steps assumptions.now self.old.entries.items conflict }
        ensures search { OnOk result (IsSearch clauses.now assumptions.now self.new) }
        ensures atoms { OnOk result (self.new.atoms ≡ self.old.atoms) }
        ensures turned { IfOk result (λ found. IfNone found (Turns self.old.entries.items self.new.entries.items)) }
        ensures left { IfOk result (λ found. IfSome found (IsConflict clauses.now self.new.steps assumptions.now [])) }
    {
        let mut conflict = conflict;
        while self.entries.len() > 0 {
            match self.undo(alloc, clauses, assumptions, conflict)? {
                Some(next) => conflict = next,
                None => return Ok(None),
            }
        }
        Ok(Some(conflict))
    }

    // Ends the derivation with the complements of the assumptions that the conflict depends on.
    fn refute(
        &mut self,
        alloc: Global,
        clauses: &[LitList],
        assumptions: &[Lit],
        conflict: Hint,
    ) -> Result<LitList, Memory>
        requires steps { AreGood clauses.now self.old.atoms self.old.steps }
        requires assumptions { AtomsBelow self.old.atoms assumptions.now }
        requires conflict { IsConflict clauses.now self.old.steps assumptions.now [] conflict }
        ensures core { IfOk result (λ core. IsCore clauses.now assumptions.now core self.old.atoms self.new.steps) }
        ensures atoms { OnOk result (self.new.atoms ≡ self.old.atoms) }
    {
        let core = core_of(
            alloc,
            assumptions,
            cited_clause(clauses, self.steps.as_slice(), conflict),
        )?;
        let clause = complements(alloc, core.as_slice())?;
        let hints = HintList::from(vec![in alloc; conflict]?);
        self.steps.push(Step { clause, hints })?;
        Ok(core)
    }

    // Answers a conflict: with a core, if it depends on assumptions alone.
    fn resolve(
        &mut self,
        alloc: Global,
        clauses: &[LitList],
        assumptions: &[Lit],
        conflict: Hint,
    ) -> Result<Option<Outcome>, Memory>
        requires search { IsSearch clauses.now assumptions.now self.old }
        requires assumptions { AtomsBelow self.old.atoms assumptions.now }
        requires conflict { IsConflict clauses.now self.old.steps assumptions.now self.old.entries.items conflict }
        ensures { IfOk result (Continues clauses.now assumptions.now self.old self.new) }
    {
        match self.back(alloc, clauses, assumptions, conflict)? {
            Some(left) => {
                let core = self.refute(alloc, clauses, assumptions, left)?;
                Ok(Some(Outcome::Unsat(core)))
            }
            None => Ok(None),
        }
    }

    // Where no clause is false: gives the next atom its value, if there is one.
    fn extend(
        &mut self,
        alloc: Global,
        clauses: &[LitList],
        assumptions: &[Lit],
    ) -> Result<Option<Outcome>, Memory>
        requires search { IsSearch clauses.now assumptions.now self.old }
        requires clauses { AllAtomsBelow self.old.atoms clauses.now }
        requires assumptions { AtomsBelow self.old.atoms assumptions.now }
        requires consistent { AreConsistent assumptions.now }
        requires rest { All (HasRest self.old.entries.items) clauses.now }
        ensures { IfOk result (Continues clauses.now assumptions.now self.old self.new) }
    {
        let atom = self.entries.len();
        if atom == self.atoms {
            let valuation = valuation_of(alloc, self.entries.as_slice())?;
            return Ok(Some(Outcome::Sat(valuation)));
        }
        let value = assumed_value(assumptions, atom).unwrap_or(false);
        self.entries.push(Entry {
            value,
            reason: None,
        })?;
        Ok(None)
    }

    // One value or one conflict on.
    fn advance(
        &mut self,
        alloc: Global,
        clauses: &[LitList],
        assumptions: &[Lit],
    ) -> Result<Option<Outcome>, Memory>
        requires search { IsSearch clauses.now assumptions.now self.old }
        requires clauses { AllAtomsBelow self.old.atoms clauses.now }
        requires assumptions { AtomsBelow self.old.atoms assumptions.now }
        requires consistent { AreConsistent assumptions.now }
        ensures { IfOk result (Continues clauses.now assumptions.now self.old self.new) }
    {
        match find_false(clauses, self.entries.as_slice()) {
            Some(conflict) => self.resolve(alloc, clauses, assumptions, conflict),
            None => self.extend(alloc, clauses, assumptions),
        }
    }

    fn run(
        &mut self,
        alloc: Global,
        clauses: &[LitList],
        assumptions: &[Lit],
    ) -> Result<Outcome, Memory>
        requires search { IsSearch clauses.now assumptions.now self.old }
        requires clauses { AllAtomsBelow self.old.atoms clauses.now }
        requires assumptions { AtomsBelow self.old.atoms assumptions.now }
        requires consistent { AreConsistent assumptions.now }
        ensures { IfOk result (IsOutcome clauses.now assumptions.now self.old.atoms self.new.steps) }
    {
        loop {
            if let Some(outcome) = self.advance(alloc, clauses, assumptions)? {
                return Ok(outcome);
            }
        }
    }
}

// The refutation of two assumptions that clash.
fn clash(alloc: Global, assumptions: &[Lit], lit: Lit) -> Result<Answer, Memory>
    requires lit { Contains assumptions.now lit }
    requires other { Contains assumptions.now (complement lit) }
    ensures { IfOk result (λ answer. (n : ℕ) (clauses : List (List (Signed ℕ))) → AtomsBelow n assumptions.now → IsAnswer n clauses assumptions.now answer) }
{
    let core = core_of(alloc, assumptions, &[lit, complement(lit)])?;
    let clause = complements(alloc, core.as_slice())?;
    let mut derivation = Derivation::new(alloc);
    derivation.push(Step {
        clause,
        hints: HintList::new(alloc),
    })?;
    Ok(Answer::Unsat { core, derivation })
}

// Whether the clauses and the assumptions can be true together, where no two assumptions clash.
fn run_search(
    alloc: Global,
    atoms: usize,
    clauses: &[LitList],
    assumptions: &[Lit],
) -> Result<Answer, Memory>
    requires clauses { AllAtomsBelow atoms clauses.now }
    requires assumptions { AtomsBelow atoms assumptions.now }
    requires consistent { AreConsistent assumptions.now }
    ensures { IfOk result (IsAnswer atoms clauses.now assumptions.now) }
{
    let mut search = Search {
        atoms,
        entries: Vec::new(alloc),
        steps: Derivation::new(alloc),
    };
    match search.run(alloc, clauses, assumptions)? {
        Outcome::Sat(valuation) => Ok(Answer::Sat(valuation)),
        Outcome::Unsat(core) => Ok(Answer::Unsat {
            core,
            derivation: search.steps,
        }),
    }
}

// Whether the clauses and the assumptions can be true together.
pub(crate) fn decide(
    alloc: Global,
    atoms: usize,
    clauses: &[LitList],
    assumptions: &[Lit],
) -> Result<Answer, Memory>
    requires clauses { AllAtomsBelow atoms clauses.now }
    requires assumptions { AtomsBelow atoms assumptions.now }
    ensures { IfOk result (IsAnswer atoms clauses.now assumptions.now) }
{
    match find_clash(assumptions) {
        Some(lit) => clash(alloc, assumptions, lit),
        None => run_search(alloc, atoms, clauses, assumptions),
    }
}
