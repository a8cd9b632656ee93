// Whether a step is shown, by reverse unit propagation along its hints (Cruz-Filipe and others, Efficient certified RAT
// verification, 2017). A marked literal is one that is taken to be false.
ghost use Rattle.std.specs.Prelude.{◌≡◌, ◌↔◌, ◌++◌, List, ℕ, map, All, Contains, IsTrue, IfSome, MatchOption, option_copied};
ghost use Rattle.inst_logic.specs.declared.signed.Signed.{Signed};
ghost use Rattle.inst_logic.specs.Signed.{complement, IsTautology};
ghost use Rattle.inst_logic.specs.Derivations.{IsOnlyOutside};
ghost use Rattle.prop_logic.specs.Literal.{cited, IsShownStep, AtomsBelow, AllAtomsBelow, StepsBelow};
ghost use Rattle.proof_log.specs.Marks.{room, Holds};
ghost use Rattle.prop_logic.specs.Analysis.{ClosesAll};

use crate::marks::Marks;
use prop_logic::{Hint, Lit, LitList, Step, complement};

// Marks the literals of the clause.
fn mark_all(marks: &mut Marks, clause: &[Lit])
    requires { AtomsBelow (room marks.old) clause.now }
    ensures room { room marks.new ≡ room marks.old }
    ensures marked { (F : List (Signed ℕ)) → Holds marks.old F → Holds marks.new (F ++ clause.now) }
{
    for lit in clause {
        marks.insert(*lit);
    }
}

// Whether every literal is marked.
fn all_marked(marks: &Marks, clause: &[Lit]) -> bool
    requires { AtomsBelow (room marks.now) clause.now }
    ensures { (F : List (Signed ℕ)) → Holds marks.now F → (IsTrue result ↔ All (Contains F) clause.now) }
{
    for lit in clause {
        if !marks.contains(*lit) {
            return false;
        }
    }
    true
}

// The one literal that is not marked, if there is exactly one. A repeated literal counts once.
fn only_unmarked(marks: &Marks, clause: &[Lit]) -> Option<Lit>
    requires { AtomsBelow (room marks.now) clause.now }
    ensures here { IfSome result (λ l. Contains clause.now l) }
    ensures outside { (F : List (Signed ℕ)) → Holds marks.now F → MatchOption result ((l : Signed ℕ) → IsOnlyOutside F clause.now l → ⊥) (λ l. IsOnlyOutside F clause.now l) }
{
    let mut found: Option<Lit> = None;
    for lit in clause {
        if !marks.contains(*lit) {
            match found {
                None => found = Some(*lit),
                Some(other) => {
                    if other != *lit {
                        return None;
                    }
                }
            }
        }
    }
    found
}

// Whether the clause, whose literals are marked, has a literal and its complement.
fn is_tautology(marks: &Marks, clause: &[Lit]) -> bool
    requires atoms { AtomsBelow (room marks.now) clause.now }
    requires marked { Holds marks.now clause.now }
    ensures { IsTrue result ↔ IsTautology clause.now }
{
    for lit in clause {
        if marks.contains(complement(*lit)) {
            return true;
        }
    }
    false
}

// The clause that the hint cites.
fn find_cited<'a>(given: &'a [LitList], earlier: &'a [Step], hint: Hint) -> Option<&'a LitList>
    ensures { option_copied result ≡ cited given.now earlier.now hint }
{
    match hint {
        Hint::Added(n) => {
            if 0 < n && n <= given.len() {
                Some(&given[n - 1])
            } else {
                None
            }
        }
        Hint::Step(n) => {
            if 0 < n && n <= earlier.len() {
                Some(&earlier[n - 1].clause)
            } else {
                None
            }
        }
    }
}

// Whether the hints lead to a clause with all its literals marked.
fn closes(marks: &mut Marks, given: &[LitList], earlier: &[Step], hints: &[Hint]) -> bool
    requires given { AllAtomsBelow (room marks.old) given.now }
    requires earlier { StepsBelow (room marks.old) earlier.now }
    ensures room { room marks.new ≡ room marks.old }
    ensures closed { (F : List (Signed ℕ)) → Holds marks.old F → (IsTrue result ↔ ClosesAll F (map (cited given.now earlier.now) hints.now)) }
{
    for (i, hint) in hints.iter().enumerate() {
        let Some(clause) = find_cited(given, earlier, *hint) else {
            return false;
        };
        if i + 1 == hints.len() {
            return all_marked(marks, clause.as_slice());
        }
        match only_unmarked(marks, clause.as_slice()) {
            Some(l) => marks.insert(complement(l)),
            None => return false,
        }
    }
    false
}

// Whether the step is shown from the given clauses and the earlier steps.
pub(crate) fn is_shown(marks: &mut Marks, given: &[LitList], earlier: &[Step], step: &Step) -> bool
    requires given { AllAtomsBelow (room marks.old) given.now }
    requires earlier { StepsBelow (room marks.old) earlier.now }
    requires step { AtomsBelow (room marks.old) step.now.clause }
    ensures room { room marks.new ≡ room marks.old }
    ensures shown { IsTrue result ↔ IsShownStep given.now earlier.now step.now }
{
    marks.clear();
    let clause = step.clause.as_slice();
    mark_all(marks, clause);
    let hints = step.hints.as_slice();
    if hints.is_empty() {
        is_tautology(marks, clause)
    } else {
        closes(marks, given, earlier, hints)
    }
}
