// The forms as relations: each text is read, or has exactly one refusal.
ghost use Rattle.std.specs.Prelude.{◌≡◌, ◌↔◌, ◌⊎◌, ◌≤◌, ℕ, List, [], Ok, Err};
ghost use Rattle.qbf_logic.specs.Translation.{measure};
ghost use Rattle.dimacs_front.specs.Form.{reading};
ghost use Rattle.dimacs_front.specs.Dimacs.{IsDimacs};
ghost use Rattle.dimacs_front.specs.Refusals.{IsRefusal};
ghost use Rattle.dimacs_front.specs.Qdimacs.{IsQdimacs};
ghost use Rattle.dimacs_front.specs.FormulaRefusals.{IsFormulaRefusal};
ghost use Rattle.dimacs_front.specs.Quantified.{formula_in};
ghost use Rattle.dimacs_front.specs.declared.cnf.Cnf.{Cnf};
ghost use Rattle.dimacs_front.specs.declared.cnf.Qbf.{Qbf};
ghost use Rattle.dimacs_front.specs.declared.error.DimacsError.{DimacsError};
ghost use Rattle.dimacs_front.specs.declared.error.DimacsError.TheVariants as errors;

/// A text is read as clauses exactly where its tokens are a header and the spellings of these clauses.
pub fn read_as_spelled()
    ensures { (text : List ℕ) (cnf : Cnf) → IsDimacs text cnf ↔ (reading text ≡ Ok cnf) }
{}

/// Each text is read as clauses or has exactly one refusal, and that is never of a variable that is quantified twice.
pub fn read_or_refused()
    ensures same { (text : List ℕ) (e : DimacsError) → IsRefusal text e ↔ (reading text ≡ Err e) }
    ensures some { (text : List ℕ) → ((cnf : Cnf) × IsDimacs text cnf) ⊎ ((e : DimacsError) × IsRefusal text e) }
    ensures not_both { (text : List ℕ) (cnf : Cnf) (e : DimacsError) → IsDimacs text cnf → ¬ IsRefusal text e }
    ensures one { (text : List ℕ) (d e : DimacsError) → IsRefusal text d → IsRefusal text e → d ≡ e }
    ensures never_twice { (text : List ℕ) (line : ℕ) → ¬ IsRefusal text (errors.Twice line) }
{}

/// A text is read as a formula exactly where its tokens are a header, lines of quantifiers and the spellings of these clauses, and
/// the formula is within the limits.
pub fn formula_as_spelled()
    ensures { (text : List ℕ) (q : Qbf) → IsQdimacs text q ↔ (formula_in text ≡ Ok q) }
{}

/// Each text is read as a formula or has exactly one refusal.
pub fn formula_or_refused()
    ensures same { (text : List ℕ) (e : DimacsError) → IsFormulaRefusal text e ↔ (formula_in text ≡ Err e) }
    ensures some { (text : List ℕ) → ((q : Qbf) × IsQdimacs text q) ⊎ ((e : DimacsError) × IsFormulaRefusal text e) }
    ensures not_both { (text : List ℕ) (q : Qbf) (e : DimacsError) → IsQdimacs text q → ¬ IsFormulaRefusal text e }
    ensures one { (text : List ℕ) (d e : DimacsError) → IsFormulaRefusal text d → IsFormulaRefusal text e → d ≡ e }
{}

/// A text spells one list of clauses at most, and one formula at most.
pub fn one_spelling()
    ensures clauses { (text : List ℕ) (c d : Cnf) → IsDimacs text c → IsDimacs text d → c ≡ d }
    ensures formulas { (text : List ℕ) (p q : Qbf) → IsQdimacs text p → IsQdimacs text q → p ≡ q }
{}

/// Clauses are a formula without quantifiers, where their measure is within the limit.
pub fn clauses_alone()
    ensures { (text : List ℕ) (cnf : Cnf) → IsDimacs text cnf → measure [] cnf.clauses ≤ 10000000 → IsQdimacs text (record { prefix = []; matrix = cnf }) }
{}
