// Subsumption (Robinson, A machine-oriented logic based on the resolution principle, 1965): a search for a place of each
// literal, depth first and with a stack of its own. The problem is NP-complete, so what can fail early comes first: signs,
// symbols and arguments without variables before any matching, then literals without variables, then large ones.
ghost use Rattle.std.specs.Prelude.{◌≡◌, ◌↔◌, ◌++◌, ◌∷◌, ◌<◌, ◌≤◌, ℕ, [], true, false, length, map, IfOk, IfSome, IfNone, OnOk, IsTrue, slice_index_or};
ghost use Rattle.std.specs.List.Sorted.{IsPermutation};
ghost use Rattle.inst_logic.specs.Clauses.{Subsumes};
ghost use Rattle.inst_logic.specs.Substitution.{Substitution};
ghost use Rattle.term_bank.specs.Forest.{IsClauseOf, clause_at};
ghost use Rattle.unify_core.specs.Matching.{AreMatches};
ghost use Rattle.clause_form.specs.Placements.{Goes, IsPlacedIn, HasPlaces, ArePlacedBy, IsPut, IsMissed, IsPlacing, no_literal, steps_of};
ghost use Rattle.clause_form.specs.declared.subsumption.Ranked.{Ranked};

use crate::clashes::may_become;
use inst_logic::Memory;
use std::alloc::Global;
use term_bank::{Bank, IdClause, IdLiteral};
use unify_core::Bindings;

// What is left to try for a literal: the candidates from one on, under the first bindings.
#[derive(Clone, Copy)]
struct Choice {
    literal: usize,
    from: usize,
    kept: usize,
}

// Whether nothing tells at a glance that the literal can't be put onto the other one.
fn may_go(bank: &Bank, l: &IdLiteral, m: &IdLiteral) -> bool
    requires left { l.now.atom < length bank.now.trees }
    requires right { m.now.atom < length bank.now.trees }
    ensures yes { result ≡ true → l.now.positive ≡ m.now.positive }
    ensures no { result ≡ false → (s : Substitution) → ¬ (Goes bank.now s l.now m.now) }
{
    if l.positive != m.positive {
        return false;
    }
    may_become(bank, l.atom, m.atom)
}

fn has_candidate(bank: &Bank, l: &IdLiteral, c: &[IdLiteral]) -> bool
    requires left { l.now.atom < length bank.now.trees }
    requires right { IsClauseOf bank.now c.now }
    ensures { result ≡ false → (s : Substitution) → ¬ (IsPlacedIn bank.now s l.now c.now) }
{
    for i in 0..c.len() {
        if may_go(bank, l, &c[i]) {
            return true;
        }
    }
    false
}

pub(crate) fn have_candidates(bank: &Bank, f: &[IdLiteral], c: &[IdLiteral]) -> bool
    requires left { IsClauseOf bank.now f.now }
    requires right { IsClauseOf bank.now c.now }
    ensures { result ≡ false → (s : Substitution) → ¬ (HasPlaces bank.now s f.now c.now) }
{
    for i in 0..f.len() {
        if !has_candidate(bank, &f[i], c) {
            return false;
        }
    }
    true
}

// Extends the bindings by those that put the literal onto the other one. False comes where no extension does.
fn put(bank: &Bank, bindings: &mut Bindings, l: &IdLiteral, m: &IdLiteral) -> Result<bool, Memory>
    requires left { l.now.atom < length bank.now.trees }
    requires right { m.now.atom < length bank.now.trees }
    requires matches { AreMatches bank.now bindings.old.entries }
    ensures yes { IfOk result (λ r. r ≡ true → IsPut bank.now bindings.old.entries bindings.new.entries l.now m.now) }
    ensures no { IfOk result (λ r. r ≡ false → IsMissed bank.now bindings.old.entries l.now m.now) }
    ensures kept { IfOk result (λ r. r ≡ false → bindings.new.entries ≡ bindings.old.entries) }
{
    if may_go(bank, l, m) {
        bindings.match_onto(bank, l.atom, m.atom)
    } else {
        Ok(false)
    }
}

// Puts the literal onto the first candidate from `from` on, and answers its place.
fn next_match(
    bank: &Bank,
    bindings: &mut Bindings,
    l: &IdLiteral,
    c: &[IdLiteral],
    from: usize,
) -> Result<Option<usize>, Memory>
    requires left { l.now.atom < length bank.now.trees }
    requires right { IsClauseOf bank.now c.now }
    requires matches { AreMatches bank.now bindings.old.entries }
    ensures within { IfOk result (λ r. IfSome r (λ j. (from ≤ j) × (j < length c.now))) }
    ensures put { IfOk result (λ r. IfSome r (λ j. IsPut bank.now bindings.old.entries bindings.new.entries l.now (slice_index_or c.now j no_literal))) }
    ensures before { IfOk result (λ r. IfSome r (λ j. (i : ℕ) → from ≤ i → i < j → IsMissed bank.now bindings.old.entries l.now (slice_index_or c.now i no_literal))) }
    ensures all { IfOk result (λ r. IfNone r ((i : ℕ) → from ≤ i → i < length c.now → IsMissed bank.now bindings.old.entries l.now (slice_index_or c.now i no_literal))) }
    ensures kept { IfOk result (λ r. IfNone r (bindings.new.entries ≡ bindings.old.entries)) }
{
    for i in from..c.len() {
        if put(bank, bindings, l, &c[i])? {
            return Ok(Some(i));
        }
    }
    Ok(None)
}

// Puts the literal of the last choice onto its next candidate: what is left of the choice, and the next literal, come last.
// Where nothing new is bound, the other candidates allow nothing more, and what is left of the choice is dropped.
fn advance(
    bank: &Bank,
    bindings: &mut Bindings,
    choices: &mut Vec<Choice>,
    f: &[IdLiteral],
    c: &[IdLiteral],
    choice: Choice,
) -> Result<(), Memory>
    requires left { IsClauseOf bank.now f.now }
    requires right { IsClauseOf bank.now c.now }
    requires within { choice.literal < length f.now }
    requires placing { IsPlacing bank.now f.now c.now bindings.old.entries (choices.old.items ++ choice ∷ []) }
    ensures placing { OnOk result (IsPlacing bank.now f.now c.now bindings.new.entries choices.new.items) }
    ensures falls { OnOk result (steps_of (length f.now) (length c.now) choices.new.items < steps_of (length f.now) (length c.now) (choices.old.items ++ choice ∷ [])) }
{
    bindings.truncate(choice.kept);
    match next_match(bank, bindings, &f[choice.literal], c, choice.from)? {
        None => Ok(()),
        Some(i) => {
            let bound = bindings.len();
            if bound > choice.kept {
                choices.push(Choice {
                    from: i + 1,
                    ..choice
                })?;
            }
            choices.push(Choice {
                literal: choice.literal + 1,
                from: 0,
                kept: bound,
            })?;
            Ok(())
        }
    }
}

// Depth first: the choice that was made last is tried first.
fn search_places(
    bank: &Bank,
    bindings: &mut Bindings,
    choices: &mut Vec<Choice>,
    f: &[IdLiteral],
    c: &[IdLiteral],
) -> Result<bool, Memory>
    requires left { IsClauseOf bank.now f.now }
    requires right { IsClauseOf bank.now c.now }
    requires placing { IsPlacing bank.now f.now c.now bindings.old.entries choices.old.items }
    ensures yes { IfOk result (λ r. r ≡ true → (s : Substitution) × HasPlaces bank.now s f.now c.now) }
    ensures placed { IfOk result (λ r. r ≡ true → ArePlacedBy bank.now bindings.new.entries f.now c.now) }
    ensures no { IfOk result (λ r. r ≡ false → (s : Substitution) → ¬ (HasPlaces bank.now s f.now c.now)) }
{
    loop {
        match choices.pop() {
            None => return Ok(false),
            Some(choice) => {
                if choice.literal == f.len() {
                    return Ok(true);
                }
                advance(bank, bindings, choices, f, c, choice)?;
            }
        }
    }
}

// A literal, and its rank in the order in which literals are placed.
#[derive(Clone, Copy)]
struct Ranked {
    rank: u64,
    literal: IdLiteral,
}

// The fewer places a literal may have, the lower: those without variables come first, then the largest.
fn rank_of(bank: &Bank, l: &IdLiteral) -> u64
    requires { l.now.atom < length bank.now.trees }
{
    if bank.ground(l.atom) {
        0
    } else {
        u64::MAX - bank.size(l.atom)
    }
}

fn with_ranks(alloc: Global, bank: &Bank, f: &[IdLiteral]) -> Result<Vec<Ranked>, Memory>
    requires { IsClauseOf bank.now f.now }
    ensures { IfOk result (λ v. map (λ (r : Ranked). r.literal) v.items ≡ f.now) }
{
    let mut all = Vec::new(alloc);
    for l in f {
        all.push(Ranked {
            rank: rank_of(bank, l),
            literal: *l,
        })?;
    }
    Ok(all)
}

fn literals_of(alloc: Global, all: &[Ranked]) -> Result<Vec<IdLiteral>, Memory>
    ensures { IfOk result (λ v. v.items ≡ map (λ (r : Ranked). r.literal) all.now) }
{
    let mut literals = Vec::new(alloc);
    for r in all {
        literals.push(r.literal)?;
    }
    Ok(literals)
}

// The literals in the order in which they are placed.
pub(crate) fn by_rank(alloc: Global, bank: &Bank, f: &[IdLiteral]) -> Result<Vec<IdLiteral>, Memory>
    requires { IsClauseOf bank.now f.now }
    ensures { IfOk result (λ v. IsPermutation f.now v.items) }
{
    let mut all = with_ranks(alloc, bank, f)?;
    all.sort_by_key(|r| r.rank)?;
    literals_of(alloc, &all)
}

// Whether the first clause subsumes the second, where its literals are in the order in which they are placed, and the bindings
// are empty.
pub(crate) fn place_all(
    alloc: Global,
    bank: &Bank,
    bindings: &mut Bindings,
    ordered: &[IdLiteral],
    c: &[IdLiteral],
) -> Result<bool, Memory>
    requires left { IsClauseOf bank.now ordered.now }
    requires right { IsClauseOf bank.now c.now }
    requires empty { bindings.old ≡ record { entries = []; spent = false } }
    ensures yes { IfOk result (λ r. r ≡ true → (s : Substitution) × HasPlaces bank.now s ordered.now c.now) }
    ensures placed { IfOk result (λ r. r ≡ true → ArePlacedBy bank.now bindings.new.entries ordered.now c.now) }
    ensures no { IfOk result (λ r. r ≡ false → (s : Substitution) → ¬ (HasPlaces bank.now s ordered.now c.now)) }
{
    let mut choices = Vec::new(alloc);
    choices.push(Choice {
        literal: 0,
        from: 0,
        kept: 0,
    })?;
    search_places(bank, bindings, &mut choices, ordered, c)
}

// Whether some substitution puts each literal of the first clause onto one of the second.
fn find_places(alloc: Global, bank: &Bank, f: &[IdLiteral], c: &[IdLiteral]) -> Result<bool, Memory>
    requires left { IsClauseOf bank.now f.now }
    requires right { IsClauseOf bank.now c.now }
    ensures { IfOk result (λ r. IsTrue r ↔ Subsumes (clause_at bank.now f.now) (clause_at bank.now c.now)) }
{
    if !have_candidates(bank, f, c) {
        return Ok(false);
    }
    let ordered = by_rank(alloc, bank, f)?;
    let mut bindings = Bindings::new(alloc);
    place_all(alloc, bank, &mut bindings, &ordered, c)
}

/// Whether some instance of `f` has all its literals among those of `c`. Two literals of `f` may go to one of `c`. At worst
/// the time is exponential in the number of literals of `f`.
pub fn subsumes(alloc: Global, bank: &Bank, f: &IdClause, c: &IdClause) -> Result<bool, Memory>
    requires pattern { IsClauseOf bank.now f.now }
    requires target { IsClauseOf bank.now c.now }
    ensures { IfOk result (λ r. IsTrue r ↔ Subsumes (clause_at bank.now f.now) (clause_at bank.now c.now)) }
{
    find_places(alloc, bank, f.as_slice(), c.as_slice())
}
