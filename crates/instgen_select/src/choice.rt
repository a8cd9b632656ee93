// The selection of a literal. A place is kept as long as it serves, so that an entry is worked again only where it has to be.
ghost use Rattle.std.specs.Prelude.{◌≡◌, ◌<◌, ◌≤◌, ℕ, length, true, false, None, IfSome};
ghost use Rattle.inst_logic.specs.Truth.{IsTrueLiteral};
ghost use Rattle.prop_logic.specs.Valuation.{IsHeld};
ghost use Rattle.instgen_select.specs.Choices.{IsTrueAt, IsChosen};

use compact_lists::{Literals, PackedLit};
use prop_logic::{Lit, LitList, Valuation};

fn is_true(l: Lit, v: &Valuation) -> bool
    ensures yes { result ≡ true → IsTrueLiteral (IsHeld v.now) l }
    ensures no { result ≡ false → ¬ IsTrueLiteral (IsHeld v.now) l }
{
    v.value(l.atom) == l.positive
}

fn first_true(clause: &Literals, v: &Valuation) -> Option<usize>
    ensures some { IfSome result (λ q. IsTrueAt clause.now v.now q × ((p : ℕ) → p < q → ¬ IsTrueAt clause.now v.now p)) }
    ensures none { result ≡ None → (p : ℕ) → ¬ IsTrueAt clause.now v.now p }
{
    for i in 0..clause.len() {
        if is_true(clause.at(i), v) {
            return Some(i + 1);
        }
    }
    None
}

// Whether the literal at the old place is true.
fn is_kept(old: Option<usize>, clause: &Literals, v: &Valuation) -> bool
    requires { IfSome old (λ p. (0 < p) × (p ≤ length clause.now)) }
    ensures yes { result ≡ true → IsChosen old clause.now v.now old }
    ensures no { result ≡ false → IfSome old (λ p. ¬ IsTrueAt clause.now v.now p) }
{
    match old {
        None => false,
        Some(p) => is_true(clause.at(p - 1), v),
    }
}

// The place of a true literal: the old one where its literal is true, else the first.
fn choose_in(old: Option<usize>, clause: &Literals, v: &Valuation) -> Option<usize>
    requires place { IfSome old (λ p. (0 < p) × (p ≤ length clause.now)) }
    ensures chosen { IsChosen old clause.now v.now result }
{
    if is_kept(old, clause, v) {
        return old;
    }
    first_true(clause, v)
}

/// The place of a true literal, counted from 1: the old place where its literal is true in the valuation, else the first.
pub fn choose_among(old: Option<usize>, literals: &[PackedLit], v: &Valuation) -> Option<usize>
    requires place { IfSome old (λ p. (0 < p) × (p ≤ length literals.now)) }
    ensures chosen { IsChosen old literals.now v.now result }
{
    choose_in(old, &Literals::of_packed(literals), v)
}

/// As `choose_among`, for a clause in a list of its own.
pub fn choose(old: Option<usize>, clause: &LitList, v: &Valuation) -> Option<usize>
    requires place { IfSome old (λ p. (0 < p) × (p ≤ length clause.now)) }
    ensures chosen { IsChosen old clause.now v.now result }
{
    choose_in(old, &Literals::plain(clause.as_slice()), v)
}
