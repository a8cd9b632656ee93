// What tells at a glance, and without taking memory, that no substitution makes one term another: the symbol at the root, or a
// term without variables there or among the arguments.
ghost use Rattle.std.specs.Prelude.{◌≡◌, ◌<◌, ℕ, length, true, false};
ghost use Rattle.inst_logic.specs.Substitution.{Substitution, subst};
ghost use Rattle.inst_logic.specs.Unifiers.{IsApplication};
ghost use Rattle.term_bank.specs.Forest.{AreDistinct, is_ground, symbol_of, tree_at};
ghost use Rattle.unify_core.specs.Lists.{◌∈◌};
ghost use Rattle.unify_core.specs.Meeting.{Meeting, meetings};

use term_bank::{Bank, Shape, TermId};

fn have_one_symbol(bank: &Bank, a: TermId, b: TermId) -> bool
    requires left { a < length bank.now.trees }
    requires right { b < length bank.now.trees }
    ensures { result ≡ false → ¬ (symbol_of (tree_at bank.now a) ≡ symbol_of (tree_at bank.now b)) }
{
    bank.symbol_number(a) == bank.symbol_number(b)
}

// Whether the first is another term than the second, and has no variables.
fn is_fixed_else(bank: &Bank, a: TermId, b: TermId) -> bool
    requires { a < length bank.now.trees }
    ensures ground { result ≡ true → is_ground (tree_at bank.now a) ≡ true }
    ensures other { result ≡ true → ¬ (a ≡ b) }
{
    if a == b {
        return false;
    }
    bank.ground(a)
}

// Whether a term without variables stands where the other list has another term.
fn has_clash(bank: &Bank, xs: &[TermId], ys: &[TermId]) -> bool
    requires lengths { length xs.now ≡ length ys.now }
    requires within { (x : ℕ) → x ∈ xs.now → x < length bank.now.trees }
    ensures { result ≡ true → (m : Meeting) × (m ∈ meetings xs.now ys.now) × (is_ground (tree_at bank.now m.0) ≡ true) × (¬ (m.0 ≡ m.1)) }
{
    for (i, x) in xs.iter().enumerate() {
        if is_fixed_else(bank, *x, ys[i]) {
            return true;
        }
    }
    false
}

fn arguments_may_become(bank: &Bank, pattern: TermId, target: TermId) -> bool
    requires once { AreDistinct bank.now.trees }
    requires pattern { pattern < length bank.now.trees }
    requires target { target < length bank.now.trees }
    requires application { IsApplication (tree_at bank.now pattern) }
    ensures { result ≡ false → (s : Substitution) → ¬ (subst s (tree_at bank.now pattern) ≡ tree_at bank.now target) }
{
    let xs = bank.args(pattern);
    let ys = bank.args(target);
    if !have_one_symbol(bank, pattern, target) {
        return false;
    }
    if xs.len() != ys.len() {
        return false;
    }
    !has_clash(bank, xs, ys)
}

// Whether nothing tells that no substitution makes the pattern the target.
pub fn may_become(bank: &Bank, pattern: TermId, target: TermId) -> bool
    requires pattern { pattern < length bank.now.trees }
    requires target { target < length bank.now.trees }
    ensures { result ≡ false → (s : Substitution) → ¬ (subst s (tree_at bank.now pattern) ≡ tree_at bank.now target) }
{
    bank.distinct();
    if bank.ground(pattern) {
        return pattern == target;
    }
    match bank.shape(pattern) {
        Shape::Var(_) => true,
        Shape::App => arguments_may_become(bank, pattern, target),
    }
}
