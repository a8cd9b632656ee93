// Literals that are true or false by the values of atoms.
ghost use Rattle.std.specs.Prelude.{◌≡◌, ◌<◌, ℕ, All, Contains, length, not, true, false, IfSome, IfNone};
ghost use Rattle.inst_logic.specs.declared.signed.Signed.{Signed};
ghost use Rattle.prop_logic.specs.Valuation.{value_at};
ghost use Rattle.global_subs.specs.Keeping.{IsTrueIn};

use compact_lists::PackedLit;
use inst_logic::Memory;
use prop_logic::{Lit, Valuation};

// Whether the literal is true.
pub fn is_true(values: &Valuation, l: Lit) -> bool
    ensures yes { result ≡ true → IsTrueIn values.now l }
    ensures no { result ≡ false → value_at values.now l.atom ≡ not l.positive }
{
    values.value(l.atom) == l.positive
}

// The first true literal of a stored clause.
pub fn true_in(clause: &[PackedLit], values: &Valuation) -> Option<Lit>
    ensures some { IfSome result (λ l. Contains clause.now l × IsTrueIn values.now l) }
    ensures none { IfNone result (All (λ l. value_at values.now l.atom ≡ not l.positive) clause.now) }
{
    for packed in clause {
        let l = packed.lit();
        if is_true(values, l) {
            return Some(l);
        }
    }
    None
}

// The first true literal of a clause.
pub fn true_of(clause: &[Lit], values: &Valuation) -> Option<Lit>
    ensures some { IfSome result (λ l. Contains clause.now l × IsTrueIn values.now l) }
    ensures none { IfNone result (All (λ l. value_at values.now l.atom ≡ not l.positive) clause.now) }
{
    for l in clause {
        if is_true(values, *l) {
            return Some(*l);
        }
    }
    None
}

// Gives the atoms these values: then all values are these, where those of the other atoms were.
pub fn take_values(values: &mut Valuation, new: &Valuation, atoms: &[usize])
    requires { All (λ a. a < length values.old) atoms.now }
    ensures len { length values.new ≡ length values.old }
    ensures same { ((a : ℕ) → ¬ Contains atoms.now a → value_at values.old a ≡ value_at new.now a) → (a : ℕ) → value_at values.new a ≡ value_at new.now a }
{
    for a in atoms {
        values.set(*a, new.value(*a));
    }
}
