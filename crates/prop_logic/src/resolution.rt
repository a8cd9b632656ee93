// The resolvent of two clauses. A literal is added where a scan does not find it, which is quadratic in their lengths and
// needs no set.
ghost use Rattle.std.specs.Prelude.{◌≡◌, ◌≢◌, ◌⊎◌, ℕ, All, Contains, IfOk, OnOk};
ghost use Rattle.inst_logic.specs.declared.signed.Signed.{Signed};
ghost use Rattle.prop_logic.specs.Search.{IsResolvent};

use crate::literal::{Lit, LitList, contains};
use inst_logic::Memory;
use std::alloc::Global;

// Adds the literal, unless it is there or is about the atom.
fn add_other(clause: &mut LitList, lit: Lit, atom: usize) -> Result<(), Memory>
    ensures kept { OnOk result ((l : Signed ℕ) → Contains clause.old l → Contains clause.new l) }
    ensures added { OnOk result ((lit.atom ≡ atom) ⊎ Contains clause.new lit) }
    ensures from { OnOk result ((l : Signed ℕ) → Contains clause.new l → Contains clause.old l ⊎ ((l ≡ lit) × (lit.atom ≢ atom))) }
{
    if lit.atom == atom || contains(clause.as_slice(), lit) {
        return Ok(());
    }
    clause.push(lit)?;
    Ok(())
}

// Adds the literals that are not about the atom.
fn add_others(clause: &mut LitList, literals: &[Lit], atom: usize) -> Result<(), Memory>
    ensures kept { OnOk result ((l : Signed ℕ) → Contains clause.old l → Contains clause.new l) }
    ensures added { OnOk result (All (λ l. (l.atom ≡ atom) ⊎ Contains clause.new l) literals.now) }
    ensures from { OnOk result ((l : Signed ℕ) → Contains clause.new l → Contains clause.old l ⊎ (Contains literals.now l × (l.atom ≢ atom))) }
{
    for lit in literals {
        add_other(clause, *lit, atom)?;
    }
    Ok(())
}

// The literals of both clauses that are not about the atom, each once.
pub(crate) fn resolvent(
    alloc: Global,
    first: &[Lit],
    second: &[Lit],
    atom: usize,
) -> Result<LitList, Memory>
    ensures { IfOk result (IsResolvent first.now second.now atom) }
{
    let mut clause = LitList::new(alloc);
    add_others(&mut clause, first, atom)?;
    add_others(&mut clause, second, atom)?;
    Ok(clause)
}
