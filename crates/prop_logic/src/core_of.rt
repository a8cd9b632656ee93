// Cores of assumptions, and assumptions that clash. Literals are found by scans of the list, so the time is quadratic in its
// length: the plain solver is made to be read, and not for many assumptions.
ghost use Rattle.std.specs.Prelude.{◌≡◌, ◌≢◌, ℕ, All, Contains, Some, IfOk, IfSome, IfNone, slice_get};
ghost use Rattle.inst_logic.specs.declared.signed.Signed.{Signed};
ghost use Rattle.inst_logic.specs.Signed.{complement};
ghost use Rattle.prop_logic.specs.Solving.{IsSubList};
ghost use Rattle.prop_logic.specs.Search.{AreConsistent, literal_of};

use crate::literal::{Lit, LitList, complement, contains};
use inst_logic::Memory;
use std::alloc::Global;

// The value that is assumed of the atom.
pub(crate) fn assumed_value(assumptions: &[Lit], atom: usize) -> Option<bool>
    ensures some { IfSome result (λ value. Contains assumptions.now (literal_of atom value)) }
    ensures none { IfNone result (All (λ l. l.atom ≢ atom) assumptions.now) }
{
    for lit in assumptions {
        if lit.atom == atom {
            return Some(lit.positive);
        }
    }
    None
}

// An assumption whose complement is assumed too.
pub(crate) fn find_clash(assumptions: &[Lit]) -> Option<Lit>
    ensures some { IfSome result (λ l. Contains assumptions.now l × Contains assumptions.now (complement l)) }
    ensures none { IfNone result (AreConsistent assumptions.now) }
{
    for lit in assumptions {
        if contains(assumptions, complement(*lit)) {
            return Some(*lit);
        }
    }
    None
}

// The assumptions whose complements are in the clause.
pub(crate) fn core_of(alloc: Global, assumptions: &[Lit], clause: &[Lit]) -> Result<LitList, Memory>
    ensures within { IfOk result (λ core. IsSubList core assumptions.now) }
    ensures whole { IfOk result (λ core. All (λ l. Contains clause.now (complement l) → Contains core l) assumptions.now) }
{
    let mut core = LitList::new(alloc);
    for lit in assumptions {
        if !contains(clause, complement(*lit)) {
            continue;
        }
        core.push(*lit)?;
    }
    Ok(core)
}
