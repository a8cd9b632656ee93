// Laws of runs at rest, and of solves.
ghost use Rattle.std.specs.Prelude.{◌≡◌, ℕ, [], List, Bool, map, length, true, All};
ghost use Rattle.inst_logic.specs.Truth.{IsTrueClause};
ghost use Rattle.inst_machine.specs.Machine.{change_all};
ghost use Rattle.prop_logic.specs.Valuation.{IsHeld};
ghost use Rattle.term_bank.specs.Forest.{tree_at};
ghost use Rattle.instgen_run.specs.Solves.{Solves};
ghost use Rattle.inst_logic.specs.declared.symbol.Sym.{Sym};
ghost use Rattle.inst_logic.specs.Tree.{Tree};
ghost use Rattle.inst_logic.specs.Clauses.{TreeClause};
ghost use Rattle.inst_logic.specs.WellFormed.{AreFormedClauses};
ghost use Rattle.inst_calculus.specs.Axioms.{equality_axioms, with_axioms};
ghost use Rattle.cert_format.specs.Certificate.{Base};
ghost use Rattle.cert_format.specs.Validity.{IsValidSaturation};
ghost use Rattle.engine_laws.specs.Pairs.{IsDecided};
ghost use Rattle.instgen_run.specs.Loops.{items, held_of};
ghost use Rattle.instgen_run.specs.Running.{IsRunning, entries_of, saturation_at};
ghost use Rattle.instgen_run.specs.Tended.{AreTended};

use instgen_run::{Partners, Run};
use prop_logic::Solver;
use term_index::PartnerIndex;

/// A run at rest of which nothing that was held back is open gives a valid saturation.
pub fn saturated_at_rest<S: Solver, I: PartnerIndex>(_run: &Run<S, I>, _partners: &Partners<I>)
    ensures { (base : Base) (bot : Sym) (budget : ℕ) (v : List Tree) → AreFormedClauses (with_axioms base.inputs) → base.axioms ≡ equality_axioms base.inputs
        → IsRunning S.atoms S.added _run.now bot (with_axioms base.inputs) budget v true → AreTended I.pairs _run.now _partners.now
        → _run.now.queue.items ≡ [] → length _run.now.selection.places ≡ length (items _run.now) → All (IsDecided (entries_of _run.now) _run.now.selection.places []) (held_of _run.now)
        → IsValidSaturation (saturation_at _run.now base) }
{}

/// A solve keeps the invariant, with the valuation that its flips lead to.
pub fn solve_is_kept<S: Solver, I: PartnerIndex>(_old: &Run<S, I>, _new: &Run<S, I>)
    ensures { (flips : List ℕ) → Solves S.atoms S.added _old.now _new.now flips → All (IsTrueClause (IsHeld _new.now.ground.valuation)) (S.added _old.now.ground.solver)
        → (bot : Sym) (cs : List TreeClause) (budget : ℕ) (v : List Tree) (b : Bool) → IsRunning S.atoms S.added _old.now bot cs budget v b
        → IsRunning S.atoms S.added _new.now bot cs budget (change_all v (map (tree_at _old.now.entries.bank) flips)) true }
{}
