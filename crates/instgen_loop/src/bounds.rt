// Laws that bound the entries of a run.
ghost use Rattle.std.specs.Prelude.{◌≡◌, ◌≤◌, ℕ, suc, List, Bool, Some, length};
ghost use Rattle.inst_logic.specs.declared.symbol.Sym.{Sym};
ghost use Rattle.inst_logic.specs.Tree.{Tree};
ghost use Rattle.inst_logic.specs.Clauses.{TreeClause};
ghost use Rattle.inst_logic.specs.WellFormed.{AreFormedClauses};
ghost use Rattle.instgen_run.specs.Loops.{items};
ghost use Rattle.instgen_run.specs.Running.{IsRunning, IsRunningFor, events_so_far, most_entries};
ghost use Rattle.instgen_loop.specs.Outcomes.{appended_count};

use instgen_run::Run;
use prop_logic::Solver;
use term_index::PartnerIndex;

/// A run on well-formed clauses has no more entries than its clauses and its budget allow. Where there is a budget, it appended
/// at most one entry more than the budget has symbols: an empty part.
pub fn entries_are_bounded<S: Solver, I: PartnerIndex>(_run: &Run<S, I>)
    ensures entries { (cs : List TreeClause) (budget : ℕ) → AreFormedClauses cs → IsRunningFor S.atoms S.added _run.now cs budget → length (items _run.now) ≤ most_entries cs budget }
    ensures appended { (bot : Sym) (cs : List TreeClause) (budget : ℕ) (v : List Tree) (b : Bool) → IsRunning S.atoms S.added _run.now bot cs budget v b
        → (left : ℕ) → _run.now.left ≡ Some left → appended_count (events_so_far _run.now) ≤ suc budget }
{}
