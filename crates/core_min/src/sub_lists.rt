// Sub-lists and their own axioms of equality: what a smaller list has, a larger one has too. The two answers for a list exclude
// each other.
ghost use Rattle.std.specs.Prelude.{List, All, Contains};
ghost use Rattle.inst_logic.specs.Clauses.{TreeClause};
ghost use Rattle.inst_calculus.specs.Axioms.{with_axioms};
ghost use Rattle.core_min.specs.Cores.{HasRefutation, HasSelection};

/// The axioms of clauses are among those of every list that has the clauses.
pub fn axioms_of_sub_list()
    ensures { (cs ds : List TreeClause) → All (Contains ds) cs → All (Contains (with_axioms ds)) (with_axioms cs) }
{}

/// What is refuted stays so with more clauses.
pub fn refuted_when_grown()
    ensures { (cs ds : List TreeClause) → All (Contains ds) cs → HasRefutation cs → HasRefutation ds }
{}

/// What is satisfiable stays so with fewer clauses, and is not refuted.
pub fn satisfiable_when_shrunk()
    ensures fewer { (cs ds : List TreeClause) → All (Contains ds) cs → HasSelection ds → HasSelection cs }
    ensures not_refuted { (cs : List TreeClause) → HasSelection cs → ¬ HasRefutation cs }
{}
