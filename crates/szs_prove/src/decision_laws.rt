// Which problems may be decided.
ghost use Rattle.inst_logic.specs.declared.clause.Problem.{Problem};
ghost use Rattle.tptp_load.specs.Problems.{IsGoodProblem};
ghost use Rattle.cert_format.specs.Printable.{IsPrintableProblem};

/// A problem that was loaded can be decided.
pub fn loaded_problems_are_printable()
    ensures { (p : Problem) → IsGoodProblem p → IsPrintableProblem p }
{}
