// What a run is free to choose.
ghost use Rattle.std.specs.Prelude.{◌≡◌, None};

use prop_logic::Solver;

/// What a run may choose freely. Choices change how long it takes, and which of the right outcomes it has: none of them changes what
/// is proved of the outcome.
#[derive(Drop)]
pub struct Choices<S: Solver> {
    /// A solver without atoms. Before the run it is asked for a valuation of the clauses and their axioms in which an atom's value is
    /// that of its predicate. Where there is one, searches try these values first. It is not asked where no clause has a variable,
    /// since the run itself is then that question. Without it first values are the solver's own.
    pub first_values: Option<S>,
    /// The run is given up where it has more entries than so many: those of the problem's clauses and of their axioms count too. It
    /// looks at the number after each solve.
    pub most_entries: Option<usize>,
}

impl<S: Solver> Choices<S> {
    /// Nothing is chosen: what `run` does.
    pub fn plain() -> Choices<S>
        ensures unbounded { result.most_entries ≡ None }
    {
        Choices {
            first_values: None,
            most_entries: None,
        }
    }
}
