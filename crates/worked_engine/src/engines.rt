// Runs on the problems of rows, with each solver and each index.
ghost use Rattle.std.specs.Prelude.{◌≡◌, []};
ghost use Rattle.tptp_load.specs.Problems.{IsGoodProblem};

use crate::outcomes::{Row, Told, tell, tell_or_given_up};
use crate::problems::problem_of;
use cdcl_core::Cdcl;
use inst_logic::Problem;
use instgen_loop::{Choices, run, run_with};
use prop_logic::{Plain, Solver};
use std::alloc::Global;
use std::test::Fail;
use term_index::{PartnerIndex, Rows, Tree};
use worked_index::Refusing;

// What the run on the problem says of the row.
#[tactic(auto, using(std::proofs::lemmas::Grind::common_steps, crate::proofs::Printable::printable_clauses, crate::proofs::Printable::readable_names))]
fn told_by<S: Solver, I: PartnerIndex>(
    alloc: Global,
    p: &Problem,
    row: &Row,
    solver: S,
    known: S,
    last: S,
    positive: I,
    negative: I,
    first: I,
) -> Result<Told, Fail>
    requires good { IsGoodProblem p.now }
    requires atoms { S.atoms solver ≡ 0 }
    requires added { S.added solver ≡ [] }
    requires known_atoms { S.atoms known ≡ 0 }
    requires known_added { S.added known ≡ [] }
    requires last_atoms { S.atoms last ≡ 0 }
    requires last_added { S.added last ≡ [] }
    requires positive { I.pairs positive ≡ [] }
    requires negative { I.pairs negative ≡ [] }
    requires first { I.pairs first ≡ [] }
{
    let answer = run(
        alloc,
        p,
        solver,
        known,
        last,
        positive,
        negative,
        first,
        u64::from(row.budget),
    );
    tell(alloc, answer, row)
}

// What serves the run.
#[derive(Clone, Copy, Debug, PartialEq, Eq)]
pub enum Engine {
    PlainRows,
    CdclTree,
    // The learning solver, where another such solver is asked for first values, and the run is given up above so many entries.
    FirstValues { most_entries: Option<usize> },
    // Walks over the indexes of selected literals refuse to begin, or those over that of first literals do.
    Refusing { partners: bool, first: bool },
}

fn with_plain(alloc: Global, p: &Problem, row: &Row) -> Result<Told, Fail>
    requires { IsGoodProblem p.now }
{
    told_by(
        alloc,
        p,
        row,
        Plain::new(alloc),
        Plain::new(alloc),
        Plain::new(alloc),
        Rows::new(alloc),
        Rows::new(alloc),
        Rows::new(alloc),
    )
}

fn with_cdcl(alloc: Global, p: &Problem, row: &Row) -> Result<Told, Fail>
    requires { IsGoodProblem p.now }
{
    told_by(
        alloc,
        p,
        row,
        Cdcl::new(alloc),
        Cdcl::new(alloc),
        Cdcl::new(alloc),
        Tree::new(alloc),
        Tree::new(alloc),
        Tree::new(alloc),
    )
}

#[tactic(auto, using(std::proofs::lemmas::Grind::common_steps, crate::proofs::Printable::printable_clauses, crate::proofs::Printable::readable_names))]
fn with_first_values(
    alloc: Global,
    p: &Problem,
    row: &Row,
    most_entries: Option<usize>,
) -> Result<Told, Fail>
    requires { IsGoodProblem p.now }
{
    let choices = Choices {
        first_values: Some(Cdcl::new(alloc)),
        most_entries,
    };
    let answer = run_with(
        alloc,
        p,
        Cdcl::new(alloc),
        Cdcl::new(alloc),
        Cdcl::new(alloc),
        Tree::new(alloc),
        Tree::new(alloc),
        Tree::new(alloc),
        u64::from(row.budget),
        choices,
    );
    tell_or_given_up(alloc, answer, row)
}

fn with_refusing(
    alloc: Global,
    p: &Problem,
    row: &Row,
    partners: bool,
    first: bool,
) -> Result<Told, Fail>
    requires { IsGoodProblem p.now }
{
    told_by(
        alloc,
        p,
        row,
        Plain::new(alloc),
        Plain::new(alloc),
        Plain::new(alloc),
        Refusing::new(alloc, partners),
        Refusing::new(alloc, partners),
        Refusing::new(alloc, first),
    )
}

fn told_with(alloc: Global, p: &Problem, row: &Row, engine: Engine) -> Result<Told, Fail>
    requires { IsGoodProblem p.now }
{
    match engine {
        Engine::PlainRows => with_plain(alloc, p, row),
        Engine::CdclTree => with_cdcl(alloc, p, row),
        Engine::FirstValues { most_entries } => with_first_values(alloc, p, row, most_entries),
        Engine::Refusing { partners, first } => with_refusing(alloc, p, row, partners, first),
    }
}

// What the run with this engine says of the row.
pub fn row_told(alloc: Global, row: &Row, engine: Engine) -> Result<Told, Fail> {
    let p = problem_of(alloc, row.text)?;
    told_with(alloc, &p, row, engine)
}
