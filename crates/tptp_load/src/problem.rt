// The problem of a file with its includes. Canonical forms are made at the end, so none is made of a clause that a selection
// drops; clauses that hold always are left out then too.
ghost use Rattle.std.specs.Prelude.{◌≡◌, ◌≤◌, ◌++◌, ◌∷◌, [], IfOk, IfErr, OnOk, map};
ghost use Rattle.outside_io.specs.Told.{Follows};
ghost use Rattle.inst_logic.specs.Clauses.{canonical_form};
ghost use Rattle.tptp_load.specs.Problems.{IsGoodProblem, IsLoadCause, Loads, Told, giving, problem_of};
ghost use Rattle.tptp_load.specs.Includes.{path_of};

use crate::error::LoadError;
use crate::file::read_named;
use crate::includes::{Gathered, add_file, name_of};
use crate::paths::Site;
use crate::stated::StatedClause;
use inst_logic::{ClauseList, Memory, NameList, Problem, canonical};
use outside_io::Library;
use std::alloc::Global;

// The last level of includes; the first file has level 0.
const LAST_LEVEL: usize = 16;

// Adds the clause and the name, where the clause does not hold always.
fn add_giving(alloc: Global, problem: &mut Problem, stated: StatedClause) -> Result<(), Memory>
    ensures clauses { OnOk result (problem.new.clauses ≡ problem.old.clauses ++ map (λ s. canonical_form s.clause) (giving (stated ∷ []))) }
    ensures names { OnOk result (problem.new.names ≡ problem.old.names ++ map (λ s. s.name) (giving (stated ∷ []))) }
{
    if !stated.always {
        problem.clauses.push(canonical(alloc, &stated.clause)?)?;
        problem.names.push(stated.name)?;
    }
    Ok(())
}

// The problem of what was stated.
#[tactic(auto, using(std::proofs::lemmas::Grind::common_steps, crate::proofs::GivingMore::clauses_more, crate::proofs::GivingMore::names_more))]
fn problem_of(alloc: Global, list: Vec<StatedClause>) -> Result<Problem, Memory>
    ensures { IfOk result (λ p. p ≡ problem_of list.items) }
{
    let count = list.len();
    let mut problem = Problem {
        clauses: ClauseList::from(Vec::with_capacity(alloc, count)?),
        names: NameList::from(Vec::with_capacity(alloc, count)?),
    };
    for stated in list {
        add_giving(alloc, &mut problem, stated)?;
    }
    Ok(problem)
}

/// Reads the file and what it includes: each file whole, and its text into statements, before any of its includes is begun.
/// An include is tried after the directory of the including file and then under the root, or as it is where it begins with `/`.
#[tactic(auto, using(std::proofs::lemmas::Grind::common_steps, crate::proofs::Loads::unread_cause, crate::proofs::Loads::absent_cause))]
pub fn load<L: Library>(
    alloc: Global,
    files: &mut L,
    name: &str,
    root: Option<&str>,
) -> Result<Problem, LoadError>
    ensures follows { Follows (L.told files.old) (L.told files.new) }
    ensures loads { IfOk result (λ p. Told (L.told files.old).files (λ told. Loads told name.now (path_of root.entry) p)) }
    ensures good { IfOk result IsGoodProblem }
    ensures refused { IfErr result (IsLoadCause (L.told files.old).files (L.told files.old).faults (L.told files.new).faults name.now (path_of root.entry)) }
{
    let Some(bytes) = read_named(alloc, name, 0, files)? else {
        return Err(LoadError::Absent {
            wanted: name_of(alloc, name)?,
        });
    };
    let mut gathered = Gathered {
        stated: Vec::new(alloc),
        used: 0,
    };
    let first = Site {
        root,
        levels: LAST_LEVEL,
        name,
    };
    add_file(alloc, &first, bytes, files, &mut gathered)?;
    Ok(problem_of(alloc, gathered.stated)?)
}
