// The problem of some of the clauses of a problem. Its clauses and names are copies.
ghost use Rattle.std.specs.Prelude.{◌≡◌, ◌<◌, ◌≤◌, ◌++◌, ◌∷◌, [], length, filter_map, IfOk, OnOk};
ghost use Rattle.inst_logic.specs.Derivations.{at_number};
ghost use Rattle.core_min.specs.Cores.{ArePlaces, clauses_at};
ghost use Rattle.szs_prove.specs.SubProblems.{problem_at};

use inst_logic::{Clause, ClauseList, Memory, NameList, Problem};
use std::alloc::Global;

fn copied_clause(alloc: Global, c: &Clause) -> Result<Clause, Memory>
    ensures { IfOk result (λ d. d ≡ c.now) }
{
    let literals = c.as_slice().to_vec(alloc)?;
    Ok(Clause::from(literals))
}

// Adds the clause at this place, and its name.
fn add(alloc: Global, sub: &mut Problem, p: &Problem, place: usize) -> Result<(), Memory>
    requires place { (0 < place) × (place ≤ length p.now.clauses) }
    requires named { length p.now.names ≡ length p.now.clauses }
    ensures clauses { OnOk result (sub.new.clauses ≡ sub.old.clauses ++ clauses_at p.now.clauses (place ∷ [])) }
    ensures names { OnOk result (sub.new.names ≡ sub.old.names ++ filter_map (at_number p.now.names) (place ∷ [])) }
{
    let clause = copied_clause(alloc, &p.clauses.as_slice()[place - 1])?;
    let name = p.names.as_slice()[place - 1].clone()?;
    sub.clauses.push(clause)?;
    sub.names.push(name)?;
    Ok(())
}

/// The problem of the clauses at these places, with their names.
pub fn problem_at(alloc: Global, p: &Problem, places: &[usize]) -> Result<Problem, Memory>
    requires places { ArePlaces p.now.clauses places.now }
    requires named { length p.now.names ≡ length p.now.clauses }
    ensures { IfOk result (λ q. q ≡ problem_at p.now places.now) }
{
    let mut sub = Problem {
        clauses: ClauseList::new(alloc),
        names: NameList::new(alloc),
    };
    for i in 0..places.len() {
        add(alloc, &mut sub, p, places[i])?;
    }
    Ok(sub)
}
