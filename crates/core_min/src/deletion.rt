// Deletion over whatever decides sub-lists: one call for each clause that is left when its turn comes.
ghost use Rattle.std.specs.Prelude.{◌≡◌, ◌-◌, ◌<◌, List, length, remove, IfOk, MatchOption, vec_len};
ghost use Rattle.std.specs.List.{range_with_len};
ghost use Rattle.inst_logic.specs.Clauses.{TreeClause};
ghost use Rattle.core_min.specs.Cores.{ArePlaces, HasSelection, IsCore, IsPartlyMinimal};
ghost use Rattle.core_min.specs.Verdicts.{IsVerdict};

use crate::verdict::Verdict;
use inst_logic::Memory;
use std::alloc::Global;

/// Decides the sub-lists of some clauses, each with its own axioms of equality.
pub trait SubListTest {
    /// The clauses.
    ghost clauses: { Self → List TreeClause };

    /// Whether the clauses at these places, which count from 1 and rise, are refuted. Nothing is kept from one call to the next.
    fn decide(&mut self, places: &[usize]) -> Result<Verdict, Memory>
        requires { ArePlaces (clauses self.old) places.now }
        ensures verdict { IfOk result (λ v. IsVerdict (clauses self.old) places.now v) }
        ensures same { clauses self.new ≡ clauses self.old };
}

fn all_places(alloc: Global, count: usize) -> Result<Vec<usize>, Memory>
    ensures { IfOk result (λ places. places.items ≡ range_with_len 1 count) }
{
    let mut places = Vec::new(alloc);
    for i in 0..count {
        places.push(i + 1)?;
    }
    Ok(places)
}

// A copy without the place at `i`.
fn without(alloc: Global, places: &[usize], i: usize) -> Result<Vec<usize>, Memory>
    requires { i < length places.now }
    ensures { IfOk result (λ rest. rest.items ≡ remove places.now i) }
{
    let mut rest = Vec::from_slice(alloc, places)?;
    rest.remove(i);
    Ok(rest)
}

// Drops the place at `done` and all that the refutation doesn't cite, or keeps it. The answer is how many are kept now.
fn try_place<T: SubListTest>(
    alloc: Global,
    test: &mut T,
    places: &mut Vec<usize>,
    done: usize,
) -> Result<usize, Memory>
    requires partly { IsPartlyMinimal (T.clauses test.old) places.old.items done }
    requires within { done < vec_len places.old }
    ensures partly { IfOk result (λ kept. IsPartlyMinimal (T.clauses test.old) places.new.items kept) }
    ensures fewer { IfOk result (λ kept. vec_len places.new - kept < vec_len places.old - done) }
    ensures same { T.clauses test.new ≡ T.clauses test.old }
{
    let rest = without(alloc, places.as_slice(), done)?;
    match test.decide(rest.as_slice())? {
        Verdict::Refuted(cited) => {
            *places = cited.into();
            Ok(done)
        }
        Verdict::Satisfiable => Ok(done + 1),
    }
}

// The places of a core among places of refuted clauses.
fn minimal_places<T: SubListTest>(
    alloc: Global,
    test: &mut T,
    mut places: Vec<usize>,
) -> Result<Vec<usize>, Memory>
    requires { IsPartlyMinimal (T.clauses test.old) places.items 0 }
    ensures core { IfOk result (λ core. IsCore (T.clauses test.old) core.items) }
    ensures same { T.clauses test.new ≡ T.clauses test.old }
{
    let mut done = 0;
    while done < places.len() {
        done = try_place(alloc, test, &mut places, done)?;
    }
    Ok(places)
}

/// The places of a core of the `count` clauses, counted from 1 and rising, and `None` where the clauses are satisfiable. One call
/// of `decide` is for the whole list. After it there is at most one for each clause that its refutation cites.
pub fn core_places<T: SubListTest>(
    alloc: Global,
    test: &mut T,
    count: usize,
) -> Result<Option<Vec<usize>>, Memory>
    requires { length (T.clauses test.old) ≡ count }
    ensures core { IfOk result (λ core. MatchOption core (HasSelection (T.clauses test.old)) (λ places. IsCore (T.clauses test.old) places.items)) }
    ensures same { T.clauses test.new ≡ T.clauses test.old }
{
    let all = all_places(alloc, count)?;
    match test.decide(all.as_slice())? {
        Verdict::Refuted(cited) => Ok(Some(minimal_places(alloc, test, cited.into())?)),
        Verdict::Satisfiable => Ok(None),
    }
}
