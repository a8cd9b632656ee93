// A core as a value, with the certificates that show it.
ghost use Rattle.std.specs.Prelude.{◌≡◌, ◌<◌, ◌++◌, ◌∷◌, [], length, remove, IfOk, OnOk};
ghost use Rattle.cert_values.specs.declared.certificate.Covered.{Covered};
ghost use Rattle.cert_front.specs.Kinds.{covered_value};
ghost use Rattle.core_min.specs.Cores.{HasSelection, IsCore};
ghost use Rattle.szs_prove.specs.CoreCertificates.{AreRests, IsCertifiedCore};
ghost use Rattle.szs_prove.specs.Decisions.{IsShownBy};
ghost use Rattle.szs_prove.specs.SubProblems.{IsDecidable, problem_at};

use crate::cores::places_of;
use crate::sub_lists::SubLists;
use cert_check::{CheckedCovered, CheckedRefutation};
use inst_logic::{ListOf, Memory, NumberList, Problem};
use std::alloc::Global;

/// Saturations, each of which the checker accepted.
pub type CheckedCoveredList = ListOf<CheckedCovered>;

/// A core with its certificates, or what shows that there is none.
#[derive(Drop)]
pub enum CoreAnswer {
    /// The clauses are satisfiable.
    Satisfiable(CheckedCovered),
    /// The places of a core, counted from 1 and rising; the refutation of its clauses; and for each place, in their order, the
    /// saturation of the clauses at the others.
    Core {
        places: NumberList,
        refutation: CheckedRefutation,
        rests: CheckedCoveredList,
    },
}

// Appends the saturation of the clauses at all of the places but the one at `i`.
fn push_rest(
    rests: &mut CheckedCoveredList,
    lists: &SubLists<'_>,
    places: &[usize],
    i: usize,
) -> Result<(), Memory>
    requires core { IsCore lists.now.clauses places.now }
    requires within { i < length places.now }
    ensures { OnOk result ((c : Covered) × IsShownBy (problem_at lists.now (remove places.now i)) (covered_value c) × (rests.new ≡ rests.old ++ c ∷ [])) }
{
    let rest = lists.saturation_without(places, i)?;
    rests.push(rest)
}

// The saturations that show that no place can be spared.
fn rests_of(
    alloc: Global,
    lists: &SubLists<'_>,
    places: &[usize],
) -> Result<CheckedCoveredList, Memory>
    requires { IsCore lists.now.clauses places.now }
    ensures { IfOk result (AreRests lists.now places.now (length places.now)) }
{
    let mut rests = CheckedCoveredList::new(alloc);
    for i in 0..places.len() {
        push_rest(&mut rests, lists, places, i)?;
    }
    Ok(rests)
}

// The core at these places.
fn core_at(alloc: Global, lists: &SubLists<'_>, places: Vec<usize>) -> Result<CoreAnswer, Memory>
    requires { IsCore lists.now.clauses places.items }
    ensures { IfOk result (IsCertifiedCore lists.now) }
{
    let rests = rests_of(alloc, lists, places.as_slice())?;
    match lists.refutation_at(places.as_slice()) {
        Ok(refutation) => Ok(CoreAnswer::Core {
            places: NumberList::from(places),
            refutation,
            rests,
        }),
        Err(Memory) => Err(Memory),
    }
}

// The answer where no core is there: the saturation of the clauses.
fn without_core(lists: &SubLists<'_>) -> Result<CoreAnswer, Memory>
    requires { HasSelection lists.now.clauses }
    ensures { IfOk result (IsCertifiedCore lists.now) }
{
    match lists.saturation() {
        Ok(saturation) => Ok(CoreAnswer::Satisfiable(saturation)),
        Err(Memory) => Err(Memory),
    }
}

/// A core of the problem, or that there is none. The engine runs on each sub-list that is tried, and once more on each of those
/// that show the core; it holds all their certificates at once.
pub fn core_of(alloc: Global, p: &Problem) -> Result<CoreAnswer, Memory>
    requires { IsDecidable p.now }
    ensures { IfOk result (IsCertifiedCore p.now) }
{
    let lists = SubLists::new(alloc, p);
    match places_of(alloc, p)? {
        Some(places) => core_at(alloc, &lists, places),
        None => without_core(&lists),
    }
}
