// A search that begins anew over the same clauses. Solvers that keep no derivations need none; here the derivation of an answer has
// all steps that its last one rests on, and these are more from question to question, since what is learned rests on what was
// learned before. Once answers have copied many steps, all that was learned is forgotten, and the search goes on with the added
// clauses, the last values and their order.
ghost use Rattle.std.specs.Prelude.{◌≡◌, ◌+◌, ◌<◌, [], length, take, IfOk, OnOk};
ghost use Rattle.prop_logic.specs.Literal.{AllAtomsBelow};
ghost use Rattle.cdcl_core.specs.Search.{IsKept, IsSameProblem};

use crate::activity::Activity;
use crate::search::Search;
use crate::settings::Settings;
use crate::steps::unpack;
use compact_lists::FlatClauses;
use inst_logic::Memory;
use prop_logic::{Answer, Lit};
use std::alloc::Global;

// Makes so many atoms more.
fn grow(search: &mut Search, count: usize) -> Result<(), Memory>
    requires { IsKept search.old }
    ensures kept { OnOk result (IsKept search.new) }
    ensures atoms { OnOk result (search.new.trail.trail.atoms ≡ search.old.trail.trail.atoms + count) }
    ensures added { OnOk result (search.new.log.added ≡ search.old.log.added) }
{
    for _ in 0..count {
        search.new_atom()?;
    }
    Ok(())
}

// Adds the clause at the place, counted from 0, where those before it were added.
fn add_next(
    alloc: Global,
    search: &mut Search,
    added: &FlatClauses,
    place: usize,
) -> Result<(), Memory>
    requires kept { IsKept search.old }
    requires below { AllAtomsBelow search.old.trail.trail.atoms added.now }
    requires within { place < length added.now }
    requires before { search.old.log.added ≡ take place added.now }
    ensures kept { OnOk result (IsKept search.new) }
    ensures atoms { OnOk result (search.new.trail.trail.atoms ≡ search.old.trail.trail.atoms) }
    ensures added { OnOk result (search.new.log.added ≡ take (place + 1) added.now) }
{
    match added.get(place) {
        None => unreachable!(),
        Some(clause) => {
            let literals = unpack(alloc, clause)?;
            search.add(&literals)?;
            Ok(())
        }
    }
}

// Adds all clauses, where none was.
fn add_all(alloc: Global, search: &mut Search, added: &FlatClauses) -> Result<(), Memory>
    requires kept { IsKept search.old }
    requires below { AllAtomsBelow search.old.trail.trail.atoms added.now }
    requires none { search.old.log.added ≡ [] }
    ensures kept { OnOk result (IsKept search.new) }
    ensures atoms { OnOk result (search.new.trail.trail.atoms ≡ search.old.trail.trail.atoms) }
    ensures added { OnOk result (search.new.log.added ≡ added.now) }
{
    for place in 0..added.len() {
        add_next(alloc, search, added, place)?;
    }
    Ok(())
}

// The search over so many atoms and these clauses, of which nothing is learned.
fn fresh(
    alloc: Global,
    settings: Settings,
    atoms: usize,
    added: &FlatClauses,
) -> Result<Search, Memory>
    requires below { AllAtomsBelow atoms added.now }
    ensures kept { IfOk result IsKept }
    ensures atoms { IfOk result (λ s. s.trail.trail.atoms ≡ atoms) }
    ensures added { IfOk result (λ s. s.log.added ≡ added.now) }
{
    let mut search = Search::new(alloc, settings);
    grow(&mut search, atoms)?;
    add_all(alloc, &mut search, added)?;
    Ok(search)
}

// Puts all atoms into the order.
fn put_all(activity: &mut Activity, atoms: usize) {
    for atom in 0..atoms {
        activity.insert(atom);
    }
}

// Goes on with the clauses and the trail of the other search. The values that atoms had last stay, and their order.
fn take_over(search: &mut Search, other: Search)
    requires kept { IsKept search.old }
    requires other { IsKept other }
    requires same { IsSameProblem search.old other }
    ensures kept { IsKept search.new }
    ensures same { IsSameProblem search.old search.new }
{
    let Search {
        log,
        clauses,
        trail,
        ..
    } = other;
    search.phases.save(&search.trail);
    search.phases.saved = 0;
    put_all(&mut search.activity, search.phases.values.len());
    search.learned = search.learned.begun_anew(search.alloc);
    search.log = log;
    search.clauses = clauses;
    search.trail = trail;
    search.next = 0;
    search.assumed = 0;
    search.checked = 0;
}

// Forgets all that was learned. The new search is made beside the old one, which goes on where there is no memory for that; then
// it is tried again once answers have copied as many steps.
fn renew(search: &mut Search)
    requires { IsKept search.old }
    ensures kept { IsKept search.new }
    ensures same { IsSameProblem search.old search.new }
{
    search.copied = 0;
    let made = fresh(
        search.alloc,
        search.settings,
        search.atoms(),
        &search.log.added,
    );
    if let Ok(other) = made {
        take_over(search, other);
    }
}

// Whether answers have copied more steps than it is worth to keep what was learned.
fn is_due(search: &Search) -> bool {
    let each = search.settings.copied_each;
    let more = search.log.added.len().saturating_mul(each);
    search.settings.copied.saturating_add(more) < search.copied
}

// Before a question under assumptions, forgets all that was learned where answers have copied many steps.
pub(crate) fn renew_where_due(search: &mut Search, assumptions: &[Lit])
    requires { IsKept search.old }
    ensures kept { IsKept search.new }
    ensures same { IsSameProblem search.old search.new }
{
    if assumptions.is_empty() || !is_due(search) {
        return;
    }
    renew(search);
}

// How many steps the answer copied.
pub(crate) fn copied_steps(answer: &Answer) -> usize {
    match answer {
        Answer::Sat(_) => 0,
        Answer::Unsat { derivation, .. } => derivation.len(),
    }
}
