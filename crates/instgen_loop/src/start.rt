// The start of a run: the problem's clauses and their axioms of equality go into its bank, and become its first entries.
ghost use Rattle.std.specs.Prelude.{◌≡◌, ◌<◌, ◌≤◌, ◌+◌, ◌++◌, ◌∷◌, [], List, All, length, map, slice_get, Some, false, IsTrue, IfOk, OnOk};
ghost use Rattle.inst_logic.specs.declared.symbol.Sym.{Sym};
ghost use Rattle.inst_logic.specs.Clauses.{TreeClause, IsCanonical};
ghost use Rattle.inst_logic.specs.WellFormed.{AreFormedClauses, is_constant};
ghost use Rattle.inst_logic.specs.Printing.{is_readable_name};
ghost use Rattle.inst_calculus.specs.Abstraction.{IsBot};
ghost use Rattle.inst_calculus.specs.Axioms.{equality_axioms};
ghost use Rattle.term_bank.specs.Forest.{AreFormed, Extends, clause_at};
ghost use Rattle.cert_values.specs.Wholes.{IsWholeClause};
ghost use Rattle.cert_format.specs.Printable.{IsPrintableClause};
ghost use Rattle.instgen_select.specs.Queues.{numbers};
ghost use Rattle.instgen_run.specs.Loops.{IsConsistent, items, after};
ghost use Rattle.instgen_run.specs.Running.{IsRunningWith};
ghost use Rattle.instgen_loop.specs.Starting.{IsNew, IsFresh, IsAllowed, AreGiven, IsOfProblem};
ghost use Rattle.instgen_loop.specs.Tasks.{all_clauses};
ghost use Rattle.instgen_loop.specs.FirstEntries.{Continues, IsStarted};

use crate::first_values::predicate_values;
use crate::task::Task;
use clause_form::long_tautology;
use compact_lists::FlatClauses;
use equality_axioms::axioms_of;
use global_subs::Known;
use ground_abs::Abstraction;
use inst_logic::{ClauseList, Memory, Problem, Sym};
use instgen_run::{
    Entries, EventLog, Ground, Origins, PackedOrigin, Run, Scratch, Selection, append,
};
use instgen_select::Passive;
use prop_logic::{Solver, Valuation};
use std::alloc::Global;
use term_bank::{Bank, IdClause, IdClauseList, IdLiteral};
use term_index::PartnerIndex;
use unify_core::Bindings;

/// What certificates tell of the problem beside the names of its clauses: the clauses and their axioms of equality, over the bank
/// of a run.
#[derive(Drop)]
pub struct Given {
    pub inputs: IdClauseList,
    pub axioms: IdClauseList,
}

fn no_entries<I: PartnerIndex>(alloc: Global, first: I) -> Entries<I>
    ensures bank { result.bank ≡ record { trees = []; symbols = []; spent = false } }
    ensures first { result.first ≡ first }
    ensures has_empty { result.has_empty ≡ false }
    ensures clauses { result.clauses.entries ≡ [] }
{
    Entries {
        bank: Bank::new(alloc),
        clauses: Origins::new(alloc),
        first,
        has_empty: false,
        longest: 0,
    }
}

// Where a budget applies, small ones and old ones come in turn, since a run may have no end. Where none does the entries are
// bounded, so any order ends.
fn passive(alloc: Global, left: Option<u64>) -> Passive
    ensures { result ≡ record { items = []; ready = [] } }
{
    match left {
        Some(_) => Passive::by_age(alloc),
        None => Passive::by_turns(alloc),
    }
}

/// The solvers that a run works with: one for the abstractions, one for the clauses of the entries.
#[derive(Drop)]
pub struct Solvers<S: Solver> {
    pub abstractions: S,
    pub known: S,
}

/// A run without entries, over solvers without atoms and an index without pairs.
pub fn new_run<S: Solver, I: PartnerIndex>(
    alloc: Global,
    solvers: Solvers<S>,
    first: I,
    bot: Sym,
    left: Option<u64>,
) -> Run<S, I>
    requires constant { IsTrue (is_constant bot) }
    requires abstractions { IsNew S.atoms S.added solvers.abstractions }
    requires known { IsNew S.atoms S.added solvers.known }
    requires first { I.pairs first ≡ [] }
    ensures fresh { IsFresh S.atoms S.added I.pairs result }
    ensures bot { result.ground.abstraction.bot ≡ bot }
    ensures left { result.left ≡ left }
{
    Run {
        entries: no_entries(alloc, first),
        ground: Ground {
            abstraction: Abstraction::new(alloc, bot),
            solver: solvers.abstractions,
            literals: FlatClauses::new(alloc),
            valuation: Valuation::new(alloc),
            numbered: Vec::new(alloc),
            first_values: Valuation::new(alloc),
        },
        known: Known::new(alloc, solvers.known),
        selection: Selection::new(alloc),
        queue: passive(alloc, left),
        held: Vec::new(alloc),
        log: EventLog::new(alloc),
        bindings: Bindings::new(alloc),
        scratch: Scratch::new(alloc),
        left,
    }
}

// The clauses with the id of each atom in its place.
fn intern_clauses(
    alloc: Global,
    bank: &mut Bank,
    clauses: &ClauseList,
) -> Result<IdClauseList, Memory>
    requires formed { AreFormed bank.old }
    requires clauses { AreFormedClauses clauses.now }
    ensures given { IfOk result (λ ids. AreGiven bank.new ids clauses.now) }
    ensures extends { Extends bank.old bank.new }
    ensures formed { AreFormed bank.new }
{
    let mut ids = IdClauseList::new(alloc);
    for c in clauses.as_slice() {
        let literals = bank.clause(c)?;
        ids.push(literals)?;
    }
    Ok(ids)
}

/// The literals of the clause after the first `count`.
pub fn literals_after(clauses: &IdClauseList, count: usize) -> &[IdLiteral]
    requires { count < length clauses.now }
    ensures { slice_get clauses.now count ≡ Some result.now }
{
    match clauses.get(count) {
        Some(clause) => clause.as_slice(),
        None => unreachable!(),
    }
}

/// A clause of these literals, with no room for more.
pub fn copied_clause(alloc: Global, literals: &[IdLiteral]) -> Result<IdClause, Memory>
    ensures { IfOk result (λ c. c ≡ literals.now) }
{
    Ok(IdClause::from(Vec::from_slice(alloc, literals)?))
}

/// The next number; want of memory past the last one.
pub fn next_number(k: usize) -> Result<usize, Memory>
    ensures { IfOk result (λ n. n ≡ k + 1) }
{
    match k.checked_add(1) {
        Some(n) => Ok(n),
        None => Err(Memory),
    }
}

// Clause `k` becomes an entry, where it is no tautology and no variant of an entry.
fn start_entry<S: Solver, I: PartnerIndex>(
    alloc: Global,
    run: &mut Run<S, I>,
    clause: IdClause,
    k: usize,
) -> Result<(), Memory>
    requires safe { IsConsistent S.atoms I.pairs I.fits run.old }
    requires whole { IsWholeClause run.old.entries.bank clause }
    requires canonical { IsCanonical (clause_at run.old.entries.bank clause) }
    requires bounded { length clause ≤ run.old.entries.longest }
    ensures safe { OnOk result (IsConsistent S.atoms I.pairs I.fits run.new) }
    ensures continues { OnOk result (Continues run.old run.new) }

    ensures started { OnOk result ((cs : List TreeClause) → k ≡ length cs + 1 → IsStarted S.atoms S.added run.old cs → IsStarted S.atoms S.added run.new (cs ++ clause_at run.old.entries.bank clause ∷ [])) }
{
    // The bank has each tree once, so a variant has an equal key.
    run.entries.bank.distinct();
    if long_tautology(alloc, &clause)? {
        return Ok(());
    }
    if run.entries.clauses.contains_key(&clause) {
        return Ok(());
    }
    let origin = PackedOrigin::input(k)?;
    append(run, clause, origin)?;
    Ok(())
}

// The clauses, of which `before` others were taken, become entries.
fn start_entries<S: Solver, I: PartnerIndex>(
    alloc: Global,
    run: &mut Run<S, I>,
    clauses: &IdClauseList,
    before: usize,
) -> Result<(), Memory>
    requires safe { IsConsistent S.atoms I.pairs I.fits run.old }
    requires whole { All (IsWholeClause run.old.entries.bank) clauses.now }
    requires canonical { All IsCanonical (map (clause_at run.old.entries.bank) clauses.now) }
    requires bounded { All (λ c. length c ≤ run.old.entries.longest) clauses.now }
    ensures safe { OnOk result (IsConsistent S.atoms I.pairs I.fits run.new) }
    ensures continues { OnOk result (Continues run.old run.new) }

    ensures started { OnOk result ((cs : List TreeClause) → before ≡ length cs → IsStarted S.atoms S.added run.old cs → IsStarted S.atoms S.added run.new (cs ++ map (clause_at run.old.entries.bank) clauses.now)) }
{
    let mut k = before;
    for i in 0..clauses.len() {
        k = next_number(k)?;
        let clause = copied_clause(alloc, literals_after(clauses, i))?;
        start_entry(alloc, run, clause, k)?;
    }
    Ok(())
}

/// The greater number.
pub fn greater(m: usize, n: usize) -> usize
    ensures first { m ≤ result }
    ensures second { n ≤ result }
{
    if m < n { n } else { m }
}

// The problem's clauses and their axioms, in the bank.
fn given_in(alloc: Global, bank: &mut Bank, p: &Problem) -> Result<Given, Memory>
    requires formed { AreFormed bank.old }
    requires clauses { AreFormedClauses p.now.clauses }
    ensures inputs { IfOk result (λ g. AreGiven bank.new g.inputs p.now.clauses) }
    ensures axioms { IfOk result (λ g. AreGiven bank.new g.axioms (equality_axioms p.now.clauses)) }
    ensures extends { Extends bank.old bank.new }
    ensures formed { AreFormed bank.new }
{
    let inputs = intern_clauses(alloc, bank, &p.clauses)?;
    let axioms = axioms_of(alloc, p)?;
    let axioms = intern_clauses(alloc, bank, &axioms)?;
    Ok(Given { inputs, axioms })
}

// The greatest number of literals that one of the clauses has, or `least` where that is more.
fn longest(clauses: &IdClauseList, least: usize) -> usize
    ensures least { least ≤ result }
    ensures each { All (λ c. length c ≤ result) clauses.now }
{
    let mut longest = least;
    for i in 0..clauses.len() {
        longest = greater(longest, literals_after(clauses, i).len());
    }
    longest
}

/// Gives a run its first entries, which all wait: the problem's clauses and then their axioms of equality, without tautologies and
/// without variants of earlier entries. Their origins are the numbers of the clauses, counted from 1 over both lists. The solver for
/// the first values of atoms, if there is one, is let go.
pub fn start<S: Solver, I: PartnerIndex>(
    alloc: Global,
    task: &Task<'_>,
    run: &mut Run<S, I>,
    first_values: Option<S>,
) -> Result<Given, Memory>
    requires fresh { IsFresh S.atoms S.added I.pairs run.old }
    requires allowed { IsAllowed run.old task.now.problem.now.clauses task.now.budget }
    requires bot { IsBot task.now.problem.now.clauses run.old.ground.abstraction.bot }
    requires constant { IsTrue (is_constant run.old.ground.abstraction.bot) }
    requires readable { IsTrue (is_readable_name run.old.ground.abstraction.bot.name) }
    requires clauses { All IsPrintableClause task.now.problem.now.clauses }
    ensures problem { IfOk result (λ g. IsOfProblem run.new g task.now.problem.now.clauses) }
    ensures safe { OnOk result (IsConsistent S.atoms I.pairs I.fits run.new) }
    ensures waiting { OnOk result (numbers run.new.queue.items ≡ after 0 (length (items run.new))) }
    ensures selection { OnOk result (run.new.selection ≡ record { places = []; users = [] }) }
    ensures running { OnOk result (IsRunningWith S.atoms S.added run.new run.new.ground.abstraction.bot (all_clauses task.now) task.now.budget) }
{
    let given = given_in(alloc, &mut run.entries.bank, task.problem)?;
    let least = longest(&given.inputs, 0);
    run.entries.longest = longest(&given.axioms, least);
    let values = predicate_values(alloc, &run.entries.bank, &given, first_values)?;
    run.ground.first_values = values;
    start_entries(alloc, run, &given.inputs, 0)?;
    start_entries(alloc, run, &given.axioms, given.inputs.len())?;
    Ok(given)
}
