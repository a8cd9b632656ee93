// Entries unrolled to ground instances of input clauses. A list of tasks stands for what is left, so no depth of entries exhausts a
// stack, and what was seen is passed over: its items are there by then.
ghost use Rattle.std.specs.Prelude.{◌≡◌, ◌++◌, ◌∷◌, [], ◌+◌, ◌<◌, ◌≤◌, ℕ, All, Contains, List, Some, length, map, reverse, slice_index_or, true, false, IsTrue, IfOk, OnOk};
ghost use Rattle.std.specs.List.{flat_map};
ghost use Rattle.inst_logic.specs.declared.symbol.Sym.{Sym};
ghost use Rattle.inst_logic.specs.Tree.{Tree, app, none};
ghost use Rattle.inst_logic.specs.Clauses.{IsCanonical, TreeClause, order_of};
ghost use Rattle.inst_logic.specs.Derivations.{at_number};
ghost use Rattle.inst_logic.specs.WellFormed.{IsTerm};
ghost use Rattle.indexmap.specs.IndexSet.{insert_key};
ghost use Rattle.inst_logic.specs.Truth.{IsTrueClause, IsRefuted};
ghost use Rattle.inst_calculus.specs.Abstraction.{abstraction, grounding};
ghost use Rattle.inst_calculus.specs.Unrolling.{Grounded as TreeGrounded, unrolled, under_terms, all_unrolled, each_once, ground_clause, made_clauses, AreMade, IsGrounded};
ghost use Rattle.term_bank.specs.Forest.{Forest, AreFormed, AreIds, Extends, IsClauseOf, clause_at, tree_at, IsTermIn};
ghost use Rattle.clause_form.specs.Conclusions.{AreTermIds};
ghost use Rattle.clause_form.specs.Walks.{listed};
ghost use Rattle.inst_logic.specs.Substitution.{subst};
ghost use Rattle.global_subs.specs.Terms.{HasTerms};
ghost use Rattle.global_subs.specs.Unrolls.{AreEntriesOf, entries_at, entries_in, grounded_at, waiting_at, list_of, IsTask, IsUnrolling, IsWalk, AreOpened, IsOpened, item_eq, breadth, load, terms_of};

use crate::made::{Grounded, GroundedList, How, Made, MadeList};
use clause_form::{greatest_variable, terms_under};
use indexmap::IndexSet;
use inst_logic::Memory;
use std::alloc::Global;
use term_bank::{Bank, IdClause, TermId, TermIdList};

/// An entry with a term for each of its variables.
#[derive(Drop, PartialEq, Eq, Hash)]
pub struct Task {
    pub entry: usize,
    pub terms: TermIdList,
}

// Entries that are unrolled, and the constant that stands where a variable has no term.
#[derive(Clone, Copy)]
struct Unrolling<'a> {
    alloc: Global,
    made: &'a MadeList,
    bot: TermId,
}

// Where a walk over entries stands: the tasks that are left, of which the last comes first, those that were seen, and the items.
#[derive(Drop)]
struct Walk {
    tasks: Vec<Task>,
    seen: IndexSet<Task>,
    items: IndexSet<Grounded>,
}

fn term_list_copy(alloc: Global, terms: &TermIdList) -> Result<TermIdList, Memory>
    ensures { IfOk result (λ copy. copy ≡ terms.now) }
{
    let copy = Vec::from_slice(alloc, terms.as_slice())?;
    Ok(TermIdList::from(copy))
}

// The entry of the number.
fn entry_at(made: &MadeList, n: usize) -> &Made
    requires { (0 < n) × (n ≤ length made.now) }
    ensures { at_number made.now n ≡ Some result.now }
{
    match made.get(n - 1) {
        Some(entry) => entry,
        None => unreachable!(),
    }
}

// How many variables the clause has.
fn count_of(bank: &Bank, c: &IdClause) -> Result<usize, Memory>
    requires clause { IsClauseOf bank.now c.now }
    requires canonical { IsCanonical (clause_at bank.now c.now) }
    ensures { IfOk result (λ n. n ≡ length (order_of (clause_at bank.now c.now))) }
{
    match greatest_variable(bank, c) {
        None => Ok(0),
        Some(last) => match last.checked_add(1) {
            Some(count) => Ok(count),
            None => Err(Memory),
        },
    }
}

// A list of `count` terms: those of the list, and past its end the constant.
fn terms_to_length(
    alloc: Global,
    terms: &[TermId],
    bot: TermId,
    count: usize,
) -> Result<TermIdList, Memory>
    ensures count { IfOk result (λ list. length list ≡ count) }
    ensures terms { IfOk result (λ list. (v : ℕ) → v < count → slice_index_or list v bot ≡ slice_index_or terms.now v bot) }
    ensures ids { IfOk result (λ list. (f : Forest) → AreIds f terms.now → bot < length f.trees → AreIds f list) }
    ensures plain { IfOk result (λ list. (f : Forest) → All (IsTermIn f) terms.now → IsTermIn f bot → All (IsTermIn f) list) }
{
    let mut list = TermIdList::new(alloc);
    for i in 0..count {
        let term = terms.get(i).copied().unwrap_or(bot);
        list.push(term)?;
    }
    Ok(list)
}

// The task of an entry under terms for its variables, which may be too few or too many.
fn task_of(
    unrolling: &Unrolling<'_>,
    bank: &Bank,
    n: usize,
    terms: &[TermId],
) -> Result<Task, Memory>
    requires unrolling { IsUnrolling bank.now unrolling.now }
    requires number { (0 < n) × (n ≤ length unrolling.now.made.now) }
    requires terms { AreIds bank.now terms.now }
    ensures task { IfOk result (IsTask bank.now (entries_in bank.now unrolling.now)) }
    ensures entry { IfOk result (λ t. t.entry ≡ n) }
    ensures plain { IfOk result (λ t. (f : Forest) → All (IsTermIn f) terms.now → IsTermIn f unrolling.now.bot → All (IsTermIn f) t.terms) }
    ensures list { IfOk result (λ t. (b : Sym) → tree_at bank.now unrolling.now.bot ≡ app b none
        → list_of b (entries_in bank.now unrolling.now) (waiting_at bank.now t) ≡ unrolled b (entries_in bank.now unrolling.now) n (under_terms b (map (tree_at bank.now) terms.now))) }
{
    let count = count_of(bank, &entry_at(unrolling.made, n).clause)?;
    let list = terms_to_length(unrolling.alloc, terms, unrolling.bot, count)?;
    Ok(Task {
        entry: n,
        terms: list,
    })
}

// Tasks of premises, the first of which comes first.
fn push_premises(
    unrolling: &Unrolling<'_>,
    bank: &Bank,
    tasks: &mut Vec<Task>,
    terms: &[TermId],
    premises: &[usize],
) -> Result<(), Memory>
    requires unrolling { IsUnrolling bank.now unrolling.now }
    requires numbers { All (λ p. (0 < p) × (p ≤ length unrolling.now.made.now)) premises.now }
    requires terms { AreIds bank.now terms.now }
    ensures few { OnOk result (length tasks.new.items ≡ length tasks.old.items + length premises.now) }
    ensures plain { OnOk result ((f : Forest) → All (IsTermIn f) terms.now → IsTermIn f unrolling.now.bot → All (λ t. All (IsTermIn f) t.terms) tasks.old.items → All (λ t. All (IsTermIn f) t.terms) tasks.new.items) }
    ensures opened { OnOk result ((n : ℕ) → All (λ p. p < n) premises.now → (b : Sym) → tree_at bank.now unrolling.now.bot ≡ app b none
        → AreOpened bank.now b (entries_in bank.now unrolling.now) n (flat_map (λ p. unrolled b (entries_in bank.now unrolling.now) p (under_terms b (map (tree_at bank.now) terms.now))) premises.now) (reverse tasks.old.items) (reverse tasks.new.items)) }
{
    for i in (0..premises.len()).rev() {
        let task = task_of(unrolling, bank, premises[i], terms)?;
        tasks.push(task)?;
    }
    Ok(())
}

// Puts an item to the others.
fn add_item(
    alloc: Global,
    items: &mut IndexSet<Grounded>,
    input: usize,
    terms: &TermIdList,
) -> Result<(), Memory>
    ensures added { OnOk result (items.new.keys ≡ insert_key item_eq items.old.keys (record { input = input; terms = terms.now })) }
{
    let terms = term_list_copy(alloc, terms)?;
    items.insert(Grounded { input, terms })?;
    Ok(())
}

// Whether the task is new; it is seen from now on.
fn see(alloc: Global, seen: &mut IndexSet<Task>, task: &Task) -> Result<bool, Memory>
    ensures new { IfOk result (λ new. new ≡ true → seen.new.keys ≡ seen.old.keys ++ task.now ∷ []) }
    ensures old { IfOk result (λ new. new ≡ false → Contains seen.old.keys task.now × (seen.new.keys ≡ seen.old.keys)) }
{
    let terms = term_list_copy(alloc, &task.terms)?;
    let new = seen.insert(Task {
        entry: task.entry,
        terms,
    })?;
    Ok(new)
}

// The terms of the entry of the task, each under those of the task: the composition of the two substitutions.
fn composed_terms(
    unrolling: &Unrolling<'_>,
    bank: &mut Bank,
    task: &Task,
    terms: &TermIdList,
) -> Result<Vec<TermId>, Memory>
    requires unrolling { IsUnrolling bank.old unrolling.now }
    requires task { IsTask bank.old (entries_in bank.old unrolling.now) task.now }
    requires how { (m : Made) × (at_number unrolling.now.made.now task.now.entry ≡ Some m) × (terms_of m.how ≡ terms.now) }
    ensures extends { Extends bank.old bank.new }
    ensures ids { IfOk result (λ v. AreIds bank.new v.items) }
    ensures trees { IfOk result (λ v. map (tree_at bank.new) v.items ≡ map (subst (listed bank.old task.now.terms)) (map (tree_at bank.old) terms.now)) }
    ensures terms { IfOk result (λ v. (tasks : List Task) → HasTerms bank.old unrolling.now.made.now (tasks ++ task.now ∷ []) → HasTerms bank.new unrolling.now.made.now tasks × All (IsTermIn bank.new) v.items) }
{
    let composed = terms_under(
        unrolling.alloc,
        bank,
        terms.as_slice(),
        task.terms.as_slice(),
    )?;
    Ok(composed)
}

// Puts what the entry is made of in the place of the task: an item, the task of the entry of which it is an instance, or those of
// its premises.
fn open_task(
    unrolling: &Unrolling<'_>,
    bank: &mut Bank,
    tasks: &mut Vec<Task>,
    items: &mut IndexSet<Grounded>,
    task: &Task,
) -> Result<(), Memory>
    requires unrolling { IsUnrolling bank.old unrolling.now }
    requires task { IsTask bank.old (entries_in bank.old unrolling.now) task.now }
    ensures extends { Extends bank.old bank.new }
    ensures few { OnOk result (length tasks.new.items ≤ length tasks.old.items + breadth unrolling.now.made.now) }
    ensures terms { OnOk result (IsTerm (tree_at bank.old unrolling.now.bot) → HasTerms bank.old unrolling.now.made.now (tasks.old.items ++ task.now ∷ []) → HasTerms bank.new unrolling.now.made.now tasks.new.items) }
    ensures opened { OnOk result ((b : Sym) → tree_at bank.old unrolling.now.bot ≡ app b none
        → IsOpened bank.old bank.new b (entries_in bank.old unrolling.now) task.now (reverse tasks.old.items) (reverse tasks.new.items) items.old.keys items.new.keys) }
{
    match &entry_at(unrolling.made, task.entry).how {
        How::Given(input) => {
            add_item(unrolling.alloc, items, *input, &task.terms)?;
            Ok(())
        }
        How::From { from, terms } => {
            let under = composed_terms(unrolling, bank, task, terms)?;
            tasks.push(Task {
                entry: *from,
                terms: TermIdList::from(under),
            })?;
            Ok(())
        }
        How::Lemma { terms, premises } => {
            let under = composed_terms(unrolling, bank, task, terms)?;
            push_premises(unrolling, bank, tasks, &under, premises.as_slice())?;
            Ok(())
        }
    }
}

// Takes one task.
fn take_task(
    unrolling: &Unrolling<'_>,
    bank: &mut Bank,
    walk: &mut Walk,
    task: &Task,
) -> Result<(), Memory>
    requires unrolling { IsUnrolling bank.old unrolling.now }
    requires task { IsTask bank.old (entries_in bank.old unrolling.now) task.now }
    ensures extends { Extends bank.old bank.new }
    ensures terms { OnOk result (IsTerm (tree_at bank.old unrolling.now.bot) → HasTerms bank.old unrolling.now.made.now (walk.old.tasks.items ++ task.now ∷ []) → HasTerms bank.new unrolling.now.made.now walk.new.tasks.items) }
    ensures smaller { OnOk result ((k : ℕ) → k ≡ breadth unrolling.now.made.now → load k (reverse walk.new.tasks.items) < load k (task.now ∷ reverse walk.old.tasks.items)) }
    ensures taken { OnOk result ((b : Sym) → tree_at bank.old unrolling.now.bot ≡ app b none → (goal : List TreeGrounded)
        → IsWalk bank.old b (entries_in bank.old unrolling.now) goal (task.now ∷ reverse walk.old.tasks.items) walk.old.seen.keys walk.old.items.keys
        → IsWalk bank.new b (entries_in bank.old unrolling.now) goal (reverse walk.new.tasks.items) walk.new.seen.keys walk.new.items.keys) }
{
    if !see(unrolling.alloc, &mut walk.seen, task)? {
        return Ok(());
    }
    bank.distinct();
    open_task(unrolling, bank, &mut walk.tasks, &mut walk.items, task)?;
    Ok(())
}

// The items in their order.
fn list_items(alloc: Global, items: &IndexSet<Grounded>) -> Result<GroundedList, Memory>
    ensures { IfOk result (λ list. list ≡ items.now.keys) }
{
    let mut list = GroundedList::new(alloc);
    for item in items.iter() {
        let terms = term_list_copy(alloc, &item.terms)?;
        list.push(Grounded {
            input: item.input,
            terms,
        })?;
    }
    Ok(list)
}

// Takes tasks until none is left.
fn run(unrolling: &Unrolling<'_>, bank: &mut Bank, tasks: Vec<Task>) -> Result<GroundedList, Memory>
    requires unrolling { IsUnrolling bank.old unrolling.now }
    requires tasks { All (IsTask bank.old (entries_in bank.old unrolling.now)) (reverse tasks.items) }
    ensures extends { Extends bank.old bank.new }
    ensures ids { IfOk result (λ list. All (λ g. AreIds bank.new g.terms) list) }
    ensures formed { OnOk result (IsTerm (tree_at bank.old unrolling.now.bot) → HasTerms bank.old unrolling.now.made.now tasks.items → AreFormed bank.new) }
    ensures list { IfOk result (λ list. (b : Sym) → tree_at bank.old unrolling.now.bot ≡ app b none
        → map (grounded_at bank.new) list ≡ each_once (flat_map (list_of b (entries_in bank.old unrolling.now)) (map (waiting_at bank.old) (reverse tasks.items)))) }
{
    let mut walk = Walk {
        tasks,
        seen: IndexSet::new(unrolling.alloc),
        items: IndexSet::new(unrolling.alloc),
    };
    while let Some(task) = walk.tasks.pop() {
        take_task(unrolling, bank, &mut walk, &task)?;
    }
    let list = list_items(unrolling.alloc, &walk.items)?;
    Ok(list)
}

// The items of one entry.
fn items_of(unrolling: &Unrolling<'_>, bank: &mut Bank, n: usize) -> Result<GroundedList, Memory>
    requires unrolling { IsUnrolling bank.old unrolling.now }
    requires number { (0 < n) × (n ≤ length unrolling.now.made.now) }
    ensures extends { Extends bank.old bank.new }
    ensures ids { IfOk result (λ list. All (λ g. AreIds bank.new g.terms) list) }
    ensures formed { OnOk result (IsTerm (tree_at bank.old unrolling.now.bot) → AreFormed bank.old → All (λ m. AreTermIds bank.old (terms_of m.how)) unrolling.now.made.now → AreFormed bank.new) }
    ensures list { IfOk result (λ list. (b : Sym) → tree_at bank.old unrolling.now.bot ≡ app b none
        → map (grounded_at bank.new) list ≡ each_once (unrolled b (entries_in bank.old unrolling.now) n (grounding b))) }
{
    let mut tasks = Vec::new(unrolling.alloc);
    let task = task_of(unrolling, bank, n, &[])?;
    tasks.push(task)?;
    run(unrolling, bank, tasks)
}

// Tasks of all entries, the first of which comes first.
fn push_all(unrolling: &Unrolling<'_>, bank: &Bank, tasks: &mut Vec<Task>) -> Result<(), Memory>
    requires unrolling { IsUnrolling bank.now unrolling.now }
    requires empty { tasks.old.items ≡ [] }
    ensures tasks { OnOk result (All (IsTask bank.now (entries_in bank.now unrolling.now)) (reverse tasks.new.items)) }
    ensures plain { OnOk result ((f : Forest) → IsTermIn f unrolling.now.bot → All (λ t. All (IsTermIn f) t.terms) tasks.new.items) }
    ensures lists { OnOk result ((b : Sym) → tree_at bank.now unrolling.now.bot ≡ app b none
        → flat_map (list_of b (entries_in bank.now unrolling.now)) (map (waiting_at bank.now) (reverse tasks.new.items)) ≡ all_unrolled b (entries_in bank.now unrolling.now) (length unrolling.now.made.now)) }
{
    for i in (0..unrolling.made.len()).rev() {
        let task = task_of(unrolling, bank, i + 1, &[])?;
        tasks.push(task)?;
    }
    Ok(())
}

// The items of all entries.
fn items_of_all(unrolling: &Unrolling<'_>, bank: &mut Bank) -> Result<GroundedList, Memory>
    requires { IsUnrolling bank.old unrolling.now }
    ensures extends { Extends bank.old bank.new }
    ensures ids { IfOk result (λ list. All (λ g. AreIds bank.new g.terms) list) }
    ensures formed { OnOk result (IsTerm (tree_at bank.old unrolling.now.bot) → AreFormed bank.old → All (λ m. AreTermIds bank.old (terms_of m.how)) unrolling.now.made.now → AreFormed bank.new) }
    ensures list { IfOk result (λ list. (b : Sym) → tree_at bank.old unrolling.now.bot ≡ app b none
        → map (grounded_at bank.new) list ≡ each_once (all_unrolled b (entries_in bank.old unrolling.now) (length unrolling.now.made.now))) }
{
    let mut tasks = Vec::new(unrolling.alloc);
    push_all(unrolling, bank, &mut tasks)?;
    run(unrolling, bank, tasks)
}

/// The ground instances of input clauses of which entry `n` with the constant for every variable follows, each once and in order of
/// first occurrence. Each entry is walked once under the same terms.
///
/// Where the entries were made of input clauses as they say, the items are ground instances of these, and imply the abstraction of
/// the entry.
pub fn unroll(
    alloc: Global,
    bank: &mut Bank,
    bot: TermId,
    made: &MadeList,
    n: usize,
) -> Result<GroundedList, Memory>
    requires entries { AreEntriesOf bank.old made.now }
    requires number { (0 < n) × (n ≤ length made.now) }
    requires bot { bot < length bank.old.trees }
    requires constant { (b : Sym) × (tree_at bank.old bot ≡ app b none) }
    ensures extends { Extends bank.old bank.new }
    ensures ids { IfOk result (λ list. All (λ g. AreIds bank.new g.terms) list) }
    ensures formed { OnOk result (IsTerm (tree_at bank.old bot) → AreFormed bank.old → All (λ m. AreTermIds bank.old (terms_of m.how)) made.now → AreFormed bank.new) }
    ensures list { IfOk result (λ list. (b : Sym) → tree_at bank.old bot ≡ app b none
        → map (grounded_at bank.new) list ≡ each_once (unrolled b (entries_at bank.old made.now) n (grounding b))) }
    ensures grounded { IfOk result (λ list. (b : Sym) → tree_at bank.old bot ≡ app b none → (cs : List TreeClause) → AreMade b cs (entries_at bank.old made.now)
        → All (IsGrounded cs) (map (grounded_at bank.new) list)) }
    ensures implies { IfOk result (λ list. (b : Sym) → tree_at bank.old bot ≡ app b none → (cs : List TreeClause) → AreMade b cs (entries_at bank.old made.now)
        → (m : Made) → at_number made.now n ≡ Some m → (v : List Tree) → All (λ g. IsTrueClause (Contains v) (ground_clause cs g)) (map (grounded_at bank.new) list)
        → IsTrueClause (Contains v) (abstraction b (clause_at bank.old m.clause))) }
{
    let unrolling = Unrolling { alloc, made, bot };
    let list = items_of(&unrolling, bank, n)?;
    Ok(list)
}

/// The lists of all entries one after the other, each item once and in order of first occurrence. Each entry is walked once under
/// the same terms.
///
/// Where the entries were made of input clauses as they say, and no valuation makes all their abstractions true, none makes the
/// ground clauses of the list true.
pub fn unroll_all(
    alloc: Global,
    bank: &mut Bank,
    bot: TermId,
    made: &MadeList,
) -> Result<GroundedList, Memory>
    requires entries { AreEntriesOf bank.old made.now }
    requires bot { bot < length bank.old.trees }
    requires constant { (b : Sym) × (tree_at bank.old bot ≡ app b none) }
    ensures extends { Extends bank.old bank.new }
    ensures ids { IfOk result (λ list. All (λ g. AreIds bank.new g.terms) list) }
    ensures formed { OnOk result (IsTerm (tree_at bank.old bot) → AreFormed bank.old → All (λ m. AreTermIds bank.old (terms_of m.how)) made.now → AreFormed bank.new) }
    ensures list { IfOk result (λ list. (b : Sym) → tree_at bank.old bot ≡ app b none
        → map (grounded_at bank.new) list ≡ each_once (all_unrolled b (entries_at bank.old made.now) (length made.now))) }
    ensures grounded { IfOk result (λ list. (b : Sym) → tree_at bank.old bot ≡ app b none → (cs : List TreeClause) → AreMade b cs (entries_at bank.old made.now)
        → All (IsGrounded cs) (map (grounded_at bank.new) list)) }
    ensures refuted { IfOk result (λ list. (b : Sym) → tree_at bank.old bot ≡ app b none → (cs : List TreeClause) → AreMade b cs (entries_at bank.old made.now)
        → IsRefuted (map (abstraction b) (made_clauses (entries_at bank.old made.now))) → IsRefuted (map (ground_clause cs) (map (grounded_at bank.new) list))) }
{
    let unrolling = Unrolling { alloc, made, bot };
    let list = items_of_all(&unrolling, bank)?;
    Ok(list)
}
