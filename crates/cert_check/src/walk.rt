// The symbols of clauses over a bank by first occurrence. A list of steps stands for what is left of the walk, so no depth of
// term exhausts a stack. A node is closed once the symbols of its tree are found, so what many terms share is opened once.
ghost use Rattle.std.specs.Prelude.{◌≡◌, ◌+◌, ◌<◌, ◌≤◌, ◌++◌, List, ◌∷◌, All, IfOk, OnOk, fold, length, map, reverse};
ghost use Rattle.inst_logic.specs.declared.symbol.Sym.{Sym};
ghost use Rattle.inst_logic.specs.Equal.{sym_eq};
ghost use Rattle.inst_logic.specs.Lists.{with_item};
ghost use Rattle.inst_calculus.specs.Axioms.{clause_symbols, symbols_of};
ghost use Rattle.term_bank.specs.Forest.{IsClauseOf, clause_at, tree_at};
ghost use Rattle.cert_check.specs.SymbolSteps.{AreClosed, Leads, steps_size, with_symbols};
ghost use Rattle.cert_check.specs.declared.walk.Step.TheVariants.{Visit};

use equality_axioms::SymList;
use indexmap::IndexSet;
use inst_logic::{Memory, Sym};
use std::alloc::Global;
use term_bank::{Bank, IdClause, IdClauseList, TermId};

// A part of the walk that is left.
#[derive(Clone, Copy)]
enum Step {
    // Its symbols are to be found, unless the node is closed.
    Visit(TermId),
    // By now its symbols are found, and the node is to be closed.
    Close(TermId),
}

// Adds the symbol where the set does not have it.
#[tactic(auto, using(equality_axioms::proofs::Collecting::with_symbol, equality_axioms::proofs::Collecting::has_symbol))]
fn note(found: &mut IndexSet<Sym>, s: &Sym) -> Result<(), Memory>
    ensures { OnOk result (found.new.keys ≡ with_item sym_eq found.old.keys s.now) }
{
    if !found.contains(s) {
        found.insert(s.clone()?)?;
    }
    Ok(())
}

// Puts visits of the ids on the list, that of the first one last.
fn push_visits(steps: &mut Vec<Step>, ids: &[TermId]) -> Result<(), Memory>
    ensures { OnOk result (reverse steps.new.items ≡ map Visit ids.now ++ reverse steps.old.items) }
{
    for i in (0..ids.len()).rev() {
        steps.push(Step::Visit(ids[i]))?;
    }
    Ok(())
}

// Unless the node is closed, adds its symbol and puts its arguments on the list, and then that it is to be closed.
fn visit(
    bank: &Bank,
    found: &mut IndexSet<Sym>,
    closed: &IndexSet<TermId>,
    steps: &mut Vec<Step>,
    id: TermId,
) -> Result<(), Memory>
    requires id { id < length bank.now.trees }
    requires closed { AreClosed bank.now found.old.keys closed.now.keys }
    ensures leads { OnOk result ((end : List Sym) → Leads bank.now (Visit id ∷ reverse steps.old.items) found.old.keys end → Leads bank.now (reverse steps.new.items) found.new.keys end) }
    ensures closed { OnOk result (AreClosed bank.now found.new.keys closed.now.keys) }
    ensures size { OnOk result (steps_size bank.now (reverse steps.new.items) + 1 ≤ steps_size bank.now (Visit id ∷ reverse steps.old.items)) }
{
    if closed.contains(&id) {
        return Ok(());
    }
    match bank.sym(id) {
        None => {}
        Some(s) => {
            note(found, s)?;
            steps.push(Step::Close(id))?;
            push_visits(steps, bank.args(id))?;
        }
    }
    Ok(())
}

// Adds the symbols of the tree.
fn add_tree(
    alloc: Global,
    bank: &Bank,
    found: &mut IndexSet<Sym>,
    closed: &mut IndexSet<TermId>,
    id: TermId,
) -> Result<(), Memory>
    requires id { id < length bank.now.trees }
    requires closed { AreClosed bank.now found.old.keys closed.old.keys }
    ensures symbols { OnOk result (found.new.keys ≡ with_symbols found.old.keys (tree_at bank.now id)) }
    ensures closed { OnOk result (AreClosed bank.now found.new.keys closed.new.keys) }
{
    let mut steps = Vec::new(alloc);
    steps.push(Step::Visit(id))?;
    while let Some(step) = steps.pop() {
        match step {
            Step::Visit(next) => visit(bank, found, closed, &mut steps, next)?,
            Step::Close(done) => {
                closed.insert(done)?;
            }
        }
    }
    Ok(())
}

fn add_clause(
    alloc: Global,
    bank: &Bank,
    found: &mut IndexSet<Sym>,
    closed: &mut IndexSet<TermId>,
    c: &IdClause,
) -> Result<(), Memory>
    requires clause { IsClauseOf bank.now c.now }
    requires closed { AreClosed bank.now found.old.keys closed.old.keys }
    ensures symbols { OnOk result (found.new.keys ≡ fold (with_item sym_eq) found.old.keys (clause_symbols (clause_at bank.now c.now))) }
    ensures closed { OnOk result (AreClosed bank.now found.new.keys closed.new.keys) }
{
    for l in c.as_slice() {
        add_tree(alloc, bank, found, closed, l.atom)?;
    }
    Ok(())
}

fn collect(alloc: Global, bank: &Bank, clauses: &IdClauseList) -> Result<IndexSet<Sym>, Memory>
    requires { All (IsClauseOf bank.now) clauses.now }
    ensures { IfOk result (λ found. found.keys ≡ symbols_of (map (clause_at bank.now) clauses.now)) }
{
    let mut found = IndexSet::new(alloc);
    let mut closed: IndexSet<TermId> = IndexSet::new(alloc);
    for c in clauses.as_slice() {
        add_clause(alloc, bank, &mut found, &mut closed, c)?;
    }
    Ok(found)
}

// The symbols of the clauses, each once and in order of first occurrence.
pub fn symbols_in(alloc: Global, bank: &Bank, clauses: &IdClauseList) -> Result<SymList, Memory>
    requires { All (IsClauseOf bank.now) clauses.now }
    ensures { IfOk result (λ all. all ≡ symbols_of (map (clause_at bank.now) clauses.now)) }
{
    let found = collect(alloc, bank, clauses)?;
    let symbols: Vec<Sym> = found.into_iter().collect(alloc)?;
    Ok(SymList::from(symbols))
}
