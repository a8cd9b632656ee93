// The symbols of clauses by first occurrence. A list of terms stands for what is left of the walk, so no depth of term exhausts
// a stack.
ghost use Rattle.std.specs.Prelude.{◌≡◌, ◌+◌, ◌≤◌, List, [], ◌++◌, fold, map, IfOk, OnOk};
ghost use Rattle.inst_logic.specs.declared.symbol.Sym.{Sym};
ghost use Rattle.inst_logic.specs.Equal.{sym_eq};
ghost use Rattle.inst_logic.specs.Lists.{with_item, distinct};
ghost use Rattle.inst_logic.specs.LiteralView.{literal};
ghost use Rattle.inst_logic.specs.Measure.{tree_size, trees_size};
ghost use Rattle.inst_logic.specs.Tree.{of_list};
ghost use Rattle.inst_logic.specs.View.{tree};
ghost use Rattle.inst_calculus.specs.Axioms.{tree_symbols, trees_symbols, clause_symbols, occurrences, symbols_of};
ghost use Rattle.equality_axioms.specs.Pending.{pending_symbols, pending_size};

use indexmap::IndexSet;
use inst_logic::{Clause, ClauseList, ListOf, Literal, Memory, Sym, Term};
use std::alloc::Global;

/// Symbols in their order; `symbols_in` lists each once.
pub type SymList = ListOf<Sym>;

// Adds the symbol where the set does not have it.
#[tactic(auto, using(crate::proofs::Collecting::with_symbol, crate::proofs::Collecting::has_symbol))]
fn note(seen: &mut IndexSet<Sym>, s: &Sym) -> Result<(), Memory>
    ensures { OnOk result (seen.new.keys ≡ with_item sym_eq seen.old.keys s.now) }
{
    if !seen.contains(s) {
        seen.insert(s.clone()?)?;
    }
    Ok(())
}

// Puts the terms on the list, the first one last.
fn push_terms<'a>(pending: &mut Vec<&'a Term>, terms: &'a [Term]) -> Result<(), Memory>
    ensures symbols { OnOk result (pending_symbols (map (λ u. tree u.now) pending.new.items) ≡ trees_symbols (of_list (map tree terms.now)) ++ pending_symbols (map (λ u. tree u.now) pending.old.items)) }
    ensures size { OnOk result (pending_size (map (λ u. tree u.now) pending.new.items) ≡ pending_size (map (λ u. tree u.now) pending.old.items) + trees_size (of_list (map tree terms.now))) }
{
    for i in (0..terms.len()).rev() {
        pending.push(&terms[i])?;
    }
    Ok(())
}

// Adds the symbol of the term, and puts its arguments on the list.
fn visit<'a>(
    seen: &mut IndexSet<Sym>,
    pending: &mut Vec<&'a Term>,
    t: &'a Term,
) -> Result<(), Memory>
    ensures symbols { OnOk result (fold (with_item sym_eq) seen.new.keys (pending_symbols (map (λ u. tree u.now) pending.new.items)) ≡ fold (with_item sym_eq) seen.old.keys (tree_symbols (tree t.now) ++ pending_symbols (map (λ u. tree u.now) pending.old.items))) }
    ensures size { OnOk result (pending_size (map (λ u. tree u.now) pending.new.items) + 1 ≤ pending_size (map (λ u. tree u.now) pending.old.items) + tree_size (tree t.now)) }
{
    match t {
        Term::Var(_) => {}
        Term::App(sym, args) => {
            note(seen, sym)?;
            push_terms(pending, args.as_slice())?;
        }
    }
    Ok(())
}

// Adds the symbols of the terms on the list.
fn run<'a>(seen: &mut IndexSet<Sym>, mut pending: Vec<&'a Term>) -> Result<(), Memory>
    ensures { OnOk result (seen.new.keys ≡ fold (with_item sym_eq) seen.old.keys (pending_symbols (map (λ u. tree u.now) pending.entry.items))) }
{
    while let Some(t) = pending.pop() {
        visit(seen, &mut pending, t)?;
    }
    Ok(())
}

// Adds the symbols of the literal, that of its atom first.
fn add_literal(alloc: Global, seen: &mut IndexSet<Sym>, l: &Literal) -> Result<(), Memory>
    ensures { OnOk result (seen.new.keys ≡ fold (with_item sym_eq) seen.old.keys (tree_symbols (literal l.now).atom)) }
{
    note(seen, &l.sym)?;
    let mut pending = Vec::new(alloc);
    push_terms(&mut pending, l.args.as_slice())?;
    run(seen, pending)
}

#[tactic(auto, using(std::proofs::lemmas::Grind::common_steps, crate::proofs::Collecting::collect_clause))]
fn add_clause(alloc: Global, seen: &mut IndexSet<Sym>, c: &Clause) -> Result<(), Memory>
    ensures { OnOk result (seen.new.keys ≡ fold (with_item sym_eq) seen.old.keys (clause_symbols c.now)) }
{
    for l in c.as_slice() {
        add_literal(alloc, seen, l)?;
    }
    Ok(())
}

// The symbols of the clauses, each once and in order of first occurrence.
#[tactic(auto, using(std::proofs::lemmas::Grind::common_steps, crate::proofs::Collecting::collect_clauses))]
fn collect(alloc: Global, clauses: &ClauseList) -> Result<IndexSet<Sym>, Memory>
    ensures { IfOk result (λ seen. seen.keys ≡ symbols_of clauses.now) }
{
    let mut seen = IndexSet::new(alloc);
    for c in clauses.as_slice() {
        add_clause(alloc, &mut seen, c)?;
    }
    Ok(seen)
}

/// The symbols of the clauses, each once and in order of first occurrence.
pub fn symbols_in(alloc: Global, clauses: &ClauseList) -> Result<SymList, Memory>
    ensures { IfOk result (λ symbols. symbols ≡ symbols_of clauses.now) }
{
    let seen = collect(alloc, clauses)?;
    let symbols: Vec<Sym> = seen.into_iter().collect(alloc)?;
    Ok(ListOf::from(symbols))
}
