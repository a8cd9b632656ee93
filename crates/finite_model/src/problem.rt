// The flattened form of a problem, clause by clause in its order.
ghost use Rattle.std.specs.Prelude.{◌≡◌, ◌+◌, ◌-◌, ◌<◌, ◌≤◌, ◌++◌, ◌∷◌, [], codes, length, map, slice_index_or, IfOk, OnOk};
ghost use Rattle.std.specs.List.{range_with_len};
ghost use Rattle.inst_logic.specs.Clauses.{canonical_form};
ghost use Rattle.finite_model.specs.Flattening.{identity, identity_clause, identity_clauses, unique_clause, unique_clauses, graph_clauses, function_clauses, function_predicate, flat_clause, flattened, flattened_names, numbers_of};
ghost use Rattle.finite_model.specs.Adding.{Adds, AddsEach};

use crate::clauses::flat_clause;
use crate::graph::{Graph, graph_of, total_clause, unique_clause};
use crate::numbering::{Numbering, element_term, identity_symbol};
use inst_logic::{
    Clause, ClauseList, Literal, Memory, Name, NameList, Problem, Sym, TermList, canonical,
};
use std::alloc::Global;

// Adds the clause in canonical form.
fn add(alloc: Global, all: &mut Problem, name: &Name, c: &Clause) -> Result<(), Memory>
    ensures { OnOk result (Adds all.old all.new name.now (c.now ∷ [])) }
{
    all.clauses.push(canonical(alloc, c)?)?;
    all.names.push(name.clone()?)?;
    Ok(())
}

// The clause that the elements are the same, or that they aren't.
fn identity_clause(alloc: Global, i: usize, j: usize) -> Result<Clause, Memory>
    ensures { IfOk result (λ c. c ≡ identity_clause i j) }
{
    let mut args = TermList::new(alloc);
    args.push(element_term(alloc, i)?)?;
    args.push(element_term(alloc, j)?)?;
    let mut c = Clause::new(alloc);
    c.push(Literal {
        positive: i == j,
        sym: identity_symbol(alloc)?,
        args,
    })?;
    Ok(c)
}

// For `i` and each element.
fn add_identity_row(
    alloc: Global,
    all: &mut Problem,
    name: &Name,
    i: usize,
    k: usize,
) -> Result<(), Memory>
    ensures { OnOk result (Adds all.old all.new name.now (map (identity_clause i) (range_with_len 1 k))) }
{
    for j in 0..k {
        let c = identity_clause(alloc, i, j + 1)?;
        add(alloc, all, name, &c)?;
    }
    Ok(())
}

// For each two elements, in lexicographic order.
fn add_identities(alloc: Global, all: &mut Problem, k: usize) -> Result<(), Memory>
    ensures { OnOk result (Adds all.old all.new (codes "id") (identity_clauses k)) }
{
    let name = Name::of(alloc, b"id")?;
    for i in 0..k {
        add_identity_row(alloc, all, &name, i + 1, k)?;
    }
    Ok(())
}

// For `i` and each larger element.
fn add_unique_row(
    alloc: Global,
    all: &mut Problem,
    graph: &Graph,
    i: usize,
    k: usize,
) -> Result<(), Memory>
    requires { i ≤ k }
    ensures { OnOk result (Adds all.old all.new graph.now.sym.name (map (unique_clause graph.now.sym graph.now.arguments i) (range_with_len (i + 1) (k - i)))) }
{
    for n in 0..k - i {
        let c = unique_clause(alloc, graph, i, i + 1 + n)?;
        add(alloc, all, &graph.sym.name, &c)?;
    }
    Ok(())
}

// For each two elements of which the first is the smaller, in lexicographic order.
fn add_unique(alloc: Global, all: &mut Problem, graph: &Graph, k: usize) -> Result<(), Memory>
    ensures { OnOk result (Adds all.old all.new graph.now.sym.name (unique_clauses k graph.now.sym graph.now.arguments)) }
{
    for i in 0..k {
        add_unique_row(alloc, all, graph, i + 1, k)?;
    }
    Ok(())
}

// Adds the clauses of the graph under its name.
fn add_graph(alloc: Global, all: &mut Problem, graph: &Graph, k: usize) -> Result<(), Memory>
    ensures { OnOk result (Adds all.old all.new graph.now.sym.name (graph_clauses k graph.now.sym graph.now.arguments)) }
{
    let total = total_clause(alloc, graph, k)?;
    add(alloc, all, &graph.sym.name, &total)?;
    add_unique(alloc, all, graph, k)?;
    Ok(())
}

fn add_function(
    alloc: Global,
    numbering: &Numbering,
    all: &mut Problem,
    f: &Sym,
    k: usize,
) -> Result<(), Memory>
    ensures { OnOk result (Adds all.old all.new (function_predicate numbering.now f.now).name (function_clauses k numbering.now f.now)) }
{
    let graph = graph_of(alloc, numbering, f)?;
    add_graph(alloc, all, &graph, k)?;
    Ok(())
}

// Adds the clauses of function number `i`, counted from 0.
fn add_function_at(
    alloc: Global,
    numbering: &Numbering,
    all: &mut Problem,
    i: usize,
    k: usize,
) -> Result<(), Memory>
    requires { i < length numbering.now.functions }
    ensures { OnOk result (Adds all.old all.new (function_predicate numbering.now (slice_index_or numbering.now.functions i identity)).name (function_clauses k numbering.now (slice_index_or numbering.now.functions i identity))) }
{
    match numbering.functions.get_index(i) {
        Some(f) => add_function(alloc, numbering, all, f, k),
        None => unreachable!(),
    }
}

// Adds the clauses of each function under its name.
fn add_functions(
    alloc: Global,
    numbering: &Numbering,
    all: &mut Problem,
    k: usize,
) -> Result<(), Memory>
    ensures { OnOk result (AddsEach all.old all.new (λ f. (function_predicate numbering.now f).name) (function_clauses k numbering.now) numbering.now.functions) }
{
    for i in 0..numbering.functions.len() {
        add_function_at(alloc, numbering, all, i, k)?;
    }
    Ok(())
}

// Adds the flat form of the clause.
fn add_flat(
    alloc: Global,
    numbering: &Numbering,
    all: &mut Problem,
    name: &Name,
    c: &Clause,
) -> Result<(), Memory>
    ensures { OnOk result (Adds all.old all.new name.now (flat_clause numbering.now c.now ∷ [])) }
{
    let flat = flat_clause(alloc, numbering, c)?;
    add(alloc, all, name, &flat)?;
    Ok(())
}

// Adds the flat form of each clause under its own name.
fn add_clauses(
    alloc: Global,
    numbering: &Numbering,
    all: &mut Problem,
    clauses: &[Clause],
    names: &[Name],
) -> Result<(), Memory>
    requires { length names.now ≡ length clauses.now }
    ensures clauses { OnOk result (all.new.clauses ≡ all.old.clauses ++ map canonical_form (map (flat_clause numbering.now) clauses.now)) }
    ensures names { OnOk result (all.new.names ≡ all.old.names ++ names.now) }
{
    for i in 0..clauses.len() {
        add_flat(alloc, numbering, all, &names[i], &clauses[i])?;
    }
    Ok(())
}

// Adds the flattened form of the problem by the numbering of its symbols.
fn add_all(
    alloc: Global,
    numbering: &Numbering,
    all: &mut Problem,
    p: &Problem,
    k: usize,
) -> Result<(), Memory>
    requires named { length p.now.names ≡ length p.now.clauses }
    requires numbered { numbering.now ≡ numbers_of p.now.clauses }
    ensures clauses { OnOk result (all.new.clauses ≡ all.old.clauses ++ flattened k p.now.clauses) }
    ensures names { OnOk result (all.new.names ≡ all.old.names ++ flattened_names k p.now.clauses p.now.names) }
{
    add_identities(alloc, all, k)?;
    add_functions(alloc, numbering, all, k)?;
    add_clauses(
        alloc,
        numbering,
        all,
        p.clauses.as_slice(),
        p.names.as_slice(),
    )
}

// The flattened form of the problem by the numbering of its symbols.
fn flattened_by(
    alloc: Global,
    numbering: &Numbering,
    p: &Problem,
    k: usize,
) -> Result<Problem, Memory>
    requires named { length p.now.names ≡ length p.now.clauses }
    requires numbered { numbering.now ≡ numbers_of p.now.clauses }
    ensures clauses { IfOk result (λ q. q.clauses ≡ flattened k p.now.clauses) }
    ensures names { IfOk result (λ q. q.names ≡ flattened_names k p.now.clauses p.now.names) }
{
    let mut all = Problem {
        clauses: ClauseList::new(alloc),
        names: NameList::new(alloc),
    };
    match add_all(alloc, numbering, &mut all, p, k) {
        Ok(()) => Ok(all),
        Err(Memory) => {
            drop(all);
            Err(Memory)
        }
    }
}

/// The flattened form of the problem for `k` elements, with the names of its clauses. It has `k * k` clauses for identity, then one
/// and `k * (k - 1) / 2` for each function, and one for each clause of the problem. A function with `usize::MAX` arguments is want
/// of memory.
pub fn flatten(alloc: Global, p: &Problem, k: usize) -> Result<Problem, Memory>
    requires { length p.now.names ≡ length p.now.clauses }
    ensures clauses { IfOk result (λ q. q.clauses ≡ flattened k p.now.clauses) }
    ensures names { IfOk result (λ q. q.names ≡ flattened_names k p.now.clauses p.now.names) }
{
    let numbering = Numbering::of(alloc, &p.clauses)?;
    let all = flattened_by(alloc, &numbering, p, k);
    // Let go by a call, here and above: where the scope of one ends, the proof takes long.
    drop(numbering);
    all
}
