// The clauses that make a predicate the graph of a function: some element is the value, and no two are.
ghost use Rattle.std.specs.Prelude.{◌≡◌, map, IfOk};
ghost use Rattle.std.specs.List.{range_with_len};
ghost use Rattle.inst_logic.specs.LiteralView.{literal};
ghost use Rattle.inst_logic.specs.Tree.{var};
ghost use Rattle.finite_model.specs.Flattening.{function_predicate, total_clause, unique_clause, value_literal};

use crate::numbering::{Numbering, element_term};
use inst_logic::{Clause, Literal, Memory, Sym, Term, TermList};
use std::alloc::Global;

/// The predicate of a function's arguments and value, and how many arguments there are.
#[derive(Drop)]
pub(crate) struct Graph {
    pub(crate) sym: Sym,
    pub(crate) arguments: usize,
}

/// The graph of the function.
pub(crate) fn graph_of(alloc: Global, numbering: &Numbering, f: &Sym) -> Result<Graph, Memory>
    ensures symbol { IfOk result (λ g. g.sym ≡ function_predicate numbering.now f.now) }
    ensures arguments { IfOk result (λ g. g.arguments ≡ f.now.arity) }
{
    let sym = numbering.of_function(alloc, f)?;
    Ok(Graph {
        sym,
        arguments: f.arity,
    })
}

// The first `count` variables, from 0.
fn variables(alloc: Global, count: usize) -> Result<TermList, Memory>
    ensures { IfOk result (λ ts. ts ≡ map var (range_with_len 0 count)) }
{
    let mut ts = TermList::new(alloc);
    for v in 0..count {
        ts.push(Term::Var(v))?;
    }
    Ok(ts)
}

fn value_literal(alloc: Global, graph: &Graph, positive: bool, e: usize) -> Result<Literal, Memory>
    ensures { IfOk result (λ l. literal l ≡ value_literal graph.now.sym graph.now.arguments positive e) }
{
    let mut args = variables(alloc, graph.arguments)?;
    args.push(element_term(alloc, e)?)?;
    Ok(Literal {
        positive,
        sym: graph.sym.clone()?,
        args,
    })
}

/// The clause that one of the `k` elements is the value.
pub(crate) fn total_clause(alloc: Global, graph: &Graph, k: usize) -> Result<Clause, Memory>
    ensures { IfOk result (λ c. c ≡ total_clause k graph.now.sym graph.now.arguments) }
{
    let mut c = Clause::new(alloc);
    for e in 0..k {
        c.push(value_literal(alloc, graph, true, e + 1)?)?;
    }
    Ok(c)
}

/// The clause that not both elements are the value.
pub(crate) fn unique_clause(
    alloc: Global,
    graph: &Graph,
    i: usize,
    j: usize,
) -> Result<Clause, Memory>
    ensures { IfOk result (λ c. c ≡ unique_clause graph.now.sym graph.now.arguments i j) }
{
    let mut c = Clause::new(alloc);
    c.push(value_literal(alloc, graph, false, i)?)?;
    c.push(value_literal(alloc, graph, false, j)?)?;
    Ok(c)
}
