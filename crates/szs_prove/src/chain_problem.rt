// The problem of a chain, made from its number of constants. Each clause is in canonical form as it is built.
ghost use Rattle.std.specs.Prelude.{◌≡◌, ◌+◌, ◌<◌, ◌∷◌, [], ◌^◌, IsTrue, IfOk, All, length};
ghost use Rattle.inst_logic.specs.LiteralView.{literal};
ghost use Rattle.inst_logic.specs.View.{tree};
ghost use Rattle.inst_logic.specs.Printing.{is_readable_name};
ghost use Rattle.cert_format.specs.Printable.{IsPrintableProblem};
ghost use Rattle.szs_prove.specs.Chains.{constant, edge, reached, edge_clause, first_clause, rule_clause, last_clause, chain_clauses};

use inst_logic::{
    Clause, ClauseList, Kind, Literal, Memory, Name, NameList, Problem, Sym, Term, TermList,
};
use itoa::Buffer;
use std::alloc::Global;

// Constant `i`, counted from 1.
fn constant(alloc: Global, i: usize) -> Result<Term, Memory>
    ensures { IfOk result (λ t. tree t ≡ constant i) }
{
    let mut buffer = Buffer::new();
    let mut name = Vec::from_slice(alloc, b"c")?;
    name.extend_from_slice(buffer.format(i).as_bytes())?;
    let sym = Sym {
        kind: Kind::Function,
        name: Name::of(alloc, name.as_slice())?,
        arity: 0,
    };
    Ok(Term::App(sym, TermList::new(alloc)))
}

fn edge(alloc: Global, positive: bool, from: Term, to: Term) -> Result<Literal, Memory>
    ensures { IfOk result (λ l. literal l ≡ record { positive = positive; atom = edge (tree from) (tree to) }) }
{
    let mut args = TermList::new(alloc);
    args.push(from)?;
    args.push(to)?;
    Ok(Literal {
        positive,
        sym: Sym {
            kind: Kind::Predicate,
            name: Name::of(alloc, b"e")?,
            arity: 2,
        },
        args,
    })
}

fn reach_literal(alloc: Global, positive: bool, t: Term) -> Result<Literal, Memory>
    ensures { IfOk result (λ l. literal l ≡ record { positive = positive; atom = reached (tree t) }) }
{
    let mut args = TermList::new(alloc);
    args.push(t)?;
    Ok(Literal {
        positive,
        sym: Sym {
            kind: Kind::Predicate,
            name: Name::of(alloc, b"r")?,
            arity: 1,
        },
        args,
    })
}

fn unit(alloc: Global, l: Literal) -> Result<Clause, Memory>
    ensures { IfOk result (λ c. c ≡ literal l ∷ []) }
{
    let mut c = Clause::new(alloc);
    c.push(l)?;
    Ok(c)
}

fn edge_clause(alloc: Global, i: usize) -> Result<Clause, Memory>
    requires { i + 1 < 2 ^ 64 }
    ensures { IfOk result (λ c. c ≡ edge_clause i) }
{
    let from = constant(alloc, i)?;
    let to = constant(alloc, i + 1)?;
    let l = edge(alloc, true, from, to)?;
    unit(alloc, l)
}

fn first_clause(alloc: Global) -> Result<Clause, Memory>
    ensures { IfOk result (λ c. c ≡ first_clause) }
{
    let t = constant(alloc, 1)?;
    let l = reach_literal(alloc, true, t)?;
    unit(alloc, l)
}

fn rule_clause(alloc: Global) -> Result<Clause, Memory>
    ensures { IfOk result (λ c. c ≡ rule_clause) }
{
    let mut c = Clause::new(alloc);
    c.push(reach_literal(alloc, false, Term::Var(0))?)?;
    c.push(edge(alloc, false, Term::Var(0), Term::Var(1))?)?;
    c.push(reach_literal(alloc, true, Term::Var(1))?)?;
    Ok(c)
}

fn last_clause(alloc: Global, n: usize) -> Result<Clause, Memory>
    ensures { IfOk result (λ c. c ≡ last_clause n) }
{
    let t = constant(alloc, n)?;
    let l = reach_literal(alloc, false, t)?;
    unit(alloc, l)
}

#[tactic(auto, using(std::proofs::lemmas::Grind::common_steps, crate::proofs::ChainClauses::edges_more))]
fn chain_clauses(alloc: Global, n: usize) -> Result<ClauseList, Memory>
    requires some { 0 < n }
    requires fits { n + 2 < 2 ^ 64 }
    ensures { IfOk result (λ cs. cs ≡ chain_clauses n) }
{
    let mut clauses = Vec::with_capacity(alloc, n + 2)?;
    for i in 1..n {
        clauses.push(edge_clause(alloc, i)?)?;
    }
    clauses.push(first_clause(alloc)?)?;
    clauses.push(rule_clause(alloc)?)?;
    clauses.push(last_clause(alloc, n)?)?;
    Ok(ClauseList::from(clauses))
}

// The number as a name.
fn number_name(alloc: Global, n: usize) -> Result<Name, Memory>
    ensures { IfOk result (λ name. IsTrue (is_readable_name name)) }
{
    let mut buffer = Buffer::new();
    Name::of(alloc, buffer.format(n).as_bytes())
}

// The numbers from 1 on as names.
fn number_names(alloc: Global, count: usize) -> Result<NameList, Memory>
    ensures count { IfOk result (λ names. length names ≡ count) }
    ensures readable { IfOk result (λ names. All (λ n. IsTrue (is_readable_name n)) names) }
{
    let mut names = Vec::with_capacity(alloc, count)?;
    for i in 0..count {
        names.push(number_name(alloc, i + 1)?)?;
    }
    Ok(NameList::from(names))
}

/// The chain of `n` constants, with the number of each clause, from 1, as its name.
pub fn chain_problem(alloc: Global, n: usize) -> Result<Problem, Memory>
    requires some { 0 < n }
    requires fits { n + 2 < 2 ^ 64 }
    ensures clauses { IfOk result (λ p. p.clauses ≡ chain_clauses n) }
    ensures printable { IfOk result IsPrintableProblem }
{
    let clauses = chain_clauses(alloc, n)?;
    let names = number_names(alloc, clauses.len())?;
    Ok(Problem { clauses, names })
}
