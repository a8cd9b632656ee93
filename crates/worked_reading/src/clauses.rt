// The worked row, `p(X3) | q(X1) | p(X3)` becomes `p(X0) | q(X1)`, its measures, and each call that allocates once. A function
// that owns terms has few ways out, so that it is soon proved.
use indexmap::IndexSet;
use inst_logic::{
    Clause, ClauseList, Kind, Literal, Memory, Name, NameList, PlaceList, Problem, Sym, Term,
    TermList, canonical, function_free, size, weight,
};
use std::alloc::Global;

fn applied(alloc: Global, name: &[u8], arg: Term) -> Result<Term, Memory> {
    let mut args = TermList::new(alloc);
    args.push(arg)?;
    Ok(Term::App(
        Sym {
            kind: Kind::Function,
            name: Name::of(alloc, name)?,
            arity: 1,
        },
        args,
    ))
}

fn atom(alloc: Global, name: &[u8], arg: Term) -> Result<Literal, Memory> {
    let mut args = TermList::new(alloc);
    args.push(arg)?;
    Ok(Literal {
        positive: true,
        sym: Sym {
            kind: Kind::Predicate,
            name: Name::of(alloc, name)?,
            arity: 1,
        },
        args,
    })
}

fn push_atoms(alloc: Global, c: &mut Clause, atoms: &[(&[u8], usize)]) -> Result<(), Memory> {
    for (name, variable) in atoms {
        c.push(atom(alloc, name, Term::Var(*variable))?)?;
    }
    Ok(())
}

// The clause of these predicates with a variable each.
fn clause_of(alloc: Global, atoms: &[(&[u8], usize)]) -> Result<Clause, Memory> {
    let mut c = Clause::new(alloc);
    push_atoms(alloc, &mut c, atoms)?;
    Ok(c)
}

// Whether the canonical form of the one clause is the other.
fn is_canonical_of(alloc: Global, c: &Clause, wanted: &Clause) -> Result<bool, Memory> {
    let d = canonical(alloc, c)?;
    Ok(d == *wanted)
}

// Whether the worked row becomes what it is to, and its size.
fn renumbered(alloc: Global) -> Result<(bool, u64), Memory> {
    let c = clause_of(alloc, &[(b"p", 3), (b"q", 1), (b"p", 3)])?;
    let wanted = clause_of(alloc, &[(b"p", 0), (b"q", 1)])?;
    Ok((is_canonical_of(alloc, &c, &wanted)?, size(&c)))
}

// The clause of one literal.
fn unit(alloc: Global, l: Literal) -> Result<Clause, Memory> {
    let mut c = Clause::new(alloc);
    c.push(l)?;
    Ok(c)
}

// The clause p(f(X)).
fn of_function(alloc: Global, variable: usize) -> Result<Clause, Memory> {
    unit(
        alloc,
        atom(alloc, b"p", applied(alloc, b"f", Term::Var(variable))?)?,
    )
}

// Whether the problem of this clause alone is free of functions.
fn is_function_free(alloc: Global, c: Clause) -> Result<bool, Memory> {
    let mut clauses = ClauseList::new(alloc);
    clauses.push(c)?;
    let p = Problem {
        clauses,
        names: NameList::new(alloc),
    };
    Ok(function_free(&p))
}

// The weight of p(f(X0)), and whether the problem of it alone is free of functions.
fn weighed(alloc: Global) -> Result<(Option<u64>, bool), Memory> {
    let c = of_function(alloc, 0)?;
    let first = c.get(0).map(weight);
    Ok((first, is_function_free(alloc, c)?))
}

fn is_term_copied(t: &Term) -> Result<bool, Memory> {
    let copy = t.clone()?;
    Ok(copy == *t)
}

fn are_args_copied(args: &TermList) -> Result<bool, Memory> {
    let copy = args.clone()?;
    Ok(copy == *args)
}

fn is_symbol_copied(sym: &Sym) -> Result<bool, Memory> {
    let copy = sym.clone()?;
    Ok(copy == *sym)
}

fn is_literal_copied(l: &Literal) -> Result<bool, Memory> {
    let copy = l.clone()?;
    Ok(copy == *l)
}

// Whether p(t), its arguments and its symbol are copied.
fn is_atom_copied(alloc: Global, t: Term) -> Result<[bool; 3], Memory> {
    let l = atom(alloc, b"p", t)?;
    let args = are_args_copied(&l.args)?;
    let sym = is_symbol_copied(&l.sym)?;
    Ok([args, sym, is_literal_copied(&l)?])
}

// Whether f(X7) is copied, and p(f(X7)) with its parts.
fn copies(alloc: Global) -> Result<(bool, [bool; 3]), Memory> {
    let t = applied(alloc, b"f", Term::Var(7))?;
    let term = is_term_copied(&t)?;
    Ok((term, is_atom_copied(alloc, t)?))
}

// The literal p with no arguments, as they are made of a vector.
fn without_args(alloc: Global) -> Result<Literal, Memory> {
    let mut l = atom(alloc, b"p", Term::Var(0))?;
    let terms: Vec<Term> = TermList::new(alloc).into();
    l.args = TermList::from(terms);
    Ok(l)
}

// How many literals the vector of a clause has, and how many the clause of the vector.
fn lengths(c: Clause) -> [usize; 2] {
    let literals: Vec<Literal> = c.into();
    let count = literals.len();
    [count, Clause::from(literals).len()]
}

// The first of the places that are made of the vector of one place.
fn first_place(alloc: Global) -> Result<Option<usize>, Memory> {
    let mut places = PlaceList::new(alloc);
    places.push(3)?;
    let numbers: Vec<usize> = places.into();
    Ok(PlaceList::from(numbers).get(0).copied())
}

// Whether the literal has no arguments, and the lengths of the clause of it.
fn made(alloc: Global) -> Result<(bool, [usize; 2]), Memory> {
    let l = without_args(alloc)?;
    let is_empty = l.args.is_empty();
    Ok((is_empty, lengths(unit(alloc, l)?)))
}

fn insert_twice(alloc: Global, seen: &mut IndexSet<Clause>) -> Result<usize, Memory> {
    for _ in 0..2 {
        seen.insert(of_function(alloc, 1)?)?;
    }
    Ok(seen.len())
}

// How many clauses a set has, into which p(f(X1)) is put twice.
fn members(alloc: Global) -> Result<usize, Memory> {
    let mut seen = IndexSet::new(alloc);
    insert_twice(alloc, &mut seen)
}

/// Whether each of these is what it is to be. Equal clauses hash alike.
pub fn are_answered(alloc: Global) -> Result<[bool; 6], Memory> {
    Ok([
        renumbered(alloc)? == (true, 6),
        weighed(alloc)? == (Some(1), false),
        copies(alloc)? == (true, [true; 3]),
        made(alloc)? == (true, [1, 1]),
        first_place(alloc)? == Some(3),
        members(alloc)? == 1,
    ])
}
