// The axioms of equality of two clauses, and of their symbols.
use equality_axioms::{SymList, axioms_from, axioms_of};
use inst_logic::{ClauseList, Kind, Memory, Name, NameList, Problem, Sym, canonical};
use std::alloc::Global;
use tptp_read::{ReadError, Statement, StatementList, read_text};
use tptp_write::{push_bytes, push_clause};

const CLAUSES: &[u8] = b"cnf(one,axiom,f(X) = a). cnf(two,axiom,p(a)).";

// Reflexivity, symmetry, transitivity, and congruence of f and of p.
const AXIOMS: &str = "\
X0 = X0
X0 != X1 | X1 = X0
X0 != X1 | X1 != X2 | X0 = X2
X0 != X1 | f(X0) = f(X1)
X0 != X1 | ~p(X0) | p(X1)
";

// The symbols of these clauses.
const SYMBOLS: [(Kind, &[u8], usize); 4] = [
    (Kind::Equality, b"=", 2),
    (Kind::Function, b"f", 1),
    (Kind::Function, b"a", 0),
    (Kind::Predicate, b"p", 1),
];

// Puts the clauses of the statements at the end, in canonical form.
fn push_clauses(
    alloc: Global,
    clauses: &mut ClauseList,
    statements: &StatementList,
) -> Result<(), Memory> {
    for statement in statements.as_slice() {
        if let Statement::Cnf { clause, .. } = statement {
            clauses.push(canonical(alloc, clause)?)?;
        }
    }
    Ok(())
}

fn clauses_of(alloc: Global, statements: &StatementList) -> Result<ClauseList, Memory> {
    let mut clauses = ClauseList::new(alloc);
    push_clauses(alloc, &mut clauses, statements)?;
    Ok(clauses)
}

fn symbol(alloc: Global, kind: Kind, name: &[u8], arity: usize) -> Result<Sym, Memory> {
    let name = Name::of(alloc, name)?;
    Ok(Sym { kind, name, arity })
}

fn push_symbols(alloc: Global, symbols: &mut SymList) -> Result<(), Memory> {
    for (kind, name, arity) in &SYMBOLS {
        symbols.push(symbol(alloc, *kind, name, *arity)?)?;
    }
    Ok(())
}

fn symbols(alloc: Global) -> Result<SymList, Memory> {
    let mut symbols = SymList::new(alloc);
    push_symbols(alloc, &mut symbols)?;
    Ok(symbols)
}

fn push_lines(text: &mut Vec<u8>, clauses: &ClauseList) -> Result<(), Memory> {
    for c in clauses.as_slice() {
        push_clause(text, c)?;
        push_bytes(text, b"\n")?;
    }
    Ok(())
}

// Whether these are the axioms.
fn are_axioms(alloc: Global, axioms: &ClauseList) -> Result<bool, Memory> {
    let mut text = Vec::new(alloc);
    push_lines(&mut text, axioms)?;
    Ok(text.as_slice() == AXIOMS.as_bytes())
}

fn problem_has_axioms(alloc: Global, clauses: ClauseList) -> Result<bool, Memory> {
    let names = NameList::new(alloc);
    let problem = Problem { clauses, names };
    let axioms = axioms_of(alloc, &problem)?;
    are_axioms(alloc, &axioms)
}

/// Whether the clauses have these axioms.
pub fn clauses_have_axioms(alloc: Global) -> Result<bool, ReadError> {
    let statements = read_text(alloc, CLAUSES)?;
    let clauses = clauses_of(alloc, &statements)?;
    Ok(problem_has_axioms(alloc, clauses)?)
}

/// Whether their symbols have them.
pub fn symbols_have_axioms(alloc: Global) -> Result<bool, Memory> {
    let symbols = symbols(alloc)?;
    let axioms = axioms_from(alloc, &symbols)?;
    are_axioms(alloc, &axioms)
}
