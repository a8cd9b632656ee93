// The flattened forms of small problems, and the limit on tables.
ghost use Rattle.std.specs.Prelude.{◌≡◌, ◌<◌, IfOk, OnOk, length};

use finite_model::{flatten, is_too_wide};
use inst_logic::{ClauseList, Memory, NameList, Problem, canonical};
use std::alloc::Global;
use std::test::Fail;
use tptp_read::{Statement, StatementList, read_text};
use tptp_write::{push_bytes, push_clause, push_name};

// An equation, with two elements: every pair of elements has a clause for identity, and `f` a value at each.
const MOVES: &str = "cnf(moves,axiom,f(X)!=X).";

const MOVES_BY_TWO: &str = "\
id: id(k1,k1)
id: ~id(k1,k2)
id: ~id(k2,k1)
id: id(k2,k2)
f1: f1(X0,k1) | f1(X0,k2)
f1: ~f1(X0,k1) | ~f1(X0,k2)
moves: ~f1(X0,X1) | ~id(X1,X0)
";

const DIFFER: &str = "cnf(differ,axiom,a!=b).";

const DIFFER_BY_ONE: &str = "\
id: id(k1,k1)
f1: f1(k1)
f2: f2(k1)
differ: ~f1(X0) | ~f2(X1) | ~id(X0,X1)
";

// A term within a term, one that stands twice, a predicate without arguments, one that is met again, and the empty clause.
const NESTED: &str =
    "cnf(one,axiom,p(f(f(X)),c)|~p(f(X),Y)|q). cnf(two,axiom,~p(Y,Y)|~q). cnf(three,axiom,$false).";

const NESTED_BY_ONE: &str = "\
id: id(k1,k1)
f1: f1(X0,k1)
f2: f2(k1)
one: ~f1(X0,X1) | ~f1(X1,X2) | ~f2(X3) | p1(X2,X3) | ~p1(X1,X4) | p2
two: ~p1(X0,X0) | ~p2
three: $false
";

// By 10 elements a million cells, and one more.
const WIDE: &str = "cnf(wide,axiom,p(X,X,X,X,X,X)).";

const WIDER: &str = "cnf(wider,axiom,p(X,X,X,X,X,X)|q).";

// Adds the clause of the statement, if it has one.
fn add_clause(alloc: Global, p: &mut Problem, statement: &Statement) -> Result<(), Memory>
    requires { length p.old.names ≡ length p.old.clauses }
    ensures { OnOk result (length p.new.names ≡ length p.new.clauses) }
{
    if let Statement::Cnf { name, clause, .. } = statement {
        p.clauses.push(canonical(alloc, clause)?)?;
        p.names.push(name.clone()?)?;
    }
    Ok(())
}

// Adds the clauses of the statements.
fn add_clauses(alloc: Global, p: &mut Problem, statements: &StatementList) -> Result<(), Memory>
    requires { length p.old.names ≡ length p.old.clauses }
    ensures { OnOk result (length p.new.names ≡ length p.new.clauses) }
{
    for statement in statements.as_slice() {
        add_clause(alloc, p, statement)?;
    }
    Ok(())
}

// The clauses of the text, with their names.
fn problem_of(alloc: Global, text: &str) -> Result<Problem, Fail>
    ensures { IfOk result (λ p. length p.names ≡ length p.clauses) }
{
    let statements = read_text(alloc, text.as_bytes())?;
    let mut p = Problem {
        clauses: ClauseList::new(alloc),
        names: NameList::new(alloc),
    };
    add_clauses(alloc, &mut p, &statements)?;
    Ok(p)
}

// A line for each clause, with its name.
fn lines_of(alloc: Global, p: &Problem) -> Result<Vec<u8>, Memory> {
    let mut lines = Vec::new(alloc);
    for (name, clause) in p.names.as_slice().iter().zip(p.clauses.as_slice()) {
        push_name(&mut lines, name.bytes())?;
        push_bytes(&mut lines, b": ")?;
        push_clause(&mut lines, clause)?;
        push_bytes(&mut lines, b"\n")?;
    }
    Ok(lines)
}

// Whether these are the lines of the text's flattened form.
fn has_flattened_form(alloc: Global, text: &str, k: usize, lines: &str) -> Result<bool, Fail> {
    let p = problem_of(alloc, text)?;
    let flat = flatten(alloc, &p, k)?;
    Ok(lines_of(alloc, &flat)?.as_slice() == lines.as_bytes())
}

fn has_wide_tables(alloc: Global, text: &str, k: usize) -> Result<bool, Fail>
    requires { 0 < k }
{
    let p = problem_of(alloc, text)?;
    Ok(is_too_wide(alloc, &p, k)?)
}

#[test]
fn flattened_forms(rt: HostRuntime) -> Result<(), Fail> {
    assert!(rt; has_flattened_form(rt.alloc(), MOVES, 2, MOVES_BY_TWO)?);
    assert!(rt; has_flattened_form(rt.alloc(), DIFFER, 1, DIFFER_BY_ONE)?);
    assert!(rt; has_flattened_form(rt.alloc(), NESTED, 1, NESTED_BY_ONE)?);
    Ok(())
}

#[test]
fn wide_tables(rt: HostRuntime) -> Result<(), Fail> {
    assert!(rt; !has_wide_tables(rt.alloc(), WIDE, 10)?);
    assert!(rt; has_wide_tables(rt.alloc(), WIDER, 10)?);
    assert!(rt; !has_wide_tables(rt.alloc(), WIDER, 1)?);
    Ok(())
}
