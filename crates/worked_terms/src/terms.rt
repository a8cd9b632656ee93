// Interned terms: equal trees have equal ids, and the reading calls answer by the tree.
ghost use Rattle.std.specs.Prelude.{◌<◌, length};

use crate::tables::push_reply;
use inst_logic::{Kind, Memory, Name, Sym, Term};
use std::alloc::Global;
use std::test::Fail;
use term_bank::{Bank, Root, Shape, TermId};
use tptp_read::{Statement, StatementList, read_text};
use tptp_write::{push_bytes, push_number};

// What the bank says of the first term, which is interned twice: its shape, the number of its arguments, its size, its weight, its
// greatest variable, and how many trees the bank has then.
pub const TERMS: &str = "\
#cnf(c,axiom,p(f(g(X),X))).@applied, 2 4 2, X0, 3\
#cnf(c,axiom,p(X)).@X0, 0 1 0, X0, 1\
#cnf(c,axiom,p(a)).@applied, 0 1 1, ground, 1\
";

// Whether the literals share the atom that the first one has alone.
pub const SHARING: &str = "\
#cnf(c,axiom,p(f(g(X),X))|~p(f(g(X),X))).@yes\
#cnf(c,axiom,p(f(g(X),X))|~p(f(g(Y),X))).@no\
";

// Whether the one reading of a node says what the others do.
fn is_root_same(bank: &Bank, id: TermId) -> bool
    requires { id < length bank.now.trees }
{
    match bank.root(id) {
        Root::Var(v) => bank.shape(id) == Shape::Var(v),
        Root::App(sym, args) => bank.sym(id) == Some(sym) && bank.args(id) == args,
    }
}

// Whether the calls that say the same in other words agree.
fn is_told_alike(bank: &Bank, id: TermId) -> bool
    requires { id < length bank.now.trees }
{
    bank.ground(id) == bank.greatest_variable(id).is_none()
        && bank.sym(id).is_some() == bank.symbol_number(id).is_some()
        && is_root_same(bank, id)
}

fn push_variable(answer: &mut Vec<u8>, variable: usize) -> Result<(), Memory> {
    push_bytes(answer, b"X")?;
    push_number(answer, variable)
}

fn push_shape(answer: &mut Vec<u8>, shape: Shape) -> Result<(), Memory> {
    match shape {
        Shape::Var(variable) => push_variable(answer, variable),
        Shape::App => push_bytes(answer, b"applied"),
    }
}

fn push_greatest(answer: &mut Vec<u8>, greatest: Option<usize>) -> Result<(), Memory> {
    match greatest {
        Some(variable) => push_variable(answer, variable),
        None => push_bytes(answer, b"ground"),
    }
}

fn push_labelled(answer: &mut Vec<u8>, label: &[u8], n: usize) -> Result<(), Memory> {
    push_bytes(answer, label)?;
    push_number(answer, n)
}

fn push_facts(answer: &mut Vec<u8>, bank: &Bank, id: TermId) -> Result<(), Memory>
    requires { id < length bank.now.trees }
{
    push_shape(answer, bank.shape(id))?;
    push_labelled(answer, b", ", bank.args(id).len())?;
    push_labelled(answer, b" ", bank.size(id) as usize)?;
    push_labelled(answer, b" ", bank.weight(id) as usize)?;
    push_bytes(answer, b", ")?;
    push_greatest(answer, bank.greatest_variable(id))?;
    push_labelled(answer, b", ", bank.len())
}

// The first argument of the first literal of the first statement.
fn first_term(statements: &StatementList) -> Option<&Term> {
    match statements.get(0) {
        Some(Statement::Cnf { clause, .. }) => match clause.get(0) {
            Some(l) => l.args.get(0),
            None => None,
        },
        _ => None,
    }
}

fn push_twice(
    answer: &mut Vec<u8>,
    bank: &mut Bank,
    statements: &StatementList,
) -> Result<(), Fail> {
    let Some(t) = first_term(statements) else {
        return Ok(());
    };
    let first = bank.intern(t)?;
    let second = bank.intern(t)?;
    if first == second && is_told_alike(bank, second) {
        push_facts(answer, bank, second)?;
    }
    Ok(())
}

/// Puts what is said of the first term of the text at the end of the answer.
pub fn push_term(
    alloc: Global,
    answer: &mut Vec<u8>,
    bank: &mut Bank,
    text: &str,
) -> Result<(), Fail> {
    let statements = read_text(alloc, text.as_bytes())?;
    push_twice(answer, bank, &statements)
}

// Whether the atoms of the literals of the clause are the one that its first literal has alone.
fn shares(bank: &mut Bank, statements: &StatementList) -> Result<Option<bool>, Fail> {
    let Some(Statement::Cnf { clause, .. }) = statements.get(0) else {
        return Ok(None);
    };
    let Some(l) = clause.get(0) else {
        return Ok(None);
    };
    let ids = bank.clause(clause)?;
    let atom = bank.atom(l)?;
    Ok(Some(ids.as_slice().iter().all(|m| m.atom == atom)))
}

/// Puts whether the literals of the text's clause share their atom at the end of the answer.
pub fn push_sharing(
    alloc: Global,
    answer: &mut Vec<u8>,
    bank: &mut Bank,
    text: &str,
) -> Result<(), Fail> {
    let statements = read_text(alloc, text.as_bytes())?;
    let reply = shares(bank, &statements)?;
    Ok(push_reply(answer, reply)?)
}

// Whether f(X7,X7) by its symbol is f(X7,X7) by the symbol that stands at its root.
fn applies_alike(bank: &mut Bank, f: &Sym) -> Result<bool, Memory> {
    let x = bank.var(7)?;
    let t = bank.app(f, &[x, x])?;
    let u = bank.app_like(t, &[x, x])?;
    Ok(t == u)
}

fn applied_alike(alloc: Global, f: &Sym) -> Result<bool, Memory> {
    let mut bank = Bank::new(alloc);
    applies_alike(&mut bank, f)
}

/// Whether a symbol of two arguments is applied alike by itself and by a term.
pub fn is_applied_alike(alloc: Global) -> Result<bool, Memory> {
    let f = Sym {
        kind: Kind::Function,
        name: Name::of(alloc, b"f")?,
        arity: 2,
    };
    applied_alike(alloc, &f)
}
