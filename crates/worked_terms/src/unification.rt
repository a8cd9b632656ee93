// Unifiers and matches of atoms that are read from texts.
ghost use Rattle.std.specs.Prelude.{◌≡◌, ◌<◌, [], All, IfOk, Some, length, true};
ghost use Rattle.term_bank.specs.Forest.{IsClauseOf};
ghost use Rattle.unify_core.specs.Chains.{AreBindings};

use crate::building::{clause_at, last_atom};
use inst_logic::Memory;
use std::alloc::Global;
use std::test::Fail;
use term_bank::{Bank, IdClause, IdClauseList, TermId};
use tptp_write::{push_bytes, push_number};
use unify_core::{Bindings, Bound, Side};

// How the last atoms of the two clauses unify: not at all, or with a unifier that is proper for the left and for the right, or
// not, and under which the clauses have these sizes.
pub const UNIFIERS: &str = "\
#cnf(a,axiom,p(X,f(X))). cnf(b,axiom,p(X,X)).@no unifier\
#cnf(a,axiom,p(X,a)). cnf(b,axiom,p(b,X)).@proper yes yes, sizes 3 3\
#cnf(a,axiom,p(X,X)). cnf(b,axiom,p(X,Y)).@proper no no, sizes 3 3\
#cnf(a,axiom,p(X)). cnf(b,axiom,p(f(X))).@proper yes no, sizes 3 3\
";

// Whether the second atom is an instance of the first.
pub const MATCHES: &str = "\
#cnf(a,axiom,p(X,Y)). cnf(b,axiom,p(f(Y),X)).@yes\
#cnf(a,axiom,p(X,X)). cnf(b,axiom,p(X,Y)).@no\
";

// Whether the variable of the first atom is bound to the argument of the second.
pub const BINDINGS: &str = "\
#cnf(a,axiom,p(X)). cnf(b,axiom,p(f(X))).@yes\
";

// Whether the last atoms of the first two clauses unify.
fn unify_first(
    bank: &Bank,
    bindings: &mut Bindings,
    clauses: &IdClauseList,
) -> Result<Option<bool>, Memory>
    requires { All (IsClauseOf bank.now) clauses.now }
    ensures { IfOk result (λ r. r ≡ Some true → AreBindings bank.now bindings.new.entries) }
{
    match (last_atom(bank, clauses, 0), last_atom(bank, clauses, 1)) {
        (Some(left), Some(right)) => Ok(Some(bindings.unify(bank, left, right)?)),
        _ => Ok(None),
    }
}

fn push_proper(answer: &mut Vec<u8>, is_proper: bool) -> Result<(), Memory> {
    push_bytes(answer, if is_proper { b" yes" } else { b" no" })
}

fn push_size(answer: &mut Vec<u8>, size: u64) -> Result<(), Memory> {
    push_bytes(answer, b" ")?;
    push_number(answer, size as usize)
}

fn push_sizes(
    answer: &mut Vec<u8>,
    bank: &Bank,
    bindings: &mut Bindings,
    c: &IdClause,
    d: &IdClause,
) -> Result<(), Memory>
    requires left { IsClauseOf bank.now c.now }
    requires right { IsClauseOf bank.now d.now }
    requires bindings { AreBindings bank.now bindings.old.entries }
{
    let left = bindings.size_under(bank, Side::Left, c)?;
    let right = bindings.size_under(bank, Side::Right, d)?;
    push_size(answer, left)?;
    push_size(answer, right)
}

// Puts how the bindings are proper and what sizes the two clauses have under them at the end.
fn push_facts(
    answer: &mut Vec<u8>,
    bank: &Bank,
    bindings: &mut Bindings,
    c: &IdClause,
    d: &IdClause,
) -> Result<(), Memory>
    requires left { IsClauseOf bank.now c.now }
    requires right { IsClauseOf bank.now d.now }
    requires bindings { AreBindings bank.now bindings.old.entries }
{
    push_bytes(answer, b"proper")?;
    push_proper(answer, bindings.proper(bank, Side::Left))?;
    push_proper(answer, bindings.proper(bank, Side::Right))?;
    push_bytes(answer, b", sizes")?;
    push_sizes(answer, bank, bindings, c, d)
}

fn push_bound(
    answer: &mut Vec<u8>,
    bank: &Bank,
    bindings: &mut Bindings,
    clauses: &IdClauseList,
) -> Result<(), Memory>
    requires clauses { All (IsClauseOf bank.now) clauses.now }
    requires bindings { AreBindings bank.now bindings.old.entries }
{
    match (clause_at(bank, clauses, 0), clause_at(bank, clauses, 1)) {
        (Some(c), Some(d)) => push_facts(answer, bank, bindings, c, d),
        _ => Ok(()),
    }
}

fn push_unifier_by(
    answer: &mut Vec<u8>,
    bank: &Bank,
    bindings: &mut Bindings,
    clauses: &IdClauseList,
) -> Result<(), Memory>
    requires { All (IsClauseOf bank.now) clauses.now }
{
    match unify_first(bank, bindings, clauses)? {
        Some(true) => push_bound(answer, bank, bindings, clauses),
        Some(false) => push_bytes(answer, b"no unifier"),
        None => Ok(()),
    }
}

/// Puts how the last atoms of the first two clauses unify at the end of the answer.
pub fn push_unifier(
    alloc: Global,
    answer: &mut Vec<u8>,
    bank: &Bank,
    clauses: &IdClauseList,
) -> Result<(), Memory>
    requires { All (IsClauseOf bank.now) clauses.now }
{
    let mut bindings = Bindings::new(alloc);
    push_unifier_by(answer, bank, &mut bindings, clauses)
}

// Puts the arguments from the third on of the left atom at the end.
fn push_left(alloc: Global, text: &mut String) -> Result<(), Fail> {
    for n in 2..65 {
        let more = format!(in alloc; ",X{n},X{n}")?;
        text.push_str(&more)?;
    }
    Ok(())
}

// Puts the arguments from the third on of the right atom at the end.
fn push_right(alloc: Global, text: &mut String) -> Result<(), Fail> {
    for n in 1..64 {
        let next = n + 1;
        let more = format!(in alloc; ",f(Y{n},Y{n}),Y{next}")?;
        text.push_str(&more)?;
    }
    Ok(())
}

// Puts all behind the first two arguments of the left atom at the end.
fn push_doubling(alloc: Global, text: &mut String) -> Result<(), Fail> {
    push_left(alloc, text)?;
    text.push_str(")). cnf(b,axiom,~p(f(Y0,Y0),Y1")?;
    push_right(alloc, text)?;
    text.push_str(")).")?;
    Ok(())
}

// Two atoms of 128 arguments whose unifier doubles a term at each of 64 steps: `p(X1,X1,X2,X2,..,X64,X64)` and
// `~p(f(Y0,Y0),Y1,f(Y1,Y1),Y2,..,f(Y63,Y63),Y64)`.
pub fn doubling(alloc: Global) -> Result<String, Fail> {
    let mut text = String::from_str(alloc, "cnf(a,axiom,p(X1,X1")?;
    push_doubling(alloc, &mut text)?;
    Ok(text)
}

// Whether the last atom of the second clause is an instance of that of the first.
fn matched_by(
    bank: &Bank,
    bindings: &mut Bindings,
    clauses: &IdClauseList,
) -> Result<Option<bool>, Memory>
    requires clauses { All (IsClauseOf bank.now) clauses.now }
    requires empty { bindings.old.entries ≡ [] }
{
    let (Some(a), Some(b)) = (last_atom(bank, clauses, 0), last_atom(bank, clauses, 1)) else {
        return Ok(None);
    };
    Ok(Some(bindings.match_onto(bank, a, b)?))
}

/// Whether the last atom of the first clause matches that of the second, with bindings of its own.
pub fn matched(alloc: Global, bank: &Bank, clauses: &IdClauseList) -> Result<Option<bool>, Memory>
    requires { All (IsClauseOf bank.now) clauses.now }
{
    let mut bindings = Bindings::new(alloc);
    matched_by(bank, &mut bindings, clauses)
}

// Where the first argument of each of two atoms is one that the other's is to become: whether the left one, a variable, is
// bound to the right one and leads to it.
fn is_bound(bank: &Bank, bindings: &Bindings, left: TermId, right: TermId) -> Option<bool>
    requires left { left < length bank.now.trees }
    requires right { right < length bank.now.trees }
    requires bindings { AreBindings bank.now bindings.now.entries }
{
    let (Some(x), Some(t)) = (bank.args(left).first(), bank.args(right).first()) else {
        return None;
    };
    let from = Bound {
        side: Side::Left,
        term: *x,
    };
    let to = Bound {
        side: Side::Right,
        term: *t,
    };
    Some(bindings.get(Side::Left, 0) == Some(to) && bindings.follow(bank, from) == to)
}

fn bound_by(
    bank: &Bank,
    bindings: &mut Bindings,
    clauses: &IdClauseList,
) -> Result<Option<bool>, Memory>
    requires { All (IsClauseOf bank.now) clauses.now }
{
    let (Some(left), Some(right)) = (last_atom(bank, clauses, 0), last_atom(bank, clauses, 1))
    else {
        return Ok(None);
    };
    if !bindings.unify(bank, left, right)? {
        return Ok(None);
    }
    Ok(is_bound(bank, bindings, left, right))
}

/// What unifying the last atoms binds, with bindings of its own.
pub fn bound(alloc: Global, bank: &Bank, clauses: &IdClauseList) -> Result<Option<bool>, Memory>
    requires { All (IsClauseOf bank.now) clauses.now }
{
    let mut bindings = Bindings::new(alloc);
    bound_by(bank, &mut bindings, clauses)
}
