// The atoms and the queries of each kind.
ghost use Rattle.std.specs.Prelude.{◌≡◌, [], OnOk};
ghost use Rattle.term_bank.specs.Forest.{AreIds, Extends};

use inst_logic::Memory;
use std::alloc::Global;
use term_bank::{Bank, TermId};
use worked_index::building::{Part, add_part};

/// What is stored and asked: `p(ci)` and all of them again, or `e(ci,cj)` and all that have the first argument, or the second.
#[derive(Clone, Copy)]
pub enum Kind {
    Unary,
    First,
    Second,
}

/// Terms, and the places of the atoms and of the queries among them, counted from 1. The constants come first.
#[derive(Drop)]
pub struct Terms {
    pub all: Vec<TermId>,
    pub atoms: Vec<usize>,
    pub queries: Vec<usize>,
}

fn add_constant(alloc: Global, bank: &mut Bank, terms: &mut Terms, n: usize) -> Result<(), Memory>
    requires { AreIds bank.old terms.old.all.items }
    ensures extends { Extends bank.old bank.new }
    ensures ids { OnOk result (AreIds bank.new terms.new.all.items) }
{
    let name = format!(in alloc; "c{n}")?;
    add_part(alloc, bank, &mut terms.all, Part::Function(&name, &[]))
}

fn add_constants(
    alloc: Global,
    bank: &mut Bank,
    terms: &mut Terms,
    count: usize,
) -> Result<(), Memory>
    requires { AreIds bank.old terms.old.all.items }
    ensures extends { Extends bank.old bank.new }
    ensures ids { OnOk result (AreIds bank.new terms.new.all.items) }
{
    for n in 0..count {
        add_constant(alloc, bank, terms, n)?;
    }
    Ok(())
}

// The atoms that begin with this constant.
fn add_row(
    alloc: Global,
    bank: &mut Bank,
    terms: &mut Terms,
    first: usize,
    count: usize,
) -> Result<(), Memory>
    requires { AreIds bank.old terms.old.all.items }
    ensures extends { Extends bank.old bank.new }
    ensures ids { OnOk result (AreIds bank.new terms.new.all.items) }
{
    for j in 0..count {
        add_part(
            alloc,
            bank,
            &mut terms.all,
            Part::Predicate("e", &[first, j + 1]),
        )?;
        terms.atoms.push(terms.all.len())?;
    }
    Ok(())
}

fn add_unary(alloc: Global, bank: &mut Bank, terms: &mut Terms, first: usize) -> Result<(), Memory>
    requires { AreIds bank.old terms.old.all.items }
    ensures extends { Extends bank.old bank.new }
    ensures ids { OnOk result (AreIds bank.new terms.new.all.items) }
{
    add_part(alloc, bank, &mut terms.all, Part::Predicate("p", &[first]))?;
    terms.atoms.push(terms.all.len())?;
    terms.queries.push(terms.all.len())?;
    Ok(())
}

fn add_query(
    alloc: Global,
    bank: &mut Bank,
    terms: &mut Terms,
    places: [usize; 2],
) -> Result<(), Memory>
    requires { AreIds bank.old terms.old.all.items }
    ensures extends { Extends bank.old bank.new }
    ensures ids { OnOk result (AreIds bank.new terms.new.all.items) }
{
    add_part(alloc, bank, &mut terms.all, Part::Predicate("e", &places))?;
    terms.queries.push(terms.all.len())?;
    Ok(())
}

// The atoms and the query of one constant.
fn add_first(
    alloc: Global,
    bank: &mut Bank,
    terms: &mut Terms,
    kind: Kind,
    first: usize,
    count: usize,
    variable: usize,
) -> Result<(), Memory>
    requires { AreIds bank.old terms.old.all.items }
    ensures extends { Extends bank.old bank.new }
    ensures ids { OnOk result (AreIds bank.new terms.new.all.items) }
{
    match kind {
        Kind::Unary => add_unary(alloc, bank, terms, first),
        Kind::First => {
            add_row(alloc, bank, terms, first, count)?;
            add_query(alloc, bank, terms, [first, variable])
        }
        Kind::Second => {
            add_row(alloc, bank, terms, first, count)?;
            add_query(alloc, bank, terms, [variable, first])
        }
    }
}

fn add_all(
    alloc: Global,
    bank: &mut Bank,
    terms: &mut Terms,
    kind: Kind,
    count: usize,
    variable: usize,
) -> Result<(), Memory>
    requires { AreIds bank.old terms.old.all.items }
    ensures extends { Extends bank.old bank.new }
    ensures ids { OnOk result (AreIds bank.new terms.new.all.items) }
{
    for i in 0..count {
        add_first(alloc, bank, terms, kind, i + 1, count, variable)?;
    }
    Ok(())
}

/// The terms of the kind over so many constants.
pub fn terms_of_kind(
    alloc: Global,
    bank: &mut Bank,
    terms: &mut Terms,
    kind: Kind,
    count: usize,
) -> Result<(), Memory>
    requires { AreIds bank.old terms.old.all.items }
    ensures extends { Extends bank.old bank.new }
    ensures ids { OnOk result (AreIds bank.new terms.new.all.items) }
{
    add_constants(alloc, bank, terms, count)?;
    add_part(alloc, bank, &mut terms.all, Part::Variable(0))?;
    let variable = terms.all.len();
    add_all(alloc, bank, terms, kind, count, variable)
}

/// No terms.
pub fn no_terms(alloc: Global) -> Terms
    ensures { result.all.items ≡ [] }
{
    Terms {
        all: Vec::new(alloc),
        atoms: Vec::new(alloc),
        queries: Vec::new(alloc),
    }
}
