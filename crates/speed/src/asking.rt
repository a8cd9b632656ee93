// A tree that is filled and asked.
ghost use Rattle.std.specs.Prelude.{◌≡◌, ◌<◌, [], length, false};
ghost use Rattle.term_bank.specs.Forest.{AreIds};
ghost use Rattle.term_index.specs.State.{Fits};

use crate::atoms::{Kind, Terms, no_terms, terms_of_kind};
use inst_logic::Memory;
use std::alloc::Global;
use term_bank::{Bank, TermId};
use term_index::{Tree, View, candidates};
use worked_index::building::{store_all, terms_of};

/// Atoms over so many constants, of which the first ones are stored, and how often all queries are asked.
#[derive(Clone, Copy)]
pub struct Queries {
    pub kind: Kind,
    pub constants: usize,
    pub stored: usize,
    pub rounds: usize,
}

// How many entries the query is given.
fn given(index: &Tree, bank: &Bank, query: TermId) -> Result<usize, Memory>
    requires query { query < length bank.now.trees }
    requires fits { Fits bank.now index.now }
{
    let mut count: usize = 0;
    for item in candidates(index, bank, query, View::Unifiable)? {
        item?;
        count = count.wrapping_add(1);
    }
    Ok(count)
}

fn given_to_all(index: &Tree, bank: &Bank, queries: &[TermId]) -> Result<usize, Memory>
    requires queries { AreIds bank.now queries.now }
    requires fits { Fits bank.now index.now }
{
    let mut count: usize = 0;
    for i in 0..queries.len() {
        count = count.wrapping_add(given(index, bank, queries[i])?);
    }
    Ok(count)
}

fn given_in_rounds(
    index: &Tree,
    bank: &Bank,
    queries: &[TermId],
    rounds: usize,
) -> Result<usize, Memory>
    requires queries { AreIds bank.now queries.now }
    requires fits { Fits bank.now index.now }
{
    let mut count: usize = 0;
    for _ in 0..rounds {
        count = count.wrapping_add(given_to_all(index, bank, queries)?);
    }
    Ok(count)
}

// Stores atoms in the tree, and asks the queries.
fn given_by_tree(
    alloc: Global,
    index: &mut Tree,
    bank: &Bank,
    terms: &Terms,
    asked: Queries,
) -> Result<usize, Memory>
    requires empty { index.old ≡ record { edges = []; places = record { ends = []; spans = [] }; nodes = []; found = []; spent = false } }
    requires ids { AreIds bank.now terms.now.all.items }
{
    let mut places = terms.atoms.clone()?;
    places.truncate(asked.stored);
    let atoms = terms_of(alloc, bank, terms.all.as_slice(), places.as_slice())?;
    let queries = terms_of(alloc, bank, terms.all.as_slice(), terms.queries.as_slice())?;
    store_all(index, bank, atoms.as_slice())?;
    given_in_rounds(index, bank, queries.as_slice(), asked.rounds)
}

fn given_by(
    alloc: Global,
    index: &mut Tree,
    bank: &mut Bank,
    asked: Queries,
) -> Result<usize, Memory>
    requires empty { index.old ≡ record { edges = []; places = record { ends = []; spans = [] }; nodes = []; found = []; spent = false } }
{
    let mut terms = no_terms(alloc);
    terms_of_kind(alloc, bank, &mut terms, asked.kind, asked.constants)?;
    given_by_tree(alloc, index, bank, &terms, asked)
}

fn given_over(alloc: Global, bank: &mut Bank, asked: Queries) -> Result<usize, Memory> {
    let mut index = Tree::new(alloc);
    given_by(alloc, &mut index, bank, asked)
}

/// How many entries are given to all queries in all rounds.
pub fn entries_given(alloc: Global, asked: Queries) -> Result<usize, Memory> {
    let mut bank = Bank::new(alloc);
    given_over(alloc, &mut bank, asked)
}
