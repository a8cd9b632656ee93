// Atoms from texts, indexes that hold them, and what a walk gives.
ghost use Rattle.std.specs.Prelude.{◌≡◌, ◌<◌, [], length, true, IfOk, IfSome, OnOk};
ghost use Rattle.term_bank.specs.Forest.{AreIds, Extends};

use crate::partners::partners_of;
use inst_logic::{Kind, Memory, Name, Sym};
use std::alloc::Global;
use term_bank::{Bank, TermId};
use term_index::{PartnerIndex, View};
use unify_core::Bindings;

// A term or an atom over earlier ones of a list, which are named by their places, counted from 1.
#[derive(Clone, Copy)]
pub enum Part<'a> {
    Variable(usize),
    Function(&'a str, &'a [usize]),
    Predicate(&'a str, &'a [usize]),
}

// The term at this place of the list, counted from 1.
fn term_of(bank: &Bank, terms: &[TermId], place: usize) -> Option<TermId>
    requires { AreIds bank.now terms.now }
    ensures { IfSome result (λ id. id < length bank.now.trees) }
{
    // The contract names the bank, which the code does not need.
    let _ = bank;
    match place.checked_sub(1) {
        None => None,
        Some(i) => terms.get(i).copied(),
    }
}

// The terms at these places.
pub fn terms_of(
    alloc: Global,
    bank: &Bank,
    terms: &[TermId],
    places: &[usize],
) -> Result<Vec<TermId>, Memory>
    requires { AreIds bank.now terms.now }
    ensures { IfOk result (λ ids. AreIds bank.now ids.items) }
{
    let mut ids = Vec::new(alloc);
    for place in places {
        let Some(id) = term_of(bank, terms, *place) else {
            return Err(Memory);
        };
        ids.push(id)?;
    }
    Ok(ids)
}

// The application of a symbol with this name to the terms at these places.
pub fn applied(
    alloc: Global,
    bank: &mut Bank,
    terms: &[TermId],
    kind: Kind,
    name: &str,
    places: &[usize],
) -> Result<TermId, Memory>
    requires { AreIds bank.old terms.now }
    ensures extends { Extends bank.old bank.new }
    ensures within { IfOk result (λ id. id < length bank.new.trees) }
{
    let args = terms_of(alloc, bank, terms, places)?;
    let sym = Sym {
        kind,
        name: Name::of(alloc, name.as_bytes())?,
        arity: args.len(),
    };
    bank.app(&sym, args.as_slice())
}

// The id of the part.
fn part_id(alloc: Global, bank: &mut Bank, terms: &[TermId], part: Part) -> Result<TermId, Memory>
    requires { AreIds bank.old terms.now }
    ensures extends { Extends bank.old bank.new }
    ensures within { IfOk result (λ id. id < length bank.new.trees) }
{
    match part {
        Part::Variable(v) => bank.var(v),
        Part::Function(name, places) => {
            applied(alloc, bank, terms, Kind::Function, name, places)
        }
        Part::Predicate(name, places) => {
            applied(alloc, bank, terms, Kind::Predicate, name, places)
        }
    }
}

// Adds the part.
pub fn add_part(
    alloc: Global,
    bank: &mut Bank,
    terms: &mut Vec<TermId>,
    part: Part,
) -> Result<(), Memory>
    requires { AreIds bank.old terms.old.items }
    ensures extends { Extends bank.old bank.new }
    ensures ids { OnOk result (AreIds bank.new terms.new.items) }
{
    let id = part_id(alloc, bank, terms.as_slice(), part)?;
    terms.push(id)?;
    Ok(())
}

// The parts, one after the other.
pub fn built(alloc: Global, bank: &mut Bank, parts: &[Part]) -> Result<Vec<TermId>, Memory>
    ensures extends { Extends bank.old bank.new }
    ensures ids { IfOk result (λ terms. AreIds bank.new terms.items) }
{
    let mut terms = Vec::new(alloc);
    for part in parts {
        add_part(alloc, bank, &mut terms, *part)?;
    }
    Ok(terms)
}

// Stores each atom with its place in the list, counted from 1, as its entry.
pub fn store_all<I: PartnerIndex>(
    index: &mut I,
    bank: &Bank,
    atoms: &[TermId],
) -> Result<(), Memory>
    requires empty { I.pairs index.old ≡ [] }
    requires ids { AreIds bank.now atoms.now }
    ensures { OnOk result (I.fits bank.now index.new) }
{
    for i in 0..atoms.len() {
        index.insert(bank, atoms[i], i + 1)?;
    }
    Ok(())
}

// Whether the target is an instance of the pattern.
fn matches(
    bank: &Bank,
    bindings: &mut Bindings,
    pattern: TermId,
    target: TermId,
) -> Result<bool, Memory>
    requires pattern { pattern < length bank.now.trees }
    requires target { target < length bank.now.trees }
{
    bindings.clear();
    bindings.match_onto(bank, pattern, target)
}

// Whether the atom stands to the query as the view says.
fn stands(
    bank: &Bank,
    bindings: &mut Bindings,
    atom: TermId,
    query: TermId,
    view: View,
) -> Result<bool, Memory>
    requires atom { atom < length bank.now.trees }
    requires query { query < length bank.now.trees }
{
    match view {
        View::Unifiable => bindings.unify(bank, atom, query),
        View::Generalisations => matches(bank, bindings, atom, query),
        View::Instances => matches(bank, bindings, query, atom),
    }
}

// Whether the atom with this entry stands to the query.
fn entry_stands(
    bank: &Bank,
    bindings: &mut Bindings,
    atoms: &[TermId],
    entry: usize,
    query: TermId,
    view: View,
) -> Result<bool, Memory>
    requires ids { AreIds bank.now atoms.now }
    requires query { query < length bank.now.trees }
{
    match term_of(bank, atoms, entry) {
        None => Ok(false),
        Some(atom) => stands(bank, bindings, atom, query, view),
    }
}

// Those entries whose atoms stand to the query.
fn standing(
    alloc: Global,
    bank: &Bank,
    bindings: &mut Bindings,
    atoms: &[TermId],
    entries: &[usize],
    query: TermId,
    view: View,
) -> Result<Vec<usize>, Memory>
    requires ids { AreIds bank.now atoms.now }
    requires query { query < length bank.now.trees }
{
    let mut found = Vec::new(alloc);
    for entry in entries {
        if entry_stands(bank, bindings, atoms, *entry, query, view)? {
            found.push(*entry)?;
        }
    }
    Ok(found)
}

// What is asked of an index: the place of the query among the terms, counted from 1, the view, and the entries that are wanted,
// in rising order and with zeros behind them.
#[derive(Clone, Copy)]
pub struct Row {
    pub query: usize,
    pub view: View,
    pub wanted: [usize; 4],
}

// Whether the entries are those that are wanted.
fn is_wanted(found: &[usize], wanted: &[usize]) -> bool {
    for (i, entry) in wanted.iter().enumerate() {
        if found.get(i).copied().unwrap_or(0) != *entry {
            return false;
        }
    }
    found.len() <= wanted.len()
}

// The entries that the index gives, in rising order. Where it is asked for, those whose atoms do not stand to the query are
// left out.
fn answers<I: PartnerIndex>(
    alloc: Global,
    index: &I,
    bank: &mut Bank,
    bindings: &mut Bindings,
    stored: &[TermId],
    query: TermId,
    view: View,
    filtered: bool,
) -> Result<Vec<usize>, Memory>
    requires query { query < length bank.old.trees }
    requires ids { AreIds bank.old stored.now }
    requires fits { I.fits bank.old index.now }
    ensures extends { Extends bank.old bank.new }
    ensures fits { I.fits bank.new index.now }
{
    let mut entries = partners_of(alloc, index, bank, query, view)?;
    entries.sort_unstable();
    if !filtered {
        return Ok(entries);
    }
    standing(
        alloc,
        bank,
        bindings,
        stored,
        entries.as_slice(),
        query,
        view,
    )
}

// Whether the index answers the row.
fn row_holds<I: PartnerIndex>(
    alloc: Global,
    index: &I,
    bank: &mut Bank,
    bindings: &mut Bindings,
    terms: &[TermId],
    stored: &[TermId],
    row: Row,
    filtered: bool,
) -> Result<bool, Memory>
    requires terms { AreIds bank.old terms.now }
    requires ids { AreIds bank.old stored.now }
    requires fits { I.fits bank.old index.now }
    ensures extends { Extends bank.old bank.new }
    ensures fits { I.fits bank.new index.now }
{
    let Some(query) = term_of(bank, terms, row.query) else {
        return Ok(false);
    };
    let found = answers(
        alloc, index, bank, bindings, stored, query, row.view, filtered,
    )?;
    Ok(is_wanted(found.as_slice(), &row.wanted))
}

// Whether the index answers all rows.
pub fn rows_hold<I: PartnerIndex>(
    alloc: Global,
    index: &I,
    bank: &mut Bank,
    bindings: &mut Bindings,
    terms: &[TermId],
    stored: &[TermId],
    rows: &[Row],
    filtered: bool,
) -> Result<bool, Memory>
    requires terms { AreIds bank.old terms.now }
    requires ids { AreIds bank.old stored.now }
    requires fits { I.fits bank.old index.now }
    ensures extends { Extends bank.old bank.new }
    ensures fits { I.fits bank.new index.now }
{
    let mut all = true;
    for row in rows {
        all &= row_holds(alloc, index, bank, bindings, terms, stored, *row, filtered)?;
    }
    Ok(all)
}

// Removes the atom at this place, counted from 1, which is its entry.
pub fn removed<I: PartnerIndex>(
    index: &mut I,
    bank: &Bank,
    stored: &[TermId],
    entry: usize,
) -> Result<bool, Memory>
    requires ids { AreIds bank.now stored.now }
    requires fits { I.fits bank.now index.old }
    ensures { OnOk result (I.fits bank.now index.new) }
{
    match term_of(bank, stored, entry) {
        None => Ok(false),
        Some(atom) => index.remove(bank, atom, entry),
    }
}
