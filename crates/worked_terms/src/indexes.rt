// Rows that both indexes answer, and what the tree alone answers exactly.
ghost use Rattle.std.specs.Prelude.{◌≡◌, ◌<◌, [], length, false, IfOk, OnOk};
ghost use Rattle.term_bank.specs.Forest.{AreIds, Extends};

use inst_logic::{Kind, Memory};
use std::alloc::Global;
use std::test::Fail;
use term_bank::{Bank, TermId};
use term_index::{PartnerIndex, Rows, Tree, View, candidates};
use unify_core::Bindings;
use worked_index::Refusing;
use worked_index::building::{
    Part, Row, add_part, applied, built, removed, rows_hold, store_all, terms_of,
};

// 6 to 9 are p(X0,a), p(b,X0), p(f(X0),b) and p(X0,X0), and 10 to 12 are p(b,a), p(X0,X1) and p(a,b).
const PARTS: [Part<'static>; 12] = [
    Part::Variable(0),
    Part::Variable(1),
    Part::Function("a", &[]),
    Part::Function("b", &[]),
    Part::Function("f", &[1]),
    Part::Predicate("p", &[1, 3]),
    Part::Predicate("p", &[4, 1]),
    Part::Predicate("p", &[5, 4]),
    Part::Predicate("p", &[1, 1]),
    Part::Predicate("p", &[4, 3]),
    Part::Predicate("p", &[1, 2]),
    Part::Predicate("p", &[3, 4]),
];

const fn row(query: usize, view: View, wanted: [usize; 4]) -> Row {
    Row {
        query,
        view,
        wanted,
    }
}

// The first three atoms are stored: what each view finds, and what it finds when the second one is removed.
fn example<I: PartnerIndex>(
    alloc: Global,
    bank: &mut Bank,
    bindings: &mut Bindings,
    index: &mut I,
) -> Result<bool, Memory>
    requires { I.pairs index.old ≡ [] }
{
    let terms = built(alloc, bank, &PARTS)?;
    let stored = terms_of(alloc, bank, terms.as_slice(), &[6, 7, 8])?;
    store_all(index, bank, stored.as_slice())?;
    asked(
        alloc,
        bank,
        bindings,
        index,
        terms.as_slice(),
        stored.as_slice(),
    )
}

fn asked<I: PartnerIndex>(
    alloc: Global,
    bank: &mut Bank,
    bindings: &mut Bindings,
    index: &mut I,
    terms: &[TermId],
    stored: &[TermId],
) -> Result<bool, Memory>
    requires terms { AreIds bank.old terms.now }
    requires ids { AreIds bank.old stored.now }
    requires fits { I.fits bank.old index.old }
{
    let before = [
        row(6, View::Unifiable, [1, 2, 0, 0]),
        row(10, View::Generalisations, [1, 2, 0, 0]),
        row(11, View::Instances, [1, 2, 3, 0]),
    ];
    let after = [
        row(6, View::Unifiable, [1, 0, 0, 0]),
        row(10, View::Generalisations, [1, 0, 0, 0]),
        row(11, View::Instances, [1, 3, 0, 0]),
    ];
    let first = rows_hold(alloc, index, bank, bindings, terms, stored, &before, true)?;
    let there = removed(index, bank, stored, 2)?;
    let second = rows_hold(alloc, index, bank, bindings, terms, stored, &after, true)?;
    let again = removed(index, bank, stored, 2)?;
    Ok(first && there && second && !again)
}

fn example_in_bank<I: PartnerIndex>(
    alloc: Global,
    bindings: &mut Bindings,
    index: &mut I,
) -> Result<bool, Memory>
    requires { I.pairs index.old ≡ [] }
{
    let mut bank = Bank::new(alloc);
    example(alloc, &mut bank, bindings, index)
}

fn example_holds<I: PartnerIndex>(alloc: Global, index: &mut I) -> Result<bool, Memory>
    requires { I.pairs index.old ≡ [] }
{
    let mut bindings = Bindings::new(alloc);
    example_in_bank(alloc, &mut bindings, index)
}

// Whether the index answers the rows with no filter, where the atoms at these places are stored.
fn stored_rows_hold<I: PartnerIndex>(
    alloc: Global,
    bank: &mut Bank,
    bindings: &mut Bindings,
    index: &mut I,
    terms: &[TermId],
    places: &[usize],
    rows: &[Row],
) -> Result<bool, Memory>
    requires empty { I.pairs index.old ≡ [] }
    requires ids { AreIds bank.old terms.now }
{
    let stored = terms_of(alloc, bank, terms, places)?;
    store_all(index, bank, stored.as_slice())?;
    rows_hold(
        alloc,
        index,
        bank,
        bindings,
        terms,
        stored.as_slice(),
        rows,
        false,
    )
}

// The tree holds the first four atoms: it gives exactly those that stand to the query when no two occurrences of a variable
// are the same.
fn wide(
    alloc: Global,
    bank: &mut Bank,
    bindings: &mut Bindings,
    index: &mut Tree,
) -> Result<bool, Memory>
    requires { index.old ≡ record { edges = []; places = record { ends = []; spans = [] }; nodes = []; found = []; spent = false } }
{
    let rows = [
        row(6, View::Unifiable, [1, 2, 4, 0]),
        row(9, View::Unifiable, [1, 2, 3, 4]),
        row(10, View::Generalisations, [1, 2, 4, 0]),
        row(12, View::Generalisations, [4, 0, 0, 0]),
        row(6, View::Instances, [1, 0, 0, 0]),
        row(9, View::Instances, [1, 2, 3, 4]),
    ];
    let terms = built(alloc, bank, &PARTS)?;
    stored_rows_hold(
        alloc,
        bank,
        bindings,
        index,
        terms.as_slice(),
        &[6, 7, 8, 9],
        &rows,
    )
}

// Adds `kn` and `p(kn)`.
fn add_constant(
    alloc: Global,
    bank: &mut Bank,
    terms: &mut Vec<TermId>,
    n: usize,
) -> Result<(), Fail>
    requires { AreIds bank.old terms.old.items }
    ensures extends { Extends bank.old bank.new }
    ensures ids { OnOk result (AreIds bank.new terms.new.items) }
{
    let name = format!(in alloc; "k{n}")?;
    add_part(alloc, bank, terms, Part::Function(&name, &[]))?;
    let last = terms.len();
    add_part(alloc, bank, terms, Part::Predicate("p", &[last]))?;
    Ok(())
}

// `k1`, `p(k1)`, `k2`, `p(k2)`, up to 1,000.
fn constants(alloc: Global, bank: &mut Bank) -> Result<Vec<TermId>, Fail>
    ensures extends { Extends bank.old bank.new }
    ensures ids { IfOk result (λ terms. AreIds bank.new terms.items) }
{
    let mut terms = Vec::new(alloc);
    for n in 1..1001 {
        add_constant(alloc, bank, &mut terms, n)?;
    }
    Ok(terms)
}

// The places of `p(k1)` to `p(k1000)`.
fn even_places(alloc: Global) -> Result<Vec<usize>, Memory> {
    let mut places = Vec::new(alloc);
    for n in 1..1001 {
        places.push(2 * n)?;
    }
    Ok(places)
}

// `p(k1)` to `p(k1000)` are stored: a query for `p(k7)` is answered by it alone, with no filter.
fn one_of_many(
    alloc: Global,
    bank: &mut Bank,
    bindings: &mut Bindings,
    index: &mut Tree,
) -> Result<bool, Fail>
    requires { index.old ≡ record { edges = []; places = record { ends = []; spans = [] }; nodes = []; found = []; spent = false } }
{
    let rows = [
        row(14, View::Unifiable, [7, 0, 0, 0]),
        row(14, View::Generalisations, [7, 0, 0, 0]),
        row(14, View::Instances, [7, 0, 0, 0]),
    ];
    let places = even_places(alloc)?;
    let terms = constants(alloc, bank)?;
    Ok(stored_rows_hold(
        alloc,
        bank,
        bindings,
        index,
        terms.as_slice(),
        places.as_slice(),
        &rows,
    )?)
}

// Doubles the last term sixty times.
fn double(alloc: Global, bank: &mut Bank, terms: &mut Vec<TermId>) -> Result<(), Memory>
    requires { AreIds bank.old terms.old.items }
    ensures extends { Extends bank.old bank.new }
    ensures ids { OnOk result (AreIds bank.new terms.new.items) }
{
    for _ in 0..60 {
        let last = terms.len();
        add_part(alloc, bank, terms, Part::Function("g", &[last, last]))?;
    }
    Ok(())
}

// Adds `p` of the last term doubled so.
fn add_doubled(alloc: Global, bank: &mut Bank, terms: &mut Vec<TermId>) -> Result<(), Memory>
    requires { AreIds bank.old terms.old.items }
    ensures extends { Extends bank.old bank.new }
    ensures ids { OnOk result (AreIds bank.new terms.new.items) }
{
    double(alloc, bank, terms)?;
    let last = terms.len();
    add_part(alloc, bank, terms, Part::Predicate("p", &[last]))
}

// 4, 5 and 7 are `p(X0)`, `p(g(X0,X0))` and `p(g(b,X0))`, and 69 is `p` of a term with sixty-one nodes that has 2^60 leaves.
fn shared_terms(alloc: Global, bank: &mut Bank) -> Result<Vec<TermId>, Memory>
    ensures extends { Extends bank.old bank.new }
    ensures ids { IfOk result (λ terms. AreIds bank.new terms.items) }
{
    let parts = [
        Part::Variable(0),
        Part::Function("b", &[]),
        Part::Function("g", &[1, 1]),
        Part::Predicate("p", &[1]),
        Part::Predicate("p", &[3]),
        Part::Function("g", &[2, 1]),
        Part::Predicate("p", &[6]),
        Part::Function("a", &[]),
    ];
    let mut terms = built(alloc, bank, &parts)?;
    add_doubled(alloc, bank, &mut terms)?;
    Ok(terms)
}

fn shared(
    alloc: Global,
    bank: &mut Bank,
    bindings: &mut Bindings,
    index: &mut Tree,
) -> Result<bool, Memory>
    requires { index.old ≡ record { edges = []; places = record { ends = []; spans = [] }; nodes = []; found = []; spent = false } }
{
    let rows = [
        row(69, View::Unifiable, [1, 2, 0, 0]),
        row(69, View::Generalisations, [1, 2, 0, 0]),
        row(69, View::Instances, [0, 0, 0, 0]),
    ];
    let terms = shared_terms(alloc, bank)?;
    stored_rows_hold(
        alloc,
        bank,
        bindings,
        index,
        terms.as_slice(),
        &[4, 5, 7],
        &rows,
    )
}

// The three of them, each in a bank and a tree of its own.
#[derive(Clone, Copy)]
enum Trial {
    Wide,
    OneOfMany,
    Shared,
}

fn trial_in_bank(
    alloc: Global,
    bindings: &mut Bindings,
    index: &mut Tree,
    trial: Trial,
) -> Result<bool, Fail>
    requires { index.old ≡ record { edges = []; places = record { ends = []; spans = [] }; nodes = []; found = []; spent = false } }
{
    let mut bank = Bank::new(alloc);
    tried(alloc, &mut bank, bindings, index, trial)
}

fn tried(
    alloc: Global,
    bank: &mut Bank,
    bindings: &mut Bindings,
    index: &mut Tree,
    trial: Trial,
) -> Result<bool, Fail>
    requires { index.old ≡ record { edges = []; places = record { ends = []; spans = [] }; nodes = []; found = []; spent = false } }
{
    match trial {
        Trial::Wide => Ok(wide(alloc, bank, bindings, index)?),
        Trial::OneOfMany => one_of_many(alloc, bank, bindings, index),
        Trial::Shared => Ok(shared(alloc, bank, bindings, index)?),
    }
}

fn trial_holds(alloc: Global, index: &mut Tree, trial: Trial) -> Result<bool, Fail>
    requires { index.old ≡ record { edges = []; places = record { ends = []; spans = [] }; nodes = []; found = []; spent = false } }
{
    let mut bindings = Bindings::new(alloc);
    trial_in_bank(alloc, &mut bindings, index, trial)
}

fn trial_with_tree(alloc: Global, trial: Trial) -> Result<bool, Fail> {
    let mut index = Tree::new(alloc);
    trial_holds(alloc, &mut index, trial)
}

// Whether a walk over an index without atoms begins.
fn begins<I: PartnerIndex>(index: &I, bank: &Bank, query: TermId) -> bool
    requires empty { I.pairs index.now ≡ [] }
    requires query { query < length bank.now.trees }
{
    candidates(index, bank, query, View::Unifiable).is_ok()
}

// Whether a walk over an index with this flag begins.
fn refusing_begins(alloc: Global, bank: &mut Bank, refuses: bool) -> Result<bool, Memory> {
    let query = bank.var(0)?;
    let mut index = Refusing::new(alloc, !refuses);
    index.set_refuses(refuses);
    Ok(begins(&index, bank, query))
}

fn begins_with(alloc: Global, refuses: bool) -> Result<bool, Memory> {
    let mut bank = Bank::new(alloc);
    refusing_begins(alloc, &mut bank, refuses)
}

fn list_holds(alloc: Global) -> Result<bool, Memory> {
    let mut index = Rows::new(alloc);
    example_holds(alloc, &mut index)
}

fn tree_holds(alloc: Global) -> Result<bool, Memory> {
    let mut index = Tree::new(alloc);
    example_holds(alloc, &mut index)
}

fn refusing_holds(alloc: Global) -> Result<bool, Memory> {
    let mut index = Refusing::new(alloc, false);
    example_holds(alloc, &mut index)
}

/// Whether the list, the tree, and the refusing index while it does not refuse, answer the example, and the tree alone the three
/// trials.
pub fn are_answered(alloc: Global) -> Result<[bool; 6], Fail> {
    Ok([
        list_holds(alloc)?,
        tree_holds(alloc)?,
        refusing_holds(alloc)?,
        trial_with_tree(alloc, Trial::Wide)?,
        trial_with_tree(alloc, Trial::OneOfMany)?,
        trial_with_tree(alloc, Trial::Shared)?,
    ])
}

/// Whether a walk over an index begins that does not refuse, and over one that does.
pub fn begin(alloc: Global) -> Result<[bool; 2], Memory> {
    Ok([begins_with(alloc, false)?, begins_with(alloc, true)?])
}
