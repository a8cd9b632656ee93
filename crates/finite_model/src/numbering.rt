// The symbols of clauses by their numbers in the flattened form, and the symbols that stand for them there.
ghost use Rattle.std.specs.Prelude.{◌≡◌, ◌++◌, decimal, filter, if◌then◌else◌, IfOk, OnOk};
ghost use Rattle.std.specs.List.{position_or_len};
ghost use Rattle.inst_logic.specs.Equal.{sym_eq};
ghost use Rattle.inst_logic.specs.Lists.{distinct, with_item};
ghost use Rattle.inst_logic.specs.View.{tree};
ghost use Rattle.inst_logic.specs.WellFormed.{is_function_kind};
ghost use Rattle.inst_calculus.specs.Axioms.{is_predicate_kind};
ghost use Rattle.finite_model.specs.Flattening.{numbers_of, number_of, function_predicate, numbered_predicate, predicate_for, identity, element};

use equality_axioms::symbols_in;
use indexmap::IndexSet;
use inst_logic::{ClauseList, Kind, Memory, Name, Sym, Term, TermList};
use itoa::Buffer;
use std::alloc::Global;
use std::marker::Model;

/// The functions and the predicates of clauses, each in order of first occurrence.
#[derive(Drop)]
pub struct Numbering {
    pub(crate) functions: IndexSet<Sym>,
    pub(crate) predicates: IndexSet<Sym>,
}

impl Model for Numbering {
    ghost use Rattle.finite_model.specs.Flattening.{Numbers};

    ghost Value = { Numbers };

    ghost view = { λ n. record { functions = n.functions.keys; predicates = n.predicates.keys } };
}

fn is_function(s: &Sym) -> bool
    ensures { result ≡ is_function_kind s.now.kind }
{
    match s.kind {
        Kind::Function => true,
        Kind::Predicate | Kind::Equality => false,
    }
}

fn is_predicate(s: &Sym) -> bool
    ensures { result ≡ is_predicate_kind s.now.kind }
{
    match s.kind {
        Kind::Predicate => true,
        Kind::Equality | Kind::Function => false,
    }
}

#[tactic(auto, using(std::proofs::lemmas::Grind::common_steps, equality_axioms::proofs::Collecting::with_symbol))]
fn add_function(chosen: &mut IndexSet<Sym>, s: &Sym) -> Result<(), Memory>
    ensures { OnOk result (chosen.new.keys ≡ (if is_function_kind s.now.kind then with_item sym_eq chosen.old.keys s.now else chosen.old.keys)) }
{
    if is_function(s) {
        chosen.insert(s.clone()?)?;
    }
    Ok(())
}

#[tactic(auto, using(std::proofs::lemmas::Grind::common_steps, equality_axioms::proofs::Collecting::with_symbol))]
fn add_predicate(chosen: &mut IndexSet<Sym>, s: &Sym) -> Result<(), Memory>
    ensures { OnOk result (chosen.new.keys ≡ (if is_predicate_kind s.now.kind then with_item sym_eq chosen.old.keys s.now else chosen.old.keys)) }
{
    if is_predicate(s) {
        chosen.insert(s.clone()?)?;
    }
    Ok(())
}

#[tactic(auto, using(std::proofs::lemmas::Grind::common_steps, crate::proofs::Selections::chosen_more))]
fn functions_among(alloc: Global, symbols: &[Sym]) -> Result<IndexSet<Sym>, Memory>
    ensures { IfOk result (λ chosen. chosen.keys ≡ distinct sym_eq (filter (λ s. is_function_kind s.kind) symbols.now)) }
{
    let mut chosen = IndexSet::new(alloc);
    for s in symbols {
        add_function(&mut chosen, s)?;
    }
    Ok(chosen)
}

#[tactic(auto, using(std::proofs::lemmas::Grind::common_steps, crate::proofs::Selections::chosen_more))]
fn predicates_among(alloc: Global, symbols: &[Sym]) -> Result<IndexSet<Sym>, Memory>
    ensures { IfOk result (λ chosen. chosen.keys ≡ distinct sym_eq (filter (λ s. is_predicate_kind s.kind) symbols.now)) }
{
    let mut chosen = IndexSet::new(alloc);
    for s in symbols {
        add_predicate(&mut chosen, s)?;
    }
    Ok(chosen)
}

// The letters, and then the number in decimal.
fn numbered_name(alloc: Global, letters: &[u8], n: usize) -> Result<Name, Memory>
    ensures { IfOk result (λ name. name ≡ letters.now ++ decimal n) }
{
    let mut buffer = Buffer::new();
    let mut name = Vec::from_slice(alloc, letters)?;
    name.extend_from_slice(buffer.format(n).as_bytes())?;
    Name::of(alloc, name.as_slice())
}

// The symbol's place, or the number of symbols where it has none.
#[tactic(auto, using(std::proofs::lemmas::Grind::common_steps, crate::proofs::Selections::symbol_found, crate::proofs::Selections::symbol_absent))]
fn place_among(symbols: &IndexSet<Sym>, s: &Sym) -> usize
    ensures { result ≡ position_or_len (λ r. sym_eq r s.now) symbols.now.keys }
{
    match symbols.get_index_of(s) {
        Some(i) => i,
        None => symbols.len(),
    }
}

fn number_among(symbols: &IndexSet<Sym>, s: &Sym) -> Result<usize, Memory>
    ensures { IfOk result (λ n. n ≡ number_of symbols.now.keys s.now) }
{
    place_among(symbols, s).checked_add(1).ok_or(Memory)
}

pub(crate) fn identity_symbol(alloc: Global) -> Result<Sym, Memory>
    ensures { IfOk result (λ s. s ≡ identity) }
{
    Ok(Sym {
        kind: Kind::Predicate,
        name: Name::of(alloc, b"id")?,
        arity: 2,
    })
}

/// The constant for element `e`.
pub(crate) fn element_term(alloc: Global, e: usize) -> Result<Term, Memory>
    ensures { IfOk result (λ t. tree t ≡ element e) }
{
    let sym = Sym {
        kind: Kind::Function,
        name: numbered_name(alloc, b"k", e)?,
        arity: 0,
    };
    Ok(Term::App(sym, TermList::new(alloc)))
}

impl Numbering {
    pub(crate) fn of(alloc: Global, clauses: &ClauseList) -> Result<Numbering, Memory>
        ensures { IfOk result (λ n. n ≡ numbers_of clauses.now) }
    {
        let symbols = symbols_in(alloc, clauses)?;
        Ok(Numbering {
            functions: functions_among(alloc, symbols.as_slice())?,
            predicates: predicates_among(alloc, symbols.as_slice())?,
        })
    }

    /// The predicate of the function's arguments and value.
    pub(crate) fn of_function(&self, alloc: Global, f: &Sym) -> Result<Sym, Memory>
        ensures { IfOk result (λ s. s ≡ function_predicate self.now f.now) }
    {
        let number = number_among(&self.functions, f)?;
        Ok(Sym {
            kind: Kind::Predicate,
            name: numbered_name(alloc, b"f", number)?,
            arity: f.arity.checked_add(1).ok_or(Memory)?,
        })
    }

    /// The numbered predicate.
    pub(crate) fn of_predicate(&self, alloc: Global, p: &Sym) -> Result<Sym, Memory>
        ensures { IfOk result (λ s. s ≡ numbered_predicate self.now p.now) }
    {
        let number = number_among(&self.predicates, p)?;
        Ok(Sym {
            kind: Kind::Predicate,
            name: numbered_name(alloc, b"p", number)?,
            arity: p.arity,
        })
    }

    /// The predicate that stands for the symbol of an atom.
    pub(crate) fn of_relation(&self, alloc: Global, p: &Sym) -> Result<Sym, Memory>
        ensures { IfOk result (λ s. s ≡ predicate_for self.now p.now.kind p.now) }
    {
        match p.kind {
            Kind::Predicate => self.of_predicate(alloc, p),
            Kind::Equality => identity_symbol(alloc),
            Kind::Function => Ok(p.clone()?),
        }
    }
}
