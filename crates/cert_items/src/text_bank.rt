// A bank with what is remembered of the names that were read into it: for each name as it is printed an application of a symbol
// of that name. Nearly every name of a text has been read before, and then neither a name nor a symbol is made of it, and a
// constant is found by one look-up. The first variables and the literals that were read are remembered too.
ghost use Rattle.std.specs.Prelude.{◌≡◌, ℕ, List, [], ◌<◌, length, false, map, None, IsTrue, ◌↔◌, IfOk, IfSome};
ghost use Rattle.inst_logic.specs.declared.signed.Signed.{Signed};
ghost use Rattle.inst_logic.specs.Clauses.{IsCanonical};
ghost use Rattle.inst_logic.specs.Tree.{var, app, of_list};
ghost use Rattle.term_bank.specs.Forest.{tree_at, IsAt, AreIds, Extends, AreFormed, IsFormed, IsClauseOf, clause_at, Grows};
ghost use Rattle.cert_format.specs.Names.{IsNameText};
ghost use Rattle.clause_form.specs.Conclusions.{AreVariables};
ghost use Rattle.cert_items.specs.Known.{IsKnown, AreKnown, remembered};
ghost use Rattle.cert_items.specs.Spelled.{IsSpelled};
ghost use Rattle.cert_items.specs.Reading.{IsApplied};

use crate::canonical::is_canonical as is_canonical_in;
use crate::recent::Recent;
use crate::symbol::apply_named;
use indexmap::IndexMap;
use inst_logic::{Kind, Memory, Sym};
use std::alloc::Global;
use std::marker::Model;
use term_bank::{Bank, IdClause, IdLiteral, TermId};

// An application of the symbol of a name that was read, and the symbol's kind and arity.
#[derive(Clone, Copy)]
pub struct NamedSymbol {
    kind: Kind,
    arity: usize,
    id: TermId,
}

/// A bank that terms of a text are read into. Contracts see the bank.
#[derive(Drop)]
pub struct TextBank {
    alloc: Global,
    bank: Bank,
    known: IndexMap<Vec<u8>, NamedSymbol>,
    // The ids of the first variables, by their numbers, as far as these were read in this order.
    variables: Vec<TermId>,
    recent: Recent,
}

impl Model for TextBank {
    ghost use Rattle.term_bank.specs.Forest.{Forest, forest_code};
    ghost use Rattle.cert_items.specs.Remembered.{IsRemembered};

    ghost Value = { Forest };

    ghost coded = { forest_code };

    ghost view = { λ t. t.bank };

    ghost invariant = { λ t. IsRemembered t.bank t.known.entries t.variables.items t.recent.literals.items };
}

// What is remembered of the name that is printed so.
fn known_of(known: &IndexMap<Vec<u8>, NamedSymbol>, text: &[u8]) -> Option<NamedSymbol>
    ensures { result ≡ remembered text.now known.now.entries }
{
    known.get(text).copied()
}

// Remembers the application for a name that is not remembered.
fn note(
    known: &mut IndexMap<Vec<u8>, NamedSymbol>,
    bank: &Bank,
    text: &[u8],
    value: NamedSymbol,
) -> Result<(), Memory>
    requires new { remembered text.now known.old.entries ≡ None }
    requires value { IsKnown bank.now text.now value }
    requires known { AreKnown bank.now known.old.entries }
    ensures { AreKnown bank.now known.new.entries }
{
    let key = Vec::from_slice(*known.allocator(), text)?;
    known.insert(key, value)?;
    Ok(())
}

// The application of the symbol of this kind whose name is printed so, and is not remembered.
fn apply_first(
    bank: &mut Bank,
    known: &mut IndexMap<Vec<u8>, NamedSymbol>,
    kind: Kind,
    text: &[u8],
    args: &[TermId],
) -> Result<TermId, Memory>
    requires name { IsNameText text.now }
    requires ids { AreIds bank.old args.now }
    requires new { remembered text.now known.old.entries ≡ None }
    requires known { AreKnown bank.old known.old.entries }
    ensures known { AreKnown bank.new known.new.entries }
    ensures at { IfOk result (λ id. IsApplied bank.new id kind text.now (map (tree_at bank.old) args.now)) }
    ensures extends { Extends bank.old bank.new }
    ensures formed { AreFormed bank.old → ((n : List ℕ) → IsFormed (app (record { kind = kind; name = n; arity = length args.now }) (of_list (map (tree_at bank.old) args.now)))) → AreFormed bank.new }
{
    let id = apply_named(*known.allocator(), bank, kind, text, args)?;
    let value = NamedSymbol {
        kind,
        arity: args.len(),
        id,
    };
    note(known, bank, text, value)?;
    Ok(id)
}

// The remembered symbol, whose name is printed so, applied to as many arguments as it takes.
fn apply_again(
    bank: &mut Bank,
    text: &[u8],
    known: &NamedSymbol,
    args: &[TermId],
) -> Result<TermId, Memory>
    requires known { IsKnown bank.old text.now known.now }
    requires count { length args.now ≡ known.now.arity }
    requires ids { AreIds bank.old args.now }
    ensures at { IfOk result (λ id. IsApplied bank.new id known.now.kind text.now (map (tree_at bank.old) args.now)) }
    ensures extends { Extends bank.old bank.new }
    ensures formed { AreFormed bank.old → ((n : List ℕ) → IsFormed (app (record { kind = known.now.kind; name = n; arity = length args.now }) (of_list (map (tree_at bank.old) args.now)))) → AreFormed bank.new }
{
    if args.is_empty() {
        return Ok(known.id);
    }
    bank.app_like(known.id, args)
}

// The application of the symbol of this kind whose name is printed so.
fn symbol_application(
    bank: &mut Bank,
    known: &mut IndexMap<Vec<u8>, NamedSymbol>,
    kind: Kind,
    text: &[u8],
    args: &[TermId],
) -> Result<TermId, Memory>
    requires name { IsNameText text.now }
    requires ids { AreIds bank.old args.now }
    requires known { AreKnown bank.old known.old.entries }
    ensures known { AreKnown bank.new known.new.entries }
    ensures at { IfOk result (λ id. IsApplied bank.new id kind text.now (map (tree_at bank.old) args.now)) }
    ensures extends { Extends bank.old bank.new }
    ensures formed { AreFormed bank.old → ((n : List ℕ) → IsFormed (app (record { kind = kind; name = n; arity = length args.now }) (of_list (map (tree_at bank.old) args.now)))) → AreFormed bank.new }
{
    match known_of(known, text) {
        None => apply_first(bank, known, kind, text, args),
        Some(found) => {
            if found.kind == kind && found.arity == args.len() {
                apply_again(bank, text, &found, args)
            } else {
                apply_named(*known.allocator(), bank, kind, text, args)
            }
        }
    }
}

// The id that is noted for the variable of this number.
fn noted_variable(_bank: &Bank, variables: &[TermId], v: usize) -> Option<TermId>
    requires { AreVariables _bank.now (length variables.now) variables.now }
    ensures { IfSome result (λ id. IsAt _bank.now id (var v)) }
{
    variables.get(v).copied()
}

// Notes the id of the variable of this number, where those of the ones before it are noted.
fn note_variable(
    _bank: &Bank,
    variables: &mut Vec<TermId>,
    v: usize,
    id: TermId,
) -> Result<(), Memory>
    requires at { IsAt _bank.now id (var v) }
    requires variables { AreVariables _bank.now (length variables.old.items) variables.old.items }
    ensures { AreVariables _bank.now (length variables.new.items) variables.new.items }
{
    if v == variables.len() {
        variables.push(id)?;
    }
    Ok(())
}

// The id of the variable of this number.
fn variable(bank: &mut Bank, variables: &mut Vec<TermId>, v: usize) -> Result<TermId, Memory>
    requires { AreVariables bank.old (length variables.old.items) variables.old.items }
    ensures at { IfOk result (λ id. IsAt bank.new id (var v)) }
    ensures variables { AreVariables bank.new (length variables.new.items) variables.new.items }
    ensures grows { Grows bank.old bank.new }
{
    if let Some(id) = noted_variable(bank, variables, v) {
        return Ok(id);
    }
    let id = bank.var(v)?;
    note_variable(bank, variables, v, id)?;
    Ok(id)
}

impl TextBank {
    /// An empty bank, which takes no memory.
    pub fn new(alloc: Global) -> TextBank
        ensures { result ≡ record { trees = []; symbols = []; spent = false } }
    {
        TextBank {
            alloc,
            bank: Bank::new(alloc),
            known: IndexMap::new(alloc),
            variables: Vec::new(alloc),
            recent: Recent::new(alloc),
        }
    }

    // The allocator that it was made with.
    pub(crate) fn alloc(&self) -> Global {
        self.alloc
    }

    /// The bank, without what is remembered.
    pub fn into_bank(self) -> Bank
        ensures { result ≡ self }
    {
        let TextBank { bank, .. } = self;
        bank
    }

    /// Clauses are equal where their trees are.
    pub fn distinct(&self)
        ensures { (c d : List (Signed ℕ)) → IsClauseOf self.now c → IsClauseOf self.now d → clause_at self.now c ≡ clause_at self.now d → c ≡ d }
    {
        self.bank.distinct();
    }

    // The literal whose text, which has this code, this is, where it is remembered.
    pub(crate) fn literal_of(&self, text: &[u8], code: usize) -> Option<IdLiteral>
        ensures { IfSome result (IsSpelled self.now text.now) }
    {
        self.recent.find(text, code)
    }

    // Remembers the literal by its text, which has this code.
    pub(crate) fn note(
        &mut self,
        text: &[u8],
        code: usize,
        literal: &IdLiteral,
    ) -> Result<(), Memory>
        requires { IsSpelled self.old text.now literal.now }
        ensures { self.new ≡ self.old }
    {
        self.recent.note(self.alloc, text, code, literal)
    }

    // The id of the variable of this number.
    pub(crate) fn var(&mut self, v: usize) -> Result<TermId, Memory>
        ensures at { IfOk result (λ id. IsAt self.new id (var v)) }
        ensures grows { Grows self.old self.new }
    {
        variable(&mut self.bank, &mut self.variables, v)
    }

    // The id of the symbol applied to the terms of these ids.
    pub(crate) fn app(&mut self, sym: &Sym, args: &[TermId]) -> Result<TermId, Memory>
        requires { AreIds self.old args.now }
        ensures at { IfOk result (λ id. IsAt self.new id (app sym.now (of_list (map (tree_at self.old) args.now)))) }
        ensures extends { Extends self.old self.new }
        ensures formed { AreFormed self.old → IsFormed (app sym.now (of_list (map (tree_at self.old) args.now))) → AreFormed self.new }
    {
        self.bank.app(sym, args)
    }
}

// The id of the application of the symbol of this kind whose name is printed so.
pub fn apply(
    bank: &mut TextBank,
    kind: Kind,
    text: &[u8],
    args: &[TermId],
) -> Result<TermId, Memory>
    requires name { IsNameText text.now }
    requires ids { AreIds bank.old args.now }
    ensures at { IfOk result (λ id. IsApplied bank.new id kind text.now (map (tree_at bank.old) args.now)) }
    ensures extends { Extends bank.old bank.new }
    ensures formed { AreFormed bank.old → ((n : List ℕ) → IsFormed (app (record { kind = kind; name = n; arity = length args.now }) (of_list (map (tree_at bank.old) args.now)))) → AreFormed bank.new }
{
    symbol_application(&mut bank.bank, &mut bank.known, kind, text, args)
}

// Whether the clause has its variables 0, 1, 2 by first occurrence, and no repeats. `ids` is room to work in.
pub fn is_canonical(
    bank: &mut TextBank,
    ids: &mut Vec<TermId>,
    c: &IdClause,
) -> Result<bool, Memory>
    requires { IsClauseOf bank.old c.now }
    ensures grows { Grows bank.old bank.new }
    ensures is { IfOk result (λ r. IsTrue r ↔ IsCanonical (clause_at bank.old c.now)) }
{
    is_canonical_in(bank.alloc, &mut bank.bank, ids, c)
}
