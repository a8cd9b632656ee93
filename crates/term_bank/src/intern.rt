// The ids of terms, atoms and clauses. Each call notes how many trees there are, and after want of memory cuts off what it
// added: keeping a part would serve a second try, but then no caller could say what the bank has.
ghost use Rattle.std.specs.Prelude.{◌≡◌, [], false, true, IfOk, OnOk, OnErr};
ghost use Rattle.inst_logic.specs.View.{tree};
ghost use Rattle.inst_logic.specs.LiteralView.{literal};
ghost use Rattle.inst_logic.specs.WellFormed.{IsTerm, IsAtom, IsFormedClause};
ghost use Rattle.term_bank.specs.Forest.{IsAt, IsClauseAt, Extends, AreFormed};

use crate::bank::Bank;
use crate::id::{IdClause, IdLiteral, TermId};
use crate::walk::{Step, push_terms, run_steps};
use inst_logic::{Clause, Literal, Memory, Term};
use std::alloc::Global;

impl Bank {
    /// The id of a term. Its depth costs memory and no stack. Time: a call of `var` or `app` for each occurrence in the term.
    pub fn intern(&mut self, t: &Term) -> Result<TermId, Memory>
        ensures at { IfOk result (λ id. IsAt self.new id (tree t.now)) }
        ensures extends { Extends self.old self.new }
        ensures formed { AreFormed self.old → IsTerm (tree t.now) → AreFormed self.new }
        ensures ok { OnOk result ((self.old.spent ≡ false) × (self.new.spent ≡ false)) }
        ensures err { OnErr result (self.new.spent ≡ true) }
        ensures held { OnErr result (self.new.trees ≡ self.old.trees) }
    {
        if self.spent {
            return Err(Memory);
        }
        let len = self.len();
        let result = interned_term(self.alloc, self, t);
        if result.is_err() {
            self.give_up(len);
        }
        result
    }

    /// The id of the atom of a literal, whose sign does not matter.
    pub fn atom(&mut self, l: &Literal) -> Result<TermId, Memory>
        ensures at { IfOk result (λ id. IsAt self.new id (literal l.now).atom) }
        ensures extends { Extends self.old self.new }
        ensures formed { AreFormed self.old → IsAtom (literal l.now).atom → AreFormed self.new }
        ensures ok { OnOk result ((self.old.spent ≡ false) × (self.new.spent ≡ false)) }
        ensures err { OnErr result (self.new.spent ≡ true) }
        ensures held { OnErr result (self.new.trees ≡ self.old.trees) }
    {
        if self.spent {
            return Err(Memory);
        }
        let mut steps = Vec::new(self.alloc);
        let len = self.len();
        let result = interned_atom(self.alloc, self, &mut steps, l);
        if result.is_err() {
            self.give_up(len);
        }
        result
    }

    /// The clause with the id of each atom in its place: literals keep their places, and repeats stay.
    pub fn clause(&mut self, c: &Clause) -> Result<IdClause, Memory>
        ensures at { IfOk result (λ ids. IsClauseAt self.new ids c.now) }
        ensures extends { Extends self.old self.new }
        ensures formed { AreFormed self.old → IsFormedClause c.now → AreFormed self.new }
        ensures ok { OnOk result ((self.old.spent ≡ false) × (self.new.spent ≡ false)) }
        ensures err { OnErr result (self.new.spent ≡ true) }
        ensures held { OnErr result (self.new.trees ≡ self.old.trees) }
    {
        if self.spent {
            return Err(Memory);
        }
        let len = self.len();
        let result = interned_clause(self.alloc, self, c);
        if result.is_err() {
            self.give_up(len);
        }
        result
    }
}

fn interned_term(alloc: Global, bank: &mut Bank, t: &Term) -> Result<TermId, Memory>
    requires { bank.old.spent ≡ false }
    ensures at { IfOk result (λ id. IsAt bank.new id (tree t.now)) }
    ensures extends { Extends bank.old bank.new }
    ensures formed { AreFormed bank.old → IsTerm (tree t.now) → AreFormed bank.new }
    ensures unspent { OnOk result (bank.new.spent ≡ false) }
{
    let mut steps = Vec::new(alloc);
    steps.push(Step::Visit(t))?;
    run_steps(alloc, bank, &mut steps)
}

fn interned_atom<'a>(
    alloc: Global,
    bank: &mut Bank,
    steps: &mut Vec<Step<'a>>,
    l: &'a Literal,
) -> Result<TermId, Memory>
    requires unspent { bank.old.spent ≡ false }
    requires empty { steps.old.items ≡ [] }
    ensures at { IfOk result (λ id. IsAt bank.new id (literal l.now).atom) }
    ensures extends { Extends bank.old bank.new }
    ensures formed { AreFormed bank.old → IsAtom (literal l.now).atom → AreFormed bank.new }
    ensures unspent { OnOk result (bank.new.spent ≡ false) }
    ensures empty { OnOk result (steps.new.items ≡ []) }
{
    steps.push(Step::Apply(&l.sym, l.args.len()))?;
    push_terms(steps, l.args.as_slice())?;
    run_steps(alloc, bank, steps)
}

fn interned_clause(alloc: Global, bank: &mut Bank, c: &Clause) -> Result<IdClause, Memory>
    requires { bank.old.spent ≡ false }
    ensures at { IfOk result (λ ids. IsClauseAt bank.new ids c.now) }
    ensures extends { Extends bank.old bank.new }
    ensures formed { AreFormed bank.old → IsFormedClause c.now → AreFormed bank.new }
    ensures unspent { OnOk result (bank.new.spent ≡ false) }
{
    let mut room = Vec::new(alloc);
    room.reserve_exact(c.len())?;
    let mut ids = IdClause::from(room);
    let mut steps = Vec::new(alloc);
    for l in c.as_slice() {
        let atom = interned_atom(alloc, bank, &mut steps, l)?;
        ids.push(IdLiteral {
            positive: l.positive,
            atom,
        })?;
    }
    Ok(ids)
}
