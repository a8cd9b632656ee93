// Memory that serves again from one conclusion to the next.
ghost use Rattle.std.specs.Prelude.{◌≡◌, ◌∷◌, [], false, IfOk, OnOk};
ghost use Rattle.inst_logic.specs.Clauses.{IsCanonical, canonical_form, instance};
ghost use Rattle.inst_logic.specs.Unifiers.{Sided};
ghost use Rattle.inst_logic.specs.WellFormed.{IsFormedClause};
ghost use Rattle.term_bank.specs.Forest.{AreFormed, Extends, IsClauseAt, IsClauseOf, clause_at};
ghost use Rattle.unify_core.specs.Chains.{AreBindings};
ghost use Rattle.unify_core.specs.Sides.{IsResolvedBy, of_side};
ghost use Rattle.unify_core.specs.Terms.{AreTerms};

use crate::tested::Tested;
use clause_form::Workspace;
use inst_logic::Memory;
use std::alloc::Global;
use std::marker::Model;
use std::mem::replace;
use term_bank::{Bank, IdClause, IdLiteral};
use unify_core::{Bindings, Side};

/// Memory in which conclusions are made and looked up, the same from one to the next. Contracts see nothing of it.
#[derive(Drop)]
pub struct Scratch {
    alloc: Global,
    key: IdClause,
    workspace: Workspace,
    tested: Tested,
}

impl Model for Scratch {
    ghost Value = { Unit {0} };

    ghost view = { λ _. tt };
}

impl Scratch {
    /// It has no memory until it is used.
    pub fn new(alloc: Global) -> Scratch {
        Scratch {
            alloc,
            key: IdClause::new(alloc),
            workspace: Workspace::new(alloc),
            tested: Tested::new(alloc),
        }
    }

    /// As `clause_form::conclude_clause`.
    pub fn conclude_clause(
        &mut self,
        bank: &mut Bank,
        b: &Bindings,
        side: Side,
        c: &IdClause,
    ) -> Result<IdClause, Memory>
        requires clause { IsClauseOf bank.old c.now }
        requires bindings { AreBindings bank.old b.now.entries }
        ensures made { IfOk result (λ d. (s : Sided) → IsResolvedBy bank.old b.now.entries s → IsClauseAt bank.new d (canonical_form (instance (of_side s side) (clause_at bank.old c.now)))) }
        ensures ids { IfOk result (λ d. IsClauseOf bank.new d) }
        ensures canonical { IfOk result (λ d. IsCanonical (clause_at bank.new d)) }
        ensures atoms { IfOk result (λ d. AreTerms bank.old b.now.entries → IsFormedClause (clause_at bank.old c.now) → IsFormedClause (clause_at bank.new d)) }
        ensures extends { Extends bank.old bank.new }
        ensures unspent { OnOk result (bank.old.spent ≡ false → bank.new.spent ≡ false) }
        ensures formed { AreFormed bank.old → AreTerms bank.old b.now.entries → AreFormed bank.new }
    {
        self.workspace.conclude_clause(bank, b, side, c)
    }

    /// The literal alone, as a key of the entries.
    pub fn alone(&mut self, l: IdLiteral) -> Result<&IdClause, Memory>
        ensures { IfOk result (λ key. key.now ≡ l ∷ []) }
    {
        let mut literals = Vec::from(replace(&mut self.key, IdClause::new(self.alloc)));
        literals.clear();
        literals.push(l)?;
        self.key = IdClause::from(literals);
        Ok(&self.key)
    }

    /// The set of the entries that were tested against a conclusion, as the last conclusion left it.
    pub fn tested_entries(&mut self) -> &mut Tested {
        &mut self.tested
    }
}
