// Clauses by numbers that stay while others are forgotten, since watches and reasons name them. In a list that closes up
// after each removal all of these would have to be renamed.
ghost use Rattle.std.specs.Prelude.{◌≡◌, ◌≢◌, [], None, IfOk, OnErr, option_copied};
ghost use Rattle.cdcl_trail.specs.Clauses.{clause_number, AddsClause, RemovesClause};

use inst_logic::Memory;
use prop_logic::{Lit, LitList};
use slab::Slab;
use std::alloc::Global;
use std::marker::Model;

/// Clauses by numbers, counted from 1. The number of a clause that was forgotten may be given again.
#[derive(Drop)]
pub struct Clauses {
    alloc: Global,
    clauses: Slab<LitList>,
}

impl Model for Clauses {
    ghost use Rattle.std.specs.Prelude.{◌≡◌, ℕ, List, [], Option};
    ghost use Rattle.inst_logic.specs.declared.signed.Signed.{Signed};

    ghost Value = { List (Option (List (Signed ℕ))) };

    ghost view = { λ c. c.clauses.slots };

    ghost invariant = { λ c. c.clauses.slots ≡ [] → c.clauses.vacant_key ≡ 0 };
}

impl Clauses {
    /// No clauses, which take no memory.
    pub fn new(alloc: Global) -> Clauses
        ensures { result ≡ [] }
    {
        Clauses {
            alloc,
            clauses: Slab::new(alloc),
        }
    }

    /// Adds a copy of the clause, and answers its number, which is 1 for the first. A refused call leaves the clauses as they
    /// were. The clause is attached to no trail by it.
    pub fn add(&mut self, c: &[Lit]) -> Result<usize, Memory>
        ensures number { IfOk result (AddsClause self.old self.new c.now) }
        ensures err { OnErr result (self.new ≡ self.old) }
    {
        let key = self.clauses.vacant_key();
        if key == usize::MAX {
            return Err(Memory);
        }
        let copy = LitList::from(Vec::from_slice(self.alloc, c)?);
        self.clauses.insert(copy)?;
        Ok(key + 1)
    }

    /// The clause of this number, or `None` where there is none or it was forgotten.
    pub fn get(&self, n: usize) -> Option<&LitList>
        ensures { option_copied result ≡ clause_number self.now n }
    {
        if n == 0 {
            return None;
        }
        self.clauses.get(n - 1)
    }

    // The literals of the clause of this number.
    pub(crate) fn literals(&self, n: usize) -> Option<&[Lit]>
        ensures { option_copied result ≡ clause_number self.now n }
    {
        match self.get(n) {
            None => None,
            Some(clause) => Some(clause.as_slice()),
        }
    }

    /// Takes the clause of this number away. Its number may be given again.
    pub fn forget(&mut self, n: usize)
        requires { clause_number self.old n ≢ None }
        ensures { RemovesClause self.old self.new n }
    {
        if n != 0 {
            self.clauses.try_remove(n - 1);
        }
    }
}
