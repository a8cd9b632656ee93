// The reader of items: the bank that their terms are read into, and room for the ids of terms that are being read.
ghost use Rattle.std.specs.Prelude.{◌≡◌, ℕ, List, [], false};
ghost use Rattle.inst_logic.specs.declared.signed.Signed.{Signed};
ghost use Rattle.term_bank.specs.Forest.{IsClauseOf, clause_at};

use crate::text_bank::TextBank;
use std::alloc::Global;
use std::marker::Model;
use term_bank::{Bank, TermId};

/// What the items of a text are read with, one after another. Contracts see the bank that their terms are read into.
#[derive(Drop)]
pub struct ItemReader {
    pub(crate) bank: TextBank,
    // Room to work in: what it holds between two calls says nothing.
    pub(crate) ids: Vec<TermId>,
}

impl Model for ItemReader {
    ghost use Rattle.term_bank.specs.Forest.{Forest, forest_code};

    ghost Value = { Forest };

    ghost coded = { forest_code };

    ghost view = { λ r. r.bank };
}

impl ItemReader {
    /// A reader into an empty bank, which takes no memory.
    pub fn new(alloc: Global) -> ItemReader
        ensures { result ≡ record { trees = []; symbols = []; spent = false } }
    {
        ItemReader {
            bank: TextBank::new(alloc),
            ids: Vec::new(alloc),
        }
    }

    /// The allocator that it was made with.
    pub fn alloc(&self) -> Global {
        self.bank.alloc()
    }

    /// The bank, without what is remembered of the text.
    pub fn into_bank(self) -> Bank
        ensures { result ≡ self }
    {
        let ItemReader { bank, .. } = self;
        bank.into_bank()
    }

    /// Clauses are equal where their trees are.
    pub fn distinct(&self)
        ensures { (c d : List (Signed ℕ)) → IsClauseOf self.now c → IsClauseOf self.now d → clause_at self.now c ≡ clause_at self.now d → c ≡ d }
    {
        self.bank.distinct();
    }
}
