// An index whose walks may refuse to begin.
ghost use Rattle.std.specs.Prelude.{◌≡◌, ◌<◌, [], length, false, IsTrue, IsErr, IfOk};
ghost use Rattle.term_index.specs.Views.{Stands};
ghost use Rattle.term_index.specs.Pairs.{IsAsked};
ghost use Rattle.term_index.specs.Rows.{empty_rows, grown_rows};

use inst_logic::Memory;
use std::alloc::Global;
use term_bank::{Bank, TermId};
use term_index::{PartnerIndex, Rows, RowsCursor, View};

/// The plain index, where `start` always answers want of memory while the flag is set. An engine that does not ask its index does
/// not meet it.
#[derive(Drop)]
pub struct Refusing {
    rows: Rows,
    refuses: bool,
}

impl Refusing {
    /// An index without pairs, with this flag.
    pub fn new(alloc: Global, refuses: bool) -> Refusing
        ensures rows { result.rows ≡ record { pairs = []; spent = false } }
        ensures flag { result.refuses ≡ refuses }
    {
        Refusing {
            rows: Rows::new(alloc),
            refuses,
        }
    }

    /// From now on walks are refused, or no longer.
    pub fn set_refuses(&mut self, refuses: bool)
        ensures rows { self.new.rows ≡ self.old.rows }
        ensures flag { self.new.refuses ≡ refuses }
    {
        self.refuses = refuses;
    }
}

impl PartnerIndex for Refusing {
    type Cursor = RowsCursor;

    ghost pairs = { λ s. ⟦<Rows as PartnerIndex>⟧.pairs s.rows };

    ghost spent = { λ s. ⟦<Rows as PartnerIndex>⟧.spent s.rows };

    ghost fits = { λ f s. ⟦<Rows as PartnerIndex>⟧.fits f s.rows };

    ghost wide = { ⟦<Rows as PartnerIndex>⟧.wide };

    ghost walks = { λ s c. ⟦<Rows as PartnerIndex>⟧.walks s.rows c };

    ghost to_come = { λ s c. ⟦<Rows as PartnerIndex>⟧.to_come s.rows c };

    ghost most = { λ s c. ⟦<Rows as PartnerIndex>⟧.most s.rows c };

    ghost broken = { ⟦<Rows as PartnerIndex>⟧.broken };

    fn insert(&mut self, bank: &Bank, atom: TermId, entry: usize) -> Result<(), Memory> {
        self.rows.insert(bank, atom, entry)
    }

    fn remove(&mut self, bank: &Bank, atom: TermId, entry: usize) -> Result<bool, Memory> {
        self.rows.remove(bank, atom, entry)
    }

    fn start(&self, bank: &Bank, query: TermId, view: View) -> Result<RowsCursor, Memory>
        requires within { query < length bank.now.trees }
        requires fits { ⟦<Rows as PartnerIndex>⟧.fits bank.now self.now.rows }
        ensures walks { IfOk result (⟦<Rows as PartnerIndex>⟧.walks self.now.rows) }
        ensures asked { IfOk result (λ c. IsAsked bank.now (⟦<Rows as PartnerIndex>⟧.pairs self.now.rows) (⟦<Rows as PartnerIndex>⟧.wide view) (Stands view) query (⟦<Rows as PartnerIndex>⟧.to_come self.now.rows c)) }
        ensures whole { IfOk result (λ c. ⟦<Rows as PartnerIndex>⟧.broken c ≡ false) }
        ensures stays_spent { IsTrue (⟦<Rows as PartnerIndex>⟧.spent self.now.rows) → IsErr result }
        ensures refuses { IsTrue self.now.refuses → IsErr result }
    {
        if self.refuses {
            return Err(Memory);
        }
        self.rows.start(bank, query, view)
    }

    fn next(&self, cursor: &mut RowsCursor) -> Result<Option<usize>, Memory> {
        self.rows.next(cursor)
    }

    ghost empty_fits = { λ f s e. empty_rows f s.rows e };

    ghost grown_fits = { λ f g s e h. grown_rows f g s.rows e h };
}
