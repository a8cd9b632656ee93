// How a layer above walks over an index.
ghost use Rattle.std.specs.Prelude.{◌≡◌, ◌<◌, ℕ, length, Contains, IfOk};
ghost use Rattle.term_bank.specs.Forest.{tree_at, Extends};
ghost use Rattle.term_index.specs.Views.{Stands};
ghost use Rattle.term_index.specs.Pairs.{Posting};

use inst_logic::Memory;
use std::alloc::Global;
use term_bank::{Bank, TermId};
use term_index::{PartnerIndex, View, candidates};

/// The entries of all stored atoms that stand to the query as the view says, and maybe of others. A layer above finds partners
/// in this way: the walk borrows the index alone, so the bank may grow meanwhile, and here takes each entry as a variable.
pub fn partners_of<I: PartnerIndex>(
    alloc: Global,
    index: &I,
    bank: &mut Bank,
    query: TermId,
    view: View,
) -> Result<Vec<usize>, Memory>
    requires within { query < length bank.old.trees }
    requires fits { I.fits bank.old index.now }
    ensures all { IfOk result (λ entries. (p : Posting) → Contains (I.pairs index.now) p → Stands view (tree_at bank.old p.0) (tree_at bank.old query) → Contains entries.items p.1) }
    ensures extends { Extends bank.old bank.new }
    ensures fits { I.fits bank.new index.now }
{
    let mut entries = Vec::new(alloc);
    for item in candidates(index, bank, query, view)? {
        let entry = item?;
        bank.var(entry)?;
        entries.push(entry)?;
    }
    Ok(entries)
}
