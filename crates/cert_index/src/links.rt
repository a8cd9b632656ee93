// Chains through items with numbers: whoever wants the items of a number visits these alone, in rising order.
ghost use Rattle.std.specs.Prelude.{◌≡◌, ◌<◌, ℕ, length, IfOk, OnOk};
ghost use Rattle.cert_index.specs.Buckets.{number_at};
ghost use Rattle.cert_index.specs.Links.{AreAdded, IsAddedFrom, IsLinked};

use inst_logic::Memory;
use std::alloc::Global;

/// For each item, counted from 0, its number and the next item that has it; and for each number the first item. Where there is
/// none it is the number of items.
#[derive(Drop)]
pub struct Links {
    pub(crate) numbers: Vec<usize>,
    pub(crate) first: Vec<usize>,
    pub(crate) next: Vec<usize>,
}

/// The chains through items with these numbers, which are below `count`.
pub fn find_links(alloc: Global, numbers: Vec<usize>, count: usize) -> Result<Links, Memory>
    requires { (i : ℕ) → i < length numbers.items → number_at numbers.items i < count }
    ensures numbers { IfOk result (λ l. l.numbers.items ≡ numbers.items) }
    ensures count { IfOk result (λ l. length l.first.items ≡ count) }
    ensures linked { IfOk result IsLinked }
{
    let end = numbers.len();
    let mut first = vec![in alloc; end; count]?;
    let mut next = vec![in alloc; end; end]?;
    let mut i = end;
    while 0 < i {
        i -= 1;
        let number = numbers[i];
        next[i] = first[number];
        first[number] = i;
    }
    Ok(Links {
        numbers,
        first,
        next,
    })
}

// Adds item `j`, unless it stands before `from`.
fn add_from(items: &mut Vec<usize>, from: usize, j: usize) -> Result<(), Memory>
    ensures { OnOk result (IsAddedFrom from j items.old.items items.new.items) }
{
    if j < from {
        return Ok(());
    }
    items.push(j)?;
    Ok(())
}

impl Links {
    /// Adds the items of the number, from `from` on.
    pub fn add_items(
        &self,
        items: &mut Vec<usize>,
        number: usize,
        from: usize,
    ) -> Result<(), Memory>
        requires linked { IsLinked self.now }
        requires known { number < length self.now.first.items }
        ensures { OnOk result (AreAdded self.now.numbers.items number from (length self.now.numbers.items) items.old.items items.new.items) }
    {
        let mut j = self.first[number];
        while j < self.next.len() {
            add_from(items, from, j)?;
            j = self.next[j];
        }
        Ok(())
    }
}
