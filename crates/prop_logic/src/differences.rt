// The atoms at which two valuations differ. They are compared word by word, and only words that differ are opened, since from
// one question to the next most values stay.
ghost use Rattle.std.specs.Prelude.{◌≡◌, ◌≢◌, ◌≤◌, ◌+◌, ◌*◌, ◌<◌, IfOk, OnOk};
ghost use Rattle.std.specs.List.Sorted.{IsStrictlyIncreasing};
ghost use Rattle.prop_logic.specs.Valuation.{AreChanges, AreChangesBelow};

use crate::valuation::Valuation;
use inst_logic::Memory;
use std::alloc::Global;

// Adds the atom where the values differ.
fn add_change(
    changes: &mut Vec<usize>,
    old: &Valuation,
    new: &Valuation,
    atom: usize,
) -> Result<(), Memory>
    requires before { AreChangesBelow atom old.now new.now changes.old.items }
    requires rising { IsStrictlyIncreasing changes.old.items }
    ensures before { OnOk result (AreChangesBelow (atom + 1) old.now new.now changes.new.items) }
    ensures rising { OnOk result (IsStrictlyIncreasing changes.new.items) }
{
    if old.bit(atom) != new.bit(atom) {
        changes.push(atom)?;
    }
    Ok(())
}

// Adds those from an atom on up to another.
fn add_changes(
    changes: &mut Vec<usize>,
    old: &Valuation,
    new: &Valuation,
    first: usize,
    end: usize,
) -> Result<(), Memory>
    requires order { first ≤ end }
    requires before { AreChangesBelow first old.now new.now changes.old.items }
    requires rising { IsStrictlyIncreasing changes.old.items }
    ensures before { OnOk result (AreChangesBelow end old.now new.now changes.new.items) }
    ensures rising { OnOk result (IsStrictlyIncreasing changes.new.items) }
{
    for atom in first..end {
        add_change(changes, old, new, atom)?;
    }
    Ok(())
}

// Adds those of one word, if the words differ.
fn add_word(
    changes: &mut Vec<usize>,
    old: &Valuation,
    new: &Valuation,
    place: usize,
) -> Result<(), Memory>
    requires place { 64 * place + 64 ≤ usize.MAX }
    requires before { AreChangesBelow (64 * place) old.now new.now changes.old.items }
    requires rising { IsStrictlyIncreasing changes.old.items }
    ensures before { OnOk result (AreChangesBelow (64 * place + 64) old.now new.now changes.new.items) }
    ensures rising { OnOk result (IsStrictlyIncreasing changes.new.items) }
{
    if old.word(place) == new.word(place) {
        return Ok(());
    }
    add_changes(changes, old, new, 64 * place, 64 * place + 64)
}

/// The atoms whose value differs, each once and rising. An atom past the end of one of the two counts as false there. Time:
/// one comparison for 64 atoms, and 64 for each word that differs.
pub fn changes(alloc: Global, old: &Valuation, new: &Valuation) -> Result<Vec<usize>, Memory>
    ensures exact { IfOk result (λ atoms. AreChanges old.now new.now atoms.items) }
    ensures rising { IfOk result (λ atoms. IsStrictlyIncreasing atoms.items) }
{
    let mut changes = Vec::new(alloc);
    let count = old.word_count().max(new.word_count());
    let mut place = old.first_difference(new, 0);
    while place < count {
        add_word(&mut changes, old, new, place)?;
        place = old.first_difference(new, place + 1);
    }
    Ok(changes)
}
