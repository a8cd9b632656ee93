// What a solve changes: the atoms whose values are others than before.
ghost use Rattle.std.specs.Prelude.{◌<◌, ◌≤◌, All, length, map, slice_get, Some, ◌≡◌, IfOk};
ghost use Rattle.term_bank.specs.Forest.{AreIds, tree_at};
ghost use Rattle.prop_logic.specs.Valuation.{AreChanges};
ghost use Rattle.ground_abs.specs.Abstracts.{AreAtomsIn, atoms_in};
ghost use Rattle.engine_laws.specs.Valuations.{AreFlips};
ghost use Rattle.instgen_run.specs.Flips.{AreAtomsAt};

use crate::event::FlipList;
use ground_abs::Abstraction;
use inst_logic::Memory;
use prop_logic::{Valuation, changes};
use std::alloc::Global;
use term_bank::{Bank, TermId};

/// The numbers of the atoms that changed, rising, and the atoms in the same order.
#[derive(Drop)]
pub struct Flips {
    pub numbers: Vec<usize>,
    pub atoms: FlipList,
}

// The atom of the number.
fn atom_at(abstraction: &Abstraction, n: usize) -> TermId
    requires { n < length abstraction.now.ids }
    ensures { Some result ≡ slice_get abstraction.now.ids n }
{
    match abstraction.atom_at(n) {
        Some(atom) => atom,
        None => unreachable!(),
    }
}

// The atoms of these numbers.
fn atoms_at(alloc: Global, abstraction: &Abstraction, numbers: &[usize]) -> Result<FlipList, Memory>
    requires { All (λ n. n < length abstraction.now.ids) numbers.now }
    ensures { IfOk result (AreAtomsAt abstraction.now.ids numbers.now) }
{
    let mut atoms = FlipList::new(alloc);
    for n in numbers {
        atoms.push(atom_at(abstraction, *n))?;
    }
    Ok(atoms)
}

/// The atoms that the new valuation changes.
pub fn flips_between(
    alloc: Global,
    _bank: &Bank,
    abstraction: &Abstraction,
    old: &Valuation,
    new: &Valuation,
) -> Result<Flips, Memory>
    requires fits { AreAtomsIn _bank.now abstraction.now.ids }
    requires old { length old.now ≤ length abstraction.now.ids }
    requires new { length new.now ≤ length abstraction.now.ids }
    ensures numbers { IfOk result (λ f. AreChanges old.now new.now f.numbers.items) }
    ensures below { IfOk result (λ f. All (λ n. n < length abstraction.now.ids) f.numbers.items) }
    ensures ids { IfOk result (λ f. AreIds _bank.now f.atoms) }
    ensures flips { IfOk result (λ f. AreFlips (atoms_in _bank.now abstraction.now.ids) old.now new.now (map (tree_at _bank.now) f.atoms)) }
{
    let numbers = changes(alloc, old, new)?;
    let atoms = atoms_at(alloc, abstraction, &numbers)?;
    Ok(Flips { numbers, atoms })
}
