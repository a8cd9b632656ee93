// Clauses at literals that make them true, with the values of atoms by which these are true.
ghost use Rattle.std.specs.Prelude.{◌≡◌, []};

use crate::notes::Notes;
use inst_logic::Memory;
use prop_logic::Valuation;
use std::alloc::Global;

// Values of the atoms, the numbers of clauses, each noted at one literal that is true by them, and the loose ones, which are
// noted at none.
#[derive(Drop)]
pub struct Witnesses {
    pub notes: Notes,
    pub values: Valuation,
    pub loose: Vec<usize>,
}

impl Witnesses {
    // No atoms and clauses, which take no memory.
    pub fn new(alloc: Global) -> Witnesses
        ensures notes { result.notes ≡ [] }
        ensures values { result.values ≡ [] }
        ensures loose { result.loose.items ≡ [] }
    {
        Witnesses {
            notes: Notes::new(alloc),
            values: Valuation::new(alloc),
            loose: Vec::new(alloc),
        }
    }
}
