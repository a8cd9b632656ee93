// Phase saving: an atom is decided with the value that it had last (Pipatsrisawat and Darwiche, A lightweight component caching
// scheme for satisfiability solvers, 2007). The values are packed, so that an answer copies them by words.
ghost use Rattle.std.specs.Prelude.{◌≡◌, ◌++◌, ◌∷◌, [], ◌≤◌, length, All, OnOk};
ghost use Rattle.cdcl_trail.specs.Trail.{IsTrail};
ghost use Rattle.cdcl_core.specs.Phases.{IsSaved, ArePhases};

use crate::analysis::literal_at;
use cdcl_trail::Trail;
use inst_logic::Memory;
use prop_logic::Valuation;
use std::alloc::Global;

// Each atom's value; before it had one, the value that is tried first. The first `saved` literals of the trail have theirs.
#[derive(Drop)]
pub(crate) struct Phases {
    pub(crate) values: Valuation,
    pub(crate) saved: usize,
}

impl Phases {
    pub(crate) fn new(alloc: Global) -> Phases
        ensures values { result.values ≡ [] }
        ensures saved { result.saved ≡ 0 }
    {
        Phases {
            values: Valuation::new(alloc),
            saved: 0,
        }
    }

    // Takes the room of one more atom, which is tried with this value first.
    pub(crate) fn grow(&mut self, first: bool) -> Result<(), Memory>
        ensures values { OnOk result (self.new.values ≡ self.old.values ++ first ∷ []) }
        ensures saved { self.new.saved ≡ self.old.saved }
    {
        self.values.push(first)
    }

    // Saves the values of the trail that aren't.
    pub(crate) fn save(&mut self, trail: &Trail)
        requires { ArePhases trail.now.trail self.old }
        ensures phases { ArePhases trail.now.trail self.new }
        ensures whole { All (IsSaved self.new.values) trail.now.trail.entries }
        ensures right { IsTrail trail.now.trail }
    {
        let count = trail.assigned().len();
        for place in self.saved..count {
            let lit = literal_at(trail, place);
            self.values.set(lit.atom, lit.positive);
        }
        self.saved = count;
    }

    // The trail lost values that were saved.
    pub(crate) fn cut(&mut self, trail: &Trail)
        ensures values { self.new.values ≡ self.old.values }
        ensures within { self.new.saved ≤ length trail.now.trail.entries }
        ensures fewer { self.new.saved ≤ self.old.saved }
    {
        self.saved = self.saved.min(trail.assigned().len());
    }
}
