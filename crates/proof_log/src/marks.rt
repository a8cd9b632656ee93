// A set of literals that is emptied by one addition. Clearing an array before each step would cost all atoms, however short
// the step is.
ghost use Rattle.std.specs.Prelude.{◌≡◌, ◌<◌, replicate, false, IfOk};
ghost use Rattle.proof_log.specs.Marks.{is_marked, with_mark, room};

use inst_logic::Memory;
use prop_logic::Lit;
use std::alloc::Global;
use std::marker::Model;

// A set of literals over a fixed number of atoms: a literal is in it where its stamp is the present one.
#[derive(Drop)]
pub(crate) struct Marks {
    positive: Vec<u64>,
    negative: Vec<u64>,
    present: u64,
}

impl Model for Marks {
    ghost use Rattle.std.specs.Prelude.{◌==◌, map};
    ghost use Rattle.proof_log.specs.Marks.{Marked, IsStamped};

    ghost Value = { Marked };

    ghost view = { λ a. record { positive = map (λ s. s == a.present) a.positive.items; negative = map (λ s. s == a.present) a.negative.items } };

    ghost invariant = { λ a. IsStamped a.positive.items a.negative.items a.present };
}

impl Marks {
    // A set with no literal, over the atoms below `atoms`.
    pub(crate) fn new(alloc: Global, atoms: usize) -> Result<Marks, Memory>
        ensures { IfOk result (λ marks. room marks ≡ atoms) }
    {
        let positive = vec![in alloc; 0; atoms]?;
        let negative = vec![in alloc; 0; atoms]?;
        Ok(Marks {
            positive,
            negative,
            present: 1,
        })
    }

    // Stamps are set anew only once in 2^64 calls.
    pub(crate) fn clear(&mut self)
        ensures positive { self.new.positive ≡ replicate (room self.old) false }
        ensures negative { self.new.negative ≡ replicate (room self.old) false }
    {
        if self.present < u64::MAX {
            self.present += 1;
        } else {
            self.positive.fill(0);
            self.negative.fill(0);
            self.present = 1;
        }
    }

    pub(crate) fn insert(&mut self, l: Lit)
        requires { l.atom < room self.old }
        ensures { self.new ≡ with_mark self.old l }
    {
        if l.positive {
            self.positive[l.atom] = self.present;
        } else {
            self.negative[l.atom] = self.present;
        }
    }

    pub(crate) fn contains(&self, l: Lit) -> bool
        requires { l.atom < room self.now }
        ensures { result ≡ is_marked self.now l }
    {
        if l.positive {
            self.positive[l.atom] == self.present
        } else {
            self.negative[l.atom] == self.present
        }
    }
}
