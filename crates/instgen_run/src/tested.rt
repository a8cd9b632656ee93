// Which entries have been tested against a conclusion. Several literals of the conclusion may be instances of an entry's first
// literal, and one test is enough. An entry is among them where its stamp is the present one, so that all of them are taken
// back by one addition.
ghost use Rattle.std.specs.Prelude.{◌≡◌, ◌<◌, ◌⊎◌, ℕ, [], length, true, slice_set, OnOk};
ghost use Rattle.instgen_run.specs.Tested.{IsTested};

use inst_logic::Memory;
use std::alloc::Global;
use std::marker::Model;

/// A set of numbers of entries. Stamps are kept up to the greatest number that was ever in it.
#[derive(Drop)]
pub struct Tested {
    stamps: Vec<u32>,
    present: u32,
}

impl Model for Tested {
    ghost use Rattle.std.specs.Prelude.{List, Bool, ◌==◌, map};
    ghost use Rattle.instgen_run.specs.Tested.{AreStamps};

    ghost Value = { List Bool };

    ghost view = { λ a. map (λ s. s == a.present) a.stamps.items };

    ghost invariant = { λ a. AreStamps a.stamps.items a.present };
}

impl Tested {
    /// No entries.
    pub fn new(alloc: Global) -> Tested
        ensures { result ≡ [] }
    {
        Tested {
            stamps: Vec::new(alloc),
            present: 1,
        }
    }

    /// No entry is among them any more. Stamps are set anew only once in 2^32 calls.
    pub fn clear(&mut self)
        ensures { (k : ℕ) → ¬ IsTested self.new k }
    {
        if self.present < u32::MAX {
            self.present += 1;
        } else {
            self.stamps.fill(0);
            self.present = 1;
        }
    }

    // Makes room for the stamp of entry `k`.
    fn reach(&mut self, k: usize) -> Result<(), Memory>
        ensures within { OnOk result (k < length self.new) }
        ensures kept { (j : ℕ) → IsTested self.new j → IsTested self.old j }
    {
        let Some(len) = k.checked_add(1) else {
            return Err(Memory);
        };
        if self.stamps.len() < len {
            self.stamps.resize(len, 0)?;
        }
        Ok(())
    }

    // The entry has the present stamp.
    fn stamp(&mut self, k: usize)
        requires { k < length self.old }
        ensures { self.new ≡ slice_set self.old k true }
    {
        self.stamps[k] = self.present;
    }

    /// Entry `k` is among them too.
    pub fn insert(&mut self, k: usize) -> Result<(), Memory>
        ensures { OnOk result ((j : ℕ) → IsTested self.new j → IsTested self.old j ⊎ (j ≡ k)) }
    {
        self.reach(k)?;
        self.stamp(k);
        Ok(())
    }

    pub fn contains(&self, k: usize) -> bool
        ensures { result ≡ true → IsTested self.now k }
    {
        match self.stamps.get(k) {
            None => false,
            Some(stamp) => *stamp == self.present,
        }
    }
}
