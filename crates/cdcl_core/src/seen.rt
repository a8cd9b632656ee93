// Which atoms the analysis of a conflict has met: the `seen` flags of MiniSat (Eén and Sörensson, An extensible SAT-solver,
// 2003), which keep there too what minimising found of atoms that were not met (MiniSat 2.2). A flag is a stamp, so that all of
// them are taken back by one addition.
ghost use Rattle.std.specs.Prelude.{◌≡◌, ◌<◌, ◌++◌, ◌∷◌, [], length, replicate, true, false, slice_set, OnOk};
ghost use Rattle.std.specs.List.{slice_index_or};

use crate::memo::Memo;
use inst_logic::Memory;
use std::alloc::Global;
use std::marker::Model;

// An atom is seen where its stamp is the present one. `atoms` are those that are, in the order in which they were met.
#[derive(Drop)]
pub(crate) struct Seen {
    stamps: Vec<u32>,
    present: u32,
    atoms: Vec<usize>,
    memo: Memo,
}

impl Model for Seen {
    ghost use Rattle.std.specs.Prelude.{List, Bool, ◌==◌, map};
    ghost use Rattle.cdcl_core.specs.Stamps.{AreStamps};

    ghost Value = { List Bool };

    ghost view = { λ a. map (λ s. s == a.present) a.stamps.items };

    ghost invariant = { λ a. AreStamps a.stamps.items a.present };
}

impl Seen {
    // No atoms.
    pub(crate) fn new(alloc: Global) -> Seen
        ensures { result ≡ [] }
    {
        Seen {
            stamps: Vec::new(alloc),
            present: 1,
            atoms: Vec::new(alloc),
            memo: Memo::new(alloc),
        }
    }

    // Makes room for the next atom, which is not seen.
    pub(crate) fn grow(&mut self) -> Result<(), Memory>
        ensures { OnOk result (self.new ≡ self.old ++ false ∷ []) }
    {
        self.memo.grow()?;
        self.stamps.push(0)?;
        Ok(())
    }

    // No atom is seen any more. Stamps are set anew only once in 2^32 calls.
    pub(crate) fn clear(&mut self)
        ensures { self.new ≡ replicate (length self.old) false }
    {
        self.atoms.truncate(0);
        self.memo.clear();
        if self.present < u32::MAX {
            self.present += 1;
        } else {
            self.stamps.fill(0);
            self.present = 1;
        }
    }

    // The atom is seen. Without room for it, it is not among those that are listed.
    pub(crate) fn insert(&mut self, atom: usize)
        requires { atom < length self.old }
        ensures { self.new ≡ slice_set self.old atom true }
    {
        self.stamps[atom] = self.present;
        let _ = self.atoms.push(atom);
    }

    pub(crate) fn contains(&self, atom: usize) -> bool
        requires { atom < length self.now }
        ensures { result ≡ slice_index_or self.now atom false }
    {
        self.stamps[atom] == self.present
    }

    // The atoms that are seen, for who raises their activity.
    pub(crate) fn atoms(&self) -> &[usize] {
        self.atoms.as_slice()
    }

    // An atom of the level is seen.
    pub(crate) fn see_level(&mut self, level: usize)
        ensures { self.new ≡ self.old }
    {
        self.memo.see_level(level);
    }

    // Whether an atom of the level is seen.
    pub(crate) fn has_level(&self, level: usize) -> bool {
        self.memo.has_level(level)
    }

    // Notes whether the atom follows from those that are seen.
    pub(crate) fn find(&mut self, atom: usize, follows: bool)
        ensures { self.new ≡ self.old }
    {
        self.memo.find(atom, follows);
    }

    // Whether the atom follows from those that are seen, where that was noted.
    pub(crate) fn follows_if_known(&self, atom: usize) -> Option<bool> {
        self.memo.follows_if_known(atom)
    }
}
