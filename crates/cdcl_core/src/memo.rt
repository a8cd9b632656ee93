// What minimising a learned clause finds: which levels have a seen atom, and which atoms that are not seen follow from those that are
// (Sörensson and Biere, Minimizing learned clauses, 2009). It is emptied by one addition. Nothing is proved of it, since it only
// decides which literals a clause loses.

use inst_logic::Memory;
use std::alloc::Global;

// What was found of an atom in the analysis of this stamp.
#[derive(Clone, Copy, Debug, PartialEq, Eq)]
struct Finding {
    stamp: u32,
    follows: bool,
}

const NO_FINDING: Finding = Finding {
    stamp: 0,
    follows: false,
};

// A level has a seen atom, and a finding counts, where its stamp is the present one.
#[derive(Drop)]
pub(crate) struct Memo {
    present: u32,
    levels: Vec<u32>,
    findings: Vec<Finding>,
}

impl Memo {
    pub(crate) fn new(alloc: Global) -> Memo {
        Memo {
            present: 1,
            levels: Vec::new(alloc),
            findings: Vec::new(alloc),
        }
    }

    // Makes room for one atom more, and so for one level more.
    pub(crate) fn grow(&mut self) -> Result<(), Memory> {
        self.levels.push(0)?;
        self.findings.push(NO_FINDING)?;
        Ok(())
    }

    // Forgets all. Stamps are set anew only once in 2^32 calls.
    pub(crate) fn clear(&mut self) {
        if self.present < u32::MAX {
            self.present += 1;
        } else {
            self.levels.fill(0);
            self.findings.fill(NO_FINDING);
            self.present = 1;
        }
    }

    // An atom of the level is seen.
    pub(crate) fn see_level(&mut self, level: usize) {
        if level < self.levels.len() {
            self.levels[level] = self.present;
        }
    }

    // Whether an atom of the level is seen.
    pub(crate) fn has_level(&self, level: usize) -> bool {
        self.levels.get(level).copied() == Some(self.present)
    }

    // Notes whether the atom follows from seen ones.
    pub(crate) fn find(&mut self, atom: usize, follows: bool) {
        if atom < self.findings.len() {
            self.findings[atom] = Finding {
                stamp: self.present,
                follows,
            };
        }
    }

    // Whether the atom follows from seen ones, where that is known.
    pub(crate) fn follows_if_known(&self, atom: usize) -> Option<bool> {
        let finding = self.findings.get(atom).copied().unwrap_or(NO_FINDING);
        (finding.stamp == self.present).then_some(finding.follows)
    }
}
