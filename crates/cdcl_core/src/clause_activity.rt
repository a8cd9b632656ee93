// The activity of learned clauses (Eén and Sörensson, An extensible SAT-solver, 2003): how often conflicts met the clause of each
// step, where a later conflict counts more. Nothing is proved of the counts.

use crate::packed_hint::PackedHint;
use prop_logic::Hint;
use std::alloc::Global;

const HIGHEST: u64 = 1 << 60;

// The counts by the numbers of steps, and what the next conflict counts.
#[derive(Drop)]
pub(crate) struct ClauseActivity {
    counts: Vec<u64>,
    weight: u64,
}

impl ClauseActivity {
    pub(crate) fn new(alloc: Global) -> ClauseActivity {
        ClauseActivity {
            counts: Vec::new(alloc),
            weight: 1 << 20,
        }
    }

    // What was counted of the step.
    pub(crate) fn count(&self, step: usize) -> u64 {
        self.counts.get(step).copied().unwrap_or(0)
    }

    // Makes all counts smaller; close ones become equal.
    fn shrink(&mut self) {
        for step in 0..self.counts.len() {
            if step < self.counts.len() {
                self.counts[step] = self.counts[step] >> 40;
            }
        }
        self.weight = (self.weight >> 40).max(1);
    }

    // A conflict met the step. One that finds no room is not counted.
    fn raise(&mut self, step: usize) {
        if step >= self.counts.len() {
            return;
        }
        let count = self.counts[step].saturating_add(self.weight);
        self.counts[step] = count;
        if HIGHEST < count {
            self.shrink();
        }
    }

    // Makes room for the count of the step, if there is any.
    fn reach(&mut self, step: usize) {
        let missing = step.saturating_add(1).saturating_sub(self.counts.len());
        for _ in 0..missing {
            if self.counts.push(0).is_err() {
                return;
            }
        }
    }

    // A conflict met these hints, and the step was learned from it.
    pub(crate) fn see(&mut self, step: usize, hints: &[PackedHint]) {
        for hint in hints {
            if let Hint::Step(met) = hint.hint() {
                self.raise(met);
            }
        }
        self.reach(step);
        self.raise(step);
        self.weight = self.weight.saturating_add((self.weight / 1000).max(1));
    }
}
