// The learned clauses that propagation looks at, and which of them are forgotten: those that conflicts met least of late (Eén
// and Sörensson, An extensible SAT-solver, 2003). How many may be kept goes with the number of the added clauses, and rises by
// a tenth after a hundred conflicts, after half as many more, and so on: where it rises each time that some are forgotten,
// nearly all of them are kept in a long search, and propagation pays for each.

use crate::clause_activity::ClauseActivity;
use crate::packed_hint::PackedHint;
use cdcl_trail::Clauses;
use inst_logic::Memory;
use std::alloc::Global;

// Clauses of so few literals are not listed, and so kept.
const SHORT: usize = 2;

// None is forgotten before there are so many, and one for each three added clauses; then it is a half of them.
const FIRST: usize = 300;

const ADDED: usize = 3;

// At first the limit rises after so many conflicts.
const CONFLICTS: u64 = 100;

// A learned clause, by the number of its step and the trail's number of it. Those that are to be kept come first.
#[derive(Clone, Copy, Debug, PartialEq, Eq, PartialOrd, Ord)]
pub(crate) struct Rank {
    unused: u64,
    step: u32,
    number: u32,
}

impl Rank {
    // The trail's number of the clause.
    pub(crate) fn number(&self) -> usize {
        self.number as usize
    }
}

// No clause has number 0.
const NO_RANK: Rank = Rank {
    unused: 0,
    step: 0,
    number: 0,
};

// The ranks of the clauses, and how many there may be before some are forgotten. Those in `passed` were to be forgotten, but
// were reasons; they come back to the others when these are sorted next. `conflicts` were counted; after `due` more the limit
// rises, and then after `span` of them.
#[derive(Drop)]
pub(crate) struct Learned {
    ranks: Vec<Rank>,
    passed: Vec<Rank>,
    activity: ClauseActivity,
    limit: usize,
    pub(crate) conflicts: u64,
    due: u64,
    span: u64,
}

impl Learned {
    pub(crate) fn new(alloc: Global) -> Learned {
        Learned {
            ranks: Vec::new(alloc),
            passed: Vec::new(alloc),
            activity: ClauseActivity::new(alloc),
            limit: FIRST,
            conflicts: 0,
            due: CONFLICTS,
            span: CONFLICTS,
        }
    }

    // No clauses again. The conflicts stay counted.
    pub(crate) fn begun_anew(&self, alloc: Global) -> Learned {
        let mut learned = Learned::new(alloc);
        learned.conflicts = self.conflicts;
        learned
    }

    // Counts the conflict that a step of these hints answered, and lists the step's clause if it may be forgotten.
    pub(crate) fn push(
        &mut self,
        step: usize,
        number: usize,
        literals: usize,
        hints: &[PackedHint],
    ) -> Result<(), Memory> {
        self.activity.see(step, hints);
        self.count();
        if literals <= SHORT {
            return Ok(());
        }
        self.list(step, number)
    }

    // Lists the clause of the step. One of a higher number than 32 bits have is not listed, and so never forgotten.
    fn list(&mut self, step: usize, number: usize) -> Result<(), Memory> {
        if let (Ok(step), Ok(number)) = (u32::try_from(step), u32::try_from(number)) {
            self.ranks.push(Rank {
                unused: 0,
                step,
                number,
            })?;
        }
        Ok(())
    }

    // Counts a conflict.
    fn count(&mut self) {
        self.conflicts = self.conflicts.saturating_add(1);
        self.due = self.due.saturating_sub(1);
        if self.due == 0 {
            self.span = self.span.saturating_add(self.span / 2);
            self.due = self.span;
            self.limit = self.limit.saturating_add(self.limit / 10);
        }
    }

    // Puts those that were passed back to the others. One that finds no room is not listed any more, and so never forgotten.
    fn take_passed(&mut self) {
        for _ in 0..self.passed.len() {
            let rank = self.passed.pop().unwrap_or(NO_RANK);
            if self.ranks.push(rank).is_err() {
                return;
            }
        }
    }

    // Gives each clause its rank by what was seen of it.
    fn rank_all(&mut self) {
        for place in 0..self.ranks.len() {
            if place < self.ranks.len() {
                let rank = self.ranks[place];
                let unused = u64::MAX - self.activity.count(rank.step as usize);
                self.ranks[place] = Rank { unused, ..rank };
            }
        }
    }

    // How many of the clauses are to be forgotten, where so many were added and so many literals have values. They are the last
    // ones then.
    pub(crate) fn sort(&mut self, added: usize, assigned: usize) -> usize {
        self.limit = self.limit.max(added / ADDED);
        let listed = self.ranks.len().saturating_add(self.passed.len());
        if listed < self.limit.saturating_add(assigned) {
            return 0;
        }
        self.take_passed();
        self.rank_all();
        if self.ranks.sort().is_err() {
            return 0;
        }
        self.ranks.len() / 2
    }

    // Takes the last clause out.
    pub(crate) fn pop(&mut self) -> Rank {
        self.ranks.pop().unwrap_or(NO_RANK)
    }

    // Lists a clause that was taken out again, if it is still there. Without room for it, it is never forgotten.
    pub(crate) fn list_again(&mut self, rank: Rank, clauses: &Clauses) {
        if clauses.get(rank.number()).is_none() {
            return;
        }
        let _ = self.passed.push(rank);
    }
}
