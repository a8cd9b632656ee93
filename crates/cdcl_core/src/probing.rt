// Failed literals, before a search: where a literal alone leads to a conflict by propagation, a clause of one literal is learned
// from the conflict (Freeman, Improvements to propositional satisfiability search algorithms, 1995; Le Berre, Exploiting the real
// power of unit propagation lookahead, 2001; Lynce and Marques-Silva, Probing-based preprocessing techniques for propositional
// satisfiability, 2003). This goes on until no literal fails, for too long without one that does, or for too long in all. Only
// literals that make some added clause unit are probed: propagation finds nothing from the others.
ghost use Rattle.std.specs.Prelude.{◌≡◌, ◌<◌, [], None, IfOk, IfSome};
ghost use Rattle.prop_logic.specs.Literal.{AtomsBelow, AllAtomsBelow};
ghost use Rattle.cdcl_trail.specs.Trail.{IsTrail, level_of};
ghost use Rattle.cdcl_core.specs.Search.{IsKept, IsSearch, IsSameProblem, IsProbed};

use crate::analysis::literal_at;
use crate::search::Search;
use cdcl_trail::Trail;
use compact_lists::{FlatClauses, PackedLit};
use inst_logic::Memory;
use prop_logic::{Answer, Lit, complement};
use std::alloc::Global;

// Between two that fail, so many literals are propagated at most for each atom and each added clause.
const PATIENCE: usize = 5;

// In all, so many literals are propagated at most, also where some fail.
const MOST: usize = 10_000_000;

// A literal is probed at most so many times, in the mean of all.
const TURNS: usize = 100;

// No trail has so many literals.
const NEVER: usize = usize::MAX;

// What is kept of each literal: whether it is probed, and how many facts there were when it was seen last not to fail. As long as
// there are no more, it does not.
#[derive(Clone, Copy)]
struct Probed {
    candidate: bool,
    settled: usize,
}

// The literals by their numbers, 2 a for the negative and 2 a + 1 for the positive one of atom a. In rounds each is probed that is a
// candidate; those of this round were found where there were `facts` facts, and the next one is looked for from `number` on. So
// many literals as `left` says may still be propagated, as `patience` says after one fails, and never more than `most`.
#[derive(Drop)]
pub(crate) struct Probing {
    literals: Vec<Probed>,
    number: usize,
    facts: usize,
    patience: usize,
    left: usize,
    most: usize,
}

fn number_of(lit: Lit) -> usize {
    let number = lit.atom.saturating_mul(2);
    if lit.positive {
        return number.saturating_add(1);
    }
    number
}

// How many literals of the clause have no value; 0 where one is true.
fn open_count(trail: &Trail, clause: &[PackedLit]) -> usize
    requires { AtomsBelow trail.now.trail.atoms clause.now }
{
    let mut count: usize = 0;
    for packed in clause {
        match trail.value(packed.lit()) {
            None => count = count.saturating_add(1),
            Some(true) => return 0,
            Some(false) => {}
        }
    }
    count
}

impl Probing {
    fn new(alloc: Global, atoms: usize, clauses: usize) -> Result<Probing, Memory> {
        let mut literals = Vec::new(alloc);
        for _ in 0..atoms.saturating_mul(2) {
            literals.push(Probed {
                candidate: false,
                settled: NEVER,
            })?;
        }
        let patience = atoms.saturating_add(clauses).saturating_mul(PATIENCE);
        Ok(Probing {
            literals,
            number: 0,
            facts: NEVER,
            patience,
            left: patience.min(MOST),
            most: MOST,
        })
    }

    // Probes the literal from now on.
    fn add_candidate(&mut self, lit: Lit) {
        let number = number_of(lit);
        if number < self.literals.len() {
            self.literals[number].candidate = true;
        }
    }

    // The literals that make the clause unit are candidates.
    fn see_clause(&mut self, trail: &Trail, clause: &[PackedLit])
        requires { AtomsBelow trail.now.trail.atoms clause.now }
    {
        if open_count(trail, clause) != 2 {
            return;
        }
        for packed in clause {
            self.add_candidate(complement(packed.lit()));
        }
    }

    // The literals that make some clause unit are candidates.
    fn see_clauses(&mut self, trail: &Trail, added: &FlatClauses)
        requires { AllAtomsBelow trail.now.trail.atoms added.now }
    {
        for place in 0..added.len() {
            if let Some(clause) = added.get(place) {
                self.see_clause(trail, clause);
            }
        }
    }

    // Begins a round where there are so many facts. Nothing is left if there were as many when the last one began.
    fn begin_round(&mut self, trail: &Trail, added: &FlatClauses, facts: usize)
        requires { AllAtomsBelow trail.now.trail.atoms added.now }
    {
        if self.facts == facts {
            self.left = 0;
            return;
        }
        self.facts = facts;
        self.see_clauses(trail, added);
        self.spend(added.len());
    }

    // Whether the literal of this number may fail, where there are so many facts.
    fn may_fail(&self, number: usize, facts: usize) -> bool {
        match self.literals.get(number) {
            Some(literal) => literal.candidate && literal.settled != facts,
            None => false,
        }
    }

    // The next literal of the round that may fail, where there are so many facts.
    fn next(&mut self, trail: &Trail, atoms: usize, facts: usize) -> Option<Lit>
        requires { atoms ≡ trail.now.trail.atoms }
        ensures { IfSome result (λ l. (l.atom < trail.now.trail.atoms) × (level_of trail.now.trail.entries l.atom ≡ None)) }
    {
        for number in self.number..self.literals.len() {
            let atom = number / 2;
            if atom < atoms && self.may_fail(number, facts) && trail.level_of(atom).is_none() {
                self.number = number;
                let positive = number % 2 == 1;
                return Some(Lit { positive, atom });
            }
        }
        self.number = 0;
        None
    }

    // None of the literals of the trail fails, where the first `facts` of them are facts.
    fn settle(&mut self, trail: &Trail, facts: usize) {
        for place in facts..trail.assigned().len() {
            let number = number_of(literal_at(trail, place));
            if number < self.literals.len() {
                self.literals[number].settled = facts;
            }
        }
    }

    // How often a literal is probed at most.
    fn turns(&self) -> usize {
        self.literals.len().saturating_mul(TURNS)
    }

    // Counts what was propagated.
    fn spend(&mut self, literals: usize) {
        self.most = self.most.saturating_sub(literals);
        self.left = self.left.saturating_sub(literals);
    }

    // Counts what was propagated to a conflict, from which on there is patience again.
    fn renew(&mut self, literals: usize) {
        self.most = self.most.saturating_sub(literals);
        self.left = self.patience.min(self.most);
    }
}

impl Search {
    // Takes the probed literal back. Neither the values that atoms had last nor their order learn of it.
    fn unprobe(&mut self)
        requires kept { IsKept self.old }
        requires trail { IsTrail self.old.trail.trail }
        ensures search { IsSearch [] self.new }
        ensures same { IsSameProblem self.old self.new }
    {
        self.trail.back_to(0);
        self.phases.cut(&self.trail);
        self.assumed = 0;
        self.checked = 0;
    }

    // Learns from the literal, if it fails.
    fn probe(&mut self, probing: &mut Probing, lit: Lit) -> Result<Option<Answer>, Memory>
        requires search { IsSearch [] self.old }
        requires atom { lit.atom < self.old.trail.trail.atoms }
        requires open { level_of self.old.trail.trail.entries lit.atom ≡ None }
        ensures probed { IfOk result (IsProbed [] self.old self.new) }
        ensures added { self.new.log.added ≡ self.old.log.added }
    {
        let facts = self.trail.assigned().len();
        self.trail.decide(lit);
        let conflict = self.trail.propagate(&self.clauses)?;
        let count = self.trail.assigned().len();
        match conflict {
            Some(number) => {
                probing.renew(count.saturating_sub(facts));
                self.resolve(number)
            }
            None => {
                probing.spend(count.saturating_sub(facts));
                probing.settle(&self.trail, facts);
                self.unprobe();
                Ok(None)
            }
        }
    }

    // Learns from the next literal, if it fails. Where there is none, another round begins.
    fn probe_next(&mut self, probing: &mut Probing) -> Result<Option<Answer>, Memory>
        requires search { IsSearch [] self.old }
        ensures probed { IfOk result (IsProbed [] self.old self.new) }
        ensures added { self.new.log.added ≡ self.old.log.added }
    {
        let atoms = self.phases.values.len();
        let facts = self.trail.assigned().len();
        match probing.next(&self.trail, atoms, facts) {
            Some(lit) => self.probe(probing, lit),
            None => {
                probing.begin_round(&self.trail, &self.log.added, facts);
                Ok(None)
            }
        }
    }

    // Propagates all that is known, and then probes the next literal.
    fn probe_stable(&mut self, probing: &mut Probing) -> Result<Option<Answer>, Memory>
        requires search { IsSearch [] self.old }
        ensures probed { IfOk result (IsProbed [] self.old self.new) }
        ensures added { self.new.log.added ≡ self.old.log.added }
    {
        let conflict = self.trail.propagate(&self.clauses)?;
        let _ = self.trail.assigned();
        match conflict {
            Some(number) => self.resolve(number),
            None => self.probe_next(probing),
        }
    }

    // Learns from all literals that fail.
    fn probe_all(&mut self) -> Result<Option<Answer>, Memory>
        requires search { IsSearch [] self.old }
        ensures probed { IfOk result (IsProbed [] self.old self.new) }
        ensures added { self.new.log.added ≡ self.old.log.added }
    {
        let clauses = self.log.added.len();
        let mut probing = Probing::new(self.alloc, self.phases.values.len(), clauses)?;
        for _ in 0..probing.turns() {
            if probing.left == 0 {
                return Ok(None);
            }
            if let Some(answer) = self.probe_stable(&mut probing)? {
                return Ok(Some(answer));
            }
        }
        Ok(None)
    }

    // Learns from all literals that fail, where the search is one that probes, and nothing is assumed.
    pub(crate) fn probe_where_due(&mut self, assumptions: &[Lit]) -> Result<Option<Answer>, Memory>
        requires search { IsSearch assumptions.now self.old }
        ensures probed { IfOk result (IsProbed assumptions.now self.old self.new) }
        ensures added { self.new.log.added ≡ self.old.log.added }
    {
        if !self.settings.probes || !assumptions.is_empty() {
            return Ok(None);
        }
        self.probe_all()
    }
}
