// The passive entries of a saturation loop: those that wait to be worked. What came since the last solve has no selected literal
// yet, so it waits apart until it is let in.
ghost use Rattle.std.specs.Prelude.{◌≡◌, [], ◌∷◌, ◌++◌, IfSome, IfNone, OnOk, OnErr};
ghost use Rattle.instgen_select.specs.Queues.{IsTakenOut};
ghost use Rattle.instgen_select.specs.Passives.{ready_of, fresh_of, IsLetGo};

use crate::queue::Queue;
use crate::turns::{Arrival, Turns};
use inst_logic::Memory;
use std::alloc::Global;
use std::collections::VecDeque;
use std::marker::Model;

// What may be picked.
#[derive(Drop)]
pub(crate) enum Ready {
    ByAge(Queue),
    ByTurns(Turns),
}

impl Ready {
    fn put(&mut self, arrival: &Arrival) -> Result<(), Memory>
        ensures ok { OnOk result (ready_of self.new ≡ ready_of self.old ++ (arrival.now.number, arrival.now.size) ∷ []) }
        ensures err { OnErr result (ready_of self.new ≡ ready_of self.old) }
    {
        match self {
            Ready::ByAge(queue) => queue.append(arrival.number, arrival.size),
            Ready::ByTurns(turns) => turns.put(arrival),
        }
    }

    fn pick(&mut self) -> Option<usize>
        ensures none { IfNone result (ready_of self.old ≡ []) }
        ensures same { IfNone result (ready_of self.new ≡ ready_of self.old) }
        ensures some { IfSome result (λ number. IsTakenOut (ready_of self.old) (ready_of self.new) number) }
    {
        match self {
            Ready::ByAge(queue) => queue.pick(),
            Ready::ByTurns(turns) => turns.pick(),
        }
    }
}

// Lets in all that waits apart. What is refused stays where it was, and what comes after it.
fn admit_all(ready: &mut Ready, fresh: &mut VecDeque<Arrival>) -> Result<(), Memory>
    ensures items { ready_of ready.new ++ fresh_of fresh.new.items ≡ ready_of ready.old ++ fresh_of fresh.old.items }
    ensures all { OnOk result (fresh.new.items ≡ []) }
{
    while let Some(arrival) = fresh.front() {
        ready.put(arrival)?;
        fresh.pop_front();
    }
    Ok(())
}

/// Numbers with their sizes that wait. Those that were put after the last `admit` wait apart, and are not picked.
#[derive(Drop)]
pub struct Passive {
    ready: Ready,
    fresh: VecDeque<Arrival>,
    generations: Vec<u32>,
    picks: u32,
}

impl Model for Passive {
    ghost use Rattle.std.specs.Prelude.{◌++◌};
    ghost use Rattle.instgen_select.specs.Passives.{Passive_list, ready_of, fresh_of};

    ghost Value = { Passive_list };

    ghost view = { λ p. record { items = ready_of p.ready ++ fresh_of p.fresh.items; ready = ready_of p.ready } };
}

impl Passive {
    fn new(alloc: Global, ready: Ready) -> Passive
        requires { ready_of ready ≡ [] }
        ensures { result ≡ record { items = []; ready = [] } }
    {
        Passive {
            ready,
            fresh: VecDeque::new(alloc),
            generations: Vec::new(alloc),
            picks: 0,
        }
    }

    /// Nothing waits. The picks are those of a `Queue`, so that none waits forever.
    pub fn by_age(alloc: Global) -> Passive
        ensures { result ≡ record { items = []; ready = [] } }
    {
        Passive::new(alloc, Ready::ByAge(Queue::new(alloc)))
    }

    /// Nothing waits. The picks are those of `Turns`, for numbers of which there are only so many.
    pub fn by_turns(alloc: Global) -> Passive
        ensures { result ≡ record { items = []; ready = [] } }
    {
        Passive::new(alloc, Ready::ByTurns(Turns::new(alloc)))
    }

    // How many picks were made when the number came first.
    fn generation_of(&mut self, number: usize) -> Result<u32, Memory>
        ensures { self.new ≡ self.old }
    {
        if let Some(known) = self.generations.get(number.saturating_sub(1)) {
            return Ok(*known);
        }
        self.generations.push(self.picks)?;
        Ok(self.picks)
    }

    /// Puts the number, with the size and the number of variables of its clause, at the end and apart. Numbers come first in order,
    /// from 1: else picks by turns come in another order, and no clause is broken. After want of memory it is not there, what was
    /// there is, and a later `put` may be answered.
    pub fn put(&mut self, number: usize, size: u64, variables: usize) -> Result<(), Memory>
        ensures ok { OnOk result (self.new.items ≡ self.old.items ++ (number, size) ∷ []) }
        ensures err { OnErr result (self.new.items ≡ self.old.items) }
        ensures ready { self.new.ready ≡ self.old.ready }
    {
        let generation = self.generation_of(number)?;
        self.fresh.push_back(Arrival {
            number,
            size,
            variables,
            generation,
        })?;
        Ok(())
    }

    /// Lets in all that waits apart. After want of memory some still wait so, nothing is lost, and every later `admit` is refused;
    /// picks go on.
    pub fn admit(&mut self) -> Result<(), Memory>
        ensures items { self.new.items ≡ self.old.items }
        ensures ready { OnOk result (self.new.ready ≡ self.old.items) }
    {
        admit_all(&mut self.ready, &mut self.fresh)
    }

    /// Takes one out of those that do not wait apart. `None` where none does.
    pub fn pick(&mut self) -> Option<usize>
        ensures none { IfNone result (self.old.ready ≡ []) }
        ensures same { IfNone result (self.new ≡ self.old) }
        ensures some { IfSome result (λ number. IsLetGo self.old self.new number) }
    {
        let picked = self.ready.pick();
        if picked.is_some() {
            self.picks = self.picks.saturating_add(1);
        }
        picked
    }
}
