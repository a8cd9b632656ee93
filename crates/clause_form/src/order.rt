// The variables that a walk meets, in the order of their first occurrences.
ghost use Rattle.std.specs.Prelude.{◌≡◌, [], position, IfOk, OnOk};
ghost use Rattle.clause_form.specs.Orders.{is_variable, with_variable, number_in};

use indexmap::IndexSet;
use inst_logic::Memory;
use std::alloc::Global;
use std::marker::Model;
use unify_core::Variable;

// At most this many variables are looked at one by one: for them a set would cost more than it saves. Most clauses have fewer.
const FEW: usize = 8;

// Variables in the order in which they were met, each once: the first few in a list, those after them in a set. Contracts see
// one list. Nothing is allocated before a variable is met, and no set where they are few.
#[derive(Drop)]
pub struct Order {
    first: Vec<Variable>,
    later: IndexSet<Variable>,
}

impl Model for Order {
    ghost use Rattle.std.specs.Prelude.{◌≡◌, ◌<◌, ◌≤◌, ◌++◌, List, [], length};
    ghost use Rattle.unify_core.specs.declared.side.Variable.{Variable};

    ghost Value = { List Variable };

    ghost view = { λ o. o.first.items ++ o.later.keys };

    ghost invariant = { λ o. (length o.first.items ≤ 8) × (length o.first.items < 8 → o.later.keys ≡ []) };
}

// The variable's place, where it is there.
fn place_of(variables: &[Variable], v: Variable) -> Option<usize>
    ensures { result ≡ position (is_variable v) variables.now }
{
    variables.iter().position(|w| v == *w)
}

impl Order {
    pub fn new(alloc: Global) -> Order
        ensures { result ≡ [] }
    {
        Order {
            first: Vec::new(alloc),
            later: IndexSet::new(alloc),
        }
    }

    // Forgets the variables. There stays room for the first few.
    pub fn clear(&mut self, alloc: Global)
        ensures { self.new ≡ [] }
    {
        self.first.clear();
        self.later = IndexSet::new(alloc);
    }

    // The variable's number, from 0. A new one goes last.
    pub fn number_of(&mut self, v: Variable) -> Result<usize, Memory>
        ensures met { OnOk result (self.new ≡ with_variable self.old v) }
        ensures number { IfOk result (λ n. n ≡ number_in self.old v) }
    {
        if let Some(number) = place_of(&self.first, v) {
            return Ok(number);
        }
        let count = self.first.len() + self.later.len();
        if count < FEW {
            self.first.push(v)?;
            return Ok(count);
        }
        let (place, _) = self.later.insert_full(v)?;
        Ok(FEW + place)
    }
}
