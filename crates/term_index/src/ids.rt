// The ids of a query's nodes, each once, numbered in the order in which they are met.
ghost use Rattle.std.specs.Prelude.{◌≡◌, ◌<◌, ◌∷◌, [], length, nat_eq, position, IfOk};
ghost use Rattle.std.specs.List.{IsDistinct};
ghost use Rattle.term_index.specs.Copies.{id_of, CopiesOne};

use indexmap::IndexSet;
use inst_logic::Memory;
use std::alloc::Global;
use std::marker::Model;
use term_bank::TermId;

// At most this many ids are looked at one by one, and take no memory besides: for them a set would cost more than it saves. Most
// queries have fewer nodes, so the lists of a walk begin with room for as many.
pub const FEW: usize = 8;

// The first few ids, and a set of those after them. Contracts see one list.
#[derive(Drop)]
pub struct Ids {
    first: [TermId; FEW],
    count: usize,
    later: IndexSet<TermId>,
}

impl Model for Ids {
    ghost use Rattle.std.specs.Prelude.{◌≡◌, ◌<◌, ◌≤◌, ◌++◌, ℕ, List, [], length, nat_eq, take};
    ghost use Rattle.std.specs.List.{IsDistinct};

    ghost Value = { List ℕ };

    ghost view = { λ i. take i.count i.first ++ i.later.keys };

    ghost invariant = { λ i. (length i.first ≡ 8) × (i.count ≤ 8) × (i.count < 8 → i.later.keys ≡ []) × IsDistinct nat_eq (take i.count i.first ++ i.later.keys) };
}

// The id's place, where it is there.
fn place_of(ids: &[TermId], id: TermId) -> Option<usize>
    ensures { result ≡ position (nat_eq id) ids.now }
{
    ids.iter().position(|other| id == *other)
}

impl Ids {
    // One id.
    pub fn new(alloc: Global, id: TermId) -> Ids
        ensures { result ≡ id ∷ [] }
    {
        Ids {
            first: [id; FEW],
            count: 1,
            later: IndexSet::new(alloc),
        }
    }

    pub fn len(&self) -> usize
        ensures len { result ≡ length self.now }
        ensures unique { IsDistinct nat_eq self.now }
    {
        self.count + self.later.len()
    }

    // The id of this number.
    pub fn id_at(&self, number: usize) -> TermId
        requires { number < length self.now }
        ensures { result ≡ id_of self.now number }
    {
        if number < self.count {
            return self.first[number];
        }
        match self.later.get_index(number - self.count) {
            Some(id) => *id,
            None => unreachable!(),
        }
    }

    // The number of the id. A new one goes last.
    pub fn number_of(&mut self, id: TermId) -> Result<usize, Memory>
        ensures { IfOk result (CopiesOne self.old self.new id) }
    {
        if let Some(number) = place_of(&self.first[..self.count], id) {
            return Ok(number);
        }
        let count = self.count + self.later.len();
        if count < FEW {
            self.first[count] = id;
            self.count = count + 1;
            return Ok(count);
        }
        let (place, _) = self.later.insert_full(id)?;
        Ok(FEW + place)
    }
}
