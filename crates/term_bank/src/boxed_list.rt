// A list behind one pointer: it takes eight bytes where it stands, and a vector would take 24 there.
ghost use Rattle.std.specs.Prelude.{◌≡◌, [], IfOk, OnOk};
ghost use Rattle.std.proofs.Common.{rules};
ghost use Rattle.std.specs.Cmp.Lexicographic.{pointwise};
ghost use Rattle.std.specs.Cmp.Rules.{comparing};
ghost use Rattle.std.specs.Hash as fed;
ghost use Rattle.std.specs.Hash.{items_Alike};

use inst_logic::Memory;
use std::alloc::Global;
use std::hash::{Hash, Hasher};
use std::marker::Model;

// A list of values. Contracts see it as the list of what they see of each value.
#[derive(Drop, Debug)]
pub struct BoxedList<T> {
    items: Box<Vec<T>>,
}

impl<T> Model for BoxedList<T> {
    ghost use Rattle.std.specs.Prelude.{List};

    ghost Value = { List T };

    ghost view = { λ l. l.items.value.items };
}

const _: () = prove!(size_of::<BoxedList<u32>>() == 8);

impl<T: Copy + Drop> BoxedList<T> {
    // An empty one.
    pub fn new(alloc: Global) -> Result<Self, Memory>
        ensures { IfOk result (λ list. list ≡ []) }
    {
        let items = Box::new(alloc, Vec::new(alloc))?;
        Ok(BoxedList { items })
    }

    // A list of these values, with no room for more.
    pub fn of_slice(alloc: Global, values: &[T]) -> Result<Self, Memory>
        ensures { IfOk result (λ list. list ≡ values.now) }
    {
        let items = Box::new(alloc, Vec::from_slice(alloc, values)?)?;
        Ok(BoxedList { items })
    }

    // Puts these values in place of all others. It takes no memory where the list had as many at some time.
    pub fn fill(&mut self, values: &[T]) -> Result<(), Memory>
        ensures { OnOk result (self.new ≡ values.now) }
    {
        self.items.clear();
        self.items.extend_from_slice(values)?;
        Ok(())
    }

    // The values in their order.
    pub fn as_slice(&self) -> &[T]
        ensures { result.now ≡ self.now }
    {
        self.items.as_slice()
    }
}

impl<T: PartialEq> PartialEq for BoxedList<T> {
    ghost eq = { pointwise T.eq };

    ghost laws = { Prim.search (comparing, rules) };

    fn eq(&self, other: &BoxedList<T>) -> bool {
        self.items.as_slice() == other.items.as_slice()
    }
}

impl<T: Eq> Eq for BoxedList<T> {
    ghost laws = { Prim.search (comparing, rules) };
}

impl<T: Hash> Hash for BoxedList<T> {
    ghost hash_input = { λ l. fed.slice T.hash_input l };

    ghost respects_eq = { (items_Alike (record { fed = T.respects_eq })).fed };

    fn hash<H: Hasher>(&self, state: &mut H) {
        self.items.as_slice().hash(state);
    }
}
