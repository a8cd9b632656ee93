// A list that begins in place. A vector takes 24 bytes where it is empty, and 32 more for its first item.
ghost use Rattle.std.specs.Prelude.{◌≡◌, ◌↔◌, IsTrue, [], ◌∷◌, ◌++◌, ◌<◌, length, IfOk, OnOk, OnErr, Some, slice_get, slice_set};
ghost use Rattle.std.specs.List.{swap_remove};
ghost use Rattle.compact_lists.specs.Items.{items_of};

use inst_logic::Memory;
use std::alloc::Global;
use std::marker::Model;

// The items: none, the only one, or all. A list that had more than one stays a vector.
#[derive(Drop)]
pub enum Items<T> {
    Empty,
    One([T; 1]),
    Many(Box<Vec<T>>),
}

/// A list of values. Contracts see it as the list of what they see of each value. With items of at most eight bytes it takes
/// sixteen, and no memory besides before it gets a second item.
#[derive(Drop)]
pub struct ShortList<T> {
    alloc: Global,
    items: Items<T>,
}

impl<T> Model for ShortList<T> {
    ghost use Rattle.std.specs.Prelude.{List};
    ghost use Rattle.compact_lists.specs.Items.{items_of};

    ghost Value = { List T };

    ghost view = { λ l. items_of l.items };
}

// The first two items in a vector of their own.
fn pair_of<T: Copy + Drop>(alloc: Global, first: T, second: T) -> Result<Box<Vec<T>>, Memory>
    ensures { IfOk result (λ b. b.value.items ≡ first ∷ second ∷ []) }
{
    let mut all = Vec::new(alloc);
    all.push(first)?;
    all.push(second)?;
    Ok(Box::new(alloc, all)?)
}

impl<T: Copy + Drop> ShortList<T> {
    /// An empty one, which takes no memory. It keeps the allocator for what is pushed.
    pub fn new(alloc: Global) -> Self
        ensures { result ≡ [] }
    {
        ShortList {
            alloc,
            items: Items::Empty,
        }
    }

    /// The items in their order.
    pub fn as_slice(&self) -> &[T]
        ensures { result.now ≡ self.now }
    {
        match &self.items {
            Items::Empty => &[],
            Items::One(item) => item,
            Items::Many(all) => all.as_slice(),
        }
    }

    /// How many items.
    pub fn len(&self) -> usize
        ensures { result ≡ length self.now }
    {
        self.as_slice().len()
    }

    /// Whether there is no item.
    pub fn is_empty(&self) -> bool
        ensures { IsTrue result ↔ (self.now ≡ []) }
    {
        self.as_slice().is_empty()
    }

    /// The item at the place, counted from 0.
    pub fn at(&self, place: usize) -> T
        requires { place < length self.now }
        ensures { slice_get self.now place ≡ Some result }
    {
        self.as_slice()[place]
    }

    /// Puts `x` at the end. Where memory is refused nothing is changed.
    pub fn push(&mut self, x: T) -> Result<(), Memory>
        ensures ok { OnOk result (self.new ≡ self.old ++ x ∷ []) }
        ensures err { OnErr result (self.new ≡ self.old) }
    {
        match &mut self.items {
            Items::Empty => {
                self.items = Items::One([x]);
                Ok(())
            }
            Items::One(item) => {
                let all = pair_of(self.alloc, item[0], x)?;
                self.items = Items::Many(all);
                Ok(())
            }
            Items::Many(all) => Ok(all.push(x)?),
        }
    }

    /// Puts `x` at the place of another item.
    pub fn put(&mut self, place: usize, x: T)
        requires { place < length self.old }
        ensures { self.new ≡ slice_set self.old place x }
    {
        match &mut self.items {
            Items::Empty => {}
            Items::One(item) => item[0] = x,
            Items::Many(all) => all[place] = x,
        }
    }

    /// Takes the item at the place out, and puts the last one there.
    pub fn swap_remove(&mut self, place: usize) -> T
        requires { place < length self.old }
        ensures value { slice_get self.old place ≡ Some result }
        ensures items { self.new ≡ swap_remove self.old place result }
    {
        match &mut self.items {
            Items::Empty => unreachable!(),
            Items::One(item) => {
                let only = item[0];
                self.items = Items::Empty;
                only
            }
            Items::Many(all) => all.swap_remove(place),
        }
    }
}
