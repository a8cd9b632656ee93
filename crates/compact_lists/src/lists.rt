// Lists in one flat list.
ghost use Rattle.std.specs.Prelude.{◌≡◌, ◌↔◌, ◌++◌, ◌∷◌, [], length, take, slice_get, option_copied, IsTrue, OnOk, OnErr};

use crate::pieces::{keep_pieces, piece, push_piece};
use inst_logic::Memory;
use std::alloc::Global;
use std::marker::Model;

/// Lists, one after the other in one list of items, so that a list takes its items, 4 bytes and no allocation of its own: a list
/// of vectors takes 24 bytes more for it, and what an allocation takes besides. There is room for 2^32 - 1 items.
#[derive(Drop)]
pub struct FlatLists<T> {
    pub(crate) items: Vec<T>,
    pub(crate) ends: Vec<u32>,
}

impl<T> Model for FlatLists<T> {
    ghost use Rattle.std.specs.Prelude.{List, length};
    ghost use Rattle.compact_lists.specs.Pieces.{AreEnds, cuts};

    ghost Value = { List (List T) };

    ghost view = { λ l. cuts l.items.items 0 l.ends.items };

    ghost invariant = { λ l. AreEnds 0 l.ends.items (length l.items.items) };
}

impl<T: Copy + Drop> FlatLists<T> {
    /// No lists, which take no memory.
    pub fn new(alloc: Global) -> Self
        ensures { result ≡ [] }
    {
        FlatLists {
            items: Vec::new(alloc),
            ends: Vec::new(alloc),
        }
    }

    /// How many lists.
    pub fn len(&self) -> usize
        ensures { result ≡ length self.now }
    {
        self.ends.len()
    }

    /// Whether there is no list.
    pub fn is_empty(&self) -> bool
        ensures { IsTrue result ↔ (self.now ≡ []) }
    {
        self.len() == 0
    }

    /// The items of list `i`, counted from 0; `None` past the last.
    pub fn get(&self, i: usize) -> Option<&[T]>
        ensures { option_copied result ≡ slice_get self.now i }
    {
        piece(self.items.as_slice(), self.ends.as_slice(), i)
    }

    /// Puts a copy of the list at the end. Where memory is refused, or there would be more than 2^32 - 1 items, nothing is
    /// changed.
    pub fn push(&mut self, list: &[T]) -> Result<(), Memory>
        ensures ok { OnOk result (self.new ≡ self.old ++ list.now ∷ []) }
        ensures err { OnErr result (self.new ≡ self.old) }
    {
        push_piece(&mut self.items, &mut self.ends, list)
    }

    /// Keeps the first `count` lists, or all where there are no more.
    pub fn truncate(&mut self, count: usize)
        ensures { self.new ≡ take count self.old }
    {
        keep_pieces(&mut self.items, &mut self.ends, count);
    }
}

#[cfg(test)]
mod tests {
    use super::*;

    #[test]
    fn gives_each_list_as_it_was_pushed(rt: HostRuntime) -> Result<(), Memory> {
        let mut lists = FlatLists::new(rt.alloc());
        lists.push(&[3, 5])?;
        lists.push(&[7])?;
        assert_eq!(rt; lists.len(), 2);
        assert!(rt; lists.get(0) == Some(&[3, 5][..]));
        assert!(rt; lists.get(1) == Some(&[7][..]));
        assert!(rt; lists.get(2).is_none());
        lists.truncate(1);
        lists.push(&[9])?;
        assert!(rt; lists.get(0) == Some(&[3, 5][..]));
        assert!(rt; lists.get(1) == Some(&[9][..]));
        Ok(())
    }
}
