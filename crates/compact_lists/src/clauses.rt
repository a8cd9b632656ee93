// Clauses in one flat list.
ghost use Rattle.std.specs.Prelude.{◌≡◌, ◌↔◌, ◌++◌, ◌∷◌, [], ◌+◌, ◌<◌, ◌≤◌, ◌^◌, All, length, slice_get, option_copied, vec_len, vec_capacity, IsTrue, OnOk, OnErr};
ghost use Rattle.compact_lists.specs.Pieces.{AreEnds, cuts};

use crate::lists::FlatLists;
use crate::packed::{PackedLit, is_packable, pack};
use crate::pieces::reserve_piece;
use inst_logic::Memory;
use prop_logic::Lit;
use std::alloc::Global;
use std::marker::Model;

/// Clauses, one after the other in one list of packed literals, so that a clause of `n` literals takes 4 * n + 4 bytes and no
/// allocation of its own. There is room for 2^32 - 1 literals, of atoms below 2^31.
#[derive(Drop)]
pub struct FlatClauses {
    lists: FlatLists<PackedLit>,
}

impl Model for FlatClauses {
    ghost use Rattle.std.specs.Prelude.{List, ℕ};
    ghost use Rattle.inst_logic.specs.declared.signed.Signed.{Signed};

    ghost Value = { List (List (Signed ℕ)) };

    ghost view = { λ c. c.lists };
}

fn are_packable(clause: &[Lit]) -> bool
    ensures { IsTrue result → All (λ l. l.atom < 2 ^ 31) clause.now }
{
    for lit in clause {
        if !is_packable(*lit) {
            return false;
        }
    }
    true
}

// Puts the literals behind the others, where there is room for them.
fn push_packed(items: &mut Vec<PackedLit>, clause: &[Lit])
    requires packable { All (λ l. l.atom < 2 ^ 31) clause.now }
    requires room { vec_len items.old + length clause.now ≤ vec_capacity items.old }
    ensures { items.new.items ≡ items.old.items ++ clause.now }
{
    for lit in clause {
        items.push_reserved(pack(*lit));
    }
}

// One more clause, behind the others.
fn push_clause(
    items: &mut Vec<PackedLit>,
    ends: &mut Vec<u32>,
    clause: &[Lit],
) -> Result<(), Memory>
    requires { AreEnds 0 ends.old.items (length items.old.items) }
    ensures ends { AreEnds 0 ends.new.items (length items.new.items) }
    ensures ok { OnOk result (cuts items.new.items 0 ends.new.items ≡ cuts items.old.items 0 ends.old.items ++ clause.now ∷ []) }
    ensures err { OnErr result (cuts items.new.items 0 ends.new.items ≡ cuts items.old.items 0 ends.old.items) }
{
    if !are_packable(clause) {
        return Err(Memory);
    }
    let end = reserve_piece(items, ends, clause.len())?;
    push_packed(items, clause);
    ends.push_reserved(end);
    Ok(())
}

// One more clause in the lists.
fn push_list(lists: &mut FlatLists<PackedLit>, clause: &[Lit]) -> Result<(), Memory>
    ensures ok { OnOk result (lists.new ≡ lists.old ++ clause.now ∷ []) }
    ensures err { OnErr result (lists.new ≡ lists.old) }
{
    push_clause(&mut lists.items, &mut lists.ends, clause)
}

impl FlatClauses {
    /// No clauses, which take no memory.
    pub fn new(alloc: Global) -> Self
        ensures { result ≡ [] }
    {
        FlatClauses {
            lists: FlatLists::new(alloc),
        }
    }

    /// How many clauses.
    pub fn len(&self) -> usize
        ensures { result ≡ length self.now }
    {
        self.lists.len()
    }

    /// Whether there is no clause.
    pub fn is_empty(&self) -> bool
        ensures { IsTrue result ↔ (self.now ≡ []) }
    {
        self.lists.is_empty()
    }

    /// The literals of clause `i`, counted from 0; `None` past the last.
    pub fn get(&self, i: usize) -> Option<&[PackedLit]>
        ensures { option_copied result ≡ slice_get self.now i }
    {
        self.lists.get(i)
    }

    /// Puts a copy of the clause at the end. Where memory is refused, an atom is not below 2^31, or there would be more than
    /// 2^32 - 1 literals, nothing is changed.
    pub fn push(&mut self, clause: &[Lit]) -> Result<(), Memory>
        ensures ok { OnOk result (self.new ≡ self.old ++ clause.now ∷ []) }
        ensures err { OnErr result (self.new ≡ self.old) }
    {
        push_list(&mut self.lists, clause)
    }
}

#[cfg(test)]
mod tests {
    use super::*;
    use crate::literals::Literals;

    const YES: Lit = Lit {
        positive: true,
        atom: 3,
    };

    const NO: Lit = Lit {
        positive: false,
        atom: 5,
    };

    #[test]
    fn gives_each_clause_as_it_was_pushed(rt: HostRuntime) -> Result<(), Memory> {
        let mut clauses = FlatClauses::new(rt.alloc());
        assert!(rt; clauses.is_empty());
        clauses.push(&[YES, NO])?;
        clauses.push(&[])?;
        clauses.push(&[NO])?;
        assert_eq!(rt; clauses.len(), 3);
        let (yes, no) = (PackedLit::of(YES)?, PackedLit::of(NO)?);
        assert!(rt; clauses.get(0) == Some(&[yes, no][..]));
        assert!(rt; clauses.get(1) == Some(&[][..]));
        assert!(rt; clauses.get(2) == Some(&[no][..]));
        assert!(rt; clauses.get(3).is_none());
        Ok(())
    }

    #[test]
    fn refuses_an_atom_without_a_number(rt: HostRuntime) -> Result<(), Memory> {
        let last = Lit {
            positive: true,
            atom: 0x7fff_ffff,
        };
        let more = Lit {
            positive: true,
            atom: 0x8000_0000,
        };
        let mut clauses = FlatClauses::new(rt.alloc());
        assert!(rt; clauses.push(&[more]).is_err());
        assert!(rt; clauses.is_empty());
        clauses.push(&[last])?;
        assert!(rt; PackedLit::of(last)?.lit() == last);
        Ok(())
    }

    #[test]
    fn reads_literals_packed_or_not(rt: HostRuntime) -> Result<(), Memory> {
        let mut clauses = FlatClauses::new(rt.alloc());
        clauses.push(&[YES, NO])?;
        let packed = Literals::of_packed(clauses.get(0).unwrap_or(&[]));
        assert_eq!(rt; packed.len(), 2);
        let clause = [YES, NO];
        let plain = Literals::plain(&clause);
        assert_eq!(rt; plain.len(), 2);
        Ok(())
    }
}
