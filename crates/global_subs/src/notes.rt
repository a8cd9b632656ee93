// Numbers of clauses, noted at literals.
ghost use Rattle.std.specs.Prelude.{◌≡◌, ◌≢◌, ◌+◌, ◌*◌, ◌<◌, ◌≤◌, ◌++◌, ◌∷◌, [], ℕ, length, OnOk, OnErr, Contains};
ghost use Rattle.inst_logic.specs.declared.signed.Signed.{Signed};
ghost use Rattle.compact_lists.specs.Codes.{code_of};
ghost use Rattle.global_subs.specs.Notes.{numbers_at, KeepsNotes, KeepsOthers, IsNotedAt};

use compact_lists::ShortList;
use inst_logic::Memory;
use prop_logic::Lit;
use std::alloc::Global;
use std::marker::Model;

// For each literal a list of numbers: at place 2a those of the negative literal of atom a, and behind it those of the positive
// one. Contracts see the lists in this order.
#[derive(Drop)]
pub struct Notes {
    alloc: Global,
    lists: Vec<ShortList<usize>>,
}

impl Model for Notes {
    ghost use Rattle.std.specs.Prelude.{ℕ, List};

    ghost Value = { List (List ℕ) };

    ghost view = { λ n. n.lists.items };
}

// The place of the literal's list.
fn place_of(l: Lit, len: usize) -> usize
    requires { code_of l < len }
    ensures { result ≡ code_of l }
{
    let _ = len;
    if l.positive {
        l.atom + l.atom + 1
    } else {
        l.atom + l.atom
    }
}

impl Notes {
    // No lists, which take no memory.
    pub fn new(alloc: Global) -> Notes
        ensures { result ≡ [] }
    {
        Notes {
            alloc,
            lists: Vec::new(alloc),
        }
    }

    // Lists for one more atom.
    pub fn grow(&mut self) -> Result<(), Memory>
        ensures ok { OnOk result (self.new ≡ self.old ++ [] ∷ [] ∷ []) }
        ensures err { OnErr result (self.new ≡ self.old) }
    {
        self.lists.reserve(2)?;
        self.lists.push_reserved(ShortList::new(self.alloc));
        self.lists.push_reserved(ShortList::new(self.alloc));
        Ok(())
    }

    // The numbers at the literal.
    pub fn at(&self, l: Lit) -> &[usize]
        requires { code_of l < length self.now }
        ensures { result.now ≡ numbers_at self.now l }
    {
        self.lists[place_of(l, self.lists.len())].as_slice()
    }

    // Puts one more number behind those of the literal.
    fn push(&mut self, l: Lit, number: usize) -> Result<(), Memory>
        requires { code_of l < length self.old }
        ensures len { length self.new ≡ length self.old }
        ensures pushed { OnOk result (numbers_at self.new l ≡ numbers_at self.old l ++ number ∷ []) }
        ensures others { KeepsOthers self.old self.new l }
        ensures held { OnErr result (self.new ≡ self.old) }
    {
        let place = place_of(l, self.lists.len());
        self.lists[place].push(number)
    }

    // Notes one more number at the literal.
    pub fn add(&mut self, l: Lit, number: usize) -> Result<(), Memory>
        requires { code_of l < length self.old }
        ensures len { length self.new ≡ length self.old }
        ensures added { OnOk result (IsNotedAt self.new l number) }
        ensures keeps { KeepsNotes self.old self.new }
        ensures others { KeepsOthers self.old self.new l }
        ensures held { OnErr result (self.new ≡ self.old) }
    {
        self.push(l, number)?;
        Ok(())
    }

    // Takes away what is noted at the literal.
    pub fn clear(&mut self, l: Lit)
        requires { code_of l < length self.old }
        ensures len { length self.new ≡ length self.old }
        ensures others { KeepsOthers self.old self.new l }
    {
        let place = place_of(l, self.lists.len());
        self.lists[place] = ShortList::new(self.alloc);
    }
}
