// The text as it grows, with the room that the walk over a term needs. After want of memory nothing is promised of it.
ghost use Rattle.std.specs.Prelude.{◌≡◌, ◌<◌, ◌++◌, [], OnOk, decimal, length, map};
ghost use Rattle.inst_logic.specs.Tree.{of_list};
ghost use Rattle.inst_logic.specs.Printing.{name_text, tree_text, arguments_text};
ghost use Rattle.term_bank.specs.Forest.{tree_at, AreIds};

use crate::walk::{Step, push_arguments, push_term};
use inst_logic::{ByteList, Memory};
use std::alloc::Global;
use std::marker::Model;
use term_bank::{Bank, TermId};
use tptp_write::{push_bytes, push_name, push_number};

#[derive(Drop)]
pub struct Pen {
    text: Vec<u8>,
    steps: Vec<Step>,
}

impl Model for Pen {
    ghost use Rattle.std.specs.Prelude.{◌≡◌, ℕ, List, []};

    ghost Value = { List ℕ };

    ghost view = { λ p. p.text.items };

    ghost invariant = { λ p. p.steps.items ≡ [] };
}

impl Pen {
    pub fn new(alloc: Global) -> Pen
        ensures { result ≡ [] }
    {
        Pen {
            text: Vec::new(alloc),
            steps: Vec::new(alloc),
        }
    }

    // The text that was written.
    pub fn into_text(self) -> ByteList
        ensures { result ≡ self }
    {
        ByteList::from(self.text)
    }

    // Puts the bytes at the end, as they are.
    pub fn bytes(&mut self, bytes: &[u8]) -> Result<(), Memory>
        ensures { OnOk result (self.new ≡ self.old ++ bytes.now) }
    {
        push_bytes(&mut self.text, bytes)
    }

    // The number, in decimal.
    pub fn number(&mut self, n: usize) -> Result<(), Memory>
        ensures { OnOk result (self.new ≡ self.old ++ decimal n) }
    {
        push_number(&mut self.text, n)
    }

    // The name, bare or in quotes.
    pub fn name(&mut self, name: &[u8]) -> Result<(), Memory>
        ensures { OnOk result (self.new ≡ self.old ++ name_text name.now) }
    {
        push_name(&mut self.text, name)
    }

    // The term, a variable as `X` with its number.
    pub fn term(&mut self, bank: &Bank, id: TermId) -> Result<(), Memory>
        requires { id < length bank.now.trees }
        ensures { OnOk result (self.new ≡ self.old ++ tree_text (tree_at bank.now id)) }
    {
        let result = push_term(bank, &mut self.text, &mut self.steps, id);
        self.steps.truncate(0);
        result
    }

    // The arguments in parentheses, or nothing where there are none.
    pub fn arguments(&mut self, bank: &Bank, ids: &[TermId]) -> Result<(), Memory>
        requires { AreIds bank.now ids.now }
        ensures { OnOk result (self.new ≡ self.old ++ arguments_text (of_list (map (tree_at bank.now) ids.now))) }
    {
        let result = push_arguments(bank, &mut self.text, &mut self.steps, ids);
        self.steps.truncate(0);
        result
    }
}
