// What stands at a place of an atom, from left to right.
ghost use Rattle.std.specs.Prelude.{◌≡◌, ◌<◌, length, IfOk, OnOk, OnErr};
ghost use Rattle.term_bank.specs.Forest.{tree_at};
ghost use Rattle.term_index.specs.Numbered.{IsKnown};
ghost use Rattle.term_index.specs.Labels.{label_of, arity_of};
ghost use Rattle.term_index.specs.Paths.{IsShort};

use crate::number::short;
use inst_logic::Memory;
use term_bank::{Bank, TermId};

/// A variable, or a symbol by its number with the number of arguments that follow.
#[derive(Clone, Copy, Debug, PartialEq, Eq, Hash)]
pub enum Label {
    Variable,
    Symbol(u32, u32),
}

// The label at the root of a term, where its numbers have room.
pub fn label_at(bank: &Bank, id: TermId) -> Result<Label, Memory>
    requires { id < length bank.now.trees }
    ensures label { IfOk result (λ l. l ≡ label_of bank.now (tree_at bank.now id)) }
    ensures short { IfOk result IsShort }
    ensures long { OnErr result (¬ (IsShort (label_of bank.now (tree_at bank.now id)))) }
    ensures known { OnOk result (IsKnown bank.now (tree_at bank.now id)) }
{
    match bank.symbol_number(id) {
        None => Ok(Label::Variable),
        Some(number) => {
            let symbol = short(number)?;
            let arity = short(bank.args(id).len())?;
            Ok(Label::Symbol(symbol, arity))
        }
    }
}

impl Label {
    // How many terms follow that belong to it.
    pub fn arity(self) -> usize
        ensures { result ≡ arity_of self }
    {
        match self {
            Label::Variable => 0,
            Label::Symbol(_, arity) => arity as usize,
        }
    }
}
