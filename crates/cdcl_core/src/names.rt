// What the trail's numbers of clauses cite: hints by number.
ghost use Rattle.std.specs.Prelude.{◌≡◌, [], ◌<◌, ℕ, Some, length, slice_get, IfOk, OnOk};
ghost use Rattle.prop_logic.specs.declared.literal.Hint.{Hint};
ghost use Rattle.cdcl_core.specs.Log.{PutsName};

use crate::packed_hint::PackedHint;
use inst_logic::Memory;
use prop_logic::Hint;
use std::alloc::Global;
use std::marker::Model;

// Makes the list longer than `number`.
fn lengthen(hints: &mut Vec<PackedHint>, number: usize) -> Result<(), Memory>
    ensures room { OnOk result (number < length hints.new.items) }
    ensures kept { OnOk result ((k : ℕ) (h : Hint) → slice_get hints.old.items k ≡ Some h → slice_get hints.new.items k ≡ Some h) }
{
    while hints.len() <= number {
        hints.push(PackedHint::none())?;
    }
    Ok(())
}

// Puts the hint at the place of this number.
fn put_hint(hints: &mut Vec<PackedHint>, number: usize, hint: PackedHint) -> Result<(), Memory>
    ensures { OnOk result (PutsName hints.old.items hints.new.items number hint) }
{
    lengthen(hints, number)?;
    hints[number] = hint;
    Ok(())
}

// The hints, by numbers from 0 on. Some of them may be number 0 of the added clauses, which is none.
#[derive(Drop)]
pub(crate) struct Names {
    hints: Vec<PackedHint>,
}

impl Model for Names {
    ghost use Rattle.std.specs.Prelude.{List};
    ghost use Rattle.prop_logic.specs.declared.literal.Hint.{Hint};

    ghost Value = { List Hint };

    ghost view = { λ n. n.hints.items };
}

impl Names {
    pub(crate) fn new(alloc: Global) -> Names
        ensures { result ≡ [] }
    {
        Names {
            hints: Vec::new(alloc),
        }
    }

    // The hint of this number, if there is one.
    pub(crate) fn get(&self, number: usize) -> Option<PackedHint>
        ensures { result ≡ slice_get self.now number }
    {
        self.hints.get(number).copied()
    }

    // Gives the number its hint.
    pub(crate) fn put(&mut self, number: usize, hint: Hint) -> Result<(), Memory>
        ensures { OnOk result (PutsName self.old self.new number hint) }
    {
        let packed = PackedHint::of(hint)?;
        put_hint(&mut self.hints, number, packed)
    }
}
