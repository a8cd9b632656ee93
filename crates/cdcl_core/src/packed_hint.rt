// Hints in four bytes each, as literals are packed in MiniSat: twice the number, and one more for a step.
ghost use Rattle.std.specs.Prelude.{◌≡◌, ◌+◌, ◌*◌, ◌<◌, IfOk};
ghost use Rattle.prop_logic.specs.declared.literal.Hint.TheVariants.{Added};

use inst_logic::Memory;
use prop_logic::Hint;
use std::marker::Model;

// A hint in four bytes, of a number below 2^31.
#[derive(Clone, Copy, Debug, PartialEq, Eq)]
pub(crate) struct PackedHint {
    code: u32,
}

impl Model for PackedHint {
    ghost use Rattle.prop_logic.specs.declared.literal.Hint.{Hint};

    ghost Value = { Hint };

    ghost use Rattle.cdcl_core.specs.Hints.{code_of, hint_of};

    ghost view = { λ h. hint_of h.code };

    ghost use Rattle.std.proofs.Common.{ℕ, ap};
    ghost use Rattle.cdcl_core.specs.HintsAgain.{code_again};

    ghost inverse = { λ h. record { code = code_of h } };

    ghost inverse_ok = { λ h k. ap (λ (c : ℕ). record { code = c }) (code_again h.code) };
}

const _: () = prove!(size_of::<PackedHint>() == 4);

// The code of a hint of this number and kind. From 2^31 on there is none.
fn code_of(number: usize, kind: u32) -> Result<u32, Memory>
    requires { kind < 2 }
    ensures { IfOk result (λ code. code ≡ 2 * number + kind) }
{
    if number > (u32::MAX / 2) as usize {
        return Err(Memory);
    }
    Ok(2 * number as u32 + kind)
}

impl PackedHint {
    // Number 0 of the added clauses, which is none.
    pub(crate) fn none() -> PackedHint
        ensures { result ≡ Added 0 }
    {
        PackedHint { code: 0 }
    }

    // The hint in four bytes. One of a number from 2^31 on is answered as want of memory.
    pub(crate) fn of(hint: Hint) -> Result<PackedHint, Memory>
        ensures { IfOk result (λ h. h ≡ hint) }
    {
        let code = match hint {
            Hint::Added(number) => code_of(number, 0)?,
            Hint::Step(number) => code_of(number, 1)?,
        };
        Ok(PackedHint { code })
    }

    pub(crate) fn hint(self) -> Hint
        ensures { result ≡ self }
    {
        let number = (self.code / 2) as usize;
        if self.code % 2 == 0 {
            Hint::Added(number)
        } else {
            Hint::Step(number)
        }
    }
}
