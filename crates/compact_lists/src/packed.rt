// Literals in one number each.
ghost use Rattle.std.specs.Prelude.{◌≡◌, ◌<◌, ◌^◌, ◌↔◌, IsTrue, IfOk};

use inst_logic::Memory;
use prop_logic::Lit;
use std::marker::Model;

// Atoms from here on have no number.
const ATOMS: usize = 0x8000_0000;

/// A literal in four bytes, of an atom below 2^31.
#[derive(Clone, Copy, Debug, PartialEq, Eq)]
pub struct PackedLit {
    code: u32,
}

impl Model for PackedLit {
    ghost use Rattle.std.specs.Prelude.{ℕ};
    ghost use Rattle.inst_logic.specs.declared.signed.Signed.{Signed};

    ghost Value = { Signed ℕ };

    ghost use Rattle.compact_lists.specs.Codes.{code_of, literal_of};

    ghost view = { λ l. literal_of l.code };

    ghost use Rattle.std.proofs.Common.{ap};
    ghost use Rattle.compact_lists.specs.CodesAgain.{code_again};

    ghost inverse = { λ l. record { code = code_of l } };

    ghost inverse_ok = { λ l h. ap (λ (c : ℕ). record { code = c }) (code_again l.code) };
}

const _: () = prove!(size_of::<PackedLit>() == 4);

// Whether the literal has a number.
pub(crate) fn is_packable(lit: Lit) -> bool
    ensures { IsTrue result ↔ (lit.atom < 2 ^ 31) }
{
    lit.atom < ATOMS
}

// The literal in four bytes.
pub(crate) fn pack(lit: Lit) -> PackedLit
    requires { lit.atom < 2 ^ 31 }
    ensures { result ≡ lit }
{
    let twice = lit.atom as u32 * 2;
    PackedLit {
        code: if lit.positive { twice + 1 } else { twice },
    }
}

impl PackedLit {
    /// The literal in four bytes. One of an atom from 2^31 on is answered as want of memory.
    pub fn of(lit: Lit) -> Result<PackedLit, Memory>
        ensures { IfOk result (λ l. l ≡ lit) }
    {
        if is_packable(lit) {
            Ok(pack(lit))
        } else {
            Err(Memory)
        }
    }

    /// The literal.
    pub fn lit(self) -> Lit
        ensures { result ≡ self }
    {
        Lit {
            positive: self.code % 2 == 1,
            atom: self.code as usize / 2,
        }
    }
}
