// The atom that a whole text is. One bracket counts as open before its first token, as that of `cnf(` is in a statement: so
// an atom is within the limit on nesting exactly where it is in a clause.
ghost use Rattle.std.specs.Prelude.{IfOk, IfErr};
ghost use Rattle.inst_logic.specs.LiteralView.{literal};
ghost use Rattle.tptp_read.specs.Atoms.{ReadsAtom, IsAtomCause};

use crate::all::all_tokens;
use crate::atom::atom_of;
use crate::front::{MOST_NESTING, nesting_within};
use crate::statement::Which;
use crate::text::ReadError;
use inst_logic::Literal;
use std::alloc::Global;

// The ground atom, as a positive literal. A refusal speaks of statement 1.
pub(crate) fn atom_in(alloc: Global, text: &[u8]) -> Result<Literal, ReadError>
    ensures read { IfOk result (λ l. ReadsAtom text.now (literal l)) }
    ensures refused { IfErr result (IsAtomCause text.now) }
{
    let Some(tokens) = all_tokens(alloc, text)? else {
        return Err(ReadError::Syntax { statement: 1 });
    };
    if nesting_within(tokens.as_slice()) > MOST_NESTING {
        return Err(ReadError::Limit {
            statement: 1,
            which: Which::Nesting,
        });
    }
    atom_of(alloc, tokens.as_slice())
}
