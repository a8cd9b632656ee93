// Printable clauses of a text.
ghost use Rattle.std.specs.Prelude.{◌≡◌, ◌≢◌, ◌++◌, ◌∷◌, ℕ, List, [], IfOk, IfSome, IfNone, IsTrue};
ghost use Rattle.inst_logic.specs.Clauses.{TreeClause};
ghost use Rattle.inst_logic.specs.Printing.{clause_text};
ghost use Rattle.term_bank.specs.Forest.{clause_at, Grows};
ghost use Rattle.cert_format.specs.Formats.{clause_is_printable};
ghost use Rattle.cert_values.specs.Wholes.{IsWholeClause};
ghost use Rattle.inst_logic.specs.Codes as byte;

use crate::clause::clause;
use crate::text_bank::{TextBank, is_canonical};
use inst_logic::Memory;
use term_bank::{IdClause, TermId};

/// The printable clause at the front of the text, with a comma behind it, and what follows the comma. `ids` is room to work in.
/// Where there is none, some of its literals may have been read.
pub fn printable_clause<'a>(
    bank: &mut TextBank,
    ids: &mut Vec<TermId>,
    literals: &mut IdClause,
    bytes: &'a [u8],
) -> Result<Option<&'a [u8]>, Memory>
    requires empty { literals.old ≡ [] }
    ensures some { IfOk result (λ r. IfSome r (λ rest. bytes.now ≡ clause_text (clause_at bank.new literals.new) ++ byte.comma ∷ rest.now)) }
    ensures printable { IfOk result (λ r. IfSome r (λ _. IsTrue (clause_is_printable (clause_at bank.new literals.new)))) }
    ensures whole { IfOk result (λ r. IfSome r (λ _. IsWholeClause bank.new literals.new)) }
    ensures none { IfOk result (λ r. IfNone r ((c : TreeClause) (rest : List ℕ) → IsTrue (clause_is_printable c) → bytes.now ≢ clause_text c ++ byte.comma ∷ rest)) }
    ensures grows { Grows bank.old bank.new }
{
    let Some(rest) = clause(bank, ids, literals, bytes)? else {
        return Ok(None);
    };
    if is_canonical(bank, ids, literals)? {
        Ok(Some(rest))
    } else {
        Ok(None)
    }
}
