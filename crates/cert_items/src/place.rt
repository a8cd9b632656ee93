// The origin of a member of a saturation, with the place of its selected literal.
ghost use Rattle.std.specs.Prelude.{◌≡◌, ◌≢◌, ◌++◌, ◌∷◌, ◌<◌, ◌^◌, ℕ, List, IfOk, IfSome, IfNone, IsTrue, decimal, codes};
ghost use Rattle.inst_calculus.specs.Entries as entries;
ghost use Rattle.cert_format.specs.LineMachine.{fits_origin};
ghost use Rattle.cert_format.specs.LineTexts.{origin_text, origin_is_printable};
ghost use Rattle.cert_values.specs.Values.{origin_of};
ghost use Rattle.inst_logic.specs.Codes as byte;

use crate::mark::{mark, word};
use crate::number::number_before;
use crate::origin::read_origin;
use cert_values::Origin;
use inst_logic::Memory;
use std::alloc::Global;

// The place behind an origin, and what follows it.
fn place(bytes: &[u8]) -> Option<(usize, &[u8])>
    ensures some { IfSome result (λ r. bytes.now ≡ codes ",[selected(" ++ (decimal r.0 ++ byte.closing_parenthesis ∷ byte.closing_bracket ∷ r.1.now)) }
    ensures fits { IfSome result (λ r. r.0 < 2 ^ 64) }
    ensures none { IfNone result ((p : ℕ) (rest : List ℕ) → p < 2 ^ 64 → bytes.now ≢ codes ",[selected(" ++ (decimal p ++ byte.closing_parenthesis ∷ byte.closing_bracket ∷ rest)) }
{
    let after = word(bytes, b",[selected(")?;
    let (p, behind) = number_before(after, b')')?;
    let rest = mark(behind, b']')?;
    Some((p, rest))
}

/// The origin, of a text in the format, and the place at the front, and what follows them.
pub fn origin_and_place(
    alloc: Global,
    format: u64,
    bytes: &[u8],
) -> Result<Option<(Origin, usize, &[u8])>, Memory>
    ensures some { IfOk result (λ r. IfSome r (λ p. bytes.now ≡ origin_text (origin_of p.0) (codes ",[selected(" ++ (decimal p.1 ++ byte.closing_parenthesis ∷ byte.closing_bracket ∷ p.2.now)))) }
    ensures printable { IfOk result (λ r. IfSome r (λ p. IsTrue (origin_is_printable (origin_of p.0)) × (p.1 < 2 ^ 64))) }
    ensures fits { IfOk result (λ r. IfSome r (λ p. IsTrue (fits_origin format (origin_of p.0)))) }
    ensures none { IfOk result (λ r. IfNone r ((o : entries.Origin) (p : ℕ) (rest : List ℕ) → IsTrue (origin_is_printable o) → IsTrue (fits_origin format o) → p < 2 ^ 64 → bytes.now ≢ origin_text o (codes ",[selected(" ++ (decimal p ++ byte.closing_parenthesis ∷ byte.closing_bracket ∷ rest)))) }
{
    let Some((o, after)) = read_origin(alloc, format, bytes)? else {
        return Ok(None);
    };
    let Some((p, rest)) = place(after) else {
        return Ok(None);
    };
    Ok(Some((o, p, rest)))
}
