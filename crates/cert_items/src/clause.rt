// Clauses of a text, read into a bank.
ghost use Rattle.std.specs.Prelude.{◌≡◌, ◌≢◌, ◌++◌, ◌<◌, ◌∷◌, ℕ, List, [], length, false, true, IfOk, IfSome, IfNone, None, Bool};
ghost use Rattle.inst_logic.specs.declared.signed.Signed.{Signed};
ghost use Rattle.term_bank.specs.Forest.{Grows};
ghost use Rattle.cert_items.specs.Roots.{IsLiteralAt, NoFormHead};
ghost use Rattle.cert_items.specs.ClauseTexts.{ended_by, IsClauseText, NoClause};

use crate::literals::literal;
use crate::mark::{mark, word};
use crate::text_bank::TextBank;
use inst_logic::Memory;
use term_bank::{IdClause, IdLiteral, TermId};

// What is left of the text, and whether the clause has ended.
#[derive(Clone, Copy)]
pub struct Rest<'a> {
    ended: bool,
    rest: &'a [u8],
}

// Goes on behind a literal: to the next one, or past the comma.
fn go_on(rest: &[u8]) -> Option<Rest<'_>>
    ensures some { IfSome result (λ r. rest.now ≡ ended_by r.ended r.rest.now) }
    ensures none { IfNone result ((e : Bool) (x : List ℕ) → rest.now ≢ ended_by e x) }
{
    if let Some(rest) = mark(rest, b',') {
        return Some(Rest { ended: true, rest });
    }
    let rest = word(rest, b" | ")?;
    Some(Rest { ended: false, rest })
}

// The literal at the front and the mark behind it.
fn item<'a>(
    bank: &mut TextBank,
    ids: &mut Vec<TermId>,
    literals: &mut IdClause,
    rest: &'a [u8],
) -> Result<Option<Rest<'a>>, Memory>
    ensures grows { Grows bank.old bank.new }
    ensures some { IfOk result (λ r. IfSome r (λ next. (l : Signed ℕ) × (literals.new ≡ literals.old ++ l ∷ []) × IsLiteralAt bank.new l rest.now (ended_by next.ended next.rest.now))) }
    ensures shorter { IfOk result (λ r. IfSome r (λ next. length next.rest.now < length rest.now)) }
    ensures none { IfOk result (λ r. IfNone r (NoFormHead rest.now)) }
{
    match literal(bank, ids, rest) {
        Err(e) => Err(e),
        Ok(None) => Ok(None),
        Ok(Some((l, after))) => {
            let Some(next) = go_on(after) else {
                return Ok(None);
            };
            literals.push(l)?;
            Ok(Some(next))
        }
    }
}

/// The clause at the front, its variables and literals as they stand, and what follows the comma behind it.
pub fn clause<'a>(
    bank: &mut TextBank,
    ids: &mut Vec<TermId>,
    literals: &mut IdClause,
    bytes: &'a [u8],
) -> Result<Option<&'a [u8]>, Memory>
    requires empty { literals.old ≡ [] }
    ensures grows { Grows bank.old bank.new }
    ensures some { IfOk result (λ r. IfSome r (λ rest. IsClauseText bank.new literals.new bytes.now rest.now)) }
    ensures none { IfOk result (λ r. IfNone r (NoClause bytes.now)) }
{
    if let Some(rest) = word(bytes, b"$false,") {
        return Ok(Some(rest));
    }
    let mut ended = false;
    let mut rest = bytes;
    while !ended {
        let Some(next) = item(bank, ids, literals, rest)? else {
            return Ok(None);
        };
        ended = next.ended;
        rest = next.rest;
    }
    Ok(Some(rest))
}
