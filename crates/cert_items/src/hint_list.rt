// The hints of a step: numbers of ground clauses, `g1`, and of earlier steps, `r1`, up to the marks that end the list.
ghost use Rattle.std.specs.Prelude.{◌≡◌, ◌≢◌, ◌++◌, ◌∷◌, ◌<◌, ℕ, List, [], Bool, length, IfOk, IfSome, IfNone, IsTrue, true};
ghost use Rattle.std.specs.Char.{is_ascii_digit};
ghost use Rattle.inst_calculus.specs.Steps.{Cited};
ghost use Rattle.cert_format.specs.Runs.{Ends};
ghost use Rattle.cert_format.specs.LineTexts.{hint, hint_is_printable};
ghost use Rattle.cert_values.specs.declared.certificate.GroundHint.{GroundHint};
ghost use Rattle.cert_values.specs.Values.{hint_of};
ghost use Rattle.cert_items.specs.HintTexts.{hint_end, HasHints, NoHints, NoHintHead};

use crate::mark::{mark, word};
use crate::number::number;
use cert_values::{GroundHint, GroundHintList};
use inst_logic::Memory;

// What is left of the text, and whether the hints have ended.
#[derive(Clone, Copy)]
pub struct Behind<'a> {
    pub ended: bool,
    pub rest: &'a [u8],
}

// The hint at the front, and what follows its number.
fn read_one(bytes: &[u8]) -> Option<(GroundHint, &[u8])>
    ensures some { IfSome result (λ r. (bytes.now ≡ hint (hint_of r.0) r.1.now) × IsTrue (hint_is_printable (hint_of r.0)) × Ends is_ascii_digit r.1.now) }
    ensures none { IfNone result ((h : Cited) (rest : List ℕ) → IsTrue (hint_is_printable h) → Ends is_ascii_digit rest → bytes.now ≢ hint h rest) }
{
    if let Some(after) = mark(bytes, b'g') {
        let (k, rest) = number(after)?;
        return Some((GroundHint::Ground(k), rest));
    }
    let after = mark(bytes, b'r')?;
    let (k, rest) = number(after)?;
    Some((GroundHint::Step(k), rest))
}

// Goes on behind a hint: to the next one, or past the marks that end the list.
fn go_on(rest: &[u8]) -> Option<Behind<'_>>
    ensures some { IfSome result (λ r. rest.now ≡ hint_end r.ended r.rest.now) }
    ensures none { IfNone result ((e : Bool) (x : List ℕ) → rest.now ≢ hint_end e x) }
{
    if let Some(rest) = mark(rest, b',') {
        return Some(Behind { ended: false, rest });
    }
    let rest = word(rest, b"])")?;
    Some(Behind { ended: true, rest })
}

// The hint at the front and the marks behind it.
fn item<'a>(list: &mut GroundHintList, rest: &'a [u8]) -> Result<Option<Behind<'a>>, Memory>
    ensures some { IfOk result (λ r. IfSome r (λ next. (h : GroundHint) × (list.new ≡ list.old ++ h ∷ []) × (rest.now ≡ hint (hint_of h) (hint_end next.ended next.rest.now)) × IsTrue (hint_is_printable (hint_of h)))) }
    ensures shorter { IfOk result (λ r. IfSome r (λ next. length next.rest.now < length rest.now)) }
    ensures none { IfOk result (λ r. IfNone r (NoHintHead rest.now)) }
{
    let Some((h, after)) = read_one(rest) else {
        return Ok(None);
    };
    let Some(next) = go_on(after) else {
        return Ok(None);
    };
    list.push(h)?;
    Ok(Some(next))
}

/// The hints at the front, and what follows the marks that end them.
pub fn read_hints<'a>(
    list: &mut GroundHintList,
    bytes: &'a [u8],
) -> Result<Option<&'a [u8]>, Memory>
    requires empty { list.old ≡ [] }
    ensures some { IfOk result (λ r. IfSome r (λ rest. HasHints list.new true bytes.now rest.now)) }
    ensures none { IfOk result (λ r. IfNone r (NoHints bytes.now)) }
{
    let mut ended = false;
    let mut rest = bytes;
    while !ended {
        let Some(next) = item(list, rest)? else {
            return Ok(None);
        };
        ended = next.ended;
        rest = next.rest;
    }
    Ok(Some(rest))
}
