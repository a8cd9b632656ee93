// Origins of members: the number of an input or axiom; the premises of an instance, each with the place of a literal; or those
// of an instance and which of its literals are kept.
ghost use Rattle.std.specs.Prelude.{◌≡◌, ◌≢◌, ◌++◌, ◌∷◌, ◌<◌, ◌^◌, ℕ, List, IfOk, IfSome, IfNone, IsTrue, decimal, false, codes};
ghost use Rattle.std.specs.Char.{is_ascii_digit};
ghost use Rattle.cert_format.specs.LineMachine.{fits_origin};
ghost use Rattle.cert_format.specs.LineTexts.{numbers, origin_text, origin_is_printable};
ghost use Rattle.cert_values.specs.Values.{origin_of};
ghost use Rattle.cert_items.specs.Notes.{NoOrigin, instance_text, InstanceFits, lists_text, ListsFit};
ghost use Rattle.inst_logic.specs.Codes as character;

use crate::mark::{mark, word};
use crate::number::number_before;
use crate::number_list::number_list;
use cert_values::Origin;
use inst_logic::{Memory, NumberList, PlaceList};
use std::alloc::Global;

// The numbers of an instance.
#[derive(Clone, Copy)]
pub struct Instance {
    from: usize,
    place: usize,
    partner: usize,
    other: usize,
}

// Two numbers with a comma between them, and the mark behind them.
fn pair(bytes: &[u8], byte: u8) -> Option<(usize, usize, &[u8])>
    requires { is_ascii_digit byte ≡ false }
    ensures some { IfSome result (λ r. bytes.now ≡ decimal r.0 ++ character.comma ∷ (decimal r.1 ++ byte ∷ r.2.now)) }
    ensures fits { IfSome result (λ r. (r.0 < 2 ^ 64) × (r.1 < 2 ^ 64)) }
    ensures none { IfNone result ((m n : ℕ) (rest : List ℕ) → m < 2 ^ 64 → n < 2 ^ 64 → bytes.now ≢ decimal m ++ character.comma ∷ (decimal n ++ byte ∷ rest)) }
{
    let (m, after) = number_before(bytes, b',')?;
    let (n, rest) = number_before(after, byte)?;
    Some((m, n, rest))
}

// The four numbers of an instance, and what follows the mark behind them.
fn read_instance(bytes: &[u8], byte: u8) -> Option<(Instance, &[u8])>
    requires { is_ascii_digit byte ≡ false }
    ensures some { IfSome result (λ r. bytes.now ≡ instance_text r.0 (byte ∷ r.1.now)) }
    ensures fits { IfSome result (λ r. InstanceFits r.0) }
    ensures none { IfNone result ((i : Instance) (rest : List ℕ) → InstanceFits i → bytes.now ≢ instance_text i (byte ∷ rest)) }
{
    let (from, place, after) = pair(bytes, b',')?;
    let second = mark(after, b'm')?;
    let (partner, other, rest) = pair(second, byte)?;
    let instance = Instance {
        from,
        place,
        partner,
        other,
    };
    Some((instance, rest))
}

// The number of an input or axiom, and what follows the parenthesis behind it.
fn input(bytes: &[u8]) -> Option<(Origin, &[u8])>
    ensures some { IfSome result (λ r. codes "input(" ++ bytes.now ≡ origin_text (origin_of r.0) r.1.now) }
    ensures printable { IfSome result (λ r. IsTrue (origin_is_printable (origin_of r.0))) }
    ensures fits { (format : ℕ) → IfSome result (λ r. IsTrue (fits_origin format (origin_of r.0))) }
    ensures none { (format : ℕ) → IfNone result (NoOrigin format (codes "input(" ++ bytes.now)) }
{
    let (k, rest) = number_before(bytes, b')')?;
    Some((Origin::Input(k), rest))
}

// The numbers of an instance, and what follows the parenthesis behind them.
fn inst(bytes: &[u8]) -> Option<(Origin, &[u8])>
    ensures some { IfSome result (λ r. codes "inst(m" ++ bytes.now ≡ origin_text (origin_of r.0) r.1.now) }
    ensures printable { IfSome result (λ r. IsTrue (origin_is_printable (origin_of r.0))) }
    ensures fits { (format : ℕ) → IfSome result (λ r. IsTrue (fits_origin format (origin_of r.0))) }
    ensures none { (format : ℕ) → IfNone result (NoOrigin format (codes "inst(m" ++ bytes.now)) }
{
    let (i, rest) = read_instance(bytes, b')')?;
    let origin = Origin::Inst {
        from: i.from,
        place: i.place,
        partner: i.partner,
        other: i.other,
    };
    Some((origin, rest))
}

// The places and the premises of a part, each list in brackets, and what follows the parenthesis behind them.
fn lists(alloc: Global, bytes: &[u8]) -> Result<Option<(PlaceList, NumberList, &[u8])>, Memory>
    ensures some { IfOk result (λ r. IfSome r (λ p. bytes.now ≡ lists_text p.0 p.1 p.2.now)) }
    ensures fit { IfOk result (λ r. IfSome r (λ p. ListsFit p.0 p.1)) }
    ensures none { IfOk result (λ r. IfNone r ((keep premises rest : List ℕ) → ListsFit keep premises → bytes.now ≢ lists_text keep premises rest)) }
{
    let Some(first) = mark(bytes, b'[') else {
        return Ok(None);
    };
    let Some((keep, between)) = number_list(alloc, b"", first)? else {
        return Ok(None);
    };
    let Some(second) = word(between, b",[") else {
        return Ok(None);
    };
    let Some((premises, behind)) = number_list(alloc, b"m", second)? else {
        return Ok(None);
    };
    let Some(rest) = mark(behind, b')') else {
        return Ok(None);
    };
    Ok(Some((keep, premises, rest)))
}

// The numbers of a part of an instance, and what follows the parenthesis behind them. The first format has none.
fn lemma(alloc: Global, format: u64, bytes: &[u8]) -> Result<Option<(Origin, &[u8])>, Memory>
    ensures some { IfOk result (λ r. IfSome r (λ p. codes "lemma(m" ++ bytes.now ≡ origin_text (origin_of p.0) p.1.now)) }
    ensures printable { IfOk result (λ r. IfSome r (λ p. IsTrue (origin_is_printable (origin_of p.0)))) }
    ensures fits { IfOk result (λ r. IfSome r (λ p. IsTrue (fits_origin format (origin_of p.0)))) }
    ensures none { IfOk result (λ r. IfNone r (NoOrigin format (codes "lemma(m" ++ bytes.now))) }
{
    if format == 1 {
        return Ok(None);
    }
    let Some((i, after)) = read_instance(bytes, b',') else {
        return Ok(None);
    };
    let Some((keep, premises, rest)) = lists(alloc, after)? else {
        return Ok(None);
    };
    let origin = Origin::Lemma {
        from: i.from,
        place: i.place,
        partner: i.partner,
        other: i.other,
        keep,
        premises,
    };
    Ok(Some((origin, rest)))
}

/// The origin at the front, of a text in the format, and what follows it.
pub fn read_origin(
    alloc: Global,
    format: u64,
    bytes: &[u8],
) -> Result<Option<(Origin, &[u8])>, Memory>
    ensures some { IfOk result (λ r. IfSome r (λ p. bytes.now ≡ origin_text (origin_of p.0) p.1.now)) }
    ensures printable { IfOk result (λ r. IfSome r (λ p. IsTrue (origin_is_printable (origin_of p.0)))) }
    ensures fits { IfOk result (λ r. IfSome r (λ p. IsTrue (fits_origin format (origin_of p.0)))) }
    ensures none { IfOk result (λ r. IfNone r (NoOrigin format bytes.now)) }
{
    if let Some(after) = word(bytes, b"input(") {
        return Ok(input(after));
    }
    if let Some(after) = word(bytes, b"inst(m") {
        return Ok(inst(after));
    }
    let Some(after) = word(bytes, b"lemma(m") else {
        return Ok(None);
    };
    lemma(alloc, format, after)
}
