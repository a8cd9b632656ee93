// What covers a clause, as a line names it: nothing but the clause itself, which is a tautology; a member that it is a variant
// of; or a member with terms for its variables.
ghost use Rattle.std.specs.Prelude.{◌≡◌, ◌++◌, IfOk, IfSome, IfNone, IsTrue, codes};
ghost use Rattle.term_bank.specs.Forest.{Forest, Grows};
ghost use Rattle.cert_format.specs.LineTexts.{by_text, by_is_printable};
ghost use Rattle.cert_values.specs.Values.{by_of};
ghost use Rattle.cert_values.specs.Wholes.{IsWholeBy};
ghost use Rattle.cert_items.specs.Notes.{NoBy};

use crate::item_reader::ItemReader;
use crate::mark::{mark, word};
use crate::number::number_before;
use crate::term_list::number_and_terms;
use cert_values::By;
use inst_logic::Memory;

// A variant by the letter of the members and its number, and what follows the parenthesis behind it.
fn variant(bytes: &[u8]) -> Option<(By, &[u8])>
    ensures some { (f : Forest) → IfSome result (λ p. codes "variant(" ++ bytes.now ≡ by_text (by_of f p.0) p.1.now) }
    ensures printable { (f : Forest) → IfSome result (λ p. IsTrue (by_is_printable (by_of f p.0))) }
    ensures whole { (f : Forest) → IfSome result (λ p. IsWholeBy f p.0) }
    ensures none { IfNone result (NoBy (codes "variant(" ++ bytes.now)) }
{
    let digits = mark(bytes, b'm')?;
    let (k, rest) = number_before(digits, b')')?;
    Some((By::Variant(k), rest))
}

// The number of a member with its terms, and what follows the parenthesis behind them.
fn part<'a>(reader: &mut ItemReader, bytes: &'a [u8]) -> Result<Option<(By, &'a [u8])>, Memory>
    ensures some { IfOk result (λ r. IfSome r (λ p. codes "part(m" ++ bytes.now ≡ by_text (by_of reader.new p.0) p.1.now)) }
    ensures printable { IfOk result (λ r. IfSome r (λ p. IsTrue (by_is_printable (by_of reader.new p.0)))) }
    ensures whole { IfOk result (λ r. IfSome r (λ p. IsWholeBy reader.new p.0)) }
    ensures none { IfOk result (λ r. IfNone r (NoBy (codes "part(m" ++ bytes.now))) }
    ensures grows { Grows reader.old reader.new }
{
    let Some((member, terms, rest)) = number_and_terms(reader, bytes)? else {
        return Ok(None);
    };
    Ok(Some((By::Part { member, terms }, rest)))
}

/// What covers a clause, at the front, and what follows it. What covers an instance is mostly a variant, so that word is tried
/// first. It ends before the letter, since only words of up to eight bytes are compared without a call.
pub fn read_by<'a>(
    reader: &mut ItemReader,
    bytes: &'a [u8],
) -> Result<Option<(By, &'a [u8])>, Memory>
    ensures some { IfOk result (λ r. IfSome r (λ p. bytes.now ≡ by_text (by_of reader.new p.0) p.1.now)) }
    ensures printable { IfOk result (λ r. IfSome r (λ p. IsTrue (by_is_printable (by_of reader.new p.0)))) }
    ensures whole { IfOk result (λ r. IfSome r (λ p. IsWholeBy reader.new p.0)) }
    ensures none { IfOk result (λ r. IfNone r (NoBy bytes.now)) }
    ensures grows { Grows reader.old reader.new }
{
    if let Some(after) = word(bytes, b"variant(") {
        return Ok(variant(after));
    }
    if let Some(after) = word(bytes, b"part(m") {
        return part(reader, after);
    }
    let Some(rest) = word(bytes, b"tautology") else {
        return Ok(None);
    };
    Ok(Some((By::Tautology, rest)))
}
