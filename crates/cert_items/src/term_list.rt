// Terms in brackets.
ghost use Rattle.std.specs.Prelude.{◌≡◌, ◌≢◌, ◌++◌, ◌∷◌, ◌<◌, ◌^◌, ℕ, List, [], map, All, IfOk, IfSome, IfNone, decimal};
ghost use Rattle.inst_logic.specs.Tree.{Tree};
ghost use Rattle.term_bank.specs.Forest.{tree_at, Grows};
ghost use Rattle.cert_format.specs.LineTexts as texts;
ghost use Rattle.cert_values.specs.Wholes.{IsWholeTerm};
ghost use Rattle.cert_items.specs.Reading.{ArePrintable};
ghost use Rattle.inst_logic.specs.Codes as byte;

use crate::item_reader::ItemReader;
use crate::mark::{mark, word};
use crate::number::number_before;
use crate::terms::terms;
use inst_logic::Memory;
use std::alloc::Global;
use term_bank::{TermId, TermIdList};

// The ids as a list.
fn list_of(alloc: Global, ids: &[TermId]) -> Result<TermIdList, Memory>
    ensures { IfOk result (λ list. list ≡ ids.now) }
{
    let items = Vec::from_slice(alloc, ids)?;
    Ok(TermIdList::from(items))
}

/// The terms at the front, and what follows the bracket that ends them.
pub fn term_list<'a>(
    reader: &mut ItemReader,
    bytes: &'a [u8],
) -> Result<Option<(TermIdList, &'a [u8])>, Memory>
    ensures some { IfOk result (λ r. IfSome r (λ p. bytes.now ≡ texts.terms (map (tree_at reader.new) p.0) p.1.now)) }
    ensures printable { IfOk result (λ r. IfSome r (λ p. ArePrintable (map (tree_at reader.new) p.0))) }
    ensures whole { IfOk result (λ r. IfSome r (λ p. All (IsWholeTerm reader.new) p.0)) }
    ensures none { IfOk result (λ r. IfNone r ((ts : List Tree) (rest : List ℕ) → ArePrintable ts → bytes.now ≢ texts.terms ts rest)) }
    ensures grows { Grows reader.old reader.new }
{
    reader.ids.clear();
    if let Some(rest) = mark(bytes, b']') {
        return Ok(Some((TermIdList::new(reader.alloc()), rest)));
    }
    let Some(rest) = terms(&mut reader.bank, &mut reader.ids, bytes, b']')? else {
        return Ok(None);
    };
    let list = list_of(reader.alloc(), reader.ids.as_slice())?;
    Ok(Some((list, rest)))
}

/// A number with terms in brackets behind it, and what follows the parenthesis behind them. Where there are none, both brackets are seen at once.
/// Inlined, it hands the list on without a copy of it in memory.
#[inline(always)]
pub fn number_and_terms<'a>(
    reader: &mut ItemReader,
    bytes: &'a [u8],
) -> Result<Option<(usize, TermIdList, &'a [u8])>, Memory>
    ensures some { IfOk result (λ r. IfSome r (λ p. bytes.now ≡ decimal p.0 ++ byte.comma ∷ byte.opening_bracket ∷ texts.terms (map (tree_at reader.new) p.1) (byte.closing_parenthesis ∷ p.2.now))) }
    ensures fits { IfOk result (λ r. IfSome r (λ p. p.0 < 2 ^ 64)) }
    ensures printable { IfOk result (λ r. IfSome r (λ p. ArePrintable (map (tree_at reader.new) p.1))) }
    ensures whole { IfOk result (λ r. IfSome r (λ p. All (IsWholeTerm reader.new) p.1)) }
    ensures none { IfOk result (λ r. IfNone r ((n : ℕ) (ts : List Tree) (rest : List ℕ) → n < 2 ^ 64 → ArePrintable ts → bytes.now ≢ decimal n ++ byte.comma ∷ byte.opening_bracket ∷ texts.terms ts (byte.closing_parenthesis ∷ rest))) }
    ensures grows { Grows reader.old reader.new }
{
    let Some((n, after)) = number_before(bytes, b',') else {
        return Ok(None);
    };
    if let Some(rest) = word(after, b"[])") {
        return Ok(Some((n, TermIdList::new(reader.alloc()), rest)));
    }
    let Some(inner) = mark(after, b'[') else {
        return Ok(None);
    };
    let Some((list, behind)) = term_list(reader, inner)? else {
        return Ok(None);
    };
    let Some(rest) = mark(behind, b')') else {
        return Ok(None);
    };
    Ok(Some((n, list, rest)))
}
