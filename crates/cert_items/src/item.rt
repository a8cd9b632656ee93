// A line of an item: its group and number, its clause, and the note of where the clause comes from.
ghost use Rattle.std.specs.Prelude.{◌≡◌, [], IfOk, IfSome, IfNone};
ghost use Rattle.term_bank.specs.Forest.{clause_at, Grows};
ghost use Rattle.cert_format.specs.LineMachine.{item};
ghost use Rattle.cert_format.specs.LineTexts.{line};
ghost use Rattle.cert_values.specs.Wholes.{IsWholeClause};
ghost use Rattle.cert_items.specs.Items.{IsItem, IsWholeNote, NoItem, group_of, note_of};

use crate::group::{Group, head};
use crate::item_reader::ItemReader;
use crate::note::{Note, last_note};
use crate::printable::printable_clause;
use crate::shape::TextShape;
use inst_logic::Memory;
use term_bank::IdClause;

/// An item but for its clause, and what follows its line.
#[derive(Drop)]
pub struct Item<'a> {
    pub group: Group,
    pub number: usize,
    pub note: Note,
    pub rest: &'a [u8],
}

/// The item whose line is at the front of the text, in a text of the shape. Its clause is put into
/// a list that was empty. Where there is no item, some of its literals may have been put there.
pub fn read_item<'a>(
    reader: &mut ItemReader,
    literals: &mut IdClause,
    shape: TextShape,
    bytes: &'a [u8],
) -> Result<Option<Item<'a>>, Memory>
    requires { literals.old ≡ [] }
    ensures some { IfOk result (λ r. IfSome r (λ i. IsItem shape i.number (clause_at reader.new literals.new) (note_of reader.new i.note))) }
    ensures text { IfOk result (λ r. IfSome r (λ i. bytes.now ≡ line (item i.number (clause_at reader.new literals.new) (note_of reader.new i.note)) i.rest.now)) }
    ensures group { IfOk result (λ r. IfSome r (λ i. group_of (note_of reader.new i.note) ≡ i.group)) }
    ensures whole { IfOk result (λ r. IfSome r (λ _. IsWholeClause reader.new literals.new)) }
    ensures terms { IfOk result (λ r. IfSome r (λ i. IsWholeNote reader.new i.note)) }
    ensures none { IfOk result (λ r. IfNone r (NoItem shape bytes.now)) }
    ensures grows { Grows reader.old reader.new }
{
    let Some((group, number, after)) = head(bytes) else {
        return Ok(None);
    };
    let Some(behind) = printable_clause(&mut reader.bank, &mut reader.ids, literals, after)? else {
        return Ok(None);
    };
    let Some((note, rest)) = last_note(reader, shape, group, number, behind)? else {
        return Ok(None);
    };
    Ok(Some(Item {
        group,
        number,
        note,
        rest,
    }))
}
