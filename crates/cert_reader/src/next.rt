// The next item: read from the front of the text, tested, and put into its list.
ghost use Rattle.std.specs.Prelude.{◌<◌, length, IfOk, IfSome, IfNone};
ghost use Rattle.cert_reader.specs.Bodies.{IsNextItem, NoNextItem};
ghost use Rattle.cert_reader.specs.Groups.{AreGroups, items_of};

use crate::groups::Groups;
use cert_items::{ItemReader, TextShape, read_item};
use inst_logic::Memory;
use term_bank::IdClause;

/// Reads the item whose line is at the front of the text, where it may follow those that were read, and gives what follows its
/// line.
pub fn next_item<'a>(
    reader: &mut ItemReader,
    groups: &mut Groups,
    shape: TextShape,
    bytes: &'a [u8],
) -> Result<Option<&'a [u8]>, Memory>
    requires { AreGroups shape reader.old groups.old }
    ensures groups { IfOk result (λ r. IfSome r (λ _. AreGroups shape reader.new groups.new)) }
    ensures some { IfOk result (λ r. IfSome r (λ rest. IsNextItem shape (items_of shape reader.old groups.old) (items_of shape reader.new groups.new) bytes.now rest.now)) }
    ensures none { IfOk result (λ r. IfNone r (NoNextItem shape (items_of shape reader.old groups.old) bytes.now)) }
    ensures shorter { IfOk result (λ r. IfSome r (λ rest. length rest.now < length bytes.now)) }
{
    let mut literals = IdClause::new(reader.alloc());
    let Some(item) = read_item(reader, &mut literals, shape, bytes)? else {
        return Ok(None);
    };
    reader.distinct();
    if !groups.may_take(shape, item.group, item.number, &literals) {
        return Ok(None);
    }
    groups.push(item.note, literals)?;
    Ok(Some(item.rest))
}
