// The lines of a text behind its header: one item after another, up to the last line.
ghost use Rattle.std.specs.Prelude.{◌≡◌, ◌+◌, ◌<◌, ◌^◌, List, ℕ, length, IfOk};
ghost use Rattle.cert_format.specs.LineMachine.{Header};
ghost use Rattle.cert_items.specs.Items.{shape_of};
ghost use Rattle.cert_reader.specs.Bodies.{HasRead, EndsSo, EndsAt, ending_behind};
ghost use Rattle.cert_reader.specs.Groups.{AreGroups, items_of};

use crate::groups::Groups;
use crate::lines::closing;
use crate::next::next_item;
use cert_items::{ItemReader, TextShape};
use inst_logic::Memory;

/// How a text ends.
#[derive(Clone, Copy)]
pub enum Ending {
    /// With the last line of a certificate.
    Complete,
    /// This line is the first that stands there in the text of no certificate.
    BadLine(usize),
}

// How a text ends behind its last line, which has this number.
fn behind_last(lines: usize, rest: &[u8]) -> Ending
    requires counted { lines + length rest.now < 2 ^ 63 }
    ensures { result ≡ ending_behind lines rest.now }
{
    if rest.is_empty() {
        Ending::Complete
    } else {
        Ending::BadLine(lines + 1)
    }
}

// How a text of the shape with these items ends whose last line has this number, with this behind it.
fn end_of(groups: &Groups, shape: TextShape, line: usize, rest: &[u8]) -> Ending
    requires counted { line + length rest.now < 2 ^ 63 }
    ensures { EndsAt shape groups.now line rest.now result }
{
    if groups.is_complete(shape) {
        behind_last(line, rest)
    } else {
        Ending::BadLine(line)
    }
}

/// Reads the items and the last line of a text of the shape under this name, of which so many lines have been read, into the groups.
pub fn read_items(
    reader: &mut ItemReader,
    groups: &mut Groups,
    shape: TextShape,
    name: &[u8],
    lines: usize,
    bytes: &[u8],
) -> Result<Ending, Memory>
    requires groups { AreGroups shape reader.old groups.old }
    requires counted { lines + length bytes.now < 2 ^ 63 }
    ensures groups { IfOk result (λ e. e ≡ Ending.Complete → AreGroups shape reader.new groups.new) }
    ensures ends { (text : List ℕ) (h : Header) → shape_of h ≡ shape → h.name ≡ name.now → HasRead text h (items_of shape reader.old groups.old) lines bytes.now
        → IfOk result (EndsSo text h (items_of shape reader.new groups.new)) }
{
    let mut lines = lines;
    let mut rest = bytes;
    loop {
        match closing(shape.refutation, name, rest) {
            Some(behind) => return Ok(end_of(groups, shape, lines + 1, behind)),
            None => match next_item(reader, groups, shape, rest) {
                Err(e) => return Err(e),
                Ok(None) => return Ok(Ending::BadLine(lines + 1)),
                Ok(Some(after)) => {
                    lines += 1;
                    rest = after;
                }
            },
        }
    }
}
