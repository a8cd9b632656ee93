// The note of an item, which stands behind its clause and says where the clause comes from.
ghost use Rattle.std.specs.Prelude.{◌≡◌, ◌≢◌, ◌∷◌, ℕ, IfOk, IfSome, IfNone, IsTrue};
ghost use Rattle.term_bank.specs.Forest.{Forest, Grows};
ghost use Rattle.cert_items.specs.declared.group.Group.TheVariants.{Input as InInputs, Axiom as InAxioms, Member as InMembers, Ground as InGrounds, Step as InSteps, Shown as InShown, Cover as InCovers};
ghost use Rattle.cert_items.specs.Items.{IsNoteAt, IsWholeNote, NoNote, NoLastNote, note_of};
ghost use Rattle.inst_logic.specs.Codes as byte;

use crate::by::read_by;
use crate::group::Group;
use crate::hint_list::read_hints;
use crate::item_reader::ItemReader;
use crate::mark::{mark, word};
use crate::notes::{ground_member, sides, statement_name};
use crate::origin::read_origin;
use crate::place::origin_and_place;
use crate::shape::TextShape;
use crate::symbol::name_of;
use crate::term_list::number_and_terms;
use cert_values::{By, GroundHintList, Origin};
use inst_logic::{Memory, Name};
use std::alloc::Global;
use term_bank::TermIdList;
use unify_core::Side;

/// What stands behind the clause of an item: the name of an input's statement, an axiom's word, a member's origin, in a
/// saturation with its place, a ground clause's member, which has its number, or its input and terms, a step's hints, what shows
/// an input or axiom, or of a cover the two members with the side, and what covers its clause.
#[derive(Drop)]
pub enum Note {
    Named(Name),
    Equality,
    Member(Origin),
    Selected(Origin, usize),
    Ground,
    GroundBy(usize, TermIdList),
    Hinted(GroundHintList),
    InputBy(By),
    SideBy {
        left: usize,
        right: usize,
        side: Side,
        by: By,
    },
}

fn input_note(alloc: Global, bytes: &[u8]) -> Result<Option<(Note, &[u8])>, Memory>
    ensures some { (shape : TextShape) (n : ℕ) (f : Forest) → IfOk result (λ r. IfSome r (λ p. IsNoteAt shape InInputs n (note_of f p.0) bytes.now p.1.now)) }
    ensures whole { (f : Forest) → IfOk result (λ r. IfSome r (λ p. IsWholeNote f p.0)) }
    ensures none { (shape : TextShape) (n : ℕ) → IfOk result (λ r. IfNone r (NoNote shape InInputs n bytes.now)) }
{
    let Some((text, rest)) = statement_name(bytes) else {
        return Ok(None);
    };
    let name = name_of(alloc, text)?;
    Ok(Some((Note::Named(name), rest)))
}

fn axiom_note(bytes: &[u8]) -> Option<(Note, &[u8])>
    ensures some { (shape : TextShape) (n : ℕ) (f : Forest) → IfSome result (λ p. IsNoteAt shape InAxioms n (note_of f p.0) bytes.now p.1.now) }
    ensures whole { (f : Forest) → IfSome result (λ p. IsWholeNote f p.0) }
    ensures none { (shape : TextShape) (n : ℕ) → IfNone result (NoNote shape InAxioms n bytes.now) }
{
    let rest = word(bytes, b"equality")?;
    Some((Note::Equality, rest))
}

fn member_note(
    alloc: Global,
    shape: TextShape,
    bytes: &[u8],
) -> Result<Option<(Note, &[u8])>, Memory>
    ensures some { (n : ℕ) (f : Forest) → IfOk result (λ r. IfSome r (λ p. IsNoteAt shape InMembers n (note_of f p.0) bytes.now p.1.now)) }
    ensures whole { (f : Forest) → IfOk result (λ r. IfSome r (λ p. IsWholeNote f p.0)) }
    ensures none { (n : ℕ) → IfOk result (λ r. IfNone r (NoNote shape InMembers n bytes.now)) }
{
    if shape.refutation {
        let Some((o, rest)) = read_origin(alloc, shape.format, bytes)? else {
            return Ok(None);
        };
        return Ok(Some((Note::Member(o), rest)));
    }
    let Some((o, p, rest)) = origin_and_place(alloc, shape.format, bytes)? else {
        return Ok(None);
    };
    Ok(Some((Note::Selected(o, p), rest)))
}

// The note of a ground clause in the first format.
fn first_ground(shape: TextShape, n: usize, bytes: &[u8]) -> Option<(Note, &[u8])>
    requires refutation { IsTrue shape.refutation }
    requires format { shape.format ≡ 1 }
    ensures some { (f : Forest) → IfSome result (λ p. IsNoteAt shape InGrounds n (note_of f p.0) bytes.now p.1.now) }
    ensures whole { (f : Forest) → IfSome result (λ p. IsWholeNote f p.0) }
    ensures none { IfNone result (NoNote shape InGrounds n bytes.now) }
{
    let (k, rest) = ground_member(bytes)?;
    if k != n {
        return None;
    }
    Some((Note::Ground, rest))
}

// The note of a ground clause that names its input and terms.
fn ground_by<'a>(
    reader: &mut ItemReader,
    shape: TextShape,
    bytes: &'a [u8],
) -> Result<Option<(Note, &'a [u8])>, Memory>
    requires refutation { IsTrue shape.refutation }
    requires format { shape.format ≢ 1 }
    ensures some { (n : ℕ) → IfOk result (λ r. IfSome r (λ p. IsNoteAt shape InGrounds n (note_of reader.new p.0) bytes.now p.1.now)) }
    ensures whole { IfOk result (λ r. IfSome r (λ p. IsWholeNote reader.new p.0)) }
    ensures none { (n : ℕ) → IfOk result (λ r. IfNone r (NoNote shape InGrounds n bytes.now)) }
    ensures grows { Grows reader.old reader.new }
{
    let Some(after) = word(bytes, b"ground(") else {
        return Ok(None);
    };
    let Some((input, terms, rest)) = number_and_terms(reader, after)? else {
        return Ok(None);
    };
    Ok(Some((Note::GroundBy(input, terms), rest)))
}

fn ground_note<'a>(
    reader: &mut ItemReader,
    shape: TextShape,
    n: usize,
    bytes: &'a [u8],
) -> Result<Option<(Note, &'a [u8])>, Memory>
    ensures some { IfOk result (λ r. IfSome r (λ p. IsNoteAt shape InGrounds n (note_of reader.new p.0) bytes.now p.1.now)) }
    ensures whole { IfOk result (λ r. IfSome r (λ p. IsWholeNote reader.new p.0)) }
    ensures none { IfOk result (λ r. IfNone r (NoNote shape InGrounds n bytes.now)) }
    ensures grows { Grows reader.old reader.new }
{
    if !shape.refutation {
        return Ok(None);
    }
    if shape.format == 1 {
        Ok(first_ground(shape, n, bytes))
    } else {
        ground_by(reader, shape, bytes)
    }
}

fn step_note<'a>(
    alloc: Global,
    shape: TextShape,
    bytes: &'a [u8],
) -> Result<Option<(Note, &'a [u8])>, Memory>
    ensures some { (n : ℕ) (f : Forest) → IfOk result (λ r. IfSome r (λ p. IsNoteAt shape InSteps n (note_of f p.0) bytes.now p.1.now)) }
    ensures whole { (f : Forest) → IfOk result (λ r. IfSome r (λ p. IsWholeNote f p.0)) }
    ensures none { (n : ℕ) → IfOk result (λ r. IfNone r (NoNote shape InSteps n bytes.now)) }
{
    if !shape.refutation {
        return Ok(None);
    }
    let Some(after) = word(bytes, b"rup([") else {
        return Ok(None);
    };
    let mut hints = GroundHintList::new(alloc);
    let Some(rest) = read_hints(&mut hints, after)? else {
        return Ok(None);
    };
    Ok(Some((Note::Hinted(hints), rest)))
}

fn shown_note<'a>(
    reader: &mut ItemReader,
    shape: TextShape,
    bytes: &'a [u8],
) -> Result<Option<(Note, &'a [u8])>, Memory>
    ensures some { (n : ℕ) → IfOk result (λ r. IfSome r (λ p. IsNoteAt shape InShown n (note_of reader.new p.0) bytes.now p.1.now)) }
    ensures whole { IfOk result (λ r. IfSome r (λ p. IsWholeNote reader.new p.0)) }
    ensures none { (n : ℕ) → IfOk result (λ r. IfNone r (NoNote shape InShown n bytes.now)) }
    ensures grows { Grows reader.old reader.new }
{
    if !shape.names_covers() {
        return Ok(None);
    }
    let Some((by, rest)) = read_by(reader, bytes)? else {
        return Ok(None);
    };
    Ok(Some((Note::InputBy(by), rest)))
}

fn cover_note<'a>(
    reader: &mut ItemReader,
    shape: TextShape,
    bytes: &'a [u8],
) -> Result<Option<(Note, &'a [u8])>, Memory>
    ensures some { (n : ℕ) → IfOk result (λ r. IfSome r (λ p. IsNoteAt shape InCovers n (note_of reader.new p.0) bytes.now p.1.now)) }
    ensures whole { IfOk result (λ r. IfSome r (λ p. IsWholeNote reader.new p.0)) }
    ensures none { (n : ℕ) → IfOk result (λ r. IfNone r (NoNote shape InCovers n bytes.now)) }
    ensures grows { Grows reader.old reader.new }
{
    if !shape.names_covers() {
        return Ok(None);
    }
    let Some((left, right, side, after)) = sides(bytes) else {
        return Ok(None);
    };
    let Some((by, behind)) = read_by(reader, after)? else {
        return Ok(None);
    };
    let Some(rest) = mark(behind, b']') else {
        return Ok(None);
    };
    let note = Note::SideBy {
        left,
        right,
        side,
        by,
    };
    Ok(Some((note, rest)))
}

// The note of the group at the front, and what follows it.
fn read_note<'a>(
    reader: &mut ItemReader,
    shape: TextShape,
    group: Group,
    n: usize,
    bytes: &'a [u8],
) -> Result<Option<(Note, &'a [u8])>, Memory>
    ensures some { IfOk result (λ r. IfSome r (λ p. IsNoteAt shape group n (note_of reader.new p.0) bytes.now p.1.now)) }
    ensures whole { IfOk result (λ r. IfSome r (λ p. IsWholeNote reader.new p.0)) }
    ensures none { IfOk result (λ r. IfNone r (NoNote shape group n bytes.now)) }
    ensures grows { Grows reader.old reader.new }
{
    match group {
        Group::Input => input_note(reader.alloc(), bytes),
        Group::Axiom => Ok(axiom_note(bytes)),
        Group::Member => member_note(reader.alloc(), shape, bytes),
        Group::Ground => ground_note(reader, shape, n, bytes),
        Group::Step => step_note(reader.alloc(), shape, bytes),
        Group::Shown => shown_note(reader, shape, bytes),
        Group::Cover => cover_note(reader, shape, bytes),
    }
}

/// The note of the group at the front, and what follows the end of its line.
pub fn last_note<'a>(
    reader: &mut ItemReader,
    shape: TextShape,
    group: Group,
    n: usize,
    bytes: &'a [u8],
) -> Result<Option<(Note, &'a [u8])>, Memory>
    ensures some { IfOk result (λ r. IfSome r (λ p. IsNoteAt shape group n (note_of reader.new p.0) bytes.now (byte.closing_parenthesis ∷ byte.full_stop ∷ byte.line_feed ∷ p.1.now))) }
    ensures whole { IfOk result (λ r. IfSome r (λ p. IsWholeNote reader.new p.0)) }
    ensures none { IfOk result (λ r. IfNone r (NoLastNote shape group n bytes.now)) }
    ensures grows { Grows reader.old reader.new }
{
    let Some((note, behind)) = read_note(reader, shape, group, n, bytes)? else {
        return Ok(None);
    };
    let Some(rest) = word(behind, b").\n") else {
        return Ok(None);
    };
    Ok(Some((note, rest)))
}
