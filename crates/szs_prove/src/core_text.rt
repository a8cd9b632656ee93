// The text of a core: the line of its places, the refutation of its clauses, and the saturations that show that none of them can be
// spared. One list of bytes grows, and no two certificates are held at once.
ghost use Rattle.std.specs.Prelude.{◌≡◌, ◌<◌, ◌++◌, ◌∷◌, length, remove, decimal, IfOk, OnOk};
ghost use Rattle.inst_logic.specs.Codes as byte;
ghost use Rattle.core_min.specs.Cores.{HasSelection, IsCore};
ghost use Rattle.szs_prove.specs.CoreTexts.{IsContinued, AreRestTexts, IsCoreText, IsNoCoreText, IsRefutationText, IsSaturationText, core_line, no_core_line, place_words};
ghost use Rattle.szs_prove.specs.SubProblems.{problem_at};

use crate::sub_lists::SubLists;
use inst_logic::{ByteList, Memory};
use itoa::Buffer;
use std::alloc::Global;

fn push_place(text: &mut Vec<u8>, place: usize) -> Result<(), Memory>
    ensures { OnOk result (text.new.items ≡ text.old.items ++ byte.space ∷ decimal place) }
{
    let mut buffer = Buffer::new();
    text.push(b' ')?;
    text.extend_from_slice(buffer.format(place).as_bytes())?;
    Ok(())
}

fn push_places(text: &mut Vec<u8>, places: &[usize]) -> Result<(), Memory>
    ensures { OnOk result (text.new.items ≡ text.old.items ++ place_words places.now) }
{
    for i in 0..places.len() {
        push_place(text, places[i])?;
    }
    Ok(())
}

fn core_line(alloc: Global, file: &str, places: &[usize]) -> Result<Vec<u8>, Memory>
    ensures { IfOk result (λ text. text.items ≡ core_line file.now places.now) }
{
    let mut text = Vec::from_slice(alloc, b"% core of ")?;
    text.extend_from_slice(file.as_bytes())?;
    text.extend_from_slice(b":")?;
    push_places(&mut text, places)?;
    text.extend_from_slice(b"\n")?;
    Ok(text)
}

fn no_core_line(alloc: Global, file: &str) -> Result<Vec<u8>, Memory>
    ensures { IfOk result (λ text. text.items ≡ no_core_line file.now) }
{
    let mut text = Vec::from_slice(alloc, b"% no core for ")?;
    text.extend_from_slice(file.as_bytes())?;
    text.extend_from_slice(b"\n")?;
    Ok(text)
}

// Appends the refutation of the clauses at these places.
fn push_refutation(
    text: &mut Vec<u8>,
    lists: &SubLists<'_>,
    file: &str,
    places: &[usize],
) -> Result<(), Memory>
    requires { IsCore lists.now.clauses places.now }
    ensures { OnOk result (IsContinued text.old.items text.new.items (IsRefutationText (problem_at lists.now places.now) file.now)) }
{
    let part = lists.certificate_at(file, places)?;
    text.extend_from_slice(part.as_slice())?;
    Ok(())
}

// Appends the saturation of the clauses at all of the places but the one at `i`.
fn push_rest(
    text: &mut Vec<u8>,
    lists: &SubLists<'_>,
    file: &str,
    places: &[usize],
    i: usize,
) -> Result<(), Memory>
    requires core { IsCore lists.now.clauses places.now }
    requires within { i < length places.now }
    ensures { OnOk result (IsContinued text.old.items text.new.items (IsSaturationText (problem_at lists.now (remove places.now i)) file.now)) }
{
    let part = lists.certificate_without(file, places, i)?;
    text.extend_from_slice(part.as_slice())?;
    Ok(())
}

// Appends that for each of the places.
fn push_rests(
    text: &mut Vec<u8>,
    lists: &SubLists<'_>,
    file: &str,
    places: &[usize],
) -> Result<(), Memory>
    requires { IsCore lists.now.clauses places.now }
    ensures { OnOk result (IsContinued text.old.items text.new.items (AreRestTexts lists.now file.now places.now (length places.now))) }
{
    for i in 0..places.len() {
        push_rest(text, lists, file, places, i)?;
    }
    Ok(())
}

/// The text of the core at these places.
pub fn text_of_core(
    alloc: Global,
    lists: &SubLists<'_>,
    file: &str,
    places: &[usize],
) -> Result<ByteList, Memory>
    requires { IsCore lists.now.clauses places.now }
    ensures { IfOk result (IsCoreText lists.now file.now) }
{
    let mut text = core_line(alloc, file, places)?;
    push_refutation(&mut text, lists, file, places)?;
    push_rests(&mut text, lists, file, places)?;
    Ok(ByteList::from(text))
}

/// The text where no ground instances of the clauses are refuted.
pub fn text_of_no_core(alloc: Global, lists: &SubLists<'_>, file: &str) -> Result<ByteList, Memory>
    requires { HasSelection lists.now.clauses }
    ensures { IfOk result (IsNoCoreText lists.now file.now) }
{
    let saturation = lists.certificate(file)?;
    let mut text = no_core_line(alloc, file)?;
    text.extend_from_slice(saturation.as_slice())?;
    Ok(ByteList::from(text))
}
