// Numbers in brackets.
ghost use Rattle.std.specs.Prelude.{◌≡◌, ◌≢◌, ◌++◌, ◌∷◌, ◌<◌, ℕ, List, [], Bool, length, IfOk, IfSome, IfNone, IsTrue, true, decimal};
ghost use Rattle.cert_format.specs.LineMachine.{is_number};
ghost use Rattle.cert_items.specs.NumberTexts.{number_end, HasNumbers, NoNumberHead, NoSomeNumbers, NoNumbers};

use crate::hint_list::Behind;
use crate::mark::{mark, word};
use crate::number::number;
use inst_logic::{Memory, NumberList};
use std::alloc::Global;

// Goes on behind a number: to the next one, or past the bracket that ends the list.
fn go_on(rest: &[u8]) -> Option<Behind<'_>>
    ensures some { IfSome result (λ r. rest.now ≡ number_end r.ended r.rest.now) }
    ensures none { IfNone result ((e : Bool) (x : List ℕ) → rest.now ≢ number_end e x) }
{
    if let Some(rest) = mark(rest, b',') {
        return Some(Behind { ended: false, rest });
    }
    let rest = mark(rest, b']')?;
    Some(Behind { ended: true, rest })
}

// The number behind the mark at the front, and what ends it.
fn item<'a>(
    list: &mut NumberList,
    letter: &[u8],
    rest: &'a [u8],
) -> Result<Option<Behind<'a>>, Memory>
    ensures some { IfOk result (λ r. IfSome r (λ next. (n : ℕ) × (list.new ≡ list.old ++ n ∷ []) × (rest.now ≡ letter.now ++ (decimal n ++ number_end next.ended next.rest.now)) × IsTrue (is_number n))) }
    ensures shorter { IfOk result (λ r. IfSome r (λ next. length next.rest.now < length rest.now)) }
    ensures none { IfOk result (λ r. IfNone r (NoNumberHead letter.now rest.now)) }
{
    let Some(digits) = word(rest, letter) else {
        return Ok(None);
    };
    let Some((n, after)) = number(digits) else {
        return Ok(None);
    };
    let Some(next) = go_on(after) else {
        return Ok(None);
    };
    list.push(n)?;
    Ok(Some(next))
}

// The numbers at the front, of which there is one, and what follows the bracket that ends them.
fn read_numbers<'a>(
    list: &mut NumberList,
    letter: &[u8],
    bytes: &'a [u8],
) -> Result<Option<&'a [u8]>, Memory>
    requires empty { list.old ≡ [] }
    ensures some { IfOk result (λ r. IfSome r (λ rest. HasNumbers letter.now list.new true bytes.now rest.now)) }
    ensures none { IfOk result (λ r. IfNone r (NoSomeNumbers letter.now bytes.now)) }
{
    let mut ended = false;
    let mut rest = bytes;
    while !ended {
        let Some(next) = item(list, letter, rest)? else {
            return Ok(None);
        };
        ended = next.ended;
        rest = next.rest;
    }
    Ok(Some(rest))
}

/// The numbers at the front, each with this mark before it, and what follows the bracket that ends them.
pub fn number_list<'a>(
    alloc: Global,
    letter: &[u8],
    bytes: &'a [u8],
) -> Result<Option<(NumberList, &'a [u8])>, Memory>
    ensures some { IfOk result (λ r. IfSome r (λ p. HasNumbers letter.now p.0 true bytes.now p.1.now)) }
    ensures none { IfOk result (λ r. IfNone r (NoNumbers letter.now bytes.now)) }
{
    let mut list = NumberList::new(alloc);
    if let Some(rest) = mark(bytes, b']') {
        return Ok(Some((list, rest)));
    }
    let Some(rest) = read_numbers(&mut list, letter, bytes)? else {
        return Ok(None);
    };
    Ok(Some((list, rest)))
}
