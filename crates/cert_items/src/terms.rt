// Terms of a text, read into a bank: a list of open applications stands for what is left of them, so no depth of term
// exhausts a stack.
ghost use Rattle.std.specs.Prelude.{◌≡◌, ◌≢◌, ◌++◌, ◌<◌, ◌≤◌, ◌∷◌, ℕ, List, [], length, false, true, IfOk, IfSome, IfNone, None, nat_eq};
ghost use Rattle.inst_logic.specs.Printing.{is_word_byte};
ghost use Rattle.term_bank.specs.Forest.{Grows};
ghost use Rattle.cert_format.specs.Names.{IsNameText};
ghost use Rattle.cert_format.specs.Runs.{begins, Ends};
ghost use Rattle.cert_format.specs.Spelling.{goes_on, IsClose};
ghost use Rattle.cert_items.specs.Reading.{IsDue, IsRead, IsState, NoTerm, NoTerms, AreTerms, IsStuck};
ghost use Rattle.inst_logic.specs.Codes as byte;

use crate::mark::mark;
use crate::name::{is_word_byte, name};
use crate::number::number;
use crate::text_bank::{TextBank, apply};
use inst_logic::{Kind, Memory};
use term_bank::TermId;

// An application whose arguments are being read: its name as it is printed, and how many ids stand before them.
#[derive(Clone, Copy)]
pub struct Open<'a> {
    name: &'a [u8],
    start: usize,
}

// What is left of the text, and whether a term is due.
#[derive(Clone, Copy)]
pub struct Left<'a> {
    due: bool,
    rest: &'a [u8],
}

pub fn goes_on(bytes: &[u8]) -> bool
    ensures { result ≡ begins goes_on bytes.now }
{
    match bytes {
        [] => false,
        [first, ..] => is_word_byte(*first) || *first == b'(',
    }
}

// Reads the variable of this number's digits.
fn begin_variable<'a>(
    bank: &mut TextBank,
    opens: &[Open<'a>],
    ids: &mut Vec<TermId>,
    digits: &'a [u8],
) -> Result<Option<Left<'a>>, Memory>
    ensures grows { Grows bank.old bank.new }
    ensures some { (bytes : List ℕ) → IsDue bank.old bytes opens.now ids.old.items (88 ∷ digits.now) → IfOk result (λ r. IfSome r (λ left. IsState bank.new bytes opens.now ids.new.items left)) }
    ensures shorter { IfOk result (λ r. IfSome r (λ left. length left.rest.now ≤ length digits.now)) }
    ensures none { IfOk result (λ r. IfNone r (NoTerm (88 ∷ digits.now))) }
{
    let Some((n, rest)) = number(digits) else {
        return Ok(None);
    };
    if goes_on(rest) {
        return Ok(None);
    }
    let id = bank.var(n)?;
    ids.push(id)?;
    Ok(Some(Left { due: false, rest }))
}

// Opens the application of this name, or makes the constant.
fn begin_application<'a>(
    bank: &mut TextBank,
    opens: &mut Vec<Open<'a>>,
    ids: &mut Vec<TermId>,
    name: &'a [u8],
    after: &'a [u8],
) -> Result<Option<Left<'a>>, Memory>
    requires name { IsNameText name.now }
    requires ends { Ends is_word_byte after.now }
    ensures grows { Grows bank.old bank.new }
    ensures state { (bytes : List ℕ) → IsDue bank.old bytes opens.old.items ids.old.items (name.now ++ after.now) → IfOk result (λ r. IfSome r (λ left. IsState bank.new bytes opens.new.items ids.new.items left)) }
    ensures some { IfOk result (λ r. IfSome r (λ left. length left.rest.now ≤ length after.now)) }
    ensures none { IfOk result (λ r. r ≢ None) }
{
    match mark(after, b'(') {
        Some(rest) => {
            let start = ids.len();
            opens.push(Open { name, start })?;
            Ok(Some(Left { due: true, rest }))
        }
        None => {
            let id = apply(bank, Kind::Function, name, &[])?;
            ids.push(id)?;
            Ok(Some(Left {
                due: false,
                rest: after,
            }))
        }
    }
}

// Reads the head of a term that is due.
fn begin<'a>(
    bank: &mut TextBank,
    opens: &mut Vec<Open<'a>>,
    ids: &mut Vec<TermId>,
    rest: &'a [u8],
) -> Result<Option<Left<'a>>, Memory>
    ensures grows { Grows bank.old bank.new }
    ensures some { (bytes : List ℕ) → IsDue bank.old bytes opens.old.items ids.old.items rest.now → IfOk result (λ r. IfSome r (λ left. IsState bank.new bytes opens.new.items ids.new.items left)) }
    ensures shorter { IfOk result (λ r. IfSome r (λ left. length left.rest.now < length rest.now)) }
    ensures none { IfOk result (λ r. IfNone r (NoTerm rest.now)) }
{
    if let Some(digits) = mark(rest, b'X') {
        return begin_variable(bank, opens.as_slice(), ids, digits);
    }
    let Some((name, after)) = name(rest) else {
        return Ok(None);
    };
    begin_application(bank, opens, ids, name, after)
}

// Makes the innermost application, whose arguments have ended.
fn close<'a>(
    bank: &mut TextBank,
    opens: &mut Vec<Open<'a>>,
    ids: &mut Vec<TermId>,
    text: &[u8],
    rest: &'a [u8],
) -> Result<Option<Left<'a>>, Memory>
    requires { IsRead bank.old text.now opens.old.items ids.old.items (byte.closing_parenthesis ∷ rest.now) }
    ensures grows { Grows bank.old bank.new }
    ensures some { IfOk result (λ r. IfSome r (IsState bank.new text.now opens.new.items ids.new.items)) }
    ensures rest { IfOk result (λ r. IfSome r (λ left. left.rest.now ≡ rest.now)) }
    ensures none { IfOk result (λ r. IfNone r (opens.old.items ≡ [])) }
{
    let Some(open) = opens.pop() else {
        return Ok(None);
    };
    let (_, args) = ids.as_slice().split_at(open.start);
    let id = apply(bank, Kind::Function, open.name, args)?;
    ids.truncate(open.start);
    ids.push(id)?;
    Ok(Some(Left { due: false, rest }))
}

fn begins(bytes: &[u8], byte: u8) -> bool
    ensures { result ≡ begins (nat_eq byte) bytes.now }
{
    match bytes {
        [] => false,
        [first, ..] => byte == *first,
    }
}

// Goes on behind a term: by a comma, or by the end of the innermost arguments.
fn go_on<'a>(
    bank: &mut TextBank,
    opens: &mut Vec<Open<'a>>,
    ids: &mut Vec<TermId>,
    text: &[u8],
    rest: &'a [u8],
) -> Result<Option<Left<'a>>, Memory>
    requires { IsRead bank.old text.now opens.old.items ids.old.items rest.now }
    ensures grows { Grows bank.old bank.new }
    ensures some { IfOk result (λ r. IfSome r (IsState bank.new text.now opens.new.items ids.new.items)) }
    ensures shorter { IfOk result (λ r. IfSome r (λ left. length left.rest.now < length rest.now)) }
    ensures none { IfOk result (λ r. IfNone r (IsStuck opens.old.items rest.now)) }
{
    if let Some(rest) = mark(rest, b',') {
        return Ok(Some(Left { due: true, rest }));
    }
    let Some(after) = mark(rest, b')') else {
        return Ok(None);
    };
    close(bank, opens, ids, text, after)
}

// One step of reading, where the terms have not ended.
fn step<'a>(
    bank: &mut TextBank,
    opens: &mut Vec<Open<'a>>,
    ids: &mut Vec<TermId>,
    text: &[u8],
    close: u8,
    left: Left<'a>,
) -> Result<Option<Left<'a>>, Memory>
    requires close { IsClose close }
    requires state { IsState bank.old text.now opens.old.items ids.old.items left }
    requires goes_on { left.due ≡ false → opens.old.items ≡ [] → begins (nat_eq close) left.rest.now ≡ false }
    ensures grows { Grows bank.old bank.new }
    ensures some { IfOk result (λ r. IfSome r (IsState bank.new text.now opens.new.items ids.new.items)) }
    ensures shorter { IfOk result (λ r. IfSome r (λ next. length next.rest.now < length left.entry.rest.now)) }
    ensures none { IfOk result (λ r. IfNone r (NoTerms text.now close)) }
{
    if left.due {
        begin(bank, opens, ids, left.rest)
    } else {
        go_on(bank, opens, ids, text, left.rest)
    }
}

/// Reads terms that are joined by commas, up to the closing mark, and what follows it.
pub fn terms<'a>(
    bank: &mut TextBank,
    ids: &mut Vec<TermId>,
    text: &'a [u8],
    close: u8,
) -> Result<Option<&'a [u8]>, Memory>
    requires close { IsClose close }
    requires empty { ids.old.items ≡ [] }
    ensures grows { Grows bank.old bank.new }
    ensures some { IfOk result (λ r. IfSome r (λ rest. AreTerms bank.new text.now close ids.new.items rest.now)) }
    ensures none { IfOk result (λ r. IfNone r (NoTerms text.now close)) }
{
    let mut opens = Vec::new(bank.alloc());
    let mut due = true;
    let mut rest = text;
    while due || !opens.is_empty() || !begins(rest, close) {
        let Some(left) = step(bank, &mut opens, ids, text, close, Left { due, rest })? else {
            return Ok(None);
        };
        due = left.due;
        rest = left.rest;
    }
    Ok(mark(rest, close))
}
