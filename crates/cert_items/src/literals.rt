// Literals of a text, read into a bank: a predicate with or without `~` before it, or two terms with a sign of equality between
// them. A literal that stands in the text before is taken by its text, and nothing of it is read.
ghost use Rattle.std.specs.Prelude.{◌≡◌, ◌≢◌, ◌++◌, ◌<◌, ◌≤◌, ◌∷◌, ℕ, List, length, false, true, map, IsTrue, IfOk, IfSome, IfNone, None};
ghost use Rattle.inst_logic.specs.declared.symbol.Kind.{Kind};
ghost use Rattle.inst_logic.specs.declared.symbol.Kind.TheVariants.{Predicate, Equality, Function};
ghost use Rattle.term_bank.specs.Forest.{tree_at, AreIds, IsAt, Grows};
ghost use Rattle.inst_logic.specs.Printing.{equality_sign, sign_text};
ghost use Rattle.cert_format.specs.Names.{IsNameText};
ghost use Rattle.cert_format.specs.Runs.{Ends};
ghost use Rattle.cert_format.specs.Spelling.{is_printable, goes_on, IsEqualitySign};
ghost use Rattle.cert_items.specs.Reading.{ArePrintable, NoTerm};
ghost use Rattle.cert_items.specs.Roots.{IsRootAt, IsRoot, IsTermAt, IsApplicationAt, IsLiteralAt, NoForm, equality_atom};
ghost use Rattle.inst_logic.specs.Codes as byte;

use crate::mark::{mark, word};
use crate::name::name;
use crate::number::number;
use crate::recent::{Candidate, candidate_of};
use crate::terms::{goes_on, terms};
use crate::text_bank::{TextBank, apply};
use inst_logic::{Kind, Memory, Name, Sym};
use term_bank::{IdLiteral, TermId};

// A variable with its number, or an application, whose name is printed so.
#[derive(Clone, Copy)]
pub enum Root<'a> {
    Variable(usize),
    Application(&'a [u8]),
}

// A term but for the symbol at its root, whose arguments go into `ids`, and what follows it.
fn head<'a>(
    bank: &mut TextBank,
    ids: &mut Vec<TermId>,
    bytes: &'a [u8],
) -> Result<Option<(Root<'a>, &'a [u8])>, Memory>
    ensures grows { Grows bank.old bank.new }
    ensures some { IfOk result (λ r. IfSome r (λ p. IsRootAt bank.new p.0 ids.new.items bytes.now p.1.now)) }
    ensures none { IfOk result (λ r. IfNone r (NoTerm bytes.now)) }
{
    ids.clear();
    if let Some(digits) = mark(bytes, b'X') {
        let Some((n, rest)) = number(digits) else {
            return Ok(None);
        };
        if goes_on(rest) {
            return Ok(None);
        }
        return Ok(Some((Root::Variable(n), rest)));
    }
    let Some((name, after)) = name(bytes) else {
        return Ok(None);
    };
    let Some(inner) = mark(after, b'(') else {
        return Ok(Some((Root::Application(name), after)));
    };
    let Some(rest) = terms(bank, ids, inner, b')')? else {
        return Ok(None);
    };
    Ok(Some((Root::Application(name), rest)))
}

// The term of this root.
fn whole(bank: &mut TextBank, root: &Root<'_>, ids: &[TermId]) -> Result<TermId, Memory>
    requires { IsRoot bank.old root.now ids.now }
    ensures grows { Grows bank.old bank.new }
    ensures at { (bytes rest : List ℕ) → IsRootAt bank.old root.now ids.now bytes rest → IfOk result (λ id. IsTermAt bank.new id bytes rest) }
{
    match root {
        Root::Variable(n) => bank.var(*n),
        Root::Application(name) => apply(bank, Kind::Function, name, ids),
    }
}

// A term, and what follows it.
fn term<'a>(
    bank: &mut TextBank,
    ids: &mut Vec<TermId>,
    bytes: &'a [u8],
) -> Result<Option<(TermId, &'a [u8])>, Memory>
    ensures grows { Grows bank.old bank.new }
    ensures some { IfOk result (λ r. IfSome r (λ p. IsTermAt bank.new p.0 bytes.now p.1.now)) }
    ensures none { IfOk result (λ r. IfNone r (NoTerm bytes.now)) }
{
    let Some((root, rest)) = head(bank, ids, bytes)? else {
        return Ok(None);
    };
    let id = whole(bank, &root, ids.as_slice())?;
    Ok(Some((id, rest)))
}

// The sign of equality, positive or negative, and what follows it.
fn equality_sign(bytes: &[u8]) -> Option<(bool, &[u8])>
    ensures some { IfSome result (λ p. bytes.now ≡ equality_sign p.0 ++ p.1.now) }
    ensures none { IfNone result (¬ IsEqualitySign bytes.now) }
{
    if let Some(rest) = word(bytes, b" = ") {
        return Some((true, rest));
    }
    let rest = word(bytes, b" != ")?;
    Some((false, rest))
}

// The literal of this predicate, whose text is at the front of `bytes` behind the sign.
fn predicate(
    bank: &mut TextBank,
    positive: bool,
    name: &[u8],
    ids: &[TermId],
) -> Result<IdLiteral, Memory>
    requires name { IsNameText name.now }
    requires within { AreIds bank.old ids.now }
    requires printable { ArePrintable (map (tree_at bank.old) ids.now) }
    ensures grows { Grows bank.old bank.new }
    ensures at { (bytes rest : List ℕ) → IsApplicationAt bank.old name.now ids.now bytes rest → ¬ IsEqualitySign rest → IfOk result (λ l. IsLiteralAt bank.new l (sign_text positive ++ bytes) rest) }
{
    let atom = apply(bank, Kind::Predicate, name, ids)?;
    Ok(IdLiteral { positive, atom })
}

// The equation of these terms.
fn equation(
    bank: &mut TextBank,
    positive: bool,
    left: TermId,
    right: TermId,
) -> Result<IdLiteral, Memory>
    requires left { left < length bank.old.trees }
    requires right { right < length bank.old.trees }
    requires terms { IsTrue (is_printable (tree_at bank.old left)) × IsTrue (is_printable (tree_at bank.old right)) }
    ensures grows { Grows bank.old bank.new }
    ensures at { IfOk result (λ l. (l.positive ≡ positive) × IsAt bank.new l.atom (equality_atom (tree_at bank.old left) (tree_at bank.old right))) }
{
    let name = Name::of(bank.alloc(), b"=")?;
    let sym = Sym {
        kind: Kind::Equality,
        name,
        arity: 2,
    };
    let atom = bank.app(&sym, &[left, right])?;
    Ok(IdLiteral { positive, atom })
}

// The equation of this left side and the term at the front of `after`.
fn equal<'a>(
    bank: &mut TextBank,
    ids: &mut Vec<TermId>,
    positive: bool,
    left: TermId,
    bytes: &[u8],
    after: &'a [u8],
) -> Result<Option<(IdLiteral, &'a [u8])>, Memory>
    requires { IsTermAt bank.old left bytes.now (equality_sign positive ++ after.now) }
    ensures grows { Grows bank.old bank.new }
    ensures some { IfOk result (λ r. IfSome r (λ p. IsLiteralAt bank.new p.0 bytes.now p.1.now)) }
    ensures none { ((rest : List ℕ) → bytes.now ≢ byte.tilde ∷ rest) → IfOk result (λ r. IfNone r (NoForm bytes.now)) }
{
    match term(bank, ids, after) {
        Err(e) => Err(e),
        Ok(None) => Ok(None),
        Ok(Some((right, rest))) => {
            let l = equation(bank, positive, left, right)?;
            Ok(Some((l, rest)))
        }
    }
}

// A literal without a `~`, by the root of its first term.
fn literal_by_root<'a>(
    bank: &mut TextBank,
    ids: &mut Vec<TermId>,
    bytes: &'a [u8],
) -> Result<Option<(IdLiteral, &'a [u8])>, Memory>
    ensures grows { Grows bank.old bank.new }
    ensures some { IfOk result (λ r. IfSome r (λ p. IsLiteralAt bank.new p.0 bytes.now p.1.now)) }
    ensures none { ((rest : List ℕ) → bytes.now ≢ byte.tilde ∷ rest) → IfOk result (λ r. IfNone r (NoForm bytes.now)) }
{
    let Some((root, rest)) = head(bank, ids, bytes)? else {
        return Ok(None);
    };
    if let Some((positive, after)) = equality_sign(rest) {
        let left = whole(bank, &root, ids.as_slice())?;
        return equal(bank, ids, positive, left, bytes, after);
    }
    let Root::Application(name) = root else {
        return Ok(None);
    };
    let l = predicate(bank, true, name, ids.as_slice())?;
    Ok(Some((l, rest)))
}

// The literal behind a `~`.
fn negative_literal<'a>(
    bank: &mut TextBank,
    ids: &mut Vec<TermId>,
    bytes: &'a [u8],
) -> Result<Option<(IdLiteral, &'a [u8])>, Memory>
    ensures grows { Grows bank.old bank.new }
    ensures some { IfOk result (λ r. IfSome r (λ p. IsLiteralAt bank.new p.0 (byte.tilde ∷ bytes.now) p.1.now)) }
    ensures none { IfOk result (λ r. IfNone r (NoForm (byte.tilde ∷ bytes.now))) }
{
    let Some((root, rest)) = head(bank, ids, bytes)? else {
        return Ok(None);
    };
    let Root::Application(name) = root else {
        return Ok(None);
    };
    if equality_sign(rest).is_some() {
        return Ok(None);
    }
    let l = predicate(bank, false, name, ids.as_slice())?;
    Ok(Some((l, rest)))
}

// The literal at the front, read term by term, and what follows it.
fn read_literal<'a>(
    bank: &mut TextBank,
    ids: &mut Vec<TermId>,
    bytes: &'a [u8],
) -> Result<Option<(IdLiteral, &'a [u8])>, Memory>
    ensures grows { Grows bank.old bank.new }
    ensures some { IfOk result (λ r. IfSome r (λ p. IsLiteralAt bank.new p.0 bytes.now p.1.now)) }
    ensures none { IfOk result (λ r. IfNone r (NoForm bytes.now)) }
{
    match mark(bytes, b'~') {
        Some(after) => negative_literal(bank, ids, after),
        None => literal_by_root(bank, ids, bytes),
    }
}

// Whether no literal goes on here, as is seen where a clause ends or has another one.
#[tactic(auto, using(crate::proofs::Behind::comma_no_sign, crate::proofs::Behind::bar_no_sign))]
fn is_behind(rest: &[u8]) -> bool
    ensures ends { IsTrue result → Ends goes_on rest.now }
    ensures unequal { IsTrue result → ¬ IsEqualitySign rest.now }
{
    match rest {
        [b',', ..] => true,
        [b' ', b'|', ..] => true,
        _ => false,
    }
}

// The literal at the front that was read before, and what follows it.
fn known_literal<'a>(
    bank: &TextBank,
    candidate: Candidate,
    bytes: &'a [u8],
) -> Option<(IdLiteral, &'a [u8])>
    requires { candidate.len ≤ length bytes.now }
    ensures { IfSome result (λ p. IsLiteralAt bank.now p.0 bytes.now p.1.now) }
{
    let (text, rest) = bytes.split_at(candidate.len);
    if !is_behind(rest) {
        return None;
    }
    let l = bank.literal_of(text, candidate.code)?;
    Some((l, rest))
}

// Remembers the literal at the front, where it is the candidate.
fn note_literal(
    bank: &mut TextBank,
    candidate: Candidate,
    bytes: &[u8],
    rest: &[u8],
    l: &IdLiteral,
) -> Result<(), Memory>
    requires within { candidate.len ≤ length bytes.now }
    requires literal { IsLiteralAt bank.old l.now bytes.now rest.now }
    ensures { bank.new ≡ bank.old }
{
    let (text, after) = bytes.split_at(candidate.len);
    if after.len() != rest.len() {
        return Ok(());
    }
    bank.note(text, candidate.code, l)
}

// The literal at the front, which was not remembered, and what follows it.
fn new_literal<'a>(
    bank: &mut TextBank,
    ids: &mut Vec<TermId>,
    candidate: Candidate,
    bytes: &'a [u8],
) -> Result<Option<(IdLiteral, &'a [u8])>, Memory>
    requires within { candidate.len ≤ length bytes.now }
    ensures grows { Grows bank.old bank.new }
    ensures some { IfOk result (λ r. IfSome r (λ p. IsLiteralAt bank.new p.0 bytes.now p.1.now)) }
    ensures none { IfOk result (λ r. IfNone r (NoForm bytes.now)) }
{
    match read_literal(bank, ids, bytes) {
        Err(e) => Err(e),
        Ok(None) => Ok(None),
        Ok(Some((l, rest))) => {
            note_literal(bank, candidate, bytes, rest, &l)?;
            Ok(Some((l, rest)))
        }
    }
}

/// The literal at the front, and what follows it.
pub fn literal<'a>(
    bank: &mut TextBank,
    ids: &mut Vec<TermId>,
    bytes: &'a [u8],
) -> Result<Option<(IdLiteral, &'a [u8])>, Memory>
    ensures grows { Grows bank.old bank.new }
    ensures some { IfOk result (λ r. IfSome r (λ p. IsLiteralAt bank.new p.0 bytes.now p.1.now)) }
    ensures none { IfOk result (λ r. IfNone r (NoForm bytes.now)) }
{
    let candidate = candidate_of(bytes);
    match known_literal(bank, candidate, bytes) {
        Some((l, rest)) => Ok(Some((l, rest))),
        None => new_literal(bank, ids, candidate, bytes),
    }
}
